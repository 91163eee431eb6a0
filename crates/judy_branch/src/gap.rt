//! Moves words of a block by one place.
ghost use Rattle.std.specs.Prelude.{◌≡◌, ◌+◌, ◌<◌, ◌≤◌, length};
ghost use lib.Seq.{paste};
ghost use Rattle.judy_branch.specs.Written.{IsOpened, IsClosed};

/// Moves the `count` words from a place on up by one, and writes a word at that place.
pub(crate) fn open_gap(words: &mut [u64], at: usize, count: usize, word: u64)
    requires { at + count < length words.old }
    ensures { IsOpened words.old words.new at count word }
{
    words.copy_within(at..at + count, at + 1);
    words[at] = word;
}

/// Moves the `count` words after a place down by one, over the word there.
pub(crate) fn close_gap(words: &mut [u64], at: usize, count: usize)
    requires { at + count < length words.old }
    ensures { IsClosed words.old words.new at count }
{
    words.copy_within(at + 1..at + 1 + count, at);
}

/// Writes words over others, from a place on.
pub(crate) fn copy_in(words: &mut [u64], at: usize, source: &[u64])
    requires { at + length source.now ≤ length words.old }
    ensures { words.new ≡ paste words.old at source.now (length source.now) }
{
    words[at..at + source.len()].copy_from_slice(source);
}

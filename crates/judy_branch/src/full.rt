//! The children of a full branch.
ghost use Rattle.std.specs.Prelude.{◌≡◌, ◌+◌, ◌<◌, ◌≤◌, IsTrue, IsFalse};
ghost use Rattle.judy_model.specs.Contents.{word_order, value_of, has_key, with_entry, without_key};
ghost use Rattle.judy_branch.specs.Children.{IsLaid, children_in, count_in, is_child};
ghost use Rattle.judy_branch.specs.Nearest.{IsNextByte, IsPrevByte};
ghost use Rattle.judy_branch.specs.Rows.{IsChildRow};
ghost use Rattle.judy_branch.specs.Written.{BranchBecomes};
ghost use Rattle.judy_branch.specs.declared.shape.Shape.TheVariants.{Full};

/// The word of a byte's child.
pub(crate) fn child(words: &[u64], byte: u8) -> Option<u64>
    requires { IsLaid Full words.now }
    ensures { result ≡ value_of word_order (children_in Full words.now) byte }
{
    let word = words[3 + usize::from(byte)];
    if word == 0 { None } else { Some(word) }
}

/// Inserts a child at a byte that has none.
pub(crate) fn insert(words: &mut [u64], byte: u8, child: u64)
    requires laid { IsLaid Full words.old }
    requires absent { IsFalse (has_key word_order (children_in Full words.old) byte) }
    requires few { count_in words.old < 256 }
    requires child { IsTrue (is_child child) }
    ensures { BranchBecomes Full words.old words.new
        (with_entry word_order (children_in Full words.old) byte child) }
{
    let head = words[0];
    words[3 + usize::from(byte)] = child;
    words[0] = head + 1;
}

/// Replaces the child of a byte.
pub(crate) fn write(words: &mut [u64], byte: u8, child: u64)
    requires laid { IsLaid Full words.old }
    requires there { IsTrue (has_key word_order (children_in Full words.old) byte) }
    requires child { IsTrue (is_child child) }
    ensures { BranchBecomes Full words.old words.new
        (with_entry word_order (children_in Full words.old) byte child) }
{
    words[3 + usize::from(byte)] = child;
}

/// Removes the child of a byte.
pub(crate) fn remove(words: &mut [u64], byte: u8)
    requires laid { IsLaid Full words.old }
    requires there { IsTrue (has_key word_order (children_in Full words.old) byte) }
    ensures { BranchBecomes Full words.old words.new
        (without_key word_order (children_in Full words.old) byte) }
{
    let head = words[0];
    words[3 + usize::from(byte)] = 0;
    words[0] = head - 1;
}

/// The first byte from this one on that has a child.
pub(crate) fn next_byte(words: &[u64], byte: u8) -> Option<u8>
    requires { IsLaid Full words.now }
    ensures { IsNextByte (children_in Full words.now) byte result }
{
    for at in usize::from(byte)..256 {
        if words[3 + at] != 0 {
            return Some(at as u8);
        }
    }
    None
}

/// The last byte up to this one that has a child.
pub(crate) fn prev_byte(words: &[u64], byte: u8) -> Option<u8>
    requires { IsLaid Full words.now }
    ensures { IsPrevByte (children_in Full words.now) byte result }
{
    for at in (0..usize::from(byte) + 1).rev() {
        if words[3 + at] != 0 {
            return Some(at as u8);
        }
    }
    None
}

/// The words of a byte and of all bytes after it.
pub(crate) fn row(words: &[u64], byte: u8) -> &[u64]
    requires { IsLaid Full words.now }
    ensures { IsChildRow (children_in Full words.now) byte result.now }
{
    &words[3 + usize::from(byte)..259]
}

//! One chunk of a region.
ghost use Rattle.std.specs.Prelude.{ℕ, ◌≡◌, ◌<◌, ◌≤◌, ◌+◌, ◌++◌, [], length, slice_index, slice_set, slice_range, slice_index_or, ◌≢◌, drop, IfOk};
ghost use lib.Seq.{paste};
ghost use Rattle.std.specs.Borrow.{sem};
ghost use Rattle.judy_region.specs.Flat.{zeros};
ghost use Rattle.judy_region.specs.LendingChunk.{LendsPart};

use crate::words::{Lease, Words};
use std::alloc::{AllocError, Global};
use std::marker::Model;

/// How many words a chunk has room for.
pub(crate) const CHUNK: usize = 65_536;

/// How many words a chunk grows by.
pub(crate) const RUN: usize = 512;

/// Words that never move. A chunk has room for 65,536 words and grows by 512 at a time.
pub(crate) struct Chunk {
    memory: Words,
    lease: Lease<Global>,
    alloc: Global,
}

impl Model for Chunk {
    ghost use Rattle.std.specs.Prelude.{List, ℕ, ◌≡◌};

    ghost Value = { List ℕ };

    ghost view = { λ c. c.memory.words };

    ghost invariant = { λ c. (c.lease.alloc ≡ c.alloc) × (c.lease.at ≡ c.memory.at) };
}

impl Drop for Chunk {
    fn drop(self) {
        let Chunk {
            memory,
            lease,
            alloc,
        } = self;
        memory.free(lease, &alloc);
    }
}

impl Chunk {
    /// An empty chunk, if there is memory for its 65,536 words.
    pub(crate) fn new(alloc: Global) -> Result<Chunk, AllocError>
        ensures { IfOk result (λ chunk. chunk ≡ []) }
    {
        match Words::new(&alloc) {
            Some((memory, lease)) => Ok(Chunk {
                memory,
                lease,
                alloc,
            }),
            None => Err(AllocError),
        }
    }

    /// How many words the chunk has.
    pub(crate) fn len(&self) -> usize
        ensures { result ≡ length self.now }
    {
        self.memory.as_slice().len()
    }

    /// The chunk with a run of 512 zeros more. It has room for it.
    pub(crate) fn grown(self) -> Chunk
        requires { length self + 512 ≤ 65536 }
        ensures { result ≡ self ++ zeros 512 }
    {
        let Chunk {
            memory,
            lease,
            alloc,
        } = self;
        Chunk {
            memory: filled(memory),
            lease,
            alloc,
        }
    }

    /// Its words.
    pub(crate) fn as_slice(&self) -> &[u64]
        ensures { result.now ≡ self.now }
    {
        self.memory.as_slice()
    }

    /// The word at a place.
    pub(crate) fn get(&self, i: usize) -> u64
        requires { i < length self.now }
        ensures { result ≡ slice_index self.now i }
    {
        self.as_slice()[i]
    }

    /// The words of a part.
    pub(crate) fn part(&self, start: usize, len: usize) -> &[u64]
        requires { start + len ≤ length self.now }
        ensures { result.now ≡ slice_range self.now start (start + len) }
    {
        &self.as_slice()[start..start + len]
    }

    /// The words of a part, mutable.
    pub(crate) fn part_mut(&mut self, start: usize, len: usize) -> &mut [u64]
        requires { start + len ≤ length self.old }
        ensures* lends { sem 𝓛 (LendsPart self.entry start len result) }
        ensures value { result.now ≡ slice_range self.old start (start + len) }
    {
        self.memory.part_mut(start, len)
    }

    /// Writes the word at a place.
    pub(crate) fn set(&mut self, i: usize, word: u64)
        requires { i < length self.old }
        ensures { self.new ≡ slice_set self.old i word }
    {
        self.memory.set(i, word);
    }

    /// Writes words, from a place on.
    pub(crate) fn write(&mut self, at: usize, source: &[u64])
        requires { at + length source.now ≤ length self.old }
        ensures { self.new ≡ paste self.old at source.now (length source.now) }
    {
        self.part_mut(at, source.len()).copy_from_slice(source);
    }

    /// Writes zeros, from a place on.
    pub(crate) fn clear(&mut self, at: usize, len: usize)
        requires { at + len ≤ length self.old }
        ensures { self.new ≡ paste self.old at (zeros len) len }
    {
        self.part_mut(at, len).fill(0);
    }

    /// Copies `len` words from place `i` to place `at`. The two parts may overlap.
    pub(crate) fn move_words(&mut self, i: usize, at: usize, len: usize)
        requires source { i + len ≤ length self.old }
        requires target { at + len ≤ length self.old }
        ensures { self.new ≡ paste self.old at (drop i self.old) len }
    {
        let all = self.len();
        move_over(self.part_mut(0, all), i, at, len);
    }
}

/// The memory of a chunk with a run of zeros more. It is passed by value, so that the compiler can
/// keep its length in a register.
fn filled(memory: Words) -> Words
    requires { length memory.words + 512 ≤ 65536 }
    ensures at { result.at ≡ memory.at }
    ensures words { result.words ≡ memory.words ++ zeros 512 }
{
    let mut more = memory;
    for _count in 0..RUN {
        more.push(0);
    }
    more
}

/// Copies `len` words from place `i` to place `at`.
fn move_over(words: &mut [u64], i: usize, at: usize, len: usize)
    requires source { i + len ≤ length words.old }
    requires target { at + len ≤ length words.old }
    ensures { words.new ≡ paste words.old at (drop i words.old) len }
{
    words.copy_within(i..i + len, at);
}

/// Copies `len` words of one chunk, from place `i`, to another chunk at place `at`.
pub(crate) fn copy_between(
    chunks: &mut [Chunk],
    source: usize,
    i: usize,
    target: usize,
    at: usize,
    len: usize,
)
    requires other { source ≢ target }
    requires source_there { source < length chunks.old }
    requires target_there { target < length chunks.old }
    requires source_ends { i + len ≤ length (slice_index_or chunks.old source []) }
    requires target_ends { at + len ≤ length (slice_index_or chunks.old target []) }
    ensures { chunks.new ≡ slice_set chunks.old target
        (paste (slice_index_or chunks.old target []) at
        (drop i (slice_index_or chunks.old source [])) len) }
{
    if source < target {
        let (low, high) = chunks.split_at_mut(target);
        high[0].write(at, low[source].part(i, len));
    } else {
        let (low, high) = chunks.split_at_mut(source);
        low[target].write(at, high[0].part(i, len));
    }
}

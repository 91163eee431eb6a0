//! Memory in chunks of 65,536 words that never move, seen as one list of words.
//!
//! It grows by runs of 512 words. Each run lies inside one chunk. A word past the end is never
//! touched.
//!
//! Beyond its words a region takes 16 bytes a chunk for the table of chunks, which has room for at
//! most four times the chunks in use. The machine's allocator adds its own header: with glibc one
//! page of 4,096 bytes for the 128 pages of each chunk, 0.78 %.
#![tactic(auto)]

mod chunk;
mod words;

ghost use Rattle.std.specs.Prelude.{ℕ, ◌≡◌, ◌≢◌, ◌/◌, ◌*◌, ◌<◌, ◌≤◌, ◌+◌, ◌++◌, ◌%◌, [], ◌∷◌, length, slice_index, slice_set, slice_range, slice_index_or, drop, OnOk, OnErr, IfErr, IfSome, IfNone, IsTrue, IsFalse, vec_capacity};
ghost use lib.Seq.{paste};
ghost use Rattle.std.specs.Borrow.{sem};
ghost use Rattle.judy_region.specs.Flat.{zeros, IsInOne};
ghost use Rattle.judy_region.specs.LendingRegion.{LendsWords};
ghost use Rattle.judy_region.specs.declared.Refusal.TheVariants.{Full, NoMemory};

use crate::chunk::{CHUNK, Chunk, copy_between};
use std::alloc::Global;
use std::marker::Model;

/// The greatest number of chunks: with more, some words would have no block number below 2^32.
const CHUNKS: usize = 262_144;

/// Why a region cannot grow.
#[derive(Clone, Copy, Debug, PartialEq, Eq)]
pub enum Refusal {
    /// It has all 262,144 chunks, and each is whole.
    Full,
    /// The machine refused memory.
    NoMemory,
}

/// Words in chunks, seen as one list.
#[derive(Drop)]
pub struct Region {
    chunks: Vec<Chunk>,
}

impl Model for Region {
    ghost use Rattle.std.specs.Prelude.{List, ℕ, length, ◌≡◌, ◌≤◌, ◌*◌, vec_capacity};
    ghost use Rattle.judy_region.specs.Flat.{flat_by, IsChunkRow, AreRuns};

    ghost Value = { List ℕ };

    ghost view = { λ r. flat_by (λ c. c) r.chunks.items };

    ghost invariant = { λ r. (IsChunkRow (λ c. length c) 65536 r.chunks.items
        × AreRuns (λ c. length c) r.chunks.items × (length r.chunks.items ≤ 262144))
        × (vec_capacity r.chunks ≤ 4 * length r.chunks.items) };
}

impl Region {
    /// A region with no words. It takes no memory.
    pub fn new(alloc: Global) -> Region
        ensures { result ≡ [] }
    {
        Region {
            chunks: Vec::new(alloc),
        }
    }

    /// Adds a run of 512 zeros, if there is memory. Inside a chunk there always is.
    pub fn grow(&mut self, alloc: Global) -> Result<(), Refusal>
        ensures ok { OnOk result (self.new ≡ self.old ++ zeros 512) }
        ensures err { OnErr result (self.new ≡ self.old) }
        ensures whole { OnErr result (length self.old % 65536 ≡ 0) }
        ensures full { IfErr result (λ why. why ≡ Full → length self.old ≡ 17179869184) }
        ensures spare { IfErr result (λ why. why ≡ NoMemory → length self.old < 17179869184) }
    {
        match open_chunk(&self.chunks) {
            Some(_) => {
                grow_last(&mut self.chunks);
                Ok(())
            }
            None => add_chunk(&mut self.chunks, alloc),
        }
    }

    /// How many chunks its table has room for, of 16 bytes each.
    pub fn table(&self) -> usize
        ensures { result ≤ 4 * ((length self.now + 65535) / 65536) }
    {
        self.chunks.capacity()
    }

    /// The word at a place.
    pub fn get(&self, place: usize) -> u64
        requires { place < length self.now }
        ensures { result ≡ slice_index self.now place }
    {
        self.chunks[place / CHUNK].get(place % CHUNK)
    }

    /// The words of a part that lies in one chunk.
    pub fn words(&self, place: usize, len: usize) -> &[u64]
        requires { IsInOne self.now place len }
        ensures { result.now ≡ slice_range self.now place (place + len) }
    {
        self.chunks[place / CHUNK].part(place % CHUNK, len)
    }

    /// The words of a part that lies in one chunk, mutable.
    pub fn words_mut(&mut self, place: usize, len: usize) -> &mut [u64]
        requires { IsInOne self.old place len }
        ensures* lends { sem 𝓛 (LendsWords self.entry place len result) }
        ensures value { result.now ≡ slice_range self.old place (place + len) }
    {
        self.chunks[place / CHUNK].part_mut(place % CHUNK, len)
    }

    /// Writes the word at a place.
    pub fn set(&mut self, place: usize, word: u64)
        requires { place < length self.old }
        ensures { self.new ≡ slice_set self.old place word }
    {
        self.chunks[place / CHUNK].set(place % CHUNK, word);
    }

    /// Writes words over a part that lies in one chunk.
    pub fn write(&mut self, place: usize, source: &[u64])
        requires { IsInOne self.old place (length source.now) }
        ensures { self.new ≡ paste self.old place source.now (length source.now) }
    {
        self.chunks[place / CHUNK].write(place % CHUNK, source);
    }

    /// Writes zeros over a part that lies in one chunk.
    pub fn clear(&mut self, place: usize, len: usize)
        requires { IsInOne self.old place len }
        ensures { self.new ≡ paste self.old place (zeros len) len }
    {
        self.chunks[place / CHUNK].clear(place % CHUNK, len);
    }

    /// Copies `len` words from place `from` to place `to`. Each of the two parts lies in one chunk.
    /// They may overlap.
    pub fn copy(&mut self, from: usize, to: usize, len: usize)
        requires source { IsInOne self.old from len }
        requires target { IsInOne self.old to len }
        ensures { self.new ≡ paste self.old to (drop from self.old) len }
    {
        if from / CHUNK == to / CHUNK {
            self.move_words(from, to, len);
        } else {
            self.copy_over(from, to, len);
        }
    }

    /// Copies as `copy` does, inside one chunk.
    fn move_words(&mut self, from: usize, to: usize, len: usize)
        requires one { from / 65536 ≡ to / 65536 }
        requires source { IsInOne self.old from len }
        requires target { IsInOne self.old to len }
        ensures { self.new ≡ paste self.old to (drop from self.old) len }
    {
        self.chunks[to / CHUNK].move_words(from % CHUNK, to % CHUNK, len);
    }

    /// Copies as `copy` does, from one chunk to another.
    fn copy_over(&mut self, from: usize, to: usize, len: usize)
        requires other { from / 65536 ≢ to / 65536 }
        requires source { IsInOne self.old from len }
        requires target { IsInOne self.old to len }
        ensures { self.new ≡ paste self.old to (drop from self.old) len }
    {
        let chunks = self.chunks.as_mut_slice();
        copy_between(
            chunks,
            from / CHUNK,
            from % CHUNK,
            to / CHUNK,
            to % CHUNK,
            len,
        );
    }
}

/// The last chunk, if it is not whole.
fn open_chunk(chunks: &[Chunk]) -> Option<usize>
    ensures last { IfSome result (λ q. q + 1 ≡ length chunks.now) }
    ensures open { IfSome result (λ q. length (slice_index_or chunks.now q []) < 65536) }
    ensures whole { IfNone result
        ((q : ℕ) → q + 1 ≡ length chunks.now → 65536 ≤ length (slice_index_or chunks.now q [])) }
{
    let count = chunks.len();
    if count == 0 {
        return None;
    }
    if chunks[count - 1].len() < CHUNK {
        return Some(count - 1);
    }
    None
}

/// Adds a run of zeros to the last chunk, which has room for it.
fn grow_last(chunks: &mut Vec<Chunk>)
    requires some { 0 < length chunks.old.items }
    requires room { (q : ℕ) → q + 1 ≡ length chunks.old.items
        → length (slice_index_or chunks.old.items q []) + 512 ≤ 65536 }
    ensures grown { (q : ℕ) → q + 1 ≡ length chunks.old.items → chunks.new.items
        ≡ slice_set chunks.old.items q (slice_index_or chunks.old.items q [] ++ zeros 512) }
    ensures table { vec_capacity chunks.new ≡ vec_capacity chunks.old }
{
    let last = chunks.take_last();
    chunks.push_reserved(last.grown());
}

/// Adds a chunk with a run of zeros, if there is memory and the region is not full.
fn add_chunk(chunks: &mut Vec<Chunk>, alloc: Global) -> Result<(), Refusal>
    requires table { vec_capacity chunks.old ≤ 4 * length chunks.old.items }
    ensures ok { OnOk result (chunks.new.items ≡ chunks.old.items ++ zeros 512 ∷ []) }
    ensures few { OnOk result (length chunks.old.items < 262144) }
    ensures err { OnErr result (chunks.new.items ≡ chunks.old.items) }
    ensures full { IfErr result (λ why. why ≡ Full → 262144 ≤ length chunks.old.items) }
    ensures spare { IfErr result (λ why. why ≡ NoMemory → length chunks.old.items < 262144) }
    ensures table { vec_capacity chunks.new ≤ 4 * length chunks.new.items }
{
    if chunks.len() >= CHUNKS {
        return Err(Refusal::Full);
    }
    match Chunk::new(alloc) {
        Ok(chunk) => add(chunks, chunk.grown()),
        Err(_) => Err(Refusal::NoMemory),
    }
}

/// Adds a chunk to the table, if there is memory for the table.
fn add(chunks: &mut Vec<Chunk>, chunk: Chunk) -> Result<(), Refusal>
    requires table { vec_capacity chunks.old ≤ 4 * length chunks.old.items }
    ensures ok { OnOk result (chunks.new.items ≡ chunks.old.items ++ chunk ∷ []) }
    ensures err { OnErr result (chunks.new.items ≡ chunks.old.items) }
    ensures memory { IfErr result (λ why. why ≡ NoMemory) }
    ensures table { vec_capacity chunks.new ≤ 4 * length chunks.new.items }
{
    if !open_place(chunks) {
        return Err(Refusal::NoMemory);
    }
    chunks.push_reserved(chunk);
    Ok(())
}

/// Makes sure that the table has room for one chunk more, if there is memory. A full table doubles.
fn open_place(chunks: &mut Vec<Chunk>) -> bool
    requires table { vec_capacity chunks.old ≤ 4 * length chunks.old.items }
    ensures items { chunks.new.items ≡ chunks.old.items }
    ensures room { IsTrue result → length chunks.old.items < vec_capacity chunks.new }
    ensures table { IsTrue result → vec_capacity chunks.new ≤ 4 * (length chunks.old.items + 1) }
    ensures kept { IsFalse result → vec_capacity chunks.new ≡ vec_capacity chunks.old }
{
    let count = chunks.len();
    if count < chunks.capacity() {
        return true;
    }
    let more = if count < 4 { 4 } else { count };
    chunks.reserve_exact(more).is_ok()
}

//! The pool of an arena: blocks of eight sizes in a region of words, and a list of free blocks for
//! each size.
ghost use Rattle.std.specs.Prelude.{◌≡◌, ◌≢◌, ℕ, ◌+◌, ◌*◌, ◌/◌, ◌<◌, ◌≤◌, ◌++◌, IfSome, IfNone, IsTrue, IsFalse, ◌%◌, vec_capacity, length, take, drop, min, max, slice_set, slice_index, [], replicate};
ghost use lib.Seq.{paste};
ghost use Rattle.std.specs.Borrow.{sem};
ghost use Rattle.judy_arena.specs.Blocks.{is_live, words_of, put, without, zeros, no_blocks, total_words};
ghost use Rattle.judy_arena.specs.Room.{room};
ghost use Rattle.judy_arena.specs.Ready.{greatest};
ghost use Rattle.judy_arena.specs.Layout.{span, size_of, linked, blocks_of, AreBuddies, IsAlone, IsSound, HasMarkRoom};
ghost use Rattle.judy_region.specs.Flat.{zeros as no_marks, IsInOne};
ghost use Rattle.judy_arena.specs.LendingPool.{LendsPoolRun};

use crate::block::NUMBERS;
use judy_region::Region;
use std::alloc::Global;
use std::marker::Model;

/// How many marks a run of a region has: one for every four of its 512 words.
const RUN: usize = 128;

/// How many marks a chunk has.
const MARKS: usize = 16_384;

/// The class of the greatest blocks.
pub(crate) const LAST: usize = 7;

/// Blocks in a region. A block of class k has 4 << k words.
///
/// There is one mark for every four words: 0 if no block starts there, k + 1 for a live block of
/// class k, k + 9 for a free one. The free blocks of a class form a list: its head, and the first
/// word of each block in it, is the number of the next block plus 1, or 0. The second word of each
/// block but the first one is the number of the block before it plus 1.
///
/// A block of class k lies at a multiple of its size. So it is one half of a block of class k + 1;
/// the other half is its buddy. A block that is released and its buddy become one free block if the
/// buddy is free, and so on. So two buddies are never both free, and a run with no live block is one
/// free block.
///
/// Beyond the words of its region the pool takes one byte for each mark: 16,384 bytes beside the
/// 524,288 bytes of a chunk, 3.125 %. The marks have room for whole chunks: for the chunks in use,
/// and for at most one more, if the machine had memory for its marks and then none for its words. A
/// block has no header, and the lists of free blocks lie in free words.
#[derive(Drop)]
pub(crate) struct Pool {
    region: Region,
    marks: Vec<u8>,
    heads: [u64; 8],
}

impl Model for Pool {
    ghost use Rattle.std.specs.Prelude.{◌*◌, length, vec_capacity};
    ghost use Rattle.judy_arena.specs.Free.{free_words};
    ghost use Rattle.judy_arena.specs.Layout.{Pooled, pool_code, blocks_of, IsSound, HasMarkRoom};

    ghost Value = { Pooled };

    ghost coded = { pool_code };

    ghost view = { λ p. record {
      blocks = blocks_of p.marks.items p.region;
      heads = p.heads;
      region = length p.marks.items * 4;
      free = free_words p.region p.heads;
    } };

    ghost invariant = { λ p. IsSound p.marks.items p.region p.heads
        × HasMarkRoom (length p.marks.items) (vec_capacity p.marks) };
}

impl Pool {
    /// An empty pool. It takes no memory.
    pub(crate) fn new(alloc: Global) -> Pool
        ensures blocks { result.blocks ≡ no_blocks }
        ensures heads { result.heads ≡ replicate 8 0 }
        ensures region { result.region ≡ 0 }
        ensures free { result.free ≡ 0 }
    {
        Pool {
            region: Region::new(alloc),
            marks: Vec::new(alloc),
            heads: [0; 8],
        }
    }

    /// A law, with an empty body: the number of words in blocks can be counted in a `u64`.
    pub(crate) fn is_bounded(&self)
        ensures { total_words self.now.blocks ≤ 2199023255552 }
    {
        let _ = &self.region;
    }

    /// A law, with an empty body: if no block of a size is ready, each part of this size has at
    /// least 4 live words.
    pub(crate) fn is_filled(&self)
        ensures { (k : ℕ) → k < 8 → greatest self.now.heads < size_of k
            → self.now.region ≤ span (k + 1) * total_words self.now.blocks }
    {
        let _ = &self.region;
    }

    /// A law, with an empty body: live and free words are all words.
    pub(crate) fn is_whole(&self)
        ensures all { total_words self.now.blocks + self.now.free ≡ self.now.region }
        ensures ready { greatest self.now.heads ≤ self.now.free }
    {
        let _ = &self.region;
    }

    /// How many words were taken from the machine.
    pub(crate) fn region(&self) -> u64
        ensures { result ≡ self.now.region }
    {
        self.marks.len() as u64 * 4
    }

    /// How many bytes were taken from the machine beyond those words: one for each mark, and 16 for
    /// each place in the table of chunks.
    pub(crate) fn overhead(&self) -> u64
        ensures { result ≤ 16448 * ((self.now.region + 65535) / 65536) + 16384 }
    {
        self.marks.capacity() as u64 + self.region.table() as u64 * 16
    }

    /// The class of a live block.
    pub(crate) fn class(&self, n: u32) -> usize
        requires { 0 < length (words_of self.now.blocks n) }
        ensures below { result < 8 }
        ensures size { length (words_of self.now.blocks n) ≡ size_of result }
    {
        (self.marks[n as usize] - 1) as usize
    }

    /// How many words a block has: 0 if it is not live.
    pub(crate) fn size(&self, n: u32) -> usize
        ensures { result ≡ length (words_of self.now.blocks n) }
    {
        if n as usize >= self.marks.len() {
            return 0;
        }
        let mark = self.marks[n as usize];
        if mark == 0 {
            return 0;
        }
        if mark > 8 {
            return 0;
        }
        size_of_class((mark - 1) as usize)
    }

    /// The words of a live block.
    pub(crate) fn words(&self, n: u32) -> &[u64]
        requires { 0 < length (words_of self.now.blocks n) }
        ensures { result.now ≡ words_of self.now.blocks n }
    {
        let size = size_of_class(self.class(n));
        self.region.words(n as usize * 4, size)
    }

    /// The words of a live block, mutable.
    pub(crate) fn words_mut(&mut self, n: u32) -> &mut [u64]
        requires { 0 < length (words_of self.old.blocks n) }
        ensures* lends { sem 𝓛 (LendsPoolRun self.entry n result) }
        ensures value { result.now ≡ words_of self.old.blocks n }
    {
        let size = size_of_class(self.class(n));
        self.region.words_mut(n as usize * 4, size)
    }

    /// The word at place `i` of a live block.
    pub(crate) fn get(&self, n: u32, i: usize) -> u64
        requires { i < length (words_of self.now.blocks n) }
        ensures { result ≡ slice_index (words_of self.now.blocks n) i }
    {
        self.region.get(n as usize * 4 + i)
    }

    /// Writes the word at place `i` of a live block.
    pub(crate) fn set(&mut self, n: u32, i: usize, word: u64)
        requires { i < length (words_of self.old.blocks n) }
        ensures blocks { self.new.blocks ≡ put self.old.blocks n
            (slice_set (words_of self.old.blocks n) i word) }
        ensures heads { self.new.heads ≡ self.old.heads }
        ensures region { self.new.region ≡ self.old.region }
        ensures free { self.new.free ≡ self.old.free }
    {
        self.region.set(n as usize * 4 + i, word);
    }

    /// Writes words into a live block, from place `at` on.
    pub(crate) fn write(&mut self, n: u32, at: usize, source: &[u64])
        requires live { 0 < length (words_of self.old.blocks n) }
        requires target { at + length source.now ≤ length (words_of self.old.blocks n) }
        ensures blocks { self.new.blocks
            ≡ put self.old.blocks n
            (paste (words_of self.old.blocks n) at source.now (length source.now)) }
        ensures heads { self.new.heads ≡ self.old.heads }
        ensures region { self.new.region ≡ self.old.region }
        ensures free { self.new.free ≡ self.old.free }
    {
        if !source.is_empty() {
            self.region.write(n as usize * 4 + at, source);
        }
    }

    /// Writes zeros over a live block.
    pub(crate) fn clear(&mut self, n: u32, class: usize)
        requires class { class < 8 }
        requires size { length (words_of self.old.blocks n) ≡ size_of class }
        ensures blocks { self.new.blocks ≡ put self.old.blocks n (zeros (size_of class)) }
        ensures heads { self.new.heads ≡ self.old.heads }
        ensures region { self.new.region ≡ self.old.region }
        ensures free { self.new.free ≡ self.old.free }
    {
        wipe(&mut self.region, n as usize * 4, size_of_class(class));
    }

    /// Copies `len` words of a live block, from place `i`, to place `at` of another block or of the
    /// same.
    pub(crate) fn copy(&mut self, from: u32, i: usize, to: u32, at: usize, len: usize)
        requires source_live { 0 < length (words_of self.old.blocks from) }
        requires target_live { 0 < length (words_of self.old.blocks to) }
        requires source { i + len ≤ length (words_of self.old.blocks from) }
        requires target { at + len ≤ length (words_of self.old.blocks to) }
        ensures blocks { self.new.blocks
            ≡ put self.old.blocks to
            (paste (words_of self.old.blocks to) at (drop i (words_of self.old.blocks from)) len) }
        ensures heads { self.new.heads ≡ self.old.heads }
        ensures region { self.new.region ≡ self.old.region }
        ensures free { self.new.free ≡ self.old.free }
    {
        if len > 0 {
            self.region
                .copy(from as usize * 4 + i, to as usize * 4 + at, len);
        }
    }

    /// Releases a live block.
    pub(crate) fn release(&mut self, n: u32)
        requires { 0 < length (words_of self.old.blocks n) }
        ensures blocks { self.new.blocks ≡ without self.old.blocks n }
        ensures ready { greatest self.old.heads ≤ greatest self.new.heads }
        ensures freed { length (words_of self.old.blocks n) ≤ greatest self.new.heads }
        ensures region { self.new.region ≡ self.old.region }
        ensures free { self.new.free ≡ self.old.free + length (words_of self.old.blocks n) }
    {
        let class = (self.marks[n as usize] - 1) as usize;
        give_back(
            &mut self.region,
            &mut self.marks,
            &mut self.heads,
            n as usize,
            class,
        );
    }

    /// Cuts a live block in half. It keeps the lower half, and the upper half becomes free.
    fn halve(&mut self, n: u32)
        requires { 4 < length (words_of self.old.blocks n) }
        ensures blocks { self.new.blocks
            ≡ put self.old.blocks n
            (take (length (words_of self.old.blocks n) / 2) (words_of self.old.blocks n)) }
        ensures ready { greatest self.old.heads ≤ greatest self.new.heads }
        ensures freed { length (words_of self.old.blocks n) ≤ 2 * greatest self.new.heads }
        ensures region { self.new.region ≡ self.old.region }
        ensures free { self.new.free + length (words_of self.old.blocks n) / 2
            ≡ self.old.free + length (words_of self.old.blocks n) }
    {
        let half = (self.marks[n as usize] - 2) as usize;
        let upper = n as usize + size_of_class(half) / 4;
        self.marks[n as usize] = half as u8 + 1;
        free(
            &mut self.region,
            &mut self.marks,
            &mut self.heads,
            upper,
            half,
        );
    }

    /// Cuts a live block from its class to a smaller class. The upper halves become free; their
    /// buddies are live, or were cut.
    pub(crate) fn cut(&mut self, n: u32, from: usize, class: usize)
        requires down { class ≤ from }
        requires class { from < 8 }
        requires size { length (words_of self.old.blocks n) ≡ size_of from }
        ensures blocks { self.new.blocks ≡ put self.old.blocks n
            (take (size_of class) (words_of self.old.blocks n)) }
        ensures ready { greatest self.old.heads ≤ greatest self.new.heads }
        ensures freed { class < from → size_of from ≤ 2 * greatest self.new.heads }
        ensures region { self.new.region ≡ self.old.region }
        ensures free { self.new.free + size_of class ≡ self.old.free + size_of from }
    {
        let mut now = from;
        while now > class {
            self.halve(n);
            now -= 1;
        }
    }

    /// The least class, from this one on, that has a free block.
    pub(crate) fn first(&self, class: usize) -> Option<usize>
        ensures some { IfSome result (λ j. (class ≤ j) × (j < 8)
            × (0 < slice_index self.now.heads j)) }
        ensures none { IfNone result ((j : ℕ) → class ≤ j → slice_index self.now.heads j ≡ 0) }
        ensures classes { length self.now.heads ≡ 8 }
    {
        for j in class..8 {
            if self.heads[j] != 0 {
                return Some(j);
            }
        }
        None
    }

    /// Takes the first free block of a class. Its words are not cleared.
    fn take(&mut self, class: usize) -> u32
        requires class { class < 8 }
        requires some { 0 < slice_index self.old.heads class }
        ensures fresh { IsFalse (is_live self.old.blocks result) }
        ensures blocks { self.new.blocks ≡ put self.old.blocks result
            (words_of self.new.blocks result) }
        ensures size { length (words_of self.new.blocks result) ≡ size_of class }
        ensures others { (j : ℕ) → j ≢ class
            → slice_index self.new.heads j ≡ slice_index self.old.heads j }
        ensures region { self.new.region ≡ self.old.region }
        ensures free { self.new.free + size_of class ≡ self.old.free }
    {
        let n = (self.heads[class] - 1) as usize;
        self.heads[class] = self.region.get(n * 4);
        self.marks[n] = class as u8 + 1;
        n as u32
    }

    /// Adds a free block of the last class, if there is memory and a number is left.
    #[cold]
    #[inline(never)]
    pub(crate) fn grow(&mut self, alloc: Global) -> bool
        ensures blocks { self.new.blocks ≡ self.old.blocks }
        ensures some { IsTrue result → 0 < slice_index self.new.heads 7 }
        ensures none { IsFalse result → self.new.heads ≡ self.old.heads }
        ensures region { IsTrue result → self.new.region ≡ self.old.region + 512 }
        ensures refused { IsFalse result → self.new.region ≡ self.old.region }
        ensures cause { IsFalse result → self.old.region % 65536 ≡ 0 }
        ensures free { IsTrue result → self.new.free ≡ self.old.free + 512 }
        ensures none_free { IsFalse result → self.new.free ≡ self.old.free }
    {
        let n = self.marks.len();
        if n as u64 == NUMBERS {
            return false;
        }
        if !make_room(&mut self.marks) {
            return false;
        }
        if self.region.grow(alloc).is_err() {
            return false;
        }
        add_marks(&mut self.marks);
        free(&mut self.region, &mut self.marks, &mut self.heads, n, LAST);
        true
    }

    /// Adds free blocks of the last class until the region has at least this many words, if there is
    /// memory and numbers are left.
    pub(crate) fn prepare(&mut self, alloc: Global, words: u64) -> bool
        ensures blocks { self.new.blocks ≡ self.old.blocks }
        ensures enough { IsTrue result → words ≤ self.new.region }
        ensures short { IsFalse result → self.new.region < words }
        ensures cause { IsFalse result → self.new.region % 65536 ≡ 0 }
        ensures most { self.new.region ≤ max self.old.region (words + 511) }
        ensures kept { self.old.region ≤ self.new.region }
        ensures some { self.old.region < self.new.region → 0 < slice_index self.new.heads 7 }
        ensures free { self.new.free + self.old.region ≡ self.old.free + self.new.region }
    {
        while self.region() < words {
            if !self.grow(alloc) {
                return false;
            }
        }
        true
    }

    /// Takes a block of a class, all zeros, if there is memory and a number is left.
    pub(crate) fn allot(&mut self, alloc: Global, class: usize) -> Option<u32>
        requires { class < 8 }
        ensures fresh { IfSome result (λ n. IsFalse (is_live self.old.blocks n)) }
        ensures some { IfSome result
            (λ n. self.new.blocks ≡ put self.old.blocks n (zeros (size_of class))) }
        ensures none { IfNone result (self.new.blocks ≡ self.old.blocks) }
        ensures none_taken { IfNone result (self.new.heads ≡ self.old.heads) }
        ensures unready { IfNone result ((j : ℕ) → class ≤ j → slice_index self.old.heads j ≡ 0) }
        ensures reuse { size_of class ≤ greatest self.old.heads
            → self.new.region ≡ self.old.region }
        ensures growth { IfSome result
            (λ _. greatest self.old.heads < size_of class
            → self.new.region ≡ self.old.region + 512) }
        ensures refused { IfNone result (self.new.region ≡ self.old.region) }
        ensures cause { IfNone result (self.old.region % 65536 ≡ 0) }
        ensures rest { IfSome result
            (λ _. size_of class < greatest self.old.heads
            → greatest self.old.heads ≤ 2 * greatest self.new.heads) }
        ensures run { IfSome result
            (λ _. greatest self.old.heads < size_of class → size_of class < 512
            → 512 ≤ 2 * greatest self.new.heads) }
        ensures free { IfSome result
            (λ _. self.new.free + size_of class + self.old.region
            ≡ self.old.free + self.new.region) }
        ensures none_free { IfNone result (self.new.free ≡ self.old.free) }
    {
        if let Some(from) = self.first(class) {
            return Some(self.carve(from, class));
        }
        if self.grow(alloc) {
            return Some(self.carve(LAST, class));
        }
        None
    }

    /// Takes a free block of one class, cuts it to a smaller class and clears it.
    fn carve(&mut self, from: usize, class: usize) -> u32
        requires down { class ≤ from }
        requires class { from < 8 }
        requires some { 0 < slice_index self.old.heads from }
        ensures fresh { IsFalse (is_live self.old.blocks result) }
        ensures blocks { self.new.blocks ≡ put self.old.blocks result (zeros (size_of class)) }
        ensures rest { class < from → size_of from ≤ 2 * greatest self.new.heads }
        ensures others { (j : ℕ) → j ≢ from → j < 8 → 0 < slice_index self.old.heads j
            → size_of j ≤ greatest self.new.heads }
        ensures region { self.new.region ≡ self.old.region }
        ensures free { self.new.free + size_of class ≡ self.old.free }
    {
        let n = self.take(from);
        self.cut(n, from, class);
        self.clear(n, class);
        n
    }
}

/// Writes zeros over a part that lies in one chunk. The small sizes stand as numbers, so that the
/// compiler writes their zeros without a call.
fn wipe(region: &mut Region, place: usize, len: usize)
    requires { IsInOne region.old place len }
    ensures { region.new ≡ paste region.old place (no_marks len) len }
{
    if len == 4 {
        region.clear(place, 4);
        return;
    }
    if len == 8 {
        region.clear(place, 8);
        return;
    }
    region.clear(place, len);
}

/// Makes sure that there is room for the marks of a run, if there is memory. Inside a chunk there
/// always is.
fn make_room(marks: &mut Vec<u8>) -> bool
    requires runs { length marks.old.items % 128 ≡ 0 }
    requires room { HasMarkRoom (length marks.old.items) (vec_capacity marks.old) }
    ensures items { marks.new.items ≡ marks.old.items }
    ensures kept { HasMarkRoom (length marks.old.items) (vec_capacity marks.new) }
    ensures room { IsTrue result → HasMarkRoom (length marks.old.items + 128)
        (vec_capacity marks.new) }
    ensures whole { IsFalse result → length marks.old.items % 16384 ≡ 0 }
{
    if marks.len() % MARKS != 0 {
        return true;
    }
    marks.reserve_exact(MARKS).is_ok()
}

/// Adds the marks of a run. There is room for them.
fn add_marks(marks: &mut Vec<u8>)
    requires room { length marks.old.items + 128 ≤ vec_capacity marks.old }
    ensures items { marks.new.items ≡ marks.old.items ++ no_marks 128 }
    ensures capacity { vec_capacity marks.new ≡ vec_capacity marks.old }
{
    for _count in 0..RUN {
        marks.push_reserved(0);
    }
}

/// Puts a block in front of the free list of its class.
fn free(region: &mut Region, marks: &mut Vec<u8>, heads: &mut [u64; 8], n: usize, class: usize)
    requires class { class < 8 }
    requires len { length heads.old ≡ 8 }
    requires number { n < 4294967296 }
    requires marked { n < length marks.old.items }
    requires there { n * 4 < length region.old }
    requires few { slice_index heads.old class ≤ 4294967296 }
    requires next { slice_index heads.old class * 4 ≤ length region.old }
    ensures region { region.new ≡ linked region.old n (slice_index heads.old class) }
    ensures marks { marks.new.items ≡ slice_set marks.old.items n (class + 9) }
    ensures capacity { vec_capacity marks.new ≡ vec_capacity marks.old }
    ensures heads { heads.new ≡ slice_set heads.old class (n + 1) }
{
    link(region, n, heads[class]);
    heads[class] = n as u64 + 1;
    marks[n] = class as u8 + 9;
}

/// Writes into a block the link to the next block of its list, and into that one the link back.
fn link(region: &mut Region, n: usize, next: u64)
    requires number { n < 4294967296 }
    requires there { n * 4 < length region.old }
    requires few { next ≤ 4294967296 }
    requires next { next * 4 ≤ length region.old }
    ensures { region.new ≡ linked region.old n next }
{
    region.set(n * 4, next);
    if next == 0 {
        return;
    }
    region.set((next as usize - 1) * 4 + 1, n as u64 + 1);
}

/// Takes a free block out of the list of its class. Its words are not cleared.
fn pull(region: &mut Region, marks: &mut Vec<u8>, heads: &mut [u64; 8], n: usize, class: usize)
    requires class { class < 8 }
    requires sound { IsSound marks.old.items region.old heads.old }
    requires free { slice_index marks.old.items n ≡ class + 9 }
    ensures sound { IsSound marks.new.items region.new heads.new }
    ensures fresh { IsFalse (is_live (blocks_of marks.old.items region.old) n) }
    ensures blocks { blocks_of marks.new.items region.new
        ≡ put (blocks_of marks.old.items region.old) n
        (words_of (blocks_of marks.new.items region.new) n) }
    ensures marks { marks.new.items ≡ slice_set marks.old.items n (class + 1) }
    ensures capacity { vec_capacity marks.new ≡ vec_capacity marks.old }
    ensures ready { greatest heads.old ≤ max (greatest heads.new) (size_of class) }
{
    let next = region.get(n * 4);
    marks[n] = class as u8 + 1;
    if heads[class] == n as u64 + 1 {
        heads[class] = next;
        return;
    }
    let back = region.get(n * 4 + 1);
    link(region, back as usize - 1, next);
}

/// The buddy of a live block, if it is a free block of the same class.
fn free_buddy(marks: &Vec<u8>, n: usize, class: usize) -> Option<usize>
    requires class { class < 8 }
    requires runs { length marks.now.items % 128 ≡ 0 }
    requires there { n < length marks.now.items }
    requires aligned { n % span (class + 1) ≡ 0 }
    ensures some { IfSome result (λ b. (class < 7) × (slice_index marks.now.items b ≡ class + 9)
        × AreBuddies class n b) }
    ensures none { IfNone result (IsAlone marks.now.items n class) }
{
    if class >= LAST {
        return None;
    }
    let buddy = buddy_of(n, class);
    if marks[buddy] == class as u8 + 9 {
        return Some(buddy);
    }
    None
}

/// The other half of the block of the next class that this block is one half of.
fn buddy_of(n: usize, class: usize) -> usize
    requires class { class < 7 }
    requires number { n < 9223372036854775808 }
    requires aligned { n % span (class + 1) ≡ 0 }
    ensures { AreBuddies class n result }
{
    let fours = size_of_class(class) / 4;
    if (n >> class) % 2 == 0 {
        return n + fours;
    }
    n - fours
}

/// Makes one block of two live buddies: its number.
fn join(marks: &mut Vec<u8>, n: usize, buddy: usize, class: usize) -> usize
    requires class { class < 7 }
    requires there { n < length marks.old.items }
    requires buddy { buddy < length marks.old.items }
    ensures lower { result ≡ min n buddy }
    ensures marks { marks.new.items
        ≡ slice_set (slice_set marks.old.items (min n buddy) (class + 2)) (max n buddy) 0 }
    ensures capacity { vec_capacity marks.new ≡ vec_capacity marks.old }
{
    let lower = n.min(buddy);
    marks[lower] = class as u8 + 2;
    marks[n.max(buddy)] = 0;
    lower
}

/// Gives a live block back. If its buddy is free the two become one block, and so on; what comes of
/// them is put in front of the free list of its class.
fn give_back(region: &mut Region, marks: &mut Vec<u8>, heads: &mut [u64; 8], n: usize, class: usize)
    requires class { class < 8 }
    requires sound { IsSound marks.old.items region.old heads.old }
    requires live { slice_index marks.old.items n ≡ class + 1 }
    ensures sound { IsSound marks.new.items region.new heads.new }
    ensures blocks { blocks_of marks.new.items region.new
        ≡ without (blocks_of marks.old.items region.old) n }
    ensures len { length marks.new.items ≡ length marks.old.items }
    ensures capacity { vec_capacity marks.new ≡ vec_capacity marks.old }
    ensures ready { greatest heads.old ≤ greatest heads.new }
    ensures freed { size_of class ≤ greatest heads.new }
{
    match free_buddy(marks, n, class) {
        Some(buddy) => {
            pull(region, marks, heads, buddy, class);
            let lower = join(marks, n, buddy, class);
            give_back(region, marks, heads, lower, class + 1);
        }
        None => free(region, marks, heads, n, class),
    }
}

/// How many words a block of a class has.
pub(crate) fn size_of_class(class: usize) -> usize
    requires { class < 8 }
    ensures { result ≡ size_of class }
{
    4 << class
}

/// The least class whose blocks have this many words.
pub(crate) fn class_for(len: usize) -> usize
    requires some { 1 ≤ len }
    requires most { len ≤ 512 }
    ensures below { result < 8 }
    ensures room { room len ≡ size_of result }
    ensures least { (k : ℕ) → k < 8 → len ≤ size_of k → result ≤ k }
{
    let fours = ((len - 1) / 4) as u8;
    8 - fours.leading_zeros() as usize
}

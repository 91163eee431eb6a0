//! The arena: blocks are allocated, read, written, cut and released.
ghost use Rattle.std.specs.Prelude.{◌≡◌, ◌≢◌, ℕ, ◌*◌, ◌/◌, ◌%◌, ◌+◌, ◌<◌, ◌≤◌, ◌^◌, ◌↔◌, max, IfOk, OnErr, OnOk, IsOk, IsTrue, IsFalse, [], ◌∷◌, length, take, drop, slice_index, slice_set, is_ok, if◌then◌else◌};
ghost use lib.Seq.{paste};
ghost use Rattle.std.specs.Borrow.{sem};
ghost use Rattle.judy_arena.specs.Blocks.{Blocks, is_live, words_of, put, without, no_blocks, total_words, AreSized, zeros, count_up};
ghost use Rattle.judy_arena.specs.Frame.{Frame};
ghost use Rattle.judy_arena.specs.LendingBlocks.{LendsBlock};
ghost use Rattle.judy_arena.specs.Room.{room};
ghost use Rattle.judy_arena.specs.Takes.{Takes, TakesNothing};

use crate::block::Block;
use crate::pool::{LAST, Pool, class_for, size_of_class};
use std::alloc::Global;
use std::marker::Model;

/// A request for a block was refused: out of memory, or no block number below 2^32 is left.
#[derive(Clone, Copy, Debug, PartialEq, Eq)]
pub struct NoMemory;

/// Blocks of 64-bit words, each named by its number. Sizes and places are in words.
///
/// Callers see the live blocks as a map from numbers to lists of words. They also see the count of
/// refused requests, the greatest size that the next `alloc` is sure to find, the words taken from
/// the machine, the words of the free blocks, and the greatest number of words that were live at
/// once. A `Block` stays live and keeps its number until it is released. The number of a released
/// block may be used again.
///
/// No word is lost: the live and the free words are together those taken from the machine.
///
/// Released blocks merge. So the words taken from the machine stay below a multiple of the greatest
/// number of words that were live at once, whatever the order of calls, or are those that were taken
/// beforehand.
#[derive(Drop)]
pub struct Arena {
    pool: Pool,
    live: u64,
    peak: u64,
    reserved: u64,
    refusals: u64,
}

impl Model for Arena {
    ghost use Rattle.std.specs.Prelude.{◌≡◌, ◌≤◌, ◌+◌, ◌*◌, max};
    ghost use Rattle.judy_arena.specs.Blocks.{ArenaState, state_code, AreSized, total_words};
    ghost use Rattle.judy_arena.specs.Ready.{greatest};

    ghost Value = { ArenaState };

    ghost coded = { state_code };

    ghost view = { λ a. record {
      blocks = a.pool.blocks;
      refusals = a.refusals;
      ready = greatest a.pool.heads;
      region = a.pool.region;
      live = a.live;
      free = a.pool.free;
      peak = a.peak;
      reserved = a.reserved;
    } };

    ghost invariant = { λ a. AreSized a.pool.blocks × (a.live ≡ total_words a.pool.blocks)
        × (total_words a.pool.blocks ≤ a.peak) × (a.pool.region ≤ max a.reserved (128 * a.peak + 512)) };
}

impl Arena {
    /// An empty arena. It takes no memory.
    pub fn new(alloc: Global) -> Arena
        ensures blocks { result.blocks ≡ no_blocks }
        ensures refusals { result.refusals ≡ 0 }
        ensures ready { result.ready ≡ 0 }
        ensures region { result.region ≡ 0 }
        ensures live { result.live ≡ 0 }
        ensures free { result.free ≡ 0 }
        ensures peak { result.peak ≡ 0 }
        ensures reserved { result.reserved ≡ 0 }
    {
        Arena {
            pool: Pool::new(alloc),
            live: 0,
            peak: 0,
            reserved: 0,
            refusals: 0,
        }
    }

    /// How many requests for a block were refused. The count saturates at the greatest word.
    pub fn refusals(&self) -> u64
        ensures { result ≡ self.now.refusals }
    {
        self.refusals
    }

    /// Allocates a block of `room(len)` zeros, at least `len` words. All other blocks stay.
    ///
    /// Err if out of memory or if no block number below 2^32 is left: no block changes, and the
    /// count of refusals rises by 1.
    pub fn alloc(&mut self, alloc: Global, len: usize) -> Result<Block, NoMemory>
        requires some { 1 ≤ len }
        requires most { len ≤ 512 }
        ensures fresh { IfOk result (λ b. IsFalse (is_live self.old.blocks b)) }
        ensures blocks { IfOk result
            (λ b. self.new.blocks ≡ put self.old.blocks b (zeros (room len))) }
        ensures unchanged { OnErr result (self.new.blocks ≡ self.old.blocks) }
        ensures refusals { self.new.refusals
            ≡ (if is_ok result then self.old.refusals else count_up self.old.refusals) }
        ensures ready { room len ≤ self.old.ready → IsOk result }
        ensures number { IfOk result (λ b. b < 4294967296) }

        ensures peak { self.new.peak
            ≡ (if is_ok result then max self.old.peak (total_words self.new.blocks)
            else self.old.peak) }
        ensures memory { Takes (if is_ok result then 1 else 0) self.old self.new }

        // What it takes from the machine: nothing if a free block fits, a run of 512 words if none
        // does.
        ensures reuse { room len ≤ self.old.ready → self.new.region ≡ self.old.region }
        ensures growth { IfOk result (λ _. self.old.ready < room len
            → self.new.region ≡ self.old.region + 512) }
        ensures refused { OnErr result (self.new.region ≡ self.old.region) }
        ensures cause { OnErr result (self.old.region % 65536 ≡ 0) }

        // What it leaves free: at least half of a greater block that it cuts, and the unused halves
        // of a new run.
        ensures rest { IfOk result (λ _. room len < self.old.ready
            → self.old.ready ≤ 2 * self.new.ready) }
        ensures run { IfOk result (λ _. self.old.ready < room len → room len < 512
            → 512 ≤ 2 * self.new.ready) }

        // The block comes out of the free words, and out of those that the machine gave.
        ensures free { self.new.free + (if is_ok result then room len else 0) + self.old.region
            ≡ self.old.free + self.new.region }

        // Consequences for the words of each block.
        ensures words { IfOk result (λ b. words_of self.new.blocks b ≡ zeros (room len)) }
        ensures size { IfOk result (λ b. len ≤ length (words_of self.new.blocks b)) }
        ensures kept { (q : ℕ) → 0 < length (words_of self.old.blocks q)
            → words_of self.new.blocks q ≡ words_of self.old.blocks q }
    {
        let class = class_for(len);
        self.pool.is_bounded();
        self.pool.is_filled();
        match self.pool.allot(alloc, class) {
            Some(n) => {
                self.live += size_of_class(class) as u64;
                self.peak = self.peak.max(self.live);
                Ok(Block::numbered(n))
            }
            None => {
                self.refusals = self.refusals.saturating_add(1);
                Err(NoMemory)
            }
        }
    }

    /// Whether the next `alloc` of `len` words is sure to find a block.
    pub fn spare(&self, len: usize) -> bool
        requires some { 1 ≤ len }
        requires most { len ≤ 512 }
        ensures { IsTrue result ↔ (room len ≤ self.now.ready) }
    {
        self.pool.first(class_for(len)).is_some()
    }

    /// Makes sure that the next `alloc`, of any size up to 512 words, finds a block. No block
    /// changes.
    ///
    /// Err if out of memory or if no block number below 2^32 is left: the count of refusals rises
    /// by 1.
    pub fn reserve(&mut self, alloc: Global) -> Result<(), NoMemory>
        ensures ready { OnOk result (512 ≤ self.new.ready) }
        ensures reuse { 512 ≤ self.old.ready → IsOk result × (self.new.region ≡ self.old.region) }
        ensures growth { OnOk result (self.old.ready < 512
            → self.new.region ≡ self.old.region + 512) }
        ensures refused { OnErr result (self.new.region ≡ self.old.region) }
        ensures cause { OnErr result (self.old.region % 65536 ≡ 0) }
        ensures blocks { self.new.blocks ≡ self.old.blocks }
        ensures peak { self.new.peak ≡ self.old.peak }
        ensures live { self.new.live ≡ self.old.live }
        ensures refusals { self.new.refusals
            ≡ (if is_ok result then self.old.refusals else count_up self.old.refusals) }
        ensures memory { Takes (if is_ok result then 1 else 0) self.old self.new }
        ensures free { self.new.free + self.old.region ≡ self.old.free + self.new.region }
    {
        if self.pool.first(LAST).is_some() {
            return Ok(());
        }
        self.pool.is_filled();
        if self.pool.grow(alloc) {
            return Ok(());
        }
        self.refusals = self.refusals.saturating_add(1);
        Err(NoMemory)
    }

    /// Takes runs of 512 words from the machine until it has taken at least this many words. They are
    /// free. No block changes.
    ///
    /// Err if out of memory or if no block number below 2^32 is left: the runs that were taken until
    /// then stay, and the count of refusals rises by 1.
    pub fn prepare(&mut self, alloc: Global, words: u64) -> Result<(), NoMemory>
        ensures region { OnOk result (words ≤ self.new.region) }
        ensures short { OnErr result (self.new.region < words) }
        ensures cause { OnErr result (self.new.region % 65536 ≡ 0) }
        ensures most { self.new.region ≤ max self.old.region (words + 511) }
        ensures kept { self.old.region ≤ self.new.region }
        ensures reserved { self.new.reserved ≡ max self.old.reserved self.new.region }
        ensures ready { self.old.region < self.new.region → 512 ≤ self.new.ready }
        ensures free { self.new.free + self.old.region ≡ self.old.free + self.new.region }
        ensures blocks { self.new.blocks ≡ self.old.blocks }
        ensures peak { self.new.peak ≡ self.old.peak }
        ensures live { self.new.live ≡ self.old.live }
        ensures refusals { self.new.refusals
            ≡ (if is_ok result then self.old.refusals else count_up self.old.refusals) }
    {
        let done = self.pool.prepare(alloc, words);
        self.reserved = self.reserved.max(self.pool.region());
        if done {
            return Ok(());
        }
        self.refusals = self.refusals.saturating_add(1);
        Err(NoMemory)
    }

    /// Releases a block: it is no longer live, and its number may be used again. It merges with free
    /// neighbours. This cannot fail.
    pub fn release(&mut self, block: Block)
        requires { 0 < length (words_of self.old.blocks block) }
        ensures blocks { self.new.blocks ≡ without self.old.blocks block }
        ensures freed { length (words_of self.old.blocks block) ≤ self.new.ready }
        ensures memory { TakesNothing self.old self.new }
        ensures region { self.new.region ≡ self.old.region }
        ensures free { self.new.free ≡ self.old.free + length (words_of self.old.blocks block) }
        ensures kept { (q : ℕ) → q ≢ block
            → words_of self.new.blocks q ≡ words_of self.old.blocks q }
        ensures refusals { self.new.refusals ≡ self.old.refusals }
        ensures ready { self.old.ready ≤ self.new.ready }
    {
        let n = block.number();
        self.live -= size_of_class(self.pool.class(n)) as u64;
        self.pool.release(n);
    }

    /// Cuts a block to the size `room(len)`. It keeps its number and its first words. This cannot
    /// fail.
    pub fn shrink(&mut self, block: Block, len: usize)
        requires some { 1 ≤ len }
        requires within { len ≤ length (words_of self.old.blocks block) }
        ensures blocks { self.new.blocks
            ≡ put self.old.blocks block (take (room len) (words_of self.old.blocks block)) }
        ensures refusals { self.new.refusals ≡ self.old.refusals }
        ensures ready { self.old.ready ≤ self.new.ready }
        ensures freed { room len < length (words_of self.old.blocks block)
            → length (words_of self.old.blocks block) ≤ 2 * self.new.ready }
        ensures region { self.new.region ≡ self.old.region }
        ensures memory { TakesNothing self.old self.new }
        ensures free { self.new.free + room len
            ≡ self.old.free + length (words_of self.old.blocks block) }

        // Consequences for the words of each block.
        ensures size { len ≤ length (words_of self.new.blocks block) }
        ensures words { words_of self.new.blocks block
            ≡ take (room len) (words_of self.old.blocks block) }
        ensures kept { (q : ℕ) → q ≢ block
            → words_of self.new.blocks q ≡ words_of self.old.blocks q }
    {
        let n = block.number();
        let from = self.pool.class(n);
        let class = class_for(len);
        self.live -= (size_of_class(from) - size_of_class(class)) as u64;
        self.pool.cut(n, from, class);
    }

    /// How many words the live blocks have together: the sum of their sizes.
    pub fn live_words(&self) -> u64
        ensures { result ≡ total_words self.now.blocks }
    {
        self.live
    }

    /// How many words were taken from the machine. Dropping the arena gives them back.
    pub fn region(&self) -> u64
        ensures { result ≡ self.now.region }
    {
        self.pool.region()
    }

    /// How many bytes were taken from the machine beyond those words: at most 16,448 for each chunk
    /// of 65,536 words, and 16,384 more if the machine had memory for the marks of a chunk and then
    /// none for its words.
    pub fn overhead(&self) -> u64
        ensures { result ≤ 16448 * ((self.now.region + 65535) / 65536) + 16384 }
    {
        self.pool.overhead()
    }

    /// The greatest number of words that the live blocks had together so far.
    pub fn peak(&self) -> u64
        ensures { result ≡ self.now.peak }
    {
        self.peak
    }

    /// A law, with an empty body: the words taken from the machine are bounded by the words that were
    /// live at once, whatever was allocated and released in between, or by what was taken beforehand.
    pub fn the_region_is_bounded(&self)
        ensures bound { self.now.region ≤ max self.now.reserved (128 * self.now.peak + 512) }
        ensures live { total_words self.now.blocks ≤ self.now.peak }
        ensures sum { self.now.live ≡ total_words self.now.blocks }
    {
        let _ = &self.pool;
    }

    /// A law, with an empty body: no word is lost. The live and the free words are together as many
    /// as were taken from the machine. The free ones are those of the blocks that the lists of free
    /// blocks lead to. The size that is ready is at most as many.
    pub fn no_word_is_lost(&self)
        ensures all { total_words self.now.blocks + self.now.free ≡ self.now.region }
        ensures ready { self.now.ready ≤ self.now.free }
    {
        self.pool.is_whole();
    }

    /// A law, with an empty body: if no block of a size is ready, each part of this size that was
    /// taken from the machine has at least 4 live words. So a call takes a run of 512 words only while
    /// one word in 128 is live.
    pub fn the_region_is_filled(&self)
        ensures { (k : ℕ) → k < 8 → self.now.ready < 4 * 2 ^ k
            → self.now.region ≤ 2 ^ k * total_words self.now.blocks }
    {
        self.pool.is_filled();
    }

    /// A law, with an empty body: each live block has 1 to 512 words.
    pub fn blocks_are_sized(&self)
        ensures { AreSized self.now.blocks }
    {
        let _ = &self.pool;
    }

    /// How many words a block has: 0 if it is not live.
    pub fn size(&self, block: Block) -> usize
        ensures { result ≡ length (words_of self.now.blocks block) }
    {
        self.pool.size(block.number())
    }

    /// All words of a live block.
    pub fn words(&self, block: Block) -> &[u64]
        requires { 0 < length (words_of self.now.blocks block) }
        ensures { result.now ≡ words_of self.now.blocks block }
    {
        self.pool.words(block.number())
    }

    /// All words of a live block, mutable.
    pub fn words_mut(&mut self, block: Block) -> &mut [u64]
        requires { 0 < length (words_of self.old.blocks block) }
        ensures* lends { sem 𝓛 (LendsBlock self.entry block result) }
        ensures value { result.now ≡ words_of self.old.blocks block }
    {
        self.pool.words_mut(block.number())
    }

    /// The word at place `i` of a live block.
    pub fn get(&self, block: Block, i: usize) -> u64
        requires { i < length (words_of self.now.blocks block) }
        ensures { result ≡ slice_index (words_of self.now.blocks block) i }
    {
        self.pool.get(block.number(), i)
    }

    /// Writes the word at place `i` of a live block.
    pub fn set(&mut self, block: Block, i: usize, word: u64)
        requires { i < length (words_of self.old.blocks block) }
        ensures only { self.new ≡ record self.old {
          blocks =
              put self.old.blocks block (slice_set (words_of self.old.blocks block) i word);
        } }
        ensures sizes { (q : ℕ) → length (words_of self.new.blocks q)
            ≡ length (words_of self.old.blocks q) }
        ensures kept { (q : ℕ) → q ≢ block
            → words_of self.new.blocks q ≡ words_of self.old.blocks q }
    {
        self.pool.set(block.number(), i, word);
    }

    /// Copies `len` words of one live block, from place `i` on, to place `at` of another.
    pub fn copy(&mut self, from: Block, i: usize, to: Block, at: usize, len: usize)
        requires other { from ≢ to }
        requires source_live { 0 < length (words_of self.old.blocks from) }
        requires target_live { 0 < length (words_of self.old.blocks to) }
        requires source { i + len ≤ length (words_of self.old.blocks from) }
        requires target { at + len ≤ length (words_of self.old.blocks to) }
        ensures only { self.new ≡ record self.old {
          blocks =
              put self.old.blocks to
              (paste (words_of self.old.blocks to) at (drop i (words_of self.old.blocks from)) len);
        } }
        ensures sizes { (q : ℕ) → length (words_of self.new.blocks q)
            ≡ length (words_of self.old.blocks q) }
        ensures kept { (q : ℕ) → q ≢ to → words_of self.new.blocks q ≡ words_of self.old.blocks q }
    {
        self.pool.copy(from.number(), i, to.number(), at, len);
    }

    /// Writes the words into a live block, from place `at` on.
    pub fn copy_in(&mut self, block: Block, at: usize, words: &[u64])
        requires live { 0 < length (words_of self.old.blocks block) }
        requires target { at + length words.now ≤ length (words_of self.old.blocks block) }
        ensures only { self.new ≡ record self.old {
          blocks =
              put self.old.blocks block
              (paste (words_of self.old.blocks block) at words.now (length words.now));
        } }
        ensures sizes { (q : ℕ) → length (words_of self.new.blocks q)
            ≡ length (words_of self.old.blocks q) }
        ensures kept { (q : ℕ) → q ≢ block
            → words_of self.new.blocks q ≡ words_of self.old.blocks q }
    {
        self.pool.write(block.number(), at, words);
    }

    /// Replaces a block by one for `len` words, which begins with the same `used` words.
    ///
    /// Err if out of memory or if no block number below 2^32 is left: no block changes, and the
    /// count of refusals rises by 1.
    pub fn grow(
        &mut self,
        alloc: Global,
        block: Block,
        used: usize,
        len: usize,
    ) -> Result<Block, NoMemory>
        requires live { 0 < length (words_of self.old.blocks block) }
        requires used { used ≤ length (words_of self.old.blocks block) }
        requires len { used ≤ len }
        requires some { 1 ≤ len }
        requires most { len ≤ 512 }
        ensures frame { IfOk result
            (λ m. Frame self.old.blocks self.new.blocks (block ∷ []) (m ∷ [])) }
        ensures front { IfOk result
            (λ m. take used (words_of self.new.blocks m)
            ≡ take used (words_of self.old.blocks block)) }
        ensures size { IfOk result (λ m. length (words_of self.new.blocks m) ≡ room len) }
        ensures number { IfOk result (λ m. m < 4294967296) }
        ensures unchanged { OnErr result (self.new.blocks ≡ self.old.blocks) }
        ensures refusals { self.new.refusals
            ≡ (if is_ok result then self.old.refusals else count_up self.old.refusals) }
        ensures ready { room len ≤ self.old.ready → IsOk result }
        ensures freed { IfOk result
            (λ _. length (words_of self.old.blocks block) ≤ self.new.ready) }
        ensures peak { self.new.peak
            ≡ (if is_ok result then max self.old.peak (total_words self.old.blocks + room len)
            else self.old.peak) }
        ensures memory { Takes (if is_ok result then 1 else 0) self.old self.new }
        ensures reuse { room len ≤ self.old.ready → self.new.region ≡ self.old.region }
        ensures growth { IfOk result (λ _. self.old.ready < room len
            → self.new.region ≡ self.old.region + 512) }
        ensures refused { OnErr result (self.new.region ≡ self.old.region) }
        ensures cause { OnErr result (self.old.region % 65536 ≡ 0) }
        ensures free { IfOk result
            (λ _. self.new.free + room len + self.old.region
            ≡ self.old.free + length (words_of self.old.blocks block) + self.new.region) }
        ensures none_free { OnErr result (self.new.free ≡ self.old.free) }
    {
        let to = self.alloc(alloc, len)?;
        self.copy(block, 0, to, 0, used);
        self.release(block);
        Ok(to)
    }
}

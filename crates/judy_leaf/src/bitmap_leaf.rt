//! Bitmap leaves and full leaves in an arena.
ghost use Rattle.std.specs.Prelude.{◌≡◌, ◌+◌, ◌-◌, ◌%◌, ◌<◌, IsFalse, length};
ghost use Rattle.judy_arena.specs.Blocks.{words_of};
ghost use Rattle.judy_arena.specs.Takes.{Takes, TakesNothing};
ghost use Rattle.judy_model.specs.Contents.{word_order, has_key};
ghost use Rattle.judy_leaf.specs.Leaf.{IsBitsLeaf};
ghost use Rattle.judy_leaf.specs.Bytes.{leaf_shared, bitmap_entries};
ghost use Rattle.judy_leaf.specs.Calls.{PutsInBits, RemovesInBits, Draws, blocks_for};

use crate::answers::{Put, Removed};
use crate::bitmap::{self, Bits};
use crate::block::{refer, refer_bits};
use crate::convert::narrow;
use crate::linear;
use judy_arena::{Arena, Block};
use judy_refs::Kind;
use std::alloc::Global;

/// The block of a bitmap leaf or a full leaf, with a value for each key or without.
#[derive(Clone, Copy)]
pub(crate) struct BitsBlock {
    pub(crate) block: Block,
    pub(crate) values: bool,
}

impl BitsBlock {
    /// Inserts an absent key that has the shared bytes.
    fn add(self, alloc: Global, arena: &mut Arena, key: u64, value: u64) -> Put
        requires leaf { IsBitsLeaf self.values (words_of arena.old.blocks self.block) }
        requires shared { key - key % 256 ≡ leaf_shared (words_of arena.old.blocks self.block) }
        requires absent { IsFalse
            (has_key word_order (bitmap_entries self.values (words_of arena.old.blocks self.block)) key) }
        requires plain { IsFalse self.values → value ≡ 0 }
        ensures insertion { PutsInBits self.values arena.old arena.new self.block key value result }
        ensures region { Draws arena.old arena.new (length (words_of arena.old.blocks self.block)) result }
        ensures memory { Takes (blocks_for result) arena.old arena.new }
    {
        let words = arena.words(self.block);
        let count = words[0] as usize;
        let len = bitmap::size(self.values, count + 1);
        if len <= words.len() {
            bitmap::insert(self.values, arena.words_mut(self.block), key, value);
            return Put::Done(refer_bits(count + 1, self.block));
        }
        let Ok(to) = arena.grow(alloc, self.block, bitmap::size(self.values, count), len) else {
            return Put::NoMemory;
        };
        bitmap::insert(self.values, arena.words_mut(to), key, value);
        Put::Done(refer_bits(count + 1, to))
    }

    /// Inserts a key into a bitmap leaf or a full leaf, if it is absent.
    pub(crate) fn insert(self, alloc: Global, arena: &mut Arena, key: u64, value: u64) -> Put
        requires leaf { IsBitsLeaf self.values (words_of arena.old.blocks self.block) }
        requires plain { IsFalse self.values → value ≡ 0 }
        ensures insertion { PutsInBits self.values arena.old arena.new self.block key value result }
        ensures region { Draws arena.old arena.new (length (words_of arena.old.blocks self.block)) result }
        ensures memory { Takes (blocks_for result) arena.old arena.new }
    {
        let leaf = Bits {
            words: arena.words(self.block),
            values: self.values,
        };
        if key - key % 256 != leaf.words[1] {
            return Put::Split;
        }
        match leaf.get(key) {
            Some(was) => Put::Present(was),
            None => self.add(alloc, arena, key, value),
        }
    }

    /// Removes a key. A leaf of 7 keys becomes a linear leaf in its block.
    pub(crate) fn remove(self, arena: &mut Arena, key: u64) -> Removed
        requires leaf { IsBitsLeaf self.values (words_of arena.old.blocks self.block) }
        ensures removal { RemovesInBits self.values arena.old arena.new self.block key result }
        ensures memory { TakesNothing arena.old arena.new }
    {
        let leaf = Bits {
            words: arena.words(self.block),
            values: self.values,
        };
        if !leaf.has(key) {
            return Removed::Absent;
        }
        let count = leaf.words[0] as usize;
        let value = bitmap::remove(self.values, arena.words_mut(self.block), key);
        if count == 8 {
            narrow(self.values, arena.words_mut(self.block));
            arena.shrink(self.block, linear::size(self.values, 7));
            return Removed::Left(refer(Kind::LinearLeaf, self.block), value);
        }
        arena.shrink(self.block, bitmap::size(self.values, count - 1));
        Removed::Left(refer(Kind::BitmapLeaf, self.block), value)
    }
}

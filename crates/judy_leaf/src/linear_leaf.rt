//! Linear leaves in an arena.
ghost use Rattle.std.specs.Prelude.{◌≡◌, ◌+◌, ◌<◌, ◌≤◌, [], ◌∷◌, IsFalse, is_ok, if◌then◌else◌, length};
ghost use Rattle.judy_arena.specs.Blocks.{words_of};
ghost use Rattle.judy_arena.specs.Takes.{Takes, TakesNothing};
ghost use Rattle.judy_model.specs.Contents.{IsRising, word_order, has_key, pairs};
ghost use Rattle.judy_leaf.specs.Entries.{filled};
ghost use Rattle.judy_leaf.specs.Leaf.{IsLinearLeaf};
ghost use Rattle.judy_leaf.specs.Linear.{leaf_count, linear_entries, GoesTo};
ghost use Rattle.judy_leaf.specs.Calls.{Makes, PutsInLinear, RemovesInLinear, Draws, DrawsNew, blocks_for};

use crate::answers::{Put, Removed};
use crate::bitmap;
use crate::block::refer;
use crate::convert::widen;
use crate::linear::{self, Linear};
use judy_arena::{Arena, Block, NoMemory};
use judy_refs::{Kind, Ref};
use std::alloc::Global;

/// A new linear leaf of one key with its value, 0 in a set.
pub fn single(
    values: bool,
    alloc: Global,
    arena: &mut Arena,
    key: u64,
    value: u64,
) -> Result<Ref, NoMemory>
    requires plain { IsFalse values → value ≡ 0 }
    ensures making { Makes values arena.old arena.new ((key, value) ∷ []) result }
    ensures region { DrawsNew arena.old arena.new result }
    ensures memory { Takes (if is_ok result then 1 else 0) arena.old arena.new }
{
    let block = match arena.alloc(alloc, linear::size(values, 1)) {
        Ok(block) => block,
        Err(refused) => return Err(refused),
    };
    linear::start(values, arena.words_mut(block), key, value);
    Ok(refer(Kind::LinearLeaf, block))
}

/// A new leaf of these rising keys and their values.
pub(crate) fn make(
    values: bool,
    alloc: Global,
    arena: &mut Arena,
    keys: &[u64],
    vals: &[u64],
) -> Result<Ref, NoMemory>
    requires some { 0 < length keys.now }
    requires few { length keys.now ≤ 31 }
    requires same { length vals.now ≡ length keys.now }
    requires rising { IsRising word_order (pairs keys.now vals.now) }
    ensures making { Makes values arena.old arena.new (filled values keys.now vals.now) result }
    ensures region { DrawsNew arena.old arena.new result }
    ensures memory { Takes (if is_ok result then 1 else 0) arena.old arena.new }
{
    let block = match arena.alloc(alloc, linear::size(values, keys.len())) {
        Ok(block) => block,
        Err(refused) => return Err(refused),
    };
    linear::fill(values, arena.words_mut(block), keys, vals);
    Ok(refer(Kind::LinearLeaf, block))
}

/// The block of a linear leaf, with a value for each key or without.
#[derive(Clone, Copy)]
pub(crate) struct LinearBlock {
    pub(crate) block: Block,
    pub(crate) values: bool,
}

impl LinearBlock {
    /// Inserts an absent key into a leaf of at most 30 keys.
    fn add(self, alloc: Global, arena: &mut Arena, place: usize, key: u64, value: u64) -> Put
        requires leaf { IsLinearLeaf self.values (words_of arena.old.blocks self.block) }
        requires few { leaf_count (words_of arena.old.blocks self.block) < 31 }
        requires place { GoesTo (words_of arena.old.blocks self.block) key place }
        requires plain { IsFalse self.values → value ≡ 0 }
        ensures insertion { PutsInLinear self.values arena.old arena.new self.block key value result }
        ensures region { Draws arena.old arena.new (length (words_of arena.old.blocks self.block)) result }
        ensures memory { Takes (blocks_for result) arena.old arena.new }
    {
        let words = arena.words(self.block);
        let count = words[0] as usize;
        let len = linear::size(self.values, count + 1);
        if len <= words.len() {
            linear::insert(self.values, arena.words_mut(self.block), place, key, value);
            return Put::Done(refer(Kind::LinearLeaf, self.block));
        }
        let Ok(to) = arena.grow(alloc, self.block, linear::size(self.values, count), len) else {
            return Put::NoMemory;
        };
        linear::insert(self.values, arena.words_mut(to), place, key, value);
        Put::Done(refer(Kind::LinearLeaf, to))
    }

    /// Inserts an absent key into a linear leaf of 31 keys. If all of them share bytes 0 to 6, the leaf
    /// becomes a bitmap leaf in its block.
    pub(crate) fn outgrow(self, arena: &mut Arena, key: u64, value: u64) -> Put
        requires leaf { IsLinearLeaf self.values (words_of arena.old.blocks self.block) }
        requires many { leaf_count (words_of arena.old.blocks self.block) ≡ 31 }
        requires absent { IsFalse
            (has_key word_order (linear_entries self.values (words_of arena.old.blocks self.block)) key) }
        requires plain { IsFalse self.values → value ≡ 0 }
        ensures insertion { PutsInLinear self.values arena.old arena.new self.block key value result }
        ensures region { Draws arena.old arena.new (length (words_of arena.old.blocks self.block)) result }
        ensures memory { Takes (blocks_for result) arena.old arena.new }
    {
        let leaf = Linear {
            words: arena.words(self.block),
            values: self.values,
        };
        if !leaf.shares(key) {
            return Put::Split;
        }
        let words = arena.words_mut(self.block);
        widen(self.values, words, key);
        bitmap::insert(self.values, words, key, value);
        arena.shrink(self.block, bitmap::size(self.values, 32));
        Put::Done(refer(Kind::BitmapLeaf, self.block))
    }

    /// Inserts an absent key. A leaf of 31 keys becomes a bitmap leaf, or it cannot take the key.
    fn enter(self, alloc: Global, arena: &mut Arena, place: usize, key: u64, value: u64) -> Put
        requires leaf { IsLinearLeaf self.values (words_of arena.old.blocks self.block) }
        requires place { GoesTo (words_of arena.old.blocks self.block) key place }
        requires plain { IsFalse self.values → value ≡ 0 }
        ensures insertion { PutsInLinear self.values arena.old arena.new self.block key value result }
        ensures region { Draws arena.old arena.new (length (words_of arena.old.blocks self.block)) result }
        ensures memory { Takes (blocks_for result) arena.old arena.new }
    {
        if arena.get(self.block, 0) as usize == linear::MOST {
            return self.outgrow(arena, key, value);
        }
        self.add(alloc, arena, place, key, value)
    }

    /// Inserts a key, if it is absent.
    pub(crate) fn insert(self, alloc: Global, arena: &mut Arena, key: u64, value: u64) -> Put
        requires leaf { IsLinearLeaf self.values (words_of arena.old.blocks self.block) }
        requires plain { IsFalse self.values → value ≡ 0 }
        ensures insertion { PutsInLinear self.values arena.old arena.new self.block key value result }
        ensures region { Draws arena.old arena.new (length (words_of arena.old.blocks self.block)) result }
        ensures memory { Takes (blocks_for result) arena.old arena.new }
    {
        let leaf = Linear {
            words: arena.words(self.block),
            values: self.values,
        };
        match leaf.search(key) {
            Ok(place) => Put::Present(leaf.value_at(place)),
            Err(place) => self.enter(alloc, arena, place, key, value),
        }
    }

    /// Removes a key.
    pub(crate) fn remove(self, arena: &mut Arena, key: u64) -> Removed
        requires { IsLinearLeaf self.values (words_of arena.old.blocks self.block) }
        ensures removal { RemovesInLinear self.values arena.old arena.new self.block key result }
        ensures memory { TakesNothing arena.old arena.new }
    {
        let leaf = Linear {
            words: arena.words(self.block),
            values: self.values,
        };
        let Ok(place) = leaf.search(key) else {
            return Removed::Absent;
        };
        let value = leaf.value_at(place);
        let count = leaf.words[0] as usize;
        if count == 1 {
            arena.release(self.block);
            return Removed::Emptied(value);
        }
        linear::remove(self.values, arena.words_mut(self.block), place, key);
        arena.shrink(self.block, linear::size(self.values, count - 1));
        Removed::Left(refer(Kind::LinearLeaf, self.block), value)
    }
}

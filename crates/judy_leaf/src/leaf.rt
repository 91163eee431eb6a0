//! Leaves, by their references.
ghost use Rattle.std.specs.Prelude.{◌≡◌, ◌+◌, ◌<◌, ◌≤◌, true, IsTrue, IsFalse, Some, [], is_ok, if◌then◌else◌, length, take, drop, map, slice_get, get_or};
ghost use Rattle.judy_refs.specs.declared.Kind.TheVariants.{LinearLeaf, FullLeaf};
ghost use Rattle.judy_arena.specs.Frame.{Frame};
ghost use Rattle.judy_refs.specs.References.{kind_of};
ghost use Rattle.judy_arena.specs.Takes.{Takes, TakesNothing};
ghost use Rattle.judy_model.specs.Contents.{word_order, has_key, value_of, with_entry, count, first, last};
ghost use Rattle.judy_model.specs.Gaps.{first_empty, last_empty};
ghost use Rattle.judy_leaf.specs.Entries.{rank_of};
ghost use Rattle.judy_leaf.specs.Leaf.{IsLeaf, leaf_entries, leaf_numbers, leaf_size};
ghost use Rattle.judy_leaf.specs.Calls.{LeafBecomes, Makes, LeafPuts, LeafRemoves, Draws, DrawsNew, blocks_for};

use crate::answers::{Put, Removed};
use crate::bitmap_leaf::BitsBlock;
use crate::gather::gather;
use crate::linear_leaf::LinearBlock;
use crate::opened::{Opened, open};
use crate::{bitmap, linear, linear_leaf};
use judy_arena::{Arena, NoMemory};
use judy_refs::{Kind, Ref};
use std::alloc::Global;

// Whether the reference has the kind of a linear leaf.
pub(crate) fn is_linear(leaf: Ref) -> bool
    ensures yes { IsTrue result → kind_of leaf ≡ Some LinearLeaf }
    ensures no { IsFalse result → kind_of leaf ≡ Some LinearLeaf → ⊥ }
{
    matches!(leaf.kind(), Some(Kind::LinearLeaf))
}

// Whether the reference has the kind of a full leaf.
fn is_full(leaf: Ref) -> bool
    ensures { IsTrue result → kind_of leaf ≡ Some FullLeaf }
{
    matches!(leaf.kind(), Some(Kind::FullLeaf))
}

/// Inserts a key into a leaf with this value, 0 in a set. The empty leaf becomes a linear leaf of
/// one key.
///
/// A key that is present keeps its value. `Split` means that the leaf cannot take the key: not all
/// of its keys share bytes 0 to 6 with it, and the leaf is not a linear leaf of at most 30 keys.
/// All results but `Done` leave the arena's blocks as they were.
pub fn insert(
    values: bool,
    alloc: Global,
    arena: &mut Arena,
    leaf: Ref,
    key: u64,
    value: u64,
) -> Put
    requires leaf { IsLeaf values arena.old.blocks leaf }
    requires plain { IsFalse values → value ≡ 0 }
    ensures insertion { LeafPuts values arena.old arena.new leaf key value result }
    ensures region { Draws arena.old arena.new (leaf_size arena.old.blocks leaf) result }
    ensures memory { Takes (blocks_for result) arena.old arena.new }
{
    let Some(block) = leaf.block() else {
        return match linear_leaf::single(values, alloc, arena, key, value) {
            Ok(new) => Put::Done(new),
            Err(_) => Put::NoMemory,
        };
    };
    if is_linear(leaf) {
        LinearBlock { block, values }.insert(alloc, arena, key, value)
    } else {
        BitsBlock { block, values }.insert(alloc, arena, key, value)
    }
}

/// A new linear leaf with `count` entries of a leaf, from the one at place `from` on. The old leaf
/// stays.
pub fn part(
    values: bool,
    alloc: Global,
    arena: &mut Arena,
    leaf: Ref,
    from: u64,
    count: u64,
) -> Result<Ref, NoMemory>
    requires leaf { IsLeaf values arena.old.blocks leaf }
    requires some { 1 ≤ count }
    requires few { count ≤ 31 }
    requires within { from + count ≤ length (leaf_entries values arena.old.blocks leaf) }
    ensures making { Makes values arena.old arena.new
        (take count (drop from (leaf_entries values arena.old.blocks leaf))) result }
    ensures region { DrawsNew arena.old arena.new result }
    ensures memory { Takes (if is_ok result then 1 else 0) arena.old arena.new }
{
    let leaf = open(values, arena, leaf);
    if count == 1 {
        let (key, value) = leaf.entry_at(from);
        return linear_leaf::single(values, alloc, arena, key, value);
    }
    let mut keys = [0; 31];
    let mut vals = [0; 31];
    let count = count as usize;
    gather(leaf, from, &mut keys[..count], &mut vals[..count]);
    linear_leaf::make(values, alloc, arena, &keys[..count], &vals[..count])
}

/// Releases the block of a leaf.
pub fn release(values: bool, arena: &mut Arena, leaf: Ref)
    requires { IsLeaf values arena.old.blocks leaf }
    ensures frame { Frame arena.old.blocks arena.new.blocks
        (leaf_numbers arena.old.blocks leaf) [] }
    ensures memory { TakesNothing arena.old arena.new }
{
    let _ = values;
    if let Some(block) = leaf.block() {
        arena.release(block);
    }
}

/// Removes a key from a leaf. It takes no memory.
pub fn remove(values: bool, arena: &mut Arena, leaf: Ref, key: u64) -> Removed
    requires { IsLeaf values arena.old.blocks leaf }
    ensures removal { LeafRemoves values arena.old arena.new leaf key result }
    ensures memory { TakesNothing arena.old arena.new }
{
    let Some(block) = leaf.block() else {
        return Removed::Absent;
    };
    if is_linear(leaf) {
        LinearBlock { block, values }.remove(arena, key)
    } else {
        BitsBlock { block, values }.remove(arena, key)
    }
}

/// The value of the key, 0 in a set. None if the key is absent.
pub fn get(values: bool, arena: &Arena, leaf: Ref, key: u64) -> Option<u64>
    requires { IsLeaf values arena.now.blocks leaf }
    ensures { result ≡ value_of word_order (leaf_entries values arena.now.blocks leaf) key }
{
    match open(values, arena, leaf) {
        Opened::Nothing => None,
        Opened::Linear(leaf) => leaf.get(key),
        Opened::Bits(leaf) => leaf.get(key),
    }
}

/// How many keys are below the key, or None if it is absent.
pub fn find(values: bool, arena: &Arena, leaf: Ref, key: u64) -> Option<u64>
    requires { IsLeaf values arena.now.blocks leaf }
    ensures { result ≡ rank_of (leaf_entries values arena.now.blocks leaf) key }
{
    match open(values, arena, leaf) {
        Opened::Nothing => None,
        Opened::Linear(leaf) => leaf.find(key),
        Opened::Bits(leaf) => leaf.find(key),
    }
}

/// The key of this rank, or None if there are not that many.
pub fn nth(values: bool, arena: &Arena, leaf: Ref, rank: u64) -> Option<u64>
    requires { IsLeaf values arena.now.blocks leaf }
    ensures { result ≡ slice_get (map (λ e. e.0) (leaf_entries values arena.now.blocks leaf)) rank }
{
    match open(values, arena, leaf) {
        Opened::Nothing => None,
        Opened::Linear(leaf) => leaf.nth(rank),
        Opened::Bits(leaf) => leaf.nth(rank),
    }
}

/// The key at this place. The first key has place 0.
pub fn key_at(values: bool, arena: &Arena, leaf: Ref, place: u64) -> u64
    requires leaf { IsLeaf values arena.now.blocks leaf }
    requires place { place < length (leaf_entries values arena.now.blocks leaf) }
    ensures { result ≡ (get_or (leaf_entries values arena.now.blocks leaf) place (0, 0)).0 }
{
    match nth(values, arena, leaf, place) {
        Some(key) => key,
        None => unreachable!(),
    }
}

/// How many keys there are. The block of a full leaf is not read.
pub fn population(values: bool, arena: &Arena, leaf: Ref) -> u64
    requires { IsLeaf values arena.now.blocks leaf }
    ensures { result ≡ length (leaf_entries values arena.now.blocks leaf) }
{
    let _ = values;
    if is_full(leaf) {
        return 256;
    }
    let Some(block) = leaf.block() else {
        return 0;
    };
    arena.get(block, 0)
}

/// The entry of the least key that is at least `x`.
pub fn first_entry(values: bool, arena: &Arena, leaf: Ref, x: u64) -> Option<(u64, u64)>
    requires { IsLeaf values arena.now.blocks leaf }
    ensures { result ≡ first word_order (leaf_entries values arena.now.blocks leaf) x }
{
    match open(values, arena, leaf) {
        Opened::Nothing => None,
        Opened::Linear(leaf) => leaf.first_entry(x),
        Opened::Bits(leaf) => leaf.first_entry(x),
    }
}

/// The entry of the greatest key that is at most `x`.
pub fn last_entry(values: bool, arena: &Arena, leaf: Ref, x: u64) -> Option<(u64, u64)>
    requires { IsLeaf values arena.now.blocks leaf }
    ensures { result ≡ last word_order (leaf_entries values arena.now.blocks leaf) x }
{
    match open(values, arena, leaf) {
        Opened::Nothing => None,
        Opened::Linear(leaf) => leaf.last_entry(x),
        Opened::Bits(leaf) => leaf.last_entry(x),
    }
}

/// How many keys are from `a` to `b`, both included.
pub fn count(values: bool, arena: &Arena, leaf: Ref, a: u64, b: u64) -> u64
    requires { IsLeaf values arena.now.blocks leaf }
    ensures { result ≡ count (leaf_entries values arena.now.blocks leaf) a b }
{
    match open(values, arena, leaf) {
        Opened::Nothing => 0,
        Opened::Linear(leaf) => leaf.count(a, b),
        Opened::Bits(leaf) => leaf.count(a, b),
    }
}

/// Writes the value of a key that is present.
pub fn write(arena: &mut Arena, leaf: Ref, key: u64, value: u64)
    requires leaf { IsLeaf true arena.old.blocks leaf }
    requires there { IsTrue (has_key word_order (leaf_entries true arena.old.blocks leaf) key) }
    ensures leaf { LeafBecomes true arena.old leaf arena.new leaf
        (with_entry word_order (leaf_entries true arena.old.blocks leaf) key value) }
    ensures memory { TakesNothing arena.old arena.new }
{
    let Some(block) = leaf.block() else {
        unreachable!();
    };
    let linear = is_linear(leaf);
    let words = arena.words_mut(block);
    if linear {
        linear::write(words, key, value);
        return;
    }
    bitmap::write(words, key, value);
}

/// The least word from `x` on that is not a key of the leaf.
pub fn first_empty(values: bool, arena: &Arena, leaf: Ref, x: u64) -> Option<u64>
    requires { IsLeaf values arena.now.blocks leaf }
    ensures { result ≡ first_empty (leaf_entries values arena.now.blocks leaf) x }
{
    match open(values, arena, leaf) {
        Opened::Nothing => Some(x),
        Opened::Linear(leaf) => leaf.first_empty(x),
        Opened::Bits(leaf) => leaf.first_empty(x),
    }
}

/// The greatest word up to `x` that is not a key of the leaf.
pub fn last_empty(values: bool, arena: &Arena, leaf: Ref, x: u64) -> Option<u64>
    requires { IsLeaf values arena.now.blocks leaf }
    ensures { result ≡ last_empty (leaf_entries values arena.now.blocks leaf) x }
{
    match open(values, arena, leaf) {
        Opened::Nothing => Some(x),
        Opened::Linear(leaf) => leaf.last_empty(x),
        Opened::Bits(leaf) => leaf.last_empty(x),
    }
}

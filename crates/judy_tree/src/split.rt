//! Splits a leaf: its keys go to leaves of their own under a branch, one for each byte at a level.
ghost use Rattle.std.specs.Prelude.{◌≡◌, ◌*◌, ◌-◌, ◌<◌, ◌≤◌, IfSome, IfNone, IsFalse, length};
ghost use Rattle.judy_refs.specs.References.{kind_of};
ghost use Rattle.judy_arena.specs.Takes.{Takes};
ghost use Rattle.judy_model.specs.Contents.{word_order, has_key};
ghost use Rattle.judy_leaf.specs.Leaf.{IsLeaf, leaf_entries, CannotTake};
ghost use Rattle.judy_tree.specs.Fork.{CanFork};
ghost use Rattle.judy_tree.specs.Split.{IsRun, CanSpread, MustSplit, IsPartly, Spreads, SpreadsRest, low_key};

use crate::fork::{byte_of, difference, fork, head};
use crate::node::clear;
use judy_arena::{Arena, NoMemory};
use judy_refs::Ref;
use std::alloc::Global;

// How many keys of a leaf, from a place on, agree with the key at that place up to the level.
fn run(values: bool, arena: &Arena, leaf: Ref, level: u64, place: u64) -> u64
    requires leaf { IsLeaf values arena.now.blocks leaf }
    requires level { level ≤ 6 }
    requires place { place < length (leaf_entries values arena.now.blocks leaf) }
    ensures { IsRun (leaf_entries values arena.now.blocks leaf) level place result }
{
    let count = judy_leaf::population(values, arena, leaf);
    let wanted = head(level, judy_leaf::key_at(values, arena, leaf, place));
    for next in place + 1..count {
        if head(level, judy_leaf::key_at(values, arena, leaf, next)) != wanted {
            return next - place;
        }
    }
    count - place
}

/// The level at which a leaf that cannot take a key is split: there its keys first differ from each
/// other. None if the key parts from all of them before, so that a branch may stand above the leaf.
pub fn split_level(values: bool, arena: &Arena, leaf: Ref, low: u64, key: u64) -> Option<u64>
    requires leaf { IsLeaf values arena.now.blocks leaf }
    requires low { low ≡ low_key (leaf_entries values arena.now.blocks leaf) }
    requires absent { IsFalse (has_key word_order (leaf_entries values arena.now.blocks leaf) key) }
    requires full { CannotTake (kind_of leaf) (leaf_entries values arena.now.blocks leaf) key }
    ensures some { IfSome result (λ level. MustSplit values arena.now.blocks leaf key level) }
    ensures none { IfNone result (CanFork values arena.now.blocks leaf low key) }
{
    let count = judy_leaf::population(values, arena, leaf);
    let high = judy_leaf::key_at(values, arena, leaf, count - 1);
    let level = difference(low, key);
    if head(level, low) == head(level, high) {
        return None;
    }
    Some(difference(low, high))
}

/// Makes a branch with the entries of a leaf: the keys of each byte at the level get a leaf of
/// their own. The old leaf stays.
///
/// If a block is refused, the blocks taken so far are released.
pub fn spread(
    values: bool,
    alloc: Global,
    arena: &mut Arena,
    leaf: Ref,
    level: u64,
) -> Result<Ref, NoMemory>
    requires { CanSpread values arena.old.blocks leaf level }
    ensures spreads { Spreads values arena.old arena.new leaf level result }
    ensures memory { Takes 62 arena.old arena.new }
{
    let first = run(values, arena, leaf, level, 0);
    let second = run(values, arena, leaf, level, first);
    let sample = judy_leaf::key_at(values, arena, leaf, 0);
    let other = judy_leaf::key_at(values, arena, leaf, first);
    let Ok(low) = judy_leaf::part(values, alloc, arena, leaf, 0, first) else {
        return Err(NoMemory);
    };
    let Ok(high) = judy_leaf::part(values, alloc, arena, leaf, first, second) else {
        judy_leaf::release(values, arena, low);
        return Err(NoMemory);
    };
    let Ok(two) = fork(
        alloc,
        arena,
        level,
        first + second,
        sample,
        low,
        other,
        high,
    ) else {
        judy_leaf::release(values, arena, high);
        judy_leaf::release(values, arena, low);
        return Err(NoMemory);
    };
    spread_rest(values, alloc, arena, leaf, two, first + second)
}

// Adds the entries of the leaf from a place on to the branch. If a block is refused, all blocks of
// the branch are released.
fn spread_rest(
    values: bool,
    alloc: Global,
    arena: &mut Arena,
    leaf: Ref,
    node: Ref,
    place: u64,
) -> Result<Ref, NoMemory>
    requires { IsPartly values arena.old.blocks leaf node place }
    ensures spreads { SpreadsRest values arena.old arena.new leaf node result }
    ensures memory { Takes (2 * (length (leaf_entries values arena.old.blocks leaf) - place))
        arena.old arena.new }
{
    if place == judy_leaf::population(values, arena, leaf) {
        return Ok(node);
    }
    let branch = judy_branch::head(arena, node);
    let count = run(values, arena, leaf, u64::from(branch.level), place);
    let key = judy_leaf::key_at(values, arena, leaf, place);
    let Some(byte) = byte_of(branch, key) else {
        unreachable!();
    };
    let Ok(part) = judy_leaf::part(values, alloc, arena, leaf, place, count) else {
        clear(values, arena, node);
        return Err(NoMemory);
    };
    let Ok(wider) = judy_branch::put_child(alloc, arena, node, byte, part, place + count) else {
        judy_leaf::release(values, arena, part);
        clear(values, arena, node);
        return Err(NoMemory);
    };
    spread_rest(values, alloc, arena, leaf, wider, place + count)
}

//! The calls on a node, by its reference. A node is a leaf, or a branch over nodes.
ghost use Rattle.std.specs.Prelude.{◌≡◌, ◌+◌, ◌<◌, ◌≤◌, IsTrue, IsFalse, if◌then◌else◌, length, [], true};
ghost use Rattle.judy_arena.specs.Frame.{Frame};
ghost use Rattle.judy_arena.specs.Takes.{Takes, TakesNothing};
ghost use Rattle.judy_model.specs.Contents.{word_order, value_of, has_key};
ghost use Rattle.judy_tree.specs.Nodes.{depth, is_branch};
ghost use Rattle.judy_tree.specs.Root.{IsRoot, entries, numbers};
ghost use Rattle.judy_tree.specs.Changes.{Writes};
ghost use Rattle.judy_tree.specs.Calls.{Adds, TakesBelow, most_blocks};

use crate::answers::Added;
use crate::fork::{above, beside, byte_at, byte_of, leads_to_branch};
use crate::parts::next_part;
use crate::split::{split_level, spread};
use judy_arena::Arena;
use judy_branch::Taken;
use judy_leaf::{Put, Removed};
use judy_refs::Ref;
use std::alloc::Global;

/// The value of the key, 0 in a set. None if the key is absent.
///
/// The prefixes of branches are not compared: a key with another prefix leads to no leaf that has
/// it.
pub fn get(values: bool, arena: &Arena, node: Ref, key: u64) -> Option<u64>
    requires { IsRoot values arena.now.blocks node }
    ensures { result ≡ value_of word_order (entries values arena.now.blocks node) key }
{
    let mut at = node;
    while leads_to_branch(at) {
        let branch = judy_branch::open(arena, at);
        let byte = byte_at(branch.head().level, key);
        let Some(child) = branch.child(byte) else {
            return None;
        };
        at = child;
    }
    judy_leaf::get(values, arena, at, key)
}

/// How many keys there are.
pub fn population(values: bool, arena: &Arena, node: Ref) -> u64
    requires { IsRoot values arena.now.blocks node }
    ensures { result ≡ length (entries values arena.now.blocks node) }
{
    if leads_to_branch(node) {
        return judy_branch::population(arena, node);
    }
    judy_leaf::population(values, arena, node)
}

/// Inserts a key with this value, in one way down. A present key keeps its value.
pub fn insert(
    values: bool,
    alloc: Global,
    arena: &mut Arena,
    node: Ref,
    key: u64,
    value: u64,
) -> Added
    requires root { IsRoot values arena.old.blocks node }
    requires zero { IsFalse values → value ≡ 0 }
    ensures insertion { Adds values arena.old node arena.new key value result }
    ensures memory { Takes (most_blocks 64 result) arena.old arena.new }
    ensures few { length (entries values arena.old.blocks node) + (if is_branch node then 0 else 1)
        ≤ 31 → Takes (most_blocks 2 result) arena.old arena.new }
{
    if leads_to_branch(node) {
        let branch = judy_branch::head(arena, node);
        let Some(byte) = byte_of(branch, key) else {
            return above(values, alloc, arena, node, branch.prefix, key, value);
        };
        let Some(child) = judy_branch::child(arena, node, byte) else {
            return beside(values, alloc, arena, node, byte, key, value);
        };
        return match insert(values, alloc, arena, child, key, value) {
            Added::Done(root) => {
                let keys = branch.population + 1;
                judy_branch::change_child(arena, node, byte, child, root, keys);
                Added::Done(node)
            }
            Added::Present(found) => Added::Present(found),
            Added::NoMemory => Added::NoMemory,
        };
    }
    match judy_leaf::insert(values, alloc, arena, node, key, value) {
        Put::Done(root) => Added::Done(root),
        Put::Present(found) => Added::Present(found),
        Put::NoMemory => Added::NoMemory,
        Put::Split => {
            let low = judy_leaf::key_at(values, arena, node, 0);
            let Some(level) = split_level(values, arena, node, low, key) else {
                return above(values, alloc, arena, node, low, key, value);
            };
            let Ok(split) = spread(values, alloc, arena, node, level) else {
                return Added::NoMemory;
            };
            match insert(values, alloc, arena, split, key, value) {
                Added::Done(root) => {
                    judy_leaf::release(values, arena, node);
                    Added::Done(root)
                }
                Added::Present(_) => unreachable!(),
                Added::NoMemory => {
                    clear(values, arena, split);
                    Added::NoMemory
                }
            }
        }
    }
}

/// Writes the value of a key of a map.
pub fn write(arena: &mut Arena, node: Ref, key: u64, value: u64)
    requires root { IsRoot true arena.old.blocks node }
    requires there { IsTrue (has_key word_order (entries true arena.old.blocks node) key) }
    ensures array { Writes true arena.old node key value arena.new node }
    ensures deep { depth arena.new.blocks node ≡ depth arena.old.blocks node }
    ensures memory { TakesNothing arena.old arena.new }
{
    if !leads_to_branch(node) {
        judy_leaf::write(arena, node, key, value);
        return;
    }
    let Some(byte) = byte_of(judy_branch::head(arena, node), key) else {
        unreachable!();
    };
    let Some(child) = judy_branch::child(arena, node, byte) else {
        unreachable!();
    };
    write(arena, child, key, value);
}

/// Removes a key, in one way down.
pub fn remove(values: bool, arena: &mut Arena, node: Ref, key: u64) -> Removed
    requires { IsRoot values arena.old.blocks node }
    ensures removal { TakesBelow values arena.old node arena.new key result }
    ensures memory { TakesNothing arena.old arena.new }
{
    if !leads_to_branch(node) {
        return match judy_leaf::remove(values, arena, node, key) {
            Removed::Absent => Removed::Absent,
            Removed::Left(left, value) => Removed::Left(left, value),
            Removed::Emptied(value) => Removed::Emptied(value),
        };
    }
    let branch = judy_branch::head(arena, node);
    let Some(byte) = byte_of(branch, key) else {
        return Removed::Absent;
    };
    let Some(child) = judy_branch::child(arena, node, byte) else {
        return Removed::Absent;
    };
    match remove(values, arena, child, key) {
        Removed::Absent => Removed::Absent,
        Removed::Left(left, value) => {
            judy_branch::change_child(arena, node, byte, child, left, branch.population - 1);
            Removed::Left(node, value)
        }
        Removed::Emptied(value) => {
            match judy_branch::take_child(arena, node, byte, branch.population - 1) {
                Taken::Branch(rest) => Removed::Left(rest, value),
                Taken::Only(rest) => Removed::Left(rest, value),
            }
        }
    }
}

/// Releases all blocks of the array.
pub fn clear(values: bool, arena: &mut Arena, root: Ref)
    requires { IsRoot values arena.old.blocks root }
    ensures frame { Frame arena.old.blocks arena.new.blocks (numbers arena.old.blocks root) [] }
    ensures memory { TakesNothing arena.old arena.new }
{
    if !leads_to_branch(root) {
        judy_leaf::release(values, arena, root);
        return;
    }
    let mut low = 0;
    while let Some(part) = next_part(arena, root, low) {
        clear(values, arena, part.1);
        low = u16::from(part.0) + 1;
    }
    judy_branch::release(arena, root);
}

//! Forks: a key that differs from a node's keys gets a leaf of its own, beside other children or
//! under a new branch.
ghost use Rattle.std.specs.Prelude.{◌≡◌, ◌≢◌, ℕ, ◌+◌, ◌-◌, ◌*◌, ◌%◌, ◌^◌, ◌<◌, ◌≤◌, IfSome, IfNone, IsTrue, IsFalse, is_ok, if◌then◌else◌, length, true};
ghost use Rattle.judy_arena.specs.Takes.{Takes};
ghost use Rattle.judy_model.specs.Contents.{word_order, has_key};
ghost use Rattle.judy_branch.specs.Branch.{branch_view};
ghost use Rattle.judy_tree.specs.Nodes.{head_at, is_branch};
ghost use Rattle.judy_tree.specs.Root.{IsRoot, entries};
ghost use Rattle.judy_tree.specs.Calls.{HasByte, IsOutside, Adds, most_blocks};
ghost use Rattle.judy_tree.specs.Fork.{Differ, CanFork, Forks};

use crate::answers::Added;
use crate::node::population;
use judy_arena::{Arena, NoMemory};
use judy_branch::Head;
use judy_refs::Ref;
use std::alloc::Global;

/// Whether the reference leads to a branch.
pub fn leads_to_branch(node: Ref) -> bool
    ensures { result ≡ is_branch node }
{
    !node.leads_to_leaf()
}

/// The bytes of a key up to the one at the level, as a number.
#[tactic(auto, unfolding(crate::specs::Nodes::head_at))]
pub fn head(level: u64, key: u64) -> u64
    requires { level ≤ 7 }
    ensures { result ≡ head_at level key }
{
    key >> (56 - 8 * level)
}

// The byte of a key at the level, if the key has the prefix. The difference wraps if the prefix is
// above the key's bytes, and is then above 255.
fn byte_past(level: u64, prefix: u64, key: u64) -> Option<u8>
    requires { level ≤ 6 }
    ensures some { IfSome result (λ byte. HasByte level prefix key byte) }
    ensures none { IfNone result (IsOutside level prefix key) }
{
    let past = head(level, key).wrapping_sub(head(level, prefix));
    if past > 255 {
        return None;
    }
    Some(past as u8)
}

/// The byte of a key at a branch, if the key has the branch's prefix.
pub fn byte_of(branch: Head, key: u64) -> Option<u8>
    requires { branch.level ≤ 6 }
    ensures some { IfSome result (λ byte. HasByte branch.level branch.prefix key byte) }
    ensures none { IfNone result (IsOutside branch.level branch.prefix key) }
{
    byte_past(u64::from(branch.level), branch.prefix, key)
}

/// The byte of a key at the level.
pub fn byte_at(level: u8, key: u64) -> u8
    requires { level ≤ 6 }
    ensures { result ≡ head_at level key % 256 }
{
    (head(u64::from(level), key) % 256) as u8
}

/// The first byte in which two keys differ.
pub fn difference(a: u64, b: u64) -> u64
    requires { a ≢ b }
    ensures { Differ a b result }
{
    for level in 0..7u64 {
        if head(level, a) != head(level, b) {
            return level;
        }
    }
    7
}

/// Adds a leaf of the key to a branch that has no child at the key's byte.
pub fn beside(
    values: bool,
    alloc: Global,
    arena: &mut Arena,
    node: Ref,
    byte: u8,
    key: u64,
    value: u64,
) -> Added
    requires root { IsRoot values arena.old.blocks node }
    requires branch { is_branch node ≡ true }
    requires byte { HasByte (branch_view arena.old.blocks node).level
        (branch_view arena.old.blocks node).prefix key byte }
    requires none { IsFalse (has_key word_order (branch_view arena.old.blocks node).children byte) }
    requires zero { IsFalse values → value ≡ 0 }
    ensures insertion { Adds values arena.old node arena.new key value result }
    ensures memory { Takes (most_blocks 2 result) arena.old arena.new }
{
    let population = judy_branch::population(arena, node);
    let Ok(made) = judy_leaf::single(values, alloc, arena, key, value) else {
        return Added::NoMemory;
    };
    let Ok(root) = judy_branch::put_child(alloc, arena, node, byte, made, population + 1) else {
        judy_leaf::release(values, arena, made);
        return Added::NoMemory;
    };
    Added::Done(root)
}

/// Makes a branch of a node and a leaf of one key, at the first byte in which the key differs from
/// a sample of the node's keys.
pub fn above(
    values: bool,
    alloc: Global,
    arena: &mut Arena,
    node: Ref,
    sample: u64,
    key: u64,
    value: u64,
) -> Added
    requires root { IsRoot values arena.old.blocks node }
    requires some { 0 < length (entries values arena.old.blocks node) }
    requires other { sample ≢ key }
    requires fork { CanFork values arena.old.blocks node sample key }
    requires zero { IsFalse values → value ≡ 0 }
    ensures insertion { Adds values arena.old node arena.new key value result }
    ensures memory { Takes (most_blocks 2 result) arena.old arena.new }
{
    let level = difference(sample, key);
    let keys = population(values, arena, node) + 1;
    let Ok(made) = judy_leaf::single(values, alloc, arena, key, value) else {
        return Added::NoMemory;
    };
    let Ok(root) = fork(alloc, arena, level, keys, sample, node, key, made) else {
        judy_leaf::release(values, arena, made);
        return Added::NoMemory;
    };
    Added::Done(root)
}

// The bytes of a key before the level; the others are 0.
fn prefix_of(level: u64, key: u64) -> u64
    requires { level ≤ 6 }
    ensures clear { result % 2 ^ (64 - 8 * level) ≡ 0 }
    ensures head { head_at level result + head_at level key % 256 ≡ head_at level key }
{
    let shift = 56 - 8 * level;
    let whole = key >> shift;
    (whole - whole % 256) << shift
}

/// Makes a branch of two nodes. Each comes with a key below it; the order is that of the keys'
/// bytes at the branch's level.
pub fn fork(
    alloc: Global,
    arena: &mut Arena,
    level: u64,
    population: u64,
    one: u64,
    node: Ref,
    other: u64,
    made: Ref,
) -> Result<Ref, NoMemory>
    requires level { level ≤ 6 }
    requires differ { head_at level one ≢ head_at level other }
    requires agree { (m : ℕ) → m < level → head_at m one ≡ head_at m other }
    requires node { node ≢ 0 }
    requires made { made ≢ 0 }
    ensures forks { Forks arena.old arena.new level population (one, node) (other, made) result }
    ensures memory { Takes (if is_ok result then 1 else 0) arena.old arena.new }
{
    let prefix = prefix_of(level, one);
    let here = (head(level, one) % 256) as u8;
    let there = (head(level, other) % 256) as u8;
    if here < there {
        return judy_branch::make(
            alloc,
            arena,
            level as u8,
            prefix,
            &[(here, node), (there, made)],
            population,
        );
    }
    judy_branch::make(
        alloc,
        arena,
        level as u8,
        prefix,
        &[(there, made), (here, node)],
        population,
    )
}

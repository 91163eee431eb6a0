//! Nodes of the tree, by their references: leaves, and branches over nodes.
ghost use Rattle.std.specs.Prelude.{◌≡◌, ◌≢◌, ℕ, ◌+◌, ◌-◌, ◌*◌, ◌/◌, ◌^◌, ◌<◌, ◌≤◌, ◌==◌, length, IfSome, IfNone, true, false};
ghost use Rattle.judy_model.specs.Contents.{nth};
ghost use Rattle.judy_query.specs.Keys.{key_found};
ghost use Rattle.judy_query.specs.Parts.{head_in, own_head};
ghost use Rattle.judy_leaf.specs.Leaf.{IsLeaf, leaf_entries};
ghost use Rattle.judy_branch.specs.Branch.{IsBranch, branch_view};
ghost use Rattle.judy_tree.specs.Nodes.{head_at, is_branch};
ghost use Rattle.judy_tree.specs.Root.{IsRoot, entries};

use judy_arena::Arena;
use judy_branch::{Head, head};
use judy_refs::{Kind, Ref};
use judy_tree::population;

// The bytes of a key up to the one at the level, as a number.
pub(crate) fn lead(level: u8, key: u64) -> u64
    requires { level ≤ 7 }
    ensures { result ≡ head_at level key }
{
    judy_tree::head(u64::from(level), key)
}

// The head of a branch. Its level is at most 6: there is a byte below.
pub(crate) fn look(arena: &Arena, node: Ref) -> Head
    requires { IsBranch arena.now.blocks node }
    ensures level { result.level ≡ (branch_view arena.now.blocks node).level }
    ensures prefix { result.prefix ≡ (branch_view arena.now.blocks node).prefix }
    ensures population { result.population ≡ (branch_view arena.now.blocks node).population }
    ensures low { result.level ≤ 6 }
{
    head(arena, node)
}

// The byte of a key at a branch, if the key has the branch's prefix.
pub(crate) fn byte_of(arena: &Arena, node: Ref, key: u64) -> Option<u8>
    requires { IsBranch arena.now.blocks node }
    ensures some { IfSome result
        (λ x. head_in arena.now.blocks node key ≡ own_head arena.now.blocks node + x) }
    ensures none { IfNone result ((x : ℕ) → x < 256
        → head_in arena.now.blocks node key ≢ own_head arena.now.blocks node + x) }
{
    judy_tree::byte_of(look(arena, node), key)
}

/// The least byte of children that may have keys from a word on. None if all keys are below it.
pub(crate) fn byte_from(arena: &Arena, node: Ref, x: u64) -> Option<u8>
    requires { IsBranch arena.now.blocks node }
    ensures low { IfSome result
        (λ y. head_in arena.now.blocks node x ≤ own_head arena.now.blocks node + y) }
    ensures exact { IfSome result
        (λ y. 0 < y → head_in arena.now.blocks node x ≡ own_head arena.now.blocks node + y) }
    ensures none { IfNone result
        (own_head arena.now.blocks node + 255 < head_in arena.now.blocks node x) }
{
    let at = look(arena, node);
    let level = at.level;
    let own = lead(level, at.prefix);
    let wanted = lead(level, x);
    if wanted <= own {
        return Some(0);
    }
    if wanted - own > 255 {
        return None;
    }
    Some((wanted - own) as u8)
}

/// The greatest byte of children that may have keys up to a word. None if all keys are above it.
pub(crate) fn byte_upto(arena: &Arena, node: Ref, x: u64) -> Option<u8>
    requires { IsBranch arena.now.blocks node }
    ensures high { IfSome result
        (λ y. own_head arena.now.blocks node + y ≤ head_in arena.now.blocks node x) }
    ensures exact { IfSome result (λ y. y < 255
        → head_in arena.now.blocks node x ≡ own_head arena.now.blocks node + y) }
    ensures none { IfNone result
        (head_in arena.now.blocks node x < own_head arena.now.blocks node) }
{
    let at = look(arena, node);
    let level = at.level;
    let own = lead(level, at.prefix);
    let wanted = lead(level, x);
    if wanted < own {
        return None;
    }
    if wanted - own > 255 {
        return Some(255);
    }
    Some((wanted - own) as u8)
}

// True only if every word with at least the bytes `own` up to the level is at least `a`.
fn starts_before(level: u8, own: u64, a: u64) -> bool
    requires { level ≤ 7 }
    ensures { result ≡ true → (k : ℕ) → own ≤ head_at level k → a ≤ k }
{
    if a == 0 {
        return true;
    }
    lead(level, a) < own
}

// True only if every word with at most the bytes `own + 255` up to the level is at most `b`.
fn ends_after(level: u8, own: u64, b: u64) -> bool
    requires { level ≤ 7 }
    ensures { result ≡ true → (k : ℕ) → k < 2 ^ 64 → head_at level k ≤ own + 255 → k ≤ b }
{
    if b == u64::MAX {
        return true;
    }
    let high = lead(level, b);
    own < high && high - own > 255
}

/// Whether all keys below a branch lie from one word to another, both included.
pub(crate) fn lies_between(arena: &Arena, node: Ref, a: u64, b: u64) -> bool
    requires { IsBranch arena.now.blocks node }
    ensures above { result ≡ true → (k : ℕ)
        → own_head arena.now.blocks node ≤ head_in arena.now.blocks node k → a ≤ k }
    ensures below { result ≡ true → (k : ℕ) → k < 2 ^ 64
        → head_in arena.now.blocks node k ≤ own_head arena.now.blocks node + 255 → k ≤ b }
{
    let at = look(arena, node);
    let own = lead(at.level, at.prefix);
    if !starts_before(at.level, own, a) {
        return false;
    }
    ends_after(at.level, own, b)
}

/// Whether a node has this many keys. A full leaf is known by its reference alone.
#[inline(always)]
pub(crate) fn has_all(values: bool, arena: &Arena, node: Ref, count: u64) -> bool
    requires { IsRoot values arena.now.blocks node }
    ensures { result ≡ (length (entries values arena.now.blocks node) == count) }
{
    if node.leads_to(Kind::FullLeaf) {
        return count == 256;
    }
    population(values, arena, node) == count
}

/// The `n`-th key of a leaf, counted from 1.
pub(crate) fn by_count_in_leaf(values: bool, arena: &Arena, leaf: Ref, n: u64) -> Option<u64>
    requires { IsLeaf values arena.now.blocks leaf }
    ensures { result ≡ key_found (nth (leaf_entries values arena.now.blocks leaf) n) }
{
    if n == 0 {
        return None;
    }
    judy_leaf::nth(values, arena, leaf, n - 1)
}

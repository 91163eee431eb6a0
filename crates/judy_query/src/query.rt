//! Queries of a node: each goes down one path.
ghost use Rattle.std.specs.Prelude.{◌≡◌, ◌≢◌, ℕ, ◌+◌, ◌-◌, ◌*◌, ◌%◌, ◌^◌, ◌<◌, ◌≤◌, ◌&&◌, nat_lt, nat_le, filter, length, IfSome, IfNone, true, None};
ghost use Rattle.judy_model.specs.Contents.{word_order, count, nth, first, next, last, prev};
ghost use Rattle.judy_model.specs.Gaps.{first_empty, next_empty, last_empty, prev_empty};
ghost use Rattle.judy_branch.specs.Branch.{IsBranch, branch_view};
ghost use Rattle.judy_tree.specs.Nodes.{joined, depth, is_branch, head_at};
ghost use Rattle.judy_tree.specs.Root.{IsRoot, entries};
ghost use Rattle.judy_query.specs.Keys.{key_found};
ghost use Rattle.judy_query.specs.Parts.{entries_below};

use crate::{near, node};
use judy_arena::Arena;
use judy_refs::Ref;
use judy_tree::{leads_to_branch, population};

/// The entry of the least key that is at least `x`.
pub(crate) fn first_entry(values: bool, arena: &Arena, node: Ref, x: u64) -> Option<(u64, u64)>
    requires { IsRoot values arena.now.blocks node }
    ensures { result ≡ first word_order (entries values arena.now.blocks node) x }
{
    if !leads_to_branch(node) {
        return judy_leaf::first_entry(values, arena, node, x);
    }
    let Some(from) = node::byte_from(arena, node, x) else {
        return None;
    };
    let Some(child) = judy_branch::next_child(arena, node, from) else {
        return None;
    };
    if let Some(found) = first_entry(values, arena, child.1, x) {
        return Some(found);
    }
    if child.0 == 255 {
        return None;
    }
    let Some(after) = judy_branch::next_child(arena, node, child.0 + 1) else {
        return None;
    };
    first_entry(values, arena, after.1, x)
}

/// The entry of the least key above `x`. None for the greatest word.
pub(crate) fn next_entry(values: bool, arena: &Arena, node: Ref, x: u64) -> Option<(u64, u64)>
    requires { IsRoot values arena.now.blocks node }
    ensures { result ≡ next word_order (entries values arena.now.blocks node) x }
{
    if x == u64::MAX {
        return None;
    }
    near::first_entry(values, arena, node, x + 1)
}

// How many keys are below the children with bytes from `from` to below `high`.
fn between(values: bool, arena: &Arena, node: Ref, from: u8, high: u16) -> u64
    requires root { IsRoot values arena.now.blocks node }
    requires branch { is_branch node ≡ true }
    requires rising { from ≤ high }
    requires bytes { high ≤ 256 }
    ensures { result ≡ length (entries_below values arena.now.blocks node from high) }
{
    let span = judy_branch::span(arena, node, from, high);
    let mut count = 0;
    for i in 0..span.len() {
        let word = span[i];
        if word == 0 {
            continue;
        }
        let child = Ref::known(word);
        count += population(values, arena, child);
    }
    count
}

// The same, for more than half of the bytes: it subtracts the keys of all other children.
fn middle(values: bool, arena: &Arena, node: Ref, from: u8, high: u8) -> u64
    requires root { IsRoot values arena.now.blocks node }
    requires branch { is_branch node ≡ true }
    requires rising { from ≤ high }
    ensures { result ≡ length (entries_below values arena.now.blocks node from high) }
{
    if high - from <= 128 {
        return between(values, arena, node, from, u16::from(high));
    }
    let before = between(values, arena, node, 0, u16::from(from));
    let after = between(values, arena, node, high, 256);
    judy_branch::population(arena, node) - before - after
}

/// How many keys are from `a` to `b`, both included.
pub(crate) fn count(values: bool, arena: &Arena, node: Ref, a: u64, b: u64) -> u64
    requires { IsRoot values arena.now.blocks node }
    ensures { result ≡ count (entries values arena.now.blocks node) a b }
{
    if !leads_to_branch(node) {
        return judy_leaf::count(values, arena, node, a, b);
    }
    if node::lies_between(arena, node, a, b) {
        return judy_branch::population(arena, node);
    }
    let Some(low) = node::byte_from(arena, node, a) else {
        return 0;
    };
    let Some(high) = node::byte_upto(arena, node, b) else {
        return 0;
    };
    if high < low {
        return 0;
    }
    let lowest = match judy_branch::child(arena, node, low) {
        Some(child) => count(values, arena, child, a, b),
        None => 0,
    };
    if low == high {
        return lowest;
    }
    let highest = match judy_branch::child(arena, node, high) {
        Some(child) => count(values, arena, child, a, b),
        None => 0,
    };
    lowest + middle(values, arena, node, low + 1, high) + highest
}

// The least word above all words with the bytes of `x` up to the level. None if there is none.
fn past(level: u8, x: u64) -> Option<u64>
    requires { level ≤ 6 }
    ensures some { IfSome result (λ e. e ≡ (head_at level x + 1) * 2 ^ (56 - 8 * level)) }
    ensures word { IfSome result (λ e. e < 2 ^ 64) }
    ensures none { IfNone result (2 ^ 64 ≤ (head_at level x + 1) * 2 ^ (56 - 8 * level)) }
{
    let size = 1u64 << (56 - 8 * level);
    (x - x % size).checked_add(size)
}

/// The least absent word that is at least `x`.
pub(crate) fn first_empty(values: bool, arena: &Arena, node: Ref, x: u64) -> Option<u64>
    requires { IsRoot values arena.now.blocks node }
    ensures { result ≡ first_empty (entries values arena.now.blocks node) x }
{
    if !leads_to_branch(node) {
        return judy_leaf::first_empty(values, arena, node, x);
    }
    let Some(byte) = node::byte_of(arena, node, x) else {
        return Some(x);
    };
    let level = judy_branch::level(arena, node);
    let row = judy_branch::row(arena, node, byte);
    let mut from = x;
    for at in 0..row.len() {
        if row[at] == 0 {
            return Some(from);
        }
        let child = Ref::known(row[at]);
        if node::has_all(values, arena, child, 1u64 << (56 - 8 * level)) {
            let Some(beyond) = past(level, from) else {
                return None;
            };
            from = beyond;
            continue;
        }
        let Some(gap) = first_empty(values, arena, child, from) else {
            return None;
        };
        if node::lead(level, gap) == node::lead(level, from) {
            return Some(gap);
        }
        from = gap;
    }
    Some(from)
}

/// The least absent word above `x`. None for the greatest word.
pub(crate) fn next_empty(values: bool, arena: &Arena, node: Ref, x: u64) -> Option<u64>
    requires { IsRoot values arena.now.blocks node }
    ensures { result ≡ next_empty (entries values arena.now.blocks node) x }
{
    if x == u64::MAX {
        return None;
    }
    first_empty(values, arena, node, x + 1)
}

// The child that has the `n`-th key, and the key's number in the child, from the first child up.
fn place_up(values: bool, arena: &Arena, node: Ref, n: u64) -> Option<(Ref, u64)>
    requires root { IsRoot values arena.now.blocks node }
    requires branch { is_branch node ≡ true }
    ensures place { IfSome result (λ p. nth (entries values arena.now.blocks node) n
        ≡ nth (entries values arena.now.blocks p.0) p.1) }
    ensures root { IfSome result (λ p. IsRoot values arena.now.blocks p.0) }
    ensures deeper { IfSome result (λ p. depth arena.now.blocks node < depth arena.now.blocks p.0) }
    ensures none { IfNone result (nth (entries values arena.now.blocks node) n ≡ None) }
{
    let slots = judy_branch::slots(arena, node);
    let mut left = n;
    for i in 0..slots.len() {
        let word = slots[i];
        if word == 0 {
            continue;
        }
        let child = Ref::known(word);
        let here = population(values, arena, child);
        if left <= here {
            return Some((child, left));
        }
        left -= here;
    }
    None
}

// The same, from the last child down.
fn place_down(values: bool, arena: &Arena, node: Ref, n: u64) -> Option<(Ref, u64)>
    requires root { IsRoot values arena.now.blocks node }
    requires branch { is_branch node ≡ true }
    requires within { n ≤ length (entries values arena.now.blocks node) }
    ensures place { IfSome result (λ p. nth (entries values arena.now.blocks node) n
        ≡ nth (entries values arena.now.blocks p.0) p.1) }
    ensures root { IfSome result (λ p. IsRoot values arena.now.blocks p.0) }
    ensures deeper { IfSome result (λ p. depth arena.now.blocks node < depth arena.now.blocks p.0) }
    ensures none { IfNone result (nth (entries values arena.now.blocks node) n ≡ None) }
{
    let slots = judy_branch::slots(arena, node);
    let mut after = judy_branch::population(arena, node) - n;
    for i in (0..slots.len()).rev() {
        let word = slots[i];
        if word == 0 {
            continue;
        }
        let child = Ref::known(word);
        let here = population(values, arena, child);
        if after < here {
            return Some((child, here - after));
        }
        after -= here;
    }
    None
}

// The child that has the `n`-th key, and the key's number in the child, from the nearer end.
fn place(values: bool, arena: &Arena, node: Ref, n: u64) -> Option<(Ref, u64)>
    requires root { IsRoot values arena.now.blocks node }
    requires branch { is_branch node ≡ true }
    ensures place { IfSome result (λ p. nth (entries values arena.now.blocks node) n
        ≡ nth (entries values arena.now.blocks p.0) p.1) }
    ensures root { IfSome result (λ p. IsRoot values arena.now.blocks p.0) }
    ensures deeper { IfSome result (λ p. depth arena.now.blocks node < depth arena.now.blocks p.0) }
    ensures none { IfNone result (nth (entries values arena.now.blocks node) n ≡ None) }
{
    let all = judy_branch::population(arena, node);
    if n > all / 2 && n <= all {
        return place_down(values, arena, node, n);
    }
    place_up(values, arena, node, n)
}

/// The `n`-th key, counted from 1. None for 0, and if there are fewer keys.
pub(crate) fn by_count(values: bool, arena: &Arena, node: Ref, n: u64) -> Option<u64>
    requires { IsRoot values arena.now.blocks node }
    ensures { result ≡ key_found (nth (entries values arena.now.blocks node) n) }
{
    if !leads_to_branch(node) {
        return node::by_count_in_leaf(values, arena, node, n);
    }
    let Some(found) = place(values, arena, node, n) else {
        return None;
    };
    by_count(values, arena, found.0, found.1)
}

/// The entry of the greatest key that is at most `x`.
pub(crate) fn last_entry(values: bool, arena: &Arena, node: Ref, x: u64) -> Option<(u64, u64)>
    requires { IsRoot values arena.now.blocks node }
    ensures { result ≡ last word_order (entries values arena.now.blocks node) x }
{
    if !leads_to_branch(node) {
        return judy_leaf::last_entry(values, arena, node, x);
    }
    let Some(upto) = node::byte_upto(arena, node, x) else {
        return None;
    };
    let Some(child) = judy_branch::prev_child(arena, node, upto) else {
        return None;
    };
    if let Some(found) = last_entry(values, arena, child.1, x) {
        return Some(found);
    }
    if child.0 == 0 {
        return None;
    }
    let Some(before) = judy_branch::prev_child(arena, node, child.0 - 1) else {
        return None;
    };
    last_entry(values, arena, before.1, x)
}

/// The entry of the greatest key below `x`. None for 0.
pub(crate) fn prev_entry(values: bool, arena: &Arena, node: Ref, x: u64) -> Option<(u64, u64)>
    requires { IsRoot values arena.now.blocks node }
    ensures { result ≡ prev word_order (entries values arena.now.blocks node) x }
{
    if x == 0 {
        return None;
    }
    near::last_entry(values, arena, node, x - 1)
}

// The greatest word below all words that have the same multiple of `size` as `x`. None if there is
// none.
fn below(size: u64, x: u64) -> Option<u64>
    requires { 0 < size }
    ensures some { IfSome result (λ e. e + 1 ≡ x - x % size) }
    ensures none { IfNone result (x - x % size ≡ 0) }
{
    (x - x % size).checked_sub(1)
}

/// The greatest absent word that is at most `x`.
pub(crate) fn last_empty(values: bool, arena: &Arena, node: Ref, x: u64) -> Option<u64>
    requires { IsRoot values arena.now.blocks node }
    ensures { result ≡ last_empty (entries values arena.now.blocks node) x }
{
    if !leads_to_branch(node) {
        return judy_leaf::last_empty(values, arena, node, x);
    }
    let Some(byte) = node::byte_of(arena, node, x) else {
        return Some(x);
    };
    let level = judy_branch::level(arena, node);
    let branch = judy_branch::open(arena, node);
    let size = 1u64 << (56 - 8 * level);
    let mut from = x;
    for down in 0..u16::from(byte) + 1 {
        let at = u16::from(byte) - down;
        let Some(child) = branch.child(at as u8) else {
            return Some(from);
        };
        let gap = if population(values, arena, child) == size {
            below(size, from)
        } else {
            last_empty(values, arena, child, from)
        };
        let Some(gap) = gap else {
            return None;
        };
        if node::lead(level, gap) == node::lead(level, from) {
            return Some(gap);
        }
        from = gap;
    }
    Some(from)
}

/// The greatest absent word below `x`. None for 0.
pub(crate) fn prev_empty(values: bool, arena: &Arena, node: Ref, x: u64) -> Option<u64>
    requires { IsRoot values arena.now.blocks node }
    ensures { result ≡ prev_empty (entries values arena.now.blocks node) x }
{
    if x == 0 {
        return None;
    }
    last_empty(values, arena, node, x - 1)
}

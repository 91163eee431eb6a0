//! Searches that look first in the leaf to which a word leads, then below the next child of the
//! branch above. Most results are found there, without going back to a branch further up.
ghost use Rattle.std.specs.Prelude.{◌≡◌, IfSome};
ghost use Rattle.judy_model.specs.Contents.{word_order, first, next, last, prev};
ghost use Rattle.judy_branch.specs.Branch.{IsBranch};
ghost use Rattle.judy_query.specs.Parts.{IsNear, IsAfter, IsBefore};
ghost use Rattle.judy_query.specs.Fingers.{IsFinger};
ghost use Rattle.judy_tree.specs.Root.{IsRoot, entries};

use crate::{node, query};
use judy_arena::Arena;
use judy_refs::Ref;
use judy_tree::{byte_of, leads_to_branch};

// Where a word leads: a leaf, or the empty leaf, and the branch above.
#[derive(Clone, Copy)]
struct Near {
    leaf: Ref,
    branch: Ref,
}

/// Where a word is in an array: its value, and the nodes around it. From there the neighbours of a
/// present word are found without the way down from the root.
#[derive(Clone, Copy)]
pub struct Finger {
    /// The value of the word. None if it is absent.
    pub value: Option<u64>,
    /// The leaf that has the word, if it is present.
    pub leaf: Ref,
    /// The branch above that leaf. The empty reference if the array is one leaf.
    pub branch: Ref,
}

// Where a word leads. None if there is no branch, or if a branch on the path has another prefix.
// The function is inlined in each search, so the leaf and the branch stay in registers.
#[inline(always)]
fn leaf_of(values: bool, arena: &Arena, node: Ref, x: u64) -> Option<Near>
    requires { IsRoot values arena.now.blocks node }
    ensures { IfSome result (λ near. IsNear values arena.now.blocks node x near.branch near.leaf) }
{
    let _ = values;
    let mut at = node;
    while leads_to_branch(at) {
        let branch = judy_branch::open(arena, at);
        let Some(byte) = byte_of(branch.head(), x) else {
            return None;
        };
        let Some(child) = branch.child(byte) else {
            return Some(Near {
                leaf: Ref::EMPTY,
                branch: at,
            });
        };
        if !leads_to_branch(child) {
            return Some(Near {
                leaf: child,
                branch: at,
            });
        }
        at = child;
    }
    None
}

// The first child after the word's byte at a branch.
pub(crate) fn after(arena: &Arena, branch: Ref, x: u64) -> Option<(u8, Ref)>
    requires { IsBranch arena.now.blocks branch }
    ensures { IfSome result (IsAfter arena.now.blocks branch x) }
{
    let Some(byte) = node::byte_of(arena, branch, x) else {
        return None;
    };
    if byte == 255 {
        return None;
    }
    judy_branch::next_child(arena, branch, byte + 1)
}

// The last child before the word's byte at a branch.
pub(crate) fn before(arena: &Arena, branch: Ref, x: u64) -> Option<(u8, Ref)>
    requires { IsBranch arena.now.blocks branch }
    ensures { IfSome result (IsBefore arena.now.blocks branch x) }
{
    let Some(byte) = node::byte_of(arena, branch, x) else {
        return None;
    };
    if byte == 0 {
        return None;
    }
    judy_branch::prev_child(arena, branch, byte - 1)
}

/// The entry of the least key that is at least `x`.
pub(crate) fn first_entry(values: bool, arena: &Arena, node: Ref, x: u64) -> Option<(u64, u64)>
    requires { IsRoot values arena.now.blocks node }
    ensures { result ≡ first word_order (entries values arena.now.blocks node) x }
{
    let Some(near) = leaf_of(values, arena, node, x) else {
        return query::first_entry(values, arena, node, x);
    };
    if let Some(found) = judy_leaf::first_entry(values, arena, near.leaf, x) {
        return Some(found);
    }
    let Some(beside) = after(arena, near.branch, x) else {
        return query::first_entry(values, arena, node, x);
    };
    query::first_entry(values, arena, beside.1, x)
}

/// The entry of the greatest key that is at most `x`.
pub(crate) fn last_entry(values: bool, arena: &Arena, node: Ref, x: u64) -> Option<(u64, u64)>
    requires { IsRoot values arena.now.blocks node }
    ensures { result ≡ last word_order (entries values arena.now.blocks node) x }
{
    let Some(near) = leaf_of(values, arena, node, x) else {
        return query::last_entry(values, arena, node, x);
    };
    if let Some(found) = judy_leaf::last_entry(values, arena, near.leaf, x) {
        return Some(found);
    }
    let Some(beside) = before(arena, near.branch, x) else {
        return query::last_entry(values, arena, node, x);
    };
    query::last_entry(values, arena, beside.1, x)
}

/// Where the word is.
#[inline(always)]
pub(crate) fn finger_of(values: bool, arena: &Arena, node: Ref, x: u64) -> Finger
    requires { IsRoot values arena.now.blocks node }
    ensures { IsFinger values arena.now.blocks node x result }
{
    let mut at = node;
    let mut above = Ref::EMPTY;
    while leads_to_branch(at) {
        let branch = judy_branch::open(arena, at);
        let byte = (node::lead(branch.head().level, x) % 256) as u8;
        let Some(below) = branch.child(byte) else {
            return Finger {
                value: None,
                leaf: Ref::EMPTY,
                branch: at,
            };
        };
        above = at;
        at = below;
    }
    Finger {
        value: judy_leaf::get(values, arena, at, x),
        leaf: at,
        branch: above,
    }
}

/// The entry of the least key above a word, by its finger. None for the greatest word.
pub(crate) fn next_by(
    values: bool,
    arena: &Arena,
    node: Ref,
    x: u64,
    finger: Finger,
) -> Option<(u64, u64)>
    requires root { IsRoot values arena.now.blocks node }
    requires finger { IsFinger values arena.now.blocks node x finger }
    ensures { result ≡ next word_order (entries values arena.now.blocks node) x }
{
    if x == u64::MAX {
        return None;
    }
    if finger.value.is_none() {
        return first_entry(values, arena, node, x + 1);
    }
    if let Some(found) = judy_leaf::first_entry(values, arena, finger.leaf, x + 1) {
        return Some(found);
    }
    if finger.branch.word() == 0 {
        return None;
    }
    let Some(beside) = after(arena, finger.branch, x) else {
        return query::first_entry(values, arena, node, x + 1);
    };
    query::first_entry(values, arena, beside.1, x + 1)
}

/// The entry of the greatest key below a word, by its finger. None for 0.
pub(crate) fn prev_by(
    values: bool,
    arena: &Arena,
    node: Ref,
    x: u64,
    finger: Finger,
) -> Option<(u64, u64)>
    requires root { IsRoot values arena.now.blocks node }
    requires finger { IsFinger values arena.now.blocks node x finger }
    ensures { result ≡ prev word_order (entries values arena.now.blocks node) x }
{
    if x == 0 {
        return None;
    }
    if finger.value.is_none() {
        return last_entry(values, arena, node, x - 1);
    }
    if let Some(found) = judy_leaf::last_entry(values, arena, finger.leaf, x - 1) {
        return Some(found);
    }
    if finger.branch.word() == 0 {
        return None;
    }
    let Some(beside) = before(arena, finger.branch, x) else {
        return query::last_entry(values, arena, node, x - 1);
    };
    query::last_entry(values, arena, beside.1, x - 1)
}

//! Walks: each entry is looked for in the leaf of the one before it, then in the leaf beside. Few steps go
//! down from the root.
ghost use Rattle.std.specs.Prelude.{◌≡◌, IfSome, IsTrue};
ghost use Rattle.judy_model.specs.Contents.{word_order, has_key, next, prev};
ghost use Rattle.judy_model.specs.Walks.{found_by};
ghost use Rattle.judy_query.specs.Cursors.{IsCursor};
ghost use Rattle.judy_tree.specs.Root.{IsRoot, entries};

use crate::near::{after, before};
use crate::{node, query};
use judy_arena::Arena;
use judy_model::Search;
use judy_refs::Ref;
use judy_tree::leads_to_branch;

/// Where an entry is in an array: its leaf, and the branch above.
#[derive(Clone, Copy)]
pub struct Cursor {
    /// The leaf that has the entry.
    pub leaf: Ref,
    /// The branch above that leaf. The empty reference if the array is one leaf.
    pub branch: Ref,
}

impl Cursor {
    /// The cursor of no entry, with which a walk begins.
    pub fn new() -> Cursor
        ensures leaf { result.leaf ≡ 0 }
        ensures branch { result.branch ≡ 0 }
    {
        Cursor {
            leaf: Ref::EMPTY,
            branch: Ref::EMPTY,
        }
    }
}

// The cursor of a word that is present.
fn cursor_of(values: bool, arena: &Arena, node: Ref, x: u64) -> Cursor
    requires root { IsRoot values arena.now.blocks node }
    requires there { IsTrue (has_key word_order (entries values arena.now.blocks node) x) }
    ensures { IsCursor values arena.now.blocks node x result }
{
    let _ = values;
    let mut at = node;
    let mut above = Ref::EMPTY;
    while leads_to_branch(at) {
        let branch = judy_branch::open(arena, at);
        let byte = (node::lead(branch.head().level, x) % 256) as u8;
        let Some(below) = branch.child(byte) else {
            unreachable!();
        };
        above = at;
        at = below;
    }
    Cursor {
        leaf: at,
        branch: above,
    }
}

// The entry that a search finds, from the root on.
fn found_by(values: bool, arena: &Arena, node: Ref, search: Search, x: u64) -> Option<(u64, u64)>
    requires { IsRoot values arena.now.blocks node }
    ensures { result ≡ found_by word_order (entries values arena.now.blocks node) search x }
{
    match search {
        Search::First => query::first_entry(values, arena, node, x),
        Search::Next => query::next_entry(values, arena, node, x),
        Search::Last => query::last_entry(values, arena, node, x),
        Search::Prev => query::prev_entry(values, arena, node, x),
    }
}

/// The entry that a search finds, from the root on, and its cursor.
pub(crate) fn found_anew(
    values: bool,
    arena: &Arena,
    node: Ref,
    search: Search,
    x: u64,
    cursor: &mut Cursor,
) -> Option<(u64, u64)>
    requires { IsRoot values arena.now.blocks node }
    ensures found { result ≡ found_by word_order (entries values arena.now.blocks node) search x }
    ensures cursor { IfSome result (λ e. IsCursor values arena.now.blocks node e.0 cursor.new) }
{
    let found = found_by(values, arena, node, search, x)?;
    *cursor = cursor_of(values, arena, node, found.0);
    Some(found)
}

// The entry of the least key above a word, by the word's cursor, which becomes that of the entry.
fn step_up(
    values: bool,
    arena: &Arena,
    node: Ref,
    x: u64,
    cursor: &mut Cursor,
) -> Option<(u64, u64)>
    requires root { IsRoot values arena.now.blocks node }
    requires cursor { IsCursor values arena.now.blocks node x cursor.old }
    ensures found { result ≡ next word_order (entries values arena.now.blocks node) x }
    ensures cursor { IfSome result (λ e. IsCursor values arena.now.blocks node e.0 cursor.new) }
{
    if x == u64::MAX {
        return None;
    }
    if let Some(found) = judy_leaf::first_entry(values, arena, cursor.leaf, x + 1) {
        return Some(found);
    }
    if cursor.branch.word() == 0 {
        return None;
    }
    let Some(beside) = after(arena, cursor.branch, x) else {
        return found_anew(values, arena, node, Search::Next, x, cursor);
    };
    if leads_to_branch(beside.1) {
        return found_anew(values, arena, node, Search::Next, x, cursor);
    }
    cursor.leaf = beside.1;
    judy_leaf::first_entry(values, arena, beside.1, x + 1)
}

// The entry of the greatest key below a word, by the word's cursor, which becomes that of the entry.
fn step_down(
    values: bool,
    arena: &Arena,
    node: Ref,
    x: u64,
    cursor: &mut Cursor,
) -> Option<(u64, u64)>
    requires root { IsRoot values arena.now.blocks node }
    requires cursor { IsCursor values arena.now.blocks node x cursor.old }
    ensures found { result ≡ prev word_order (entries values arena.now.blocks node) x }
    ensures cursor { IfSome result (λ e. IsCursor values arena.now.blocks node e.0 cursor.new) }
{
    if x == 0 {
        return None;
    }
    if let Some(found) = judy_leaf::last_entry(values, arena, cursor.leaf, x - 1) {
        return Some(found);
    }
    if cursor.branch.word() == 0 {
        return None;
    }
    let Some(beside) = before(arena, cursor.branch, x) else {
        return found_anew(values, arena, node, Search::Prev, x, cursor);
    };
    if leads_to_branch(beside.1) {
        return found_anew(values, arena, node, Search::Prev, x, cursor);
    }
    cursor.leaf = beside.1;
    judy_leaf::last_entry(values, arena, beside.1, x - 1)
}

/// The entry that a search finds from a present word on, by the word's cursor, which becomes that of the entry.
pub(crate) fn step(
    values: bool,
    arena: &Arena,
    node: Ref,
    search: Search,
    x: u64,
    cursor: &mut Cursor,
) -> Option<(u64, u64)>
    requires root { IsRoot values arena.now.blocks node }
    requires cursor { IsCursor values arena.now.blocks node x cursor.old }
    ensures found { result ≡ found_by word_order (entries values arena.now.blocks node) search x }
    ensures cursor { IfSome result (λ e. IsCursor values arena.now.blocks node e.0 cursor.new) }
{
    match search {
        Search::Next => step_up(values, arena, node, x, cursor),
        Search::Prev => step_down(values, arena, node, x, cursor),
        Search::First | Search::Last => found_anew(values, arena, node, search, x, cursor),
    }
}

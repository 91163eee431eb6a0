//! Queries of an array of words: how many keys are in a range, the n-th key, the keys next to a
//! word, and the words that are absent.
//!
//! They serve sets and maps, use the keys only, and take no memory. Each goes down one path of the
//! tree, or two for a range.
#![tactic(auto)]

mod cursor;
mod near;
mod node;
mod query;

ghost use Rattle.std.specs.Prelude.{◌≡◌, IfSome};
ghost use Rattle.judy_model.specs.Contents.{word_order, value_of, count, nth, first, next, last, prev};
ghost use Rattle.judy_model.specs.Gaps.{first_empty, next_empty, last_empty, prev_empty};
ghost use Rattle.judy_model.specs.Walks.{found_by};
ghost use Rattle.judy_query.specs.Cursors.{IsCursor};
ghost use Rattle.judy_query.specs.Fingers.{IsFinger};
ghost use Rattle.judy_query.specs.Keys.{key_found};
ghost use Rattle.judy_tree.specs.Root.{IsRoot, entries};

pub use cursor::Cursor;
use judy_arena::Arena;
use judy_model::Search;
use judy_tree::Root;
pub use near::Finger;

/// How many keys are from `a` to `b`, both included: 0 if `a` is above `b`.
pub fn count<const V: bool>(arena: &Arena, root: &Root<V>, a: u64, b: u64) -> u64
    requires { IsRoot V arena.now.blocks root.now.reference }
    ensures { result ≡ count (entries V arena.now.blocks root.now.reference) a b }
{
    query::count(V, arena, root.reference(), a, b)
}

/// The `n`-th key, counted from 1. None for 0, and if there are fewer keys.
pub fn by_count<const V: bool>(arena: &Arena, root: &Root<V>, n: u64) -> Option<u64>
    requires { IsRoot V arena.now.blocks root.now.reference }
    ensures { result ≡ key_found (nth (entries V arena.now.blocks root.now.reference) n) }
{
    query::by_count(V, arena, root.reference(), n)
}

/// The entry of the least key that is at least `x`.
pub fn first_entry<const V: bool>(arena: &Arena, root: &Root<V>, x: u64) -> Option<(u64, u64)>
    requires { IsRoot V arena.now.blocks root.now.reference }
    ensures { result ≡ first word_order (entries V arena.now.blocks root.now.reference) x }
{
    near::first_entry(V, arena, root.reference(), x)
}

/// The entry of the least key above `x`. None for the greatest word.
pub fn next_entry<const V: bool>(arena: &Arena, root: &Root<V>, x: u64) -> Option<(u64, u64)>
    requires { IsRoot V arena.now.blocks root.now.reference }
    ensures { result ≡ next word_order (entries V arena.now.blocks root.now.reference) x }
{
    query::next_entry(V, arena, root.reference(), x)
}

/// The finger of a word: its value, and where it is.
#[inline(always)]
pub fn finger_of<const V: bool>(arena: &Arena, root: &Root<V>, x: u64) -> Finger
    requires { IsRoot V arena.now.blocks root.now.reference }
    ensures value { result.value
        ≡ value_of word_order (entries V arena.now.blocks root.now.reference) x }
    ensures finger { IsFinger V arena.now.blocks root.now.reference x result }
{
    near::finger_of(V, arena, root.reference(), x)
}

/// The entry of the least key above a word, by the word's finger. It is found without the way down
/// from the root, if the word is present. None for the greatest word.
pub fn next_by<const V: bool>(
    arena: &Arena,
    root: &Root<V>,
    x: u64,
    finger: Finger,
) -> Option<(u64, u64)>
    requires root { IsRoot V arena.now.blocks root.now.reference }
    requires finger { IsFinger V arena.now.blocks root.now.reference x finger }
    ensures { result ≡ next word_order (entries V arena.now.blocks root.now.reference) x }
{
    near::next_by(V, arena, root.reference(), x, finger)
}

/// The entry of the greatest key below a word, by the word's finger, as `next_by`. None for 0.
pub fn prev_by<const V: bool>(
    arena: &Arena,
    root: &Root<V>,
    x: u64,
    finger: Finger,
) -> Option<(u64, u64)>
    requires root { IsRoot V arena.now.blocks root.now.reference }
    requires finger { IsFinger V arena.now.blocks root.now.reference x finger }
    ensures { result ≡ prev word_order (entries V arena.now.blocks root.now.reference) x }
{
    near::prev_by(V, arena, root.reference(), x, finger)
}

/// The entry that a search finds, with its cursor. A walk begins with it.
pub fn begin_walk<const V: bool>(
    arena: &Arena,
    root: &Root<V>,
    search: Search,
    x: u64,
    cursor: &mut Cursor,
) -> Option<(u64, u64)>
    requires { IsRoot V arena.now.blocks root.now.reference }
    ensures found { result
        ≡ found_by word_order (entries V arena.now.blocks root.now.reference) search x }
    ensures cursor { IfSome result (λ e. IsCursor V arena.now.blocks root.now.reference e.0 cursor.new) }
{
    cursor::found_anew(V, arena, root.reference(), search, x, cursor)
}

/// The entry that a search finds from a present word on, by the word's cursor, which becomes that of the
/// entry. `Next` and `Prev` seldom go down from the root. None if the search finds nothing.
pub fn step<const V: bool>(
    arena: &Arena,
    root: &Root<V>,
    search: Search,
    x: u64,
    cursor: &mut Cursor,
) -> Option<(u64, u64)>
    requires root { IsRoot V arena.now.blocks root.now.reference }
    requires cursor { IsCursor V arena.now.blocks root.now.reference x cursor.old }
    ensures found { result
        ≡ found_by word_order (entries V arena.now.blocks root.now.reference) search x }
    ensures cursor { IfSome result (λ e. IsCursor V arena.now.blocks root.now.reference e.0 cursor.new) }
{
    cursor::step(V, arena, root.reference(), search, x, cursor)
}

/// The entry of the greatest key that is at most `x`.
pub fn last_entry<const V: bool>(arena: &Arena, root: &Root<V>, x: u64) -> Option<(u64, u64)>
    requires { IsRoot V arena.now.blocks root.now.reference }
    ensures { result ≡ last word_order (entries V arena.now.blocks root.now.reference) x }
{
    near::last_entry(V, arena, root.reference(), x)
}

/// The entry of the greatest key below `x`. None for 0.
pub fn prev_entry<const V: bool>(arena: &Arena, root: &Root<V>, x: u64) -> Option<(u64, u64)>
    requires { IsRoot V arena.now.blocks root.now.reference }
    ensures { result ≡ prev word_order (entries V arena.now.blocks root.now.reference) x }
{
    query::prev_entry(V, arena, root.reference(), x)
}

/// The least absent word that is at least `x`. None if all words from `x` on are keys.
pub fn first_empty<const V: bool>(arena: &Arena, root: &Root<V>, x: u64) -> Option<u64>
    requires { IsRoot V arena.now.blocks root.now.reference }
    ensures { result ≡ first_empty (entries V arena.now.blocks root.now.reference) x }
{
    query::first_empty(V, arena, root.reference(), x)
}

/// The least absent word above `x`. None for the greatest word.
pub fn next_empty<const V: bool>(arena: &Arena, root: &Root<V>, x: u64) -> Option<u64>
    requires { IsRoot V arena.now.blocks root.now.reference }
    ensures { result ≡ next_empty (entries V arena.now.blocks root.now.reference) x }
{
    query::next_empty(V, arena, root.reference(), x)
}

/// The greatest absent word that is at most `x`. None if all words up to `x` are keys.
pub fn last_empty<const V: bool>(arena: &Arena, root: &Root<V>, x: u64) -> Option<u64>
    requires { IsRoot V arena.now.blocks root.now.reference }
    ensures { result ≡ last_empty (entries V arena.now.blocks root.now.reference) x }
{
    query::last_empty(V, arena, root.reference(), x)
}

/// The greatest absent word below `x`. None for 0.
pub fn prev_empty<const V: bool>(arena: &Arena, root: &Root<V>, x: u64) -> Option<u64>
    requires { IsRoot V arena.now.blocks root.now.reference }
    ensures { result ≡ prev_empty (entries V arena.now.blocks root.now.reference) x }
{
    query::prev_empty(V, arena, root.reference(), x)
}

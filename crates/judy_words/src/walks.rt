//! Walks over a set and over a map: what a search finds, and each time what follows, as the text of a
//! reply.
ghost use Rattle.std.specs.Prelude.{◌≡◌, [], map};
ghost use Rattle.judy_model.specs.Contents.{word_order};
ghost use Rattle.judy_model.specs.Walks.{absent_by, entry_words, index_words, listed, walk, walk_from, walk_indexes};
ghost use Rattle.judy_model.specs.declared.calls.LongCall.TheVariants as long;
ghost use Rattle.judy_model.specs.declared.calls.OneCall.TheVariants as one;
ghost use Rattle.judy_tree.specs.Root.{IsRoot, entries};
ghost use Rattle.judy_words.specs.LongArrays.{IsLongArray, LongLooks, long_in};
ghost use Rattle.judy_words.specs.OneArrays.{IsOneArray, OneLooks, one_in};

use crate::long::JudyL;
use crate::one::{Judy1, key_of};
use judy_arena::Arena;
use judy_model::{Listing, Reply, Search};
use judy_query::Cursor;
use judy_refs::Ref;
use judy_tree::Root;

/// The absent word that a search finds.
fn absent_by<const V: bool>(arena: &Arena, root: &Root<V>, search: Search, x: u64) -> Option<u64>
    requires { IsRoot V arena.now.blocks root.now.reference }
    ensures { result ≡ absent_by (entries V arena.now.blocks root.now.reference) search x }
{
    match search {
        Search::First => judy_query::first_empty(arena, root, x),
        Search::Next => judy_query::next_empty(arena, root, x),
        Search::Last => judy_query::last_empty(arena, root, x),
        Search::Prev => judy_query::prev_empty(arena, root, x),
    }
}

/// The absent word that a search finds in an array with values or without.
fn absent_in(values: bool, arena: &Arena, root: Ref, search: Search, x: u64) -> Option<u64>
    requires { IsRoot values arena.now.blocks root }
    ensures { result ≡ absent_by (entries values arena.now.blocks root) search x }
{
    if values {
        absent_by(arena, &Root::<true>::from_reference(root), search, x)
    } else {
        absent_by(arena, &Root::<false>::from_reference(root), search, x)
    }
}

/// Adds absent words to an empty list: this one, and each time the one that the search finds behind it, at
/// most `most` and as many as fit. Returns how many.
fn list_absent(
    values: bool,
    arena: &Arena,
    root: Ref,
    search: Search,
    start: Option<u64>,
    most: u16,
    listing: &mut Listing,
) -> u16
    requires root { IsRoot values arena.now.blocks root }
    requires empty { listing.old ≡ [] }
    ensures { listed (map index_words (walk_from
        (λ y. absent_by (entries values arena.now.blocks root) search y) most start))
        ≡ (result, listing.new) }
{
    let mut found = start;
    for count in 0..most {
        let Some(word) = found else {
            return count;
        };
        if !listing.add_index(word) {
            return count;
        }
        found = absent_in(values, arena, root, search, word);
    }
    most
}

impl Judy1 {
    /// Adds indexes to an empty list: what the search finds, and each time what follows, at most `most` and as many as
    /// fit. Returns how many.
    fn list(&self, arena: &Arena, search: Search, x: u64, most: u16, listing: &mut Listing) -> u16
        requires array { IsOneArray arena.now.blocks self.now }
        requires empty { listing.old ≡ [] }
        ensures { listed (map index_words
            (walk_indexes (one_in arena.now.blocks self.now) search x most)) ≡ (result, listing.new) }
    {
        let root = Root::<false>::from_reference(self.reference());
        let on = search.on();
        let mut cursor = Cursor::new();
        let mut found = key_of(judy_query::begin_walk(arena, &root, search, x, &mut cursor));
        for count in 0..most {
            let Some(index) = found else {
                return count;
            };
            if !listing.add_index(index) {
                return count;
            }
            found = key_of(judy_query::step(arena, &root, on, index, &mut cursor));
        }
        most
    }

    /// The indexes of a walk, as many as fit into a reply, at most `most`.
    pub fn walk<'a>(
        &self,
        arena: &Arena,
        search: Search,
        x: u64,
        most: u16,
        listing: &'a mut Listing,
    ) -> Reply<'a>
        requires { IsOneArray arena.now.blocks self.now }
        ensures { OneLooks arena.now self.now (one.Walk search x most) result }
    {
        listing.clear();
        let count = self.list(arena, search, x, most, listing);
        Reply::Entries(count, listing.text())
    }

    /// The absent indexes of a walk, as many as fit into a reply, at most `most`.
    pub fn walk_empty<'a>(
        &self,
        arena: &Arena,
        search: Search,
        x: u64,
        most: u16,
        listing: &'a mut Listing,
    ) -> Reply<'a>
        requires { IsOneArray arena.now.blocks self.now }
        ensures { OneLooks arena.now self.now (one.WalkEmpty search x most) result }
    {
        listing.clear();
        let root = self.reference();
        let start = absent_in(false, arena, root, search, x);
        let count = list_absent(false, arena, root, search.on(), start, most, listing);
        Reply::Entries(count, listing.text())
    }
}

impl JudyL {
    /// Adds entries to an empty list: what the search finds, and each time what follows, at most `most` and as many as
    /// fit. Returns how many.
    fn list(&self, arena: &Arena, search: Search, x: u64, most: u16, listing: &mut Listing) -> u16
        requires array { IsLongArray arena.now.blocks self.now }
        requires empty { listing.old ≡ [] }
        ensures { listed (map entry_words
            (walk word_order (long_in arena.now.blocks self.now) search x most)) ≡ (result, listing.new) }
    {
        let root = Root::<true>::from_reference(self.reference());
        let on = search.on();
        let mut cursor = Cursor::new();
        let mut found = judy_query::begin_walk(arena, &root, search, x, &mut cursor);
        for count in 0..most {
            let Some((index, value)) = found else {
                return count;
            };
            if !listing.add_entry(index, value) {
                return count;
            }
            found = judy_query::step(arena, &root, on, index, &mut cursor);
        }
        most
    }

    /// The entries of a walk, as many as fit into a reply, at most `most`.
    pub fn walk<'a>(
        &self,
        arena: &Arena,
        search: Search,
        x: u64,
        most: u16,
        listing: &'a mut Listing,
    ) -> Reply<'a>
        requires { IsLongArray arena.now.blocks self.now }
        ensures { LongLooks arena.now self.now (long.Walk search x most) result }
    {
        listing.clear();
        let count = self.list(arena, search, x, most, listing);
        Reply::Entries(count, listing.text())
    }

    /// The absent indexes of a walk, as many as fit into a reply, at most `most`.
    pub fn walk_empty<'a>(
        &self,
        arena: &Arena,
        search: Search,
        x: u64,
        most: u16,
        listing: &'a mut Listing,
    ) -> Reply<'a>
        requires { IsLongArray arena.now.blocks self.now }
        ensures { LongLooks arena.now self.now (long.WalkEmpty search x most) result }
    {
        listing.clear();
        let root = self.reference();
        let start = absent_in(true, arena, root, search, x);
        let count = list_absent(true, arena, root, search.on(), start, most, listing);
        Reply::Entries(count, listing.text())
    }
}

//! Walks: what a search finds, and each time what follows, as the text of a reply.
ghost use Rattle.std.specs.Prelude.{◌≡◌, [], map};
ghost use Rattle.std.specs.Option.{option_copied};
ghost use Rattle.judy_model.specs.Contents.{string_order, word_order};
ghost use Rattle.judy_model.specs.Tenant.Answer.{Listed};
ghost use Rattle.judy_model.specs.Tenant.{reply_of};
ghost use Rattle.judy_model.specs.Walks.{absent_by, entry_words, found_by, index_by, index_words, key_words, listed};
ghost use Rattle.judy_model.specs.Walks.{walk, walk_empty, walk_from, walk_indexes};

use crate::slow::{
    first_entry, first_gap, first_string, last_entry, last_gap, last_string, next_entry, next_gap,
    next_string, prev_entry, prev_gap, prev_string,
};
use judy_model::{Key, Listing, OwnedKey, Reply, Search};

/// The entry that a search finds.
fn entry_by(entries: &[(u64, u64)], search: Search, x: u64) -> Option<(u64, u64)>
    ensures { result ≡ found_by word_order entries.now search x }
{
    match search {
        Search::First => first_entry(entries, x),
        Search::Next => next_entry(entries, x),
        Search::Last => last_entry(entries, x),
        Search::Prev => prev_entry(entries, x),
    }
}

/// The index that a search finds.
fn index_found(entries: &[(u64, u64)], search: Search, x: u64) -> Option<u64>
    ensures { result ≡ index_by entries.now search x }
{
    match entry_by(entries, search, x) {
        Some((index, _)) => Some(index),
        None => None,
    }
}

/// The absent word that a search finds.
fn gap_by(entries: &[(u64, u64)], search: Search, x: u64) -> Option<u64>
    ensures { result ≡ absent_by entries.now search x }
{
    match search {
        Search::First => first_gap(entries, x),
        Search::Next => next_gap(entries, x),
        Search::Last => last_gap(entries, x),
        Search::Prev => prev_gap(entries, x),
    }
}

/// The string that a search finds, with its value.
fn string_by<'a>(
    entries: &'a [(OwnedKey, u64)],
    search: Search,
    x: &Key<'_>,
) -> Option<&'a (OwnedKey, u64)>
    ensures { option_copied result ≡ found_by string_order entries.now search x.now }
{
    match search {
        Search::First => first_string(entries, x),
        Search::Next => next_string(entries, x),
        Search::Last => last_string(entries, x),
        Search::Prev => prev_string(entries, x),
    }
}

/// Adds indexes to an empty list: this one, and each time the one behind it, at most `most` and as many as fit.
fn list_indexes(
    entries: &[(u64, u64)],
    search: Search,
    start: Option<u64>,
    most: u16,
    listing: &mut Listing,
) -> u16
    requires { listing.old ≡ [] }
    ensures { listed (map index_words (walk_from (λ y. index_by entries.now search y) most start))
        ≡ (result, listing.new) }
{
    let mut found = start;
    for count in 0..most {
        let Some(index) = found else {
            return count;
        };
        if !listing.add_index(index) {
            return count;
        }
        found = index_found(entries, search, index);
    }
    most
}

/// The same of absent words.
fn list_gaps(
    entries: &[(u64, u64)],
    search: Search,
    start: Option<u64>,
    most: u16,
    listing: &mut Listing,
) -> u16
    requires { listing.old ≡ [] }
    ensures { listed (map index_words (walk_from (λ y. absent_by entries.now search y) most start))
        ≡ (result, listing.new) }
{
    let mut found = start;
    for count in 0..most {
        let Some(word) = found else {
            return count;
        };
        if !listing.add_index(word) {
            return count;
        }
        found = gap_by(entries, search, word);
    }
    most
}

/// The same of entries.
fn list_entries(
    entries: &[(u64, u64)],
    search: Search,
    start: Option<(u64, u64)>,
    most: u16,
    listing: &mut Listing,
) -> u16
    requires { listing.old ≡ [] }
    ensures { listed (map entry_words
        (walk_from (λ e. found_by word_order entries.now search e.0) most start))
        ≡ (result, listing.new) }
{
    let mut found = start;
    for count in 0..most {
        let Some((index, value)) = found else {
            return count;
        };
        if !listing.add_entry(index, value) {
            return count;
        }
        found = entry_by(entries, search, index);
    }
    most
}

/// The same of strings.
fn list_strings(
    entries: &[(OwnedKey, u64)],
    search: Search,
    start: Option<&(OwnedKey, u64)>,
    most: u16,
    listing: &mut Listing,
) -> u16
    requires { listing.old ≡ [] }
    ensures { listed (map key_words
        (walk_from (λ e. found_by string_order entries.now search e.0) most (option_copied start.entry)))
        ≡ (result, listing.new) }
{
    let mut found = start;
    for count in 0..most {
        let Some(entry) = found else {
            return count;
        };
        let key = entry.0.key();
        if !listing.add_key(key.as_bytes(), entry.1) {
            return count;
        }
        found = string_by(entries, search, &key);
    }
    most
}

/// The reply to a walk over a set.
pub(super) fn indexes<'a>(
    entries: &[(u64, u64)],
    search: Search,
    x: u64,
    most: u16,
    listing: &'a mut Listing,
) -> Reply<'a>
    ensures { result ≡ reply_of (Listed (map index_words (walk_indexes entries.now search x most))) }
{
    listing.clear();
    let start = index_found(entries, search, x);
    let count = list_indexes(entries, search.on(), start, most, listing);
    Reply::Entries(count, listing.text())
}

/// The reply to a walk over absent words.
pub(super) fn gaps<'a>(
    entries: &[(u64, u64)],
    search: Search,
    x: u64,
    most: u16,
    listing: &'a mut Listing,
) -> Reply<'a>
    ensures { result ≡ reply_of (Listed (map index_words (walk_empty entries.now search x most))) }
{
    listing.clear();
    let start = gap_by(entries, search, x);
    let count = list_gaps(entries, search.on(), start, most, listing);
    Reply::Entries(count, listing.text())
}

/// The reply to a walk over a JudyL.
pub(super) fn entries<'a>(
    entries: &[(u64, u64)],
    search: Search,
    x: u64,
    most: u16,
    listing: &'a mut Listing,
) -> Reply<'a>
    ensures { result ≡ reply_of
        (Listed (map entry_words (walk word_order entries.now search x most))) }
{
    listing.clear();
    let start = entry_by(entries, search, x);
    let count = list_entries(entries, search.on(), start, most, listing);
    Reply::Entries(count, listing.text())
}

/// The reply to a walk over a JudySL.
pub(super) fn strings<'a>(
    entries: &[(OwnedKey, u64)],
    search: Search,
    x: &Key<'_>,
    most: u16,
    listing: &'a mut Listing,
) -> Reply<'a>
    ensures { result ≡ reply_of
        (Listed (map key_words (walk string_order entries.now search x.now most))) }
{
    listing.clear();
    let start = string_by(entries, search, x);
    let count = list_strings(entries, search.on(), start, most, listing);
    Reply::Entries(count, listing.text())
}

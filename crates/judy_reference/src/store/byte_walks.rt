//! Walks over byte keys: in the order of the keys' words, then of the keys, as the text of a reply.
ghost use Rattle.std.specs.Prelude.{◌≡◌, ◌≤◌, [], drop, length, map, unwrap_or};
ghost use Rattle.std.specs.Option.{option_copied};
ghost use Rattle.judy_model.specs.Contents.{next, string_order};
ghost use Rattle.judy_model.specs.Tenant.Answer.{Listed};
ghost use Rattle.judy_model.specs.Tenant.{reply_of};
ghost use Rattle.judy_model.specs.Walks.{by_hash, hashed_key, key_word, key_words, listed, walk_bytes};
ghost use Rattle.judy_reference.specs.Store.{comes_behind, comes_first};

use judy_model::{KEY_LIMIT, Key, Listing, OwnedKey, Reply};
use sha2::{Digest, Sha256};
use std::cmp::Ordering;
use std::marker::Model;

/// The word of a key: the first 8 bytes of its SHA-256 as a number, the first byte highest.
fn word_of(key: &[u8]) -> u64
    ensures { result ≡ key_word key.now }
{
    let digest = Sha256::digest(key);
    u64::from_be_bytes([
        digest[0], digest[1], digest[2], digest[3], digest[4], digest[5], digest[6], digest[7],
    ])
}

/// A place in a walk: a key and its word. Contracts see it as the word before the bytes of the key.
#[derive(Drop)]
struct Place<'a> {
    word: u64,
    key: Key<'a>,
}

impl<'a> Model for Place<'a> {
    ghost use Rattle.std.specs.Prelude.{ℕ, List, ◌∷◌};

    ghost Value = { List ℕ };

    ghost view = { λ p. p.word ∷ p.key };
}

impl<'a> Place<'a> {
    /// The place of a key.
    fn of(key: Key<'a>) -> Place<'a>
        ensures { result ≡ hashed_key key.entry }
    {
        let word = word_of(key.as_bytes());
        Place { word, key }
    }

    /// The bytes of the key.
    fn bytes(&self) -> &'a [u8]
        ensures value { result.now ≡ drop 1 self.now }
        ensures fits { length result.now ≤ KEY_LIMIT }
    {
        self.key.as_bytes()
    }

    /// The order of two places: that of the words, then that of the keys.
    fn order(&self, other: &Place<'_>) -> Ordering
        ensures { result ≡ string_order self.now other.now }
    {
        self.word.cmp(&other.word).then(self.key.cmp(&other.key))
    }

    /// Whether the place is behind another one. Each place is behind the beginning.
    fn is_behind(&self, from: Option<&Place<'_>>) -> bool
        ensures { result ≡ comes_behind self.now (option_copied from.entry) }
    {
        match from {
            Some(from) => self.order(from).is_gt(),
            None => true,
        }
    }

    /// Whether the place comes before that of the entry found so far. Where none was found it does.
    fn is_before(&self, best: &Option<(Place<'_>, u64)>) -> bool
        ensures { result ≡ comes_first self.now best.now }
    {
        match best {
            Some(best) => self.order(&best.0).is_lt(),
            None => true,
        }
    }
}

/// The entry that is next behind a place, or the first one of all. It looks at each entry.
fn next_place<'a>(
    entries: &'a [(OwnedKey, u64)],
    from: Option<&Place<'_>>,
) -> Option<(Place<'a>, u64)>
    ensures { result ≡ next string_order (by_hash entries.now) (unwrap_or (option_copied from.entry) []) }
{
    let mut best = None;
    for e in entries {
        let place = Place::of(e.0.key());
        if place.is_behind(from) && place.is_before(&best) {
            best = Some((place, e.1));
        }
    }
    best
}

/// Adds the entries behind a place, or from the beginning, to an empty list: at most `most`, and as many as fit.
fn list_behind(
    entries: &[(OwnedKey, u64)],
    from: Option<&Place<'_>>,
    most: u16,
    listing: &mut Listing,
) -> u16
    requires { listing.old ≡ [] }
    ensures { listed (map key_words (walk_bytes entries.now (unwrap_or (option_copied from.entry) []) most))
        ≡ (result, listing.new) }
{
    let mut found = next_place(entries, from);
    for count in 0..most {
        let Some(entry) = found else {
            return count;
        };
        if !listing.add_key(entry.0.bytes(), entry.1) {
            return count;
        }
        found = next_place(entries, Some(&entry.0));
    }
    most
}

/// The reply to a walk over a JudyHS from its beginning.
pub(super) fn first_keys<'a>(
    entries: &[(OwnedKey, u64)],
    most: u16,
    listing: &'a mut Listing,
) -> Reply<'a>
    ensures { result ≡ reply_of (Listed (map key_words (walk_bytes entries.now [] most))) }
{
    listing.clear();
    let count = list_behind(entries, None, most, listing);
    Reply::Entries(count, listing.text())
}

/// The reply to a walk over a JudyHS behind a key, which may be absent.
pub(super) fn next_keys<'a>(
    entries: &[(OwnedKey, u64)],
    key: &Key<'_>,
    most: u16,
    listing: &'a mut Listing,
) -> Reply<'a>
    ensures { result
        ≡ reply_of (Listed (map key_words (walk_bytes entries.now (hashed_key key.now) most))) }
{
    listing.clear();
    let from = Place::of(key.copied());
    let count = list_behind(entries, Some(&from), most, listing);
    Reply::Entries(count, listing.text())
}

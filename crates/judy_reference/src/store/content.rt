//! The content of one array: entries in the order of their keys.
ghost use Rattle.std.specs.Prelude.{◌≡◌, ◌<◌, ◌^◌, ◌↔◌, [], length, IsTrue, OnOk, OnErr, not, filter};
ghost use Rattle.std.specs.Ordering.{eq_by_cmp};
ghost use Rattle.std.specs.FinMap.{find, put, is_sorted};
ghost use Rattle.judy_model.specs.Pieces.{pieces_of, string_pieces};
ghost use Rattle.judy_reference.specs.Store.{sorted_place};

use judy_model::OwnedKey;
use std::alloc::{AllocError, Global};
use std::cmp::Ordering;
use std::marker::Model;

/// Finds the place of a key among sorted entries: `Ok` with its place, `Err` with the place where
/// it would go.
pub(super) fn search<K: Ord, V>(entries: &[(K, V)], key: &K) -> Result<usize, usize>
    ensures { result ≡ sorted_place K.cmp key.now entries.now }
{
    for (place, entry) in entries.iter().enumerate() {
        match key.cmp(&entry.0) {
            Ordering::Less => return Err(place),
            Ordering::Equal => return Ok(place),
            Ordering::Greater => {}
        }
    }
    Err(entries.len())
}

/// The entries of one array: keys with their values.
#[derive(Drop)]
pub struct Content<K> {
    entries: Vec<(K, u64)>,
}

impl<K> Model for Content<K> {
    ghost use Rattle.std.specs.Prelude.{ℕ, List};

    ghost Value = { List (K × ℕ) };

    ghost view = { λ c. c.entries.items };
}

impl<K: Ord> Content<K> {
    /// No entries.
    pub fn new(alloc: Global) -> Content<K>
        ensures { result ≡ [] }
    {
        Content {
            entries: Vec::new(alloc),
        }
    }

    /// The entries, in order.
    pub fn entries(&self) -> &[(K, u64)]
        ensures { result.now ≡ self.now }
    {
        self.entries.as_slice()
    }

    /// The number of entries.
    pub fn len(&self) -> usize
        ensures { result ≡ length self.now }
    {
        self.entries.len()
    }

    /// Whether there are no entries.
    pub fn is_empty(&self) -> bool
        ensures { IsTrue result ↔ (self.now ≡ []) }
    {
        self.entries.is_empty()
    }

    /// The value of a key.
    pub fn get(&self, key: &K) -> Option<u64>
        ensures { result ≡ find K.cmp key.now self.now }
    {
        for entry in &self.entries {
            if key.cmp(&entry.0).is_eq() {
                return Some(entry.1);
            }
        }
        None
    }

    /// Writes this value at the key. `Err` means out of memory for a new key; nothing changed.
    pub fn put(&mut self, key: K, value: u64) -> Result<(), AllocError>
    where
        K: Drop,
        ensures ok { OnOk result (self.new ≡ put K.cmp key value self.old) }
        ensures unchanged { OnErr result (self.new ≡ self.old) }
        ensures absent { OnErr result (IsTrue (is_sorted K.cmp self.old)
            → find K.cmp key self.old ≡ None) }
    {
        match search(&self.entries, &key) {
            Ok(place) => self.entries[place].1 = value,
            Err(place) => self.entries.insert(place, (key, value))?,
        }
        Ok(())
    }

    /// Removes the key and its value, if it is present.
    pub fn remove(&mut self, key: &K)
    where
        K: Drop,
        ensures { self.new ≡ filter (λ e. not (eq_by_cmp K.cmp key.now e.0)) self.old }
    {
        self.entries.retain(|entry| key.cmp(&entry.0).is_ne());
    }
}

impl Content<OwnedKey> {
    /// The number of pieces of the entries.
    pub fn pieces(&self) -> u64
        requires { pieces_of string_pieces self.now < 2 ^ 64 }
        ensures { result ≡ pieces_of string_pieces self.now }
    {
        self.entries
            .iter()
            .map(|entry| entry.0.key().pieces())
            .sum()
    }
}

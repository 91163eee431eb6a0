//! The arrays of one kind, in the order of their names.
ghost use Rattle.std.specs.Prelude.{◌≡◌, ◌<◌, ◌^◌, [], OnOk, OnErr, not, filter, option_map};
ghost use Rattle.std.specs.Ordering.{eq_by_cmp, is_gt};
ghost use Rattle.judy_model.specs.ArrayLists.{array_key, count_of, counted, key_of_start};
ghost use Rattle.judy_model.specs.Contents.{next, string_order, value_of, with_entry, without_key};
ghost use Rattle.judy_model.specs.Pieces.{string_pieces};
ghost use Rattle.judy_model.specs.Tenant.{content_of, with_content, entries_in, pieces_in};
ghost use Rattle.judy_reference.specs.Store.{AreKept};

use super::content::{Content, search};
use judy_model::{ArrayCount, ArraysFrom, Kind, Name, OwnedKey};
use std::alloc::{AllocError, Global};
use std::marker::Model;

/// Whether an array comes behind a place in the order of all arrays.
fn is_behind(kind: Kind, name: &Name, from: &ArraysFrom) -> bool
    ensures { result ≡ is_gt (string_order (array_key kind name.now) (key_of_start from.now)) }
{
    match from {
        ArraysFrom::First => true,
        ArraysFrom::Behind(other, bound) if kind == *other => *name > *bound,
        ArraysFrom::Behind(other, _) => kind.number() > other.number(),
    }
}

/// Arrays by name. An array without entries is left out.
#[derive(Drop)]
pub struct Directory<K: Ord> {
    arrays: Vec<(Name, Content<K>)>,
}

impl<K: Ord> Model for Directory<K> {
    ghost use Rattle.std.specs.Prelude.{ℕ, List};
    ghost use Rattle.judy_reference.specs.Store.{AreKept};

    ghost Value = { List (List ℕ × List (K × ℕ)) };

    ghost view = { λ d. d.arrays.items };

    ghost invariant = { λ d. AreKept K.cmp d.arrays.items };
}

impl<K: Ord> Directory<K> {
    /// No arrays.
    pub fn new(alloc: Global) -> Directory<K>
        ensures { result ≡ [] }
    {
        Directory {
            arrays: Vec::new(alloc),
        }
    }

    /// The entries of the array of this name, in order. Writing them back would change nothing.
    pub fn content(&self, name: &Name) -> &[(K, u64)]
        ensures value { result.now ≡ content_of self.now name.now }
        ensures same { with_content self.now name.now (content_of self.now name.now) ≡ self.now }
    {
        match search(&self.arrays, name) {
            Ok(place) => self.arrays[place].1.entries(),
            Err(_) => &[],
        }
    }

    /// The first array behind a place in the order of all arrays, of which the directory has those of this kind.
    pub fn next(&self, kind: Kind, from: &ArraysFrom) -> Option<ArrayCount>
        ensures { option_map count_of result
            ≡ next string_order (counted kind self.now) (key_of_start from.now) }
    {
        for array in self.arrays.iter() {
            if is_behind(kind, &array.0, from) {
                return Some(ArrayCount {
                    kind,
                    name: array.0.copied(),
                    entries: array.1.len() as u64,
                });
            }
        }
        None
    }

    /// The value of a key of the array of this name.
    pub fn get(&self, name: &Name, key: &K) -> Option<u64>
        ensures value { result ≡ value_of K.cmp (content_of self.now name.now) key.now }
        ensures same { with_content self.now name.now (content_of self.now name.now) ≡ self.now }
    {
        match search(&self.arrays, name) {
            Ok(place) => self.arrays[place].1.get(key),
            Err(_) => None,
        }
    }

    /// Writes this value at a key of the array. `Err` means out of memory for a new key; nothing
    /// changed.
    pub fn put(&mut self, alloc: Global, name: &Name, key: K, value: u64) -> Result<(), AllocError>
    where
        K: Drop,
        ensures ok { OnOk result
            (self.new ≡ with_content self.old name.now
            (with_entry K.cmp (content_of self.old name.now) key value)) }
        ensures unchanged { OnErr result (self.new ≡ self.old) }
        ensures absent { OnErr result (value_of K.cmp (content_of self.old name.now) key ≡ None) }
    {
        match search(&self.arrays, name) {
            Ok(place) => {
                let array = &mut self.arrays[place];
                array.1.put(key, value)?;
            }
            Err(place) => {
                let mut content = Content::new(alloc);
                content.put(key, value)?;
                self.arrays.insert(place, (name.copied(), content))?;
            }
        }
        Ok(())
    }

    /// Removes a key of the array, if it is present.
    pub fn remove(&mut self, name: &Name, key: &K)
    where
        K: Drop,
        ensures { self.new ≡ with_content self.old name.now
            (without_key K.cmp (content_of self.old name.now) key.now) }
    {
        let Ok(place) = search(&self.arrays, name) else {
            return;
        };
        let array = &mut self.arrays[place];
        array.1.remove(key);
        if array.1.is_empty() {
            forget(&mut self.arrays, name);
        }
    }

    /// Removes the array with all its entries.
    pub fn free(&mut self, name: &Name)
    where
        K: Drop,
        ensures { self.new ≡ with_content self.old name.now [] }
    {
        forget(&mut self.arrays, name);
    }

    /// The number of entries of the arrays.
    pub fn len(&self) -> u64
        requires { entries_in self.now < 2 ^ 64 }
        ensures value { result ≡ entries_in self.now }
        ensures kept { AreKept K.cmp self.now }
    {
        self.arrays.iter().map(|array| array.1.len() as u64).sum()
    }
}

impl Directory<OwnedKey> {
    /// The number of pieces of the arrays.
    pub fn pieces(&self) -> u64
        requires { pieces_in string_pieces self.now < 2 ^ 64 }
        ensures { result ≡ pieces_in string_pieces self.now }
    {
        let mut pieces = 0;
        for array in &self.arrays {
            pieces += array.1.pieces();
        }
        pieces
    }
}

/// Removes the array of a name.
fn forget<V: Drop>(arrays: &mut Vec<(Name, V)>, name: &Name)
    ensures { arrays.new.items
        ≡ filter (λ a. not (eq_by_cmp string_order name.now a.0)) arrays.old.items }
{
    arrays.retain(|array| name.cmp(&array.0).is_ne());
}

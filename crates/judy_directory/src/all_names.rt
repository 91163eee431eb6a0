//! The names of all arrays, one after another.
ghost use Rattle.std.specs.Prelude.{◌≡◌, ◌∷◌, ◌++◌, ◌%◌, ◌^◌, [], IfSome, IfNone, map};
ghost use Rattle.judy_directory.specs.Lengths.{lengths};

use crate::keyed::Keyed;
use crate::spot::{Place, Spot};
use std::collections::HashMap;
use std::collections::hash_map::Keys;
use std::marker::Model;
use std::slice::Iter;

/// The names that are still to come: those of the table, then those of the list beside it. Contracts
/// see a list of their keys.
#[derive(Drop)]
pub struct AllNames<'a> {
    table: Keys<'a, Spot, Place>,
    kept: Iter<'a, (Spot, Place)>,
}

impl<'a> Model for AllNames<'a> {
    ghost use Rattle.std.specs.Prelude.{ℕ, List, ◌++◌, map};
    ghost use Rattle.std.specs.Slice.Iter.{iter_rest};

    ghost Value = { List (List ℕ) };

    ghost view = { λ l. l.table ++ map (λ e. e.0) (iter_rest l.kept) };
}

impl<'a> AllNames<'a> {
    /// All names of a table and of the list beside it.
    pub(crate) fn of(
        table: &'a HashMap<Spot, Place, Keyed>,
        kept: &'a [(Spot, Place)],
    ) -> AllNames<'a>
        ensures { result ≡ map (λ e. e.0) (table.now.entries ++ kept.now) }
    {
        AllNames {
            table: table.keys(),
            kept: kept.iter(),
        }
    }

    /// The first of them, which is taken out. None: there are no more.
    pub fn next(&mut self) -> Option<Spot>
        ensures some { IfSome result (λ key. self.old ≡ key ∷ self.new) }
        ensures none { IfNone result (self.old ≡ []) }
    {
        if let Some(spot) = self.table.next() {
            return Some(spot.copied());
        }
        match self.kept.next() {
            Some(entry) => Some(entry.0.copied()),
            None => None,
        }
    }

    /// The bytes of the names that are still to come, added up, modulo 2^64.
    pub(crate) fn bytes(mut self) -> u64
        ensures { result ≡ lengths self.entry % 2 ^ 64 }
    {
        let mut bytes = 0u64;
        while let Some(spot) = self.next() {
            bytes = bytes.wrapping_add(spot.bytes());
        }
        bytes
    }
}

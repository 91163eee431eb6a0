//! The names that have a place: a hash table with the order of its names, and a short list beside it.
ghost use Rattle.std.specs.Prelude.{◌≡◌, ◌≤◌, ℕ, List, IfOk, OnOk, OnErr, IsTrue, None, [], max};
ghost use Rattle.std.specs.FinMap as map;
ghost use Rattle.std.specs.HashMap.{hasher_of, spare};
ghost use Rattle.judy_directory.specs.Kinds.{is_staying};
ghost use Rattle.judy_directory.specs.Lengths.{length_if, name_bytes};
ghost use Rattle.judy_directory.specs.Order.{place_on};
ghost use Rattle.judy_directory.specs.Places.{at, nothing};
ghost use Rattle.judy_directory.specs.Rooms.{is_listed, AreOnce};
ghost use Rattle.judy_directory.specs.Secrets.{start_of};

use crate::all_names::AllNames;
use crate::kept::{drop_gone, drop_kept, find_kept, next_kept, push_kept, reserve_kept};
use crate::keyed::Keyed;
use crate::ordered::{drop_entered, enter, lesser, next_entered};
use crate::spot::{Place, Spot};
use judy_arena::NoMemory;
use std::alloc::Global;
use std::collections::{BTreeSet, HashMap};
use std::marker::Model;

/// How many places need no memory later, if no more are reserved.
const FREE_PLACES: usize = 256;

/// How many places the table of names has room for at first, at least and at most. std chooses one of
/// its own sizes.
const TABLE_PLACES: usize = 2 * FREE_PLACES;

const MOST_PLACES: usize = 4 * FREE_PLACES;

/// An empty table of names, whose hashes begin with the secret. It has room for `TABLE_PLACES` to
/// `MOST_PLACES` names.
///
/// Err: out of memory, or the table took far more than it was asked to.
fn empty_table(alloc: Global, secret: &[u8]) -> Result<HashMap<Spot, Place, Keyed>, NoMemory>
    ensures empty { IfOk result (λ t. t.entries ≡ []) }
    ensures room { IfOk result (λ t. 512 ≤ spare t) }
    ensures limit { IfOk result (λ t. spare t ≤ 1024) }
    ensures secret { IfOk result (λ t. (hasher_of t).start.state ≡ start_of secret.now) }
{
    let table = HashMap::with_capacity_and_hasher(alloc, TABLE_PLACES, Keyed::new(secret)).map_err(
        |_| NoMemory,
    )?;
    if table.capacity() > MOST_PLACES {
        return Err(NoMemory);
    }
    Ok(table)
}

/// The bytes of a name that loses its place, and 0 if it had none.
fn bytes_lost(spot: &Spot, place: Option<Place>) -> u64
    ensures { result ≡ length_if place spot.now }
{
    match place {
        Some(_) => spot.bytes(),
        None => 0,
    }
}

/// The place of each tenant, kind and name. Contracts see a finite map, the start of every hash, and
/// the room. The order has the names of the table. A place that the table or the order has no memory
/// for is kept in a list, whose memory is taken beforehand: the room is the capacity of the list. The
/// bytes of the names are counted as they come and go.
#[derive(Drop)]
pub struct Names {
    table: HashMap<Spot, Place, Keyed>,
    order: BTreeSet<Spot>,
    kept: Vec<(Spot, Place)>,
    bytes: u64,
}

impl Model for Names {
    ghost use Rattle.std.specs.FinMap as map;
    ghost use Rattle.std.specs.Coded.{coded_ℕ, coded_list, coded×};
    ghost use Rattle.judy_model.specs.Contents.{string_order};
    ghost use Rattle.judy_directory.specs.Places.{Stand, stand_code, Footing, footing_code};

    ghost Value = { map.FinMap string_order Stand × Footing };

    ghost coded = { coded× (map.code (coded_list coded_ℕ) stand_code) footing_code };

    ghost use Rattle.std.specs.Prelude.{vec_capacity, ◌++◌};
    ghost use Rattle.std.specs.HashMap.{hasher_of};
    ghost use Rattle.judy_directory.specs.Rooms.{HasListRoom};
    ghost use Rattle.judy_directory.specs.Lengths.{name_bytes};
    ghost use Rattle.judy_directory.specs.Order.{IsOrderOf};
    ghost use Rattle.std.specs.Prelude.{◌≡◌};

    ghost view = { λ d. (
      map.from_entries (d.table.entries ++ d.kept.items),
      record {
        start = (hasher_of d.table).start.state;
        room = vec_capacity d.kept;
      },
    ) };

    ghost invariant = { λ d. HasListRoom d.table.entries d.kept.items (vec_capacity d.kept)
        × (d.bytes ≡ name_bytes (map.from_entries (d.table.entries ++ d.kept.items)))
        × IsOrderOf d.table.entries d.order };
}

impl Names {
    /// No names. Hashes depend on the secret. There is room for 256 names.
    pub fn new(alloc: Global, secret: &[u8]) -> Result<Names, NoMemory>
        ensures empty { IfOk result (λ d. d.0 ≡ map.empty) }
        ensures secret { IfOk result (λ d. d.1.start ≡ start_of secret.now) }
        ensures room { IfOk result (λ d. d.1.room ≡ 256) }
    {
        let table = empty_table(alloc, secret)?;
        let kept = Vec::with_capacity(alloc, FREE_PLACES).map_err(|_| NoMemory)?;
        Ok(Names {
            table,
            order: BTreeSet::new(alloc),
            kept,
            bytes: 0,
        })
    }

    /// There is room for 256 names at all times. The function is empty: the contract is the law, for
    /// callers to cite.
    pub fn there_is_room(&self)
        ensures { 256 ≤ self.now.1.room }
    {
        // The invariant is known once a field is read.
        let _kept = &self.kept;
    }

    /// The place of a name, if it has one.
    pub fn find(&self, spot: &Spot) -> Option<Place>
        ensures { result ≡ map.get self.now.0 spot.now }
    {
        if let Some(place) = self.table.get(spot).copied() {
            return Some(place);
        }
        find_kept(self.kept.as_slice(), spot)
    }

    /// The least name behind this one, or from this one on, and its place. Names are in the order of
    /// their tenants, then of their kinds, then of their bytes.
    pub fn next(&self, spot: &Spot, itself: bool) -> Option<(Spot, Place)>
        ensures { result ≡ place_on itself self.now.0 spot.now }
    {
        let entered = next_entered(&self.table, &self.order, spot, itself);
        lesser(entered, next_kept(self.kept.as_slice(), spot, itself))
    }

    /// All names that have a place, each once.
    pub fn list(&self) -> AllNames<'_>
        ensures all { (key : List ℕ) → is_listed key result ≡ map.contains_key self.now.0 key }
        ensures once { AreOnce result }
    {
        AllNames::of(&self.table, self.kept.as_slice())
    }

    /// Removes all names of the tenants that are marked, in one pass.
    pub fn forget_gone(&mut self, gone: &[bool])
        ensures places { self.new.0 ≡ map.retain_keys self.old.0 (is_staying gone.now) }
        ensures footing { self.new.1 ≡ self.old.1 }
    {
        drop_entered(&mut self.table, &mut self.order, gone);
        drop_gone(&mut self.kept, gone);
        self.bytes = AllNames::of(&self.table, self.kept.as_slice()).bytes();
    }

    /// The number of names that have a place.
    pub fn count(&self) -> usize
        ensures { result ≡ map.len self.now.0 }
    {
        self.table.len() + self.kept.len()
    }

    /// The bytes of the names that have a place, added up, modulo 2^64. What a key adds for tenant and
    /// kind does not count.
    pub fn bytes(&self) -> u64
        ensures { result ≡ name_bytes self.now.0 }
    {
        self.bytes
    }

    /// Makes room for this many names, in the table and in the list. No place changes.
    ///
    /// Err: out of memory. The room is unchanged.
    pub fn reserve(&mut self, names: usize) -> Result<(), NoMemory>
        ensures places { self.new.0 ≡ self.old.0 }
        ensures start { self.new.1.start ≡ self.old.1.start }
        ensures room { OnOk result (self.new.1.room ≡ max self.old.1.room names) }
        ensures refused { OnErr result (self.new.1.room ≡ self.old.1.room) }
    {
        let more = names.saturating_sub(self.table.len());
        self.table.reserve(more).map_err(|_| NoMemory)?;
        reserve_kept(&mut self.kept, names)
    }

    /// The place of a name. A name without a place gets an empty one. Err: out of memory for a new
    /// place, and there is room for no more names. The names are unchanged.
    pub fn place(&mut self, spot: &Spot) -> Result<Place, NoMemory>
        ensures found { IfOk result (λ p. p ≡ at self.old.0 spot.now) }
        ensures place { OnOk result (self.new.0
            ≡ map.insert self.old.0 spot.now (at self.old.0 spot.now)) }
        ensures absent { OnErr result (map.get self.old.0 spot.now ≡ None) }
        ensures full { OnErr result (self.old.1.room ≤ map.len self.old.0) }
        ensures unchanged { OnErr result (self.new.0 ≡ self.old.0) }
        ensures footing { self.new.1 ≡ self.old.1 }
    {
        if let Some(place) = self.find(spot) {
            return Ok(place);
        }
        self.take(spot)?;
        Ok(Place::nothing())
    }

    /// Makes an empty place for a name that has none.
    fn take(&mut self, spot: &Spot) -> Result<(), NoMemory>
        requires { map.get self.old.0 spot.now ≡ None }
        ensures ok { OnOk result (self.new.0 ≡ map.insert self.old.0 spot.now nothing) }
        ensures full { OnErr result (self.old.1.room ≤ map.len self.old.0) }
        ensures unchanged { OnErr result (self.new.0 ≡ self.old.0) }
        ensures footing { self.new.1 ≡ self.old.1 }
    {
        if enter(&mut self.table, &mut self.order, spot) {
            self.bytes = self.bytes.wrapping_add(spot.bytes());
            return Ok(());
        }
        if self.kept.len() == self.kept.capacity() {
            return Err(NoMemory);
        }
        push_kept(&mut self.kept, spot, Place::nothing());
        self.bytes = self.bytes.wrapping_add(spot.bytes());
        Ok(())
    }

    /// Sets the place of a name that has one.
    pub fn set(&mut self, spot: &Spot, place: Place)
        requires { IsTrue (map.contains_key self.old.0 spot.now) }
        ensures places { self.new.0 ≡ map.insert self.old.0 spot.now place }
        ensures footing { self.new.1 ≡ self.old.1 }
    {
        if let Some(old) = self.table.get_mut(spot) {
            *old = place;
            return;
        }
        drop_kept(&mut self.kept, spot);
        push_kept(&mut self.kept, spot, place);
    }

    /// Removes a name.
    pub fn forget(&mut self, spot: &Spot)
        ensures places { self.new.0 ≡ map.remove self.old.0 spot.now }
        ensures footing { self.new.1 ≡ self.old.1 }
    {
        let place = self
            .table
            .remove(spot)
            .or(find_kept(self.kept.as_slice(), spot));
        drop_kept(&mut self.kept, spot);
        self.order.remove(spot);
        self.bytes = self.bytes.wrapping_sub(bytes_lost(spot, place));
    }
}

//! Frees the arrays of the tenants that do not stay.
ghost use Rattle.std.specs.Prelude.{◌≡◌, ◌<◌, ◌^◌, ◌&&◌, ℕ, IsTrue, IsFalse, false, not, get_or, length, nat_lt};
ghost use Rattle.std.specs.FinMap as map;
ghost use Rattle.judy_arena.specs.Takes.{Takes};
ghost use Rattle.judy_model.specs.Tenant.{no_arrays};
ghost use Rattle.judy_directory.specs.Kinds.{is_staying};
ghost use Rattle.judy_directory.specs.Places.{nothing};
ghost use Rattle.judy_kinds.specs.Calls.{ArrayBecomes};
ghost use Rattle.judy_kinds.specs.Kinds.{IsPlaceOf};
ghost use Rattle.judy_tenants.specs.Accounts.{IsServer};
ghost use Rattle.judy_tenants.specs.Changes.{has_tenant, stays_at};
ghost use Rattle.judy_tenants.specs.Frees.{free_of, AreFreed, AreFreedIn};
ghost use Rattle.judy_tenants.specs.States.{state_in};
ghost use Rattle.judy_tenants.specs.Stocks.{IsStocked};

use crate::accounts::{Account, ROWS, settle};
use crate::laws;
use crate::stock::{Stock, stands_at};
use judy_arena::Arena;
use judy_bytes::OrderHash;
use judy_directory::{Directory, Place};
use judy_kinds::answer;
use judy_model::{BytesCall, Call, Kind, LongCall, Name, OneCall, ReplyRoom, StrCall};
use judy_table::Table;
use std::alloc::Global;

/// The call that frees an array.
fn free_of<'a>(kind: Kind, name: Name) -> Call<'a>
    ensures { result ≡ free_of kind name }
{
    match kind {
        Kind::One => Call::One(name, OneCall::Free),
        Kind::Long => Call::Long(name, LongCall::Free),
        Kind::Str => Call::Str(name, StrCall::Free),
        Kind::Bytes => Call::Bytes(name, BytesCall::Free),
    }
}

/// Frees the array at a place, by its own call. Its name is not forgotten.
fn free<H: OrderHash>(
    alloc: Global,
    arena: &mut Arena,
    hash: H,
    kind: Kind,
    name: Name,
    place: Place,
)
    requires place { IsPlaceOf H.hashed kind arena.old.blocks place }
    requires few { place.pieces < 2 ^ 63 }
    ensures array { ArrayBecomes H.hashed kind arena.old place arena.new nothing }
    ensures refusals { arena.new.refusals ≡ arena.old.refusals }
    ensures memory { Takes 0 arena.old arena.new }
{
    laws::kinds_are_lawful();
    let call = free_of(kind, name);
    let mut found = ReplyRoom::new();
    let Ok(_answered) = answer(alloc, arena, hash, place, &call, &mut found) else {
        // Only an insertion asks for memory.
        unreachable!();
    };
}

/// Frees the arrays of the tenants that are marked, in one pass over all names. The names are not
/// forgotten yet: once they are, all else is sound.
fn free_marked<H: OrderHash>(
    alloc: Global,
    arena: &mut Arena,
    accounts: &mut Vec<Account>,
    hash: H,
    table: &Table,
    directory: &Directory,
    gone: &[bool],
)
    requires stocked { IsServer H.hashed arena.old.blocks directory.now.0 accounts.old.items
        table.now }
    requires known { (t : ℕ) → IsTrue (get_or gone.now t false) → t < length table.now }
    ensures stocked { IsServer H.hashed arena.new.blocks
        (map.retain_keys directory.now.0 (is_staying gone.now)) accounts.new.items table.now }
    ensures freed { AreFreedIn (λ t. IsFalse (get_or gone.now t false))
        arena.old directory.now.0
        arena.new (map.retain_keys directory.now.0 (is_staying gone.now)) }
{
    laws::kinds_are_lawful();
    laws::calls_add_one();
    table.rows_are_sound();
    let nothing = Place::nothing();
    let mut names = directory.list();
    while let Some(spot) = names.next() {
        let leaves = spot.is_gone(gone);
        if !leaves {
            continue;
        }
        arena.the_region_is_bounded();
        let tenant = table.tenant(spot.tenant());
        let (kind, name) = spot.array();
        let place = stands_at(directory, &spot);
        free(alloc, arena, hash, kind, name, place);
        settle(accounts, tenant, place, nothing);
    }
}

/// Whether a tenant has this place.
fn has_tenant(table: &Table, place: usize) -> bool
    ensures { result ≡ has_tenant table.now place }
{
    place < table.len() && !table.is_vacant(table.tenant(place))
}

/// Whether the tenant of a place stays when later rows come in force.
pub fn stays_at(table: &Table, later: &Table, place: usize) -> bool
    ensures { result ≡ stays_at table.now later.now place }
{
    has_tenant(table, place) && has_tenant(later, place)
}

/// The marks of the places whose tenants do not stay when later rows come in force.
fn marks(table: &Table, later: &Table) -> [bool; ROWS]
    ensures { (t : ℕ) → get_or result t false
        ≡ (nat_lt t (length table.now) && not (stays_at table.now later.now t)) }
{
    table.rows_are_sound();
    let mut gone = [false; ROWS];
    for place in 0..table.len() {
        gone[place] = !stays_at(table, later, place);
    }
    gone
}

/// Frees all arrays of the tenants at the marked places.
pub fn free_all<H: OrderHash>(
    alloc: Global,
    stock: &mut Stock,
    hash: H,
    table: &Table,
    gone: &[bool],
)
    requires stocked { IsStocked H.hashed table.now stock.old }
    requires known { (t : ℕ) → IsTrue (get_or gone.now t false) → t < length table.now }
    ensures stocked { IsStocked H.hashed table.now stock.new }
    ensures freed { AreFreed (λ t. IsFalse (get_or gone.now t false)) stock.old stock.new }
    ensures gone { (t : ℕ) → IsTrue (get_or gone.now t false)
        → state_in stock.new.arena.blocks stock.new.directory.0 t ≡ no_arrays }
{
    free_marked(
        alloc,
        &mut stock.arena,
        &mut stock.accounts,
        hash,
        table,
        &stock.directory,
        gone,
    );
    stock.directory.forget_gone(gone);
}

/// Frees all arrays of the tenants that do not stay when later rows come in force.
pub fn free_gone<H: OrderHash>(
    alloc: Global,
    stock: &mut Stock,
    hash: H,
    table: &Table,
    later: &Table,
)
    requires stocked { IsStocked H.hashed table.now stock.old }
    ensures stocked { IsStocked H.hashed table.now stock.new }
    ensures freed { AreFreed (λ t. IsTrue (stays_at table.now later.now t)) stock.old stock.new }
    ensures gone { (t : ℕ) → IsFalse (stays_at table.now later.now t)
        → state_in stock.new.arena.blocks stock.new.directory.0 t ≡ no_arrays }
{
    let marked = marks(table, later);
    free_all(alloc, stock, hash, table, marked.as_slice());
}

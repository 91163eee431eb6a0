//! The arrays of a tenant, in the order of their kinds, then of their names.
ghost use Rattle.std.specs.Prelude.{◌≡◌, [], option_map};
ghost use Rattle.judy_model.specs.ArrayLists.{array_texts, count_of, key_of_start, names_reply};
ghost use Rattle.judy_model.specs.Contents.{next, string_order};
ghost use Rattle.judy_model.specs.Tenant.{array_counts};
ghost use Rattle.judy_model.specs.Walks.{listed};
ghost use Rattle.judy_directory.specs.Order.{place_on};
ghost use Rattle.judy_tenants.specs.States.{IsHeld, has_start, start_of_list, state_in};

use crate::laws;
use crate::stock::Stock;
use judy_bytes::KeyHash;
use judy_directory::{Directory, Place, Spot};
use judy_model::{ArrayCount, ArraysFrom, Kind, Listing, Name, Reply};
use judy_table::TenantId;

/// The name and the place in the directory where a list of the tenant's arrays goes on.
fn next_place(directory: &Directory, tenant: TenantId, from: &ArraysFrom) -> Option<(Spot, Place)>
    ensures { result
        ≡ place_on (has_start from.now) directory.now.0 (start_of_list tenant from.now) }
{
    match from {
        ArraysFrom::First => {
            let spot = Spot::new(tenant.place(), Kind::One, Name::of(&[]));
            directory.next(&spot, true)
        }
        ArraysFrom::Behind(kind, name) => {
            let spot = Spot::new(tenant.place(), *kind, name.copied());
            directory.next(&spot, false)
        }
    }
}

/// The tenant's next array.
fn next_array<H: KeyHash>(
    stock: &Stock,
    _hash: H,
    tenant: TenantId,
    from: &ArraysFrom,
) -> Option<ArrayCount>
    requires { IsHeld H.hashed stock.now.arena.blocks stock.now.directory.0 }
    ensures { option_map count_of result
        ≡ next string_order (array_counts (state_in stock.now.arena.blocks stock.now.directory.0 tenant))
        (key_of_start from.now) }
{
    laws::kinds_are_lawful();
    judy_kinds::laws::contents_are_in_form();
    let Some((spot, place)) = next_place(&stock.directory, tenant, from) else {
        return None;
    };
    if spot.tenant() != tenant.place() as usize {
        return None;
    }
    let (kind, name) = spot.array();
    Some(ArrayCount {
        kind,
        name,
        entries: place.entries,
    })
}

/// Adds the tenant's next arrays to an empty list, at most `most` and as many as fit. Returns how many they are.
fn list_arrays<H: KeyHash>(
    stock: &Stock,
    hash: H,
    tenant: TenantId,
    from: &ArraysFrom,
    most: u16,
    listing: &mut Listing,
) -> u16
    requires held { IsHeld H.hashed stock.now.arena.blocks stock.now.directory.0 }
    requires empty { listing.old ≡ [] }
    ensures { listed (array_texts
        (array_counts (state_in stock.now.arena.blocks stock.now.directory.0 tenant))
        (key_of_start from.now) most) ≡ (result, listing.new) }
{
    let mut found = next_array(stock, hash, tenant, from);
    for count in 0..most {
        let Some(array) = found else {
            return count;
        };
        if !listing.add_array(&array) {
            return count;
        }
        let from = ArraysFrom::Behind(array.kind, array.name);
        found = next_array(stock, hash, tenant, &from);
    }
    most
}

/// The reply that lists the tenant's next arrays.
pub fn names<'a, H: KeyHash>(
    stock: &Stock,
    hash: H,
    tenant: TenantId,
    from: &ArraysFrom,
    most: u16,
    listing: &'a mut Listing,
) -> Reply<'a>
    requires { IsHeld H.hashed stock.now.arena.blocks stock.now.directory.0 }
    ensures { result ≡ names_reply
        (array_counts (state_in stock.now.arena.blocks stock.now.directory.0 tenant)) from.now most }
{
    listing.clear();
    let count = list_arrays(stock, hash, tenant, from, most, listing);
    Reply::Entries(count, listing.text())
}

//! The arrays of a tenant, in the order of their kinds, then of their names.
ghost use Rattle.std.specs.Prelude.{◌≡◌, [], option_map};
ghost use Rattle.judy_model.specs.ArrayLists.{array_texts, count_of, key_of_start, names_reply};
ghost use Rattle.judy_model.specs.Contents.{next, string_order};
ghost use Rattle.judy_model.specs.Tenant.{array_counts};
ghost use Rattle.judy_model.specs.Walks.{listed};

use super::Store;
use judy_model::{ArrayCount, ArraysFrom, Kind, Listing, Reply};

/// The next array of the tenant.
fn next_array(store: &Store, from: &ArraysFrom) -> Option<ArrayCount>
    ensures { option_map count_of result
        ≡ next string_order (array_counts store.now) (key_of_start from.now) }
{
    if let Some(found) = store.one.next(Kind::One, from) {
        return Some(found);
    }
    if let Some(found) = store.long.next(Kind::Long, from) {
        return Some(found);
    }
    if let Some(found) = store.string.next(Kind::Str, from) {
        return Some(found);
    }
    store.bytes.next(Kind::Bytes, from)
}

/// Adds the next arrays to an empty list, at most `most` and as many as fit. Returns how many they are.
fn list_arrays(store: &Store, from: &ArraysFrom, most: u16, listing: &mut Listing) -> u16
    requires { listing.old ≡ [] }
    ensures { listed (array_texts (array_counts store.now) (key_of_start from.now) most)
        ≡ (result, listing.new) }
{
    let mut found = next_array(store, from);
    for count in 0..most {
        let Some(array) = found else {
            return count;
        };
        if !listing.add_array(&array) {
            return count;
        }
        found = next_array(store, &ArraysFrom::Behind(array.kind, array.name));
    }
    most
}

/// The reply that lists the next arrays of the tenant.
pub(super) fn names<'a>(
    store: &Store,
    from: &ArraysFrom,
    most: u16,
    listing: &'a mut Listing,
) -> Reply<'a>
    ensures { result ≡ names_reply (array_counts store.now) from.now most }
{
    listing.clear();
    let count = list_arrays(store, from, most, listing);
    Reply::Entries(count, listing.text())
}

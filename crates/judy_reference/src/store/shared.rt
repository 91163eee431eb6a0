//! The indexes that two sets share, as the text of a reply.
ghost use Rattle.std.specs.Prelude.{◌≡◌, ◌≤◌, [], length};
ghost use Rattle.judy_model.specs.Intersections.{behind, intersect, intersection_reply, meet};

use crate::slow::first_entry;
use judy_model::{INTERSECTION_LIMIT, INTERSECTION_STEPS, Listing, Reply};

/// The word behind a word, if there is one.
fn behind(x: u64) -> Option<u64>
    ensures { result ≡ behind x }
{
    x.checked_add(1)
}

/// What a step at `x` finds: the word where the next step goes on, and whether both sets have it.
fn meet(entries: &[(u64, u64)], others: &[(u64, u64)], x: u64) -> Option<(u64, bool)>
    ensures { result ≡ meet entries.now others.now x }
{
    let Some((index, _)) = first_entry(entries, x) else {
        return None;
    };
    let Some((found, _)) = first_entry(others, index) else {
        return None;
    };
    Some((found, found == index))
}

/// Adds shared indexes to an empty list: those from `x` on, at most `most` and as many as fit. Returns where the
/// next call goes on, and how many they are.
fn list_shared(
    entries: &[(u64, u64)],
    others: &[(u64, u64)],
    x: u64,
    most: u16,
    listing: &mut Listing,
) -> (Option<u64>, u16)
    requires { listing.old ≡ [] }
    ensures shown { intersect entries.now others.now x most
        ≡ record { next = result.0; count = result.1; text = listing.new } }
    ensures short { length listing.new ≤ INTERSECTION_LIMIT }
{
    let mut at = x;
    let mut count = 0u16;
    for _step in 0..INTERSECTION_STEPS {
        if count == most {
            return (Some(at), count);
        }
        let Some((index, both)) = meet(entries, others, at) else {
            return (None, count);
        };
        if !both {
            at = index;
            continue;
        }
        if !listing.add_shared(index) {
            return (Some(index), count);
        }
        count += 1;
        let Some(next) = behind(index) else {
            return (None, count);
        };
        at = next;
    }
    (Some(at), count)
}

/// The indexes that two sets share, from `x` on, as many as fit into a reply, at most `most`.
pub(super) fn intersection<'a>(
    entries: &[(u64, u64)],
    others: &[(u64, u64)],
    x: u64,
    most: u16,
    listing: &'a mut Listing,
) -> Reply<'a>
    ensures { result ≡ intersection_reply (intersect entries.now others.now x most) }
{
    listing.clear();
    let (next, count) = list_shared(entries, others, x, most, listing);
    Reply::Intersection(next.unwrap_or(0), count, listing.indexes())
}

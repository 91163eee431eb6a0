//! The names of the table in order: tenants first, then kinds, then the bytes of the names.
ghost use Rattle.std.specs.Prelude.{◌≡◌, ℕ, List, Some, None, IsTrue, IsFalse, ◌≤◌, ◌+◌, cond, length};
ghost use Rattle.std.specs.HashMap.{hasher_of};
ghost use Rattle.std.specs.Range.Bound.{bound_map};
ghost use Rattle.judy_directory.specs.Order.{is_on, bound_from, lesser, IsLeast, IsOrderOf};
ghost use Rattle.judy_directory.specs.Places.{nothing};
ghost use Rattle.judy_directory.specs.Rooms.{alike, look_up, staying};

use crate::keyed::Keyed;
use crate::spot::{Place, Spot};
use std::collections::{BTreeSet, HashMap};
use std::ops::Bound;

/// Gives a name an empty place in the table, and enters it into the order. Returns whether there was
/// memory for both. If there was not, the places and the order are unchanged.
pub fn enter(
    table: &mut HashMap<Spot, Place, Keyed>,
    order: &mut BTreeSet<Spot>,
    spot: &Spot,
) -> bool
    requires absent { look_up spot.now table.old.entries ≡ None }
    requires order { IsOrderOf table.old.entries order.old }
    ensures order { IsOrderOf table.new.entries order.new }
    ensures entered { IsTrue result → (q : List ℕ)
        → look_up q table.new.entries ≡ cond (alike spot.now q) (Some nothing) (look_up q table.old.entries) }
    ensures one { IsTrue result → length table.new.entries ≤ length table.old.entries + 1 }
    ensures refused { IsFalse result → table.new.entries ≡ table.old.entries }
    ensures hasher { hasher_of table.new ≡ hasher_of table.old }
{
    if order.insert(spot.copied()).is_err() {
        return false;
    }
    if table.insert(spot.copied(), Place::nothing()).is_ok() {
        return true;
    }
    order.remove(spot);
    false
}

/// Removes the names of the tenants that are marked from the table and from the order.
pub fn drop_entered(
    table: &mut HashMap<Spot, Place, Keyed>,
    order: &mut BTreeSet<Spot>,
    gone: &[bool],
)
    requires { IsOrderOf table.old.entries order.old }
    ensures entries { table.new.entries ≡ staying gone.now table.old.entries }
    ensures order { IsOrderOf table.new.entries order.new }
    ensures hasher { hasher_of table.new ≡ hasher_of table.old }
{
    table.retain(|spot, _place| !spot.is_gone(gone));
    order.retain(|spot| !spot.is_gone(gone));
}

/// Where the names behind this one begin, or the names from this one on.
fn bound_from(start: &Spot, itself: bool) -> Bound<&Spot>
    ensures { bound_map (λ s. s.now) result ≡ bound_from itself start.now }
{
    if itself {
        return Bound::Included(start);
    }
    Bound::Excluded(start)
}

/// The least name of the table behind this one, or from this one on, and its place.
pub fn next_entered(
    table: &HashMap<Spot, Place, Keyed>,
    order: &BTreeSet<Spot>,
    start: &Spot,
    itself: bool,
) -> Option<(Spot, Place)>
    requires { IsOrderOf table.now.entries order.now }
    ensures { IsLeast (is_on itself start.now) (λ q. look_up q table.now.entries) result }
{
    let mut names = order.range((bound_from(start, itself), Bound::Unbounded));
    let Some(spot) = names.next() else {
        return None;
    };
    let Some(place) = table.get(spot).copied() else {
        unreachable!();
    };
    Some((spot.copied(), place))
}

/// The answer with the lesser name, and the first if the names are equal.
pub fn lesser(a: Option<(Spot, Place)>, b: Option<(Spot, Place)>) -> Option<(Spot, Place)>
    ensures { result ≡ lesser a b }
{
    match (a, b) {
        (Some(a), Some(b)) => {
            if a.0 > b.0 {
                return Some(b);
            }
            Some(a)
        }
        (None, b) => b,
        (a, None) => a,
    }
}

//! The name used last, and its place.
ghost use Rattle.std.specs.Prelude.{◌≡◌, Some, IsTrue, IsFalse, is_some};
ghost use Rattle.judy_directory.specs.Recent.{recent_at, with_recent, without_recent, without_gone, has_recent};

use crate::names::Names;
use crate::spot::{Place, Spot};

/// A name that has a place, and this place. It replaces the place that the table of names has for
/// this name.
#[derive(Drop)]
pub struct Recent {
    pub spot: Spot,
    pub place: Place,
}

/// The place of a name, if it is the one used last.
pub fn find_recent(recent: &Option<Recent>, spot: &Spot) -> Option<Place>
    ensures { result ≡ recent_at recent.now spot.now }
{
    match recent {
        Some(recent) if recent.spot == *spot => Some(recent.place),
        _ => None,
    }
}

/// Sets the place of a name, if it is the one used last. Returns whether it is.
pub fn set_recent(recent: &mut Option<Recent>, spot: &Spot, place: Place) -> bool
    ensures is { result ≡ is_some (recent_at recent.old spot.now) }
    ensures set { IsTrue result → recent.new ≡ Some (record { spot = spot.now; place = place }) }
    ensures other { IsFalse result → recent.new ≡ recent.old }
{
    if let Some(recent) = recent {
        if recent.spot == *spot {
            recent.place = place;
            return true;
        }
    }
    false
}

/// Forgets a name, if it is the one used last.
pub fn drop_recent(recent: &mut Option<Recent>, spot: &Spot)
    ensures { recent.new ≡ without_recent recent.old spot.now }
{
    if find_recent(recent, spot).is_some() {
        *recent = None;
    }
}

/// Forgets the name used last, if its tenant is marked.
pub fn drop_gone_recent(recent: &mut Option<Recent>, gone: &[bool])
    ensures { recent.new ≡ without_gone gone.now recent.old }
{
    let leaves = match recent {
        Some(recent) => recent.spot.is_gone(gone),
        None => false,
    };
    if leaves {
        let _old = recent.take();
    }
}

/// Writes the place of the name used last to the table of names.
pub fn write_back(names: &mut Names, recent: &Option<Recent>)
    requires { IsTrue (has_recent recent.now names.old.0) }
    ensures places { names.new.0 ≡ with_recent recent.now names.old.0 }
    ensures footing { names.new.1 ≡ names.old.1 }
{
    if let Some(recent) = recent {
        names.set(&recent.spot, recent.place);
    }
}

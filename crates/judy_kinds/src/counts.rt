//! The counts of a place, as entries are added and removed.
ghost use Rattle.std.specs.Prelude.{◌≡◌, ◌+◌, ◌-◌, ◌<◌, ◌≤◌, ◌^◌, IsNone, IsSome};
ghost use Rattle.judy_model.specs.Pieces.{string_pieces};

use judy_directory::Place;
use judy_model::Key;
use judy_refs::Ref;
use judy_tree::Inserted;

/// The place after an insertion of this key.
pub(crate) fn inserted(place: Place, key: &Key<'_>, answer: Inserted) -> Place
    requires entries { IsNone answer.before → place.entries + 1 < 2 ^ 64 }
    requires pieces { place.pieces + string_pieces key.now < 2 ^ 64 }
    ensures new { IsNone answer.before → result ≡ record {
      root = answer.root;
      entries = place.entries + 1;
      pieces = place.pieces + string_pieces key.now;
    } }
    ensures present { IsSome answer.before → result ≡ record place { root = answer.root } }
{
    match answer.before {
        None => grown(place, answer.root, key),
        Some(_) => kept(place, answer.root),
    }
}

/// The place at another reference, after adding one entry with this key.
fn grown(place: Place, root: Ref, key: &Key<'_>) -> Place
    requires entries { place.entries + 1 < 2 ^ 64 }
    requires pieces { place.pieces + string_pieces key.now < 2 ^ 64 }
    ensures { result ≡ record {
      root = root;
      entries = place.entries + 1;
      pieces = place.pieces + string_pieces key.now;
    } }
{
    Place {
        root,
        entries: place.entries + 1,
        pieces: place.pieces + key.pieces(),
    }
}

/// The place at another reference, after removing the entry with this key.
pub(crate) fn shrunk(place: Place, root: Ref, key: &Key<'_>) -> Place
    requires entries { 1 ≤ place.entries }
    requires pieces { string_pieces key.now ≤ place.pieces }
    ensures { result ≡ record {
      root = root;
      entries = place.entries - 1;
      pieces = place.pieces - string_pieces key.now;
    } }
{
    Place {
        root,
        entries: place.entries - 1,
        pieces: place.pieces - key.pieces(),
    }
}

/// The place at another reference, with the same numbers of entries and pieces.
pub(crate) fn kept(place: Place, root: Ref) -> Place
    ensures { result ≡ record place { root = root } }
{
    Place { root, ..place }
}

/// The place of an array with this many words as keys. Each is one piece.
pub(crate) fn of_words(root: Ref, entries: u64) -> Place
    ensures { result ≡ record { root = root; entries = entries; pieces = entries } }
{
    Place {
        root,
        entries,
        pieces: entries,
    }
}

/// The place of an array without entries, at this reference.
pub(crate) fn emptied(root: Ref) -> Place
    ensures { result ≡ record { root = root; entries = 0; pieces = 0 } }
{
    Place {
        root,
        entries: 0,
        pieces: 0,
    }
}

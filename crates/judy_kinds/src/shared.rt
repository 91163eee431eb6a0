//! The indexes that two sets share.
ghost use Rattle.std.specs.Prelude.{◌≡◌};
ghost use Rattle.judy_model.specs.Intersections.{intersect, intersection_reply};
ghost use Rattle.judy_words.specs.OneArrays.{IsOneArray, one_in};

use judy_arena::Arena;
use judy_model::{Listing, Reply};
use judy_refs::Ref;
use judy_words::Judy1;

/// The indexes that the sets of two references share, from `x` on: as many as fit into a reply, at most `most`, and
/// where the next call goes on.
pub fn intersection<'a>(
    arena: &Arena,
    set: Ref,
    other: Ref,
    x: u64,
    most: u16,
    listing: &'a mut Listing,
) -> Reply<'a>
    requires set { IsOneArray arena.now.blocks set }
    requires other { IsOneArray arena.now.blocks other }
    ensures { result ≡ intersection_reply
        (intersect (one_in arena.now.blocks set) (one_in arena.now.blocks other) x most) }
{
    let set = Judy1::from_reference(set);
    set.intersection(&Judy1::from_reference(other), arena, x, most, listing)
}

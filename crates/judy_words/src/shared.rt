//! The indexes that two sets share, as the text of a reply.
ghost use Rattle.std.specs.Prelude.{◌≡◌, ◌≤◌, [], length};
ghost use Rattle.judy_model.specs.Intersections.{behind, intersect, intersection_reply, meet};
ghost use Rattle.judy_words.specs.OneArrays.{IsOneArray, one_in};

use crate::one::Judy1;
use judy_arena::Arena;
use judy_model::{INTERSECTION_LIMIT, INTERSECTION_STEPS, Listing, Reply};

/// The word behind a word, if there is one.
fn behind(x: u64) -> Option<u64>
    ensures { result ≡ behind x }
{
    x.checked_add(1)
}

impl Judy1 {
    /// What a step of an intersection at `x` finds: the word where the next step goes on, and whether both sets have
    /// it. None: one of the sets has no more.
    fn meet(&self, other: &Judy1, arena: &Arena, x: u64) -> Option<(u64, bool)>
        requires set { IsOneArray arena.now.blocks self.now }
        requires other { IsOneArray arena.now.blocks other.now }
        ensures { result
            ≡ meet (one_in arena.now.blocks self.now) (one_in arena.now.blocks other.now) x }
    {
        let Some(index) = self.first(arena, x) else {
            return None;
        };
        let Some(found) = other.first(arena, index) else {
            return None;
        };
        Some((found, found == index))
    }

    /// Adds shared indexes to an empty list: those from `x` on, at most `most` and as many as fit. Returns where the
    /// next call goes on, and how many they are.
    fn list_shared(
        &self,
        other: &Judy1,
        arena: &Arena,
        x: u64,
        most: u16,
        listing: &mut Listing,
    ) -> (Option<u64>, u16)
        requires set { IsOneArray arena.now.blocks self.now }
        requires other { IsOneArray arena.now.blocks other.now }
        requires empty { listing.old ≡ [] }
        ensures shown { intersect (one_in arena.now.blocks self.now) (one_in arena.now.blocks other.now) x most
            ≡ record { next = result.0; count = result.1; text = listing.new } }
        ensures short { length listing.new ≤ INTERSECTION_LIMIT }
    {
        let mut at = x;
        let mut count = 0u16;
        for _step in 0..INTERSECTION_STEPS {
            if count == most {
                return (Some(at), count);
            }
            let Some((index, both)) = self.meet(other, arena, at) else {
                return (None, count);
            };
            if !both {
                at = index;
                continue;
            }
            if !listing.add_shared(index) {
                return (Some(index), count);
            }
            count += 1;
            let Some(next) = behind(index) else {
                return (None, count);
            };
            at = next;
        }
        (Some(at), count)
    }

    /// The indexes that this set and another share, from `x` on: as many as fit into a reply, at most `most`, and
    /// where the next call goes on. The Judy library has no such call.
    pub fn intersection<'a>(
        &self,
        other: &Judy1,
        arena: &Arena,
        x: u64,
        most: u16,
        listing: &'a mut Listing,
    ) -> Reply<'a>
        requires set { IsOneArray arena.now.blocks self.now }
        requires other { IsOneArray arena.now.blocks other.now }
        ensures { result ≡ intersection_reply
            (intersect (one_in arena.now.blocks self.now) (one_in arena.now.blocks other.now) x most) }
    {
        listing.clear();
        let (next, count) = self.list_shared(other, arena, x, most, listing);
        Reply::Intersection(next.unwrap_or(0), count, listing.indexes())
    }
}

//! Calls of a map from words to words at its place.
ghost use Rattle.std.specs.Prelude.{◌≡◌, ◌≤◌, IfOk, OnOk, OnErr, IsTrue, if◌then◌else◌};
ghost use Rattle.judy_arena.specs.Takes.{Takes};
ghost use Rattle.judy_model.specs.declared.commands.Kind.TheVariants as kind;
ghost use Rattle.judy_kinds.specs.Calls.{blocks_of_kind};
ghost use Rattle.judy_kinds.specs.Counts.{HasCounts};
ghost use Rattle.judy_model.specs.Pieces.{word_pieces};
ghost use Rattle.judy_model.specs.Tenant.{long_asks_for_new};
ghost use Rattle.judy_words.specs.LongArrays.{IsLongArray, long_in, LongAnswers, LongBecomes};
ghost use Rattle.judy_tree.specs.Changes.{IsShort};

use crate::counts;
use judy_arena::{Arena, NoMemory};
use judy_directory::Place;
use judy_model::{Listing, LongCall, Reply};
use judy_refs::Ref;
use judy_words::JudyL;
use std::alloc::Global;

/// Whether the call asks for an index that the map does not have.
pub(crate) fn asks(arena: &Arena, root: Ref, call: LongCall) -> bool
    requires { IsLongArray arena.now.blocks root }
    ensures { result ≡ long_asks_for_new (long_in arena.now.blocks root) call }
{
    match call {
        LongCall::Insert(x, _) | LongCall::Keep(x, _) => JudyL::from_reference(root)
            .get(arena, x)
            .is_none(),
        LongCall::Fill(x, _) => {
            let map = JudyL::from_reference(root);
            match map.first_empty(arena, x) {
                Some(index) => map.get(arena, index).is_none(),
                None => false,
            }
        }
        _ => false,
    }
}

/// Answers a call. Returns the reply and the map's new place. Err: out of memory; no block changed.
pub(crate) fn answer<'a>(
    alloc: Global,
    arena: &mut Arena,
    place: Place,
    call: LongCall,
    listing: &'a mut Listing,
) -> Result<(Reply<'a>, Place), NoMemory>
    requires array { IsLongArray arena.old.blocks place.root }
    requires counts { HasCounts word_pieces (long_in arena.old.blocks place.root) place }
    ensures array { IfOk result (λ r. LongBecomes arena.old place.root arena.new r.1.root) }
    ensures counts { IfOk result
        (λ r. HasCounts word_pieces (long_in arena.new.blocks r.1.root) r.1) }
    ensures step { IfOk result (λ r. LongAnswers arena.old place.root call r.0 arena.new r.1.root) }
    ensures quiet { OnOk result (arena.new.refusals ≡ arena.old.refusals) }
    ensures memory { Takes
        (if long_asks_for_new (long_in arena.old.blocks place.root) call then blocks_of_kind kind.Long else 0)
        arena.old arena.new }
    ensures asked { OnErr result
        (IsTrue (long_asks_for_new (long_in arena.old.blocks place.root) call)) }
    ensures refused { OnErr result (IsShort arena.old arena.new) }
{
    let mut map = JudyL::from_reference(place.root);
    let reply = map.answer(alloc, arena, call, listing)?;
    if !call.changes() {
        return Ok((reply, counts::kept(place, map.reference())));
    }
    let entries = map.population(arena);
    Ok((reply, counts::of_words(map.reference(), entries)))
}

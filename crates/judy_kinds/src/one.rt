//! Calls of a set of words at its place.
ghost use Rattle.std.specs.Prelude.{◌≡◌, ◌≤◌, IfOk, OnOk, OnErr, IsTrue, if◌then◌else◌};
ghost use Rattle.judy_arena.specs.Takes.{Takes};
ghost use Rattle.judy_model.specs.declared.commands.Kind.TheVariants as kind;
ghost use Rattle.judy_kinds.specs.Calls.{blocks_of_kind};
ghost use Rattle.judy_kinds.specs.Counts.{HasCounts};
ghost use Rattle.judy_model.specs.Pieces.{word_pieces};
ghost use Rattle.judy_model.specs.Tenant.{one_asks_for_new};
ghost use Rattle.judy_words.specs.OneArrays.{IsOneArray, one_in, OneAnswers, OneBecomes};
ghost use Rattle.judy_tree.specs.Changes.{IsShort};

use crate::counts;
use judy_arena::{Arena, NoMemory};
use judy_directory::Place;
use judy_model::{Listing, OneCall, Reply};
use judy_refs::Ref;
use judy_words::Judy1;
use std::alloc::Global;

/// Whether the call asks for an index that the set does not have.
pub(crate) fn asks(arena: &Arena, root: Ref, call: OneCall) -> bool
    requires { IsOneArray arena.now.blocks root }
    ensures { result ≡ one_asks_for_new (one_in arena.now.blocks root) call }
{
    match call {
        OneCall::Set(x) => !Judy1::from_reference(root).test(arena, x),
        OneCall::Fill(x) => {
            let set = Judy1::from_reference(root);
            match set.first_empty(arena, x) {
                Some(index) => !set.test(arena, index),
                None => false,
            }
        }
        _ => false,
    }
}

/// Answers a call. Returns the reply and the set's new place. Err: out of memory; no block changed.
pub(crate) fn answer<'a>(
    alloc: Global,
    arena: &mut Arena,
    place: Place,
    call: OneCall,
    listing: &'a mut Listing,
) -> Result<(Reply<'a>, Place), NoMemory>
    requires array { IsOneArray arena.old.blocks place.root }
    requires counts { HasCounts word_pieces (one_in arena.old.blocks place.root) place }
    ensures array { IfOk result (λ r. OneBecomes arena.old place.root arena.new r.1.root) }
    ensures counts { IfOk result
        (λ r. HasCounts word_pieces (one_in arena.new.blocks r.1.root) r.1) }
    ensures step { IfOk result (λ r. OneAnswers arena.old place.root call r.0 arena.new r.1.root) }
    ensures quiet { OnOk result (arena.new.refusals ≡ arena.old.refusals) }
    ensures memory { Takes
        (if one_asks_for_new (one_in arena.old.blocks place.root) call then blocks_of_kind kind.One else 0)
        arena.old arena.new }
    ensures asked { OnErr result
        (IsTrue (one_asks_for_new (one_in arena.old.blocks place.root) call)) }
    ensures refused { OnErr result (IsShort arena.old arena.new) }
{
    let mut set = Judy1::from_reference(place.root);
    let reply = set.answer(alloc, arena, call, listing)?;
    if !call.changes() {
        return Ok((reply, counts::kept(place, set.reference())));
    }
    let entries = set.population(arena);
    Ok((reply, counts::of_words(set.reference(), entries)))
}

//! Calls of an array of any kind at its place.
ghost use Rattle.std.specs.Prelude.{◌≡◌, ◌≤◌, ◌<◌, ◌^◌, IfOk, OnOk, OnErr, IsTrue};
ghost use Rattle.judy_arena.specs.Takes.{Takes};
ghost use Rattle.judy_kinds.specs.Calls.{is_of_array, kind_of_call, has_string, asks_at, blocks_of_call, AnswersAt, ArrayBecomes};
ghost use Rattle.judy_kinds.specs.Kinds.{IsPlaceOf};
ghost use Rattle.judy_tree.specs.Changes.{IsShort};

use crate::{bytes, long, one, string};
use judy_arena::{Arena, NoMemory};
use judy_bytes::{KeyHash, OrderHash};
use judy_directory::Place;
use judy_model::{Call, Reply, ReplyRoom};
use std::alloc::Global;

/// Whether the call asks for an entry that the array at the place does not have.
pub fn asks<H: KeyHash>(arena: &Arena, hash: H, place: &Place, call: &Call<'_>) -> bool
    requires string { IsTrue (has_string call.now) }
    requires place { IsPlaceOf H.hashed (kind_of_call call.now) arena.now.blocks place.now }
    ensures { result ≡ asks_at arena.now.blocks place.now.root call.now }
{
    match call {
        Call::One(_, call) => one::asks(arena, place.root, *call),
        Call::Long(_, call) => long::asks(arena, place.root, *call),
        Call::Str(_, call) => string::asks(arena, place.root, call),
        Call::Bytes(_, call) => bytes::asks(arena, hash, place.root, call),
        Call::Intersect(..) | Call::Names(..) | Call::Used => false,
    }
}

/// Answers a call of an array. Returns the reply and the array's new place with its numbers of
/// entries and pieces. It does not check the quota: the caller does, with `asks`.
///
/// Err: the arena refused a block for a new entry. No block changed, and the array is still at its
/// old place.
pub fn answer<'a, H: OrderHash>(
    alloc: Global,
    arena: &mut Arena,
    hash: H,
    place: Place,
    call: &Call<'_>,
    found: &'a mut ReplyRoom,
) -> Result<(Reply<'a>, Place), NoMemory>
    requires array { IsTrue (is_of_array call.now) }
    requires string { IsTrue (has_string call.now) }
    requires place { IsPlaceOf H.hashed (kind_of_call call.now) arena.old.blocks place }
    requires room { place.pieces < 2 ^ 63 }
    ensures array { IfOk result
        (λ r. ArrayBecomes H.hashed (kind_of_call call.now) arena.old place arena.new r.1) }
    ensures step { IfOk result
        (λ r. AnswersAt arena.old.blocks place.root call.now r.0 arena.new.blocks r.1.root) }
    ensures quiet { OnOk result (arena.new.refusals ≡ arena.old.refusals) }
    ensures memory { Takes (blocks_of_call arena.old.blocks place.root call.now)
        arena.old arena.new }
    ensures asked { OnErr result (IsTrue (asks_at arena.old.blocks place.root call.now)) }
    ensures refused { OnErr result (IsShort arena.old arena.new) }
{
    match call {
        Call::One(_, call) => one::answer(alloc, arena, place, *call, &mut found.listing),
        Call::Long(_, call) => long::answer(alloc, arena, place, *call, &mut found.listing),
        Call::Str(_, call) => string::answer(alloc, arena, place, call, found),
        Call::Bytes(_, call) => bytes::answer(alloc, arena, hash, place, call, found),
        Call::Intersect(..) | Call::Names(..) | Call::Used => unreachable!(),
    }
}

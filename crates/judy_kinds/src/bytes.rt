//! Calls of a map from byte keys at its place.
ghost use Rattle.std.specs.Prelude.{◌≡◌, ◌≤◌, ◌<◌, ◌^◌, IfOk, OnOk, OnErr, IsTrue, IsFalse, if◌then◌else◌};
ghost use Rattle.judy_arena.specs.Takes.{Takes, TakesNothing};
ghost use Rattle.judy_bytes.specs.BytesArrays.{IsBytesArray, bytes_in, BytesAnswers, BytesLooks, BytesBecomes};
ghost use Rattle.judy_model.specs.declared.commands.Kind.TheVariants as kind;
ghost use Rattle.judy_kinds.specs.Calls.{blocks_of_kind};
ghost use Rattle.judy_kinds.specs.Counts.{HasCounts};
ghost use Rattle.judy_model.specs.Contents.{string_order, has_key};
ghost use Rattle.judy_model.specs.Pieces.{string_pieces};
ghost use Rattle.judy_model.specs.Tenant.{bytes_asks_for_new, bytes_changes};
ghost use Rattle.judy_model.specs.declared.calls.BytesCall.TheVariants as bytes;
ghost use Rattle.judy_tree.specs.Changes.{IsShort};

use crate::counts;
use crate::string::value_reply;
use judy_arena::{Arena, NoMemory};
use judy_bytes::{JudyHS, KeyHash, OrderHash};
use judy_directory::Place;
use judy_model::{BytesCall, Given, Key, Reply, ReplyRoom};
use judy_refs::Ref;
use std::alloc::Global;

/// Whether the call asks for a key that the map does not have.
pub(crate) fn asks<H: KeyHash>(arena: &Arena, hash: H, root: Ref, call: &BytesCall<'_>) -> bool
    requires { IsBytesArray H.hashed arena.now.blocks root }
    ensures { result ≡ bytes_asks_for_new (bytes_in arena.now.blocks root) call.now }
{
    match call {
        BytesCall::Insert(key, _) | BytesCall::Keep(key, _) => JudyHS::from_reference(hash, root)
            .get(arena, key.as_bytes())
            .is_none(),
        _ => false,
    }
}

/// Answers a call. Returns the reply and the map's new place. Err: out of memory; no block changed.
pub(crate) fn answer<'a, H: OrderHash>(
    alloc: Global,
    arena: &mut Arena,
    hash: H,
    place: Place,
    call: &BytesCall<'_>,
    found: &'a mut ReplyRoom,
) -> Result<(Reply<'a>, Place), NoMemory>
    requires array { IsBytesArray H.hashed arena.old.blocks place.root }
    requires counts { HasCounts string_pieces (bytes_in arena.old.blocks place.root) place }
    requires room { place.pieces < 2 ^ 63 }
    ensures array { IfOk result (λ r. BytesBecomes H.hashed arena.old place.root arena.new
        r.1.root) }
    ensures counts { IfOk result
        (λ r. HasCounts string_pieces (bytes_in arena.new.blocks r.1.root) r.1) }
    ensures step { IfOk result (λ r. BytesAnswers arena.old place.root call.now r.0 arena.new
        r.1.root) }
    ensures quiet { OnOk result (arena.new.refusals ≡ arena.old.refusals) }
    ensures memory { Takes
        (if bytes_asks_for_new (bytes_in arena.old.blocks place.root) call.now then blocks_of_kind kind.Bytes else 0)
        arena.old arena.new }
    ensures asked { OnErr result
        (IsTrue (bytes_asks_for_new (bytes_in arena.old.blocks place.root) call.now)) }
    ensures refused { OnErr result (IsShort arena.old arena.new) }
{
    match call {
        BytesCall::Insert(key, given) => insert(alloc, arena, hash, place, key, *given),
        BytesCall::Keep(key, value) => keep(alloc, arena, hash, place, key, *value),
        BytesCall::Exchange(key, from, to) => {
            Ok(exchange(alloc, arena, hash, place, key, *from, *to))
        }
        BytesCall::Delete(key) => Ok(delete(arena, hash, place, key)),
        BytesCall::DeleteIf(key, value) => Ok(delete_if(arena, hash, place, key, *value)),
        BytesCall::Take(key) => Ok(take(arena, hash, place, key)),
        BytesCall::Free => Ok(clear(arena, hash, place)),
        BytesCall::Get(_) | BytesCall::First(_) | BytesCall::Next(..) => {
            judy_bytes::laws::blocks_are_live();
            Ok((look(arena, hash, place.root, call, found), place))
        }
    }
}

/// Inserts a key.
fn insert<H: KeyHash>(
    alloc: Global,
    arena: &mut Arena,
    hash: H,
    place: Place,
    key: &Key<'_>,
    given: Given,
) -> Result<(Reply<'static>, Place), NoMemory>
    requires array { IsBytesArray H.hashed arena.old.blocks place.root }
    requires counts { HasCounts string_pieces (bytes_in arena.old.blocks place.root) place }
    requires room { place.pieces < 2 ^ 63 }
    ensures array { IfOk result (λ r. BytesBecomes H.hashed arena.old place.root arena.new
        r.1.root) }
    ensures counts { IfOk result
        (λ r. HasCounts string_pieces (bytes_in arena.new.blocks r.1.root) r.1) }
    ensures step { IfOk result
        (λ r. BytesAnswers arena.old place.root (bytes.Insert key.now given) r.0 arena.new r.1.root) }
    ensures quiet { OnOk result (arena.new.refusals ≡ arena.old.refusals) }
    ensures asked { OnErr result
        (IsFalse (has_key string_order (bytes_in arena.old.blocks place.root) key.now)) }
    ensures refused { OnErr result (IsShort arena.old arena.new) }
    ensures memory { Takes (if has_key string_order (bytes_in arena.old.blocks place.root) key.now
        then 0 else blocks_of_kind kind.Bytes) arena.old arena.new }
{
    judy_bytes::laws::content_is_sound();
    let mut map = JudyHS::from_reference(hash, place.root);
    let answer = map.insert(alloc, arena, key.as_bytes(), given)?;
    let before = answer.before.unwrap_or(0);
    let reply = Reply::Value(given.value_replied(before));
    Ok((reply, counts::inserted(place, key, answer)))
}

/// Removes a key.
fn delete<H: KeyHash>(
    arena: &mut Arena,
    hash: H,
    place: Place,
    key: &Key<'_>,
) -> (Reply<'static>, Place)
    requires array { IsBytesArray H.hashed arena.old.blocks place.root }
    requires counts { HasCounts string_pieces (bytes_in arena.old.blocks place.root) place }
    ensures array { BytesBecomes H.hashed arena.old place.root arena.new result.1.root }
    ensures counts { HasCounts string_pieces (bytes_in arena.new.blocks result.1.root) result.1 }
    ensures step { BytesAnswers arena.old place.root (bytes.Delete key.now) result.0
        arena.new result.1.root }
    ensures memory { TakesNothing arena.old arena.new }
{
    judy_bytes::laws::content_is_sound();
    let mut map = JudyHS::from_reference(hash, place.root);
    if !map.delete(arena, key.as_bytes()) {
        return (Reply::Int(false), counts::kept(place, map.reference()));
    }
    (
        Reply::Int(true),
        counts::shrunk(place, map.reference(), key),
    )
}

/// Keeps the value of a key that is present, and inserts one that is absent with `value`.
fn keep<H: KeyHash>(
    alloc: Global,
    arena: &mut Arena,
    hash: H,
    place: Place,
    key: &Key<'_>,
    value: u64,
) -> Result<(Reply<'static>, Place), NoMemory>
    requires array { IsBytesArray H.hashed arena.old.blocks place.root }
    requires counts { HasCounts string_pieces (bytes_in arena.old.blocks place.root) place }
    requires room { place.pieces < 2 ^ 63 }
    ensures array { IfOk result (λ r. BytesBecomes H.hashed arena.old place.root arena.new r.1.root) }
    ensures counts { IfOk result
        (λ r. HasCounts string_pieces (bytes_in arena.new.blocks r.1.root) r.1) }
    ensures step { IfOk result
        (λ r. BytesAnswers arena.old place.root (bytes.Keep key.now value) r.0 arena.new r.1.root) }
    ensures quiet { OnOk result (arena.new.refusals ≡ arena.old.refusals) }
    ensures asked { OnErr result
        (IsFalse (has_key string_order (bytes_in arena.old.blocks place.root) key.now)) }
    ensures refused { OnErr result (IsShort arena.old arena.new) }
    ensures memory { Takes (if has_key string_order (bytes_in arena.old.blocks place.root) key.now
        then 0 else blocks_of_kind kind.Bytes) arena.old arena.new }
{
    if let Some(stays) = JudyHS::from_reference(hash, place.root).get(arena, key.as_bytes()) {
        judy_bytes::laws::blocks_are_live();
        return Ok((Reply::Value(stays), place));
    }
    let (_, place) = insert(alloc, arena, hash, place, key, Given::Value(value))?;
    Ok((Reply::Null, place))
}

/// Gives a key the value `to` if it has the value `from`.
fn exchange<H: KeyHash>(
    alloc: Global,
    arena: &mut Arena,
    hash: H,
    place: Place,
    key: &Key<'_>,
    from: u64,
    to: u64,
) -> (Reply<'static>, Place)
    requires array { IsBytesArray H.hashed arena.old.blocks place.root }
    requires counts { HasCounts string_pieces (bytes_in arena.old.blocks place.root) place }
    requires room { place.pieces < 2 ^ 63 }
    ensures array { BytesBecomes H.hashed arena.old place.root arena.new result.1.root }
    ensures counts { HasCounts string_pieces (bytes_in arena.new.blocks result.1.root) result.1 }
    ensures step { BytesAnswers arena.old place.root (bytes.Exchange key.now from to) result.0
        arena.new result.1.root }
    ensures quiet { arena.new.refusals ≡ arena.old.refusals }
    ensures memory { Takes 0 arena.old arena.new }
{
    judy_bytes::laws::blocks_are_live();
    let Some(value) = JudyHS::from_reference(hash, place.root).get(arena, key.as_bytes()) else {
        return (Reply::Null, place);
    };
    if value != from {
        return (Reply::Value(value), place);
    }
    match insert(alloc, arena, hash, place, key, Given::Value(to)) {
        Ok((_, place)) => (Reply::Value(value), place),
        Err(_) => unreachable!(),
    }
}

/// Removes a key, and shows its value.
fn take<H: KeyHash>(
    arena: &mut Arena,
    hash: H,
    place: Place,
    key: &Key<'_>,
) -> (Reply<'static>, Place)
    requires array { IsBytesArray H.hashed arena.old.blocks place.root }
    requires counts { HasCounts string_pieces (bytes_in arena.old.blocks place.root) place }
    ensures array { BytesBecomes H.hashed arena.old place.root arena.new result.1.root }
    ensures counts { HasCounts string_pieces (bytes_in arena.new.blocks result.1.root) result.1 }
    ensures step { BytesAnswers arena.old place.root (bytes.Take key.now) result.0 arena.new
        result.1.root }
    ensures memory { TakesNothing arena.old arena.new }
{
    let had = JudyHS::from_reference(hash, place.root).get(arena, key.as_bytes());
    let (_, place) = delete(arena, hash, place, key);
    (value_reply(had), place)
}

/// Removes a key if it has this value.
fn delete_if<H: KeyHash>(
    arena: &mut Arena,
    hash: H,
    place: Place,
    key: &Key<'_>,
    value: u64,
) -> (Reply<'static>, Place)
    requires array { IsBytesArray H.hashed arena.old.blocks place.root }
    requires counts { HasCounts string_pieces (bytes_in arena.old.blocks place.root) place }
    ensures array { BytesBecomes H.hashed arena.old place.root arena.new result.1.root }
    ensures counts { HasCounts string_pieces (bytes_in arena.new.blocks result.1.root) result.1 }
    ensures step { BytesAnswers arena.old place.root (bytes.DeleteIf key.now value) result.0
        arena.new result.1.root }
    ensures memory { TakesNothing arena.old arena.new }
{
    judy_bytes::laws::blocks_are_live();
    match JudyHS::from_reference(hash, place.root).get(arena, key.as_bytes()) {
        Some(had) => {
            if had == value {
                return delete(arena, hash, place, key);
            }
            (Reply::Int(false), place)
        }
        None => (Reply::Int(false), place),
    }
}

/// Removes all keys.
fn clear<H: KeyHash>(arena: &mut Arena, hash: H, place: Place) -> (Reply<'static>, Place)
    requires { IsBytesArray H.hashed arena.old.blocks place.root }
    ensures array { BytesBecomes H.hashed arena.old place.root arena.new result.1.root }
    ensures counts { HasCounts string_pieces (bytes_in arena.new.blocks result.1.root) result.1 }
    ensures step { BytesAnswers arena.old place.root bytes.Free result.0 arena.new result.1.root }
    ensures memory { TakesNothing arena.old arena.new }
{
    let mut map = JudyHS::from_reference(hash, place.root);
    let count = map.clear(arena);
    (Reply::Count(count), counts::emptied(map.reference()))
}

/// Answers a call that changes nothing.
fn look<'a, H: OrderHash>(
    arena: &Arena,
    hash: H,
    root: Ref,
    call: &BytesCall<'_>,
    found: &'a mut ReplyRoom,
) -> Reply<'a>
    requires array { IsBytesArray H.hashed arena.now.blocks root }
    requires query { IsFalse (bytes_changes call.now) }
    ensures { BytesLooks arena.now root call.now result }
{
    let map = JudyHS::from_reference(hash, root);
    match call {
        BytesCall::Get(key) => value_reply(map.get(arena, key.as_bytes())),
        BytesCall::First(n) => map.walk(arena, *n, found),
        BytesCall::Next(key, n) => map.walk_on(arena, key.as_bytes(), *n, found),
        BytesCall::Insert(..)
        | BytesCall::Keep(..)
        | BytesCall::Exchange(..)
        | BytesCall::Delete(_)
        | BytesCall::DeleteIf(..)
        | BytesCall::Take(_)
        | BytesCall::Free => unreachable!(),
    }
}

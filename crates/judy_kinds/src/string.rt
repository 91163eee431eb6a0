//! Calls of a JudySL at its place.
ghost use Rattle.std.specs.Prelude.{◌≡◌, ◌<◌, ◌≤◌, length, ◌^◌, IfOk, OnOk, OnErr, IsTrue, IsFalse, not, if◌then◌else◌};
ghost use Rattle.judy_arena.specs.Takes.{Takes, TakesNothing};
ghost use Rattle.judy_model.specs.declared.commands.Kind.TheVariants as kind;
ghost use Rattle.judy_kinds.specs.Calls.{has_key_string, blocks_of_kind};
ghost use Rattle.judy_kinds.specs.Counts.{HasCounts};
ghost use Rattle.judy_model.specs.Contents.{string_order, has_key};
ghost use Rattle.judy_model.specs.Grammar.{is_string};
ghost use Rattle.judy_model.specs.Pieces.{string_pieces};
ghost use Rattle.judy_model.specs.Tenant.{value_or_null, string_asks_for_new, string_changes};
ghost use Rattle.judy_model.specs.declared.calls.StrCall.TheVariants as str;
ghost use Rattle.judy_string.specs.StringArrays.{IsKeyString, IsStringArray, string_in, string_shown, StringAnswers, StringLooks, StringBecomes};
ghost use Rattle.judy_tree.specs.Changes.{IsShort};

use crate::counts;
use arrayvec::ArrayVec;
use judy_arena::{Arena, NoMemory};
use judy_directory::Place;
use judy_model::{Given, KEY_LIMIT, Key, Reply, ReplyRoom, StrCall};
use judy_refs::Ref;
use judy_string::JudySL;
use std::alloc::Global;

/// The bytes of a key, as a string.
fn string_of<'a>(key: &Key<'a>) -> &'a [u8]
    requires { IsTrue (is_string key.now) }
    ensures value { result.now ≡ key.now }
    ensures string { IsKeyString key.now }
{
    as_string(key.as_bytes())
}

/// Bytes without a 0, as a string.
fn as_string(bytes: &[u8]) -> &[u8]
    requires { IsTrue (is_string bytes.now) }
    ensures value { result.now ≡ bytes.now }
    ensures string { IsKeyString bytes.now }
{
    bytes
}

/// Whether the call asks for a string that the map does not have.
pub(crate) fn asks(arena: &Arena, root: Ref, call: &StrCall<'_>) -> bool
    requires key { IsTrue (has_key_string call.now) }
    requires array { IsStringArray arena.now.blocks root }
    ensures { result ≡ string_asks_for_new (string_in arena.now.blocks root) call.now }
{
    match call {
        StrCall::Insert(key, _) | StrCall::Keep(key, _) => JudySL::from_reference(root)
            .get(arena, string_of(key))
            .is_none(),
        _ => false,
    }
}

/// Answers a call. Returns the reply and the map's new place. Err: out of memory; no block changed.
pub(crate) fn answer<'a>(
    alloc: Global,
    arena: &mut Arena,
    place: Place,
    call: &StrCall<'_>,
    found: &'a mut ReplyRoom,
) -> Result<(Reply<'a>, Place), NoMemory>
    requires key { IsTrue (has_key_string call.now) }
    requires array { IsStringArray arena.old.blocks place.root }
    requires counts { HasCounts string_pieces (string_in arena.old.blocks place.root) place }
    requires room { place.pieces < 2 ^ 63 }
    ensures array { IfOk result (λ r. StringBecomes arena.old place.root arena.new r.1.root) }
    ensures counts { IfOk result
        (λ r. HasCounts string_pieces (string_in arena.new.blocks r.1.root) r.1) }
    ensures step { IfOk result (λ r. StringAnswers arena.old place.root call.now r.0 arena.new
        r.1.root) }
    ensures quiet { OnOk result (arena.new.refusals ≡ arena.old.refusals) }
    ensures memory { Takes
        (if string_asks_for_new (string_in arena.old.blocks place.root) call.now then blocks_of_kind kind.Str else 0)
        arena.old arena.new }
    ensures asked { OnErr result
        (IsTrue (string_asks_for_new (string_in arena.old.blocks place.root) call.now)) }
    ensures refused { OnErr result (IsShort arena.old arena.new) }
{
    match call {
        StrCall::Insert(key, given) => insert(alloc, arena, place, key, *given),
        StrCall::Keep(key, value) => keep(alloc, arena, place, key, *value),
        StrCall::Exchange(key, from, to) => { Ok(exchange(alloc, arena, place, key, *from, *to)) }
        StrCall::Delete(key) => Ok(delete(arena, place, key)),
        StrCall::DeleteIf(key, value) => Ok(delete_if(arena, place, key, *value)),
        StrCall::Take(key) => Ok(take(arena, place, key)),
        StrCall::Pop(key) => Ok(pop(arena, place, key, &mut found.key)),
        StrCall::Free => Ok(clear(arena, place)),
        _ => {
            judy_string::laws::blocks_are_live();
            Ok((look(arena, place.root, call, found), place))
        }
    }
}

/// Inserts a string.
fn insert(
    alloc: Global,
    arena: &mut Arena,
    place: Place,
    key: &Key<'_>,
    given: Given,
) -> Result<(Reply<'static>, Place), NoMemory>
    requires key { IsTrue (is_string key.now) }
    requires array { IsStringArray arena.old.blocks place.root }
    requires counts { HasCounts string_pieces (string_in arena.old.blocks place.root) place }
    requires room { place.pieces < 2 ^ 63 }
    ensures array { IfOk result (λ r. StringBecomes arena.old place.root arena.new r.1.root) }
    ensures counts { IfOk result
        (λ r. HasCounts string_pieces (string_in arena.new.blocks r.1.root) r.1) }
    ensures step { IfOk result
        (λ r. StringAnswers arena.old place.root (str.Insert key.now given) r.0 arena.new r.1.root) }
    ensures quiet { OnOk result (arena.new.refusals ≡ arena.old.refusals) }
    ensures asked { OnErr result
        (IsFalse (has_key string_order (string_in arena.old.blocks place.root) key.now)) }
    ensures refused { OnErr result (IsShort arena.old arena.new) }
    ensures memory { Takes (if has_key string_order (string_in arena.old.blocks place.root) key.now
        then 0 else blocks_of_kind kind.Str) arena.old arena.new }
{
    judy_string::laws::content_is_sound();
    let mut map = JudySL::from_reference(place.root);
    let answer = map.insert(alloc, arena, string_of(key), given)?;
    let before = answer.before.unwrap_or(0);
    let reply = Reply::Value(given.value_replied(before));
    Ok((reply, counts::inserted(place, key, answer)))
}

/// Removes a string.
fn delete(arena: &mut Arena, place: Place, key: &Key<'_>) -> (Reply<'static>, Place)
    requires key { IsTrue (is_string key.now) }
    requires array { IsStringArray arena.old.blocks place.root }
    requires counts { HasCounts string_pieces (string_in arena.old.blocks place.root) place }
    ensures array { StringBecomes arena.old place.root arena.new result.1.root }
    ensures counts { HasCounts string_pieces (string_in arena.new.blocks result.1.root)
        result.1 }
    ensures step { StringAnswers arena.old place.root (str.Delete key.now) result.0
        arena.new result.1.root }
    ensures memory { TakesNothing arena.old arena.new }
{
    judy_string::laws::content_is_sound();
    let mut map = JudySL::from_reference(place.root);
    if !map.delete(arena, string_of(key)) {
        return (Reply::Int(false), counts::kept(place, map.reference()));
    }
    (
        Reply::Int(true),
        counts::shrunk(place, map.reference(), key),
    )
}

/// Keeps the value of a string that is present, and inserts one that is absent with `value`.
fn keep(
    alloc: Global,
    arena: &mut Arena,
    place: Place,
    key: &Key<'_>,
    value: u64,
) -> Result<(Reply<'static>, Place), NoMemory>
    requires key { IsTrue (is_string key.now) }
    requires array { IsStringArray arena.old.blocks place.root }
    requires counts { HasCounts string_pieces (string_in arena.old.blocks place.root) place }
    requires room { place.pieces < 2 ^ 63 }
    ensures array { IfOk result (λ r. StringBecomes arena.old place.root arena.new r.1.root) }
    ensures counts { IfOk result
        (λ r. HasCounts string_pieces (string_in arena.new.blocks r.1.root) r.1) }
    ensures step { IfOk result
        (λ r. StringAnswers arena.old place.root (str.Keep key.now value) r.0 arena.new r.1.root) }
    ensures quiet { OnOk result (arena.new.refusals ≡ arena.old.refusals) }
    ensures asked { OnErr result
        (IsFalse (has_key string_order (string_in arena.old.blocks place.root) key.now)) }
    ensures refused { OnErr result (IsShort arena.old arena.new) }
    ensures memory { Takes (if has_key string_order (string_in arena.old.blocks place.root) key.now
        then 0 else blocks_of_kind kind.Str) arena.old arena.new }
{
    if let Some(stays) = JudySL::from_reference(place.root).get(arena, string_of(key)) {
        judy_string::laws::blocks_are_live();
        return Ok((Reply::Value(stays), place));
    }
    let (_, place) = insert(alloc, arena, place, key, Given::Value(value))?;
    Ok((Reply::Null, place))
}

/// Gives a string the value `to` if it has the value `from`.
fn exchange(
    alloc: Global,
    arena: &mut Arena,
    place: Place,
    key: &Key<'_>,
    from: u64,
    to: u64,
) -> (Reply<'static>, Place)
    requires key { IsTrue (is_string key.now) }
    requires array { IsStringArray arena.old.blocks place.root }
    requires counts { HasCounts string_pieces (string_in arena.old.blocks place.root) place }
    requires room { place.pieces < 2 ^ 63 }
    ensures array { StringBecomes arena.old place.root arena.new result.1.root }
    ensures counts { HasCounts string_pieces (string_in arena.new.blocks result.1.root) result.1 }
    ensures step { StringAnswers arena.old place.root (str.Exchange key.now from to) result.0
        arena.new result.1.root }
    ensures quiet { arena.new.refusals ≡ arena.old.refusals }
    ensures memory { Takes 0 arena.old arena.new }
{
    judy_string::laws::blocks_are_live();
    let Some(value) = JudySL::from_reference(place.root).get(arena, string_of(key)) else {
        return (Reply::Null, place);
    };
    if value != from {
        return (Reply::Value(value), place);
    }
    match insert(alloc, arena, place, key, Given::Value(to)) {
        Ok((_, place)) => (Reply::Value(value), place),
        Err(_) => unreachable!(),
    }
}

/// Removes a string, and shows its value.
fn take(arena: &mut Arena, place: Place, key: &Key<'_>) -> (Reply<'static>, Place)
    requires key { IsTrue (is_string key.now) }
    requires array { IsStringArray arena.old.blocks place.root }
    requires counts { HasCounts string_pieces (string_in arena.old.blocks place.root) place }
    ensures array { StringBecomes arena.old place.root arena.new result.1.root }
    ensures counts { HasCounts string_pieces (string_in arena.new.blocks result.1.root) result.1 }
    ensures step { StringAnswers arena.old place.root (str.Take key.now) result.0 arena.new
        result.1.root }
    ensures memory { TakesNothing arena.old arena.new }
{
    let had = JudySL::from_reference(place.root).get(arena, string_of(key));
    let (_, place) = delete(arena, place, key);
    (value_reply(had), place)
}

/// Removes the least string from this one on, and shows it.
fn pop<'a>(
    arena: &mut Arena,
    place: Place,
    key: &Key<'_>,
    buffer: &'a mut ArrayVec<u8, KEY_LIMIT>,
) -> (Reply<'a>, Place)
    requires key { IsTrue (is_string key.now) }
    requires array { IsStringArray arena.old.blocks place.root }
    requires counts { HasCounts string_pieces (string_in arena.old.blocks place.root) place }
    ensures array { StringBecomes arena.old place.root arena.new result.1.root }
    ensures counts { HasCounts string_pieces (string_in arena.new.blocks result.1.root) result.1 }
    ensures step { StringAnswers arena.old place.root (str.Pop key.now) result.0 arena.new
        result.1.root }
    ensures memory { TakesNothing arena.old arena.new }
{
    judy_string::laws::blocks_are_live();
    judy_string::laws::content_is_sound();
    let map = JudySL::from_reference(place.root);
    match map.first(arena, string_of(key), buffer) {
        Some(value) => {
            let found = Key::of(buffer.as_slice());
            let (_, place) = delete(arena, place, &found);
            (Reply::ValueKey(value, found), place)
        }
        None => (Reply::Null, place),
    }
}

/// Removes a string if it has this value.
fn delete_if(arena: &mut Arena, place: Place, key: &Key<'_>, value: u64) -> (Reply<'static>, Place)
    requires key { IsTrue (is_string key.now) }
    requires array { IsStringArray arena.old.blocks place.root }
    requires counts { HasCounts string_pieces (string_in arena.old.blocks place.root) place }
    ensures array { StringBecomes arena.old place.root arena.new result.1.root }
    ensures counts { HasCounts string_pieces (string_in arena.new.blocks result.1.root) result.1 }
    ensures step { StringAnswers arena.old place.root (str.DeleteIf key.now value) result.0
        arena.new result.1.root }
    ensures memory { TakesNothing arena.old arena.new }
{
    judy_string::laws::blocks_are_live();
    match JudySL::from_reference(place.root).get(arena, string_of(key)) {
        Some(had) => {
            if had == value {
                return delete(arena, place, key);
            }
            (Reply::Int(false), place)
        }
        None => (Reply::Int(false), place),
    }
}

/// Removes all strings.
fn clear(arena: &mut Arena, place: Place) -> (Reply<'static>, Place)
    requires { IsStringArray arena.old.blocks place.root }
    ensures array { StringBecomes arena.old place.root arena.new result.1.root }
    ensures counts { HasCounts string_pieces (string_in arena.new.blocks result.1.root)
        result.1 }
    ensures step { StringAnswers arena.old place.root str.Free result.0 arena.new result.1.root }
    ensures memory { TakesNothing arena.old arena.new }
{
    let mut map = JudySL::from_reference(place.root);
    let count = map.clear(arena);
    (Reply::Count(count), counts::emptied(map.reference()))
}

/// Answers a call that changes nothing.
fn look<'a>(arena: &Arena, root: Ref, call: &StrCall<'_>, found: &'a mut ReplyRoom) -> Reply<'a>
    requires key { IsTrue (has_key_string call.now) }
    requires array { IsStringArray arena.now.blocks root }
    requires query { IsFalse (string_changes call.now) }
    ensures { StringLooks arena.now root call.now result }
{
    let map = JudySL::from_reference(root);
    match call {
        StrCall::Get(key) => value_reply(map.get(arena, string_of(key))),
        StrCall::First(key) => {
            let value = map.first(arena, string_of(key), &mut found.key);
            entry_reply(value, found.key.as_slice())
        }
        StrCall::Next(key) => {
            let value = map.next(arena, string_of(key), &mut found.key);
            entry_reply(value, found.key.as_slice())
        }
        StrCall::Last(key) => {
            let value = map.last(arena, string_of(key), &mut found.key);
            entry_reply(value, found.key.as_slice())
        }
        StrCall::Prev(key) => {
            let value = map.prev(arena, string_of(key), &mut found.key);
            entry_reply(value, found.key.as_slice())
        }
        StrCall::Walk(search, key, n) => map.walk(arena, *search, string_of(key), *n, found),
        StrCall::Insert(..)
        | StrCall::Keep(..)
        | StrCall::Exchange(..)
        | StrCall::Delete(_)
        | StrCall::DeleteIf(..)
        | StrCall::Take(_)
        | StrCall::Pop(_)
        | StrCall::Free => unreachable!(),
    }
}

/// The reply with a value, or `NULL`.
pub(crate) fn value_reply(found: Option<u64>) -> Reply<'static>
    ensures { result ≡ value_or_null found }
{
    match found {
        Some(value) => Reply::Value(value),
        None => Reply::Null,
    }
}

/// The reply with a value and its string, or `NULL`.
fn entry_reply<'a>(found: Option<u64>, string: &'a [u8]) -> Reply<'a>
    requires { length string.now ≤ KEY_LIMIT }
    ensures { result ≡ string_shown found string.now }
{
    match found {
        Some(value) => Reply::ValueKey(value, Key::of(string)),
        None => Reply::Null,
    }
}

//! Calls that write to one array. `Err` means out of memory for a new entry that the quota has room
//! for; nothing changed.
ghost use Rattle.std.specs.Prelude.{◌≡◌, IsTrue, IfOk, OnErr};
ghost use Rattle.judy_model.specs.Contents.{word_order, value_of, without_key};
ghost use Rattle.judy_model.specs.Tenant.{content_of, insert, keep_over, exchange_over, remove_over, value_or_null, delete, free};
ghost use Rattle.judy_model.specs.Tenant.Reports.{ReportsNew, ReportsValue};
ghost use Rattle.judy_model.specs.declared.calls.Given.TheVariants as given;
ghost use Rattle.judy_reference.specs.Store.{on_array};

use super::directory::Directory;
use super::replies::value_or_null;
use judy_model::{Given, Name, Reply};
use std::alloc::{AllocError, Global};

/// Sets an index of the set of this name, if it is already set or there is room.
pub(super) fn set(
    alloc: Global,
    sets: &mut Directory<u64>,
    room: bool,
    name: &Name,
    index: u64,
) -> Result<Reply<'static>, AllocError>
    ensures ok { IfOk result
        (λ reply. on_array sets.old name.now (λ l. insert word_order room l index given.Nothing ReportsNew)
        ≡ (reply, sets.new)) }
    ensures unchanged { OnErr result (sets.new ≡ sets.old) }
    ensures lacks { OnErr result (IsTrue room
        × (value_of word_order (content_of sets.old name.now) index ≡ None)) }
{
    match sets.get(name, &index) {
        Some(value) => {
            sets.put(alloc, name, index, value)?;
            Ok(Reply::Int(false))
        }
        None if !room => Ok(Reply::Full),
        None => {
            sets.put(alloc, name, index, 0)?;
            Ok(Reply::Int(true))
        }
    }
}

/// Inserts a key into the map of this name, gives it a value or adds to its value.
pub(super) fn insert<K: Ord>(
    alloc: Global,
    maps: &mut Directory<K>,
    room: bool,
    name: &Name,
    key: K,
    given: Given,
) -> Result<Reply<'static>, AllocError>
where
    K: Drop,
    ensures ok { IfOk result
        (λ reply. on_array maps.old name.now (λ l. insert K.cmp room l key given ReportsValue)
        ≡ (reply, maps.new)) }
    ensures unchanged { OnErr result (maps.new ≡ maps.old) }
    ensures lacks { OnErr result (IsTrue room
        × (value_of K.cmp (content_of maps.old name.now) key ≡ None)) }
{
    match maps.get(name, &key) {
        Some(value) => {
            maps.put(alloc, name, key, given.value_after(value))?;
            Ok(Reply::Value(given.value_replied(value)))
        }
        None if room => {
            maps.put(alloc, name, key, given.value_after(0))?;
            Ok(Reply::Value(given.value_replied(0)))
        }
        None => Ok(Reply::Full),
    }
}

/// Keeps the value of a present key of the map of this name, and inserts an absent one with a value.
pub(super) fn keep<K: Ord>(
    alloc: Global,
    maps: &mut Directory<K>,
    room: bool,
    name: &Name,
    key: K,
    value: u64,
) -> Result<Reply<'static>, AllocError>
where
    K: Drop,
    ensures ok { IfOk result
        (λ reply. on_array maps.old name.now
        (λ l. keep_over K.cmp room l key value (value_of K.cmp l key)) ≡ (reply, maps.new)) }
    ensures unchanged { OnErr result (maps.new ≡ maps.old) }
    ensures lacks { OnErr result (IsTrue room
        × (value_of K.cmp (content_of maps.old name.now) key ≡ None)) }
{
    match maps.get(name, &key) {
        Some(stays) => Ok(Reply::Value(stays)),
        None if !room => Ok(Reply::Full),
        None => {
            maps.put(alloc, name, key, value)?;
            Ok(Reply::Null)
        }
    }
}

/// Gives a key of the map of this name another value if it has this one.
pub(super) fn exchange<K: Ord>(
    alloc: Global,
    maps: &mut Directory<K>,
    name: &Name,
    key: K,
    from: u64,
    to: u64,
) -> Result<Reply<'static>, AllocError>
where
    K: Drop,
    ensures ok { IfOk result
        (λ reply. on_array maps.old name.now
        (λ l. exchange_over K.cmp l key from to (value_of K.cmp l key)) ≡ (reply, maps.new)) }
    ensures unchanged { OnErr result (maps.new ≡ maps.old) }
    ensures always { OnErr result ⊥ }
{
    match maps.get(name, &key) {
        Some(value) => {
            if value == from {
                maps.put(alloc, name, key, to)?;
            }
            Ok(Reply::Value(value))
        }
        None => Ok(Reply::Null),
    }
}

/// Removes a key from the map of this name, and shows its value.
pub(super) fn take<K: Ord>(maps: &mut Directory<K>, name: &Name, key: &K) -> Reply<'static>
where
    K: Drop,
    ensures { on_array maps.old name.now
        (λ l. (value_or_null (value_of K.cmp l key.now), without_key K.cmp l key.now))
        ≡ (result, maps.new) }
{
    let had = maps.get(name, key);
    maps.remove(name, key);
    value_or_null(had)
}

/// Removes a key from the map of this name if it has this value.
pub(super) fn delete_if<K: Ord>(
    maps: &mut Directory<K>,
    name: &Name,
    key: &K,
    value: u64,
) -> Reply<'static>
where
    K: Drop,
    ensures { on_array maps.old name.now
        (λ l. remove_over K.cmp l key.now value (value_of K.cmp l key.now)) ≡ (result, maps.new) }
{
    match maps.get(name, key) {
        Some(had) => {
            if had == value {
                maps.remove(name, key);
            }
            Reply::Int(had == value)
        }
        None => Reply::Int(false),
    }
}

/// Removes a key from the array of this name. The reply says whether it was present.
pub(super) fn delete<K: Ord>(arrays: &mut Directory<K>, name: &Name, key: &K) -> Reply<'static>
where
    K: Drop,
    ensures { on_array arrays.old name.now (λ l. delete K.cmp l key.now) ≡ (result, arrays.new) }
{
    let present = arrays.get(name, key).is_some();
    arrays.remove(name, key);
    Reply::Int(present)
}

/// Empties the array of this name. The reply is the number of its entries.
pub(super) fn free<K: Ord>(arrays: &mut Directory<K>, name: &Name) -> Reply<'static>
where
    K: Drop,
    ensures { on_array arrays.old name.now (λ l. free l) ≡ (result, arrays.new) }
{
    let count = arrays.content(name).len() as u64;
    arrays.free(name);
    Reply::Count(count)
}

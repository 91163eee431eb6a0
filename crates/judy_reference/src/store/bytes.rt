//! Calls of maps from byte keys to words.
ghost use Rattle.std.specs.Prelude.{◌≡◌, IsTrue, IfOk, OnErr};
ghost use Rattle.judy_model.specs.Tenant.{content_of, bytes_step, bytes_asks_for_new};
ghost use Rattle.judy_reference.specs.Store.{on_array};

use super::byte_walks::{first_keys, next_keys};
use super::directory::Directory;
use super::replies::value_or_null;
use super::writes::{delete, delete_if, exchange, free, insert, keep, take};
use judy_model::{BytesCall, Name, OwnedKey, Reply, ReplyRoom};
use std::alloc::{AllocError, Global};

/// Answers a call of the JudyHS of this name. `Err` means out of memory for a new entry that the
/// quota has room for; nothing changed.
pub(super) fn bytes_step<'a>(
    alloc: Global,
    maps: &mut Directory<OwnedKey>,
    room: bool,
    name: &Name,
    call: &BytesCall<'_>,
    found: &'a mut ReplyRoom,
) -> Result<Reply<'a>, AllocError>
    ensures ok { IfOk result
        (λ reply. on_array maps.old name.now (λ l. bytes_step room l call.now)
        ≡ (reply, maps.new)) }
    ensures unchanged { OnErr result (maps.new ≡ maps.old) }
    ensures lacks { OnErr result
        (IsTrue room × IsTrue (bytes_asks_for_new (content_of maps.old name.now) call.now)) }
{
    let entries = maps.content(name);
    let reply = match call {
        BytesCall::Insert(k, given) => return insert(
            alloc,
            maps,
            room,
            name,
            OwnedKey::of(k),
            *given,
        ),
        BytesCall::Keep(k, value) => return keep(alloc, maps, room, name, OwnedKey::of(k), *value),
        BytesCall::Exchange(k, from, to) => return exchange(
            alloc,
            maps,
            name,
            OwnedKey::of(k),
            *from,
            *to,
        ),
        BytesCall::Delete(k) => delete(maps, name, &OwnedKey::of(k)),
        BytesCall::DeleteIf(k, value) => delete_if(maps, name, &OwnedKey::of(k), *value),
        BytesCall::Take(k) => take(maps, name, &OwnedKey::of(k)),
        BytesCall::Free => free(maps, name),
        BytesCall::Get(k) => value_or_null(maps.get(name, &OwnedKey::of(k))),
        BytesCall::First(n) => first_keys(entries, *n, &mut found.listing),
        BytesCall::Next(k, n) => next_keys(entries, k, *n, &mut found.listing),
    };
    Ok(reply)
}

//! Calls of ordered maps from strings to words.
ghost use Rattle.std.specs.Prelude.{◌≡◌, IsTrue, IfOk, OnErr};
ghost use Rattle.judy_model.specs.Tenant.{content_of, string_step, string_asks_for_new};
ghost use Rattle.judy_reference.specs.Store.{on_array};

use super::directory::Directory;
use super::pops::pop_string;
use super::replies::{value_key_or_null, value_or_null};
use super::walks;
use super::writes::{delete, delete_if, exchange, free, insert, keep, take};
use crate::slow::{first_string, last_string, next_string, prev_string};
use judy_model::{Name, OwnedKey, Reply, ReplyRoom, StrCall};
use std::alloc::{AllocError, Global};

/// Answers a call of the JudySL of this name. `Err` means out of memory for a new entry that the
/// quota has room for; nothing changed.
pub(super) fn string_step<'a>(
    alloc: Global,
    maps: &mut Directory<OwnedKey>,
    room: bool,
    name: &Name,
    call: &StrCall<'_>,
    found: &'a mut ReplyRoom,
) -> Result<Reply<'a>, AllocError>
    ensures ok { IfOk result
        (λ reply. on_array maps.old name.now (λ l. string_step room l call.now)
        ≡ (reply, maps.new)) }
    ensures unchanged { OnErr result (maps.new ≡ maps.old) }
    ensures lacks { OnErr result (IsTrue room
        × IsTrue (string_asks_for_new (content_of maps.old name.now) call.now)) }
{
    let entries = maps.content(name);
    let reply = match call {
        StrCall::Insert(k, given) => return insert(
            alloc,
            maps,
            room,
            name,
            OwnedKey::of(k),
            *given,
        ),
        StrCall::Keep(k, value) => return keep(alloc, maps, room, name, OwnedKey::of(k), *value),
        StrCall::Exchange(k, from, to) => return exchange(
            alloc,
            maps,
            name,
            OwnedKey::of(k),
            *from,
            *to,
        ),
        StrCall::Delete(k) => delete(maps, name, &OwnedKey::of(k)),
        StrCall::DeleteIf(k, value) => delete_if(maps, name, &OwnedKey::of(k), *value),
        StrCall::Take(k) => take(maps, name, &OwnedKey::of(k)),
        StrCall::Pop(k) => pop_string(maps, name, k, &mut found.key),
        StrCall::Free => free(maps, name),
        StrCall::Get(k) => value_or_null(maps.get(name, &OwnedKey::of(k))),
        StrCall::First(x) => value_key_or_null(first_string(entries, x), &mut found.key),
        StrCall::Next(x) => value_key_or_null(next_string(entries, x), &mut found.key),
        StrCall::Last(x) => value_key_or_null(last_string(entries, x), &mut found.key),
        StrCall::Prev(x) => value_key_or_null(prev_string(entries, x), &mut found.key),
        StrCall::Walk(search, x, n) => {
            walks::strings(entries, *search, x, *n, &mut found.listing)
        }
    };
    Ok(reply)
}

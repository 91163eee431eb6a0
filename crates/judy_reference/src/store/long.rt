//! Calls of maps from words to words.
ghost use Rattle.std.specs.Prelude.{◌≡◌, IsTrue, IfOk, OnErr};
ghost use Rattle.judy_model.specs.Tenant.{content_of, long_step, long_asks_for_new};
ghost use Rattle.judy_reference.specs.Store.{on_array};

use super::directory::Directory;
use super::fills::fill;
use super::pops::{cut, pop_entry};
use super::replies::{absent_or_no, value_at_or_null, value_or_null};
use super::walks;
use super::writes::{delete, delete_if, exchange, free, insert, keep, take};
use crate::slow::{
    count_between, first_entry, first_gap, last_entry, last_gap, next_entry, next_gap, nth_entry,
    prev_entry, prev_gap,
};
use judy_model::{LongCall, Name, Reply, ReplyRoom};
use std::alloc::{AllocError, Global};

/// Answers a call of the JudyL of this name. `Err` means out of memory for a new entry that the
/// quota has room for; nothing changed.
pub(super) fn long_step<'a>(
    alloc: Global,
    maps: &mut Directory<u64>,
    room: bool,
    name: &Name,
    call: &LongCall,
    found: &'a mut ReplyRoom,
) -> Result<Reply<'a>, AllocError>
    ensures ok { IfOk result
        (λ reply. on_array maps.old name.now (λ l. long_step room l call.now) ≡ (reply, maps.new)) }
    ensures unchanged { OnErr result (maps.new ≡ maps.old) }
    ensures lacks { OnErr result (IsTrue room
        × IsTrue (long_asks_for_new (content_of maps.old name.now) call.now)) }
{
    let entries = maps.content(name);
    let reply = match call {
        LongCall::Insert(k, given) => return insert(alloc, maps, room, name, *k, *given),
        LongCall::Keep(k, value) => return keep(alloc, maps, room, name, *k, *value),
        LongCall::Exchange(k, from, to) => return exchange(alloc, maps, name, *k, *from, *to),
        LongCall::Delete(k) => delete(maps, name, k),
        LongCall::DeleteIf(k, value) => delete_if(maps, name, k, *value),
        LongCall::Take(k) => take(maps, name, k),
        LongCall::Pop(x, most) => pop_entry(maps, name, *x, *most),
        LongCall::Fill(x, value) => return fill(alloc, maps, room, name, *x, *value),
        LongCall::Cut(x, last, n) => cut(maps, name, *x, *last, *n),
        LongCall::Free => free(maps, name),
        LongCall::Get(k) => value_or_null(maps.get(name, k)),
        LongCall::Count(a, b) => Reply::Count(count_between(entries, *a, *b) as u64),
        LongCall::ByCount(n) => value_at_or_null(nth_entry(entries, *n as usize)),
        LongCall::First(x) => value_at_or_null(first_entry(entries, *x)),
        LongCall::Next(x) => value_at_or_null(next_entry(entries, *x)),
        LongCall::Last(x) => value_at_or_null(last_entry(entries, *x)),
        LongCall::Prev(x) => value_at_or_null(prev_entry(entries, *x)),
        LongCall::FirstEmpty(x) => absent_or_no(first_gap(entries, *x)),
        LongCall::NextEmpty(x) => absent_or_no(next_gap(entries, *x)),
        LongCall::LastEmpty(x) => absent_or_no(last_gap(entries, *x)),
        LongCall::PrevEmpty(x) => absent_or_no(prev_gap(entries, *x)),
        LongCall::Walk(search, x, n) => {
            walks::entries(entries, *search, *x, *n, &mut found.listing)
        }
        LongCall::WalkEmpty(search, x, n) => {
            walks::gaps(entries, *search, *x, *n, &mut found.listing)
        }
    };
    Ok(reply)
}

//! Calls of sets of words.
ghost use Rattle.std.specs.Prelude.{◌≡◌, IsTrue, IfOk, OnErr};
ghost use Rattle.judy_model.specs.Tenant.{content_of, one_step, one_asks_for_new};
ghost use Rattle.judy_reference.specs.Store.{on_array};

use super::directory::Directory;
use super::fills::fill;
use super::pops::{cut, pop_index};
use super::replies::{absent_or_no, index_or_no};
use super::walks;
use super::writes::{delete, free, set};
use crate::slow::{
    count_between, first_entry, first_gap, last_entry, last_gap, next_entry, next_gap, nth_entry,
    prev_entry, prev_gap,
};
use judy_model::{Name, OneCall, Reply, ReplyRoom};
use std::alloc::{AllocError, Global};

/// Answers a call of the set of this name. `Err` means out of memory for a new entry that the quota
/// has room for; nothing changed.
pub(super) fn one_step<'a>(
    alloc: Global,
    sets: &mut Directory<u64>,
    room: bool,
    name: &Name,
    call: &OneCall,
    found: &'a mut ReplyRoom,
) -> Result<Reply<'a>, AllocError>
    ensures ok { IfOk result
        (λ reply. on_array sets.old name.now (λ l. one_step room l call.now) ≡ (reply, sets.new)) }
    ensures unchanged { OnErr result (sets.new ≡ sets.old) }
    ensures lacks { OnErr result (IsTrue room
        × IsTrue (one_asks_for_new (content_of sets.old name.now) call.now)) }
{
    let entries = sets.content(name);
    let reply = match call {
        OneCall::Set(x) => return set(alloc, sets, room, name, *x),
        OneCall::Unset(x) => delete(sets, name, x),
        OneCall::Pop(x, most) => pop_index(sets, name, *x, *most),
        OneCall::Fill(x) => return fill(alloc, sets, room, name, *x, 0),
        OneCall::Cut(x, last, n) => cut(sets, name, *x, *last, *n),
        OneCall::Free => free(sets, name),
        OneCall::Test(x) => Reply::Int(sets.get(name, x).is_some()),
        OneCall::Count(a, b) => Reply::Count(count_between(entries, *a, *b) as u64),
        OneCall::ByCount(n) => index_or_no(nth_entry(entries, *n as usize)),
        OneCall::First(x) => index_or_no(first_entry(entries, *x)),
        OneCall::Next(x) => index_or_no(next_entry(entries, *x)),
        OneCall::Last(x) => index_or_no(last_entry(entries, *x)),
        OneCall::Prev(x) => index_or_no(prev_entry(entries, *x)),
        OneCall::FirstEmpty(x) => absent_or_no(first_gap(entries, *x)),
        OneCall::NextEmpty(x) => absent_or_no(next_gap(entries, *x)),
        OneCall::LastEmpty(x) => absent_or_no(last_gap(entries, *x)),
        OneCall::PrevEmpty(x) => absent_or_no(prev_gap(entries, *x)),
        OneCall::Walk(search, x, n) => {
            walks::indexes(entries, *search, *x, *n, &mut found.listing)
        }
        OneCall::WalkEmpty(search, x, n) => {
            walks::gaps(entries, *search, *x, *n, &mut found.listing)
        }
    };
    Ok(reply)
}

//! Plays the records of calls again.
ghost use Rattle.std.specs.Prelude.{◌≡◌, ◌<◌, ℕ, IsTrue, MatchOption, Some, None, false, get_or, length};
ghost use Rattle.judy_kinds.specs.Calls.{has_string};
ghost use Rattle.judy_journal.specs.Leaving.{gone_in};
ghost use Rattle.judy_journal.specs.Replays.{change_of, outcome, parts_of, told};
ghost use Rattle.judy_model.specs.Grammar.{is_name};
ghost use Rattle.judy_model.specs.Stream.{lines_of};
ghost use Rattle.judy_table.specs.Tenants.{place_of};
ghost use Rattle.judy_tenants.specs.Held.{Held};
ghost use Rattle.judy_server.specs.declared.tally.Tally.{Tally as TallyLem};
ghost use Rattle.judy_server.specs.Replays.{HaveLeft, IsMadeAgain, IsPassedOver, Plays, PlaysAll, PlaysChange, PlaysLeaving, changing, marks_of};
ghost use Rattle.judy_server.specs.Tally.{tallied};

use crate::absent::Left;
use crate::tally::{PLACES, Tally};
use judy_journal::{Unplayed, read_gone};
use judy_model::{Call, KEY_LIMIT, Name, Reply, ReplyRoom, Right, name_ok};
use judy_protocol::{Line, cut_line, read_line};
use judy_table::{Speaker, TenantId};
use judy_tenants::{OrderHash, Service};
use std::alloc::Global;

/// Where the playing of records stopped.
#[derive(Clone, Copy, Debug, PartialEq, Eq)]
pub struct Halt {
    /// How many records were played.
    pub played: usize,
    /// Why the next one was not.
    pub why: Unplayed,
}

/// The bytes of a record before its first space, and those after it.
fn parts(bytes: &[u8]) -> Option<(&[u8], &[u8])>
    ensures { MatchOption result (parts_of bytes.now ≡ None)
        (λ cut. parts_of bytes.now ≡ Some (cut.0.now, cut.1.now)) }
{
    for (at, b) in bytes.iter().enumerate() {
        if *b == b' ' {
            let (name, from) = bytes.split_at(at);
            let (_, line) = from.split_at(1);
            return Some((name, line));
        }
    }
    None
}

/// The call that a line asks for, if it is one that changes arrays.
fn change_of<'a>(line: &[u8], key: &'a mut [u8; KEY_LIMIT]) -> Option<Call<'a>>
    ensures change { result ≡ change_of line.now }
    ensures string { MatchOption result (Unit {0}) (λ call. IsTrue (has_string call)) }
{
    let Ok(Line::Call(call)) = read_line(line, key) else {
        return None;
    };
    if !call.changes() {
        return None;
    }
    Some(call)
}

/// Whether the call of a record was answered, or why it was refused.
fn outcome(reply: &Reply<'_>) -> Result<(), Unplayed>
    ensures { result ≡ outcome reply.now }
{
    match reply {
        Reply::Full | Reply::ReadOnly | Reply::Frozen => Err(Unplayed::Full),
        Reply::Memory => Err(Unplayed::Memory),
        Reply::Int(_) => Ok(()),
        Reply::Index(_) => Ok(()),
        Reply::Count(_) => Ok(()),
        Reply::Value(_) => Ok(()),
        Reply::ValueAt(_, _) => Ok(()),
        Reply::ValueKey(_, _) => Ok(()),
        Reply::Entries(_, _) => Ok(()),
        Reply::Intersection(_, _, _) => Ok(()),
        Reply::Null => Ok(()),
        Reply::Used(_, _, _, _) => Ok(()),
    }
}

/// The change that a record tells: the tenant's name and its call.
fn told<'a, 'k>(bytes: &'a [u8], key: &'k mut [u8; KEY_LIMIT]) -> Option<(&'a [u8], Call<'k>)>
    ensures told { MatchOption result (told bytes.now ≡ None)
        (λ change. told bytes.now ≡ Some (record { name = change.0.now; call = change.1 })) }
    ensures name { MatchOption result (Unit {0}) (λ change. IsTrue (is_name change.0.now)) }
    ensures string { MatchOption result (Unit {0}) (λ change. IsTrue (has_string change.1)) }
{
    let Some((name, line)) = parts(bytes) else {
        return None;
    };
    if !name_ok(name) {
        return None;
    }
    let Some(call) = change_of(line, key) else {
        return None;
    };
    Some((name, call))
}

/// Makes the call of a record for the tenant at a place, with the right to change arrays.
fn make_again<H: OrderHash>(
    alloc: Global,
    service: &mut Service<H>,
    tenant: TenantId,
    call: &Call<'_>,
    found: &mut ReplyRoom,
) -> Result<(), Unplayed>
    requires known { tenant < length service.old.tenants }
    requires string { IsTrue (has_string call.now) }
    ensures { (tally : TallyLem) → IsMadeAgain (tallied service.old tally)
        (changing tenant call.now) result (tallied service.new tally) }
{
    let speaker = Speaker {
        tenant,
        right: Right::Change,
        digest: [0; 32],
    };
    outcome(&service.call(alloc, speaker, call, found))
}

/// Passes a record over: notes that the table lacks the tenant of its name.
///
/// Err: there is no room to note it, and nothing changed.
fn pass_over(tally: &mut Tally, name: &[u8]) -> Result<(), Unplayed>
    requires name { IsTrue (is_name name.now) }
    ensures { (held : Held) → IsPassedOver (tallied held tally.old) name.now result
        (tallied held tally.new) }
{
    let Some(name) = Name::read(name) else {
        // It is a name.
        unreachable!();
    };
    if !tally.absent.note(name) {
        return Err(Unplayed::Tenant);
    }
    Ok(())
}

/// Makes the call of a record for the tenant of its name. If there is none, the record is passed over.
fn play_change<H: OrderHash>(
    alloc: Global,
    service: &mut Service<H>,
    tally: &mut Tally,
    name: &[u8],
    call: &Call<'_>,
    found: &mut ReplyRoom,
) -> Result<(), Unplayed>
    requires name { IsTrue (is_name name.now) }
    requires string { IsTrue (has_string call.now) }
    ensures { PlaysChange (record { name = name.now; call = call.now })
        (place_of name.now service.old.tenants)
        (tallied service.old tally.old) result (tallied service.new tally.new) }
{
    match service.find(name) {
        Some(tenant) => make_again(alloc, service, tenant, call, found),
        None => pass_over(tally, name),
    }
}

/// The marks of the places whose tenant has one of these names.
fn marks_of<H: OrderHash>(service: &Service<H>, left: &Left<'_>) -> [bool; PLACES]
    ensures { (t : ℕ) → get_or result t false
        ≡ get_or (marks_of left.now service.now.tenants) t false }
{
    service.rows_are_sound();
    let mut marks = [false; PLACES];
    for place in 0..service.tenants() {
        marks[place] = left.has(service.name(service.tenant(place)));
    }
    marks
}

/// Frees the arrays of the tenants that left. They are absent no more.
fn leave<H: OrderHash>(alloc: Global, service: &mut Service<H>, tally: &mut Tally, left: &Left<'_>)
    ensures { HaveLeft (tallied service.old tally.old) left.now (tallied service.new tally.new) }
{
    let marks = marks_of(&*service, left);
    service.free(alloc, marks.as_slice());
    tally.absent.forget(left);
}

/// Plays a record of tenants that left, if it is one.
fn play_leaving<H: OrderHash>(
    alloc: Global,
    service: &mut Service<H>,
    tally: &mut Tally,
    bytes: &[u8],
) -> Result<(), Unplayed>
    ensures { PlaysLeaving (gone_in bytes.now) (tallied service.old tally.old) result
        (tallied service.new tally.new) }
{
    let Some((first, others)) = read_gone(bytes) else {
        return Err(Unplayed::Record);
    };
    leave(alloc, service, tally, &Left { first, others });
    Ok(())
}

/// Plays a record. That of a call: makes the call for the tenant that the record names; if there is
/// none, the name is noted as absent. That of tenants that left: frees their arrays, and they are
/// absent no more. The call's key, and a key that it finds, are put into `key` and `found`.
///
/// Err: no array changed.
pub fn replay<H: OrderHash>(
    alloc: Global,
    service: &mut Service<H>,
    tally: &mut Tally,
    bytes: &[u8],
    key: &mut [u8; KEY_LIMIT],
    found: &mut ReplyRoom,
) -> Result<(), Unplayed>
    ensures { Plays bytes.now (tallied service.old tally.old) result
        (tallied service.new tally.new) }
{
    match told(bytes, key) {
        Some((name, call)) => play_change(alloc, service, tally, name, &call, found),
        None => play_leaving(alloc, service, tally, bytes),
    }
}

/// Plays the records of a text, each of which ends with an LF, one after another, up to the first that
/// cannot be played.
pub fn replay_all<H: OrderHash>(
    alloc: Global,
    service: &mut Service<H>,
    tally: &mut Tally,
    text: &[u8],
    key: &mut [u8; KEY_LIMIT],
    found: &mut ReplyRoom,
) -> Result<(), Halt>
    ensures { PlaysAll (lines_of text.now) (tallied service.old tally.old) result
        (tallied service.new tally.new) }
{
    let mut rest = text;
    let mut played: usize = 0;
    while let Some((record, after)) = cut_line(rest) {
        if let Err(why) = replay(alloc, service, tally, record, key, found) {
            return Err(Halt { played, why });
        }
        played += 1;
        rest = after;
    }
    Ok(())
}

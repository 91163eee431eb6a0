//! A table that is read again, or a tenant that is frozen or thawed, while connections stay open.
ghost use Rattle.std.specs.Prelude.{◌≡◌, ◌⊎◌, ℕ, List, [], Option, Some, IsTrue, true, false, is_some, MatchBool, option_map};
ghost use Rattle.judy_journal.specs.Leaving.{gone_records};
ghost use Rattle.judy_model.specs.Speakers.{Speaker};
ghost use Rattle.judy_protocol.specs.Services.{HasLoggedIn};
ghost use Rattle.judy_many.specs.Books.{Journal, has_room, noted_by};
ghost use Rattle.judy_many.specs.Changes.{AreClosed, AreGone, AreLeft, HasChanged, HasReloaded, HasSaid, SlotGone, is_gone, reply_head};
ghost use Rattle.judy_many.specs.Crowds.{Crowd, HasFailed, Past, at_stage, past_of};
ghost use Rattle.judy_many.specs.Journaling.{AreSettled, AreWritten};
ghost use Rattle.judy_many.specs.Lives.{SlotDid, view_of};
ghost use Rattle.judy_many.specs.Nets.{Act, Acts, DidLog};
ghost use Rattle.judy_many.specs.Questions.{asks_reload, read_stage};
ghost use Rattle.judy_many.specs.Questions.Stage.{Renewed};
ghost use Rattle.judy_many.specs.Rules.{rules_of};
ghost use Rattle.judy_many.specs.Slots.{AreAdmitted, AreKnown, IsAdmittedSlot, IsGoneSlot, IsKnownSlot};
ghost use Rattle.judy_many.specs.Stories.{BeginsWith, Story, acts_in, told_head, turns_in};
ghost use Rattle.judy_many.specs.Stories.Phase.{Sweeps};
ghost use Rattle.judy_many.specs.Watches.{IsClosedOr, nobody};
ghost use Rattle.judy_many.specs.declared.serve.Limits.{Limits};

use crate::client::Client;
use crate::clients::Clients;
use crate::keeping::Keeper;
use crate::limits::TOLD_LIMIT;
use crate::network::{How, Network, Unread};
use crate::orders::is_order;
use crate::shows::Shows;
use crate::warnings::{add, begin};
use arrayvec::ArrayVec;
use std::alloc::Global;

/// What is said of a file that was not read.
fn name_of(unread: Unread) -> &'static [u8] {
    match unread {
        Unread::File => b"the file cannot be read",
        Unread::Irregular => b"the file is no regular file",
        Unread::Long => b"the file is too long",
        Unread::Memory => b"out of memory",
    }
}

/// Puts the table of a text in force, or carries out its order. The tenants that leave with it have a record in
/// the journal. False if nothing was changed. Puts what is said of it into `told`.
fn change_noted<S: Shows>(
    alloc: Global,
    service: &mut S,
    keeper: &mut Keeper,
    text: &[u8],
    told: &mut Vec<u8>,
) -> bool
    requires room { IsTrue (has_room keeper.old) }
    ensures changed { MatchBool result (S.changed service.old text.now service.new) (service.new ≡ service.old) }
    ensures noted { result ≡ true
        → keeper.new ≡ noted_by (gone_records (S.leavers service.old text.now)) keeper.old }
    ensures same { result ≡ false → keeper.new ≡ keeper.old }
{
    let mut request = ArrayVec::new();
    match service.find_leavers(alloc, text, &mut request) {
        Ok(None) => service.change(alloc, text, told),
        Ok(Some(first)) => {
            if !service.change(alloc, text, told) {
                return false;
            }
            keeper.note(first.as_bytes(), request.as_slice());
            true
        }
        Err(_) => {
            let _said = told.extend_from_slice(name_of(Unread::Memory));
            false
        }
    }
}

/// The same, with a journal if there is one.
fn change_to<S: Shows>(
    alloc: Global,
    service: &mut S,
    keeper: &mut Keeper,
    keep: bool,
    text: &[u8],
    told: &mut Vec<u8>,
) -> bool
    requires room { IsTrue (has_room keeper.old) }
    ensures changed { MatchBool result (S.changed service.old text.now service.new) (service.new ≡ service.old) }
    ensures left { (left : List (List ℕ)) × (keeper.new ≡ noted_by (gone_records left) keeper.old)
        × MatchBool result (AreLeft keep (S.leavers service.old text.now) left) (left ≡ []) }
{
    if keep {
        change_noted(alloc, service, keeper, text, told)
    } else {
        service.change(alloc, text, told)
    }
}

/// Reads the file of the table again, and puts its table in force; or carries out the order that was
/// asked for. False if nothing was changed. Puts what is said of it into `told`.
fn change_table<S: Shows, N: Network>(
    alloc: Global,
    network: &mut N,
    service: &mut S,
    keeper: &mut Keeper,
    keep: bool,
    text: &mut Vec<u8>,
    told: &mut Vec<u8>,
) -> bool
    requires room { IsTrue (has_room keeper.old) }
    ensures { (left : List (List ℕ)) × (keeper.new ≡ noted_by (gone_records left) keeper.old)
        × HasChanged (rules_of S.made S.seen S.noted S.status S.changed S.caps S.leavers) keep result left
        (N.log network.old) (N.log network.new) service.old service.new }
{
    text.clear();
    match network.table(text) {
        Ok(()) => change_to(alloc, service, keeper, keep, text.as_slice(), told),
        Err(unread) => {
            let _said = told.extend_from_slice(name_of(unread));
            false
        }
    }
}

/// Whether the speaker of a client may not go on: its token does not give its right any more.
fn is_gone<S: Shows>(service: &S, speaker: Option<S::Speaker>) -> bool
    ensures token { result ≡ is_gone (S.admits service.now) speaker }
    ensures stays { result ≡ false → HasLoggedIn (S.seen service.now).speakers (option_map S.who speaker) }
    ensures gone { result ≡ true → (who : Speaker) × (option_map S.who speaker ≡ Some who) }
{
    match speaker {
        Some(speaker) => !service.knows(speaker),
        None => false,
    }
}

/// Closes the client in a slot if its speaker may not go on. Returns whether it was closed.
fn close_at<S: Shows, N: Network>(
    network: &mut N,
    service: &S,
    slot: &mut Option<Box<Client<S::Speaker, N::Connection>>>,
) -> bool
    ensures did { (more : Story) × DidLog (N.log network.old) (acts_in more) (N.log network.new)
        × (turns_in more ≡ [])
        × SlotGone (option_map (λ b. view_of S.who N.number b.value) slot.old) more
        × ((limits : Limits) → limits.status ≡ true → SlotDid limits Sweeps
        (option_map (λ b. view_of S.who N.number b.value) slot.old)
        (option_map (λ b. view_of S.who N.number b.value) slot.new) more)
        × IsClosedOr result (option_map (λ b. view_of S.who N.number b.value) slot.old)
        (option_map (λ b. view_of S.who N.number b.value) slot.new) more }
    ensures known { IsKnownSlot (λ b. option_map S.who b.value.session.speaker)
        (S.seen service.now).speakers slot.new }
    ensures admitted { IsAdmittedSlot (λ b. b.value.session.speaker) (S.admits service.now) slot.new }
    ensures only { result ≡ true → IsGoneSlot (λ b. b.value.session.speaker) (S.admits service.now) slot.old }
{
    let Some(mut client) = slot.take() else {
        return false;
    };
    if is_gone(service, client.session.speaker) {
        network.close(&mut client.connection, How::Gone);
        return true;
    }
    *slot = Some(client);
    false
}

/// Closes the clients whose speakers may not go on.
fn close_gone<S: Shows, N: Network>(network: &mut N, service: &S, clients: &mut Clients<S, N>)
    ensures crowd { (limits : Limits) (first : S) (start : Acts) (past : Past) → limits.status ≡ true
        → past.stage ≡ Renewed
        → Crowd (λ b. view_of S.who N.number b.value)
        (rules_of S.made S.seen S.noted S.status S.changed S.caps S.leavers) limits first start Sweeps
        (nobody clients.old.queue) past (N.log network.old)
        clients.old.slots.items clients.old.accepted service.now
        → Crowd (λ b. view_of S.who N.number b.value)
        (rules_of S.made S.seen S.noted S.status S.changed S.caps S.leavers) limits first start Sweeps
        (nobody clients.new.queue) past (N.log network.new)
        clients.new.slots.items clients.new.accepted service.now }
    ensures gone { (gone : List Act) × DidLog (N.log network.old) gone (N.log network.new) × AreGone gone }
    ensures known { AreKnown (λ b. option_map S.who b.value.session.speaker)
        (S.seen service.now).speakers clients.new.slots.items }
    ensures admitted { AreAdmitted (λ b. b.value.session.speaker) (S.admits service.now) clients.new.slots.items }
{
    for at in 0..clients.slots.len() {
        let closed = close_at::<S, N>(network, service, &mut clients.slots[at]);
        clients.note_closed(at, closed);
    }
}

/// The same, if something was changed.
fn close_after<S: Shows, N: Network>(
    changed: bool,
    network: &mut N,
    service: &S,
    clients: &mut Clients<S, N>,
)
    requires known { changed ≡ false → AreKnown (λ b. option_map S.who b.value.session.speaker)
        (S.seen service.now).speakers clients.old.slots.items }
    ensures crowd { (limits : Limits) (first : S) (start : Acts) (past : Past) → limits.status ≡ true
        → past.stage ≡ read_stage changed
        → Crowd (λ b. view_of S.who N.number b.value)
        (rules_of S.made S.seen S.noted S.status S.changed S.caps S.leavers) limits first start Sweeps
        (nobody clients.old.queue) past (N.log network.old)
        clients.old.slots.items clients.old.accepted service.now
        → Crowd (λ b. view_of S.who N.number b.value)
        (rules_of S.made S.seen S.noted S.status S.changed S.caps S.leavers) limits first start Sweeps
        (nobody clients.new.queue) past (N.log network.new)
        clients.new.slots.items clients.new.accepted service.now }
    ensures gone { (gone : List Act) × DidLog (N.log network.old) gone (N.log network.new)
        × AreClosed changed gone }
    ensures known { AreKnown (λ b. option_map S.who b.value.session.speaker)
        (S.seen service.now).speakers clients.new.slots.items }
    ensures admitted { changed ≡ true
        → AreAdmitted (λ b. b.value.session.speaker) (S.admits service.now) clients.new.slots.items }
{
    if !changed {
        return;
    }
    close_gone(network, service, clients);
}

/// What the asker is answered.
fn reply_line(changed: bool, told: &[u8]) -> ArrayVec<u8, TOLD_LIMIT>
    ensures { BeginsWith (reply_head changed) result.items }
{
    if changed {
        let mut line = begin(b"OK");
        add(&mut line, b"\n");
        return line;
    }
    let mut line = begin(b"ERR ");
    add(&mut line, told);
    add(&mut line, b"\n");
    line
}

/// What the operator is told of an order.
fn order_line(changed: bool, told: &[u8]) -> ArrayVec<u8, TOLD_LIMIT>
    ensures { BeginsWith (told_head true changed) result.items }
{
    if changed {
        let mut line = begin(b"tenant ");
        add(&mut line, told);
        return line;
    }
    let mut line = begin(b"no tenant frozen or thawed: ");
    add(&mut line, told);
    line
}

/// What the operator is told of a table.
fn table_line(changed: bool, told: &[u8]) -> ArrayVec<u8, TOLD_LIMIT>
    ensures { BeginsWith (told_head false changed) result.items }
{
    if changed {
        let mut line = begin(b"table read again: ");
        add(&mut line, told);
        return line;
    }
    let mut line = begin(b"table not read again: ");
    add(&mut line, told);
    line
}

/// What the operator is told of an order or of a table.
fn told_line(order: bool, changed: bool, told: &[u8]) -> ArrayVec<u8, TOLD_LIMIT>
    ensures { BeginsWith (told_head order changed) result.items }
{
    if order {
        order_line(changed, told)
    } else {
        table_line(changed, told)
    }
}

/// Keeps the record of the tenants that left, if something was changed. False if the journal fails.
fn settle_after<N: Network>(changed: bool, network: &mut N, keeper: &mut Keeper) -> bool
    requires settled { changed ≡ false → AreSettled keeper.old }
    ensures written { AreWritten result keeper.old keeper.new (N.log network.old) (N.log network.new) }
    ensures settled { result ≡ true → AreSettled keeper.new }
    ensures failed { result ≡ false → changed ≡ true }
{
    if !changed {
        return true;
    }
    keeper.settle(network)
}

/// Says to the asker and to the operator what was done.
fn say<N: Network>(network: &mut N, changed: bool, order: bool, told: &[u8])
    ensures { HasSaid changed (N.log network.old) (N.log network.new) }
{
    network.reply(reply_line(changed, told).as_slice());
    network.warn(told_line(order, changed, told).as_slice());
}

/// Reads the table again or carries out an order, closes the clients whose speakers may not go on, keeps the
/// record of the tenants that left, and says so. False if the journal fails: then nothing is said.
pub fn reload<S: Shows, N: Network>(
    alloc: Global,
    network: &mut N,
    service: &mut S,
    clients: &mut Clients<S, N>,
    keeper: &mut Keeper,
    keep: bool,
    text: &mut Vec<u8>,
) -> bool
    requires known { AreKnown (λ b. option_map S.who b.value.session.speaker)
        (S.seen service.old).speakers clients.old.slots.items }
    requires settled { AreSettled keeper.old }
    ensures crowd { (limits : Limits) (first : S) (start : Acts) (waits : ℕ) (began : Option Journal)
        → limits.status ≡ true → keep ≡ is_some limits.journal → result ≡ true
        → Crowd (λ b. view_of S.who N.number b.value)
        (rules_of S.made S.seen S.noted S.status S.changed S.caps S.leavers) limits first start Sweeps
        (nobody clients.old.queue) (at_stage asks_reload (past_of waits began keeper.old)) (N.log network.old)
        clients.old.slots.items clients.old.accepted service.old
        → Crowd (λ b. view_of S.who N.number b.value)
        (rules_of S.made S.seen S.noted S.status S.changed S.caps S.leavers) limits first start Sweeps
        (nobody clients.new.queue) (past_of waits began keeper.new) (N.log network.new)
        clients.new.slots.items clients.new.accepted service.new }
    ensures failed { (limits : Limits) (first : S) (start : Acts) (waits : ℕ) (began : Option Journal)
        → limits.status ≡ true → keep ≡ is_some limits.journal → result ≡ false
        → Crowd (λ b. view_of S.who N.number b.value)
        (rules_of S.made S.seen S.noted S.status S.changed S.caps S.leavers) limits first start Sweeps
        (nobody clients.old.queue) (at_stage asks_reload (past_of waits began keeper.old)) (N.log network.old)
        clients.old.slots.items clients.old.accepted service.old
        → HasFailed (λ b. view_of S.who N.number b.value)
        (rules_of S.made S.seen S.noted S.status S.changed S.caps S.leavers) limits first start began
        (N.log network.new) clients.new.slots.items clients.new.accepted service.new }
    ensures reloaded { HasReloaded (rules_of S.made S.seen S.noted S.status S.changed S.caps S.leavers) keep result
        (N.log network.old) (N.log network.new) service.old service.new keeper.old keeper.new }
    ensures known { AreKnown (λ b. option_map S.who b.value.session.speaker)
        (S.seen service.new).speakers clients.new.slots.items }
    ensures admitted { (service.new ≡ service.old)
        ⊎ AreAdmitted (λ b. b.value.session.speaker) (S.admits service.new) clients.new.slots.items }
{
    let mut told = Vec::new(alloc);
    let changed = change_table(alloc, network, service, keeper, keep, text, &mut told);
    close_after(changed, network, &*service, clients);
    if !settle_after(changed, network, keeper) {
        return false;
    }
    let order = is_order(text.as_slice());
    say(network, changed, order, told.as_slice());
    true
}

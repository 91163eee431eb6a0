//! Connections that the operator closes, by the tenant that speaks on them.
ghost use Rattle.std.specs.Prelude.{◌≡◌, ◌++◌, ◌<◌, ℕ, codes, decimal, true, false, if◌then◌else◌, length, map, option_map, ◌∷◌, [], List, Bool};
ghost use Rattle.judy_model.specs.Speakers.{Speaker};
ghost use Rattle.judy_protocol.specs.Services.{HasLoggedIn};
ghost use Rattle.judy_many.specs.Crowds.{Crowd, Past, at_stage};
ghost use Rattle.judy_many.specs.Kicks.{HasKicked, after_kick, kick_act, kick_acts, kick_reply, speaks_as};
ghost use Rattle.judy_many.specs.Journaling.{AreSettled};
ghost use Rattle.judy_many.specs.Lives.{SlotDid, view_of};
ghost use Rattle.judy_many.specs.Nets.{Acts, DidLog};
ghost use Rattle.judy_many.specs.Questions.{asks_kick};
ghost use Rattle.judy_many.specs.Questions.Stage.{Unasked};
ghost use Rattle.judy_many.specs.Rules.{rules_of};
ghost use Rattle.judy_many.specs.Slots.{AreKnown, IsKnownSlot};
ghost use Rattle.judy_many.specs.Stories.{Story, acts_in, turns_in};
ghost use Rattle.judy_many.specs.Stories.Phase.{Sweeps};
ghost use Rattle.judy_many.specs.Watches.{IsClosedOr, nobody};
ghost use Rattle.judy_many.specs.declared.serve.Limits.{Limits};

use crate::client::Client;
use crate::clients::Clients;
use crate::limits::KICKED_LIMIT;
use crate::network::{How, Network};
use crate::shows::Shows;
use arrayvec::ArrayVec;
use itoa::Buffer;

/// Whether the tenant of this name speaks.
fn speaks_as<S: Shows>(service: &S, speaker: Option<S::Speaker>, name: &[u8]) -> bool
    requires known { HasLoggedIn (S.seen service.now).speakers (option_map S.who speaker) }
    ensures { result ≡ speaks_as (S.seen service.now).names name.now (option_map S.who speaker) }
{
    match speaker {
        Some(speaker) => service.name(speaker) == name,
        None => false,
    }
}

/// Closes the client in a slot if the tenant of this name speaks on it. Returns whether it was closed.
fn close_at<S: Shows, N: Network>(
    network: &mut N,
    service: &S,
    slot: &mut Option<Box<Client<S::Speaker, N::Connection>>>,
    name: &[u8],
) -> bool
    requires known { IsKnownSlot (λ b. option_map S.who b.value.session.speaker)
        (S.seen service.now).speakers slot.old }
    ensures did { (more : Story) × DidLog (N.log network.old) (acts_in more) (N.log network.new)
        × (turns_in more ≡ [])
        × (acts_in more ≡ kick_act (speaks_as (S.seen service.now).names name.now)
        (option_map (λ b. view_of S.who N.number b.value) slot.old))
        × ((limits : Limits) → limits.status ≡ true → SlotDid limits Sweeps
        (option_map (λ b. view_of S.who N.number b.value) slot.old)
        (option_map (λ b. view_of S.who N.number b.value) slot.new) more)
        × IsClosedOr result (option_map (λ b. view_of S.who N.number b.value) slot.old)
        (option_map (λ b. view_of S.who N.number b.value) slot.new) more }
    ensures slot { option_map (λ b. view_of S.who N.number b.value) slot.new
        ≡ after_kick (speaks_as (S.seen service.now).names name.now)
        (option_map (λ b. view_of S.who N.number b.value) slot.old) }
    ensures closed { (if result then 1 else 0)
        ≡ length (kick_act (speaks_as (S.seen service.now).names name.now)
        (option_map (λ b. view_of S.who N.number b.value) slot.old)) }
    ensures known { (speakers : Speaker → Bool)
        → IsKnownSlot (λ b. option_map S.who b.value.session.speaker) speakers slot.old
        → IsKnownSlot (λ b. option_map S.who b.value.session.speaker) speakers slot.new }
{
    let Some(mut client) = slot.take() else {
        return false;
    };
    if speaks_as(service, client.session.speaker, name) {
        network.close(&mut client.connection, How::Kicked);
        return true;
    }
    *slot = Some(client);
    false
}

/// 1 if it is so, else 0.
fn one_if(so: bool) -> u64
    ensures { result ≡ (if so then 1 else 0) }
{
    if so { 1 } else { 0 }
}

/// Closes the clients on which the tenant of this name speaks. Returns how many were closed.
fn close_all<S: Shows, N: Network>(
    network: &mut N,
    service: &S,
    clients: &mut Clients<S, N>,
    name: &[u8],
) -> u64
    requires known { AreKnown (λ b. option_map S.who b.value.session.speaker)
        (S.seen service.now).speakers clients.old.slots.items }
    ensures crowd { (limits : Limits) (first now : S) (start : Acts) (past : Past) → limits.status ≡ true
        → Crowd (λ b. view_of S.who N.number b.value)
        (rules_of S.made S.seen S.noted S.status S.changed S.caps S.leavers) limits first start Sweeps
        (nobody clients.old.queue) past (N.log network.old) clients.old.slots.items clients.old.accepted now
        → Crowd (λ b. view_of S.who N.number b.value)
        (rules_of S.made S.seen S.noted S.status S.changed S.caps S.leavers) limits first start Sweeps
        (nobody clients.new.queue) past (N.log network.new) clients.new.slots.items clients.new.accepted now }
    ensures slots { map (option_map (λ b. view_of S.who N.number b.value)) clients.new.slots.items
        ≡ map (after_kick (speaks_as (S.seen service.now).names name.now))
        (map (option_map (λ b. view_of S.who N.number b.value)) clients.old.slots.items) }
    ensures closed { DidLog (N.log network.old) (kick_acts (speaks_as (S.seen service.now).names name.now)
        (map (option_map (λ b. view_of S.who N.number b.value)) clients.old.slots.items)) (N.log network.new) }
    ensures count { result ≡ length (kick_acts (speaks_as (S.seen service.now).names name.now)
        (map (option_map (λ b. view_of S.who N.number b.value)) clients.old.slots.items)) }
    ensures known { AreKnown (λ b. option_map S.who b.value.session.speaker)
        (S.seen service.now).speakers clients.new.slots.items }
{
    let mut count = 0u64;
    for at in 0..clients.slots.len() {
        let closed = close_at::<S, N>(network, service, &mut clients.slots[at], name);
        clients.note_closed(at, closed);
        count += one_if(closed);
    }
    count
}

/// What the asker is answered.
fn reply_line(has: bool, count: u64) -> ArrayVec<u8, KICKED_LIMIT>
    ensures { result.items ≡ kick_reply has count }
{
    let mut line = ArrayVec::new();
    if !has {
        let _fits = line.try_extend_from_slice(b"ERR TENANT\n");
        return line;
    }
    let mut buffer = Buffer::new();
    let _fits = line.try_extend_from_slice(b"OK ");
    let _fits = line.try_extend_from_slice(buffer.format(count).as_bytes());
    let _fits = line.try_extend_from_slice(b"\n");
    line
}

/// Closes the clients on which the tenant speaks that the last question named, and says how many.
pub fn kick<S: Shows, N: Network>(network: &mut N, service: &S, clients: &mut Clients<S, N>)
    requires known { AreKnown (λ b. option_map S.who b.value.session.speaker)
        (S.seen service.now).speakers clients.old.slots.items }
    ensures crowd { (limits : Limits) (first now : S) (start : Acts) (past : Past) → limits.status ≡ true
        → past.stage ≡ asks_kick → AreSettled past.journal
        → Crowd (λ b. view_of S.who N.number b.value)
        (rules_of S.made S.seen S.noted S.status S.changed S.caps S.leavers) limits first start Sweeps
        (nobody clients.old.queue) past (N.log network.old) clients.old.slots.items clients.old.accepted now
        → Crowd (λ b. view_of S.who N.number b.value)
        (rules_of S.made S.seen S.noted S.status S.changed S.caps S.leavers) limits first start Sweeps
        (nobody clients.new.queue) (at_stage Unasked past) (N.log network.new)
        clients.new.slots.items clients.new.accepted now }
    ensures kicked { HasKicked (S.seen service.now).names
        (map (option_map (λ b. view_of S.who N.number b.value)) clients.old.slots.items)
        (map (option_map (λ b. view_of S.who N.number b.value)) clients.new.slots.items)
        (N.log network.old) (N.log network.new) }
    ensures known { AreKnown (λ b. option_map S.who b.value.session.speaker)
        (S.seen service.now).speakers clients.new.slots.items }
{
    let name = network.named();
    let count = close_all(network, service, clients, name.as_bytes());
    let has = service.has(name.as_bytes());
    network.reply(reply_line(has, count).as_slice());
}

//! Closes clients whose time is over.
ghost use Rattle.std.specs.Prelude.{◌≡◌, ℕ, List, None, true, false, IfSome, option_map, [], ◌∷◌, Bool};
ghost use Rattle.judy_model.specs.Speakers.{Speaker};
ghost use Rattle.judy_many.specs.Crowds.{Crowd, Past};
ghost use Rattle.judy_many.specs.Deciding.{over};
ghost use Rattle.judy_many.specs.Times.{is_past as is_past_lem};
ghost use Rattle.judy_many.specs.Slots.{AreKnown, IsKnownSlot};
ghost use Rattle.judy_many.specs.Lives.{IsReason, SlotDid, is_orderly, view_of};
ghost use Rattle.judy_many.specs.Nets.{Act, Acts, DidLog};
ghost use Rattle.judy_many.specs.Questions.{gone_how, gones_in};
ghost use Rattle.judy_many.specs.Rules.{rules_of};
ghost use Rattle.judy_many.specs.Sessions.{Turn};
ghost use Rattle.judy_many.specs.Stories.{IsAllowed, Story, acts_in, turns_in};
ghost use Rattle.judy_many.specs.Stories.Phase.{Sweeps};
ghost use Rattle.judy_many.specs.Watches.{IsClosedOr, nobody};

use crate::client::Client;
use crate::clients::Clients;
use crate::network::{How, Network};
use crate::serve::Limits;
use crate::shows::Shows;
use crate::times::is_past;
use judy_protocol::Served;

/// Whether a connection has lasted too long for one on which nobody is logged in.
fn is_late<S: Served>(
    limits: Limits,
    speaker: Option<S::Speaker>,
    came: u64,
    now: Option<u64>,
) -> bool
    ensures silent { result ≡ true → option_map S.who speaker ≡ None }
    ensures time { option_map S.who speaker ≡ None → result ≡ is_past_lem limits.login came now }
    ensures allowed { result ≡ true → IsAllowed limits How.Login }
{
    match speaker {
        Some(_) => false,
        None => is_past(limits.login, came, now),
    }
}

/// Whether the time of a client is over, and why.
fn overdue(limits: Limits, since: u64, came: u64, now: Option<u64>) -> Option<How>
    ensures time { result ≡ over limits since came now }
    ensures disorderly { IfSome result (λ how. is_orderly how ≡ false) }
    ensures reason { IfSome result (λ how. (acts : List Act) (turns : List Turn) → IsReason how acts turns) }
    ensures allowed { IfSome result (λ how. IsAllowed limits how) }
    ensures stay { IfSome result (λ how. gone_how how ≡ 0) }
{
    if is_past(limits.idle, since, now) {
        return Some(How::Idle);
    }
    if is_past(limits.turn, came, now) {
        return Some(How::Over);
    }
    None
}

/// Closes the client in a slot if its time is over. Returns whether it was closed.
fn sweep_at<S: Served, N: Network>(
    network: &mut N,
    slot: &mut Option<Box<Client<S::Speaker, N::Connection>>>,
    limits: Limits,
    now: Option<u64>,
) -> bool
    ensures did { (more : Story) × DidLog (N.log network.old) (acts_in more) (N.log network.new)
        × (turns_in more ≡ []) × (gones_in (acts_in more) ≡ 0)
        × SlotDid limits Sweeps
        (option_map (λ b. view_of S.who N.number b.value) slot.old)
        (option_map (λ b. view_of S.who N.number b.value) slot.new) more
        × IsClosedOr result (option_map (λ b. view_of S.who N.number b.value) slot.old)
        (option_map (λ b. view_of S.who N.number b.value) slot.new) more }
    ensures known { (speakers : Speaker → Bool)
        → IsKnownSlot (λ b. option_map S.who b.value.session.speaker) speakers slot.old
        → IsKnownSlot (λ b. option_map S.who b.value.session.speaker) speakers slot.new }
{
    let Some(mut client) = slot.take() else {
        return false;
    };
    if is_late::<S>(limits, client.session.speaker, client.came, now) {
        network.close(&mut client.connection, How::Login);
        return true;
    }
    if let Some(how) = overdue(limits, client.since, client.came, now) {
        network.close(&mut client.connection, how);
        return true;
    }
    *slot = Some(client);
    false
}

/// Closes the clients whose time is over, if this was not done in this second.
pub fn sweep<S: Shows, N: Network>(
    network: &mut N,
    clients: &mut Clients<S, N>,
    limits: Limits,
    now: Option<u64>,
)
    ensures crowd { (first now : S) (start : Acts) (past : Past)
        → Crowd (λ b. view_of S.who N.number b.value)
        (rules_of S.made S.seen S.noted S.status S.changed S.caps S.leavers) limits first start Sweeps
        (nobody clients.old.queue) past (N.log network.old) clients.old.slots.items clients.old.accepted now
        → Crowd (λ b. view_of S.who N.number b.value)
        (rules_of S.made S.seen S.noted S.status S.changed S.caps S.leavers) limits first start Sweeps
        (nobody clients.new.queue) past (N.log network.new) clients.new.slots.items clients.new.accepted now }
    ensures known { (speakers : Speaker → Bool)
        → AreKnown (λ b. option_map S.who b.value.session.speaker) speakers clients.old.slots.items
        → AreKnown (λ b. option_map S.who b.value.session.speaker) speakers clients.new.slots.items }
{
    if now.is_some() && clients.swept == now {
        return;
    }
    clients.swept = now;
    for at in 0..clients.slots.len() {
        let closed = sweep_at::<S, N>(network, &mut clients.slots[at], limits, now);
        clients.note_closed(at, closed);
    }
}

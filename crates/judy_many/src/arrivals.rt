//! Accepts connections into free slots.
ghost use Rattle.std.specs.Prelude.{◌≡◌, ◌<◌, ◌++◌, ℕ, true, None, option_map, if◌then◌else◌, List, Bool};
ghost use Rattle.judy_model.specs.Speakers.{Speaker};
ghost use Rattle.judy_many.specs.Came.{has_come};
ghost use Rattle.judy_many.specs.Crowds.{Crowd, Past};
ghost use Rattle.judy_many.specs.Deciding.{listening_after as listening_after_lem};
ghost use Rattle.judy_many.specs.Endings.{lost_at, lost_unless};
ghost use Rattle.judy_many.specs.Queues.{StayAwake, awake_in};
ghost use Rattle.judy_many.specs.Slots.{AreKnown, IsKnownSlot};
ghost use Rattle.judy_many.specs.Lives.{view_of};
ghost use Rattle.judy_many.specs.Nets.{Acts, DidLog};
ghost use Rattle.judy_many.specs.Arrivals.{Arrives};
ghost use Rattle.judy_many.specs.Rules.{rules_of};
ghost use Rattle.judy_many.specs.Stories.{Story, acts_in};
ghost use Rattle.judy_many.specs.Stories.Phase.{Reads};
ghost use Rattle.judy_many.specs.Watches.{nobody};

use crate::client::Client;
use crate::clients::{Clients, Listening};
use crate::limits::ACCEPTS_LIMIT;
use crate::network::{Accept, How, Network};
use crate::queue::Queue;
use crate::serve::Limits;
use crate::shows::Shows;
use judy_protocol::Served;
use std::alloc::Global;

/// What an accept did.
#[derive(Clone, Copy, Debug, PartialEq, Eq)]
pub enum Arrival {
    /// A client came. It is in the slot, or it was closed, since there was no memory for its buffers.
    Came,
    /// No connection waits.
    Nothing,
    /// One waits, and cannot be accepted now.
    Later,
    /// The listener is broken.
    Fault,
}

/// Whether a client came.
fn has_come(arrival: Arrival) -> bool
    ensures { result ≡ has_come arrival }
{
    match arrival {
        Arrival::Came => true,
        Arrival::Nothing => false,
        Arrival::Later => false,
        Arrival::Fault => false,
    }
}

/// 1 if it is so, else 0.
fn one_if(so: bool) -> u64
    ensures { result ≡ (if so then 1 else 0) }
{
    if so { 1 } else { 0 }
}

/// Whether connections are accepted after this.
fn listening_after(arrival: Arrival, now: u64) -> Listening
    ensures { result ≡ listening_after_lem arrival now }
{
    match arrival {
        Arrival::Came => Listening::Ready,
        Arrival::Nothing => Listening::Quiet,
        Arrival::Later => Listening::Paused(now),
        Arrival::Fault => Listening::Quiet,
    }
}

/// Gives the client of a slot that came a turn in this round: it may have sent bytes already.
fn wake(queue: &mut Queue, at: usize, came: bool)
    ensures stay { StayAwake queue.old queue.new }
    ensures wakes { came ≡ true → at < 1024 → awake_in queue.new at ≡ true }
{
    if came {
        queue.mark_ready(at);
    }
}

/// Accepts a connection for a free slot.
fn accept_at<S: Served, N: Network>(
    alloc: Global,
    network: &mut N,
    id: u64,
    at: usize,
    slot: &mut Option<Box<Client<S::Speaker, N::Connection>>>,
    now: u64,
) -> Arrival
    requires { slot.old ≡ None }
    ensures arrives { (more : Story)
        × DidLog (N.log network.old) (acts_in more ++ lost_at result) (N.log network.new)
        × Arrives id at (has_come result) (option_map (λ b. view_of S.who N.number b.value) slot.new) more }
    ensures known { (speakers : Speaker → Bool)
        → IsKnownSlot (λ b. option_map S.who b.value.session.speaker) speakers slot.old
        → IsKnownSlot (λ b. option_map S.who b.value.session.speaker) speakers slot.new }
{
    match network.accept(id, at) {
        Accept::Came(connection) => {
            match Box::new(
                alloc,
                Client::<S::Speaker, N::Connection>::new(connection, now),
            ) {
                Ok(client) => *slot = Some(client),
                Err(e) => {
                    let mut client = e.value;
                    network.close(&mut client.connection, How::Memory);
                }
            }
            Arrival::Came
        }
        Accept::Nothing => Arrival::Nothing,
        Accept::Later => Arrival::Later,
        Accept::Fault => Arrival::Fault,
    }
}

/// Accepts connections while one waits and a slot is free, a few at most: the others come in the next
/// round. False if the listener is broken, which is then the last answer.
pub fn accept<S: Shows, N: Network>(
    alloc: Global,
    network: &mut N,
    clients: &mut Clients<S, N>,
    limits: Limits,
    now: Option<u64>,
) -> bool
    ensures crowd { (first now : S) (start : Acts) (past : Past)
        → Crowd (λ b. view_of S.who N.number b.value)
        (rules_of S.made S.seen S.noted S.status S.changed S.caps S.leavers) limits first start Reads
        (nobody clients.old.queue) past (N.log network.old) clients.old.slots.items clients.old.accepted now
        → (mid : Acts) × DidLog mid (lost_unless result) (N.log network.new)
        × Crowd (λ b. view_of S.who N.number b.value)
        (rules_of S.made S.seen S.noted S.status S.changed S.caps S.leavers) limits first start Reads
        (nobody clients.new.queue) past mid clients.new.slots.items clients.new.accepted now }
    ensures known { (speakers : Speaker → Bool)
        → AreKnown (λ b. option_map S.who b.value.session.speaker) speakers clients.old.slots.items
        → AreKnown (λ b. option_map S.who b.value.session.speaker) speakers clients.new.slots.items }
{
    if !clients.listening.may_accept(now) {
        return true;
    }
    let second = now.unwrap_or(0);
    for _try in 0..ACCEPTS_LIMIT {
        if limits.connections <= clients.accepted {
            clients.listening = Listening::Quiet;
            return true;
        }
        let Some(at) = clients.free() else {
            clients.listening = Listening::Full;
            return true;
        };
        let id = clients.accepted;
        let arrival = accept_at::<S, N>(alloc, network, id, at, &mut clients.slots[at], second);
        let came = has_come(arrival);
        clients.accepted += one_if(came);
        wake(&mut clients.queue, at, came);
        clients.listening = listening_after(arrival, second);
        match arrival {
            Arrival::Came => {}
            Arrival::Nothing => return true,
            Arrival::Later => return true,
            Arrival::Fault => return false,
        }
    }
    true
}

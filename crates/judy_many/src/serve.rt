//! The loop over all connections.
ghost use Rattle.std.specs.Prelude.{◌≡◌, ◌||◌, ℕ, List, Bool, [], false, true, Option, option_map};
ghost use Rattle.judy_many.specs.Books.{Journal};
ghost use Rattle.judy_many.specs.Crowds.{Crowd, HasFailed, HasServedMany, past_of};
ghost use Rattle.judy_many.specs.Deciding.{asks_for_time as asks_for_time_lem, is_owed as is_owed_lem, wait_of};
ghost use Rattle.judy_many.specs.Endings.{waited_if};
ghost use Rattle.judy_many.specs.Journaling.{AreSettled};
ghost use Rattle.judy_many.specs.Lives.{view_of};
ghost use Rattle.judy_many.specs.Nets.{Acts, DidLog, may_sleep};
ghost use Rattle.judy_many.specs.Present.{speakers_at};
ghost use Rattle.judy_many.specs.Queues.{AreAwake, StayAwake, awake_in};
ghost use Rattle.judy_many.specs.Rules.{rules_of};
ghost use Rattle.judy_many.specs.Slots.{AreKnown};
ghost use Rattle.judy_many.specs.Statuses.{HasAnswered};
ghost use Rattle.judy_many.specs.Stories.Phase.{Reads, Sweeps};
ghost use Rattle.judy_many.specs.Warnings.{are_owed};
ghost use Rattle.judy_many.specs.Watches.{nobody};

use crate::arrivals::accept;
use crate::asking::{Next, answer};
use crate::clients::{Clients, Listening};
use crate::keeping::Keeper;
use crate::kicks::kick;
use crate::network::{Network, Sync};
use crate::reloads::reload;
use crate::rounds::{listen_all, tell_all};
use crate::session::Rooms;
use crate::shows::Shows;
use crate::sweeps::sweep;
use crate::warnings::Warnings;
use judy_journal::Writer;
use judy_model::laws::{
    one_call_is_a_run, runs_go_on, served_runs_go_on, tenants_are_answered_equally,
};
use judy_protocol::Served;
use std::alloc::Global;

/// How many clients and connections are served, and how long one may be idle.
#[derive(Clone, Copy, Debug)]
pub struct Limits {
    /// The most clients at once: 1 to 1,024.
    pub clients: u32,
    /// The most connections on which one tenant may be logged in at once: 1 to 1,024. Without this there
    /// is no limit.
    pub tenant_clients: Option<u32>,
    /// The most clients of one tenant that are heard in a round: 1 to 1,024. Those on whose connections nobody
    /// is logged in count as one tenant.
    pub share: u32,
    /// How many connections are accepted before the server ends.
    pub connections: u64,
    /// How many seconds a connection may last on which nobody is logged in.
    pub login: Option<u32>,
    /// After how many seconds in which it sent no byte and took none a client is closed.
    pub idle: Option<u32>,
    /// How many seconds a connection may last.
    pub turn: Option<u32>,
    /// Whether the operator has a socket: for the status, or for control.
    pub status: bool,
    /// When the journal is synced. Without this there is no journal.
    pub journal: Option<Sync>,
}

/// How the serving of many ended.
#[derive(Clone, Copy, Debug, PartialEq, Eq)]
pub enum Ending {
    /// As many connections as were wanted were served.
    Done,
    /// Out of memory for the table of slots. No connection came.
    Memory,
    /// A stop was asked for on the control socket.
    Stopped,
    /// The journal could not be written or synced. The lines that it lacks are not answered.
    Journal,
    /// The listener, or the wait, failed for good; or 2^64 - 1 rounds have passed.
    Socket,
}

/// Whether the time is asked for.
fn asks_for_time<S: Served, N: Network>(clients: &Clients<S, N>, limits: Limits) -> bool
    ensures { result ≡ asks_for_time_lem limits clients.now.listening }
{
    limits.login.is_some()
        || limits.idle.is_some()
        || limits.turn.is_some()
        || clients.listening.is_paused()
}

/// Whether something is left to do after a second: to tell the operator, or to sync the journal.
fn is_owed<S: Shows>(warnings: &Warnings, service: &S, keeper: &Keeper) -> bool
    ensures { result ≡
        (are_owed warnings.now (S.refused service.now) (S.short service.now) || is_owed_lem keeper.now) }
{
    warnings.are_owed(service) || keeper.is_owed()
}

/// How many milliseconds the loop may wait for something to happen. None if it may wait forever.
fn time_to_wait(busy: bool, asked: bool) -> Option<u32>
    ensures busy { busy ≡ true → may_sleep result ≡ false }
    ensures time { result ≡ wait_of busy asked }
{
    if busy {
        return Some(0);
    }
    if asked {
        return Some(1000);
    }
    None
}

/// Whether the loop goes on at once: a client may have a turn, or a connection may be accepted.
fn is_busy<S: Served, N: Network>(clients: &Clients<S, N>) -> bool
    ensures { result ≡ false → (i : ℕ) → awake_in clients.now.queue i ≡ true → ⊥ }
{
    if clients.queue.len() > 0 {
        return true;
    }
    clients.listening == Listening::Ready
}

/// Waits until something happens, or does not wait if a client may have a turn at once or a connection
/// may be accepted. Where a line is owed to the operator it waits a second at most. False if the system
/// fails.
fn wait<S: Served, N: Network>(
    network: &mut N,
    clients: &mut Clients<S, N>,
    limits: Limits,
    owed: bool,
) -> bool
    ensures slots { clients.new.slots ≡ clients.old.slots }
    ensures count { clients.new.accepted ≡ clients.old.accepted }
    ensures stay { StayAwake clients.old.queue clients.new.queue }
    ensures log { (sleeps : Bool) × (told : List ℕ)
        × (sleeps ≡ true → (i : ℕ) → awake_in clients.old.queue i ≡ true → ⊥)
        × AreAwake told clients.new.queue
        × DidLog (N.log network.old) (waited_if result sleeps told) (N.log network.new) }
{
    let busy = is_busy(&*clients);
    let time = time_to_wait(busy, owed || asks_for_time(&*clients, limits));
    let Some(comes) = network.wait(time, &mut clients.queue) else {
        return false;
    };
    clients.listening = clients.listening.after_wait(comes);
    true
}

/// The second, where it is asked for. None if the clock fails.
fn time<N: Network>(network: &mut N, asked: bool) -> Option<u64>
    ensures { DidLog (N.log network.old) [] (N.log network.new) }
{
    if !asked {
        return Some(0);
    }
    network.seconds()
}

/// Each client that is ready has a turn, and those whose time is over are closed. What they changed is
/// in the journal before they are answered. False if the journal fails: then no client is answered.
fn take_turns<S: Shows, N: Network>(
    alloc: Global,
    network: &mut N,
    service: &mut S,
    rooms: &mut Rooms,
    clients: &mut Clients<S, N>,
    keeper: &mut Keeper,
    limits: Limits,
    now: Option<u64>,
) -> bool
    requires known { AreKnown (λ b. option_map S.who b.value.session.speaker)
        (S.seen service.old).speakers clients.old.slots.items }
    ensures crowd { (first : S) (start : Acts) (waits : ℕ) (began : Option Journal) → result ≡ true
        → Crowd (λ b. view_of S.who N.number b.value)
        (rules_of S.made S.seen S.noted S.status S.changed S.caps S.leavers) limits first start Reads
        (nobody clients.old.queue) (past_of waits began keeper.old)
        (N.log network.old) clients.old.slots.items clients.old.accepted service.old
        → Crowd (λ b. view_of S.who N.number b.value)
        (rules_of S.made S.seen S.noted S.status S.changed S.caps S.leavers) limits first start Sweeps
        (nobody clients.new.queue) (past_of waits began keeper.new)
        (N.log network.new) clients.new.slots.items clients.new.accepted service.new }
    ensures failed { (first : S) (start : Acts) (waits : ℕ) (began : Option Journal) → result ≡ false
        → Crowd (λ b. view_of S.who N.number b.value)
        (rules_of S.made S.seen S.noted S.status S.changed S.caps S.leavers) limits first start Reads
        (nobody clients.old.queue) (past_of waits began keeper.old)
        (N.log network.old) clients.old.slots.items clients.old.accepted service.old
        → HasFailed (λ b. view_of S.who N.number b.value)
        (rules_of S.made S.seen S.noted S.status S.changed S.caps S.leavers) limits first start began
        (N.log network.new) clients.new.slots.items clients.new.accepted service.new }
    ensures settled { result ≡ true → AreSettled keeper.new }
    ensures known { AreKnown (λ b. option_map S.who b.value.session.speaker)
        (S.seen service.new).speakers clients.new.slots.items }
{
    let second = now.unwrap_or(0);
    if !listen_all(
        alloc, network, service, rooms, clients, keeper, limits, second,
    ) {
        return false;
    }
    if !keeper.settle(network) {
        return false;
    }
    tell_all(network, clients, second);
    sweep(network, clients, limits, now);
    clients.queue.end_round();
    true
}

/// What comes of a question of the operator.
#[derive(Clone, Copy, Debug, PartialEq, Eq)]
enum Asked {
    /// The serving goes on.
    GoesOn,
    /// A stop was asked for.
    Stops,
    /// The journal failed, and the question has no answer.
    Fails,
}

/// What comes of a question for another table, if this says whether the journal is well.
fn after_reload(well: bool) -> Asked
    ensures goes { result ≡ Asked.GoesOn → well ≡ true }
    ensures fails { result ≡ Asked.Fails → well ≡ false }
    ensures stops { result ≡ Asked.Stops → ⊥ }
{
    if well { Asked::GoesOn } else { Asked::Fails }
}

/// Answers one question of the operator, and reads the table again, or closes the connections of a tenant,
/// if that is what it asks for.
fn ask<S: Shows, N: Network>(
    alloc: Global,
    network: &mut N,
    service: &mut S,
    clients: &mut Clients<S, N>,
    keeper: &mut Keeper,
    limits: Limits,
    text: &mut Vec<u8>,
) -> Asked
    requires known { AreKnown (λ b. option_map S.who b.value.session.speaker)
        (S.seen service.old).speakers clients.old.slots.items }
    requires settled { AreSettled keeper.old }
    ensures crowd { (first : S) (start : Acts) (waits : ℕ) (began : Option Journal) → result ≡ Asked.GoesOn
        → Crowd (λ b. view_of S.who N.number b.value)
        (rules_of S.made S.seen S.noted S.status S.changed S.caps S.leavers) limits first start Sweeps
        (nobody clients.old.queue) (past_of waits began keeper.old)
        (N.log network.old) clients.old.slots.items clients.old.accepted service.old
        → Crowd (λ b. view_of S.who N.number b.value)
        (rules_of S.made S.seen S.noted S.status S.changed S.caps S.leavers) limits first start Sweeps
        (nobody clients.new.queue) (past_of waits began keeper.new)
        (N.log network.new) clients.new.slots.items clients.new.accepted service.new }
    ensures failed { (first : S) (start : Acts) (waits : ℕ) (began : Option Journal) → result ≡ Asked.Fails
        → Crowd (λ b. view_of S.who N.number b.value)
        (rules_of S.made S.seen S.noted S.status S.changed S.caps S.leavers) limits first start Sweeps
        (nobody clients.old.queue) (past_of waits began keeper.old)
        (N.log network.old) clients.old.slots.items clients.old.accepted service.old
        → HasFailed (λ b. view_of S.who N.number b.value)
        (rules_of S.made S.seen S.noted S.status S.changed S.caps S.leavers) limits first
        start began (N.log network.new) clients.new.slots.items clients.new.accepted service.new }
    ensures stop { result ≡ Asked.Stops
        → HasAnswered limits.status Next.Stop (S.status service.old
        (speakers_at (λ b. view_of S.who N.number b.value) clients.old.slots.items))
        (N.log network.old) (N.log network.new)
        × (service.new ≡ service.old) }
    ensures known { AreKnown (λ b. option_map S.who b.value.session.speaker)
        (S.seen service.new).speakers clients.new.slots.items }
{
    match answer(alloc, network, &*service, &*clients, limits, text) {
        Next::Round => Asked::GoesOn,
        Next::Reload => {
            let keep = limits.journal.is_some();
            after_reload(reload(alloc, network, service, clients, keeper, keep, text))
        }
        Next::Kick => {
            kick(network, &*service, clients);
            Asked::GoesOn
        }
        Next::Stop => Asked::Stops,
    }
}

/// Serves many connections at once, until as many as are wanted have come and were closed, or a stop is
/// asked for.
///
/// In each round every client that is ready has a turn, in the order in which they became so: first
/// all of them read and run their lines, then all write their answers. After that the operator is told
/// what was refused, and one question of the operator is answered. If it asks for that, the table is read
/// again, and the record of the tenants that left with it is kept before the answer.
///
/// With a rule when it is synced, the writer goes on with a journal. Then in each round the records of
/// the lines that may have changed arrays are kept before the answers are written.
pub fn serve_many<S: Shows, N: Network>(
    alloc: Global,
    network: &mut N,
    service: &mut S,
    limits: Limits,
    writer: Option<Box<Writer>>,
) -> Ending
    ensures { HasServedMany (rules_of S.made S.seen S.noted S.status S.changed S.caps S.leavers) limits
        (option_map (λ w. w.value) writer) result
        (N.log network.old) (N.log network.new) service.old service.new }
{
    // Laws: calls one after another are one run, and another service gives the same replies.
    one_call_is_a_run();
    served_runs_go_on();
    runs_go_on();
    tenants_are_answered_equally();
    let Ok(mut clients) = Clients::<S, N>::new(alloc, limits.clients) else {
        return Ending::Memory;
    };
    let mut rooms = Rooms::new();
    let mut text = Vec::new(alloc);
    let mut warnings = Warnings::new();
    let mut keeper = Keeper::new(limits.journal, writer);
    for _round in 0..u64::MAX {
        if clients.accepted >= limits.connections && clients.is_empty() {
            return Ending::Done;
        }
        if !wait(
            network,
            &mut clients,
            limits,
            is_owed(&warnings, &*service, &keeper),
        ) {
            return Ending::Socket;
        }
        let now = time(network, asks_for_time(&clients, limits));
        if !accept(alloc, network, &mut clients, limits, now) {
            return Ending::Socket;
        }
        if !take_turns(
            alloc,
            network,
            service,
            &mut rooms,
            &mut clients,
            &mut keeper,
            limits,
            now,
        ) {
            return Ending::Journal;
        }
        warnings.tell(network, &*service);
        match ask(
            alloc,
            network,
            service,
            &mut clients,
            &mut keeper,
            limits,
            &mut text,
        ) {
            Asked::GoesOn => {}
            Asked::Stops => return Ending::Stopped,
            Asked::Fails => return Ending::Journal,
        }
    }
    Ending::Socket
}

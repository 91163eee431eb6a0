//! A round: each client that is ready has a turn, in two halves.
ghost use Rattle.std.specs.Prelude.{◌≡◌, ◌<◌, ◌+◌, ℕ, Bool, IsTrue, [], is_some, length, true, false, Option, option_map, List, Bool};
ghost use Rattle.judy_model.specs.Speakers.{Speaker};
ghost use Rattle.judy_many.specs.Barred.{IsInquired, SpeaksIn};
ghost use Rattle.judy_many.specs.Books.{Journal, has_room, noted_by};
ghost use Rattle.judy_many.specs.Crowds.{Crowd, HasFailed, Past, past_of};
ghost use Rattle.judy_many.specs.Others.{AreLimited};
ghost use Rattle.judy_many.specs.Present.{speakers_at};
ghost use Rattle.judy_many.specs.Queues.{AreApart, is_more, stands_in};
ghost use Rattle.judy_many.specs.Slots.{AreKnown, IsKnownSlot};
ghost use Rattle.judy_many.specs.Lives.{SlotDid, view_of};
ghost use Rattle.judy_many.specs.Nets.{Acts, DidLog};
ghost use Rattle.judy_many.specs.Rules.{rules_of};
ghost use Rattle.judy_many.specs.Sessions.{AreTurns, records_in};
ghost use Rattle.judy_many.specs.Shares.{SlotCounts};
ghost use Rattle.judy_many.specs.Statuses.{Passes};
ghost use Rattle.judy_many.specs.Stories.{AreSingle, Story, acts_in, turns_in};
ghost use Rattle.judy_many.specs.Stories.Phase.{Reads, Sweeps, Writes};
ghost use Rattle.judy_many.specs.Watches.{SlotListens, SlotTells, everybody, nobody, those_before};

use crate::client::{Client, Fate, listen, tell};
use crate::clients::Clients;
use crate::keeping::Keeper;
use crate::network::Network;
use crate::queue::Left;
use crate::serve::Limits;
use crate::session::Rooms;
use crate::shares::{Shares, may_listen};
use crate::shows::Shows;
use judy_protocol::Served;
use std::alloc::Global;

/// The first half of the turn of the client in a slot, if there is one, while the others are in these
/// slots. Returns whether it was closed.
fn listen_at<S: Shows, N: Network>(
    alloc: Global,
    network: &mut N,
    service: &mut S,
    rooms: &mut Rooms,
    slot: &mut Option<Box<Client<S::Speaker, N::Connection>>>,
    others: &[Option<Box<Client<S::Speaker, N::Connection>>>],
    keeper: &mut Keeper,
    shares: &mut Shares,
    limits: Limits,
    now: u64,
) -> bool
    requires known { IsKnownSlot (λ b. option_map S.who b.value.session.speaker)
        (S.seen service.old).speakers slot.old }
    requires room { IsTrue (has_room keeper.old) }
    ensures did { (more : Story) × DidLog (N.log network.old) (acts_in more) (N.log network.new)
        × AreTurns (rules_of S.made S.seen S.noted S.status S.changed S.caps S.leavers)
        service.old (turns_in more) service.new
        × ((any : Limits) → SlotDid any Reads
        (option_map (λ b. view_of S.who N.number b.value) slot.old)
        (option_map (λ b. view_of S.who N.number b.value) slot.new) more)
        × (keeper.new ≡ noted_by (records_in (turns_in more)) keeper.old)
        × AreLimited limits.tenant_clients (speakers_at (λ b. view_of S.who N.number b.value) others.now)
        (turns_in more)
        × (limits.clients ≡ 1 → AreSingle more)
        × ((past : Story) → IsInquired (is_some limits.journal) past more)
        × ((past : Story) → SpeaksIn past (option_map (λ b. view_of S.who N.number b.value) slot.old)
        → Passes (rules_of S.made S.seen S.noted S.status S.changed S.caps S.leavers) past service.old more service.new)
        × SlotListens limits.share shares.old (option_map (λ b. view_of S.who N.number b.value) slot.old)
        (option_map (λ b. view_of S.who N.number b.value) slot.new) more
        × SlotCounts limits.share shares.old shares.new
        (option_map (λ b. view_of S.who N.number b.value) slot.old) more }
    ensures logins { (S.seen service.new).logins ≡ (S.seen service.old).logins }
    ensures speakers { (S.seen service.new).speakers ≡ (S.seen service.old).speakers }
    ensures known { IsKnownSlot (λ b. option_map S.who b.value.session.speaker)
        (S.seen service.new).speakers slot.new }
{
    let Some(mut client) = slot.take() else {
        return false;
    };
    if !may_listen::<S, N>(&*service, &mut client, shares, limits.share) {
        *slot = Some(client);
        return false;
    }
    if let Some(how) = listen(
        alloc,
        network,
        service,
        rooms,
        &mut client,
        others,
        keeper,
        limits,
        now,
    ) {
        network.close(&mut client.connection, how);
        return true;
    }
    *slot = Some(client);
    false
}

/// The first half of the turn of the client at a place of the queue.
fn listen_to<S: Shows, N: Network>(
    alloc: Global,
    network: &mut N,
    service: &mut S,
    rooms: &mut Rooms,
    clients: &mut Clients<S, N>,
    keeper: &mut Keeper,
    shares: &mut Shares,
    limits: Limits,
    place: usize,
    now: u64,
)
    requires known { AreKnown (λ b. option_map S.who b.value.session.speaker)
        (S.seen service.old).speakers clients.old.slots.items }
    requires within { place < length clients.old.queue.order }
    requires apart { AreApart clients.old.queue.order }
    requires room { IsTrue (has_room keeper.old) }
    ensures crowd { (first : S) (start : Acts) (waits : ℕ) (began : Option Journal)
        → Crowd (λ b. view_of S.who N.number b.value)
        (rules_of S.made S.seen S.noted S.status S.changed S.caps S.leavers) limits first start Reads
        (those_before clients.old.queue place shares.old) (past_of waits began keeper.old)
        (N.log network.old) clients.old.slots.items clients.old.accepted service.old
        → Crowd (λ b. view_of S.who N.number b.value)
        (rules_of S.made S.seen S.noted S.status S.changed S.caps S.leavers) limits first start Reads
        (those_before clients.old.queue (place + 1) shares.new) (past_of waits began keeper.new)
        (N.log network.new) clients.new.slots.items clients.new.accepted service.new }
    ensures queue { clients.new.queue ≡ clients.old.queue }
    ensures logins { (S.seen service.new).logins ≡ (S.seen service.old).logins }
    ensures speakers { (S.seen service.new).speakers ≡ (S.seen service.old).speakers }
    ensures known { AreKnown (λ b. option_map S.who b.value.session.speaker)
        (S.seen service.new).speakers clients.new.slots.items }
{
    let at = clients.queue.slot_at(place);
    if at >= clients.slots.len() {
        return;
    }
    let mut slot = clients.slots[at].take();
    let closed = listen_at(
        alloc,
        network,
        service,
        rooms,
        &mut slot,
        clients.slots.as_slice(),
        keeper,
        shares,
        limits,
        now,
    );
    clients.slots[at] = slot;
    clients.listening = clients.listening.after_close(closed);
}

/// The first half of a round: each client in the queue, in its order, reads at most once and runs its
/// lines. Nothing is written. The records of lines are kept where the next one has no room. False if the
/// journal fails.
pub fn listen_all<S: Shows, N: Network>(
    alloc: Global,
    network: &mut N,
    service: &mut S,
    rooms: &mut Rooms,
    clients: &mut Clients<S, N>,
    keeper: &mut Keeper,
    limits: Limits,
    now: u64,
) -> bool
    requires known { AreKnown (λ b. option_map S.who b.value.session.speaker)
        (S.seen service.old).speakers clients.old.slots.items }
    ensures crowd { (first : S) (start : Acts) (waits : ℕ) (began : Option Journal)
        → result ≡ true → Crowd (λ b. view_of S.who N.number b.value)
        (rules_of S.made S.seen S.noted S.status S.changed S.caps S.leavers) limits first start Reads
        (nobody clients.old.queue) (past_of waits began keeper.old)
        (N.log network.old) clients.old.slots.items clients.old.accepted service.old
        → Crowd (λ b. view_of S.who N.number b.value)
        (rules_of S.made S.seen S.noted S.status S.changed S.caps S.leavers) limits first start Reads
        (everybody clients.new.queue) (past_of waits began keeper.new)
        (N.log network.new) clients.new.slots.items clients.new.accepted service.new }
    ensures failed { (first : S) (start : Acts) (waits : ℕ) (began : Option Journal)
        → result ≡ false → Crowd (λ b. view_of S.who N.number b.value)
        (rules_of S.made S.seen S.noted S.status S.changed S.caps S.leavers) limits first start Reads
        (nobody clients.old.queue) (past_of waits began keeper.old)
        (N.log network.old) clients.old.slots.items clients.old.accepted service.old
        → HasFailed (λ b. view_of S.who N.number b.value)
        (rules_of S.made S.seen S.noted S.status S.changed S.caps S.leavers) limits first start began
        (N.log network.new) clients.new.slots.items clients.new.accepted service.new }
    ensures queue { clients.new.queue ≡ clients.old.queue }
    ensures logins { (S.seen service.new).logins ≡ (S.seen service.old).logins }
    ensures speakers { (S.seen service.new).speakers ≡ (S.seen service.old).speakers }
    ensures known { AreKnown (λ b. option_map S.who b.value.session.speaker)
        (S.seen service.new).speakers clients.new.slots.items }
{
    let mut shares = Shares::new();
    for place in 0..clients.queue.len() {
        if !keeper.make_room(network) {
            return false;
        }
        listen_to(
            alloc,
            network,
            service,
            rooms,
            clients,
            keeper,
            &mut shares,
            limits,
            place,
            now,
        );
    }
    true
}

/// What is left of a slot whose client may have another turn at once, if this says whether it was passed over.
fn goes_on(passed: bool) -> Left
    ensures { is_more result ≡ true }
{
    if passed { Left::Passed } else { Left::More }
}

/// The second half of the turn of the client in a slot, if there is one.
fn tell_at<S: Served, N: Network>(
    network: &mut N,
    slot: &mut Option<Box<Client<S::Speaker, N::Connection>>>,
    now: u64,
) -> Left
    ensures did { (more : Story) × DidLog (N.log network.old) (acts_in more) (N.log network.new)
        × (turns_in more ≡ [])
        × ((limits : Limits) → SlotDid limits Writes
        (option_map (λ b. view_of S.who N.number b.value) slot.old)
        (option_map (λ b. view_of S.who N.number b.value) slot.new) more)
        × SlotTells result (option_map (λ b. view_of S.who N.number b.value) slot.old)
        (option_map (λ b. view_of S.who N.number b.value) slot.new) more }
    ensures known { (speakers : Speaker → Bool)
        → IsKnownSlot (λ b. option_map S.who b.value.session.speaker) speakers slot.old
        → IsKnownSlot (λ b. option_map S.who b.value.session.speaker) speakers slot.new }
{
    let Some(mut client) = slot.take() else {
        return Left::Blocked;
    };
    let left = match tell::<S, N>(network, &mut client, now) {
        Fate::Ready => goes_on(client.passed),
        Fate::Drained => Left::Nothing,
        Fate::Blocked => Left::Blocked,
        Fate::Ends(how) => {
            network.close(&mut client.connection, how);
            return Left::Closed;
        }
    };
    *slot = Some(client);
    left
}

/// The second half of the turn of the client at a place of the queue.
fn tell_to<S: Shows, N: Network>(
    network: &mut N,
    clients: &mut Clients<S, N>,
    place: usize,
    now: u64,
)
    requires within { place < length clients.old.queue.order }
    requires apart { AreApart clients.old.queue.order }
    ensures crowd { (limits : Limits) (first now : S) (start : Acts) (past : Past)
        → Crowd (λ b. view_of S.who N.number b.value)
        (rules_of S.made S.seen S.noted S.status S.changed S.caps S.leavers) limits first start Writes
        (those_before clients.old.queue place []) past
        (N.log network.old) clients.old.slots.items clients.old.accepted now
        → Crowd (λ b. view_of S.who N.number b.value)
        (rules_of S.made S.seen S.noted S.status S.changed S.caps S.leavers) limits first start Writes
        (those_before clients.new.queue (place + 1) []) past
        (N.log network.new) clients.new.slots.items clients.new.accepted now }
    ensures order { clients.new.queue.order ≡ clients.old.queue.order }
    ensures stands { (i : ℕ) → stands_in clients.new.queue i ≡ stands_in clients.old.queue i }
    ensures known { (speakers : Speaker → Bool)
        → AreKnown (λ b. option_map S.who b.value.session.speaker) speakers clients.old.slots.items
        → AreKnown (λ b. option_map S.who b.value.session.speaker) speakers clients.new.slots.items }
{
    let at = clients.queue.slot_at(place);
    if at >= clients.slots.len() {
        clients.queue.settle(at, Left::Closed);
        return;
    }
    let left = tell_at::<S, N>(network, &mut clients.slots[at], now);
    clients.queue.settle(at, left);
    clients.listening = clients.listening.after_close(left == Left::Closed);
}

/// The second half of a round: each client in the queue, in its order, writes once. No line is run.
pub fn tell_all<S: Shows, N: Network>(network: &mut N, clients: &mut Clients<S, N>, now: u64)
    ensures crowd { (limits : Limits) (first now : S) (start : Acts) (past : Past)
        → Crowd (λ b. view_of S.who N.number b.value)
        (rules_of S.made S.seen S.noted S.status S.changed S.caps S.leavers) limits first start Writes
        (nobody clients.old.queue) past (N.log network.old) clients.old.slots.items clients.old.accepted now
        → Crowd (λ b. view_of S.who N.number b.value)
        (rules_of S.made S.seen S.noted S.status S.changed S.caps S.leavers) limits first start Sweeps
        (nobody clients.new.queue) past (N.log network.new) clients.new.slots.items clients.new.accepted now }
    ensures known { (speakers : Speaker → Bool)
        → AreKnown (λ b. option_map S.who b.value.session.speaker) speakers clients.old.slots.items
        → AreKnown (λ b. option_map S.who b.value.session.speaker) speakers clients.new.slots.items }
{
    for place in 0..clients.queue.len() {
        tell_to(network, clients, place, now);
    }
}

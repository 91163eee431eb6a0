//! A client, and the two halves of its turn.
ghost use Rattle.std.specs.Prelude.{◌≡◌, ◌⊎◌, ◌≤◌, ◌++◌, Bool, IsTrue, length, List, [], None, true, false, is_some, not, option_map};
ghost use Rattle.judy_protocol.specs.Services.{HasLoggedIn};
ghost use Rattle.judy_many.specs.Barred.{AreBarred, AreFree, Inquires, IsInquired};
ghost use Rattle.judy_many.specs.Books.{has_room, noted_by};
ghost use Rattle.judy_many.specs.Fates.{FateGoes, HeardGoes};
ghost use Rattle.judy_many.specs.Deciding.{moved};
ghost use Rattle.judy_many.specs.Lives.{IsLive, view_of};
ghost use Rattle.judy_many.specs.Nets.{Act, DidLog};
ghost use Rattle.judy_many.specs.Others.{AreLimited};
ghost use Rattle.judy_many.specs.Present.{speaker_since, speakers_at};
ghost use Rattle.judy_many.specs.Rules.{rules_of};
ghost use Rattle.judy_many.specs.Sessions.{AreTurns, Turn, records_in};
ghost use Rattle.judy_many.specs.Shares.{IsHeardIf};
ghost use Rattle.judy_many.specs.Statuses.{Passes};
ghost use Rattle.judy_many.specs.Stories.{AreSingle, IsPiece, Story, acts_in, has_failed, own, turns_in};
ghost use Rattle.judy_many.specs.Stories.Phase.{Reads, Writes};
ghost use Rattle.judy_many.specs.Watches.{FateTells, HearsAll, Listens};

use crate::barring::takes;
use crate::buffers::{Answers, Input, Sent};
use crate::keeping::Keeper;
use crate::network::{Got, How, Network};
use crate::serve::Limits;
use crate::session::{Rooms, Session};
use crate::shows::Shows;
use judy_protocol::Served;
use std::alloc::Global;

/// A connection with its session and its buffers.
#[derive(Drop)]
pub struct Client<P: Copy, C: Drop> {
    /// The connection.
    pub connection: C,
    /// The speaker, and what has come of the next line.
    pub session: Session<P>,
    /// What came and is not heard yet.
    pub input: Input,
    /// What is not written yet.
    pub answers: Answers,
    /// Whether a line asked to quit. Then nothing more is heard.
    pub quits: bool,
    /// When it last sent a byte or took one, or came.
    pub since: u64,
    /// When the client came.
    pub came: u64,
    /// Whether it was passed over in the last round in which it stood in the queue.
    pub passed: bool,
}

impl<P: Copy, C: Drop> Client<P, C> {
    ghost use Rattle.judy_protocol.specs.Talks.{Holds};

    /// A client that has just come.
    pub fn new(connection: C, now: u64) -> Client<P, C>
        ensures connection { result.connection ≡ connection }
        ensures speaker { result.session.speaker ≡ None }
        ensures held { Holds [] result.session.held }
        ensures waiting { result.input.waiting ≡ [] }
        ensures more { result.input.more ≡ true }
        ensures answers { result.answers ≡ [] }
        ensures quits { result.quits ≡ false }
    {
        Client {
            connection,
            session: Session::new(),
            input: Input::new(),
            answers: Answers::new(),
            quits: false,
            since: now,
            came: now,
            passed: false,
        }
    }
}

/// Whether a client is ready to be heard: no line of it asked to quit, and its answers are written.
pub fn is_ready<P: Copy, C: Drop>(client: &Client<P, C>) -> bool
    ensures unasked { result ≡ true → client.now.quits ≡ false }
    ensures written { result ≡ true → client.now.answers ≡ [] }
    ensures why { result ≡ false → (client.now.answers ≡ [] → ⊥) ⊎ (client.now.quits ≡ true) }
{
    if client.quits {
        return false;
    }
    client.answers.is_empty()
}

/// Runs the lines that have come, as long as there is room for the longest answer and record. At least
/// one is run, if there is room for its record; and no more, where there is one client at most. Before that the
/// system is asked whether the journal takes records of the client's tenant.
fn hear<S: Shows, N: Network>(
    alloc: Global,
    network: &mut N,
    service: &mut S,
    rooms: &mut Rooms,
    client: &mut Client<S::Speaker, N::Connection>,
    others: &[Option<Box<Client<S::Speaker, N::Connection>>>],
    keeper: &mut Keeper,
    limits: Limits,
)
    requires unasked { client.old.quits ≡ false }
    requires empty { client.old.answers ≡ [] }
    requires known { HasLoggedIn (S.seen service.old).speakers
        (option_map S.who client.old.session.speaker) }
    ensures turns { (turns : List Turn) × (takes : Bool)
        × Inquires (S.seen service.old).names (S.caps service.old) (is_some limits.journal)
        (N.number client.old.connection)
        (option_map S.who client.old.session.speaker) takes (N.log network.old) (N.log network.new)
        × (is_some limits.journal ≡ true → AreBarred (not takes) (option_map S.who client.old.session.speaker) turns)
        × (takes ≡ true → AreFree turns)
        × AreTurns (rules_of S.made S.seen S.noted S.status S.changed S.caps S.leavers)
        service.old turns service.new
        × ((acts : List Act) (ran : List Turn)
        → IsLive acts ran (view_of S.who N.number client.old)
        → IsLive acts (ran ++ turns) (view_of S.who N.number client.new))
        × (keeper.new ≡ noted_by (records_in turns) keeper.old)
        × AreLimited limits.tenant_clients (speakers_at (λ b. view_of S.who N.number b.value) others.now) turns
        × (limits.clients ≡ 1 → length turns ≤ 1)
        × HearsAll (IsTrue (has_room keeper.old)) (view_of S.who N.number client.old)
        (view_of S.who N.number client.new) turns }
    ensures same { N.number client.new.connection ≡ N.number client.old.connection }
    ensures logins { (S.seen service.new).logins ≡ (S.seen service.old).logins }
    ensures speakers { (S.seen service.new).speakers ≡ (S.seen service.old).speakers }
    ensures known { HasLoggedIn (S.seen service.new).speakers
        (option_map S.who client.new.session.speaker) }
{
    let keep = limits.journal.is_some();
    client.session.barred = !takes(network, &*service, &*client, keep);
    let ran = client.answers.run::<S, N>(
        alloc,
        &mut client.session,
        service,
        rooms,
        client.input.as_slice(),
        others,
        keeper,
        limits,
    );
    client.input.keep(ran.left);
    client.quits = ran.quit;
}

/// The first half of a client's turn: at most one read, then the lines for whose answers and records
/// there is room. While answers wait to be written nothing is read. The other clients are in these slots.
/// Returns why the client has to be closed, if it is.
pub fn listen<S: Shows, N: Network>(
    alloc: Global,
    network: &mut N,
    service: &mut S,
    rooms: &mut Rooms,
    client: &mut Client<S::Speaker, N::Connection>,
    others: &[Option<Box<Client<S::Speaker, N::Connection>>>],
    keeper: &mut Keeper,
    limits: Limits,
    now: u64,
) -> Option<How>
    requires known { HasLoggedIn (S.seen service.old).speakers
        (option_map S.who client.old.session.speaker) }
    requires room { IsTrue (has_room keeper.old) }
    ensures goes { (more : Story) × DidLog (N.log network.old) (acts_in more) (N.log network.new)
        × IsPiece (N.number client.old.connection) Reads more
        × AreTurns (rules_of S.made S.seen S.noted S.status S.changed S.caps S.leavers)
        service.old (turns_in more) service.new
        × HeardGoes result (view_of S.who N.number client.old)
        (view_of S.who N.number client.new) more
        × (keeper.new ≡ noted_by (records_in (turns_in more)) keeper.old)
        × AreLimited limits.tenant_clients (speakers_at (λ b. view_of S.who N.number b.value) others.now)
        (turns_in more)
        × (limits.clients ≡ 1 → AreSingle more)
        × ((past : Story) → IsInquired (is_some limits.journal) past more)
        × ((past : Story) → speaker_since None (turns_in (own (N.number client.old.connection) past))
        ≡ option_map S.who client.old.session.speaker
        → Passes (rules_of S.made S.seen S.noted S.status S.changed S.caps S.leavers) past service.old more service.new)
        × Listens (view_of S.who N.number client.old) (view_of S.who N.number client.new) more
        × IsHeardIf (view_of S.who N.number client.old) more }
    ensures same { N.number client.new.connection ≡ N.number client.old.connection }
    ensures logins { (S.seen service.new).logins ≡ (S.seen service.old).logins }
    ensures speakers { (S.seen service.new).speakers ≡ (S.seen service.old).speakers }
    ensures known { HasLoggedIn (S.seen service.new).speakers
        (option_map S.who client.new.session.speaker) }
{
    if !is_ready(&*client) {
        return None;
    }
    if !client.input.is_empty() {
        hear(
            alloc, network, service, rooms, client, others, keeper, limits,
        );
        return None;
    }
    match client.input.fill(network, &mut client.connection) {
        Got::Bytes(_) => {
            client.since = now;
            hear(
                alloc, network, service, rooms, client, others, keeper, limits,
            );
            None
        }
        Got::Nothing => None,
        Got::End => Some(How::End),
        Got::Fault => Some(How::Fault),
    }
}

/// What is left of a client after its turn.
#[derive(Clone, Copy, Debug, PartialEq, Eq)]
pub enum Fate {
    /// It may have another turn at once: lines wait, or bytes may.
    Ready,
    /// It has sent nothing more.
    Drained,
    /// It takes no more for now.
    Blocked,
    /// It has to be closed, and why.
    Ends(How),
}

/// Whether a write failed.
fn has_failed(sent: Sent) -> bool
    ensures { result ≡ has_failed sent }
{
    match sent {
        Sent::Some => false,
        Sent::Nothing => false,
        Sent::Fault => true,
    }
}

/// When a client last took a byte or sent one.
fn later(sent: Sent, since: u64, now: u64) -> u64
    ensures { result ≡ moved sent since now }
{
    match sent {
        Sent::Some => now,
        Sent::Nothing => since,
        Sent::Fault => since,
    }
}

/// The second half of a client's turn: writes its answers once, and says how it goes on.
pub fn tell<S: Served, N: Network>(
    network: &mut N,
    client: &mut Client<S::Speaker, N::Connection>,
    now: u64,
) -> Fate
    ensures goes { (more : Story) × DidLog (N.log network.old) (acts_in more) (N.log network.new)
        × IsPiece (N.number client.old.connection) Writes more × (turns_in more ≡ [])
        × FateGoes result (view_of S.who N.number client.old)
        (view_of S.who N.number client.new) more
        × FateTells result (view_of S.who N.number client.old)
        (view_of S.who N.number client.new) more }
    ensures same { N.number client.new.connection ≡ N.number client.old.connection }
    ensures session { client.new.session ≡ client.old.session }
{
    let sent = client.answers.send(network, &mut client.connection);
    if has_failed(sent) {
        return Fate::Ends(How::Fault);
    }
    client.since = later(sent, client.since, now);
    if !client.answers.is_empty() {
        client.input.expect_more();
        return Fate::Blocked;
    }
    if client.quits {
        return Fate::Ends(How::Quit);
    }
    if client.input.is_drained() {
        return Fate::Drained;
    }
    Fate::Ready
}

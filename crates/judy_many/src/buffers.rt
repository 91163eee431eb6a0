//! The buffers of a connection: what it sent and is not heard yet, and what is not written yet.
ghost use Rattle.std.specs.Prelude.{◌≡◌, ◌<◌, ◌≤◌, ◌++◌, ℕ, IsTrue, List, [], is_some, length, true, false, option_map};
ghost use Rattle.judy_protocol.specs.Services.{HasLoggedIn};
ghost use Rattle.judy_many.specs.Nets.{Act, DidLog, gives};
ghost use Rattle.judy_many.specs.Barred.{AreBarred, AreFree};
ghost use Rattle.judy_many.specs.Books.{has_room};
ghost use Rattle.judy_many.specs.Lives.{read_in, view_of, wrote_in};
ghost use Rattle.judy_many.specs.Others.{AreLimited};
ghost use Rattle.judy_many.specs.Present.{speakers_at};
ghost use Rattle.judy_many.specs.Rules.{rules_of};
ghost use Rattle.judy_many.specs.Sessions.{Steps, Turn};
ghost use Rattle.judy_many.specs.Stories.{AreReads, AreWrites, TellsRead, TellsWrite};
ghost use Rattle.judy_many.specs.Watches.{HasLine, LeavesLine, TellsMore};

use crate::client::Client;
use crate::keeping::Keeper;
use crate::network::{Got, Network, Put};
use crate::serve::Limits;
use crate::session::{Ran, Rooms, Session, run_lines};
use crate::shows::Shows;
use arrayvec::ArrayVec;
use judy_protocol::{ANSWERS_LIMIT, PULL_LIMIT};
use std::alloc::Global;
use std::marker::Model;

/// What a connection sent and is not heard yet: at most the bytes of one read. While some wait, and
/// until a read finds that nothing more has come, it knows that more bytes may wait to be read.
#[derive(Drop)]
pub struct Input {
    bytes: [u8; PULL_LIMIT],
    from: usize,
    to: usize,
    /// Whether more bytes may wait to be read.
    more: bool,
}

impl Model for Input {
    ghost use Rattle.std.specs.Prelude.{◌≤◌, drop, length, take};
    ghost use Rattle.judy_many.specs.Intakes.{Intake};

    ghost Value = { Intake };

    ghost view = { λ i. record { waiting = drop i.from (take i.to i.bytes); more = i.more } };

    ghost invariant = { λ i. (i.from ≤ i.to) × (i.to ≤ length i.bytes) };
}

impl Input {
    /// Nothing, and more may wait to be read.
    pub fn new() -> Input
        ensures waiting { result.waiting ≡ [] }
        ensures more { result.more ≡ true }
    {
        Input {
            bytes: [0; PULL_LIMIT],
            from: 0,
            to: 0,
            more: true,
        }
    }

    /// Whether everything is heard.
    pub fn is_empty(&self) -> bool
        ensures none { result ≡ true → self.now.waiting ≡ [] }
        ensures some { result ≡ false → self.now.waiting ≡ [] → ⊥ }
    {
        self.from == self.to
    }

    /// The bytes.
    pub fn as_slice(&self) -> &[u8]
        ensures { result.now ≡ self.now.waiting }
    {
        self.bytes.split_at(self.to).0.split_at(self.from).1
    }

    /// Keeps only this many bytes at the end. If it keeps any, more may wait to be read: bytes that come
    /// while they are heard are unread after that.
    pub fn keep(&mut self, left: usize)
        requires { left ≤ length self.old.waiting }
        ensures waiting { (used rest : List ℕ) → used ++ rest ≡ self.old.waiting → length rest ≡ left
            → self.new.waiting ≡ rest }
        ensures more { 0 < left → self.new.more ≡ true }
        ensures same { self.old.more ≡ true → self.new.more ≡ true }
        ensures none { left ≡ 0 → self.new.more ≡ self.old.more }
    {
        self.from = self.to - left;
        self.more = self.more || left > 0;
    }

    /// Whether everything is heard, and the last read found all that had come.
    pub fn is_drained(&self) -> bool
        ensures waiting { result ≡ true → self.now.waiting ≡ [] }
        ensures more { result ≡ true → self.now.more ≡ false }
    {
        self.from == self.to && !self.more
    }

    /// More bytes may wait to be read.
    pub fn expect_more(&mut self)
        ensures waiting { self.new.waiting ≡ self.old.waiting }
        ensures more { self.new.more ≡ true }
    {
        self.more = true;
    }

    /// Reads once, if everything is heard.
    pub fn fill<N: Network>(&mut self, network: &mut N, connection: &mut N::Connection) -> Got
        requires empty { self.old.waiting ≡ [] }
        ensures acts { (acts : List Act) × DidLog (N.log network.old) acts (N.log network.new)
            × AreReads (N.number connection.old) acts × (length acts ≤ 1) × (read_in acts ≡ self.new.waiting)
            × (wrote_in acts ≡ []) × TellsRead result acts × TellsMore acts self.new.more }
        ensures none { gives result ≡ false → self.new.waiting ≡ [] }
        ensures same { N.number connection.new ≡ N.number connection.old }
    {
        let got = network.read(connection, &mut self.bytes);
        self.from = 0;
        self.to = 0;
        self.more = false;
        if let Got::Bytes(n) = got {
            self.to = n;
            self.more = n == PULL_LIMIT;
        }
        got
    }
}

/// How a write of answers went.
#[derive(Clone, Copy, Debug, PartialEq, Eq)]
pub enum Sent {
    /// The connection took bytes.
    Some,
    /// It took none, or there was nothing to write.
    Nothing,
    /// The write failed.
    Fault,
}

/// Answers that are not written yet.
#[derive(Drop)]
pub struct Answers {
    bytes: ArrayVec<u8, ANSWERS_LIMIT>,
    written: usize,
}

impl Model for Answers {
    ghost use Rattle.std.specs.Prelude.{◌≤◌, ℕ, List, drop, length};

    ghost Value = { List ℕ };

    ghost view = { λ a. drop a.written a.bytes.items };

    ghost invariant = { λ a. a.written ≤ length a.bytes.items };
}

impl Answers {
    /// Nothing.
    pub fn new() -> Answers
        ensures { result ≡ [] }
    {
        Answers {
            bytes: ArrayVec::new(),
            written: 0,
        }
    }

    /// Whether everything is written.
    pub fn is_empty(&self) -> bool
        ensures none { result ≡ true → self.now ≡ [] }
        ensures some { result ≡ false → self.now ≡ [] → ⊥ }
    {
        self.bytes.len() == self.written
    }

    /// Runs the lines that the bytes complete, as `run_lines` does, if everything is written.
    pub fn run<S: Shows, N: Network>(
        &mut self,
        alloc: Global,
        session: &mut Session<S::Speaker>,
        service: &mut S,
        rooms: &mut Rooms,
        bytes: &[u8],
        others: &[Option<Box<Client<S::Speaker, N::Connection>>>],
        keeper: &mut Keeper,
        limits: Limits,
    ) -> Ran
        requires empty { self.old ≡ [] }
        requires known { HasLoggedIn (S.seen service.old).speakers
            (option_map S.who session.old.speaker) }
        ensures steps { (used : List ℕ) × (rest : List ℕ) × (turns : List Turn)
            × (used ++ rest ≡ bytes.now) × (length rest ≡ result.left)
            × LeavesLine result.quit rest × ((HasLine bytes.now × IsTrue (has_room keeper.old)) → 0 < length turns)
            × AreLimited limits.tenant_clients (speakers_at (λ b. view_of S.who N.number b.value) others.now) turns
            × (is_some limits.journal ≡ true → AreBarred session.old.barred
            (option_map S.who session.old.speaker) turns)
            × (session.old.barred ≡ false → AreFree turns)
            × (limits.clients ≡ 1 → length turns ≤ 1)
            × Steps (rules_of S.made S.seen S.noted S.status S.changed S.caps S.leavers) used turns result.quit
            session.old.held session.new.held
            (option_map S.who session.old.speaker) (option_map S.who session.new.speaker)
            service.old service.new [] self.new keeper.old keeper.new }
        ensures left { result.left ≤ length bytes.now }
        ensures logins { (S.seen service.new).logins ≡ (S.seen service.old).logins }
        ensures speakers { (S.seen service.new).speakers ≡ (S.seen service.old).speakers }
        ensures known { HasLoggedIn (S.seen service.new).speakers
            (option_map S.who session.new.speaker) }
    {
        self.bytes.clear();
        self.written = 0;
        run_lines::<S, N>(
            alloc,
            session,
            service,
            rooms,
            bytes,
            others,
            &mut self.bytes,
            keeper,
            limits,
        )
    }

    /// Writes once, if something is left to write.
    pub fn send<N: Network>(&mut self, network: &mut N, connection: &mut N::Connection) -> Sent
        ensures acts { (acts : List Act) × DidLog (N.log network.old) acts (N.log network.new)
            × AreWrites (N.number connection.old) acts × (length acts ≤ 1)
            × (wrote_in acts ++ self.new ≡ self.old) × (read_in acts ≡ []) × TellsWrite result acts
            × ((self.old ≡ [] → ⊥) → 0 < length acts) }
        ensures same { N.number connection.new ≡ N.number connection.old }
    {
        let rest = self.bytes.as_slice().split_at(self.written).1;
        if rest.is_empty() {
            return Sent::Nothing;
        }
        match network.write(connection, rest) {
            Put::Took(0) => Sent::Nothing,
            Put::Took(n) => {
                self.written += n;
                Sent::Some
            }
            Put::Fault => Sent::Fault,
        }
    }
}

//! A network in memory whose readiness is that of epoll, edge-triggered, as mio asks for it.
//!
//! Something that happens at a connection is told of once: bytes come, room to write comes back after a
//! write that found too little, the client ends or leaves. `wait` looks at the connections at which
//! something happened since it told of them, in that order, and tells of those that are still so.
//! Nothing is told of bytes that a read left there. The clients do something before each call.
ghost use Rattle.std.specs.Prelude.{◌≤◌, None, length};
ghost use Rattle.judy_many.specs.Queues.{StayAwake};

use crate::draw::Draw;
use crate::peer::{Parting, Peer, Place, Seen, Wrong};
use crate::tenants::{PEERS_LIMIT, write_table};
use judy_many::{Accept, Got, How, Network, Put, Question, Queue, Unread};
use judy_model::Name;

/// A segment of the journal is full with this number of bytes.
pub const SEGMENT_LIMIT: u64 = 67_108_864;

/// After this many waits the schedule has no end.
const WAITS_LIMIT: u32 = 20_000;

/// The most things that clients do in one wait.
const ACTS_LIMIT: u32 = 100_000;

/// How many waits with a time pass in vain before the server is asleep.
const PATIENCE: u32 = 4;

/// What happens beside the clients, and how often.
#[derive(Clone, Copy)]
pub struct Chances {
    /// How often the clients do something before a call, of 16.
    pub acts: usize,
    /// How many things they do then, at most.
    pub burst: usize,
    /// How often a wait is interrupted, of 1,000.
    pub interrupts: usize,
    /// How often an accept fails for now, of 16.
    pub later: usize,
    /// How often the status is asked for, of 1,000.
    pub statuses: usize,
    /// How often the table is read again, of 1,000.
    pub reloads: usize,
    /// How often a stop is asked for, of 1,000.
    pub stops: usize,
    /// How often a tenant is not in the table, of 16.
    pub absences: usize,
    /// Which call for the journal fails.
    pub fails_at: usize,
}

/// A connection, by the place of its client.
#[derive(Drop)]
pub struct Seat {
    id: u64,
    at: usize,
}

/// The network.
#[derive(Drop)]
pub struct Machine {
    /// The clients.
    pub peers: Vec<Peer>,
    /// What else happens.
    pub chances: Chances,
    draw: Draw,
    tickets: u64,
    comes: bool,
    clock: u64,
    waits: u32,
    vain: u32,
    journaled: usize,
    /// Whether a tenant's share is as many as there may be clients, so that none of them is passed over.
    pub even: bool,
    /// Whether the server was asleep when nothing could happen any more.
    pub asleep: bool,
    /// Whether there was no end.
    pub endless: bool,
    /// Whether a stop was asked for.
    pub stopped: bool,
    /// Whether the journal failed.
    pub failed: bool,
    /// Whether something was written, or the operator was answered, after the journal failed.
    pub bold: bool,
}

/// Marks a slot by what was seen of its client.
fn mark(queue: &mut Queue, slot: usize, seen: Seen)
    ensures { StayAwake queue.old queue.new }
{
    if seen == Seen::Ended {
        queue.mark_ended(slot);
    } else {
        queue.mark_ready(slot);
    }
}

impl Machine {
    /// The network of these clients, none of whom has come.
    pub fn new(peers: Vec<Peer>, chances: Chances, draw: Draw) -> Machine {
        Machine {
            peers,
            chances,
            draw,
            tickets: 0,
            comes: false,
            clock: 0,
            waits: 0,
            vain: 0,
            journaled: 0,
            even: true,
            asleep: false,
            endless: false,
            stopped: false,
            failed: false,
            bold: false,
        }
    }

    /// A client does one thing. False if there is nothing that it can do.
    fn act(&mut self, at: usize, must: bool) -> bool {
        let Some(peer) = self.peers.get_mut(at) else {
            return false;
        };
        if peer.place == Place::Away {
            peer.place = Place::Waiting;
            self.tickets = self.tickets.saturating_add(1);
            peer.ticket = self.tickets;
            self.comes = true;
            return true;
        }
        peer.act(&mut self.draw, &mut self.tickets, must)
    }

    /// Clients that are drawn do something, or nothing.
    fn stir(&mut self) {
        if !self.draw.happens(self.chances.acts, 16) {
            return;
        }
        for _act in 0..self.draw.below(self.chances.burst) {
            let at = self.draw.below(self.peers.len());
            let _did = self.act(at, false);
        }
    }

    /// One who stays leaves, if it has all its answers and another waits. False if nobody does.
    fn make_place(&mut self) -> bool {
        if self.first_waiting().is_none() {
            return false;
        }
        for peer in self.peers.iter_mut() {
            let stays = peer.habits.parting == Parting::Stays && !peer.left;
            if stays && peer.place == Place::Served && peer.has_all() {
                peer.leave(&mut self.tickets);
                return true;
            }
        }
        false
    }

    /// The first client, from the first place on, that can do something does it. False if nobody can.
    fn must_act(&mut self) -> bool {
        for at in 0..self.peers.len() {
            if self.act(at, true) {
                return true;
            }
        }
        self.make_place()
    }

    /// Some client does something. False if nobody can.
    fn act_somehow(&mut self) -> bool {
        for _try in 0..8u32 {
            let at = self.draw.below(self.peers.len());
            if self.act(at, false) {
                return true;
            }
        }
        self.must_act()
    }

    /// The client that has waited longest to be accepted.
    fn first_waiting(&self) -> Option<usize> {
        let mut first = None;
        let mut least = u64::MAX;
        for (at, peer) in self.peers.iter().enumerate() {
            if peer.place == Place::Waiting && peer.ticket < least {
                least = peer.ticket;
                first = Some(at);
            }
        }
        first
    }

    /// The client of which the next wait tells first, if it is still so.
    fn first_ready(&self) -> Option<usize> {
        let mut first = None;
        let mut least = u64::MAX;
        for (at, peer) in self.peers.iter().enumerate() {
            let ready = peer.place == Place::Served && peer.seen() != Seen::Nothing;
            if ready && peer.ticket > 0 && peer.ticket < least {
                least = peer.ticket;
                first = Some(at);
            }
        }
        first
    }

    /// Whether there is something to tell.
    fn is_woken(&self) -> bool {
        self.first_ready().is_some() || self.is_called()
    }

    /// Whether the listener has something to tell.
    fn is_called(&self) -> bool {
        self.comes && self.first_waiting().is_some()
    }

    /// The clients go on until there is something to tell. If nobody can go on time passes. False if the
    /// server is asleep.
    fn sleep(&mut self, timed: bool) -> bool {
        for _act in 0..ACTS_LIMIT {
            if self.is_woken() {
                self.vain = 0;
                return true;
            }
            if !self.act_somehow() {
                self.clock = self.clock.saturating_add(1);
                self.vain = self.vain.saturating_add(1);
                return timed && self.vain < PATIENCE;
            }
            if timed && self.draw.happens(1, 64) {
                self.clock = self.clock.saturating_add(1);
                return true;
            }
        }
        self.endless = true;
        false
    }

    /// Tells of the connections at which something happened, in that order, each once.
    fn tell(&mut self, queue: &mut Queue)
        ensures { StayAwake queue.old queue.new }
    {
        for _event in 0..self.peers.len() {
            let Some(at) = self.first_ready() else {
                return;
            };
            if let Some(peer) = self.peers.get_mut(at) {
                peer.ticket = 0;
                peer.due = true;
                mark(queue, peer.slot, peer.seen());
            }
        }
    }

    /// What happened at a connection and is no more so is forgotten.
    fn forget(&mut self) {
        for peer in self.peers.iter_mut() {
            if peer.place == Place::Served {
                peer.ticket = 0;
            }
        }
    }

    /// Notes who was to have a turn and had none. Those who have lines that may be answered are next.
    fn look_at_turns(&mut self) {
        let even = self.even;
        for peer in self.peers.iter_mut() {
            let served = peer.place == Place::Served;
            if even && served && peer.due && !peer.is_in_line() {
                peer.note(Wrong::Skipped);
            }
            peer.due = served && peer.is_owed();
        }
    }

    /// Whether something was wrong.
    fn is_wrong(&self) -> bool {
        for peer in &self.peers {
            if peer.wrong.is_some() {
                return true;
            }
        }
        false
    }

    /// A call for the journal. False if it fails.
    fn journal(&mut self) -> bool {
        self.stir();
        let at = self.journaled;
        self.journaled = at.saturating_add(1);
        if at == self.chances.fails_at {
            self.failed = true;
        }
        !self.failed
    }

    /// Draws which tenants are in the table. The first always is.
    fn draw_table(&mut self) -> [bool; PEERS_LIMIT] {
        let mut there = [true; PEERS_LIMIT];
        for is_there in there.iter_mut().skip(1) {
            *is_there = !self.draw.happens(self.chances.absences, 16);
        }
        there
    }

    /// A table was read in which these tenants are. If it is put in force, those who have logged in and
    /// are not in it are closed. The others find their tenant or not.
    fn put_in_force(&mut self, there: &[bool; PEERS_LIMIT]) {
        for (peer, is_there) in self.peers.iter_mut().zip(there) {
            if peer.place == Place::Closed {
                continue;
            }
            if peer.heard < peer.talk.lines.end_of(1) {
                peer.refused = !*is_there;
            } else if !*is_there && !peer.refused {
                peer.gone = true;
            }
        }
    }
}

/// Copies as many bytes as the buffer holds to its front. Returns how many.
fn copy(buf: &mut [u8], bytes: &[u8]) -> usize
    ensures { result ≤ length buf.new }
{
    let count = bytes.len().min(buf.len());
    buf[..count].copy_from_slice(&bytes[..count]);
    count
}

impl Network for Machine {
    type Connection = Seat;

    ghost log = { λ _. None };

    ghost number = { λ c. c.id };

    fn accept(&mut self, id: u64, slot: usize) -> Accept<Seat> {
        self.stir();
        let Some(at) = self.first_waiting() else {
            return Accept::Nothing;
        };
        if self.vain == 0 && self.draw.happens(self.chances.later, 16) {
            return Accept::Later;
        }
        if let Some(peer) = self.peers.get_mut(at) {
            peer.place = Place::Served;
            peer.slot = slot;
            peer.ticket = 0;
            peer.raise(&mut self.tickets);
        }
        Accept::Came(Seat { id, at })
    }

    fn wait(&mut self, time: Option<u32>, queue: &mut Queue) -> Option<bool> {
        self.waits = self.waits.saturating_add(1);
        if self.waits >= WAITS_LIMIT {
            self.endless = true;
            return None;
        }
        self.look_at_turns();
        if self.is_wrong() {
            return None;
        }
        if time == Some(0) {
            self.stir();
        } else if !self.sleep(time.is_some()) {
            self.asleep = !self.endless;
            return None;
        }
        if self.draw.happens(self.chances.interrupts, 1000) {
            return Some(false);
        }
        let comes = self.is_called();
        self.comes = false;
        self.tell(queue);
        self.forget();
        Some(comes)
    }

    fn is_full(&self, size: u64) -> bool {
        size >= SEGMENT_LIMIT
    }

    fn read(&mut self, connection: &mut Seat, buf: &mut [u8]) -> Got {
        self.stir();
        let Some(peer) = self.peers.get_mut(connection.at) else {
            return Got::Fault;
        };
        peer.due = false;
        let count = copy(buf, peer.waiting());
        if count > 0 {
            peer.hear(count);
            return Got::Bytes(count);
        }
        if peer.left && peer.taken < peer.written {
            return Got::Fault;
        }
        if peer.left || peer.ended {
            return Got::End;
        }
        Got::Nothing
    }

    fn write(&mut self, connection: &mut Seat, bytes: &[u8]) -> Put {
        self.stir();
        self.bold = self.bold || self.failed;
        let Some(peer) = self.peers.get_mut(connection.at) else {
            return Put::Fault;
        };
        peer.due = false;
        if peer.left {
            return Put::Fault;
        }
        let count = peer.put(bytes);
        let blocked = count < bytes.len();
        if blocked != peer.blocked {
            peer.blocked = blocked;
            peer.raise(&mut self.tickets);
        }
        Put::Took(count)
    }

    fn close(&mut self, connection: &mut Seat, how: How) {
        if let Some(peer) = self.peers.get_mut(connection.at) {
            if !peer.may_close(how) {
                peer.note(Wrong::Close);
            }
            peer.place = Place::Closed;
        }
    }

    fn seconds(&mut self) -> Option<u64> {
        self.stir();
        Some(self.clock)
    }

    fn ask(&mut self) -> Question {
        self.stir();
        if self.draw.happens(self.chances.reloads, 1000) {
            return Question::Reload;
        }
        if self.draw.happens(self.chances.statuses, 1000) {
            return Question::Status;
        }
        if self.draw.happens(self.chances.stops, 1000) {
            self.stopped = true;
            return Question::Stop;
        }
        Question::Nothing
    }

    fn report(&mut self, _text: &[u8]) {
        self.stir();
    }

    fn warn(&mut self, _text: &[u8]) {
        self.stir();
    }

    fn table(&mut self, text: &mut Vec<u8>) -> Result<(), Unread> {
        self.stir();
        let there = self.draw_table();
        if write_table(text, &there).is_err() {
            return Err(Unread::Memory);
        }
        self.put_in_force(&there);
        Ok(())
    }

    fn named(&mut self) -> Name {
        Name::of(b"")
    }

    fn reply(&mut self, _text: &[u8]) {
        self.bold = self.bold || self.failed;
        self.stir();
    }

    fn takes(&mut self, _connection: &Seat, _tenant: &[u8], _limit: Option<u64>) -> bool {
        self.stir();
        true
    }

    fn begin(&mut self, _segment: u64) -> bool {
        self.journal()
    }

    fn keep(&mut self, _bytes: &[u8]) -> bool {
        self.journal()
    }

    fn sync(&mut self) -> bool {
        self.journal()
    }
}

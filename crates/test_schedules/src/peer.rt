//! A client in memory: its habits, and its side of a connection.
ghost use Rattle.std.specs.Prelude.{◌≤◌, length};

use crate::draw::Draw;
use crate::lines::{Talk, Text};
use judy_many::How;

/// How a client ends.
#[derive(Clone, Copy, PartialEq)]
pub enum Parting {
    /// It stays, unless another waits for its place.
    Stays,
    /// Its last line is a QUIT.
    Quits,
    /// It sends no more, and reads on.
    Ends,
    /// It leaves when it has all its answers.
    Leaves,
}

/// What a client does, and when.
#[derive(Clone, Copy)]
pub struct Habits {
    /// How many lines it has in flight. It sends more when half of them are answered.
    pub window: usize,
    /// The most bytes that it sends at once.
    pub piece: usize,
    /// The most bytes that it reads at once.
    pub sip: usize,
    /// How often it does not read, of 16. With 16 it reads when nothing else can happen.
    pub lazy: usize,
    /// How it ends.
    pub parting: Parting,
    /// After how many bytes, sent and read, it leaves in any case.
    pub leaves_at: usize,
    /// How many bytes wait on the way to the server.
    pub inbox: usize,
    /// How many bytes wait on the way from the server.
    pub outbox: usize,
}

/// Where a client is.
#[derive(Clone, Copy, PartialEq)]
pub enum Place {
    /// It has not come.
    Away,
    /// It waits to be accepted.
    Waiting,
    /// It was accepted.
    Served,
    /// The server closed its connection.
    Closed,
}

/// What the system sees of a connection.
#[derive(Clone, Copy, PartialEq)]
pub enum Seen {
    /// Nothing that the server was to be told of.
    Nothing,
    /// Bytes to read, or room to write where the last write found too little.
    Ready,
    /// The client sends no more, or is gone.
    Ended,
}

/// What was wrong.
#[derive(Clone, Copy)]
pub enum Wrong {
    /// An answer is not the model's.
    Answer,
    /// The server closed the connection for no reason.
    Close,
    /// A wait was followed by another without a turn for the client, which was ready.
    Skipped,
}

/// A client, and its side of a connection. Bytes on the way are counted, and stand in its talk.
#[derive(Drop)]
pub struct Peer {
    /// What it says, and is answered.
    pub talk: Talk,
    /// What it does.
    pub habits: Habits,
    /// Where it is.
    pub place: Place,
    /// The slot of its connection.
    pub slot: usize,
    /// How many bytes it sent.
    pub sent: usize,
    /// How many of these were read.
    pub heard: usize,
    /// How many lines were read as a whole.
    lines_heard: usize,
    /// How many bytes the server wrote.
    pub written: usize,
    /// How many of these it read.
    pub taken: usize,
    /// How many lines it may send.
    allowed: usize,
    /// The answers of how many lines it read.
    pub answered: usize,
    /// Whether its tenant was not in the table when it logged in.
    pub refused: bool,
    /// Whether its tenant is not in the table since then.
    pub gone: bool,
    /// Whether it sends no more.
    pub ended: bool,
    /// Whether it has left.
    pub left: bool,
    /// Whether the last write found too little room, so that the server is told of room alone.
    pub blocked: bool,
    /// Its place among those of which the next wait tells. 0 if it does not stand there.
    pub ticket: u64,
    /// Whether a turn of it is due before the next wait.
    pub due: bool,
    /// What was wrong first.
    pub wrong: Option<Wrong>,
}

impl Peer {
    /// A client that has not come.
    pub fn new(talk: Talk, habits: Habits) -> Peer {
        Peer {
            talk,
            habits,
            place: Place::Away,
            slot: 0,
            sent: 0,
            heard: 0,
            lines_heard: 0,
            written: 0,
            taken: 0,
            allowed: habits.window,
            answered: 0,
            refused: false,
            gone: false,
            ended: false,
            left: false,
            blocked: false,
            ticket: 0,
            due: false,
            wrong: None,
        }
    }

    /// The answers that it has to get.
    pub fn answers(&self) -> &Text {
        if self.refused {
            return &self.talk.refused;
        }
        &self.talk.answers
    }

    /// Notes what is wrong, if nothing was before.
    pub fn note(&mut self, wrong: Wrong) {
        if self.wrong.is_none() {
            self.wrong = Some(wrong);
        }
    }

    // ---- the system ----

    /// Whether its connection takes bytes again. A socket says so when three quarters are free.
    fn has_room(&self) -> bool {
        let waiting = self.written.saturating_sub(self.taken);
        waiting.saturating_mul(4) <= self.habits.outbox
    }

    /// What the server is told of now, if it is told.
    pub fn seen(&self) -> Seen {
        if self.left {
            return Seen::Ended;
        }
        if self.blocked {
            return if self.has_room() {
                Seen::Ready
            } else {
                Seen::Nothing
            };
        }
        if self.ended {
            return Seen::Ended;
        }
        if self.heard < self.sent {
            return Seen::Ready;
        }
        Seen::Nothing
    }

    /// Something happened at the connection: the next wait looks at it.
    pub fn raise(&mut self, tickets: &mut u64) {
        if self.place == Place::Served && self.ticket == 0 {
            *tickets = tickets.saturating_add(1);
            self.ticket = *tickets;
        }
    }

    /// The bytes of the next read.
    pub fn waiting(&self) -> &[u8] {
        self.talk
            .lines
            .bytes
            .get(self.heard..self.sent)
            .unwrap_or(&[])
    }

    /// The server reads this number of bytes.
    pub fn hear(&mut self, count: usize) {
        self.heard = self.heard.saturating_add(count);
        self.lines_heard = self.talk.lines.lines_in(self.lines_heard, self.heard);
    }

    /// The server writes bytes. Returns how many of them are taken; these are compared with the model's
    /// answers.
    pub fn put(&mut self, bytes: &[u8]) -> usize
        ensures { result ≤ length bytes.now }
    {
        let waiting = self.written.saturating_sub(self.taken);
        let count = self.habits.outbox.saturating_sub(waiting).min(bytes.len());
        let upto = self.written.saturating_add(count);
        let wanted = self.answers().bytes.get(self.written..upto);
        if wanted != bytes.get(..count) {
            self.note(Wrong::Answer);
        }
        self.written = upto;
        count
    }

    /// Whether lines that were read as a whole are not answered, and may be.
    pub fn is_owed(&self) -> bool {
        !self.blocked && self.written < self.answers().end_of(self.lines_heard)
    }

    /// Whether it is there, and the first part of a line was read.
    pub fn is_in_line(&self) -> bool {
        self.talk.lines.end_of(self.lines_heard) < self.heard
    }

    /// Whether the server may close its connection so.
    pub fn may_close(&self, how: How) -> bool {
        match how {
            How::Quit => {
                self.habits.parting == Parting::Quits && self.written == self.answers().bytes.len()
            }
            How::End => (self.ended || self.left) && self.heard == self.sent,
            How::Fault => self.left,
            How::Gone => self.gone,
            How::Login | How::Idle | How::Over | How::Memory | How::Kicked => false,
        }
    }

    // ---- the client ----

    /// Sends a part of the lines that it may send. False if it cannot.
    fn send(&mut self, draw: &mut Draw, tickets: &mut u64) -> bool {
        let most = self.heard.saturating_add(self.habits.inbox);
        let upto = self.talk.lines.end_of(self.allowed).min(most);
        if self.ended || upto <= self.sent {
            return false;
        }
        let piece = draw.below(self.habits.piece).saturating_add(1);
        self.sent = self.sent.saturating_add(piece).min(upto);
        if !self.blocked {
            self.raise(tickets);
        }
        true
    }

    /// Reads some of the bytes that were written. False if there are none.
    fn take(&mut self, draw: &mut Draw, tickets: &mut u64) -> bool {
        if self.taken >= self.written {
            return false;
        }
        let sip = draw.below(self.habits.sip).saturating_add(1);
        self.taken = self.taken.saturating_add(sip).min(self.written);
        self.answered = self.answers().lines_in(self.answered, self.taken);
        let flying = self.allowed.saturating_sub(self.answered);
        if flying <= self.habits.window / 2 {
            self.allowed = self.answered.saturating_add(self.habits.window);
        }
        if self.blocked && self.has_room() {
            self.raise(tickets);
        }
        true
    }

    /// Whether it has sent all its lines.
    fn has_sent_all(&self) -> bool {
        self.sent == self.talk.lines.bytes.len()
    }

    /// Whether it has all its answers.
    pub fn has_all(&self) -> bool {
        self.has_sent_all() && self.taken == self.answers().bytes.len()
    }

    /// Leaves.
    pub fn leave(&mut self, tickets: &mut u64) {
        self.left = true;
        self.raise(tickets);
    }

    /// Ends in its way, if it is time to. False if it is not.
    fn part(&mut self, tickets: &mut u64) -> bool {
        if self.habits.parting == Parting::Ends && !self.ended && self.has_sent_all() {
            self.ended = true;
            self.raise(tickets);
            return true;
        }
        if self.habits.parting == Parting::Leaves && self.has_all() {
            self.leave(tickets);
            return true;
        }
        false
    }

    /// Whether it leaves in any case now.
    fn is_tired(&self) -> bool {
        self.habits.leaves_at <= self.sent.saturating_add(self.taken)
    }

    /// Does one thing while it waits or is served. False if there is nothing that it can do.
    fn go_on(&mut self, draw: &mut Draw, tickets: &mut u64, reads: bool) -> bool {
        if self.is_tired() {
            self.leave(tickets);
            return true;
        }
        if draw.happens(1, 2) {
            return self.send(draw, tickets)
                || (reads && self.take(draw, tickets))
                || self.part(tickets);
        }
        (reads && self.take(draw, tickets)) || self.send(draw, tickets) || self.part(tickets)
    }

    /// Does one thing. False if there is nothing that it can do. One that is lazy may not read, unless it
    /// has to.
    pub fn act(&mut self, draw: &mut Draw, tickets: &mut u64, must: bool) -> bool {
        if self.left {
            return false;
        }
        let reads = must || !draw.happens(self.habits.lazy, 16);
        match self.place {
            Place::Away => false,
            Place::Waiting | Place::Served => self.go_on(draw, tickets, reads),
            Place::Closed => reads && self.take(draw, tickets),
        }
    }
}

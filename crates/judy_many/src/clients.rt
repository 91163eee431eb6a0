//! The clients in their slots.
ghost use Rattle.std.specs.Prelude.{◌≡◌, ◌≢◌, ◌<◌, ◌≤◌, ℕ, min, true, false, None, IfOk, IfSome, length, slice_index_or, vec_len};
ghost use Rattle.judy_many.specs.Crowds.{AreFree};
ghost use Rattle.judy_many.specs.Deciding.{freed, is_paused as is_paused_lem, may_accept as may_accept_lem, woken};
ghost use Rattle.judy_many.specs.Queues.{awake_in};

use crate::client::Client;
use crate::limits::CLIENTS_LIMIT;
use crate::network::Network;
use crate::queue::{Left, Queue};
use crate::times::is_past;
use judy_protocol::Served;
use std::alloc::{AllocError, Global};

/// Whether connections are accepted.
#[derive(Clone, Copy, Debug, PartialEq, Eq)]
pub enum Listening {
    /// None waits, until the system says that one does.
    Quiet,
    /// One may wait.
    Ready,
    /// One may wait, and no slot is free.
    Full,
    /// One waits, and could not be accepted at this second.
    Paused(u64),
}

impl Listening {
    /// After a wait, which says whether a connection can be accepted.
    pub fn after_wait(self, comes: bool) -> Listening
        ensures { result ≡ woken comes self }
    {
        if comes && self == Listening::Quiet {
            return Listening::Ready;
        }
        self
    }

    /// After a connection was closed, if one was. A slot is free then, and what the connection held may
    /// be what an accept lacked.
    pub fn after_close(self, closed: bool) -> Listening
        ensures { result ≡ freed closed self }
    {
        if closed && self != Listening::Quiet {
            return Listening::Ready;
        }
        self
    }

    /// Whether an accept failed.
    pub fn is_paused(self) -> bool
        ensures { result ≡ is_paused_lem self }
    {
        match self {
            Listening::Paused(_) => true,
            Listening::Quiet => false,
            Listening::Ready => false,
            Listening::Full => false,
        }
    }

    /// Whether to accept now: a second after one that failed.
    pub fn may_accept(self, now: Option<u64>) -> bool
        ensures { result ≡ may_accept_lem self now }
    {
        match self {
            Listening::Quiet => false,
            Listening::Ready => true,
            Listening::Full => false,
            Listening::Paused(since) => is_past(Some(1), since, now),
        }
    }
}

/// The clients, each in a slot, and the slots that have a turn next.
#[derive(Drop)]
pub struct Clients<S: Served, N: Network> {
    /// The slots.
    pub slots: Vec<Option<Box<Client<S::Speaker, N::Connection>>>>,
    /// Those whose clients are ready.
    pub queue: Queue,
    /// How many connections were accepted.
    pub accepted: u64,
    /// Whether connections are accepted.
    pub listening: Listening,
    /// At which second the clients whose time is over were last looked for.
    pub swept: Option<u64>,
}

impl<S: Served, N: Network> Clients<S, N> {
    /// This many free slots, at most `CLIENTS_LIMIT`.
    pub fn new(alloc: Global, clients: u32) -> Result<Clients<S, N>, AllocError>
        ensures free { IfOk result (λ c. AreFree c.slots.items) }
        ensures all { IfOk result (λ c. length c.slots.items ≡ min clients CLIENTS_LIMIT) }
        ensures many { IfOk result (λ c. length c.slots.items ≤ clients) }
        ensures small { IfOk result (λ c. length c.slots.items ≤ CLIENTS_LIMIT) }
        ensures count { IfOk result (λ c. c.accepted ≡ 0) }
    {
        let count = (clients as usize).min(CLIENTS_LIMIT);
        let mut slots = Vec::with_capacity(alloc, count)?;
        for _slot in 0..count {
            slots.push(None)?;
        }
        Ok(Clients {
            slots,
            queue: Queue::new(),
            accepted: 0,
            listening: Listening::Ready,
            swept: None,
        })
    }

    /// Notes that the client of a slot was closed, if it was. The marks of other slots stay.
    pub fn note_closed(&mut self, at: usize, closed: bool)
        ensures slots { self.new.slots ≡ self.old.slots }
        ensures count { self.new.accepted ≡ self.old.accepted }
        ensures others { (i : ℕ) → i ≢ at → awake_in self.new.queue i ≡ awake_in self.old.queue i }
        ensures same { closed ≡ false → self.new.queue ≡ self.old.queue }
    {
        if closed {
            self.queue.settle(at, Left::Closed);
            self.listening = self.listening.after_close(true);
        }
    }

    /// Whether no slot has a client.
    pub fn is_empty(&self) -> bool
        ensures { result ≡ true → AreFree self.now.slots.items }
    {
        for slot in 0..self.slots.len() {
            if self.slots[slot].is_some() {
                return false;
            }
        }
        true
    }

    /// The first free slot.
    pub fn free(&self) -> Option<usize>
        ensures slots { IfSome result (λ slot. slot < vec_len self.now.slots) }
        ensures free { IfSome result (λ slot. slice_index_or self.now.slots.items slot None ≡ None) }
    {
        for slot in 0..self.slots.len() {
            if self.slots[slot].is_none() {
                return Some(slot);
            }
        }
        None
    }
}

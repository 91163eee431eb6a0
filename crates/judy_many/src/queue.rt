//! The slots whose clients have a turn, in the order in which they were marked.
ghost use Rattle.std.specs.Prelude.{◌≡◌, ◌≢◌, ◌⊎◌, ◌<◌, ℕ, [], length, true, false};
ghost use Rattle.arrayvec.specs.ArrayVec.{array_vec_len};
ghost use Rattle.judy_many.specs.Queues.{AreAhead, AreApart, ArePassed, AreTurned, IsIn, IsLonger, IsPlaced, StayAwake, awake_in, is_awake, is_more, is_passed, mark_in, slot_in, stands, stands_in};

use crate::limits::CLIENTS_LIMIT;
use arrayvec::ArrayVec;
use std::marker::Model;

/// What is known of a slot's connection.
#[derive(Clone, Copy, Debug, PartialEq, Eq)]
pub enum Mark {
    /// The slot does not stand in the queue.
    Out,
    /// It stands in it until the round ends, and its client has nothing more to do.
    Done,
    /// There may be bytes to read, or room to write where a write found none.
    Ready,
    /// The same, and the client was seen to send no more, or to be gone.
    Ended,
    /// It is ready, and was passed over in this round.
    Passed,
    /// It has ended, and was passed over in this round.
    PassedEnded,
}

/// What is left of a slot after its turn.
#[derive(Clone, Copy, Debug, PartialEq, Eq)]
pub enum Left {
    /// Its client may have another turn at once.
    More,
    /// The same, and it was passed over in this round, since its tenant had its share.
    Passed,
    /// Its client has sent nothing more.
    Nothing,
    /// Its client takes no more for now.
    Blocked,
    /// Its client was closed.
    Closed,
}

/// The mark of a slot after its turn.
fn settled(mark: Mark, left: Left) -> Mark
    ensures stands { stands result ≡ stands mark }
    ensures more { is_more left ≡ true → stands mark ≡ true → is_awake result ≡ true }
{
    match (left, mark) {
        (Left::More, Mark::Done) => Mark::Ready,
        (Left::Passed, Mark::Done) => Mark::Passed,
        (Left::Passed, Mark::Ready) => Mark::Passed,
        (Left::Passed, Mark::Ended) => Mark::PassedEnded,
        (Left::Nothing, Mark::Ready) => Mark::Done,
        (Left::Blocked, Mark::Ready) => Mark::Done,
        (Left::Blocked, Mark::Ended) => Mark::Done,
        (Left::Closed, Mark::Ready) => Mark::Done,
        (Left::Closed, Mark::Ended) => Mark::Done,
        (Left::Closed, Mark::Passed) => Mark::Done,
        (Left::Closed, Mark::PassedEnded) => Mark::Done,
        _ => mark,
    }
}

/// The mark of a slot that was seen to be ready, or to have ended.
fn marked(mark: Mark, seen: Mark) -> Mark
    requires { is_awake seen ≡ true }
    ensures { is_awake result ≡ true }
{
    if mark == Mark::Ended {
        Mark::Ended
    } else {
        seen
    }
}

/// Whether a slot of this mark was passed over.
fn is_passed(mark: Mark) -> bool
    ensures { result ≡ is_passed mark }
{
    mark == Mark::Passed || mark == Mark::PassedEnded
}

/// Whether a slot of this mark has a turn owed.
fn is_awake(mark: Mark) -> bool
    ensures { result ≡ is_awake mark }
{
    mark != Mark::Out && mark != Mark::Done
}

/// Whether a slot had ended by these marks.
fn has_ended(marks: &[Mark; CLIENTS_LIMIT], slot: usize) -> bool {
    slot < CLIENTS_LIMIT && marks[slot] == Mark::Ended
}

/// The mark of a slot after a round, if it was passed over. All others leave the queue.
fn sifted(mark: Mark) -> Mark
    ensures passed { is_passed mark ≡ true → is_awake result ≡ true }
    ensures others { is_passed mark ≡ false → result ≡ Mark.Out }
{
    match mark {
        Mark::Passed => Mark::Ready,
        Mark::PassedEnded => Mark::Ended,
        _ => Mark::Out,
    }
}

/// Slots in the order in which they were marked as ready. Each of them stands in it once.
#[derive(Drop)]
pub struct Queue {
    order: [usize; CLIENTS_LIMIT],
    count: usize,
    marks: [Mark; CLIENTS_LIMIT],
}

impl Model for Queue {
    ghost use Rattle.std.specs.Prelude.{take};
    ghost use Rattle.judy_many.specs.Queues.{IsQueue, Line};

    ghost Value = { Line };

    ghost view = { λ q. record { order = take q.count q.order; marks = q.marks } };

    ghost invariant = { λ q. IsQueue q.order q.count q.marks };
}

impl Queue {
    /// No slot.
    pub fn new() -> Queue
        ensures empty { result.order ≡ [] }
        ensures asleep { (i : ℕ) → stands_in result i ≡ false }
    {
        Queue {
            order: [0; CLIENTS_LIMIT],
            count: 0,
            marks: [Mark::Out; CLIENTS_LIMIT],
        }
    }

    /// How many slots stand in it.
    pub fn len(&self) -> usize
        ensures long { result ≡ length self.now.order }
        ensures apart { AreApart self.now.order }
        ensures found { (i : ℕ) → stands_in self.now i ≡ true → IsPlaced self.now i }
    {
        self.count
    }

    /// Whether no slot stands in it.
    pub fn is_empty(&self) -> bool {
        self.count == 0
    }

    /// The slot at a place. If there is none it is `CLIENTS_LIMIT`.
    pub fn slot_at(&self, place: usize) -> usize
        ensures slot { result ≡ slot_in self.now.order place }
        ensures stands { place < length self.now.order → stands_in self.now result ≡ true }
    {
        if place >= self.count || place >= CLIENTS_LIMIT {
            return CLIENTS_LIMIT;
        }
        self.order[place]
    }

    /// Puts a slot at the end, unless it stands in the queue. Its connection has bytes to read, or
    /// room to write.
    pub fn mark_ready(&mut self, slot: usize)
        ensures stay { StayAwake self.old self.new }
        ensures wakes { slot < 1024 → awake_in self.new slot ≡ true }
        ensures order { IsLonger slot self.old.order self.new.order }
    {
        self.mark(slot, Mark::Ready);
    }

    /// The same, where the client was seen to send no more, or to be gone.
    pub fn mark_ended(&mut self, slot: usize)
        ensures stay { StayAwake self.old self.new }
        ensures wakes { slot < 1024 → awake_in self.new slot ≡ true }
        ensures order { IsLonger slot self.old.order self.new.order }
    {
        self.mark(slot, Mark::Ended);
    }

    /// Puts a slot at the end, unless it stands in the queue, and notes what is known of it. A slot that
    /// does not stand in it always has room, since each slot stands in it at most once.
    fn mark(&mut self, slot: usize, seen: Mark)
        requires { is_awake seen ≡ true }
        ensures stay { StayAwake self.old self.new }
        ensures wakes { slot < 1024 → awake_in self.new slot ≡ true }
        ensures order { IsLonger slot self.old.order self.new.order }
    {
        if slot >= CLIENTS_LIMIT {
            return;
        }
        if self.marks[slot] == Mark::Out {
            self.order[self.count] = slot;
            self.count += 1;
            self.marks[slot] = seen;
            return;
        }
        self.marks[slot] = marked(self.marks[slot], seen);
    }

    /// Notes what is left of a slot after its turn. A client that was seen to send no more has its end
    /// still to be read.
    pub fn settle(&mut self, slot: usize, left: Left)
        ensures order { self.new.order ≡ self.old.order }
        ensures others { (i : ℕ) → i ≢ slot → mark_in self.new.marks i ≡ mark_in self.old.marks i }
        ensures stands { (i : ℕ) → stands_in self.new i ≡ stands_in self.old i }
        ensures more { is_more left ≡ true → stands_in self.old slot ≡ true → awake_in self.new slot ≡ true }
    {
        // The proof sees the marks also where none is changed.
        let _ = &self.marks;
        if slot >= CLIENTS_LIMIT {
            return;
        }
        self.marks[slot] = settled(self.marks[slot], left);
    }

    /// Notes whether the client in a slot was closed outside its turn.
    pub fn note_closed(&mut self, slot: usize, closed: bool)
        ensures order { self.new.order ≡ self.old.order }
        ensures others { (i : ℕ) → i ≢ slot → mark_in self.new.marks i ≡ mark_in self.old.marks i }
        ensures stands { (i : ℕ) → stands_in self.new i ≡ stands_in self.old i }
        ensures same { closed ≡ false → self.new ≡ self.old }
    {
        if !closed {
            return;
        }
        self.settle(slot, Left::Closed);
    }

    /// Takes out all slots but those that were passed over, which stay in their order. Those of the others that
    /// have more to do come into `later`, in their order.
    fn sift(&mut self, later: &mut ArrayVec<usize, CLIENTS_LIMIT>)
        requires { array_vec_len later.old ≡ 0 }
        ensures awake { (i : ℕ) → awake_in self.old i ≡ true
            → (awake_in self.new i ≡ true) ⊎ IsIn i later.new.items }
        ensures kept { ArePassed self.old.marks self.new.order }
        ensures turned { AreTurned self.old.marks later.new.items }
    {
        let mut kept = 0;
        for place in 0..self.count {
            let slot = self.order[place];
            let mark = self.marks[slot];
            self.marks[slot] = sifted(mark);
            if is_passed(mark) {
                self.order[kept] = slot;
                kept += 1;
                continue;
            }
            if !is_awake(mark) {
                continue;
            }
            later.push(slot);
        }
        self.count = kept;
    }

    /// The marks of all slots.
    fn marks(&self) -> [Mark; CLIENTS_LIMIT]
        ensures { result ≡ self.now.marks }
    {
        self.marks
    }

    /// Puts a slot at the end again, which has ended if it had this mark.
    fn put_back(&mut self, slot: usize, ended: bool)
        ensures stay { StayAwake self.old self.new }
        ensures wakes { slot < 1024 → awake_in self.new slot ≡ true }
        ensures order { IsLonger slot self.old.order self.new.order }
    {
        if ended {
            self.mark_ended(slot);
            return;
        }
        self.mark_ready(slot);
    }

    /// Takes the slots out that have nothing more to do. Those that were passed over stand before all others, and
    /// both stay in their order.
    pub fn end_round(&mut self)
        ensures stay { StayAwake self.old self.new }
        ensures ahead { AreAhead self.old.marks self.new.order }
    {
        let marks = self.marks();
        let mut later = ArrayVec::new();
        self.sift(&mut later);
        for place in 0..later.len() {
            let slot = later[place];
            self.put_back(slot, has_ended(&marks, slot));
        }
    }
}

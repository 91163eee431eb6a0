//! A source and a sink in memory. Their bytes are known, they fail where the caller says, and they
//! allocate nothing.
ghost use Rattle.std.specs.Prelude.{◌≡◌, ◌<◌, ◌≤◌, ◌+◌, ◌++◌, [], drop, take, length, nat_lt, Some, true, false};
ghost use Rattle.std.specs.Io.KnownBytes.{Keeps};
ghost use Rattle.judy_stream.specs.declared.Pull.TheVariants.{Bytes, End, Fault};
ghost use Rattle.judy_stream.specs.declared.Push.TheVariants as push;
ghost use Rattle.judy_stream.specs.Streams.{any_flush, any_pull, any_push, Pulls, EndsAtEnd, given, gave_after, ends_after, faults_after, Pushes, push_faults_after, flush_faults_after, pending_after, pending_flushed};
ghost use Rattle.judy_stream.specs.Tapes.{next_stop, stops, fails_here, piece_len, tape_answer, tape_after};
ghost use Rattle.judy_stream.specs.Tapes.{page_room, page_answer, page_after, page_flush, page_flushed, refused};

use crate::{Pull, Push, Sink, Source};
use std::marker::Model;

/// A source over the bytes of a slice, which gives them in parts.
///
/// A pull gives as many of the next bytes as the buffer holds, but at most `step`, and none past
/// the next place in `cuts` or past `fails_at`. The first pull that begins at `fails_at` is a
/// fault, and later pulls ignore that place. A pull that begins after the last byte is the end.
/// Places are counted in bytes from the front of the slice. A pull that gives no bytes leaves the
/// buffer unchanged.
#[derive(Drop)]
pub struct Tape<'a> {
    whole: &'a [u8],
    cuts: &'a [usize],
    step: usize,
    fails_at: Option<usize>,
    at: usize,
    gave: u64,
    ends: u64,
    faults: u64,
}

impl<'a> Model for Tape<'a> {
    ghost use Rattle.std.specs.Prelude.{◌≤◌, length};
    ghost use Rattle.judy_stream.specs.Tapes.{TapeState};

    ghost Value = { TapeState };

    ghost view = { λ t. record {
      whole = t.whole.now;
      cuts = t.cuts.now;
      step = t.step;
      fails_at = t.fails_at;
      at = t.at;
      gave = t.gave;
      ends = t.ends;
      faults = t.faults;
    } };

    ghost invariant = { λ t. (t.at ≤ length t.whole.now) × (1 ≤ t.step) };
}

/// The nearest of `places` above `at`, or `bound` if that is nearer.
fn stop_before(at: usize, places: &[usize], bound: usize) -> usize
    requires { at < bound }
    ensures stop { result ≡ next_stop at places.now bound }
    ensures above { at < result }
    ensures within { result ≤ bound }
{
    let mut stop = bound;
    for place in places {
        if at < *place {
            stop = stop.min(*place);
        }
    }
    stop
}

/// The furthest place at which one answer that begins at `at` may stop.
fn stop_of_piece(at: usize, cuts: &[usize], fails_at: Option<usize>, bound: usize) -> usize
    requires { at < bound }
    ensures stop { result ≡ next_stop at (stops fails_at cuts.now) bound }
    ensures above { at < result }
    ensures within { result ≤ bound }
{
    match fails_at {
        Some(place) => stop_before(at, cuts, stop_before(at, &[place], bound)),
        None => stop_before(at, cuts, bound),
    }
}

/// Whether something fails at this place.
fn is_here(at: usize, place: Option<usize>) -> bool
    ensures { result ≡ fails_here at place }
{
    place == Some(at)
}

impl<'a> Tape<'a> {
    /// A tape before its first byte, with all counts 0.
    ///
    /// The places in `cuts` may come in any order and more than once. A place past the end, in
    /// `cuts` or as `fails_at`, is never reached. If `fails_at` is the length of `bytes`, the tape
    /// faults once before its end.
    pub fn new(bytes: &'a [u8], cuts: &'a [usize], step: usize, fails_at: Option<usize>) -> Self
        requires { 1 ≤ step }
        ensures { result ≡ record {
          whole = bytes.now;
          cuts = cuts.now;
          step = step;
          fails_at = fails_at;
          at = 0;
          gave = 0;
          ends = 0;
          faults = 0;
        } }
    {
        Tape {
            whole: bytes,
            cuts,
            step,
            fails_at,
            at: 0,
            gave: 0,
            ends: 0,
            faults: 0,
        }
    }

    /// Fails, and forgets the place at which it does.
    fn fail(&mut self)
        requires { fails_here self.old.at self.old.fails_at ≡ true }
        ensures { self.new ≡ tape_after Fault self.old }
    {
        self.fails_at = None;
        self.faults = self.faults.saturating_add(1);
    }

    /// Reports its end.
    fn end(&mut self)
        requires { fails_here self.old.at self.old.fails_at ≡ false }
        ensures { self.new ≡ tape_after End self.old }
    {
        self.ends = self.ends.saturating_add(1);
    }

    /// How many bytes it gives into this much room, where some are left.
    fn piece(&self, room: usize) -> usize
        requires room { 0 < room }
        requires left { self.now.at < length self.now.whole }
        ensures len { result ≡ piece_len self.now room }
        ensures some { 1 ≤ result }
        ensures within { result ≤ room }
        ensures left { self.now.at + result ≤ length self.now.whole }
    {
        let stop = stop_of_piece(self.at, self.cuts, self.fails_at, self.whole.len());
        room.min(self.step.min(stop - self.at))
    }

    /// Copies the next n bytes to the front of the buffer.
    fn copy(&self, buf: &mut [u8], n: usize)
        requires room { n ≤ length buf.old }
        requires left { self.now.at + n ≤ length self.now.whole }
        ensures { buf.new ≡ take n (drop self.now.at self.now.whole) ++ drop n buf.old }
    {
        buf[..n].copy_from_slice(&self.whole[self.at..self.at + n]);
    }

    /// Goes past n bytes, which it gave.
    fn pass(&mut self, n: usize)
        requires here { fails_here self.old.at self.old.fails_at ≡ false }
        requires left { self.old.at + n ≤ length self.old.whole }
        ensures { self.new ≡ tape_after (Bytes n) self.old }
    {
        self.at += n;
        self.gave = self.gave.saturating_add(1);
    }
}

impl<'a> Source for Tape<'a> {
    ghost source = { record {
      left = λ t. Some (drop t.at t.whole);
      gave = λ t. t.gave;
      ends = λ t. t.ends;
      faults = λ t. t.faults;
      can_pull = any_pull;
    } };

    fn pull(&mut self, buf: &mut [u8]) -> Pull
        requires room { 0 < length buf.old }
        ensures answer { result ≡ tape_answer self.old (length buf.old) }
        ensures after { self.new ≡ tape_after result self.old }
        ensures rest { drop (given result) buf.new ≡ drop (given result) buf.old }
        ensures bytes { Pulls result (Some (drop self.old.at self.old.whole))
            (Some (drop self.new.at self.new.whole)) buf.new }
        ensures end { EndsAtEnd result (Some (drop self.new.at self.new.whole)) }
        ensures gave { self.new.gave ≡ gave_after result self.old.gave }
        ensures ends { self.new.ends ≡ ends_after result self.old.ends }
        ensures faults { self.new.faults ≡ faults_after result self.old.faults }
    {
        if is_here(self.at, self.fails_at) {
            self.fail();
            return Pull::Fault;
        }
        if self.at >= self.whole.len() {
            self.end();
            return Pull::End;
        }
        let n = self.piece(buf.len());
        self.copy(buf, n);
        self.pass(n);
        Pull::Bytes(n)
    }
}

/// How a page refuses the bytes of a push.
#[derive(Clone, Copy, Debug, PartialEq, Eq)]
pub enum Refusal {
    /// The push takes 0 bytes.
    TakesNothing,
    /// The push is a fault.
    Fails,
}

/// The answer to a push whose bytes are refused.
fn refuse(refusal: Refusal) -> Push
    ensures { result ≡ refused refusal }
{
    match refusal {
        Refusal::TakesNothing => Push::Took(0),
        Refusal::Fails => Push::Fault,
    }
}

/// A sink of at most `N` bytes, which keeps what was written.
///
/// A push takes as many bytes as fit below `limit`, and none past `push_fails_at`. The page refuses
/// bytes, as `refusal` says, once it holds `limit` bytes. It also refuses the first push once it
/// holds `push_fails_at` bytes, and later pushes ignore that place. A flush answers true, except
/// the first one once the page holds `flush_fails_at` bytes.
#[derive(Drop)]
pub struct Page<const N: usize> {
    buffer: [u8; N],
    len: usize,
    limit: usize,
    refusal: Refusal,
    push_fails_at: Option<usize>,
    flush_fails_at: Option<usize>,
    pending: bool,
    faults: u64,
}

impl<const N: usize> Model for Page<N> {
    ghost use Rattle.std.specs.Prelude.{◌≤◌, length, take};
    ghost use Rattle.judy_stream.specs.Tapes.{PageState};

    ghost Value = { PageState };

    ghost view = { λ p. record {
      bytes = take p.len p.buffer;
      limit = p.limit;
      refusal = p.refusal;
      push_fails_at = p.push_fails_at;
      flush_fails_at = p.flush_fails_at;
      pending = p.pending;
      faults = p.faults;
    } };

    ghost invariant = { λ p. (p.len ≤ p.limit) × (p.limit ≤ N) };
}

impl<const N: usize> Page<N> {
    /// An empty page, with its count 0.
    ///
    /// A place past `limit` is never reached.
    pub fn new(
        limit: usize,
        refusal: Refusal,
        push_fails_at: Option<usize>,
        flush_fails_at: Option<usize>,
    ) -> Self
        requires { limit ≤ N }
        ensures { result ≡ record {
          bytes = [];
          limit = limit;
          refusal = refusal;
          push_fails_at = push_fails_at;
          flush_fails_at = flush_fails_at;
          pending = false;
          faults = 0;
        } }
    {
        Page {
            buffer: [0; N],
            len: 0,
            limit,
            refusal,
            push_fails_at,
            flush_fails_at,
            pending: false,
            faults: 0,
        }
    }

    /// What was written: at most `limit` bytes.
    pub fn bytes(&self) -> &[u8]
        ensures bytes { result.now ≡ self.now.bytes }
        ensures within { length result.now ≤ self.now.limit }
    {
        &self.buffer[..self.len]
    }

    /// Whether a push fails at this place.
    fn push_fails(&self) -> bool
        ensures { result ≡ fails_here (length self.now.bytes) self.now.push_fails_at }
    {
        is_here(self.len, self.push_fails_at)
    }

    /// Whether there is room below its limit.
    fn has_room(&self) -> bool
        ensures { result ≡ nat_lt (length self.now.bytes) self.now.limit }
    {
        self.len < self.limit
    }

    /// Refuses the bytes of a push. Where a push fails here, it forgets the place.
    fn refuse(&mut self) -> Push
        ensures answer { result ≡ refused self.old.refusal }
        ensures after { self.new ≡ page_after push.Fault [] self.old }
    {
        if is_here(self.len, self.push_fails_at) {
            self.push_fails_at = None;
        }
        self.faults = self.faults.saturating_add(1);
        refuse(self.refusal)
    }

    /// How many bytes of a push it takes, where it has room.
    fn piece(&self, len: usize) -> usize
        requires some { 0 < len }
        requires room { length self.now.bytes < self.now.limit }
        ensures len { result ≡ page_room self.now len }
        ensures some { 1 ≤ result }
        ensures within { result ≤ len }
        ensures limit { length self.now.bytes + result ≤ self.now.limit }
    {
        let stop = stop_of_piece(self.len, &[], self.push_fails_at, self.limit);
        len.min(stop - self.len)
    }

    /// Appends bytes, which then wait for a flush.
    fn append(&mut self, bytes: &[u8])
        requires { length self.old.bytes + length bytes.now ≤ self.old.limit }
        ensures { self.new ≡ record self.old { bytes = self.old.bytes ++ bytes.now; pending = true } }
    {
        let (len, end) = (self.len, self.len + bytes.len());
        let page = &mut self.buffer[..];
        page[len..end].copy_from_slice(bytes);
        self.len = end;
        self.pending = true;
    }

    /// Fails at a flush, and forgets the place at which it does.
    fn fail_flush(&mut self)
        requires { fails_here (length self.old.bytes) self.old.flush_fails_at ≡ true }
        ensures { self.new ≡ page_flushed false self.old }
    {
        self.flush_fails_at = None;
        self.faults = self.faults.saturating_add(1);
    }

    /// Has no bytes wait for a flush any longer.
    fn clear(&mut self)
        requires { fails_here (length self.old.bytes) self.old.flush_fails_at ≡ false }
        ensures { self.new ≡ page_flushed true self.old }
    {
        self.pending = false;
    }
}

impl<const N: usize> Sink for Page<N> {
    ghost sink = { record {
      taken = λ p. Some p.bytes;
      faults = λ p. p.faults;
      pending = λ p. p.pending;
      can_push = any_push;
      can_flush = any_flush;
    } };

    fn push(&mut self, bytes: &[u8]) -> Push
        requires { 0 < length bytes.now }
        ensures answer { result ≡ page_answer self.old (length bytes.now) }
        ensures after { self.new ≡ page_after result bytes.now self.old }
        ensures bytes { Pushes result (Some self.old.bytes) (Some self.new.bytes) bytes.now }
        ensures faults { self.new.faults ≡ push_faults_after result self.old.faults }
        ensures pending { self.new.pending ≡ pending_after result self.old.pending }
    {
        if self.push_fails() || !self.has_room() {
            return self.refuse();
        }
        let n = self.piece(bytes.len());
        self.append(&bytes[..n]);
        Push::Took(n)
    }

    fn flush(&mut self) -> bool
        ensures answer { result ≡ page_flush self.old }
        ensures after { self.new ≡ page_flushed result self.old }
        ensures bytes { Keeps (Some self.old.bytes) (Some self.new.bytes) }
        ensures faults { self.new.faults ≡ flush_faults_after result self.old.faults }
        ensures pending { self.new.pending ≡ pending_flushed result self.old.pending }
    {
        if is_here(self.len, self.flush_fails_at) {
            self.fail_flush();
            return false;
        }
        self.clear();
        true
    }
}

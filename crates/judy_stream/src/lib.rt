//! The streams of a server: what it reads its requests from, what it writes its replies to, and how
//! they fail.
//!
//! A [`Source`] answers each pull with bytes, with its end or with a fault. A [`Sink`] takes bytes
//! and flushes them. A call makes one read or one write. It neither retries nor hides a short one:
//! the caller does that, and its contracts speak of the known bytes and of the counts.
//!
//! - [`Reads`] and [`Writes`] work over any `std::io::Read` and `std::io::Write`. Their bytes are
//!   known where those of the reader or writer are: for a slice or a vector in memory, but not for
//!   a file, a pipe or a socket.
//! - [`Tape`] and [`Page`] work in memory and allocate nothing. Their bytes are known. They cut and
//!   fail where the caller says, so that a test can try every cut and every failure.
//!
//! Contracts describe failures by the counts: "the read failed" means that the count of faults
//! rose. Each count begins at 0 and stays at `u64::MAX` once it gets there.
#![tactic(auto)]

mod handles;
mod memory;

ghost use Rattle.std.specs.Prelude.{◌≡◌, ◌<◌, length};
ghost use Rattle.std.specs.Io.KnownBytes.{Keeps};
ghost use Rattle.judy_stream.specs.Streams.{SourceOf, SinkOf, Pulls, EndsAtEnd, gave_after, ends_after, faults_after, Pushes, push_faults_after, flush_faults_after, pending_after, pending_flushed};

pub use handles::{Reads, Writes};
pub use memory::{Page, Refusal, Tape};

/// The answer of a source to a pull.
#[derive(Clone, Copy, Debug, PartialEq, Eq)]
pub enum Pull {
    /// This many bytes are at the front of the buffer: at least 1 and at most the buffer's length.
    Bytes(usize),
    /// The source has ended. The contents of the buffer are unspecified.
    End,
    /// The read failed. The contents of the buffer are unspecified.
    Fault,
}

/// The answer of a sink to a push.
#[derive(Clone, Copy, Debug, PartialEq, Eq)]
pub enum Push {
    /// This many bytes were taken from the front of the slice, at most its length. 0 counts as a
    /// fault.
    Took(usize),
    /// The write failed. No byte was taken.
    Fault,
}

/// Something to read bytes from.
pub trait Source {
    /// What it shows: the bytes that are still to come, and how many pulls gave bytes, reported the
    /// end and failed. It also says when a pull is allowed. `specs/Streams.antt` has each field.
    ghost source: { SourceOf Self };

    /// Moves the next bytes to the front of the buffer, and counts the answer. The source chooses
    /// how many.
    ///
    /// The buffer must not be empty. Where the bytes of the source are known, none is left at
    /// `End`. The buffer is unspecified behind the bytes that were moved, and all of it is after
    /// `End` and `Fault`.
    fn pull(&mut self, buf: &mut [u8]) -> Pull
        requires room { 0 < length buf.old }
        requires ready { source.can_pull self.old (length buf.old) }
        ensures bytes { Pulls result (source.left self.old) (source.left self.new) buf.new }
        ensures end { EndsAtEnd result (source.left self.new) }
        ensures gave { source.gave self.new ≡ gave_after result (source.gave self.old) }
        ensures ends { source.ends self.new ≡ ends_after result (source.ends self.old) }
        ensures faults { source.faults self.new ≡ faults_after result (source.faults self.old) };
}

/// Something to write bytes to.
pub trait Sink {
    /// What it shows: the bytes taken so far, how many pushes and flushes failed, and whether bytes
    /// wait for a flush. It also says when a push and a flush are allowed. `specs/Streams.antt` has
    /// each field.
    ghost sink: { SinkOf Self };

    /// Takes bytes from the front of the slice, and counts a failure. The sink chooses how many.
    ///
    /// The slice must not be empty, so an answer of 0 bytes is a failure.
    fn push(&mut self, bytes: &[u8]) -> Push
        requires some { 0 < length bytes.now }
        requires ready { sink.can_push self.old bytes.now }
        ensures bytes { Pushes result (sink.taken self.old) (sink.taken self.new) bytes.now }
        ensures faults { sink.faults self.new ≡ push_faults_after result (sink.faults self.old) }
        ensures pending { sink.pending self.new ≡ pending_after result (sink.pending self.old) };

    /// Flushes the bytes that were taken, and returns whether that succeeded. `false` is counted as
    /// a failure; the bytes taken stay as they were.
    fn flush(&mut self) -> bool
        requires ready { sink.can_flush self.old }
        ensures bytes { Keeps (sink.taken self.old) (sink.taken self.new) }
        ensures faults { sink.faults self.new ≡ flush_faults_after result (sink.faults self.old) }
        ensures pending { sink.pending self.new ≡ pending_flushed result (sink.pending self.old) };
}

//! Serves one connection.
ghost use Rattle.std.specs.Prelude.{◌≡◌, ◌≢◌, ◌≤◌, Some, length, MatchOption, option_map};
ghost use Rattle.judy_stream.specs.Streams.{IsFlushed};
ghost use Rattle.judy_protocol.specs.Sending.{AreAnswers, MaySend};
ghost use Rattle.judy_protocol.specs.Services.{HasLoggedIn};
ghost use Rattle.judy_protocol.specs.Serving.{MayPull, Serves, pull_limit, reads_limit, wire, with_first};
ghost use Rattle.judy_protocol.specs.Talks.{Hears, Stops, stop_faults, talk};

use crate::cutting::cut_line;
use crate::gathering::{Batch, Rooms, gather};
use crate::held::Held;
use crate::sending::send;
use crate::service::Served;
use arrayvec::ArrayVec;
use judy_model::laws::{one_call_is_a_run, served_runs_go_on, tenants_are_answered_equally};
use judy_model::{KEY_LIMIT, ReplyRoom};
use judy_stream::{Pull, Sink, Source};
use std::alloc::Global;

/// The most bytes of one read.
pub const PULL_LIMIT: usize = 4096;

/// The most reads of one connection that give bytes.
pub const READS_LIMIT: u64 = 4294967296;

/// How the serving of a connection ended.
#[derive(Clone, Copy, Debug, PartialEq, Eq)]
pub enum End {
    /// A line asked to quit, and was answered.
    Quit,
    /// The source reported its end.
    End,
    /// A read failed.
    ReadFault,
    /// A write or a flush failed, or a write took nothing.
    WriteFault,
    /// The limit of reads that give bytes was reached.
    Limit,
}

/// Why a connection stops within the bytes of a pull.
#[derive(Clone, Copy, Debug, PartialEq, Eq)]
pub enum Stop {
    /// A line asked to quit, and all answers were written.
    Quit,
    /// The answers to the last lines were not written whole, or not flushed.
    WriteFault,
}

/// Runs the lines that the bytes of one pull complete, up to a line that asks to quit. Writes their
/// answers, those of one batch at once, and holds what comes after the last line feed. Returns why the
/// connection stops, if it does.
fn feed<S: Served, W: Sink>(
    alloc: Global,
    batch: Batch,
    held: &mut Held,
    speaker: &mut Option<S::Speaker>,
    service: &mut S,
    sink: &mut W,
    rooms: &mut Rooms,
    pulled: &[u8],
) -> Option<Stop>
    requires short { length pulled.now ≤ pull_limit }
    requires known { HasLoggedIn (S.seen service.old).speakers (option_map S.who speaker.old) }
    requires answers { MaySend W.sink (AreAnswers batch) sink.old }
    ensures heard { MatchOption result
        (Hears S.made (S.seen service.old).logins pulled.now
        (talk S.who held.old speaker.old service.old (W.sink.taken sink.old))
        (talk S.who held.new speaker.new service.new (W.sink.taken sink.new)))
        (λ how. Stops S.made (S.seen service.old).logins batch how pulled.now
        (talk S.who held.old speaker.old service.old (W.sink.taken sink.old)) service.new
        (W.sink.taken sink.new) (W.sink.pending sink.old) (W.sink.pending sink.new)) }
    ensures logins { (S.seen service.new).logins ≡ (S.seen service.old).logins }
    ensures speakers { (S.seen service.new).speakers ≡ (S.seen service.old).speakers }
    ensures known { HasLoggedIn (S.seen service.new).speakers (option_map S.who speaker.new) }
    ensures flushed { result ≢ Some Stop.WriteFault
        → IsFlushed (W.sink.pending sink.old) (W.sink.pending sink.new) }
    ensures faults { W.sink.faults sink.new ≡ stop_faults result (W.sink.faults sink.old) }
{
    let mut rest = pulled;
    while let Some((chunk, after)) = cut_line(rest) {
        let gathered = gather(alloc, batch, held, speaker, service, rooms, chunk, after);
        if !send(sink, rooms.answers.as_slice()) {
            return Some(Stop::WriteFault);
        }
        if gathered.quit {
            return Some(Stop::Quit);
        }
        rest = gathered.rest;
    }
    held.hold(rest);
    None
}

/// Serves the lines of a stream: first the bytes in `first`, which were read before, then those of
/// the source. It writes and flushes the answers to all lines of a read before the next read, and with
/// `EachReply` the answer to each line before the next line is run. It ends when a line asks to quit,
/// the source ends, a read or a write fails, or `limit` reads gave bytes.
///
/// The source may be pulled once all lines that came so far have their answers, written and
/// flushed, and none of them asked to quit.
pub fn serve_after<S: Served, R: Source, W: Sink>(
    alloc: Global,
    service: &mut S,
    first: &[u8],
    source: &mut R,
    sink: &mut W,
    limit: u64,
    batch: Batch,
) -> End
    requires limit { 1 ≤ limit }
    requires short { length first.now ≤ pull_limit }
    requires prompt { MayPull S.made S.seen R.source W.sink service.old
        (with_first first.now (wire R.source W.sink source.old sink.old)) }
    requires answers { MaySend W.sink (AreAnswers batch) sink.old }
    ensures { Serves S.made S.seen batch result limit service.old service.new
        (with_first first.now (wire R.source W.sink source.old sink.old))
        (wire R.source W.sink source.new sink.new) }
{
    // Two laws: calls one after another are one run, and another service gives the same replies.
    one_call_is_a_run();
    served_runs_go_on();
    tenants_are_answered_equally();
    let mut held = Held::new();
    let mut rooms = Rooms {
        key: [0u8; KEY_LIMIT],
        found: ReplyRoom::new(),
        reply: ArrayVec::new(),
        answers: ArrayVec::new(),
    };
    let mut speaker: Option<S::Speaker> = None;
    match feed(
        alloc,
        batch,
        &mut held,
        &mut speaker,
        service,
        sink,
        &mut rooms,
        first,
    ) {
        None => {}
        Some(Stop::Quit) => return End::Quit,
        Some(Stop::WriteFault) => return End::WriteFault,
    }
    let mut buffer = [0u8; PULL_LIMIT];
    for _pulls in 0..limit {
        match source.pull(&mut buffer) {
            Pull::Bytes(n) => {
                match feed(
                    alloc,
                    batch,
                    &mut held,
                    &mut speaker,
                    service,
                    sink,
                    &mut rooms,
                    &buffer[..n],
                ) {
                    None => {}
                    Some(Stop::Quit) => return End::Quit,
                    Some(Stop::WriteFault) => return End::WriteFault,
                }
            }
            Pull::End => return End::End,
            Pull::Fault => return End::ReadFault,
        }
    }
    End::Limit
}

/// Serves the lines of the source. It writes and flushes the answer to each line before the next line
/// is run. It ends when a line asks to quit, the source ends, a read or a write fails, or `limit` reads
/// gave bytes.
///
/// The source may be pulled once all lines that it gave have their answers, written and flushed,
/// and none of them asked to quit.
pub fn serve_up_to<S: Served, R: Source, W: Sink>(
    alloc: Global,
    service: &mut S,
    source: &mut R,
    sink: &mut W,
    limit: u64,
) -> End
    requires limit { 1 ≤ limit }
    requires prompt { MayPull S.made S.seen R.source W.sink service.old
        (wire R.source W.sink source.old sink.old) }
    requires answers { MaySend W.sink (AreAnswers Batch.EachReply) sink.old }
    ensures { Serves S.made S.seen Batch.EachReply result limit service.old service.new
        (wire R.source W.sink source.old sink.old)
        (wire R.source W.sink source.new sink.new) }
{
    serve_after(alloc, service, b"", source, sink, limit, Batch::EachReply)
}

/// `serve_up_to` with a limit of `READS_LIMIT` reads that give bytes.
pub fn serve<S: Served, R: Source, W: Sink>(
    alloc: Global,
    service: &mut S,
    source: &mut R,
    sink: &mut W,
) -> End
    requires prompt { MayPull S.made S.seen R.source W.sink service.old
        (wire R.source W.sink source.old sink.old) }
    requires answers { MaySend W.sink (AreAnswers Batch.EachReply) sink.old }
    ensures { Serves S.made S.seen Batch.EachReply result reads_limit service.old service.new
        (wire R.source W.sink source.old sink.old)
        (wire R.source W.sink source.new sink.new) }
{
    serve_up_to(alloc, service, source, sink, READS_LIMIT)
}

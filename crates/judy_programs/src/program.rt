//! The whole of `judyd run`, over any source and sink, and for any kind of service.
ghost use Rattle.std.specs.Prelude.{◌≡◌, ◌≤◌, None, true, length};
ghost use Rattle.judy_protocol.specs.Sending.{MaySend};
ghost use Rattle.judy_protocol.specs.Serving.{MayPull, pull_limit, wire, with_first};
ghost use Rattle.judy_programs.specs.Program.{HasRun, HasRunOn, IsSent, MayPullScript, is_refused, tells_words, words_line};
ghost use Rattle.judy_programs.specs.Tables.{MayPullTable};

use crate::opens::{Opens, Unopened};
use crate::reading::{HELD_LIMIT, Reading, read_table};
use arrayvec::ArrayVec;
use itoa::Buffer;
use judy_protocol::{Batch, End, READS_LIMIT, send, serve_after};
use judy_stream::{Sink, Source};
use judy_table::TableFault;
use std::alloc::Global;

/// How `judyd run` ended.
#[derive(Clone, Copy, Debug, PartialEq, Eq)]
pub enum Ran {
    /// The script was served, and this is how that ended.
    Served(End),
    /// The table of tenants has this fault. Nothing was served or written.
    Table(TableFault),
    /// The input ended before the line that ends the table. Nothing was served or written.
    Cut,
    /// No line that ends the table follows at most 65,536 bytes. Nothing was served or written.
    Long,
    /// Out of memory for the service. Nothing was served or written.
    Memory,
    /// A read failed before the line that ends the table. Nothing was served or written.
    Read,
    /// The script was served to its end, but the last line, with the number of words, was not
    /// written whole.
    Write,
}

/// The line that reports how many words the arena's blocks have.
fn words_text(n: u64) -> ArrayVec<u8, 64>
    ensures { result.items ≡ words_line n }
{
    let mut buffer = Buffer::new();
    let mut line = ArrayVec::new();
    let _ = line.try_extend_from_slice(b"WORDS ");
    let _ = line.try_extend_from_slice(buffer.format(n).as_bytes());
    let _ = line.try_extend_from_slice(b"\n");
    line
}

/// Whether that line follows a script that was served to this end.
fn tells_words(words: bool, end: End) -> bool
    ensures { result ≡ tells_words words end }
{
    if !words {
        return false;
    }
    match end {
        End::Quit => true,
        End::End => true,
        End::ReadFault => false,
        End::WriteFault => false,
        End::Limit => false,
    }
}

/// Serves a script: the bytes in `first`, which were read before, and then those of the source.
/// `batch` says which answers are written at once. If `words` is true and the script was served to its
/// end, it then writes a last line with the words of all blocks of all arrays.
///
/// The source may be pulled once all lines that came so far have their answers, written and
/// flushed, and none of them asked to quit.
pub fn run_on<S: Opens, R: Source, W: Sink>(
    alloc: Global,
    service: &mut S,
    first: &[u8],
    r: &mut R,
    w: &mut W,
    words: bool,
    batch: Batch,
) -> Ran
    requires short { length first.now ≤ pull_limit }
    requires prompt { MayPull S.made S.seen R.source W.sink service.old
        (with_first first.now (wire R.source W.sink r.old w.old)) }
    requires answers { MaySend W.sink (IsSent batch) w.old }
    ensures { HasRunOn S.made S.seen S.words_in words batch result service.old service.new
        (with_first first.now (wire R.source W.sink r.old w.old))
        (wire R.source W.sink r.new w.new) }
{
    let end = serve_after(alloc, service, first, r, w, READS_LIMIT, batch);
    let n = service.live_words();
    if !tells_words(words, end) {
        return Ran::Served(end);
    }
    let line = words_text(n);
    if send(w, line.as_slice()) {
        return Ran::Served(end);
    }
    Ran::Write
}

/// Reads a table of tenants and the line `---` that ends it. Then it serves the script that follows
/// to these tenants, and writes the answers of one batch at once.
///
/// The source may be pulled while no table has ended in what it gave and one may still end. Then it
/// may be pulled once all lines of the script that came so far have their answers, written and
/// flushed, and none of them asked to quit.
pub fn run_with<S: Opens + Drop, R: Source, W: Sink>(
    alloc: Global,
    secret: &[u8],
    r: &mut R,
    w: &mut W,
    words: bool,
    batch: Batch,
) -> Ran
    requires table { MayPullTable R.source r.old }
    requires prompt { MayPullScript S.made S.seen S.words_in (S.is_new secret.now None)
        R.source W.sink (wire R.source W.sink r.old w.old) }
    requires answers { MaySend W.sink (IsSent batch) w.old }
    ensures runs { HasRun S.made S.seen S.words_in (S.is_new secret.now None) words batch result
        (wire R.source W.sink r.old w.old)
        (wire R.source W.sink r.new w.new) }
    ensures quiet { is_refused result ≡ true → w.new ≡ w.old }
{
    let mut bytes: ArrayVec<u8, HELD_LIMIT> = ArrayVec::new();
    match read_table(r, &mut bytes) {
        Reading::Table { text, script } => {
            let table = bytes.as_slice().split_at(text).0;
            let first = bytes.as_slice().split_at(script).1;
            match S::open(alloc, secret, table) {
                Ok(mut service) => run_on(alloc, &mut service, first, r, w, words, batch),
                Err(Unopened::Table(fault)) => Ran::Table(fault),
                Err(Unopened::Memory) => Ran::Memory,
            }
        }
        Reading::Cut => Ran::Cut,
        Reading::Long => Ran::Long,
        Reading::Fault => Ran::Read,
    }
}

//! A source over a file that keeps why a read failed.
ghost use Rattle.std.specs.Prelude.{◌≡◌, ◌<◌, IfOk, OnErr, length, take};
ghost use Rattle.std.specs.Io.{ReadsAtMost};
ghost use Rattle.std.specs.Io.KnownBytes.{Consumes, IsAtEnd, Keeps};
ghost use Rattle.judy_stream.specs.Streams.{any_pull};

use judy_stream::{Pull, Source};
use std::io::{self, Read};

/// How often a read is tried that a signal interrupts.
const TRIES: u32 = 1_000_000;

/// Reads once. A read that a signal interrupts is tried again.
fn read_once<R: Read>(file: &mut R, buf: &mut [u8]) -> io::Result<usize>
    ensures bound { ReadsAtMost result buf.new }
    ensures ok { IfOk result
        (λ n. Consumes (R.remaining file.old) (R.remaining file.new) (take n buf.new)) }
    ensures end { IfOk result (λ n. n ≡ 0 → 0 < length buf.old → IsAtEnd (R.remaining file.new)) }
    ensures err { OnErr result (Keeps (R.remaining file.old) (R.remaining file.new)) }
{
    for _ in 0..TRIES {
        match file.read(buf) {
            Ok(n) => return Ok(n),
            Err(e) => {
                if e.kind() != io::ErrorKind::Interrupted {
                    return Err(e);
                }
            }
        }
    }
    Err(io::Error::from(io::ErrorKind::Interrupted))
}

/// A source over a file: each pull is one read, which a signal does not end. The error of a read that
/// failed is kept.
#[derive(Drop)]
pub struct FileReads<R> {
    file: R,
    gave: u64,
    ends: u64,
    faults: u64,
    fault: Option<io::Error>,
}

impl<R: Read> FileReads<R> {
    /// A source that has read nothing yet.
    pub fn new(file: R) -> Self
        ensures left { ⟦<FileReads<R> as Source>⟧.source.left result ≡ R.remaining file }
    {
        FileReads {
            file,
            gave: 0,
            ends: 0,
            faults: 0,
            fault: None,
        }
    }

    /// The error of the last read that failed, if one did.
    pub fn take_fault(&mut self) -> Option<io::Error> {
        self.fault.take()
    }
}

impl<R: Read> Source for FileReads<R> {
    ghost source = { record {
      left = λ r. R.remaining r.file;
      gave = λ r. r.gave;
      ends = λ r. r.ends;
      faults = λ r. r.faults;
      can_pull = any_pull;
    } };

    fn pull(&mut self, buf: &mut [u8]) -> Pull {
        match read_once(&mut self.file, buf) {
            Ok(0) => {
                self.ends = self.ends.saturating_add(1);
                Pull::End
            }
            Ok(n) => {
                self.gave = self.gave.saturating_add(1);
                Pull::Bytes(n)
            }
            Err(e) => {
                self.faults = self.faults.saturating_add(1);
                self.fault = Some(e);
                Pull::Fault
            }
        }
    }
}

//! Reads a file with a table of tenants.
ghost use Rattle.std.specs.Prelude.{◌≡◌, []};
ghost use Rattle.std.specs.Io.KnownBytes.{Consumes};
ghost use Rattle.judy_stream.specs.Streams.{MayAlwaysPull};
ghost use Rattle.judy_protocol.specs.Serving.{pull_limit};
ghost use Rattle.judy_programs.specs.TableEnds.{IsReadBy, file_ends, file_faults};

use crate::limits::{FILE_LIMIT, TABLE_LIMIT};
use arrayvec::ArrayVec;
use judy_protocol::PULL_LIMIT;
use judy_stream::{Pull, Source};

/// How the reading of a file ended.
#[derive(Clone, Copy, Debug, PartialEq, Eq)]
pub enum FileRead {
    /// The file was read whole.
    Whole,
    /// The file has more bytes than a table may have.
    Long,
    /// A read failed.
    Fault,
}

/// Reads the source to its end, or until it has given more bytes than a table may have. Appends the
/// bytes to `bytes`, which must be empty.
pub fn read_file<R: Source>(r: &mut R, bytes: &mut ArrayVec<u8, FILE_LIMIT>) -> FileRead
    requires empty { bytes.old.items ≡ [] }
    requires ready { MayAlwaysPull R.source pull_limit }
    ensures given { Consumes (R.source.left r.old) (R.source.left r.new) bytes.new.items }
    ensures read { IsReadBy result bytes.new.items (R.source.left r.new) }
    ensures ends { R.source.ends r.new ≡ file_ends result (R.source.ends r.old) }
    ensures faults { R.source.faults r.new ≡ file_faults result (R.source.faults r.old) }
{
    let mut pulled = [0u8; PULL_LIMIT];
    while bytes.len() <= TABLE_LIMIT {
        match r.pull(&mut pulled) {
            Pull::Bytes(n) => {
                let _fits = bytes.try_extend_from_slice(&pulled[..n]);
            }
            Pull::End => return FileRead::Whole,
            Pull::Fault => return FileRead::Fault,
        }
    }
    FileRead::Long
}

//! Reads the table of tenants from the front of the input.
ghost use Rattle.std.specs.Prelude.{◌≡◌, ◌+◌, ◌-◌, ◌^◌, ◌<◌, ◌≤◌, ◌++◌, [], length};
ghost use Rattle.std.specs.Io.KnownBytes.{Consumes};
ghost use Rattle.judy_programs.specs.TableEnds.{Finds, HasLines, Reads, reading_ends, reading_faults};
ghost use Rattle.judy_programs.specs.Tables.{MayPullTable};

pub use crate::limits::HELD_LIMIT;
use crate::table_end::{TableEnd, find_end};
use arrayvec::ArrayVec;
use judy_protocol::PULL_LIMIT;
use judy_stream::{Pull, Source};

/// How the reading of the table ended.
#[derive(Clone, Copy, Debug, PartialEq, Eq)]
pub enum Reading {
    /// The first `text` bytes are the table. The bytes from the place `script` on follow the line
    /// that ends it.
    Table {
        /// How many bytes the table has.
        text: usize,
        /// Where the script begins.
        script: usize,
    },
    /// The source ended before the table did.
    Cut,
    /// The source has no table that is short enough.
    Long,
    /// A read failed before the table ended.
    Fault,
}

/// Appends what was pulled to the bytes, and finds the end of the table. This many of the bytes are
/// whole lines, none of which ends the table.
fn add_pulled(bytes: &mut ArrayVec<u8, HELD_LIMIT>, pulled: &[u8], lines: usize) -> TableEnd
    requires room { length bytes.old.items + length pulled.now ≤ HELD_LIMIT }
    requires lines { HasLines (bytes.old.items ++ pulled.now) lines }
    ensures bytes { bytes.new.items ≡ bytes.old.items ++ pulled.now }
    ensures end { Finds result bytes.new.items }
{
    let _fits = bytes.try_extend_from_slice(pulled);
    find_end(bytes.as_slice(), lines)
}

/// Reads the source until the table of tenants ends. Appends the bytes that it gave to `bytes`,
/// which must be empty.
///
/// The source may be pulled while no table has ended in what it gave, and one that is short enough
/// may still end.
pub fn read_table<R: Source>(r: &mut R, bytes: &mut ArrayVec<u8, HELD_LIMIT>) -> Reading
    requires empty { bytes.old.items ≡ [] }
    requires open { MayPullTable R.source r.old }
    ensures given { Consumes (R.source.left r.old) (R.source.left r.new) bytes.new.items }
    ensures table { Reads result bytes.new.items (R.source.left r.new) }
    ensures ends { R.source.ends r.new ≡ reading_ends result (R.source.ends r.old) }
    ensures faults { R.source.faults r.new ≡ reading_faults result (R.source.faults r.old) }
    ensures more { R.source.gave r.new < 2 ^ 64 - 1 → R.source.gave r.old ≤ R.source.gave r.new }
    ensures reads { R.source.gave r.new ≤ R.source.gave r.old + 65541 }
{
    let mut lines = 0;
    let mut pulled = [0u8; PULL_LIMIT];
    loop {
        match r.pull(&mut pulled) {
            Pull::Bytes(n) => {
                match add_pulled(bytes, &pulled[..n], lines) {
                    TableEnd::At { text, script } => return Reading::Table { text, script },
                    TableEnd::Nowhere => return Reading::Long,
                    TableEnd::Later(at) => lines = at,
                }
            }
            Pull::End => return Reading::Cut,
            Pull::Fault => return Reading::Fault,
        }
    }
}

//! Finds where the table of tenants ends in the bytes of the input.
ghost use Rattle.std.specs.Prelude.{◌≡◌, ◌↔◌, ◌≤◌, true, false, IsTrue};
ghost use Rattle.judy_programs.specs.TableEnds.{BeginsMark, Finds, HasLines, MayEnd};
ghost use Rattle.judy_programs.specs.Tables.{is_mark};

use crate::limits::TABLE_LIMIT;
use judy_protocol::cut_line;

/// Where a table ends.
#[derive(Clone, Copy, Debug, PartialEq, Eq)]
pub enum TableEnd {
    /// The table has `text` bytes. What follows the line that ends it begins at the place `script`.
    At {
        /// How many bytes the table has.
        text: usize,
        /// Where the script begins.
        script: usize,
    },
    /// The table does not end here, and no bytes that follow could end one that is short enough.
    Nowhere,
    /// The table does not end yet. This many bytes are whole lines.
    Later(usize),
}

/// Whether the line ends the table.
fn is_mark(line: &[u8]) -> bool
    ensures { result ≡ is_mark line.now }
{
    line == b"---".as_slice() || line == b"---\r".as_slice()
}

/// Whether the bytes are the beginning of a line that ends the table.
fn begins_mark(rest: &[u8]) -> bool
    ensures { IsTrue result ↔ BeginsMark rest.now }
{
    b"---\r".as_slice().starts_with(rest)
}

/// Whether a table may still end, after `at` bytes of whole lines and these bytes.
fn may_end(at: usize, rest: &[u8]) -> bool
    requires { at ≤ TABLE_LIMIT }
    ensures { IsTrue result ↔ MayEnd at rest.now }
{
    begins_mark(rest) || rest.len() < TABLE_LIMIT - at
}

/// Finds the end of the table among the bytes of the input. The first `from` of them are lines that
/// do not end it.
pub fn find_end(bytes: &[u8], from: usize) -> TableEnd
    requires { HasLines bytes.now from }
    ensures { Finds result bytes.now }
{
    let mut rest = bytes.split_at(from).1;
    let mut at = from;
    while at <= TABLE_LIMIT {
        let Some((line, after)) = cut_line(rest) else {
            if may_end(at, rest) {
                return TableEnd::Later(at);
            }
            return TableEnd::Nowhere;
        };
        let next = at + line.len() + 1;
        if is_mark(line) {
            return TableEnd::At {
                text: at,
                script: next,
            };
        }
        at = next;
        rest = after;
    }
    TableEnd::Nowhere
}

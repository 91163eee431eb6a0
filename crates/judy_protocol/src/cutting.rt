//! Cuts lines out of bytes.
ghost use Rattle.std.specs.Prelude.{◌≡◌, ◌++◌, ◌∷◌, MatchOption};
ghost use Rattle.std.specs.Str.Lines.{strip_carriage_return};
ghost use Rattle.judy_protocol.specs.Talks.{HasNoLf};

use bstr::ByteSlice;

/// The bytes before the first LF, and those after it.
#[inline(always)]
pub fn cut_line(bytes: &[u8]) -> Option<(&[u8], &[u8])>
    ensures { MatchOption result (HasNoLf bytes.now)
        (λ cut. HasNoLf cut.0.now × (bytes.now ≡ cut.0.now ++ 10 ∷ cut.1.now)) }
{
    let Some(at) = bytes.find_byte(b'\n') else {
        return None;
    };
    let (line, from) = bytes.split_at(at);
    let (_, after) = from.split_at(1);
    Some((line, after))
}

/// A line without one CR at its end.
pub fn bare(line: &[u8]) -> &[u8]
    ensures { result.now ≡ strip_carriage_return line.now }
{
    if line.len() > 0 && line[line.len() - 1] == b'\r' {
        return &line[..line.len() - 1];
    }
    line
}

//! A record of a commit and the first line of a snapshot, taken apart.
ghost use Rattle.std.specs.Prelude.{◌≡◌, ◌≢◌, ℕ, List, None, length, IfSome, IsTrue, MatchOption};
ghost use Rattle.judy_journal.specs.Journals.{HasNoSpace, is_line, record_of};
ghost use Rattle.judy_journal.specs.Writes.{snapshot_line};

use crate::format::{SNAPSHOT, SUM_LEN, are_same, numbered_line};
use bstr::ByteSlice;

/// The tenant's name and the request of a record: the bytes before its first space, and those after
/// it. None if it has no space.
pub fn read_record(line: &[u8]) -> Option<(&[u8], &[u8])>
    ensures { MatchOption result (HasNoSpace line.now)
        (λ r. HasNoSpace r.0.now × (line.now ≡ record_of r.0.now r.1.now)) }
{
    let Some(at) = line.find_byte(b' ') else {
        return None;
    };
    let (tenant, from) = line.split_at(at);
    let (_, request) = from.split_at(1);
    Some((tenant, request))
}

/// The checksum in the first line of a snapshot of the segments up to this one. None if the line is
/// another.
pub fn snapshot_sum(line: &[u8], segment: u64) -> Option<[u8; SUM_LEN]>
    ensures is { IfSome result (λ sum. line.now ≡ snapshot_line segment sum) }
    ensures one { IfSome result (λ sum. IsTrue (is_line line.now) → IsTrue (is_line sum)) }
    ensures other { result ≡ None → (sum : List ℕ) → length sum ≡ SUM_LEN
        → line.now ≢ snapshot_line segment sum }
{
    if line.len() < SUM_LEN {
        return None;
    }
    let (_, digits) = line.split_at(line.len() - SUM_LEN);
    let mut sum = [b'0'; SUM_LEN];
    sum.copy_from_slice(digits);
    let header = numbered_line(SNAPSHOT, segment, &sum);
    if !are_same(line, header.as_slice()) {
        return None;
    }
    Some(sum)
}

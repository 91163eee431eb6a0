//! Makes a directory ready for a writer that goes on where a journal ends.
ghost use Rattle.std.specs.Prelude.{◌≡◌, IfOk};
ghost use Rattle.judy_disk.specs.Folders.{asked_of};
ghost use Rattle.judy_recovery.specs.Resuming.{IsFileOf, ResumesEnd, is_bare_at};
ghost use Rattle.judy_recovery.specs.Whole.{GoesOn};

use crate::ends::{End, FIRST_SUM};
use crate::reading::first_line_len;
use judy_disk::{DiskFault, Folder, Growing, Locks};
use judy_journal::SUM_LEN;

/// Where a writer goes on.
#[derive(Clone, Copy, Debug, PartialEq, Eq)]
pub struct Resumed {
    /// The segment: 0 if there is none yet.
    pub segment: u64,
    /// The checksum after the last commit.
    pub sum: [u8; SUM_LEN],
    /// How many bytes the segment has.
    pub size: u64,
    /// Whether the next segment has to be begun first: there is no file to go on with.
    pub begins: bool,
    /// Whether the segment has its first line, and no commit.
    pub is_bare: bool,
}

/// Writes the last segment anew up to its last whole commit, and opens it. What a crash left behind that
/// is kept beside it. If not even its first line is whole, it has no byte afterwards, and a writer begins
/// it anew. It is never removed: without it the segment after a snapshot could be missing.
pub fn resume<F: Locks>(
    folder: &mut Folder<'_, F>,
    end: Option<End>,
) -> Result<(Resumed, Option<Growing<F>>), DiskFault>
    ensures at { IfOk result (λ r. GoesOn end r.0) }
    ensures bare { IfOk result (λ r. r.0.is_bare ≡ is_bare_at end) }
    ensures file { IfOk result (λ r. IsFileOf end r.1) }
    ensures acts { ResumesEnd end result (asked_of folder.old) (asked_of folder.new) }
{
    let Some(end) = end else {
        let sum = FIRST_SUM;
        let first = Resumed {
            segment: 0,
            sum,
            size: 0,
            begins: true,
            is_bare: false,
        };
        return Ok((first, None));
    };
    let sum = end.sum;
    let growing = folder.resume(end.segment, end.size)?;
    if end.size == 0 {
        let before = Resumed {
            segment: end.segment.saturating_sub(1),
            sum,
            size: 0,
            begins: true,
            is_bare: false,
        };
        return Ok((before, None));
    }
    let here = Resumed {
        segment: end.segment,
        sum,
        size: end.size,
        begins: false,
        is_bare: end.size == first_line_len(end.segment),
    };
    Ok((here, Some(growing)))
}

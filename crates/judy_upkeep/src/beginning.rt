//! Makes the manifest of a journal that has none, and tells what a start would find.
use crate::closing::Nobody;
use judy_disk::{DiskFault, Folder, Found, Locks, Manifest};
use judy_protocol::cut_line;
use judy_recovery::{End, Halt, JournalFault, Player, recover};
use std::alloc::Global;

/// A fault of the directory.
fn of_disk(fault: DiskFault) -> JournalFault {
    JournalFault::Disk(fault)
}

/// Makes the manifest of a directory that has none: an empty one, or one with a journal that is whole.
/// No server may have the directory. After a fault it has no manifest.
pub fn begin_journal<F: Locks + Clone + Drop>(
    alloc: Global,
    folder: &mut Folder<'_, F>,
) -> Result<(), JournalFault> {
    let _closed = folder.take_closed().map_err(|e| of_disk(e))?;
    let _start = folder.take_start().map_err(|e| of_disk(e))?;
    let _lock = folder.take().map_err(|e| of_disk(e))?;
    let found = folder.scan_new().map_err(|e| of_disk(e))?;
    recover(folder, alloc, &found, &mut Nobody)?;
    folder.sync().map_err(|e| of_disk(e))?;
    folder
        .put_manifest(&Manifest::of(&found))
        .map_err(|e| of_disk(e))
}

/// Counts the records of a journal, and its commits that have one.
#[derive(Drop)]
struct Counting {
    commits: u64,
    records: u64,
}

/// How many lines a text has.
fn lines_in(text: &[u8]) -> u64 {
    let mut rest = text;
    let mut lines = 0;
    while let Some((_, after)) = cut_line(rest) {
        lines = u64::saturating_add(lines, 1);
        rest = after;
    }
    lines
}

impl Player for Counting {
    /// Nothing is said of the records.
    ghost plays = { λ _ _ _. Unit {0} };

    fn play(&mut self, records: &[u8]) -> Result<(), Halt> {
        let lines = lines_in(records);
        self.records = self.records.saturating_add(lines);
        if lines > 0 {
            self.commits = self.commits.saturating_add(1);
        }
        Ok(())
    }

    ghost rests = { λ _. tt };

    ghost joins = { λ _ _ _ _ _ _ _. tt };
}

/// What a start would find.
#[derive(Debug, Drop)]
pub struct Examined {
    /// The files.
    pub found: Found,
    /// Where the journal ends: None if there is no segment.
    pub end: Option<End>,
    /// How many of the torn bytes would be kept beside: none if they are all zeros.
    pub kept: u64,
    /// How many whole commits there are that have a record.
    pub commits: u64,
    /// How many records these have.
    pub records: u64,
}

/// Tells what a start would find in a directory. Nothing is changed. A server may use the directory
/// meanwhile: then what it writes may look torn.
pub fn examine<F: Locks + Clone + Drop>(
    alloc: Global,
    folder: &mut Folder<'_, F>,
) -> Result<Examined, JournalFault> {
    let reading = folder.read_lock_if_there();
    if let Some(lock) = &reading {
        let _held = folder.wait_to_read(lock);
    }
    let found = folder.scan().map_err(|e| of_disk(e))?;
    let mut counting = Counting {
        commits: 0,
        records: 0,
    };
    let end = recover(folder, alloc, &found, &mut counting)?;
    let kept = match &end {
        Some(end) if end.torn > 0 => folder.torn_len(end.segment, end.size),
        _ => Ok(0),
    };
    Ok(Examined {
        found,
        end,
        kept: kept.map_err(|e| of_disk(e))?,
        commits: counting.commits,
        records: counting.records,
    })
}

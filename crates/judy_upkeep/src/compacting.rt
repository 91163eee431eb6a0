//! Makes one snapshot of the closed segments of a journal.
ghost use Rattle.std.specs.Prelude.{◌≡◌, ◌<◌, ℕ, Some, IfOk, OnErr, is_some};
ghost use Rattle.judy_upkeep.specs.Compacting.{HasCompacted, HasFinished, HasLooked, IsUpto, seen};

use crate::closing::close_last;
use crate::output::Output;
use crate::playing::Playing;
use crate::replacing::{Replacing, remove_left, replace};
use crate::writing::Walk;
use judy_disk::{DiskFault, Folder, Found, Locks, NewSnapshot, Place};
use judy_journal::Writer;
use judy_programs::Opens;
use judy_recovery::{End, JournalFault, Reason, recover_closed};
use std::alloc::Global;
use std::fs::Files;

/// What a compaction did.
#[derive(Clone, Copy, Debug, PartialEq, Eq)]
pub enum Compacted {
    /// There was no closed segment that a snapshot does not stand for already.
    Nothing,
    /// The snapshot with this number stands for all segments up to it.
    Snapshot(u64),
}

/// Why there is no new snapshot. The journal is as it was.
#[derive(Debug, Drop)]
pub enum Uncompacted {
    /// The journal cannot be read.
    Journal(JournalFault),
    /// The new snapshot cannot be written, or an old file not be removed.
    Disk(DiskFault),
    /// Out of memory.
    Memory,
    /// Some entries of the journal did not come out of its records.
    Left,
}

impl From<JournalFault> for Uncompacted {
    fn from(fault: JournalFault) -> Uncompacted {
        Uncompacted::Journal(fault)
    }
}

impl From<DiskFault> for Uncompacted {
    fn from(fault: DiskFault) -> Uncompacted {
        Uncompacted::Disk(fault)
    }
}

/// Begins a snapshot of the segments up to this end.
fn begin<F: Locks>(
    alloc: Global,
    folder: &mut Folder<'_, F>,
    end: &End,
) -> Result<(Box<Writer>, NewSnapshot<F>), Uncompacted> {
    let Ok(mut writer) = Box::new(alloc, Writer::new(end.segment, &end.sum, 0)) else {
        return Err(Uncompacted::Memory);
    };
    let mut file = folder.begin_snapshot()?;
    writer.begin_snapshot();
    file.append(writer.text())?;
    Ok((writer, file))
}

/// Why a snapshot is not written, by what was found at an entry.
fn of_reason(why: Reason, fault: Option<DiskFault>) -> Uncompacted {
    match (why, fault) {
        (_, Some(fault)) => Uncompacted::Disk(fault),
        (Reason::Memory, None) => Uncompacted::Memory,
        (_, None) => Uncompacted::Left,
    }
}

/// Writes all entries to a snapshot, and removes them. Afterwards no array has a word.
fn write_entries<S: Opens + Drop, F: Files>(
    playing: Playing<S>,
    output: Output<F>,
) -> Result<Output<F>, Uncompacted> {
    let (mut playing, mut output) = (playing, output);
    if let Err(why) = Walk::new().write_all(&mut playing, &mut output) {
        return Err(of_reason(why, output.take_fault()));
    }
    if playing.entries.live_words() > 0 {
        return Err(Uncompacted::Left);
    }
    Ok(output)
}

/// Writes all entries that a journal has made to a new snapshot, which has no name yet.
fn rewrite<S: Opens + Drop, F: Locks>(
    alloc: Global,
    folder: &mut Folder<'_, F>,
    end: &End,
    playing: Playing<S>,
) -> Result<NewSnapshot<F>, Uncompacted> {
    let (writer, file) = begin(alloc, folder, end)?;
    let mut output = write_entries(playing, Output::new(writer, file))?;
    match output.end() {
        Ok(()) => Ok(output.into_file()),
        Err(Some(fault)) => Err(Uncompacted::Disk(fault)),
        Err(None) => Err(Uncompacted::Left),
    }
}

/// Closes the last segment, if no server has the directory.
fn close_if_free<F: Locks + Clone + Drop>(
    alloc: Global,
    folder: &mut Folder<'_, F>,
) -> Result<(), Uncompacted> {
    let _start = folder.take_start()?;
    match folder.take_if_free()? {
        Some(_lock) => close_last(alloc, folder),
        None => Ok(()),
    }
}

/// What a compaction has read, and the new snapshot that it has written, if one is due.
#[derive(Drop)]
struct Ready<F: Files> {
    found: Found,
    file: Option<NewSnapshot<F>>,
    /// The snapshot with this number stands for all files up to it.
    upto: u64,
}

/// The number up to which files may go that an earlier compaction has left: that of the snapshot, and less than
/// that of the last segment.
fn left_upto(snapshot: Option<u64>, last: Option<u64>) -> u64
    ensures { (number : ℕ) → last ≡ Some number → 0 < number → result < number }
{
    let upto = snapshot.unwrap_or(0);
    match last {
        Some(last) => u64::min(upto, last.saturating_sub(1)),
        None => upto,
    }
}

/// Writes one snapshot of the snapshot before and of the closed segments that were found. It has no name yet.
fn prepare_found<S: Opens + Drop, F: Locks + Clone + Drop>(
    alloc: Global,
    secret: &[u8],
    folder: &mut Folder<'_, F>,
    found: Found,
) -> Result<Ready<F>, Uncompacted>
    requires { (number : ℕ) → found.last ≡ Some number → 0 < number }
    ensures found { IfOk result (λ ready. ready.found.last ≡ found.last) }
    ensures upto { IfOk result (λ ready. IsUpto (is_some ready.file) ready.upto found.last) }
{
    let mut playing: Playing<S> = match Playing::open(alloc, secret) {
        Ok(playing) => playing,
        Err(why) => return Err(of_reason(why, None)),
    };
    let Some(end) = recover_closed(folder, alloc, &found, &mut playing)? else {
        let upto = left_upto(found.snapshot, found.last);
        return Ok(Ready {
            found,
            file: None,
            upto,
        });
    };
    let file = rewrite(alloc, folder, &end, playing)?;
    Ok(Ready {
        found,
        file: Some(file),
        upto: end.segment,
    })
}

/// Writes one snapshot of the snapshot before and of the closed segments, which this program has taken. It
/// has no name yet.
fn prepare<S: Opens + Drop, F: Locks + Clone + Drop>(
    alloc: Global,
    secret: &[u8],
    directory: &mut Replacing<'_, F>,
) -> Result<Ready<F>, Uncompacted>
    ensures looked { IfOk result (λ ready. directory.new.log.acts ≡ seen directory.old.log.acts ready.found.last) }
    ensures upto { IfOk result (λ ready. IsUpto (is_some ready.file) ready.upto ready.found.last) }
    ensures failed { OnErr result (HasLooked directory.old.log.acts directory.new.log.acts) }
{
    close_if_free(alloc, &mut directory.folder)?;
    let found = directory.scan()?;
    prepare_found::<S, F>(alloc, secret, &mut directory.folder, found)
}

/// Puts a new snapshot, if there is one, in the place of the files that it stands for. Otherwise removes what a
/// compaction before has left that did not come to its end.
fn finish<F: Locks>(
    directory: &mut Replacing<'_, F>,
    found: &Found,
    upto: u64,
) -> Result<Compacted, DiskFault>
    ensures { HasFinished (is_some directory.old.file) upto result (Some directory.old.log.acts)
        (Some directory.new.log.acts) }
{
    if directory.file.is_none() {
        remove_left(directory, found, upto)?;
        return Ok(Compacted::Nothing);
    }
    replace(directory, found, upto)?;
    Ok(Compacted::Snapshot(upto))
}

/// Makes one snapshot of the snapshot before and of the closed segments. In it each entry is written
/// once. Then the files that it stands for are removed. All segments but the last are closed; if no
/// server has the directory, the last is closed first. The last segment that is found stays.
///
/// If the program ends at any moment, the directory has a journal of the same entries. If the snapshot
/// cannot be written, what was written of it is removed, so that it takes no room.
pub fn compact<S: Opens + Drop, F: Locks + Clone + Drop>(
    alloc: Global,
    secret: &[u8],
    directory: &mut Replacing<'_, F>,
) -> Result<Compacted, Uncompacted>
    ensures { HasCompacted result directory.old.log.acts directory.new.log.acts }
{
    let _closed = directory.folder.take_closed()?;
    let ready = match prepare::<S, F>(alloc, secret, directory) {
        Ok(ready) => ready,
        Err(why) => {
            let _removed = directory.folder.remove(Place::NewSnapshot);
            return Err(why);
        }
    };
    let Ready { found, file, upto } = ready;
    directory.file = file;
    match finish(directory, &found, upto) {
        Ok(done) => Ok(done),
        Err(fault) => {
            directory.discard();
            Err(Uncompacted::Disk(fault))
        }
    }
}

//! Closes the last segment of a journal that no server has.
ghost use Rattle.std.specs.Prelude.{◌≡◌, ◌<◌, []};

use crate::compacting::Uncompacted;
use judy_disk::{DiskFault, Folder, Growing, Locks, Manifest, Place};
use judy_journal::{LAST_SEGMENT, Writer};
use judy_recovery::{Halt, Player, Resumed, recover, resume};
use std::alloc::Global;
use std::fs::Files;

/// A player that does nothing with the records.
#[derive(Drop)]
pub(crate) struct Nobody;

impl Player for Nobody {
    /// Nothing is said of the records.
    ghost plays = { λ _ _ _. Unit {0} };

    fn play(&mut self, _records: &[u8]) -> Result<(), Halt> {
        Ok(())
    }

    ghost rests = { λ _. tt };

    ghost joins = { λ _ _ _ _ _ _ _. tt };
}

/// Writes the first line of a segment, and secures it.
fn put_first<F: Files>(growing: &mut Growing<F>, text: &[u8]) -> Result<(), DiskFault> {
    growing.append(text)?;
    growing.sync()
}

/// Begins the segment after this one, with its first line, and raises the manifest to it. If the line
/// cannot be written, there is no such segment, unless it was there before.
fn begin_next<F: Locks>(
    folder: &mut Folder<'_, F>,
    writer: &mut Writer,
    is_there: bool,
) -> Result<(), DiskFault>
    requires ended { writer.old.records ≡ [] }
    requires number { writer.old.segment < LAST_SEGMENT }
{
    writer.next_segment();
    let mut growing = folder.begin(writer.segment())?;
    let put = put_first(&mut growing, writer.text());
    if put.is_err() && !is_there {
        let _removed = folder.remove(Place::Segment(writer.segment()));
    }
    put?;
    folder.raise_manifest(Manifest {
        snapshot: 0,
        last: writer.segment(),
    })
}

/// Begins the segment after the one where a writer would go on, unless that one has no commit.
fn begin_after<F: Locks>(
    alloc: Global,
    folder: &mut Folder<'_, F>,
    at: Resumed,
) -> Result<(), Uncompacted> {
    if at.is_bare || at.segment >= LAST_SEGMENT {
        return Ok(());
    }
    let Ok(mut writer) = Box::new(alloc, Writer::new(at.segment, &at.sum, at.size)) else {
        return Err(Uncompacted::Memory);
    };
    begin_next(folder, &mut *writer, at.begins)?;
    Ok(())
}

/// Closes the last segment, if there is one and it has a commit: what a crash left behind its last
/// whole commit is kept beside, and the next segment is begun. If it cannot be, the last one stays the
/// last. No server may have the directory.
pub fn close_last<F: Locks + Clone + Drop>(
    alloc: Global,
    folder: &mut Folder<'_, F>,
) -> Result<(), Uncompacted> {
    let found = folder.scan()?;
    let end = recover(folder, alloc, &found, &mut Nobody)?;
    if end.is_none() {
        return Ok(());
    }
    let (at, _) = resume(folder, end)?;
    folder.raise_manifest(Manifest::of(&found))?;
    begin_after(alloc, folder, at)
}

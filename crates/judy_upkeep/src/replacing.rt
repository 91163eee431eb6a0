//! The last step of a compaction: the new snapshot takes the place of the files that it stands for.
ghost use Rattle.std.specs.Prelude.{◌≡◌, ◌++◌, [], ◌∷◌, Some, IfOk, OnErr, OnOk, is_some, true};
ghost use Rattle.judy_disk.specs.Acts.{Asks};
ghost use Rattle.judy_disk.specs.Folders.{RaisesManifest, asked_of};
ghost use Rattle.judy_disk.specs.Listings.{Scans};
ghost use Rattle.judy_upkeep.specs.Directories.{HasRemovedLast, Secures, folder_secured, named_as, to_snapshot};
ghost use Rattle.judy_upkeep.specs.Replacing.{HasRemoved, HasRemovedLeft, HasReplaced, is_stale};
ghost use Rattle.judy_upkeep.specs.Steps.{Acts, Logs, act_of};
ghost use Rattle.judy_upkeep.specs.Steps.Act.{Saw};

use crate::record::{Record, Step};
use judy_disk::{DiskFault, Folder, Found, Locks, Manifest, NewSnapshot, Place};
use std::fs::Files;
use std::io;

/// A directory with a new snapshot, which has no name yet.
pub trait Replaces {
    /// What was asked of the directory so far, where it is known.
    ghost log: { Self → Acts };

    /// Secures the bytes of the new snapshot.
    fn secure(&mut self) -> Result<(), DiskFault>
        ensures { Logs (log self.old) (act_of Step.Secure result ∷ []) (log self.new) };

    /// Gives the new snapshot the name of the one that stands for the segments up to this number.
    fn rename(&mut self, number: u64) -> Result<(), DiskFault>
        ensures { Logs (log self.old) (act_of (Step.Rename number) result ∷ []) (log self.new) };

    /// Secures which files the directory has.
    fn sync(&mut self) -> Result<(), DiskFault>
        ensures { Logs (log self.old) (act_of Step.Sync result ∷ []) (log self.new) };

    /// Has the manifest name the snapshot with this number, for good.
    fn note(&mut self, number: u64) -> Result<(), DiskFault>
        ensures { Logs (log self.old) (act_of (Step.Note number) result ∷ []) (log self.new) };

    /// Removes a file.
    fn remove(&mut self, place: Place) -> Result<(), DiskFault>
        ensures { Logs (log self.old) (act_of (Step.Remove place) result ∷ []) (log self.new) };
}

/// The directory of a journal, with a new snapshot once one was written. Before the first file is removed
/// it waits until nobody reads. It keeps a log of the steps of a compaction, which only clauses read. Each
/// step says what it asks of the files.
#[derive(Drop)]
pub struct Replacing<'a, F: Locks> {
    pub(crate) folder: Folder<'a, F>,
    /// The new snapshot, which has no name yet.
    pub(crate) file: Option<NewSnapshot<F>>,
    /// The lock of readers, once a file is removed.
    alone: Option<F::File>,
    pub(crate) log: Record,
}

/// Secures a new snapshot. One that is not there is a fault.
fn secure_file<F: Files>(file: &mut Option<NewSnapshot<F>>) -> Result<(), DiskFault>
    ensures { Secures file.old result file.new }
{
    match file {
        Some(file) => file.secure(),
        None => {
            let reason = io::Error::from(io::ErrorKind::NotFound);
            Err(DiskFault::at(Place::NewSnapshot, reason))
        }
    }
}

impl<'a, F: Locks> Replacing<'a, F> {
    /// The directory. No step was made yet.
    pub fn new(folder: Folder<'a, F>) -> Self
        ensures { result.log.acts ≡ [] }
    {
        Replacing {
            folder,
            file: None,
            alone: None,
            log: Record::new(),
        }
    }

    /// Removes the new snapshot, if it has no name yet.
    pub fn discard(&mut self)
        ensures { self.new.log.acts ≡ self.old.log.acts }
    {
        let _removed = self.folder.remove(Place::NewSnapshot);
    }

    /// Lets nobody read from now on.
    fn stop_readers(&mut self) -> Result<(), DiskFault>
        ensures alone { OnOk result (is_some self.new.alone ≡ true) }
        ensures log { self.new.log.acts ≡ self.old.log.acts }
    {
        if self.alone.is_some() {
            return Ok(());
        }
        let lock = self.folder.take_from_readers()?;
        self.alone = Some(lock);
        Ok(())
    }

    /// Removes a file, once nobody reads.
    fn remove_alone(&mut self, place: Place) -> Result<(), DiskFault>
        ensures alone { OnOk result (is_some self.new.alone ≡ true) }
        ensures removed { OnOk result (HasRemovedLast place (asked_of self.new.folder)) }
        ensures log { self.new.log.acts ≡ self.old.log.acts }
    {
        self.stop_readers()?;
        self.folder.remove(place)
    }
}

impl<'a, F: Locks + Clone + Drop> Replacing<'a, F> {
    /// Which files the directory has.
    pub fn scan(&mut self) -> Result<Found, DiskFault>
        ensures scanned { Scans result (asked_of self.old.folder) (asked_of self.new.folder) }
        ensures seen { IfOk result (λ found. self.new.log.acts ≡ self.old.log.acts ++ Saw found.last ∷ []) }
        ensures unseen { OnErr result (self.new.log.acts ≡ self.old.log.acts) }
    {
        match self.folder.scan() {
            Ok(found) => {
                self.log.saw(found.last);
                Ok(found)
            }
            Err(fault) => Err(fault),
        }
    }
}

impl<'a, F: Locks> Replaces for Replacing<'a, F> {
    ghost log = { λ r. Some r.log.acts };

    fn secure(&mut self) -> Result<(), DiskFault>
        ensures noted { Logs (Some self.old.log.acts) (act_of Step.Secure result ∷ []) (Some self.new.log.acts) }
        ensures secured { Secures self.old.file result self.new.file }
    {
        let done = secure_file(&mut self.file);
        self.log.told(Step::Secure, &done);
        done
    }

    fn rename(&mut self, number: u64) -> Result<(), DiskFault>
        ensures noted { Logs (Some self.old.log.acts) (act_of (Step.Rename number) result ∷ [])
            (Some self.new.log.acts) }
        ensures named { Asks (named_as number) result (asked_of self.old.folder) (asked_of self.new.folder) }
    {
        let done = self.folder.name_snapshot(number);
        self.log.told(Step::Rename(number), &done);
        done
    }

    fn sync(&mut self) -> Result<(), DiskFault>
        ensures noted { Logs (Some self.old.log.acts) (act_of Step.Sync result ∷ []) (Some self.new.log.acts) }
        ensures synced { Asks folder_secured result (asked_of self.old.folder) (asked_of self.new.folder) }
    {
        let done = self.folder.sync();
        self.log.told(Step::Sync, &done);
        done
    }

    fn note(&mut self, number: u64) -> Result<(), DiskFault>
        ensures noted { Logs (Some self.old.log.acts) (act_of (Step.Note number) result ∷ [])
            (Some self.new.log.acts) }
        ensures raised { RaisesManifest (to_snapshot number) result (asked_of self.old.folder)
            (asked_of self.new.folder) }
    {
        let done = self.folder.raise_manifest(Manifest {
            snapshot: number,
            last: 0,
        });
        self.log.told(Step::Note(number), &done);
        done
    }

    fn remove(&mut self, place: Place) -> Result<(), DiskFault>
        ensures noted { Logs (Some self.old.log.acts) (act_of (Step.Remove place) result ∷ [])
            (Some self.new.log.acts) }
        ensures alone { OnOk result (is_some self.new.alone ≡ true) }
        ensures removed { OnOk result (HasRemovedLast place (asked_of self.new.folder)) }
    {
        let done = self.remove_alone(place);
        self.log.told(Step::Remove(place), &done);
        done
    }
}

/// Whether the snapshot with this number stands for a file.
fn is_stale(place: Place, upto: u64) -> bool
    ensures { result ≡ is_stale upto place }
{
    match place {
        Place::Segment(number) => number <= upto,
        Place::Torn(number) => number <= upto,
        Place::Snapshot(number) => number < upto,
        Place::Folder => false,
        Place::Lock => false,
        Place::CompactLock => false,
        Place::ReadLock => false,
        Place::StartLock => false,
        Place::NewSegment(_) => false,
        Place::NewTorn(_) => false,
        Place::NewSnapshot => false,
        Place::Manifest => false,
        Place::NewManifest => false,
        Place::ManifestLock => false,
    }
}

/// Removes a file if the snapshot with this number stands for it.
fn remove_one<D: Replaces>(directory: &mut D, place: Place, upto: u64) -> Result<(), DiskFault>
    ensures { HasRemoved result upto (D.log directory.old) (D.log directory.new) }
{
    if is_stale(place, upto) {
        return directory.remove(place);
    }
    Ok(())
}

/// Removes files if the snapshot with this number stands for them.
fn remove_places<D: Replaces>(
    directory: &mut D,
    places: &[Place],
    upto: u64,
) -> Result<(), DiskFault>
    ensures { HasRemoved result upto (D.log directory.old) (D.log directory.new) }
{
    for place in places {
        if let Err(fault) = remove_one(directory, *place, upto) {
            return Err(fault);
        }
    }
    Ok(())
}

/// Removes the segments from the first one on that the snapshot with this number stands for.
fn remove_segments<D: Replaces>(directory: &mut D, first: u64, upto: u64) -> Result<(), DiskFault>
    ensures { HasRemoved result upto (D.log directory.old) (D.log directory.new) }
{
    for number in first..upto.saturating_add(1) {
        if let Err(fault) = remove_one(directory, Place::Segment(number), upto) {
            return Err(fault);
        }
    }
    Ok(())
}

/// Removes the snapshot that was read, if there is one.
fn remove_snapshot<D: Replaces>(
    directory: &mut D,
    snapshot: Option<u64>,
    upto: u64,
) -> Result<(), DiskFault>
    ensures { HasRemoved result upto (D.log directory.old) (D.log directory.new) }
{
    match snapshot {
        Some(number) => remove_one(directory, Place::Snapshot(number), upto),
        None => Ok(()),
    }
}

/// Removes all files that the snapshot with this number stands for, the oldest first, and no other.
pub fn remove_stale<D: Replaces>(
    directory: &mut D,
    found: &Found,
    upto: u64,
) -> Result<(), DiskFault>
    ensures { HasRemoved result upto (D.log directory.old) (D.log directory.new) }
{
    if let Err(fault) = remove_places(directory, found.old.as_slice(), upto) {
        return Err(fault);
    }
    if let Err(fault) = remove_snapshot(directory, found.snapshot, upto) {
        return Err(fault);
    }
    remove_segments(directory, found.first, upto)
}

/// Removes what a compaction before left that did not come to its end, once the manifest names its
/// snapshot, the one with this number. After a step that fails there is none.
pub fn remove_left<D: Replaces>(
    directory: &mut D,
    found: &Found,
    upto: u64,
) -> Result<(), DiskFault>
    ensures { HasRemovedLeft result upto (D.log directory.old) (D.log directory.new) }
{
    directory.sync()?;
    directory.note(upto)?;
    remove_stale(directory, found, upto)
}

/// Puts the new snapshot in the place of all files that it stands for, the segments up to this number
/// and the snapshot before. First its bytes are secured. Then it gets its name, the directory is synced,
/// and the manifest names it. Only then they are removed. After a step that fails there is none.
pub fn replace<D: Replaces>(directory: &mut D, found: &Found, upto: u64) -> Result<(), DiskFault>
    ensures { HasReplaced result upto (D.log directory.old) (D.log directory.new) }
{
    directory.secure()?;
    directory.rename(upto)?;
    directory.sync()?;
    directory.note(upto)?;
    remove_stale(directory, found, upto)
}

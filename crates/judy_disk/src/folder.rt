//! The directory of a journal.
ghost use Rattle.std.specs.Prelude.{◌≡◌, [], IfOk};
ghost use Rattle.judy_disk.specs.Acts.{Asks, TriesLock};
ghost use Rattle.judy_disk.specs.Acts.Ask.{Lock, Rename, Share, TryLock, TryShare};
ghost use Rattle.judy_disk.specs.Folders.{asked_of, Begins, BeginsMade, ChecksVacant, FindsManifest, LocksIfFree, LocksIfThere, LocksOpened};
ghost use Rattle.judy_disk.specs.Folders.{MakesAnew, MakesOrOpens, PutsManifest, RaisesFound, RaisesManifest, Removes, Takes, WritesManifest};
ghost use Rattle.judy_disk.specs.Growth.{acts_of, file_of, place_of, room_of};
ghost use Rattle.judy_disk.specs.Listings.{Finds, FindsNames, Scans, ScansNew};
ghost use Rattle.judy_disk.specs.Rooms.{room_at};
ghost use Rattle.judy_disk.specs.declared.faults.DiskFault.TheVariants.{Compacted, InUse};
ghost use Rattle.judy_disk.specs.declared.names.Place.TheVariants.{CompactLock, NewSegment, ReadLock, Segment, Snapshot, StartLock};
ghost use Rattle.judy_disk.specs.declared.names.Place.TheVariants as Place;

use crate::faults::DiskFault;
use crate::files::{Growing, NewSnapshot};
use crate::locks::Locks;
use crate::manifest::{MANIFEST_ROOM, Manifest};
use crate::names::Place;
use crate::record::Record;
use crate::scan::{Found, Names};
use crate::system::Written;
use std::alloc::Global;
use std::fs::{Files, OpenOptions};
use std::io;

/// The directory of a journal, by its path. It keeps a log of what was asked of the system about its files.
#[derive(Drop)]
pub struct Folder<'a, F: Files> {
    pub(crate) files: &'a F,
    pub(crate) alloc: Global,
    pub(crate) path: String,
    pub(crate) log: Record,
}

impl<'a, F: Files> Folder<'a, F> {
    /// The directory at this path. Nothing was asked yet.
    pub fn new(files: &'a F, alloc: Global, path: String) -> Self
        ensures { asked_of result ≡ [] }
    {
        Folder {
            files,
            alloc,
            path,
            log: Record::new(),
        }
    }

    /// The path of the directory.
    pub fn path(&self) -> &str {
        self.path.as_str()
    }

    /// The manifest. None if there is none.
    pub fn manifest(&mut self) -> Result<Option<Manifest>, DiskFault>
        ensures { FindsManifest result (asked_of self.old) (asked_of self.new) }
    {
        let mut room = [0u8; MANIFEST_ROOM];
        let len = match self.read_manifest(&mut room) {
            Ok(len) => len,
            Err(unread) if unread.is_absent() => return Ok(None),
            Err(unread) => return Err(unread),
        };
        match Manifest::read(&room[..len]) {
            Some(manifest) => Ok(Some(manifest)),
            None => Err(DiskFault::Manifest),
        }
    }

    /// A file that has a byte is at fault. One that is not there is none.
    fn check_vacant(&mut self, place: Place) -> Result<(), DiskFault>
        ensures { ChecksVacant place result (asked_of self.old) (asked_of self.new) }
    {
        let reason = match self.measure(place) {
            Ok(0) => return Ok(()),
            Ok(_) => io::Error::from(io::ErrorKind::AlreadyExists),
            Err(fault) if fault.is_absent() => return Ok(()),
            Err(fault) => return Err(fault),
        };
        Err(DiskFault::at(place, reason))
    }

    /// Gives a segment that was made ahead its name. It is there after a crash too. One that has the name
    /// is a fault, but for one without a byte, whose place it takes.
    pub fn begin_made(&mut self, made: Growing<F>, number: u64) -> Result<Growing<F>, DiskFault>
        ensures acts { BeginsMade (place_of made) number result (asked_of self.old) (asked_of self.new) }
        ensures place { IfOk result (λ file. place_of file ≡ Segment number) }
        ensures room { IfOk result (λ file. room_of file ≡ room_of made) }
        ensures same { IfOk result (λ file. acts_of file ≡ acts_of made) }
    {
        let place = Place::Segment(number);
        self.check_vacant(place)?;
        self.rename(made.place(), place)?;
        self.sync()?;
        Ok(made.renamed(place))
    }

    /// Gives the snapshot that was written its name, so that it stands for the segments up to this
    /// number. It must be secured before. That it has its name is secured by `sync`.
    pub fn name_snapshot(&mut self, number: u64) -> Result<(), DiskFault>
        ensures { Asks (Rename Place.NewSnapshot (Snapshot number)) result (asked_of self.old) (asked_of self.new) }
    {
        self.rename(Place::NewSnapshot, Place::Snapshot(number))
    }
}

impl<'a, F: Files + Clone + Drop> Folder<'a, F> {
    /// The names of its files.
    fn names(&mut self) -> Result<Names, DiskFault>
        ensures { FindsNames result (asked_of self.old) (asked_of self.new) }
    {
        let mut listing = self.list()?;
        let mut names = Names::new(self.alloc);
        while let Some(entry) = self.next_listed(&mut listing)? {
            names.put(self.alloc, entry.file_name())?;
        }
        Ok(names)
    }

    /// Which files the directory has, whatever its manifest names. Nothing is changed.
    pub fn scan_unnamed(&mut self) -> Result<Found, DiskFault>
        ensures { Finds result (asked_of self.old) (asked_of self.new) }
    {
        self.names()?.arrange(self.alloc)
    }

    /// Which files the directory has. Those that its manifest names are all there. Nothing is changed.
    pub fn scan(&mut self) -> Result<Found, DiskFault>
        ensures { Scans result (asked_of self.old) (asked_of self.new) }
    {
        // A file that comes later is not missing, so the manifest is read first.
        let manifest = match self.manifest()? {
            Some(manifest) => manifest,
            None => return Err(DiskFault::NoManifest),
        };
        self.names()?.arrange_by(self.alloc, manifest)
    }

    /// Which files the directory of a new journal has: it has no manifest yet. Nothing is changed.
    pub fn scan_new(&mut self) -> Result<Found, DiskFault>
        ensures { ScansNew result (asked_of self.old) (asked_of self.new) }
    {
        match self.manifest() {
            Ok(None) => self.scan_unnamed(),
            Ok(Some(_)) | Err(DiskFault::Manifest) => Err(DiskFault::HasManifest),
            Err(fault) => Err(fault),
        }
    }
}

impl<'a, F: Locks> Folder<'a, F> {
    /// Makes a file, or opens the one that is there.
    fn make_or_open(&mut self, place: Place) -> Result<F::File, DiskFault>
        ensures { MakesOrOpens place result (asked_of self.old) (asked_of self.new) }
    {
        match self.make(place) {
            Ok(file) => Ok(file),
            Err(fault) => {
                if !fault.is_there() {
                    return Err(fault);
                }
                self.open_to_write(place)
            }
        }
    }

    /// Makes a new segment, which has no byte yet. It is there after a crash too. One that is there is a
    /// fault, but for one without a byte, which is taken.
    pub fn begin(&mut self, number: u64) -> Result<Growing<F>, DiskFault>
        ensures acts { Begins number result (asked_of self.old) (asked_of self.new) }
        ensures place { IfOk result (λ file. place_of file ≡ Segment number) }
        ensures room { IfOk result (λ file. room_of file ≡ room_at 0) }
        ensures new { IfOk result (λ file. acts_of file ≡ []) }
    {
        let place = Place::Segment(number);
        let file = Written::new(self.make_or_open(place)?);
        file.check_empty(&mut self.log, place)?;
        self.sync()?;
        Ok(Growing::new(file, place, 0))
    }

    /// Makes a file anew. One that was begun before is removed.
    pub(crate) fn make_written(&mut self, place: Place) -> Result<Written<F>, DiskFault>
        ensures { MakesAnew place result (asked_of self.old) (asked_of self.new) }
    {
        let _removed = self.remove(place);
        Ok(Written::new(self.make(place)?))
    }

    /// Makes a file anew. One that was begun before is removed.
    pub(crate) fn make_anew(&mut self, place: Place) -> Result<Growing<F>, DiskFault>
        ensures acts { MakesAnew place result (asked_of self.old) (asked_of self.new) }
        ensures place { IfOk result (λ file. place_of file ≡ place) }
        ensures room { IfOk result (λ file. room_of file ≡ room_at 0) }
        ensures new { IfOk result (λ file. acts_of file ≡ []) }
    {
        Ok(Growing::new(self.make_written(place)?, place, 0))
    }

    /// Begins the file of a segment that is made ahead: it is none until it has its name. One that was
    /// begun before is removed.
    pub fn make_ahead(&mut self, number: u64) -> Result<Growing<F>, DiskFault>
        ensures acts { MakesAnew (NewSegment number) result (asked_of self.old) (asked_of self.new) }
        ensures place { IfOk result (λ file. place_of file ≡ NewSegment number) }
        ensures room { IfOk result (λ file. room_of file ≡ room_at 0) }
        ensures new { IfOk result (λ file. acts_of file ≡ []) }
    {
        self.make_anew(Place::NewSegment(number))
    }

    /// Removes the file of a segment that was made ahead, if it is there.
    pub fn remove_ahead(&mut self, number: u64)
        ensures { Removes (NewSegment number) (asked_of self.old) (asked_of self.new) }
    {
        let _removed = self.remove(Place::NewSegment(number));
    }

    /// Begins a snapshot, which is none until it has its name. One that was begun before is removed.
    pub fn begin_snapshot(&mut self) -> Result<NewSnapshot<F>, DiskFault>
        ensures acts { MakesAnew Place.NewSnapshot result (asked_of self.old) (asked_of self.new) }
        ensures place { IfOk result (λ file. place_of (file_of file) ≡ Place.NewSnapshot) }
        ensures room { IfOk result (λ file. room_of (file_of file) ≡ room_at 0) }
        ensures new { IfOk result (λ file. acts_of (file_of file) ≡ []) }
    {
        Ok(NewSnapshot::new(self.make_anew(Place::NewSnapshot)?))
    }

    /// Writes the manifest under another name, and secures it.
    fn write_manifest(&mut self, manifest: &Manifest) -> Result<(), DiskFault>
        ensures { WritesManifest manifest.now result (asked_of self.old) (asked_of self.new) }
    {
        let place = Place::NewManifest;
        let mut file = self.make_written(place)?;
        file.write(&mut self.log, place, 0, manifest.text().as_slice())?;
        file.secure(&mut self.log, place)
    }

    /// Puts a manifest in the place of the one before. It is there after a crash too. If it cannot be
    /// written, the one before stays.
    pub fn put_manifest(&mut self, manifest: &Manifest) -> Result<(), DiskFault>
        ensures { PutsManifest manifest.now result (asked_of self.old) (asked_of self.new) }
    {
        if let Err(fault) = self.write_manifest(manifest) {
            let _removed = self.remove(Place::NewManifest);
            return Err(fault);
        }
        self.rename(Place::NewManifest, Place::Manifest)?;
        self.sync()
    }

    /// Raises a manifest that was found, so that it names these files too.
    fn raise_found(&mut self, found: Option<Manifest>, to: Manifest) -> Result<(), DiskFault>
        ensures { RaisesFound found to result (asked_of self.old) (asked_of self.new) }
    {
        match found {
            Some(before) if before.raised(to) == before => Ok(()),
            Some(before) => self.put_manifest(&before.raised(to)),
            None => self.put_manifest(&to),
        }
    }

    /// Raises the manifest, so that it names these files too, which must be there after a crash. It never
    /// names less than before. One that is not there is made. It waits while another program raises it.
    pub fn raise_manifest(&mut self, to: Manifest) -> Result<(), DiskFault>
        ensures { RaisesManifest to result (asked_of self.old) (asked_of self.new) }
    {
        let lock = self.make_or_open(Place::ManifestLock)?;
        self.lock(Place::ManifestLock, &lock)?;
        let found = self.manifest()?;
        self.raise_found(found, to)
    }

    /// Locks a file, until what is returned is dropped. None if another program has locked it.
    fn lock_if_free(&mut self, place: Place) -> Result<Option<F::File>, DiskFault>
        ensures { LocksIfFree place result (asked_of self.old) (asked_of self.new) }
    {
        let file = self.make_or_open(place)?;
        match self.try_lock(place, &file)? {
            true => Ok(Some(file)),
            false => Ok(None),
        }
    }

    /// Takes the directory as a server does, until what is returned is dropped. None if a server has
    /// it.
    pub fn take_if_free(&mut self) -> Result<Option<F::File>, DiskFault>
        ensures { LocksIfFree Place.Lock result (asked_of self.old) (asked_of self.new) }
    {
        self.lock_if_free(Place::Lock)
    }

    /// Takes the directory for a server, until what is returned is dropped.
    pub fn take(&mut self) -> Result<F::File, DiskFault>
        ensures { Takes Place.Lock InUse result (asked_of self.old) (asked_of self.new) }
    {
        match self.lock_if_free(Place::Lock)? {
            Some(file) => Ok(file),
            None => Err(DiskFault::InUse),
        }
    }

    /// Takes the directory, until what is returned is dropped, without making a file. None if no server ever had
    /// it.
    pub fn take_if_there(&mut self) -> Result<Option<F::File>, DiskFault>
        ensures { LocksIfThere Place.Lock result (asked_of self.old) (asked_of self.new) }
    {
        let place = Place::Lock;
        let file = match self.open(place) {
            Ok(file) => file,
            Err(fault) if fault.is_absent() => return Ok(None),
            Err(fault) => return Err(fault),
        };
        match self.try_lock(place, &file)? {
            true => Ok(Some(file)),
            false => Err(DiskFault::InUse),
        }
    }

    /// Takes the closed files for a compaction, until what is returned is dropped.
    pub fn take_closed(&mut self) -> Result<F::File, DiskFault>
        ensures { Takes CompactLock Compacted result (asked_of self.old) (asked_of self.new) }
    {
        match self.lock_if_free(Place::CompactLock)? {
            Some(file) => Ok(file),
            None => Err(DiskFault::Compacted),
        }
    }

    /// The lock of those who take the directory, not yet locked.
    pub fn start_lock(&mut self) -> Result<F::File, DiskFault>
        ensures { MakesOrOpens StartLock result (asked_of self.old) (asked_of self.new) }
    {
        self.make_or_open(Place::StartLock)
    }

    /// Whether nobody else takes the directory from now on, until the lock is dropped. False if another program
    /// does.
    pub fn may_start(&mut self, lock: &F::File) -> Result<bool, DiskFault>
        ensures { TriesLock (TryLock StartLock) result (asked_of self.old) (asked_of self.new) }
    {
        self.try_lock(Place::StartLock, lock)
    }

    /// Lets nobody else take the directory, until the lock is dropped. It waits while another program does.
    pub fn wait_to_start(&mut self, lock: &F::File) -> Result<(), DiskFault>
        ensures { Asks (Lock StartLock) result (asked_of self.old) (asked_of self.new) }
    {
        self.lock(Place::StartLock, lock)
    }

    /// Lets nobody else take the directory, until what is returned is dropped. It waits while another program
    /// does.
    pub fn take_start(&mut self) -> Result<F::File, DiskFault>
        ensures { LocksOpened StartLock result (asked_of self.old) (asked_of self.new) }
    {
        let lock = self.start_lock()?;
        self.wait_to_start(&lock)?;
        Ok(lock)
    }

    /// The lock of readers, not yet locked.
    pub fn read_lock(&mut self) -> Result<F::File, DiskFault>
        ensures { MakesOrOpens ReadLock result (asked_of self.old) (asked_of self.new) }
    {
        self.make_or_open(Place::ReadLock)
    }

    /// The lock of readers, not yet locked, without making a file. None if it is not there, or if it cannot be
    /// opened.
    pub fn read_lock_if_there(&self) -> Option<F::File> {
        self.open(Place::ReadLock).ok()
    }

    /// Whether no file is removed from now on, until the lock is dropped. False if another program removes files.
    pub fn may_read(&mut self, lock: &F::File) -> Result<bool, DiskFault>
        ensures { TriesLock (TryShare ReadLock) result (asked_of self.old) (asked_of self.new) }
    {
        self.try_share(Place::ReadLock, lock)
    }

    /// Keeps all files, until the lock is dropped. It waits while another program removes files.
    pub fn wait_to_read(&mut self, lock: &F::File) -> Result<(), DiskFault>
        ensures { Asks (Share ReadLock) result (asked_of self.old) (asked_of self.new) }
    {
        self.share(Place::ReadLock, lock)
    }

    /// Lets nobody read, until what is returned is dropped. It waits while others read.
    pub fn take_from_readers(&mut self) -> Result<F::File, DiskFault>
        ensures { LocksOpened ReadLock result (asked_of self.old) (asked_of self.new) }
    {
        let lock = self.read_lock()?;
        self.lock(Place::ReadLock, &lock)?;
        Ok(lock)
    }
}

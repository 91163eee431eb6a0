//! What is asked of the system. Each function that has a log makes one call of the system, and notes what it asks
//! and whether that is done.
ghost use Rattle.std.specs.Prelude.{◌<◌, ◌≤◌, IfOk, OnSome};
ghost use Rattle.std.specs.Io.Iter.{read_dir_left};
ghost use Rattle.judy_disk.specs.Acts.{Asks, GivesAt, GivesManifest, IsToldAt, Measures, TriesLock};
ghost use Rattle.judy_disk.specs.Acts.Ask.{Cut, Fill, ListNames, Lock, Make, Open, OpenToRead, Remove, Rename, Secure, Share, Sync, TryLock, TryShare, Write};
ghost use Rattle.judy_disk.specs.Folders.{asked_of};
ghost use Rattle.judy_disk.specs.Listings.{GivesName};

use crate::faults::{DiskFault, done_at};
use crate::folder::Folder;
use crate::locks::Locks;
use crate::manifest::MANIFEST_ROOM;
use crate::names::Place;
use crate::record::{Asked, Record};
use std::alloc::Global;
use std::fs::{self, DirEntry, Files, OpenFile, OpenOptions, ReadDir};
use std::io::{self, Read, Seek, SeekFrom, Write};
use std::os::unix::fs::{MetadataExt, OpenOptionsExt};

/// How many zeros one write has.
const ZEROS: usize = 65536;

/// The rights to a new file: only its owner may read and write it.
const OWNER_ALONE: u32 = 0o600;

/// The user number of root.
const ROOT: u32 = 0;

/// Reads the bytes of a file from this place on, as many as the room has.
fn read_from<R: Read + Seek>(file: &mut R, at: u64, room: &mut [u8]) -> io::Result<()> {
    file.seek(SeekFrom::Start(at))?;
    file.read_exact(room)
}

/// Reads the bytes of a file from this place on, as many as the room has.
pub(crate) fn read_at<R: Read + Seek>(
    log: &mut Record,
    file: &mut R,
    place: Place,
    at: u64,
    room: &mut [u8],
) -> Result<(), DiskFault>
    ensures { GivesAt place at result room.new log.old.acts log.new.acts }
{
    let done = read_from(file, at, &mut *room);
    match done.is_ok() {
        true => log.gave_at(place, at, room),
        false => log.asked(Asked::ReadAt(at, room.len() as u64), place, &[], false),
    }
    done_at(place, done)
}

/// A file that is written.
#[derive(Drop)]
pub(crate) struct Written<F: Files> {
    file: F::File,
    /// Where in the file the system writes next, where that is known.
    at: Option<u64>,
}

impl<F: Files> Written<F> {
    /// A file that was just opened for writing.
    pub fn new(file: F::File) -> Self {
        Written { file, at: Some(0) }
    }

    /// Writes all of these bytes from this place on.
    fn put(&mut self, at: u64, bytes: &[u8]) -> io::Result<()> {
        if self.at.take() != Some(at) {
            self.file.seek(SeekFrom::Start(at))?;
        }
        self.file.write_all(bytes)?;
        self.at = at.checked_add(bytes.len() as u64);
        Ok(())
    }

    /// Writes this number of zeros from this place on.
    fn put_zeros(&mut self, at: u64, len: u64) -> io::Result<()> {
        self.at = None;
        self.file.seek(SeekFrom::Start(at))?;
        let zeros = [0u8; ZEROS];
        for _ in 0..len / ZEROS as u64 {
            self.file.write_all(&zeros)?;
        }
        let (last, _) = zeros.split_at((len % ZEROS as u64) as usize);
        self.file.write_all(last)
    }

    /// Writes all of these bytes from this place on.
    pub fn write(
        &mut self,
        log: &mut Record,
        place: Place,
        at: u64,
        bytes: &[u8],
    ) -> Result<(), DiskFault>
        ensures { Asks (Write place at bytes.now) result log.old.acts log.new.acts }
    {
        let done = self.put(at, bytes);
        log.asked(Asked::Write(at), place, bytes, done.is_ok());
        done_at(place, done)
    }

    /// Writes this number of zeros from this place on.
    pub fn fill(
        &mut self,
        log: &mut Record,
        place: Place,
        at: u64,
        len: u64,
    ) -> Result<(), DiskFault>
        ensures { Asks (Fill place at len) result log.old.acts log.new.acts }
    {
        let done = self.put_zeros(at, len);
        log.asked(Asked::Fill(at, len), place, &[], done.is_ok());
        done_at(place, done)
    }

    /// How many bytes the file has.
    pub fn measure(&self, log: &mut Record, place: Place) -> Result<u64, DiskFault>
        ensures { Measures place result log.old.acts log.new.acts }
    {
        let len = self.file.metadata().map(|found| found.len());
        log.measured(place, &len);
        done_at(place, len)
    }

    /// Gives the file this number of bytes.
    pub fn cut(&self, log: &mut Record, place: Place, len: u64) -> Result<(), DiskFault>
        ensures { Asks (Cut place len) result log.old.acts log.new.acts }
    {
        let done = self.file.set_len(len);
        log.asked(Asked::Cut(len), place, &[], done.is_ok());
        done_at(place, done)
    }

    /// Secures the bytes.
    pub fn sync(&self, log: &mut Record, place: Place) -> Result<(), DiskFault>
        ensures { Asks (Sync place) result log.old.acts log.new.acts }
    {
        let done = self.file.sync_data();
        log.asked(Asked::Sync, place, &[], done.is_ok());
        done_at(place, done)
    }

    /// Secures the file whole.
    pub fn secure(&self, log: &mut Record, place: Place) -> Result<(), DiskFault>
        ensures { Asks (Secure place) result log.old.acts log.new.acts }
    {
        let done = self.file.sync_all();
        log.asked(Asked::Secure, place, &[], done.is_ok());
        done_at(place, done)
    }
}

impl<'a, F: Files> Folder<'a, F> {
    /// The path of one of its files.
    fn path_to(&self, place: Place) -> Result<String, DiskFault>
        ensures { IsToldAt place result }
    {
        let path = self.path.as_str();
        let made = match place {
            Place::Folder => String::from_str(self.alloc, path),
            place => format!(in self.alloc; "{path}/{place}"),
        };
        match made {
            Ok(path) => Ok(path),
            Err(e) => Err(DiskFault::at(place, io::Error::from(e))),
        }
    }

    /// Opens one of its files.
    pub(crate) fn open_with(&self, how: &OpenOptions, place: Place) -> Result<F::File, DiskFault>
        ensures { IsToldAt place result }
    {
        let path = self.path_to(place)?;
        done_at(place, how.open(self.files, path.as_str()))
    }

    /// Opens one of its files for reading.
    pub fn open(&self, place: Place) -> Result<F::File, DiskFault>
        ensures { IsToldAt place result }
    {
        self.open_with(OpenOptions::new().read(true), place)
    }

    /// Opens one of its files for reading.
    pub(crate) fn open_to_read(&mut self, place: Place) -> Result<F::File, DiskFault>
        ensures { Asks (OpenToRead place) result (asked_of self.old) (asked_of self.new) }
    {
        let done = self.open(place);
        self.log.asked(Asked::OpenToRead, place, &[], done.is_ok());
        done
    }

    /// Opens one of its files for writing.
    pub(crate) fn open_to_write(&mut self, place: Place) -> Result<F::File, DiskFault>
        ensures { Asks (Open place) result (asked_of self.old) (asked_of self.new) }
    {
        let done = self.open_with(OpenOptions::new().write(true), place);
        self.log.asked(Asked::Open, place, &[], done.is_ok());
        done
    }

    /// Reads the manifest's file into this room. Returns how many bytes it has.
    fn try_read(&self, room: &mut [u8; MANIFEST_ROOM]) -> Result<usize, DiskFault>
        ensures { IfOk result (λ len. len ≤ MANIFEST_ROOM) }
    {
        let mut file = self.open(Place::Manifest)?;
        let found = done_at(Place::Manifest, file.metadata())?;
        if found.len() > MANIFEST_ROOM as u64 {
            return Err(DiskFault::Manifest);
        }
        let (text, _) = room.split_at_mut(found.len() as usize);
        done_at(Place::Manifest, file.read_exact(text))?;
        Ok(found.len() as usize)
    }

    /// Reads the manifest's file into this room. Returns how many bytes it has.
    pub(crate) fn read_manifest(
        &mut self,
        room: &mut [u8; MANIFEST_ROOM],
    ) -> Result<usize, DiskFault>
        ensures { GivesManifest result room.new (asked_of self.old) (asked_of self.new) }
    {
        let read = self.try_read(room);
        match &read {
            Ok(len) => self.log.gave(Place::Manifest, &room[..*len]),
            Err(fault) if fault.is_absent() => self.log.absent(Asked::Read, Place::Manifest),
            Err(_) => self.log.asked(Asked::Read, Place::Manifest, &[], false),
        }
        read
    }

    /// How many bytes one of its files has.
    pub(crate) fn measure(&mut self, place: Place) -> Result<u64, DiskFault>
        ensures { Measures place result (asked_of self.old) (asked_of self.new) }
    {
        let found = match self.path_to(place) {
            Ok(path) => done_at(place, fs::metadata(self.files, path.as_str())),
            Err(fault) => Err(fault),
        };
        let len = found.map(|found| found.len());
        self.log.measured(place, &len);
        len
    }

    /// Secures which files the directory has.
    pub fn sync(&mut self) -> Result<(), DiskFault>
        ensures { Asks (Secure Place.Folder) result (asked_of self.old) (asked_of self.new) }
    {
        let done = match self.open(Place::Folder) {
            Ok(file) => done_at(Place::Folder, file.sync_all()),
            Err(fault) => Err(fault),
        };
        self.log
            .asked(Asked::Secure, Place::Folder, &[], done.is_ok());
        done
    }

    /// Gives a file another name, and takes it from the file that has it now.
    fn try_rename(&self, from: Place, to: Place) -> Result<(), DiskFault>
        ensures { IsToldAt to result }
    {
        let Ok(old) = self.path_to(from) else {
            return Err(DiskFault::at(to, io::Error::from(io::ErrorKind::OutOfMemory)));
        };
        let new = self.path_to(to)?;
        done_at(to, fs::rename(self.files, old.as_str(), new.as_str()))
    }

    /// Gives a file another name, and takes it from the file that has it now.
    pub(crate) fn rename(&mut self, from: Place, to: Place) -> Result<(), DiskFault>
        ensures { Asks (Rename from to) result (asked_of self.old) (asked_of self.new) }
    {
        let done = self.try_rename(from, to);
        self.log.asked(Asked::Rename(to), from, &[], done.is_ok());
        done
    }

    /// Removes a file.
    pub fn remove(&mut self, place: Place) -> Result<(), DiskFault>
        ensures { Asks (Remove place) result (asked_of self.old) (asked_of self.new) }
    {
        let done = match self.path_to(place) {
            Ok(path) => done_at(place, fs::remove_file(self.files, path.as_str())),
            Err(fault) => Err(fault),
        };
        self.log.asked(Asked::Remove, place, &[], done.is_ok());
        done
    }
}

/// The names of a directory's files, as the system lists them.
pub(crate) type FolderEntries<'a, F> = ReadDir<(&'a F, Global), Global>;

/// A file of a directory, as the system lists it.
pub(crate) type Entry<'a, F> = DirEntry<(&'a F, Global), Global>;

impl<'a, F: Files + Clone + Drop> Folder<'a, F> {
    /// Begins a listing of the directory.
    pub(crate) fn list(&mut self) -> Result<FolderEntries<'a, F>, DiskFault>
        ensures { Asks ListNames result (asked_of self.old) (asked_of self.new) }
    {
        let listing = fs::read_dir(&(self.files, self.alloc), self.path.as_str());
        self.log
            .asked(Asked::ListNames, Place::Folder, &[], listing.is_ok());
        done_at(Place::Folder, listing)
    }

    /// The next file of a listing. None if it has listed all.
    pub(crate) fn next_listed(
        &mut self,
        listing: &mut FolderEntries<'a, F>,
    ) -> Result<Option<Entry<'a, F>>, DiskFault>
        ensures given { GivesName result (asked_of self.old) (asked_of self.new) }
        ensures fewer { IfOk result (λ next. OnSome next (read_dir_left listing.new < read_dir_left listing.old)) }
    {
        match listing.next() {
            Some(Ok(entry)) => {
                self.log.listed(entry.file_name());
                Ok(Some(entry))
            }
            Some(Err(e)) => {
                self.log.asked(Asked::NextName, Place::Folder, &[], false);
                Err(DiskFault::at(Place::Folder, e))
            }
            None => {
                self.log.all_listed();
                Ok(None)
            }
        }
    }
}

impl<'a, F: Locks> Folder<'a, F> {
    /// Gives a file that root made to the directory's owner and group, if the system allows it. A
    /// service that has the directory could not open it otherwise.
    fn hand_over(&self, file: &F::File) {
        let Ok(made) = file.metadata() else {
            return;
        };
        let Ok(folder) = fs::metadata(self.files, self.path.as_str()) else {
            return;
        };
        if made.uid() != ROOT || (folder.uid() == made.uid() && folder.gid() == made.gid()) {
            return;
        }
        let _given = self.files.give(file, folder.uid(), folder.gid());
    }

    /// Makes a file. One that is there is a fault.
    pub(crate) fn make(&mut self, place: Place) -> Result<F::File, DiskFault>
        ensures { Asks (Make place) result (asked_of self.old) (asked_of self.new) }
    {
        let mut how = OpenOptions::new();
        how.write(true).create_new(true).mode(OWNER_ALONE);
        let done = self.open_with(&how, place);
        self.log.asked(Asked::Make, place, &[], done.is_ok());
        let file = done?;
        self.hand_over(&file);
        Ok(file)
    }

    /// Locks a file, unless another program has locked it.
    pub(crate) fn try_lock(&mut self, place: Place, file: &F::File) -> Result<bool, DiskFault>
        ensures { TriesLock (TryLock place) result (asked_of self.old) (asked_of self.new) }
    {
        let locked = self.files.try_lock(file);
        self.log.tried(Asked::TryLock, place, &locked);
        done_at(place, locked)
    }

    /// Locks a file, once no other program has locked it.
    pub(crate) fn lock(&mut self, place: Place, file: &F::File) -> Result<(), DiskFault>
        ensures { Asks (Lock place) result (asked_of self.old) (asked_of self.new) }
    {
        let done = self.files.lock(file);
        self.log.asked(Asked::Lock, place, &[], done.is_ok());
        done_at(place, done)
    }

    /// Locks a file beside others, unless a program has locked it alone.
    pub(crate) fn try_share(&mut self, place: Place, file: &F::File) -> Result<bool, DiskFault>
        ensures { TriesLock (TryShare place) result (asked_of self.old) (asked_of self.new) }
    {
        let locked = self.files.try_lock_shared(file);
        self.log.tried(Asked::TryShare, place, &locked);
        done_at(place, locked)
    }

    /// Locks a file beside others, once no program has locked it alone.
    pub(crate) fn share(&mut self, place: Place, file: &F::File) -> Result<(), DiskFault>
        ensures { Asks (Share place) result (asked_of self.old) (asked_of self.new) }
    {
        let done = self.files.lock_shared(file);
        self.log.asked(Asked::Share, place, &[], done.is_ok());
        done_at(place, done)
    }
}

//! The files of a journal that are written.
ghost use Rattle.std.specs.Prelude.{◌≡◌, [], length, OnErr, OnOk};
ghost use Rattle.judy_disk.specs.Acts.{Asks, ChecksEmpty, CutsTo, HasFilled};
ghost use Rattle.judy_disk.specs.Acts.Ask.{Secure, Sync, Write};
ghost use Rattle.judy_disk.specs.Growth.{acts_of, end_of, file_of, made_of, place_of, room_of};
ghost use Rattle.judy_disk.specs.Rooms.{piece_of, room_after, room_at, room_filled};

use crate::faults::DiskFault;
use crate::names::Place;
use crate::record::Record;
use crate::rooms::Room;
use crate::system::Written;
use std::fs::Files;
use std::io;

impl<F: Files> Written<F> {
    /// A file that has a byte is at fault.
    pub(crate) fn check_empty(&self, log: &mut Record, place: Place) -> Result<(), DiskFault>
        ensures { ChecksEmpty place result log.old.acts log.new.acts }
    {
        if self.measure(log, place)? == 0 {
            return Ok(());
        }
        let reason = io::Error::from(io::ErrorKind::AlreadyExists);
        Err(DiskFault::at(place, reason))
    }

    /// Cuts off what follows this number of bytes, and secures the rest. A file that has fewer is at
    /// fault.
    pub(crate) fn cut_to(&self, log: &mut Record, place: Place, len: u64) -> Result<(), DiskFault>
        ensures { CutsTo place len result log.old.acts log.new.acts }
    {
        let size = self.measure(log, place)?;
        if size < len {
            let reason = io::Error::from(io::ErrorKind::UnexpectedEof);
            return Err(DiskFault::at(place, reason));
        }
        if size > len {
            self.cut(log, place, len)?;
        }
        self.secure(log, place)
    }
}

/// A file that is written from its front on. Behind its end it may have zeros, which are written over. It
/// keeps a log of what was asked of the system about it.
#[derive(Drop)]
pub struct Growing<F: Files> {
    file: Written<F>,
    place: Place,
    room: Room,
    log: Record,
}

impl<F: Files> Growing<F> {
    /// A file that was just opened for writing and has this number of bytes. Nothing was asked of it yet.
    pub(crate) fn new(file: Written<F>, place: Place, len: u64) -> Self
        ensures place { place_of result ≡ place }
        ensures room { room_of result ≡ room_at len }
        ensures acts { acts_of result ≡ [] }
    {
        Growing {
            file,
            place,
            room: Room {
                end: len,
                made: len,
            },
            log: Record::new(),
        }
    }

    /// The same file, which has this name now.
    pub(crate) fn renamed(self, place: Place) -> Self
        ensures place { place_of result ≡ place }
        ensures room { room_of result ≡ room_of self }
        ensures acts { acts_of result ≡ acts_of self }
    {
        Growing {
            file: self.file,
            place,
            room: self.room,
            log: self.log,
        }
    }

    /// Which file it is.
    pub fn place(&self) -> Place
        ensures { result ≡ place_of self.now }
    {
        self.place
    }

    /// How much room it has.
    pub fn room(&self) -> Room
        ensures { result ≡ room_of self.now }
    {
        self.room
    }

    /// Appends all of these bytes. After a fault some of them may be there.
    pub fn append(&mut self, bytes: &[u8]) -> Result<(), DiskFault>
        ensures acts { Asks (Write (place_of self.old) (end_of self.old) bytes.now) result
            (acts_of self.old) (acts_of self.new) }
        ensures place { place_of self.new ≡ place_of self.old }
        ensures done { OnOk result (room_of self.new ≡ room_after (room_of self.old) (length bytes.now)) }
        ensures undone { OnErr result (room_of self.new ≡ room_of self.old) }
    {
        self.file
            .write(&mut self.log, self.place, self.room.end, bytes)?;
        self.room = self.room.after(bytes.len() as u64);
        Ok(())
    }

    /// Writes a piece of zeros behind what the file has, if it has fewer bytes than this. After a fault it
    /// takes no more room than before.
    pub fn fill(&mut self, size: u64) -> Result<(), DiskFault>
        ensures acts { HasFilled (place_of self.old) (made_of self.old) (piece_of (room_of self.old) size) result
            (acts_of self.old) (acts_of self.new) }
        ensures place { place_of self.new ≡ place_of self.old }
        ensures done { OnOk result (room_of self.new ≡ room_filled (room_of self.old) size) }
        ensures undone { OnErr result (room_of self.new ≡ room_of self.old) }
    {
        let (from, len) = (self.room.made, self.room.piece(size));
        if let Err(fault) = self.file.fill(&mut self.log, self.place, from, len) {
            let _cut = self.file.cut(&mut self.log, self.place, from);
            return Err(fault);
        }
        self.room.made = from.saturating_add(len);
        Ok(())
    }

    /// Secures the bytes that were appended.
    pub fn sync(&mut self) -> Result<(), DiskFault>
        ensures acts { Asks (Sync (place_of self.old)) result (acts_of self.old) (acts_of self.new) }
        ensures place { place_of self.new ≡ place_of self.old }
        ensures room { room_of self.new ≡ room_of self.old }
    {
        self.file.sync(&mut self.log, self.place)
    }

    /// Cuts off the zeros behind the end, and secures the file. Nothing is appended afterwards.
    pub fn close(&mut self) -> Result<(), DiskFault>
        ensures acts { CutsTo (place_of self.old) (end_of self.old) result (acts_of self.old) (acts_of self.new) }
        ensures place { place_of self.new ≡ place_of self.old }
        ensures done { OnOk result (room_of self.new ≡ room_at (end_of self.old)) }
        ensures undone { OnErr result (room_of self.new ≡ room_of self.old) }
    {
        let end = self.room.end;
        self.file.cut_to(&mut self.log, self.place, end)?;
        self.room = Room { end, made: end };
        Ok(())
    }

    /// Secures the file whole.
    pub(crate) fn secure(&mut self) -> Result<(), DiskFault>
        ensures acts { Asks (Secure (place_of self.old)) result (acts_of self.old) (acts_of self.new) }
        ensures place { place_of self.new ≡ place_of self.old }
        ensures room { room_of self.new ≡ room_of self.old }
    {
        self.file.secure(&mut self.log, self.place)
    }
}

/// A snapshot that is being written. It counts for nothing until it has its name.
#[derive(Drop)]
pub struct NewSnapshot<F: Files> {
    file: Growing<F>,
}

impl<F: Files> NewSnapshot<F> {
    /// A snapshot with no byte yet.
    pub(crate) fn new(file: Growing<F>) -> Self
        ensures { file_of result ≡ file }
    {
        NewSnapshot { file }
    }

    /// Appends all of these bytes.
    pub fn append(&mut self, bytes: &[u8]) -> Result<(), DiskFault>
        ensures acts { Asks (Write (place_of (file_of self.old)) (end_of (file_of self.old)) bytes.now) result
            (acts_of (file_of self.old)) (acts_of (file_of self.new)) }
        ensures place { place_of (file_of self.new) ≡ place_of (file_of self.old) }
    {
        self.file.append(bytes)
    }

    /// Secures the bytes.
    pub fn secure(&mut self) -> Result<(), DiskFault>
        ensures acts { Asks (Secure (place_of (file_of self.old))) result
            (acts_of (file_of self.old)) (acts_of (file_of self.new)) }
        ensures place { place_of (file_of self.new) ≡ place_of (file_of self.old) }
    {
        self.file.secure()
    }
}

//! The next segment of a journal, which is made before the current one is full.
ghost use Rattle.std.specs.Prelude.{◌≡◌};
ghost use Rattle.judy_disk.specs.Growth.{place_of};

use judy_disk::{DiskFault, Folder, Growing, Locks, PIECE, Room, Spares};

/// The most bytes of a segment, unless another number is set: from there on it is full.
pub const SEGMENT_LIMIT: u64 = 67_108_864;

/// The room of a file that has no byte.
const NO_ROOM: Room = Room { end: 0, made: 0 };

/// Fills a segment's file with zeros up to its size, as far as there is room. `limit` says how many bytes a
/// full segment has.
pub fn fill<F: Locks>(current: &mut Growing<F>, limit: u64) -> Result<(), DiskFault>
    ensures { place_of current.new ≡ place_of current.old }
{
    let size = current.room().whole(limit);
    for _ in 0..size / PIECE + 1 {
        if current.room().made >= size {
            return Ok(());
        }
        current.fill(size)?;
    }
    Ok(())
}

/// The file of the next segment, while it is made. All of its bytes are zeros.
#[derive(Drop)]
pub struct Ahead<F: Locks> {
    next: Option<Growing<F>>,
    /// How many bytes a full segment has.
    limit: u64,
}

impl<F: Locks> Ahead<F> {
    /// None yet. A full segment has this many bytes.
    pub fn new(limit: u64) -> Self {
        Ahead { next: None, limit }
    }

    /// Whether a segment with this many bytes is full.
    pub fn is_full(&self, size: u64) -> bool {
        let room = Room {
            end: size,
            made: size,
        };
        room.is_full(self.limit)
    }

    /// How many bytes a full segment has.
    pub fn limit(&self) -> u64 {
        self.limit
    }

    /// How many bytes the file has once it is made.
    fn size(&self) -> u64 {
        NO_ROOM.whole(self.limit)
    }

    /// Whether it is made.
    fn is_made(&self) -> bool {
        match &self.next {
            Some(next) => next.room().made >= self.size(),
            None => false,
        }
    }

    /// Whether a turn of a client has room in the current segment, and in the next one if it may get there.
    pub fn is_enough(&self, room: Room) -> bool {
        room.is_enough(self.limit, self.is_made())
    }

    /// Whether the next piece of it is due, beside the current segment.
    pub fn is_due(&self, room: Room) -> bool {
        room.is_half(self.limit) && !self.is_made()
    }

    /// The file, taken out. One that is not there is made.
    fn file(&mut self, folder: &mut Folder<'_, F>, number: u64) -> Result<Growing<F>, DiskFault> {
        match self.next.take() {
            Some(next) => Ok(next),
            None => folder.make_ahead(number),
        }
    }

    /// Makes a piece of the segment with this number, or all of it, and secures it.
    fn try_make(
        &mut self,
        folder: &mut Folder<'_, F>,
        number: u64,
        all: bool,
    ) -> Result<(), DiskFault> {
        let mut next = self.file(folder, number)?;
        if all {
            fill(&mut next, self.limit)?;
        } else {
            next.fill(self.size())?;
        }
        next.sync()?;
        self.next = Some(next);
        Ok(())
    }

    /// Makes a piece of the segment with this number, or all of it, and secures it. A descriptor is given
    /// up for it. After a fault there is no such file, so that it takes no room.
    pub fn make(
        &mut self,
        folder: &mut Folder<'_, F>,
        spares: &mut Spares<F>,
        number: u64,
        all: bool,
    ) -> Result<(), DiskFault> {
        if self.is_made() {
            return Ok(());
        }
        if self.next.is_none() {
            spares.give_one();
        }
        let made = self.try_make(folder, number, all);
        if made.is_err() {
            self.remove(folder, number);
        }
        spares.take(folder);
        made
    }

    /// The segment that was made, if it was.
    pub fn take(&mut self) -> Option<Growing<F>> {
        self.next.take()
    }

    /// Removes the file of the segment with this number.
    pub fn remove(&mut self, folder: &mut Folder<'_, F>, number: u64) {
        self.next = None;
        folder.remove_ahead(number);
    }
}

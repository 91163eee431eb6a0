//! Counts the records of a journal's files by tenant.
ghost use Rattle.std.specs.Prelude.{◌≤◌, length};

use bstr::ByteSlice;
use judy_disk::{DiskFault, Folder, Found, Locks, Place, Spent};
use judy_protocol::cut_line;
use std::alloc::Global;
use std::fs::OpenFile;
use std::io::{self, Read, Seek, SeekFrom};

/// How many bytes are read at once: more than a line has.
const PIECE: usize = 65536;

/// The fault of a file of which a read failed.
fn unread(place: Place, fault: io::Error) -> DiskFault {
    DiskFault::at(place, fault)
}

/// How many of the bytes are whole lines.
fn whole_len(bytes: &[u8]) -> usize
    ensures { result ≤ length bytes.now }
{
    match bytes.rfind_byte(b'\n') {
        Some(at) => at + 1,
        None => 0,
    }
}

/// Reads bytes of a file from a place on: as many as there is room for, or as are left there. Returns how
/// many. A read that a signal interrupts is tried again.
fn read_at<R: Read + Seek>(
    file: &mut R,
    from: u64,
    left: u64,
    room: &mut [u8],
) -> io::Result<usize> {
    let count = u64::min(left, room.len() as u64) as usize;
    file.seek(SeekFrom::Start(from))?;
    let (read, _) = room.split_at_mut(count);
    file.read_exact(read)?;
    Ok(count)
}

/// The records in whole lines that begin at this byte of a segment, whose first line is none.
fn records_in(lines: &[u8], from: u64) -> &[u8] {
    if from > 0 {
        return lines;
    }
    match cut_line(lines) {
        Some((_, after)) => after,
        None => lines,
    }
}

/// Whether one of the lines is a note.
fn has_note(lines: &[u8]) -> bool {
    let mut rest = lines;
    while let Some((line, after)) = cut_line(rest) {
        if line.starts_with(b"@") {
            return true;
        }
        rest = after;
    }
    false
}

/// What was counted of the segments of a journal.
#[derive(Drop)]
pub struct Counted {
    /// The bytes of records by tenant.
    pub spent: Spent,
    /// Whether the last segment has a note.
    pub noted: bool,
}

/// Counts the records of a segment.
fn count_segment<F: Locks>(
    folder: &Folder<'_, F>,
    number: u64,
    counted: &mut Counted,
) -> Result<(), DiskFault> {
    let place = Place::Segment(number);
    let mut file = folder.open(place)?;
    let found = file.metadata().map_err(|e| unread(place, e))?;
    let mut room = [0u8; PIECE];
    let mut from = 0;
    counted.noted = false;
    for _ in 0..found.len() {
        let left = found.len().saturating_sub(from);
        let n = read_at(&mut file, from, left, &mut room).map_err(|e| unread(place, e))?;
        let lines = whole_len(&room[..usize::min(n, PIECE)]);
        if lines == 0 {
            return Ok(());
        }
        let records = records_in(&room[..lines], from);
        // What there is no memory to count is not counted.
        let _counted = counted.spent.count(number, records);
        counted.noted = counted.noted || has_note(records);
        from = u64::saturating_add(from, lines as u64);
    }
    Ok(())
}

/// The records of all segments of a directory, by tenant.
pub fn count_in<F: Locks>(
    folder: &Folder<'_, F>,
    alloc: Global,
    found: &Found,
) -> Result<Counted, DiskFault> {
    let mut counted = Counted {
        spent: Spent::new(alloc),
        noted: false,
    };
    if let Some(last) = found.last {
        for number in found.first..last.saturating_add(1) {
            count_segment(folder, number, &mut counted)?;
        }
    }
    Ok(counted)
}

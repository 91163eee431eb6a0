//! Finds damage of a journal, and cuts it off.
ghost use Rattle.std.specs.Prelude.{◌≡◌, ◌≤◌, length, IfOk, IfSome};
ghost use Rattle.judy_disk.specs.Folders.{asked_of};
ghost use Rattle.judy_upkeep.specs.Repairing.{whole_by, wounded};
ghost use Rattle.judy_upkeep.specs.Scanning.{ScansSome};

use crate::closing::Nobody;
use judy_disk::{DiskFault, Folder, Found, Locks, Manifest, Place};
use judy_journal::{Damage, LAST_SEGMENT, LINE_ROOM, Recovery, SUM_LEN};
use judy_protocol::cut_line;
use judy_recovery::{Flaw, JournalFault, recover};
use std::alloc::Global;
use std::fs::Files;
use std::io::{self, Read};

/// The most bytes that are read at once.
const PIECE: usize = 16384;

/// What goes out of a segment: what follows its first bytes, but for zeros at the end. It is kept beside.
#[derive(Clone, Copy, Debug, PartialEq, Eq)]
pub struct Part {
    /// The number of the segment.
    pub segment: u64,
    /// How many bytes stay.
    pub from: u64,
    /// How many bytes go.
    pub bytes: u64,
}

/// Damage of a journal.
#[derive(Debug, Drop)]
pub struct Wound {
    /// What a start tells.
    pub fault: JournalFault,
    /// What has to go out of the damaged segment.
    pub part: Part,
    /// What has to go of those after it, which is all.
    pub later: Vec<Part>,
    /// The number of the snapshot: 0 if there is none.
    snapshot: u64,
}

/// Why a journal is not repaired. It is as it was.
#[derive(Debug, Drop)]
pub enum Unrepaired {
    /// It cannot be read, or what is wrong with it can't be cut off.
    Journal(JournalFault),
    /// Segments follow the damaged one.
    Later(JournalFault),
}

impl From<JournalFault> for Unrepaired {
    fn from(fault: JournalFault) -> Unrepaired {
        Unrepaired::Journal(fault)
    }
}

/// A fault of the directory.
fn of_disk(fault: DiskFault) -> JournalFault {
    JournalFault::Disk(fault)
}

/// A fault of a file that was read.
fn unread(place: Place, reason: io::Error) -> JournalFault {
    JournalFault::Disk(DiskFault::at(place, reason))
}

/// How much of a damaged segment is whole.
#[derive(Clone, Copy, Debug, PartialEq, Eq)]
enum Whole {
    /// Nothing, since its first line is another.
    Nothing,
    /// The commits before the damage.
    Commits,
}

/// How much is whole of a segment with this damage. None if the damage can't be cut off.
fn whole_by(damage: Damage) -> Option<Whole>
    ensures { result ≡ whole_by damage }
{
    match damage {
        Damage::Header | Damage::NoHeader => Some(Whole::Nothing),
        Damage::Mark | Damage::Long | Damage::Torn => Some(Whole::Commits),
        Damage::Number | Damage::Size => None,
    }
}

/// The segment with the damage, and how much of it is whole. None if what is wrong can't be cut off.
fn wounded(fault: &JournalFault) -> Option<(u64, Whole)>
    ensures { result ≡ wounded fault.now }
{
    match fault {
        JournalFault::File {
            place: Place::Segment(number),
            flaw: Flaw::Damage(damage),
            ..
        } => Some((*number, whole_by(*damage)?)),
        _ => None,
    }
}

/// The checksum in the first line of a segment.
fn sum_in(text: &[u8]) -> Option<[u8; SUM_LEN]> {
    let (line, _) = cut_line(text)?;
    if line.len() < SUM_LEN {
        return None;
    }
    let (_, digits) = line.split_at(line.len() - SUM_LEN);
    let mut sum = [b'0'; SUM_LEN];
    sum.copy_from_slice(digits);
    Some(sum)
}

/// Reads once. A read that a signal interrupts gives nothing: it is made again.
fn read_once<R: Read>(file: &mut R, room: &mut [u8]) -> io::Result<Option<usize>>
    ensures { IfOk result (λ read. IfSome read (λ n. n ≤ length room.new)) }
{
    match file.read(room) {
        Ok(n) => Ok(Some(n)),
        Err(e) if e.kind() == io::ErrorKind::Interrupted => Ok(None),
        Err(e) => Err(e),
    }
}

/// Reads more bytes of a segment. False if they are damaged.
fn read_bytes(recovery: &mut Recovery, bytes: &[u8]) -> bool {
    let mut rest = bytes;
    while !rest.is_empty() {
        match recovery.read(rest) {
            Ok(judy_journal::Read::More) => return true,
            Ok(judy_journal::Read::Whole(left)) => {
                let (_, after) = rest.split_at(rest.len() - left);
                rest = after;
            }
            Err(_) => return false,
        }
    }
    true
}

/// Reads a segment up to its first damage, or to its end.
fn read_segment<R: Read>(file: &mut R, recovery: &mut Recovery) -> io::Result<()> {
    let mut piece = [0u8; PIECE];
    for _ in 0..u64::MAX {
        let Some(n) = read_once(file, &mut piece)? else {
            continue;
        };
        if n == 0 || !read_bytes(recovery, &piece[..n]) {
            return Ok(());
        }
    }
    Ok(())
}

/// How many bytes of a segment are its first line and whole commits, after the checksum that its first line has.
fn whole_after<F: Files>(
    alloc: Global,
    folder: &Folder<'_, F>,
    number: u64,
    sum: &[u8; SUM_LEN],
) -> Result<u64, JournalFault> {
    let before = number.saturating_sub(1);
    if before >= LAST_SEGMENT {
        return Ok(0);
    }
    let Ok(mut recovery) = Box::new(alloc, Recovery::new(before, sum)) else {
        return Err(JournalFault::Memory);
    };
    let place = Place::Segment(number);
    let mut file = folder.open(place).map_err(|e| of_disk(e))?;
    read_segment(&mut file, &mut *recovery).map_err(|e| unread(place, e))?;
    let position = recovery.position();
    if position.segment == number {
        return Ok(position.size);
    }
    Ok(0)
}

/// Reads the first bytes of a segment, at most as many as there is room for.
fn read_front<R: Read>(file: &mut R, room: &mut [u8; LINE_ROOM]) -> io::Result<usize>
    ensures { IfOk result (λ n. n ≤ LINE_ROOM) }
{
    for _ in 0..u64::MAX {
        if let Some(n) = read_once(file, room)? {
            return Ok(n);
        }
    }
    Ok(0)
}

/// How many bytes of a segment are its first line and whole commits.
fn whole_len<F: Files>(
    alloc: Global,
    folder: &Folder<'_, F>,
    number: u64,
) -> Result<u64, JournalFault> {
    let place = Place::Segment(number);
    let mut file = folder.open(place).map_err(|e| of_disk(e))?;
    let mut room = [0u8; LINE_ROOM];
    let n = read_front(&mut file, &mut room).map_err(|e| unread(place, e))?;
    match sum_in(&room[..n]) {
        Some(sum) => whole_after(alloc, folder, number, &sum),
        None => Ok(0),
    }
}

/// What goes out of a segment of which this number of bytes stays.
fn part_of<F: Files>(
    folder: &mut Folder<'_, F>,
    segment: u64,
    from: u64,
) -> Result<Part, JournalFault> {
    match folder.torn_len(segment, from) {
        Ok(bytes) => Ok(Part {
            segment,
            from,
            bytes,
        }),
        Err(fault) => Err(of_disk(fault)),
    }
}

/// All of the segments from one on to the last.
fn parts_from<F: Files>(
    alloc: Global,
    folder: &mut Folder<'_, F>,
    first: u64,
    last: u64,
) -> Result<Vec<Part>, JournalFault> {
    let mut parts = Vec::new(alloc);
    for number in first..last.saturating_add(1) {
        let part = part_of(folder, number, 0)?;
        if parts.push(part).is_err() {
            return Err(JournalFault::Memory);
        }
    }
    Ok(parts)
}

/// The files of a directory. Those that its manifest names are all there; there may be more, as after a repair
/// that did not come to its end.
fn scan<F: Files + Clone + Drop>(folder: &mut Folder<'_, F>) -> Result<Found, DiskFault>
    ensures { ScansSome result (asked_of folder.old) (asked_of folder.new) }
{
    let manifest = match folder.manifest()? {
        Some(manifest) => manifest,
        None => return Err(DiskFault::NoManifest),
    };
    let found = folder.scan_unnamed()?;
    let last = u64::min(found.last.unwrap_or(0), manifest.last);
    match manifest.lack(found.snapshot.unwrap_or(0), last) {
        Some(lack) => Err(DiskFault::lacking(lack)),
        None => Ok(found),
    }
}

/// Finds the first damage of a journal. Nothing is changed. None if a start reads it to its end.
///
/// Err: it cannot be read, or what is wrong with it can't be cut off.
pub fn find_wound<F: Locks + Clone + Drop>(
    alloc: Global,
    folder: &mut Folder<'_, F>,
) -> Result<Option<Wound>, JournalFault> {
    let found = scan(folder).map_err(|e| of_disk(e))?;
    let fault = match recover(folder, alloc, &found, &mut Nobody) {
        Ok(_) => {
            folder.scan().map_err(|e| of_disk(e))?;
            return Ok(None);
        }
        Err(fault) => fault,
    };
    let Some((segment, whole)) = wounded(&fault) else {
        return Err(fault);
    };
    let from = match whole {
        Whole::Nothing => 0,
        Whole::Commits => whole_len(alloc, folder, segment)?,
    };
    let part = part_of(folder, segment, from)?;
    let last = found.last.unwrap_or(segment);
    Ok(Some(Wound {
        fault,
        part,
        later: parts_from(alloc, folder, segment.saturating_add(1), last)?,
        snapshot: found.snapshot.unwrap_or(0),
    }))
}

/// Finds the first damage of a journal that no server has. Nothing is changed.
pub fn look_for_wound<F: Locks + Clone + Drop>(
    alloc: Global,
    folder: &mut Folder<'_, F>,
) -> Result<Option<Wound>, JournalFault> {
    let _lock = folder.take_if_there().map_err(|e| of_disk(e))?;
    find_wound(alloc, folder)
}

/// Sets aside all segments after the damaged one, the last first, once the manifest ends with that one.
fn set_later_aside<F: Locks>(folder: &mut Folder<'_, F>, wound: &Wound) -> Result<(), DiskFault> {
    if wound.later.is_empty() {
        return Ok(());
    }
    folder.put_manifest(&Manifest {
        snapshot: wound.snapshot,
        last: wound.part.segment,
    })?;
    for part in wound.later.iter().rev() {
        folder.set_aside(part.segment)?;
    }
    folder.sync()
}

/// Cuts off the first damage of a journal that no server has, and keeps beside what goes. Segments that follow the
/// damaged one are set aside whole, but only if that is wanted. Returns what went: None if nothing was damaged.
pub fn repair<F: Locks + Clone + Drop>(
    alloc: Global,
    folder: &mut Folder<'_, F>,
    drop_later: bool,
) -> Result<Option<Wound>, Unrepaired> {
    let _closed = folder.take_closed().map_err(|e| of_disk(e))?;
    let _start = folder.take_start().map_err(|e| of_disk(e))?;
    let _lock = folder.take().map_err(|e| of_disk(e))?;
    let _alone = folder.take_from_readers().map_err(|e| of_disk(e))?;
    let Some(wound) = find_wound(alloc, folder)? else {
        return Ok(None);
    };
    if !wound.later.is_empty() && !drop_later {
        return Err(Unrepaired::Later(wound.fault));
    }
    set_later_aside(folder, &wound).map_err(|e| of_disk(e))?;
    let cut = folder.cut_keeping(wound.part.segment, wound.part.from);
    cut.map_err(|e| of_disk(e))?;
    Ok(Some(wound))
}

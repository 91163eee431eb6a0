//! Reads the files of a journal's directory in order.
ghost use Rattle.std.specs.Prelude.{◌≡◌, ◌≢◌, ◌≤◌, ◌<◌, ◌+◌, ◌-◌, ◌^◌, ℕ, List, length, decimal, IfOk, IfSome, OnOk, IsTrue, Option, Some, option_map};
ghost use Rattle.judy_journal.specs.Journals.{is_line};
ghost use Rattle.judy_journal.specs.Notes.{first_len};
ghost use Rattle.judy_recovery.specs.Played.{HasReadLast, ReadsAll};
ghost use Rattle.judy_recovery.specs.Whole.{HasStarted, ReadsFiles, ReadsLast, ReadsSegment};
ghost use Rattle.judy_recovery.specs.Whole.{Recovers, segment_before};

use crate::ends::{End, FIRST_SUM};
use crate::faults::{Flaw, JournalFault};
use crate::last::{Given, pass, read_last};
use crate::pieces::{Damaged, Progress, Stop, read_file};
use crate::player::Player;
use crate::sources::FileReads;
use itoa::Buffer;
use judy_disk::{DiskFault, Folder, Found, Place};
use judy_journal::{
    Damage, HEADER, LAST_SEGMENT, LINE_ROOM, Notes, Position, Recovery, SNAPSHOT, SUM_LEN,
    snapshot_sum, what_is_recovered_is_found, what_is_recovered_is_whole,
};
use judy_protocol::cut_line;
use std::alloc::Global;
use std::fs::Files;
use std::io::{self, Read};

/// The fault of a file.
fn fault_at(place: Place, byte: u64, flaw: Flaw) -> JournalFault {
    JournalFault::File { place, byte, flaw }
}

/// The fault of a file of which a read failed.
fn unread(place: Place, fault: io::Error) -> JournalFault {
    JournalFault::Disk(DiskFault::at(place, fault))
}

/// The fault of a file that was not read to its end.
fn fault_of(place: Place, stop: Stop, fault: Option<io::Error>) -> JournalFault {
    match (stop, fault) {
        (Stop::Flaw(byte, flaw), _) => fault_at(place, byte, flaw),
        (Stop::Damaged(at), _) => fault_at(place, at.byte, Flaw::Damage(at.damage)),
        (Stop::Fault, Some(fault)) => unread(place, fault),
        (Stop::Fault, None) => unread(place, io::Error::from(io::ErrorKind::Other)),
    }
}

/// Reads the rest of a file. Of its commits each that is whole is played, in order, and nothing else is.
fn read_rest<R: Read + Drop, P: Player>(
    file: R,
    place: Place,
    recovery: &mut Recovery,
    player: &mut P,
    progress: &mut Progress,
) -> Result<(), JournalFault>
    ensures { OnOk result ((left : Option (List ℕ)) × ReadsAll P.plays (R.remaining file) left
        recovery.old player.old recovery.new player.new) }
{
    let mut source = FileReads::new(file);
    let read = read_file(&mut source, recovery, player, progress);
    read.map_err(|stop| fault_of(place, stop, source.take_fault()))
}

/// Reads the last file to its end, with its notes. Up to its first damage each commit that is whole is
/// played, in order, and nothing else is. Returns the damage, if there is some.
fn read_end<R: Read + Drop, P: Player>(
    file: R,
    number: u64,
    recovery: &mut Recovery,
    player: &mut P,
    notes: &mut Notes,
    given: &mut Given,
) -> Result<Option<Damaged>, JournalFault>
    ensures { IfOk result (λ found. (left : Option (List ℕ)) × HasReadLast P.plays (R.remaining file) left found
        recovery.old player.old notes.old recovery.new player.new notes.new) }
{
    let mut progress = Progress {
        whole: first_line_len(number),
        seen: 0,
    };
    let mut source = FileReads::new(file);
    match read_last(&mut source, recovery, player, &mut progress, notes, given) {
        Ok(found) => Ok(found),
        Err(stop) => Err(fault_of(Place::Segment(number), stop, source.take_fault())),
    }
}

/// A recovery on the heap, since it is large.
fn boxed(alloc: Global, place: Place, recovery: Recovery) -> Result<Box<Recovery>, JournalFault>
    ensures { IfOk result (λ b. b.value ≡ recovery) }
{
    Box::new(alloc, recovery).map_err(|_| fault_at(place, 0, Flaw::Memory))
}

/// How many digits a number has.
fn digits_of(number: u64) -> usize
    ensures value { result ≡ length (decimal number) }
    ensures few { result ≤ 20 }
{
    let mut digits = Buffer::new();
    digits.format(number).len()
}

/// How many bytes the first line of this segment has, with its line feed.
pub(crate) fn first_line_len(segment: u64) -> u64
    ensures { result ≡ first_len segment }
{
    (HEADER.len() + digits_of(segment) + 1 + SUM_LEN + 1) as u64
}

/// Reads the first line of a snapshot of the segments up to this one, with its line feed. Returns its
/// checksum, and how many bytes it has.
fn read_first_line<R: Read>(file: &mut R, number: u64) -> Result<([u8; SUM_LEN], u64), JournalFault>
    ensures { IfOk result (λ r. IsTrue (is_line r.0)) }
{
    let place = Place::Snapshot(number);
    let mut room = [0u8; LINE_ROOM];
    let len = SNAPSHOT.len() + digits_of(number) + 1 + SUM_LEN + 1;
    let line = &mut room[..len];
    if let Err(e) = file.read_exact(line) {
        if e.kind() == io::ErrorKind::UnexpectedEof {
            return Err(fault_at(place, 0, Flaw::Damage(Damage::Torn)));
        }
        return Err(unread(place, e));
    }
    let Some((line, after)) = cut_line(&room[..len]) else {
        return Err(fault_at(place, 0, Flaw::Damage(Damage::NoHeader)));
    };
    match snapshot_sum(line, number) {
        Some(sum) if after.is_empty() => Ok((sum, len as u64)),
        _ => Err(fault_at(place, 0, Flaw::Damage(Damage::Header))),
    }
}

/// Reads a snapshot whole: its records, and the mark that ends it. The recovery goes on with the
/// segment after it.
fn read_snapshot<F: Files, P: Player>(
    folder: &Folder<'_, F>,
    alloc: Global,
    number: u64,
    player: &mut P,
) -> Result<Box<Recovery>, JournalFault>
    ensures started { IfOk result
        (λ r. HasStarted P.plays F.File.remaining (Some number) player.old r.value player.new) }
    ensures follows { OnOk result (number < LAST_SEGMENT) }
{
    let place = Place::Snapshot(number);
    let mut file = match folder.open(place) {
        Ok(file) => file,
        Err(fault) => return Err(JournalFault::Disk(fault)),
    };
    let (sum, len) = read_first_line(&mut file, number)?;
    let mut recovery = boxed(alloc, place, Recovery::snapshot(number, &sum))?;
    let mut progress = Progress {
        whole: len,
        seen: len,
    };
    read_rest(file, place, &mut *recovery, player, &mut progress)?;
    match recovery.end_snapshot() {
        Ok(()) if number < LAST_SEGMENT => Ok(recovery),
        Ok(()) => Err(fault_at(place, progress.whole, Flaw::Damage(Damage::Number))),
        Err(damage) => Err(fault_at(place, progress.whole, Flaw::Damage(damage))),
    }
}

/// A recovery of the files: after the snapshot, if there is one.
fn begin<F: Files, P: Player>(
    folder: &Folder<'_, F>,
    alloc: Global,
    snapshot: Option<u64>,
    player: &mut P,
) -> Result<Box<Recovery>, JournalFault>
    ensures started { IfOk result
        (λ r. HasStarted P.plays F.File.remaining snapshot player.old r.value player.new) }
    ensures follows { OnOk result (segment_before snapshot < LAST_SEGMENT) }
{
    match snapshot {
        Some(number) => read_snapshot(folder, alloc, number, player),
        None => boxed(alloc, Place::Segment(1), Recovery::new(0, &FIRST_SUM)),
    }
}

/// The first segment that is read: the one after the snapshot.
fn first_after(snapshot: Option<u64>) -> u64
    ensures no_more { result ≤ segment_before snapshot + 1 }
    ensures follows { segment_before snapshot < LAST_SEGMENT → result ≡ segment_before snapshot + 1 }
{
    match snapshot {
        Some(number) => number.saturating_add(1),
        None => 1,
    }
}

/// How many bytes of the segment of this number are kept. Without a whole first line there are none:
/// a writer would go on in the segment before.
fn size_in(number: u64, position: &Position) -> u64
    ensures here { position.now.segment ≡ number → result ≡ position.now.size }
    ensures none { position.now.segment ≢ number → result ≡ 0 }
{
    if position.segment == number {
        return position.size;
    }
    0
}

/// Reads the next segment.
fn read_segment<F: Files, P: Player>(
    folder: &Folder<'_, F>,
    recovery: &mut Recovery,
    number: u64,
    player: &mut P,
) -> Result<End, JournalFault>
    ensures { IfOk result (λ end. ReadsSegment P.plays F.File.remaining number
        recovery.old player.old end recovery.new player.new) }
{
    let place = Place::Segment(number);
    let file = match folder.open(place) {
        Ok(file) => file,
        Err(fault) => return Err(JournalFault::Disk(fault)),
    };
    let mut progress = Progress {
        whole: first_line_len(number),
        seen: 0,
    };
    read_rest(file, place, recovery, player, &mut progress)?;
    let position = recovery.position();
    let size = size_in(number, &position);
    Ok(End {
        segment: number,
        sum: position.sum,
        size,
        torn: progress.seen.saturating_sub(size),
    })
}

/// Reads the last segment. Damage in it is passed over if it may be what a crash left.
fn read_last_segment<F: Files, P: Player>(
    folder: &Folder<'_, F>,
    recovery: &mut Recovery,
    number: u64,
    player: &mut P,
) -> Result<End, JournalFault>
    ensures { IfOk result (λ end. ReadsLast P.plays F.File.remaining number
        recovery.old player.old end recovery.new player.new) }
{
    let place = Place::Segment(number);
    let file = match folder.open(place) {
        Ok(file) => file,
        Err(fault) => return Err(JournalFault::Disk(fault)),
    };
    let mut notes = Notes::new(number);
    let mut given = Given { all: 0, solid: 0 };
    let found = read_end(file, number, recovery, player, &mut notes, &mut given)?;
    let position = recovery.position();
    let size = size_in(number, &position);
    if let Err(stop) = pass(&notes, size, found) {
        return Err(fault_of(place, stop, None));
    }
    Ok(End {
        segment: number,
        sum: position.sum,
        size,
        torn: given.solid.saturating_sub(size),
    })
}

/// Reads the segment of this number, which is the last one that is read. If another one follows, it is
/// closed: no damage is passed over.
fn read_last_of<F: Files, P: Player>(
    folder: &Folder<'_, F>,
    recovery: &mut Recovery,
    number: u64,
    player: &mut P,
    closed: bool,
) -> Result<End, JournalFault>
    ensures { IfOk result (λ end. ReadsLast P.plays F.File.remaining number
        recovery.old player.old end recovery.new player.new) }
{
    if closed {
        return read_segment(folder, recovery, number, player);
    }
    read_last_segment(folder, recovery, number, player)
}

/// Reads the segments from `first` to the one before `last`, each of which is whole.
fn read_closed<F: Files, P: Player>(
    folder: &Folder<'_, F>,
    recovery: &mut Recovery,
    first: u64,
    last: u64,
    player: &mut P,
) -> Result<(), JournalFault>
    ensures { OnOk result (first ≤ last → ReadsFiles P.plays F.File.remaining (last - first)
        recovery.old player.old recovery.new player.new) }
{
    for number in first..last {
        let here = read_segment(folder, recovery, number, player)?;
        match recovery.next_file() {
            Ok(()) => {}
            Err(damage) => {
                let place = Place::Segment(number);
                return Err(fault_at(place, here.size, Flaw::Damage(damage)));
            }
        }
    }
    Ok(())
}

/// Reads the snapshot and the segments up to `last`, each of which is whole but perhaps the last, which
/// may be `closed`. None if there is no segment up to it behind the snapshot: then nothing is read.
fn read_files<F: Files, P: Player>(
    folder: &Folder<'_, F>,
    alloc: Global,
    snapshot: Option<u64>,
    last: u64,
    player: &mut P,
    closed: bool,
) -> Result<Option<End>, JournalFault>
    ensures { IfOk result
        (λ end. Recovers P.plays F.File.remaining snapshot (Some last) player.old end player.new) }
{
    let first = first_after(snapshot);
    if last < first {
        return Ok(None);
    }
    let mut recovery = begin(folder, alloc, snapshot, player)?;
    read_closed(folder, &mut *recovery, first, last, player)?;
    let end = read_last_of(folder, &mut *recovery, last, player, closed)?;
    what_is_recovered_is_found();
    what_is_recovered_is_whole();
    Ok(Some(end))
}

/// Reads all files of a journal, and gives the records of each whole commit to the player. Returns
/// where the journal ends: None if the directory has no segment.
pub fn recover<F: Files, P: Player>(
    folder: &Folder<'_, F>,
    alloc: Global,
    found: &Found,
    player: &mut P,
) -> Result<Option<End>, JournalFault>
    ensures { IfOk result
        (λ end. Recovers P.plays F.File.remaining found.now.snapshot found.now.last player.old end player.new) }
{
    match found.last {
        Some(last) => read_files(folder, alloc, found.snapshot, last, player, false),
        None => Ok(None),
    }
}

/// Reads the snapshot and the closed segments, which are those before the last one. Returns where they
/// end: None if there is no closed segment.
pub fn recover_closed<F: Files, P: Player>(
    folder: &Folder<'_, F>,
    alloc: Global,
    found: &Found,
    player: &mut P,
) -> Result<Option<End>, JournalFault>
    ensures played { IfOk result (λ end. Recovers P.plays F.File.remaining found.now.snapshot
        (option_map (λ last. last - 1) found.now.last) player.old end player.new) }
    ensures whole { IfOk result (λ end. IfSome end (λ e. 0 < e.size)) }
    ensures closed { IfOk result (λ end. IfSome end (λ e. found.now.last ≡ Some (e.segment + 1))) }
{
    let last = match found.last {
        Some(last) => last.saturating_sub(1),
        None => return Ok(None),
    };
    let Some(end) = read_files(folder, alloc, found.snapshot, last, player, true)? else {
        return Ok(None);
    };
    if end.torn > 0 || end.size == 0 {
        return Err(fault_at(Place::Segment(last), end.size, Flaw::Damage(Damage::Torn)));
    }
    Ok(Some(end))
}

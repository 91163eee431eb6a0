//! The journal of a server on the system's disk.
ghost use Rattle.std.specs.Prelude.{◌≡◌, [], IfErr, IfOk, IfSome, IsTrue, OnOk, is_ok};
ghost use Rattle.judy_disk.specs.Folders.{asked_of};
ghost use Rattle.judy_programs.specs.Beginning.{BeginsAt, BeginsClosed, BeginsFile, ClosesBefore, IsAtSegment, IsBegun, IsClosedIf, IsSameFile};
ghost use Rattle.judy_programs.specs.Keeping.{Appends, IsHeld, Secures, Syncs, current_of, fault_of, folder_of};
ghost use Rattle.judy_programs.specs.Scanning.{ScansAs};
ghost use Rattle.judy_programs.specs.Taking.{HasTaken, Shares, Starts, TakesDirectory};
ghost use Rattle.judy_recovery.specs.Whole.{HasPlayedJournal, HasResumed, Kept};

use crate::ahead::{Ahead, SEGMENT_LIMIT, fill};
use crate::journals::Readies;
use crate::spending::count_in;
use judy_disk::{DiskFault, Folder, Found, Growing, Locks, Manifest, Place, Spares, Spent};
use judy_many::{JournalCounts, tell_line};
use judy_recovery::{End, JournalFault, Resumed, recover, resume};
use std::alloc::Global;
use std::io::{self, Eprint};
use std::rt::Clock;
use std::time::Instant;

/// The directory of a journal that a server has taken, and its current file. It is no journal before
/// it is resumed.
#[derive(Drop)]
pub struct Directory<'a, F: Locks> {
    pub(crate) rt: &'a F,
    pub(crate) folder: Option<Folder<'a, F>>,
    lock: Option<F::File>,
    pub(crate) current: Option<Growing<F>>,
    pub(crate) ahead: Ahead<F>,
    pub(crate) spares: Spares<F>,
    pub(crate) counts: JournalCounts,
    pub(crate) spent: Option<Spent>,
    /// Whether the next bytes are the first line of a segment, which is nobody's.
    at_first: bool,
    /// Whether the current segment has commits and no note yet, as those of an older program. Zeros behind
    /// these would look like damage.
    pub(crate) is_plain: bool,
    pub(crate) began: Option<Instant>,
    /// The second at which there was no room for the next segment, if that was so.
    pub(crate) failed: Option<u64>,
    /// The second at which a newer snapshot was looked for last.
    pub(crate) looked: Option<u64>,
    fault: Option<JournalFault>,
    is_new: bool,
}

/// The directory at a path.
fn folder_at<'a, F: Locks>(
    rt: &'a F,
    alloc: Global,
    path: &str,
) -> Result<Folder<'a, F>, JournalFault>
    ensures { IfOk result (λ folder. asked_of folder ≡ []) }
{
    match String::from_str(alloc, path) {
        Ok(path) => Ok(Folder::new(rt, alloc, path)),
        Err(e) => Err(of_disk(DiskFault::at(Place::Folder, io::Error::from(e)))),
    }
}

/// A fault of the directory.
fn of_disk(fault: DiskFault) -> JournalFault
    ensures { result ≡ JournalFault.Disk fault }
{
    JournalFault::Disk(fault)
}

/// How many of the bytes behind the last whole commit will be kept beside: none if they are zeros.
fn torn_len<F: Locks>(folder: &mut Folder<'_, F>, end: &Option<End>) -> Result<u64, DiskFault> {
    match end {
        Some(end) if end.torn > 0 => folder.torn_len(end.segment, end.size),
        _ => Ok(0),
    }
}

/// Tells that a commit was cut off, if one was, and where it is kept.
fn tell_cut<F: Locks + Eprint>(rt: &F, folder: &mut Folder<'_, F>, end: &Option<End>, kept: u64) {
    let end = match end {
        Some(end) if end.torn > 0 => end,
        _ => return,
    };
    let is_kept = kept > 0 && folder.keeps_torn(end.segment, kept);
    let (path, file, torn) = (folder.path(), Place::Segment(end.segment), end.torn);
    let beside = Place::Torn(end.segment);
    if kept == 0 {
        tell_line(
            rt,
            format_args!(
                "judyd: {path}/{file}: cut off {torn} bytes of a commit that was not finished, all of them 0"
            ),
        );
        return;
    }
    if !is_kept {
        tell_line(
            rt,
            format_args!(
                "judyd: {path}/{file}: cut off {torn} bytes of a commit that was not finished: no room to keep them"
            ),
        );
        return;
    }
    tell_line(
        rt,
        format_args!(
            "judyd: {path}/{file}: cut off {torn} bytes of a commit that was not finished, kept in {beside}"
        ),
    );
}

/// Tells what it waits for.
fn tell_wait<F: Locks + Eprint>(rt: &F, folder: &Folder<'_, F>, file: Place) {
    let path = folder.path();
    tell_line(
        rt,
        format_args!(
            "judyd: {path}/{file}: waits until another program that compacts or repairs the journal ends"
        ),
    );
}

/// Keeps all files, until the lock is dropped. If another program removes files, it tells that it waits, and
/// waits.
fn hold_to_read<F: Locks + Eprint>(
    rt: &F,
    folder: &mut Folder<'_, F>,
    lock: &F::File,
) -> Result<(), DiskFault>
    ensures { Shares result (asked_of folder.old) (asked_of folder.new) }
{
    if folder.may_read(lock)? {
        return Ok(());
    }
    tell_wait(rt, folder, Place::ReadLock);
    folder.wait_to_read(lock)
}

/// Lets nobody else take the directory, until what is returned is dropped. If another program has it in place of a
/// server, it tells that it waits, and waits.
fn start<F: Locks + Eprint>(rt: &F, folder: &mut Folder<'_, F>) -> Result<F::File, DiskFault>
    ensures { Starts result (asked_of folder.old) (asked_of folder.new) }
{
    let start = folder.start_lock()?;
    if folder.may_start(&start)? {
        return Ok(start);
    }
    tell_wait(rt, folder, Place::StartLock);
    folder.wait_to_start(&start)?;
    Ok(start)
}

/// Takes the directory for a server, until what is returned is dropped.
fn take<F: Locks + Eprint>(rt: &F, folder: &mut Folder<'_, F>) -> Result<F::File, DiskFault>
    ensures { TakesDirectory result (asked_of folder.old) (asked_of folder.new) }
{
    match start(rt, folder) {
        Ok(_start) => folder.take(),
        Err(fault) => Err(fault),
    }
}

/// A directory that was taken for a server, until its locks are dropped.
struct Taken<'a, F: Locks> {
    folder: Folder<'a, F>,
    reading: F::File,
    lock: F::File,
}

/// Takes the directory at a path for a server. Meanwhile nobody removes files.
fn take_at<'a, F: Locks + Eprint>(
    rt: &'a F,
    alloc: Global,
    path: &str,
) -> Result<Taken<'a, F>, JournalFault>
    ensures { IfOk result (λ taken. HasTaken [] (asked_of taken.folder)) }
{
    let mut folder = folder_at(rt, alloc, path)?;
    let reading = folder.read_lock().map_err(|e| of_disk(e))?;
    hold_to_read(rt, &mut folder, &reading).map_err(|e| of_disk(e))?;
    let lock = take(rt, &mut folder).map_err(|e| of_disk(e))?;
    Ok(Taken {
        folder,
        reading,
        lock,
    })
}

/// Which files a directory has. Those that its manifest names are all there, or it is that of a new journal, if
/// that is expected.
fn scan<F: Locks + Clone + Drop>(
    folder: &mut Folder<'_, F>,
    is_new: bool,
) -> Result<Found, DiskFault>
    ensures { ScansAs is_new result (asked_of folder.old) (asked_of folder.new) }
{
    if is_new {
        return folder.scan_new();
    }
    folder.scan()
}

/// Cuts off the zeros behind the end of the current file, if there is one, and secures it.
fn close_before<F: Locks>(current: &mut Option<Growing<F>>) -> Result<(), DiskFault>
    ensures { ClosesBefore current.old result current.new }
{
    match current {
        Some(before) => before.close(),
        None => Ok(()),
    }
}

/// Makes the file of a segment, or gives its name to the one that was made ahead.
fn begin_file<F: Locks>(
    folder: &mut Folder<'_, F>,
    segment: u64,
    made: Option<Growing<F>>,
) -> Result<Growing<F>, DiskFault>
    ensures acts { BeginsFile made segment result (asked_of folder.old) (asked_of folder.new) }
    ensures file { IfOk result (λ file. IsBegun made segment file) }
{
    match made {
        Some(made) => folder.begin_made(made, segment),
        None => folder.begin(segment),
    }
}

/// The same. It takes the place of the current file, which is closed, and the manifest is raised to it.
fn begin_closed<F: Locks>(
    folder: &mut Folder<'_, F>,
    segment: u64,
    current: &mut Option<Growing<F>>,
    made: Option<Growing<F>>,
) -> Result<(), DiskFault>
    requires { IsClosedIf current.old }
    ensures { BeginsClosed made segment current.old result current.new (asked_of folder.old) (asked_of folder.new) }
{
    let begun = match begin_file(folder, segment, made) {
        Ok(begun) => begun,
        Err(fault) => return Err(fault),
    };
    // This closes the file before, and so leaves a descriptor for the manifest.
    *current = Some(begun);
    folder.raise_manifest(Manifest {
        snapshot: 0,
        last: segment,
    })
}

/// Makes the file of a segment, which takes the place of the current one, and raises the manifest to it. The
/// zeros behind the end of the one before are cut off first, which leaves room for the manifest.
fn begin_at<F: Locks>(
    folder: &mut Folder<'_, F>,
    segment: u64,
    current: &mut Option<Growing<F>>,
    made: Option<Growing<F>>,
) -> Result<(), DiskFault>
    ensures { BeginsAt made segment current.old result current.new (asked_of folder.old) (asked_of folder.new) }
{
    close_before(current)?;
    begin_closed(folder, segment, current, made)
}

/// Fills a segment that was begun with zeros up to its size, as far as there is room.
fn fill_begun<F: Locks>(current: &mut Option<Growing<F>>, limit: u64)
    ensures { IsSameFile current.old current.new }
{
    if let Some(current) = current {
        let _filled = fill(current, limit);
    }
}

/// Fills a segment with zeros up to its size, as far as there is room, and secures it.
fn fill_current<F: Locks>(current: &mut Option<Growing<F>>, limit: u64) -> Result<(), DiskFault> {
    let Some(current) = current else {
        return Ok(());
    };
    let _filled = fill(current, limit);
    current.sync()
}

impl<'a, F: Locks + Clock + Eprint + Clone + Drop> Directory<'a, F> {
    /// No directory yet.
    pub fn new(rt: &'a F) -> Self {
        Directory {
            rt,
            folder: None,
            lock: None,
            current: None,
            ahead: Ahead::new(SEGMENT_LIMIT),
            spares: Spares::new(),
            counts: JournalCounts::new(0),
            spent: None,
            at_first: false,
            is_plain: false,
            began: Instant::now(rt).ok(),
            failed: None,
            looked: None,
            fault: None,
            is_new: false,
        }
    }

    /// The journal is a new one: its directory must have no manifest yet, and gets one.
    pub fn expect_new(&mut self) {
        self.is_new = true;
    }

    /// A segment is full with this many bytes. It is set before the directory is taken.
    pub fn set_segment(&mut self, limit: u64) {
        self.ahead = Ahead::new(limit);
    }

    /// Whether a segment with this many bytes is full.
    pub fn is_full(&self, size: u64) -> bool {
        self.ahead.is_full(size)
    }

    /// What the disk refused last, and why.
    pub fn take_fault(&mut self) -> Option<JournalFault> {
        self.fault.take()
    }

    /// Notes what a directory that was taken has, and makes its current file ready for a writer.
    fn go_on(
        &mut self,
        alloc: Global,
        folder: &mut Folder<'_, F>,
        found: &Found,
        resumed: &Resumed,
        current: &mut Option<Growing<F>>,
    ) -> Result<(), DiskFault> {
        folder.raise_manifest(Manifest::of(found))?;
        let counted = count_in(folder, alloc, found)?;
        self.is_plain = !counted.noted && !resumed.begins && !resumed.is_bare;
        if !self.is_plain {
            fill_current(current, self.ahead.limit())?;
        }
        self.spares.take(folder);
        self.spent = Some(counted.spent);
        Ok(())
    }

    /// Gives the records of a directory that was taken to a player, makes the player ready, and then the
    /// directory for a writer.
    fn resume_in<P: Readies>(
        &mut self,
        alloc: Global,
        folder: &mut Folder<'_, F>,
        found: &Found,
        player: &mut P,
    ) -> Result<Resumed, JournalFault>
        ensures { IfOk result (λ at. (kept : Kept) × (played : P)
            × HasResumed P.plays kept player.old at played × P.readied played player.new) }
    {
        let end = recover(folder, alloc, found, player)?;
        player.ready()?;
        let kept = torn_len(folder, &end).map_err(|e| of_disk(e))?;
        // What a server before has made ahead takes room that is needed now.
        folder.remove_ahead(found.last.unwrap_or(0).saturating_add(1));
        let (resumed, mut current) = match resume(folder, end) {
            Ok(ready) => ready,
            Err(fault) => return Err(of_disk(fault)),
        };
        tell_cut(self.rt, folder, &end, kept);
        let went_on = self.go_on(alloc, folder, found, &resumed, &mut current);
        went_on.map_err(|e| of_disk(e))?;
        self.current = current;
        Ok(resumed)
    }

    /// Takes the directory, gives its records to a player, makes the player ready, and then the
    /// directory for a writer.
    fn try_resume<P: Readies>(
        &mut self,
        alloc: Global,
        path: &str,
        player: &mut P,
    ) -> Result<Resumed, JournalFault>
        ensures resumed { IfOk result (λ at. (kept : Kept) × (played : P)
            × HasResumed P.plays kept player.old at played × P.readied played player.new) }
        ensures held { OnOk result (IsHeld self.new) }
    {
        let Taken {
            mut folder,
            reading: _reading,
            lock,
        } = take_at(self.rt, alloc, path)?;
        let found = scan(&mut folder, self.is_new).map_err(|e| of_disk(e))?;
        let resumed = self.resume_in(alloc, &mut folder, &found, player)?;
        self.folder = Some(folder);
        self.lock = Some(lock);
        self.counts = JournalCounts::new(resumed.segment);
        Ok(resumed)
    }

    /// Takes the directory, gives its records to a player, makes the player ready, and then the
    /// directory for a writer. None if that fails.
    pub fn resume<P: Readies>(
        &mut self,
        alloc: Global,
        path: &str,
        player: &mut P,
    ) -> Option<Resumed>
        ensures resumed { IfSome result (λ at. (kept : Kept) × (played : P)
            × HasResumed P.plays kept player.old at played × P.readied played player.new) }
        ensures held { IfSome result (λ at. IsHeld self.new) }
    {
        match self.try_resume(alloc, path, player) {
            Ok(resumed) => Some(resumed),
            Err(fault) => {
                self.fault = Some(fault);
                None
            }
        }
    }

    /// Gives the records of a directory to a player, and makes the player ready.
    fn look_in<P: Readies>(
        &self,
        alloc: Global,
        folder: &mut Folder<'_, F>,
        player: &mut P,
    ) -> Result<(), JournalFault>
        ensures { OnOk result ((kept : Kept) × (played : P)
            × HasPlayedJournal P.plays kept player.old played × P.readied played player.new) }
    {
        let found = scan(folder, self.is_new).map_err(|e| of_disk(e))?;
        recover(folder, alloc, &found, player)?;
        player.ready()?;
        Ok(())
    }

    /// Gives the records of a journal to a player, and makes the player ready. The journal is unchanged.
    fn try_look<P: Readies>(
        &self,
        alloc: Global,
        path: &str,
        player: &mut P,
    ) -> Result<(), JournalFault>
        ensures { OnOk result ((kept : Kept) × (played : P)
            × HasPlayedJournal P.plays kept player.old played × P.readied played player.new) }
    {
        let mut folder = folder_at(self.rt, alloc, path)?;
        let reading = folder.read_lock_if_there();
        if let Some(lock) = &reading {
            // Without the lock the files are read as they are.
            let _held = hold_to_read(self.rt, &mut folder, lock);
        }
        self.look_in(alloc, &mut folder, player)
    }

    /// Gives the records of a journal to a player, and makes the player ready. The journal is
    /// unchanged. False if that fails.
    pub fn look<P: Readies>(&mut self, alloc: Global, path: &str, player: &mut P) -> bool
        ensures { IsTrue result → (kept : Kept) × (played : P)
            × HasPlayedJournal P.plays kept player.old played × P.readied played player.new }
    {
        match self.try_look(alloc, path, player) {
            Ok(()) => true,
            Err(fault) => {
                self.fault = Some(fault);
                false
            }
        }
    }

    /// Whether the disk did what was asked. If it did not, it notes why.
    fn did(&mut self, done: Result<(), DiskFault>) -> bool
        ensures did { result ≡ is_ok done }
        ensures noted { IfErr done (λ why. fault_of self.new ≡ Some (JournalFault.Disk why)) }
        ensures stays { self.new ≡ record self.old { fault = fault_of self.new } }
    {
        match done {
            Ok(()) => true,
            Err(fault) => {
                self.fault = Some(of_disk(fault));
                false
            }
        }
    }

    /// Makes the file of a segment, or takes the one that was made ahead. The spare descriptors are given up
    /// for it, and taken again once the file before is closed.
    pub fn begin(&mut self, segment: u64) -> bool
        ensures { IsTrue result → IsAtSegment segment (current_of self.new) }
    {
        let Some(folder) = &mut self.folder else {
            return false;
        };
        // Without room for a whole file a small one is begun.
        let _made = self.ahead.make(folder, &mut self.spares, segment, true);
        self.spares.give_up();
        let begun = begin_at(folder, segment, &mut self.current, self.ahead.take());
        if let Err(fault) = begun {
            return self.did(Err(fault));
        }
        fill_begun(&mut self.current, self.ahead.limit());
        self.spares.take(folder);
        self.counts.begin(segment);
        self.at_first = true;
        self.is_plain = false;
        true
    }

    /// Counts bytes that were appended. A first line is nobody's.
    fn count(&mut self, bytes: &[u8])
        ensures { current_of self.new ≡ current_of self.old }
    {
        self.counts.keep(bytes.len());
        if !self.at_first
            && let Some(spent) = &mut self.spent
        {
            // What there is no memory to count is not counted.
            let _counted = spent.count(self.counts.segment(), bytes);
        }
        self.at_first = false;
    }

    /// Appends bytes to the current file: its first line, or a commit.
    pub fn keep(&mut self, bytes: &[u8]) -> bool
        ensures { Appends bytes.now (current_of self.old) result (current_of self.new) }
    {
        let Some(current) = &mut self.current else {
            return false;
        };
        let done = current.append(bytes);
        self.count(bytes);
        self.did(done)
    }

    /// Secures the current file, if there is one, and cuts off the zeros behind its end. The one that was
    /// made ahead is removed. False if that fails.
    pub fn secure(&mut self) -> bool
        ensures { Secures (folder_of self.old) (current_of self.old) result (current_of self.new) }
    {
        let Some(folder) = &mut self.folder else {
            return true;
        };
        let Some(current) = &mut self.current else {
            return true;
        };
        self.ahead
            .remove(folder, self.counts.segment().saturating_add(1));
        let done = current.close();
        self.counts.sync();
        self.did(done)
    }

    /// Secures the current file. Its commits since the start have notes.
    pub fn sync(&mut self) -> bool
        ensures { Syncs (current_of self.old) result (current_of self.new) }
    {
        let Some(current) = &mut self.current else {
            return false;
        };
        let done = current.sync();
        self.is_plain = false;
        self.counts.sync();
        self.did(done)
    }
}

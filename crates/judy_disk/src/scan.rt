//! Which files a journal's directory has.
ghost use Rattle.std.specs.Prelude.{◌≡◌, ◌⊎◌, ◌++◌, ◌∷◌, [], false, IfErr, IfOk, OnOk, map};
ghost use Rattle.std.specs.List.Sorted.{IsNonDecreasing, IsPermutation};
ghost use Rattle.judy_disk.specs.Names.{named_of};
ghost use Rattle.judy_disk.specs.Scans.{Continues, IsArranged, IsGap, IsGreatest, IsGreatestOr0, IsOther, IsOutOfMemory, IsRun, IsUnarranged, Misses};
ghost use Rattle.judy_disk.specs.Scans.{ArrangesBy, first_after, is_newest, is_other, old_segments, old_snapshots, segment_in, snapshot_in, torn_in};

use crate::faults::DiskFault;
use crate::manifest::Manifest;
use crate::names::{Named, Place, read_name};
use std::alloc::Global;
use std::io;

/// The files that a journal is read from, and those that it no longer needs.
#[derive(Debug, Drop)]
pub struct Found {
    /// The greatest snapshot, if there is one. It is read first.
    pub snapshot: Option<u64>,
    /// The first segment that is read: the one after the snapshot.
    pub first: u64,
    /// The last segment, if there is one. All from the first to it are there.
    pub last: Option<u64>,
    /// The older snapshots and segments, which the snapshot stands for. Then the torn bytes of any
    /// segment, which are not needed once a snapshot stands for it.
    pub old: Vec<Place>,
}

/// Out of memory, as a fault of the directory.
pub(crate) fn out_of_memory() -> DiskFault
    ensures { IsOutOfMemory result }
{
    DiskFault::at(Place::Folder, io::Error::from(io::ErrorKind::OutOfMemory))
}

/// The numbers in the names of a directory's files.
#[derive(Debug, Drop)]
pub(crate) struct Names {
    /// Those of the segments.
    pub segments: Vec<u64>,
    /// Those of the snapshots.
    pub snapshots: Vec<u64>,
    /// Those of the segments of which torn bytes are kept.
    pub torn: Vec<u64>,
}

/// Puts a number with the others.
fn put_number(numbers: &mut Vec<u64>, number: u64) -> Result<(), DiskFault>
    ensures done { OnOk result (numbers.new.items ≡ numbers.old.items ++ number ∷ []) }
    ensures memory { IfErr result IsOutOfMemory }
{
    match numbers.push(number) {
        Ok(()) => Ok(()),
        Err(_) => Err(out_of_memory()),
    }
}

impl Names {
    /// No names yet.
    pub fn new(alloc: Global) -> Names
        ensures segments { result.segments.items ≡ [] }
        ensures snapshots { result.snapshots.items ≡ [] }
        ensures torn { result.torn.items ≡ [] }
    {
        Names {
            segments: Vec::new(alloc),
            snapshots: Vec::new(alloc),
            torn: Vec::new(alloc),
        }
    }

    /// Puts the number of a file with this name with the others.
    pub fn put(&mut self, alloc: Global, name: &str) -> Result<(), DiskFault>
        ensures segments { OnOk result (self.new.segments.items
            ≡ self.old.segments.items ++ segment_in (named_of name.now)) }
        ensures snapshots { OnOk result (self.new.snapshots.items
            ≡ self.old.snapshots.items ++ snapshot_in (named_of name.now)) }
        ensures torn { OnOk result (self.new.torn.items
            ≡ self.old.torn.items ++ torn_in (named_of name.now)) }
        ensures known { OnOk result (is_other (named_of name.now) ≡ false) }
        ensures refused { IfErr result (λ why. IsOutOfMemory why ⊎ IsOther name.now why) }
    {
        match read_name(name) {
            Named::Segment(number) => put_number(&mut self.segments, number),
            Named::Snapshot(number) => put_number(&mut self.snapshots, number),
            Named::Torn(number) => put_number(&mut self.torn, number),
            Named::Passed => Ok(()),
            Named::Other => match String::from_str(alloc, name) {
                Ok(name) => Err(DiskFault::Name(name)),
                Err(_) => Err(out_of_memory()),
            },
        }
    }

    /// The greatest number of a snapshot: 0 if there is none.
    pub fn snapshot(&self) -> u64
        ensures { IsGreatestOr0 self.now.snapshots.items result }
    {
        greatest(self.snapshots.as_slice()).unwrap_or(0)
    }

    /// Arranges the files.
    pub fn arrange(&mut self, alloc: Global) -> Result<Found, DiskFault>
        ensures same { IsPermutation self.old.segments.items self.new.segments.items }
        ensures arranged { IfOk result
            (IsArranged self.new.segments.items self.old.snapshots.items self.old.torn.items) }
        ensures refused { IfErr result (IsUnarranged self.new.segments.items self.old.snapshots.items) }
    {
        let segments = self.segments.as_mut_slice();
        let mut found = arrange(alloc, segments, self.snapshots.as_slice())?;
        leave_torn(self.torn.as_slice(), &mut found.old)?;
        Ok(found)
    }

    /// Arranges the files. Those that a manifest names are all there.
    pub fn arrange_by(&mut self, alloc: Global, manifest: Manifest) -> Result<Found, DiskFault>
        ensures { ArrangesBy manifest self.old.segments.items self.old.snapshots.items self.old.torn.items result }
    {
        if let Some(lack) = manifest.lack(self.snapshot(), manifest.last) {
            return Err(DiskFault::lacking(lack));
        }
        let found = self.arrange(alloc)?;
        match manifest.lack(found.snapshot.unwrap_or(0), found.last.unwrap_or(0)) {
            Some(lack) => Err(DiskFault::lacking(lack)),
            None => Ok(found),
        }
    }
}

/// The greatest number, if there is one.
fn greatest(numbers: &[u64]) -> Option<u64>
    ensures { IsGreatest numbers.now result }
{
    let Some(first) = numbers.first() else {
        return None;
    };
    let mut most = *first;
    for number in numbers {
        most = u64::max(most, *number);
    }
    Some(most)
}

/// Puts a file with those that are no longer needed.
fn leave(old: &mut Vec<Place>, place: Place) -> Result<(), DiskFault>
    ensures done { OnOk result (old.new.items ≡ old.old.items ++ place ∷ []) }
    ensures memory { IfErr result IsOutOfMemory }
{
    match old.push(place) {
        Ok(()) => Ok(()),
        Err(_) => Err(out_of_memory()),
    }
}

/// A snapshot that is not the newest is no longer needed.
fn leave_snapshot(number: u64, newest: Option<u64>, old: &mut Vec<Place>) -> Result<(), DiskFault>
    ensures done { OnOk result (old.new.items ≡ old.old.items ++ old_snapshots newest (number ∷ [])) }
    ensures memory { IfErr result IsOutOfMemory }
{
    if is_newest(newest, number) {
        return Ok(());
    }
    leave(old, Place::Snapshot(number))
}

/// The snapshots but the newest are no longer needed.
fn leave_snapshots(
    snapshots: &[u64],
    newest: Option<u64>,
    old: &mut Vec<Place>,
) -> Result<(), DiskFault>
    ensures done { OnOk result (old.new.items ≡ old.old.items ++ old_snapshots newest snapshots.now) }
    ensures memory { IfErr result IsOutOfMemory }
{
    for number in snapshots {
        leave_snapshot(*number, newest, old)?;
    }
    Ok(())
}

/// Whether a snapshot is the newest.
fn is_newest(newest: Option<u64>, number: u64) -> bool
    ensures { result ≡ is_newest newest number }
{
    match newest {
        Some(newest) => number == newest,
        None => false,
    }
}

/// A segment before the first that is read is no longer needed.
fn leave_segment(number: u64, first: u64, old: &mut Vec<Place>) -> Result<(), DiskFault>
    ensures done { OnOk result (old.new.items ≡ old.old.items ++ old_segments first (number ∷ [])) }
    ensures memory { IfErr result IsOutOfMemory }
{
    if number < first {
        return leave(old, Place::Segment(number));
    }
    Ok(())
}

/// The segments before the first that is read are no longer needed.
fn leave_segments(segments: &[u64], first: u64, old: &mut Vec<Place>) -> Result<(), DiskFault>
    ensures done { OnOk result (old.new.items ≡ old.old.items ++ old_segments first segments.now) }
    ensures memory { IfErr result IsOutOfMemory }
{
    for number in segments {
        leave_segment(*number, first, old)?;
    }
    Ok(())
}

/// The last segment of a run with one more number, which is not less than those before. Err: the one that is
/// missing before it.
fn next_of(first: u64, last: Option<u64>, number: u64) -> Result<Option<u64>, u64>
    ensures next { IfOk result (λ after. Continues first last number after) }
    ensures gap { IfErr result (λ n. Misses first last number n) }
{
    if number < first {
        return Ok(last);
    }
    let wanted = match last {
        Some(before) if number <= before => return Ok(last),
        Some(before) => before + 1,
        None => first,
    };
    if number != wanted {
        return Err(wanted);
    }
    Ok(Some(number))
}

/// The last of the segments from the first one on, in increasing order; none if there is none of them. Err:
/// this one is missing before it.
fn last_from(segments: &[u64], first: u64) -> Result<Option<u64>, u64>
    requires sorted { IsNonDecreasing segments.now }
    ensures run { IfOk result (λ last. IsRun segments.now first last) }
    ensures gap { IfErr result (λ n. IsGap segments.now first n) }
{
    let mut last = None;
    for number in segments {
        match next_of(first, last, *number) {
            Ok(after) => last = after,
            Err(missing) => return Err(missing),
        }
    }
    Ok(last)
}

/// The first segment that is read.
fn first_after(snapshot: Option<u64>) -> u64
    ensures { result ≡ first_after snapshot }
{
    match snapshot {
        Some(number) => number.saturating_add(1),
        None => 1,
    }
}

/// The torn bytes of any segment are not needed once a snapshot stands for it.
fn leave_torn(torn: &[u64], old: &mut Vec<Place>) -> Result<(), DiskFault>
    ensures done { OnOk result (old.new.items ≡ old.old.items ++ map Place.Torn torn.now) }
    ensures memory { IfErr result IsOutOfMemory }
{
    for number in torn {
        leave(old, Place::Torn(*number))?;
    }
    Ok(())
}

/// Arranges the segments and the snapshots of a directory, by their numbers in any order. A segment
/// that is missing is a fault.
pub fn arrange(alloc: Global, segments: &mut [u64], snapshots: &[u64]) -> Result<Found, DiskFault>
    ensures same { IsPermutation segments.old segments.new }
    ensures arranged { IfOk result (IsArranged segments.new snapshots.now []) }
    ensures refused { IfErr result (IsUnarranged segments.new snapshots.now) }
{
    segments.sort_unstable();
    let snapshot = greatest(snapshots);
    let first = first_after(snapshot);
    let last = match last_from(&*segments, first) {
        Ok(last) => last,
        Err(missing) => return Err(DiskFault::Missing(Place::Segment(missing))),
    };
    if snapshot.is_some() && last.is_none() {
        return Err(DiskFault::Missing(Place::Segment(first)));
    }
    let mut old = Vec::new(alloc);
    leave_snapshots(snapshots, snapshot, &mut old)?;
    leave_segments(&*segments, first, &mut old)?;
    Ok(Found {
        snapshot,
        first,
        last,
        old,
    })
}

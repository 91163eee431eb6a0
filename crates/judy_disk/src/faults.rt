//! What can be wrong with the directory of a journal.
ghost use Rattle.std.specs.Prelude.{◌≡◌, IsFalse, IsTrue};
ghost use Rattle.judy_disk.specs.Acts.{IsAbsent, IsFull, IsToldBy};
ghost use Rattle.judy_disk.specs.Scans.{fault_of};

use crate::manifest::Lack;
use crate::names::Place;
use std::{fmt, io};

/// Why a directory gives no journal, or a file of it failed.
#[derive(Debug, Drop)]
pub enum DiskFault {
    /// The system refused something of this file.
    System {
        /// The file.
        place: Place,
        /// What the system said.
        reason: io::Error,
    },
    /// This file has a name that no file of a journal has.
    Name(String),
    /// Another server uses the directory.
    InUse,
    /// Another program compacts or repairs the journal.
    Compacted,
    /// This file is missing: the manifest names it, or a later one is there.
    Missing(Place),
    /// There is no manifest.
    NoManifest,
    /// There is a manifest already.
    HasManifest,
    /// The text of the manifest is damaged.
    Manifest,
    /// The manifest ends at this segment, and two or more are there after it.
    Behind(u64),
}

impl DiskFault {
    /// The system refused something of this file.
    pub fn at(place: Place, reason: io::Error) -> DiskFault
        ensures { result ≡ DiskFault.System place reason }
    {
        DiskFault::System { place, reason }
    }

    /// Files do not fit the manifest.
    pub fn lacking(lack: Lack) -> DiskFault
        ensures { result ≡ fault_of lack }
    {
        match lack {
            Lack::Snapshot(number) => DiskFault::Missing(Place::Snapshot(number)),
            Lack::Segment(number) => DiskFault::Missing(Place::Segment(number)),
            Lack::Behind(number) => DiskFault::Behind(number),
        }
    }

    /// Whether a file is not there.
    pub(crate) fn is_absent(&self) -> bool
        ensures is { IsTrue result → IsAbsent self.now }
        ensures is_not { IsFalse result → IsAbsent self.now → ⊥ }
    {
        match self {
            DiskFault::System { reason, .. } => reason.kind() == io::ErrorKind::NotFound,
            _ => false,
        }
    }

    /// Whether the disk has no room.
    pub(crate) fn is_full(&self) -> bool
        ensures is { IsTrue result → IsFull self.now }
        ensures is_not { IsFalse result → IsFull self.now → ⊥ }
    {
        match self {
            DiskFault::System { reason, .. } => matches!(
                reason.kind(),
                io::ErrorKind::StorageFull | io::ErrorKind::QuotaExceeded
            ),
            _ => false,
        }
    }

    /// Whether a file was not made since it is there.
    pub(crate) fn is_there(&self) -> bool {
        match self {
            DiskFault::System { reason, .. } => reason.kind() == io::ErrorKind::AlreadyExists,
            _ => false,
        }
    }
}

/// What helps where there is no manifest.
const NO_MANIFEST: &str =
    ": if a new journal is wanted here, or this is one of an older version: judyd journal DIR --new";

/// What was done to a file, or the fault that the system's refusal is.
pub(crate) fn done_at<T>(place: Place, done: io::Result<T>) -> Result<T, DiskFault>
    ensures { IsToldBy place done result }
{
    match done {
        Ok(value) => Ok(value),
        Err(e) => Err(DiskFault::at(place, e)),
    }
}

/// What follows the directory's path in a line for the operator.
impl fmt::Display for DiskFault {
    fn fmt<W: fmt::Write>(&self, f: &mut fmt::Formatter<W>) -> fmt::Result {
        match self {
            DiskFault::System {
                place: Place::Folder,
                reason,
            } => write!(f, ": {reason}"),
            DiskFault::System { place, reason } => write!(f, "/{place}: {reason}"),
            DiskFault::InUse => write!(f, ": in use by another server"),
            DiskFault::Compacted => write!(f, ": in use by another compaction or repair"),
            DiskFault::Name(name) => write!(f, "/{name}: no name of a journal's file"),
            DiskFault::Missing(place) => write!(f, "/{place}: missing"),
            DiskFault::NoManifest => write!(f, "/manifest: missing{NO_MANIFEST}"),
            DiskFault::HasManifest => write!(f, "/manifest: is there: this is no new journal"),
            DiskFault::Manifest => write!(f, "/manifest: damaged"),
            DiskFault::Behind(number) => {
                write!(
                    f,
                    "/manifest: ends at {number:012}.journal, and two or more follow"
                )
            }
        }
    }
}

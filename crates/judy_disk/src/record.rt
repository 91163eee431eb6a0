//! What was asked of the system, and its answers: a list that only clauses read.
ghost use Rattle.std.specs.Prelude.{◌≡◌, ℕ, List, [], ◌∷◌, ◌++◌};
ghost use Rattle.std.specs.Borrow.{ftrue};
ghost use Rattle.judy_disk.specs.Acts.{Act, lock_by, size_by};
ghost use Rattle.judy_disk.specs.Acts.Act.{Absent, AllListed, Gave, GaveAt, Listed};
ghost use Rattle.judy_disk.specs.Notes.{act_if, act_of, ask_by, ask_of, place_of};

use crate::names::Place;
use std::io;
use std::marker::{Model, PhantomData};

/// The acts so far, in order. It has no bytes.
#[derive(Drop)]
pub struct Record {
    marker: PhantomData<u8>,
    pub ghost acts: { List Act },
}

impl Model for Record {
    ghost also_owns = { λ _. ftrue };
}

/// The number of a file, and that of its segment.
fn numbers_of(place: Place) -> (u64, u64)
    ensures { place_of result.0 result.1 ≡ place }
{
    match place {
        Place::Folder => (0, 0),
        Place::Lock => (1, 0),
        Place::CompactLock => (2, 0),
        Place::ReadLock => (3, 0),
        Place::StartLock => (4, 0),
        Place::Segment(number) => (5, number),
        Place::NewSegment(number) => (6, number),
        Place::Torn(number) => (7, number),
        Place::NewTorn(number) => (8, number),
        Place::Snapshot(number) => (9, number),
        Place::NewSnapshot => (10, 0),
        Place::Manifest => (11, 0),
        Place::NewManifest => (12, 0),
        Place::ManifestLock => (13, 0),
    }
}

/// What is asked of a file.
#[derive(Clone, Copy)]
pub(crate) enum Asked {
    /// It is made.
    Make,
    /// It is opened for writing.
    Open,
    /// Bytes are written from this place on.
    Write(u64),
    /// Zeros are written from this place on, and this number of them.
    Fill(u64, u64),
    /// It gets this number of bytes.
    Cut(u64),
    /// Its bytes are secured.
    Sync,
    /// It is secured whole.
    Secure,
    /// It gets this name.
    Rename(Place),
    /// It is removed.
    Remove,
    /// It is read whole.
    Read,
    /// It is opened for reading.
    OpenToRead,
    /// Bytes are read from this place on, and this number of them.
    ReadAt(u64, u64),
    /// A listing of the directory is begun.
    ListNames,
    /// The next name of a listing.
    NextName,
    /// It is locked, if that is possible now.
    TryLock,
    /// It is locked.
    Lock,
    /// It is locked beside others, if that is possible now.
    TryShare,
    /// It is locked beside others.
    Share,
}

/// The numbers of what is asked.
fn numbers_of_ask(asked: Asked) -> (u64, u64, u64)
    ensures { (p : Place) (bytes : List ℕ)
        → ask_of result.0 p (result.1 ∷ result.2 ∷ []) bytes ≡ ask_by asked p bytes }
{
    match asked {
        Asked::Make => (0, 0, 0),
        Asked::Open => (1, 0, 0),
        Asked::Write(at) => (3, at, 0),
        Asked::Fill(at, len) => (4, at, len),
        Asked::Cut(len) => (5, len, 0),
        Asked::Sync => (6, 0, 0),
        Asked::Secure => (7, 0, 0),
        Asked::Rename(to) => {
            let (kind, number) = numbers_of(to);
            (8, kind, number)
        }
        Asked::Remove => (9, 0, 0),
        Asked::Read => (14, 0, 0),
        Asked::OpenToRead => (15, 0, 0),
        Asked::ReadAt(at, len) => (16, at, len),
        Asked::ListNames => (17, 0, 0),
        Asked::NextName => (18, 0, 0),
        Asked::TryLock => (10, 0, 0),
        Asked::Lock => (11, 0, 0),
        Asked::TryShare => (12, 0, 0),
        Asked::Share => (13, 0, 0),
    }
}

impl Record {
    /// No act yet.
    pub(crate) fn new() -> Record
        ensures { result.acts ≡ [] }
    {
        Record {
            marker: PhantomData,
        }
    }

    /// Notes an act.
    fn note(&mut self, _numbers: &[u64], _more: &[u64], _bytes: &[u8])
        ensures { self.new.acts ≡ self.old.acts ++ act_of _numbers.now _more.now _bytes.now ∷ [] }
    {}

    /// Notes what was asked of a file, and whether it was done.
    pub(crate) fn asked(&mut self, asked: Asked, place: Place, bytes: &[u8], done: bool)
        ensures { self.new.acts ≡ self.old.acts ++ act_if done (ask_by asked place bytes.now) ∷ [] }
    {
        let (kind, number) = numbers_of(place);
        let (ask, first, second) = numbers_of_ask(asked);
        match done {
            true => self.note(&[0, ask, kind, number], &[first, second], bytes),
            false => self.note(&[1, ask, kind, number], &[first, second], bytes),
        }
    }

    /// Notes what was asked of a file that is not there.
    pub(crate) fn absent(&mut self, asked: Asked, place: Place)
        ensures { self.new.acts ≡ self.old.acts ++ Absent (ask_by asked place []) ∷ [] }
    {
        let (kind, number) = numbers_of(place);
        let (ask, first, second) = numbers_of_ask(asked);
        self.note(&[8, ask, kind, number], &[first, second], &[]);
    }

    /// Notes whether a file was locked, or another program has the lock.
    pub(crate) fn tried(&mut self, asked: Asked, place: Place, locked: &io::Result<bool>)
        ensures { self.new.acts ≡ self.old.acts ++ lock_by (ask_by asked place []) locked.now ∷ [] }
    {
        let (kind, number) = numbers_of(place);
        let (ask, first, second) = numbers_of_ask(asked);
        match locked {
            Ok(true) => self.note(&[0, ask, kind, number], &[first, second], &[]),
            Ok(false) => self.note(&[2, ask, kind, number], &[first, second], &[]),
            Err(_) => self.note(&[1, ask, kind, number], &[first, second], &[]),
        }
    }

    /// Notes how many bytes a file has.
    pub(crate) fn measured<E: Drop>(&mut self, place: Place, len: &Result<u64, E>)
        ensures { self.new.acts ≡ self.old.acts ++ size_by place len.now ∷ [] }
    {
        let (kind, number) = numbers_of(place);
        match len {
            Ok(len) => self.note(&[3, 0, kind, number], &[*len], &[]),
            Err(_) => self.note(&[1, 2, kind, number], &[], &[]),
        }
    }

    /// Notes the bytes of a file that was read whole.
    pub(crate) fn gave(&mut self, place: Place, bytes: &[u8])
        ensures { self.new.acts ≡ self.old.acts ++ Gave place bytes.now ∷ [] }
    {
        let (kind, number) = numbers_of(place);
        self.note(&[4, 0, kind, number], &[], bytes);
    }

    /// Notes the bytes of a file from this place on.
    pub(crate) fn gave_at(&mut self, place: Place, at: u64, bytes: &[u8])
        ensures { self.new.acts ≡ self.old.acts ++ GaveAt place at bytes.now ∷ [] }
    {
        let (kind, number) = numbers_of(place);
        self.note(&[5, 0, kind, number], &[at], bytes);
    }

    /// Notes a name that was listed.
    pub(crate) fn listed(&mut self, name: &str)
        ensures { self.new.acts ≡ self.old.acts ++ Listed name.now ∷ [] }
    {
        self.note(&[6, 0, 0, 0], &[], name.as_bytes());
    }

    /// Notes that no other names are listed.
    pub(crate) fn all_listed(&mut self)
        ensures { self.new.acts ≡ self.old.acts ++ AllListed ∷ [] }
    {
        self.note(&[7, 0, 0, 0], &[], &[]);
    }
}

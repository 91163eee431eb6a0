//! What a compaction asked of the directory, and its answers: a list that only clauses read.
ghost use Rattle.std.specs.Prelude.{◌≡◌, List, [], ◌∷◌, ◌++◌};
ghost use Rattle.std.specs.Borrow.{ftrue};
ghost use Rattle.judy_disk.specs.Notes.{place_of};
ghost use Rattle.judy_upkeep.specs.Notes.{noted_act, step_of};
ghost use Rattle.judy_upkeep.specs.Steps.{Act, act_of};
ghost use Rattle.judy_upkeep.specs.Steps.Act.{Saw};

use judy_disk::Place;
use std::marker::{Model, PhantomData};

/// What is asked of the directory.
#[derive(Clone, Copy, Debug, PartialEq, Eq)]
pub enum Step {
    /// The bytes of the new snapshot are secured.
    Secure,
    /// The new snapshot gets the name of the one with this number.
    Rename(u64),
    /// Which files the directory has is secured.
    Sync,
    /// The manifest names the snapshot with this number.
    Note(u64),
    /// This file is removed.
    Remove(Place),
}

/// The acts so far, in order. It has no bytes.
#[derive(Drop)]
pub struct Record {
    marker: PhantomData<u8>,
    pub ghost acts: { List Act },
}

impl Model for Record {
    ghost also_owns = { λ _. ftrue };
}

/// The number of a file, and that of its segment.
fn numbers_of(place: Place) -> (u64, u64)
    ensures { place_of result.0 result.1 ≡ place }
{
    match place {
        Place::Folder => (0, 0),
        Place::Lock => (1, 0),
        Place::CompactLock => (2, 0),
        Place::ReadLock => (3, 0),
        Place::StartLock => (4, 0),
        Place::Segment(number) => (5, number),
        Place::NewSegment(number) => (6, number),
        Place::Torn(number) => (7, number),
        Place::NewTorn(number) => (8, number),
        Place::Snapshot(number) => (9, number),
        Place::NewSnapshot => (10, 0),
        Place::Manifest => (11, 0),
        Place::NewManifest => (12, 0),
        Place::ManifestLock => (13, 0),
    }
}

/// The numbers of a step.
fn numbers_of_step(step: Step) -> (u64, u64, u64)
    ensures { step_of result.0 result.1 result.2 ≡ step }
{
    match step {
        Step::Secure => (0, 0, 0),
        Step::Rename(number) => (1, number, 0),
        Step::Sync => (2, 0, 0),
        Step::Note(number) => (3, number, 0),
        Step::Remove(place) => {
            let (kind, number) = numbers_of(place);
            (4, kind, number)
        }
    }
}

impl Record {
    /// No act yet.
    pub(crate) fn new() -> Record
        ensures { result.acts ≡ [] }
    {
        Record {
            marker: PhantomData,
        }
    }

    /// Notes an act.
    fn note(&mut self, _numbers: &[u64])
        ensures { self.new.acts ≡ self.old.acts ++ noted_act _numbers.now ∷ [] }
    {}

    /// Notes a step, by its result.
    pub(crate) fn told<E: Drop>(&mut self, step: Step, done: &Result<(), E>)
        ensures { self.new.acts ≡ self.old.acts ++ act_of step done.now ∷ [] }
    {
        let (kind, first, second) = numbers_of_step(step);
        match done {
            Ok(()) => self.note(&[0, kind, first, second]),
            Err(_) => self.note(&[1, kind, first, second]),
        }
    }

    /// Notes the last segment of the files that were found, if there is one.
    pub(crate) fn saw(&mut self, last: Option<u64>)
        ensures { self.new.acts ≡ self.old.acts ++ Saw last ∷ [] }
    {
        match last {
            Some(number) => self.note(&[2, number, 0, 0]),
            None => self.note(&[3, 0, 0, 0]),
        }
    }
}

//! Descriptors that are kept for the next segment.
use crate::folder::Folder;
use crate::names::Place;
use std::fs::Files;

/// Two descriptors of a directory, which are given up when a segment is begun, to sync the directory and to
/// raise the manifest. One of them is given up for the file of a segment that is made ahead. So both are
/// done also where the process may have no more files open.
#[derive(Drop)]
pub struct Spares<F: Files> {
    first: Option<F::File>,
    second: Option<F::File>,
}

impl<F: Files> Spares<F> {
    /// None yet.
    pub fn new() -> Self {
        Spares {
            first: None,
            second: None,
        }
    }

    /// Gives one up.
    pub fn give_one(&mut self) {
        self.second = None;
    }

    /// Gives them up.
    pub fn give_up(&mut self) {
        self.first = None;
        self.second = None;
    }

    /// Takes those that are not there. What the system does not give now is taken another time.
    pub fn take(&mut self, folder: &Folder<'_, F>) {
        if self.first.is_none() {
            self.first = folder.open(Place::Folder).ok();
        }
        if self.second.is_none() {
            self.second = folder.open(Place::Folder).ok();
        }
    }
}

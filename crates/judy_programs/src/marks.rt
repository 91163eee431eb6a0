//! Which file stands at a path.

use std::fs::{self, Files};
use std::os::unix::fs::MetadataExt;

/// A file of the system, by its device and its number there.
#[derive(Clone, Copy, Debug, PartialEq, Eq)]
pub struct Mark {
    device: u64,
    number: u64,
}

impl Mark {
    /// The file at a path, if there is one.
    pub fn of<F: Files>(rt: &F, path: &str) -> Option<Mark> {
        let found = rt.symlink_metadata(path).ok()?;
        Some(Mark {
            device: found.dev(),
            number: found.ino(),
        })
    }
}

/// Removes the file at a path if it is still this one: another server may have made its own there.
pub fn remove_marked<F: Files>(rt: &F, path: &str, mark: Option<Mark>) {
    if mark.is_some() && Mark::of(rt, path) == mark {
        let _ = fs::remove_file(rt, path);
    }
}

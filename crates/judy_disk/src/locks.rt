//! Locks of files, which end with the program that has them, and their owners.
use std::fs::{Files, TryLockError};
use std::io;
use std::os::unix::fs::fchown;

/// A system whose files can be locked, and given to another user.
pub trait Locks: Files {
    /// Locks a file until it is closed. False if another program has locked it.
    fn try_lock(&self, file: &Self::File) -> io::Result<bool>;

    /// Locks a file until it is closed, once no other program has locked it.
    fn lock(&self, file: &Self::File) -> io::Result<()>;

    /// Locks a file until it is closed, beside others who do so too. False if a program has locked it alone.
    fn try_lock_shared(&self, file: &Self::File) -> io::Result<bool>;

    /// Locks a file until it is closed, beside others who do so too, once no program has locked it alone.
    fn lock_shared(&self, file: &Self::File) -> io::Result<()>;

    /// Gives a file to a user and a group, by their numbers.
    fn give(&self, file: &Self::File, user: u32, group: u32) -> io::Result<()>;
}

impl Locks for HostRuntime {
    fn try_lock(&self, file: &std::fs::File) -> io::Result<bool> {
        match file.try_lock() {
            Ok(()) => Ok(true),
            Err(TryLockError::WouldBlock) => Ok(false),
            Err(TryLockError::Error(e)) => Err(e),
        }
    }

    fn lock(&self, file: &std::fs::File) -> io::Result<()> {
        file.lock()
    }

    fn try_lock_shared(&self, file: &std::fs::File) -> io::Result<bool> {
        match file.try_lock_shared() {
            Ok(()) => Ok(true),
            Err(TryLockError::WouldBlock) => Ok(false),
            Err(TryLockError::Error(e)) => Err(e),
        }
    }

    fn lock_shared(&self, file: &std::fs::File) -> io::Result<()> {
        file.lock_shared()
    }

    fn give(&self, file: &std::fs::File, user: u32, group: u32) -> io::Result<()> {
        fchown(file, Some(user), Some(group))
    }
}

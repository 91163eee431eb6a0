//! The answers of the calls that insert.
use judy_refs::Ref;

/// What an insertion answers.
#[derive(Clone, Copy, Debug, PartialEq, Eq)]
pub struct Inserted {
    /// The reference of the array that has the key now.
    pub root: Ref,
    /// The value that the key had before, 0 in a set. None: the key is new.
    pub before: Option<u64>,
}

/// What an insertion into a node answers. A caller gets it in registers, unlike an `Inserted`.
#[derive(Clone, Copy, Debug, PartialEq, Eq)]
pub(crate) enum Added {
    /// The key is new. The node of this reference has it now.
    Done(Ref),
    /// The key was there, with this value, 0 in a set. Nothing changed.
    Present(u64),
    /// A block was refused. Nothing changed.
    NoMemory,
}

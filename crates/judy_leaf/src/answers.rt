//! The results of the calls that change a leaf.
use judy_refs::Ref;

/// The result of an insertion.
#[derive(Clone, Copy, Debug, PartialEq, Eq)]
pub enum Put {
    /// The key is present now with the given value, in the leaf of this reference.
    Done(Ref),
    /// The key was there, with this value, 0 in a set. Nothing changed.
    Present(u64),
    /// The leaf cannot take the key: not all of its keys share bytes 0 to 6 with it, and the leaf
    /// is not a linear leaf of at most 30 keys. Nothing changed.
    Split,
    /// A block was refused. Nothing changed.
    NoMemory,
}

/// The result of a removal, with the removed value, 0 in a set.
#[derive(Clone, Copy, Debug, PartialEq, Eq)]
pub enum Removed {
    /// The key was absent.
    Absent,
    /// The rest of the keys are in the leaf of this reference.
    Left(Ref, u64),
    /// It was the last key, and the leaf is gone.
    Emptied(u64),
}

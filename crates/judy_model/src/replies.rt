//! The replies to calls.
use crate::lists::{IndexText, Text};
use crate::names::Key;

/// The reply to a call.
#[derive(Debug, PartialEq, Eq, Drop)]
pub enum Reply<'a> {
    /// Yes or no: whether an index was new or present. Also no if a search of a set, or a search
    /// for an absent index, finds nothing.
    Int(bool),
    /// The index found by a search of a set or by a search for an absent index.
    Index(u64),
    /// A number of entries.
    Count(u64),
    /// The value of a key. For an insertion, the value before.
    Value(u64),
    /// The index found by a search of a JudyL, with its value.
    ValueAt(u64, u64),
    /// The string found by a search of a JudySL, with its value.
    ValueKey(u64, Key<'a>),
    /// The entries of a walk: how many they are, and their text.
    Entries(u16, Text<'a>),
    /// The indexes that two sets share: the word where the next call goes on, or 0 if there is none; how many
    /// indexes this reply has; and their text.
    Intersection(u64, u16, IndexText<'a>),
    /// There is no such key, or the search found none.
    Null,
    /// The tenant's entries, its quota of entries, its pieces, and its quota of pieces.
    Used(u64, u64, u64, u64),
    /// Refused: the call can change arrays, and the right is read-only. Nothing changed.
    ReadOnly,
    /// Refused: the call can change arrays, and the tenant is frozen for the connection's token. Nothing
    /// changed.
    Frozen,
    /// Refused: a new entry, or its pieces, would exceed the quota. Nothing changed.
    Full,
    /// Refused: there is no memory for a new entry. Nothing changed.
    Memory,
}

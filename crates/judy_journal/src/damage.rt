//! What can be wrong with a journal's text.

/// What is wrong with a journal's text.
#[derive(Clone, Copy, Debug, PartialEq, Eq)]
pub enum Damage {
    /// The first line is not the header of this segment, in this version.
    Header,
    /// No header comes.
    NoHeader,
    /// A commit's count or checksum is not that of its records.
    Mark,
    /// A commit does not end, or a line does not.
    Long,
    /// Another file follows, and this one ends in the middle of a commit or of its first line.
    Torn,
    /// Another file follows the last segment that there may be.
    Number,
    /// The file has 2^64 bytes or more.
    Size,
}

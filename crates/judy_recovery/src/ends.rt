//! Where a journal ends.
use judy_journal::SUM_LEN;

/// The checksum that the first segment continues from.
pub const FIRST_SUM: [u8; SUM_LEN] = [b'0'; SUM_LEN];

/// Where a journal ends, and so where it goes on.
#[derive(Clone, Copy, Debug, PartialEq, Eq)]
pub struct End {
    /// The number of the last segment.
    pub segment: u64,
    /// The checksum after the last whole commit.
    pub sum: [u8; SUM_LEN],
    /// How many bytes of the last segment are its first line and whole commits. If there is none, not
    /// even its first line is whole.
    pub size: u64,
    /// How many bytes follow them, up to the last one that is not zero: those that a crash left.
    pub torn: u64,
}

//! The head of a branch.

/// The level, prefix and population of a branch.
#[derive(Clone, Copy, Debug, PartialEq, Eq)]
pub struct Head {
    /// The byte of the key by which the branch chooses, 0 to 6. Byte 0 of a key is its most
    /// significant.
    pub level: u8,
    /// The bytes before the level, which all keys below share. The other bytes are 0.
    pub prefix: u64,
    /// The number of keys below.
    pub population: u64,
}

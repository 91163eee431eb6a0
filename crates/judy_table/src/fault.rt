//! Why a table of tenants is refused.
use thiserror::Error;

/// The first fault of a table, or out of memory. A table with a fault gives no tenants.
#[derive(Clone, Copy, Debug, PartialEq, Eq, Error)]
pub enum TableFault {
    /// Out of memory.
    #[error("Memory")]
    Memory,
    /// The text is not a TOML document in UTF-8.
    #[error("Toml")]
    Toml,
    /// A value at the top level is not a table. Or a tenant's table lacks `sha256` or `quota`, has
    /// an unknown key, or has a value of the wrong type.
    #[error("Shape")]
    Shape,
    /// The number of tenants is not 1 to 64.
    #[error("Count")]
    Count,
    /// A tenant's name is not 1 to 32 letters, digits, `_`, `-` and `.`.
    #[error("Name")]
    Name,
    /// A digest, as `sha256` or `old_sha256`, is not 64 hexadecimal digits.
    #[error("Digest")]
    Digest,
    /// `quota` is not from 0 to 16,777,216, or `journal` is not from 1 to 9,223,372,036,854,775,807.
    #[error("Quota")]
    Quota,
    /// `pieces` is not from 0 to 2,113,929,216.
    #[error("Pieces")]
    Pieces,
}

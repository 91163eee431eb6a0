//! How many bytes of a table and of a path are held.

use judy_protocol::PULL_LIMIT;

/// The most bytes that a table may have.
pub const TABLE_LIMIT: usize = 65536;

/// The most bytes of the line that ends a table, without its LF.
const END_LIMIT: usize = 4;

/// The most bytes of the input that are held: those of a table, of the line that ends it, and of
/// one pull.
pub const HELD_LIMIT: usize = TABLE_LIMIT + END_LIMIT + PULL_LIMIT;

/// The most bytes of a file that are held: those of a table, and of one pull.
pub const FILE_LIMIT: usize = TABLE_LIMIT + PULL_LIMIT;

/// The most bytes of the path of a file: the system opens none with a longer path.
pub const PATH_LIMIT: usize = 4096;

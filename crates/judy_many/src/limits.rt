//! How many clients there are, and how long texts are.

/// The most clients at once.
pub const CLIENTS_LIMIT: usize = 1024;

/// The most connections that are accepted between two turns of those that are open.
pub const ACCEPTS_LIMIT: usize = 16;

/// The most connections that ask at once at a socket of the operator.
pub const ASKERS_LIMIT: usize = 8;

/// The most events of one wait: one for each client, one for the listener, and those of both sockets of
/// the operator.
pub const EVENTS_LIMIT: usize = CLIENTS_LIMIT + 1 + 2 * (ASKERS_LIMIT + 1);

/// The most bytes of a line that tells an operator something.
pub const TOLD_LIMIT: usize = 512;

/// The most bytes of the answer to a question that closes connections.
pub const KICKED_LIMIT: usize = 32;

/// The most bytes of a question of the operator.
pub const QUESTION_LIMIT: usize = 4096;

/// The most bytes of the text of what the sockets count.
pub const COUNTS_LIMIT: usize = 16384;

/// The groups of connections of which each has its share of a round: one a tenant, of which there are at most
/// 64, one of the connections on which nobody speaks, and one of any further tenant.
pub const GROUPS_LIMIT: usize = 66;

/// The most tenants whose bytes in the journal are told.
pub const TENANTS_SHOWN: usize = 128;

//! How long answers are.

/// The most bytes of the line of a reply, with its LF.
pub const REPLY_LIMIT: usize = 4096;

/// The most bytes of the answers that are written at once. A line is run only if there is room for
/// the longest reply.
pub const ANSWERS_LIMIT: usize = 16384;

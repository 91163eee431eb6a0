//! A tenant's quota and right.
ghost use Rattle.std.specs.Prelude.{◌≡◌};
ghost use Rattle.judy_model.specs.Tenant.{refusal_of};

use crate::names::KEY_LIMIT;
use crate::replies::Reply;

/// How many bytes of a key make one piece.
pub const PIECE: u64 = 8;

/// The most pieces of an entry: those of the longest key, and one more.
pub const ENTRY_PIECES_LIMIT: u64 = KEY_LIMIT as u64 / PIECE + 1;

/// The largest quota of entries that a table of tenants can grant.
pub const ENTRIES_LIMIT: u64 = 16_777_216;

/// The largest quota of pieces that a table of tenants can grant: `ENTRIES_LIMIT` entries of the
/// most pieces.
pub const PIECES_LIMIT: u64 = ENTRIES_LIMIT * ENTRY_PIECES_LIMIT;

/// The most that a tenant can have. An entry of a Judy1 or a JudyL is one piece. An entry of a
/// JudySL or a JudyHS has one piece for each eight bytes of its key, and one more.
#[derive(Clone, Copy, Debug, PartialEq, Eq)]
pub struct Quota {
    /// The most entries.
    pub entries: u64,
    /// The most pieces, over all entries.
    pub pieces: u64,
}

/// What a connection may do with a tenant's arrays.
#[derive(Clone, Copy, Debug, PartialEq, Eq)]
pub enum Right {
    /// Any call.
    Change,
    /// Only calls that change nothing.
    Look,
    /// Only calls that change nothing: the tenant is frozen for this connection's token.
    Frozen,
}

impl Right {
    /// The reply to a call that the right forbids. The right to change forbids none.
    pub fn refusal(self) -> Reply<'static>
        ensures { result ≡ refusal_of self }
    {
        match self {
            Right::Change | Right::Look => Reply::ReadOnly,
            Right::Frozen => Reply::Frozen,
        }
    }
}

//! The calls and replies of a tenant, and the definitions of what its arrays hold. All other crates
//! cite them.
#![tactic(auto)]

pub mod calls;
pub mod commands;
pub mod grammar;
pub mod key_order;
pub mod laws;
pub mod lists;
pub mod names;
pub mod owned;
pub mod quotas;
pub mod replies;
pub mod requests;
pub mod tokens;
mod unchanged;

pub use calls::{ArraysFrom, BytesCall, Call, Given, LongCall, OneCall, Search, StrCall};
pub use commands::{COMMANDS, Command, Kind, Numbers, Operation, command_word};
pub use grammar::{is_name_letter, is_string, name_ok, token_ok};
pub use lists::{
    ArrayCount, INTERSECTION_LIMIT, INTERSECTION_STEPS, IndexText, LIST_LIMIT, Listing, ReplyRoom,
    SPACED_LIMIT, Text, spaced,
};
pub use names::{KEY_LIMIT, Key, NAME_LIMIT, Name, TOKEN_LIMIT};
pub use owned::{OwnedKey, OwnedReply};
pub use quotas::{ENTRIES_LIMIT, ENTRY_PIECES_LIMIT, PIECE, PIECES_LIMIT, Quota, Right};
pub use replies::Reply;
pub use requests::{LINE_LIMIT, Line};
pub use tokens::Token;

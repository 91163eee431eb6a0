//! Leaves of a Judy array. A leaf has the keys of a small range of words, and in a map their
//! values.
//!
//! A leaf is a reference. The empty leaf is the empty reference; any other leaf has one block. A
//! linear leaf has 1 to 31 whole keys, a bitmap leaf has 8 to 255 keys that share all bytes but the
//! last, and a full leaf has all 256 of them. The crates above see only entries: keys with their
//! values.
#![tactic(auto)]

mod answers;
mod bitmap;
mod bitmap_leaf;
mod bits_query;
mod block;
mod convert;
mod gather;
mod keys;
pub mod laws;
mod leaf;
mod linear;
mod linear_leaf;
mod opened;
mod shift;

pub use answers::{Put, Removed};
pub use leaf::{
    count, find, first_empty, first_entry, get, insert, key_at, last_empty, last_entry, nth, part,
    population, release, remove, write,
};
pub use linear_leaf::single;

//! The root of an array of words in an arena: a digital tree of leaves and branches.
//!
//! A branch chooses by one byte of the key. It skips the bytes in which all keys below agree. An
//! array of n keys, n above 0, has at most 12 n - 8 words in its blocks.
#![tactic(auto)]

mod answers;
mod fork;
pub mod laws;
mod node;
mod parts;
mod root;
mod split;

pub use answers::Inserted;
pub use fork::{byte_of, head, leads_to_branch};
pub use node::population;
pub use parts::{next_part, release_branch};
pub use root::Root;

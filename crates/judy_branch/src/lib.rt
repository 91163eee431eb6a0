//! Branches of a Judy array: maps from bytes to references, each in one block of an arena.
//!
//! A branch has 2 to 256 children. A child is a byte with a reference; the branch does not look at
//! what it leads to.
#![tactic(auto)]

mod bitmap;
mod build;
mod change;
mod edit;
mod full;
mod gap;
mod heads;
pub mod laws;
mod linear;
mod read;
mod seen;
mod shape;
mod take;

pub use build::make;
pub use change::{change_child, put_child, set_child};
pub use heads::Head;
pub use read::{
    child, head, last_child, level, next_child, population, prefix, prev_child, row, slots, span,
};
pub use seen::{Opened, open};
pub use take::{Taken, release, take_child};

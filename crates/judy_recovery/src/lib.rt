//! Reads a journal again: the snapshot and the segments of its directory, in order, and each record
//! of each whole commit.
//!
//! Nothing is changed here, whatever is found. What is found at the end says where the journal goes
//! on, and what has to be cut off first.
#![tactic(auto)]

mod ends;
mod faults;
mod last;
mod pieces;
mod player;
mod reading;
mod resuming;
mod sources;

pub use ends::{End, FIRST_SUM};
pub use faults::{Flaw, JournalFault, Reason};
pub use player::{Halt, Player};
pub use reading::{recover, recover_closed};
pub use resuming::{Resumed, resume};

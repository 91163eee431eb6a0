//! One array of any of the four kinds at its place: its answers to calls, and the laws that
//! judy_directory's lemmas require of every kind.
#![tactic(auto)]

mod answers;
mod bytes;
mod calls;
mod counts;
pub mod laws;
mod long;
mod one;
mod shared;
mod string;

pub use answers::{answer, asks};
pub use calls::{array_of, is_callable};
pub use shared::intersection;

//! JudySL: an ordered map from strings to words in an arena, with the calls of JudySL(3).
//!
//! A string is cut into words of 8 bytes. Each word is an index of a word array, and its value
//! leads to the array of the next words. If only one string continues after a word, the rest of the
//! string lies in one block, a suffix.
#![tactic(auto)]

mod array;
mod insertion;
pub mod laws;
mod nodes;
mod search;
mod suffix;
mod walks;
mod words;

pub use array::{JudySL, is_string};
pub use judy_words::Inserted;

//! Judy1 and JudyL: a set of words, and a map from words to words, in an arena, with the calls of
//! Judy1(3) and JudyL(3).
#![tactic(auto)]

mod long;
mod one;
mod shared;
mod walks;

pub use judy_query::Finger;
pub use judy_tree::Inserted;
pub use long::JudyL;
pub use one::Judy1;

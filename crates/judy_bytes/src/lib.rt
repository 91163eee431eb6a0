//! JudyHS: a map from byte keys to words in an arena, with the calls of JudyHS(3): a JudyL from
//! hash words to chains of buckets.
#![tactic(auto)]

mod array;
mod bucket;
mod chain;
mod hash;
pub mod laws;
mod walks;
mod words;

pub use array::JudyHS;
pub use hash::{KeyHash, OrderHash, Sha256Hash};
pub use judy_model::KEY_LIMIT;
pub use judy_words::Inserted;

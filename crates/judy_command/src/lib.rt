//! The command line of `judyd`: its words, read by clap, and the job that they ask for.
#![tactic(auto)]

mod commands;
mod words;

pub use commands::VERSION;
pub use words::{Job, Refusal, Sync, Word, parse_words};

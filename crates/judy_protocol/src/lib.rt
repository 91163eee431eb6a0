//! The line protocol: what a line asks for, how a reply is written, and the serving of a
//! connection.
//!
//! A *line* is one request, up to its LF. Its *answer* is the text that is written for it. A line
//! that makes a call is answered by the line of the call's *reply*; other lines have fixed answers,
//! such as `OK` or `ERR SYNTAX`.
#![tactic(auto)]

mod commands;
mod connection;
mod cutting;
mod fields;
mod gathering;
mod held;
mod limits;
mod numbers;
mod replies;
mod requests;
mod sending;
mod service;
mod squeezing;
mod turns;

pub use connection::{End, PULL_LIMIT, READS_LIMIT, serve, serve_after, serve_up_to};
pub use cutting::cut_line;
pub use fields::next_field;
pub use gathering::Batch;
pub use held::Held;
pub use judy_model::Line;
pub use limits::{ANSWERS_LIMIT, REPLY_LIMIT};
pub use numbers::{key, next_number};
pub use replies::write_reply;
pub use requests::{Syntax, read_line};
pub use sending::send;
pub use service::Served;
pub use squeezing::squeeze;
pub use turns::{Refusal, asks_to_quit, hear_line, join_line, run, whole_line};

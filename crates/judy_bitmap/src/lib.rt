//! Sets of bytes in 256 bits, with rank and select.
//!
//! A [`Bits256`] says which of 256 keys or children a node of a Judy array has. The words that
//! belong to them stand one after the other, in the rising order of their bytes. `rank` leads from
//! a byte to its word, and `select` leads back; the four searches find a neighbour or a gap. These
//! functions are the inner loop of each look-up. They use masks, population counts, and trailing
//! and leading zeros over at most four words; no loop goes bit by bit.
//!
//! Every function is total and takes no memory. Its contract determines its result.
#![tactic(auto)]

mod bits256;
mod four;
mod word;

pub use bits256::Bits256;
pub use four::{has_in, next_in, prev_in, rank_in};

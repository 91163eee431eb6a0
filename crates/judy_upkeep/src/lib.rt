//! What is done with the journal of a server beside serving: its requests are printed, and its files
//! are made smaller, begun and examined.
#![tactic(auto)]

mod asking;
mod beginning;
mod closing;
mod compacting;
mod kinds;
mod leaving;
mod lines;
mod output;
mod playing;
mod printing;
mod record;
mod repairing;
mod replacing;
mod tenants;
mod writing;

pub use beginning::{Examined, begin_journal, examine};
pub use compacting::{Compacted, Uncompacted, compact};
pub use printing::{Unprinted, print};
pub use repairing::{Part, Unrepaired, Wound, look_for_wound, repair};
pub use replacing::Replacing;

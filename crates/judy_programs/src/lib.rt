//! Both programs of `judyd`, over any service that begins with a table of tenants: `run` serves one
//! script, and `serve` serves many clients of a Unix socket at once.
#![tactic(auto)]

mod ahead;
mod config;
mod directory;
mod hosts;
mod journal_room;
mod journaled;
mod journals;
mod limits;
mod marks;
mod opens;
mod program;
mod reading;
mod socket;
mod spending;
mod statuses;
mod system;
mod table_end;
mod table_file;

pub use hosts::Hosts;
pub use journaled::{check_journaled, host_journaled};
pub use journals::{Journals, Readies, Replays};
pub use judy_many::tell_line;
pub use opens::{Opens, Unopened};
pub use program::{Ran, run_on, run_with};
pub use socket::{Hosted, begin_on, check_on, host_on};
pub use statuses::{fault_name, finish, finish_hosted};
pub use system::{Failed, System, Unserved, random_file, read_secret};

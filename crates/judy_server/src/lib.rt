//! The service of many tenants that both programs of judyd serve, for any hash of byte keys, and
//! what a command line asks of it.
#![tactic(auto)]

mod absent;
mod calls;
mod jobs;
mod laws;
mod leavers;
mod limits;
mod metrics;
mod orders;
mod present;
mod records;
mod reload;
mod server;
mod status;
mod tally;

pub use jobs::do_job_on;
pub use laws::{crashes_lose_nothing, every_run_keeps_promises};
pub use records::{Halt, replay, replay_all};
pub use server::{Chosen, Server, run};
pub use tally::Tally;

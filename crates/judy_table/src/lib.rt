//! The table of tenants: their names, tokens, rights and quotas.
#![tactic(auto)]

mod blames;
mod fault;
mod places;
mod seating;
mod table;
mod tenant;
mod written;

pub use blames::{Blame, Cause, Key};
pub use fault::TableFault;
pub use judy_model::{Name, Quota, Right, name_ok};
pub use table::Table;
pub use tenant::{Others, Speaker, Tenant, TenantId, read_digest};

//! Many tenants over one arena. Each has arrays of four kinds and a quota, and gets the replies
//! that it would get alone.
#![tactic(auto)]

mod accounts;
mod arrays;
mod changing;
mod freeing;
mod grants;
mod laws;
mod replay;
mod service;
mod serving;
mod stock;
mod whole;

pub use judy_bytes::{KeyHash, OrderHash, Sha256Hash};
pub use judy_kinds::is_callable;
pub use judy_model::{BytesCall, Call, Key, LongCall, Name, OneCall, Quota, Reply, Right, StrCall};
pub use judy_table::{Speaker, Table, TableFault, TenantId};
pub use replay::Event;
pub use service::Service;

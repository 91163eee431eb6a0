//! A plain program that answers every call of a tenant. Tests compare other programs with it.
#![tactic(auto)]

pub mod slow;
pub mod store;

pub use store::Store;

//! The directory of all arrays: the place and the size of each array, by tenant, kind and name.
#![tactic(auto)]

mod all_names;
mod directory;
mod kept;
mod keyed;
mod names;
mod ordered;
mod recent;
mod spot;

pub use all_names::AllNames;
pub use directory::Directory;
pub use keyed::names_are_hashed_whole;
pub use spot::{Place, Spot};

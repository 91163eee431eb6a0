//! The directory of a journal: which files it has, and how they are read, written and removed.
//!
//! Its files are the segments `000000000001.journal`, `000000000002.journal` and so on, perhaps a
//! snapshot `000000000007.snapshot`, which stands for the segments up to its number, the manifest, which
//! names the last of them, and the locks.
//! What a file has is no subject here: nothing is known of the bytes that the system keeps.
#![tactic(auto)]

mod faults;
mod files;
mod folder;
mod locks;
mod manifest;
mod names;
mod record;
mod rewriting;
mod rooms;
mod scan;
mod spares;
mod spent;
mod system;

pub use faults::DiskFault;
pub use files::{Growing, NewSnapshot};
pub use folder::Folder;
pub use locks::Locks;
pub use manifest::{Lack, MANIFEST_ROOM, Manifest};
pub use names::{Named, Place, read_name};
pub use record::Record;
pub use rewriting::len_before_zeros;
pub use rooms::{PIECE, Room, TURN_ROOM};
pub use scan::{Found, arrange};
pub use spares::Spares;
pub use spent::{Share, Spent};

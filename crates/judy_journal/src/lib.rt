//! The journal: the text of the calls that changed arrays, commit by commit, and how it is read
//! again after a crash.
//!
//! A *record* is the line `TENANT REQUEST`. A *commit* is the records of one round of the server, or
//! of a part of it, and ends with a line of their count and a checksum. The checksum covers the
//! commit and the checksum before it.
#![tactic(auto)]

mod damage;
mod format;
mod laws;
mod leaving;
mod notes;
mod reader;
mod records;
mod recovery;
mod replays;
mod writer;

pub use damage::Damage;
pub use format::{
    COMMIT_LIMIT, HEADER, LAST_SEGMENT, LINE_ROOM, RECORD_LIMIT, SNAPSHOT, SUM_LEN, TEXT_LIMIT,
};
pub use laws::{
    crashes_keep_marks, journal_is_exact, recovery_is_exact, what_is_read_is_found,
    what_is_recovered_is_found, what_is_recovered_is_whole,
};
pub use leaving::{add_gone, begin_gone, read_gone};
pub use notes::Notes;
pub use reader::{Read, Reader};
pub use records::{read_record, snapshot_sum};
pub use recovery::{Position, Recovery};
pub use replays::{
    Unplayed, recorded_calls_tell_all, records_tell_all, records_tell_one_change,
    replays_are_exact, unrecorded_calls_keep_all,
};
pub use writer::Writer;

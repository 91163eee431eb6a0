//! Why a journal cannot be read.
use judy_disk::{DiskFault, Place};
use judy_journal::Damage;
use judy_model::Name;
use std::fmt;

/// Why a record cannot be played.
#[derive(Clone, Copy, Debug, PartialEq, Eq)]
pub enum Reason {
    /// It is no record of a call that changes arrays.
    Record,
    /// The table lacks the tenant of its name, and too many others.
    Tenant,
    /// The quota of its tenant does not allow the call.
    Full,
    /// Out of memory for the call.
    Memory,
    /// It names one tenant more than a table may have.
    Tenants,
    /// What was made of it cannot be written.
    Write,
}

/// What is wrong in a file of a journal.
#[derive(Clone, Copy, Debug, PartialEq, Eq)]
pub enum Flaw {
    /// Its text is not that of a journal.
    Damage(Damage),
    /// Its first line has another version.
    Version,
    /// This record cannot be played.
    Unplayed(Reason),
    /// Out of memory to read it.
    Memory,
}

/// Why a journal cannot be read.
#[derive(Debug, Drop)]
pub enum JournalFault {
    /// The directory has not the files of a journal, or the system refused something.
    Disk(DiskFault),
    /// A file has a flaw.
    File {
        /// The file.
        place: Place,
        /// Where: the byte at which the record begins, or the commit in which the flaw is.
        byte: u64,
        /// What is wrong.
        flaw: Flaw,
    },
    /// In the table this tenant has a lower quota than what it holds.
    Quota(Name),
    /// The table lacks this tenant, which has entries.
    Absent(Name),
    /// Out of memory for the table.
    Memory,
}

/// A tenant's name as text.
fn name_of(tenant: &Name) -> &str {
    str::from_utf8(tenant.as_bytes()).unwrap_or("a tenant")
}

/// What an operator reads of a flaw.
fn text_of(flaw: Flaw) -> &'static str {
    match flaw {
        Flaw::Damage(Damage::Header) => "damaged: another first line than it should have",
        Flaw::Damage(Damage::NoHeader) => "damaged: it has no first line",
        Flaw::Damage(Damage::Mark) => "damaged: the commit here has another checksum or count",
        Flaw::Damage(Damage::Long) => "damaged: the commit here does not end",
        Flaw::Damage(Damage::Torn) => "damaged: it is not whole, and another file follows",
        Flaw::Damage(Damage::Number) => "no segment may follow the last one",
        Flaw::Damage(Damage::Size) => "damaged: too long",
        Flaw::Version => "another version of the journal",
        Flaw::Unplayed(Reason::Record) => "no record of a change",
        Flaw::Unplayed(Reason::Tenant) => "the table lacks the tenant of this record and 64 more",
        Flaw::Unplayed(Reason::Full) => "FULL: no quota is enough for this record",
        Flaw::Unplayed(Reason::Memory) => "MEMORY: out of memory for this record",
        Flaw::Unplayed(Reason::Tenants) => "more than 64 tenants",
        Flaw::Unplayed(Reason::Write) => "what comes of this record cannot be written",
        Flaw::Memory => "out of memory to read it",
    }
}

/// What follows the directory's path in a line for the operator.
impl fmt::Display for JournalFault {
    fn fmt<W: fmt::Write>(&self, f: &mut fmt::Formatter<W>) -> fmt::Result {
        match self {
            JournalFault::Disk(fault) => write!(f, "{fault}"),
            JournalFault::File { place, byte, flaw } => {
                let text = text_of(*flaw);
                write!(f, "/{place}: byte {byte}: {text}")
            }
            JournalFault::Quota(tenant) => {
                let name = name_of(tenant);
                write!(f, ": the quota of {name} is less than what it holds")
            }
            JournalFault::Absent(tenant) => {
                let name = name_of(tenant);
                write!(
                    f,
                    ": the journal has entries of {name}, and the table has no such tenant",
                )
            }
            JournalFault::Memory => write!(f, ": out of memory for the table"),
        }
    }
}

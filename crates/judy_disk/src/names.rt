//! The names of the files of a journal's directory.
ghost use Rattle.std.specs.Prelude.{◌≡◌};
ghost use Rattle.std.specs.Str.{all_ascii_digits};
ghost use Rattle.judy_disk.specs.Names.{NumbersAreRead, begins, ends, is_fixed, is_passed, named_of, number_before, number_in, torn_of};

use std::fmt;

/// How many digits a number has in a file's name.
const DIGITS: usize = 12;

/// What the directory of a journal may hold.
#[derive(Clone, Copy, Debug, PartialEq, Eq)]
pub enum Place {
    /// The directory itself.
    Folder,
    /// The file that a server locks.
    Lock,
    /// The file that a compaction locks.
    CompactLock,
    /// The file that those lock who read the journal, and a compaction before it removes files.
    ReadLock,
    /// The file that a server locks while it takes the directory, and a compaction while it has the directory
    /// in place of a server.
    StartLock,
    /// The segment with this number.
    Segment(u64),
    /// The segment with this number as it is written anew.
    NewSegment(u64),
    /// What was behind the last whole commit of the segment with this number.
    Torn(u64),
    /// The same, as it is written.
    NewTorn(u64),
    /// The snapshot that stands for the segments up to this number.
    Snapshot(u64),
    /// The snapshot that is being written.
    NewSnapshot,
    /// The manifest.
    Manifest,
    /// The manifest that is being written.
    NewManifest,
    /// The file that is locked while the manifest is replaced.
    ManifestLock,
}

impl fmt::Display for Place {
    fn fmt<W: fmt::Write>(&self, f: &mut fmt::Formatter<W>) -> fmt::Result {
        match self {
            Place::Folder => Ok(()),
            Place::Lock => write!(f, "lock"),
            Place::CompactLock => write!(f, "compact.lock"),
            Place::ReadLock => write!(f, "read.lock"),
            Place::StartLock => write!(f, "start.lock"),
            Place::Segment(number) => write!(f, "{number:012}.journal"),
            Place::NewSegment(number) => write!(f, "{number:012}.journal.new"),
            Place::Torn(number) => write!(f, "{number:012}.torn"),
            Place::NewTorn(number) => write!(f, "{number:012}.torn.new"),
            Place::Snapshot(number) => write!(f, "{number:012}.snapshot"),
            Place::NewSnapshot => write!(f, "snapshot.new"),
            Place::Manifest => write!(f, "manifest"),
            Place::NewManifest => write!(f, "manifest.new"),
            Place::ManifestLock => write!(f, "manifest.lock"),
        }
    }
}

/// What a file is, by its name.
#[derive(Clone, Copy, Debug, PartialEq, Eq)]
pub enum Named {
    /// The segment with this number, from 1 on.
    Segment(u64),
    /// The snapshot with this number, from 1 on.
    Snapshot(u64),
    /// The torn bytes of the segment with this number, from 1 on.
    Torn(u64),
    /// A lock, the manifest, a file that is not finished yet, or one that is no part of the journal: a
    /// hidden file, another one that was set aside, or what a file system keeps in each of its roots.
    Passed,
    /// None that a journal's directory has.
    Other,
}

/// Whether all bytes of a text are digits.
fn all_digits(text: &[u8]) -> bool
    ensures { result ≡ all_ascii_digits text.now }
{
    for byte in text {
        if !byte.is_ascii_digit() {
            return false;
        }
    }
    true
}

/// The number in a file's name: all of its 12 digits, from 1 on.
#[tactic(auto, using(crate::proofs::Texts::parsed))]
fn read_number(digits: &str) -> Option<u64>
    ensures { result ≡ number_in digits.now }
{
    if digits.len() != DIGITS || !all_digits(digits.as_bytes()) {
        return None;
    }
    match digits.parse::<u64>() {
        Ok(number) if number >= 1 => Some(number),
        _ => None,
    }
}

/// The number before this end of a name.
#[tactic(auto, using(crate::proofs::Texts::stripped))]
fn number_before(name: &str, tail: &str) -> Option<u64>
    ensures { result ≡ number_before tail.now name.now }
{
    match name.strip_suffix(tail) {
        Some(digits) => read_number(digits),
        None => None,
    }
}

/// Whether this is the name of a lock or of the manifest.
fn is_fixed(name: &str) -> bool
    ensures { result ≡ is_fixed name.now }
{
    name == "lock"
        || name == "compact.lock"
        || name == "read.lock"
        || name == "start.lock"
        || name == "manifest.lock"
        || name == "manifest"
}

/// Whether a name ends so.
#[tactic(auto, using(crate::proofs::Texts::ends_text))]
fn ends(name: &str, tail: &str) -> bool
    ensures { result ≡ ends name.now tail.now }
{
    name.ends_with(tail)
}

/// Whether a name begins so.
#[tactic(auto, using(crate::proofs::Texts::starts_text))]
fn begins(name: &str, head: &str) -> bool
    ensures { result ≡ begins name.now head.now }
{
    name.starts_with(head)
}

/// Whether a file of this name is no segment and no snapshot, and may be there.
fn is_passed(name: &str) -> bool
    ensures { result ≡ is_passed name.now }
{
    is_fixed(name) || name == "lost+found" || begins(name, ".") || ends(name, ".new")
}

/// What a file that was set aside is, by its name.
fn torn_of(name: &str) -> Named
    ensures { result ≡ torn_of name.now }
{
    if !ends(name, ".torn") {
        return Named::Other;
    }
    match number_before(name, ".torn") {
        Some(number) => Named::Torn(number),
        None => Named::Passed,
    }
}

/// What a file is, by its name.
#[tactic(auto, unfolding(crate::specs::Names::named_of))]
pub fn read_name(name: &str) -> Named
    ensures { result ≡ named_of name.now }
{
    if is_passed(name) {
        return Named::Passed;
    }
    if let Some(number) = number_before(name, ".journal") {
        return Named::Segment(number);
    }
    if let Some(number) = number_before(name, ".snapshot") {
        return Named::Snapshot(number);
    }
    torn_of(name)
}

/// A segment, a snapshot and torn bytes are read as what their names say.
pub fn numbers_are_read()
    ensures { NumbersAreRead }
{}

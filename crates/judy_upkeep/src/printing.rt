//! Prints the requests of a journal.
ghost use Rattle.std.specs.Prelude.{◌≡◌, ◌++◌, [], ◌∷◌, IfSome, IsTrue, Some, option_map, refl};
ghost use Rattle.std.specs.Io.KnownBytes.{Appends};
ghost use Rattle.std.proofs.KnownBytes.{Appends-nil};
ghost use Rattle.judy_journal.specs.Leaving.{gone_in};
ghost use Rattle.judy_model.specs.Grammar.{fields_of};
ghost use Rattle.judy_model.specs.Stream.{lines_of};
ghost use Rattle.judy_upkeep.specs.Printing.{is_among, name_of, printed, printed-append, printed_lines};

use crate::leaving::GONE;
use arrayvec::ArrayVec;
use judy_disk::{Folder, Locks};
use judy_journal::{COMMIT_LIMIT, read_gone, read_record};
use judy_protocol::{cut_line, next_field};
use judy_recovery::{Halt, JournalFault, Player, Reason, recover};
use std::alloc::Global;
use std::io::Write;

/// Why a journal is not printed whole.
#[derive(Debug, Drop)]
pub enum Unprinted {
    /// The journal cannot be read.
    Journal(JournalFault),
    /// The output takes no more.
    Write,
}

/// Writes the records of a journal to an output.
#[derive(Drop)]
struct Printing<'a, W> {
    output: W,
    tenant: Option<&'a [u8]>,
}

/// Whether a name is among these fields.
fn is_among(fields: &[u8], name: &[u8]) -> bool
    ensures { result ≡ is_among (fields_of fields.now) name.now }
{
    let mut rest = fields;
    while let Some((field, after)) = next_field(rest) {
        if field == name {
            return true;
        }
        rest = after;
    }
    false
}

/// Whether a record says that this tenant left. None if it is another record.
fn has_left(text: &[u8], tenant: &[u8]) -> Option<bool>
    ensures { result ≡ option_map (λ names. is_among names tenant.now) (gone_in text.now) }
{
    let (first, others) = read_gone(text)?;
    Some(first == tenant || is_among(others, tenant))
}

/// Puts a line behind others. False: it does not fit.
fn put_line(lines: &mut ArrayVec<u8, COMMIT_LIMIT>, line: &[u8]) -> bool
    ensures { IsTrue result → lines.new.items ≡ lines.old.items ++ (line.now ++ 10 ∷ []) }
{
    if lines.try_extend_from_slice(line).is_err() {
        return false;
    }
    lines.try_push(b'\n').is_ok()
}

/// Puts the line of a record for a tenant behind others, if it has one. False: it does not fit.
fn put_request(lines: &mut ArrayVec<u8, COMMIT_LIMIT>, text: &[u8], tenant: &[u8]) -> bool
    ensures { IsTrue result → lines.new.items ≡ lines.old.items ++ printed (Some tenant.now) text.now }
{
    if let Some(left) = has_left(text, tenant) {
        if left {
            return put_line(lines, GONE.as_slice());
        }
        return true;
    }
    let Some((name, request)) = read_record(text) else {
        return true;
    };
    if name == tenant {
        return put_line(lines, request);
    }
    true
}

/// Puts the line of a record behind others. False: it does not fit.
fn put_printed(lines: &mut ArrayVec<u8, COMMIT_LIMIT>, text: &[u8], tenant: Option<&[u8]>) -> bool
    ensures { IsTrue result → lines.new.items
        ≡ lines.old.items ++ printed (name_of tenant.entry) text.now }
{
    match tenant {
        Some(tenant) => put_request(lines, text, tenant),
        None => put_line(lines, text),
    }
}

/// The lines of the records of a commit. None if they do not fit, which no commit's do.
fn lines_for(records: &[u8], tenant: Option<&[u8]>) -> Option<ArrayVec<u8, COMMIT_LIMIT>>
    ensures { IfSome result (λ lines. lines.items
        ≡ printed_lines (name_of tenant.entry) (lines_of records.now)) }
{
    let mut lines = ArrayVec::new();
    let mut rest = records;
    while let Some((text, after)) = cut_line(rest) {
        if !put_printed(&mut lines, text, tenant) {
            return None;
        }
        rest = after;
    }
    Some(lines)
}

impl<'a, W: Write> Printing<'a, W> {
    /// Writes all of these bytes. False if the output refuses.
    fn write(&mut self, bytes: &[u8]) -> bool
        ensures written { IsTrue result →
            Appends (W.contents self.old.output) (W.contents self.new.output) bytes.now }
        ensures tenant { self.new.tenant ≡ self.old.tenant }
    {
        if bytes.is_empty() {
            return true;
        }
        self.output.write_all(bytes).is_ok()
    }

    /// Writes the lines of records. False if the output refuses.
    fn print(&mut self, records: &[u8]) -> bool
        ensures written { IsTrue result → Appends (W.contents self.old.output) (W.contents self.new.output)
            (printed_lines (name_of self.old.tenant) (lines_of records.now)) }
        ensures tenant { self.new.tenant ≡ self.old.tenant }
    {
        match lines_for(records, self.tenant) {
            Some(lines) => self.write(lines.as_slice()),
            None => false,
        }
    }
}

impl<'a, W: Write> Player for Printing<'a, W> {
    /// The lines of the records were written, and nothing else.
    ghost plays = { λ before records after. (after.tenant ≡ before.tenant)
        × Appends (W.contents before.output) (W.contents after.output)
        (printed_lines (name_of before.tenant) records) };

    fn play(&mut self, records: &[u8]) -> Result<(), Halt> {
        if self.print(records) {
            return Ok(());
        }
        Err(Halt {
            played: 0,
            why: Reason::Write,
        })
    }

    ghost rests = { λ player. (refl, Appends-nil (W.contents player.output)) };

    ghost joins = { λ before middle after records more first then. printed-append before.tenant middle.tenant
        after.tenant (W.contents before.output) (W.contents middle.output) (W.contents after.output) records more
        first.0 first.1 then.0 then.1 };
}

/// Prints the requests of a journal: the snapshot's, and then those of each segment, of each whole
/// commit. With a tenant, only its requests, without its name.
pub fn print<F: Locks + Clone + Drop, W: Write + Drop>(
    alloc: Global,
    folder: &mut Folder<'_, F>,
    output: W,
    tenant: Option<&[u8]>,
) -> Result<(), Unprinted> {
    let reading = folder.read_lock_if_there();
    if let Some(lock) = &reading {
        let _held = folder.wait_to_read(lock);
    }
    let found = folder
        .scan()
        .map_err(|e| Unprinted::Journal(JournalFault::Disk(e)))?;
    let mut printing = Printing { output, tenant };
    recover(folder, alloc, &found, &mut printing).map_err(of_fault)?;
    printing.output.flush().map_err(|_| Unprinted::Write)
}

/// Why a journal is not printed whole, by the fault of its reading.
fn of_fault(fault: JournalFault) -> Unprinted {
    match fault {
        JournalFault::File {
            flaw: judy_recovery::Flaw::Unplayed(Reason::Write),
            ..
        } => Unprinted::Write,
        fault => Unprinted::Journal(fault),
    }
}

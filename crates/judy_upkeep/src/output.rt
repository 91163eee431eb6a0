//! A snapshot as it is written.
ghost use Rattle.std.specs.Prelude.{◌≡◌, true, OnOk};
ghost use Rattle.judy_journal.specs.Writes.{IsShortRecord};
ghost use Rattle.judy_upkeep.specs.Output.{Adds, Appends, Closes, Flushes};

use judy_disk::{DiskFault, NewSnapshot};
use judy_journal::Writer;
use judy_model::{LINE_LIMIT, name_ok};
use judy_protocol::cut_line;
use judy_recovery::Reason;
use std::fs::Files;

/// A new snapshot, the writer of its text, and what the disk refused.
#[derive(Drop)]
pub struct Output<F: Files> {
    writer: Box<Writer>,
    file: NewSnapshot<F>,
    fault: Option<DiskFault>,
}

/// Whether a record of this tenant and this request fits everywhere.
fn is_short(tenant: &[u8], request: &[u8]) -> bool
    ensures { result ≡ true → IsShortRecord tenant.now request.now }
{
    if !name_ok(tenant) || request.len() > LINE_LIMIT {
        return false;
    }
    match cut_line(request) {
        Some(_) => false,
        None => true,
    }
}

impl<F: Files> Output<F> {
    /// A snapshot that has its first line.
    pub fn new(writer: Box<Writer>, file: NewSnapshot<F>) -> Self {
        Output {
            writer,
            file,
            fault: None,
        }
    }

    /// Why it cannot be written, if it cannot.
    pub fn take_fault(&mut self) -> Option<DiskFault> {
        self.fault.take()
    }

    /// The snapshot.
    pub fn into_file(self) -> NewSnapshot<F> {
        self.file
    }

    /// Appends the text that the writer made.
    fn append(&mut self) -> Result<(), Reason>
        ensures { OnOk result (Appends self.old self.new) }
    {
        if let Err(fault) = self.file.append(self.writer.text()) {
            self.fault = Some(fault);
            return Err(Reason::Write);
        }
        Ok(())
    }

    /// Ends the commit that is open, if it has a record.
    fn flush(&mut self) -> Result<(), Reason>
        ensures { OnOk result (Flushes self.old self.new) }
    {
        if self.writer.is_empty() {
            return Ok(());
        }
        self.writer.end();
        self.append()
    }

    /// Ends the commit that is open, if it has no room for another record.
    fn make_room(&mut self) -> Result<(), Reason>
        ensures { OnOk result (Flushes self.old self.new) }
    {
        if self.writer.has_room() {
            return Ok(());
        }
        self.flush()
    }

    /// Adds a record, and no other.
    pub fn add(&mut self, tenant: &[u8], request: &[u8]) -> Result<(), Reason>
        ensures { OnOk result (Adds tenant.now request.now self.old self.new) }
    {
        if !is_short(tenant, request) {
            return Err(Reason::Record);
        }
        self.make_room()?;
        if !self.writer.has_room() {
            return Err(Reason::Write);
        }
        self.writer.add(tenant, request);
        Ok(())
    }

    /// Ends the snapshot: the last commit, and the mark of one without records.
    pub fn end(&mut self) -> Result<(), Option<DiskFault>>
        ensures { OnOk result (Closes self.old self.new) }
    {
        if self.flush().is_err() {
            return Err(self.fault.take());
        }
        if !self.writer.is_empty() {
            return Err(None);
        }
        self.writer.end_snapshot();
        if self.append().is_err() {
            return Err(self.fault.take());
        }
        Ok(())
    }
}

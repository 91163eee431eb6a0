//! Where the fault of a table is, for the last line of a program that refuses the table.

use judy_command::Job;
use judy_many::Network;
use judy_programs::{System, fault_name};
use judy_table::Blame;
use std::io::{self, Read};

/// The most bytes that are kept: more than a table has.
const KEPT_LIMIT: usize = 70000;

/// A reader that keeps the first bytes that it gives.
#[derive(Drop)]
pub struct Kept<'a, R> {
    reader: R,
    kept: &'a mut Vec<u8>,
}

impl<'a, R: Read> Kept<'a, R> {
    /// A reader that keeps bytes here.
    pub fn new(reader: R, kept: &'a mut Vec<u8>) -> Self {
        Kept { reader, kept }
    }
}

impl<R: Read> Read for Kept<'_, R> {
    fn read(&mut self, buf: &mut [u8]) -> io::Result<usize> {
        let count = self.reader.read(buf)?;
        if self.kept.len() < KEPT_LIMIT {
            let _ = self.kept.extend_from_slice(buf.split_at(count).0);
        }
        Ok(count)
    }
}

/// Whether these bytes begin with a line `---`.
fn begins_with_mark(rest: &[u8]) -> bool {
    rest.starts_with(b"---\n") || rest.starts_with(b"---\r\n")
}

/// What stands before the first line `---`.
fn table_in(input: &[u8]) -> &[u8] {
    let mut is_first = true;
    for at in 0..input.len() {
        if is_first && begins_with_mark(input.split_at(at).1) {
            return input.split_at(at).0;
        }
        is_first = input[at] == b'\n';
    }
    input
}

/// Reads the table of a server again. True: what is kept begins with the table.
fn reread(job: &Job, system: &mut System<'_, HostRuntime>, kept: &mut Vec<u8>) -> bool {
    match job {
        Job::Serve { .. } => system.table(kept).is_ok(),
        _ => true,
    }
}

/// The table that is told of, in what was kept: for a server all of it.
fn told_of<'a>(job: &Job, kept: &'a [u8]) -> &'a [u8] {
    match job {
        Job::Serve { .. } => kept,
        _ => table_in(kept),
    }
}

/// The last line of a program that refuses its table, with the line of the fault, the tenant and what
/// is right. None if the line tells something else, if the table cannot be read again, or without
/// memory.
pub fn explain(
    rt: &HostRuntime,
    job: &Job,
    system: &mut System<'_, HostRuntime>,
    kept: &mut Vec<u8>,
    told: &str,
) -> Option<String> {
    if !told.starts_with("judyd: table: ") || !reread(job, system, kept) {
        return None;
    }
    let blame = Blame::find(rt.alloc(), told_of(job, kept.as_slice()))?;
    if !told.ends_with(fault_name(blame.fault)) {
        return None;
    }
    format!(in rt.alloc(); "{told}: {blame}").ok()
}

//! Prints, begins, examines and compacts a journal that is not served.
ghost use Rattle.std.specs.Prelude.{◌≡◌};
ghost use Rattle.judyd.specs.Obeying.{IsUpkept, compaction_status, fault_status, print_status};

use judy_command::Word;
use judy_disk::{DiskFault, Folder};
use judy_programs::{random_file, read_secret};
use judy_recovery::JournalFault;
use judy_server::Server;
use judy_tenants::Sha256Hash;
use judy_upkeep::{
    Compacted, Examined, Replacing, Uncompacted, Unprinted, begin_journal, compact, examine, print,
};

/// The directory of a journal.
pub fn folder_at<'a>(rt: &'a HostRuntime, path: &str) -> Option<Folder<'a, HostRuntime>> {
    let path = String::from_str(rt.alloc(), path).ok()?;
    Some(Folder::new(rt, rt.alloc(), path))
}

/// Prints that memory ran out. Returns the status of the program.
pub fn refuse_memory(rt: &HostRuntime) -> u8
    ensures { result ≡ 4 }
{
    let _ = eprintln!(rt; "judyd: memory");
    4
}

/// Prints that a journal cannot be read or written, and why. The fault tells what follows the
/// directory's path.
pub fn tell_fault(rt: &HostRuntime, directory: &str, fault: &JournalFault) {
    let _ = eprintln!(rt; "judyd: {directory}{fault}");
}

/// Prints why a directory is not to be used.
fn tell_disk(rt: &HostRuntime, path: &str, fault: &DiskFault) {
    let _ = eprintln!(rt; "judyd: {path}{fault}");
}

/// Prints why a journal is not compacted. Returns the status of the program.
fn tell_uncompacted(rt: &HostRuntime, path: &str, why: &Uncompacted) -> u8
    ensures { result ≡ fault_status why.now }
{
    match why {
        Uncompacted::Journal(fault) => {
            tell_fault(rt, path, fault);
            3
        }
        Uncompacted::Disk(fault) => {
            tell_disk(rt, path, fault);
            3
        }
        Uncompacted::Memory => refuse_memory(rt),
        Uncompacted::Left => {
            let _ = eprintln!(rt; "judyd: {path}: entries are left that no record makes");
            3
        }
    }
}

/// Prints why a journal is not compacted, if it is not. Returns the status of the program.
fn tell_compacted(rt: &HostRuntime, path: &str, done: &Result<Compacted, Uncompacted>) -> u8
    ensures { result ≡ compaction_status done.now }
{
    match done {
        Ok(_) => 0,
        Err(why) => tell_uncompacted(rt, path, why),
    }
}

/// Makes the files of a journal smaller. Returns the status of the program.
pub fn compact_at(rt: &HostRuntime, path: &str) -> u8
    ensures { IsUpkept result }
{
    let Some(folder) = folder_at(rt, path) else {
        return refuse_memory(rt);
    };
    let Some(secret) = read_secret(rt, random_file()) else {
        let _ = eprintln!(rt; "judyd: random fault");
        return 4;
    };
    let mut directory = Replacing::new(folder);
    let done = compact::<Server<Sha256Hash>, HostRuntime>(rt.alloc(), &secret, &mut directory);
    tell_compacted(rt, path, &done)
}

/// Prints why a journal is not printed whole, if it is not. Returns the status of the program.
fn tell_printed(rt: &HostRuntime, path: &str, done: &Result<(), Unprinted>) -> u8
    ensures { result ≡ print_status done.now }
{
    match done {
        Ok(()) => 0,
        Err(Unprinted::Write) => {
            let _ = eprintln!(rt; "judyd: write fault");
            4
        }
        Err(Unprinted::Journal(fault)) => {
            tell_fault(rt, path, fault);
            3
        }
    }
}

/// Prints the requests of a journal. Returns the status of the program.
fn print_at(rt: &HostRuntime, path: &str, tenant: &Option<Word>) -> u8
    ensures { IsUpkept result }
{
    let Some(mut folder) = folder_at(rt, path) else {
        return refuse_memory(rt);
    };
    let name = tenant.as_ref().map(|word| word.0.as_bytes());
    let done = print(rt.alloc(), &mut folder, rt.stdout(), name);
    tell_printed(rt, path, &done)
}

/// Makes the manifest of a journal that has none. Returns the status of the program.
fn begin_at(rt: &HostRuntime, path: &str) -> u8
    ensures { IsUpkept result }
{
    let Some(mut folder) = folder_at(rt, path) else {
        return refuse_memory(rt);
    };
    match begin_journal(rt.alloc(), &mut folder) {
        Ok(()) => 0,
        Err(fault) => {
            tell_fault(rt, path, &fault);
            3
        }
    }
}

/// Prints what a start would find, a line for each number. Returns the status of the program.
fn print_examined(rt: &HostRuntime, examined: &Examined) -> u8
    ensures { IsUpkept result }
{
    let (size, torn) = examined.end.map_or((0, 0), |end| (end.size, end.torn));
    let printed = println!(rt;
        "snapshot {}\nlast {}\ncommits {}\nrecords {}\nsize {size}\ntorn {torn}\nkept {}",
        examined.found.snapshot.unwrap_or(0),
        examined.found.last.unwrap_or(0),
        examined.commits,
        examined.records,
        examined.kept
    );
    match printed {
        Ok(()) => 0,
        Err(_) => {
            let _ = eprintln!(rt; "judyd: write fault");
            4
        }
    }
}

/// Tells what a start would find. Returns the status of the program.
fn examine_at(rt: &HostRuntime, path: &str) -> u8
    ensures { IsUpkept result }
{
    let Some(mut folder) = folder_at(rt, path) else {
        return refuse_memory(rt);
    };
    match examine(rt.alloc(), &mut folder) {
        Ok(examined) => print_examined(rt, &examined),
        Err(fault) => {
            tell_fault(rt, path, &fault);
            3
        }
    }
}

/// Prints, begins or examines a journal. Returns the status of the program.
pub fn obey_journal(
    rt: &HostRuntime,
    path: &str,
    tenant: &Option<Word>,
    new: bool,
    check: bool,
) -> u8
    ensures { IsUpkept result }
{
    if new {
        return begin_at(rt, path);
    }
    if check {
        return examine_at(rt, path);
    }
    print_at(rt, path, tenant)
}

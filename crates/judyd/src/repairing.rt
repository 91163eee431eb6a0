//! Tells the damage of a journal, or cuts it off.
ghost use Rattle.std.specs.Prelude.{◌≡◌, true, false};
ghost use Rattle.judyd.specs.Obeying.{IsRepaired, IsUpkept};

use crate::keeping::{folder_at, refuse_memory, tell_fault};
use judy_disk::{Folder, Place};
use judy_recovery::JournalFault;
use judy_upkeep::{Part, Unrepaired, Wound, look_for_wound, repair};
use std::io;

/// Prints what goes out of a segment, or went.
fn print_part(rt: &HostRuntime, part: &Part, sure: bool) -> io::Result<()> {
    let Part {
        segment,
        from,
        bytes,
    } = *part;
    let (file, beside) = (Place::Segment(segment), Place::Torn(segment));
    let goes = if sure { "are" } else { "would be" };
    println!(rt; "{file}: {bytes} bytes from byte {from} on {goes} kept in {beside}")
}

/// Prints the damage of a journal, and what goes, or went.
fn print_parts(rt: &HostRuntime, path: &str, wound: &Wound, sure: bool) -> io::Result<()> {
    let fault = &wound.fault;
    println!(rt; "{path}{fault}")?;
    print_part(rt, &wound.part, sure)?;
    for part in &wound.later {
        print_part(rt, part, sure)?;
    }
    Ok(())
}

/// Prints that a line cannot be written. Returns the status of the program.
fn refuse_write(rt: &HostRuntime) -> u8
    ensures { result ≡ 4 }
{
    let _ = eprintln!(rt; "judyd: write fault");
    4
}

/// Prints what is wrong with a journal. Returns this status of the program, if that can be done.
fn print_wound(rt: &HostRuntime, path: &str, wound: &Option<Wound>, sure: bool, status: u8) -> u8
    requires status { IsRepaired sure status }
    ensures { IsRepaired sure result }
{
    let printed = match wound {
        Some(wound) => print_parts(rt, path, wound, sure),
        None => println!(rt; "{path}: nothing is damaged"),
    };
    match printed {
        Ok(()) => status,
        Err(_) => refuse_write(rt),
    }
}

/// Prints that a journal is refused, and why. Returns the status of the program.
fn refuse(rt: &HostRuntime, path: &str, fault: &JournalFault) -> u8
    ensures { result ≡ 3 }
{
    tell_fault(rt, path, fault);
    3
}

/// Tells the damage of a journal. Returns the status of the program.
fn look_at(
    rt: &HostRuntime,
    path: &str,
    folder: &mut Folder<'_, HostRuntime>,
    drop_later: bool,
) -> u8
    ensures { IsRepaired false result }
{
    match look_for_wound(rt.alloc(), folder) {
        Ok(Some(wound)) => {
            if !wound.later.is_empty() && !drop_later {
                return refuse_later(rt, path, &wound.fault);
            }
            print_wound(rt, path, &Some(wound), false, 1)
        }
        Ok(None) => print_wound(rt, path, &None, false, 0),
        Err(fault) => refuse(rt, path, &fault),
    }
}

/// Prints that a journal is not repaired since segments follow the damage. Returns the status of the program.
fn refuse_later(rt: &HostRuntime, path: &str, fault: &JournalFault) -> u8
    ensures { result ≡ 3 }
{
    tell_fault(rt, path, fault);
    let _ = eprintln!(rt; "judyd: {path}: later segments follow: with --drop-later they go too");
    3
}

/// Cuts off the damage of a journal. Returns the status of the program.
fn mend(rt: &HostRuntime, path: &str, folder: &mut Folder<'_, HostRuntime>, drop_later: bool) -> u8
    ensures { IsRepaired true result }
{
    match repair(rt.alloc(), folder, drop_later) {
        Ok(wound) => print_wound(rt, path, &wound, true, 0),
        Err(Unrepaired::Journal(fault)) => refuse(rt, path, &fault),
        Err(Unrepaired::Later(fault)) => refuse_later(rt, path, &fault),
    }
}

/// Tells the damage of a journal, or cuts it off. Returns the status of the program.
pub fn repair_at(rt: &HostRuntime, path: &str, sure: bool, drop_later: bool) -> u8
    ensures { IsRepaired sure result }
{
    let Some(mut folder) = folder_at(rt, path) else {
        return refuse_memory(rt);
    };
    if sure {
        return mend(rt, path, &mut folder, drop_later);
    }
    look_at(rt, path, &mut folder, drop_later)
}

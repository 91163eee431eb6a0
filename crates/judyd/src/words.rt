//! The words of the command line, and what is printed where they ask for nothing.
ghost use Rattle.std.specs.Prelude.{◌≡◌};
ghost use Rattle.judyd.specs.Obeying.{refusal_status};

use crate::built::BUILT;
use judy_command::Refusal;
use std::alloc::Global;
use std::{env, io};

/// The message for a command line whose bytes are not UTF-8.
const NO_TEXT: &str = "error: invalid UTF-8 was detected in one or more arguments

For more information, try '--help'.
";

/// Why the words of the command line cannot be read: one is not UTF-8, or memory ran out.
fn refusal_of_words(alloc: Global, e: &io::Error) -> Refusal {
    if e.kind() != io::ErrorKind::InvalidData {
        return Refusal::Memory;
    }
    match String::from_str(alloc, NO_TEXT) {
        Ok(text) => Refusal::Usage(text),
        Err(_) => Refusal::Memory,
    }
}

/// The words of the command line after the program's name.
pub fn read_words(rt: &HostRuntime) -> Result<Vec<String>, Refusal> {
    let args = env::args(rt).map_err(|e| refusal_of_words(rt.alloc(), &e))?;
    let mut words = Vec::new(rt.alloc());
    for word in args.skip(1) {
        words.push(word).map_err(|_| Refusal::Memory)?;
    }
    Ok(words)
}

/// Prints help or the version. What the program is made of follows the version.
fn help(rt: &HostRuntime, text: &str) {
    let _ = print!(rt; "{text}");
    if text.starts_with("judyd ") {
        let _ = println!(rt; "{BUILT}");
    }
}

/// Prints why the command line asks for nothing. Returns the status of the program.
///
/// If a text cannot be written, only the status reports it.
pub fn refuse(rt: &HostRuntime, refusal: &Refusal) -> u8
    ensures { result ≡ refusal_status refusal.now }
{
    match refusal {
        Refusal::Help(text) => {
            help(rt, text.as_str());
            0
        }
        Refusal::Usage(text) => {
            let _ = eprint!(rt; "{text}");
            2
        }
        Refusal::Memory => {
            let _ = eprintln!(rt; "judyd: memory");
            4
        }
    }
}

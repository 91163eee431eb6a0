//! Times the calls of the arrays and of their arena. `USAGE` has the commands; `all` makes the other
//! four with small numbers.
//!
//! Standard output is the same on every machine. Standard error has the times.
#![tactic(auto)]

mod arena;
mod churn;
mod strings;
mod times;
mod words;

use anyhow::Result;
use std::alloc::Global;
use std::process::ExitCode;
use std::rt::Clock;
use std::{env, io};

const USAGE: &str = "usage: bench all
       bench arena [ROUNDS]
       bench arena words WORDS
       bench churn [KEPT ROUNDS]
       bench strings words|paths STRINGS READS WALKS FREES MAKES
       bench words [COUNT [0|1|2|3|9 [MOST]]]";

/// What the command line asks for.
enum Command {
    All,
    Arena(arena::Plan),
    Churn(churn::Plan),
    Strings(strings::Plan),
    Words(words::Plan),
}

/// The command in the words after the program's name.
fn command_of(words: &[String]) -> Option<Command> {
    let [name, rest @ ..] = words else {
        return None;
    };
    match name.as_str() {
        "all" if rest.is_empty() => Some(Command::All),
        "arena" => Some(Command::Arena(arena::plan_of(rest)?)),
        "churn" => Some(Command::Churn(churn::plan_of(rest)?)),
        "strings" => Some(Command::Strings(strings::plan_of(rest)?)),
        "words" => Some(Command::Words(words::plan_of(rest)?)),
        _ => None,
    }
}

/// Does what the command line asks for.
fn obey(rt: &(impl Clock + Print + Eprint + Alloc), alloc: Global, command: Command) -> Result<()> {
    match command {
        Command::All => {
            arena::run(rt, alloc, arena::SMALL)?;
            churn::run(rt, alloc, churn::SMALL)?;
            strings::run(rt, alloc, strings::SMALL)?;
            words::run(rt, alloc, words::SMALL)
        }
        Command::Arena(plan) => arena::run(rt, alloc, plan),
        Command::Churn(plan) => churn::run(rt, alloc, plan),
        Command::Strings(plan) => strings::run(rt, alloc, plan),
        Command::Words(plan) => words::run(rt, alloc, plan),
    }
}

/// The words of the command line after the program's name.
fn read_words(rt: &HostRuntime) -> io::Result<Vec<String>> {
    let mut words = Vec::new(rt.alloc());
    for word in env::args(rt)?.skip(1) {
        words.push(word)?;
    }
    Ok(words)
}

fn main(rt: HostRuntime) -> ExitCode {
    let Ok(words) = read_words(&rt) else {
        let _ = eprintln!(rt; "bench: the command line cannot be read");
        return ExitCode::from(2);
    };
    let Some(command) = command_of(words.as_slice()) else {
        let _ = eprintln!(rt; "{USAGE}");
        return ExitCode::from(2);
    };
    match obey(&rt, rt.alloc(), command) {
        Ok(()) => ExitCode::from(0),
        Err(fault) => {
            let _ = eprintln!(rt; "bench: {fault}");
            ExitCode::from(1)
        }
    }
}

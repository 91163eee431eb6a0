//! The end of a program: its journal is secured, its sockets go, and it prints how it ended.
ghost use Rattle.std.specs.Prelude.{◌≡◌, option_map, true};
ghost use Rattle.judy_programs.specs.Leaving.{HasLeft};
ghost use Rattle.judyd.specs.Obeying.{IsFinished, IsSecured, serves_socket};

use crate::reasons::explain;
use judy_command::{Job, Word};
use judy_programs::{Failed, Hosted, System, Unserved, finish_hosted, tell_line};
use judy_recovery::JournalFault;
use std::io;

/// Prints what the disk of the journal refused, if it refused something.
fn tell_journal(rt: &HostRuntime, job: &Job, fault: &Option<JournalFault>) {
    let Some(fault) = fault else {
        return;
    };
    if let Job::Serve {
        journal: Some(directory),
        ..
    } = job
    {
        let path = directory.0.as_str();
        tell_line(rt, format_args!("judyd: {path}{fault}"));
    }
}

/// What helps where a socket cannot be made at a path.
fn remedy(e: &io::Error) -> &'static str {
    match e.kind() {
        io::ErrorKind::AddrInUse => ": if no server listens there, remove the file",
        _ => "",
    }
}

/// Prints that a socket cannot be made at a path, and why.
fn tell_socket(rt: &HostRuntime, path: &str, e: &io::Error) {
    let remedy = remedy(e);
    tell_line(rt, format_args!("judyd: {path}: {e}{remedy}"));
}

/// Prints that a socket of the operator cannot be made, and why.
fn tell_desk(rt: &HostRuntime, word: &Option<Word>, e: &io::Error) {
    if let Some(word) = word {
        tell_socket(rt, word.0.as_str(), e);
    }
}

/// Prints the path of what the system refused, and the reason.
fn tell_reason(rt: &HostRuntime, job: &Job, failed: Failed) {
    let Job::Serve {
        config,
        socket,
        status,
        control,
        ..
    } = job
    else {
        return;
    };
    match failed {
        Failed::File(e) => {
            let path = config.0.as_str();
            tell_line(rt, format_args!("judyd: {path}: {e}"));
        }
        Failed::Socket(e) => tell_socket(rt, socket.0.as_str(), &e),
        Failed::Status(e) => tell_desk(rt, status, &e),
        Failed::Control(e) => tell_desk(rt, control, &e),
    }
}

/// Removes the sockets that were made.
fn leave(job: &Job, system: &mut System<'_, HostRuntime>)
    ensures { serves_socket job.now ≡ true → HasLeft system.new }
{
    let Job::Serve {
        socket,
        status,
        control,
        ..
    } = job
    else {
        return;
    };
    let status = status.as_ref().map(|word| word.0.as_str());
    let control = control.as_ref().map(|word| word.0.as_str());
    system.leave(socket.0.as_str(), status, control);
}

/// Prints how many clients were not served, if there are any.
fn tell_unserved(rt: &HostRuntime, unserved: Unserved) {
    let Unserved { accepts, memory } = unserved;
    if accepts > 0 {
        tell_line(rt, format_args!("judyd: failed accepts: {accepts}"));
    }
    if memory > 0 {
        tell_line(
            rt,
            format_args!("judyd: connections closed for memory: {memory}"),
        );
    }
}

/// Prints that a server stops, if it served clients and ended well.
fn tell_stop(rt: &HostRuntime, status: u8, system: &System<'_, HostRuntime>) {
    if status == 0 && system.has_started() {
        tell_line(rt, "judyd: stopping");
    }
}

/// Prints how a program ended. A server does not wait for room on standard error.
fn tell_end(rt: &HostRuntime, job: &Job, text: &str) {
    match job {
        Job::Serve { .. } => {
            tell_line(rt, text);
        }
        _ => {
            let _ = eprintln!(rt; "{text}");
        }
    }
}

/// Secures the journal of a server that ended well, however often it is secured while it serves. If that
/// fails, the server ended by a fault of the journal.
pub fn secure(
    job: &Job,
    system: &mut System<'_, HostRuntime>,
    ended: (u8, Option<&'static str>),
) -> (u8, Option<&'static str>)
    requires { IsFinished job.now ended.0 (option_map (λ s. s.now) ended.1) }
    ensures finished { IsFinished job.now result.0 (option_map (λ s. s.now) result.1) }
    ensures status { IsSecured ended.entry.0 result.0 }
{
    let Job::Serve { .. } = job else {
        return ended;
    };
    if ended.0 != 0 || system.secure_journal() {
        return ended;
    }
    finish_hosted(Hosted::Journal)
}

/// Removes the sockets that were made, and then prints how the program ended.
pub fn end(
    rt: &HostRuntime,
    job: &Job,
    system: &mut System<'_, HostRuntime>,
    kept: &mut Vec<u8>,
    status: u8,
    text: Option<&'static str>,
)
    ensures { serves_socket job.now ≡ true → HasLeft system.new }
{
    tell_stop(rt, status, &*system);
    let line = match text {
        Some(text) => explain(rt, job, system, kept, text),
        None => None,
    };
    let fault = system.take_journal_fault();
    leave(job, system);
    if let Some(text) = text {
        tell_end(rt, job, line.as_ref().map_or(text, |line| line.as_str()));
    }
    if let Some(failed) = system.failed() {
        tell_reason(rt, job, failed);
    }
    tell_journal(rt, job, &fault);
    tell_unserved(rt, system.unserved());
}

//! Judy arrays for many tenants behind a line protocol, over the standard streams or over a Unix
//! socket.
#![tactic(auto)]

ghost use Rattle.std.specs.Prelude.{ℕ, List, Option, Ok, option_map};
ghost use Rattle.judy_protocol.specs.Serving.{Wire};
ghost use Rattle.judy_server.specs.Jobs.{Does, IsProgram};
ghost use Rattle.judy_server.specs.Runs.{KeepsPromises};
ghost use Rattle.judyd.specs.Obeying.{HasDoneAll, IsFinished, IsObeyed, KeepsAll};

mod built;
mod ending;
mod keeping;
mod reasons;
mod repairing;
mod standard;
mod starting;
mod words;

use ending::{end, secure};
use judy_command::{Job, Refusal, parse_words};
use judy_many::Network;
use judy_programs::{Journals, System};
use judy_server::{do_job_on, every_run_keeps_promises};
use judy_stream::{Reads, Writes};
use judy_tenants::Sha256Hash;
use keeping::{compact_at, obey_journal};
use reasons::Kept;
use repairing::repair_at;
use standard::fill_standard;
use starting::{announce, expect_new, set_segment};
use std::process::ExitCode;
use words::{read_words, refuse};

/// Does what the command line asks for, and keeps the front of standard input. Returns the status of the
/// program, and its line on standard error, if any. A server keeps all promises to its tenants and connections,
/// over the log of its own system.
fn do_job<'a>(
    rt: &HostRuntime,
    job: &Job,
    system: &mut System<'a, HostRuntime>,
    kept: &mut Vec<u8>,
) -> (u8, Option<&'static str>)
    requires { IsProgram job.now }
    ensures ended { IsFinished job.now result.0 (option_map (λ s. s.now) result.1) }
    ensures done { (from : Wire) × (to : Wire)
        × Does (⟦<System<'a, HostRuntime> as Journals>⟧.may_have) job.now
        result.0 (option_map (λ s. s.now) result.1) from to
        (⟦<System<'a, HostRuntime> as Network>⟧.log system.old)
        (⟦<System<'a, HostRuntime> as Network>⟧.log system.new) }
    ensures promises { (from : Wire) × (to : Wire)
        × KeepsPromises (⟦<System<'a, HostRuntime> as Journals>⟧.may_have) job.now
        result.0 (option_map (λ s. s.now) result.1) from to
        (⟦<System<'a, HostRuntime> as Network>⟧.log system.old)
        (⟦<System<'a, HostRuntime> as Network>⟧.log system.new) }
{
    every_run_keeps_promises::<System<'a, HostRuntime>>();
    let mut reader = Reads::new(Kept::new(rt.stdin(), kept));
    let mut writer = Writes::new(rt.stdout());
    do_job_on::<Sha256Hash, _, _, _>(rt.alloc(), job, &mut reader, &mut writer, system)
}

/// Runs or serves, and prints how it ended. Returns the status of the program.
fn obey_program<'a>(rt: &'a HostRuntime, job: &Job) -> u8
    requires { IsProgram job.now }
    ensures finished { (text : Option (List ℕ)) × IsFinished job.now result text }
    ensures promises { HasDoneAll (⟦<System<'a, HostRuntime> as Journals>⟧.may_have) job.now result }
{
    let mut system = System::new(rt);
    announce(rt, job, &mut system);
    expect_new(job, &mut system);
    set_segment(job, &mut system);
    let mut kept = Vec::new(rt.alloc());
    let ended = do_job(rt, job, &mut system, &mut kept);
    let (status, text) = secure(job, &mut system, ended);
    end(rt, job, &mut system, &mut kept, status, text);
    status
}

/// Does a job, and prints how it ended. Returns the status of the program.
fn obey_job<'a>(rt: &'a HostRuntime, job: &Job) -> u8
    ensures finished { (text : Option (List ℕ)) × IsFinished job.now result text }
    ensures promises { KeepsAll (⟦<System<'a, HostRuntime> as Journals>⟧.may_have) (Ok job.now) result }
{
    match job {
        Job::Compact { directory } => compact_at(rt, directory.0.as_str()),
        Job::Repair {
            directory,
            sure,
            drop_later,
        } => repair_at(rt, directory.0.as_str(), *sure, *drop_later),
        Job::Journal {
            directory,
            tenant,
            new,
            check,
        } => obey_journal(rt, directory.0.as_str(), tenant, *new, *check),
        Job::Run { .. } => obey_program(rt, job),
        Job::Serve { .. } => obey_program(rt, job),
    }
}

/// Does what the command line asks for, and prints how it ended. Returns the status of the program.
///
/// If a line on standard error cannot be written, only the status reports it.
fn obey<'a>(rt: &'a HostRuntime, asked: &Result<Job, Refusal>) -> u8
    ensures status { IsObeyed asked.now result }
    ensures promises { KeepsAll (⟦<System<'a, HostRuntime> as Journals>⟧.may_have) asked.now result }
{
    match asked {
        Ok(job) => obey_job(rt, job),
        Err(refusal) => refuse(rt, refusal),
    }
}

fn main(rt: HostRuntime) -> ExitCode {
    let _filled = fill_standard(&rt);
    let asked = read_words(&rt).and_then(|words| parse_words(rt.alloc(), words.as_slice()));
    ExitCode::from(obey(&rt, &asked))
}

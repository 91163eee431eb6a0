//! What a server is told before it serves, and the line that is printed at its start.
ghost use Rattle.std.specs.Prelude.{◌≡◌};

use judy_command::{Job, Sync, VERSION, Word};
use judy_many::Network;
use judy_programs::System;

/// What follows the line at the start: the journal, and what a crash may lose if it is not secured in
/// each round. Without memory for it there is nothing.
fn journal_text(rt: &HostRuntime, journal: &Option<Word>, sync: Sync) -> Option<String> {
    let Some(directory) = journal else {
        return Some(String::new(rt.alloc()));
    };
    let path = directory.0.as_str();
    let text = match sync {
        Sync::Round => format!(in rt.alloc(); ", journal {path}"),
        Sync::Seconds(n) => format!(in rt.alloc();
            ", journal {path}, synced every {n} s: a crash of the machine may lose what came after the last sync"
        ),
        Sync::Never => format!(in rt.alloc();
            ", journal {path}, never synced: a crash of the machine may lose what the system has not written"
        ),
    };
    text.ok()
}

/// Sets the line that is printed once clients are waited for. Without memory for it there is none.
pub fn announce<'a>(rt: &HostRuntime, job: &Job, system: &mut System<'a, HostRuntime>)
    ensures log { ⟦<System<'a, HostRuntime> as Network>⟧.log system.new ≡
        ⟦<System<'a, HostRuntime> as Network>⟧.log system.old }
{
    let Job::Serve {
        config,
        socket,
        clients,
        journal,
        sync,
        ..
    } = job
    else {
        return;
    };
    let Some(more) = journal_text(rt, journal, *sync) else {
        return;
    };
    let (file, path) = (config.0.as_str(), socket.0.as_str());
    let line = format!(in rt.alloc();
        "judyd: {VERSION} started: table {file}, socket {path}, {clients} clients{more}"
    );
    if let Ok(line) = line {
        system.tell_at_start(line);
    }
}

/// Notes that the journal is a new one, if the command line says so.
pub fn expect_new<'a>(job: &Job, system: &mut System<'a, HostRuntime>)
    ensures log { ⟦<System<'a, HostRuntime> as Network>⟧.log system.new ≡
        ⟦<System<'a, HostRuntime> as Network>⟧.log system.old }
{
    if let Job::Serve {
        new_journal: true,
        ..
    } = job
    {
        system.expect_new_journal();
    }
}

/// How many bytes a megabyte has.
const MEGABYTE: u64 = 1_048_576;

/// Sets the size of a segment of the journal, as the command line says.
pub fn set_segment<'a>(job: &Job, system: &mut System<'a, HostRuntime>)
    ensures log { ⟦<System<'a, HostRuntime> as Network>⟧.log system.new ≡
        ⟦<System<'a, HostRuntime> as Network>⟧.log system.old }
{
    if let Job::Serve { segment, .. } = job {
        system.set_segment((*segment as u64).saturating_mul(MEGABYTE));
    }
}

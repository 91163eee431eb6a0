//! Does what the command line asks for, over any streams and any system.
ghost use Rattle.std.specs.Prelude.{◌≡◌, ◌||◌, is_some, option_map};
ghost use Rattle.judy_stream.specs.Streams.{MayAlwaysPull};
ghost use Rattle.judy_protocol.specs.Sending.{MaySend};
ghost use Rattle.judy_protocol.specs.Serving.{pull_limit, wire};
ghost use Rattle.judy_programs.specs.Hosting.{desks_at};
ghost use Rattle.judy_server.specs.Jobs.{ChecksBy, Does, HasDone, HostsBy, IsProgram, batch_in, batch_of, connections_of, rule_of};
ghost use Rattle.judy_programs.specs.Program.{IsSent};

use crate::server::{Chosen, Server, run};
use judy_command::{Job, Sync as When, Word};
use judy_many::{Limits, Sync};
use judy_programs::{
    Hosted, Journals, check_journaled, check_on, finish, finish_hosted, host_journaled, host_on,
};
use judy_protocol::Batch;
use judy_stream::{Sink, Source};
use std::alloc::Global;

/// The text of a word, if there is one.
fn text_of(word: &Option<Word>) -> Option<&str>
    ensures { option_map (λ s. s.now) result ≡ word.now }
{
    match word {
        Some(word) => Some(word.0.as_str()),
        None => None,
    }
}

/// Which answers are written at once: those of a read with `--batch`, otherwise each answer alone.
fn batch_of(batch: bool) -> Batch
    ensures { result ≡ batch_of batch }
{
    if batch {
        Batch::EachRead
    } else {
        Batch::EachReply
    }
}

/// When the journal is synced, if there is one.
fn rule_of(directory: Option<&str>, when: When) -> Option<Sync>
    ensures { result ≡ rule_of (option_map (λ s. s.now) directory.entry) when }
{
    match directory {
        Some(_) => match when {
            When::Round => Some(Sync::Round),
            When::Seconds(seconds) => Some(Sync::Seconds(seconds)),
            When::Never => Some(Sync::Never),
        },
        None => None,
    }
}

/// The most connections, by the number of the command line.
fn connections_of(connections: u32) -> u64
    ensures { result ≡ connections_of connections }
{
    if connections == u32::MAX {
        return u64::MAX;
    }
    u64::from(connections)
}

/// Whether a socket of the operator is wanted.
fn has_desk(status: &Option<Word>, control: &Option<Word>) -> bool
    ensures { result ≡ (is_some status.now || is_some control.now) }
{
    status.is_some() || control.is_some()
}

/// Checks the table, and the journal if there is one.
fn check_by<K: Chosen, H: Journals>(
    alloc: Global,
    secret: &[u8],
    system: &mut H,
    file: &str,
    reserve: Option<u32>,
    directory: Option<&str>,
) -> Hosted
    requires files { MayAlwaysPull H.File.source pull_limit }
    ensures { ChecksBy H.may_have (option_map (λ s. s.now) directory.entry) secret.now reserve result file.now
        (H.log system.old) (H.log system.new) }
{
    match directory {
        Some(path) => {
            check_journaled::<Server<K>, H>(alloc, secret, system, file, reserve, path)
        }
        None => check_on::<Server<K>, H>(alloc, secret, system, file, reserve),
    }
}

/// Serves, with the journal if there is one.
fn host_by<K: Chosen, H: Journals>(
    alloc: Global,
    secret: &[u8],
    system: &mut H,
    file: &str,
    path: &str,
    watch: Option<&str>,
    control: Option<&str>,
    reserve: Option<u32>,
    limits: Limits,
    directory: Option<&str>,
) -> Hosted
    requires files { MayAlwaysPull H.File.source pull_limit }
    ensures { HostsBy H.may_have (option_map (λ s. s.now) directory.entry) secret.now reserve result file.now
        path.now (desks_at (option_map (λ s. s.now) watch.entry) (option_map (λ s. s.now) control.entry)) limits
        (H.log system.old) (H.log system.new) }
{
    match directory {
        Some(journal) => host_journaled::<Server<K>, H>(
            alloc, secret, system, file, path, watch, control, reserve, limits, journal,
        ),
        None => host_on::<Server<K>, H>(
            alloc, secret, system, file, path, watch, control, reserve, limits,
        ),
    }
}

/// Does what the command line asks for, with this secret. Returns the status of the program, and its
/// line on standard error, if any.
fn do_job_with<K: Chosen, R: Source, W: Sink, H: Journals>(
    alloc: Global,
    secret: &[u8],
    job: &Job,
    reader: &mut R,
    writer: &mut W,
    system: &mut H,
) -> (u8, Option<&'static str>)
    requires serves { IsProgram job.now }
    requires script { MayAlwaysPull R.source pull_limit }
    requires written { MaySend W.sink (IsSent (batch_in job.now)) writer.old }
    requires files { MayAlwaysPull H.File.source pull_limit }
    ensures { HasDone H.may_have secret.now job.now result.0 (option_map (λ s. s.now) result.1)
        (wire R.source W.sink reader.old writer.old)
        (wire R.source W.sink reader.new writer.new)
        (H.log system.old) (H.log system.new) }
{
    match job {
        Job::Run { words, batch } => {
            let batch = batch_of(*batch);
            finish(run::<K, R, W>(alloc, secret, reader, writer, *words, batch))
        }
        Job::Serve {
            config,
            socket,
            status,
            control,
            clients,
            tenant_clients,
            share,
            connections,
            login,
            idle,
            turn,
            reserve,
            journal,
            sync,
            segment: _,
            new_journal: _,
            check,
        } => {
            let file = config.0.as_str();
            let directory = text_of(journal);
            if *check {
                let looked = check_by::<K, H>(alloc, secret, system, file, *reserve, directory);
                return finish_hosted(looked);
            }
            let limits = Limits {
                clients: *clients,
                tenant_clients: *tenant_clients,
                share: *share,
                connections: connections_of(*connections),
                login: Some(*login),
                idle: *idle,
                turn: *turn,
                status: has_desk(status, control),
                journal: rule_of(directory, *sync),
            };
            let path = socket.0.as_str();
            let watch = text_of(status);
            let command = text_of(control);
            let hosted = host_by::<K, H>(
                alloc, secret, system, file, path, watch, command, *reserve, limits, directory,
            );
            finish_hosted(hosted)
        }
        Job::Compact { .. } => unreachable!(),
        Job::Repair { .. } => unreachable!(),
        Job::Journal { .. } => unreachable!(),
    }
}

/// Draws a secret, and does what the command line asks for. Returns the status of the program, and
/// its line on standard error, if any.
///
/// If the system gives no random bytes, the status is 4, and nothing else is asked, read or written.
pub fn do_job_on<K: Chosen, R: Source, W: Sink, H: Journals>(
    alloc: Global,
    job: &Job,
    reader: &mut R,
    writer: &mut W,
    system: &mut H,
) -> (u8, Option<&'static str>)
    requires serves { IsProgram job.now }
    requires script { MayAlwaysPull R.source pull_limit }
    requires written { MaySend W.sink (IsSent (batch_in job.now)) writer.old }
    requires files { MayAlwaysPull H.File.source pull_limit }
    ensures { Does H.may_have job.now result.0 (option_map (λ s. s.now) result.1)
        (wire R.source W.sink reader.old writer.old)
        (wire R.source W.sink reader.new writer.new)
        (H.log system.old) (H.log system.new) }
{
    let Some(secret) = system.secret() else {
        return (4, Some("judyd: random fault"));
    };
    do_job_with::<K, R, W, H>(alloc, &secret, job, reader, writer, system)
}

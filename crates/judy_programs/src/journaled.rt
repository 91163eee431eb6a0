//! `judyd serve` with a journal: the service begins with what the journal has.
ghost use Rattle.std.specs.Prelude.{◌≡◌, List, IfOk, IfErr, IfSome, IsFalse, IsTrue, Some, [], option_map};
ghost use Rattle.std.proofs.Common.{◌∙◌, refl};
ghost use Rattle.judy_many.specs.Rules.{rules_of};
ghost use Rattle.judy_stream.specs.Streams.{MayAlwaysPull};
ghost use Rattle.judy_protocol.specs.Serving.{pull_limit};
ghost use Rattle.judy_programs.specs.Hosting.{desks_at};
ghost use Rattle.judy_programs.specs.Journaled.{ChecksJournaled, HasFailedNext, HasGoneOn, HasMade, HasNoWriter, HasNotGoneOn, HasNotPlayed, HasOpenedNext, HostsJournaled, replay_of};
ghost use Rattle.judy_recovery.specs.Whole.{Kept};
ghost use Rattle.judy_recovery.specs.declared.resuming.Resumed.{Resumed as At};
ghost use Rattle.judy_table.specs.declared.tenant.Tenant.{Tenant};

use crate::hosts::Hosts;
use crate::journals::{Journals, Readies, Replays};
use crate::opens::Opens;
use crate::socket::{Hosted, begin_on, serve_on};
use judy_journal::{LAST_SEGMENT, Writer};
use judy_many::{Limits, Shows, begin_segment};
use judy_recovery::{Halt, JournalFault, Player, Resumed};
use judy_table::Table;
use std::alloc::Global;

/// A service without quotas that the records of a journal are given to, and the table that has them.
#[derive(Drop)]
struct Playing<S> {
    alloc: Global,
    service: S,
    table: Option<Table>,
}

impl<S: Replays> Player for Playing<S> {
    ghost plays = { λ before records after. S.replayed before.service records after.service
        × (after.table ≡ before.table) };

    fn play(&mut self, records: &[u8]) -> Result<(), Halt> {
        self.service.replay(self.alloc, records)
    }

    ghost rests = { λ player. (S.rests player.service, refl) };

    ghost joins = { λ before middle after records more first then.
        (S.joins before.service middle.service after.service records more first.0 then.0, then.1 ∙ first.1) };
}

impl<S: Replays> Readies for Playing<S> {
    /// The table was put in force.
    ghost readied = { λ played ready. (table : List Tenant) × (played.table ≡ Some table)
        × S.limited played.service table ready.service };

    fn ready(&mut self) -> Result<(), JournalFault> {
        match self.table.take() {
            Some(table) => self.service.limit(self.alloc, table),
            None => Err(JournalFault::Memory),
        }
    }
}

/// Begins the segment after that of the writer. False if there is none, or if the journal fails.
fn begin_next<H: Hosts>(system: &mut H, writer: &mut Writer) -> bool
    requires ended { writer.old.records ≡ [] }
    ensures begun { IsTrue result → HasOpenedNext writer.old writer.new (H.log system.old) (H.log system.new) }
    ensures failed { IsFalse result → HasFailedNext writer.old (H.log system.old) (H.log system.new) }
{
    if writer.segment() >= LAST_SEGMENT {
        return false;
    }
    begin_segment(system, writer)
}

/// A writer that goes on here.
fn writer_at<H: Hosts>(alloc: Global, system: &mut H, at: Resumed) -> Result<Box<Writer>, Hosted>
    ensures made { IfOk result (λ w. HasMade at w.value (H.log system.old) (H.log system.new)) }
    ensures none { IfErr result (λ how. HasNoWriter at how (H.log system.old) (H.log system.new)) }
{
    let Ok(mut writer) = Box::new(alloc, Writer::new(at.segment, &at.sum, at.size)) else {
        return Err(Hosted::Memory);
    };
    if !at.begins {
        return Ok(writer);
    }
    if !begin_next(system, &mut *writer) {
        return Err(Hosted::Journal);
    }
    Ok(writer)
}

/// The service without its quotas, and the table that has them.
fn lift<S: Replays + Drop>(alloc: Global, mut service: S) -> Option<Playing<S>>
    ensures { IfSome result (λ playing. (table : List Tenant) × (playing.table ≡ Some table)
        × S.lifted service table playing.service) }
{
    let table = service.lift(alloc)?;
    Some(Playing {
        alloc,
        service,
        table: Some(table),
    })
}

/// Plays the journal to a service without its quotas, and goes on with both.
///
/// Err: the journal can't be played (`Recovery`), or no writer goes on behind it. `Memory` is no fault of the journal.
fn play_on<S: Replays + Drop, H: Journals>(
    alloc: Global,
    mut playing: Playing<S>,
    system: &mut H,
    directory: &str,
) -> Result<(S, Box<Writer>), Hosted>
    ensures made { IfOk result (λ r. (fresh : S) (rows : List Tenant) → playing.table ≡ Some rows
        → S.lifted fresh rows playing.service → (kept : Kept) × (at : At) × H.may_have directory.now kept
        × HasGoneOn (replay_of S.lifted S.replayed S.limited) kept fresh at r.0
        × HasMade at r.1.value (H.log system.old) (H.log system.new)) }
    ensures none { IfErr result (λ how. (fresh : S) (rows : List Tenant) → playing.table ≡ Some rows
        → S.lifted fresh rows playing.service → HasNotPlayed (replay_of S.lifted S.replayed S.limited)
        (H.may_have directory.now) fresh how (H.log system.old) (H.log system.new)) }
{
    let Some(at) = system.resume(alloc, directory, &mut playing) else {
        return Err(Hosted::Recovery);
    };
    match writer_at(alloc, system, at) {
        Ok(writer) => Ok((playing.service, writer)),
        Err(hosted) => Err(hosted),
    }
}

/// The service with all that the journal has, and the writer that goes on with it.
fn resume_on<S: Replays + Drop, H: Journals>(
    alloc: Global,
    service: S,
    system: &mut H,
    directory: &str,
) -> Result<(S, Box<Writer>), Hosted>
    ensures made { IfOk result (λ r. (kept : Kept) × (at : At) × H.may_have directory.now kept
        × HasGoneOn (replay_of S.lifted S.replayed S.limited) kept service at r.0
        × HasMade at r.1.value (H.log system.old) (H.log system.new)) }
    ensures none { IfErr result (λ how. HasNotGoneOn (replay_of S.lifted S.replayed S.limited)
        (H.may_have directory.now) service how (H.log system.old) (H.log system.new)) }
{
    let Some(playing) = lift(alloc, service) else {
        return Err(Hosted::Memory);
    };
    play_on(alloc, playing, system, directory)
}

/// Serves as `host_on` does, with a journal in this directory. After the memory to reserve, and
/// before the sockets, the directory is taken and the journal read.
pub fn host_journaled<S: Opens + Shows + Replays + Drop, H: Journals>(
    alloc: Global,
    secret: &[u8],
    system: &mut H,
    config: &str,
    socket: &str,
    status: Option<&str>,
    control: Option<&str>,
    reserve: Option<u32>,
    limits: Limits,
    directory: &str,
) -> Hosted
    requires files { MayAlwaysPull H.File.source pull_limit }
    ensures { HostsJournaled (rules_of S.made S.seen S.noted S.status S.changed S.caps S.leavers)
        (replay_of S.lifted S.replayed S.limited)
        (H.may_have directory.now) (S.is_new secret.now) reserve result config.now socket.now
        (desks_at (option_map (λ s. s.now) status.entry) (option_map (λ s. s.now) control.entry))
        limits (H.log system.old) (H.log system.new) }
{
    let begun: Result<S, Hosted> = begin_on(alloc, secret, system, config, reserve);
    let service = match begun {
        Ok(service) => service,
        Err(hosted) => return hosted,
    };
    match resume_on(alloc, service, system, directory) {
        Ok(resumed) => {
            let (mut service, writer) = resumed;
            serve_on(
                alloc,
                &mut service,
                system,
                socket,
                status,
                control,
                limits,
                Some(writer),
            )
        }
        Err(hosted) => hosted,
    }
}

/// Checks the table as `check_on` does, and then that the journal in this directory can be played, and
/// that no tenant holds more then than its quota.
pub fn check_journaled<S: Opens + Replays + Drop, H: Journals>(
    alloc: Global,
    secret: &[u8],
    system: &mut H,
    config: &str,
    reserve: Option<u32>,
    directory: &str,
) -> Hosted
    requires files { MayAlwaysPull H.File.source pull_limit }
    ensures { ChecksJournaled (replay_of S.lifted S.replayed S.limited) (H.may_have directory.now)
        (S.is_new secret.now) reserve result config.now
        (H.log system.old) (H.log system.new) }
{
    let begun: Result<S, Hosted> = begin_on(alloc, secret, system, config, reserve);
    let service = match begun {
        Ok(service) => service,
        Err(hosted) => return hosted,
    };
    let Some(mut playing) = lift(alloc, service) else {
        return Hosted::Memory;
    };
    if system.look(alloc, directory, &mut playing) {
        return Hosted::Done;
    }
    Hosted::Recovery
}

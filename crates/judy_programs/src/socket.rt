//! The whole of `judyd serve`: the table, the socket, and many connections at once.
ghost use Rattle.std.specs.Prelude.{◌≡◌, ℕ, List, None, IfErr, IfOk, IsFalse, IsSome, IsTrue, option_map};
ghost use Rattle.judy_many.specs.Rules.{rules_of};
ghost use Rattle.judy_many.specs.Nets.Step.{Controlled, Uncontrolled, Unwatched, Watched};
ghost use Rattle.judy_stream.specs.Streams.{MayAlwaysPull};
ghost use Rattle.judy_protocol.specs.Serving.{pull_limit};
ghost use Rattle.judy_programs.specs.Hosting.{Begins, Checks, Hosts as IsHosted, Makes, Serves, Watches, desks_at, hosted_by};
ghost use Rattle.judy_programs.specs.Opening.{HasOpened, IsShut, open_ends, open_faults};
ghost use Rattle.judy_table.specs.declared.tenant.Tenant.{Tenant};

use crate::config::{FileRead, read_file};
use crate::hosts::Hosts;
use crate::limits::FILE_LIMIT;
use crate::opens::{Opens, Unopened};
use arrayvec::ArrayVec;
use judy_journal::Writer;
use judy_many::{Ending, Limits, Shows, serve_many};
use judy_stream::Source;
use judy_table::TableFault;
use std::alloc::Global;

/// How `judyd serve` ended.
#[derive(Clone, Copy, Debug, PartialEq, Eq)]
pub enum Hosted {
    /// As many connections as were wanted were served.
    Done,
    /// The file with the table cannot be read.
    Config,
    /// The file has more than 65,536 bytes.
    Long,
    /// The table of tenants has this fault.
    Table(TableFault),
    /// Out of memory for the service, or for the table of clients.
    Memory,
    /// Out of memory for what was to be taken for the arrays before the socket is made.
    Reserve,
    /// A socket cannot be made, or it fails.
    Socket,
    /// A stop was asked for on the control socket.
    Stopped,
    /// The journal cannot be read, or another server has it.
    Recovery,
    /// The journal cannot be written. The lines that it lacks are not answered.
    Journal,
}

/// The service of the table that a source has.
fn open_file<S: Opens, R: Source>(alloc: Global, secret: &[u8], source: &mut R) -> Result<S, Hosted>
    requires ready { MayAlwaysPull R.source pull_limit }
    ensures opened { IfOk result
        (λ s. HasOpened (S.is_new secret.now None) (R.source.left source.old) (R.source.left source.new) s) }
    ensures refused { IfErr result (λ how. IsShut how (R.source.left source.old) (R.source.left source.new)) }
    ensures ends { R.source.ends source.new ≡ open_ends result (R.source.ends source.old) }
    ensures faults { R.source.faults source.new ≡ open_faults result (R.source.faults source.old) }
{
    let mut bytes: ArrayVec<u8, FILE_LIMIT> = ArrayVec::new();
    match read_file(source, &mut bytes) {
        FileRead::Whole => match S::open(alloc, secret, bytes.as_slice()) {
            Ok(service) => Ok(service),
            Err(Unopened::Table(fault)) => Err(Hosted::Table(fault)),
            Err(Unopened::Memory) => Err(Hosted::Memory),
        },
        FileRead::Long => Err(Hosted::Long),
        FileRead::Fault => Err(Hosted::Config),
    }
}

/// Takes this number of megabytes for the arrays of a new service, if any are wanted. False: there
/// is not that much.
fn take_reserve<S: Opens>(alloc: Global, service: &mut S, reserve: Option<u32>) -> bool
    ensures taken { IsTrue result → (secret : List ℕ) (tenants : List Tenant)
        → S.is_new secret None tenants service.old → S.is_new secret reserve tenants service.new }
    ensures wanted { IsFalse result → IsSome reserve }
    ensures refused { IsFalse result → (megabytes : ℕ) × (reserve ≡ Some megabytes)
        × S.unreserved service.old megabytes service.new }
{
    match reserve {
        Some(megabytes) => service.reserve(alloc, megabytes),
        None => true,
    }
}

/// The service of the table in the file `config`. The file is opened once, read, and closed. Then
/// this many megabytes are taken for the arrays.
pub fn begin_on<S: Opens + Drop, H: Hosts>(
    alloc: Global,
    secret: &[u8],
    system: &mut H,
    config: &str,
    reserve: Option<u32>,
) -> Result<S, Hosted>
    requires files { MayAlwaysPull H.File.source pull_limit }
    ensures { Begins (S.is_new secret.now) reserve result config.now
        (H.log system.old) (H.log system.new) }
{
    let Some(mut source) = system.open(config) else {
        return Err(Hosted::Config);
    };
    let opened: Result<S, Hosted> = open_file(alloc, secret, &mut source);
    system.shut(source);
    let mut service = match opened {
        Ok(service) => service,
        Err(hosted) => return Err(hosted),
    };
    if take_reserve(alloc, &mut service, reserve) {
        return Ok(service);
    }
    Err(Hosted::Reserve)
}

/// Checks that the file `config` has a table, and that there is memory for its service and for this
/// many megabytes. The result is then `Done`. Otherwise it is the fault that `host_on` ends with.
pub fn check_on<S: Opens + Drop, H: Hosts>(
    alloc: Global,
    secret: &[u8],
    system: &mut H,
    config: &str,
    reserve: Option<u32>,
) -> Hosted
    requires files { MayAlwaysPull H.File.source pull_limit }
    ensures { Checks (S.is_new secret.now) reserve result config.now
        (H.log system.old) (H.log system.new) }
{
    let looked: Result<S, Hosted> = begin_on(alloc, secret, system, config, reserve);
    match looked {
        Ok(_service) => Hosted::Done,
        Err(hosted) => hosted,
    }
}

/// Makes the status socket, if one is wanted. False if it cannot be made.
fn watch_at<H: Hosts>(system: &mut H, status: Option<&str>) -> bool
    ensures { Makes Watched Unwatched result (option_map (λ s. s.now) status.entry)
        (H.log system.old) (H.log system.new) }
{
    let Some(path) = status else {
        return true;
    };
    if path.is_empty() {
        return false;
    }
    system.watch(path)
}

/// Makes the control socket, if one is wanted. False if it cannot be made.
fn control_at<H: Hosts>(system: &mut H, control: Option<&str>) -> bool
    ensures { Makes Controlled Uncontrolled result (option_map (λ s. s.now) control.entry)
        (H.log system.old) (H.log system.new) }
{
    let Some(place) = control else {
        return true;
    };
    if place.is_empty() {
        return false;
    }
    system.control(place)
}

/// Makes the sockets of the operator that are wanted. False if one cannot be made.
fn watch_on<H: Hosts>(system: &mut H, status: Option<&str>, control: Option<&str>) -> bool
    ensures { Watches result (desks_at (option_map (λ s. s.now) status.entry) (option_map (λ s. s.now) control.entry))
        (H.log system.old) (H.log system.new) }
{
    if !watch_at(system, status) {
        return false;
    }
    control_at(system, control)
}

/// How a server ended whose connections ended so.
fn hosted_by(ending: Ending) -> Hosted
    ensures { result ≡ hosted_by ending }
{
    match ending {
        Ending::Done => Hosted::Done,
        Ending::Memory => Hosted::Memory,
        Ending::Stopped => Hosted::Stopped,
        Ending::Journal => Hosted::Journal,
        Ending::Socket => Hosted::Socket,
    }
}

/// Makes a socket at the path `socket` and the sockets of the operator that are wanted, and serves the
/// connections that come. The writer goes on with a journal, if there is one.
pub fn serve_on<S: Shows, H: Hosts>(
    alloc: Global,
    service: &mut S,
    system: &mut H,
    socket: &str,
    status: Option<&str>,
    control: Option<&str>,
    limits: Limits,
    writer: Option<Box<Writer>>,
) -> Hosted
    ensures { Serves (rules_of S.made S.seen S.noted S.status S.changed S.caps S.leavers) result socket.now
        (desks_at (option_map (λ s. s.now) status.entry) (option_map (λ s. s.now) control.entry))
        limits (option_map (λ w. w.value) writer)
        (H.log system.old) (H.log system.new) service.old service.new }
{
    // The system would make a socket without a path, which no client can find.
    if socket.is_empty() {
        return Hosted::Socket;
    }
    if !system.bind(alloc, socket) {
        return Hosted::Socket;
    }
    if !watch_on(system, status, control) {
        return Hosted::Socket;
    }
    let ending = serve_many(alloc, system, service, limits, writer);
    hosted_by(ending)
}

/// Serves the tenants of the table in the file `config`. It makes a socket at the path `socket` and
/// serves the connections to it, many at once, within these limits. All of them share one service.
/// Questions to the socket at the path `status` are answered, if there is one, and commands to that at
/// the path `control`.
///
/// It checks for faults in this order: opening the file, reading it, its length, the table, memory
/// for the service, the memory to reserve, the socket, the status socket, the control socket, memory for
/// the table of clients, and the sockets again. No socket can be made at an empty path.
pub fn host_on<S: Opens + Shows + Drop, H: Hosts>(
    alloc: Global,
    secret: &[u8],
    system: &mut H,
    config: &str,
    socket: &str,
    status: Option<&str>,
    control: Option<&str>,
    reserve: Option<u32>,
    limits: Limits,
) -> Hosted
    requires files { MayAlwaysPull H.File.source pull_limit }
    ensures { IsHosted (rules_of S.made S.seen S.noted S.status S.changed S.caps S.leavers) (S.is_new secret.now)
        reserve result config.now socket.now
        (desks_at (option_map (λ s. s.now) status.entry) (option_map (λ s. s.now) control.entry))
        limits (H.log system.old) (H.log system.new) }
{
    let begun: Result<S, Hosted> = begin_on(alloc, secret, system, config, reserve);
    let mut service = match begun {
        Ok(service) => service,
        Err(hosted) => return hosted,
    };
    serve_on(
        alloc,
        &mut service,
        system,
        socket,
        status,
        control,
        limits,
        None,
    )
}

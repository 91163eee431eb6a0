//! Reads the words of a command line.
ghost use Rattle.std.specs.Prelude.{◌≡◌, ◌⊎◌, Some, None, true, IfOk, IfSome, OnOk, IfErr, ◌∷◌, map, string_bytes, unwrap_or, []};
ghost use Rattle.std.specs.Prelude.{codes, option_map};
ghost use Rattle.clap.specs.Words.{takes, subcommand_of, rows_of, found_of, first_of, kind_of};
ghost use Rattle.judy_command.specs.CommandLine.{IsInRange, IsUsage, StopsBy, is_set, job_at, job_of, judyd_app, served, seconds_in};
ghost use Rattle.judy_command.specs.CommandLine.{most_clients, most_count, number_given, number_in, segment_fault, sync_fault};
ghost use Rattle.judy_command.specs.CommandLine.{IsOptionFault, are_two, new_fault, option_fault, option_fault_of, two_fault};
ghost use Rattle.judy_command.specs.CommandLine.{directory_in, limits_in, paths_in, sync_given, sync_in, words_fault};

use crate::commands::judyd_command;
use clap::ArgMatches;
use clap::error::ErrorKind;
use std::alloc::{AllocError, Global};
use std::marker::Model;

/// A word of the command line.
#[derive(Debug, Drop)]
pub struct Word(pub String);

impl Model for Word {
    ghost use Rattle.std.specs.Prelude.{ℕ, List, string_bytes};

    ghost Value = { List ℕ };

    ghost view = { λ w. string_bytes w.0 };
}

/// When a server secures its journal.
#[derive(Clone, Copy, Debug, PartialEq, Eq)]
pub enum Sync {
    /// In each round that changed something, before its answers are written.
    Round,
    /// When this number of seconds has passed since the last time: 1 to 4294967295.
    Seconds(u32),
    /// Never: the system chooses.
    Never,
}

/// The job that a command line asks for.
#[derive(Debug, Drop)]
pub enum Job {
    /// Serve the script on standard input. If `words` is true, print at the end how many words are
    /// live.
    Run {
        /// Whether to print the line `WORDS n`.
        words: bool,
        /// Whether to write the replies to all requests of a read at once, and not each alone.
        batch: bool,
    },
    /// Serve connections to a socket.
    Serve {
        /// The file with the table of tenants.
        config: Word,
        /// The path of the socket.
        socket: Word,
        /// The path of the status socket, if one is wanted.
        status: Option<Word>,
        /// The path of the control socket, if one is wanted.
        control: Option<Word>,
        /// How many clients to serve at once: 1 to 1024.
        clients: u32,
        /// On how many connections one tenant may be logged in, if there is a limit: 1 to 1024.
        tenant_clients: Option<u32>,
        /// How many clients of one tenant are heard in a round: 1 to 1024.
        share: u32,
        /// How many connections to serve: 1 to 4294967295, and the last of these stands for no limit.
        connections: u32,
        /// How many seconds a connection may last on which nobody is logged in: 1 to 4294967295.
        login: u32,
        /// How many seconds a client may send no byte and take none, if there is a limit: 1 to
        /// 4294967295.
        idle: Option<u32>,
        /// How many seconds a connection may last, if there is a limit: 1 to 4294967295.
        turn: Option<u32>,
        /// How many megabytes to take for the arrays before the socket is made: 1 to 131072.
        reserve: Option<u32>,
        /// The directory of the journal, if there is one.
        journal: Option<Word>,
        /// When the journal is secured.
        sync: Sync,
        /// How many megabytes a segment of the journal has: 1 to 1024.
        segment: u32,
        /// Whether the journal is a new one.
        new_journal: bool,
        /// Whether to only read the table and report its fault.
        check: bool,
    },
    /// Make the files of a journal smaller.
    Compact {
        /// The directory of the journal.
        directory: Word,
    },
    /// Cut off the damage of a journal.
    Repair {
        /// The directory of the journal.
        directory: Word,
        /// Whether to do it, and not only to tell of it.
        sure: bool,
        /// Whether segments after the damaged one may go too.
        drop_later: bool,
    },
    /// Print the requests of a journal, or begin or check one.
    Journal {
        /// The directory of the journal.
        directory: Word,
        /// The only tenant whose requests are wanted, if there is one.
        tenant: Option<Word>,
        /// Whether to make the manifest of a new journal.
        new: bool,
        /// Whether to tell what a start would find.
        check: bool,
    },
}

/// Why a command line gives no job.
#[derive(Debug, Drop)]
pub enum Refusal {
    /// It asks for help or for the version. This is the text.
    Help(String),
    /// It is wrong. The text says why.
    Usage(String),
    /// Out of memory.
    Memory,
}

/// The most clients that are served at once.
const MOST_CLIENTS: u32 = 1024;

/// The most megabytes that are taken before the socket is made: an arena has at most 2^37 bytes.
const MOST_MEGABYTES: u32 = 131_072;

/// The most megabytes of a segment of the journal.
const MOST_SEGMENT: u32 = 1024;

/// What is wrong with a command line whose `--sync` is followed by none of its words.
const NO_SYNC: &str =
    "error: invalid value for '--sync <WHEN>': it is round, never, or a number of seconds from 1 to 4294967295

For more information, try '--help'.
";

/// What is wrong with a command line that has `--sync` and no journal.
const NO_JOURNAL: &str = "error: the argument '--sync <WHEN>' needs '--journal <DIR>'

Usage: judyd serve [OPTIONS] --config <FILE> --socket <PATH>

For more information, try '--help'.
";

/// What is wrong with a command line that has `--segment` and no journal.
const NO_SEGMENT: &str = "error: the argument '--segment <MB>' needs '--journal <DIR>'

Usage: judyd serve [OPTIONS] --config <FILE> --socket <PATH>

For more information, try '--help'.
";

/// What is wrong with a command line that has `--new-journal` and no journal.
const NO_NEW_JOURNAL: &str = "error: the argument '--new-journal' needs '--journal <DIR>'

Usage: judyd serve [OPTIONS] --config <FILE> --socket <PATH>

For more information, try '--help'.
";

/// What is wrong with a command line that asks for two things of one journal.
const TWO_ASKED: &str = "error: only one of '--tenant <NAME>', '--new' and '--check' may be given

Usage: judyd journal [OPTIONS] <DIR>

For more information, try '--help'.
";

/// The number of a text, from 1 to `most`, or `most` if the text is no such number.
fn number(text: &str, most: u32) -> u32
    ensures { result ≡ number_in most text.now }
{
    match text.parse::<u32>() {
        Ok(n) => { if n >= 1 && n <= most { n } else { most } }
        Err(_) => most,
    }
}

/// The first value of an argument, if it has one.
fn text_of<'a>(matches: &ArgMatches<'a>, id: &str) -> Option<&'a str>
    ensures { option_map (λ s. s.now) result ≡ first_of id.now (rows_of (found_of matches.now)) }
{
    matches.get_str(id)
}

/// A copy of the first value of an argument, or no bytes if it has none.
fn word_of(alloc: Global, matches: &ArgMatches<'_>, id: &str) -> Result<Word, AllocError>
    ensures { IfOk result
        (λ w. w ≡ unwrap_or (first_of id.now (rows_of (found_of matches.now))) []) }
{
    let text = match text_of(matches, id) {
        Some(text) => String::from_str(alloc, text)?,
        None => String::new(alloc),
    };
    Ok(Word(text))
}

/// A copy of the first value of an argument, if it has one.
fn word_given(alloc: Global, matches: &ArgMatches<'_>, id: &str) -> Result<Option<Word>, AllocError>
    ensures { IfOk result (λ w. w ≡ first_of id.now (rows_of (found_of matches.now))) }
{
    let Some(text) = text_of(matches, id) else {
        return Ok(None);
    };
    Ok(Some(Word(String::from_str(alloc, text)?)))
}

/// Whether a flag was given.
fn is_set(matches: &ArgMatches<'_>, id: &str) -> bool
    ensures { result ≡ is_set id.now (rows_of (found_of matches.now)) }
{
    text_of(matches, id).is_some_and(|text| text == "true")
}

/// The number from 1 to `most` given as an argument's value, if it has one.
fn number_given(matches: &ArgMatches<'_>, id: &str, most: u32) -> Option<u32>
    ensures { result ≡ number_given most id.now (rows_of (found_of matches.now)) }
{
    Some(number(text_of(matches, id)?, most))
}

/// Seconds from 1 to 4294967295, as a text says them.
fn seconds_in(text: &str) -> Option<Sync>
    ensures { result ≡ seconds_in text.now }
{
    match text.parse::<u32>() {
        Ok(n) => { if n >= 1 { Some(Sync::Seconds(n)) } else { None } }
        Err(_) => None,
    }
}

/// When the journal is secured, as a text says it.
fn sync_in(text: &str) -> Option<Sync>
    ensures { result ≡ sync_in text.now }
{
    if text == "round" {
        return Some(Sync::Round);
    }
    if text == "never" {
        return Some(Sync::Never);
    }
    seconds_in(text)
}

/// When the journal is secured, as it is given.
fn sync_given(matches: &ArgMatches<'_>) -> Sync
    ensures { result ≡ sync_given (rows_of (found_of matches.now)) }
{
    text_of(matches, "sync")
        .and_then(|text| sync_in(text))
        .unwrap_or(Sync::Round)
}

/// The paths that a server is given.
#[derive(Drop)]
struct Paths {
    config: Word,
    socket: Word,
    status: Option<Word>,
    control: Option<Word>,
    journal: Option<Word>,
}

/// The paths that are given to `serve`.
fn paths_in(alloc: Global, matches: &ArgMatches<'_>) -> Result<Paths, AllocError>
    ensures { IfOk result (λ paths. paths ≡ paths_in (rows_of (found_of matches.now))) }
{
    Ok(Paths {
        config: word_of(alloc, matches, "config")?,
        socket: word_of(alloc, matches, "socket")?,
        status: word_given(alloc, matches, "status")?,
        control: word_given(alloc, matches, "control")?,
        journal: word_given(alloc, matches, "journal")?,
    })
}

/// The limits that a server is given.
#[derive(Clone, Copy)]
struct Limits {
    clients: u32,
    tenant_clients: Option<u32>,
    share: u32,
    connections: u32,
    login: u32,
    idle: Option<u32>,
    turn: Option<u32>,
    reserve: Option<u32>,
}

/// The limits that are given to `serve`.
fn limits_in(matches: &ArgMatches<'_>) -> Limits
    ensures { result ≡ limits_in (rows_of (found_of matches.now)) }
{
    Limits {
        clients: number_given(matches, "clients", MOST_CLIENTS).unwrap_or(64),
        tenant_clients: number_given(matches, "tenant-clients", MOST_CLIENTS),
        share: number_given(matches, "share", MOST_CLIENTS).unwrap_or(8),
        connections: number_given(matches, "connections", u32::MAX).unwrap_or(u32::MAX),
        login: number_given(matches, "login", u32::MAX).unwrap_or(10),
        idle: number_given(matches, "idle", u32::MAX),
        turn: number_given(matches, "turn", u32::MAX),
        reserve: number_given(matches, "reserve", MOST_MEGABYTES),
    }
}

/// The job of `serve` with these matches.
fn served(alloc: Global, matches: &ArgMatches<'_>) -> Result<Job, AllocError>
    ensures { IfOk result (λ job. job ≡ served (rows_of (found_of matches.now))) }
{
    let paths = paths_in(alloc, matches)?;
    let limits = limits_in(matches);
    Ok(Job::Serve {
        config: paths.config,
        socket: paths.socket,
        status: paths.status,
        control: paths.control,
        clients: limits.clients,
        tenant_clients: limits.tenant_clients,
        share: limits.share,
        connections: limits.connections,
        login: limits.login,
        idle: limits.idle,
        turn: limits.turn,
        reserve: limits.reserve,
        journal: paths.journal,
        sync: sync_given(matches),
        segment: number_given(matches, "segment", MOST_SEGMENT).unwrap_or(64),
        new_journal: is_set(matches, "new-journal"),
        check: is_set(matches, "check"),
    })
}

/// The job of `run` with these matches.
fn run_job(matches: &ArgMatches<'_>) -> Job
    ensures { result ≡ Job.Run (is_set (codes "words") (rows_of (found_of matches.now)))
        (is_set (codes "batch") (rows_of (found_of matches.now))) }
{
    Job::Run {
        words: is_set(matches, "words"),
        batch: is_set(matches, "batch"),
    }
}

/// The job of `compact` with these matches.
fn compact_job(alloc: Global, matches: &ArgMatches<'_>) -> Result<Job, AllocError>
    ensures { IfOk result (λ job. job ≡ Job.Compact (directory_in (rows_of (found_of matches.now)))) }
{
    let directory = word_of(alloc, matches, "directory")?;
    Ok(Job::Compact { directory })
}

/// The job of `repair` with these matches.
fn repair_job(alloc: Global, matches: &ArgMatches<'_>) -> Result<Job, AllocError>
    ensures { IfOk result (λ job. job ≡ Job.Repair (directory_in (rows_of (found_of matches.now)))
        (is_set (codes "yes") (rows_of (found_of matches.now)))
        (is_set (codes "drop-later") (rows_of (found_of matches.now)))) }
{
    let sure = is_set(matches, "yes");
    let drop_later = is_set(matches, "drop-later");
    let directory = word_of(alloc, matches, "directory")?;
    Ok(Job::Repair {
        directory,
        sure,
        drop_later,
    })
}

/// The job of `journal` with these matches.
fn journal_job(alloc: Global, matches: &ArgMatches<'_>) -> Result<Job, AllocError>
    ensures { IfOk result (λ job. job ≡ Job.Journal (directory_in (rows_of (found_of matches.now)))
        (first_of (codes "tenant") (rows_of (found_of matches.now)))
        (is_set (codes "new") (rows_of (found_of matches.now)))
        (is_set (codes "check") (rows_of (found_of matches.now)))) }
{
    let new = is_set(matches, "new");
    let check = is_set(matches, "check");
    let directory = word_of(alloc, matches, "directory")?;
    let tenant = word_given(alloc, matches, "tenant")?;
    Ok(Job::Journal {
        directory,
        tenant,
        new,
        check,
    })
}

/// The job of a subcommand with this name and these matches.
fn job_of(alloc: Global, name: &str, matches: &ArgMatches<'_>) -> Result<Job, AllocError>
    ensures { IfOk result (λ job. job ≡ job_at name.now (rows_of (found_of matches.now))) }
{
    if name == "run" {
        return Ok(run_job(matches));
    }
    if name == "compact" {
        return compact_job(alloc, matches);
    }
    if name == "repair" {
        return repair_job(alloc, matches);
    }
    if name == "journal" {
        return journal_job(alloc, matches);
    }
    served(alloc, matches)
}

/// What is wrong with `--sync`, if it is given. `clap` does not see it.
fn sync_fault(matches: &ArgMatches<'_>) -> Option<&'static str>
    ensures none { result ≡ None → sync_fault (rows_of (found_of matches.now)) ≡ [] }
    ensures some { IfSome result (λ text.
        (sync_fault (rows_of (found_of matches.now)) ≡ ErrorKind.ValueValidation ∷ [])
        ⊎ (sync_fault (rows_of (found_of matches.now)) ≡ ErrorKind.MissingRequiredArgument ∷ [])) }
{
    let text = text_of(matches, "sync")?;
    if sync_in(text).is_none() {
        return Some(NO_SYNC);
    }
    match text_of(matches, "journal") {
        Some(_) => None,
        None => Some(NO_JOURNAL),
    }
}

/// What is wrong with `--segment`, if it is given. `clap` does not see it.
fn segment_fault(matches: &ArgMatches<'_>) -> Option<&'static str>
    ensures none { result ≡ None → segment_fault (rows_of (found_of matches.now)) ≡ [] }
    ensures some { IfSome result (λ text.
        segment_fault (rows_of (found_of matches.now)) ≡ ErrorKind.MissingRequiredArgument ∷ []) }
{
    if text_of(matches, "segment").is_some() && text_of(matches, "journal").is_none() {
        return Some(NO_SEGMENT);
    }
    None
}

/// What is wrong with `--new-journal`, if it is given. `clap` does not see it.
fn new_fault(matches: &ArgMatches<'_>) -> Option<&'static str>
    ensures none { result ≡ None → new_fault (rows_of (found_of matches.now)) ≡ [] }
    ensures some { IfSome result (λ text.
        new_fault (rows_of (found_of matches.now)) ≡ ErrorKind.MissingRequiredArgument ∷ []) }
{
    if is_set(matches, "new-journal") && text_of(matches, "journal").is_none() {
        return Some(NO_NEW_JOURNAL);
    }
    None
}

/// Whether two or more of these hold.
fn are_two(a: bool, b: bool, c: bool) -> bool
    ensures { result ≡ are_two a b c }
{
    (a && b) || (a && c) || (b && c)
}

/// What is wrong with `--tenant`, `--new` and `--check`, if two of them are given. `clap` does not see
/// it.
fn two_fault(matches: &ArgMatches<'_>) -> Option<&'static str>
    ensures none { result ≡ None → two_fault (rows_of (found_of matches.now)) ≡ [] }
    ensures some { IfSome result (λ text.
        two_fault (rows_of (found_of matches.now)) ≡ ErrorKind.ArgumentConflict ∷ []) }
{
    let prints = text_of(matches, "tenant").is_some();
    if are_two(prints, is_set(matches, "new"), is_set(matches, "check")) {
        return Some(TWO_ASKED);
    }
    None
}

/// What is wrong with an option that `clap` does not see.
fn option_fault(matches: &ArgMatches<'_>) -> Option<&'static str>
    ensures none { result ≡ None → option_fault (rows_of (found_of matches.now)) ≡ [] }
    ensures some { IfSome result (λ text. IsOptionFault (option_fault (rows_of (found_of matches.now)))) }
{
    if let Some(text) = sync_fault(matches) {
        return Some(text);
    }
    if let Some(text) = segment_fault(matches) {
        return Some(text);
    }
    if let Some(text) = new_fault(matches) {
        return Some(text);
    }
    two_fault(matches)
}

/// A usage text.
fn usage(alloc: Global, text: &str) -> Refusal
    ensures { IsUsage result }
{
    match String::from_str(alloc, text) {
        Ok(text) => Refusal::Usage(text),
        Err(_) => Refusal::Memory,
    }
}

/// The refusal for an error of `clap`.
fn refusal_of(alloc: Global, e: &clap::Error) -> Refusal
    ensures memory { kind_of e.now ≡ ErrorKind.OutOfMemory → result ≡ Refusal.Memory }
    ensures kind { StopsBy (kind_of e.now ∷ []) result }
{
    if e.kind() == ErrorKind::OutOfMemory {
        return Refusal::Memory;
    }
    match e.to_string(alloc) {
        Ok(text) => {
            if e.use_stderr() {
                Refusal::Usage(text)
            } else {
                Refusal::Help(text)
            }
        }
        Err(_) => Refusal::Memory,
    }
}

/// The job of a subcommand with this name and these matches, or what is wrong with it.
fn obtain(alloc: Global, name: &str, matches: &ArgMatches<'_>) -> Result<Job, Refusal>
    ensures job { IfOk result (λ job. job ≡ job_at name.now (rows_of (found_of matches.now))) }
    ensures faultless { OnOk result (option_fault (rows_of (found_of matches.now)) ≡ []) }
    ensures refused { IfErr result (StopsBy (option_fault (rows_of (found_of matches.now)))) }
    ensures taken { IfErr result (λ why. option_fault (rows_of (found_of matches.now)) ≡ []
        → why ≡ Refusal.Memory) }
{
    if let Some(text) = option_fault(matches) {
        return Err(usage(alloc, text));
    }
    job_of(alloc, name, matches).map_err(|_| Refusal::Memory)
}

/// Reads the words of a command line, without the program's name.
///
/// Returns the job that the words ask for. If they ask for a job, the only refusal is `Memory`.
/// Help and the version are `Help`, and everything else is `Usage`.
pub fn parse_words(alloc: Global, words: &[String]) -> Result<Job, Refusal>
    ensures job { IfOk result (λ job.
        job_of (subcommand_of judyd_app (map (λ w. string_bytes w) words.now)) ≡ Some job) }
    ensures range { IfOk result IsInRange }
    ensures faultless { OnOk result (words_fault (map (λ w. string_bytes w) words.now) ≡ []) }
    ensures refused { IfErr result (StopsBy (words_fault (map (λ w. string_bytes w) words.now))) }
    ensures taken { IfErr result (λ why. takes judyd_app (map (λ w. string_bytes w) words.now) ≡ true
        → option_fault_of (subcommand_of judyd_app (map (λ w. string_bytes w) words.now)) ≡ []
        → why ≡ Refusal.Memory) }
{
    let command = match judyd_command(alloc) {
        Ok(command) => command,
        Err(_) => return Err(Refusal::Memory),
    };
    match command.try_get_matches_from(words) {
        Ok(matches) => {
            let (name, inner) = matches.subcommand().unwrap();
            match obtain(alloc, name, inner) {
                Ok(job) => Ok(job),
                Err(refusal) => Err(refusal),
            }
        }
        Err(e) => Err(refusal_of(alloc, &e)),
    }
}

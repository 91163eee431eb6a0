//! The command line, as it is given to `clap`.
ghost use Rattle.std.specs.Prelude.{◌≡◌, false, true, IfOk};
ghost use Rattle.clap.specs.Words.{App, Rule, app_of, new_app, rule_of, with_rule, with_subcommand};
ghost use Rattle.clap.specs.declared.builder.Command.TheViews.{out-Command as fields_of};
ghost use Rattle.judy_command.specs.CommandLine.{bare_app, clients_rule, compact_app, connections_rule, flag_rule, repair_app};
ghost use Rattle.judy_command.specs.CommandLine.{journal_app, judyd_app, limited_rule, login_rule, needed_rule, number_rule, placed_rule};
ghost use Rattle.judy_command.specs.CommandLine.{reserve_rule, run_app, segment_rule, serve_app, share_rule, tenant_clients_rule, valued_rule};
ghost use Rattle.judy_command.specs.CommandLine.{with_clients, with_journal, with_limits, with_places, with_times};

use clap::{Arg, ArgAction, Command};
use std::alloc::{AllocError, Global};

/// The version of the program.
pub const VERSION: &str = "1.0.0";

/// The text below the help of `run`.
const RUN_EXAMPLES: &str = "Examples:
  judyd run < samples/first.txt
  (cat samples/tenants.toml; echo ---; echo 'AUTH alice abc'; echo 'J1S a 5') | judyd run --words

Statuses: 0 at the end of the requests or after QUIT; 2 for a wrong command line; 3 for a wrong table;
4 if memory, a read or a write fails. Standard error says which.";

/// The text below the help of `serve`.
const SERVE_EXAMPLES: &str = "Examples:
  judyd serve --config samples/tenants.toml --socket judyd.sock
  judyd serve --config samples/tenants.toml --socket judyd.sock --connections 1
  judyd journal /var/lib/judyd/journal --new
  judyd serve --config samples/tenants.toml --socket judyd.sock --journal /var/lib/judyd/journal

A session with it:
  printf 'AUTH alice abc\\nJ1S a 5\\nQUIT\\n' | nc -U judyd.sock

Statuses: 0 when it was asked to stop, or N connections were served; 1 if the journal can't be written;
2 for a wrong command line; 3 for a wrong table or journal; 4 if memory, the table's file or a socket
fails. Standard error says which.";

/// The help of the options of `serve`.
const CONFIG_HELP: &str = "The file with the table of tenants";

const SOCKET_HELP: &str = "Where the Unix socket is made; nothing may stand there yet";

const STATUS_HELP: &str = "Where a second Unix socket is made, for STATUS and GET /metrics";

const CONTROL_HELP: &str =
    "Where a third Unix socket is made, for RELOAD, FREEZE, THAW, KICK and STOP";

const CLIENTS_HELP: &str = "How many clients to serve at once, 1 to 1024; others wait";

const TENANT_CLIENTS_HELP: &str =
    "Refuse a log-in beyond N connections of one tenant, 1 to 1024, with ERR CLIENTS";

const SHARE_HELP: &str =
    "How many clients of one tenant are heard in a round, 1 to 1024; the others wait";

const CONNECTIONS_HELP: &str = "How many connections to serve before it ends";

const LOGIN_HELP: &str = "Close a connection on which nobody is logged in after so long";

const IDLE_HELP: &str = "Close a client that sends no byte and takes none for so long";

const TURN_HELP: &str = "Close a connection that has lasted so long";

const RESERVE_HELP: &str = "Take MB times 1,048,576 bytes for the arrays before the socket is made";

const CHECK_HELP: &str =
    "Read the table, and the journal if there is one, tell the fault, and serve nothing";

const JOURNAL_HELP: &str = "The directory of the journal: what was answered is there after a crash";

const SYNC_HELP: &str =
    "When the journal is secured: round (before each answer), never, or a number of seconds";

const SEGMENT_HELP: &str =
    "The size of a file of the journal, MB times 1,048,576 bytes, 1 to 1024; 64 by default";

const NEW_JOURNAL_HELP: &str =
    "Begin a new journal: its directory must have no manifest yet, and gets one";

const DIRECTORY_HELP: &str = "The directory of the journal";

const TENANT_HELP: &str = "Print only the requests of this tenant, without its name";

const NEW_HELP: &str = "Make the manifest of a new journal, or of one of an older version";

const YES_HELP: &str = "Do it: without this nothing is changed";

const DROP_LATER_HELP: &str = "Also where segments follow the damaged one: they go too";

const CHECK_JOURNAL_HELP: &str = "Tell what a start would find, and change nothing";

/// The text below the help of `compact`.
const COMPACT_EXAMPLES: &str = "Examples:
  judyd compact /var/lib/judyd/journal

All files of the journal but the last one become one, in which each entry is written once. A server
may use the directory meanwhile.

Statuses: 0 when it is done; 2 for a wrong command line; 3 if the journal is refused, which stays as it
was; 4 without memory or random bytes. Standard error says which.";

/// The text below the help of `repair`.
const REPAIR_EXAMPLES: &str = "Examples:
  judyd repair /var/lib/judyd/journal
  judyd repair /var/lib/judyd/journal --yes

Without --yes it tells the damage that a start finds, and how many bytes would go, and changes nothing.
With it the last segment is cut at the damage, and what goes is kept in a file NUMBER.torn. No server may
have the directory.

Statuses: 0 if nothing is damaged, or it is repaired; 1 if something would go; 2 for a wrong command line;
3 if the journal is refused, which stays as it was; 4 if memory or a write fails. Standard error says which.";

/// The text below the help of `journal`.
const PRINT_EXAMPLES: &str = "Examples:
  judyd journal /var/lib/judyd/journal --new
  judyd journal /var/lib/judyd/journal
  (echo 'AUTH alice abc'; judyd journal /var/lib/judyd/journal --tenant alice; echo QUIT) | nc -U judyd.sock

A server may use the directory meanwhile, but not for --new: that makes the manifest of an empty
directory, or of one with a journal that is whole and has none. A start without a manifest is refused.

Statuses: 0 when it is done; 2 for a wrong command line; 3 if the journal is refused; 4 if memory or a
write fails. Standard error says which.";

/// The text below the help.
const EXAMPLES: &str = "Examples:
  judyd run < samples/first.txt
  judyd serve --config samples/tenants.toml --socket judyd.sock

A table of tenants is TOML, one table a tenant:
  [alice]
  sha256 = \"..\"       # the token's digest, as by: printf %s TOKEN | sha256sum
  quota = 1000        # the most entries that the tenant may have

Statuses: 0 done, 1 the journal can't be written, 2 a wrong command line, 3 a wrong table or journal,
4 the system refuses something. `judyd COMMAND --help` and man judyd say more.";

/// `--NAME`, an optional flag.
fn flag<'a>(alloc: Global, name: &'a str, help: &'a str) -> Arg<'a>
    ensures rule { rule_of result ≡ flag_rule name.entry.now }
    ensures local { result.global ≡ false }
{
    Arg::new(alloc, name)
        .long(name)
        .action(ArgAction::SetTrue)
        .help(help)
}

/// `--NAME VALUE`.
fn valued<'a>(alloc: Global, name: &'a str, value: &'a str, help: &'a str) -> Arg<'a>
    ensures rule { rule_of result ≡ valued_rule name.entry.now }
    ensures local { result.global ≡ false }
{
    Arg::new(alloc, name)
        .long(name)
        .action(ArgAction::Set)
        .value_name(value)
        .help(help)
}

/// `--NAME VALUE`, which must be given.
fn needed<'a>(alloc: Global, name: &'a str, value: &'a str, help: &'a str) -> Arg<'a>
    ensures rule { rule_of result ≡ needed_rule name.entry.now }
    ensures local { result.global ≡ false }
{
    valued(alloc, name, value, help).required(true)
}

/// `--NAME VALUE`, a number from 1 to 4294967295.
fn numbered<'a>(alloc: Global, name: &'a str, value: &'a str, help: &'a str) -> Arg<'a>
    ensures rule { rule_of result ≡ number_rule name.entry.now }
    ensures local { result.global ≡ false }
{
    valued(alloc, name, value, help).value_parser(clap::value_parser!(u32).range(1..))
}

/// `--NAME VALUE`, a number from 1 to 1024.
fn limited<'a>(alloc: Global, name: &'a str, value: &'a str, help: &'a str) -> Arg<'a>
    ensures rule { rule_of result ≡ limited_rule name.entry.now }
    ensures local { result.global ≡ false }
{
    valued(alloc, name, value, help).value_parser(clap::value_parser!(u32).range(1..1025))
}

/// `--reserve MB`, a number from 1 to 131072: an arena has at most 2^37 bytes.
fn reserve<'a>(alloc: Global) -> Arg<'a>
    ensures rule { rule_of result ≡ reserve_rule }
    ensures local { result.global ≡ false }
{
    valued(alloc, "reserve", "MB", RESERVE_HELP).value_parser(clap::value_parser!(u32).range(
        1..131_073,
    ))
}

/// `--clients N`; the default is 64.
fn clients<'a>(alloc: Global) -> Arg<'a>
    ensures rule { rule_of result ≡ clients_rule }
    ensures local { result.global ≡ false }
{
    limited(alloc, "clients", "N", CLIENTS_HELP).default_value("64")
}

/// `--tenant-clients N`.
fn tenant_clients<'a>(alloc: Global) -> Arg<'a>
    ensures rule { rule_of result ≡ tenant_clients_rule }
    ensures local { result.global ≡ false }
{
    limited(alloc, "tenant-clients", "N", TENANT_CLIENTS_HELP)
}

/// `--share N`; the default is 8.
fn share<'a>(alloc: Global) -> Arg<'a>
    ensures rule { rule_of result ≡ share_rule }
    ensures local { result.global ≡ false }
{
    limited(alloc, "share", "N", SHARE_HELP).default_value("8")
}

/// `--segment MB`; 64 if it is not given.
fn segment<'a>(alloc: Global) -> Arg<'a>
    ensures rule { rule_of result ≡ segment_rule }
    ensures local { result.global ≡ false }
{
    limited(alloc, "segment", "MB", SEGMENT_HELP)
}

/// `--connections N`; the default is the greatest number.
fn connections<'a>(alloc: Global) -> Arg<'a>
    ensures rule { rule_of result ≡ connections_rule }
    ensures local { result.global ≡ false }
{
    numbered(alloc, "connections", "N", CONNECTIONS_HELP).default_value("4294967295")
}

/// `--login SECONDS`; the default is 10.
fn login<'a>(alloc: Global) -> Arg<'a>
    ensures rule { rule_of result ≡ login_rule }
    ensures local { result.global ≡ false }
{
    numbered(alloc, "login", "SECONDS", LOGIN_HELP).default_value("10")
}

/// A value that must be given, without the argument's name.
fn placed<'a>(alloc: Global, name: &'a str, value: &'a str, help: &'a str) -> Arg<'a>
    ensures rule { rule_of result ≡ placed_rule name.entry.now }
    ensures local { result.global ≡ false }
{
    Arg::new(alloc, name)
        .required(true)
        .action(ArgAction::Set)
        .value_name(value)
        .help(help)
}

/// A command with its purpose and the text below its help.
fn described<'a>(alloc: Global, name: &'a str, about: &'a str, examples: &'a str) -> Command<'a>
    ensures app { app_of result ≡ new_app name.entry.now }
    ensures local { (fields_of result).has_globals ≡ false }
{
    Command::new(alloc, name).about(about).after_help(examples)
}

/// A command with its purpose, its usage and the text below its help.
fn used<'a>(
    alloc: Global,
    name: &'a str,
    about: &'a str,
    usage: &'a str,
    examples: &'a str,
) -> Command<'a>
    ensures app { app_of result ≡ new_app name.entry.now }
    ensures local { (fields_of result).has_globals ≡ false }
{
    described(alloc, name, about, examples).override_usage(usage)
}

/// A command, if there is memory for it.
type Made<'a> = Result<Command<'a>, AllocError>;

/// A command with one more argument.
fn with<'a>(command: Made<'a>, arg: Arg<'a>) -> Made<'a>
    requires local { IfOk command (λ c. (fields_of c).has_globals ≡ false) }
    requires own { arg.global ≡ false }
    ensures app { (a : App) → (r : Rule) → IfOk command.entry (λ c. app_of c ≡ a)
        → rule_of arg.entry ≡ r → IfOk result (λ c. app_of c ≡ with_rule a r) }
    ensures local { IfOk result (λ c. (fields_of c).has_globals ≡ false) }
{
    command?.arg(arg)
}

/// `run [--words] [--batch]`.
fn run_command<'a>(alloc: Global) -> Made<'a>
    ensures app { IfOk result (λ c. app_of c ≡ run_app) }
    ensures local { IfOk result (λ c. (fields_of c).has_globals ≡ false) }
{
    let about =
        "Serves one script from standard input: a table of tenants, a line ---, and then requests";
    let command = used(alloc, "run", about, "judyd run [OPTIONS]", RUN_EXAMPLES);
    let words = "At the end, write a last line WORDS n: the words of memory that all arrays hold";
    let batch = "Write the replies to all requests of a read at once, not each reply alone";
    let command = with(Ok(command), flag(alloc, "words", words));
    with(command, flag(alloc, "batch", batch))
}

/// A command with the options for the table of tenants and the sockets.
fn with_places<'a>(alloc: Global, command: Made<'a>) -> Made<'a>
    requires local { IfOk command (λ c. (fields_of c).has_globals ≡ false) }
    ensures app { (a : App) → IfOk command.entry (λ c. app_of c ≡ a)
        → IfOk result (λ c. app_of c ≡ with_places a) }
    ensures local { IfOk result (λ c. (fields_of c).has_globals ≡ false) }
{
    let command = with(command, needed(alloc, "config", "FILE", CONFIG_HELP));
    let command = with(command, needed(alloc, "socket", "PATH", SOCKET_HELP));
    let command = with(command, valued(alloc, "status", "PATH", STATUS_HELP));
    with(command, valued(alloc, "control", "PATH", CONTROL_HELP))
}

/// A command with the options for the limits of time.
fn with_times<'a>(alloc: Global, command: Made<'a>) -> Made<'a>
    requires local { IfOk command (λ c. (fields_of c).has_globals ≡ false) }
    ensures app { (a : App) → IfOk command.entry (λ c. app_of c ≡ a)
        → IfOk result (λ c. app_of c ≡ with_times a) }
    ensures local { IfOk result (λ c. (fields_of c).has_globals ≡ false) }
{
    let command = with(command, login(alloc));
    let command = with(command, numbered(alloc, "idle", "SECONDS", IDLE_HELP));
    with(command, numbered(alloc, "turn", "SECONDS", TURN_HELP))
}

/// A command with the options for the numbers of clients.
fn with_clients<'a>(alloc: Global, command: Made<'a>) -> Made<'a>
    requires local { IfOk command (λ c. (fields_of c).has_globals ≡ false) }
    ensures app { (a : App) → IfOk command.entry (λ c. app_of c ≡ a)
        → IfOk result (λ c. app_of c ≡ with_clients a) }
    ensures local { IfOk result (λ c. (fields_of c).has_globals ≡ false) }
{
    let command = with(command, clients(alloc));
    let command = with(command, tenant_clients(alloc));
    with(command, share(alloc))
}

/// A command with the options for the limits of connections.
fn with_limits<'a>(alloc: Global, command: Made<'a>) -> Made<'a>
    requires local { IfOk command (λ c. (fields_of c).has_globals ≡ false) }
    ensures app { (a : App) → IfOk command.entry (λ c. app_of c ≡ a)
        → IfOk result (λ c. app_of c ≡ with_limits a) }
    ensures local { IfOk result (λ c. (fields_of c).has_globals ≡ false) }
{
    let command = with_clients(alloc, command);
    let command = with(command, connections(alloc));
    with_times(alloc, command)
}

/// A command with the options for the journal.
fn with_journal<'a>(alloc: Global, command: Made<'a>) -> Made<'a>
    requires local { IfOk command (λ c. (fields_of c).has_globals ≡ false) }
    ensures app { (a : App) → IfOk command.entry (λ c. app_of c ≡ a)
        → IfOk result (λ c. app_of c ≡ with_journal a) }
    ensures local { IfOk result (λ c. (fields_of c).has_globals ≡ false) }
{
    let command = with(command, valued(alloc, "journal", "DIR", JOURNAL_HELP));
    let command = with(command, valued(alloc, "sync", "WHEN", SYNC_HELP));
    let command = with(command, segment(alloc));
    with(command, flag(alloc, "new-journal", NEW_JOURNAL_HELP))
}

/// `serve` with its options.
fn serve_command<'a>(alloc: Global) -> Made<'a>
    ensures app { IfOk result (λ c. app_of c ≡ serve_app) }
    ensures local { IfOk result (λ c. (fields_of c).has_globals ≡ false) }
{
    let about = "Serves clients of a Unix socket, many at once";
    let usage = "judyd serve [OPTIONS] --config <FILE> --socket <PATH>";
    let command = used(alloc, "serve", about, usage, SERVE_EXAMPLES);
    let command = with_places(alloc, Ok(command));
    let command = with_limits(alloc, command);
    let command = with(command, reserve(alloc));
    let command = with_journal(alloc, command);
    with(command, flag(alloc, "check", CHECK_HELP))
}

/// `compact DIR`.
fn compact_command<'a>(alloc: Global) -> Made<'a>
    ensures app { IfOk result (λ c. app_of c ≡ compact_app) }
    ensures local { IfOk result (λ c. (fields_of c).has_globals ≡ false) }
{
    let about = "Makes the files of a journal smaller";
    let command = used(
        alloc,
        "compact",
        about,
        "judyd compact <DIR>",
        COMPACT_EXAMPLES,
    );
    with(
        Ok(command),
        placed(alloc, "directory", "DIR", DIRECTORY_HELP),
    )
}

/// `repair DIR [--yes] [--drop-later]`.
fn repair_command<'a>(alloc: Global) -> Made<'a>
    ensures app { IfOk result (λ c. app_of c ≡ repair_app) }
    ensures local { IfOk result (λ c. (fields_of c).has_globals ≡ false) }
{
    let about = "Cuts off the damage of a journal, and keeps what goes beside";
    let usage = "judyd repair [OPTIONS] <DIR>";
    let command = used(alloc, "repair", about, usage, REPAIR_EXAMPLES);
    let command = with(
        Ok(command),
        placed(alloc, "directory", "DIR", DIRECTORY_HELP),
    );
    let command = with(command, flag(alloc, "yes", YES_HELP));
    with(command, flag(alloc, "drop-later", DROP_LATER_HELP))
}

/// `journal DIR [--tenant NAME] [--new] [--check]`.
fn journal_command<'a>(alloc: Global) -> Made<'a>
    ensures app { IfOk result (λ c. app_of c ≡ journal_app) }
    ensures local { IfOk result (λ c. (fields_of c).has_globals ≡ false) }
{
    let about = "Prints the requests of a journal, begins a new one, or checks one";
    let usage = "judyd journal [OPTIONS] <DIR>";
    let command = used(alloc, "journal", about, usage, PRINT_EXAMPLES);
    let command = with(
        Ok(command),
        placed(alloc, "directory", "DIR", DIRECTORY_HELP),
    );
    let command = with(command, valued(alloc, "tenant", "NAME", TENANT_HELP));
    let command = with(command, flag(alloc, "new", NEW_HELP));
    with(command, flag(alloc, "check", CHECK_JOURNAL_HELP))
}

/// A command with one more command below it.
fn below<'a>(command: Made<'a>, inner: Made<'a>) -> Made<'a>
    requires local { IfOk command (λ c. (fields_of c).has_globals ≡ false) }
    requires own { IfOk inner (λ c. (fields_of c).has_globals ≡ false) }
    requires required { IfOk command (λ c. (fields_of c).subcommand_required ≡ true) }
    ensures app { (a : App) → (b : App) → IfOk command.entry (λ c. app_of c ≡ a)
        → IfOk inner.entry (λ c. app_of c ≡ b)
        → IfOk result (λ c. app_of c ≡ with_subcommand a b.top) }
    ensures local { IfOk result (λ c. (fields_of c).has_globals ≡ false) }
    ensures required { IfOk result (λ c. (fields_of c).subcommand_required ≡ true) }
{
    let inner = inner?;
    command?.subcommand(inner)
}

/// The command line without its commands.
fn bare_command<'a>(alloc: Global) -> Command<'a>
    ensures app { app_of result ≡ bare_app }
    ensures local { (fields_of result).has_globals ≡ false }
    ensures required { (fields_of result).subcommand_required ≡ true }
{
    let about = "Judy arrays for many tenants, behind a line protocol";
    described(alloc, "judyd", about, EXAMPLES)
        .version(VERSION)
        .no_binary_name(true)
        .subcommand_required(true)
}

/// The whole command line, without the program's name.
pub fn judyd_command<'a>(alloc: Global) -> Result<Command<'a>, AllocError>
    ensures app { IfOk result (λ c. app_of c ≡ judyd_app) }
    ensures local { IfOk result (λ c. (fields_of c).has_globals ≡ false) }
    ensures required { IfOk result (λ c. (fields_of c).subcommand_required ≡ true) }
{
    let command = below(Ok(bare_command(alloc)), run_command(alloc));
    let command = below(command, serve_command(alloc));
    let command = below(command, compact_command(alloc));
    let command = below(command, repair_command(alloc));
    below(command, journal_command(alloc))
}

//! The status of the program, and its line on standard error.
ghost use Rattle.std.specs.Prelude.{◌≡◌, option_map};
ghost use Rattle.judy_programs.specs.Finish.{fault_name, fault_text, host_status, host_text, run_status, run_text};

use crate::program::Ran;
use crate::socket::Hosted;
use judy_protocol::End;
use judy_table::TableFault;

/// The name of a fault of the table.
pub fn fault_name(fault: TableFault) -> &'static str
    ensures { result.now ≡ fault_name fault }
{
    match fault {
        TableFault::Memory => "Memory",
        TableFault::Toml => "Toml",
        TableFault::Shape => "Shape",
        TableFault::Count => "Count",
        TableFault::Name => "Name",
        TableFault::Digest => "Digest",
        TableFault::Quota => "Quota",
        TableFault::Pieces => "Pieces",
    }
}

/// The line for a fault of the table.
fn table_text(fault: TableFault) -> &'static str
    ensures { result.now ≡ fault_text fault }
{
    match fault {
        TableFault::Memory => "judyd: table: Memory",
        TableFault::Toml => "judyd: table: Toml",
        TableFault::Shape => "judyd: table: Shape",
        TableFault::Count => "judyd: table: Count",
        TableFault::Name => "judyd: table: Name",
        TableFault::Digest => "judyd: table: Digest",
        TableFault::Quota => "judyd: table: Quota",
        TableFault::Pieces => "judyd: table: Pieces",
    }
}

/// The status, and the line on standard error, for a script that was served and ended like this.
fn finish_served(end: End) -> (u8, Option<&'static str>)
    ensures status { result.0 ≡ run_status (Ran.Served end) }
    ensures text { option_map (λ s. s.now) result.1 ≡ run_text (Ran.Served end) }
{
    match end {
        End::Quit => (0, None),
        End::End => (0, None),
        End::ReadFault => (4, Some("judyd: read fault")),
        End::WriteFault => (4, Some("judyd: write fault")),
        End::Limit => (4, Some("judyd: read limit")),
    }
}

/// The status of `judyd run`, and the line on standard error, if any, without its line feed.
pub fn finish(ran: Ran) -> (u8, Option<&'static str>)
    ensures status { result.0 ≡ run_status ran }
    ensures text { option_map (λ s. s.now) result.1 ≡ run_text ran }
{
    match ran {
        Ran::Served(end) => finish_served(end),
        Ran::Table(fault) => (3, Some(table_text(fault))),
        Ran::Cut => (3, Some("judyd: table: Cut")),
        Ran::Long => (3, Some("judyd: table: Long")),
        Ran::Memory => (4, Some("judyd: memory")),
        Ran::Read => (4, Some("judyd: read fault")),
        Ran::Write => (4, Some("judyd: write fault")),
    }
}

/// The status of `judyd serve`, and the line on standard error, if any, without its line feed.
pub fn finish_hosted(hosted: Hosted) -> (u8, Option<&'static str>)
    ensures status { result.0 ≡ host_status hosted }
    ensures text { option_map (λ s. s.now) result.1 ≡ host_text hosted }
{
    match hosted {
        Hosted::Done => (0, None),
        Hosted::Stopped => (0, None),
        Hosted::Config => (4, Some("judyd: config fault")),
        Hosted::Long => (3, Some("judyd: table: Long")),
        Hosted::Table(fault) => (3, Some(table_text(fault))),
        Hosted::Memory => (4, Some("judyd: memory")),
        Hosted::Reserve => (4, Some("judyd: memory: no memory for --reserve")),
        Hosted::Socket => (4, Some("judyd: socket fault")),
        Hosted::Recovery => (3, None),
        Hosted::Journal => (1, Some("judyd: journal fault")),
    }
}

//! What a line can ask for: the names, and the place of each call's name.
ghost use Rattle.std.specs.Prelude.{◌≡◌, ◌<◌, Some, slice_get};
ghost use Rattle.judy_server.specs.Tally.{call_names, place_of_call, reply_kinds, whole_place};

use crate::tally::CALLS;
use judy_model::{COMMANDS, Call, command_word};

/// The place of `PING`, after those of the commands.
pub const PING: usize = COMMANDS + 3;

/// The place of `HELLO`.
pub const HELLO: usize = COMMANDS + 4;

/// The place of `NAMES`.
pub const NAMES: usize = COMMANDS + 5;

/// The place of a line that is no request.
pub const NO_REQUEST: usize = COMMANDS + 6;

/// What the lines at a place ask for: the command that a request begins with, or `none`.
#[tactic(auto, unfolding(crate::specs::Tally::call_names))]
pub fn call_name(place: usize) -> &'static str
    requires { place < CALLS }
    ensures { slice_get call_names place ≡ Some result.now }
{
    match place {
        0 => "AUTH",
        1 => "QUIT",
        2 => "USED",
        PING => "PING",
        HELLO => "HELLO",
        NAMES => "NAMES",
        NO_REQUEST => "none",
        _ => command_word(place - 3),
    }
}

/// The kind of the replies at a place: each refusal is one, and any other reply is `ok`.
#[tactic(auto, unfolding(crate::specs::Tally::reply_kinds))]
pub fn reply_kind(place: usize) -> &'static str
    requires { place < 10 }
    ensures { slice_get reply_kinds place ≡ Some result.now }
{
    match place {
        0 => "ok",
        1 => "full",
        2 => "memory",
        3 => "auth",
        4 => "readonly",
        5 => "syntax",
        6 => "long",
        7 => "clients",
        8 => "frozen",
        _ => "journal",
    }
}

/// The place of a call that names no array.
fn whole_place(call: &Call<'_>) -> usize
    ensures { result ≡ whole_place call.now }
{
    match call {
        Call::Names(..) => NAMES,
        _ => 2,
    }
}

/// The place of a call.
pub fn place_of_call(call: &Call<'_>) -> usize
    ensures { result ≡ place_of_call call.now }
{
    match call.command() {
        Some(command) => 3 + command.place(),
        None => whole_place(call),
    }
}

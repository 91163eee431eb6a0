//! What the bytes mean that come to a socket of the operator.
ghost use Rattle.std.specs.Prelude.{◌≡◌};
ghost use Rattle.judy_many.specs.Meanings.{HasMeaning, IsBare, command_meaning, is_word, status_meaning};

use crate::limits::QUESTION_LIMIT;
use crate::network::Question;
use crate::orders::is_order;
use judy_model::Name;
use judy_protocol::cut_line;

/// What a socket of the operator is for.
#[derive(Clone, Copy, Debug, PartialEq, Eq)]
pub enum Purpose {
    /// The numbers.
    Status,
    /// Commands.
    Control,
}

/// What the bytes of a question mean.
#[derive(Clone, Copy, Debug, PartialEq, Eq)]
pub enum Meaning {
    /// The question is not whole yet.
    Part,
    /// This.
    Asks(Question),
    /// The status, by HTTP.
    Page,
    /// Nothing that is known.
    Other,
    /// Nothing more: it sends no more, or a read failed.
    Gone,
}

/// A line without the carriage return at its end.
pub fn without_return(line: &[u8]) -> &[u8]
    ensures { IsBare line.now result.now }
{
    line.strip_suffix(b"\r".as_slice()).unwrap_or(line)
}

/// Whether a line is this word.
fn is_word(line: &[u8], word: &'static [u8]) -> bool
    ensures { result ≡ is_word line.now word.now }
{
    line == word
}

/// Whether the lines of an HTTP request end here: an empty line follows them.
fn has_end(text: &[u8]) -> bool {
    let mut rest = text;
    for _line in 0..QUESTION_LIMIT {
        let Some((line, after)) = cut_line(rest) else {
            return false;
        };
        if without_return(line).is_empty() {
            return true;
        }
        rest = after;
    }
    false
}

/// The tenant that a line of a command names, if it asks to close connections of one.
pub fn kicked(line: &[u8]) -> Option<Name> {
    Name::read(line.strip_prefix(b"KICK ".as_slice())?)
}

/// What the line of a command asks. `order` says whether it freezes or thaws a tenant, and `kicks` whether
/// it closes connections of one.
fn command_of(line: &[u8], order: bool, kicks: bool) -> Meaning
    ensures { result ≡ command_meaning line.now order kicks }
{
    if is_word(line, b"STOP") {
        return Meaning::Asks(Question::Stop);
    }
    if is_word(line, b"RELOAD") {
        return Meaning::Asks(Question::Reload);
    }
    if order {
        return Meaning::Asks(Question::Reload);
    }
    if kicks {
        return Meaning::Asks(Question::Kick);
    }
    Meaning::Other
}

/// What the line of a question for the status asks. `page` says whether it asks by HTTP, and `whole` whether that
/// request has come to its end.
fn status_of(line: &[u8], page: bool, whole: bool) -> Meaning
    ensures { result ≡ status_meaning line.now page whole }
{
    if is_word(line, b"STATUS") {
        return Meaning::Asks(Question::Status);
    }
    if !page {
        return Meaning::Other;
    }
    if whole { Meaning::Page } else { Meaning::Part }
}

/// What these bytes ask.
pub fn read_question(purpose: Purpose, asked: &[u8]) -> Meaning
    ensures { HasMeaning purpose asked.now result }
{
    let Some((line, rest)) = cut_line(asked) else {
        return Meaning::Part;
    };
    let line = without_return(line);
    match purpose {
        Purpose::Status => status_of(line, line.starts_with(b"GET /metrics "), has_end(rest)),
        Purpose::Control => command_of(line, is_order(line), kicked(line).is_some()),
    }
}

//! The requests that lines make.
use crate::calls::Call;
use crate::names::Name;
use crate::tokens::Token;

/// The most bytes of a line. A carriage return counts, the line feed does not.
pub const LINE_LIMIT: usize = 4096;

/// The request of one line.
#[derive(Debug, PartialEq, Eq, Drop)]
pub enum Line<'a> {
    /// A login (`AUTH`): the tenant's name and a token.
    Auth(Name, Token<'a>),
    /// `QUIT`: ends the connection.
    Quit,
    /// `PING`: asks whether the server answers.
    Ping,
    /// `HELLO`: asks for the version and the limits of the protocol.
    Hello,
    /// A call, made by the tenant that is logged in.
    Call(Call<'a>),
}

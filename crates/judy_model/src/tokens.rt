//! Tokens, which clients log in with.
ghost use Rattle.std.specs.Prelude.{◌≡◌, ◌≤◌, Some, nat_eq, length, if◌then◌else◌};
ghost use Rattle.std.specs.Cmp.{partial_equiv_from_equiv};
ghost use Rattle.std.specs.Cmp.Lexicographic.{pointwise, nat_list_eq_equiv};
ghost use Rattle.judy_model.specs.Grammar.{is_token};
ghost use Rattle.judy_model.specs.declared.names.TheConstants.{TOKEN_LIMIT};

use crate::grammar::token_ok;
use std::fmt;
use std::marker::Model;

/// A token: at most 128 bytes, which are borrowed. `Token::read` accepts only tokens of the
/// grammar.
#[derive(Drop)]
pub struct Token<'a> {
    bytes: &'a [u8],
}

impl<'a> Model for Token<'a> {
    ghost use Rattle.std.specs.Prelude.{ℕ, List, ◌≤◌, length};
    ghost use Rattle.judy_model.specs.declared.names.TheConstants.{TOKEN_LIMIT};

    ghost Value = { List ℕ };

    ghost view = { λ t. t.bytes.now };

    ghost invariant = { λ t. length t.bytes.now ≤ TOKEN_LIMIT };
}

impl<'a> Token<'a> {
    /// The token of these bytes: 1 to 128 bytes, each from 33 to 126. None for other bytes.
    pub fn read(bytes: &'a [u8]) -> Option<Token<'a>>
        ensures { result ≡ (if is_token bytes.now then Some bytes.now else None) }
    {
        if !token_ok(bytes) {
            return None;
        }
        Some(Token { bytes })
    }

    /// The bytes of the token.
    pub fn as_bytes(&self) -> &'a [u8]
        ensures value { result.now ≡ self.now }
        ensures fits { length result.now ≤ TOKEN_LIMIT }
    {
        self.bytes
    }
}

impl<'a> PartialEq for Token<'a> {
    ghost eq = { λ a b. pointwise nat_eq a b };

    ghost laws = { partial_equiv_from_equiv nat_list_eq_equiv };

    fn eq(&self, other: &Self) -> bool {
        self.bytes == other.bytes
    }
}

impl<'a> Eq for Token<'a> {
    ghost laws = { nat_list_eq_equiv };
}

/// Debug output hides the token.
impl<'a> fmt::Debug for Token<'a> {
    fn fmt<W: fmt::Write>(&self, f: &mut fmt::Formatter<W>) -> fmt::Result {
        f.write_str("Token")
    }
}

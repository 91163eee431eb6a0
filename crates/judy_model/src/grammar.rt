//! Tests of bytes against the grammar of a line.
ghost use Rattle.std.specs.Prelude.{◌≡◌, ◌&&◌, nat_le, nat_lt};
ghost use Rattle.std.specs.List.{list_all};
ghost use Rattle.judy_model.specs.Grammar.{is_name, is_name_byte, is_string as is_string_lem, is_token};

use crate::names::{KEY_LIMIT, NAME_LIMIT, TOKEN_LIMIT};

/// Whether the bytes are a name of a tenant or of an array: 1 to 32 bytes, each a letter, a digit,
/// `_`, `-` or `.`.
pub fn name_ok(bytes: &[u8]) -> bool
    ensures { result ≡ is_name bytes.now }
{
    !bytes.is_empty() && bytes.len() <= NAME_LIMIT && has_name_letters(bytes)
}

/// Whether each byte may be part of a name.
fn has_name_letters(bytes: &[u8]) -> bool
    ensures { result ≡ list_all is_name_byte bytes.now }
{
    bytes.iter().all(|b| is_name_letter(*b))
}

/// For each byte, whether it may be part of a name.
static NAME_LETTERS: [bool; 256] = [
    false, false, false, false, false, false, false, false, false, false, false, false, false,
    false, false, false, false, false, false, false, false, false, false, false, false, false,
    false, false, false, false, false, false, false, false, false, false, false, false, false,
    false, false, false, false, false, false, true, true, false, true, true, true, true, true,
    true, true, true, true, true, false, false, false, false, false, false, false, true, true,
    true, true, true, true, true, true, true, true, true, true, true, true, true, true, true, true,
    true, true, true, true, true, true, true, true, false, false, false, false, true, false, true,
    true, true, true, true, true, true, true, true, true, true, true, true, true, true, true, true,
    true, true, true, true, true, true, true, true, true, false, false, false, false, false, false,
    false, false, false, false, false, false, false, false, false, false, false, false, false,
    false, false, false, false, false, false, false, false, false, false, false, false, false,
    false, false, false, false, false, false, false, false, false, false, false, false, false,
    false, false, false, false, false, false, false, false, false, false, false, false, false,
    false, false, false, false, false, false, false, false, false, false, false, false, false,
    false, false, false, false, false, false, false, false, false, false, false, false, false,
    false, false, false, false, false, false, false, false, false, false, false, false, false,
    false, false, false, false, false, false, false, false, false, false, false, false, false,
    false, false, false, false, false, false, false, false, false, false, false, false, false,
    false, false, false, false, false, false, false, false, false, false,
];

/// Whether the byte may be part of a name: a letter, a digit, `_`, `-` or `.`.
pub fn is_name_letter(b: u8) -> bool
    ensures { result ≡ is_name_byte b }
{
    NAME_LETTERS[usize::from(b)]
}

/// Whether the bytes can be an index of a JudySL: at most 1,000 bytes, none of them 0.
pub fn is_string(bytes: &[u8]) -> bool
    ensures { result ≡ is_string_lem bytes.now }
{
    bytes.len() <= KEY_LIMIT && has_no_zero(bytes)
}

/// Whether no byte is 0.
fn has_no_zero(bytes: &[u8]) -> bool
    ensures { result ≡ list_all (λ b. nat_lt 0 b) bytes.now }
{
    bytes.iter().all(|b| *b > 0)
}

/// Whether the bytes can be a token: 1 to 128 bytes, each from 33 to 126.
pub fn token_ok(bytes: &[u8]) -> bool
    ensures { result ≡ is_token bytes.now }
{
    !bytes.is_empty() && bytes.len() <= TOKEN_LIMIT && has_printing_bytes(bytes)
}

/// Whether each byte is from 33 to 126.
fn has_printing_bytes(bytes: &[u8]) -> bool
    ensures { result ≡ list_all (λ b. nat_le 33 b && nat_le b 126) bytes.now }
{
    bytes.iter().all(|b| 33 <= *b && *b <= 126)
}

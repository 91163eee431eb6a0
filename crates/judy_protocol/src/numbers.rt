//! Reads the fields that write words and keys.
ghost use Rattle.std.specs.Prelude.{◌≡◌, ◌^◌, ◌%◌, ◌∷◌, ℕ, List, None, Some, true, MatchOption};
ghost use Rattle.std.specs.List.{list_all};
ghost use Rattle.std.specs.Str.Parse.{digits_value};
ghost use Rattle.judy_model.specs.Grammar.{fields_of, is_digit, key_of, number_of_field, string_of};
ghost use Rattle.judy_protocol.specs.Digits.{digits_of};

use crate::fields::{ends_field, next_field};
use core::dec2flt::read_digits;
use judy_model::{KEY_LIMIT, Key, is_string};

/// The word that digits write, if they are 1 to 20 and it is at most 18446744073709551615. `value` is
/// their number, wrapped to 64 bits. That of 20 digits fits if they begin with `0`, or if they begin with
/// `1` and wrapping leaves it at 10 ^ 19 or above.
#[inline(always)]
fn fitting(digits: &[u8], value: u64) -> Option<u64>
    requires digits { list_all is_digit digits.now ≡ true }
    requires value { value ≡ digits_value 10 digits.now % 2 ^ 64 }
    ensures { result ≡ digits_of digits.now }
{
    match digits.len() {
        1..=19 => Some(value),
        20 if digits[0] == b'0' => Some(value),
        20 if digits[0] == b'1' && value >= 10_000_000_000_000_000_000 => Some(value),
        _ => None,
    }
}

/// The word that a field writes: 1 to 20 digits, or `-1` for 18446744073709551615.
pub fn number(field: &[u8]) -> Option<u64>
    ensures { result ≡ number_of_field field.now }
{
    if field == b"-1".as_slice() {
        return Some(u64::MAX);
    }
    let (end, value) = read_digits(field, 0, 0);
    if end < field.len() {
        return None;
    }
    fitting(field, value)
}

/// The word that the first field of a text writes, and what comes after this field. Digits that begin
/// the text and end a field are read without a search for its end.
pub fn next_number(text: &[u8]) -> Option<(u64, &[u8])>
    ensures { MatchOption result
        ((field : List ℕ) (more : List (List ℕ)) → fields_of text.now ≡ field ∷ more
        → number_of_field field ≡ None)
        (λ r. (field : List ℕ) × (fields_of text.now ≡ field ∷ fields_of r.1.now)
        × (number_of_field field ≡ Some r.0)) }
{
    let (end, value) = read_digits(text, 0, 0);
    let (digits, after) = text.split_at(end);
    if end > 0 && ends_field(after) {
        return Some((fitting(digits, value)?, after));
    }
    let (field, after) = next_field(text)?;
    Some((number(field)?, after))
}

/// The key that a field writes: `x` and its bytes as pairs of hexadecimal digits. Its bytes are put
/// into the room.
pub fn key<'a>(field: &[u8], room: &'a mut [u8; KEY_LIMIT]) -> Option<Key<'a>>
    ensures { result ≡ key_of field.now }
{
    let [b'x', digits @ ..] = field else {
        return None;
    };
    let len = digits.len() / 2;
    if len > KEY_LIMIT {
        return None;
    }
    let bytes = &mut room[..len];
    hex::decode_to_slice(digits, bytes).ok()?;
    Key::read(bytes)
}

/// The same for a string, which has no byte 0.
pub fn string<'a>(field: &[u8], room: &'a mut [u8; KEY_LIMIT]) -> Option<Key<'a>>
    ensures { result ≡ string_of field.now }
{
    key(field, room).filter(|key| is_string(key.as_bytes()))
}

//! The arrays of a tenant, as the reply to `NAMES 1` tells the first.
ghost use Rattle.std.specs.Prelude.{◌≡◌};
ghost use Rattle.judy_model.specs.ArrayLists.{kind_named};
ghost use Rattle.judy_model.specs.Grammar.{fields_of};
ghost use Rattle.judy_upkeep.specs.Arrays.{array_at, array_in, listed_array};

use judy_model::{Kind, Name, Reply};
use judy_protocol::{next_field, next_number};
use judy_recovery::Reason;

/// An array of a tenant.
#[derive(Debug, Drop)]
pub struct Array {
    /// Its kind.
    pub kind: Kind,
    /// Its name.
    pub name: Name,
}

/// The kind that a word names.
fn kind_named(word: &[u8]) -> Option<Kind>
    ensures { result ≡ kind_named word.now }
{
    if word == b"J1".as_slice() {
        return Some(Kind::One);
    }
    if word == b"JL".as_slice() {
        return Some(Kind::Long);
    }
    if word == b"JSL".as_slice() {
        return Some(Kind::Str);
    }
    if word == b"JHS".as_slice() {
        return Some(Kind::Bytes);
    }
    None
}

/// The array that the text of a reply names: its kind, its name, and how many entries it has.
fn array_in(text: &[u8]) -> Option<Array>
    ensures { result ≡ array_in (fields_of text.now) }
{
    let (word, after_word) = next_field(text)?;
    let (name, after_name) = next_field(after_word)?;
    let (_, after_count) = next_number(after_name)?;
    if next_field(after_count).is_some() {
        return None;
    }
    Some(Array {
        kind: kind_named(word)?,
        name: Name::read(name)?,
    })
}

/// The array of a reply, by how many it has, and their text.
fn array_with(count: u16, text: &[u8]) -> Result<Option<Array>, Reason>
    ensures { result ≡ listed_array count (array_in (fields_of text.now)) }
{
    if count == 0 {
        return Ok(None);
    }
    match array_in(text) {
        Some(array) => Ok(Some(array)),
        None => Err(Reason::Record),
    }
}

/// The array that a reply names. None if there is none.
pub fn array_of(reply: &Reply<'_>) -> Result<Option<Array>, Reason>
    ensures { result ≡ array_at reply.now }
{
    match reply {
        Reply::Entries(count, text) => array_with(*count, text.as_bytes()),
        Reply::Memory => Err(Reason::Memory),
        _ => Err(Reason::Record),
    }
}

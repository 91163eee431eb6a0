//! The lines that ask for an entry of an array, or make it.
ghost use Rattle.std.specs.Prelude.{◌≡◌, ◌≤◌, ◌+◌, ◌++◌, codes, decimal, length};
ghost use Rattle.hex.specs.Hex.{encode_lower};
ghost use Rattle.judy_upkeep.specs.Lines.{call_text, from_first as from_first_lem, insertion_text, letters_of, look_text, next_text};

use crate::kinds::Array;
use arrayvec::ArrayVec;
use itoa::Buffer;
use judy_model::{KEY_LIMIT, Kind, LINE_LIMIT};

/// The most letters of a key, as a line has it: an `x`, and two digits for each byte.
pub const KEY_ROOM: usize = 2 * KEY_LIMIT + 1;

/// A line as it is made.
pub type Text = ArrayVec<u8, LINE_LIMIT>;

/// A key, as a line has it.
pub type KeyText = ArrayVec<u8, KEY_ROOM>;

/// Puts bytes behind others.
pub fn put<const N: usize>(line: &mut ArrayVec<u8, N>, bytes: &[u8])
    requires { length line.old.items + length bytes.now ≤ N }
    ensures { line.new.items ≡ line.old.items ++ bytes.now }
{
    let _fits = line.try_extend_from_slice(bytes);
}

/// Puts a number behind others.
fn put_number<const N: usize>(line: &mut ArrayVec<u8, N>, number: u64)
    requires { length line.old.items + 20 ≤ N }
    ensures { line.new.items ≡ line.old.items ++ decimal number }
{
    let mut digits = Buffer::new();
    put(line, digits.format(number).as_bytes());
}

/// The letters that the commands of a kind begin with.
fn letters(kind: Kind) -> &'static [u8]
    ensures letters { result.now ≡ letters_of kind }
    ensures few { length result.now ≤ 3 }
{
    match kind {
        Kind::One => b"J1",
        Kind::Long => b"JL",
        Kind::Str => b"JSL",
        Kind::Bytes => b"JHS",
    }
}

/// Makes the text of an index.
pub fn write_index(index: u64, text: &mut KeyText)
    ensures { text.new.items ≡ decimal index }
{
    text.clear();
    put_number(text, index);
}

/// Makes the text of a string or of a byte key.
pub fn write_key(key: &[u8], text: &mut KeyText)
    requires { length key.now ≤ KEY_LIMIT }
    ensures { text.new.items ≡ codes "x" ++ encode_lower key.now }
{
    text.clear();
    put(text, b"x");
    let len = 2 * key.len();
    let mut digits = [0u8; 2 * KEY_LIMIT];
    let _fits = hex::encode_to_slice(key, &mut digits[..len]);
    put(text, &digits[..len]);
}

/// What comes behind the name in the line that looks for the first entry: the least key of this kind. A map from
/// byte keys is asked for one entry.
pub fn from_first(kind: Kind) -> &'static [u8]
    ensures text { result.now ≡ from_first_lem kind }
    ensures short { length result.now ≤ KEY_ROOM }
{
    match kind {
        Kind::One => b"0",
        Kind::Long => b"0",
        Kind::Str => b"x",
        Kind::Bytes => b"1",
    }
}

/// Makes the line of an array with these letters for what it does.
pub fn write_call(array: &Array, does: &[u8], line: &mut Text)
    requires { length does.now ≤ 2 }
    ensures text { line.new.items ≡ call_text array.now does.now }
    ensures short { length line.new.items ≤ 38 }
{
    line.clear();
    put(line, letters(array.kind));
    put(line, does);
    put(line, b" ");
    put(line, array.name.as_bytes());
}

/// Makes the line of a key of an array with these letters for what it does.
pub fn write_look(array: &Array, does: &[u8], key: &[u8], line: &mut Text)
    requires letters { length does.now ≤ 2 }
    requires key { length key.now ≤ KEY_ROOM }
    ensures text { line.new.items ≡ look_text array.now does.now key.now }
    ensures short { length line.new.items ≤ 39 + KEY_ROOM }
{
    write_call(array, does, line);
    put(line, b" ");
    put(line, key);
}

/// Makes the line that looks for the entry behind a key.
pub fn write_next(array: &Array, key: &[u8], line: &mut Text)
    requires { length key.now ≤ KEY_ROOM }
    ensures { line.new.items ≡ next_text array.now key.now }
{
    write_look(array, b"N", key, line);
    if array.kind == Kind::Bytes {
        put(line, b" 1");
    }
}

/// Makes the line that makes an entry with this value.
fn write_value(array: &Array, key: &[u8], value: u64, line: &mut Text)
    requires { length key.now ≤ KEY_ROOM }
    ensures { line.new.items ≡ (look_text array.now (codes "I") key.now ++ codes " ") ++ decimal value }
{
    write_look(array, b"I", key, line);
    put(line, b" ");
    put_number(line, value);
}

/// Makes the line that makes an entry with this value, which is nothing for a set.
pub fn write_insertion(array: &Array, key: &[u8], value: u64, line: &mut Text)
    requires { length key.now ≤ KEY_ROOM }
    ensures { line.new.items ≡ insertion_text array.now key.now value }
{
    match array.kind {
        Kind::One => write_look(array, b"S", key, line),
        Kind::Long => write_value(array, key, value, line),
        Kind::Str => write_value(array, key, value, line),
        Kind::Bytes => write_value(array, key, value, line),
    }
}

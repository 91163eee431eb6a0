//! Reads the request that a line spells.
ghost use Rattle.std.specs.Prelude.{◌≡◌, None, Some, [], ◌∷◌, IfOk, OnErr, codes, option_map, if◌then◌else◌};
ghost use Rattle.judy_model.specs.declared.calls.Call.TheVariants as calls;
ghost use Rattle.judy_model.specs.ArrayLists.{kind_named};
ghost use Rattle.judy_model.specs.Grammar.{begins_walk, bytes_call, call_by, fields_of, first_keys_call, intersection_call, is_token, long_call, names_behind, names_call, names_with, numbers_of_fields, one_call, string_call};
ghost use Rattle.judy_model.specs.Reading.{auth_of, named_request, other_request, request_of, request_of_fields};

use crate::commands::{
    bytes_with, command_of, entries_in, first_keys, long_with, one_with, string_with,
};
use crate::fields::{next_field, to_field};
use crate::numbers::{key, next_number, number, string};
use judy_model::{
    ArraysFrom, BytesCall, Call, Command, KEY_LIMIT, Kind, Line, Name, Numbers, Operation, StrCall,
    TOKEN_LIMIT, Token,
};

/// The line is not a request.
#[derive(Clone, Copy, Debug, PartialEq, Eq)]
pub struct Syntax;

/// The numbers that the fields of a text write: at most three.
#[inline(always)]
fn numbers_in(text: &[u8]) -> Option<Numbers>
    ensures { result ≡ numbers_of_fields (fields_of text.now) }
{
    let Some(from) = to_field(text) else {
        return Some(Numbers::Nothing);
    };
    let (first, after) = next_number(from)?;
    let Some(from) = to_field(after) else {
        return Some(Numbers::One(first));
    };
    let (second, after) = next_number(from)?;
    let Some(from) = to_field(after) else {
        return Some(Numbers::Two(first, second));
    };
    let (third, after) = next_number(from)?;
    match to_field(after) {
        Some(_) => None,
        None => Some(Numbers::Three(first, second, third)),
    }
}

/// A call of a set.
fn of_one(operation: Operation, name: Name, after_name: &[u8]) -> Option<Call<'static>>
    ensures { result ≡ option_map (λ c. calls.One name c) (one_call operation (fields_of after_name.now)) }
{
    Some(Call::One(name, one_with(operation, numbers_in(after_name)?)?))
}

/// An intersection: what comes after the name is the name of the other set, and two numbers.
fn of_two(name: Name, after_name: &[u8]) -> Option<Call<'static>>
    ensures { result ≡ intersection_call name (fields_of after_name.now) }
{
    let Some((field, after_other)) = next_field(after_name) else {
        return None;
    };
    let Some(other) = Name::read(field) else {
        return None;
    };
    match numbers_in(after_other) {
        Some(Numbers::Two(i, n)) => Some(Call::Intersect(name, other, i, entries_in(n)?)),
        _ => None,
    }
}

/// A call of a map from words.
fn of_long(operation: Operation, name: Name, after_name: &[u8]) -> Option<Call<'static>>
    ensures { result ≡ option_map (λ c. calls.Long name c) (long_call operation (fields_of after_name.now)) }
{
    Some(Call::Long(name, long_with(operation, numbers_in(after_name)?)?))
}

/// A call of a map from strings.
fn of_string<'a>(
    operation: Operation,
    name: Name,
    after_name: &[u8],
    room: &'a mut [u8; KEY_LIMIT],
) -> Option<Call<'a>>
    ensures { result ≡ option_map (λ c. calls.Str name c) (string_call operation (fields_of after_name.now)) }
{
    let Some((field, after_key)) = next_field(after_name) else {
        return match operation {
            Operation::Free => Some(Call::Str(name, StrCall::Free)),
            _ => None,
        };
    };
    let key = string(field, room)?;
    Some(Call::Str(name, string_with(operation, key, numbers_in(after_key)?)?))
}

/// A call of a map from byte keys.
fn of_bytes<'a>(
    operation: Operation,
    name: Name,
    after_name: &[u8],
    room: &'a mut [u8; KEY_LIMIT],
) -> Option<Call<'a>>
    ensures { result ≡ option_map (λ c. calls.Bytes name c) (bytes_call operation (fields_of after_name.now)) }
{
    let Some((field, after_key)) = next_field(after_name) else {
        return match operation {
            Operation::Free => Some(Call::Bytes(name, BytesCall::Free)),
            _ => None,
        };
    };
    let key = key(field, room)?;
    Some(Call::Bytes(name, bytes_with(operation, key, numbers_in(after_key)?)?))
}

/// Whether an operation on a map from byte keys begins a walk. It takes no key.
fn begins_walk(operation: Operation) -> bool
    ensures { result ≡ begins_walk operation }
{
    matches!(operation, Operation::First)
}

/// The call that begins a walk over a map from byte keys: what comes after the name is a number.
fn of_first_keys(name: Name, after_name: &[u8]) -> Option<Call<'static>>
    ensures { result ≡ option_map (λ c. calls.Bytes name c) (first_keys_call (fields_of after_name.now)) }
{
    Some(Call::Bytes(name, first_keys(numbers_in(after_name)?)?))
}

/// The call of a command with a name and what comes after it.
fn call_by<'a>(
    command: Command,
    name: Name,
    after_name: &[u8],
    room: &'a mut [u8; KEY_LIMIT],
) -> Option<Call<'a>>
    ensures { result ≡ call_by command.kind command.operation name (fields_of after_name.now) }
{
    match command.kind {
        Kind::One if command.operation == Operation::Intersect => of_two(name, after_name),
        Kind::One => of_one(command.operation, name, after_name),
        Kind::Long => of_long(command.operation, name, after_name),
        Kind::Str => of_string(command.operation, name, after_name, room),
        Kind::Bytes if begins_walk(command.operation) => of_first_keys(name, after_name),
        Kind::Bytes => of_bytes(command.operation, name, after_name, room),
    }
}

/// The token that a field writes. Its bytes are put into the room.
fn token_in<'a>(field: &[u8], room: &'a mut [u8; KEY_LIMIT]) -> Option<Token<'a>>
    ensures { result ≡ (if is_token field.now then Some field.now else None) }
{
    if field.len() > TOKEN_LIMIT {
        return None;
    }
    let bytes = &mut room[..field.len()];
    bytes.copy_from_slice(field);
    Token::read(bytes)
}

/// The login with a name and what comes after it.
fn login<'a>(name: Name, after_name: &[u8], room: &'a mut [u8; KEY_LIMIT]) -> Option<Line<'a>>
    ensures { result ≡ auth_of (codes "AUTH") name (fields_of after_name.now) }
{
    let Some((field, after_field)) = next_field(after_name) else {
        return None;
    };
    match next_field(after_field) {
        Some(_) => None,
        None => Some(Line::Auth(name, token_in(field, room)?)),
    }
}

/// The kind that a word names.
fn kind_named(word: &[u8]) -> Option<Kind>
    ensures { result ≡ kind_named word.now }
{
    if word == b"J1".as_slice() {
        return Some(Kind::One);
    }
    if word == b"JL".as_slice() {
        return Some(Kind::Long);
    }
    if word == b"JSL".as_slice() {
        return Some(Kind::Str);
    }
    if word == b"JHS".as_slice() {
        return Some(Kind::Bytes);
    }
    None
}

/// The list of a tenant's arrays that begins there, with the field of its number.
fn names_with(from: ArraysFrom, field: &[u8]) -> Option<Call<'static>>
    ensures { result ≡ names_with from field.now }
{
    Some(Call::Names(from, entries_in(number(field)?)?))
}

/// The list that begins behind the array of a kind and name.
fn names_behind(kind: Kind, name: &[u8], field: &[u8]) -> Option<Call<'static>>
    ensures { result ≡ names_behind kind name.now field.now }
{
    names_with(ArraysFrom::Behind(kind, Name::read(name)?), field)
}

/// A list of a tenant's arrays: what comes after the word is its number, or a kind, a name and its number.
fn names(field: &[u8], after_field: &[u8]) -> Option<Call<'static>>
    ensures { result ≡ names_call field.now (fields_of after_field.now) }
{
    let Some((name, after_name)) = next_field(after_field) else {
        return names_with(ArraysFrom::First, field);
    };
    let Some((number, after_number)) = next_field(after_name) else {
        return None;
    };
    match next_field(after_number) {
        Some(_) => None,
        None => names_behind(kind_named(field)?, name, number),
    }
}

/// The request of a word that makes no call of an array, with a name and what comes after it.
fn other_request<'a>(
    word: &[u8],
    name: Name,
    after_name: &[u8],
    room: &'a mut [u8; KEY_LIMIT],
) -> Option<Line<'a>>
    ensures { result ≡ other_request word.now name (fields_of after_name.now) }
{
    if word == b"NAMES".as_slice() {
        return Some(Line::Call(names(name.as_bytes(), after_name)?));
    }
    if word == b"AUTH".as_slice() {
        return login(name, after_name, room);
    }
    None
}

/// The request of a word alone.
fn lone_request(word: &[u8]) -> Option<Line<'static>>
    ensures { result ≡ request_of_fields (word.now ∷ []) }
{
    if word == b"QUIT".as_slice() {
        return Some(Line::Quit);
    }
    if word == b"USED".as_slice() {
        return Some(Line::Call(Call::Used));
    }
    if word == b"PING".as_slice() {
        return Some(Line::Ping);
    }
    if word == b"HELLO".as_slice() {
        return Some(Line::Hello);
    }
    None
}

/// The request of a word with a name and what comes after it.
fn named_request<'a>(
    word: &[u8],
    name: Name,
    after_name: &[u8],
    room: &'a mut [u8; KEY_LIMIT],
) -> Option<Line<'a>>
    ensures { result ≡ named_request word.now name (fields_of after_name.now) }
{
    match command_of(word) {
        Some(command) => Some(Line::Call(call_by(command, name, after_name, room)?)),
        None => other_request(word, name, after_name, room),
    }
}

/// The request of a line, if it is one.
fn request<'a>(line: &[u8], room: &'a mut [u8; KEY_LIMIT]) -> Option<Line<'a>>
    ensures { result ≡ request_of line.now }
{
    let Some((word, after_word)) = next_field(line) else {
        return None;
    };
    let Some((name, after_name)) = next_field(after_word) else {
        return lone_request(word);
    };
    let Some(name) = Name::read(name) else {
        return None;
    };
    named_request(word, name, after_name, room)
}

/// The request of a line. The line comes without its LF and without the CR before it.
///
/// `Err` means that the line is not a request. This function does not check the length of the line:
/// the caller does.
pub fn read_line<'a>(line: &[u8], room: &'a mut [u8; KEY_LIMIT]) -> Result<Line<'a>, Syntax>
    ensures spelled { IfOk result (λ request. request_of line.now ≡ Some request) }
    ensures none { OnErr result (request_of line.now ≡ None) }
{
    request(line, room).ok_or(Syntax)
}

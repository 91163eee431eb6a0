//! The commands of lines, and the calls that they make.
ghost use Rattle.std.specs.Prelude.{◌≡◌, ◌++◌, codes};
ghost use Rattle.judy_model.specs.Commands.{bytes_with, commands, entries_of, first_keys, long_with, one_with, string_with};
ghost use Rattle.judy_model.specs.Grammar.{at_command};
ghost use Rattle.judy_model.specs.declared.commands.Numbers.TheVariants as numbers;

use judy_model::{
    BytesCall, Command, Given, Key, Kind, LongCall, Numbers, OneCall, Operation, Search, StrCall,
};

/// The most entries that a walk, or the removal of a range, may ask for.
const MOST_ENTRIES: u64 = 65535;

/// The command of a set with these letters after `J1`.
fn one_command(letters: &[u8]) -> Option<Command>
    ensures { result ≡ at_command (codes "J1" ++ letters.now) commands }
{
    let operation = match letters {
        b"S" => Operation::Insert,
        b"SE" => Operation::Fill,
        b"U" => Operation::Remove,
        b"UF" => Operation::Pop,
        b"UR" => Operation::Cut,
        b"T" => Operation::Look,
        b"C" => Operation::Count,
        b"BC" => Operation::Nth,
        b"F" => Operation::First,
        b"N" => Operation::Next,
        b"L" => Operation::Last,
        b"P" => Operation::Prev,
        b"FE" => Operation::FirstEmpty,
        b"NE" => Operation::NextEmpty,
        b"LE" => Operation::LastEmpty,
        b"PE" => Operation::PrevEmpty,
        b"I" => Operation::Intersect,
        b"FA" => Operation::Free,
        _ => return None,
    };
    Some(Command {
        kind: Kind::One,
        operation,
    })
}

/// The command of a map from words with these letters after `JL`.
fn long_command(letters: &[u8]) -> Option<Command>
    ensures { result ≡ at_command (codes "JL" ++ letters.now) commands }
{
    let operation = match letters {
        b"I" => Operation::Insert,
        b"IE" => Operation::Fill,
        b"A" => Operation::Add,
        b"K" => Operation::Keep,
        b"X" => Operation::Exchange,
        b"D" => Operation::Remove,
        b"DF" => Operation::Pop,
        b"DR" => Operation::Cut,
        b"T" => Operation::Take,
        b"G" => Operation::Look,
        b"C" => Operation::Count,
        b"BC" => Operation::Nth,
        b"F" => Operation::First,
        b"N" => Operation::Next,
        b"L" => Operation::Last,
        b"P" => Operation::Prev,
        b"FE" => Operation::FirstEmpty,
        b"NE" => Operation::NextEmpty,
        b"LE" => Operation::LastEmpty,
        b"PE" => Operation::PrevEmpty,
        b"FA" => Operation::Free,
        _ => return None,
    };
    Some(Command {
        kind: Kind::Long,
        operation,
    })
}

/// The command of a map from strings with these letters after `JSL`.
fn string_command(letters: &[u8]) -> Option<Command>
    ensures { result ≡ at_command (codes "JSL" ++ letters.now) commands }
{
    let operation = match letters {
        b"I" => Operation::Insert,
        b"A" => Operation::Add,
        b"K" => Operation::Keep,
        b"X" => Operation::Exchange,
        b"D" => Operation::Remove,
        b"DF" => Operation::Pop,
        b"T" => Operation::Take,
        b"G" => Operation::Look,
        b"F" => Operation::First,
        b"N" => Operation::Next,
        b"L" => Operation::Last,
        b"P" => Operation::Prev,
        b"FA" => Operation::Free,
        _ => return None,
    };
    Some(Command {
        kind: Kind::Str,
        operation,
    })
}

/// The command of a map from byte keys with these letters after `JHS`.
fn bytes_command(letters: &[u8]) -> Option<Command>
    ensures { result ≡ at_command (codes "JHS" ++ letters.now) commands }
{
    let operation = match letters {
        b"I" => Operation::Insert,
        b"A" => Operation::Add,
        b"K" => Operation::Keep,
        b"X" => Operation::Exchange,
        b"D" => Operation::Remove,
        b"T" => Operation::Take,
        b"G" => Operation::Look,
        b"F" => Operation::First,
        b"N" => Operation::Next,
        b"FA" => Operation::Free,
        _ => return None,
    };
    Some(Command {
        kind: Kind::Bytes,
        operation,
    })
}

/// The command that a word stands for.
pub fn command_of(word: &[u8]) -> Option<Command>
    ensures { result ≡ at_command word.now commands }
{
    match word {
        [b'J', b'1', letters @ ..] => one_command(letters),
        [b'J', b'L', letters @ ..] => long_command(letters),
        [b'J', b'S', b'L', letters @ ..] => string_command(letters),
        [b'J', b'H', b'S', letters @ ..] => bytes_command(letters),
        _ => None,
    }
}

/// The number of entries that a walk or the removal of a range asks for. None if it is 0 or too great.
pub fn entries_in(number: u64) -> Option<u16>
    ensures { result ≡ entries_of number }
{
    if number < 1 || number > MOST_ENTRIES {
        return None;
    }
    Some(number as u16)
}

/// The call of a set with an index and another number.
fn one_with_two(operation: Operation, i: u64, k: u64) -> Option<OneCall>
    ensures { result ≡ one_with operation (numbers.Two i k) }
{
    let call = match operation {
        Operation::Pop => OneCall::Pop(i, k),
        Operation::Count => OneCall::Count(i, k),
        Operation::First => OneCall::Walk(Search::First, i, entries_in(k)?),
        Operation::Next => OneCall::Walk(Search::Next, i, entries_in(k)?),
        Operation::Last => OneCall::Walk(Search::Last, i, entries_in(k)?),
        Operation::Prev => OneCall::Walk(Search::Prev, i, entries_in(k)?),
        Operation::FirstEmpty => OneCall::WalkEmpty(Search::First, i, entries_in(k)?),
        Operation::NextEmpty => OneCall::WalkEmpty(Search::Next, i, entries_in(k)?),
        Operation::LastEmpty => OneCall::WalkEmpty(Search::Last, i, entries_in(k)?),
        Operation::PrevEmpty => OneCall::WalkEmpty(Search::Prev, i, entries_in(k)?),
        _ => return None,
    };
    Some(call)
}

/// The call of a set.
pub fn one_with(operation: Operation, numbers: Numbers) -> Option<OneCall>
    ensures { result ≡ one_with operation numbers }
{
    let call = match (operation, numbers) {
        (_, Numbers::Two(i, k)) => return one_with_two(operation, i, k),
        (Operation::Insert, Numbers::One(i)) => OneCall::Set(i),
        (Operation::Fill, Numbers::One(i)) => OneCall::Fill(i),
        (Operation::Cut, Numbers::Three(i, k, n)) => OneCall::Cut(i, k, entries_in(n)?),
        (Operation::Remove, Numbers::One(i)) => OneCall::Unset(i),
        (Operation::Look, Numbers::One(i)) => OneCall::Test(i),
        (Operation::Nth, Numbers::One(n)) => OneCall::ByCount(n),
        (Operation::First, Numbers::One(i)) => OneCall::First(i),
        (Operation::Next, Numbers::One(i)) => OneCall::Next(i),
        (Operation::Last, Numbers::One(i)) => OneCall::Last(i),
        (Operation::Prev, Numbers::One(i)) => OneCall::Prev(i),
        (Operation::FirstEmpty, Numbers::One(i)) => OneCall::FirstEmpty(i),
        (Operation::NextEmpty, Numbers::One(i)) => OneCall::NextEmpty(i),
        (Operation::LastEmpty, Numbers::One(i)) => OneCall::LastEmpty(i),
        (Operation::PrevEmpty, Numbers::One(i)) => OneCall::PrevEmpty(i),
        (Operation::Free, Numbers::Nothing) => OneCall::Free,
        _ => return None,
    };
    Some(call)
}

/// The call of a map from words with an index and another number.
fn long_with_two(operation: Operation, i: u64, k: u64) -> Option<LongCall>
    ensures { result ≡ long_with operation (numbers.Two i k) }
{
    let call = match operation {
        Operation::Insert => LongCall::Insert(i, Given::Value(k)),
        Operation::Add => LongCall::Insert(i, Given::Plus(k)),
        Operation::Keep => LongCall::Keep(i, k),
        Operation::Remove => LongCall::DeleteIf(i, k),
        Operation::Pop => LongCall::Pop(i, k),
        Operation::Fill => LongCall::Fill(i, k),
        Operation::Count => LongCall::Count(i, k),
        Operation::First => LongCall::Walk(Search::First, i, entries_in(k)?),
        Operation::Next => LongCall::Walk(Search::Next, i, entries_in(k)?),
        Operation::Last => LongCall::Walk(Search::Last, i, entries_in(k)?),
        Operation::Prev => LongCall::Walk(Search::Prev, i, entries_in(k)?),
        Operation::FirstEmpty => LongCall::WalkEmpty(Search::First, i, entries_in(k)?),
        Operation::NextEmpty => LongCall::WalkEmpty(Search::Next, i, entries_in(k)?),
        Operation::LastEmpty => LongCall::WalkEmpty(Search::Last, i, entries_in(k)?),
        Operation::PrevEmpty => LongCall::WalkEmpty(Search::Prev, i, entries_in(k)?),
        _ => return None,
    };
    Some(call)
}

/// The call of a map from words.
pub fn long_with(operation: Operation, numbers: Numbers) -> Option<LongCall>
    ensures { result ≡ long_with operation numbers }
{
    let call = match (operation, numbers) {
        (_, Numbers::Two(i, k)) => return long_with_two(operation, i, k),
        (Operation::Insert, Numbers::One(i)) => LongCall::Insert(i, Given::Nothing),
        (Operation::Exchange, Numbers::Three(i, from, to)) => LongCall::Exchange(i, from, to),
        (Operation::Cut, Numbers::Three(i, k, n)) => LongCall::Cut(i, k, entries_in(n)?),
        (Operation::Remove, Numbers::One(i)) => LongCall::Delete(i),
        (Operation::Take, Numbers::One(i)) => LongCall::Take(i),
        (Operation::Look, Numbers::One(i)) => LongCall::Get(i),
        (Operation::Nth, Numbers::One(n)) => LongCall::ByCount(n),
        (Operation::First, Numbers::One(i)) => LongCall::First(i),
        (Operation::Next, Numbers::One(i)) => LongCall::Next(i),
        (Operation::Last, Numbers::One(i)) => LongCall::Last(i),
        (Operation::Prev, Numbers::One(i)) => LongCall::Prev(i),
        (Operation::FirstEmpty, Numbers::One(i)) => LongCall::FirstEmpty(i),
        (Operation::NextEmpty, Numbers::One(i)) => LongCall::NextEmpty(i),
        (Operation::LastEmpty, Numbers::One(i)) => LongCall::LastEmpty(i),
        (Operation::PrevEmpty, Numbers::One(i)) => LongCall::PrevEmpty(i),
        (Operation::Free, Numbers::Nothing) => LongCall::Free,
        _ => return None,
    };
    Some(call)
}

/// The call of a map from strings, with a string.
pub fn string_with<'a>(operation: Operation, key: Key<'a>, numbers: Numbers) -> Option<StrCall<'a>>
    ensures { result ≡ string_with operation key.entry numbers }
{
    let call = match (operation, numbers) {
        (Operation::Insert, Numbers::Nothing) => StrCall::Insert(key, Given::Nothing),
        (Operation::Insert, Numbers::One(v)) => StrCall::Insert(key, Given::Value(v)),
        (Operation::Add, Numbers::One(n)) => StrCall::Insert(key, Given::Plus(n)),
        (Operation::Keep, Numbers::One(v)) => StrCall::Keep(key, v),
        (Operation::Exchange, Numbers::Two(from, to)) => StrCall::Exchange(key, from, to),
        (Operation::Remove, Numbers::Nothing) => StrCall::Delete(key),
        (Operation::Remove, Numbers::One(v)) => StrCall::DeleteIf(key, v),
        (Operation::Take, Numbers::Nothing) => StrCall::Take(key),
        (Operation::Pop, Numbers::Nothing) => StrCall::Pop(key),
        (Operation::Look, Numbers::Nothing) => StrCall::Get(key),
        (Operation::First, Numbers::Nothing) => StrCall::First(key),
        (Operation::Next, Numbers::Nothing) => StrCall::Next(key),
        (Operation::Last, Numbers::Nothing) => StrCall::Last(key),
        (Operation::Prev, Numbers::Nothing) => StrCall::Prev(key),
        (Operation::First, Numbers::One(n)) => StrCall::Walk(Search::First, key, entries_in(n)?),
        (Operation::Next, Numbers::One(n)) => StrCall::Walk(Search::Next, key, entries_in(n)?),
        (Operation::Last, Numbers::One(n)) => StrCall::Walk(Search::Last, key, entries_in(n)?),
        (Operation::Prev, Numbers::One(n)) => StrCall::Walk(Search::Prev, key, entries_in(n)?),
        _ => return None,
    };
    Some(call)
}

/// The call that begins a walk over a map from byte keys.
pub fn first_keys(numbers: Numbers) -> Option<BytesCall<'static>>
    ensures { result ≡ first_keys numbers }
{
    match numbers {
        Numbers::One(n) => Some(BytesCall::First(entries_in(n)?)),
        _ => None,
    }
}

/// The call of a map from byte keys, with a key.
pub fn bytes_with<'a>(operation: Operation, key: Key<'a>, numbers: Numbers) -> Option<BytesCall<'a>>
    ensures { result ≡ bytes_with operation key.entry numbers }
{
    let call = match (operation, numbers) {
        (Operation::Insert, Numbers::Nothing) => BytesCall::Insert(key, Given::Nothing),
        (Operation::Insert, Numbers::One(v)) => BytesCall::Insert(key, Given::Value(v)),
        (Operation::Add, Numbers::One(n)) => BytesCall::Insert(key, Given::Plus(n)),
        (Operation::Keep, Numbers::One(v)) => BytesCall::Keep(key, v),
        (Operation::Exchange, Numbers::Two(from, to)) => BytesCall::Exchange(key, from, to),
        (Operation::Remove, Numbers::Nothing) => BytesCall::Delete(key),
        (Operation::Remove, Numbers::One(v)) => BytesCall::DeleteIf(key, v),
        (Operation::Take, Numbers::Nothing) => BytesCall::Take(key),
        (Operation::Look, Numbers::Nothing) => BytesCall::Get(key),
        (Operation::Next, Numbers::One(n)) => BytesCall::Next(key, entries_in(n)?),
        _ => return None,
    };
    Some(call)
}

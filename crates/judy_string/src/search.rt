//! Ordered searches: one path down along the string, and one step to the side.
ghost use Rattle.std.specs.Prelude.{◌≡◌, ℕ, suc, ◌+◌, ◌*◌, ◌≤◌, ◌≢◌, ◌++◌, true, false, IsTrue, IsFalse, length, drop};
ghost use Rattle.arrayvec.specs.ArrayVec.{array_vec_len};
ghost use Rattle.judy_words.specs.LongArrays.{IsLongArray, IsLongFinger, long_in};
ghost use Rattle.judy_packing.specs.Packing.{pack, is_last, word_bytes, IsString};
ghost use Rattle.judy_model.specs.Contents.{string_order, word_order, value_of};
ghost use Rattle.judy_string.specs.Changes.{IsRest};
ghost use Rattle.judy_string.specs.Searches.{keeps, end_of, beside, end_at, end_under, found_in_suffix, found_at, found_here, IsShown};
ghost use Rattle.judy_string.specs.Strings.{IsNestedAt, IsSpelt};
ghost use Rattle.judy_string.specs.Suffixes.{is_suffix, suffix_entry, IsSuffix};

use crate::nodes::{is_last, tail};
use crate::suffix;
use arrayvec::ArrayVec;
use judy_arena::Arena;
use judy_model::{KEY_LIMIT, Search};
use judy_packing::{byte, word_at};
use judy_refs::Ref;
use judy_words::{Finger, JudyL};
use std::cmp::Ordering;

// Whether a search keeps a string that compares so with the string that it starts from. It takes the first or
// the last of those that it keeps.
fn keeps(search: Search, order: Ordering) -> bool
    ensures { result ≡ keeps search order }
{
    match search {
        Search::First => order.is_ge(),
        Search::Next => order.is_gt(),
        Search::Last => order.is_le(),
        Search::Prev => order.is_lt(),
    }
}

/// Appends the bytes of a word: all eight at once, if it is not the last of a string.
pub(crate) fn push_word(buffer: &mut ArrayVec<u8, KEY_LIMIT>, word: u64)
    requires spelt { IsSpelt word }
    requires fits { array_vec_len buffer.old + length (word_bytes word) ≤ KEY_LIMIT }
    ensures { buffer.new.items ≡ buffer.old.items ++ word_bytes word }
{
    if !is_last(word) {
        let _fits = buffer.try_extend_from_slice(&word.to_be_bytes());
        return;
    }
    for i in 0..8u8 {
        let next = byte(word, i);
        if next == 0 {
            return;
        }
        buffer.push(next);
    }
}

// How the bytes from a place on compare with a string.
fn compare_from(buffer: &ArrayVec<u8, KEY_LIMIT>, start: usize, string: &[u8]) -> Ordering
    requires { start ≤ array_vec_len buffer.now }
    ensures { result ≡ string_order (drop start buffer.now.items) string.now }
{
    buffer.as_slice().split_at(start).1.cmp(&string)
}

// The first or the last entry of a word array.
fn end_word(arena: &Arena, array: Ref, how: Search) -> Option<(u64, u64)>
    requires { IsLongArray arena.now.blocks array }
    ensures { result ≡ end_of how (long_in arena.now.blocks array) }
{
    let words = JudyL::from_reference(array);
    match how {
        Search::First | Search::Next => words.first(arena, 0),
        Search::Last | Search::Prev => words.last(arena, u64::MAX),
    }
}

// The entry of a word array beside a word, by the word's finger.
fn next_word(
    arena: &Arena,
    array: Ref,
    word: u64,
    finger: Finger,
    how: Search,
) -> Option<(u64, u64)>
    requires array { IsLongArray arena.now.blocks array }
    requires finger { IsLongFinger arena.now.blocks array word finger }
    ensures { result ≡ beside how (long_in arena.now.blocks array) word }
{
    let words = JudyL::from_reference(array);
    match how {
        Search::First | Search::Next => words.next_by(arena, word, finger),
        Search::Last | Search::Prev => words.prev_by(arena, word, finger),
    }
}

// Appends the first or the last string under a node.
#[cycle(ends)]
fn end_at(
    arena: &Arena,
    node: Ref,
    how: Search,
    buffer: &mut ArrayVec<u8, KEY_LIMIT>,
    room: usize,
) -> Option<u64>
    requires few { room ≤ 125 }
    requires node { IsNestedAt (suc room) arena.now.blocks node }
    requires fits { array_vec_len buffer.old + 8 * room ≤ KEY_LIMIT }
    ensures { IsShown buffer.old.items
        (end_at how room arena.now.blocks node) result buffer.new.items }
{
    if suffix::is_suffix(node) {
        return Some(suffix::read(arena, node, buffer));
    }
    let Some(entry) = end_word(arena, node, how) else {
        return None;
    };
    end_under(arena, entry.0, entry.1, how, buffer, room)
}

// Appends the first or the last string under one word of a word array.
#[cycle(ends)]
fn end_under(
    arena: &Arena,
    word: u64,
    value: u64,
    how: Search,
    buffer: &mut ArrayVec<u8, KEY_LIMIT>,
    room: usize,
) -> Option<u64>
    requires few { room ≤ 125 }
    requires spelt { IsSpelt word }
    requires short { length (word_bytes word) ≤ 8 * room }
    requires node { is_last word ≡ false → IsNestedAt room arena.now.blocks value }
    requires filled { is_last word ≡ false → value ≢ 0 }
    requires fits { array_vec_len buffer.old + 8 * room ≤ KEY_LIMIT }
    ensures { IsShown buffer.old.items
        (end_under how room arena.now.blocks (word, value)) result buffer.new.items }
{
    push_word(buffer, word);
    if is_last(word) {
        return Some(value);
    }
    end_at(arena, Ref::known(value), how, buffer, room - 1)
}

// Searches at a suffix. Next and Prev keep no equal string. At the string itself they write nothing
// to the buffer.
fn find_suffix(
    arena: &Arena,
    node: Ref,
    string: &[u8],
    how: Search,
    buffer: &mut ArrayVec<u8, KEY_LIMIT>,
) -> Option<u64>
    requires string { IsString string.now }
    requires short { length string.now ≤ KEY_LIMIT }
    requires suffix { IsTrue (is_suffix node) }
    requires sound { (r : ℕ) × IsSuffix r arena.now.blocks node }
    requires fits { array_vec_len buffer.old + length (suffix_entry arena.now.blocks node).0
        ≤ KEY_LIMIT }
    ensures { IsShown buffer.old.items
        (found_in_suffix how string.now arena.now.blocks node) result buffer.new.items }
{
    if !keeps(how, Ordering::Equal) && suffix::get(arena, node, string).is_some() {
        return None;
    }
    let before = buffer.len();
    let value = suffix::read(arena, node, buffer);
    if keeps(how, compare_from(buffer, before, string)) {
        return Some(value);
    }
    buffer.truncate(before);
    None
}

/// Appends the string that a search finds under a node, and returns its value. If there is none,
/// the buffer stays as it was.
#[cycle(finds)]
pub(crate) fn find(
    arena: &Arena,
    node: Ref,
    string: &[u8],
    how: Search,
    buffer: &mut ArrayVec<u8, KEY_LIMIT>,
    room: usize,
) -> Option<u64>
    requires rest { IsRest room string.now }
    requires node { IsNestedAt (suc room) arena.now.blocks node }
    requires fits { array_vec_len buffer.old + 8 * room ≤ KEY_LIMIT }
    ensures { IsShown buffer.old.items
        (found_at how string.now room arena.now.blocks node) result buffer.new.items }
{
    if suffix::is_suffix(node) {
        return find_suffix(arena, node, string, how, buffer);
    }
    let word = word_at(string, 0);
    let finger = JudyL::from_reference(node).finger_of(arena, word);
    if let Some(value) = find_here(arena, node, finger.value, string, how, buffer, room) {
        return Some(value);
    }
    let Some(entry) = next_word(arena, node, word, finger, how) else {
        return None;
    };
    end_under(arena, entry.0, entry.1, how, buffer, room)
}

// Searches under the string's own word, which has this value or is absent.
#[cycle(finds)]
fn find_here(
    arena: &Arena,
    node: Ref,
    own: Option<u64>,
    string: &[u8],
    how: Search,
    buffer: &mut ArrayVec<u8, KEY_LIMIT>,
    room: usize,
) -> Option<u64>
    requires rest { IsRest room string.now }
    requires node { IsNestedAt (suc room) arena.now.blocks node }
    requires array { IsFalse (is_suffix node) }
    requires own { own ≡ value_of word_order (long_in arena.now.blocks node) (pack string.now) }
    requires fits { array_vec_len buffer.old + 8 * room ≤ KEY_LIMIT }
    ensures { IsShown buffer.old.items
        (found_here how string.now room arena.now.blocks node) result buffer.new.items }
{
    let Some(value) = own else {
        return None;
    };
    let word = word_at(string, 0);
    if string.len() < 8 {
        if !keeps(how, Ordering::Equal) {
            return None;
        }
        push_word(buffer, word);
        return Some(value);
    }
    let start = buffer.len();
    push_word(buffer, word);
    if let Some(found) = find(
        arena,
        Ref::known(value),
        tail(string),
        how,
        buffer,
        room - 1,
    ) {
        return Some(found);
    }
    buffer.truncate(start);
    None
}

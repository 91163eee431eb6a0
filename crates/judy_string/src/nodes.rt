//! Nodes: word arrays and suffix blocks, and the strings under them.
ghost use Rattle.std.specs.Prelude.{◌≡◌, suc, ◌*◌, ◌≤◌, false, IsTrue, IsFalse, length, drop, []};
ghost use Rattle.judy_arena.specs.Frame.{Frame};
ghost use Rattle.judy_arena.specs.Takes.{TakesNothing};
ghost use Rattle.judy_packing.specs.Packing.{is_last, word_bytes};
ghost use Rattle.judy_model.specs.Contents.{string_order, value_of, has_key};
ghost use Rattle.judy_string.specs.Changes.{IsRest, IsWritten, RemovesString};
ghost use Rattle.judy_string.specs.Strings.{IsNestedAt, IsSpelt, nested_content_at, nested_numbers_at, content_under, numbers_under};
ghost use Rattle.judy_string.specs.Suffixes.{is_suffix};
ghost use Rattle.judy_tree.specs.Nodes.{is_branch};

use crate::{suffix, words};
use judy_arena::Arena;
use judy_packing::word_at;
use judy_refs::Ref;
use judy_tree::{leads_to_branch, next_part, release_branch};
use judy_words::JudyL;

/// The bytes of a string after its first word.
pub(crate) fn tail(string: &[u8]) -> &[u8]
    requires { 8 ≤ length string.now }
    ensures { result.now ≡ drop 8 string.now }
{
    string.split_at(8).1
}

/// Whether a word of a string is its last.
pub(crate) fn is_last(word: u64) -> bool
    requires { IsSpelt word }
    ensures { result ≡ is_last word }
{
    word % 256 == 0
}

/// The value of a string under a node. The string has at most 8 * room bytes left.
pub(crate) fn get(arena: &Arena, node: Ref, string: &[u8], room: usize) -> Option<u64>
    requires rest { IsRest room string.now }
    requires node { IsNestedAt (suc room) arena.now.blocks node }
    ensures { result ≡ value_of string_order
        (nested_content_at (suc room) arena.now.blocks node) string.now }
{
    if suffix::is_suffix(node) {
        return suffix::get(arena, node, string);
    }
    let Some(value) = words::look(arena, node, word_at(string, 0)) else {
        return None;
    };
    if string.len() < 8 {
        return Some(value);
    }
    get(arena, Ref::known(value), tail(string), room - 1)
}

/// Writes the value of a present string.
pub(crate) fn write(arena: &mut Arena, node: Ref, string: &[u8], value: u64, room: usize)
    requires rest { IsRest room string.now }
    requires node { IsNestedAt (suc room) arena.old.blocks node }
    requires there { IsTrue
        (has_key string_order (nested_content_at (suc room) arena.old.blocks node) string.now) }
    ensures changed { IsWritten (suc room) arena.old.blocks arena.new.blocks node string.now value }
    ensures memory { TakesNothing arena.old arena.new }
{
    if suffix::is_suffix(node) {
        suffix::write(arena, node, value);
        return;
    }
    let word = word_at(string, 0);
    if string.len() < 8 {
        words::write(arena, node, word, value);
        return;
    }
    if let Some(child) = words::look(arena, node, word) {
        write(arena, Ref::known(child), tail(string), value, room - 1);
    }
}

/// Removes a string from a node, with each array that becomes empty. Returns the node that is left,
/// or None if the string was absent.
pub(crate) fn remove(arena: &mut Arena, node: Ref, string: &[u8], room: usize) -> Option<Ref>
    requires rest { IsRest room string.now }
    requires node { IsNestedAt (suc room) arena.old.blocks node }
    ensures removal { RemovesString (suc room) arena.old arena.new node string.now result }
    ensures memory { TakesNothing arena.old arena.new }
{
    if suffix::is_suffix(node) {
        if suffix::get(arena, node, string).is_none() {
            return None;
        }
        suffix::release(arena, node);
        return Some(Ref::EMPTY);
    }
    let word = word_at(string, 0);
    let Some(value) = words::look(arena, node, word) else {
        return None;
    };
    if string.len() < 8 {
        return Some(words::take(arena, node, word));
    }
    let child = Ref::known(value);
    let Some(left) = remove(arena, child, tail(string), room - 1) else {
        return None;
    };
    if left.word() == 0 {
        return Some(words::take(arena, node, word));
    }
    words::lead(arena, node, word, child, left);
    Some(node)
}

/// Releases every block under a node. Returns how many strings there were.
///
/// A word array whose root is a branch is taken apart part by part, so that no entry is looked up
/// from the root.
#[cycle(clear)]
pub(crate) fn clear(arena: &mut Arena, node: Ref, room: usize) -> u64
    requires few { room ≤ 125 }
    requires node { IsNestedAt (suc room) arena.old.blocks node }
    ensures gone { Frame arena.old.blocks arena.new.blocks
        (nested_numbers_at (suc room) arena.old.blocks node) [] }
    ensures count { result ≡ length (nested_content_at (suc room) arena.old.blocks node) }
    ensures memory { TakesNothing arena.old arena.new }
{
    if suffix::is_suffix(node) {
        suffix::release(arena, node);
        return 1;
    }
    if leads_to_branch(node) {
        return clear_parts(arena, node, room);
    }
    let mut words = JudyL::from_reference(node);
    let mut count = 0;
    let mut found = words.first(arena, 0);
    for place in 0..words.population(arena) {
        let Some(entry) = found else {
            continue;
        };
        count += clear_entry(arena, entry.0, entry.1, room);
        found = words.next(arena, entry.0);
    }
    words.clear(arena);
    count
}

// Releases every block under a word array whose root is a branch: its parts, and then the branch.
// Returns how many strings there were.
#[cycle(clear)]
fn clear_parts(arena: &mut Arena, node: Ref, room: usize) -> u64
    requires few { room ≤ 125 }
    requires node { IsNestedAt (suc room) arena.old.blocks node }
    requires array { IsFalse (is_suffix node) }
    requires branch { IsTrue (is_branch node) }
    ensures gone { Frame arena.old.blocks arena.new.blocks
        (nested_numbers_at (suc room) arena.old.blocks node) [] }
    ensures count { result ≡ length (nested_content_at (suc room) arena.old.blocks node) }
    ensures memory { TakesNothing arena.old arena.new }
{
    let mut low = 0;
    let mut count = 0;
    while let Some(part) = next_part(arena, node, low) {
        count += clear(arena, part.1, room);
        low = u16::from(part.0) + 1;
    }
    release_branch(arena, node);
    count
}

// Releases every block under one word of a word array. Returns how many strings there were.
#[cycle(clear)]
fn clear_entry(arena: &mut Arena, word: u64, value: u64, room: usize) -> u64
    requires few { room ≤ 125 }
    requires spelt { IsSpelt word }
    requires short { length (word_bytes word) ≤ 8 * room }
    requires node { is_last word ≡ false → IsNestedAt room arena.old.blocks value }
    ensures gone { Frame arena.old.blocks arena.new.blocks
        (numbers_under room arena.old.blocks (word, value)) [] }
    ensures count { result ≡ length (content_under room arena.old.blocks (word, value)) }
    ensures memory { TakesNothing arena.old arena.new }
{
    if is_last(word) {
        return 1;
    }
    clear(arena, Ref::known(value), room - 1)
}

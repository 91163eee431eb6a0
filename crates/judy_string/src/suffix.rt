//! Suffix blocks: the rest of one string, with its value.
ghost use Rattle.std.specs.Prelude.{◌≡◌, ◌+◌, ◌*◌, ◌≤◌, ◌<◌, ◌/◌, ℕ, ◌++◌, IfOk, OnErr, IsTrue, length, drop, is_ok, [], ◌∷◌};
ghost use Rattle.arrayvec.specs.ArrayVec.{array_vec_len};
ghost use Rattle.judy_arena.specs.Blocks.{words_of, without};
ghost use Rattle.judy_arena.specs.Frame.{Frame};
ghost use Rattle.judy_refs.specs.References.{number_of};
ghost use Rattle.judy_arena.specs.Takes.{Takes, TakesNothing};
ghost use Rattle.judy_model.specs.Contents.{string_order, value_of};
ghost use Rattle.judy_words.specs.LongArrays.{CountsRefusals};
ghost use Rattle.judy_packing.specs.Packing.{IsString};
ghost use Rattle.judy_string.specs.Suffixes.{is_suffix, suffix_words, suffix_entry, with_suffix_value, IsSuffix, IsMadeSuffix, packed_suffix};

use crate::search::push_word;
use arrayvec::ArrayVec;
use judy_arena::{Arena, NoMemory};
use judy_model::KEY_LIMIT;
use judy_packing::word_at;
use judy_refs::{Kind, Ref};
use std::alloc::Global;

/// Whether a reference leads to a suffix block.
pub(crate) fn is_suffix(reference: Ref) -> bool
    ensures { result ≡ is_suffix reference }
{
    reference.leads_to(Kind::Suffix)
}

/// How many words this many bytes take.
fn packed_words(size: usize) -> usize
    requires { size ≤ KEY_LIMIT }
    ensures { result ≡ packed_suffix size }
{
    (size + 7) / 8
}

// The words of a suffix block.
fn contents(arena: &Arena, reference: Ref) -> &[u64]
    requires suffix { IsTrue (is_suffix reference) }
    requires live { 0 < length (suffix_words arena.now.blocks reference) }
    ensures { result.now ≡ suffix_words arena.now.blocks reference }
{
    match reference.block() {
        Some(block) => arena.words(block),
        None => &[],
    }
}

/// The value of the string, if it is the one of the suffix.
pub(crate) fn get(arena: &Arena, reference: Ref, string: &[u8]) -> Option<u64>
    requires string { IsString string.now }
    requires short { length string.now ≤ KEY_LIMIT }
    requires suffix { IsTrue (is_suffix reference) }
    requires sound { (r : ℕ) × IsSuffix r arena.now.blocks reference }
    ensures { result ≡ value_of string_order
        (suffix_entry arena.now.blocks reference ∷ []) string.now }
{
    let words = contents(arena, reference);
    let value = words[0];
    if words[1] != string.len() as u64 {
        return None;
    }
    for j in 0..packed_words(string.len()) {
        if words[2 + j] != word_at(string, j) {
            return None;
        }
    }
    Some(value)
}

/// Appends the string of a suffix to a buffer, and returns its value.
pub(crate) fn read(arena: &Arena, reference: Ref, buffer: &mut ArrayVec<u8, KEY_LIMIT>) -> u64
    requires suffix { IsTrue (is_suffix reference) }
    requires sound { (r : ℕ) × IsSuffix r arena.now.blocks reference }
    requires fits { array_vec_len buffer.old + length (suffix_entry arena.now.blocks reference).0
        ≤ KEY_LIMIT }
    ensures string { buffer.new.items ≡ buffer.old.items
        ++ (suffix_entry arena.now.blocks reference).0 }
    ensures value { result ≡ (suffix_entry arena.now.blocks reference).1 }
{
    let words = contents(arena, reference);
    let value = words[0];
    for j in 0..packed_words(words[1] as usize) {
        push_word(buffer, words[2 + j]);
    }
    value
}

/// Writes the value of the string of a suffix.
pub(crate) fn write(arena: &mut Arena, reference: Ref, value: u64)
    requires suffix { IsTrue (is_suffix reference) }
    requires live { 0 < length (words_of arena.old.blocks (number_of reference)) }
    ensures blocks { arena.new.blocks ≡ with_suffix_value arena.old.blocks reference value }
    ensures memory { TakesNothing arena.old arena.new }
{
    if let Some(block) = reference.block() {
        arena.set(block, 0, value);
    }
}

/// A new suffix block for one string.
pub(crate) fn make(
    alloc: Global,
    arena: &mut Arena,
    string: &[u8],
    value: u64,
) -> Result<Ref, NoMemory>
    requires string { IsString string.now }
    requires short { length string.now ≤ KEY_LIMIT }
    ensures made { IfOk result (λ w. IsMadeSuffix arena.old.blocks arena.new.blocks string.now
        value w) }
    ensures unchanged { OnErr result (arena.new.blocks ≡ arena.old.blocks) }
    ensures refusals { CountsRefusals arena.old arena.new (is_ok result) }
    ensures memory { Takes 1 arena.old arena.new }
{
    let words = packed_words(string.len());
    let block = arena.alloc(alloc, 2 + words)?;
    let _number = block.number();
    arena.set(block, 0, value);
    arena.set(block, 1, string.len() as u64);
    for j in 0..words {
        arena.set(block, 2 + j, word_at(string, j));
    }
    Ok(Ref::of(Kind::Suffix, block))
}

/// Releases a suffix block.
pub(crate) fn release(arena: &mut Arena, reference: Ref)
    requires suffix { IsTrue (is_suffix reference) }
    requires live { 0 < length (words_of arena.old.blocks (number_of reference)) }
    ensures blocks { arena.new.blocks ≡ without arena.old.blocks (number_of reference) }
    ensures memory { TakesNothing arena.old arena.new }
{
    if let Some(block) = reference.block() {
        arena.release(block);
    }
}

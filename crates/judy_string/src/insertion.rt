//! Insertion: the new nodes are built apart from the old ones, from the last word upwards, and
//! attached last.
ghost use Rattle.std.specs.Prelude.{◌≡◌, ◌≢◌, ◌+◌, ◌*◌, ◌≤◌, suc, IfOk, OnOk, OnErr, IsTrue, IsFalse, is_ok};
ghost use Rattle.judy_arena.specs.Takes.{Takes};
ghost use Rattle.judy_words.specs.LongArrays.{long_in, CountsRefusals};
ghost use Rattle.judy_packing.specs.Packing.{pack};
ghost use Rattle.judy_model.specs.Contents.{word_order, has_key};
ghost use Rattle.judy_string.specs.Changes.{IsRest, IsHung, IsForkedArray, Enters, IsTurnedAway, most_blocks};
ghost use Rattle.judy_string.specs.Strings.{IsNestedAt};
ghost use Rattle.judy_string.specs.Suffixes.{is_suffix};

use crate::nodes::{clear, tail};
use crate::{suffix, words};
use arrayvec::ArrayVec;
use judy_arena::{Arena, NoMemory};
use judy_model::{Given, KEY_LIMIT};
use judy_packing::word_at;
use judy_refs::Ref;
use judy_words::Inserted;
use std::alloc::Global;

// Inserts one string whose first word is new in a word array: by its last word, or with a suffix
// block below.
fn hang(
    alloc: Global,
    arena: &mut Arena,
    array: Ref,
    string: &[u8],
    value: u64,
    room: usize,
) -> Result<Ref, NoMemory>
    requires rest { IsRest room string.now }
    requires node { IsNestedAt (suc room) arena.old.blocks array }
    requires array { IsFalse (is_suffix array) }
    requires absent { IsFalse (has_key word_order (long_in arena.old.blocks array)
        (pack string.now)) }
    ensures done { IfOk result
        (λ x. IsHung (suc room) arena.old.blocks arena.new.blocks array string.now value x) }
    ensures unchanged { OnErr result (arena.new.blocks ≡ arena.old.blocks) }
    ensures refusals { CountsRefusals arena.old arena.new (is_ok result) }
    ensures memory { Takes 65 arena.old arena.new }
{
    let word = word_at(string, 0);
    if string.len() < 8 {
        let new = words::put(alloc, arena, array, word, value)?;
        return Ok(new);
    }
    let below = suffix::make(alloc, arena, tail(string), value)?;
    match words::put(alloc, arena, array, word, below.word()) {
        Ok(new) => Ok(new),
        Err(refused) => {
            suffix::release(arena, below);
            Err(refused)
        }
    }
}

// Builds a word array of two strings, from the last word that they share upwards.
fn fork(
    alloc: Global,
    arena: &mut Arena,
    old: &[u8],
    value: u64,
    new: &[u8],
    added: u64,
    room: usize,
) -> Result<Ref, NoMemory>
    requires old_rest { IsRest room old.now }
    requires new_rest { IsRest room new.now }
    requires other { old.now ≢ new.now }
    ensures changed { IfOk result
        (λ x. IsForkedArray (suc room) arena.old arena.new old.now value new.now added x) }
    ensures unchanged { OnErr result (arena.new.blocks ≡ arena.old.blocks) }
    ensures refusals { CountsRefusals arena.old arena.new (is_ok result) }
    ensures memory { Takes (130 + 2 * room) arena.old arena.new }
{
    let word = word_at(old, 0);
    if word != word_at(new, 0) {
        let first = hang(alloc, arena, Ref::EMPTY, old, value, room)?;
        return match hang(alloc, arena, first, new, added, room) {
            Ok(both) => Ok(both),
            Err(refused) => {
                let _one = clear(arena, first, room);
                Err(refused)
            }
        };
    }
    let below = fork(alloc, arena, tail(old), value, tail(new), added, room - 1)?;
    match words::put(alloc, arena, Ref::EMPTY, word, below.word()) {
        Ok(array) => Ok(array),
        Err(refused) => {
            let _two = clear(arena, below, room - 1);
            Err(refused)
        }
    }
}

// Inserts a string at a suffix. If the suffix is the same string, its value is written. Otherwise an
// array of both strings replaces the suffix.
fn split(
    alloc: Global,
    arena: &mut Arena,
    node: Ref,
    string: &[u8],
    given: Given,
    room: usize,
) -> Result<Inserted, NoMemory>
    requires rest { IsRest room string.now }
    requires node { IsNestedAt (suc room) arena.old.blocks node }
    requires suffix { IsTrue (is_suffix node) }
    ensures done { IfOk result
        (λ it. Enters (suc room) arena.old arena.new node string.now given it) }
    ensures refused { OnErr result (IsTurnedAway (suc room) arena.old arena.new node string.now) }
    ensures memory { Takes (most_blocks (130 + 2 * room) result) arena.old arena.new }
{
    if let Some(value) = suffix::get(arena, node, string) {
        suffix::write(arena, node, given.value_after(value));
        return Ok(Inserted {
            root: node,
            before: Some(value),
        });
    }
    let mut old: ArrayVec<u8, KEY_LIMIT> = ArrayVec::new();
    let value = suffix::read(arena, node, &mut old);
    let added = given.value_after(0);
    let root = fork(alloc, arena, old.as_slice(), value, string, added, room)?;
    suffix::release(arena, node);
    Ok(Inserted { root, before: None })
}

/// Inserts a string under a node, gives it a value or adds to its value.
pub(crate) fn insert(
    alloc: Global,
    arena: &mut Arena,
    node: Ref,
    string: &[u8],
    given: Given,
    room: usize,
) -> Result<Inserted, NoMemory>
    requires rest { IsRest room string.now }
    requires node { IsNestedAt (suc room) arena.old.blocks node }
    ensures done { IfOk result
        (λ it. Enters (suc room) arena.old arena.new node string.now given it) }
    ensures refused { OnErr result (IsTurnedAway (suc room) arena.old arena.new node string.now) }
    ensures memory { Takes (most_blocks (130 + 2 * room) result) arena.old arena.new }
{
    if suffix::is_suffix(node) {
        return split(alloc, arena, node, string, given, room);
    }
    let word = word_at(string, 0);
    if string.len() < 8 {
        let answer = words::enter(alloc, arena, node, word, given)?;
        return Ok(answer);
    }
    let Some(value) = words::look(arena, node, word) else {
        let root = hang(alloc, arena, node, string, given.value_after(0), room)?;
        return Ok(Inserted { root, before: None });
    };
    let child = Ref::known(value);
    let below = insert(alloc, arena, child, tail(string), given, room - 1)?;
    words::lead(arena, node, word, child, below.root);
    Ok(Inserted {
        root: node,
        ..below
    })
}

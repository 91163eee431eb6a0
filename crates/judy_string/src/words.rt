//! Word arrays, by their references.
ghost use Rattle.std.specs.Prelude.{◌≡◌, ◌≤◌, IfOk, OnErr, IsTrue, IsFalse, Some, is_ok, if◌then◌else◌, length};
ghost use Rattle.judy_arena.specs.Takes.{Takes, TakesNothing};
ghost use Rattle.judy_words.specs.LongArrays.{IsLongArray, long_in, CountsRefusals};
ghost use Rattle.judy_model.specs.Contents.{word_order, value_of, has_key};
ghost use Rattle.judy_string.specs.Changes.{IsGiven, IsPut, IsTakenWord};

use judy_arena::{Arena, NoMemory};
use judy_model::Given;
use judy_refs::Ref;
use judy_tree::Root;
use judy_words::{Inserted, JudyL};
use std::alloc::Global;

/// The value of a word in a word array.
pub(crate) fn look(arena: &Arena, array: Ref, word: u64) -> Option<u64>
    requires { IsLongArray arena.now.blocks array }
    ensures { result ≡ value_of word_order (long_in arena.now.blocks array) word }
{
    JudyL::from_reference(array).get(arena, word)
}

/// Inserts a word, gives it a value or adds to its value.
pub(crate) fn enter(
    alloc: Global,
    arena: &mut Arena,
    array: Ref,
    word: u64,
    given: Given,
) -> Result<Inserted, NoMemory>
    requires { IsLongArray arena.old.blocks array }
    ensures done { IfOk result
        (λ it. IsGiven arena.old.blocks arena.new.blocks array word given it.root) }
    ensures before { IfOk result
        (λ it. it.before ≡ value_of word_order (long_in arena.old.blocks array) word) }
    ensures absent { OnErr result
        (IsFalse (has_key word_order (long_in arena.old.blocks array) word)) }
    ensures unchanged { OnErr result (arena.new.blocks ≡ arena.old.blocks) }
    ensures refusals { CountsRefusals arena.old arena.new (is_ok result) }
    ensures memory { Takes (if has_key word_order (long_in arena.old.blocks array) word then 0 else 64)
        arena.old arena.new }
    ensures few { length (long_in arena.old.blocks array) ≤ 30 → Takes 2 arena.old arena.new }
{
    let mut words: Root<true> = Root::from_reference(array);
    let answer = words.insert_given(alloc, arena, word, given.value_after(0))?;
    let Some(before) = answer.before else {
        return Ok(answer);
    };
    if let Given::Nothing = given {
        return Ok(answer);
    }
    words.write(arena, word, given.value_after(before));
    Ok(answer)
}

/// Inserts a new word with its value.
pub(crate) fn put(
    alloc: Global,
    arena: &mut Arena,
    array: Ref,
    word: u64,
    value: u64,
) -> Result<Ref, NoMemory>
    requires root { IsLongArray arena.old.blocks array }
    requires absent { IsFalse (has_key word_order (long_in arena.old.blocks array) word) }
    ensures done { IfOk result
        (λ new. IsPut arena.old.blocks arena.new.blocks array word value new) }
    ensures unchanged { OnErr result (arena.new.blocks ≡ arena.old.blocks) }
    ensures refusals { CountsRefusals arena.old arena.new (is_ok result) }
    ensures memory { Takes 64 arena.old arena.new }
    ensures few { length (long_in arena.old.blocks array) ≤ 30 → Takes 2 arena.old arena.new }
{
    let answer = enter(alloc, arena, array, word, Given::Value(value))?;
    Ok(answer.root)
}

/// Changes the node that a word leads to. The array keeps its reference.
pub(crate) fn lead(arena: &mut Arena, array: Ref, word: u64, old: Ref, new: Ref)
    requires root { IsLongArray arena.old.blocks array }
    requires there { value_of word_order (long_in arena.old.blocks array) word ≡ Some old }
    ensures done { IsPut arena.old.blocks arena.new.blocks array word new array }
    ensures memory { TakesNothing arena.old arena.new }
{
    if old.word() == new.word() {
        return;
    }
    let mut words = JudyL::from_reference(array);
    words.write(arena, word, new.word());
}

/// Removes a word. Returns the array without it.
pub(crate) fn take(arena: &mut Arena, array: Ref, word: u64) -> Ref
    requires { IsLongArray arena.old.blocks array }
    ensures done { IsTakenWord arena.old.blocks arena.new.blocks array word result }
    ensures memory { TakesNothing arena.old arena.new }
{
    let mut words = JudyL::from_reference(array);
    let _there = words.delete(arena, word);
    words.reference()
}

/// Writes the value of a present word.
pub(crate) fn write(arena: &mut Arena, array: Ref, word: u64, value: u64)
    requires root { IsLongArray arena.old.blocks array }
    requires there { IsTrue (has_key word_order (long_in arena.old.blocks array) word) }
    ensures done { IsPut arena.old.blocks arena.new.blocks array word value array }
    ensures memory { TakesNothing arena.old arena.new }
{
    let mut words = JudyL::from_reference(array);
    words.write(arena, word, value);
}

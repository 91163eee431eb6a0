//! The JudyL of hash words. Its values are the references of chains.
ghost use Rattle.std.specs.Prelude.{◌≡◌, ◌≢◌, ◌≤◌, ℕ, IfOk, OnErr, IsTrue, None, Some, is_ok};
ghost use Rattle.std.specs.Option.{unwrap_or};
ghost use Rattle.judy_refs.specs.References.{is_reference};
ghost use Rattle.judy_arena.specs.Takes.{Takes, TakesNothing};
ghost use Rattle.judy_words.specs.LongArrays.{IsLongArray, long_in, CountsRefusals};
ghost use Rattle.judy_model.specs.Contents.{word_order, value_of, has_key};
ghost use Rattle.judy_bytes.specs.BytesArrays.{WordsBecome, first_at, if_some};

use judy_arena::{Arena, NoMemory};
use judy_model::Given;
use judy_refs::Ref;
use judy_words::JudyL;
use std::alloc::Global;

/// The reference of the first bucket at a hash word, or the empty reference.
pub(crate) fn first(arena: &Arena, words: JudyL, hash: u64) -> Ref
    requires array { IsLongArray arena.now.blocks words }
    requires reference { IsTrue (is_reference (first_at arena.now.blocks words hash)) }
    ensures { result ≡ first_at arena.now.blocks words hash }
{
    let Some(word) = words.get(arena, hash) else {
        return Ref::EMPTY;
    };
    reference_of(word)
}

/// Reads a word that is known to be a reference.
pub(crate) fn reference_of(word: u64) -> Ref
    requires { IsTrue (is_reference word) }
    ensures { result ≡ word }
{
    Ref::known(word)
}

/// Inserts a new hash word with its first bucket.
///
/// Err if the arena refused a block. It changes no block.
pub(crate) fn enter(
    alloc: Global,
    arena: &mut Arena,
    words: JudyL,
    hash: u64,
    first: Ref,
) -> Result<JudyL, NoMemory>
    requires array { IsLongArray arena.old.blocks words }
    requires absent { value_of word_order (long_in arena.old.blocks words) hash ≡ None }
    requires some { first ≢ 0 }
    ensures words { IfOk result
        (λ x. WordsBecome arena.old.blocks arena.new.blocks words x hash (if_some first)) }
    ensures blocks { OnErr result (arena.new.blocks ≡ arena.old.blocks) }
    ensures refusals { CountsRefusals arena.old arena.new (is_ok result) }
    ensures memory { Takes 64 arena.old arena.new }
{
    let mut words = words;
    words.insert_given(alloc, arena, hash, Given::Value(first.word()))?;
    Ok(words)
}

/// Changes the chain of a present hash word. An empty chain removes the hash word.
pub(crate) fn lead(arena: &mut Arena, words: JudyL, hash: u64, first: Ref) -> JudyL
    requires array { IsLongArray arena.old.blocks words }
    requires there { IsTrue (has_key word_order (long_in arena.old.blocks words) hash) }
    ensures words { WordsBecome arena.old.blocks arena.new.blocks words result hash
        (if_some first) }
    ensures memory { TakesNothing arena.old arena.new }
{
    let mut words = words;
    if first.word() == 0 {
        words.delete(arena, hash);
        return words;
    }
    words.write(arena, hash, first.word());
    words
}

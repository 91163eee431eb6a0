//! Buckets: blocks that each hold one byte key with its value.
ghost use Rattle.std.specs.Prelude.{◌≡◌, ◌≢◌, ◌+◌, ◌*◌, ◌≤◌, ◌<◌, ◌/◌, ℕ, true, IfOk, OnOk, OnErr, IsTrue, IsFalse, length, drop, get_or, is_ok, ◌↔◌, [], ◌∷◌};
ghost use Rattle.judy_arena.specs.Blocks.{words_of, without};
ghost use Rattle.judy_arena.specs.Frame.{Frame};
ghost use Rattle.judy_refs.specs.References.{is_reference, word_of};
ghost use Rattle.judy_arena.specs.Takes.{Takes, TakesNothing};
ghost use Rattle.judy_model.specs.Contents.{string_order};
ghost use Rattle.judy_refs.specs.declared.Kind.TheVariants.{Bucket};
ghost use Rattle.judy_bytes.specs.Buckets.{IsBucket, bucket_key, packed_bucket, next_of, with_word, IsMadeBucket};
ghost use Rattle.judy_words.specs.LongArrays.{CountsRefusals};

use crate::words::reference_of;
use arrayvec::ArrayVec;
use judy_arena::{Arena, Block, NoMemory};
use judy_model::KEY_LIMIT;
use judy_packing::{byte, word_at};
use judy_refs::{Kind, Ref};
use std::alloc::Global;
use std::cmp::Ordering;

// The place in a bucket of the next bucket's reference.
const NEXT: usize = 0;
// The place of the value.
const VALUE: usize = 1;
// The place of the number of bytes of the key.
const SIZE: usize = 2;
// The place of the first word of the key.
const KEY: usize = 3;

// How many words this many bytes take.
fn packed_words(size: usize) -> usize
    requires { size ≤ KEY_LIMIT }
    ensures { result ≡ packed_bucket size }
{
    (size + 7) / 8
}

/// Whether a bucket has this key. It compares the lengths and then the words, eight bytes at a
/// time.
pub(crate) fn has_key(arena: &Arena, bucket: Block, key: &[u8]) -> bool
    requires short { length key.now ≤ KEY_LIMIT }
    requires sound { IsBucket arena.now.blocks bucket }
    ensures yes { IsTrue result → bucket_key (words_of arena.now.blocks bucket) ≡ key.now }
    ensures no { IsFalse result → bucket_key (words_of arena.now.blocks bucket) ≢ key.now }
{
    let words = arena.words(bucket);
    if words[SIZE] != key.len() as u64 {
        return false;
    }
    for j in 0..packed_words(key.len()) {
        if words[KEY + j] != word_at(key, j) {
            return false;
        }
    }
    true
}

/// Compares the key of a bucket with a key, byte by byte.
pub(crate) fn compare(arena: &Arena, bucket: Block, key: &[u8]) -> Ordering
    requires { IsBucket arena.now.blocks bucket }
    ensures { result ≡ string_order (bucket_key (words_of arena.now.blocks bucket)) key.now }
{
    let words = arena.words(bucket);
    let size = words[SIZE] as usize;
    for j in 0..size.min(key.len()) {
        let own = byte(words[KEY + j / 8], (j % 8) as u8);
        if own != key[j] {
            return own.cmp(&key[j]);
        }
    }
    size.cmp(&key.len())
}

/// Puts the key of a bucket into a buffer.
pub(crate) fn read_key(arena: &Arena, bucket: Block, buffer: &mut ArrayVec<u8, KEY_LIMIT>)
    requires { IsBucket arena.now.blocks bucket }
    ensures { buffer.new.items ≡ bucket_key (words_of arena.now.blocks bucket) }
{
    let words = arena.words(bucket);
    let size = words[SIZE] as usize;
    buffer.clear();
    for j in 0..packed_words(size) {
        let _fits = buffer.try_extend_from_slice(&words[KEY + j].to_be_bytes());
    }
    buffer.truncate(size);
}

/// The reference of the next bucket, or the empty reference.
pub(crate) fn next(arena: &Arena, bucket: Block) -> Ref
    requires sound { IsBucket arena.now.blocks bucket }
    requires reference { IsTrue (is_reference (next_of arena.now.blocks bucket)) }
    ensures { result ≡ next_of arena.now.blocks bucket }
{
    reference_of(arena.get(bucket, NEXT))
}

/// The value of a bucket's key.
pub(crate) fn value(arena: &Arena, bucket: Block) -> u64
    requires { IsBucket arena.now.blocks bucket }
    ensures { result ≡ get_or (words_of arena.now.blocks bucket) 1 0 }
{
    arena.get(bucket, VALUE)
}

/// Sets the reference of the next bucket.
pub(crate) fn set_next(arena: &mut Arena, bucket: Block, next: Ref)
    requires { IsBucket arena.old.blocks bucket }
    ensures blocks { arena.new.blocks ≡ with_word arena.old.blocks bucket 0 next }
    ensures memory { TakesNothing arena.old arena.new }
{
    arena.set(bucket, NEXT, next.word());
}

/// Writes the value of a bucket's key.
pub(crate) fn set_value(arena: &mut Arena, bucket: Block, value: u64)
    requires { IsBucket arena.old.blocks bucket }
    ensures blocks { arena.new.blocks ≡ with_word arena.old.blocks bucket 1 value }
    ensures memory { TakesNothing arena.old arena.new }
{
    arena.set(bucket, VALUE, value);
}

/// Makes a new bucket for a key, before the buckets that a reference leads to.
///
/// Err if the arena refused the block. It changes no block.
pub(crate) fn make(
    alloc: Global,
    arena: &mut Arena,
    key: &[u8],
    value: u64,
    next: Ref,
) -> Result<Block, NoMemory>
    requires short { length key.now ≤ KEY_LIMIT }
    ensures made { IfOk result
        (λ n. IsMadeBucket arena.old.blocks arena.new.blocks next value key.now n) }
    ensures kept { OnErr result (arena.new.blocks ≡ arena.old.blocks) }
    ensures refusals { CountsRefusals arena.old arena.new (is_ok result) }
    ensures memory { Takes 1 arena.old arena.new }
{
    let words = packed_words(key.len());
    let block = arena.alloc(alloc, KEY + words)?;
    let _number = block.number();
    arena.set(block, NEXT, next.word());
    arena.set(block, VALUE, value);
    arena.set(block, SIZE, key.len() as u64);
    for j in 0..words {
        arena.set(block, KEY + j, word_at(key, j));
    }
    Ok(block)
}

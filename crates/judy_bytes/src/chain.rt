//! Chains of buckets. The keys of a chain have the same hash word.
ghost use Rattle.std.specs.Prelude.{◌≡◌, ◌≢◌, ◌≤◌, ◌&&◌, option_map, IfOk, IfSome, OnSome, IfNone, OnErr, IsTrue, None, Some, length, is_ok, []};
ghost use Rattle.judy_arena.specs.Blocks.{without};
ghost use Rattle.judy_arena.specs.Frame.{Frame};
ghost use Rattle.judy_refs.specs.References.{is_reference, block_of, number_of};
ghost use Rattle.judy_arena.specs.Takes.{Takes, TakesNothing};
ghost use Rattle.judy_bytes.specs.Buckets.{IsBucket};
ghost use Rattle.judy_bytes.specs.Chains.{IsBucketChain, IsFoundBucket, IsNewBucket, ChainBecomes, chain};
ghost use Rattle.judy_bytes.specs.Chains.{value_in_chain, chain_has};
ghost use Rattle.judy_bytes.specs.Buckets.{bucket_key};
ghost use Rattle.judy_bytes.specs.Chains.{chain_entries};
ghost use Rattle.judy_bytes.specs.Walks.{is_above, is_below, IsLeastOf};
ghost use Rattle.judy_arena.specs.Blocks.{words_of};
ghost use Rattle.judy_words.specs.LongArrays.{CountsRefusals};

use crate::bucket;
use arrayvec::ArrayVec;
use judy_arena::{Arena, Block, NoMemory};
use judy_model::KEY_LIMIT;
use judy_refs::{Kind, Ref};
use std::alloc::Global;

/// The bucket of the chain that has the key.
pub(crate) fn find(arena: &Arena, first: Ref, key: &[u8]) -> Option<Block>
    requires short { length key.now ≤ KEY_LIMIT }
    requires chain { IsBucketChain arena.now.blocks first }
    ensures some { IfSome result
        (λ n. IsFoundBucket arena.now.blocks (chain arena.now.blocks first) key.now n) }
    ensures none { IfNone result (value_in_chain arena.now.blocks first key.now ≡ None) }
{
    let mut at = first;
    while let Some(block) = at.block() {
        if bucket::has_key(arena, block, key) {
            return Some(block);
        }
        at = bucket::next(arena, block);
    }
    None
}

// Whether the key of a bucket is above a bound, if there is one, and below the key that was found, if one was.
fn is_sought(
    arena: &Arena,
    bucket: Block,
    bound: Option<&[u8]>,
    found: Option<u64>,
    least: &[u8],
) -> bool
    requires { IsBucket arena.now.blocks bucket }
    ensures { result ≡ (is_above (option_map (λ k. k.now) bound.entry) (bucket_key (words_of arena.now.blocks bucket))
        && is_below found least.now (bucket_key (words_of arena.now.blocks bucket))) }
{
    if let Some(key) = bound {
        if !bucket::compare(arena, bucket, key).is_gt() {
            return false;
        }
    }
    if found.is_none() {
        return true;
    }
    bucket::compare(arena, bucket, least).is_lt()
}

/// The value of the least key of a chain that is above a bound, if there is one. The buffer gets the key.
pub(crate) fn least_above(
    arena: &Arena,
    first: Ref,
    bound: Option<&[u8]>,
    buffer: &mut ArrayVec<u8, KEY_LIMIT>,
) -> Option<u64>
    requires { IsBucketChain arena.now.blocks first }
    ensures { IsLeastOf (chain_entries arena.now.blocks first) (is_above (option_map (λ k. k.now) bound.entry))
        result buffer.new.items }
{
    let mut rest = first;
    let mut found = None;
    while let Some(block) = rest.block() {
        if is_sought(arena, block, bound, found, buffer.as_slice()) {
            bucket::read_key(arena, block, buffer);
            found = Some(bucket::value(arena, block));
        }
        rest = bucket::next(arena, block);
    }
    found
}

/// Puts a new key in front of a chain, and returns the new chain's reference.
///
/// Err if the arena refused the block. It changes no block.
pub(crate) fn prepend(
    alloc: Global,
    arena: &mut Arena,
    first: Ref,
    key: &[u8],
    value: u64,
) -> Result<Ref, NoMemory>
    requires short { length key.now ≤ KEY_LIMIT }
    requires chain { IsBucketChain arena.old.blocks first }
    requires absent { value_in_chain arena.old.blocks first key.now ≡ None }
    ensures chain { IfOk result
        (λ x. ChainBecomes arena.old.blocks arena.new.blocks first x key.now (Some value)) }
    ensures fresh { IfOk result (λ x. IsNewBucket arena.old.blocks arena.new.blocks x) }
    ensures blocks { OnErr result (arena.new.blocks ≡ arena.old.blocks) }
    ensures refusals { CountsRefusals arena.old arena.new (is_ok result) }
    ensures memory { Takes 1 arena.old arena.new }
{
    let block = bucket::make(alloc, arena, key, value, first)?;
    Ok(Ref::of(Kind::Bucket, block))
}

/// Removes a key from a chain. Returns the reference of the rest, or None if the key was absent.
pub(crate) fn take_out(arena: &mut Arena, first: Ref, key: &[u8]) -> Option<Ref>
    requires short { length key.now ≤ KEY_LIMIT }
    requires chain { IsBucketChain arena.old.blocks first }
    ensures chain { IfSome result
        (λ x. ChainBecomes arena.old.blocks arena.new.blocks first x key.now None) }
    ensures there { OnSome result (IsTrue (chain_has arena.old.blocks first key.now)) }
    ensures absent { IfNone result (value_in_chain arena.old.blocks first key.now ≡ None) }
    ensures blocks { IfNone result (arena.new.blocks ≡ arena.old.blocks) }
    ensures memory { TakesNothing arena.old arena.new }
{
    let block = first.block()?;
    let rest = bucket::next(arena, block);
    if bucket::has_key(arena, block, key) {
        arena.release(block);
        return Some(rest);
    }
    let left = take_out(arena, rest, key)?;
    bucket::set_next(arena, block, left);
    Some(first)
}

/// Releases a bucket to which no reference leads.
pub(crate) fn release(arena: &mut Arena, bucket: Ref)
    requires bucket { IsBucket arena.old.blocks (number_of bucket) }
    requires named { block_of bucket ≡ Some (number_of bucket) }
    ensures blocks { arena.new.blocks ≡ without arena.old.blocks (number_of bucket) }
    ensures memory { TakesNothing arena.old arena.new }
{
    if let Some(block) = bucket.block() {
        arena.release(block);
    }
}

/// Releases all buckets of a chain. Returns how many there were.
pub(crate) fn clear(arena: &mut Arena, first: Ref) -> u64
    requires { IsBucketChain arena.old.blocks first }
    ensures gone { Frame arena.old.blocks arena.new.blocks (chain arena.old.blocks first) [] }
    ensures count { result ≡ length (chain arena.old.blocks first) }
    ensures memory { TakesNothing arena.old arena.new }
{
    let Some(block) = first.block() else {
        return 0;
    };
    let rest = bucket::next(arena, block);
    arena.release(block);
    clear(arena, rest) + 1
}

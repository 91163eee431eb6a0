//! Puts a child into a branch.
ghost use Rattle.std.specs.Prelude.{◌≡◌, ◌≢◌, ◌+◌, ◌-◌, ◌^◌, ◌<◌, ◌≤◌, [], ◌∷◌, length, take, Ok, Err, Some, IsTrue, IsFalse, IfOk, OnErr, is_ok, if◌then◌else◌};
ghost use Rattle.judy_arena.specs.Blocks.{is_live, words_of, put, count_up};
ghost use Rattle.judy_arena.specs.Draws.{DrawsBlock};
ghost use Rattle.judy_arena.specs.Frame.{Frame};
ghost use Rattle.judy_arena.specs.Takes.{Takes, TakesNothing};
ghost use Rattle.judy_model.specs.Contents.{word_order, has_key, value_of, with_entry};
ghost use Rattle.judy_branch.specs.Branch.{IsBranch, IsBranchOf, branch_view, branch_number, view_in, with_child};
ghost use Rattle.judy_branch.specs.Children.{HasChildRoom, IsLaid, IsShaped, IsBuilt, children_in, count_in, level_in, prefix_in, is_child, most, used_words};
ghost use Rattle.judy_branch.specs.Draws.{branch_size, HasRoom};
ghost use Rattle.judy_branch.specs.declared.shape.Shape.TheVariants.{Linear, Bitmap};

use crate::build::{build, refer, shape_for, size};
use crate::edit::{insert_child, write_child};
use crate::read::{block, child_in};
use crate::shape::{Shape, read_shape};
use crate::{bitmap, linear};
use judy_arena::{Arena, Block, NoMemory};
use judy_refs::Ref;
use std::alloc::Global;

// Whether a block has room for one more child.
fn has_room(shape: Shape, words: &[u64]) -> bool
    requires { IsLaid shape words.now }
    ensures room { IsTrue result → HasChildRoom shape words.now }
    ensures none { IsFalse result → HasChildRoom shape words.now → ⊥ }
    ensures few { IsFalse result → count_in words.now ≤ 127 }
{
    let count = (words[0] % 512) as usize;
    match shape {
        Shape::Linear => count < 8 && 4 + count < words.len(),
        Shape::Bitmap => count < 127 && 7 + count < words.len(),
        Shape::Full => true,
    }
}

// Copies all children of a full branch with at most 127 of them, in the order of their bytes.
// Returns how many they are.
fn gather_each(shape: Shape, words: &[u64], list: &mut [(u8, Ref)]) -> usize
    requires laid { IsLaid shape words.now }
    requires room { count_in words.now ≤ length list.old }
    ensures count { result ≡ count_in words.now }
    ensures all { take result list.new ≡ children_in shape words.now }
{
    let mut count = 0;
    for at in 0..256u16 {
        let Some(word) = child_in(shape, words, at as u8) else {
            continue;
        };
        list[count] = (at as u8, Ref::known(word));
        count += 1;
    }
    count
}

// Copies all children of a linear branch, child by child.
fn gather_row(words: &[u64], list: &mut [(u8, Ref)]) -> usize
    requires laid { IsLaid Linear words.now }
    requires room { count_in words.now ≤ length list.old }
    ensures count { result ≡ count_in words.now }
    ensures all { take result list.new ≡ children_in Linear words.now }
{
    let count = (words[0] % 512) as usize;
    for at in 0..count {
        let (byte, word) = linear::nth(words, at);
        list[at] = (byte, Ref::known(word));
    }
    count
}

// Copies all children of a bitmap branch, from one byte to the next.
fn gather_bits(words: &[u64], list: &mut [(u8, Ref)]) -> usize
    requires laid { IsLaid Bitmap words.now }
    requires room { count_in words.now ≤ length list.old }
    ensures count { result ≡ count_in words.now }
    ensures all { take result list.new ≡ children_in Bitmap words.now }
{
    let count = (words[0] % 512) as usize;
    let mut from = 0u16;
    for at in 0..count {
        let (byte, word) = bitmap::nth(words, at, from);
        list[at] = (byte, Ref::known(word));
        from = u16::from(byte) + 1;
    }
    count
}

// Copies all children of a branch with at most 127 of them, in the order of their bytes. Returns
// how many they are.
pub(crate) fn gather(shape: Shape, words: &[u64], list: &mut [(u8, Ref)]) -> usize
    requires laid { IsLaid shape words.now }
    requires room { count_in words.now ≤ length list.old }
    ensures count { result ≡ count_in words.now }
    ensures all { take result list.new ≡ children_in shape words.now }
{
    match shape {
        Shape::Full => gather_each(shape, words, list),
        Shape::Linear => gather_row(words, list),
        Shape::Bitmap => gather_bits(words, list),
    }
}

// Inserts a child at a byte that has none, and writes the population.
#[inline(always)]
fn insert_with(shape: Shape, words: &mut [u64], byte: u8, child: Ref, population: u64)
    requires laid { IsLaid shape words.old }
    requires absent { IsFalse (has_key word_order (children_in shape words.old) byte) }
    requires few { count_in words.old < most shape }
    requires room { used_words shape (count_in words.old + 1) ≤ length words.old }
    requires child { IsTrue (is_child child) }
    ensures { IsBuilt shape words.new (level_in words.old) (prefix_in words.old) population
        (with_entry word_order (children_in shape words.old) byte child) }
{
    words[2] = population;
    insert_child(shape, words, byte, child);
}

// Replaces the child of a byte, and writes the population.
fn write_with(shape: Shape, words: &mut [u64], byte: u8, child: Ref, population: u64)
    requires laid { IsLaid shape words.old }
    requires there { IsTrue (has_key word_order (children_in shape words.old) byte) }
    requires child { IsTrue (is_child child) }
    ensures { IsBuilt shape words.new (level_in words.old) (prefix_in words.old) population
        (with_entry word_order (children_in shape words.old) byte child) }
{
    words[2] = population;
    write_child(shape, words, byte, child);
}

// Replaces a block that has no room by a block of the shape for one more child: with the same
// children and the new one, and this population.
fn convert(
    alloc: Global,
    arena: &mut Arena,
    shape: Shape,
    block: Block,
    byte: u8,
    child: Ref,
    population: u64,
) -> Result<Ref, NoMemory>
    requires shaped { IsShaped shape (words_of arena.old.blocks block) }
    requires few { count_in (words_of arena.old.blocks block) ≤ 127 }
    requires absent { IsFalse
        (has_key word_order (children_in shape (words_of arena.old.blocks block)) byte) }
    requires child { child ≢ 0 }
    ensures put { IfOk result
        (λ w. IsBranchOf arena.new.blocks w
        (with_child (view_in shape (words_of arena.old.blocks block)) byte child population)) }
    ensures frame { IfOk result
        (λ w. Frame arena.old.blocks arena.new.blocks (block ∷ []) (branch_number w ∷ [])) }
    ensures unchanged { OnErr result (arena.new.blocks ≡ arena.old.blocks) }
    ensures refusals { arena.new.refusals
        ≡ (if is_ok result then arena.old.refusals else count_up arena.old.refusals) }
    ensures draws { IfOk result
        (λ w. DrawsBlock arena.old arena.new (branch_size arena.new.blocks w)) }
    ensures memory { Takes (if is_ok result then 1 else 0) arena.old arena.new }
{
    let words = arena.words(block);
    let level = (words[0] / 512) as u8;
    let prefix = words[1];
    let mut list = [(0, Ref::EMPTY); 127];
    let count = gather(shape, words, &mut list);
    let target = shape_for(count + 1);
    let to = build(
        alloc,
        arena,
        target,
        count + 1,
        level,
        prefix,
        population,
        &list[..count],
    )?;
    insert_child(target, arena.words_mut(to), byte, child);
    arena.release(block);
    Ok(refer(target, to))
}

// The greatest number of children of a branch of this shape.
fn limit(shape: Shape) -> usize
    ensures { result ≡ most shape }
{
    match shape {
        Shape::Linear => 8,
        Shape::Bitmap => 127,
        Shape::Full => 256,
    }
}

// Replaces a block that has no room by a greater block of the same shape, and inserts the child.
fn widen(
    alloc: Global,
    arena: &mut Arena,
    shape: Shape,
    block: Block,
    byte: u8,
    child: Ref,
    population: u64,
) -> Result<Ref, NoMemory>
    requires shaped { IsShaped shape (words_of arena.old.blocks block) }
    requires few { count_in (words_of arena.old.blocks block) < most shape }
    requires absent { IsFalse
        (has_key word_order (children_in shape (words_of arena.old.blocks block)) byte) }
    requires child { child ≢ 0 }
    ensures put { IfOk result
        (λ w. IsBranchOf arena.new.blocks w
        (with_child (view_in shape (words_of arena.old.blocks block)) byte child population)) }
    ensures frame { IfOk result
        (λ w. Frame arena.old.blocks arena.new.blocks (block ∷ []) (branch_number w ∷ [])) }
    ensures unchanged { OnErr result (arena.new.blocks ≡ arena.old.blocks) }
    ensures refusals { arena.new.refusals
        ≡ (if is_ok result then arena.old.refusals else count_up arena.old.refusals) }
    ensures draws { IfOk result
        (λ w. DrawsBlock arena.old arena.new (branch_size arena.new.blocks w)) }
    ensures memory { Takes (if is_ok result then 1 else 0) arena.old arena.new }
{
    let count = (arena.get(block, 0) % 512) as usize;
    let to = arena.grow(alloc, block, size(shape, count), size(shape, count + 1))?;
    insert_with(shape, arena.words_mut(to), byte, child, population);
    Ok(refer(shape, to))
}

// Replaces a block that has no room by a new one: with the same children and one more, and this
// population. The shape stays if it has room for one more child.
#[inline(never)]
fn grow(
    alloc: Global,
    arena: &mut Arena,
    shape: Shape,
    block: Block,
    byte: u8,
    child: Ref,
    population: u64,
) -> Result<Ref, NoMemory>
    requires shaped { IsShaped shape (words_of arena.old.blocks block) }
    requires few { count_in (words_of arena.old.blocks block) ≤ 127 }
    requires absent { IsFalse
        (has_key word_order (children_in shape (words_of arena.old.blocks block)) byte) }
    requires child { child ≢ 0 }
    ensures put { IfOk result
        (λ w. IsBranchOf arena.new.blocks w
        (with_child (view_in shape (words_of arena.old.blocks block)) byte child population)) }
    ensures frame { IfOk result
        (λ w. Frame arena.old.blocks arena.new.blocks (block ∷ []) (branch_number w ∷ [])) }
    ensures unchanged { OnErr result (arena.new.blocks ≡ arena.old.blocks) }
    ensures refusals { arena.new.refusals
        ≡ (if is_ok result then arena.old.refusals else count_up arena.old.refusals) }
    ensures draws { IfOk result
        (λ w. DrawsBlock arena.old arena.new (branch_size arena.new.blocks w)) }
    ensures memory { Takes (if is_ok result then 1 else 0) arena.old arena.new }
{
    let count = (arena.get(block, 0) % 512) as usize;
    if count < limit(shape) {
        return widen(alloc, arena, shape, block, byte, child, population);
    }
    convert(alloc, arena, shape, block, byte, child, population)
}

/// Replaces the child of a byte, and sets the branch's population. This cannot fail and takes no
/// memory.
#[inline(never)]
pub fn set_child(arena: &mut Arena, branch: Ref, byte: u8, child: Ref, population: u64)
    requires branch { IsBranch arena.old.blocks branch }
    requires there { IsTrue
        (has_key word_order (branch_view arena.old.blocks branch).children byte) }
    requires child { child ≢ 0 }
    ensures set { IsBranchOf arena.new.blocks branch
        (with_child (branch_view arena.old.blocks branch) byte child population) }
    ensures frame { Frame arena.old.blocks arena.new.blocks (branch_number branch ∷ [])
        (branch_number branch ∷ []) }
    ensures memory { TakesNothing arena.old arena.new }
{
    let shape = read_shape(branch);
    let own = block(branch);
    write_with(shape, arena.words_mut(own), byte, child, population);
}

// Sets a branch's population.
fn recount(arena: &mut Arena, branch: Ref, population: u64)
    requires { IsBranch arena.old.blocks branch }
    ensures set { IsBranchOf arena.new.blocks branch
        (record {
          level = (branch_view arena.old.blocks branch).level;
          prefix = (branch_view arena.old.blocks branch).prefix;
          population = population;
          children = (branch_view arena.old.blocks branch).children;
        }) }
    ensures frame { Frame arena.old.blocks arena.new.blocks (branch_number branch ∷ [])
        (branch_number branch ∷ []) }
    ensures memory { TakesNothing arena.old arena.new }
{
    arena.set(block(branch), 2, population);
}

/// Replaces the child `was` of a byte by `child`, which may be the same, and sets the branch's
/// population. This cannot fail and takes no memory. If the child is the same, its place is not
/// searched.
#[inline(always)]
pub fn change_child(arena: &mut Arena, branch: Ref, byte: u8, was: Ref, child: Ref, population: u64)
    requires branch { IsBranch arena.old.blocks branch }
    requires was { value_of word_order (branch_view arena.old.blocks branch).children byte
        ≡ Some was }
    requires child { child ≢ 0 }
    ensures set { IsBranchOf arena.new.blocks branch
        (with_child (branch_view arena.old.blocks branch) byte child population) }
    ensures frame { Frame arena.old.blocks arena.new.blocks (branch_number branch ∷ [])
        (branch_number branch ∷ []) }
    ensures memory { TakesNothing arena.old arena.new }
{
    if child.word() == was.word() {
        recount(arena, branch, population);
        return;
    }
    set_child(arena, branch, byte, child, population);
}

/// Inserts a child at a byte that has none, and sets the branch's population. The reference may
/// change.
///
/// Err if the arena refused a block: no block changes.
#[inline(always)]
pub fn put_child(
    alloc: Global,
    arena: &mut Arena,
    branch: Ref,
    byte: u8,
    child: Ref,
    population: u64,
) -> Result<Ref, NoMemory>
    requires branch { IsBranch arena.old.blocks branch }
    requires absent { IsFalse
        (has_key word_order (branch_view arena.old.blocks branch).children byte) }
    requires child { child ≢ 0 }
    ensures put { IfOk result
        (λ w. IsBranchOf arena.new.blocks w
        (with_child (branch_view arena.old.blocks branch) byte child population)) }
    ensures frame { IfOk result
        (λ w. Frame arena.old.blocks arena.new.blocks (branch_number branch ∷ [])
        (branch_number w ∷ [])) }
    ensures unchanged { OnErr result (arena.new.blocks ≡ arena.old.blocks) }
    ensures refusals { arena.new.refusals
        ≡ (if is_ok result then arena.old.refusals else count_up arena.old.refusals) }
    ensures stays { HasRoom arena.old.blocks branch → result ≡ Ok branch }
    ensures rests { HasRoom arena.old.blocks branch
        → arena.new.region ≡ arena.old.region }
    ensures draws { IfOk result
        (λ w. (HasRoom arena.old.blocks branch → ⊥)
        → DrawsBlock arena.old arena.new (branch_size arena.new.blocks w)) }
    ensures memory { Takes (if is_ok result then 1 else 0) arena.old arena.new }
{
    let shape = read_shape(branch);
    let own = block(branch);
    if has_room(shape, arena.words(own)) {
        insert_with(shape, arena.words_mut(own), byte, child, population);
        return Ok(branch);
    }
    let grown = grow(alloc, arena, shape, own, byte, child, population)?;
    Ok(grown)
}

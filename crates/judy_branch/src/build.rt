//! Makes branches from lists of children.
ghost use Rattle.std.specs.Prelude.{◌≡◌, ◌+◌, ◌*◌, ◌-◌, ◌%◌, ◌^◌, ◌<◌, ◌≤◌, [], ◌∷◌, length, take, Some, IsTrue, IsFalse, IfOk, OnErr, is_ok, if◌then◌else◌};
ghost use Rattle.std.specs.List.{list_all};
ghost use Rattle.judy_arena.specs.Blocks.{is_live, words_of, put, count_up, zeros};
ghost use Rattle.judy_arena.specs.Draws.{DrawsBlock};
ghost use Rattle.judy_arena.specs.Frame.{Frame};
ghost use Rattle.judy_arena.specs.Room.{room};
ghost use Rattle.judy_arena.specs.Takes.{Takes};
ghost use Rattle.judy_model.specs.Contents.{word_order, IsRising};
ghost use Rattle.judy_branch.specs.Branch.{IsBranchOf, branch_number};
ghost use Rattle.judy_branch.specs.Children.{IsLaid, children_in, count_in, level_in, prefix_in, population_in, is_child_entry, least, most, used_words, shape_of, IsBuilt};
ghost use Rattle.judy_refs.specs.References.{number_of};
ghost use Rattle.judy_branch.specs.Draws.{branch_size};
ghost use Rattle.judy_branch.specs.Written.{BranchBecomes};

use crate::edit::insert_child;
use crate::shape::{Shape, kind};
use judy_arena::{Arena, Block, NoMemory};
use judy_refs::Ref;
use std::alloc::Global;

/// The shape of a branch with this many children.
pub(crate) fn shape_for(count: usize) -> Shape
    requires some { 2 ≤ count }
    requires few { count ≤ 256 }
    ensures least { least result ≤ count }
    ensures most { count ≤ most result }
{
    if count <= 8 {
        return Shape::Linear;
    }
    if count <= 127 {
        return Shape::Bitmap;
    }
    Shape::Full
}

/// The words that this many children use.
pub(crate) fn size(shape: Shape, count: usize) -> usize
    requires { count ≤ 256 }
    ensures { result ≡ used_words shape count }
{
    match shape {
        Shape::Linear => 4 + count,
        Shape::Bitmap => 7 + count,
        Shape::Full => 259,
    }
}

/// Writes all children of a list into the words of a branch that has none.
pub(crate) fn fill(shape: Shape, words: &mut [u64], list: &[(u8, Ref)])
    requires laid { IsLaid shape words.old }
    requires empty { children_in shape words.old ≡ [] }
    requires few { length list.now ≤ most shape }
    requires room { used_words shape (length list.now) ≤ length words.old }
    requires rising { IsRising word_order list.now }
    requires sound { IsTrue (list_all is_child_entry list.now) }
    ensures { BranchBecomes shape words.old words.new list.now }
{
    for i in 0..list.len() {
        let (byte, child) = list[i];
        insert_child(shape, words, byte, child);
    }
}

// Writes a branch with the children of a list to words of zeros.
fn lay(shape: Shape, words: &mut [u64], level: u8, prefix: u64, population: u64, list: &[(u8, Ref)])
    requires zeros { words.old ≡ zeros (length words.old) }
    requires few { length list.now ≤ most shape }
    requires room { used_words shape (length list.now) ≤ length words.old }
    requires rising { IsRising word_order list.now }
    requires sound { IsTrue (list_all is_child_entry list.now) }
    ensures { IsBuilt shape words.new level prefix population list.now }
{
    words[0] = 512 * u64::from(level);
    words[1] = prefix;
    words[2] = population;
    fill(shape, words, list);
}

/// A new block with the children of a list, of the size for `capacity` children.
pub(crate) fn build(
    alloc: Global,
    arena: &mut Arena,
    shape: Shape,
    capacity: usize,
    level: u8,
    prefix: u64,
    population: u64,
    list: &[(u8, Ref)],
) -> Result<Block, NoMemory>
    requires few { length list.now ≤ most shape }
    requires all { length list.now ≤ capacity }
    requires few_children { capacity ≤ 256 }
    requires rising { IsRising word_order list.now }
    requires sound { IsTrue (list_all is_child_entry list.now) }
    ensures built { IfOk result
        (λ n. IsBuilt shape (words_of arena.new.blocks n) level prefix population list.now) }
    ensures size { IfOk result
        (λ n. length (words_of arena.new.blocks n) ≡ room (used_words shape capacity)) }
    ensures fresh { IfOk result (λ n. IsFalse (is_live arena.old.blocks n)) }
    ensures only { IfOk result
        (λ n. arena.new.blocks ≡ put arena.old.blocks n (words_of arena.new.blocks n)) }
    ensures unchanged { OnErr result (arena.new.blocks ≡ arena.old.blocks) }
    ensures refusals { arena.new.refusals
        ≡ (if is_ok result then arena.old.refusals else count_up arena.old.refusals) }
    ensures draws { IfOk result
        (λ n. DrawsBlock arena.old arena.new (length (words_of arena.new.blocks n))) }
    ensures memory { Takes (if is_ok result then 1 else 0) arena.old arena.new }
{
    let to = arena.alloc(alloc, size(shape, capacity))?;
    lay(shape, arena.words_mut(to), level, prefix, population, list);
    Ok(to)
}

/// The reference to a branch of this shape.
pub(crate) fn refer(shape: Shape, block: Block) -> Ref
    ensures shape { shape_of result ≡ Some shape }
    ensures block { number_of result ≡ block }
{
    let _number = block.number();
    Ref::of(kind(shape), block)
}

/// A new branch with exactly these children, in rising order of the bytes.
///
/// Err if the arena refused a block: no block changes.
pub fn make(
    alloc: Global,
    arena: &mut Arena,
    level: u8,
    prefix: u64,
    children: &[(u8, Ref)],
    population: u64,
) -> Result<Ref, NoMemory>
    requires level { level ≤ 6 }
    requires prefix { prefix % 2 ^ (64 - 8 * level) ≡ 0 }
    requires some { 2 ≤ length children.now }
    requires few { length children.now ≤ 256 }
    requires rising { IsRising word_order children.now }
    requires sound { IsTrue (list_all is_child_entry children.now) }
    ensures branch { IfOk result
        (λ w. IsBranchOf arena.new.blocks w
        (record {
          level = level;
          prefix = prefix;
          population = population;
          children = children.now;
        })) }
    ensures frame { IfOk result
        (λ w. Frame arena.old.blocks arena.new.blocks [] (branch_number w ∷ [])) }
    ensures unchanged { OnErr result (arena.new.blocks ≡ arena.old.blocks) }
    ensures refusals { arena.new.refusals
        ≡ (if is_ok result then arena.old.refusals else count_up arena.old.refusals) }
    ensures draws { IfOk result
        (λ w. DrawsBlock arena.old arena.new (branch_size arena.new.blocks w)) }
    ensures memory { Takes (if is_ok result then 1 else 0) arena.old arena.new }
{
    let shape = shape_for(children.len());
    let block = build(
        alloc,
        arena,
        shape,
        children.len(),
        level,
        prefix,
        population,
        children,
    )?;
    Ok(refer(shape, block))
}

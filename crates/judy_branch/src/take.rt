//! Removes a child from a branch.
ghost use Rattle.std.specs.Prelude.{◌≡◌, ◌+◌, ◌<◌, ◌≤◌, [], ◌∷◌, length, take, IsTrue};
ghost use Rattle.judy_arena.specs.Blocks.{words_of, put};
ghost use Rattle.judy_arena.specs.Frame.{Frame};
ghost use Rattle.judy_arena.specs.Room.{room};
ghost use Rattle.judy_arena.specs.Takes.{TakesNothing};
ghost use Rattle.judy_branch.specs.Children.{IsRoom};
ghost use Rattle.judy_model.specs.Contents.{word_order, has_key, without_key};
ghost use Rattle.judy_branch.specs.Branch.{IsBranch, branch_view, branch_number};
ghost use Rattle.judy_branch.specs.Children.{IsLaid, IsBuilt, children_in, count_in, level_in, prefix_in, least as least_of};
ghost use Rattle.judy_branch.specs.Taken.{IsTakenChild};
ghost use Rattle.judy_branch.specs.Written.{IsEmptied, IsMoved};
ghost use Rattle.judy_branch.specs.declared.shape.Shape.TheVariants.{Linear, Bitmap};

use crate::build::{fill, refer, shape_for, size};
use crate::change::gather;
use crate::edit::remove_child;
use crate::gap::copy_in;
use crate::read::block;
use crate::shape::{Shape, read_shape};
use judy_arena::{Arena, Block};
use judy_refs::Ref;

/// What a branch becomes without one of its children.
#[derive(Clone, Copy, Debug, PartialEq, Eq)]
pub enum Taken {
    /// The branch, with at least two children left.
    Branch(Ref),
    /// The one child that is left. The branch's block was released.
    Only(Ref),
}

// The least number of children of a branch of this shape.
fn least(shape: Shape) -> usize
    ensures { result ≡ least_of shape }
{
    match shape {
        Shape::Linear => 2,
        Shape::Bitmap => 9,
        Shape::Full => 128,
    }
}

// Cuts a block to the size for this many words, if that is less than its own.
fn cut(arena: &mut Arena, block: Block, len: usize)
    requires some { 4 < len }
    requires within { len ≤ length (words_of arena.old.blocks block) }
    requires sized { IsRoom (length (words_of arena.old.blocks block)) }
    ensures words { words_of arena.new.blocks block
        ≡ take (room len) (words_of arena.old.blocks block) }
    ensures only { arena.new.blocks ≡ put arena.old.blocks block
        (take (room len) (words_of arena.old.blocks block)) }
    ensures memory { TakesNothing arena.old arena.new }
{
    if len <= arena.words(block).len() / 2 {
        arena.shrink(block, len);
    }
}

// Removes all children and keeps the head.
fn clear(words: &mut [u64])
    requires { 7 ≤ length words.old }
    ensures linear { IsEmptied Linear words.old words.new }
    ensures bitmap { IsEmptied Bitmap words.old words.new }
{
    let head = words[0];
    words[0] = head - head % 512;
    copy_in(words, 3, &[0, 0, 0, 0]);
}

// Rewrites the children in the shape for their number, in the same block.
fn rebuild(shape: Shape, words: &mut [u64]) -> Shape
    requires laid { IsLaid shape words.old }
    requires some { 2 ≤ count_in words.old }
    requires few { count_in words.old ≤ 127 }
    requires room { 7 + count_in words.old ≤ length words.old }
    ensures moved { IsMoved shape result words.old words.new }
    ensures least { least_of result ≤ count_in words.old }
{
    let mut list = [(0, Ref::EMPTY); 127];
    let count = gather(shape, words, &mut list);
    let target = shape_for(count);
    clear(words);
    fill(target, words, &list[..count]);
    target
}

// Chooses the shape for the children that are left, and rewrites them in it.
fn settle(shape: Shape, words: &mut [u64]) -> Shape
    requires laid { IsLaid shape words.old }
    requires some { 2 ≤ count_in words.old }
    requires near { least_of shape ≤ count_in words.old + 1 }
    ensures moved { IsMoved shape result words.old words.new }
    ensures least { least_of result ≤ count_in words.old }
{
    let count = (words[0] % 512) as usize;
    if count >= least(shape) {
        return shape;
    }
    rebuild(shape, words)
}

// Removes the child of a byte and writes the population. Returns how many children are left.
fn remove_with(shape: Shape, words: &mut [u64], byte: u8, population: u64) -> usize
    requires laid { IsLaid shape words.old }
    requires there { IsTrue (has_key word_order (children_in shape words.old) byte) }
    ensures built { IsBuilt shape words.new (level_in words.old) (prefix_in words.old) population
        (without_key word_order (children_in shape words.old) byte) }
    ensures count { result ≡ count_in words.new }
{
    words[2] = population;
    remove_child(shape, words, byte);
    (words[0] % 512) as usize
}

/// Removes the child of a byte, and sets the branch's population. This cannot fail and takes no
/// memory.
pub fn take_child(arena: &mut Arena, branch: Ref, byte: u8, population: u64) -> Taken
    requires branch { IsBranch arena.old.blocks branch }
    requires there { IsTrue
        (has_key word_order (branch_view arena.old.blocks branch).children byte) }
    ensures taken { IsTakenChild arena.old.blocks arena.new.blocks branch byte population result }
    ensures memory { TakesNothing arena.old arena.new }
{
    let shape = read_shape(branch);
    let own = block(branch);
    let left = remove_with(shape, arena.words_mut(own), byte, population);
    if left == 1 {
        let only = Ref::known(arena.get(own, 4));
        arena.release(own);
        return Taken::Only(only);
    }
    let target = settle(shape, arena.words_mut(own));
    cut(arena, own, size(target, left));
    Taken::Branch(refer(target, own))
}

/// Releases a branch's block. The blocks of its children stay.
pub fn release(arena: &mut Arena, branch: Ref)
    requires { IsBranch arena.old.blocks branch }
    ensures frame { Frame arena.old.blocks arena.new.blocks (branch_number branch ∷ []) [] }
    ensures memory { TakesNothing arena.old arena.new }
{
    arena.release(block(branch));
}

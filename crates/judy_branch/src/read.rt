//! Reads a branch.
ghost use Rattle.std.specs.Prelude.{◌≡◌, ◌≢◌, ◌<◌, ◌≤◌, ◌&&◌, nat_le, nat_lt, filter, length, Some, IfSome, IsSome, IsTrue, slice_get};
ghost use Rattle.judy_arena.specs.Blocks.{words_of};
ghost use Rattle.judy_refs.specs.References.{is_reference, number_of};
ghost use Rattle.judy_model.specs.Contents.{word_order, value_of, first, last};
ghost use Rattle.judy_branch.specs.Branch.{IsBranch, branch_view, branch_words};
ghost use Rattle.judy_branch.specs.Nearest.{IsNextByte, IsPrevByte};
ghost use Rattle.judy_branch.specs.Rows.{IsChildRow};
ghost use Rattle.judy_branch.specs.Slots.{some_words, child_words};
ghost use Rattle.judy_branch.specs.Children.{level_in, shape_of, children_in, IsLaid, is_child};

use crate::heads::Head;
use crate::shape::{Shape, read_shape};
use crate::{bitmap, full, linear};
use judy_arena::{Arena, Block};
use judy_refs::{Kind, Ref};

// The block of a branch.
pub(crate) fn block(branch: Ref) -> Block
    requires { branch ≢ 0 }
    ensures { result ≡ number_of branch }
{
    match branch.block() {
        Some(block) => block,
        None => unreachable!(),
    }
}

// The words of a branch's block.
pub(crate) fn look(arena: &Arena, branch: Ref) -> &[u64]
    requires { IsBranch arena.now.blocks branch }
    ensures words { result.now ≡ branch_words arena.now.blocks branch }
    ensures some { 3 < length result.now }
    ensures level { level_in result.now ≤ 6 }
{
    arena.words(block(branch))
}

// The word of a byte's child, by the shape of the branch. Inlined, so that the shape is found by the
// tests of the reference's kind alone.
#[inline(always)]
pub(crate) fn child_in(shape: Shape, words: &[u64], byte: u8) -> Option<u64>
    requires { IsLaid shape words.now }
    ensures { result ≡ value_of word_order (children_in shape words.now) byte }
{
    match shape {
        Shape::Linear => linear::child(words, byte),
        Shape::Bitmap => bitmap::child(words, byte),
        Shape::Full => full::child(words, byte),
    }
}

/// The head of a branch, read at once.
pub fn head(arena: &Arena, branch: Ref) -> Head
    requires { IsBranch arena.now.blocks branch }
    ensures level { result.level ≡ (branch_view arena.now.blocks branch).level }
    ensures prefix { result.prefix ≡ (branch_view arena.now.blocks branch).prefix }
    ensures population { result.population ≡ (branch_view arena.now.blocks branch).population }
{
    let words = look(arena, branch);
    Head {
        level: (words[0] / 512) as u8,
        prefix: words[1],
        population: words[2],
    }
}

/// The byte by which the branch chooses.
pub fn level(arena: &Arena, branch: Ref) -> u8
    requires { IsBranch arena.now.blocks branch }
    ensures { result ≡ (branch_view arena.now.blocks branch).level }
{
    (look(arena, branch)[0] / 512) as u8
}

/// The bytes before the level, which all keys below share. The other bytes are 0.
pub fn prefix(arena: &Arena, branch: Ref) -> u64
    requires { IsBranch arena.now.blocks branch }
    ensures { result ≡ (branch_view arena.now.blocks branch).prefix }
{
    look(arena, branch)[1]
}

/// The number of keys below.
pub fn population(arena: &Arena, branch: Ref) -> u64
    requires { IsBranch arena.now.blocks branch }
    ensures { result ≡ (branch_view arena.now.blocks branch).population }
{
    look(arena, branch)[2]
}

// A child's word as a reference.
#[inline(always)]
fn known(word: Option<u64>) -> Option<Ref>
    requires { IfSome word (λ w. IsTrue (is_reference w)) }
    ensures { result ≡ word }
{
    match word {
        Some(word) => Some(Ref::known(word)),
        None => None,
    }
}

/// The child of a byte. A full branch is tested for first, as most insertions and look-ups pass through some.
#[inline(always)]
pub fn child(arena: &Arena, branch: Ref, byte: u8) -> Option<Ref>
    requires { IsBranch arena.now.blocks branch }
    ensures { result ≡ value_of word_order (branch_view arena.now.blocks branch).children byte }
{
    let words = look(arena, branch);
    if branch.leads_to(Kind::FullBranch) {
        return known(full::child(words, byte));
    }
    known(child_in(read_shape(branch), words, byte))
}

// The first byte from this one on that has a child, by the shape of the branch.
fn next_byte(shape: Shape, words: &[u64], byte: u8) -> Option<u8>
    requires { IsLaid shape words.now }
    ensures { IsNextByte (children_in shape words.now) byte result }
{
    match shape {
        Shape::Linear => linear::next_byte(words, byte),
        Shape::Bitmap => bitmap::next_byte(words, byte),
        Shape::Full => full::next_byte(words, byte),
    }
}

// The last byte up to this one that has a child, by the shape of the branch.
fn prev_byte(shape: Shape, words: &[u64], byte: u8) -> Option<u8>
    requires { IsLaid shape words.now }
    ensures { IsPrevByte (children_in shape words.now) byte result }
{
    match shape {
        Shape::Linear => linear::prev_byte(words, byte),
        Shape::Bitmap => bitmap::prev_byte(words, byte),
        Shape::Full => full::prev_byte(words, byte),
    }
}

/// The child of the first byte from this one on that has one, with its byte.
pub fn next_child(arena: &Arena, branch: Ref, byte: u8) -> Option<(u8, Ref)>
    requires { IsBranch arena.now.blocks branch }
    ensures { result ≡ first word_order (branch_view arena.now.blocks branch).children byte }
{
    let words = look(arena, branch);
    let shape = read_shape(branch);
    let Some(at) = next_byte(shape, words, byte) else {
        return None;
    };
    match child_in(shape, words, at) {
        Some(word) => Some((at, Ref::known(word))),
        None => unreachable!(),
    }
}

/// The child of the last byte up to this one that has one, with its byte.
pub fn prev_child(arena: &Arena, branch: Ref, byte: u8) -> Option<(u8, Ref)>
    requires { IsBranch arena.now.blocks branch }
    ensures { result ≡ last word_order (branch_view arena.now.blocks branch).children byte }
{
    let words = look(arena, branch);
    let shape = read_shape(branch);
    let Some(at) = prev_byte(shape, words, byte) else {
        return None;
    };
    match child_in(shape, words, at) {
        Some(word) => Some((at, Ref::known(word))),
        None => unreachable!(),
    }
}

/// The child of the greatest byte, with its byte.
pub fn last_child(arena: &Arena, branch: Ref) -> (u8, Ref)
    requires { IsBranch arena.now.blocks branch }
    ensures last { last word_order (branch_view arena.now.blocks branch).children 255
        ≡ Some result }
    ensures there { value_of word_order (branch_view arena.now.blocks branch).children result.0
        ≡ Some result.1 }
{
    match prev_child(arena, branch, 255) {
        Some(child) => child,
        None => unreachable!(),
    }
}

// The words of the children, by the shape of the branch.
fn slots_in(shape: Shape, words: &[u64]) -> &[u64]
    requires { IsLaid shape words.now }
    ensures { some_words result.now ≡ child_words (children_in shape words.now) }
{
    let count = (words[0] % 512) as usize;
    match shape {
        Shape::Linear => &words[4..4 + count],
        Shape::Bitmap => &words[7..7 + count],
        Shape::Full => &words[3..259],
    }
}

/// The words of the children's references, in rising order of their bytes. A full branch has a 0
/// for each byte that has no child.
pub fn slots(arena: &Arena, branch: Ref) -> &[u64]
    requires { IsBranch arena.now.blocks branch }
    ensures { some_words result.now ≡ child_words (branch_view arena.now.blocks branch).children }
{
    slots_in(read_shape(branch), look(arena, branch))
}

// The words of the children with bytes from `from` to below `high`, by the shape of the branch.
fn span_in(shape: Shape, words: &[u64], from: u8, high: u16) -> &[u64]
    requires laid { IsLaid shape words.now }
    requires rising { from ≤ high }
    requires bytes { high ≤ 256 }
    ensures { some_words result.now
        ≡ child_words (filter (λ c. nat_le from c.0 && nat_lt c.0 high)
        (children_in shape words.now)) }
{
    let low = u16::from(from);
    match shape {
        Shape::Linear => &words[4 + linear::place(words, low)..4 + linear::place(words, high)],
        Shape::Bitmap => &words[7 + bitmap::place(words, low)..7 + bitmap::place(words, high)],
        Shape::Full => &words[3 + usize::from(low)..3 + usize::from(high)],
    }
}

/// The words of the references of the children with bytes from `from` to below `high`, in the form
/// of `slots`.
pub fn span(arena: &Arena, branch: Ref, from: u8, high: u16) -> &[u64]
    requires branch { IsBranch arena.now.blocks branch }
    requires rising { from ≤ high }
    requires bytes { high ≤ 256 }
    ensures { some_words result.now
        ≡ child_words (filter (λ c. nat_le from c.0 && nat_lt c.0 high)
        (branch_view arena.now.blocks branch).children) }
{
    span_in(read_shape(branch), look(arena, branch), from, high)
}

// The words of the children of a byte and of the bytes right after it, by the shape of the branch.
fn row_in(shape: Shape, words: &[u64], byte: u8) -> &[u64]
    requires { IsLaid shape words.now }
    ensures { IsChildRow (children_in shape words.now) byte result.now }
{
    match shape {
        Shape::Linear => linear::row(words, byte),
        Shape::Bitmap => bitmap::row(words, byte),
        Shape::Full => full::row(words, byte),
    }
}

/// The words of the references of the children of a byte and of the bytes right after it, one for
/// each byte, up to a byte with no child. In a full branch the row goes up to byte 255, with a 0
/// for each byte that has no child.
pub fn row(arena: &Arena, branch: Ref, byte: u8) -> &[u64]
    requires { IsBranch arena.now.blocks branch }
    ensures { IsChildRow (branch_view arena.now.blocks branch).children byte result.now }
{
    row_in(read_shape(branch), look(arena, branch), byte)
}

//! Inserts, replaces and removes one child in the words of a branch, by the branch's shape.
ghost use Rattle.std.specs.Prelude.{◌≡◌, ◌+◌, ◌<◌, ◌≤◌, length, IsTrue, IsFalse};
ghost use Rattle.judy_model.specs.Contents.{word_order, has_key, with_entry, without_key};
ghost use Rattle.judy_branch.specs.Children.{IsLaid, children_in, count_in, is_child, most, used_words};
ghost use Rattle.judy_branch.specs.Written.{BranchBecomes};

use crate::shape::Shape;
use crate::{bitmap, full, linear};
use judy_refs::Ref;

/// Inserts a child at a byte that has none. Inlined, as are its callers in an insertion.
#[inline(always)]
pub(crate) fn insert_child(shape: Shape, words: &mut [u64], byte: u8, child: Ref)
    requires laid { IsLaid shape words.old }
    requires absent { IsFalse (has_key word_order (children_in shape words.old) byte) }
    requires few { count_in words.old < most shape }
    requires room { used_words shape (count_in words.old + 1) ≤ length words.old }
    requires child { IsTrue (is_child child) }
    ensures { BranchBecomes shape words.old words.new
        (with_entry word_order (children_in shape words.old) byte child) }
{
    let word = child.word();
    match shape {
        Shape::Linear => linear::insert(words, byte, word),
        Shape::Bitmap => bitmap::insert(words, byte, word),
        Shape::Full => full::insert(words, byte, word),
    }
}

/// Replaces the child of a byte.
pub(crate) fn write_child(shape: Shape, words: &mut [u64], byte: u8, child: Ref)
    requires laid { IsLaid shape words.old }
    requires there { IsTrue (has_key word_order (children_in shape words.old) byte) }
    requires child { IsTrue (is_child child) }
    ensures { BranchBecomes shape words.old words.new
        (with_entry word_order (children_in shape words.old) byte child) }
{
    let word = child.word();
    match shape {
        Shape::Linear => linear::write(words, byte, word),
        Shape::Bitmap => bitmap::write(words, byte, word),
        Shape::Full => full::write(words, byte, word),
    }
}

/// Removes the child of a byte.
pub(crate) fn remove_child(shape: Shape, words: &mut [u64], byte: u8)
    requires laid { IsLaid shape words.old }
    requires there { IsTrue (has_key word_order (children_in shape words.old) byte) }
    ensures { BranchBecomes shape words.old words.new
        (without_key word_order (children_in shape words.old) byte) }
{
    match shape {
        Shape::Linear => linear::remove(words, byte),
        Shape::Bitmap => bitmap::remove(words, byte),
        Shape::Full => full::remove(words, byte),
    }
}

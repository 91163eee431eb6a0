//! The children of a bitmap branch.
ghost use Rattle.std.specs.Prelude.{◌≡◌, ℕ, ◌+◌, ◌<◌, ◌≤◌, length, Some, slice_get, IsTrue, IsFalse};
ghost use lib.Seq.{paste};
ghost use Rattle.judy_bitmap.specs.ByteSets.{members, is_member, with_byte, without_byte};
ghost use Rattle.judy_model.specs.Contents.{word_order, value_of, has_key, with_entry, without_key};
ghost use Rattle.judy_branch.specs.Children.{IsLaid, children_in, child_bytes, count_in, bitmap_in, is_child};
ghost use Rattle.judy_branch.specs.Found.{IsFoundByte, IsPlace, IsThere, IsMissing};
ghost use Rattle.judy_branch.specs.Nearest.{IsNextByte, IsPrevByte};
ghost use Rattle.judy_branch.specs.Rows.{IsChildRow};
ghost use Rattle.judy_branch.specs.Written.{BranchBecomes};
ghost use Rattle.judy_branch.specs.declared.shape.Shape.TheVariants.{Bitmap};

use crate::gap::{close_gap, open_gap};
use judy_bitmap::{Bits256, has_in, next_in, prev_in, rank_in};

/// The bitmap.
pub(crate) fn bits(words: &[u64]) -> Bits256
    requires { 7 ≤ length words.now }
    ensures { result ≡ members (bitmap_in words.now) }
{
    Bits256::from_words(&[words[3], words[4], words[5], words[6]])
}

// The four words of the bitmap, where they stand.
fn bit_words(words: &[u64]) -> &[u64]
    requires { 7 ≤ length words.now }
    ensures four { 4 ≤ length result.now }
    ensures same { members result.now ≡ members (bitmap_in words.now) }
{
    &words[3..7]
}

/// The place of a byte: Ok with its place, Err with the place where it would go.
pub(crate) fn find(words: &[u64], byte: u8) -> Result<usize, usize>
    requires { 7 ≤ length words.now }
    ensures { IsFoundByte (members (bitmap_in words.now)) byte result }
{
    let bits = bit_words(words);
    let place = rank_in(bits, byte) as usize;
    if has_in(bits, byte) {
        return Ok(place);
    }
    Err(place)
}

/// The word of a byte's child.
pub(crate) fn child(words: &[u64], byte: u8) -> Option<u64>
    requires { IsLaid Bitmap words.now }
    ensures { result ≡ value_of word_order (children_in Bitmap words.now) byte }
{
    match find(words, byte) {
        Ok(place) => Some(words[7 + place]),
        Err(_) => None,
    }
}

// The place of a byte that has a child.
fn there(words: &[u64], byte: u8) -> usize
    requires laid { IsLaid Bitmap words.now }
    requires there { IsTrue (has_key word_order (children_in Bitmap words.now) byte) }
    ensures place { IsThere (child_bytes Bitmap words.now) byte result }
    ensures within { result < count_in words.now }
{
    match find(words, byte) {
        Ok(place) => place,
        Err(_) => unreachable!(),
    }
}

// The place where a byte without a child would go.
fn missing(words: &[u64], byte: u8) -> usize
    requires laid { IsLaid Bitmap words.now }
    requires absent { IsFalse (has_key word_order (children_in Bitmap words.now) byte) }
    ensures place { IsMissing (child_bytes Bitmap words.now) byte result }
    ensures within { result ≤ count_in words.now }
{
    match find(words, byte) {
        Ok(_) => unreachable!(),
        Err(place) => place,
    }
}

// Writes the byte into its word of the bitmap. The other words stay.
fn write_member(words: &mut [u64], byte: u8)
    requires { 7 ≤ length words.old }
    ensures bits { members (bitmap_in words.new)
        ≡ with_byte (members (bitmap_in words.old)) byte }
    ensures others { words.new ≡ paste words.old 3 (bitmap_in words.new) 4 }
{
    let row = 3 + usize::from(byte / 64);
    words[row] |= 1 << (byte % 64);
}

/// Inserts a child at a byte that has none.
pub(crate) fn insert(words: &mut [u64], byte: u8, child: u64)
    requires laid { IsLaid Bitmap words.old }
    requires absent { IsFalse (has_key word_order (children_in Bitmap words.old) byte) }
    requires few { count_in words.old < 127 }
    requires room { 7 + (count_in words.old + 1) ≤ length words.old }
    requires child { IsTrue (is_child child) }
    ensures { BranchBecomes Bitmap words.old words.new
        (with_entry word_order (children_in Bitmap words.old) byte child) }
{
    let head = words[0];
    let place = missing(words, byte);
    let count = (head % 512) as usize;
    open_gap(words, 7 + place, count - place, child);
    write_member(words, byte);
    words[0] = head + 1;
}

/// Replaces the child of a byte.
pub(crate) fn write(words: &mut [u64], byte: u8, child: u64)
    requires laid { IsLaid Bitmap words.old }
    requires there { IsTrue (has_key word_order (children_in Bitmap words.old) byte) }
    requires child { IsTrue (is_child child) }
    ensures { BranchBecomes Bitmap words.old words.new
        (with_entry word_order (children_in Bitmap words.old) byte child) }
{
    let place = there(words, byte);
    words[7 + place] = child;
}

// Removes the byte from its word of the bitmap. The other words stay.
fn clear_member(words: &mut [u64], byte: u8)
    requires { 7 ≤ length words.old }
    ensures bits { members (bitmap_in words.new)
        ≡ without_byte (members (bitmap_in words.old)) byte }
    ensures others { words.new ≡ paste words.old 3 (bitmap_in words.new) 4 }
{
    let row = 3 + usize::from(byte / 64);
    words[row] &= !(1 << (byte % 64));
}

/// Removes the child of a byte.
pub(crate) fn remove(words: &mut [u64], byte: u8)
    requires laid { IsLaid Bitmap words.old }
    requires there { IsTrue (has_key word_order (children_in Bitmap words.old) byte) }
    ensures { BranchBecomes Bitmap words.old words.new
        (without_key word_order (children_in Bitmap words.old) byte) }
{
    let head = words[0];
    let place = there(words, byte);
    let count = (head % 512) as usize;
    close_gap(words, 7 + place, count - place - 1);
    clear_member(words, byte);
    words[0] = head - 1;
}

/// The first byte from this one on that has a child.
pub(crate) fn next_byte(words: &[u64], byte: u8) -> Option<u8>
    requires { IsLaid Bitmap words.now }
    ensures { IsNextByte (children_in Bitmap words.now) byte result }
{
    next_in(bit_words(words), byte)
}

/// The last byte up to this one that has a child.
pub(crate) fn prev_byte(words: &[u64], byte: u8) -> Option<u8>
    requires { IsLaid Bitmap words.now }
    ensures { IsPrevByte (children_in Bitmap words.now) byte result }
{
    prev_in(bit_words(words), byte)
}

// The first byte from this one on that has no child: 256 if all have one.
fn row_end(words: &[u64], byte: u8) -> usize
    requires { 7 ≤ length words.now }
    ensures from { byte ≤ result }
    ensures within { result ≤ 256 }
    ensures all { (b : ℕ) → byte ≤ b → b < result
        → IsTrue (is_member (members (bitmap_in words.now)) b) }
    ensures stop { result < 256 → IsFalse (is_member (members (bitmap_in words.now)) result) }
{
    match bits(words).next_clear(byte) {
        Some(end) => usize::from(end),
        None => 256,
    }
}

/// The words of the children of a byte and of the bytes right after it, up to one with no child.
pub(crate) fn row(words: &[u64], byte: u8) -> &[u64]
    requires { IsLaid Bitmap words.now }
    ensures { IsChildRow (children_in Bitmap words.now) byte result.now }
{
    let Ok(place) = find(words, byte) else {
        return &words[..0];
    };
    let many = row_end(words, byte) - usize::from(byte);
    &words[7 + place..7 + place + many]
}

/// The byte and the word of the child at a place. The bytes before it are below `from`, and it is
/// not.
pub(crate) fn nth(words: &[u64], place: usize, from: u16) -> (u8, u64)
    requires laid { IsLaid Bitmap words.now }
    requires within { place < length (children_in Bitmap words.now) }
    requires from { IsPlace (child_bytes Bitmap words.now) from place }
    ensures { slice_get (children_in Bitmap words.now) place ≡ Some result }
{
    match next_in(bit_words(words), from as u8) {
        Some(byte) => (byte, words[7 + place]),
        None => unreachable!(),
    }
}

/// The place of the first byte from this one on.
pub(crate) fn place(words: &[u64], byte: u16) -> usize
    requires laid { IsLaid Bitmap words.now }
    ensures { IsPlace (child_bytes Bitmap words.now) byte result }
{
    if byte > 255 {
        return (words[0] % 512) as usize;
    }
    match find(words, byte as u8) {
        Ok(place) => place,
        Err(place) => place,
    }
}

//! The children of a linear branch. Their bytes are packed in one word.
ghost use Rattle.std.specs.Prelude.{◌≡◌, ℕ, ◌+◌, ◌-◌, ◌*◌, ◌/◌, ◌%◌, ◌^◌, ◌<◌, ◌≤◌, length, Some, get_or, slice_get, IsTrue, IsFalse};
ghost use Rattle.std.specs.List.{insert as with_item, remove as without_item};
ghost use Rattle.judy_model.specs.Contents.{word_order, value_of, has_key, with_entry, without_key};
ghost use Rattle.judy_branch.specs.Children.{IsLaid, children_in, child_bytes, count_in, is_child};
ghost use Rattle.judy_branch.specs.Found.{IsFoundByte, IsPlace, IsThere, IsMissing};
ghost use Rattle.judy_branch.specs.Nearest.{IsNextByte, IsPrevByte};
ghost use Rattle.judy_branch.specs.Packed.{unpacked};
ghost use Rattle.judy_branch.specs.Rows.{IsChildRow};
ghost use Rattle.judy_branch.specs.Written.{BranchBecomes};
ghost use Rattle.judy_branch.specs.declared.shape.Shape.TheVariants.{Linear};

use crate::gap::{close_gap, open_gap};

/// The place of a byte among the first `count` bytes of a word, which rise: Ok with its place, Err
/// with the place where it would go.
pub(crate) fn find(word: u64, count: usize, byte: u8) -> Result<usize, usize>
    ensures { IsFoundByte (unpacked count word) byte result }
{
    let mut rest = word;
    for i in 0..count {
        let here = (rest % 256) as u8;
        if here >= byte {
            if here == byte {
                return Ok(i);
            }
            return Err(i);
        }
        rest /= 256;
    }
    Err(count)
}

/// The word of a byte's child.
pub(crate) fn child(words: &[u64], byte: u8) -> Option<u64>
    requires { IsLaid Linear words.now }
    ensures { result ≡ value_of word_order (children_in Linear words.now) byte }
{
    let count = (words[0] % 512) as usize;
    match find(words[3], count, byte) {
        Ok(place) => Some(words[4 + place]),
        Err(_) => None,
    }
}

// The place of a byte that has a child.
fn there(words: &[u64], byte: u8) -> usize
    requires laid { IsLaid Linear words.now }
    requires there { IsTrue (has_key word_order (children_in Linear words.now) byte) }
    ensures place { IsThere (child_bytes Linear words.now) byte result }
    ensures within { result < count_in words.now }
{
    match find(words[3], (words[0] % 512) as usize, byte) {
        Ok(place) => place,
        Err(_) => unreachable!(),
    }
}

// The place where a byte without a child would go.
fn missing(words: &[u64], byte: u8) -> usize
    requires laid { IsLaid Linear words.now }
    requires absent { IsFalse (has_key word_order (children_in Linear words.now) byte) }
    ensures place { IsMissing (child_bytes Linear words.now) byte result }
    ensures within { result ≤ count_in words.now }
{
    match find(words[3], (words[0] % 512) as usize, byte) {
        Ok(_) => unreachable!(),
        Err(place) => place,
    }
}

// The packed bytes after a byte is inserted at the place.
fn insert_byte(packed: u64, count: usize, place: usize, byte: u8) -> u64
    requires few { count ≤ 7 }
    requires place { place ≤ count }
    requires packed { packed < 256 ^ count }
    ensures bytes { unpacked (count + 1) result ≡ with_item (unpacked count packed) place byte }
    ensures unused { result < 256 ^ (count + 1) }
{
    let shift = 8 * place as u32;
    let low = packed & ((1 << shift) - 1);
    low + (u64::from(byte) << shift) + (packed - low) * 256
}

/// Inserts a child at a byte that has none.
pub(crate) fn insert(words: &mut [u64], byte: u8, child: u64)
    requires laid { IsLaid Linear words.old }
    requires absent { IsFalse (has_key word_order (children_in Linear words.old) byte) }
    requires few { count_in words.old < 8 }
    requires room { 4 + (count_in words.old + 1) ≤ length words.old }
    requires child { IsTrue (is_child child) }
    ensures { BranchBecomes Linear words.old words.new
        (with_entry word_order (children_in Linear words.old) byte child) }
{
    let head = words[0];
    let packed = words[3];
    let place = missing(words, byte);
    let count = (head % 512) as usize;
    open_gap(words, 4 + place, count - place, child);
    words[3] = insert_byte(packed, count, place, byte);
    words[0] = head + 1;
}

/// Replaces the child of a byte.
pub(crate) fn write(words: &mut [u64], byte: u8, child: u64)
    requires laid { IsLaid Linear words.old }
    requires there { IsTrue (has_key word_order (children_in Linear words.old) byte) }
    requires child { IsTrue (is_child child) }
    ensures { BranchBecomes Linear words.old words.new
        (with_entry word_order (children_in Linear words.old) byte child) }
{
    let place = there(words, byte);
    words[4 + place] = child;
}

// The packed bytes after the byte at the place is removed.
fn remove_byte(packed: u64, count: usize, place: usize) -> u64
    requires few { count ≤ 8 }
    requires place { place < count }
    requires packed { packed < 256 ^ count }
    ensures bytes { unpacked (count - 1) result ≡ without_item (unpacked count packed) place }
    ensures unused { result < 256 ^ (count - 1) }
{
    let shift = 8 * place as u32;
    let low = packed & ((1 << shift) - 1);
    low + (((packed >> shift) >> 8) << shift)
}

/// Removes the child of a byte.
pub(crate) fn remove(words: &mut [u64], byte: u8)
    requires laid { IsLaid Linear words.old }
    requires there { IsTrue (has_key word_order (children_in Linear words.old) byte) }
    ensures { BranchBecomes Linear words.old words.new
        (without_key word_order (children_in Linear words.old) byte) }
{
    let head = words[0];
    let packed = words[3];
    let place = there(words, byte);
    let count = (head % 512) as usize;
    close_gap(words, 4 + place, count - place - 1);
    words[3] = remove_byte(packed, count, place);
    words[0] = head - 1;
}

// The byte at a place.
fn byte_at(word: u64, place: usize) -> u8
    requires { place < 8 }
    ensures { result ≡ word / 2 ^ (8 * place) % 256 }
{
    ((word >> (8 * place as u32)) % 256) as u8
}

/// The first byte from this one on that has a child.
pub(crate) fn next_byte(words: &[u64], byte: u8) -> Option<u8>
    requires { IsLaid Linear words.now }
    ensures { IsNextByte (children_in Linear words.now) byte result }
{
    let count = (words[0] % 512) as usize;
    match find(words[3], count, byte) {
        Ok(_) => Some(byte),
        Err(place) => {
            if place == count {
                return None;
            }
            Some(byte_at(words[3], place))
        }
    }
}

/// The last byte up to this one that has a child.
pub(crate) fn prev_byte(words: &[u64], byte: u8) -> Option<u8>
    requires { IsLaid Linear words.now }
    ensures { IsPrevByte (children_in Linear words.now) byte result }
{
    let count = (words[0] % 512) as usize;
    match find(words[3], count, byte) {
        Ok(_) => Some(byte),
        Err(place) => {
            if place == 0 {
                return None;
            }
            Some(byte_at(words[3], place - 1))
        }
    }
}

/// The words of the children of a byte and of the bytes right after it, up to one with no child.
pub(crate) fn row(words: &[u64], byte: u8) -> &[u64]
    requires { IsLaid Linear words.now }
    ensures { IsChildRow (children_in Linear words.now) byte result.now }
{
    let count = (words[0] % 512) as usize;
    let Ok(place) = find(words[3], count, byte) else {
        return &words[..0];
    };
    for end in place + 1..count {
        if usize::from(byte_at(words[3], end)) != usize::from(byte) + (end - place) {
            return &words[4 + place..4 + end];
        }
    }
    &words[4 + place..4 + count]
}

/// The byte and the word of the child at a place.
pub(crate) fn nth(words: &[u64], place: usize) -> (u8, u64)
    requires laid { IsLaid Linear words.now }
    requires within { place < length (children_in Linear words.now) }
    ensures { slice_get (children_in Linear words.now) place ≡ Some result }
{
    (byte_at(words[3], place), words[4 + place])
}

/// The place of the first byte from this one on.
pub(crate) fn place(words: &[u64], byte: u16) -> usize
    requires laid { IsLaid Linear words.now }
    ensures { IsPlace (child_bytes Linear words.now) byte result }
{
    if byte > 255 {
        return (words[0] % 512) as usize;
    }
    match find(words[3], (words[0] % 512) as usize, byte as u8) {
        Ok(place) => place,
        Err(place) => place,
    }
}

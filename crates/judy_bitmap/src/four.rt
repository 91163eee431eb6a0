//! Look-ups in the four words of a set of bytes, where they stand: no word is copied, and only the
//! words that a look-up needs are read.
ghost use Rattle.std.specs.Prelude.{◌≡◌, ◌<◌, ◌≤◌, [], ◌∷◌, length, slice_get, slice_index, IsTrue};
ghost use Rattle.judy_bitmap.specs.ByteSets.{members, is_member, below, at_least, at_most, head_of, last_of};

use crate::word::{highest_up_to, lowest_from, ones_below};

/// Whether the byte is a member.
pub fn has_in(words: &[u64], byte: u8) -> bool
    requires { 4 ≤ length words.now }
    ensures { result ≡ is_member (members words.now) byte }
{
    (words[usize::from(byte / 64)] >> (byte % 64)) & 1 == 1
}

// One of three counts, by its place from 0 on. The counts are packed in one word, so that no branch
// depends on the place.
fn pick(first: u32, second: u32, third: u32, place: u8) -> u32
    requires first { first < 256 }
    requires second { second < 256 }
    requires third { third < 256 }
    requires place { place < 3 }
    ensures { result ≡ slice_index (first ∷ second ∷ third ∷ []) place }
{
    ((first + second * 256 + third * 65_536) >> (8 * place)) % 256
}

/// How many members are below the byte. The byte itself is not counted.
pub fn rank_in(words: &[u64], byte: u8) -> u32
    requires { 4 ≤ length words.now }
    ensures rank { result ≡ length (below (members words.now) byte) }
    ensures place { IsTrue (is_member (members words.now) byte)
        → slice_get (members words.now) result ≡ Some byte }
    ensures bound { result ≤ byte }
{
    let row = byte / 64;
    let part = ones_below(words[usize::from(row)], byte % 64);
    if row == 0 {
        return part;
    }
    let one = words[0].count_ones();
    let two = one + words[1].count_ones();
    let three = two + words[2].count_ones();
    part + pick(one, two, three, row - 1)
}

/// The least member that is at least the byte, or `None` if there is none.
pub fn next_in(words: &[u64], byte: u8) -> Option<u8>
    requires { 4 ≤ length words.now }
    ensures { result ≡ head_of (at_least (members words.now) byte) }
{
    let first = byte / 64;
    if let Some(place) = lowest_from(words[usize::from(first)], byte % 64) {
        return Some(64 * first + place);
    }
    for row in first + 1..4 {
        if let Some(place) = lowest_from(words[usize::from(row)], 0) {
            return Some(64 * row + place);
        }
    }
    None
}

/// The greatest member that is at most the byte, or `None` if there is none.
pub fn prev_in(words: &[u64], byte: u8) -> Option<u8>
    requires { 4 ≤ length words.now }
    ensures { result ≡ last_of (at_most (members words.now) byte) }
{
    let last = byte / 64;
    if let Some(place) = highest_up_to(words[usize::from(last)], byte % 64) {
        return Some(64 * last + place);
    }
    for row in (0..last).rev() {
        if let Some(place) = highest_up_to(words[usize::from(row)], 63) {
            return Some(64 * row + place);
        }
    }
    None
}

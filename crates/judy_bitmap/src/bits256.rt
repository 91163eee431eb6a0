//! A set of bytes.
ghost use Rattle.std.specs.Prelude.{◌≡◌, ◌<◌, ◌≤◌, [], length, slice_get, All, IsTrue, IfSome, IfNone, ◌↔◌};
ghost use Rattle.std.specs.List.Sorted.{IsStrictlyIncreasing};
ghost use Rattle.judy_bitmap.specs.ByteSets.{members, absent, is_member, below, at_least, at_most, with_byte, without_byte, head_of, last_of};

use crate::four::{has_in, next_in, prev_in, rank_in};
use crate::word::select_in;
use std::marker::Model;

/// A set of bytes in four words: bit `b % 64` of word `b / 64` says whether byte `b` is a member.
/// Bit 0 is the lowest. The first word has bytes 0 to 63, and the highest bit of the last word is
/// byte 255.
///
/// Contracts see the rising list of its members; `rank` and `select` are facts about that list.
#[derive(Clone, Debug, Drop)]
pub struct Bits256 {
    words: [u64; 4],
}

impl Model for Bits256 {
    ghost use Rattle.std.specs.Prelude.{ℕ, List};
    ghost use Rattle.judy_bitmap.specs.ByteSets.{members};

    ghost Value = { List ℕ };

    ghost view = { λ b. members b.words };
}

impl Bits256 {
    /// The empty set.
    pub fn new() -> Self
        ensures { result ≡ [] }
    {
        Bits256 { words: [0; 4] }
    }

    /// The set with the bits of these four words.
    pub fn from_words(words: &[u64; 4]) -> Self
        ensures { result ≡ members words.now }
    {
        Bits256 { words: *words }
    }

    /// The four words with the bits of the set.
    pub fn words(&self) -> &[u64; 4]
        ensures four { length result.now ≡ 4 }
        ensures same { members result.now ≡ self.now }
        ensures rising { IsStrictlyIncreasing self.now }
        ensures bytes { All (λ m. m < 256) self.now }
    {
        &self.words
    }

    /// Whether the byte is a member.
    pub fn has(&self, byte: u8) -> bool
        ensures { result ≡ is_member self.now byte }
    {
        has_in(self.words(), byte)
    }

    /// Adds the byte. A byte that is a member stays one.
    pub fn set(&mut self, byte: u8)
        ensures { self.new ≡ with_byte self.old byte }
    {
        self.words[usize::from(byte / 64)] |= 1 << (byte % 64);
    }

    /// Removes the byte. A byte that is not a member stays out.
    pub fn clear(&mut self, byte: u8)
        ensures { self.new ≡ without_byte self.old byte }
    {
        self.words[usize::from(byte / 64)] &= !(1 << (byte % 64));
    }

    /// How many members are below the byte. The byte itself is not counted.
    ///
    /// If a block has one word for each member, in their order, this is the place of the byte's
    /// word.
    pub fn rank(&self, byte: u8) -> u32
        ensures rank { result ≡ length (below self.now byte) }
        ensures place { IsTrue (is_member self.now byte) → slice_get self.now result ≡ Some byte }
        ensures bound { result ≤ byte }
    {
        rank_in(self.words(), byte)
    }

    /// The member with `n` members below it, or `None` if there are at most `n` members.
    ///
    /// The search goes by words, and then by halves of a word.
    pub fn select(&self, n: u32) -> Option<u8>
        ensures item { result ≡ slice_get self.now n }
        ensures member { IfSome result (λ m. IsTrue (is_member self.now m)) }
        ensures rank { IfSome result (λ m. length (below self.now m) ≡ n) }
        ensures none { IfNone result (length self.now ≤ n) }
    {
        let mut left = n;
        for row in 0..4u8 {
            let word = self.words[usize::from(row)];
            let ones = word.count_ones();
            if left < ones {
                return Some(64 * row + select_in(word, left));
            }
            left -= ones;
        }
        None
    }

    /// The least member that is at least the byte, or `None` if there is none.
    pub fn next_set(&self, byte: u8) -> Option<u8>
        ensures { result ≡ head_of (at_least self.now byte) }
    {
        next_in(self.words(), byte)
    }

    /// The least byte from this one on that is not a member, or `None` if all of them are.
    pub fn next_clear(&self, byte: u8) -> Option<u8>
        ensures { result ≡ head_of (at_least (absent self.now) byte) }
    {
        self.complement().next_set(byte)
    }

    /// The greatest member that is at most the byte, or `None` if there is none.
    pub fn prev_set(&self, byte: u8) -> Option<u8>
        ensures { result ≡ last_of (at_most self.now byte) }
    {
        prev_in(self.words(), byte)
    }

    /// The greatest byte up to this one that is not a member, or `None` if all of them are.
    pub fn prev_clear(&self, byte: u8) -> Option<u8>
        ensures { result ≡ last_of (at_most (absent self.now) byte) }
    {
        self.complement().prev_set(byte)
    }

    /// The number of members: 0 to 256.
    pub fn len(&self) -> u32
        ensures len { result ≡ length self.now }
        ensures bound { result ≤ 256 }
    {
        let [first, second, third, fourth] = self.words;
        first.count_ones() + second.count_ones() + third.count_ones() + fourth.count_ones()
    }

    /// Whether the set is empty.
    pub fn is_empty(&self) -> bool
        ensures { IsTrue result ↔ (self.now ≡ []) }
    {
        self.len() == 0
    }

    /// The bytes that are not members.
    fn complement(&self) -> Self
        ensures { result ≡ absent self.now }
    {
        let [first, second, third, fourth] = self.words;
        Bits256 {
            words: [!first, !second, !third, !fourth],
        }
    }
}

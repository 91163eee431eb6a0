//! References: words that name a block of an arena and say what it holds.
#![tactic(auto)]

ghost use Rattle.std.specs.Prelude.{◌≡◌, ◌<◌, IsTrue, ◌+◌, ◌*◌, IfNone, IfSome, IsNone, IsSome, false, true, ◌↔◌};
ghost use Rattle.judy_refs.specs.References.{word_of, is_reference, kind_of, leads_to, leads_to_leaf, block_of, kind_number};

use judy_arena::{Block, NUMBERS};
use std::marker::Model;

/// What a block holds. The number of a kind is its place in this list, from 1 on.
#[derive(Clone, Copy, Debug, PartialEq, Eq)]
pub enum Kind {
    /// Whole keys, in rising order.
    LinearLeaf = 1,
    /// Keys that share all bytes but the last, as a bitmap of last bytes.
    BitmapLeaf = 2,
    /// All 256 keys that share all bytes but the last.
    FullLeaf = 3,
    /// Up to 8 children, by the byte that leads to each.
    LinearBranch = 4,
    /// Children by a bitmap of bytes.
    BitmapBranch = 5,
    /// A child or none for each of the 256 bytes.
    FullBranch = 6,
    /// The rest of one string.
    Suffix = 7,
    /// A byte key and what follows it at the same hash.
    Bucket = 8,
}

/// A reference in one word: `kind * 2^32 + number` for a block, or 0 for nothing.
#[derive(Clone, Copy, Debug, PartialEq, Eq)]
pub struct Ref {
    word: u64,
}

impl Model for Ref {
    ghost use Rattle.std.specs.Prelude.{ℕ, IsTrue};
    ghost use Rattle.judy_refs.specs.References.{is_reference};

    ghost Value = { ℕ };

    ghost view = { λ r. r.word };

    ghost invariant = { λ r. IsTrue (is_reference r.word) };

    ghost inverse = { λ n. record { word = n } };
}

impl Ref {
    /// The reference to nothing.
    pub const EMPTY: Ref = Ref { word: 0 };

    /// The reference to a block that holds this.
    pub fn of(kind: Kind, block: Block) -> Ref
        ensures { result ≡ word_of kind block }
    {
        Ref {
            word: kind as u64 * NUMBERS + u64::from(block.number()),
        }
    }

    /// The kind of its block, or None for the empty reference.
    pub fn kind(self) -> Option<Kind>
        ensures { result ≡ kind_of self }
    {
        match self.word / NUMBERS {
            1 => Some(Kind::LinearLeaf),
            2 => Some(Kind::BitmapLeaf),
            3 => Some(Kind::FullLeaf),
            4 => Some(Kind::LinearBranch),
            5 => Some(Kind::BitmapBranch),
            6 => Some(Kind::FullBranch),
            7 => Some(Kind::Suffix),
            8 => Some(Kind::Bucket),
            _ => None,
        }
    }

    /// Whether it leads to a block of this kind.
    #[inline(always)]
    pub fn leads_to(self, kind: Kind) -> bool
        ensures { result ≡ leads_to self kind }
    {
        let number = self.word / NUMBERS;
        number == kind as u64
    }

    /// Whether it leads to a leaf. The empty reference counts as a leaf with no keys.
    #[inline(always)]
    pub fn leads_to_leaf(self) -> bool
        ensures { result ≡ leads_to_leaf self }
    {
        let number = self.word / NUMBERS;
        number <= Kind::FullLeaf as u64
    }

    /// Its block, or None for the empty reference.
    pub fn block(self) -> Option<Block>
        ensures { result ≡ block_of self }
    {
        if self.word == 0 {
            return None;
        }
        Some(Block::numbered((self.word % NUMBERS) as u32))
    }

    /// Its word.
    pub fn word(self) -> u64
        ensures { result ≡ self }
    {
        self.word
    }

    /// Reads a word as a reference. None if it is not one: it is not 0, and its part above 32 bits
    /// is not 1 to 8.
    pub fn read(word: u64) -> Option<Ref>
        ensures some { IfSome result (λ reference. reference ≡ word) }
        ensures is_some { IsSome result ↔ IsTrue (is_reference word) }
    {
        if word == 0 {
            return Some(Ref::EMPTY);
        }
        if word / NUMBERS < 1 || word / NUMBERS > 8 {
            return None;
        }
        Some(Ref { word })
    }

    /// Reads a word that the caller knows to be a reference. Nothing is tested.
    pub fn known(word: u64) -> Ref
        requires { IsTrue (is_reference word) }
        ensures { result ≡ word }
    {
        Ref { word }
    }
}

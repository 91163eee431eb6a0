//! The number of a block.
ghost use Rattle.std.specs.Prelude.{◌≡◌, ◌<◌};

use std::marker::Model;

/// How many block numbers there are.
pub const NUMBERS: u64 = 4_294_967_296;

/// A block of an arena, by its number. It may be live or not.
#[derive(Clone, Copy, Debug, PartialEq, Eq)]
pub struct Block {
    number: u32,
}

impl Model for Block {
    ghost use Rattle.std.specs.Prelude.{ℕ, ◌<◌};

    ghost Value = { ℕ };

    ghost view = { λ b. b.number };

    ghost invariant = { λ b. b.number < 4294967296 };

    ghost inverse = { λ n. record { number = n } };
}

impl Block {
    /// The block of this number, live or not.
    pub fn numbered(number: u32) -> Block
        ensures { result ≡ number }
    {
        Block { number }
    }

    /// Its number.
    pub fn number(self) -> u32
        ensures { result ≡ self }
    {
        self.number
    }

    /// A law, with an empty body: a block's number is below 2^32.
    pub fn is_numbered(self)
        ensures { self < 4294967296 }
    {
        let _ = self.number;
    }
}

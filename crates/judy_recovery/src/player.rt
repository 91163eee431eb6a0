//! What the records of a journal are given to.
ghost use Rattle.std.specs.Prelude.{ℕ, List, [], ◌++◌, OnOk};
ghost use Rattle.judy_model.specs.Stream.{lines_of};

use crate::faults::Reason;

/// Where the playing of records stopped.
#[derive(Clone, Copy, Debug, PartialEq, Eq)]
pub struct Halt {
    /// How many of the records were played.
    pub played: usize,
    /// Why the next one was not.
    pub why: Reason,
}

/// What the records of a journal are given to, commit by commit.
pub trait Player {
    /// These records were played, one after another, by this player, which then was that one.
    ghost plays: { Self → List (List ℕ) → Self → Type 0 };

    /// Plays the records of a commit in order, each of which ends with a line feed, up to the first
    /// that cannot be played.
    fn play(&mut self, records: &[u8]) -> Result<(), Halt>
        ensures { OnOk result (plays self.old (lines_of records.now) self.new) };

    /// A player that does nothing has played no records.
    ghost rests: { (player : Self) → plays player [] player };

    /// Records and then more records are played as all of them together.
    ghost joins: { (before middle after : Self) (records more : List (List ℕ))
        → plays before records middle → plays middle more after
        → plays before (records ++ more) after };
}

//! What a server with a journal asks of the system and of its service.
ghost use Rattle.std.specs.Prelude.{◌≡◌, ℕ, List, [], ◌++◌, IfSome, IsTrue, OnOk};
ghost use Rattle.judy_table.specs.declared.tenant.Tenant.{Tenant};
ghost use Rattle.judy_model.specs.Stream.{lines_of};
ghost use Rattle.judy_recovery.specs.Whole.{HasPlayedJournal, HasResumed, Kept};

use crate::hosts::Hosts;
use judy_protocol::Served;
use judy_recovery::{Halt, JournalFault, Player, Resumed};
use judy_table::Table;
use std::alloc::Global;

/// A service that the records of a journal can be played to. Each of them was admitted once, under the
/// quotas of its time. So they are played without quotas, and then the table is put in force.
pub trait Replays: Served {
    /// The quotas of this table were taken away: this service became that one.
    ghost lifted: { Self → List Tenant → Self → Type 0 };

    /// Takes the quotas away, and returns the table that has them. None if there is no memory for it.
    fn lift(&mut self, alloc: Global) -> Option<Table>
        ensures { IfSome result (λ table. lifted self.old table self.new) };

    /// This table was put in force: this service became that one.
    ghost limited: { Self → List Tenant → Self → Type 0 };

    /// Puts a table in force.
    ///
    /// Err: out of memory, or a tenant holds more than its quota.
    fn limit(&mut self, alloc: Global, table: Table) -> Result<(), JournalFault>
        ensures { OnOk result (limited self.old table self.new) };

    /// These records were played, one after another, to this service, which then was that one.
    ghost replayed: { Self → List (List ℕ) → Self → Type 0 };

    /// Plays the records of a text in order, each of which ends with a line feed, up to the first
    /// that cannot be played.
    fn replay(&mut self, alloc: Global, records: &[u8]) -> Result<(), Halt>
        ensures { OnOk result (replayed self.old (lines_of records.now) self.new) };

    /// A service to which nothing is done has played no records.
    ghost rests: { (service : Self) → replayed service [] service };

    /// Records and then more records are played as all of them together.
    ghost joins: { (before middle after : Self) (records more : List (List ℕ))
        → replayed before records middle → replayed middle more after
        → replayed before (records ++ more) after };
}

/// A player that is made ready to serve once all records were played.
pub trait Readies: Player {
    /// This player was made ready, and is that one.
    ghost readied: { Self → Self → Type 0 };

    /// Makes it ready to serve.
    ///
    /// Err: it cannot be.
    fn ready(&mut self) -> Result<(), JournalFault>
        ensures { OnOk result (readied self.old self.new) };
}

/// A system with the directory of a journal. Its log has nothing of what is read there.
pub trait Journals: Hosts {
    /// The directory at this path may have this journal. Nothing is known of it, if nothing is said.
    ghost may_have: { List ℕ → Kept → Type 0 } = { λ _ _. Unit {0} };

    /// Takes the directory, reads the journal, gives its records to a player, and makes the player
    /// ready. Cuts off what a crash left behind the last whole commit. From then on the journal can be
    /// gone on with, where the result says. None: the system knows the fault, and the journal is
    /// unchanged.
    fn resume<P: Readies>(&mut self, alloc: Global, path: &str, player: &mut P) -> Option<Resumed>
        ensures log { Self.log self.new ≡ Self.log self.old }
        ensures played { IfSome result (λ at. (kept : Kept) × may_have path.now kept
            × (played : P) × HasResumed P.plays kept player.old at played × P.readied played player.new) };

    /// Reads the journal, gives its records to a player, and makes the player ready. The journal is
    /// unchanged. False: the system knows the fault.
    fn look<P: Readies>(&mut self, alloc: Global, path: &str, player: &mut P) -> bool
        ensures log { Self.log self.new ≡ Self.log self.old }
        ensures played { IsTrue result → (kept : Kept) × may_have path.now kept
            × (played : P) × HasPlayedJournal P.plays kept player.old played × P.readied played player.new };
}

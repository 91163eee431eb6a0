//! A service that counts its lines, tells its status, and changes its table.
ghost use Rattle.std.specs.Prelude.{◌≡◌, ◌++◌, ℕ, Bool, List, [], Option, map, option_map, true, false, IfOk, MatchBool, OnOk};
ghost use Rattle.judy_model.specs.Speakers.{Speaker};
ghost use Rattle.judy_model.specs.Stream.{Heard};
ghost use Rattle.judy_protocol.specs.Services.{IsKnown};
ghost use Rattle.judy_protocol.specs.Talks.{as_heard};
ghost use Rattle.judy_many.specs.Changes.{AreLeavers, IsChange};
ghost use Rattle.judy_many.specs.Kicks.{HasName};

use arrayvec::ArrayVec;
use judy_model::{LINE_LIMIT, Name};
use judy_protocol::{Line, Refusal, Served};
use std::alloc::{AllocError, Global};

/// A service that counts the lines that are run, tells its status, as text, and whose table of tenants
/// can be changed.
///
/// `noted` is all that an implementation promises of counting, and `changed` all that it promises of
/// a new table. `unseen` and `stays` prove that it is enough.
pub trait Shows: Served {
    /// The text of the status, with who speaks on each open connection.
    ghost status: { Self → List (Option Speaker) → List ℕ };

    /// A line that was run was counted: who speaks after it, what it asked for, and its answer.
    ghost noted: { Self → Option Speaker → Heard → List ℕ → Self → Type 0 };

    /// The table of this text was put in force, or the order that it is was carried out.
    ghost changed: { Self → List ℕ → Self → Type 0 };

    /// After how many bytes of records since the last snapshot the journal takes no more of the tenant at a
    /// place, if it has such a limit.
    ghost caps: { Self → ℕ → Option ℕ };

    /// The names of the tenants that are gone once the table of this text is in force. None are for an order,
    /// and for a text that is no table.
    ghost leavers: { Self → List ℕ → List (List ℕ) };

    /// The token with which a speaker logged in gives its right by the table in force.
    ghost admits: { Self → Self.Speaker → Bool };

    /// Appends the text, with these speakers of the open connections. It fails only for memory.
    fn show(&self, speakers: &[Option<Self::Speaker>], text: &mut Vec<u8>) -> Result<(), AllocError>
        ensures { OnOk result (text.new.items ≡ text.old.items
            ++ status self.now (map (option_map Self.who) speakers.now)) };

    /// Counts a line that was run, for the tenant that speaks after it, if one does.
    fn note(
        &mut self,
        speaker: Option<Self::Speaker>,
        asked: &Result<Line<'_>, Refusal>,
        answer: &[u8],
    )
        ensures { noted self.old (option_map Self.who speaker) (as_heard asked.now) answer.now self.new };

    /// How many log-ins were refused.
    ghost refused: { Self → ℕ };

    /// The tenant's name of the log-in that was refused last. Empty if no tenant has the name that was given.
    ghost last: { Self → List ℕ };

    /// How many requests were refused for memory.
    ghost short: { Self → ℕ };

    /// How many log-ins were refused.
    fn refused_logins(&self) -> u64
        ensures { result ≡ refused self.now };

    /// The tenant's name of the log-in that was refused last. Empty if no tenant has the name that was
    /// given.
    fn last_refused(&self) -> &[u8]
        ensures { result.now ≡ last self.now };

    /// How many requests were refused for memory.
    fn refused_requests(&self) -> u64
        ensures { result ≡ short self.now };

    /// Puts the table of this text in force, or carries out the order that it is: `FREEZE TENANT DIGEST` or
    /// `THAW TENANT`. False if it does not, and then nothing has changed. Appends to `told` what is said of
    /// it: how many tenants there are, as `3 tenants`, or what an order did, as `alice frozen`; or the fault.
    fn change(&mut self, alloc: Global, text: &[u8], told: &mut Vec<u8>) -> bool
        ensures { MatchBool result (changed self.old text.now self.new) (self.new ≡ self.old) };

    /// Finds the tenants that are gone once the table of this text is in force: returns the name of the first of
    /// them, and puts the request of their record into `request`, with the names of all others. None if nobody
    /// leaves. It fails only for memory.
    fn find_leavers(
        &self,
        alloc: Global,
        text: &[u8],
        request: &mut ArrayVec<u8, LINE_LIMIT>,
    ) -> Result<Option<Name>, AllocError>
        ensures { IfOk result (λ first.
            AreLeavers (leavers self.now text.now) first request.new.items) };

    /// Whether a speaker goes on: after a change of the table its tenant or its token may be gone. One
    /// that goes on may speak.
    fn knows(&self, speaker: Self::Speaker) -> bool
        ensures token { result ≡ admits self.now speaker }
        ensures known { result ≡ true → IsKnown (Self.seen self.now).speakers (Self.who speaker) };

    /// The number of a speaker's tenant.
    fn tenant(&self, speaker: Self::Speaker) -> usize
        ensures { result ≡ (Self.who speaker).tenant };

    /// After how many bytes of records since the last snapshot the journal takes no more of a speaker's tenant, if
    /// it has such a limit.
    fn journal_limit(&self, speaker: Self::Speaker) -> Option<u64>
        ensures { result ≡ caps self.now (Self.who speaker).tenant };

    /// Whether a tenant has this name.
    fn has(&self, name: &[u8]) -> bool
        ensures yes { result ≡ true → HasName (Self.seen self.now).names name.now }
        ensures no { result ≡ false → HasName (Self.seen self.now).names name.now → name.now ≡ [] };

    /// Counting changes nothing that a connection relies on.
    ghost unseen: { (before after : Self) (who : Option Speaker) (line : Heard) (answer : List ℕ)
        → noted before who line answer after → Self.seen after ≡ Self.seen before };

    /// A new table keeps or empties each tenant's arrays.
    ghost stays: { (before after : Self) (text : List ℕ)
        → changed before text after → IsChange (Self.seen before) (Self.seen after) };
}

//! Reads the last file of a journal. Behind what was synced it may have anything after a crash.
ghost use Rattle.std.specs.Prelude.{◌≡◌, IfOk, IfSome, OnErr, OnOk, true, false};
ghost use Rattle.judy_stream.specs.Streams.{MayAlwaysPull};
ghost use Rattle.judy_journal.specs.Notes.{is_torn_end};
ghost use Rattle.judy_recovery.specs.Played.{HasReadLast, ReadsNext};

use crate::faults::Flaw;
use crate::pieces::{Damaged, PIECE, Progress, Stop, read_piece};
use crate::player::Player;
use judy_disk::len_before_zeros;
use judy_journal::{Damage, Notes, Recovery};
use judy_stream::{Pull, Source};

/// How many bytes a file gave.
#[derive(Clone, Copy, Debug)]
pub struct Given {
    /// All of them.
    pub all: u64,
    /// Those up to the last one that is not zero.
    pub solid: u64,
}

impl Given {
    /// Counts more bytes.
    fn count(&mut self, bytes: &[u8]) {
        let solid = len_before_zeros(bytes) as u64;
        if solid > 0 {
            self.solid = self.all.saturating_add(solid);
        }
        self.all = self.all.saturating_add(bytes.len() as u64);
    }
}

/// Reads the next bytes of a file, unless it is damaged before them. Returns the damage, if there is some.
fn read_next<P: Player>(
    recovery: &mut Recovery,
    player: &mut P,
    bytes: &[u8],
    progress: &mut Progress,
    found: Option<Damaged>,
) -> Result<Option<Damaged>, Stop>
    ensures { IfOk result (λ next. ReadsNext P.plays found next recovery.old bytes.now player.old
        recovery.new player.new) }
{
    if let Some(damaged) = found {
        return Ok(Some(damaged));
    }
    match read_piece(recovery, player, bytes, progress) {
        Ok(()) => Ok(None),
        Err(Stop::Damaged(damaged)) => Ok(Some(damaged)),
        Err(Stop::Flaw(byte, flaw)) => Err(Stop::Flaw(byte, flaw)),
        Err(Stop::Fault) => Err(Stop::Fault),
    }
}

/// Reads a file to its end, with its notes. Up to its first damage each commit that is whole is played,
/// in order, and nothing else is. Returns the damage, if there is some.
pub fn read_last<R: Source, P: Player>(
    file: &mut R,
    recovery: &mut Recovery,
    player: &mut P,
    progress: &mut Progress,
    notes: &mut Notes,
    given: &mut Given,
) -> Result<Option<Damaged>, Stop>
    requires ready { MayAlwaysPull R.source PIECE }
    ensures { IfOk result (λ found. HasReadLast P.plays (R.source.left file.old) (R.source.left file.new) found
        recovery.old player.old notes.old recovery.new player.new notes.new) }
{
    let mut piece = [0u8; PIECE];
    let mut found = None;
    for _ in 0..u64::MAX {
        match file.pull(&mut piece) {
            Pull::Bytes(n) => {
                let bytes = &piece[..n];
                notes.read(bytes);
                given.count(bytes);
                found = read_next(recovery, player, bytes, progress, found)?;
            }
            Pull::End => return Ok(found),
            Pull::Fault => return Err(Stop::Fault),
        }
    }
    Err(Stop::Flaw(recovery.place(), Flaw::Damage(Damage::Size)))
}

/// Passes over damage behind this size if it may be what a crash left. If not, it stops there.
pub fn pass(notes: &Notes, size: u64, found: Option<Damaged>) -> Result<(), Stop>
    ensures torn { OnOk result (IfSome found (λ damaged. is_torn_end notes.now.segment notes.now.seen size ≡ true)) }
    ensures refused { OnErr result (is_torn_end notes.now.segment notes.now.seen size ≡ false) }
{
    let Some(damaged) = found else {
        return Ok(());
    };
    if notes.is_torn(size) {
        return Ok(());
    }
    Err(Stop::Damaged(damaged))
}

//! Reads a file of a journal in pieces, and gives its records to a player.
ghost use Rattle.std.specs.Prelude.{◌≡◌, IfErr, OnOk};
ghost use Rattle.judy_stream.specs.Streams.{MayAlwaysPull};
ghost use Rattle.judy_journal.specs.Notes.{changes_in};
ghost use Rattle.judy_recovery.specs.Played.{IsNoDamage, IsStopAt, IsUnplayed, MayBreak, ReadsAll, ReadsOn, len_of_lines};

use crate::faults::Flaw;
use crate::player::{Halt, Player};
use judy_journal::{Damage, HEADER, Read as Found, Recovery};
use judy_protocol::cut_line;
use judy_stream::{Pull, Source};

/// The most bytes that are read at once.
pub const PIECE: usize = 16384;

/// What comes before the version in the first line of a segment.
const ANY_VERSION: &[u8; 14] = b"judyd journal ";

/// Damage of a file, and the byte where its line begins.
#[derive(Clone, Copy, Debug)]
pub struct Damaged {
    /// The byte.
    pub byte: u64,
    /// What is wrong there.
    pub damage: Damage,
}

/// Why a file is not read to its end.
#[derive(Clone, Copy, Debug)]
pub enum Stop {
    /// A read failed.
    Fault,
    /// It has a flaw, at this byte.
    Flaw(u64, Flaw),
    /// It is damaged.
    Damaged(Damaged),
}

/// How far a file was read.
#[derive(Clone, Copy, Debug)]
pub struct Progress {
    /// Where the last whole commit ended, or the first line.
    pub whole: u64,
    /// How many bytes were read.
    pub seen: u64,
}

/// Where the record begins that was not played.
fn start_of(records: &[u8], halt: Halt) -> usize
    ensures { result ≡ len_of_lines halt.played records.now }
{
    let mut rest = records;
    for _line in 0..halt.played {
        match cut_line(rest) {
            Some((_, after)) => rest = after,
            None => return records.len(),
        }
    }
    records.len().saturating_sub(rest.len())
}

/// Whether these bytes begin a file of another version.
fn is_other_version(bytes: &[u8]) -> bool {
    bytes.starts_with(ANY_VERSION) && !bytes.starts_with(HEADER)
}

/// Where the reading stops at this damage, by the first bytes of the file if it was found among them.
fn stop_at(recovery: &Recovery, damage: Damage, progress: &Progress, bytes: &[u8]) -> Stop
    ensures { IsStopAt damage result }
{
    let byte = recovery.place();
    if progress.seen == 0 && damage == Damage::Header && is_other_version(bytes) {
        return Stop::Flaw(byte, Flaw::Version);
    }
    Stop::Damaged(Damaged { byte, damage })
}

/// Gives the records of a commit that became whole to a player, without its note.
fn play<P: Player>(recovery: &Recovery, player: &mut P, progress: &mut Progress) -> Result<(), Stop>
    ensures played { OnOk result
        (P.plays player.old (changes_in recovery.now.reading.records) player.new) }
    ensures flaw { IfErr result (λ stop. IsNoDamage stop) }
    ensures unplayed { IfErr result (λ stop. IsUnplayed progress.old.whole
        (changes_in recovery.now.reading.records) stop) }
{
    let records = recovery.changes();
    if let Err(halt) = player.play(records) {
        let line = start_of(records, halt) as u64;
        let byte = progress.whole.saturating_add(line);
        return Err(Stop::Flaw(byte, Flaw::Unplayed(halt.why)));
    }
    progress.whole = progress.seen;
    Ok(())
}

/// Reads the next bytes of a file. Of the commits that become whole in them each is played, in order,
/// and nothing else is; up to damage, if there is some.
pub fn read_piece<P: Player>(
    recovery: &mut Recovery,
    player: &mut P,
    bytes: &[u8],
    progress: &mut Progress,
) -> Result<(), Stop>
    ensures read { OnOk result
        (ReadsOn P.plays recovery.old bytes.now player.old recovery.new player.new) }
    ensures broken { IfErr result
        (λ stop. MayBreak P.plays stop recovery.old bytes.now player.old recovery.new player.new) }
{
    let mut rest = bytes;
    while !rest.is_empty() {
        match recovery.read(rest) {
            Ok(Found::More) => {
                progress.seen = progress.seen.saturating_add(rest.len() as u64);
                return Ok(());
            }
            Ok(Found::Whole(left)) => {
                let (used, after) = rest.split_at(rest.len() - left);
                progress.seen = progress.seen.saturating_add(used.len() as u64);
                play(&*recovery, player, progress)?;
                rest = after;
            }
            Err(damage) => return Err(stop_at(&*recovery, damage, progress, rest)),
        }
    }
    Ok(())
}

/// Reads a file to its end. Of its commits each that is whole is played, in order, and nothing else is.
pub fn read_file<R: Source, P: Player>(
    file: &mut R,
    recovery: &mut Recovery,
    player: &mut P,
    progress: &mut Progress,
) -> Result<(), Stop>
    requires ready { MayAlwaysPull R.source PIECE }
    ensures { OnOk result (ReadsAll P.plays (R.source.left file.old) (R.source.left file.new)
        recovery.old player.old recovery.new player.new) }
{
    let mut piece = [0u8; PIECE];
    for _ in 0..u64::MAX {
        match file.pull(&mut piece) {
            Pull::Bytes(n) => read_piece(recovery, player, &piece[..n], progress)?,
            Pull::End => return Ok(()),
            Pull::Fault => return Err(Stop::Fault),
        }
    }
    Err(Stop::Flaw(recovery.place(), Flaw::Damage(Damage::Size)))
}

//! Reads all files of a journal in order.
ghost use Rattle.std.specs.Prelude.{◌≡◌, ◌≢◌, ◌⊎◌, ◌≤◌, ◌<◌, ◌+◌, ◌++◌, ℕ, List, [], ◌∷◌, length, true, false, IfOk, OnOk, OnErr, ◌==◌, if◌then◌else◌};
ghost use Rattle.judy_model.specs.Stream.{lines_of};
ghost use Rattle.judy_journal.specs.Acts.{Left};
ghost use Rattle.judy_journal.specs.Journals.{Commit, joined};
ghost use Rattle.judy_journal.specs.Notes.{changes_in};
ghost use Rattle.judy_journal.specs.Readings.{IsRead, LeavesLess};
ghost use Rattle.judy_journal.specs.Recovered.{EndsAt, HasEndedFile, HasEndedSnapshot, HasHalted, HasRecovered, HasUnpacked, IsPosition, IsRecovered, IsUnpacked, place_of, read_in};
ghost use Rattle.judy_journal.specs.Writes.{header_text};

use crate::damage::Damage;
use crate::format::{LAST_SEGMENT, SNAPSHOT, SUM_LEN, numbered_line};
use crate::reader::{Read, Reader};
use std::marker::Model;

/// Reads the files of a journal, one after another, commit by commit.
///
/// For each file the caller passes all its bytes to `read`. Between two files it calls `next_file`.
/// It has some 33 KiB: make one, and put it into a `Box`.
#[derive(Drop)]
pub struct Recovery {
    reader: Reader,
    taken: u64,
    ended: u64,
    before: u64,
}

/// Where a writer goes on: the segment, the checksum, and how many bytes the segment has.
#[derive(Clone, Copy, Debug)]
pub struct Position {
    pub segment: u64,
    pub sum: [u8; SUM_LEN],
    pub size: u64,
}

impl Model for Recovery {
    ghost use Rattle.judy_journal.specs.Recovered.{Recovering};

    ghost Value = { Recovering };

    ghost view = { λ r. record { reading = r.reader; taken = r.taken; ended = r.ended; before = r.before } };
}

impl Recovery {
    /// A recovery of the segments after this one, which continue from this checksum. The first
    /// segment is the one after 0.
    pub fn new(segment: u64, sum: &[u8; SUM_LEN]) -> Recovery
        requires { segment < LAST_SEGMENT }
        ensures { IsRecovered segment sum.now [] [] [] result }
    {
        Recovery {
            reader: Reader::new(segment + 1, sum),
            taken: 0,
            ended: 0,
            before: 0,
        }
    }

    /// A recovery that begins with a snapshot of the segments up to this one. Its first line was read,
    /// and has this checksum: `snapshot_sum`.
    pub fn snapshot(segment: u64, sum: &[u8; SUM_LEN]) -> Recovery
        ensures { IsUnpacked segment sum.now [] [] result }
    {
        let head = numbered_line(SNAPSHOT, segment, sum).len() as u64 + 1;
        Recovery {
            reader: Reader::begun(segment, sum),
            taken: head,
            ended: head,
            before: 0,
        }
    }

    /// Up to where the file is whole: the end of its last whole commit, or of its first line.
    fn whole(&self) -> u64
        ensures { result ≡ (if self.now.ended == 0
            then length (header_text self.now.reading.segment self.now.reading.first)
            else self.now.ended) }
    {
        if self.ended == 0 {
            return self.reader.header_len() as u64;
        }
        self.ended
    }

    /// How many bytes of the file the reader holds as read.
    fn so_far(&self) -> u64
        ensures { result ≡ read_in self.now }
    {
        if !self.reader.is_begun() {
            return self.reader.unended() as u64;
        }
        self.whole().saturating_add(self.reader.unended() as u64)
    }

    /// Reads more of the file: all of it, or up to the end of a commit. Then `records` gives the
    /// records of that commit, until the next call. After damage the text is what was read before it.
    pub fn read(&mut self, bytes: &[u8]) -> Result<Read, Damage>
        ensures read { (segment : ℕ) (sum : List ℕ) (done : List Left) (text : List ℕ) (commits : List Commit)
            → IsRecovered segment sum done text commits self.old
            → HasRecovered result segment sum done text commits bytes.now self.new }
        ensures snapshot { (segment : ℕ) (sum : List ℕ) (text : List ℕ) (commits : List Commit)
            → IsUnpacked segment sum text commits self.old
            → HasUnpacked result segment sum text commits bytes.now self.new }
        ensures halted { OnErr result
            ((segment : ℕ) (sum : List ℕ) (done : List Left) (text : List ℕ) (commits : List Commit)
            → IsRecovered segment sum done text commits self.old
            → HasHalted segment sum done text commits bytes.now self.new) }
        ensures left { IfOk result (λ read. LeavesLess read (length bytes.now)) }
    {
        let Some(all) = self.taken.checked_add(bytes.len() as u64) else {
            return Err(Damage::Size);
        };
        match self.reader.read(bytes) {
            Ok(Read::Whole(left)) => {
                self.taken = all - left as u64;
                self.ended = self.taken;
                Ok(Read::Whole(left))
            }
            Ok(Read::More) => {
                self.taken = all;
                Ok(Read::More)
            }
            Err(damage) => {
                self.taken = self.so_far();
                Err(damage)
            }
        }
    }

    /// The records of the commit that became whole, each with its line feed.
    pub fn records(&self) -> &[u8]
        ensures { result.now ≡ joined self.now.reading.records }
    {
        self.reader.records()
    }

    /// The same without the commit's note, which tells no change.
    pub fn changes(&self) -> &[u8]
        ensures { lines_of result.now ≡ changes_in self.now.reading.records }
    {
        self.reader.changes()
    }

    /// Ends a snapshot: its last commit must have no records, and nothing may come after it. The next
    /// bytes are of the segment after it.
    pub fn end_snapshot(&mut self) -> Result<(), Damage>
        ensures ended { OnOk result ((segment : ℕ) (sum : List ℕ) (text : List ℕ) (commits : List Commit)
            → IsUnpacked segment sum text commits self.old
            → HasEndedSnapshot segment sum text commits self.new) }
        ensures torn { OnErr result ((self.old.reading.whole ≡ true → 0 < length self.old.reading.records)
            ⊎ (LAST_SEGMENT ≤ self.old.reading.segment)) }
    {
        if self.reader.segment() >= LAST_SEGMENT {
            return Err(Damage::Number);
        }
        if !self.reader.is_at_end() {
            return Err(Damage::Torn);
        }
        self.reader.restart();
        self.before = 0;
        self.taken = 0;
        self.ended = 0;
        Ok(())
    }

    /// Ends a file that another one follows: it must be whole. The next bytes are of that one.
    pub fn next_file(&mut self) -> Result<(), Damage>
        ensures { (segment : ℕ) (sum : List ℕ) (done : List Left) (text : List ℕ) (commits : List Commit)
            → IsRecovered segment sum done text commits self.old
            → HasEndedFile result segment sum done text commits self.new }
    {
        match self.reader.end() {
            Ok(()) => {
                self.before = self.taken;
                self.taken = 0;
                self.ended = 0;
                Ok(())
            }
            Err(damage) => Err(damage),
        }
    }

    /// Where a writer goes on, once all bytes of the last file were read.
    pub fn position(&self) -> Position
        ensures { (segment : ℕ) (sum : List ℕ) (done : List Left) (text : List ℕ) (commits : List Commit)
            → IsRecovered segment sum done text commits self.now
            → IsPosition segment sum done text commits self.now result }
    {
        let sum = *self.reader.sum();
        if !self.reader.is_begun() {
            let segment = self.reader.segment().saturating_sub(1);
            let size = self.before;
            return Position { segment, sum, size };
        }
        let (segment, size) = (self.reader.segment(), self.whole());
        Position { segment, sum, size }
    }

    /// The byte of the file where the line begins that is read now, or that is damaged.
    pub fn place(&self) -> u64
        ensures { (number : ℕ) (sum text : List ℕ) (commits : List Commit)
            → IsRead number sum text commits self.now.reading
            → EndsAt number sum commits self.now.ended
            → result ≡ place_of number sum commits self.now.reading }
    {
        if !self.reader.is_begun() {
            return 0;
        }
        self.whole().saturating_add(self.reader.open_len() as u64)
    }
}

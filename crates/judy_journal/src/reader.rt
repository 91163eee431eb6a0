//! Reads a journal's text in pieces.
ghost use Rattle.std.specs.Prelude.{◌≡◌, ◌≢◌, ◌≤◌, ◌<◌, ◌+◌, ◌++◌, ℕ, List, [], ◌∷◌, length, true, false, IfOk, OnErr, IsTrue, if◌then◌else◌};
ghost use Rattle.judy_model.specs.Stream.{lines_of};
ghost use Rattle.judy_protocol.specs.Talks.{HasNoLf};
ghost use Rattle.judy_journal.specs.declared.damage.Damage.TheVariants as damage;
ghost use Rattle.judy_journal.specs.Journals.{Commit, header, is_mark as marks, is_record, joined, mark, sum_after};
ghost use Rattle.judy_journal.specs.Notes.{changes_in};
ghost use Rattle.judy_journal.specs.Readings.{AreAllFirst, HasClosed, HasEnded, HasRead, HasStopped, HasTaken, IsRead, LeavesLess, forgotten, next_of, restarted, tail_of};
ghost use Rattle.judy_journal.specs.Writes.{header_text};

use crate::damage::Damage;
use crate::format::{
    COMMIT_LIMIT, HEADER, LAST_SEGMENT, LINE_ROOM, MARK, SUM_LEN, are_same, numbered_line, put,
    sum_of,
};
use crate::notes::without_note;
use arrayvec::ArrayVec;
use judy_protocol::cut_line;
use std::marker::Model;

/// What was read of some bytes.
#[derive(Clone, Copy, Debug, PartialEq, Eq)]
pub enum Read {
    /// All of them, and no commit became whole.
    More,
    /// The bytes up to the end of a commit. This many are left.
    Whole(usize),
}

/// Reads the text of a segment, commit by commit.
#[derive(Drop)]
pub struct Reader {
    segment: u64,
    first: [u8; SUM_LEN],
    sum: [u8; SUM_LEN],
    begun: bool,
    whole: bool,
    body: ArrayVec<u8, COMMIT_LIMIT>,
    count: u64,
    line: ArrayVec<u8, COMMIT_LIMIT>,
}

impl Model for Reader {
    ghost use Rattle.std.specs.Prelude.{◌≡◌, IsTrue, [], length};
    ghost use Rattle.judy_model.specs.Stream.{lines_of, rest_of};
    ghost use Rattle.judy_journal.specs.Journals.{is_commit, is_line};
    ghost use Rattle.judy_journal.specs.Readings.{Reading};

    ghost Value = { Reading };

    ghost view = { λ r. record {
      segment = r.segment;
      first = r.first;
      sum = r.sum;
      begun = r.begun;
      whole = r.whole;
      records = lines_of r.body.items;
      line = r.line.items;
    } };

    ghost invariant = { λ r. (rest_of r.body.items ≡ []) × (r.count ≡ length (lines_of r.body.items))
        × IsTrue (is_commit (lines_of r.body.items)) × IsTrue (is_line r.line.items) };
}

impl Reader {
    /// A reader of the segment with this number, which continues from this checksum.
    pub fn new(segment: u64, sum: &[u8; SUM_LEN]) -> Reader
        ensures read { IsRead segment sum.now [] [] result }
        ensures value { result ≡ record {
          segment = segment;
          first = sum.now;
          sum = sum.now;
          begun = false;
          whole = false;
          records = [];
          line = [];
        } }
    {
        Reader {
            segment,
            first: *sum,
            sum: *sum,
            begun: false,
            whole: false,
            body: ArrayVec::new(),
            count: 0,
            line: ArrayVec::new(),
        }
    }

    /// Forgets the commit that was whole.
    fn forget(&mut self)
        ensures { self.new ≡ forgotten self.old }
    {
        if self.whole {
            self.body.clear();
            self.count = 0;
            self.whole = false;
        }
    }

    /// Holds more of the line. False if it is too long for any line of a journal.
    fn hold(&mut self, chunk: &[u8]) -> bool
        requires { HasNoLf chunk.now }
        ensures held { result ≡ true → self.new ≡ record self.old { line = self.old.line ++ chunk.now } }
        ensures long { result ≡ false → COMMIT_LIMIT < length self.old.line + length chunk.now }
        ensures same { result ≡ false → self.new ≡ self.old }
    {
        self.line.try_extend_from_slice(chunk).is_ok()
    }

    /// Reads the line as the header.
    fn begin(&mut self) -> bool
        ensures read { result ≡ true → self.new ≡ record self.old { begun = true; line = [] } }
        ensures is { result ≡ true → self.old.line ≡ header self.old.segment self.old.first }
        ensures other { result ≡ false → self.old.line ≢ header self.old.segment self.old.first }
        ensures same { result ≡ false → self.new ≡ self.old }
    {
        let header = numbered_line(HEADER, self.segment, &self.first);
        if !are_same(self.line.as_slice(), header.as_slice()) {
            return false;
        }
        self.begun = true;
        self.line.clear();
        true
    }

    /// Reads the line as the end of the commit.
    fn close(&mut self) -> bool
        ensures read { result ≡ true → self.new ≡ record self.old {
          sum = sum_after self.old.sum self.old.records;
          whole = true;
          line = [];
        } }
        ensures is { result ≡ true → self.old.line ≡ mark self.old.sum self.old.records }
        ensures other { result ≡ false → self.old.line ≢ mark self.old.sum self.old.records }
        ensures same { result ≡ false → self.new ≡ self.old }
    {
        let sum = sum_of(&self.sum, self.body.as_slice());
        let mark = numbered_line(MARK, self.count, &sum);
        if !are_same(self.line.as_slice(), mark.as_slice()) {
            return false;
        }
        self.sum = sum;
        self.whole = true;
        self.line.clear();
        true
    }

    /// Adds the line to the records of the commit. False if the commit has no room for it.
    fn keep(&mut self) -> bool
        requires { IsTrue (is_record self.old.line) }
        ensures kept { result ≡ true → self.new ≡ record self.old {
          records = self.old.records ++ self.old.line ∷ [];
          line = [];
        } }
        ensures long { result ≡ false
            → COMMIT_LIMIT < length (joined self.old.records) + length self.old.line + 1 }
        ensures same { result ≡ false → self.new ≡ self.old }
    {
        if self.body.len() + self.line.len() + 1 > COMMIT_LIMIT {
            return false;
        }
        put(&mut self.body, self.line.as_slice());
        put(&mut self.body, b"\n");
        self.count += 1;
        self.line.clear();
        true
    }

    /// Whether the line ends a commit.
    fn is_mark(&self) -> bool
        ensures { result ≡ marks self.now.line }
    {
        let line = self.line.as_slice();
        !line.is_empty() && line[0] == b'#'
    }

    /// Reads the line that is held, once it is whole. Returns whether a commit became whole.
    fn end_line(&mut self) -> Result<bool, Damage>
        ensures ended { (segment : ℕ) (first text : List ℕ) (commits : List Commit)
            → IsRead segment first text commits self.old → self.old.whole ≡ false
            → HasEnded result segment first text commits self.old.records self.new }
        ensures same { OnErr result (self.new ≡ self.old) }
        ensures stopped { OnErr result ((segment : ℕ) (first text : List ℕ) (commits : List Commit)
            → IsRead segment first text commits self.old → self.old.whole ≡ false
            → AreAllFirst segment first text (10 ∷ []) commits self.old (10 ∷ [])) }
    {
        if !self.begun {
            if self.begin() {
                return Ok(false);
            }
            return Err(Damage::Header);
        }
        if self.is_mark() {
            if self.close() {
                return Ok(true);
            }
            return Err(Damage::Mark);
        }
        if self.keep() {
            return Ok(false);
        }
        Err(Damage::Long)
    }

    /// What is wrong where a line is too long.
    fn too_long(&self) -> Damage
        ensures { result ≡ (if self.now.begun then damage.Long else damage.NoHeader) }
    {
        if self.begun {
            return Damage::Long;
        }
        Damage::NoHeader
    }

    /// Reads the rest of a line and its line feed. Returns whether a commit became whole.
    fn take_line(&mut self, chunk: &[u8]) -> Result<bool, Damage>
        requires { HasNoLf chunk.now }
        ensures taken { (segment : ℕ) (first text : List ℕ) (commits : List Commit)
            → IsRead segment first text commits self.old → self.old.whole ≡ false
            → HasTaken result segment first text commits chunk.now self.new }
        ensures stopped { OnErr result ((segment : ℕ) (first text : List ℕ) (commits : List Commit)
            → IsRead segment first text commits self.old → self.old.whole ≡ false
            → HasStopped (chunk.now ++ 10 ∷ []) segment first text commits self.new) }
    {
        if !self.hold(chunk) {
            return Err(self.too_long());
        }
        self.end_line()
    }

    /// Reads more of the text: all of it, or up to the end of a commit. Then `records` gives the
    /// records of that commit, until the next call.
    pub fn read(&mut self, bytes: &[u8]) -> Result<Read, Damage>
        ensures read { (segment : ℕ) (first text : List ℕ) (commits : List Commit)
            → IsRead segment first text commits self.old
            → HasRead result segment first text commits bytes.now self.new }
        ensures stopped { OnErr result ((segment : ℕ) (first text : List ℕ) (commits : List Commit)
            → IsRead segment first text commits self.old
            → HasStopped bytes.now segment first text commits self.new) }
        ensures left { IfOk result (λ read. LeavesLess read (length bytes.now)) }
    {
        self.forget();
        let mut rest = bytes;
        while let Some((chunk, after)) = cut_line(rest) {
            match self.take_line(chunk) {
                Ok(true) => return Ok(Read::Whole(after.len())),
                Ok(false) => rest = after,
                Err(damage) => return Err(damage),
            }
        }
        if !self.hold(rest) {
            return Err(self.too_long());
        }
        Ok(Read::More)
    }

    /// The records of the commit that became whole, each with its line feed.
    pub fn records(&self) -> &[u8]
        ensures { result.now ≡ joined self.now.records }
    {
        self.body.as_slice()
    }

    /// The records of the commit that became whole without its note, each with its line feed.
    pub fn changes(&self) -> &[u8]
        ensures { lines_of result.now ≡ changes_in self.now.records }
    {
        without_note(self.body.as_slice())
    }

    /// How many bytes were read after the last whole commit.
    pub fn unended(&self) -> usize
        ensures { result ≡ length (tail_of self.now) }
    {
        if self.whole {
            return 0;
        }
        self.body.len() + self.line.len()
    }

    /// A reader of what comes after a first line.
    pub fn begun(segment: u64, sum: &[u8; SUM_LEN]) -> Reader
        ensures read { IsRead segment sum.now (header_text segment sum.now) [] result }
        ensures unended { result.whole ≡ false }
    {
        let mut reader = Reader::new(segment, sum);
        reader.begun = true;
        reader
    }

    /// Goes on to the segment after this one, which continues from where this one did.
    pub fn restart(&mut self)
        requires { self.old.segment < LAST_SEGMENT }
        ensures { self.new ≡ restarted self.old }
    {
        self.sum = self.first;
        self.go_on();
    }

    /// Whether a commit without records became whole, and nothing came after it.
    pub fn is_at_end(&self) -> bool
        ensures end { result ≡ true → self.now.whole ≡ true }
        ensures none { result ≡ true → self.now.records ≡ [] }
        ensures other { result ≡ false → self.now.whole ≡ true → 0 < length self.now.records }
    {
        self.whole && self.count == 0
    }

    /// Goes on to the next segment.
    fn go_on(&mut self)
        requires { self.old.segment < LAST_SEGMENT }
        ensures { self.new ≡ next_of self.old }
    {
        self.segment += 1;
        self.first = self.sum;
        self.begun = false;
        self.whole = false;
        self.body.clear();
        self.count = 0;
        self.line.clear();
    }

    /// Ends the text, which must be whole. The next bytes are of the segment after it.
    pub fn end(&mut self) -> Result<(), Damage>
        ensures { (segment : ℕ) (first text : List ℕ) (commits : List Commit)
            → IsRead segment first text commits self.old
            → HasClosed result segment first text commits self.new }
    {
        if self.segment >= LAST_SEGMENT {
            return Err(Damage::Number);
        }
        if !self.begun {
            return Err(Damage::Torn);
        }
        if self.unended() > 0 {
            return Err(Damage::Torn);
        }
        self.go_on();
        Ok(())
    }

    /// The number of the segment.
    pub fn segment(&self) -> u64
        ensures { result ≡ self.now.segment }
    {
        self.segment
    }

    /// The checksum after the last whole commit.
    pub fn sum(&self) -> &[u8; SUM_LEN]
        ensures { result.now ≡ self.now.sum }
    {
        &self.sum
    }

    /// How many bytes the records of the commit have that is not whole.
    pub fn open_len(&self) -> usize
        ensures { result ≡ (if self.now.whole then 0 else length (joined self.now.records)) }
    {
        if self.whole {
            return 0;
        }
        self.body.len()
    }

    /// Whether the first line was read.
    pub fn is_begun(&self) -> bool
        ensures { result ≡ self.now.begun }
    {
        self.begun
    }

    /// How many bytes the first line has, with its line feed.
    pub fn header_len(&self) -> usize
        ensures exact { result ≡ length (header_text self.now.segment self.now.first) }
        ensures short { result ≤ LINE_ROOM }
    {
        numbered_line(HEADER, self.segment, &self.first).len() + 1
    }
}

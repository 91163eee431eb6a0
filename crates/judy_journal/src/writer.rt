//! Makes the text of a journal: gathers the records of a round, and ends them as a commit.
ghost use Rattle.std.specs.Prelude.{◌≡◌, ◌≤◌, ◌<◌, ◌+◌, ◌++◌, [], ◌∷◌, length, true, false, codes, IsTrue};
ghost use Rattle.std.specs.List.{list_all};
ghost use Rattle.judy_model.specs.Stream.{lines_of, rest_of};
ghost use Rattle.judy_journal.specs.Journals.{is_commit, is_record, joined, numbered, record_of, sum_of as sum_of_bytes};
ghost use Rattle.judy_journal.specs.declared.format.TheConstants.{COMMIT_LIMIT, NOTE_ROOM};
ghost use Rattle.judy_journal.specs.Writes.{IsShortRecord, begun, ended, has_room as has_room_for, secured, snapshot_line, with_note};

use crate::format::{
    BODY_LIMIT, HEADER, LAST_SEGMENT, MARK, RECORD_LIMIT, SNAPSHOT, SUM_LEN, TEXT_LIMIT,
    numbered_line, put, sum_of,
};
use crate::notes::note_line;
use arrayvec::ArrayVec;
use std::marker::Model;

/// Makes the text of a journal. It knows no disk.
///
/// It has some 32 KiB: make one at the start, and put it into a `Box`.
#[derive(Drop)]
pub struct Writer {
    segment: u64,
    sum: [u8; SUM_LEN],
    size: u64,
    synced: u64,
    body: ArrayVec<u8, BODY_LIMIT>,
    count: u64,
    text: ArrayVec<u8, TEXT_LIMIT>,
}

impl Model for Writer {
    ghost use Rattle.std.specs.Prelude.{◌≡◌, IsTrue, [], length};
    ghost use Rattle.judy_model.specs.Stream.{lines_of, rest_of};
    ghost use Rattle.judy_journal.specs.Journals.{is_commit};
    ghost use Rattle.judy_journal.specs.Writes.{Writing};

    ghost Value = { Writing };

    ghost view = { λ w. record {
      segment = w.segment;
      sum = w.sum;
      size = w.size;
      synced = w.synced;
      records = lines_of w.body.items;
      text = w.text.items;
    } };

    ghost invariant = { λ w. (rest_of w.body.items ≡ []) × (w.count ≡ length (lines_of w.body.items))
        × IsTrue (is_commit (lines_of w.body.items)) };
}

/// Puts the line of a record behind others.
fn put_record(body: &mut ArrayVec<u8, BODY_LIMIT>, tenant: &[u8], request: &[u8])
    requires { length body.old.items + length tenant.now + length request.now + 2 ≤ BODY_LIMIT }
    ensures { body.new.items ≡ body.old.items ++ (record_of tenant.now request.now ++ 10 ∷ []) }
{
    put(body, tenant);
    put(body, b" ");
    put(body, request);
    put(body, b"\n");
}

/// Makes the text of a commit: its records and its note, and the line that ends it. Returns the checksum
/// that it ends with.
fn put_commit(
    text: &mut ArrayVec<u8, TEXT_LIMIT>,
    body: &[u8],
    note: &[u8],
    count: u64,
    sum: &[u8; SUM_LEN],
) -> [u8; SUM_LEN]
    requires { length body.now + length note.now ≤ COMMIT_LIMIT }
    ensures sum { result ≡ sum_of_bytes sum.now (body.now ++ note.now) }
    ensures text { text.new.items ≡ (body.now ++ note.now) ++ (numbered (codes "# ") count result ++ 10 ∷ []) }
{
    text.clear();
    put(text, body);
    put(text, note);
    let sum = sum_of(sum, text.as_slice());
    let mark = numbered_line(MARK, count, &sum);
    put(text, mark.as_slice());
    put(text, b"\n");
    sum
}

impl Writer {
    /// A writer that goes on in this segment, which has `size` bytes, all synced, after this checksum.
    pub fn new(segment: u64, sum: &[u8; SUM_LEN], size: u64) -> Writer
        ensures { result ≡ record {
          segment = segment;
          sum = sum.now;
          size = size;
          synced = size;
          records = [];
          text = [];
        } }
    {
        Writer {
            segment,
            sum: *sum,
            size,
            synced: size,
            body: ArrayVec::new(),
            count: 0,
            text: ArrayVec::new(),
        }
    }

    /// Whether the commit that is open has room for any record with a name of at most 32 bytes and a
    /// request of at most 4,096.
    pub fn has_room(&self) -> bool
        ensures { result ≡ has_room_for self.now }
    {
        self.body.len() + RECORD_LIMIT <= BODY_LIMIT
    }

    /// Adds a record to the commit that is open.
    pub fn add(&mut self, tenant: &[u8], request: &[u8])
        requires short { IsShortRecord tenant.now request.now }
        requires room { IsTrue (has_room_for self.old) }
        ensures { self.new ≡ record self.old {
          records = self.old.records ++ record_of tenant.now request.now ∷ [];
        } }
    {
        put_record(&mut self.body, tenant, request);
        self.count += 1;
    }

    /// Whether the commit that is open has no records.
    pub fn is_empty(&self) -> bool
        ensures none { result ≡ true → self.now.records ≡ [] }
        ensures some { result ≡ false → 0 < length self.now.records }
    {
        self.count == 0
    }

    /// Ends the commit that is open with these lines, also if it has none.
    fn finish(&mut self, note: &[u8], lines: u64)
        requires whole { rest_of note.now ≡ [] }
        requires short { length note.now ≤ NOTE_ROOM }
        requires lines { lines ≡ length (lines_of note.now) }
        requires records { IsTrue (list_all is_record (lines_of note.now)) }
        ensures ended { self.new ≡ ended (record self.old { records = self.old.records ++ lines_of note.now }) }
        ensures commit { IsTrue (is_commit (self.old.records ++ lines_of note.now)) }
    {
        let body = self.body.as_slice();
        self.sum = put_commit(&mut self.text, body, note, self.count + lines, &self.sum);
        self.size = self.size.saturating_add(self.text.len() as u64);
        self.body.clear();
        self.count = 0;
    }

    /// Ends the commit that is open: its text is its records and its mark.
    pub fn end(&mut self)
        requires some { 0 < length self.old.records }
        ensures ended { self.new ≡ ended self.old }
        ensures commit { IsTrue (is_commit self.old.records) }
    {
        self.finish(&[], 0);
    }

    /// Ends the commit that is open with a note of how many bytes of the segment are synced.
    pub fn end_noted(&mut self)
        ensures ended { self.new ≡ ended (with_note self.old) }
        ensures commit { IsTrue (is_commit (with_note self.old).records) }
    {
        let place = self.size.saturating_add(self.body.len() as u64);
        let mut note = note_line(self.segment, place, self.synced);
        put(&mut note, b"\n");
        self.finish(note.as_slice(), 1);
    }

    /// Notes that all of the segment is synced.
    pub fn secure(&mut self)
        ensures { self.new ≡ secured self.old }
    {
        self.synced = self.size;
    }

    /// The number of the segment.
    pub fn segment(&self) -> u64
        ensures { result ≡ self.now.segment }
    {
        self.segment
    }

    /// The text that was made last.
    pub fn text(&self) -> &[u8]
        ensures { result.now ≡ self.now.text }
    {
        self.text.as_slice()
    }

    /// How many bytes the segment has.
    pub fn size(&self) -> u64
        ensures { result ≡ self.now.size }
    {
        self.size
    }

    /// Begins the next segment: its text is the first line.
    pub fn next_segment(&mut self)
        requires ended { self.old.records ≡ [] }
        requires number { self.old.segment < LAST_SEGMENT }
        ensures { self.new ≡ begun self.old }
    {
        self.segment += 1;
        let header = numbered_line(HEADER, self.segment, &self.sum);
        self.text.clear();
        put(&mut self.text, header.as_slice());
        put(&mut self.text, b"\n");
        self.size = self.text.len() as u64;
        self.synced = self.size;
    }

    /// Begins a snapshot of the segments up to this one: its text is the first line.
    pub fn begin_snapshot(&mut self)
        requires { self.old.records ≡ [] }
        ensures { self.new ≡ record self.old {
          text = joined (snapshot_line self.old.segment self.old.sum ∷ []);
        } }
    {
        let header = numbered_line(SNAPSHOT, self.segment, &self.sum);
        self.text.clear();
        put(&mut self.text, header.as_slice());
        put(&mut self.text, b"\n");
    }

    /// Ends a snapshot: its text is the mark of a commit without records.
    pub fn end_snapshot(&mut self)
        requires { self.old.records ≡ [] }
        ensures { self.new ≡ ended self.old }
    {
        self.finish(&[], 0);
    }
}

//! The lines of a client, and the answer that a model gives to each.
use crate::draw::Draw;
use crate::tenants::write_name;
use itoa::Buffer;
use std::alloc::{AllocError, Global};

/// 32 bytes of a key, in hexadecimal.
const BLOCK: &[u8; 64] = b"7a7a7a7a7a7a7a7a7a7a7a7a7a7a7a7a7a7a7a7a7a7a7a7a7a7a7a7a7a7a7a7a";

/// How many bytes a block of a key has.
const BLOCK_LEN: usize = 32;

/// How many blocks a line that is too long has.
const LONG_BLOCKS: usize = 70;

/// What a line asks for.
#[derive(Clone, Copy)]
pub enum Kind {
    /// Nothing: the line is empty.
    Empty,
    /// What the tenant has.
    Used,
    /// Whether an index is there. It never is.
    Test,
    /// The next number of a count.
    Add,
    /// A great value at the greatest index.
    Great,
    /// The last index, with its value, which are long.
    Last,
    /// Another value at a long key.
    Store,
    /// The first key, which is long.
    Find,
    /// Nothing: the line is too long.
    Long,
    /// The end.
    Quit,
}

/// The kind of a line between those of the kind that most are: seldom one that is long.
fn draw_other(draw: &mut Draw) -> Kind {
    let kinds = if draw.happens(1, 50) { 8 } else { 6 };
    match draw.below(kinds) {
        0 => Kind::Empty,
        1 => Kind::Used,
        2 => Kind::Test,
        3 => Kind::Add,
        4 => Kind::Great,
        5 => Kind::Last,
        6 => Kind::Find,
        _ => Kind::Long,
    }
}

/// About how many bytes a line of a kind takes of what limits a turn: those of its answer, or those of its
/// record in the journal.
pub fn size_of(kind: Kind, blocks: usize) -> usize {
    match kind {
        Kind::Empty | Kind::Test => 11,
        Kind::Used => 26,
        Kind::Add | Kind::Great | Kind::Last => 44,
        Kind::Store | Kind::Find | Kind::Long => blocks.saturating_mul(64).saturating_add(40),
        Kind::Quit => 4,
    }
}

/// A text, line by line.
#[derive(Drop)]
pub struct Text {
    /// The bytes of all lines.
    pub bytes: Vec<u8>,
    /// Where each line ends, behind its line feed.
    pub ends: Vec<usize>,
}

impl Text {
    /// No line.
    fn new(alloc: Global) -> Text {
        Text {
            bytes: Vec::new(alloc),
            ends: Vec::new(alloc),
        }
    }

    /// Appends bytes to the line.
    fn put(&mut self, bytes: &[u8]) -> Result<(), AllocError> {
        self.bytes.extend_from_slice(bytes)
    }

    /// Appends a number to the line.
    fn put_number(&mut self, number: u64) -> Result<(), AllocError> {
        let mut buffer = Buffer::new();
        self.put(buffer.format(number).as_bytes())
    }

    /// Appends blocks of a key to the line.
    fn put_blocks(&mut self, blocks: usize) -> Result<(), AllocError> {
        for _block in 0..blocks {
            self.put(BLOCK)?;
        }
        Ok(())
    }

    /// Ends the line.
    fn end(&mut self) -> Result<(), AllocError> {
        self.bytes.push(b'\n')?;
        self.ends.push(self.bytes.len())?;
        Ok(())
    }

    /// Where this many lines end. All end there if there are fewer.
    pub fn end_of(&self, lines: usize) -> usize {
        if lines == 0 {
            return 0;
        }
        self.ends
            .get(lines - 1)
            .copied()
            .unwrap_or(self.bytes.len())
    }

    /// How many lines end at this byte or before it, of those that are noted.
    pub fn lines_in(&self, known: usize, upto: usize) -> usize {
        let mut lines = known;
        for _line in 0..self.ends.len() {
            match self.ends.get(lines) {
                Some(end) if *end <= upto => lines = lines.saturating_add(1),
                _ => return lines,
            }
        }
        lines
    }
}

/// What a client's tenant has: the model. No other client has the tenant.
#[derive(Drop)]
struct Account {
    entries: u64,
    pieces: u64,
    count: u64,
    great: bool,
    stored: Option<u64>,
    blocks: usize,
}

impl Account {
    /// Notes an entry and its number of pieces.
    fn note(&mut self, pieces: u64) {
        self.entries = self.entries.saturating_add(1);
        self.pieces = self.pieces.saturating_add(pieces);
    }

    /// The next number of the count.
    fn next(&mut self) -> u64 {
        if self.count == 0 {
            self.note(1);
        }
        self.count = self.count.saturating_add(1);
        self.count
    }

    /// Stores the greatest value, and returns the one before. 0 is before the first.
    fn store_great(&mut self) -> u64 {
        if self.great {
            return u64::MAX;
        }
        self.note(1);
        self.great = true;
        0
    }

    /// Stores a value at the long key, and returns the one before. 0 is before the first.
    fn store(&mut self, value: u64) -> u64 {
        let before = self.stored;
        if before.is_none() {
            let bytes = self.blocks.saturating_mul(BLOCK_LEN);
            self.note((bytes / 8 + 1) as u64);
        }
        self.stored = Some(value);
        before.unwrap_or(0)
    }
}

/// The lines of a client, with their answers.
#[derive(Drop)]
pub struct Talk {
    /// The lines.
    pub lines: Text,
    /// The answers.
    pub answers: Text,
    /// The answers if the log-in is refused.
    pub refused: Text,
    account: Account,
}

impl Talk {
    /// The talk of a client that logs in as this tenant, with a key of this number of blocks.
    pub fn new(alloc: Global, tenant: usize, blocks: usize) -> Result<Talk, AllocError> {
        let mut talk = Talk {
            lines: Text::new(alloc),
            answers: Text::new(alloc),
            refused: Text::new(alloc),
            account: Account {
                entries: 0,
                pieces: 0,
                count: 0,
                great: false,
                stored: None,
                blocks,
            },
        };
        talk.lines.put(b"AUTH ")?;
        write_name(&mut talk.lines.bytes, tenant)?;
        talk.lines.put(b" abc")?;
        talk.answers.put(b"OK")?;
        talk.refused.put(b"ERR AUTH")?;
        talk.end()?;
        Ok(talk)
    }

    /// Ends the line and its answers.
    fn end(&mut self) -> Result<(), AllocError> {
        self.lines.end()?;
        self.answers.end()?;
        self.refused.end()
    }

    /// Adds a line of a kind.
    pub fn add(&mut self, kind: Kind, value: u64) -> Result<(), AllocError> {
        self.put_line(kind, value)?;
        self.put_answer(kind, value)?;
        self.put_refusal(kind)?;
        self.end()
    }

    /// Writes a line of a kind, without its end.
    fn put_line(&mut self, kind: Kind, value: u64) -> Result<(), AllocError> {
        let lines = &mut self.lines;
        match kind {
            Kind::Empty => Ok(()),
            Kind::Used => lines.put(b"USED"),
            Kind::Test => lines.put(b"J1T b 1"),
            Kind::Add => lines.put(b"JLA a 1 1"),
            Kind::Great => lines.put(b"JLI g -1 -1"),
            Kind::Last => lines.put(b"JLL g -1"),
            Kind::Store => {
                lines.put(b"JSLI s x")?;
                lines.put_blocks(self.account.blocks)?;
                lines.put(b" ")?;
                lines.put_number(value)
            }
            Kind::Find => lines.put(b"JSLF s x"),
            Kind::Long => lines.put_blocks(LONG_BLOCKS),
            Kind::Quit => lines.put(b"QUIT"),
        }
    }

    /// Writes the answer to a line of a kind, without its end.
    fn put_answer(&mut self, kind: Kind, value: u64) -> Result<(), AllocError> {
        match kind {
            Kind::Empty => self.answers.put(b"ERR SYNTAX"),
            Kind::Used => self.put_used(),
            Kind::Test => self.answers.put(b"0"),
            Kind::Add => {
                self.answers.put(b"V ")?;
                self.answers.put_number(self.account.next())
            }
            Kind::Great => {
                self.answers.put(b"V ")?;
                self.answers.put_number(self.account.store_great())
            }
            Kind::Last => self.put_last(),
            Kind::Store => {
                self.answers.put(b"V ")?;
                self.answers.put_number(self.account.store(value))
            }
            Kind::Find => self.put_found(),
            Kind::Long => self.answers.put(b"ERR LONG"),
            Kind::Quit => self.answers.put(b"BYE"),
        }
    }

    /// Writes the answer to a line of a kind whose client has not logged in, without its end.
    fn put_refusal(&mut self, kind: Kind) -> Result<(), AllocError> {
        match kind {
            Kind::Empty => self.refused.put(b"ERR SYNTAX"),
            Kind::Long => self.refused.put(b"ERR LONG"),
            Kind::Quit => self.refused.put(b"BYE"),
            _ => self.refused.put(b"ERR AUTH"),
        }
    }

    /// Writes what the tenant has.
    fn put_used(&mut self) -> Result<(), AllocError> {
        self.answers.put(b"Q ")?;
        self.answers.put_number(self.account.entries)?;
        self.answers.put(b" 1000 ")?;
        self.answers.put_number(self.account.pieces)?;
        self.answers.put(b" 126000")
    }

    /// Writes the last index.
    fn put_last(&mut self) -> Result<(), AllocError> {
        if !self.account.great {
            return self.answers.put(b"NULL");
        }
        self.answers
            .put(b"V 18446744073709551615 18446744073709551615")
    }

    /// Writes the key.
    fn put_found(&mut self) -> Result<(), AllocError> {
        let Some(value) = self.account.stored else {
            return self.answers.put(b"NULL");
        };
        self.answers.put(b"V ")?;
        self.answers.put_number(value)?;
        self.answers.put(b" x")?;
        self.answers.put_blocks(self.account.blocks)
    }

    /// Adds lines, most of which are of one kind.
    pub fn add_some(
        &mut self,
        draw: &mut Draw,
        most: Kind,
        count: usize,
    ) -> Result<(), AllocError> {
        let odd = draw.one_of(&[0, 1, 4, 16]);
        for at in 0..count {
            let kind = if draw.happens(odd, 16) {
                draw_other(draw)
            } else {
                most
            };
            self.add(kind, at as u64)?;
        }
        Ok(())
    }
}

//! What commands are: each is of one kind of array, and does one thing there. The words are in
//! specs/Commands.antt.
ghost use Rattle.std.specs.Prelude.{◌≡◌, ◌<◌, ◌≤◌, Some, length, map, slice_get};
ghost use Rattle.judy_model.specs.ArrayLists.{kind_word};
ghost use Rattle.judy_model.specs.Commands.{command_place, command_words, kind_number, kind_with};

/// How many commands there are.
pub const COMMANDS: usize = 62;

/// Their words, in the order of the table.
static WORDS: [&'static str; COMMANDS] = [
    "J1S", "J1SE", "J1U", "J1UF", "J1UR", "J1T", "J1C", "J1BC", "J1F", "J1N", "J1L", "J1P", "J1FE",
    "J1NE", "J1LE", "J1PE", "J1I", "J1FA", "JLI", "JLIE", "JLA", "JLK", "JLX", "JLD", "JLDF",
    "JLDR", "JLT", "JLG", "JLC", "JLBC", "JLF", "JLN", "JLL", "JLP", "JLFE", "JLNE", "JLLE",
    "JLPE", "JLFA", "JSLI", "JSLA", "JSLK", "JSLX", "JSLD", "JSLDF", "JSLT", "JSLG", "JSLF",
    "JSLN", "JSLL", "JSLP", "JSLFA", "JHSI", "JHSA", "JHSK", "JHSX", "JHSD", "JHST", "JHSG",
    "JHSF", "JHSN", "JHSFA",
];

/// For each kind and operation, in the order of their types, the place of the command in the table.
static PLACES: [[usize; 22]; 4] = [
    [
        0, 62, 62, 62, 2, 62, 5, 6, 7, 8, 9, 10, 11, 12, 13, 14, 15, 17, 3, 1, 4, 16,
    ],
    [
        18, 20, 21, 22, 23, 26, 27, 28, 29, 30, 31, 32, 33, 34, 35, 36, 37, 38, 24, 19, 25, 62,
    ],
    [
        39, 40, 41, 42, 43, 45, 46, 62, 62, 47, 48, 49, 50, 62, 62, 62, 62, 51, 44, 62, 62, 62,
    ],
    [
        52, 53, 54, 55, 56, 57, 58, 62, 62, 59, 60, 62, 62, 62, 62, 62, 62, 61, 62, 62, 62, 62,
    ],
];

/// The kinds of array.
#[derive(Clone, Copy, Debug, PartialEq, Eq)]
pub enum Kind {
    /// A set of words.
    One,
    /// A map from words.
    Long,
    /// An ordered map from strings.
    Str,
    /// A map from byte keys.
    Bytes,
}

/// What a command does.
#[derive(Clone, Copy, Debug, PartialEq, Eq)]
pub enum Operation {
    /// Inserts an index, with a value or without one.
    Insert,
    /// Adds to the value of an index.
    Add,
    /// Inserts an absent index, and keeps the value of a present one.
    Keep,
    /// Gives an index another value, if it has this one.
    Exchange,
    /// Removes an index, or removes it if it has this value.
    Remove,
    /// Removes an index and shows its value.
    Take,
    /// Looks an index up.
    Look,
    /// Counts the indexes from one to another.
    Count,
    /// The index with a rank.
    Nth,
    /// The least index that is at least this one.
    First,
    /// The least index above this one.
    Next,
    /// The greatest index that is at most this one.
    Last,
    /// The greatest index below this one.
    Prev,
    /// The least absent index that is at least this one.
    FirstEmpty,
    /// The least absent index above this one.
    NextEmpty,
    /// The greatest absent index that is at most this one.
    LastEmpty,
    /// The greatest absent index below this one.
    PrevEmpty,
    /// Removes all indexes.
    Free,
    /// Removes the first index from this one on, and shows it.
    Pop,
    /// Inserts the least absent index from this one on, and shows it.
    Fill,
    /// Removes the indexes of a range, the least first, up to a number of them.
    Cut,
    /// The indexes that two sets share.
    Intersect,
}

/// What a word of a line stands for.
#[derive(Clone, Copy, Debug, PartialEq, Eq)]
pub struct Command {
    /// The kind of the array.
    pub kind: Kind,
    /// What is done to it.
    pub operation: Operation,
}

/// The numbers that follow a name, or a key: at most three.
#[derive(Clone, Copy, Debug, PartialEq, Eq)]
pub enum Numbers {
    /// No number.
    Nothing,
    /// One number.
    One(u64),
    /// Two numbers.
    Two(u64, u64),
    /// Three numbers.
    Three(u64, u64, u64),
}

impl Kind {
    /// The number of the kind, in the order of the type.
    pub fn number(self) -> u8
        ensures number { result ≡ kind_number self }
        ensures few { result < 4 }
    {
        match self {
            Kind::One => 0,
            Kind::Long => 1,
            Kind::Str => 2,
            Kind::Bytes => 3,
        }
    }

    /// The kind with this number.
    pub fn with(number: u16) -> Kind
        requires { number < 4 }
        ensures { result ≡ kind_with number }
    {
        match number {
            0 => Kind::One,
            1 => Kind::Long,
            2 => Kind::Str,
            _ => Kind::Bytes,
        }
    }

    /// The word of the kind in a line.
    pub fn word(self) -> &'static [u8]
        ensures word { result.now ≡ kind_word self }
        ensures short { length result.now ≤ 3 }
    {
        match self {
            Kind::One => b"J1".as_slice(),
            Kind::Long => b"JL".as_slice(),
            Kind::Str => b"JSL".as_slice(),
            Kind::Bytes => b"JHS".as_slice(),
        }
    }
}

impl Command {
    /// The place of the command in the table; `COMMANDS` for what is no command.
    pub fn place(self) -> usize
        ensures place { result ≡ command_place self }
        ensures few { result ≤ COMMANDS }
    {
        PLACES[self.kind as usize][self.operation as usize]
    }
}

/// The text at a place.
fn text_at(texts: &[&'static str], place: usize) -> &'static str
    requires { place < length texts.now }
    ensures { slice_get (map (λ text. text.now) texts.now) place ≡ Some result.now }
{
    texts[place]
}

/// The word of the command at a place of the table.
pub fn command_word(place: usize) -> &'static str
    requires { place < COMMANDS }
    ensures { slice_get command_words place ≡ Some result.now }
{
    text_at(&WORDS, place)
}

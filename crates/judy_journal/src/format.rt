//! The lines of a journal that are no records.
ghost use Rattle.std.specs.Prelude.{◌≡◌, ◌≤◌, ◌<◌, ◌+◌, ◌++◌, ◌≢◌, ◌∷◌, length, true, false};
ghost use Rattle.hex.specs.Hex.{encode_lower};
ghost use Rattle.judy_journal.specs.Journals.{number_after, numbered, sum_of as sum_of_bytes};

use arrayvec::ArrayVec;
use itoa::Buffer;
use judy_model::{LINE_LIMIT, NAME_LIMIT};

/// The bytes of a checksum: the digits of 8 bytes.
pub const SUM_LEN: usize = 16;

/// The most bytes of a commit, with the line that ends it.
pub const TEXT_LIMIT: usize = 16384;

/// How many bytes of a commit no record takes. The line that ends it has fewer.
const MARK_ROOM: usize = 102;

/// The most bytes of the records of a commit.
pub const COMMIT_LIMIT: usize = TEXT_LIMIT - MARK_ROOM;

/// The most bytes of a note, with its line feed.
pub const NOTE_ROOM: usize = NOTE.len() + DIGITS_LIMIT + 1 + SUM_LEN + 1;

/// The most bytes of the records of a commit that a writer makes, without its note.
pub const BODY_LIMIT: usize = COMMIT_LIMIT - NOTE_ROOM;

/// The most bytes of a record: a name, a space, a request and a line feed.
pub const RECORD_LIMIT: usize = NAME_LIMIT + 1 + LINE_LIMIT + 1;

/// The number of the last segment. There is none after it, however many bytes it has.
pub const LAST_SEGMENT: u64 = 999999999999;

/// What comes before the number in a segment's first line.
pub const HEADER: &[u8; 16] = b"judyd journal 1 ";

/// What comes before the number in a snapshot's first line.
pub const SNAPSHOT: &[u8; 17] = b"judyd snapshot 1 ";

/// What comes before the count in the line that ends a commit.
pub const MARK: &[u8; 2] = b"# ";

/// What comes before the number in a note.
pub const NOTE: &[u8; 2] = b"@ ";

/// The most bytes of a line with a number and a checksum before its number.
pub const FRONT_LIMIT: usize = SNAPSHOT.len();

/// The most digits of a number.
const DIGITS_LIMIT: usize = 20;

/// The most bytes of such a line, with its line feed: the front, the number, a space and the checksum.
pub const LINE_ROOM: usize = FRONT_LIMIT + DIGITS_LIMIT + 1 + SUM_LEN + 1;

/// What a checksum is multiplied by before each byte. It is odd, so the checksum is another one if a
/// single byte is changed.
pub const FACTOR: u64 = 1_099_511_628_211;

/// The bytes as digits of a number modulo 2^64, after a number.
fn number_after(number: u64, bytes: &[u8]) -> u64
    ensures { result ≡ number_after number bytes.now }
{
    let mut sum = number;
    for byte in bytes {
        sum = sum.wrapping_mul(FACTOR).wrapping_add(*byte as u64);
    }
    sum
}

/// The hexadecimal digits of eight bytes.
pub fn digits_of(bytes: [u8; 8]) -> [u8; SUM_LEN]
    ensures { result ≡ encode_lower bytes }
{
    let mut digits = [0u8; SUM_LEN];
    let _fits = hex::encode_to_slice(bytes, &mut digits);
    digits
}

/// The checksum after the text of some records, as hexadecimal digits: the checksum before it and the
/// text as digits of a number.
pub fn sum_of(sum: &[u8; SUM_LEN], text: &[u8]) -> [u8; SUM_LEN]
    ensures { result ≡ sum_of_bytes sum.now text.now }
{
    let number = number_after(number_after(0, sum.as_slice()), text);
    digits_of(number.to_be_bytes())
}

/// Puts bytes behind others.
pub fn put<const N: usize>(line: &mut ArrayVec<u8, N>, bytes: &[u8])
    requires { length line.old.items + length bytes.now ≤ N }
    ensures { line.new.items ≡ line.old.items ++ bytes.now }
{
    let _fits = line.try_extend_from_slice(bytes);
}

/// The line of a number and a checksum, without its line feed.
pub fn numbered_line(front: &[u8], number: u64, sum: &[u8; SUM_LEN]) -> ArrayVec<u8, LINE_ROOM>
    requires { length front.now ≤ FRONT_LIMIT }
    ensures text { result.items ≡ numbered front.now number sum.now }
    ensures short { length result.items ≤ length front.now + 37 }
{
    let mut line = ArrayVec::new();
    let mut digits = Buffer::new();
    put(&mut line, front);
    put(&mut line, digits.format(number).as_bytes());
    put(&mut line, b" ");
    put(&mut line, sum);
    line
}

/// Whether the bytes are equal.
pub fn are_same(a: &[u8], b: &[u8]) -> bool
    ensures same { result ≡ true → a.now ≡ b.now }
    ensures other { result ≡ false → a.now ≢ b.now }
{
    a == b
}

//! The manifest of a journal's directory: which files must be there.
ghost use Rattle.std.specs.Prelude.{◌≡◌, ◌≤◌, ◌+◌, ◌++◌, ◌∷◌, length, max, unwrap_or, IfSome};
ghost use Rattle.hex.specs.Hex.{encode_lower};
ghost use Rattle.judy_disk.specs.Manifests.{check_of, front_of, lack_of, number_after, number_text, text_of};

use crate::scan::Found;
use arrayvec::ArrayVec;
use itoa::Buffer;

/// What comes before the numbers.
const FRONT: &[u8; 17] = b"judyd manifest 1 ";

/// The bytes of the checksum: the digits of 8 bytes.
const CHECK_LEN: usize = 16;

/// The most bytes of a manifest: the front, two numbers with a space after each, the checksum, and the
/// line feed.
pub const MANIFEST_ROOM: usize = FRONT.len() + 21 + 21 + CHECK_LEN + 1;

/// What the checksum is multiplied by before each byte.
pub const FACTOR: u64 = 1_099_511_628_211;

/// Which files a directory must have: this snapshot, or one that is newer, and all segments after it up
/// to the last one.
#[derive(Clone, Copy, Debug, PartialEq, Eq)]
pub struct Manifest {
    /// The number of the snapshot: 0 if there is none.
    pub snapshot: u64,
    /// The number of the last segment: 0 if there is none yet.
    pub last: u64,
}

/// How the files of a directory do not fit its manifest.
#[derive(Clone, Copy, Debug, PartialEq, Eq)]
pub enum Lack {
    /// The snapshot with this number is missing.
    Snapshot(u64),
    /// The segment with this number is missing.
    Segment(u64),
    /// Two or more segments are there after this one, which is the last one of the manifest.
    Behind(u64),
}

/// The bytes as digits of a number modulo 2^64, after a number.
fn number_after(number: u64, bytes: &[u8]) -> u64
    ensures { result ≡ number_after number bytes.now }
{
    let mut sum = number;
    for byte in bytes {
        sum = sum.wrapping_mul(FACTOR).wrapping_add(*byte as u64);
    }
    sum
}

/// The hexadecimal digits of eight bytes.
fn digits_of(bytes: [u8; 8]) -> [u8; CHECK_LEN]
    ensures { result ≡ encode_lower bytes }
{
    let mut digits = [0u8; CHECK_LEN];
    let _fits = hex::encode_to_slice(bytes, &mut digits);
    digits
}

/// The checksum of a text, as hexadecimal digits.
fn check_of(text: &[u8]) -> [u8; CHECK_LEN]
    ensures { result ≡ check_of text.now }
{
    let number = number_after(0, text);
    digits_of(number.to_be_bytes())
}

/// Puts bytes behind others.
fn put(text: &mut ArrayVec<u8, MANIFEST_ROOM>, bytes: &[u8])
    requires { length text.old.items + length bytes.now ≤ MANIFEST_ROOM }
    ensures { text.new.items ≡ text.old.items ++ bytes.now }
{
    let _fits = text.try_extend_from_slice(bytes);
}

/// Puts a number and a space behind others.
fn put_number(text: &mut ArrayVec<u8, MANIFEST_ROOM>, number: u64)
    requires { length text.old.items + 21 ≤ MANIFEST_ROOM }
    ensures text { text.new.items ≡ text.old.items ++ number_text number }
    ensures short { length text.new.items ≤ length text.old.items + 21 }
{
    let mut digits = Buffer::new();
    put(text, digits.format(number).as_bytes());
    put(text, b" ");
}

impl Manifest {
    /// The manifest of a directory with these files.
    pub fn of(found: &Found) -> Manifest
        ensures { result ≡ record { snapshot = unwrap_or found.now.snapshot 0; last = unwrap_or found.now.last 0 } }
    {
        Manifest {
            snapshot: found.snapshot.unwrap_or(0),
            last: found.last.unwrap_or(0),
        }
    }

    /// What comes before the checksum.
    fn front(&self) -> ArrayVec<u8, MANIFEST_ROOM>
        ensures text { result.items ≡ front_of self.now }
        ensures short { length result.items ≤ 59 }
    {
        let mut text = ArrayVec::new();
        put(&mut text, FRONT);
        put_number(&mut text, self.snapshot);
        put_number(&mut text, self.last);
        text
    }

    /// The text of the file: one line with its line feed.
    pub fn text(&self) -> ArrayVec<u8, MANIFEST_ROOM>
        ensures { result.items ≡ text_of self.now }
    {
        let mut text = self.front();
        let check = check_of(text.as_slice());
        put(&mut text, &check);
        put(&mut text, b"\n");
        text
    }

    /// The manifest with this text. None if no manifest has it.
    pub fn read(text: &[u8]) -> Option<Manifest>
        ensures { IfSome result (λ m. text.now ≡ text_of m) }
    {
        let manifest = numbers_in(text)?;
        if manifest.text().as_slice() != text {
            return None;
        }
        Some(manifest)
    }

    /// The manifest of a directory that has the files of both.
    pub fn raised(&self, to: Manifest) -> Manifest
        ensures { result ≡ record { snapshot = max self.now.snapshot to.snapshot; last = max self.now.last to.last } }
    {
        Manifest {
            snapshot: u64::max(self.snapshot, to.snapshot),
            last: u64::max(self.last, to.last),
        }
    }

    /// How files do not fit the manifest: a snapshot with this number and segments after it up to the
    /// last one, 0 for none. They fit if all of its files are there, with a newer snapshot perhaps, or
    /// with the segment that comes next.
    pub fn lack(&self, snapshot: u64, last: u64) -> Option<Lack>
        ensures { result ≡ lack_of self.now snapshot last }
    {
        if snapshot < self.snapshot {
            return Some(Lack::Snapshot(self.snapshot));
        }
        if last < self.last {
            return Some(Lack::Segment(last + 1));
        }
        if last - self.last > 1 {
            return Some(Lack::Behind(self.last));
        }
        None
    }
}

/// The two numbers of a text that begins as a manifest does.
fn numbers_in(text: &[u8]) -> Option<Manifest> {
    let text = str::from_utf8(text).ok()?;
    let rest = text.strip_prefix("judyd manifest 1 ")?;
    let (snapshot, rest) = rest.split_once(' ')?;
    let (last, _) = rest.split_once(' ')?;
    Some(Manifest {
        snapshot: snapshot.parse::<u64>().ok()?,
        last: last.parse::<u64>().ok()?,
    })
}

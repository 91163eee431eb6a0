//! Eight bytes as one word, the first byte highest. Maps of strings and of byte keys use these
//! words as indexes of a JudyL.
#![tactic(auto)]

ghost use Rattle.std.specs.Prelude.{◌≡◌, ◌*◌, ◌<◌, ◌≤◌, length, drop, slice_index_or};
ghost use Rattle.judy_packing.specs.Packing.{pack, byte_of, WordsCompareAsStrings, BytesComeBack, StringsComeBack};

/// The word of at most 8 bytes. The first byte is the highest; missing bytes are 0.
pub fn pack(bytes: &[u8]) -> u64
    requires { length bytes.now ≤ 8 }
    ensures { result ≡ pack bytes.now }
{
    let mut word: u64 = 0;
    for i in 0..8usize {
        word = word * 256 + byte_or_zero(bytes, i) as u64;
    }
    word
}

// The byte at a place, or 0 past the end.
fn byte_or_zero(bytes: &[u8], i: usize) -> u8
    ensures { result ≡ slice_index_or bytes.now i 0 }
{
    if i < bytes.len() { bytes[i] } else { 0 }
}

/// The byte at place `i` of a word. Byte 0 is the highest.
pub fn byte(word: u64, i: u8) -> u8
    requires { i < 8 }
    ensures { result ≡ byte_of word i }
{
    ((word >> (56 - 8 * i)) % 256) as u8
}

/// The word of the 8 bytes from place `8 i` on, or of the fewer bytes that are left.
pub fn word_at(bytes: &[u8], i: usize) -> u64
    requires { 8 * i ≤ length bytes.now }
    ensures { result ≡ pack (drop (8 * i) bytes.now) }
{
    let start = 8 * i;
    if bytes.len() - start < 8 {
        return pack(&bytes[start..]);
    }
    pack(&bytes[start..start + 8])
}

/// A law, with an empty body: words compare like the strings that begin with them.
pub fn words_compare_as_strings()
    ensures { WordsCompareAsStrings }
{}

/// A law, with an empty body: unpacking a word gives the packed bytes.
pub fn bytes_come_back()
    ensures { BytesComeBack }
{}

/// A law, with an empty body: the first 8 bytes of a string are the bytes of its word before the
/// first 0.
pub fn strings_come_back()
    ensures { StringsComeBack }
{}

//! The words of a bitmap leaf: the number of keys, the bytes that they share, and a bitmap of last
//! bytes. In a map the values follow, in the order of the keys.
ghost use Rattle.std.specs.Prelude.{◌≡◌, ℕ, ◌+◌, ◌-◌, ◌%◌, ◌<◌, ◌≤◌, cond, true, Some, IsTrue, IsFalse, IfNone, IfSome, length, drop, map, slice_get, slice_index};
ghost use Rattle.std.specs.List.{insert, remove};
ghost use Rattle.judy_bitmap.specs.ByteSets.{members, below, with_byte, without_byte};
ghost use Rattle.judy_model.specs.Contents.{word_order, value_of, has_key, with_entry, without_key};
ghost use Rattle.judy_leaf.specs.Entries.{rank_of};
ghost use Rattle.judy_leaf.specs.Linear.{leaf_count};
ghost use Rattle.judy_leaf.specs.Bytes.{leaf_shared, bitmap_bytes, bitmap_values, bitmap_entries, bitmap_size, IsBits};

use crate::shift::{close, open};
use judy_bitmap::{Bits256, has_in, rank_in};

/// The words that a bitmap leaf uses.
pub(crate) fn size(values: bool, count: usize) -> usize
    requires { count ≤ 257 }
    ensures { result ≡ bitmap_size values count }
{
    if values { 6 + count } else { 6 }
}

/// The bitmap.
pub(crate) fn bits_of(words: &[u64]) -> Bits256
    requires { 6 ≤ length words.now }
    ensures { result ≡ bitmap_bytes words.now }
{
    Bits256::from_words(&[words[2], words[3], words[4], words[5]])
}

/// The four words of the bitmap, where they stand.
pub(crate) fn bit_words(words: &[u64]) -> &[u64]
    requires { 6 ≤ length words.now }
    ensures four { 4 ≤ length result.now }
    ensures same { members result.now ≡ bitmap_bytes words.now }
{
    &words[2..6]
}

/// Writes the number of keys and the bitmap.
pub(crate) fn write_head(words: &mut [u64], count: u64, bits: &Bits256)
    requires { 6 ≤ length words.old }
    ensures count { leaf_count words.new ≡ count }
    ensures shared { leaf_shared words.new ≡ leaf_shared words.old }
    ensures bits { bitmap_bytes words.new ≡ bits.now }
    ensures rest { drop 6 words.new ≡ drop 6 words.old }
{
    let [first, second, third, fourth] = *bits.words();
    words[0] = count;
    words[2] = first;
    words[3] = second;
    words[4] = third;
    words[5] = fourth;
}

/// The words of a bitmap leaf or a full leaf, with a value for each key or without.
#[derive(Clone, Copy)]
pub(crate) struct Bits<'a> {
    pub(crate) words: &'a [u64],
    pub(crate) values: bool,
    ghost sound: { IsBits values words.now },
}

impl Bits<'_> {
    ghost use Rattle.judy_leaf.specs.Views.{of_bits};

    /// How many members of the bitmap are below the byte. In a full leaf this is the byte itself.
    fn rank(self, byte: u8) -> usize
        ensures rank { result ≡ length (below (bitmap_bytes self.entry.words.now) byte) }
        ensures bound { result ≤ byte }
    {
        if self.words[0] == 256 {
            return usize::from(byte);
        }
        rank_in(bit_words(self.words), byte) as usize
    }

    /// The value of this rank: 0 in a set.
    pub(crate) fn value_at(self, rank: usize) -> u64
        requires { rank < leaf_count self.words.now }
        ensures { slice_get (map (λ e. e.1) (of_bits self.entry)) rank ≡ Some result }
    {
        if self.values { self.words[6 + rank] } else { 0 }
    }

    /// Whether the key is present.
    pub(crate) fn has(self, key: u64) -> bool
        ensures { result ≡ has_key word_order (of_bits self.entry) key }
    {
        key - key % 256 == self.words[1] && has_in(bit_words(self.words), (key % 256) as u8)
    }

    /// How many keys are below the key, or None if it is absent.
    pub(crate) fn find(self, key: u64) -> Option<u64>
        ensures rank { result ≡ rank_of (of_bits self.entry) key }
        ensures absent { IfNone result
            (IsFalse (has_key word_order (of_bits self.entry) key)) }
        ensures present { IfSome result
            (λ r. IsTrue (has_key word_order (of_bits self.entry) key)) }
        ensures within { IfSome result (λ r. r < leaf_count self.entry.words.now) }
        ensures place { IfSome result (λ r. r ≡ length (below (bitmap_bytes self.entry.words.now) (key % 256))) }
        ensures at { IfSome result (λ r. slice_get (bitmap_bytes self.entry.words.now) r ≡ Some (key % 256)) }
        ensures shared { IfSome result (λ r. key - key % 256 ≡ leaf_shared self.entry.words.now) }
    {
        if key - key % 256 != self.words[1] {
            return None;
        }
        let byte = (key % 256) as u8;
        if has_in(bit_words(self.words), byte) {
            Some(self.rank(byte) as u64)
        } else {
            None
        }
    }

    /// The value of the key: 0 in a set. None if it is absent.
    pub(crate) fn get(self, key: u64) -> Option<u64>
        ensures { result ≡ value_of word_order (of_bits self.entry) key }
    {
        if !self.has(key) {
            return None;
        }
        if !self.values {
            return Some(0);
        }
        let rank = self.rank((key % 256) as u8);
        Some(self.words[6 + rank])
    }

    /// The key of this rank.
    pub(crate) fn nth(self, rank: u64) -> Option<u64>
        ensures { result ≡ slice_get (map (λ e. e.0) (of_bits self.entry)) rank }
    {
        if rank >= 256 {
            return None;
        }
        match bits_of(self.words).select(rank as u32) {
            Some(byte) => Some(self.words[1] + u64::from(byte)),
            None => None,
        }
    }

    /// The entry of this rank.
    pub(crate) fn entry_at(self, rank: u64) -> (u64, u64)
        requires { rank < leaf_count self.words.now }
        ensures { slice_get (of_bits self.entry) rank ≡ Some result }
    {
        match self.nth(rank) {
            Some(key) => (key, self.value_at(rank as usize)),
            None => unreachable!(),
        }
    }
}

/// Writes the number of keys, and the byte into its word of the bitmap. The other words of the
/// bitmap stay.
fn write_member(words: &mut [u64], count: u64, byte: u8)
    requires { 6 ≤ length words.old }
    ensures count { leaf_count words.new ≡ count }
    ensures shared { leaf_shared words.new ≡ leaf_shared words.old }
    ensures bits { bitmap_bytes words.new ≡ with_byte (bitmap_bytes words.old) byte }
    ensures rest { drop 6 words.new ≡ drop 6 words.old }
{
    let row = 2 + usize::from(byte / 64);
    words[row] |= 1 << (byte % 64);
    words[0] = count;
}

/// Writes the number of keys, and removes the byte from its word of the bitmap. The other words of
/// the bitmap stay.
fn clear_member(words: &mut [u64], count: u64, byte: u8)
    requires { 6 ≤ length words.old }
    ensures count { leaf_count words.new ≡ count }
    ensures shared { leaf_shared words.new ≡ leaf_shared words.old }
    ensures bits { bitmap_bytes words.new ≡ without_byte (bitmap_bytes words.old) byte }
    ensures rest { drop 6 words.new ≡ drop 6 words.old }
{
    let row = 2 + usize::from(byte / 64);
    words[row] &= !(1 << (byte % 64));
    words[0] = count;
}

/// Makes room for the value of an absent byte and writes it there. In a set nothing changes.
fn open_value(values: bool, words: &mut [u64], byte: u8, count: usize, value: u64)
    requires leaf { IsBits values words.old }
    requires count { count ≡ leaf_count words.old }
    requires rank { length (below (bitmap_bytes words.old) byte) ≤ count }
    requires room { bitmap_size values (count + 1) ≤ length words.old }
    requires plain { IsFalse values → value ≡ 0 }
    ensures values { bitmap_values values (count + 1) words.new
        ≡ insert (bitmap_values values count words.old)
        (length (below (bitmap_bytes words.old) byte)) value }
    ensures head { (i : ℕ) → i < 6 → slice_index words.new i ≡ slice_index words.old i }
{
    if values {
        let rank = Bits { words, values }.rank(byte);
        open(words, 6 + count, 6 + rank, value);
    }
}

/// Removes the value of this rank from a map.
fn close_value(words: &mut [u64], rank: usize, count: usize)
    requires rank { rank < count }
    requires room { bitmap_size true count ≤ length words.old }
    ensures values { bitmap_values true (count - 1) words.new
        ≡ remove (bitmap_values true count words.old) rank }
    ensures head { (i : ℕ) → i < 6 → slice_index words.new i ≡ slice_index words.old i }
{
    close(words, 6 + count, 6 + rank);
}

/// Removes the value of a member and returns it. In a set nothing changes, and the result is 0.
fn take_value(values: bool, words: &mut [u64], byte: u8, count: usize) -> u64
    requires leaf { IsBits values words.old }
    requires count { count ≡ leaf_count words.old }
    requires rank { length (below (bitmap_bytes words.old) byte) < count }
    ensures value { result ≡ cond values
        (slice_index (drop 6 words.old) (length (below (bitmap_bytes words.old) byte))) 0 }
    ensures values { bitmap_values values (count - 1) words.new
        ≡ remove (bitmap_values values count words.old)
        (length (below (bitmap_bytes words.old) byte)) }
    ensures head { (i : ℕ) → i < 6 → slice_index words.new i ≡ slice_index words.old i }
{
    if !values {
        return 0;
    }
    let rank = Bits { words, values }.rank(byte);
    let value = words[6 + rank];
    close_value(words, rank, count);
    value
}

/// Writes the value of a key that is present.
pub(crate) fn write(words: &mut [u64], key: u64, value: u64)
    requires leaf { IsBits true words.old }
    requires there { IsTrue (has_key word_order (bitmap_entries true words.old) key) }
    ensures leaf { IsBits true words.new }
    ensures entries { bitmap_entries true words.new
        ≡ with_entry word_order (bitmap_entries true words.old) key value }
    ensures count { leaf_count words.new ≡ leaf_count words.old }
{
    let leaf = Bits {
        words,
        values: true,
    };
    let Some(rank) = leaf.find(key) else {
        unreachable!();
    };
    words[6 + rank as usize] = value;
}

/// Inserts an absent key that has the shared bytes, with its value, 0 in a set.
pub(crate) fn insert(values: bool, words: &mut [u64], key: u64, value: u64)
    requires leaf { IsBits values words.old }
    requires shared { key - key % 256 ≡ leaf_shared words.old }
    requires absent { IsFalse (has_key word_order (bitmap_entries values words.old) key) }
    requires room { bitmap_size values (leaf_count words.old + 1) ≤ length words.old }
    requires plain { IsFalse values → value ≡ 0 }
    ensures leaf { IsBits values words.new }
    ensures entries { bitmap_entries values words.new
        ≡ with_entry word_order (bitmap_entries values words.old) key value }
    ensures count { leaf_count words.new ≡ leaf_count words.old + 1 }
{
    let byte = (key % 256) as u8;
    let count = words[0];
    open_value(values, words, byte, count as usize, value);
    write_member(words, count + 1, byte);
}

/// Removes a key that is present and returns its value.
pub(crate) fn remove(values: bool, words: &mut [u64], key: u64) -> u64
    requires leaf { IsBits values words.old }
    requires present { IsTrue (has_key word_order (bitmap_entries values words.old) key) }
    ensures leaf { IsBits values words.new }
    ensures entries { bitmap_entries values words.new
        ≡ without_key word_order (bitmap_entries values words.old) key }
    ensures value { value_of word_order (bitmap_entries values words.old) key ≡ Some result }
    ensures count { leaf_count words.new + 1 ≡ leaf_count words.old }
{
    let byte = (key % 256) as u8;
    let count = words[0];
    let value = take_value(values, words, byte, count as usize);
    clear_member(words, count - 1, byte);
    value
}

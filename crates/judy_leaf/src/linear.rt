//! The words of a linear leaf: the number of keys, and the keys in rising order. In a map the
//! values follow, in the order of the keys.
ghost use Rattle.std.specs.Prelude.{◌≡◌, ◌+◌, ◌-◌, ◌*◌, ◌<◌, ◌≤◌, MatchResult, IsTrue, IsFalse, true, Some, length, slice_get, map, [], ◌∷◌};
ghost use Rattle.std.specs.List.Sorted.{IsStrictlyIncreasing};
ghost use Rattle.judy_model.specs.Contents.{IsRising, word_order, has_key, value_of, with_entry, without_key, count, first, last, pairs};
ghost use Rattle.judy_model.specs.Gaps.{first_empty, last_empty};
ghost use Rattle.judy_leaf.specs.Entries.{filled, rank_of, share_bytes};
ghost use Rattle.judy_leaf.specs.Keys.{keys_of};
ghost use Rattle.judy_leaf.specs.Linear.{leaf_count, linear_size, linear_keys, linear_entries, IsLinear, StandsAt, GoesTo};

use crate::keys;
use crate::shift::{close, copy_in, open, open_two};

/// The greatest number of keys in a linear leaf.
pub(crate) const MOST: usize = 31;

/// The words that a linear leaf uses.
pub(crate) fn size(values: bool, count: usize) -> usize
    requires { count ≤ 32 }
    ensures { result ≡ linear_size values count }
{
    if values { 1 + 2 * count } else { 1 + count }
}

/// The keys, in rising order.
pub(crate) fn keys(words: &[u64]) -> &[u64]
    requires { leaf_count words.now < length words.now }
    ensures { result.now ≡ linear_keys words.now }
{
    let count = words[0] as usize;
    &words[1..count + 1]
}

/// The item at this place.
fn item(items: &[u64], place: usize) -> Option<u64>
    ensures { result ≡ slice_get items.now place }
{
    items.get(place).copied()
}

/// The words of a linear leaf, with a value for each key or without.
#[derive(Clone, Copy)]
pub(crate) struct Linear<'a> {
    pub(crate) words: &'a [u64],
    pub(crate) values: bool,
    ghost sound: { IsLinear values words.now },
}

impl<'a> Linear<'a> {
    ghost use Rattle.judy_leaf.specs.Views.{of_linear};

    /// The keys, in rising order.
    fn keys(self) -> &'a [u64]
        ensures stored { result.now ≡ linear_keys self.entry.words.now }
        ensures all { keys_of (of_linear self.entry) ≡ result.now }
        ensures rising { IsStrictlyIncreasing result.now }
        ensures count { length result.now ≡ leaf_count self.entry.words.now }
    {
        keys(self.words)
    }

    /// The place of a key: Ok with its place, Err with the place where it would go. Inlined in each
    /// look-up.
    #[inline(always)]
    pub(crate) fn search(self, key: u64) -> Result<usize, usize>
        ensures { MatchResult result (StandsAt self.entry.words.now key) (GoesTo self.entry.words.now key) }
    {
        let stored = self.keys();
        let place = keys::rank(stored, key);
        if place == stored.len() {
            return Err(place);
        }
        if stored[place] == key {
            return Ok(place);
        }
        Err(place)
    }

    /// The value at this place: 0 in a set.
    pub(crate) fn value_at(self, place: usize) -> u64
        requires { place < leaf_count self.words.now }
        ensures { slice_get (map (λ e. e.1) (of_linear self.entry)) place ≡ Some result }
    {
        if self.values {
            self.words[1 + self.words[0] as usize + place]
        } else {
            0
        }
    }

    /// The entry at this place.
    pub(crate) fn entry_at(self, place: usize) -> (u64, u64)
        requires { place < leaf_count self.words.now }
        ensures { slice_get (of_linear self.entry) place ≡ Some result }
    {
        (self.keys()[place], self.value_at(place))
    }

    /// The value of the key: 0 in a set. None if it is absent.
    pub(crate) fn get(self, key: u64) -> Option<u64>
        ensures { result ≡ value_of word_order (of_linear self.entry) key }
    {
        let Ok(place) = self.search(key) else {
            return None;
        };
        Some(self.value_at(place))
    }

    /// How many keys are below the key, or None if it is absent.
    pub(crate) fn find(self, key: u64) -> Option<u64>
        ensures { result ≡ rank_of (of_linear self.entry) key }
    {
        match self.search(key) {
            Ok(place) => Some(place as u64),
            Err(_) => None,
        }
    }

    /// The key of this rank.
    pub(crate) fn nth(self, rank: u64) -> Option<u64>
        ensures { result ≡ slice_get (map (λ e. e.0) (of_linear self.entry)) rank }
    {
        item(self.keys(), rank as usize)
    }

    /// The entry of the least key that is at least `x`.
    pub(crate) fn first_entry(self, x: u64) -> Option<(u64, u64)>
        ensures { result ≡ first word_order (of_linear self.entry) x }
    {
        let stored = self.keys();
        let place = keys::rank(stored, x);
        if place == stored.len() {
            return None;
        }
        Some(self.entry_at(place))
    }

    /// The entry of the greatest key that is at most `x`.
    pub(crate) fn last_entry(self, x: u64) -> Option<(u64, u64)>
        ensures { result ≡ last word_order (of_linear self.entry) x }
    {
        let stored = self.keys();
        let past = keys::rank_past(stored, x);
        if past == 0 {
            return None;
        }
        Some(self.entry_at(past - 1))
    }

    /// How many keys are from `a` to `b`, both included.
    pub(crate) fn count(self, a: u64, b: u64) -> u64
        ensures { result ≡ count (of_linear self.entry) a b }
    {
        keys::count(self.keys(), a, b) as u64
    }

    /// The least word from `x` on that is not a key of the leaf.
    pub(crate) fn first_empty(self, x: u64) -> Option<u64>
        ensures { result ≡ first_empty (of_linear self.entry) x }
    {
        keys::first_empty(self.keys(), x)
    }

    /// The greatest word up to `x` that is not a key of the leaf.
    pub(crate) fn last_empty(self, x: u64) -> Option<u64>
        ensures { result ≡ last_empty (of_linear self.entry) x }
    {
        keys::last_empty(self.keys(), x)
    }

    /// Whether all keys share bytes 0 to 6 with this one.
    pub(crate) fn shares(self, key: u64) -> bool
        ensures { result ≡ share_bytes (of_linear self.entry) key }
    {
        let count = self.words[0] as usize;
        self.words[1] / 256 == key / 256 && self.words[count] / 256 == key / 256
    }
}

/// Writes the value of a key that is present.
pub(crate) fn write(words: &mut [u64], key: u64, value: u64)
    requires leaf { IsLinear true words.old }
    requires there { IsTrue (has_key word_order (linear_entries true words.old) key) }
    ensures leaf { IsLinear true words.new }
    ensures entries { linear_entries true words.new
        ≡ with_entry word_order (linear_entries true words.old) key value }
    ensures count { leaf_count words.new ≡ leaf_count words.old }
{
    let leaf = Linear {
        words,
        values: true,
    };
    let Ok(place) = leaf.search(key) else {
        unreachable!();
    };
    let count = words[0] as usize;
    words[1 + count + place] = value;
}

/// Inserts an absent key at this place, with its value, 0 in a set. Inlined in each insertion.
#[inline(always)]
pub(crate) fn insert(values: bool, words: &mut [u64], place: usize, key: u64, value: u64)
    requires leaf { IsLinear values words.old }
    requires few { leaf_count words.old < 31 }
    requires place { GoesTo words.old key place }
    requires plain { IsFalse values → value ≡ 0 }
    requires room { linear_size values (leaf_count words.old + 1) ≤ length words.old }
    ensures leaf { IsLinear values words.new }
    ensures entries { linear_entries values words.new
        ≡ with_entry word_order (linear_entries values words.old) key value }
    ensures count { leaf_count words.new ≡ leaf_count words.old + 1 }
{
    let count = words[0] as usize;
    let used = size(values, count);
    if values {
        open_two(words, used, 1 + place, key, 1 + count + place, value);
        words[0] = count as u64 + 1;
        return;
    }
    open(words, used, 1 + place, key);
    words[0] = count as u64 + 1;
}

/// Removes the key at this place.
pub(crate) fn remove(values: bool, words: &mut [u64], place: usize, key: u64)
    requires leaf { IsLinear values words.old }
    requires others { 1 < leaf_count words.old }
    requires place { StandsAt words.old key place }
    ensures leaf { IsLinear values words.new }
    ensures entries { linear_entries values words.new
        ≡ without_key word_order (linear_entries values words.old) key }
    ensures count { leaf_count words.new + 1 ≡ leaf_count words.old }
{
    let count = words[0] as usize;
    let used = size(values, count);
    if values {
        close(words, used, 1 + count + place);
        close(words, used - 1, 1 + place);
        words[0] = count as u64 - 1;
        return;
    }
    close(words, used, 1 + place);
    words[0] = count as u64 - 1;
}

/// Writes the first key with its value, 0 in a set.
pub(crate) fn start(values: bool, words: &mut [u64], key: u64, value: u64)
    requires room { linear_size values 1 ≤ length words.old }
    requires plain { IsFalse values → value ≡ 0 }
    ensures leaf { IsLinear values words.new }
    ensures entries { linear_entries values words.new ≡ (key, value) ∷ [] }
    ensures count { leaf_count words.new ≡ 1 }
{
    words[0] = 1;
    words[1] = key;
    if values {
        words[2] = value;
    }
}

/// Writes a leaf of these rising keys and their values.
pub(crate) fn fill(values: bool, words: &mut [u64], keys: &[u64], vals: &[u64])
    requires some { 0 < length keys.now }
    requires few { length keys.now ≤ 31 }
    requires same { length vals.now ≡ length keys.now }
    requires rising { IsRising word_order (pairs keys.now vals.now) }
    requires room { linear_size values (length keys.now) ≤ length words.old }
    ensures leaf { IsLinear values words.new }
    ensures entries { linear_entries values words.new ≡ filled values keys.now vals.now }
    ensures count { leaf_count words.new ≡ length keys.now }
{
    let count = keys.len();
    words[0] = count as u64;
    copy_in(words, 1, keys);
    if values {
        copy_in(words, 1 + count, vals);
    }
}

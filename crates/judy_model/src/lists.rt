//! The text of a reply that lists entries, and the room for it.
ghost use Rattle.std.specs.Prelude.{◌*◌, ◌≡◌, ◌+◌, ◌≤◌, ◌++◌, [], length, nat_le, if◌then◌else◌};
ghost use Rattle.std.specs.Prelude.{nat_eq};
ghost use Rattle.std.specs.Cmp.{partial_equiv_from_equiv};
ghost use Rattle.std.specs.Cmp.Lexicographic.{pointwise, nat_list_eq_equiv};
ghost use Rattle.judy_model.specs.ArrayLists.{array_words, count_of};
ghost use Rattle.judy_model.specs.Walks.{entry_words, index_words, key_words};

use crate::commands::Kind;
use crate::names::{KEY_LIMIT, Name};
use arrayvec::ArrayVec;
use itoa::write_digits;
use std::marker::Model;

/// The most bytes of the entries in a reply.
pub const LIST_LIMIT: usize = 4088;

/// The most bytes of the indexes in the reply to an intersection, which also has a word.
pub const INTERSECTION_LIMIT: usize = 4067;

/// The most steps of an intersection. Each looks once into each of the two sets.
pub const INTERSECTION_STEPS: u16 = 2048;

/// The most bytes of a space and a number.
pub const SPACED_LIMIT: usize = 21;

// The most digits of a string that have a small room: to clear a large one takes longer than to write these.
const SHORT_DIGITS: usize = 128;

/// The text of the entries in a reply, which is borrowed. Contracts see it as its bytes.
#[derive(Debug, Drop)]
pub struct Text<'a> {
    bytes: &'a [u8],
}

impl<'a> Model for Text<'a> {
    ghost use Rattle.std.specs.Prelude.{ℕ, List, ◌≤◌, length};
    ghost use Rattle.judy_model.specs.declared.lists.TheConstants.{LIST_LIMIT};

    ghost Value = { List ℕ };

    ghost view = { λ t. t.bytes.now };

    ghost invariant = { λ t. length t.bytes.now ≤ LIST_LIMIT };
}

impl<'a> Text<'a> {
    /// The text of these bytes.
    pub fn of(bytes: &'a [u8]) -> Text<'a>
        requires { length bytes.now ≤ LIST_LIMIT }
        ensures { result ≡ bytes.now }
    {
        Text { bytes }
    }

    /// The bytes of the text.
    pub fn as_bytes(&self) -> &'a [u8]
        ensures value { result.now ≡ self.now }
        ensures fits { length result.now ≤ LIST_LIMIT }
    {
        self.bytes
    }
}

impl<'a> PartialEq for Text<'a> {
    ghost eq = { λ a b. pointwise nat_eq a b };

    ghost laws = { partial_equiv_from_equiv nat_list_eq_equiv };

    fn eq(&self, other: &Self) -> bool {
        self.bytes == other.bytes
    }
}

impl<'a> Eq for Text<'a> {
    ghost laws = { nat_list_eq_equiv };
}

/// The text of the indexes in the reply to an intersection, which is borrowed. Contracts see it as its bytes.
#[derive(Debug, Drop)]
pub struct IndexText<'a> {
    text: Text<'a>,
}

impl<'a> Model for IndexText<'a> {
    ghost use Rattle.std.specs.Prelude.{ℕ, List, ◌≤◌, length};
    ghost use Rattle.judy_model.specs.declared.lists.TheConstants.{INTERSECTION_LIMIT};

    ghost Value = { List ℕ };

    ghost view = { λ t. t.text };

    ghost invariant = { λ t. length t.text ≤ INTERSECTION_LIMIT };
}

impl<'a> IndexText<'a> {
    /// The text of these bytes.
    pub fn of(bytes: &'a [u8]) -> IndexText<'a>
        requires { length bytes.now ≤ INTERSECTION_LIMIT }
        ensures { result ≡ bytes.now }
    {
        IndexText {
            text: Text::of(bytes),
        }
    }

    /// The bytes of the text.
    pub fn as_bytes(&self) -> &'a [u8]
        ensures value { result.now ≡ self.now }
        ensures fits { length result.now ≤ INTERSECTION_LIMIT }
    {
        self.text.as_bytes()
    }
}

impl<'a> PartialEq for IndexText<'a> {
    ghost eq = { λ a b. pointwise nat_eq a b };

    ghost laws = { partial_equiv_from_equiv nat_list_eq_equiv };

    fn eq(&self, other: &Self) -> bool {
        self.as_bytes() == other.as_bytes()
    }
}

impl<'a> Eq for IndexText<'a> {
    ghost laws = { nat_list_eq_equiv };
}

/// An array that has entries: its kind, its name, and how many they are.
#[derive(Debug, PartialEq, Eq, Drop)]
pub struct ArrayCount {
    pub kind: Kind,
    pub name: Name,
    pub entries: u64,
}

/// Room for the text of entries. Contracts see it as the bytes that are in it.
#[derive(Debug, Drop)]
pub struct Listing {
    bytes: ArrayVec<u8, LIST_LIMIT>,
}

impl Model for Listing {
    ghost use Rattle.std.specs.Prelude.{ℕ, List};

    ghost Value = { List ℕ };

    ghost view = { λ l. l.bytes.items };
}

/// Writes a space and the digits of a number.
pub fn spaced<'a>(number: u64, room: &'a mut [u8; SPACED_LIMIT]) -> &'a [u8]
    ensures text { result.now ≡ index_words number }
    ensures short { length result.now ≤ SPACED_LIMIT }
{
    let space = write_digits(number, room, SPACED_LIMIT) - 1;
    room[space] = b' ';
    let (_, text) = room.split_at(space);
    text
}

impl Listing {
    /// An empty list.
    pub fn new() -> Listing
        ensures { result ≡ [] }
    {
        Listing {
            bytes: ArrayVec::new(),
        }
    }

    /// Removes all entries.
    pub fn clear(&mut self)
        ensures { self.new ≡ [] }
    {
        self.bytes.clear();
    }

    /// The text of the entries.
    pub fn text(&self) -> Text<'_>
        ensures { result ≡ self.now }
    {
        Text::of(self.bytes.as_slice())
    }

    /// The text of indexes.
    pub fn indexes(&self) -> IndexText<'_>
        requires { length self.now ≤ INTERSECTION_LIMIT }
        ensures { result ≡ self.now }
    {
        IndexText::of(self.bytes.as_slice())
    }

    /// Replaces the entries by this text.
    pub fn put(&mut self, text: &Text<'_>)
        ensures { self.new ≡ text.now }
    {
        self.bytes.clear();
        let _fits = self.bytes.try_extend_from_slice(text.as_bytes());
    }

    /// Adds bytes, if they fit. Returns whether they do.
    fn add(&mut self, bytes: &[u8]) -> bool
        ensures fits { result ≡ nat_le (length self.old + length bytes.now) LIST_LIMIT }
        ensures added { self.new ≡ (if result then self.old ++ bytes.now else self.old) }
    {
        self.bytes.try_extend_from_slice(bytes).is_ok()
    }

    /// Adds an index, if it fits. Returns whether it does.
    pub fn add_index(&mut self, index: u64) -> bool
        ensures fits { result ≡ nat_le (length self.old + length (index_words index)) LIST_LIMIT }
        ensures added { self.new ≡ (if result then self.old ++ index_words index else self.old) }
    {
        let mut room = [0; SPACED_LIMIT];
        self.add(spaced(index, &mut room))
    }

    /// Adds an index of an intersection, if it fits. Returns whether it does.
    pub fn add_shared(&mut self, index: u64) -> bool
        ensures fits { result ≡ nat_le (length self.old + length (index_words index)) INTERSECTION_LIMIT }
        ensures added { self.new ≡ (if result then self.old ++ index_words index else self.old) }
    {
        let mut room = [0; SPACED_LIMIT];
        let text = spaced(index, &mut room);
        if self.bytes.len() + text.len() > INTERSECTION_LIMIT {
            return false;
        }
        self.add(text)
    }

    /// Adds an index and its value, if both fit. Returns whether they do.
    pub fn add_entry(&mut self, index: u64, value: u64) -> bool
        ensures fits { result ≡ nat_le (length self.old + length (entry_words (index, value))) LIST_LIMIT }
        ensures added { self.new
            ≡ (if result then self.old ++ entry_words (index, value) else self.old) }
    {
        let (mut first, mut second) = ([0; SPACED_LIMIT], [0; SPACED_LIMIT]);
        let shown = spaced(value, &mut first);
        let index = spaced(index, &mut second);
        if self.bytes.len() + shown.len() + index.len() > LIST_LIMIT {
            return false;
        }
        self.add(shown) && self.add(index)
    }

    /// Adds an array: its kind, its name and its number of entries, if they fit. Returns whether they do.
    pub fn add_array(&mut self, array: &ArrayCount) -> bool
        ensures fits { result ≡ nat_le (length self.old + length (array_words (count_of array.now))) LIST_LIMIT }
        ensures added { self.new
            ≡ (if result then self.old ++ array_words (count_of array.now) else self.old) }
    {
        let mut room = [0; SPACED_LIMIT];
        let count = spaced(array.entries, &mut room);
        let (word, name) = (array.kind.word(), array.name.as_bytes());
        if self.bytes.len() + 2 + word.len() + name.len() + count.len() > LIST_LIMIT {
            return false;
        }
        self.add(b" ") && self.add(word) && self.add(b" ") && self.add(name) && self.add(count)
    }

    /// Adds a string and its value, if both fit, with room for the digits of the string. Returns whether they do.
    fn add_shown(&mut self, key: &[u8], value: u64, digits: &mut [u8]) -> bool
        requires { length digits.old ≡ 2 * length key.now }
        ensures fits { result ≡ nat_le (length self.old + length (key_words (key.now, value))) LIST_LIMIT }
        ensures added { self.new
            ≡ (if result then self.old ++ key_words (key.now, value) else self.old) }
    {
        let mut room = [0; SPACED_LIMIT];
        let shown = spaced(value, &mut room);
        let _fits = hex::encode_to_slice(key, digits);
        if self.bytes.len() + shown.len() + 2 + digits.len() > LIST_LIMIT {
            return false;
        }
        self.add(shown) && self.add(b" x") && self.add(digits)
    }

    /// Adds a string and its value, if both fit. Returns whether they do.
    pub fn add_key(&mut self, key: &[u8], value: u64) -> bool
        requires { length key.now ≤ KEY_LIMIT }
        ensures fits { result ≡ nat_le (length self.old + length (key_words (key.now, value))) LIST_LIMIT }
        ensures added { self.new
            ≡ (if result then self.old ++ key_words (key.now, value) else self.old) }
    {
        let len = 2 * key.len();
        if len <= SHORT_DIGITS {
            let mut digits = [0u8; SHORT_DIGITS];
            return self.add_shown(key, value, &mut digits[..len]);
        }
        let mut digits = [0u8; 2 * KEY_LIMIT];
        self.add_shown(key, value, &mut digits[..len])
    }
}

/// Room for the bytes of a reply: the key that a search finds, and the text of the entries of a walk. It is
/// made once and lent.
#[derive(Debug, Drop)]
pub struct ReplyRoom {
    /// The key.
    pub key: ArrayVec<u8, KEY_LIMIT>,
    /// The entries.
    pub listing: Listing,
}

impl ReplyRoom {
    /// Empty room.
    pub fn new() -> ReplyRoom
        ensures key { result.key.items ≡ [] }
        ensures listing { result.listing ≡ [] }
    {
        ReplyRoom {
            key: ArrayVec::new(),
            listing: Listing::new(),
        }
    }
}

//! Names, which own their bytes, and keys, which borrow theirs.
ghost use Rattle.std.specs.Prelude.{◌≡◌, ◌≤◌, Some, refl, nat_eq, length, if◌then◌else◌};
ghost use Rattle.std.specs.Ordering.{nat_cmp};
ghost use Rattle.std.specs.Cmp.{partial_equiv_from_equiv};
ghost use Rattle.std.specs.Cmp.Lexicographic.{pointwise, slice_cmp, nat_list_eq_equiv, nat_list_cmp_total, texts_po, texts_ties};
ghost use Rattle.judy_model.specs.Grammar.{is_byte_key, is_name};
ghost use Rattle.judy_model.specs.Pieces.{string_pieces};

use crate::grammar::name_ok;
use crate::quotas::PIECE;
use std::cmp::Ordering;
use std::fmt;
use std::marker::Model;

/// The most bytes of a name.
pub const NAME_LIMIT: usize = 32;

/// The most bytes of a string or of a byte key.
pub const KEY_LIMIT: usize = 1000;

/// The most bytes of a token.
pub const TOKEN_LIMIT: usize = 128;

/// The name of a tenant or of an array: at most 32 bytes. `Name::read` accepts only names of the
/// grammar.
#[derive(Drop)]
pub struct Name {
    room: [u8; NAME_LIMIT],
    len: usize,
}

impl Model for Name {
    ghost use Rattle.std.specs.Prelude.{ℕ, List, ◌≤◌, take};
    ghost use Rattle.judy_model.specs.declared.names.TheConstants.{NAME_LIMIT};

    ghost Value = { List ℕ };

    ghost view = { λ n. take n.len n.room };

    ghost invariant = { λ n. n.len ≤ NAME_LIMIT };
}

impl Name {
    /// The name of these bytes: 1 to 32 letters, digits, `_`, `-` and `.`. None for other bytes.
    pub fn read(bytes: &[u8]) -> Option<Name>
        ensures { result ≡ (if is_name bytes.now then Some bytes.now else None) }
    {
        if !name_ok(bytes) {
            return None;
        }
        Some(Name::of(bytes))
    }

    /// The name of these bytes, at most 32.
    pub fn of(bytes: &[u8]) -> Name
        requires { length bytes.now ≤ NAME_LIMIT }
        ensures { result ≡ bytes.now }
    {
        let mut room = [0u8; NAME_LIMIT];
        room[..bytes.len()].copy_from_slice(bytes);
        Name {
            room,
            len: bytes.len(),
        }
    }

    /// The bytes of the name.
    pub fn as_bytes(&self) -> &[u8]
        ensures value { result.now ≡ self.now }
        ensures fits { length result.now ≤ NAME_LIMIT }
    {
        &self.room[..self.len]
    }

    /// A copy of the name.
    pub fn copied(&self) -> Name
        ensures { result ≡ self.now }
    {
        Name {
            room: self.room,
            len: self.len,
        }
    }
}

impl PartialEq for Name {
    ghost eq = { λ a b. pointwise nat_eq a b };

    ghost laws = { partial_equiv_from_equiv nat_list_eq_equiv };

    fn eq(&self, other: &Self) -> bool {
        self.as_bytes() == other.as_bytes()
    }
}

impl Eq for Name {
    ghost laws = { nat_list_eq_equiv };
}

impl PartialOrd for Name {
    ghost partial_cmp = { λ a b. Some (slice_cmp nat_cmp a b) };

    ghost laws = { texts_po };

    fn partial_cmp(&self, other: &Self) -> Option<Ordering> {
        Some(self.cmp(other))
    }
}

impl Ord for Name {
    ghost cmp = { λ a b. slice_cmp nat_cmp a b };

    ghost total = { nat_list_cmp_total };

    ghost matches_partial_cmp = { λ a b. refl };

    ghost matches_eq = { λ a b. texts_ties a b };

    fn cmp(&self, other: &Self) -> Ordering {
        self.as_bytes().cmp(other.as_bytes())
    }
}

/// Debug output shows a name as a list of its bytes.
impl fmt::Debug for Name {
    fn fmt<W: fmt::Write>(&self, f: &mut fmt::Formatter<W>) -> fmt::Result {
        self.as_bytes().fmt(f)
    }
}

/// A string or a byte key: at most 1,000 bytes, which are borrowed.
#[derive(Debug, Drop)]
pub struct Key<'a> {
    bytes: &'a [u8],
}

impl<'a> Model for Key<'a> {
    ghost use Rattle.std.specs.Prelude.{ℕ, List, ◌≤◌, length};
    ghost use Rattle.judy_model.specs.declared.names.TheConstants.{KEY_LIMIT};

    ghost Value = { List ℕ };

    ghost view = { λ k. k.bytes.now };

    ghost invariant = { λ k. length k.bytes.now ≤ KEY_LIMIT };
}

impl<'a> Key<'a> {
    /// The key of these bytes. None if they are more than 1,000.
    pub fn read(bytes: &'a [u8]) -> Option<Key<'a>>
        ensures { result ≡ (if is_byte_key bytes.now then Some bytes.now else None) }
    {
        if bytes.len() > KEY_LIMIT {
            return None;
        }
        Some(Key { bytes })
    }

    /// The key of these bytes, at most 1,000.
    pub fn of(bytes: &'a [u8]) -> Key<'a>
        requires { length bytes.now ≤ KEY_LIMIT }
        ensures { result ≡ bytes.now }
    {
        Key { bytes }
    }

    /// The bytes of the key.
    pub fn as_bytes(&self) -> &'a [u8]
        ensures value { result.now ≡ self.now }
        ensures fits { length result.now ≤ KEY_LIMIT }
    {
        self.bytes
    }

    /// The number of pieces of an entry with this key.
    pub fn pieces(&self) -> u64
        ensures { result ≡ string_pieces self.now }
    {
        self.bytes.len() as u64 / PIECE + 1
    }

    /// The same key, borrowed again.
    pub fn copied(&self) -> Key<'a>
        ensures { result ≡ self.now }
    {
        Key { bytes: self.bytes }
    }
}

impl<'a> PartialEq for Key<'a> {
    ghost eq = { λ a b. pointwise nat_eq a b };

    ghost laws = { partial_equiv_from_equiv nat_list_eq_equiv };

    fn eq(&self, other: &Self) -> bool {
        self.bytes == other.bytes
    }
}

impl<'a> Eq for Key<'a> {
    ghost laws = { nat_list_eq_equiv };
}

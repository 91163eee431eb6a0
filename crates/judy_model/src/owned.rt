//! Keys and replies that own their bytes, for callers that keep them.
ghost use Rattle.std.specs.Prelude.{◌≡◌, Some, refl, nat_eq};
ghost use Rattle.std.specs.Ordering.{nat_cmp};
ghost use Rattle.std.specs.Cmp.{partial_equiv_from_equiv};
ghost use Rattle.std.specs.Cmp.Lexicographic.{pointwise, slice_cmp, nat_list_eq_equiv, nat_list_cmp_total, texts_po, texts_ties};

use crate::lists::{IndexText, ReplyRoom, Text};
use crate::names::{KEY_LIMIT, Key};
use crate::replies::Reply;
use arrayvec::ArrayVec;
use std::cmp::Ordering;
use std::marker::Model;

/// A string or a byte key that owns its bytes.
#[derive(Debug, Drop)]
pub struct OwnedKey {
    bytes: ArrayVec<u8, KEY_LIMIT>,
}

impl Model for OwnedKey {
    ghost use Rattle.std.specs.Prelude.{ℕ, List};

    ghost Value = { List ℕ };

    ghost view = { λ k. k.bytes.items };
}

impl OwnedKey {
    /// A copy of the key.
    pub fn of(key: &Key<'_>) -> OwnedKey
        ensures { result ≡ key.now }
    {
        let mut bytes = ArrayVec::new();
        let _fits = bytes.try_extend_from_slice(key.as_bytes());
        OwnedKey { bytes }
    }

    /// The key.
    pub fn key(&self) -> Key<'_>
        ensures { result ≡ self.now }
    {
        Key::of(self.bytes.as_slice())
    }
}

impl PartialEq for OwnedKey {
    ghost eq = { λ a b. pointwise nat_eq a b };

    ghost laws = { partial_equiv_from_equiv nat_list_eq_equiv };

    fn eq(&self, other: &Self) -> bool {
        self.key() == other.key()
    }
}

impl Eq for OwnedKey {
    ghost laws = { nat_list_eq_equiv };
}

impl PartialOrd for OwnedKey {
    ghost partial_cmp = { λ a b. Some (slice_cmp nat_cmp a b) };

    ghost laws = { texts_po };

    fn partial_cmp(&self, other: &Self) -> Option<Ordering> {
        Some(self.cmp(other))
    }
}

impl Ord for OwnedKey {
    ghost cmp = { λ a b. slice_cmp nat_cmp a b };

    ghost total = { nat_list_cmp_total };

    ghost matches_partial_cmp = { λ a b. refl };

    ghost matches_eq = { λ a b. texts_ties a b };

    fn cmp(&self, other: &Self) -> Ordering {
        self.key().cmp(&other.key())
    }
}

/// A reply that owns the bytes of its key or of its entries, if it has any. Contracts see it as the reply.
#[derive(Debug, Drop)]
pub struct OwnedReply {
    /// The reply. In place of its key or text it has one of no bytes.
    bare: Reply<'static>,
    room: ReplyRoom,
}

impl Model for OwnedReply {
    ghost use Rattle.judy_model.specs.declared.replies.Reply.{Reply};
    ghost use Rattle.judy_model.specs.Owned.{IsRoomOf, with_room};

    ghost Value = { Reply };

    ghost view = { λ r. with_room r.room r.bare };

    ghost invariant = { λ r. IsRoomOf r.room r.bare };
}

impl OwnedReply {
    /// A copy of the reply.
    pub fn of(reply: &Reply<'_>) -> OwnedReply
        ensures { result ≡ reply.now }
    {
        let mut room = ReplyRoom::new();
        let bare = match reply {
            Reply::Int(b) => Reply::Int(*b),
            Reply::Index(i) => Reply::Index(*i),
            Reply::Count(n) => Reply::Count(*n),
            Reply::Value(v) => Reply::Value(*v),
            Reply::ValueAt(v, i) => Reply::ValueAt(*v, *i),
            Reply::ValueKey(v, found) => {
                let _fits = room.key.try_extend_from_slice(found.as_bytes());
                Reply::ValueKey(*v, Key::of(&[]))
            }
            Reply::Entries(count, text) => {
                room.listing.put(text);
                Reply::Entries(*count, Text::of(&[]))
            }
            Reply::Intersection(next, count, text) => {
                room.listing.put(&Text::of(text.as_bytes()));
                Reply::Intersection(*next, *count, IndexText::of(&[]))
            }
            Reply::Null => Reply::Null,
            Reply::Used(used, quota, pieces, most) => Reply::Used(*used, *quota, *pieces, *most),
            Reply::ReadOnly => Reply::ReadOnly,
            Reply::Frozen => Reply::Frozen,
            Reply::Full => Reply::Full,
            Reply::Memory => Reply::Memory,
        };
        OwnedReply { bare, room }
    }

    /// The reply.
    pub fn reply(&self) -> Reply<'_>
        ensures { result ≡ self.now }
    {
        match &self.bare {
            Reply::Int(b) => Reply::Int(*b),
            Reply::Index(i) => Reply::Index(*i),
            Reply::Count(n) => Reply::Count(*n),
            Reply::Value(v) => Reply::Value(*v),
            Reply::ValueAt(v, i) => Reply::ValueAt(*v, *i),
            Reply::ValueKey(v, _) => Reply::ValueKey(*v, Key::of(self.room.key.as_slice())),
            Reply::Entries(count, _) => Reply::Entries(*count, self.room.listing.text()),
            Reply::Intersection(next, count, _) => {
                Reply::Intersection(*next, *count, self.room.listing.indexes())
            }
            Reply::Null => Reply::Null,
            Reply::Used(used, quota, pieces, most) => Reply::Used(*used, *quota, *pieces, *most),
            Reply::ReadOnly => Reply::ReadOnly,
            Reply::Frozen => Reply::Frozen,
            Reply::Full => Reply::Full,
            Reply::Memory => Reply::Memory,
        }
    }
}

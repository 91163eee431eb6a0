//! Walks over a map: its entries in the order of their hash words, and of their keys where these are equal, as the
//! text of a reply.
ghost use Rattle.std.specs.Prelude.{◌≡◌, ◌≤◌, ◌∷◌, [], IfSome, drop, length, map, option_map, unwrap_or};
ghost use Rattle.judy_model.specs.Contents.{next, string_order};
ghost use Rattle.judy_model.specs.Walks.{key_words, listed, walk_from};
ghost use Rattle.judy_model.specs.declared.calls.BytesCall.TheVariants as bytes;
ghost use Rattle.judy_words.specs.LongArrays.{IsLongArray, long_in};
ghost use Rattle.judy_bytes.specs.BytesArrays.{IsBytesArray, BytesLooks, first_at};
ghost use Rattle.judy_bytes.specs.Walks.{IsLeastOf, first_behind, hashed_in, is_behind, shown_entry};

use crate::array::JudyHS;
use crate::hash::OrderHash;
use crate::{chain, words};
use arrayvec::ArrayVec;
use judy_arena::Arena;
use judy_model::{KEY_LIMIT, Reply, ReplyRoom};
use judy_refs::Ref;
use judy_words::JudyL;

// An entry that a step of a walk finds. Its key is in a buffer.
#[derive(Clone, Copy)]
struct Shown {
    // The hash word of the key.
    hash: u64,
    // The first bucket at this hash word.
    first: Ref,
    // The value of the key.
    value: u64,
}

/// Puts a copy of a key into a buffer.
fn copy(to: &mut ArrayVec<u8, KEY_LIMIT>, from: &ArrayVec<u8, KEY_LIMIT>)
    ensures { to.new.items ≡ from.now.items }
{
    to.clear();
    let _fits = to.try_extend_from_slice(from.as_slice());
}

// The entry of the least hash word, or of the next one behind this.
fn word_behind(arena: &Arena, words: JudyL, hash: Option<u64>) -> Option<(u64, u64)>
    requires { IsLongArray arena.now.blocks words }
    ensures { result ≡ first_behind (long_in arena.now.blocks words) hash }
{
    match hash {
        Some(hash) => words.next(arena, hash),
        None => words.first(arena, 0),
    }
}

impl<H: OrderHash> JudyHS<H> {
    /// The first entry of a walk whose hash word is behind this one, or the first of all. The buffer gets the key.
    fn at_next_word(
        &self,
        arena: &Arena,
        hash: Option<u64>,
        buffer: &mut ArrayVec<u8, KEY_LIMIT>,
    ) -> Option<Shown>
        requires { IsBytesArray H.hashed arena.now.blocks self.now.words }
        ensures least { IsLeastOf (hashed_in arena.now.blocks self.now.words) (is_behind hash)
            (option_map (λ s. s.value) result)
            (unwrap_or (option_map (λ s. s.hash) result) 0 ∷ buffer.new.items) }
        ensures first { IfSome result (λ s. s.first ≡ first_at arena.now.blocks self.now.words s.hash) }
    {
        let Some(entry) = word_behind(arena, self.words, hash) else {
            return None;
        };
        let first = words::reference_of(entry.1);
        let Some(value) = chain::least_above(arena, first, None, buffer) else {
            return None;
        };
        Some(Shown {
            hash: entry.0,
            first,
            value,
        })
    }

    /// The entry behind a key in a walk: the next one of the chain of its hash word, or the first one at the next
    /// hash word. The buffer gets the key that is found. The key need not be in the map.
    fn behind(
        &self,
        arena: &Arena,
        hash: u64,
        first: Ref,
        key: &[u8],
        buffer: &mut ArrayVec<u8, KEY_LIMIT>,
    ) -> Option<Shown>
        requires array { IsBytesArray H.hashed arena.now.blocks self.now.words }
        requires first { first ≡ first_at arena.now.blocks self.now.words hash }
        ensures entry { shown_entry result buffer.new.items
            ≡ next string_order (hashed_in arena.now.blocks self.now.words) (hash ∷ key.now) }
        ensures first { IfSome result (λ s. s.first ≡ first_at arena.now.blocks self.now.words s.hash) }
    {
        if let Some(value) = chain::least_above(arena, first, Some(key), buffer) {
            return Some(Shown { hash, first, value });
        }
        self.at_next_word(arena, Some(hash), buffer)
    }

    /// Adds entries to an empty list: this one, with the key in the room, and each time the one behind it, at most
    /// `most` and as many as fit. Returns how many.
    fn list(&self, arena: &Arena, start: Option<Shown>, most: u16, room: &mut ReplyRoom) -> u16
        requires array { IsBytesArray H.hashed arena.now.blocks self.now.words }
        requires first { IfSome start (λ s. s.first ≡ first_at arena.now.blocks self.now.words s.hash) }
        requires empty { room.old.listing ≡ [] }
        ensures { listed (map (λ e. key_words (drop 1 e.0, e.1)) (walk_from
            (λ e. next string_order (hashed_in arena.now.blocks self.now.words) e.0)
            most (shown_entry start room.old.key.items)))
            ≡ (result, room.new.listing) }
    {
        let mut found = start;
        let mut last = ArrayVec::new();
        for count in 0..most {
            let Some(shown) = found else {
                return count;
            };
            if !room.listing.add_key(room.key.as_slice(), shown.value) {
                return count;
            }
            copy(&mut last, &room.key);
            found = self.behind(
                arena,
                shown.hash,
                shown.first,
                last.as_slice(),
                &mut room.key,
            );
        }
        most
    }

    /// The first entries of a walk, as many as fit into a reply, at most `most`.
    pub fn walk<'a>(&self, arena: &Arena, most: u16, room: &'a mut ReplyRoom) -> Reply<'a>
        requires { IsBytesArray H.hashed arena.now.blocks self.now.words }
        ensures { BytesLooks arena.now self.now.words (bytes.First most) result }
    {
        room.listing.clear();
        let start = self.at_next_word(arena, None, &mut room.key);
        let count = self.list(arena, start, most, room);
        Reply::Entries(count, room.listing.text())
    }

    /// The entries behind a key in a walk, as many as fit into a reply, at most `most`. The key need not be in the
    /// map.
    pub fn walk_on<'a>(
        &self,
        arena: &Arena,
        key: &[u8],
        most: u16,
        room: &'a mut ReplyRoom,
    ) -> Reply<'a>
        requires short { length key.now ≤ KEY_LIMIT }
        requires array { IsBytesArray H.hashed arena.now.blocks self.now.words }
        ensures { BytesLooks arena.now self.now.words (bytes.Next key.now most) result }
    {
        room.listing.clear();
        let hash = self.hash.word(key);
        let first = words::first(arena, self.words, hash);
        let start = self.behind(arena, hash, first, key, &mut room.key);
        let count = self.list(arena, start, most, room);
        Reply::Entries(count, room.listing.text())
    }
}

//! Walks over a map: what a search finds, and each time what follows, as the text of a reply.
ghost use Rattle.std.specs.Prelude.{◌≡◌, [], IfSome, map, option_map};
ghost use Rattle.judy_model.specs.Contents.{string_order};
ghost use Rattle.judy_model.specs.Walks.{found_by, key_words, listed, walk_from};
ghost use Rattle.judy_model.specs.declared.calls.StrCall.TheVariants as str;
ghost use Rattle.judy_string.specs.StringArrays.{IsKeyString, IsStringArray, IsStringFound, StringLooks, string_in};

use crate::array::JudySL;
use arrayvec::ArrayVec;
use judy_arena::Arena;
use judy_model::{KEY_LIMIT, Reply, ReplyRoom, Search};

/// Puts a copy of a key into a buffer.
fn copy(to: &mut ArrayVec<u8, KEY_LIMIT>, from: &ArrayVec<u8, KEY_LIMIT>)
    ensures { to.new.items ≡ from.now.items }
{
    to.clear();
    let _fits = to.try_extend_from_slice(from.as_slice());
}

impl JudySL {
    /// The value of the string that a search finds. The buffer gets its bytes, or is empty if there is none.
    fn find(
        &self,
        arena: &Arena,
        search: Search,
        key: &[u8],
        buffer: &mut ArrayVec<u8, KEY_LIMIT>,
    ) -> Option<u64>
        requires array { IsStringArray arena.now.blocks self.now }
        requires key { IsKeyString key.now }
        ensures { IsStringFound (found_by string_order (string_in arena.now.blocks self.now) search key.now)
            result buffer.new.items }
    {
        match search {
            Search::First => self.first(arena, key, buffer),
            Search::Next => self.next(arena, key, buffer),
            Search::Last => self.last(arena, key, buffer),
            Search::Prev => self.prev(arena, key, buffer),
        }
    }

    /// Adds entries to an empty list: this value with the key in the room, and each time the entry that the
    /// search finds behind it, at most `most` and as many as fit. Returns how many.
    fn list(
        &self,
        arena: &Arena,
        search: Search,
        start: Option<u64>,
        most: u16,
        room: &mut ReplyRoom,
    ) -> u16
        requires array { IsStringArray arena.now.blocks self.now }
        requires key { IfSome start (λ v. IsKeyString room.old.key.items) }
        requires empty { room.old.listing ≡ [] }
        ensures { listed (map key_words (walk_from
            (λ e. found_by string_order (string_in arena.now.blocks self.now) search e.0)
            most (option_map (λ v. (room.old.key.items, v)) start)))
            ≡ (result, room.new.listing) }
    {
        let mut value = start;
        let mut last = ArrayVec::new();
        for count in 0..most {
            let Some(shown) = value else {
                return count;
            };
            if !room.listing.add_key(room.key.as_slice(), shown) {
                return count;
            }
            copy(&mut last, &room.key);
            value = self.find(arena, search, last.as_slice(), &mut room.key);
        }
        most
    }

    /// The entries of a walk, as many as fit into a reply, at most `most`.
    pub fn walk<'a>(
        &self,
        arena: &Arena,
        search: Search,
        key: &[u8],
        most: u16,
        room: &'a mut ReplyRoom,
    ) -> Reply<'a>
        requires array { IsStringArray arena.now.blocks self.now }
        requires key { IsKeyString key.now }
        ensures { StringLooks arena.now self.now (str.Walk search key.now most) result }
    {
        room.listing.clear();
        let start = self.find(arena, search, key, &mut room.key);
        let count = self.list(arena, search.on(), start, most, room);
        Reply::Entries(count, room.listing.text())
    }
}

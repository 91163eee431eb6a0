//! The JudySL that callers see.
ghost use Rattle.std.specs.Prelude.{◌≡◌, ◌≤◌, ◌↔◌, [], IfOk, OnOk, OnErr, IsTrue, IsFalse, if◌then◌else◌, length};
ghost use Rattle.judy_arena.specs.Blocks.{Blocks};
ghost use Rattle.judy_arena.specs.Takes.{Takes, TakesNothing};
ghost use Rattle.judy_model.specs.Tenant.{value_or_null};
ghost use Rattle.judy_model.specs.declared.calls.StrCall.TheVariants as str;
ghost use Rattle.judy_model.specs.declared.replies.Reply.TheVariants as reply;
ghost use Rattle.judy_string.specs.StringArrays.{IsKeyString, IsStringArray, string_in, string_value_in, has_string_key, StringGains, StringSets, StringLoses};
ghost use Rattle.judy_string.specs.StringArrays.{first_in, next_in, last_in, prev_in, IsStringFound, string_shown};
ghost use Rattle.judy_string.specs.StringArrays.{StringAnswers, StringInserts, StringLooks, StringBecomes, HasStringSpace};
ghost use Rattle.judy_tree.specs.Changes.{IsRefused};

use crate::{insertion, nodes, search};
use arrayvec::ArrayVec;
use judy_arena::{Arena, NoMemory};
use judy_model::{Given, KEY_LIMIT, Search};
use judy_refs::Ref;
use judy_words::Inserted;
use std::alloc::Global;
use std::marker::Model;

// How many words of a string may follow its first word.
const ROOM: usize = 125;

/// Whether the bytes are a string that a map can hold: at most 1,000 bytes, and none of them 0.
pub fn is_string(bytes: &[u8]) -> bool
    ensures { IsTrue result ↔ IsKeyString bytes.now }
{
    judy_model::is_string(bytes)
}

/// A map from strings to words in an arena. Callers see its reference, as a word.
///
/// Strings compare byte by byte as unsigned numbers, and a proper prefix comes first. Each call
/// requires strings of at most 1,000 bytes, none of them 0 (`is_string`).
#[derive(Clone, Copy)]
pub struct JudySL {
    root: Ref,
}

impl Model for JudySL {
    ghost use Rattle.std.specs.Prelude.{ℕ};

    ghost Value = { ℕ };

    ghost view = { λ m. m.root };

    ghost inverse = { λ n. record { root = n } };
}

impl JudySL {
    /// The empty map. It has no block.
    pub fn new() -> JudySL
        ensures nothing { result ≡ 0 }
        ensures sound { (b : Blocks) → IsStringArray b result }
        ensures empty { (b : Blocks) → string_in b result ≡ [] }
    {
        JudySL { root: Ref::EMPTY }
    }

    /// The map of a reference.
    pub fn from_reference(reference: Ref) -> JudySL
        ensures { result ≡ reference }
    {
        JudySL { root: reference }
    }

    /// The reference of the map.
    pub fn reference(&self) -> Ref
        ensures { result ≡ self.now }
    {
        self.root
    }

    /// Inserts a string, gives it a value or adds to its value. The result says what was present
    /// before. As `JudySLIns` of JudySL(3), which has no addition.
    ///
    /// Err means that the arena refused a block. It never comes for a present string, and it
    /// changes no block and no reference.
    pub fn insert(
        &mut self,
        alloc: Global,
        arena: &mut Arena,
        key: &[u8],
        given: Given,
    ) -> Result<Inserted, NoMemory>
        requires array { IsStringArray arena.old.blocks self.old }
        requires key { IsKeyString key.now }
        ensures array { StringBecomes arena.old self.old arena.new self.new }
        ensures space { HasStringSpace arena.new self.new }
        ensures present { IfOk result (λ it. it.before
            ≡ string_value_in arena.old self.old key.now) }
        ensures root { IfOk result (λ it. it.root ≡ self.new) }
        ensures content { OnOk result (StringGains arena.old self.old key.now given arena.new
            self.new) }
        ensures step { IfOk result
            (λ it. StringInserts arena.old self.old key.now given it.before arena.new self.new) }
        ensures absent { OnErr result (IsFalse (has_string_key arena.old self.old key.now)) }
        ensures refused { OnErr result (IsRefused arena.old self.old arena.new self.new) }
        ensures quiet { OnOk result (arena.new.refusals ≡ arena.old.refusals) }
        ensures memory { Takes
            (if has_string_key arena.old self.old key.now then 0 else 380)
            arena.old arena.new }
    {
        let answer = insertion::insert(alloc, arena, self.root, key, given, ROOM)?;
        self.root = answer.root;
        Ok(answer)
    }

    /// Writes the value of a present string. No other value changes.
    pub fn write(&mut self, arena: &mut Arena, key: &[u8], value: u64)
        requires array { IsStringArray arena.old.blocks self.old }
        requires key { IsKeyString key.now }
        requires there { IsTrue (has_string_key arena.old self.old key.now) }
        ensures array { StringBecomes arena.old self.old arena.new self.new }
        ensures content { StringSets arena.old self.old key.now value arena.new self.new }
        ensures word { self.new ≡ self.old }
        ensures memory { TakesNothing arena.old arena.new }
    {
        nodes::write(arena, self.root, key, value, ROOM);
    }

    /// The value of a string. None if it is absent. As `JudySLGet` of JudySL(3).
    pub fn get(&self, arena: &Arena, key: &[u8]) -> Option<u64>
        requires array { IsStringArray arena.now.blocks self.now }
        requires key { IsKeyString key.now }
        ensures found { result ≡ string_value_in arena.now self.now key.now }
        ensures step { StringLooks arena.now self.now (str.Get key.now) (value_or_null result) }
    {
        nodes::get(arena, self.root, key, ROOM)
    }

    /// Removes a string and its value: true if it was present. As `JudySLDel` of JudySL(3).
    pub fn delete(&mut self, arena: &mut Arena, key: &[u8]) -> bool
        requires array { IsStringArray arena.old.blocks self.old }
        requires key { IsKeyString key.now }
        ensures array { StringBecomes arena.old self.old arena.new self.new }
        ensures space { HasStringSpace arena.new self.new }
        ensures there { result ≡ has_string_key arena.old self.old key.now }
        ensures content { StringLoses arena.old self.old key.now arena.new self.new }
        ensures step { StringAnswers arena.old self.old (str.Delete key.now) (reply.Int result)
            arena.new self.new }
        ensures memory { TakesNothing arena.old arena.new }
    {
        let Some(left) = nodes::remove(arena, self.root, key, ROOM) else {
            return false;
        };
        self.root = left;
        true
    }

    /// Removes all strings and returns how many there were. As `JudySLFreeArray` of JudySL(3),
    /// which returns bytes.
    pub fn clear(&mut self, arena: &mut Arena) -> u64
        requires { IsStringArray arena.old.blocks self.old }
        ensures array { StringBecomes arena.old self.old arena.new self.new }
        ensures space { HasStringSpace arena.new self.new }
        ensures counted { result ≡ length (string_in arena.old.blocks self.old) }
        ensures content { string_in arena.new.blocks self.new ≡ [] }
        ensures step { StringAnswers arena.old self.old str.Free (reply.Count result) arena.new
            self.new }
        ensures memory { TakesNothing arena.old arena.new }
    {
        let count = nodes::clear(arena, self.root, ROOM);
        self.root = Ref::EMPTY;
        count
    }

    /// The value of the least string from this one on. The buffer gets its bytes, or is empty if
    /// there is none. As `JudySLFirst` of JudySL(3).
    pub fn first(
        &self,
        arena: &Arena,
        key: &[u8],
        buffer: &mut ArrayVec<u8, KEY_LIMIT>,
    ) -> Option<u64>
        requires array { IsStringArray arena.now.blocks self.now }
        requires key { IsKeyString key.now }
        ensures found { IsStringFound (first_in arena.now self.now key.now) result
            buffer.new.items }
        ensures step { StringLooks arena.now self.now (str.First key.now)
            (string_shown result buffer.new.items) }
    {
        buffer.clear();
        search::find(arena, self.root, key, Search::First, buffer, ROOM)
    }

    /// The value of the least string above this one. The buffer gets its bytes, or is empty if
    /// there is none. As `JudySLNext` of JudySL(3).
    pub fn next(
        &self,
        arena: &Arena,
        key: &[u8],
        buffer: &mut ArrayVec<u8, KEY_LIMIT>,
    ) -> Option<u64>
        requires array { IsStringArray arena.now.blocks self.now }
        requires key { IsKeyString key.now }
        ensures found { IsStringFound (next_in arena.now self.now key.now) result buffer.new.items }
        ensures step { StringLooks arena.now self.now (str.Next key.now)
            (string_shown result buffer.new.items) }
    {
        buffer.clear();
        search::find(arena, self.root, key, Search::Next, buffer, ROOM)
    }

    /// The value of the greatest string up to this one. The buffer gets its bytes, or is empty if
    /// there is none. As `JudySLLast` of JudySL(3).
    pub fn last(
        &self,
        arena: &Arena,
        key: &[u8],
        buffer: &mut ArrayVec<u8, KEY_LIMIT>,
    ) -> Option<u64>
        requires array { IsStringArray arena.now.blocks self.now }
        requires key { IsKeyString key.now }
        ensures found { IsStringFound (last_in arena.now self.now key.now) result buffer.new.items }
        ensures step { StringLooks arena.now self.now (str.Last key.now)
            (string_shown result buffer.new.items) }
    {
        buffer.clear();
        search::find(arena, self.root, key, Search::Last, buffer, ROOM)
    }

    /// The value of the greatest string below this one. The buffer gets its bytes, or is empty if
    /// there is none. As `JudySLPrev` of JudySL(3).
    pub fn prev(
        &self,
        arena: &Arena,
        key: &[u8],
        buffer: &mut ArrayVec<u8, KEY_LIMIT>,
    ) -> Option<u64>
        requires array { IsStringArray arena.now.blocks self.now }
        requires key { IsKeyString key.now }
        ensures found { IsStringFound (prev_in arena.now self.now key.now) result buffer.new.items }
        ensures step { StringLooks arena.now self.now (str.Prev key.now)
            (string_shown result buffer.new.items) }
    {
        buffer.clear();
        search::find(arena, self.root, key, Search::Prev, buffer, ROOM)
    }
}

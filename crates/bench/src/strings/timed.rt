//! A map with its arena.
use arrayvec::ArrayVec;
use judy_arena::{Arena, NoMemory};
use judy_model::Given;
use judy_string::{JudySL, is_string};
use std::alloc::Global;
use std::marker::Model;

/// A map and its arena.
#[derive(Drop)]
pub(crate) struct Timed {
    arena: Arena,
    map: JudySL,
}

/// Callers see how many requests for a block the arena refused.
impl Model for Timed {
    ghost use Rattle.std.specs.Prelude.{ℕ};
    ghost use Rattle.judy_string.specs.StringArrays.{IsStringArray};

    ghost Value = { ℕ };

    ghost view = { λ t. t.arena.refusals };

    ghost invariant = { λ t. IsStringArray t.arena.blocks t.map };
}

impl Timed {
    /// An empty map.
    pub(crate) fn new(alloc: Global) -> Timed {
        Timed {
            arena: Arena::new(alloc),
            map: JudySL::new(),
        }
    }

    /// Inserts a string, if the bytes are one.
    pub(crate) fn insert(&mut self, alloc: Global, key: &[u8], value: u64) -> Result<(), NoMemory> {
        if is_string(key) {
            let _answer = self
                .map
                .insert(alloc, &mut self.arena, key, Given::Value(value))?;
        }
        Ok(())
    }

    pub(crate) fn get(&self, key: &[u8]) -> Option<u64> {
        if is_string(key) {
            self.map.get(&self.arena, key)
        } else {
            None
        }
    }

    pub(crate) fn first(&self, buffer: &mut ArrayVec<u8, 1000>) -> Option<u64> {
        if is_string(b"") {
            self.map.first(&self.arena, b"", buffer)
        } else {
            None
        }
    }

    pub(crate) fn next(&self, key: &[u8], buffer: &mut ArrayVec<u8, 1000>) -> Option<u64> {
        if is_string(key) {
            self.map.next(&self.arena, key, buffer)
        } else {
            None
        }
    }

    /// Removes all strings. Returns how many there were.
    pub(crate) fn free(&mut self) -> u64 {
        self.map.clear(&mut self.arena)
    }

    /// The words of all live blocks.
    pub(crate) fn live_words(&self) -> u64 {
        self.arena.live_words()
    }
}

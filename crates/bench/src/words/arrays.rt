//! A set and a map, each in an arena of its own, behind the calls that are timed.
use judy_arena::Arena;
use judy_model::Given;
use judy_words::{Judy1, JudyL};
use std::alloc::Global;
use std::marker::Model;

/// The calls that are timed. An absent key or value counts as 0.
pub(crate) trait Words {
    /// Inserts a key with a value: 1 if it was new. None if out of memory.
    fn insert(&mut self, alloc: Global, key: u64, value: u64) -> Option<u64>;

    /// The value of a key, or 1 in a set.
    fn get(&self, key: u64) -> u64;

    /// The least key above this one.
    fn next(&self, key: u64) -> u64;

    /// The greatest key below this one.
    fn prev(&self, key: u64) -> u64;

    /// The least absent key from this one on.
    fn first_empty(&self, key: u64) -> u64;

    /// How many keys are from one to another.
    fn count(&self, from: u64, upto: u64) -> u64;

    /// The `n`-th key, counted from 1.
    fn by_count(&self, n: u64) -> u64;

    /// Removes a key: 1 if it was present.
    fn remove(&mut self, key: u64) -> u64;

    /// Removes all keys. Returns how many there were.
    fn free(&mut self) -> u64;

    /// The words of all blocks.
    fn live_words(&self) -> u64;
}

/// A set in an arena.
#[derive(Drop)]
pub(crate) struct Set {
    arena: Arena,
    set: Judy1,
}

/// Callers see nothing of it.
impl Model for Set {
    ghost use Rattle.judy_words.specs.OneArrays.{IsOneArray};
    ghost use Rattle.std.specs.Prelude.{ℕ};

    ghost Value = { ℕ };

    ghost view = { λ h. h.arena.refusals };

    ghost invariant = { λ h. IsOneArray h.arena.blocks h.set };
}

impl Set {
    /// The empty set.
    pub(crate) fn new(alloc: Global) -> Set {
        Set {
            arena: Arena::new(alloc),
            set: Judy1::new(),
        }
    }
}

impl Words for Set {
    fn insert(&mut self, alloc: Global, key: u64, _value: u64) -> Option<u64> {
        let new = self.set.set(alloc, &mut self.arena, key).ok()?;
        Some(u64::from(new))
    }

    fn get(&self, key: u64) -> u64 {
        u64::from(self.set.test(&self.arena, key))
    }

    fn next(&self, key: u64) -> u64 {
        self.set.next(&self.arena, key).unwrap_or(0)
    }

    fn prev(&self, key: u64) -> u64 {
        self.set.prev(&self.arena, key).unwrap_or(0)
    }

    fn first_empty(&self, key: u64) -> u64 {
        self.set.first_empty(&self.arena, key).unwrap_or(0)
    }

    fn count(&self, from: u64, upto: u64) -> u64 {
        self.set.count(&self.arena, from, upto)
    }

    fn by_count(&self, n: u64) -> u64 {
        self.set.by_count(&self.arena, n).unwrap_or(0)
    }

    fn remove(&mut self, key: u64) -> u64 {
        u64::from(self.set.unset(&mut self.arena, key))
    }

    fn free(&mut self) -> u64 {
        self.set.clear(&mut self.arena)
    }

    fn live_words(&self) -> u64 {
        self.arena.live_words()
    }
}

/// A map in an arena.
#[derive(Drop)]
pub(crate) struct Map {
    arena: Arena,
    map: JudyL,
}

/// Callers see nothing of it.
impl Model for Map {
    ghost use Rattle.judy_words.specs.LongArrays.{IsLongArray};
    ghost use Rattle.std.specs.Prelude.{ℕ};

    ghost Value = { ℕ };

    ghost view = { λ h. h.arena.refusals };

    ghost invariant = { λ h. IsLongArray h.arena.blocks h.map };
}

impl Map {
    /// The empty map.
    pub(crate) fn new(alloc: Global) -> Map {
        Map {
            arena: Arena::new(alloc),
            map: JudyL::new(),
        }
    }

    /// The words taken from the machine.
    pub(crate) fn region(&self) -> u64 {
        self.arena.region()
    }
}

impl Words for Map {
    fn insert(&mut self, alloc: Global, key: u64, value: u64) -> Option<u64> {
        let before = self
            .map
            .insert_given(alloc, &mut self.arena, key, Given::Value(value))
            .ok()?;
        Some(u64::from(before == 0))
    }

    fn get(&self, key: u64) -> u64 {
        self.map.get(&self.arena, key).unwrap_or(0)
    }

    fn next(&self, key: u64) -> u64 {
        match self.map.next(&self.arena, key) {
            Some((next, value)) => next.wrapping_add(value),
            None => 0,
        }
    }

    fn prev(&self, key: u64) -> u64 {
        match self.map.prev(&self.arena, key) {
            Some((next, value)) => next.wrapping_add(value),
            None => 0,
        }
    }

    fn first_empty(&self, key: u64) -> u64 {
        self.map.first_empty(&self.arena, key).unwrap_or(0)
    }

    fn count(&self, from: u64, upto: u64) -> u64 {
        self.map.count(&self.arena, from, upto)
    }

    fn by_count(&self, n: u64) -> u64 {
        match self.map.by_count(&self.arena, n) {
            Some((key, value)) => key.wrapping_add(value),
            None => 0,
        }
    }

    fn remove(&mut self, key: u64) -> u64 {
        u64::from(self.map.delete(&mut self.arena, key))
    }

    fn free(&mut self) -> u64 {
        self.map.clear(&mut self.arena)
    }

    fn live_words(&self) -> u64 {
        self.arena.live_words()
    }
}

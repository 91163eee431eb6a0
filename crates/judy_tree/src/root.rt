//! The root of an array of words.
ghost use Rattle.std.specs.Prelude.{◌≡◌, ◌≤◌, [], length, IfOk, OnErr, OnOk, IsTrue, IsFalse, is_ok, if◌then◌else◌};
ghost use Rattle.judy_arena.specs.Takes.{Takes, TakesNothing};
ghost use Rattle.judy_tree.specs.Changes.{RootBecomes, Puts, Writes, RootRemoves, IsRefused, found, has_found};
ghost use Rattle.judy_tree.specs.Root.{IsRoot, entries, HasRootSpace};

use crate::answers::{Added, Inserted};
use crate::node;
use judy_arena::{Arena, NoMemory};
use judy_leaf::Removed;
use judy_refs::Ref;
use std::alloc::Global;

/// An array of words, by its reference. With `VALUES` it is a map from words to words. Without, it
/// is a set, whose values count as 0.
#[derive(Clone, Copy)]
pub struct Root<const VALUES: bool> {
    pub reference: Ref,
}

impl<const VALUES: bool> Root<VALUES> {
    /// The empty array. It has no block.
    pub fn new() -> Root<VALUES>
        ensures { result.reference ≡ 0 }
    {
        Root {
            reference: Ref::EMPTY,
        }
    }

    /// The reference of the array.
    pub fn reference(&self) -> Ref
        ensures { result ≡ self.now.reference }
    {
        self.reference
    }

    /// The array of a reference.
    pub fn from_reference(reference: Ref) -> Root<VALUES>
        ensures { result.reference ≡ reference }
    {
        Root { reference }
    }

    /// The value of the key, 0 in a set. None if the key is absent.
    pub fn get(&self, arena: &Arena, key: u64) -> Option<u64>
        requires { IsRoot VALUES arena.now.blocks self.now.reference }
        ensures { result ≡ found VALUES arena.now self.now.reference key }
    {
        node::get(VALUES, arena, self.reference, key)
    }

    /// Inserts a key with the value 0. A present key keeps its value.
    ///
    /// Err means that the arena refused a block. It never comes for a present key, and it changes
    /// no block and no reference.
    pub fn insert(
        &mut self,
        alloc: Global,
        arena: &mut Arena,
        key: u64,
    ) -> Result<Inserted, NoMemory>
        requires { IsRoot VALUES arena.old.blocks self.old.reference }
        ensures array { Puts VALUES arena.old self.old.reference key 0 (is_ok result)
            arena.new self.new.reference }
        ensures present { IfOk result
            (λ it. it.before ≡ found VALUES arena.old self.old.reference key) }
        ensures root { IfOk result (λ it. it.root ≡ self.new.reference) }
        ensures absent { OnErr result
            (IsFalse (has_found VALUES arena.old self.old.reference key)) }
        ensures refused { OnErr result
            (IsRefused arena.old self.old.reference arena.new self.new.reference) }
        ensures quiet { OnOk result (arena.new.refusals ≡ arena.old.refusals) }
        ensures memory { Takes
            (if has_found VALUES arena.old self.old.reference key then 0 else 64)
            arena.old arena.new }
        ensures few { length (entries VALUES arena.old.blocks self.old.reference) ≤ 30
            → Takes 2 arena.old arena.new }
        ensures space { HasRootSpace VALUES arena.new.blocks self.new.reference }
    {
        self.insert_given(alloc, arena, key, 0)
    }

    /// Inserts a key with this value. A present key keeps its value. In a set the value is 0.
    ///
    /// Err means that the arena refused a block. It never comes for a present key, and it changes
    /// no block and no reference.
    pub fn insert_given(
        &mut self,
        alloc: Global,
        arena: &mut Arena,
        key: u64,
        value: u64,
    ) -> Result<Inserted, NoMemory>
        requires root { IsRoot VALUES arena.old.blocks self.old.reference }
        requires zero { IsFalse VALUES → value ≡ 0 }
        ensures array { Puts VALUES arena.old self.old.reference key value (is_ok result)
            arena.new self.new.reference }
        ensures present { IfOk result
            (λ it. it.before ≡ found VALUES arena.old self.old.reference key) }
        ensures root { IfOk result (λ it. it.root ≡ self.new.reference) }
        ensures absent { OnErr result
            (IsFalse (has_found VALUES arena.old self.old.reference key)) }
        ensures refused { OnErr result
            (IsRefused arena.old self.old.reference arena.new self.new.reference) }
        ensures quiet { OnOk result (arena.new.refusals ≡ arena.old.refusals) }
        ensures memory { Takes
            (if has_found VALUES arena.old self.old.reference key then 0 else 64)
            arena.old arena.new }
        ensures few { length (entries VALUES arena.old.blocks self.old.reference) ≤ 30
            → Takes 2 arena.old arena.new }
        ensures space { HasRootSpace VALUES arena.new.blocks self.new.reference }
    {
        match node::insert(VALUES, alloc, arena, self.reference, key, value) {
            Added::Done(root) => {
                self.reference = root;
                Ok(Inserted { root, before: None })
            }
            Added::Present(found) => {
                let root = self.reference;
                let before = Some(found);
                Ok(Inserted { root, before })
            }
            Added::NoMemory => Err(NoMemory),
        }
    }

    /// Writes the value of a present key.
    pub fn write(&mut self, arena: &mut Arena, key: u64, value: u64)
        requires values { IsTrue VALUES }
        requires root { IsRoot VALUES arena.old.blocks self.old.reference }
        requires there { IsTrue (has_found VALUES arena.old self.old.reference key) }
        ensures array { Writes VALUES arena.old self.old.reference key value
            arena.new self.new.reference }
        ensures word { self.new.reference ≡ self.old.reference }
        ensures memory { TakesNothing arena.old arena.new }
    {
        node::write(arena, self.reference, key, value);
    }

    /// Removes a key and returns its value, 0 in a set, or None if it was absent.
    pub fn remove(&mut self, arena: &mut Arena, key: u64) -> Option<u64>
        requires { IsRoot VALUES arena.old.blocks self.old.reference }
        ensures array { RootRemoves VALUES arena.old self.old.reference key arena.new
            self.new.reference }
        ensures there { result ≡ found VALUES arena.old self.old.reference key }
        ensures memory { TakesNothing arena.old arena.new }
        ensures space { HasRootSpace VALUES arena.new.blocks self.new.reference }
    {
        match node::remove(VALUES, arena, self.reference, key) {
            Removed::Absent => None,
            Removed::Left(left, value) => {
                self.reference = left;
                Some(value)
            }
            Removed::Emptied(value) => {
                self.reference = Ref::EMPTY;
                Some(value)
            }
        }
    }

    /// Removes all keys, releases all blocks, and returns how many keys there were.
    pub fn clear(&mut self, arena: &mut Arena) -> u64
        requires { IsRoot VALUES arena.old.blocks self.old.reference }
        ensures array { RootBecomes VALUES arena.old self.old.reference
            arena.new self.new.reference [] }
        ensures count { result ≡ length (entries VALUES arena.old.blocks self.old.reference) }
        ensures memory { TakesNothing arena.old arena.new }
        ensures space { HasRootSpace VALUES arena.new.blocks self.new.reference }
    {
        let count = self.population(arena);
        node::clear(VALUES, arena, self.reference);
        self.reference = Ref::EMPTY;
        count
    }

    /// How many keys there are.
    pub fn population(&self, arena: &Arena) -> u64
        requires { IsRoot VALUES arena.now.blocks self.now.reference }
        ensures { result ≡ length (entries VALUES arena.now.blocks self.now.reference) }
    {
        node::population(VALUES, arena, self.reference)
    }
}

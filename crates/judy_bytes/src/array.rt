//! JudyHS: a map from byte keys to words.
ghost use Rattle.std.specs.Prelude.{◌≡◌, ℕ, ◌≤◌, IfOk, OnOk, OnErr, IsTrue, IsFalse, if◌then◌else◌, None, [], length};
ghost use Rattle.judy_arena.specs.Blocks.{Blocks};
ghost use Rattle.judy_arena.specs.Takes.{Takes, TakesNothing};
ghost use Rattle.judy_bytes.specs.BytesArrays.{IsBytesArray, bytes_in, bytes_value_in, has_bytes_key, first_at, BytesGains, BytesSets, BytesLoses};
ghost use Rattle.judy_bytes.specs.BytesArrays.{BytesAnswers, BytesInserts, AnswersDelete, BytesLooks, BytesBecomes, HasBytesSpace};
ghost use Rattle.judy_model.specs.Tenant.{value_or_null};
ghost use Rattle.judy_model.specs.declared.calls.BytesCall.TheVariants as bytes;
ghost use Rattle.judy_model.specs.declared.replies.Reply.TheVariants as reply;
ghost use Rattle.judy_tree.specs.Changes.{IsRefused};

use crate::hash::KeyHash;
use crate::{bucket, chain, words};
use judy_arena::{Arena, NoMemory};
use judy_model::{Given, KEY_LIMIT};
use judy_refs::Ref;
use judy_words::{Inserted, JudyL};
use std::alloc::Global;

/// A map from byte keys of at most 1,000 bytes to words in an arena, by a hash of the keys. Callers
/// see its reference, as a word.
#[derive(Clone, Copy)]
pub struct JudyHS<H: KeyHash> {
    pub(crate) hash: H,
    pub(crate) words: JudyL,
}

impl<H: KeyHash> JudyHS<H> {
    /// The empty map. It has no block.
    pub fn new(hash: H) -> JudyHS<H>
        ensures nothing { result.words ≡ 0 }
        ensures sound { (b : Blocks) → IsBytesArray H.hashed b result.words }
        ensures empty { (b : Blocks) → bytes_in b result.words ≡ [] }
    {
        JudyHS {
            hash,
            words: JudyL::new(),
        }
    }

    /// The map of a reference.
    pub fn from_reference(hash: H, reference: Ref) -> JudyHS<H>
        ensures { result.words ≡ reference }
    {
        JudyHS {
            hash,
            words: JudyL::from_reference(reference),
        }
    }

    /// The reference of the map.
    pub fn reference(&self) -> Ref
        ensures { result ≡ self.now.words }
    {
        self.words.reference()
    }

    /// The value of a key. None if it is absent. As `JudyHSGet` of JudyHS(3).
    pub fn get(&self, arena: &Arena, key: &[u8]) -> Option<u64>
        requires short { length key.now ≤ KEY_LIMIT }
        requires array { IsBytesArray H.hashed arena.now.blocks self.now.words }
        ensures found { result ≡ bytes_value_in arena.now self.now.words key.now }
        ensures step { BytesLooks arena.now self.now.words (bytes.Get key.now)
            (value_or_null result) }
    {
        let first = words::first(arena, self.words, self.hash.word(key));
        let bucket = chain::find(arena, first, key)?;
        Some(bucket::value(arena, bucket))
    }

    // Inserts an absent key, whose hash word the caller knows.
    fn add(
        &mut self,
        alloc: Global,
        arena: &mut Arena,
        hash: u64,
        first: Ref,
        key: &[u8],
        value: u64,
    ) -> Result<(), NoMemory>
        requires hash { hash ≡ H.hashed key.now }
        requires short { length key.now ≤ KEY_LIMIT }
        requires array { IsBytesArray H.hashed arena.old.blocks self.old.words }
        requires first { first ≡ first_at arena.old.blocks self.old.words (H.hashed key.now) }
        requires absent { bytes_value_in arena.old self.old.words key.now ≡ None }
        ensures array { OnOk result
            (BytesGains H.hashed arena.old self.old.words arena.new self.new.words key.now value) }
        ensures refused { OnErr result
            (IsRefused arena.old self.old.words arena.new self.new.words) }
        ensures quiet { OnOk result (arena.new.refusals ≡ arena.old.refusals) }
        ensures memory { Takes 65 arena.old arena.new }
    {
        let bucket = chain::prepend(alloc, arena, first, key, value)?;
        if first.word() != 0 {
            self.words = words::lead(arena, self.words, hash, bucket);
            return Ok(());
        }
        match words::enter(alloc, arena, self.words, hash, bucket) {
            Ok(words) => {
                self.words = words;
                Ok(())
            }
            Err(refused) => {
                chain::release(arena, bucket);
                Err(refused)
            }
        }
    }

    /// Inserts a key, gives it a value or adds to its value. The result shows the value before. As
    /// `JudyHSIns` of JudyHS(3), which has no addition; `write` replaces its pointer to the value.
    ///
    /// Err means that the arena refused a block. It never comes for a present key, and it changes
    /// no block and no reference.
    pub fn insert(
        &mut self,
        alloc: Global,
        arena: &mut Arena,
        key: &[u8],
        given: Given,
    ) -> Result<Inserted, NoMemory>
        requires short { length key.now ≤ KEY_LIMIT }
        requires array { IsBytesArray H.hashed arena.old.blocks self.old.words }
        ensures array { BytesBecomes H.hashed arena.old self.old.words arena.new self.new.words }
        ensures space { HasBytesSpace arena.new self.new.words }
        ensures present { IfOk result (λ it. it.before
            ≡ bytes_value_in arena.old self.old.words key.now) }
        ensures root { IfOk result (λ it. it.root ≡ self.new.words) }
        ensures step { IfOk result
            (λ it. BytesInserts arena.old self.old.words key.now given it.before
            arena.new self.new.words) }
        ensures absent { OnErr result (IsFalse (has_bytes_key arena.old self.old.words key.now)) }
        ensures refused { OnErr result
            (IsRefused arena.old self.old.words arena.new self.new.words) }
        ensures quiet { OnOk result (arena.new.refusals ≡ arena.old.refusals) }
        ensures memory { Takes
            (if has_bytes_key arena.old self.old.words key.now then 0 else 65)
            arena.old arena.new }
    {
        let hash = self.hash.word(key);
        let first = words::first(arena, self.words, hash);
        let Some(bucket) = chain::find(arena, first, key) else {
            let value = given.value_after(0);
            self.add(alloc, arena, hash, first, key, value)?;
            let root = self.reference();
            return Ok(Inserted { root, before: None });
        };
        let value = bucket::value(arena, bucket);
        let answer = Inserted {
            root: self.reference(),
            before: Some(value),
        };
        if let Given::Nothing = given {
            return Ok(answer);
        }
        bucket::set_value(arena, bucket, given.value_after(value));
        Ok(answer)
    }

    /// Writes the value of a present key. No other value changes.
    pub fn write(&mut self, arena: &mut Arena, key: &[u8], value: u64)
        requires short { length key.now ≤ KEY_LIMIT }
        requires array { IsBytesArray H.hashed arena.old.blocks self.old.words }
        requires there { IsTrue (has_bytes_key arena.old self.old.words key.now) }
        ensures array { BytesBecomes H.hashed arena.old self.old.words arena.new self.new.words }
        ensures content { BytesSets arena.old self.old.words key.now value arena.new
            self.new.words }
        ensures word { self.new.words ≡ self.old.words }
        ensures memory { TakesNothing arena.old arena.new }
    {
        let first = words::first(arena, self.words, self.hash.word(key));
        let Some(bucket) = chain::find(arena, first, key) else {
            unreachable!()
        };
        bucket::set_value(arena, bucket, value);
    }

    /// Removes a key and its value: true if it was present. As `JudyHSDel` of JudyHS(3).
    pub fn delete(&mut self, arena: &mut Arena, key: &[u8]) -> bool
        requires short { length key.now ≤ KEY_LIMIT }
        requires array { IsBytesArray H.hashed arena.old.blocks self.old.words }
        ensures array { BytesBecomes H.hashed arena.old self.old.words arena.new self.new.words }
        ensures space { HasBytesSpace arena.new self.new.words }
        ensures there { result ≡ has_bytes_key arena.old self.old.words key.now }
        ensures content { BytesLoses arena.old self.old.words key.now arena.new self.new.words }
        ensures step { AnswersDelete arena.old self.old.words key.now result
            arena.new self.new.words }
        ensures memory { TakesNothing arena.old arena.new }
    {
        let hash = self.hash.word(key);
        let first = words::first(arena, self.words, hash);
        let Some(left) = chain::take_out(arena, first, key) else {
            return false;
        };
        self.words = words::lead(arena, self.words, hash, left);
        true
    }

    /// Removes all keys and returns how many there were. As `JudyHSFreeArray` of JudyHS(3), which
    /// returns bytes.
    pub fn clear(&mut self, arena: &mut Arena) -> u64
        requires { IsBytesArray H.hashed arena.old.blocks self.old.words }
        ensures array { BytesBecomes H.hashed arena.old self.old.words arena.new self.new.words }
        ensures space { HasBytesSpace arena.new self.new.words }
        ensures counted { result ≡ length (bytes_in arena.old.blocks self.old.words) }
        ensures content { bytes_in arena.new.blocks self.new.words ≡ [] }
        ensures step { BytesAnswers arena.old self.old.words bytes.Free (reply.Count result)
            arena.new self.new.words }
        ensures memory { TakesNothing arena.old arena.new }
    {
        let mut words = self.words;
        let mut count = 0;
        let mut found = words.first(arena, 0);
        for place in 0..words.population(arena) {
            let Some(entry) = found else {
                continue;
            };
            count += chain::clear(arena, words::reference_of(entry.1));
            found = words.next(arena, entry.0);
        }
        words.clear(arena);
        self.words = JudyL::new();
        count
    }
}

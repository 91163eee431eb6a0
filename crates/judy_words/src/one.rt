//! Judy1: a set of words in an arena, with the calls of Judy1(3).
ghost use Rattle.std.specs.Prelude.{◌≡◌, ◌≤◌, IfOk, OnOk, OnErr, IsTrue, IsFalse, if◌then◌else◌, length, []};
ghost use Rattle.judy_arena.specs.Blocks.{Blocks};
ghost use Rattle.judy_arena.specs.Takes.{Takes, TakesNothing};
ghost use Rattle.judy_model.specs.Contents.{word_order, has_key, count, nth, first, next, last, prev};
ghost use Rattle.judy_model.specs.Gaps.{first_empty, next_empty, last_empty, prev_empty};
ghost use Rattle.judy_model.specs.declared.calls.OneCall.TheVariants as one;
ghost use Rattle.judy_model.specs.declared.replies.Reply.TheVariants as reply;
ghost use Rattle.judy_model.specs.Tenant.{one_asks_for_new, one_changes};
ghost use Rattle.judy_words.specs.OneArrays.{IsOneArray, one_in, index_shown, OneAnswers, OneLooks, OneBecomes, HasOneSpace};
ghost use Rattle.judy_tree.specs.Changes.{IsRefused};
ghost use Rattle.judy_query.specs.Keys.{key_found};

use judy_arena::{Arena, NoMemory};
use judy_model::{Listing, OneCall, Reply};
use judy_refs::Ref;
use judy_tree::Root;
use std::alloc::Global;
use std::marker::Model;

/// A set of words in an arena. Callers see its reference, as a word.
#[derive(Clone, Copy)]
pub struct Judy1 {
    root: Root<false>,
}

impl Model for Judy1 {
    ghost use Rattle.std.specs.Prelude.{ℕ};

    ghost Value = { ℕ };

    ghost view = { λ s. s.root.reference };

    ghost inverse = { λ n. record { root = record { reference = n } } };
}

// The index of an entry.
pub(crate) fn key_of(entry: Option<(u64, u64)>) -> Option<u64>
    ensures { result ≡ key_found entry }
{
    match entry {
        Some(found) => Some(found.0),
        None => None,
    }
}

impl Judy1 {
    /// The empty set. It has no block.
    pub fn new() -> Judy1
        ensures nothing { result ≡ 0 }
        ensures sound { (b : Blocks) → IsOneArray b result }
        ensures empty { (b : Blocks) → one_in b result ≡ [] }
    {
        judy_tree::laws::only_nothing_is_empty();
        Judy1 { root: Root::new() }
    }

    /// The set of a reference.
    pub fn from_reference(reference: Ref) -> Judy1
        ensures { result ≡ reference }
    {
        Judy1 {
            root: Root::from_reference(reference),
        }
    }

    /// The reference of the set.
    pub fn reference(&self) -> Ref
        ensures { result ≡ self.now }
    {
        self.root.reference()
    }

    /// Sets an index: true if it was unset. As `Judy1Set` of Judy1(3).
    ///
    /// Err means that the arena refused a block. It never comes for an index that is set, and it
    /// changes no block and no reference.
    pub fn set(&mut self, alloc: Global, arena: &mut Arena, x: u64) -> Result<bool, NoMemory>
        requires { IsOneArray arena.old.blocks self.old }
        ensures array { OneBecomes arena.old self.old arena.new self.new }
        ensures space { HasOneSpace arena.new self.new }
        ensures step { IfOk result
            (λ new. OneAnswers arena.old self.old (one.Set x) (reply.Int new) arena.new self.new) }
        ensures absent { OnErr result
            (IsFalse (has_key word_order (one_in arena.old.blocks self.old) x)) }
        ensures refused { OnErr result (IsRefused arena.old self.old arena.new self.new) }
        ensures quiet { OnOk result (arena.new.refusals ≡ arena.old.refusals) }
        ensures memory { Takes
            (if has_key word_order (one_in arena.old.blocks self.old) x then 0 else 64)
            arena.old arena.new }
    {
        let answer = self.root.insert(alloc, arena, x)?;
        Ok(answer.before.is_none())
    }

    /// Unsets an index: true if it was set. As `Judy1Unset` of Judy1(3).
    pub fn unset(&mut self, arena: &mut Arena, x: u64) -> bool
        requires { IsOneArray arena.old.blocks self.old }
        ensures array { OneBecomes arena.old self.old arena.new self.new }
        ensures space { HasOneSpace arena.new self.new }
        ensures step { OneAnswers arena.old self.old (one.Unset x) (reply.Int result)
            arena.new self.new }
        ensures memory { TakesNothing arena.old arena.new }
    {
        self.root.remove(arena, x).is_some()
    }

    /// Unsets the least set index that is at least `x`, if it is at most `last`, and returns it. The Judy library
    /// has no such call.
    pub fn pop(&mut self, arena: &mut Arena, x: u64, last: u64) -> Option<u64>
        requires { IsOneArray arena.old.blocks self.old }
        ensures array { OneBecomes arena.old self.old arena.new self.new }
        ensures space { HasOneSpace arena.new self.new }
        ensures step { OneAnswers arena.old self.old (one.Pop x last) (index_shown result)
            arena.new self.new }
        ensures memory { TakesNothing arena.old arena.new }
    {
        judy_tree::laws::nothing_changes();
        judy_tree::laws::roots_have_space();
        let index = self.first(arena, x)?;
        if index > last {
            return None;
        }
        self.unset(arena, index);
        Some(index)
    }

    /// Unsets the least set indexes from `x` to `last`, inclusive, at most `most` of them, and returns how many.
    /// The Judy library has no such call.
    pub fn cut(&mut self, arena: &mut Arena, x: u64, last: u64, most: u16) -> u64
        requires { IsOneArray arena.old.blocks self.old }
        ensures array { OneBecomes arena.old self.old arena.new self.new }
        ensures space { HasOneSpace arena.new self.new }
        ensures step { OneAnswers arena.old self.old (one.Cut x last most) (reply.Count result)
            arena.new self.new }
        ensures memory { TakesNothing arena.old arena.new }
    {
        judy_tree::laws::nothing_changes();
        judy_tree::laws::roots_have_space();
        judy_arena::laws::what_calls_take_adds_up();
        for count in 0..most {
            if self.pop(arena, x, last).is_none() {
                return count as u64;
            }
        }
        most as u64
    }

    /// Sets the least unset index that is at least `x`, and returns it; None if there is none. The Judy library
    /// has no such call.
    ///
    /// Err means what it means for `set`.
    pub fn fill(
        &mut self,
        alloc: Global,
        arena: &mut Arena,
        x: u64,
    ) -> Result<Option<u64>, NoMemory>
        requires { IsOneArray arena.old.blocks self.old }
        ensures array { OneBecomes arena.old self.old arena.new self.new }
        ensures space { HasOneSpace arena.new self.new }
        ensures step { IfOk result
            (λ found. OneAnswers arena.old self.old (one.Fill x) (index_shown found) arena.new
            self.new) }
        ensures asks { OnErr result
            (IsTrue (one_asks_for_new (one_in arena.old.blocks self.old) (one.Fill x))) }
        ensures refused { OnErr result (IsRefused arena.old self.old arena.new self.new) }
        ensures quiet { OnOk result (arena.new.refusals ≡ arena.old.refusals) }
        ensures memory { Takes
            (if one_asks_for_new (one_in arena.old.blocks self.old) (one.Fill x) then 64 else 0)
            arena.old arena.new }
    {
        judy_tree::laws::content_is_sound();
        judy_tree::laws::nothing_changes();
        judy_tree::laws::roots_have_space();
        let Some(index) = self.first_empty(arena, x) else {
            return Ok(None);
        };
        self.set(alloc, arena, index)?;
        Ok(Some(index))
    }

    /// Whether an index is set. As `Judy1Test` of Judy1(3).
    pub fn test(&self, arena: &Arena, x: u64) -> bool
        requires { IsOneArray arena.now.blocks self.now }
        ensures { OneLooks arena.now self.now (one.Test x) (reply.Int result) }
    {
        self.root.get(arena, x).is_some()
    }

    /// How many indexes from `a` to `b`, both included, are set: 0 if `a` is above `b`. As
    /// `Judy1Count` of Judy1(3).
    pub fn count(&self, arena: &Arena, a: u64, b: u64) -> u64
        requires { IsOneArray arena.now.blocks self.now }
        ensures counted { result ≡ count (one_in arena.now.blocks self.now) a b }
        ensures step { OneLooks arena.now self.now (one.Count a b) (reply.Count result) }
    {
        judy_query::count(arena, &self.root, a, b)
    }

    /// The `n`-th index that is set, counted from 1. None for 0, and if fewer are set. As
    /// `Judy1ByCount` of Judy1(3).
    pub fn by_count(&self, arena: &Arena, n: u64) -> Option<u64>
        requires { IsOneArray arena.now.blocks self.now }
        ensures found { result ≡ key_found (nth (one_in arena.now.blocks self.now) n) }
        ensures step { OneLooks arena.now self.now (one.ByCount n) (index_shown result) }
    {
        judy_query::by_count(arena, &self.root, n)
    }

    /// The least set index that is at least `x`. As `Judy1First` of Judy1(3).
    pub fn first(&self, arena: &Arena, x: u64) -> Option<u64>
        requires { IsOneArray arena.now.blocks self.now }
        ensures found { result ≡ key_found (first word_order (one_in arena.now.blocks self.now) x) }
        ensures step { OneLooks arena.now self.now (one.First x) (index_shown result) }
    {
        key_of(judy_query::first_entry(arena, &self.root, x))
    }

    /// The least set index above `x`. None for the greatest word. As `Judy1Next` of Judy1(3).
    pub fn next(&self, arena: &Arena, x: u64) -> Option<u64>
        requires { IsOneArray arena.now.blocks self.now }
        ensures found { result ≡ key_found (next word_order (one_in arena.now.blocks self.now) x) }
        ensures step { OneLooks arena.now self.now (one.Next x) (index_shown result) }
    {
        key_of(judy_query::next_entry(arena, &self.root, x))
    }

    /// The greatest set index that is at most `x`. As `Judy1Last` of Judy1(3).
    pub fn last(&self, arena: &Arena, x: u64) -> Option<u64>
        requires { IsOneArray arena.now.blocks self.now }
        ensures found { result ≡ key_found (last word_order (one_in arena.now.blocks self.now) x) }
        ensures step { OneLooks arena.now self.now (one.Last x) (index_shown result) }
    {
        key_of(judy_query::last_entry(arena, &self.root, x))
    }

    /// The greatest set index below `x`. None for 0. As `Judy1Prev` of Judy1(3).
    pub fn prev(&self, arena: &Arena, x: u64) -> Option<u64>
        requires { IsOneArray arena.now.blocks self.now }
        ensures found { result ≡ key_found (prev word_order (one_in arena.now.blocks self.now) x) }
        ensures step { OneLooks arena.now self.now (one.Prev x) (index_shown result) }
    {
        key_of(judy_query::prev_entry(arena, &self.root, x))
    }

    /// The least unset index that is at least `x`. None if all from `x` on are set. As
    /// `Judy1FirstEmpty` of Judy1(3).
    pub fn first_empty(&self, arena: &Arena, x: u64) -> Option<u64>
        requires { IsOneArray arena.now.blocks self.now }
        ensures found { result ≡ first_empty (one_in arena.now.blocks self.now) x }
        ensures step { OneLooks arena.now self.now (one.FirstEmpty x) (index_shown result) }
    {
        judy_query::first_empty(arena, &self.root, x)
    }

    /// The least unset index above `x`. None for the greatest word, and if all above `x` are set.
    /// As `Judy1NextEmpty` of Judy1(3).
    pub fn next_empty(&self, arena: &Arena, x: u64) -> Option<u64>
        requires { IsOneArray arena.now.blocks self.now }
        ensures found { result ≡ next_empty (one_in arena.now.blocks self.now) x }
        ensures step { OneLooks arena.now self.now (one.NextEmpty x) (index_shown result) }
    {
        judy_query::next_empty(arena, &self.root, x)
    }

    /// The greatest unset index that is at most `x`. None if all up to `x` are set. As
    /// `Judy1LastEmpty` of Judy1(3).
    pub fn last_empty(&self, arena: &Arena, x: u64) -> Option<u64>
        requires { IsOneArray arena.now.blocks self.now }
        ensures found { result ≡ last_empty (one_in arena.now.blocks self.now) x }
        ensures step { OneLooks arena.now self.now (one.LastEmpty x) (index_shown result) }
    {
        judy_query::last_empty(arena, &self.root, x)
    }

    /// The greatest unset index below `x`. None for 0, and if all below `x` are set. As
    /// `Judy1PrevEmpty` of Judy1(3).
    pub fn prev_empty(&self, arena: &Arena, x: u64) -> Option<u64>
        requires { IsOneArray arena.now.blocks self.now }
        ensures found { result ≡ prev_empty (one_in arena.now.blocks self.now) x }
        ensures step { OneLooks arena.now self.now (one.PrevEmpty x) (index_shown result) }
    {
        judy_query::prev_empty(arena, &self.root, x)
    }

    // Replies to a call that changes nothing.
    fn look<'a>(&self, arena: &Arena, call: OneCall, listing: &'a mut Listing) -> Reply<'a>
        requires array { IsOneArray arena.now.blocks self.now }
        requires query { IsFalse (one_changes call) }
        ensures { OneLooks arena.now self.now call result }
    {
        match call {
            OneCall::Test(x) => Reply::Int(self.test(arena, x)),
            OneCall::Count(a, b) => Reply::Count(self.count(arena, a, b)),
            OneCall::ByCount(n) => shown(self.by_count(arena, n)),
            OneCall::First(x) => shown(self.first(arena, x)),
            OneCall::Next(x) => shown(self.next(arena, x)),
            OneCall::Last(x) => shown(self.last(arena, x)),
            OneCall::Prev(x) => shown(self.prev(arena, x)),
            OneCall::FirstEmpty(x) => shown(self.first_empty(arena, x)),
            OneCall::NextEmpty(x) => shown(self.next_empty(arena, x)),
            OneCall::LastEmpty(x) => shown(self.last_empty(arena, x)),
            OneCall::PrevEmpty(x) => shown(self.prev_empty(arena, x)),
            OneCall::Walk(search, x, n) => self.walk(arena, search, x, n, listing),
            OneCall::WalkEmpty(search, x, n) => self.walk_empty(arena, search, x, n, listing),
            OneCall::Set(_)
            | OneCall::Unset(_)
            | OneCall::Pop(..)
            | OneCall::Cut(..)
            | OneCall::Fill(_)
            | OneCall::Free => unreachable!(),
        }
    }

    /// Unsets all indexes and returns how many were set. As `Judy1FreeArray` of Judy1(3), which
    /// returns bytes.
    pub fn clear(&mut self, arena: &mut Arena) -> u64
        requires { IsOneArray arena.old.blocks self.old }
        ensures array { OneBecomes arena.old self.old arena.new self.new }
        ensures space { HasOneSpace arena.new self.new }
        ensures step { OneAnswers arena.old self.old one.Free (reply.Count result) arena.new
            self.new }
        ensures memory { TakesNothing arena.old arena.new }
    {
        self.root.clear(arena)
    }

    /// How many indexes are set.
    pub fn population(&self, arena: &Arena) -> u64
        requires { IsOneArray arena.now.blocks self.now }
        ensures { result ≡ length (one_in arena.now.blocks self.now) }
    {
        self.root.population(arena)
    }

    /// Replies to a call as its method does. The text of a walk is put into `listing`.
    ///
    /// Err means that the arena refused a block. It comes only if the call sets an index that was
    /// unset. It changes no block and no reference.
    pub fn answer<'a>(
        &mut self,
        alloc: Global,
        arena: &mut Arena,
        call: OneCall,
        listing: &'a mut Listing,
    ) -> Result<Reply<'a>, NoMemory>
        requires { IsOneArray arena.old.blocks self.old }
        ensures array { OneBecomes arena.old self.old arena.new self.new }
        ensures space { HasOneSpace arena.new self.new }
        ensures step { IfOk result
            (λ reply. OneAnswers arena.old self.old call reply arena.new self.new) }
        ensures asks { OnErr result
            (IsTrue (one_asks_for_new (one_in arena.old.blocks self.old) call)) }
        ensures refused { OnErr result (IsRefused arena.old self.old arena.new self.new) }
        ensures quiet { OnOk result (arena.new.refusals ≡ arena.old.refusals) }
        ensures memory { Takes
            (if one_asks_for_new (one_in arena.old.blocks self.old) call then 64 else 0)
            arena.old arena.new }
    {
        match call {
            OneCall::Set(x) => Ok(Reply::Int(self.set(alloc, arena, x)?)),
            OneCall::Unset(x) => Ok(Reply::Int(self.unset(arena, x))),
            OneCall::Pop(x, last) => Ok(shown(self.pop(arena, x, last))),
            OneCall::Cut(x, last, most) => Ok(Reply::Count(self.cut(arena, x, last, most))),
            OneCall::Fill(x) => Ok(shown(self.fill(alloc, arena, x)?)),
            OneCall::Free => Ok(Reply::Count(self.clear(arena))),
            _ => {
                judy_tree::laws::nothing_changes();
                judy_tree::laws::roots_have_space();
                Ok(self.look(arena, call, listing))
            }
        }
    }
}

/// The reply to a search: the index that it found, or 0.
fn shown(found: Option<u64>) -> Reply<'static>
    ensures { result ≡ index_shown found }
{
    match found {
        Some(x) => Reply::Index(x),
        None => Reply::Int(false),
    }
}

//! JudyL: a map from words to words in an arena, with the calls of JudyL(3).
ghost use Rattle.std.specs.Prelude.{◌≡◌, ◌≤◌, ℕ, Option, None, IfOk, OnOk, OnErr, IsTrue, IsFalse, if◌then◌else◌, unwrap_or, length, []};
ghost use Rattle.judy_arena.specs.Blocks.{Blocks};
ghost use Rattle.judy_arena.specs.Takes.{Takes, TakesNothing};
ghost use Rattle.judy_words.specs.LongArrays.{IsLongArray, IsLongFinger, long_in, kept_or_zero, LongAnswers, LongLooks, LongBecomes, HasLongSpace};
ghost use Rattle.judy_model.specs.Contents.{word_order, value_of, has_key, with_entry, without_key, count, nth, first, next, last, prev, IsFound};
ghost use Rattle.judy_model.specs.Gaps.{first_empty, next_empty, last_empty, prev_empty};
ghost use Rattle.judy_model.specs.Tenant.{value_or_null, value_at_or_null, absent_or_no, long_asks_for_new, long_changes};
ghost use Rattle.judy_model.specs.declared.calls.Given.TheVariants.{Nothing};
ghost use Rattle.judy_model.specs.declared.calls.LongCall.TheVariants as long;
ghost use Rattle.judy_model.specs.declared.replies.Reply.TheVariants as reply;
ghost use Rattle.judy_tree.specs.Changes.{IsRefused};
ghost use Rattle.judy_query.specs.Keys.{key_found};

use judy_arena::{Arena, NoMemory};
use judy_model::{Given, Listing, LongCall, Reply};
use judy_query::Finger;
use judy_refs::Ref;
use judy_tree::{Inserted, Root};
use std::alloc::Global;
use std::marker::Model;

/// A map from words to words in an arena. Callers see its reference, as a word.
#[derive(Clone, Copy)]
pub struct JudyL {
    root: Root<true>,
}

impl Model for JudyL {
    ghost use Rattle.std.specs.Prelude.{ℕ};

    ghost Value = { ℕ };

    ghost view = { λ m. m.root.reference };

    ghost inverse = { λ n. record { root = record { reference = n } } };
}

impl JudyL {
    /// The empty map. It has no block.
    pub fn new() -> JudyL
        ensures nothing { result ≡ 0 }
        ensures sound { (b : Blocks) → IsLongArray b result }
        ensures empty { (b : Blocks) → long_in b result ≡ [] }
    {
        judy_tree::laws::only_nothing_is_empty();
        JudyL { root: Root::new() }
    }

    /// The map of a reference.
    pub fn from_reference(reference: Ref) -> JudyL
        ensures { result ≡ reference }
    {
        JudyL {
            root: Root::from_reference(reference),
        }
    }

    /// The reference of the map.
    pub fn reference(&self) -> Ref
        ensures { result ≡ self.now }
    {
        self.root.reference()
    }

    /// Inserts an index with the value 0. A present index keeps its value, and the result shows it.
    /// As `JudyLIns` of JudyL(3); `write` replaces
    /// its pointer to the value.
    ///
    /// Err means that the arena refused a block. It never comes for a present index, and it changes
    /// no block and no reference.
    pub fn insert(&mut self, alloc: Global, arena: &mut Arena, x: u64) -> Result<Inserted, NoMemory>
        requires { IsLongArray arena.old.blocks self.old }
        ensures array { LongBecomes arena.old self.old arena.new self.new }
        ensures space { HasLongSpace arena.new self.new }
        ensures there { OnOk result
            (IsTrue (has_key word_order (long_in arena.new.blocks self.new) x)) }
        ensures present { IfOk result
            (λ it. it.before ≡ value_of word_order (long_in arena.old.blocks self.old) x) }
        ensures root { IfOk result (λ it. it.root ≡ self.new) }
        ensures content { OnOk result (long_in arena.new.blocks self.new
            ≡ kept_or_zero (long_in arena.old.blocks self.old) x) }
        ensures step { IfOk result
            (λ it. LongAnswers arena.old self.old (long.Insert x Nothing)
            (reply.Value (unwrap_or it.before 0)) arena.new self.new) }
        ensures absent { OnErr result
            (IsFalse (has_key word_order (long_in arena.old.blocks self.old) x)) }
        ensures refused { OnErr result (IsRefused arena.old self.old arena.new self.new) }
        ensures quiet { OnOk result (arena.new.refusals ≡ arena.old.refusals) }
        ensures memory { Takes
            (if has_key word_order (long_in arena.old.blocks self.old) x then 0 else 64)
            arena.old arena.new }
        ensures few { length (long_in arena.old.blocks self.old) ≤ 30
            → Takes 2 arena.old arena.new }
    {
        self.root.insert(alloc, arena, x)
    }

    /// Writes the value of a present index. No other value changes.
    pub fn write(&mut self, arena: &mut Arena, x: u64, value: u64)
        requires array { IsLongArray arena.old.blocks self.old }
        requires there { IsTrue (has_key word_order (long_in arena.old.blocks self.old) x) }
        ensures array { LongBecomes arena.old self.old arena.new self.new }
        ensures content { long_in arena.new.blocks self.new
            ≡ with_entry word_order (long_in arena.old.blocks self.old) x value }
        ensures word { self.new ≡ self.old }
        ensures memory { TakesNothing arena.old arena.new }
    {
        self.root.write(arena, x, value);
    }

    /// The value of an index. None if it is absent. As `JudyLGet` of JudyL(3).
    pub fn get(&self, arena: &Arena, x: u64) -> Option<u64>
        requires { IsLongArray arena.now.blocks self.now }
        ensures found { result ≡ value_of word_order (long_in arena.now.blocks self.now) x }
        ensures step { LongLooks arena.now self.now (long.Get x) (value_or_null result) }
    {
        self.root.get(arena, x)
    }

    /// Removes an index and its value: true if it was present. As `JudyLDel` of JudyL(3).
    pub fn delete(&mut self, arena: &mut Arena, x: u64) -> bool
        requires { IsLongArray arena.old.blocks self.old }
        ensures array { LongBecomes arena.old self.old arena.new self.new }
        ensures space { HasLongSpace arena.new self.new }
        ensures there { result ≡ has_key word_order (long_in arena.old.blocks self.old) x }
        ensures content { long_in arena.new.blocks self.new
            ≡ without_key word_order (long_in arena.old.blocks self.old) x }
        ensures step { LongAnswers arena.old self.old (long.Delete x) (reply.Int result)
            arena.new self.new }
        ensures memory { TakesNothing arena.old arena.new }
    {
        self.root.remove(arena, x).is_some()
    }

    /// How many indexes from `a` to `b`, both included, are present: 0 if `a` is above `b`. As
    /// `JudyLCount` of JudyL(3).
    pub fn count(&self, arena: &Arena, a: u64, b: u64) -> u64
        requires { IsLongArray arena.now.blocks self.now }
        ensures counted { result ≡ count (long_in arena.now.blocks self.now) a b }
        ensures step { LongLooks arena.now self.now (long.Count a b) (reply.Count result) }
    {
        judy_query::count(arena, &self.root, a, b)
    }

    /// Keeps the value of a present index, and inserts an absent one with `value`. Returns the value that
    /// stays, or None if the index was absent. The Judy library has no such call.
    ///
    /// Err means what it means for `insert`.
    pub fn keep(
        &mut self,
        alloc: Global,
        arena: &mut Arena,
        x: u64,
        value: u64,
    ) -> Result<Option<u64>, NoMemory>
        requires { IsLongArray arena.old.blocks self.old }
        ensures array { LongBecomes arena.old self.old arena.new self.new }
        ensures space { HasLongSpace arena.new self.new }
        ensures step { IfOk result
            (λ stays. LongAnswers arena.old self.old (long.Keep x value) (value_or_null stays)
            arena.new self.new) }
        ensures absent { OnErr result
            (IsFalse (has_key word_order (long_in arena.old.blocks self.old) x)) }
        ensures refused { OnErr result (IsRefused arena.old self.old arena.new self.new) }
        ensures quiet { OnOk result (arena.new.refusals ≡ arena.old.refusals) }
        ensures memory { Takes
            (if has_key word_order (long_in arena.old.blocks self.old) x then 0 else 64)
            arena.old arena.new }
    {
        judy_tree::laws::content_is_sound();
        let answer = self.root.insert_given(alloc, arena, x, value)?;
        Ok(answer.before)
    }

    /// Gives an index the value `to` if it has the value `from`. Returns its value before, or None if it
    /// is absent. The Judy library has no such call.
    pub fn exchange(&mut self, arena: &mut Arena, x: u64, from: u64, to: u64) -> Option<u64>
        requires { IsLongArray arena.old.blocks self.old }
        ensures array { LongBecomes arena.old self.old arena.new self.new }
        ensures space { HasLongSpace arena.new self.new }
        ensures step { LongAnswers arena.old self.old (long.Exchange x from to)
            (value_or_null result) arena.new self.new }
        ensures memory { TakesNothing arena.old arena.new }
    {
        judy_tree::laws::nothing_changes();
        judy_tree::laws::roots_have_space();
        match self.get(arena, x) {
            Some(value) => {
                if value == from {
                    self.write(arena, x, to);
                }
                Some(value)
            }
            None => None,
        }
    }

    /// Removes an index: its value, or None if it was absent. The Judy library has no such call.
    pub fn take(&mut self, arena: &mut Arena, x: u64) -> Option<u64>
        requires { IsLongArray arena.old.blocks self.old }
        ensures array { LongBecomes arena.old self.old arena.new self.new }
        ensures space { HasLongSpace arena.new self.new }
        ensures step { LongAnswers arena.old self.old (long.Take x) (value_or_null result)
            arena.new self.new }
        ensures memory { TakesNothing arena.old arena.new }
    {
        self.root.remove(arena, x)
    }

    /// Removes an index if it has this value: true if it had. The Judy library has no such call.
    pub fn delete_if(&mut self, arena: &mut Arena, x: u64, value: u64) -> bool
        requires { IsLongArray arena.old.blocks self.old }
        ensures array { LongBecomes arena.old self.old arena.new self.new }
        ensures space { HasLongSpace arena.new self.new }
        ensures step { LongAnswers arena.old self.old (long.DeleteIf x value) (reply.Int result)
            arena.new self.new }
        ensures memory { TakesNothing arena.old arena.new }
    {
        judy_tree::laws::nothing_changes();
        judy_tree::laws::roots_have_space();
        match self.get(arena, x) {
            Some(found) => {
                if found == value {
                    return self.delete(arena, x);
                }
                false
            }
            None => false,
        }
    }

    /// Removes the least index that is at least `x`, if it is at most `last`, and returns it with its value. The
    /// Judy library has no such call.
    pub fn pop(&mut self, arena: &mut Arena, x: u64, last: u64) -> Option<(u64, u64)>
        requires { IsLongArray arena.old.blocks self.old }
        ensures array { LongBecomes arena.old self.old arena.new self.new }
        ensures space { HasLongSpace arena.new self.new }
        ensures step { LongAnswers arena.old self.old (long.Pop x last) (value_at_or_null result)
            arena.new self.new }
        ensures memory { TakesNothing arena.old arena.new }
    {
        judy_tree::laws::nothing_changes();
        judy_tree::laws::roots_have_space();
        let (index, value) = self.first(arena, x)?;
        if index > last {
            return None;
        }
        self.delete(arena, index);
        Some((index, value))
    }

    /// Removes the least indexes from `x` to `last`, inclusive, at most `most` of them, and returns how many. The
    /// Judy library has no such call.
    pub fn cut(&mut self, arena: &mut Arena, x: u64, last: u64, most: u16) -> u64
        requires { IsLongArray arena.old.blocks self.old }
        ensures array { LongBecomes arena.old self.old arena.new self.new }
        ensures space { HasLongSpace arena.new self.new }
        ensures step { LongAnswers arena.old self.old (long.Cut x last most) (reply.Count result)
            arena.new self.new }
        ensures memory { TakesNothing arena.old arena.new }
    {
        judy_tree::laws::nothing_changes();
        judy_tree::laws::roots_have_space();
        judy_arena::laws::what_calls_take_adds_up();
        for count in 0..most {
            if self.pop(arena, x, last).is_none() {
                return count as u64;
            }
        }
        most as u64
    }

    /// Inserts the least absent index that is at least `x` with a value, and returns it; None if there is none.
    /// The Judy library has no such call.
    ///
    /// Err means what it means for `insert`.
    pub fn fill(
        &mut self,
        alloc: Global,
        arena: &mut Arena,
        x: u64,
        value: u64,
    ) -> Result<Option<u64>, NoMemory>
        requires { IsLongArray arena.old.blocks self.old }
        ensures array { LongBecomes arena.old self.old arena.new self.new }
        ensures space { HasLongSpace arena.new self.new }
        ensures step { IfOk result
            (λ found. LongAnswers arena.old self.old (long.Fill x value) (absent_or_no found)
            arena.new self.new) }
        ensures asks { OnErr result
            (IsTrue (long_asks_for_new (long_in arena.old.blocks self.old) (long.Fill x value))) }
        ensures refused { OnErr result (IsRefused arena.old self.old arena.new self.new) }
        ensures quiet { OnOk result (arena.new.refusals ≡ arena.old.refusals) }
        ensures memory { Takes
            (if long_asks_for_new (long_in arena.old.blocks self.old) (long.Fill x value) then 64 else 0)
            arena.old arena.new }
    {
        judy_tree::laws::nothing_changes();
        judy_tree::laws::roots_have_space();
        let Some(index) = self.first_empty(arena, x) else {
            return Ok(None);
        };
        self.keep(alloc, arena, index, value)?;
        Ok(Some(index))
    }

    // The index with its value.
    fn entry(&self, arena: &Arena, index: Option<u64>) -> Option<(u64, u64)>
        requires { IsLongArray arena.now.blocks self.now }
        ensures { (found : Option (ℕ × ℕ)) → IsFound (long_in arena.now.blocks self.now) found
            → index ≡ key_found found → result ≡ found }
    {
        let index = index?;
        let value = self.root.get(arena, index)?;
        Some((index, value))
    }

    /// The `n`-th index and its value, counted from 1. None for 0, and if there are fewer. As
    /// `JudyLByCount` of JudyL(3).
    pub fn by_count(&self, arena: &Arena, n: u64) -> Option<(u64, u64)>
        requires { IsLongArray arena.now.blocks self.now }
        ensures found { result ≡ nth (long_in arena.now.blocks self.now) n }
        ensures step { LongLooks arena.now self.now (long.ByCount n) (value_at_or_null result) }
    {
        judy_tree::laws::content_is_sound();
        self.entry(arena, judy_query::by_count(arena, &self.root, n))
    }

    /// The least index that is at least `x`, and its value. As `JudyLFirst` of JudyL(3).
    pub fn first(&self, arena: &Arena, x: u64) -> Option<(u64, u64)>
        requires { IsLongArray arena.now.blocks self.now }
        ensures found { result ≡ first word_order (long_in arena.now.blocks self.now) x }
        ensures step { LongLooks arena.now self.now (long.First x) (value_at_or_null result) }
    {
        judy_query::first_entry(arena, &self.root, x)
    }

    /// The least index above `x`, and its value. None for the greatest word. As `JudyLNext` of
    /// JudyL(3).
    pub fn next(&self, arena: &Arena, x: u64) -> Option<(u64, u64)>
        requires { IsLongArray arena.now.blocks self.now }
        ensures found { result ≡ next word_order (long_in arena.now.blocks self.now) x }
        ensures step { LongLooks arena.now self.now (long.Next x) (value_at_or_null result) }
    {
        judy_query::next_entry(arena, &self.root, x)
    }

    /// The finger of an index: its value, and where it is in the map.
    #[inline(always)]
    pub fn finger_of(&self, arena: &Arena, x: u64) -> Finger
        requires { IsLongArray arena.now.blocks self.now }
        ensures found { result.value ≡ value_of word_order (long_in arena.now.blocks self.now) x }
        ensures finger { IsLongFinger arena.now.blocks self.now x result }
        ensures step { LongLooks arena.now self.now (long.Get x) (value_or_null result.value) }
    {
        judy_query::finger_of(arena, &self.root, x)
    }

    /// As `next`, by the finger of `x`. A present index needs no second way down from the root.
    pub fn next_by(&self, arena: &Arena, x: u64, finger: Finger) -> Option<(u64, u64)>
        requires array { IsLongArray arena.now.blocks self.now }
        requires finger { IsLongFinger arena.now.blocks self.now x finger }
        ensures found { result ≡ next word_order (long_in arena.now.blocks self.now) x }
        ensures step { LongLooks arena.now self.now (long.Next x) (value_at_or_null result) }
    {
        judy_query::next_by(arena, &self.root, x, finger)
    }

    /// As `prev`, by the finger of `x`.
    pub fn prev_by(&self, arena: &Arena, x: u64, finger: Finger) -> Option<(u64, u64)>
        requires array { IsLongArray arena.now.blocks self.now }
        requires finger { IsLongFinger arena.now.blocks self.now x finger }
        ensures found { result ≡ prev word_order (long_in arena.now.blocks self.now) x }
        ensures step { LongLooks arena.now self.now (long.Prev x) (value_at_or_null result) }
    {
        judy_query::prev_by(arena, &self.root, x, finger)
    }

    /// The greatest index that is at most `x`, and its value. As `JudyLLast` of JudyL(3).
    pub fn last(&self, arena: &Arena, x: u64) -> Option<(u64, u64)>
        requires { IsLongArray arena.now.blocks self.now }
        ensures found { result ≡ last word_order (long_in arena.now.blocks self.now) x }
        ensures step { LongLooks arena.now self.now (long.Last x) (value_at_or_null result) }
    {
        judy_query::last_entry(arena, &self.root, x)
    }

    /// The greatest index below `x`, and its value. None for 0. As `JudyLPrev` of JudyL(3).
    pub fn prev(&self, arena: &Arena, x: u64) -> Option<(u64, u64)>
        requires { IsLongArray arena.now.blocks self.now }
        ensures found { result ≡ prev word_order (long_in arena.now.blocks self.now) x }
        ensures step { LongLooks arena.now self.now (long.Prev x) (value_at_or_null result) }
    {
        judy_query::prev_entry(arena, &self.root, x)
    }

    /// The least absent index that is at least `x`. None if all from `x` on are present. As
    /// `JudyLFirstEmpty` of JudyL(3).
    pub fn first_empty(&self, arena: &Arena, x: u64) -> Option<u64>
        requires { IsLongArray arena.now.blocks self.now }
        ensures found { result ≡ first_empty (long_in arena.now.blocks self.now) x }
        ensures step { LongLooks arena.now self.now (long.FirstEmpty x) (absent_or_no result) }
    {
        judy_query::first_empty(arena, &self.root, x)
    }

    /// The least absent index above `x`. None for the greatest word, and if all above `x` are
    /// present. As `JudyLNextEmpty` of JudyL(3).
    pub fn next_empty(&self, arena: &Arena, x: u64) -> Option<u64>
        requires { IsLongArray arena.now.blocks self.now }
        ensures found { result ≡ next_empty (long_in arena.now.blocks self.now) x }
        ensures step { LongLooks arena.now self.now (long.NextEmpty x) (absent_or_no result) }
    {
        judy_query::next_empty(arena, &self.root, x)
    }

    /// The greatest absent index that is at most `x`. None if all up to `x` are present. As
    /// `JudyLLastEmpty` of JudyL(3).
    pub fn last_empty(&self, arena: &Arena, x: u64) -> Option<u64>
        requires { IsLongArray arena.now.blocks self.now }
        ensures found { result ≡ last_empty (long_in arena.now.blocks self.now) x }
        ensures step { LongLooks arena.now self.now (long.LastEmpty x) (absent_or_no result) }
    {
        judy_query::last_empty(arena, &self.root, x)
    }

    /// The greatest absent index below `x`. None for 0, and if all below `x` are present. As
    /// `JudyLPrevEmpty` of JudyL(3).
    pub fn prev_empty(&self, arena: &Arena, x: u64) -> Option<u64>
        requires { IsLongArray arena.now.blocks self.now }
        ensures found { result ≡ prev_empty (long_in arena.now.blocks self.now) x }
        ensures step { LongLooks arena.now self.now (long.PrevEmpty x) (absent_or_no result) }
    {
        judy_query::prev_empty(arena, &self.root, x)
    }

    // Replies to a call that changes nothing.
    fn look<'a>(&self, arena: &Arena, call: LongCall, listing: &'a mut Listing) -> Reply<'a>
        requires array { IsLongArray arena.now.blocks self.now }
        requires query { IsFalse (long_changes call) }
        ensures { LongLooks arena.now self.now call result }
    {
        match call {
            LongCall::Get(x) => value_reply(self.get(arena, x)),
            LongCall::Count(a, b) => Reply::Count(self.count(arena, a, b)),
            LongCall::ByCount(n) => entry_reply(self.by_count(arena, n)),
            LongCall::First(x) => entry_reply(self.first(arena, x)),
            LongCall::Next(x) => entry_reply(self.next(arena, x)),
            LongCall::Last(x) => entry_reply(self.last(arena, x)),
            LongCall::Prev(x) => entry_reply(self.prev(arena, x)),
            LongCall::FirstEmpty(x) => absent_reply(self.first_empty(arena, x)),
            LongCall::NextEmpty(x) => absent_reply(self.next_empty(arena, x)),
            LongCall::LastEmpty(x) => absent_reply(self.last_empty(arena, x)),
            LongCall::PrevEmpty(x) => absent_reply(self.prev_empty(arena, x)),
            LongCall::Walk(search, x, n) => self.walk(arena, search, x, n, listing),
            LongCall::WalkEmpty(search, x, n) => self.walk_empty(arena, search, x, n, listing),
            LongCall::Insert(..)
            | LongCall::Keep(..)
            | LongCall::Exchange(..)
            | LongCall::Delete(_)
            | LongCall::DeleteIf(..)
            | LongCall::Take(_)
            | LongCall::Pop(..)
            | LongCall::Cut(..)
            | LongCall::Fill(..)
            | LongCall::Free => unreachable!(),
        }
    }

    /// Removes all indexes and returns how many there were. As `JudyLFreeArray` of JudyL(3), which
    /// returns bytes.
    pub fn clear(&mut self, arena: &mut Arena) -> u64
        requires { IsLongArray arena.old.blocks self.old }
        ensures array { LongBecomes arena.old self.old arena.new self.new }
        ensures space { HasLongSpace arena.new self.new }
        ensures counted { result ≡ length (long_in arena.old.blocks self.old) }
        ensures content { long_in arena.new.blocks self.new ≡ [] }
        ensures step { LongAnswers arena.old self.old long.Free (reply.Count result)
            arena.new self.new }
        ensures memory { TakesNothing arena.old arena.new }
    {
        self.root.clear(arena)
    }

    /// How many indexes there are.
    pub fn population(&self, arena: &Arena) -> u64
        requires { IsLongArray arena.now.blocks self.now }
        ensures { result ≡ length (long_in arena.now.blocks self.now) }
    {
        self.root.population(arena)
    }

    /// Inserts an index, gives it a value or adds to its value. Returns the value that the reply
    /// shows: the new one after an addition, else the one before, and 0 for a new index.
    ///
    /// Err means what it means for `insert`.
    pub fn insert_given(
        &mut self,
        alloc: Global,
        arena: &mut Arena,
        x: u64,
        given: Given,
    ) -> Result<u64, NoMemory>
        requires { IsLongArray arena.old.blocks self.old }
        ensures array { LongBecomes arena.old self.old arena.new self.new }
        ensures space { HasLongSpace arena.new self.new }
        ensures step { IfOk result
            (λ value. LongAnswers arena.old self.old (long.Insert x given)
            (reply.Value value) arena.new self.new) }
        ensures absent { OnErr result
            (IsFalse (has_key word_order (long_in arena.old.blocks self.old) x)) }
        ensures refused { OnErr result (IsRefused arena.old self.old arena.new self.new) }
        ensures quiet { OnOk result (arena.new.refusals ≡ arena.old.refusals) }
        ensures memory { Takes
            (if has_key word_order (long_in arena.old.blocks self.old) x then 0 else 64)
            arena.old arena.new }
        ensures few { length (long_in arena.old.blocks self.old) ≤ 30
            → Takes 2 arena.old arena.new }
    {
        judy_tree::laws::roots_have_space();
        let answer = self
            .root
            .insert_given(alloc, arena, x, given.value_after(0))?;
        let Some(value) = answer.before else {
            return Ok(given.value_replied(0));
        };
        if let Given::Nothing = given {
            return Ok(value);
        }
        self.write(arena, x, given.value_after(value));
        Ok(given.value_replied(value))
    }

    /// Replies to a call as its method does. The text of a walk is put into `listing`.
    ///
    /// Err means that the arena refused a block. It comes only if the call inserts an index that
    /// was absent. It changes no block and no reference.
    pub fn answer<'a>(
        &mut self,
        alloc: Global,
        arena: &mut Arena,
        call: LongCall,
        listing: &'a mut Listing,
    ) -> Result<Reply<'a>, NoMemory>
        requires { IsLongArray arena.old.blocks self.old }
        ensures array { LongBecomes arena.old self.old arena.new self.new }
        ensures space { HasLongSpace arena.new self.new }
        ensures step { IfOk result
            (λ reply. LongAnswers arena.old self.old call reply arena.new self.new) }
        ensures asks { OnErr result
            (IsTrue (long_asks_for_new (long_in arena.old.blocks self.old) call)) }
        ensures refused { OnErr result (IsRefused arena.old self.old arena.new self.new) }
        ensures quiet { OnOk result (arena.new.refusals ≡ arena.old.refusals) }
        ensures memory { Takes
            (if long_asks_for_new (long_in arena.old.blocks self.old) call then 64 else 0)
            arena.old arena.new }
    {
        match call {
            LongCall::Insert(x, given) => {
                let value = self.insert_given(alloc, arena, x, given)?;
                Ok(Reply::Value(value))
            }
            LongCall::Keep(x, value) => Ok(value_reply(self.keep(alloc, arena, x, value)?)),
            LongCall::Exchange(x, from, to) => Ok(value_reply(self.exchange(arena, x, from, to))),
            LongCall::Delete(x) => Ok(Reply::Int(self.delete(arena, x))),
            LongCall::DeleteIf(x, value) => Ok(Reply::Int(self.delete_if(arena, x, value))),
            LongCall::Take(x) => Ok(value_reply(self.take(arena, x))),
            LongCall::Pop(x, last) => Ok(entry_reply(self.pop(arena, x, last))),
            LongCall::Cut(x, last, most) => Ok(Reply::Count(self.cut(arena, x, last, most))),
            LongCall::Fill(x, value) => Ok(absent_reply(self.fill(alloc, arena, x, value)?)),
            LongCall::Free => Ok(Reply::Count(self.clear(arena))),
            _ => {
                judy_tree::laws::nothing_changes();
                judy_tree::laws::roots_have_space();
                Ok(self.look(arena, call, listing))
            }
        }
    }
}

/// The reply that shows a value, or `NULL`.
fn value_reply(found: Option<u64>) -> Reply<'static>
    ensures { result ≡ value_or_null found }
{
    match found {
        Some(value) => Reply::Value(value),
        None => Reply::Null,
    }
}

/// The reply that shows a value with its index, or `NULL`.
fn entry_reply(found: Option<(u64, u64)>) -> Reply<'static>
    ensures { result ≡ value_at_or_null found }
{
    match found {
        Some((index, value)) => Reply::ValueAt(value, index),
        None => Reply::Null,
    }
}

/// The reply that shows an absent index, or 0.
fn absent_reply(found: Option<u64>) -> Reply<'static>
    ensures { result ≡ absent_or_no found }
{
    match found {
        Some(index) => Reply::Index(index),
        None => Reply::Int(false),
    }
}

//! Times the calls of Judy1 and JudyL over many keys: `bench words COUNT`.
//!
//! Standard output has a line for each kind of array, pattern of keys and call: the sum of the
//! results, the same on every machine. Standard error has the time of one call.
pub(crate) mod arrays;
pub(crate) mod pattern;

use crate::times::tenths;
use anyhow::{Result, anyhow};
use arrays::{Map, Set, Words};
use pattern::{PATTERNS, Pattern};
use std::alloc::Global;
use std::rt::Clock;
use std::time::Instant;

/// The patterns of keys.
#[derive(Clone, Copy)]
enum Wanted {
    All,
    One(Pattern),
}

impl Wanted {
    /// The patterns that a word names: the number of one, or 9 for all.
    fn read(word: &str) -> Option<Wanted> {
        match word {
            "0" => Some(Wanted::One(Pattern::Random)),
            "1" => Some(Wanted::One(Pattern::Sequential)),
            "2" => Some(Wanted::One(Pattern::Dense)),
            "3" => Some(Wanted::One(Pattern::Strided)),
            "9" => Some(Wanted::All),
            _ => None,
        }
    }

    /// Whether a pattern is among them.
    fn has(self, pattern: Pattern) -> bool {
        match self {
            Wanted::All => true,
            Wanted::One(wanted) => wanted == pattern,
        }
    }
}

/// What is done.
#[derive(Clone, Copy)]
pub(crate) struct Plan {
    /// How many keys an array has.
    count: u64,
    wanted: Wanted,
    /// How many of the calls are made, at most.
    most: u64,
}

pub(crate) const SMALL: Plan = Plan {
    count: 1_000,
    wanted: Wanted::All,
    most: 12,
};

/// The plan in the words after `words`.
pub(crate) fn plan_of(words: &[String]) -> Option<Plan> {
    let mut plan = SMALL;
    if let [count, ..] = words {
        plan.count = count.parse::<u64>().ok()?;
    }
    if let [_, wanted, ..] = words {
        plan.wanted = Wanted::read(wanted.as_str())?;
    }
    if let [_, _, most, ..] = words {
        plan.most = most.parse::<u64>().ok()?;
    }
    (words.len() <= 3).then_some(plan)
}

/// The calls that are timed, in this order.
#[derive(Clone, Copy, Debug, PartialEq, Eq)]
enum Timed {
    Insert,
    Get,
    Next,
    Prev,
    FirstEmpty,
    Count,
    Span,
    ByCount,
    Select,
    Remove,
    Refill,
    FreeArray,
}

const TIMED: [Timed; 12] = [
    Timed::Insert,
    Timed::Get,
    Timed::Next,
    Timed::Prev,
    Timed::FirstEmpty,
    Timed::Count,
    Timed::Span,
    Timed::ByCount,
    Timed::Select,
    Timed::Remove,
    Timed::Refill,
    Timed::FreeArray,
];

/// Inserts all keys. Returns the sum of those that were new.
fn insert<W: Words>(alloc: Global, words: &mut W, pattern: Pattern, count: u64) -> Option<u64> {
    let mut sum = 0u64;
    for i in 0..count {
        sum = sum.wrapping_add(words.insert(alloc, pattern.key(i), i)?);
    }
    Some(sum)
}

/// Looks all keys up.
fn get<W: Words>(words: &W, pattern: Pattern, count: u64) -> u64 {
    let mut sum = 0u64;
    for i in 0..count {
        sum = sum.wrapping_add(words.get(pattern.key(i)));
    }
    sum
}

/// The key after each key.
fn next<W: Words>(words: &W, pattern: Pattern, count: u64) -> u64 {
    let mut sum = 0u64;
    for i in 0..count {
        sum = sum.wrapping_add(words.next(pattern.key(i)));
    }
    sum
}

/// The key before each key.
fn prev<W: Words>(words: &W, pattern: Pattern, count: u64) -> u64 {
    let mut sum = 0u64;
    for i in 0..count {
        sum = sum.wrapping_add(words.prev(pattern.key(i)));
    }
    sum
}

/// The gap after each key.
fn first_empty<W: Words>(words: &W, pattern: Pattern, count: u64) -> u64 {
    let mut sum = 0u64;
    for i in 0..count {
        sum = sum.wrapping_add(words.first_empty(pattern.key(i)));
    }
    sum
}

/// Counts between two keys.
fn span<W: Words>(words: &W, pattern: Pattern, count: u64) -> u64 {
    let mut sum = 0u64;
    for i in 0..count {
        sum = sum.wrapping_add(words.count(pattern.key(i / 2), pattern.key(i)));
    }
    sum
}

/// Finds keys by their places, out of order.
fn select<W: Words>(words: &W, count: u64) -> u64 {
    let mut sum = 0u64;
    for i in 0..count {
        let place = match pattern::mixed(i).checked_rem(count) {
            Some(place) => place,
            None => 0,
        };
        sum = sum.wrapping_add(words.by_count(place.wrapping_add(1)));
    }
    sum
}

/// Counts up to each key.
fn count_all<W: Words>(words: &W, pattern: Pattern, count: u64) -> u64 {
    let mut sum = 0u64;
    for i in 0..count {
        sum = sum.wrapping_add(words.count(0, pattern.key(i)));
    }
    sum
}

/// Finds each key by its place.
fn by_count<W: Words>(words: &W, count: u64) -> u64 {
    let mut sum = 0u64;
    for i in 1..=count {
        sum = sum.wrapping_add(words.by_count(i));
    }
    sum
}

/// Removes all keys.
fn remove<W: Words>(words: &mut W, pattern: Pattern, count: u64) -> u64 {
    let mut sum = 0u64;
    for i in 0..count {
        sum = sum.wrapping_add(words.remove(pattern.key(i)));
    }
    sum
}

/// Makes a call with every key.
fn make<W: Words>(
    alloc: Global,
    words: &mut W,
    call: Timed,
    pattern: Pattern,
    count: u64,
) -> Option<u64> {
    match call {
        Timed::Insert => insert(alloc, words, pattern, count),
        Timed::Get => Some(get(words, pattern, count)),
        Timed::Next => Some(next(words, pattern, count)),
        Timed::Prev => Some(prev(words, pattern, count)),
        Timed::FirstEmpty => Some(first_empty(words, pattern, count)),
        Timed::Count => Some(count_all(words, pattern, count)),
        Timed::Span => Some(span(words, pattern, count)),
        Timed::Select => Some(select(words, count)),
        Timed::ByCount => Some(by_count(words, count)),
        Timed::Remove => Some(remove(words, pattern, count)),
        Timed::Refill => insert(alloc, words, pattern, count),
        Timed::FreeArray => Some(words.free()),
    }
}

/// Times all calls with the keys of a pattern.
fn time<W: Words>(
    rt: &(impl Clock + Print + Eprint + Alloc),
    alloc: Global,
    kind: &str,
    words: &mut W,
    pattern: Pattern,
    plan: Plan,
) -> Result<()> {
    let count = plan.count;
    let mut made = 0u64;
    for call in TIMED {
        if made >= plan.most {
            return Ok(());
        }
        made = made.wrapping_add(1);
        let start = Instant::now(rt)?;
        let Some(sum) = make(alloc, words, call, pattern, count) else {
            return Err(anyhow!("no memory"));
        };
        let tenths = tenths(rt, start, count)?;
        println!(rt; "{kind} {pattern:?} {call:?} {sum}")?;
        eprintln!(rt; "{kind} {pattern:?} {call:?} {tenths}")?;
        if call == Timed::Insert {
            let live = words.live_words();
            eprintln!(rt; "{kind} {pattern:?}: {live} words for {count} keys")?;
        }
    }
    Ok(())
}

/// Follows the plan.
pub(crate) fn run(
    rt: &(impl Clock + Print + Eprint + Alloc),
    alloc: Global,
    plan: Plan,
) -> Result<()> {
    for pattern in PATTERNS {
        if plan.wanted.has(pattern) {
            time(rt, alloc, "Judy1", &mut Set::new(alloc), pattern, plan)?;
            time(rt, alloc, "JudyL", &mut Map::new(alloc), pattern, plan)?;
        }
    }
    Ok(())
}

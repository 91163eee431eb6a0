//! Times the calls of an arena: `bench arena ROUNDS`. Or fills an arena, so that its memory can be
//! measured: `bench arena words WORDS`.
//!
//! Standard output has a line for each call: a sum, the same on every machine. Standard error has
//! the time of one call in tenths of a nanosecond.
ghost use Rattle.std.specs.Prelude.{◌≤◌, length};
ghost use Rattle.judy_arena.specs.Blocks.{words_of};

use crate::times::tenths;
use anyhow::{Result, anyhow};
use judy_arena::{Arena, Block, NoMemory};
use std::alloc::Global;
use std::rt::Clock;
use std::time::Instant;

/// The places of a block that are read and written.
const PLACES: u64 = 512;

/// How many blocks are kept at once.
const KEPT: usize = 1_000;

/// What is done.
pub(crate) enum Plan {
    /// Every call is timed, this many times.
    Rounds(u64),
    /// An arena is filled with this many words.
    Words(u64),
}

pub(crate) const SMALL: Plan = Plan::Rounds(10_000);

/// The plan in the words after `arena`.
pub(crate) fn plan_of(words: &[String]) -> Option<Plan> {
    match words {
        [] => Some(SMALL),
        [rounds] => Some(Plan::Rounds(rounds.parse::<u64>().ok()?)),
        [kind, count] if kind.as_str() == "words" => {
            Some(Plan::Words(count.parse::<u64>().ok()?))
        }
        _ => None,
    }
}

/// Reads words of a block, spread over all places.
fn read(arena: &Arena, block: Block, rounds: u64) -> u64
    requires { 512 ≤ length (words_of arena.now.blocks block) }
{
    let mut sum = 0u64;
    for i in 0..rounds {
        let place = i.wrapping_mul(37) % PLACES;
        sum = sum.wrapping_add(arena.get(block, place as usize));
    }
    sum
}

/// Writes words of a block, spread over all places. Returns the last word of the block.
fn write(arena: &mut Arena, block: Block, rounds: u64) -> u64
    requires { 512 ≤ length (words_of arena.old.blocks block) }
{
    for i in 0..rounds {
        let place = i.wrapping_mul(37) % PLACES;
        arena.set(block, place as usize, i);
    }
    arena.get(block, 511)
}

/// Allocates and releases a block of this many words, each time.
fn take_and_release(
    alloc: Global,
    arena: &mut Arena,
    len: usize,
    rounds: u64,
) -> Result<u64, NoMemory>
    requires some { 1 ≤ len }
    requires most { len ≤ 512 }
{
    let mut sum = 0u64;
    for _ in 0..rounds {
        let block = arena.alloc(alloc, len)?;
        sum = sum.wrapping_add(arena.get(block, 0));
        arena.release(block);
    }
    Ok(sum)
}

/// Allocates many blocks of 4 to 64 words, and then releases them all. Returns how many words they
/// had.
fn take_many(alloc: Global, arena: &mut Arena, rounds: u64) -> Result<u64, NoMemory> {
    let mut blocks = [None; KEPT];
    let mut sum = 0u64;
    for _ in 0..rounds.checked_div(KEPT as u64).unwrap_or(0) {
        for (place, kept) in blocks.iter_mut().enumerate() {
            *kept = Some(arena.alloc(alloc, 4usize << (place % 5))?);
        }
        sum = sum.wrapping_add(arena.live_words());
        for block in blocks.iter().flatten() {
            if arena.size(*block) > 0 {
                arena.release(*block);
            }
        }
    }
    Ok(sum)
}

/// Prints the sum, and the time of one call since the start.
fn tell(
    rt: &(impl Clock + Print + Eprint + Alloc),
    call: &str,
    start: Instant,
    rounds: u64,
    sum: u64,
) -> Result<()> {
    let tenths = tenths(rt, start, rounds)?;
    println!(rt; "{call} {sum}")?;
    eprintln!(rt; "{call} {tenths}")?;
    Ok(())
}

/// Times every call.
fn time(rt: &(impl Clock + Print + Eprint + Alloc), alloc: Global, rounds: u64) -> Result<()> {
    let mut arena = Arena::new(alloc);
    let Ok(block) = arena.alloc(alloc, 512) else {
        return Err(anyhow!("no memory"));
    };
    let start = Instant::now(rt)?;
    let last = write(&mut arena, block, rounds);
    tell(rt, "set", start, rounds, last)?;
    if arena.size(block) < 512 {
        return Err(anyhow!("no block"));
    }
    let start = Instant::now(rt)?;
    let sum = read(&arena, block, rounds);
    tell(rt, "get", start, rounds, sum)?;
    for (call, len) in [("take and release 4", 4), ("take and release 512", 512)] {
        let start = Instant::now(rt)?;
        let Ok(sum) = take_and_release(alloc, &mut arena, len, rounds) else {
            return Err(anyhow!("no memory"));
        };
        tell(rt, call, start, rounds, sum)?;
    }
    let mut fresh = Arena::new(alloc);
    let start = Instant::now(rt)?;
    let Ok(sum) = take_many(alloc, &mut fresh, rounds) else {
        return Err(anyhow!("no memory"));
    };
    tell(rt, "take many and release", start, rounds, sum)
}

/// Allocates blocks of 512 words until they have this many words together. Each is filled with
/// zeros. Returns how many words were taken from the machine.
fn take_words(alloc: Global, words: u64) -> Result<u64, NoMemory> {
    let mut arena = Arena::new(alloc);
    for _ in 0..words / 512 {
        let _kept = arena.alloc(alloc, 512)?;
    }
    Ok(arena.region())
}

/// Follows the plan.
pub(crate) fn run(
    rt: &(impl Clock + Print + Eprint + Alloc),
    alloc: Global,
    plan: Plan,
) -> Result<()> {
    match plan {
        Plan::Rounds(rounds) => time(rt, alloc, rounds),
        Plan::Words(words) => match take_words(alloc, words) {
            Ok(taken) => Ok(println!(rt; "words {taken}")?),
            Err(NoMemory) => Err(anyhow!("no memory")),
        },
    }
}

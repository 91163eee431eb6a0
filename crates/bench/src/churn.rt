//! Churn: `bench churn KEPT ROUNDS` keeps a JudyL of KEPT random keys, and ROUNDS times removes the
//! oldest key and inserts a new one.
//!
//! Standard output has the entries, the words of the live blocks and the words taken from the
//! machine, after the first KEPT insertions and then ten times. Standard error has the time of a
//! round in tenths of a nanosecond.
use crate::times::tenths;
use crate::words::arrays::{Map, Words};
use crate::words::pattern::mixed;
use anyhow::{Result, anyhow};
use std::alloc::Global;
use std::rt::Clock;
use std::time::Instant;

/// What is done.
#[derive(Clone, Copy)]
pub(crate) struct Plan {
    /// How many keys the map has.
    kept: u64,
    /// How often a key is replaced.
    rounds: u64,
}

pub(crate) const SMALL: Plan = Plan {
    kept: 1_000,
    rounds: 20_000,
};

/// The plan in the words after `churn`.
pub(crate) fn plan_of(words: &[String]) -> Option<Plan> {
    match words {
        [] => Some(Plan {
            kept: 200,
            rounds: 2_000,
        }),
        [kept, rounds] => Some(Plan {
            kept: kept.parse::<u64>().ok()?,
            rounds: rounds.parse::<u64>().ok()?,
        }),
        _ => None,
    }
}

/// Inserts the keys of these numbers, and removes those of the numbers `kept` below. False if out of
/// memory.
fn churn(alloc: Global, map: &mut Map, from: u64, upto: u64, kept: u64) -> bool {
    for i in from..upto {
        if i >= kept {
            map.remove(mixed(i - kept));
        }
        let key = mixed(i);
        if map.insert(alloc, key, key).is_none() {
            return false;
        }
    }
    true
}

/// Prints the entries, and the words of the live blocks and from the machine.
fn tell(rt: &(impl Print + Alloc), map: &Map) -> Result<()> {
    let (entries, live, region) = (map.count(0, u64::MAX), map.live_words(), map.region());
    println!(rt; "{entries} {live} {region}")?;
    Ok(())
}

/// Follows the plan.
pub(crate) fn run(
    rt: &(impl Clock + Print + Eprint + Alloc),
    alloc: Global,
    plan: Plan,
) -> Result<()> {
    let (kept, part) = (plan.kept, plan.rounds / 10);
    let mut map = Map::new(alloc);
    if !churn(alloc, &mut map, 0, kept, kept) {
        return Err(anyhow!("no memory"));
    }
    tell(rt, &map)?;
    for done in 0..10u64 {
        let start = Instant::now(rt)?;
        let from = kept.saturating_add(part.saturating_mul(done));
        if !churn(alloc, &mut map, from, from.saturating_add(part), kept) {
            return Err(anyhow!("no memory"));
        }
        let tenths = tenths(rt, start, part)?;
        tell(rt, &map)?;
        eprintln!(rt; "{tenths}")?;
    }
    Ok(())
}

//! Many connections in memory, whose turns come in an order that is drawn.
//!
//! `test_schedules FIRST COUNT` plays the schedules of COUNT seeds from FIRST on, and prints the seeds
//! of those that found a fault, at most `FAULTS_LIMIT`.
#![tactic(auto)]

mod draw;
mod lines;
mod machine;
mod peer;
mod plan;
mod schedule;
mod tenants;

use crate::schedule::{Finding, play};
use anyhow::{Result, anyhow};
use std::env::{self, Env};

/// It ends after this number of faults.
const FAULTS_LIMIT: u64 = 10;

/// Tells the fault that the schedule of a seed found.
fn tell(rt: &impl Print, seed: u64, found: Finding) -> Result<()> {
    match found {
        Finding::Answer(at) => println!(rt; "seed {seed}: client {at} got a wrong answer")?,
        Finding::Close(at) => println!(rt; "seed {seed}: client {at} was closed for no reason")?,
        Finding::Skipped(at) => println!(rt; "seed {seed}: client {at} had no turn")?,
        Finding::Missing(at, has, all) => {
            println!(rt;
                "seed {seed}: client {at} has {has} of {all} answers, and the server sleeps"
            )?
        }
        Finding::Waiting(at) => {
            println!(rt; "seed {seed}: client {at} is not accepted, and the server sleeps")?
        }
        Finding::Open(at) => {
            println!(rt; "seed {seed}: client {at} is not closed, and the server sleeps")?
        }
        Finding::Ended(ending) => println!(rt; "seed {seed}: the server ended by {ending:?}")?,
        Finding::Bold => println!(rt; "seed {seed}: an answer went out after the journal failed")?,
        Finding::Endless => println!(rt; "seed {seed}: no end")?,
    }
    Ok(())
}

/// Plays the schedules of a range of seeds, and tells of those that found a fault.
fn run(rt: &(impl Print + AllocGlobal), first: u64, count: u64) -> Result<()> {
    let mut faults = 0u64;
    for seed in first..first.saturating_add(count) {
        if let Some(found) = play(rt.alloc(), seed)? {
            tell(rt, seed, found)?;
            faults = faults.saturating_add(1);
        }
        if faults >= FAULTS_LIMIT {
            break;
        }
    }
    if faults > 0 {
        return Err(anyhow!("a schedule found a fault"));
    }
    println!(rt; "{count} schedules from {first} on: all well")?;
    Ok(())
}

fn main(rt: HostRuntime) -> Result<()> {
    let mut words = env::args(&rt)?;
    let _name = words.next();
    let (Some(first), Some(count)) = (words.next(), words.next()) else {
        return Err(anyhow!("usage: test_schedules FIRST COUNT"));
    };
    run(&rt, first.as_str().parse()?, count.as_str().parse()?)
}

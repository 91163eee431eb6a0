//! Many calls of a JudySL, to be timed from outside. The words after `bench strings` are: `words` or
//! `paths`, how many strings are inserted, how often all are read, how often a walk passes all of
//! them, whether the map is freed at the end (0 or 1), and how often all strings are made without a
//! call.
mod keys;
mod timed;

use anyhow::{Result, anyhow};
use arrayvec::ArrayVec;
use judy_arena::NoMemory;
use judy_string::is_string;
use keys::{Kind, key};
use std::alloc::Global;
use timed::Timed;

/// What is done.
#[derive(Clone, Copy)]
pub(crate) struct Plan {
    kind: Kind,
    strings: u64,
    reads: u64,
    walks: u64,
    frees: u64,
    makes: u64,
}

pub(crate) const SMALL: Plan = Plan {
    kind: Kind::Words,
    strings: 1_000,
    reads: 1,
    walks: 1,
    frees: 1,
    makes: 1,
};

/// The plan in the words after `strings`.
pub(crate) fn plan_of(words: &[String]) -> Option<Plan> {
    let [kind, strings, reads, walks, frees, makes] = words else {
        return None;
    };
    Some(Plan {
        kind: Kind::read(kind.as_str())?,
        strings: strings.parse::<u64>().ok()?,
        reads: reads.parse::<u64>().ok()?,
        walks: walks.parse::<u64>().ok()?,
        frees: frees.parse::<u64>().ok()?,
        makes: makes.parse::<u64>().ok()?,
    })
}

/// Makes all strings. Returns how many are strings of the map's kind: all of them.
fn make_all(plan: Plan) -> u64 {
    let mut made: u64 = 0;
    for i in 0..plan.strings {
        if is_string(key(plan.kind, i).as_slice()) {
            made = made.wrapping_add(1);
        }
    }
    made
}

/// Reads all strings. Returns how many are in the map.
fn read_all(map: &Timed, plan: Plan) -> u64 {
    let mut there: u64 = 0;
    for i in 0..plan.strings {
        if map.get(key(plan.kind, i).as_slice()).is_some() {
            there = there.wrapping_add(1);
        }
    }
    there
}

/// Walks from the first string to the last. Returns how many strings it passes.
fn walk_all(map: &Timed, plan: Plan) -> u64 {
    let mut even = ArrayVec::new();
    let mut odd = ArrayVec::new();
    let mut passed: u64 = 0;
    if map.first(&mut even).is_none() {
        return 0;
    }
    for _ in 0..plan.strings {
        passed = passed.wrapping_add(1);
        if map.next(even.as_slice(), &mut odd).is_none() {
            return passed;
        }
        passed = passed.wrapping_add(1);
        if map.next(odd.as_slice(), &mut even).is_none() {
            return passed;
        }
    }
    passed
}

/// What was done.
struct Done {
    words: u64,
    read: u64,
    passed: u64,
    freed: u64,
    made: u64,
}

/// Makes all calls. Returns how many words the blocks have, and how many strings were read, passed,
/// freed and made.
fn make(alloc: Global, plan: Plan) -> Result<Done, NoMemory> {
    let mut made: u64 = 0;
    for _ in 0..plan.makes {
        made = made.wrapping_add(make_all(plan));
    }
    let mut map = Timed::new(alloc);
    for i in 0..plan.strings {
        map.insert(alloc, key(plan.kind, i).as_slice(), i)?;
    }
    let mut read: u64 = 0;
    for _ in 0..plan.reads {
        read = read.wrapping_add(read_all(&map, plan));
    }
    let mut passed: u64 = 0;
    for _ in 0..plan.walks {
        passed = passed.wrapping_add(walk_all(&map, plan));
    }
    let words = map.live_words();
    let freed = if plan.frees == 0 { 0 } else { map.free() };
    Ok(Done {
        words,
        read,
        passed,
        freed,
        made,
    })
}

/// Follows the plan.
pub(crate) fn run(rt: &(impl Print + Alloc), alloc: Global, plan: Plan) -> Result<()> {
    let Ok(done) = make(alloc, plan) else {
        return Err(anyhow!("no memory"));
    };
    let Done {
        words,
        read,
        passed,
        freed,
        made,
    } = done;
    println!(rt; "read {read}, passed {passed}, freed {freed}, made {made}, words {words}")?;
    Ok(())
}

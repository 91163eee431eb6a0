//! The time of a call.
use anyhow::Result;
use std::rt::Clock;
use std::time::Instant;

/// The time of one of this many calls since the start, in tenths of a nanosecond.
pub(crate) fn tenths(rt: &impl Clock, start: Instant, calls: u64) -> Result<u128> {
    Ok(
        start
            .elapsed(rt)?
            .as_nanos()
            .saturating_mul(10)
            .checked_div(u128::from(calls))
            .unwrap_or(0),
    )
}

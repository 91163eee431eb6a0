//! Limits of time.
ghost use Rattle.std.specs.Prelude.{◌≡◌};
ghost use Rattle.judy_many.specs.Times.{is_past};

/// Whether this many seconds have passed since a time, if there is a limit. If the clock fails, they
/// have.
pub fn is_past(limit: Option<u32>, since: u64, now: Option<u64>) -> bool
    ensures { result ≡ is_past limit since now }
{
    let Some(limit) = limit else {
        return false;
    };
    let Some(now) = now else {
        return true;
    };
    now.saturating_sub(since) >= u64::from(limit)
}

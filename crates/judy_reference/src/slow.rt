//! Plain, slow queries of a sorted slice of entries. Tests compare the arrays with them.
ghost use Rattle.std.specs.Prelude.{◌≡◌, ◌≤◌, ◌+◌, ◌^◌, ◌<◌, length, IsTrue};
ghost use Rattle.judy_model.specs.Gaps.{first_empty, last_empty, next_empty, prev_empty};
ghost use Rattle.judy_model.specs.Contents.{word_order, string_order, count, nth, first, next, last, prev};
ghost use Rattle.std.specs.Option.{option_copied};

use judy_model::{Key, OwnedKey};

/// The number of keys from `a` to `b`, inclusive.
pub fn count_between(entries: &[(u64, u64)], a: u64, b: u64) -> usize
    ensures { result ≡ count entries.now a b }
{
    entries.iter().filter(|e| a <= e.0 && e.0 <= b).count()
}

/// The `n`-th entry, counted from 1.
pub fn nth_entry(entries: &[(u64, u64)], n: usize) -> Option<(u64, u64)>
    ensures { result ≡ nth entries.now n }
{
    if n == 0 {
        return None;
    }
    entries.get(n - 1).copied()
}

/// The least entry whose key is at least `x`.
pub fn first_entry(entries: &[(u64, u64)], x: u64) -> Option<(u64, u64)>
    ensures { result ≡ first word_order entries.now x }
{
    for e in entries {
        if x <= e.0 {
            return Some(*e);
        }
    }
    None
}

/// The least entry whose key is above `x`.
pub fn next_entry(entries: &[(u64, u64)], x: u64) -> Option<(u64, u64)>
    ensures { result ≡ next word_order entries.now x }
{
    for e in entries {
        if x < e.0 {
            return Some(*e);
        }
    }
    None
}

/// The greatest entry whose key is at most `x`.
pub fn last_entry(entries: &[(u64, u64)], x: u64) -> Option<(u64, u64)>
    ensures { result ≡ last word_order entries.now x }
{
    let mut best = None;
    for e in entries {
        if e.0 <= x {
            best = Some(*e);
        }
    }
    best
}

/// The greatest entry whose key is below `x`.
pub fn prev_entry(entries: &[(u64, u64)], x: u64) -> Option<(u64, u64)>
    ensures { result ≡ prev word_order entries.now x }
{
    let mut best = None;
    for e in entries {
        if e.0 < x {
            best = Some(*e);
        }
    }
    best
}

/// The least absent word from `x` on.
pub fn first_gap(entries: &[(u64, u64)], x: u64) -> Option<u64>
    ensures { result ≡ first_empty entries.now x }
{
    let mut gap = x;
    for e in entries {
        if e.0 >= x {
            if e.0 != gap {
                return Some(gap);
            }
            if gap == u64::MAX {
                return None;
            }
            gap += 1;
        }
    }
    Some(gap)
}

/// The greatest absent word up to `x`.
pub fn last_gap(entries: &[(u64, u64)], x: u64) -> Option<u64>
    ensures { result ≡ last_empty entries.now x }
{
    let mut gap = x;
    for e in entries.iter().rev() {
        if x >= e.0 {
            if e.0 != gap {
                return Some(gap);
            }
            if gap == 0 {
                return None;
            }
            gap -= 1;
        }
    }
    Some(gap)
}

/// The least absent word above `x`.
pub fn next_gap(entries: &[(u64, u64)], x: u64) -> Option<u64>
    ensures { result ≡ next_empty entries.now x }
{
    if x == u64::MAX {
        return None;
    }
    first_gap(entries, x + 1)
}

/// The greatest absent word below `x`.
pub fn prev_gap(entries: &[(u64, u64)], x: u64) -> Option<u64>
    ensures { result ≡ prev_empty entries.now x }
{
    if x == 0 {
        return None;
    }
    last_gap(entries, x - 1)
}

/// The least entry whose string is at least `x`.
pub fn first_string<'a>(entries: &'a [(OwnedKey, u64)], x: &Key<'_>) -> Option<&'a (OwnedKey, u64)>
    ensures { option_copied result ≡ first string_order entries.now x.now }
{
    for e in entries {
        if e.0.key().cmp(&*x).is_ge() {
            return Some(e);
        }
    }
    None
}

/// The least entry whose string is above `x`.
pub fn next_string<'a>(entries: &'a [(OwnedKey, u64)], x: &Key<'_>) -> Option<&'a (OwnedKey, u64)>
    ensures { option_copied result ≡ next string_order entries.now x.now }
{
    for e in entries {
        if e.0.key().cmp(&*x).is_gt() {
            return Some(e);
        }
    }
    None
}

/// The greatest entry whose string is at most `x`.
pub fn last_string<'a>(entries: &'a [(OwnedKey, u64)], x: &Key<'_>) -> Option<&'a (OwnedKey, u64)>
    ensures { option_copied result ≡ last string_order entries.now x.now }
{
    let mut best = None;
    for e in entries {
        if e.0.key().cmp(&*x).is_le() {
            best = Some(e);
        }
    }
    best
}

/// The greatest entry whose string is below `x`.
pub fn prev_string<'a>(entries: &'a [(OwnedKey, u64)], x: &Key<'_>) -> Option<&'a (OwnedKey, u64)>
    ensures { option_copied result ≡ prev string_order entries.now x.now }
{
    let mut best = None;
    for e in entries {
        if e.0.key().cmp(&*x).is_lt() {
            best = Some(e);
        }
    }
    best
}

//! Rising lists of keys: how many are below a word, which are next to it, and where they leave a
//! gap. A search for a key goes by steps of 4, and then compares the three keys between two steps;
//! a search for a gap goes by halves.
ghost use Rattle.std.specs.Prelude.{◌≡◌, ◌≢◌, ℕ, ◌+◌, ◌<◌, ◌≤◌, length, take, drop, filter, nat_lt, nat_le, slice_index};
ghost use Rattle.std.specs.List.Sorted.{IsStrictlyIncreasing};
ghost use Rattle.judy_model.specs.Contents.{Entries, count, first, next, last};
ghost use Rattle.judy_model.specs.Gaps.{first_empty, last_empty};
ghost use Rattle.judy_leaf.specs.Keys.{keys_of};

/// A place found by steps of 4. All keys before it are below the word, and the key three places
/// after it is not.
fn stride(keys: &[u64], x: u64) -> usize
    requires { IsStrictlyIncreasing keys.now }
    ensures within { result ≤ length keys.now }
    ensures under { (i : ℕ) → i < result → slice_index keys.now i < x }
    ensures over { result + 3 < length keys.now → x ≤ slice_index keys.now (result + 3) }
{
    let steps = keys.len() / 4;
    for step in 0..steps {
        if keys[4 * step + 3] >= x {
            return 4 * step;
        }
    }
    4 * steps
}

/// How many keys are below the word, if all before a place are and the key three places after it is
/// not. No branch depends on the three keys.
fn place_in(keys: &[u64], from: usize, x: u64) -> usize
    requires rising { IsStrictlyIncreasing keys.now }
    requires room { from + 3 ≤ length keys.now }
    requires under { (i : ℕ) → i < from → slice_index keys.now i < x }
    requires over { from + 3 < length keys.now → x ≤ slice_index keys.now (from + 3) }
    ensures within { result ≤ length keys.now }
    ensures under { (i : ℕ) → i < result → slice_index keys.now i < x }
    ensures over { result < length keys.now → x ≤ slice_index keys.now result }
{
    let first = usize::from(keys[from] < x);
    let second = usize::from(keys[from + 1] < x);
    let third = usize::from(keys[from + 2] < x);
    from + (first + second + third)
}

/// How many keys are below the word.
pub(crate) fn rank(keys: &[u64], x: u64) -> usize
    requires { IsStrictlyIncreasing keys.now }
    ensures within { result ≤ length keys.now }
    ensures under { (i : ℕ) → i < result → slice_index keys.now i < x }
    ensures over { result < length keys.now → x ≤ slice_index keys.now result }
    ensures below { filter (λ k. nat_lt k x) keys.now ≡ take result keys.now }
    ensures above { filter (λ k. nat_le x k) keys.now ≡ drop result keys.now }
{
    let start = stride(keys, x);
    let count = keys.len();
    if count - start > 3 {
        return place_in(keys, start, x);
    }
    if count > 3 {
        return place_in(keys, count - 3, x);
    }
    for place in start..count {
        if keys[place] >= x {
            return place;
        }
    }
    keys.len()
}

/// How many keys are at most the word.
pub(crate) fn rank_past(keys: &[u64], x: u64) -> usize
    requires { IsStrictlyIncreasing keys.now }
    ensures within { result ≤ length keys.now }
    ensures upto { filter (λ k. nat_le k x) keys.now ≡ take result keys.now }
    ensures past { filter (λ k. nat_lt x k) keys.now ≡ drop result keys.now }
{
    if x == u64::MAX {
        return keys.len();
    }
    rank(keys, x + 1)
}

/// How many keys are from `a` to `b`, both included.
pub(crate) fn count(keys: &[u64], a: u64, b: u64) -> usize
    requires { IsStrictlyIncreasing keys.now }
    ensures { (l : Entries ℕ) → keys_of l ≡ keys.now → result ≡ count l a b }
{
    if b < a {
        return 0;
    }
    rank_past(keys, b) - rank(keys, a)
}

/// How many keys are `x`, `x + 1` and so on without a gap. No key is below `x`.
fn run_up(keys: &[u64], x: u64) -> usize
    requires rising { IsStrictlyIncreasing keys.now }
    requires from { 0 < length keys.now → x ≤ slice_index keys.now 0 }
    ensures within { result ≤ length keys.now }
    ensures run { (j : ℕ) → j < result → slice_index keys.now j ≡ x + j }
    ensures ended { result < length keys.now → slice_index keys.now result ≢ x + result }
{
    let mut low = 0;
    let mut high = keys.len();
    if high > 1 && keys[1] - 1 != x {
        high = 1;
    }
    while low < high {
        let mid = low + (high - low) / 2;
        if keys[mid] - mid as u64 == x {
            low = mid + 1;
        } else {
            high = mid;
        }
    }
    low
}

/// How many keys are `x`, `x - 1` and so on without a gap, from the last one down. No key is above
/// `x`.
fn run_down(keys: &[u64], x: u64) -> usize
    requires rising { IsStrictlyIncreasing keys.now }
    requires upto { (i : ℕ) → i + 1 ≡ length keys.now → slice_index keys.now i ≤ x }
    ensures within { result ≤ length keys.now }
    ensures run { (i j : ℕ) → j < result → i + j + 1 ≡ length keys.now
        → slice_index keys.now i + j ≡ x }
    ensures ended { (i : ℕ) → i + result + 1 ≡ length keys.now
        → slice_index keys.now i + result ≢ x }
{
    let mut low = 0;
    let mut high = keys.len();
    while low < high {
        let mid = low + (high - low) / 2;
        if keys[keys.len() - 1 - mid] + mid as u64 == x {
            low = mid + 1;
        } else {
            high = mid;
        }
    }
    low
}

/// The least word from `x` on that is not a key.
pub(crate) fn first_empty(keys: &[u64], x: u64) -> Option<u64>
    requires { IsStrictlyIncreasing keys.now }
    ensures { (l : Entries ℕ) → keys_of l ≡ keys.now → result ≡ first_empty l x }
{
    let run = run_up(&keys[rank(keys, x)..], x);
    x.checked_add(run as u64)
}

/// The greatest word up to `x` that is not a key.
pub(crate) fn last_empty(keys: &[u64], x: u64) -> Option<u64>
    requires { IsStrictlyIncreasing keys.now }
    ensures { (l : Entries ℕ) → keys_of l ≡ keys.now → result ≡ last_empty l x }
{
    let run = run_down(&keys[..rank_past(keys, x)], x);
    x.checked_sub(run as u64)
}

//! One word of 64 bits: counts and searches with no loop over its bits.
ghost use Rattle.std.specs.Prelude.{◌≡◌, ℕ, ◌%◌, ◌^◌, ◌<◌, ◌≤◌, IfSome, IfNone, count_ones};
ghost use Rattle.std.specs.Int.{bit_at};
ghost use Rattle.judy_bitmap.specs.Words.{IsLowestFrom, HasNoneFrom, IsHighestUpTo, HasNoneUpTo};

/// How many bits below `place` are set.
pub(crate) fn ones_below(word: u64, place: u8) -> u32
    requires { place < 64 }
    ensures { result ≡ count_ones (word % 2 ^ place) }
{
    (word & ((1 << place) - 1)).count_ones()
}

/// The lowest bit from `place` on that is set.
pub(crate) fn lowest_from(word: u64, place: u8) -> Option<u8>
    requires { place < 64 }
    ensures some { IfSome result (IsLowestFrom word place) }
    ensures none { IfNone result (HasNoneFrom word place) }
{
    let rest = word & (u64::MAX << place);
    if rest == 0 {
        None
    } else {
        Some(rest.trailing_zeros() as u8)
    }
}

/// The highest bit up to `place` that is set.
pub(crate) fn highest_up_to(word: u64, place: u8) -> Option<u8>
    requires { place < 64 }
    ensures some { IfSome result (IsHighestUpTo word place) }
    ensures none { IfNone result (HasNoneUpTo word place) }
{
    let rest = word & (u64::MAX >> (63 - place));
    if rest == 0 {
        None
    } else {
        Some(63 - rest.leading_zeros() as u8)
    }
}

/// The place of the set bit that has `n` set bits below it.
///
/// Each of the six steps halves a window of 64, 32, .. 2 bits. It counts the lower half to keep the
/// half that has the bit.
pub(crate) fn select_in(word: u64, n: u32) -> u8
    requires { n < count_ones word }
    ensures within { result < 64 }
    ensures set { bit_at word result ≡ 1 }
    ensures rank { count_ones (word % 2 ^ result) ≡ n }
{
    let mut place = 0u8;
    let mut left = n;
    for level in (0..6u8).rev() {
        let half = 1u8 << level;
        let ones = ones_below(word >> place, half);
        if left >= ones {
            left -= ones;
            place += half;
        }
    }
    place
}

//! Patterns of keys: all keys of a pattern differ.

#[derive(Clone, Copy, Debug, PartialEq, Eq)]
pub(crate) enum Pattern {
    /// Spread over all words.
    Random,
    /// Consecutive, from 0 on.
    Sequential,
    /// Most of the words below 2^20, out of order.
    Dense,
    /// One in each 4,096 words.
    Strided,
}

pub(crate) const PATTERNS: [Pattern; 4] = [
    Pattern::Random,
    Pattern::Sequential,
    Pattern::Dense,
    Pattern::Strided,
];

/// Mixes a word. Different words give different results.
pub(crate) fn mixed(word: u64) -> u64 {
    let a = word.wrapping_add(0x9E37_79B9_7F4A_7C15);
    let b = (a ^ (a >> 30)).wrapping_mul(0xBF58_476D_1CE4_E5B9);
    let c = (b ^ (b >> 27)).wrapping_mul(0x94D0_49BB_1331_11EB);
    c ^ (c >> 31)
}

impl Pattern {
    /// The key number `i`.
    pub(crate) fn key(self, i: u64) -> u64 {
        match self {
            Pattern::Random => mixed(i),
            Pattern::Sequential => i,
            Pattern::Dense => i.wrapping_mul(7_919) % 1_048_576,
            Pattern::Strided => i.wrapping_mul(4_096),
        }
    }
}

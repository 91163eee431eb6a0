//! Numbers that are drawn from a seed.

/// A generator. The same seed gives the same numbers.
#[derive(Drop)]
pub struct Draw {
    state: u64,
}

impl Draw {
    /// The generator of a seed.
    pub fn new(seed: u64) -> Draw {
        Draw { state: seed }
    }

    /// The next word (SplitMix64).
    fn word(&mut self) -> u64 {
        self.state = self.state.wrapping_add(0x9E37_79B9_7F4A_7C15);
        let a = self.state;
        let b = (a ^ (a >> 30)).wrapping_mul(0xBF58_476D_1CE4_E5B9);
        let c = (b ^ (b >> 27)).wrapping_mul(0x94D0_49BB_1331_11EB);
        c ^ (c >> 31)
    }

    /// A number below a limit. 0 if the limit is 0.
    pub fn below(&mut self, limit: usize) -> usize {
        (self.word() as usize).checked_rem(limit).unwrap_or(0)
    }

    /// Whether it happens: `times` of `of` draws.
    pub fn happens(&mut self, times: usize, of: usize) -> bool {
        self.below(of) < times
    }

    /// One of these numbers.
    pub fn one_of(&mut self, choices: &[usize]) -> usize {
        let at = self.below(choices.len());
        choices.get(at).copied().unwrap_or(0)
    }
}

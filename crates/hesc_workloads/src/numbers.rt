//! Numbers that look random, from a seed: Steele, Lea and Flood's SplitMix64.

#[derive(Drop)]
pub(crate) struct Numbers {
    state: u64,
}

impl Numbers {
    pub(crate) fn new(seed: u64) -> Numbers {
        Numbers { state: seed }
    }

    pub(crate) fn next(&mut self) -> u64 {
        self.state = self.state.wrapping_add(0x9E37_79B9_7F4A_7C15);
        let mixed = (self.state ^ (self.state >> 30)).wrapping_mul(0xBF58_476D_1CE4_E5B9);
        let mixed = (mixed ^ (mixed >> 27)).wrapping_mul(0x94D0_49BB_1331_11EB);
        mixed ^ (mixed >> 31)
    }

    /// A number below the bound, and 0 where the bound is 0.
    pub(crate) fn below(&mut self, bound: usize) -> usize {
        let number = (self.next() >> 33) as usize;
        match number.checked_rem(bound) {
            Some(rest) => rest,
            None => 0,
        }
    }

    /// A number from `least` on, and below the sum of both.
    pub(crate) fn from(&mut self, least: usize, range: usize) -> usize {
        least.saturating_add(self.below(range))
    }

    /// A number from `least` on, with as many short ones as long ones: half of them are below the
    /// square root of the range.
    pub(crate) fn length(&mut self, least: usize, most: usize) -> usize {
        let mut range = most.saturating_sub(least);
        for _ in 0..self.below(12) {
            range /= 2;
        }
        least.saturating_add(self.below(range))
    }
}

//! Numbers that a seed determines.

use std::num::NonZeroU32;

/// A generator of 64 bits whose state is mixed for each number (SplitMix64; Steele, Lea and Flood 2014), so that seeds which are alike give
/// other numbers.
#[derive(Drop)]
pub struct Random {
    state: u64,
}

impl Random {
    /// Begun by a seed, and by the number of a round.
    pub fn new(seed: u32, round: u32) -> Random {
        Random {
            state: (u64::from(seed) << 32) | u64::from(round),
        }
    }

    fn next(&mut self) -> u64 {
        self.state = self.state.wrapping_add(11_400_714_819_323_198_485);
        let once = (self.state ^ (self.state >> 30)).wrapping_mul(13_787_848_793_156_543_929);
        let twice = (once ^ (once >> 27)).wrapping_mul(10_723_151_780_598_845_931);
        twice ^ (twice >> 31)
    }

    /// A number below this one.
    pub fn below(&mut self, limit: NonZeroU32) -> u32 {
        let number = (self.next() >> 32) % u64::from(limit.get());
        number as u32
    }

    /// A number up to this one.
    pub fn up_to(&mut self, most: u32) -> u32 {
        match most.checked_add(1) {
            Some(limit) => match NonZeroU32::new(limit) {
                Some(limit) => self.below(limit),
                None => 0,
            },
            None => 0,
        }
    }
}

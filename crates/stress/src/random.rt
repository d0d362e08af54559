//! Random numbers.
ghost use Rattle.std.specs.Prelude.{◌<◌, ◌≤◌};

/// A generator of numbers, `xorshift64*`.
#[derive(Drop)]
pub struct Random {
    state: u64,
}

impl Random {
    /// Creates the generator of one thread in one round. Its numbers are the same in each run.
    pub fn new(seed: u64, round: u64, thread: u64) -> Random {
        let place = seed
            .wrapping_mul(0x9e37_79b9_7f4a_7c15)
            .wrapping_add(round)
            .wrapping_mul(64)
            .wrapping_add(thread);
        let first = (place ^ (place >> 30)).wrapping_mul(0xbf58_476d_1ce4_e5b9);
        let second = (first ^ (first >> 27)).wrapping_mul(0x94d0_49bb_1331_11eb);
        Random {
            state: (second ^ (second >> 31)).max(1),
        }
    }

    /// Returns a number below `bound`, or 0 if `bound` is 0.
    pub fn below(&mut self, bound: u64) -> u64
        ensures { 0 < bound → result < bound }
    {
        let mut state = self.state;
        state ^= state >> 12;
        state ^= state << 25;
        state ^= state >> 27;
        self.state = state;
        (state.wrapping_mul(0x2545_f491_4f6c_dd1d) >> 33) % bound.max(1)
    }
}

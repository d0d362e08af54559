//! The keys, and the draws of look-ups among them, both by the generator splitmix64 from fixed seeds.

const STEP: u64 = 0x9E37_79B9_7F4A_7C15;

// Returns the output of splitmix64 at `state`. Different states have different outputs.
fn mix(state: u64) -> u64 {
    let first = (state ^ (state >> 30)).wrapping_mul(0xBF58_476D_1CE4_E5B9);
    let second = (first ^ (first >> 27)).wrapping_mul(0x94D0_49BB_1331_11EB);
    second ^ (second >> 31)
}

/// Returns the key of `index`. Different indices have different keys.
pub fn key_of(index: u64) -> u64 {
    mix(index.wrapping_mul(STEP))
}

/// A generator of numbers.
#[derive(Drop)]
pub struct Draws {
    state: u64,
}

impl Draws {
    pub fn new(seed: u64) -> Draws {
        Draws { state: mix(seed) }
    }

    /// Draws a number below `bound`, or 0 if `bound` is 0. The greatest allowed `bound` is 2^32.
    pub fn below(&mut self, bound: u64) -> u64 {
        self.state = self.state.wrapping_add(STEP);
        (mix(self.state) >> 32).wrapping_mul(bound) >> 32
    }
}

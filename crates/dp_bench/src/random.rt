//! Random numbers, the same in each run.
/// A sequence of such numbers.
#[derive(Clone, Copy)]
pub struct RandomNumbers {
    state: u64,
}

impl RandomNumbers {
    /// The sequence that starts with a seed.
    pub fn new(seed: u64) -> RandomNumbers {
        RandomNumbers { state: seed }
    }

    /// The next number. No clause says which: only safety is claimed.
    pub fn next(&mut self) -> u32 {
        self.state = self
            .state
            .wrapping_mul(6_364_136_223_846_793_005)
            .wrapping_add(1_442_695_040_888_963_407);
        (self.state >> 32) as u32
    }
}

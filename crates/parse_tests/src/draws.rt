//! Numbers that look as if they were drawn, and are the same in each run.

/// A generator of numbers: each is the one before it, times a factor and a summand more.
#[derive(Drop)]
pub(crate) struct Draws {
    /// The number that was made last, of which a draw shows the high bits; or the seed.
    number: u64,
}

impl Draws {
    pub(crate) fn new(seed: u64) -> Draws {
        Draws { number: seed }
    }

    /// The next number below this one, which counts as 1 where it is 0.
    pub(crate) fn below(&mut self, end: u64) -> u64 {
        self.number = self
            .number
            .wrapping_mul(6_364_136_223_846_793_005)
            .wrapping_add(1_442_695_040_888_963_407);
        (self.number >> 33) % end.max(1)
    }
}

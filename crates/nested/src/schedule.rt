// An order of delivery drawn from a seed: a linear congruential generator, of which the high bits are used. It never ends.

#[derive(Drop)]
pub(crate) struct Schedule {
    state: u64,
}

impl Schedule {
    pub(crate) fn new(seed: u64) -> Schedule {
        Schedule { state: seed }
    }
}

impl Iterator for Schedule {
    type Item = u64;

    fn next(&mut self) -> Option<u64> {
        self.state = self
            .state
            .wrapping_mul(6364136223846793005)
            .wrapping_add(1442695040888963407);
        Some(self.state >> 33)
    }
}

//! Numbers at random, the same in each run.

/// The numbers that a seed gives, which is the first state.
#[derive(Drop)]
pub struct Random {
    pub state: u64,
}

impl Random {
    /// A number below a bound, 0 where that is 0.
    pub fn below(&mut self, bound: u32) -> u32 {
        self.state = self
            .state
            .wrapping_mul(6364136223846793005)
            .wrapping_add(1442695040888963407);
        let number = (self.state >> 33) as u32;
        if bound == 0 { 0 } else { number % bound }
    }
}

//! Pseudo-random numbers, the same on each run.

/// A xorshift generator of 64 bits, by shifts of 13, 7 and 17.
#[derive(Drop)]
pub(super) struct Draws {
    state: u64,
}

impl Draws {
    /// Returns the numbers of a schedule, which has a number of its own.
    pub(super) fn new(schedule: u64) -> Draws {
        let state = schedule.wrapping_mul(2).wrapping_add(1);
        Draws {
            state: state.wrapping_mul(0x9E37_79B9_7F4A_7C15),
        }
    }

    /// Returns the next number, below a bound, or 0 if the bound is 0.
    pub(super) fn below(&mut self, bound: usize) -> usize {
        let mut state = self.state;
        state ^= state << 13;
        state ^= state >> 7;
        state ^= state << 17;
        self.state = state;
        if bound == 0 {
            return 0;
        }
        (state >> 32) as usize % bound
    }
}

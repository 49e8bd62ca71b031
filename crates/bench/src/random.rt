//! Numbers that look random, the same in each run and for each library.

ghost use Rattle.std.specs.Prelude.{◌<◌};

use crate::building::{keep, reserve};
use ir_base::context::CoreError;

/// Where the numbers go on.
#[derive(Drop)]
pub struct Random {
    state: u64,
}

impl Random {
    /// The beginning of the numbers.
    pub(crate) fn new() -> Self {
        Random {
            state: 0x9E3779B97F4A7C15,
        }
    }

    /// The next number, below a bound; 0 where that is 0.
    pub(crate) fn below(&mut self, bound: usize) -> usize
        ensures { 0 < bound → result < bound }
    {
        let mut state = self.state;
        state ^= state.wrapping_shl(13);
        state ^= state >> 7;
        state ^= state.wrapping_shl(17);
        self.state = state;
        if bound == 0 {
            return 0;
        }
        (state % bound as u64) as usize
    }
}

/// Puts so many random places below that number into a list that is empty.
pub(crate) fn fill_at_random(order: &mut Vec<usize>, count: usize) -> Result<(), CoreError> {
    let mut random = Random::new();
    reserve(order, count)?;
    for _i in 0..count {
        keep(order, random.below(count))?;
    }
    Ok(())
}

// Numbers that look drawn, and are the same in each run. `bench/draws.rs` draws the same.
ghost use Rattle.std.specs.Prelude.{◌<◌};

use std::alloc::{AllocError, Global};

#[derive(Drop)]
pub(crate) struct Draws {
    state: u64,
}

impl Draws {
    pub(crate) fn new() -> Draws {
        Draws { state: 1 }
    }

    /// A number below a bound.
    pub(crate) fn below(&mut self, bound: u64) -> u64
        requires { 0 < bound }
        ensures { result < bound }
    {
        self.state = self
            .state
            .wrapping_mul(6364136223846793005)
            .wrapping_add(1442695040888963407);
        (self.state >> 33) % bound
    }
}

/// The numbers below a bound.
pub(crate) fn ascending(alloc: Global, bound: u32) -> Result<Vec<u32>, AllocError> {
    let mut numbers = Vec::with_capacity(alloc, bound as usize)?;
    for number in 0..bound {
        numbers.push(number)?;
    }
    Ok(numbers)
}

/// Puts numbers in an order that is drawn.
pub(crate) fn shuffle(numbers: &mut [u32]) {
    let mut draws = Draws::new();
    for behind in 1..numbers.len() {
        let last = numbers.len() - behind;
        let other = draws.below(last as u64 + 1);
        numbers.swap(last, other as usize);
    }
}

/// A digest, once a value came.
pub(crate) fn mix(sum: u64, value: u64) -> u64 {
    (sum ^ value).wrapping_mul(1099511628211)
}

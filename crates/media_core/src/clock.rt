// A clock.
ghost use Rattle.std.specs.Prelude.{◌≡◌, ◌<◌, ◌≤◌, ℕ, List, length, IfOk, Some, slice_get, vec_len};
ghost use Rattle.media_core.specs.Later.{later};

use crate::media::Memory;
use std::alloc::Global;

/// A clock, in whole seconds since 1970.
pub trait Clock {
    /// Whether moments are told: always for those in memory, never for the system's clock.
    ghost tells: { Type 0 };

    /// The moments that are to come, the next one first.
    ghost moments: { Self → List ℕ };

    /// The first moment, which is taken off where it isn't the last one.
    fn now(&mut self) -> u64
        ensures first { tells → slice_get (moments self.old) 0 ≡ Some result }
        ensures rest { tells → moments self.new ≡ later (moments self.old) };

    /// There is always a moment to come.
    ghost some_moment: { (s : Self) → tells → 1 ≤ length (moments s) };
}

/// Stated moments as a clock. The last one stays for good.
#[derive(Drop)]
pub struct ClockMem {
    moments: Vec<u64>,
    at: usize,
    ghost within: { at < length moments.items },
}

impl Clock for ClockMem {
    ghost use Rattle.media_core.specs.Later.{rest_some};
    ghost use Rattle.media_core.specs.ClockMem.{moments_left};

    ghost tells = { Unit {0} };

    ghost moments = { moments_left };

    ghost some_moment = { λ c told. rest_some c.moments.items c.at c.within };

    fn now(&mut self) -> u64 {
        let moment = self.moments[self.at];
        if self.at + 1 < self.moments.len() {
            self.at += 1;
        }
        moment
    }
}

impl ClockMem {
    ghost use Rattle.media_core.specs.ClockMem.{moments_left};

    /// These moments, of which there is at least one.
    pub fn new(alloc: Global, moments: &[u64]) -> Result<ClockMem, Memory>
        requires { 0 < length moments.now }
        ensures { IfOk result (λ c. moments_left c ≡ moments.now) }
    {
        Ok(ClockMem {
            moments: moments.to_vec(alloc)?,
            at: 0,
        })
    }
}

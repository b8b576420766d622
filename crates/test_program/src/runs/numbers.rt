//! Pseudorandom numbers.
ghost use Rattle.std.specs.Prelude.{◌<◌};

// Donald Knuth's, for his computer MMIX.
const MULTIPLIER: u64 = 6_364_136_223_846_793_005;

const INCREMENT: u64 = 1_442_695_040_888_963_407;

// A pseudorandom sequence, the same at each run: a linear congruential generator that returns its upper 31 bits.
#[derive(Clone, Copy)]
pub(crate) struct Numbers {
    last: u64,
}

impl Numbers {
    // The numbers after this one.
    pub(crate) fn new(first: u64) -> Numbers {
        Numbers { last: first }
    }

    // The next number, modulo a limit.
    pub(crate) fn below(&mut self, limit: u64) -> u64
        requires { 0 < limit }
        ensures { result < limit }
    {
        self.last = self.last.wrapping_mul(MULTIPLIER).wrapping_add(INCREMENT);
        (self.last >> 33) % limit
    }
}

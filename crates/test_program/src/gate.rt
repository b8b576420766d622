ghost use Rattle.std.specs.Prelude.{◌≡◌};

use site_desk::Gate;

// The number of the calls that a gate counts.
pub(crate) const TURN: u64 = 7;

// A gate that counts its calls with that number, and does nothing else.
#[derive(Drop)]
pub(crate) struct CountingGate {
    pub(crate) calls: u32,
}

impl Gate for CountingGate {
    ghost called = { λ old turn new. new ≡ new };

    fn inside(&mut self, turn: u64) {
        if turn == TURN {
            self.calls = self.calls.wrapping_add(1);
        }
    }
}

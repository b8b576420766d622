ghost use Rattle.std.specs.Prelude.{◌≡◌};
ghost use Rattle.dots.specs.CountedCalls.{is_zero, no_calls};

/// The numbers of calls that were completed and abandoned (this project's own).
#[derive(Clone, Copy, Debug, PartialEq, Eq)]
pub struct CallTotals {
    /// The number of completed calls.
    pub completed: u64,
    /// The number of abandoned calls.
    pub abandoned: u64,
}

impl CallTotals {
    /// No calls: two zeros.
    pub fn none() -> CallTotals
        ensures { result ≡ no_calls }
    {
        CallTotals {
            completed: 0,
            abandoned: 0,
        }
    }

    /// Whether both numbers are zero.
    pub fn is_zero(self) -> bool
        ensures { result ≡ is_zero self }
    {
        self.completed == 0 && self.abandoned == 0
    }
}

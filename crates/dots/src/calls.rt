ghost use Rattle.std.specs.Prelude.{◌≡◌};
ghost use Rattle.dots.specs.CountedCalls.{same_calls};

/// The calls that are counted.
#[derive(Clone, Copy, Debug)]
pub enum Calls {
    /// Calls that were completed.
    Completed,
    /// Calls that were abandoned.
    Abandoned,
}

impl Calls {
    /// Whether both are the same kind of calls.
    pub fn same(self, other: Calls) -> bool
        ensures { result ≡ same_calls self other }
    {
        match self {
            Calls::Completed => matches!(other, Calls::Completed),
            Calls::Abandoned => matches!(other, Calls::Abandoned),
        }
    }
}

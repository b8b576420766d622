/// A call that a desk makes while it holds the site's lock. With it tests see that sites run concurrently.
pub trait Gate {
    ghost use Rattle.std.specs.Prelude.{ℕ};

    /// The effect of the gate's call: from the state before, it leads with this number to the state after.
    ghost called: { Self → ℕ → Self → Type 0 };

    /// The desk calls it once in each gated call, after the step or its error, with the number that the
    /// call was given.
    fn inside(&mut self, turn: u64)
        ensures { called self.old turn self.new };
}

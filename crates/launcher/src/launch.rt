//! What is launched: a site, with whatever desk.

/// What one site is launched with, and what it then ends with (this project's own).
pub trait Launch {
    ghost use Rattle.std.specs.Prelude.{ℕ};

    /// What the site ends with.
    type Output: Drop + Send;

    /// `ends site limit output`: the site that was launched as `site`, with a journal of at most `limit`
    /// steps, gives `output`.
    ghost ends: { Self → ℕ → Self.Output → Type 0 };
}

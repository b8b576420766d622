ghost use Rattle.std.specs.Prelude.{◌≡◌, length};
ghost use Rattle.site_audit.specs.Runs.{IsFromNew};

use site_journal::Journaled;
use stored_steps::NAME_BYTES;

/// The journal of a site with all its steps, from the rows of its store (this project's own).
#[derive(Drop)]
pub struct StoreJournal {
    /// The journal: it began from a new replica, and has all its steps.
    pub journal: Journaled,
    /// The bytes that name the store for ever.
    pub name: [u8; NAME_BYTES],
    /// How often the site was started over the store, at most 2^64 - 1.
    pub starts: u64,
    /// For each step of the journal the position of its row in the store.
    pub positions: Vec<u64>,
    pub ghost fresh: { ∥ IsFromNew journal ∥₁ },
    pub ghost counted: { length positions.items ≡ length journal.steps },
}

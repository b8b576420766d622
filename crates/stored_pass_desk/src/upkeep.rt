//! What keeps a site's journal within its limits, whatever desk the site has.
ghost use Rattle.std.specs.Prelude.{◌≡◌, ◌⊎◌, IfErr};

use site_desk::{SiteDesk, SiteLedger};
use site_journal::DeskFault;
use std::sync::Wait;
use stored_desk::{Growth, StepStore, StoredDesk, StoredLedger};

/// How many bytes the steps of a journal may keep beside themselves: 64 MiB.
pub const MOST_KEPT: u64 = 67_108_864;

/// A desk whose journal is kept within its limits (this project's own).
pub trait Upkeep<R> {
    /// Drops the steps of the journal where that makes room; a desk with a store saves them first. Errors, in order: 1 `Unsaved`, where the
    /// store has failed; 2 `Memory`, and no step is dropped; 3 `Unsaved`, where the commit fails. The contract says only which errors there
    /// are.
    fn drop_steps(&self, rt: &R) -> Result<(), DeskFault>
        ensures { IfErr result (λ fault.
            (fault ≡ DeskFault.Unsaved) ⊎ (fault ≡ DeskFault.Memory)) };

    /// Drops the steps of the journal if they keep more than `MOST_KEPT` bytes beside themselves; a desk with a store saves them first.
    /// If there is no memory for that, a later call does it. An error isn't reported. No contract says this.
    fn limit_steps(&self, rt: &R);
}

impl<L: SiteLedger, R: Wait> Upkeep<R> for SiteDesk<L> {
    // Drops them where that makes room, so that of several threads that find the journal full one does so. `Memory` leaves all.
    fn drop_steps(&self, rt: &R) -> Result<(), DeskFault> {
        match self.checkpoint_if_full(rt) {
            Ok(_) => Ok(()),
            Err(_) => Err(DeskFault::Memory),
        }
    }

    // Drops them as `SiteDesk::checkpoint_above` does.
    fn limit_steps(&self, rt: &R) {
        let _ = self.checkpoint_above(rt, MOST_KEPT);
    }
}

impl<D: StepStore, L: StoredLedger, R: Wait> Upkeep<R> for StoredDesk<D, L> {
    // Saves and drops them where that makes room, with the errors of `StoredDesk::make_room`.
    fn drop_steps(&self, rt: &R) -> Result<(), DeskFault> {
        self.make_room(rt)
    }

    // Saves and drops them as `StoredDesk::checkpoint_above` does.
    fn limit_steps(&self, rt: &R) {
        let _ = self.checkpoint_above(rt, MOST_KEPT);
    }
}

/// After how many rows since its base the store of a site gets a new base.
pub const MOST_ROWS: u64 = 10_000;

/// After how many bytes of rows since its base the store of a site gets a new base: 64 MiB.
pub const MOST_ROW_BYTES: u64 = 67_108_864;

/// Saves all that a site has done so far. If its store then has more than `MOST_ROWS` rows or `MOST_ROW_BYTES` bytes since its base, the
/// site becomes the base. Errors, in order: 1 those of `StoredDesk::settle_all`; 2 those of `StoredDesk::replace_base`. After `Memory` a
/// later call does it. The contract says only which errors there are.
pub fn save_all<D: StepStore, L: StoredLedger, R: Wait>(
    rt: &R,
    desk: &StoredDesk<D, L>,
) -> Result<(), DeskFault>
    ensures { IfErr result (λ fault.
        (fault ≡ DeskFault.Unsaved) ⊎ (fault ≡ DeskFault.Memory)) }
{
    desk.settle_all(rt)?;
    let most = Growth {
        rows: MOST_ROWS,
        bytes: MOST_ROW_BYTES,
    };
    desk.replace_base_above(rt, most)?;
    Ok(())
}

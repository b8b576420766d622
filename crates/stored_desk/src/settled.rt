ghost use Rattle.std.specs.Prelude.{◌≡◌};

use crate::StoredLedger;
use crate::history::HistoryPrefix;
use crate::mark::Claim;
use site_journal::Receipt;
use std::marker::Model;

/// A receipt whose step is durable. Only a desk with a store makes one, and no other receipt of an ask, a cut or a whole leaves the desk.
/// Contracts see it as its receipt. By what it holds it is known that its step stands in the site's history at its position, among
/// those that the store has (this project's own).
#[derive(Drop)]
pub struct Settled<L: StoredLedger> {
    pub(crate) receipt: Receipt,
    pub(crate) prefix: HistoryPrefix<L>,
    pub(crate) claim: Claim<L>,
}

impl<L: StoredLedger> Model for Settled<L> {
    ghost use Rattle.std.specs.Prelude.{◌≡◌, ◌<◌, Some, slice_get};
    ghost use Rattle.site_journal.specs.declared.receipt.Receipt.{Receipt};
    ghost use Rattle.site_desk.specs.Passes.{step_of};

    ghost Value = { Receipt };

    ghost view = { λ s. s.receipt };

    ghost invariant = { λ s. (slice_get s.prefix s.receipt.position ≡ Some (step_of s.receipt))
        × (s.receipt.position < s.claim) };
}

impl<L: StoredLedger> Settled<L> {
    /// The receipt.
    pub fn into_receipt(self) -> Receipt
        ensures { result ≡ self }
    {
        let Settled { receipt, .. } = self;
        receipt
    }
}

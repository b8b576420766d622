ghost use Rattle.std.specs.Prelude.{◌≡◌};

use crate::WholeFrame;
use site_journal::{Receipt, StepDeed};
use std::marker::Model;

/// The receipt of a cut or a whole, as outboxes are handed it. The digest of a whole is computed once, for all outboxes that are handed it
/// (this project's own).
#[derive(Drop)]
pub struct MadeFrame<'a> {
    pub(crate) receipt: &'a Receipt,
    // The whole, if the receipt is of one.
    pub(crate) whole: Option<WholeFrame<'a>>,
}

impl<'a> Model for MadeFrame<'a> {
    ghost use Rattle.std.specs.Prelude.{◌≡◌};
    ghost use Rattle.site_journal.specs.declared.receipt.Receipt.{Receipt};
    ghost use Rattle.site_peers.specs.Outboxes.{whole_in};

    ghost Value = { Receipt };

    ghost view = { λ m. m.receipt.now };

    ghost invariant = { λ m. m.whole ≡ whole_in m.receipt.now.deed };
}

impl<'a> MadeFrame<'a> {
    /// What outboxes are handed of this receipt. The digest is computed if the receipt is of a whole. It takes no memory.
    pub fn of(receipt: &'a Receipt) -> MadeFrame<'a>
        ensures { result ≡ receipt.now }
    {
        let whole = match &receipt.deed {
            StepDeed::Whole(bytes) => Some(WholeFrame::new(bytes)),
            _ => None,
        };
        MadeFrame { receipt, whole }
    }
}

ghost use Rattle.std.specs.Prelude.{◌++◌, ◌∷◌, [], List, OnOk};

use dots::Memory;
use site_journal::Receipt;

/// What a pump hands its receipts to (this project's own).
pub trait ReceiptSink {
    ghost use Rattle.std.specs.Prelude.{List};
    ghost use Rattle.site_journal.specs.declared.receipt.Receipt.{Receipt};

    /// `holds sink receipts`: the sink was handed these receipts, in order, and holds them, or
    /// holds none at all.
    ghost holds: { Self → List Receipt → Type 0 };

    /// The sink has room for one more receipt.
    ghost has_room: { Self → Type 0 };

    /// Makes room for one more receipt. Fails only when out of memory.
    fn prepare(&mut self) -> Result<(), Memory>
        ensures room { OnOk result (has_room self.new) }
        ensures same { (receipts : List _) → holds self.old receipts → holds self.new receipts };

    /// Takes a receipt, for which there is room. It takes no memory.
    fn put(&mut self, receipt: Receipt)
        requires { has_room self.old }
        ensures { (receipts : List _) → holds self.old receipts
            → holds self.new (receipts ++ receipt ∷ []) };
}

impl ReceiptSink for Vec<Receipt> {
    ghost use Rattle.std.specs.Prelude.{◌≡◌, ◌<◌, vec_capacity, vec_len};

    ghost holds = { λ list receipts. list.items ≡ receipts };

    ghost has_room = { λ list. vec_len list < vec_capacity list };

    fn prepare(&mut self) -> Result<(), Memory> {
        match self.reserve(1) {
            Ok(()) => Ok(()),
            Err(_) => Err(Memory),
        }
    }

    fn put(&mut self, receipt: Receipt) {
        self.push_reserved(receipt);
    }
}

/// A sink that drops each receipt (this project's own).
#[derive(Clone, Copy)]
pub struct NoReceipts;

impl ReceiptSink for NoReceipts {
    ghost use Rattle.std.specs.Prelude.{⊤};

    ghost holds = { λ sink receipts. ⊤ };

    ghost has_room = { λ sink. ⊤ };

    fn prepare(&mut self) -> Result<(), Memory> {
        Ok(())
    }

    fn put(&mut self, receipt: Receipt) {
        drop(receipt);
    }
}

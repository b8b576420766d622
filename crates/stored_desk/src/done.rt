ghost use Rattle.std.specs.Prelude.{◌≡◌, ◌++◌, ◌∷◌, [], ℕ, IfErr, IfOk, List, OnErr, OnOk};
ghost use Rattle.std.specs.Prelude.{length, true};
ghost use Rattle.site_journal.specs.Receipts.{IsOfTake};
ghost use Rattle.site_desk.specs.Passes.{step_of};

use crate::StoredLedger;
use crate::history::{HistoryPrefix, HistoryWriter};
use dots::SharedBytes;
use site_journal::{DeskFault, Receipt, StepDeed};
use std::marker::Model;
use std::mem;

// A step that is done in memory, and that stands in the history. It is seen as its receipt, which doesn't leave the site before the step
// is saved, unless the step is a take.
#[derive(Drop)]
pub(crate) struct Done<L: StoredLedger> {
    pub(crate) receipt: Receipt,
    pub(crate) prefix: HistoryPrefix<L>,
}

impl<L: StoredLedger> Model for Done<L> {
    ghost use Rattle.std.specs.Prelude.{◌≡◌, Some, slice_get};
    ghost use Rattle.site_journal.specs.declared.receipt.Receipt.{Receipt};
    ghost use Rattle.site_desk.specs.Passes.{step_of};

    ghost Value = { Receipt };

    ghost view = { λ d. d.receipt };

    ghost invariant = { λ d. slice_get d.prefix d.receipt.position ≡ Some (step_of d.receipt) };
}

impl<L: StoredLedger> Done<L> {
    // How many steps there are up to its own, that included. No contract says this.
    pub fn end(&self) -> u64 {
        self.receipt.position.saturating_add(1)
    }
}

// Adds the step of a receipt, which is the next, to a history. Where the history has gone on elsewhere, or has 2^40 steps, the step is
// lost: `is_lost` is set, and the receipt comes back.
fn record_or_return<L: StoredLedger>(
    prefix: &mut HistoryPrefix<L>,
    writer: &HistoryWriter<L>,
    is_lost: &mut bool,
    receipt: Receipt,
) -> Result<Done<L>, Receipt>
    requires next { receipt.position ≡ length prefix.old }
    ensures receipt { IfOk result (λ done. done ≡ receipt) }
    ensures added { OnOk result (prefix.new ≡ prefix.old ++ step_of receipt ∷ []) }
    ensures kept { OnOk result (is_lost.new ≡ is_lost.old) }
    ensures lost { OnErr result (is_lost.new ≡ true) }
    ensures back { IfErr result (λ back. back ≡ receipt) }
{
    let mut longer = prefix.again();
    if !longer.append(writer, &receipt) {
        drop(longer);
        *is_lost = true;
        return Err(receipt);
    }
    drop(mem::replace(prefix, longer.again()));
    Ok(Done {
        receipt,
        prefix: longer,
    })
}

// Adds the step of a receipt, which is the next, to a history. Where the history has gone on elsewhere, or has 2^40 steps, the step is
// lost: `is_lost` is set, and the fault is `Unsaved`.
pub(crate) fn record<L: StoredLedger>(
    prefix: &mut HistoryPrefix<L>,
    writer: &HistoryWriter<L>,
    is_lost: &mut bool,
    receipt: Receipt,
) -> Result<Done<L>, DeskFault>
    requires next { receipt.position ≡ length prefix.old }
    ensures receipt { IfOk result (λ done. done ≡ receipt) }
    ensures added { OnOk result (prefix.new ≡ prefix.old ++ step_of receipt ∷ []) }
    ensures kept { OnOk result (is_lost.new ≡ is_lost.old) }
    ensures lost { OnErr result (is_lost.new ≡ true) }
    ensures fault { IfErr result (λ fault. fault ≡ DeskFault.Unsaved) }
{
    match record_or_return(prefix, writer, is_lost, receipt) {
        Ok(done) => Ok(done),
        Err(receipt) => {
            drop(receipt);
            Err(DeskFault::Unsaved)
        }
    }
}

// The bytes of the frame that was taken.
fn bytes_of(receipt: Receipt) -> SharedBytes
    requires took { (bytes : List ℕ) × IsOfTake bytes receipt }
    ensures bytes { (bytes : List ℕ) → IsOfTake bytes receipt → result ≡ bytes }
{
    match receipt.deed {
        StepDeed::Took(bytes) => bytes,
        _ => unreachable!(),
    }
}

// Does as `record` for a take, whose bytes come back with the fault.
pub(crate) fn record_take<L: StoredLedger>(
    prefix: &mut HistoryPrefix<L>,
    writer: &HistoryWriter<L>,
    is_lost: &mut bool,
    receipt: Receipt,
) -> Result<Done<L>, (DeskFault, SharedBytes)>
    requires next { receipt.position ≡ length prefix.old }
    requires took { (bytes : List ℕ) × IsOfTake bytes receipt }
    ensures receipt { IfOk result (λ done. done ≡ receipt) }
    ensures added { OnOk result (prefix.new ≡ prefix.old ++ step_of receipt ∷ []) }
    ensures kept { OnOk result (is_lost.new ≡ is_lost.old) }
    ensures lost { OnErr result (is_lost.new ≡ true) }
    ensures fault { IfErr result (λ refused. refused.0 ≡ DeskFault.Unsaved) }
    ensures back { (bytes : List ℕ) → IsOfTake bytes receipt
        → IfErr result (λ refused. refused.1 ≡ bytes) }
{
    match record_or_return(prefix, writer, is_lost, receipt) {
        Ok(done) => Ok(done),
        Err(receipt) => Err((DeskFault::Unsaved, bytes_of(receipt))),
    }
}

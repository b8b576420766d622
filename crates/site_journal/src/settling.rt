//! Compares the receipts of callers with a journal.
ghost use Rattle.std.specs.Prelude.{◌≡◌, ◌↔◌, ◌<◌, ◌^◌, ◌++◌, ◌∷◌, [], List, IfErr, IsTrue, OnOk};
ghost use Rattle.std.specs.Prelude.{length, map};
ghost use Rattle.site_journal.specs.Settling.{AreSettled, IsLeastPass, IsUnsettled, receipts_of};

use crate::{Journaled, Receipt, SettleFault, Step};

// Whether a receipt is that of `step`, which stands at `position` among all steps.
fn is_receipt_of(receipt: &Receipt, position: usize, step: &Step) -> bool
    ensures { IsTrue result ↔ (receipt.now ≡ record {
      pass = step.now.pass;
      position = position;
      deed = step.now.deed;
    }) }
{
    receipt.pass == step.pass
        && receipt.position == position as u64
        && receipt.deed.same(&step.deed)
}

// Whether `list` has the receipts of the steps of the pass of this number, in order, and no other.
fn is_list_of(steps: &[Step], pass: u32, list: &[Receipt]) -> bool
    ensures { IsTrue result ↔ (list.now ≡ receipts_of pass 0 steps.now) }
{
    let mut next = 0;
    let mut at = 0;
    while at < steps.len() {
        let step = &steps[at];
        if step.pass == pass {
            if next == list.len() {
                return false;
            }
            if !is_receipt_of(&list[next], at, step) {
                return false;
            }
            next += 1;
        }
        at += 1;
    }
    next == list.len()
}

// The least pass that isn't below `from`, of `pass` and of passes whose least is `found`. `None` if there is none.
fn lesser(from: u32, found: Option<u32>, pass: u32) -> Option<u32>
    ensures { (steps : List Step) (step : Step) → step.pass ≡ pass → IsLeastPass from steps found
        → IsLeastPass from (steps ++ step ∷ []) result }
{
    if pass < from {
        return found;
    }
    let Some(least) = found else {
        return Some(pass);
    };
    if least <= pass {
        return Some(least);
    }
    Some(pass)
}

// The least pass of `steps` that isn't below `from`. `None` if there is none.
fn least_pass(steps: &[Step], from: u32) -> Option<u32>
    ensures { IsLeastPass from steps.now result }
{
    let mut found = None;
    for step in steps {
        found = lesser(from, found, step.pass);
    }
    found
}

/// Checks that the receipts of all callers are those of a site's steps: one list of receipts a pass, in the order of their numbers,
/// each with the receipts of the pass's steps at their positions, in order, and no other. A pass without a list counts as one
/// without receipts. Takes no memory. Errors, in order: 1 `Checkpointed`, exactly where steps were dropped; 2 `Differs`, with the
/// first pass whose list differs.
pub fn settle(journal: &Journaled, lists: &[Vec<Receipt>]) -> Result<(), SettleFault>
    requires few { length lists.now < 2 ^ 32 }
    ensures settled { OnOk result ((journal.now.start ≡ 0)
        × AreSettled journal.now.steps (map (λ list. list.items) lists.now)) }
    ensures fault { IfErr result (λ fault. IsUnsettled fault journal.now.start journal.now.steps
        (map (λ list. list.items) lists.now)) }
{
    if journal.start() != 0 {
        return Err(SettleFault::Checkpointed);
    }
    let steps = journal.steps();
    let mut pass = 0;
    for list in lists {
        if !is_list_of(steps, pass, list.as_slice()) {
            return Err(SettleFault::Differs(pass));
        }
        pass += 1;
    }
    match least_pass(steps, pass) {
        Some(pass) => Err(SettleFault::Differs(pass)),
        None => Ok(()),
    }
}

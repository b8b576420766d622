//! Traits between a desk and its callers, so that neither depends on the other: they carry receipts and frames.
ghost use Rattle.std.specs.Prelude.{◌≡◌, ◌≤◌, ◌+◌, IfErr, IfOk, MatchBool, None, Some, false, true};
ghost use Rattle.dots.specs.declared.limits.TheConstants.{MOST_COUNT};
ghost use Rattle.site_journal.specs.Receipts.{IsOfCut, IsOfTake, IsOfWhole};

use crate::{DeskFault, Receipt};
use dots::SharedBytes;

/// A desk's `cut`, `whole` and `take` for one pass. Each call returns its receipt, or a `DeskFault`; only after `Unsaved`, and
/// after `Memory` of a desk with a store, its step may have been done. Contracts see the fault of the last call.
pub trait Port<R> {
    ghost use Rattle.std.specs.Prelude.{ℕ, Option};
    ghost use Rattle.site_journal.specs.declared.desk_fault.DeskFault.{DeskFault};
    ghost use Rattle.site_journal.specs.declared.receipt.Receipt.{Receipt};

    /// The effect of a call that returns a receipt: from the port's state before, it leads with this receipt to the state after.
    ghost makes: { Self → Receipt → Self → Type 0 };

    /// The effect of a call that returns a fault: from the state before, it leads with this fault to the state after.
    ghost refuses: { Self → DeskFault → Self → Type 0 };

    /// The number of the pass, which stays.
    ghost ordinal: { Self → ℕ };

    /// How many steps the pass has done, without those of calls that returned a fault.
    ghost share: { Self → ℕ };

    /// The fault of the port's last call, if that had one.
    ghost fault: { Self → Option DeskFault };

    /// Puts the site's buffer into its next frame, and returns the receipt; for an empty buffer, that of a step without a frame.
    /// The errors are those of the desk.
    fn cut(&mut self, rt: &R) -> Result<Receipt, DeskFault>
        ensures made { IfOk result (λ receipt. makes self.old receipt self.new) }
        ensures refused { IfErr result (λ cause. refuses self.old cause self.new) }
        ensures ordinal { ordinal self.new ≡ ordinal self.old }
        ensures deed { IfOk result (λ receipt. IsOfCut receipt) }
        ensures pass { IfOk result (λ receipt. receipt.pass ≡ ordinal self.old) }
        ensures counted { IfOk result (λ receipt. share self.new ≡ share self.old + 1) }
        ensures well { IfOk result (λ receipt. fault self.new ≡ None) }
        ensures kept { IfErr result (λ cause. share self.new ≡ share self.old) }
        ensures recorded { IfErr result (λ cause. fault self.new ≡ Some cause) };

    /// Puts everything that the site knows into its next frame, and returns the receipt. The errors are those of the desk.
    fn whole(&mut self, rt: &R) -> Result<Receipt, DeskFault>
        ensures made { IfOk result (λ receipt. makes self.old receipt self.new) }
        ensures refused { IfErr result (λ cause. refuses self.old cause self.new) }
        ensures ordinal { ordinal self.new ≡ ordinal self.old }
        ensures deed { IfOk result (λ receipt. IsOfWhole receipt) }
        ensures pass { IfOk result (λ receipt. receipt.pass ≡ ordinal self.old) }
        ensures counted { IfOk result (λ receipt. share self.new ≡ share self.old + 1) }
        ensures well { IfOk result (λ receipt. fault self.new ≡ None) }
        ensures kept { IfErr result (λ cause. share self.new ≡ share self.old) }
        ensures recorded { IfErr result (λ cause. fault self.new ≡ Some cause) };

    /// Lets the site take the frame that the bytes encode, and returns the receipt. The errors are those of the desk, and each
    /// returns the bytes too.
    fn take(&mut self, rt: &R, bytes: SharedBytes) -> Result<Receipt, (DeskFault, SharedBytes)>
        ensures made { IfOk result (λ receipt. makes self.old receipt self.new) }
        ensures refused { IfErr result (λ refused. refuses self.old refused.0 self.new) }
        ensures ordinal { ordinal self.new ≡ ordinal self.old }
        ensures deed { IfOk result (λ receipt. IsOfTake bytes receipt) }
        ensures pass { IfOk result (λ receipt. receipt.pass ≡ ordinal self.old) }
        ensures counted { IfOk result (λ receipt. share self.new ≡ share self.old + 1) }
        ensures well { IfOk result (λ receipt. fault self.new ≡ None) }
        ensures back { IfErr result (λ refused. refused.1 ≡ bytes) }
        ensures kept { IfErr result (λ refused. share self.new ≡ share self.old) }
        ensures recorded { IfErr result (λ refused. fault self.new ≡ Some refused.0) };
}

/// Signals a pump to cut.
pub trait Bell<R> {
    ghost use Rattle.std.specs.Prelude.{ℕ, Bool};

    /// How often the bell rang: at most 2^40 times, as each wait ensures.
    ghost rings: { Self → ℕ };

    /// Whether the bell has ended; then it stays so.
    ghost ended: { Self → Bool };

    /// Waits for the next ring. `false`: the bell has ended.
    fn wait(&mut self, rt: &R) -> bool
        ensures rings { MatchBool result (rings self.new ≡ rings self.old + 1)
            (rings self.new ≡ rings self.old) }
        ensures first { result ≡ true → ended self.old ≡ false }
        ensures few { rings self.new ≤ MOST_COUNT }
        ensures goes_on { result ≡ true → ended self.new ≡ false }
        ensures ended { result ≡ false → ended self.new ≡ true };
}

ghost use Rattle.std.specs.Prelude.{◌≡◌, ◌≤◌, None};

use crate::{StepStore, StoredDesk, StoredLedger};
use dots::SharedBytes;
use site_desk::Pass;
use site_journal::{DeskFault, Port, Receipt};
use std::sync::Wait;

/// The port of a desk with a store for one pass: a frame of a cut or a whole that it returns is durable
/// (this project's own).
#[derive(Drop)]
pub struct StoredPort<'a, S: StepStore, L: StoredLedger> {
    desk: &'a StoredDesk<S, L>,
    pass: &'a mut Pass<L>,
    // The fault of the last call, if it had one.
    fault: Option<DeskFault>,
    // How many steps were done for which no receipt was returned.
    unanswered: u64,
    ghost seen: { unanswered ≤ pass.now.seen },
    ghost counted: { unanswered ≤ pass.now.share },
}

impl<'a, S: StepStore, L: StoredLedger> StoredPort<'a, S, L> {
    ghost use Rattle.stored_desk.specs.StoredPorts.{last_fault, lent_pass};

    /// The port of a desk for this pass. It takes no memory.
    pub fn new(desk: &'a StoredDesk<S, L>, pass: &'a mut Pass<L>) -> StoredPort<'a, S, L>
        ensures pass { lent_pass result ≡ pass.entry }
        ensures fault { last_fault result ≡ None }
    {
        StoredPort {
            desk,
            pass,
            fault: None,
            unanswered: 0,
        }
    }
}

impl<'a, S: StepStore, L: StoredLedger, R: Wait> Port<R> for StoredPort<'a, S, L> {
    ghost use Rattle.stored_desk.specs.Ports.{MakesByStoredPass, RefusesByStoredPass};
    ghost use Rattle.stored_desk.specs.StoredPorts.{answered_share, last_fault, lent_pass};

    ghost makes = { λ old receipt new.
        MakesByStoredPass L.base (lent_pass old) receipt (lent_pass new) };

    ghost refuses = { λ old cause new.
        RefusesByStoredPass L.base (lent_pass old) cause (lent_pass new) };

    ghost ordinal = { λ port. (lent_pass port).now.ordinal };

    ghost share = { answered_share };

    ghost fault = { last_fault };

    /// A cut, whose frame is durable. Errors as of `StoredDesk::cut`.
    fn cut(&mut self, rt: &R) -> Result<Receipt, DeskFault> {
        let desk = self.desk;
        let seen = self.pass.seen();
        match desk.cut(rt, self.pass) {
            Ok(settled) => {
                self.fault = None;
                Ok(settled.into_receipt())
            }
            Err(fault) => {
                if self.pass.seen() != seen {
                    self.unanswered += 1;
                }
                self.fault = Some(fault);
                Err(fault)
            }
        }
    }

    /// A frame of all that the site knows, which is durable. Errors as of `StoredDesk::whole`.
    fn whole(&mut self, rt: &R) -> Result<Receipt, DeskFault> {
        let desk = self.desk;
        let seen = self.pass.seen();
        match desk.whole(rt, self.pass) {
            Ok(settled) => {
                self.fault = None;
                Ok(settled.into_receipt())
            }
            Err(fault) => {
                if self.pass.seen() != seen {
                    self.unanswered += 1;
                }
                self.fault = Some(fault);
                Err(fault)
            }
        }
    }

    /// A take. Its step is saved with a later one, or by `settle_all` of the desk. Errors as of
    /// `StoredDesk::take`.
    fn take(&mut self, rt: &R, bytes: SharedBytes) -> Result<Receipt, (DeskFault, SharedBytes)> {
        let desk = self.desk;
        let seen = self.pass.seen();
        match desk.take(rt, self.pass, bytes) {
            Ok(receipt) => {
                self.fault = None;
                Ok(receipt)
            }
            Err((fault, bytes)) => {
                if self.pass.seen() != seen {
                    self.unanswered += 1;
                }
                self.fault = Some(fault);
                Err((fault, bytes))
            }
        }
    }
}

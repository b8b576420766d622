//! A desk as a place where deeds are done, by one pass.
use crate::gate::{CountingGate, TURN};
use crate::site::deed::{Deed, NoReceipt, Place, refused};
use site_desk::{Pass, SiteDesk, SiteLedger};
use site_journal::{DeskFault, Receipt};
use std::sync::Wait;

// A desk and a pass of it.
#[derive(Drop)]
pub(crate) struct DeskPlace<'a, L: SiteLedger> {
    desk: &'a SiteDesk<L>,
    pass: &'a mut Pass<L>,
}

impl<'a, L: SiteLedger> DeskPlace<'a, L> {
    pub(crate) fn new(desk: &'a SiteDesk<L>, pass: &'a mut Pass<L>) -> DeskPlace<'a, L> {
        DeskPlace { desk, pass }
    }
}

impl<'a, L: SiteLedger, R: Wait> Place<R> for DeskPlace<'a, L> {
    // The gate of a gated ask is to be called once.
    fn done(&mut self, rt: &R, deed: &Deed) -> Result<Receipt, NoReceipt> {
        let desk = self.desk;
        let pass = &mut *self.pass;
        let done = match deed {
            Deed::Ask(asked) => desk.call(rt, pass, asked),
            Deed::Gated(asked) => {
                let mut gate = CountingGate { calls: 0 };
                let done = desk.call_gated(rt, pass, asked, &mut gate, TURN);
                if gate.calls != 1 {
                    drop(done);
                    return Err(NoReceipt::Changed);
                }
                done
            }
            Deed::Cut => desk.cut(rt, pass),
            Deed::Whole => desk.whole(rt, pass),
            Deed::Take(bytes) => {
                let Ok(given) = bytes.copy() else {
                    return Err(NoReceipt::Refused(DeskFault::Memory));
                };
                match desk.take(rt, pass, given) {
                    Ok(receipt) => Ok(receipt),
                    Err((fault, back)) => return Err(refused(fault, back, bytes)),
                }
            }
            Deed::Checkpoint => {
                return match desk.checkpoint(rt) {
                    Ok(()) => Err(NoReceipt::Dropped),
                    Err(_) => Err(NoReceipt::Refused(DeskFault::Memory)),
                };
            }
            Deed::CheckpointAbove(bytes) => {
                return match desk.checkpoint_above(rt, *bytes) {
                    Ok(true) => Err(NoReceipt::Dropped),
                    Ok(false) => Err(NoReceipt::Stays),
                    Err(_) => Err(NoReceipt::Refused(DeskFault::Memory)),
                };
            }
        };
        match done {
            Ok(receipt) => Ok(receipt),
            Err(fault) => Err(NoReceipt::Refused(fault)),
        }
    }
}

//! A journal as a place where deeds are done.
use crate::site::deed::{Deed, NoReceipt, Place, refused};
use site_journal::{DeskFault, Journaled, Receipt};

// The number of the pass by which all steps are done.
const PASS: u32 = 0;

// Does a deed at a journal.
pub(crate) fn done_at(journal: &mut Journaled, deed: &Deed) -> Result<Receipt, NoReceipt> {
    let position = journal.len();
    let step = match deed {
        Deed::Ask(asked) => journal.call(PASS, asked),
        Deed::Cut => journal.cut(PASS),
        Deed::Whole => journal.whole(PASS),
        Deed::Take(bytes) => {
            let Ok(given) = bytes.copy() else {
                return Err(NoReceipt::Refused(DeskFault::Memory));
            };
            match journal.take(PASS, given) {
                Ok(step) => Ok(step),
                Err((fault, back)) => return Err(refused(fault, back, bytes)),
            }
        }
        Deed::Checkpoint => {
            return match journal.checkpoint() {
                Ok(dropped) => {
                    drop(dropped);
                    Err(NoReceipt::Dropped)
                }
                Err(_) => Err(NoReceipt::Refused(DeskFault::Memory)),
            };
        }
        Deed::Gated(_) | Deed::CheckpointAbove(_) => return Err(NoReceipt::Unknown),
    };
    match step {
        Ok(step) => Ok(Receipt {
            pass: step.pass,
            position,
            deed: step.deed,
        }),
        Err(fault) => Err(NoReceipt::Refused(fault)),
    }
}

impl<R> Place<R> for Journaled {
    // After a refusal the site is compared with a copy from before, and the numbers of the journal's steps and bytes with those from
    // before.
    fn done(&mut self, _rt: &R, deed: &Deed) -> Result<Receipt, NoReceipt> {
        let Ok(before) = self.replica().copy() else {
            return Err(NoReceipt::Refused(DeskFault::Memory));
        };
        let numbers = (self.len(), self.start(), self.payload_bytes());
        let done = done_at(self, deed);
        let site = self.replica();
        let is_same = numbers == (self.len(), self.start(), self.payload_bytes())
            && site.state().same(before.state())
            && site.pending().same(before.pending())
            && site.last() == before.last();
        drop(before);
        if is_same || !matches!(done, Err(NoReceipt::Refused(_))) {
            return done;
        }
        drop(done);
        Err(NoReceipt::Changed)
    }
}

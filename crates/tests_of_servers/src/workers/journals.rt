//! Journals that receipts don't settle, and that have no audit.
use crate::desks::journal;
use crate::shared::replica;
use site_worker::{AuditFault, Journaled, SettleFault, audit, settle};

#[test]
fn a_journal_without_its_receipts_its_steps_or_its_place_has_a_fault(rt: HostRuntime) {
    let alloc = rt.alloc();
    let first = journal(&rt, alloc);
    let second = Journaled::new(alloc, replica(&rt, alloc, 1), 2);
    let mut second = second.ok().expect(&rt, "memory");
    drop(second.cut(5).ok().expect(&rt, "a step"));
    assert!(rt; settle(&second, &[]) == Err(SettleFault::Differs(5)));
    assert!(rt; second.checkpoint().is_ok());
    assert!(rt; settle(&second, &[]) == Err(SettleFault::Checkpointed));
    // The journal of site 1 in the place of that of site 0. Its place is judged before its steps.
    let mut journals = Vec::new(alloc);
    journals.push(second).expect(&rt, "memory");
    let fault = audit(alloc, &journals).err();
    assert!(rt; fault == Some(AuditFault::WrongSites));
    journals.insert(0, first).expect(&rt, "memory");
    let fault = audit(alloc, &journals).err();
    assert!(rt; fault == Some(AuditFault::NotFresh(1)));
    drop(journals);
}

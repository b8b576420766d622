//! Deltas: members and totals that are joined together. The cases of `cases/deltas` show the results of joins.
use crate::shared::{FIRST, InterfaceText, SIP_1, SIP_2, put, totals_of};
use delta::{Delta, JoinFault};
use member_orset::MemberSet;
use std::alloc::Global;
use std::process::Abort;

// A delta of the first dot, live as this member, and of 3 calls that site 0 completed in queue 0.
fn delta_of(rt: &impl Abort, alloc: Global, by: InterfaceText) -> Delta {
    let mut members = MemberSet::new(alloc);
    put(rt, &mut members, FIRST, by, 5, 7);
    Delta::of(members, totals_of(rt, alloc, 0, 3))
}

#[test]
fn a_delta_is_absorbed_where_it_is_prepared(rt: HostRuntime) {
    let alloc = rt.alloc();
    let mut delta = Delta::empty(alloc);
    let other = delta_of(&rt, alloc, SIP_1);
    assert!(rt; delta.agrees(&other) && !delta.prepared(&other));
    assert!(rt; delta.prepare(&other).is_ok());
    assert!(rt; delta.is_empty());
    assert!(rt; delta.prepared(&other));
    delta.absorb(other);
    let conflicting = delta_of(&rt, alloc, SIP_2);
    assert!(rt; delta.prepare(&conflicting) == Err(JoinFault::Conflict));
    drop(conflicting);
    let (members, totals) = delta.into_parts();
    assert!(rt; members.cells() == 1);
    drop(members);
    assert!(rt; totals.sum(0).completed == 3);
    drop(totals);
}

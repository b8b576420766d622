//! Totals: how many calls each site has counted in each queue. The cases of `cases/deltas` show joins, and totals that are raised.
use crate::shared::{site, totals_of};
use site_totals::{CallTotals, Calls, TotalFault};

#[test]
fn totals_are_joined_and_raised_up_to_their_limit(rt: HostRuntime) {
    let mut totals = totals_of(&rt, rt.alloc(), 0, 3);
    let other = totals_of(&rt, rt.alloc(), 1, 4);
    assert!(rt; totals.join(&other).is_ok());
    drop(other);
    let first = site(&rt, 0);
    assert!(rt; totals.of(first, 0).completed == 3);
    assert!(rt; totals.sum(0).completed == 7 && totals.sum(1).completed == 0);
    let most = CallTotals {
        completed: 999_999_999,
        abandoned: 0,
    };
    assert!(rt; totals.reach(first, 0, most).is_ok());
    assert!(rt; totals.raise(first, 0, Calls::Completed) == Ok(1_000_000_000));
    let full = totals.raise(first, 0, Calls::Completed);
    assert!(rt; full == Err(TotalFault::TotalFull));
    assert!(rt; totals.raise(first, 0, Calls::Abandoned) == Ok(1));
    drop(totals);
}

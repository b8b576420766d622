//! Contexts: sets of dots, as runs. The cases of `cases/deltas` show joins of runs, also up to the last count.
ghost use Rattle.std.specs.Prelude.{◌≤◌};

use crate::shared::{DotParts, OTHER, dot, site};
use causal_context::{Context, ContextFault};
use std::alloc::Global;
use std::process::Abort;

// Adds a dot, for which there is room.
fn insert(rt: &impl Abort, context: &mut Context, numbers: DotParts) {
    assert!(*rt; context.insert(dot(rt, numbers)).is_ok());
}

// Every second count of site 0 from a first one on, `runs` of them: as many runs.
fn every_second(rt: &impl Abort, alloc: Global, first: u64, runs: u64) -> Context
    requires few { runs ≤ 65536 }
    requires start { first ≤ 2 }
{
    let mut context = Context::new(alloc);
    for k in 0..runs {
        insert(rt, &mut context, (0, first + 2 * k));
    }
    context
}

// Joins another context. Asserts what that gives, how many runs there are then, and the prefix of site 0.
fn assert_joined(
    rt: &impl Abort,
    context: &mut Context,
    other: &Context,
    given: Result<(), ContextFault>,
    runs: usize,
    prefix: u64,
) {
    assert!(*rt; context.join(other) == given);
    assert!(*rt; context.runs() == runs);
    assert!(*rt; context.prefix(site(rt, 0)) == prefix);
}

#[test]
fn a_join_of_one_run_too_many_is_refused(rt: HostRuntime) {
    let alloc = rt.alloc();
    let mut context = every_second(&rt, alloc, 1, 65_536);
    let mut other = Context::new(alloc);
    insert(&rt, &mut other, OTHER);
    let full = Err(ContextFault::RunsFull);
    assert_joined(&rt, &mut context, &other, full, 65_536, 1);
    assert!(rt; !context.prepared(&other));
    // One dot that two runs lack makes room for one run.
    insert(&rt, &mut context, (0, 2));
    assert_joined(&rt, &mut context, &other, Ok(()), 65_536, 3);
    drop(other);
    // The dots between all runs of site 0 join them to one.
    let between = every_second(&rt, alloc, 2, 65_535);
    assert_joined(&rt, &mut context, &between, Ok(()), 2, 131_071);
    drop(between);
    drop(context);
}

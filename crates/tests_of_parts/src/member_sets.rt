//! Sets of members: ids of live dots, limits at full size, and joins with ample memory or none. The cases of `cases/deltas` show what
//! asserts, kills, reads and joins give, and those of `cases/frames` sets that are built.
ghost use Rattle.std.specs.Prelude.{◌≤◌};

use crate::shared::{DotParts, FIRST, OTHER, SECOND, SIP_1, SIP_2, dot, kill, print, put};
use member_orset::{JoinFault, MemberSet};
use std::alloc::Global;
use std::io::Print;
use std::process::Abort;

// An id is that of one dot while the dot is live, also after a join, and is never given again.
#[test]
fn an_id_answers_while_its_dot_is_live(rt: HostRuntime) {
    let mut set = MemberSet::new(rt.alloc());
    put(&rt, &mut set, FIRST, SIP_1, 5, 7);
    let first = set.id(dot(&rt, FIRST)).expect(&rt, "an id");
    let mut other = MemberSet::new(rt.alloc());
    put(&rt, &mut other, FIRST, SIP_1, 6, 8);
    put(&rt, &mut other, OTHER, SIP_2, 5, 7);
    set.join(other).ok().expect(&rt, "sets that agree");
    assert!(rt; set.id(dot(&rt, FIRST)) == Some(first));
    assert!(rt; set.at(first).is_some());
    kill(&rt, &mut set, FIRST);
    put(&rt, &mut set, SECOND, SIP_2, 6, 8);
    assert!(rt; set.at(first).is_none());
    assert!(rt; set.id(dot(&rt, FIRST)).is_none());
    let second = set.id(dot(&rt, SECOND)).expect(&rt, "an id");
    assert!(rt; second != first);
    drop(set);
}

// More dots than there are places, each made live and dead before the next.
#[test]
fn places_are_used_again(rt: HostRuntime) {
    let mut set = MemberSet::new(rt.alloc());
    for count in 1..1_048_578 {
        put(&rt, &mut set, (0, count), SIP_1, 5, 7);
        kill(&rt, &mut set, (0, count));
    }
    assert!(rt; set.cells() == 0 && set.retired() == 0 && set.context().runs() == 1);
    drop(set);
}

// Makes every second dot of a site live or dead, from the count `first` on, `dots` in all.
fn put_dots(rt: &impl Abort, set: &mut MemberSet, site: u16, first: u64, dots: u64, is_live: bool)
    requires start { first ≤ 2 }
    requires few { dots ≤ 65536 }
{
    for index in 0..dots {
        let numbers = (site, 2 * index + first);
        if is_live {
            put(rt, set, numbers, SIP_2, 5, 7);
        } else {
            kill(rt, set, numbers);
        }
    }
}

// The dots seen below two given ones make as many runs as there may be. Of site 0 they are the given dot and a dead one, which are one run;
// of site 2 65,534 dead ones, each second one, and the given dot, which the set doesn't know.
#[test]
fn the_dots_seen_below_others_have_as_many_runs_as_there_may_be(rt: HostRuntime) {
    const THIRD: DotParts = (0, 3);
    const LAST: DotParts = (2, 131_070);
    let mut set = MemberSet::new(rt.alloc());
    put(&rt, &mut set, FIRST, SIP_2, 5, 7);
    kill(&rt, &mut set, SECOND);
    put(&rt, &mut set, THIRD, SIP_1, 9, 9);
    put_dots(&rt, &mut set, 2, 2, 65_534, false);
    let given = [dot(&rt, THIRD), dot(&rt, LAST)];
    let seen = set.seen_below(&given).expect(&rt, "room");
    drop(set);
    assert!(rt; seen.runs() == 65_536);
    assert!(rt; seen.contains(dot(&rt, SECOND)) && !seen.contains(dot(&rt, FIRST)));
    drop(seen);
}

// Joins a set, and returns whether there was memory for that. Where there was none, asserts that both sets are unchanged.
fn is_joined(
    rt: &impl Abort,
    set: &mut MemberSet,
    other: MemberSet,
    before: &MemberSet,
    other_before: &MemberSet,
) -> bool {
    match set.join(other) {
        Ok(()) => true,
        Err((fault, back)) => {
            assert!(*rt; fault == JoinFault::Memory);
            assert!(*rt; set.same(before));
            assert!(*rt; back.same(other_before));
            drop(back);
            false
        }
    }
}

// Joins a set, with ample memory or not, and prints how that ended.
fn join_if_it_can(rt: &(impl Abort + Print), set: &mut MemberSet, other: MemberSet) {
    let before = set.copy().expect(rt, "memory");
    let other_before = other.copy().expect(rt, "memory");
    print(rt, "ready");
    let is_joined = is_joined(rt, set, other, &before, &other_before);
    print(rt, if is_joined { "joined" } else { "refused" });
    drop(before);
    drop(other_before);
}

// A set of live dots of one site, and dead dots of another: each pair is a site and the number of its dots.
fn live_and_dead(rt: &impl Abort, alloc: Global, live: (u16, u64), dead: (u16, u64)) -> MemberSet
    requires live { live.1 ≤ 65536 }
    requires dead { dead.1 ≤ 65536 }
{
    let mut set = MemberSet::new(alloc);
    put_dots(rt, &mut set, live.0, 1, live.1, true);
    put_dots(rt, &mut set, dead.0, 1, dead.1, false);
    set
}

// Joins 40 live dots into an empty set. tools/memory_tests.py runs this test with each allocation refused in turn, and the next one.
#[test]
fn a_first_join_without_memory_leaves_both_sets(rt: HostRuntime) {
    let mut empty = MemberSet::new(rt.alloc());
    let forty = live_and_dead(&rt, rt.alloc(), (1, 40), (2, 20));
    join_if_it_can(&rt, &mut empty, forty);
    drop(empty);
}

// Joins 100 live dots into a set of 10, of which 5 are dead then.
#[test]
fn a_join_without_memory_leaves_both_sets(rt: HostRuntime) {
    let mut ten = live_and_dead(&rt, rt.alloc(), (0, 10), (2, 10));
    let hundred = live_and_dead(&rt, rt.alloc(), (1, 100), (0, 5));
    join_if_it_can(&rt, &mut ten, hundred);
    drop(ten);
}

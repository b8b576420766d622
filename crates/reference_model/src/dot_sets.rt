// The number of visible dots, and of runs of known ones, with those that one more operation asserts and names.
ghost use Rattle.std.specs.Prelude.{◌≡◌, ◌||◌, ◌&&◌, ◌+◌, not, count_by, map as each, IfOk, OnOk};
ghost use Rattle.std.specs.FinSet as set;
ghost use Rattle.std.specs.List.{list_any};
ghost use Rattle.std.specs.List.Sorted.{IsStrictlySortedBy};
ghost use Rattle.dots.specs.DotSets.{run_count};
ghost use Rattle.dots.specs.Values.{Dot};
ghost use Rattle.operations.specs.Knowledge.{is_dot, is_asserted, is_named};
ghost use Rattle.dots.specs.Orders.{dot_cmp};
ghost use Rattle.reference_model.specs.NextDots.{goes_on};
ghost use Rattle.reference_model.specs.Plain.{knowledge_of};

use crate::Operation;
use crate::dots_seen::{asserted_dots, insert_each, named_dots};
use crate::plain_dot::PlainDot;
use dots::{Dot, Memory};
use std::alloc::Global;
use std::collections::BTreeSet;

// The dots of a set, in order.
fn listed(alloc: Global, dots: &BTreeSet<Dot>) -> Result<Vec<Dot>, Memory>
    ensures { IfOk result (λ listed. listed.items ≡ dots.now.keys) }
{
    dots.iter().copied().collect(alloc)
}

// Dots as plain ones, in the order of the list.
fn plain_dots(alloc: Global, dots: &[Dot]) -> Result<Vec<PlainDot>, Memory>
    ensures { IfOk result (λ plain. plain.items ≡ each (λ d. d) dots.now) }
{
    dots.iter().map(|dot| PlainDot::of(*dot)).collect(alloc)
}

// Adds plain dots to a set.
fn insert_plain(found: &mut BTreeSet<PlainDot>, dots: &[PlainDot]) -> Result<(), Memory>
    ensures { OnOk result ((dot : Dot) → list_any (is_dot dot) found.new.keys
        ≡ (list_any (is_dot dot) found.old.keys || list_any (is_dot dot) dots.now)) }
{
    for dot in dots {
        found.insert(*dot)?;
    }
    Ok(())
}

// The dots of a set and these more, as plain ones.
fn set_with(
    alloc: Global,
    dots: &BTreeSet<Dot>,
    more: &[PlainDot],
) -> Result<BTreeSet<PlainDot>, Memory>
    ensures { IfOk result (λ found. (dot : Dot) → list_any (is_dot dot) found.keys
        ≡ (list_any (is_dot dot) dots.now.keys || list_any (is_dot dot) more.now)) }
{
    let listed = listed(alloc, dots)?;
    let plain = plain_dots(alloc, &listed)?;
    let mut found = BTreeSet::new(alloc);
    insert_plain(&mut found, &plain)?;
    insert_plain(&mut found, more)?;
    Ok(found)
}

// The dots that some operation asserts, and these more.
fn asserted_with(
    alloc: Global,
    operations: &[Operation],
    asserted: &[PlainDot],
) -> Result<BTreeSet<PlainDot>, Memory>
    ensures { IfOk result (λ found. (dot : Dot) → list_any (is_dot dot) found.keys
        ≡ (is_asserted (knowledge_of operations.now) dot || list_any (is_dot dot) asserted.now)) }
{
    let found = asserted_dots(alloc, operations)?;
    set_with(alloc, &found, asserted)
}

// The dots that some operation names, and these more.
fn named_with(
    alloc: Global,
    operations: &[Operation],
    named: &[Dot],
) -> Result<BTreeSet<PlainDot>, Memory>
    ensures { IfOk result (λ found. (dot : Dot) → list_any (is_dot dot) found.keys
        ≡ (is_named (knowledge_of operations.now) dot || list_any (is_dot dot) named.now)) }
{
    let mut found = named_dots(alloc, operations)?;
    insert_each(&mut found, named)?;
    set_with(alloc, &found, &[])
}

// How many dots of the first set aren't in the second.
fn count_missing(first: &BTreeSet<PlainDot>, second: &BTreeSet<PlainDot>) -> usize
    ensures value { result
        ≡ count_by (λ dot. not (list_any (is_dot dot) second.now.keys)) first.now.keys }
    ensures ordered { IsStrictlySortedBy dot_cmp first.now.keys }
{
    first.iter().filter(|dot| !second.contains(*dot)).count()
}

// The dots of a set, in order.
fn in_vec(alloc: Global, found: &BTreeSet<PlainDot>) -> Result<Vec<PlainDot>, Memory>
    ensures value { IfOk result (λ dots. dots.items ≡ found.now.keys) }
    ensures ordered { IsStrictlySortedBy dot_cmp found.now.keys }
{
    found.iter().copied().collect(alloc)
}

// Whether the first of `dots` follows `dot`: it is of the same site, with the next count.
fn goes_on(dot: PlainDot, dots: &[PlainDot]) -> bool
    ensures { result ≡ goes_on dot dots.now }
{
    match dots.first() {
        Some(next) => dot.is_before(*next),
        None => false,
    }
}

// How many runs dots in order have: one for each dot that isn't followed by the one of the next count.
fn count_ends(dots: &[PlainDot]) -> usize
    requires { IsStrictlySortedBy dot_cmp dots.now }
    ensures { result ≡ run_count (set.from_list dots.now) }
{
    let mut runs = 0;
    for (place, dot) in dots.iter().enumerate() {
        if !goes_on(*dot, &dots[place + 1..]) {
            runs += 1;
        }
    }
    runs
}

// How many dots are visible, and how many runs the known ones have, where these dots are asserted and those named too.
pub(crate) fn dots_and_runs(
    alloc: Global,
    operations: &[Operation],
    asserted: &[PlainDot],
    named: &[Dot],
) -> Result<(usize, usize), Memory>
    ensures dots { IfOk result (λ counts. (s : set.FinSet dot_cmp)
        → ((dot : Dot) → set.contains s dot
        ≡ ((is_asserted (knowledge_of operations.now) dot || list_any (is_dot dot) asserted.now)
        && not (is_named (knowledge_of operations.now) dot || list_any (is_dot dot) named.now)))
        → counts.0 ≡ set.len s) }
    ensures runs { IfOk result (λ counts. (s : set.FinSet dot_cmp)
        → ((dot : Dot) → set.contains s dot
        ≡ ((is_asserted (knowledge_of operations.now) dot || list_any (is_dot dot) asserted.now)
        || (is_named (knowledge_of operations.now) dot || list_any (is_dot dot) named.now)))
        → counts.1 ≡ run_count s) }
{
    let mut known = asserted_with(alloc, operations, asserted)?;
    let dead = named_with(alloc, operations, named)?;
    let visible = count_missing(&known, &dead);
    let dead = in_vec(alloc, &dead)?;
    insert_plain(&mut known, &dead)?;
    let known = in_vec(alloc, &known)?;
    Ok((visible, count_ends(&known)))
}

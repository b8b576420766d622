// The counts and times that a site has used, and the dots that are older than others.
ghost use Rattle.std.specs.Prelude.{◌≡◌, ◌≤◌, ℕ, filter, IfOk};
ghost use Rattle.std.specs.FinSet as set;
ghost use Rattle.dots.specs.DotSets.{is_older};
ghost use Rattle.replica.specs.SiteViews.{count_used, greatest, older_dots, site_view, time_used};
ghost use Rattle.reference_model.specs.Plain.{knowledge_of};

use crate::Operation;
use crate::dots_seen::named_dots;
use crate::plain_dot::PlainDot;
use dots::{Dot, MOST_COUNT, Memory, SiteId};
use replica::laws::older_dots_are_named;
use std::alloc::Global;
use std::collections::BTreeSet;

// The greatest count that a site has used for one of these operations; 0 where it has used none.
pub(crate) fn last_count(operations: &[Operation], site: SiteId) -> u64
    ensures value { result ≡ greatest (count_used site) (knowledge_of operations.now) }
    ensures limit { result ≤ MOST_COUNT }
{
    let mut last = 0;
    for operation in operations {
        last = operation.count_used(site).max(last);
    }
    last
}

// The greatest time that a site has used for one of these operations; 0 where it has used none.
pub(crate) fn last_time(operations: &[Operation], site: SiteId) -> u64
    ensures value { result ≡ greatest (time_used site) (knowledge_of operations.now) }
    ensures limit { result ≤ MOST_COUNT }
{
    let mut last = 0;
    for operation in operations {
        last = operation.time_used(site).max(last);
    }
    last
}

// Whether `dot` is of the site of one of `dots` and has a lesser count.
fn is_older(dots: &[PlainDot], dot: Dot) -> bool
    ensures { result ≡ is_older dots.now dot }
{
    dots.iter().any(|newer| newer.is_after(dot))
}

// Of the set `named` the dots that are older than one of `dots`: of its site, with a lesser count.
fn older_among(alloc: Global, named: &BTreeSet<Dot>, dots: &[PlainDot]) -> Result<Vec<Dot>, Memory>
    ensures { IfOk result (λ older. older.items ≡ filter (is_older dots.now) named.now.keys) }
{
    named
        .iter()
        .copied()
        .filter(|dot| is_older(dots, *dot))
        .collect(alloc)
}

// The dead dots that are older than one of `dots`: of its site, with a lesser count.
pub(crate) fn older_dots(
    alloc: Global,
    operations: &[Operation],
    dots: &[PlainDot],
) -> Result<Vec<Dot>, Memory>
    ensures { IfOk result
        (λ older. (site : ℕ)
        → set.from_list older.items
        ≡ older_dots (site_view site (knowledge_of operations.now)) dots.now) }
{
    older_dots_are_named();
    let named = named_dots(alloc, operations)?;
    older_among(alloc, &named, dots)
}

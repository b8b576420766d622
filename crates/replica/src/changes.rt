//! The changes of single operations, each made from what its site has seen.
ghost use Rattle.std.specs.Prelude.{◌≡◌, ◌≢◌, ◌↔◌, ◌<◌, ◌≤◌, [], ◌∷◌};
ghost use Rattle.std.specs.Prelude.{Err, IfOk, OnOk, length, true};
ghost use Rattle.std.specs.List.{All, list_any};
ghost use Rattle.std.specs.FinMap as map;
ghost use Rattle.std.specs.FinSet as set;
ghost use Rattle.dots.specs.Values.{Dot};
ghost use Rattle.dots.specs.DotSets.{run_count};
ghost use Rattle.operations.specs.Knowledge.{is_dot};
ghost use Rattle.operations.specs.Totals.{join_of, single};
ghost use Rattle.member_orset.specs.Members.{HasField};
ghost use Rattle.member_orset.specs.Reads.{dots_seen_below};
ghost use Rattle.site_totals.specs.Raising.{alone};
ghost use Rattle.replica.specs.DotLists.{DotsRise};
ghost use Rattle.replica.specs.Writing.{HasParts, none_held, one_held, written_to};

use causal_context::{Context, ContextFault};
use delta::Delta;
use dots::{
    CallTotals, Calls, Dot, MOST_CALLS, MOST_LIVE, MOST_RUNS, Member, Memory, QUEUES, SiteId,
};
use lww_registers::Fields;
use member_orset::{MemberSet, SetBuilder};
use site_totals::Totals;
use std::alloc::Global;

// The change with a builder's dots. It counts no calls.
fn of_members(alloc: Global, builder: SetBuilder) -> Delta
    ensures { HasParts result builder.known (map.get builder.live) map.empty }
{
    Delta::of(builder.finish(), Totals::new(alloc))
}

// The change of an add: the dot is live with this member and these fields, of which one is set; the dead dots of its site
// with lesser counts are known with it. Errors: `RunsFull`, exactly where these make more than 65,536 runs; `Memory`.
pub(crate) fn added(
    alloc: Global,
    members: &MemberSet,
    dot: Dot,
    member: Member,
    fields: Fields,
) -> Result<Delta, ContextFault>
    requires { HasField fields }
    ensures parts { IfOk result (λ change. HasParts change
        (dots_seen_below members.now (dot ∷ []))
        (one_held dot (member, fields)) map.empty) }
    ensures full { (result ≡ Err ContextFault.RunsFull)
        ↔ (MOST_RUNS < run_count (dots_seen_below members.now (dot ∷ []))) }
{
    let seen = match members.seen_below(&[dot]) {
        Ok(seen) => seen,
        Err(fault) => return Err(fault),
    };
    let mut builder = SetBuilder::new(alloc, seen);
    if builder.put(dot, member, fields).is_err() {
        return Err(ContextFault::Memory);
    }
    Ok(of_members(alloc, builder))
}

// Adds a cell for each of these dots to a builder in which no dot is live: live with the member that it has in a set, and
// with these fields, of which one is set. The dots are sorted, live in the set and known to the builder. Fails only when
// out of memory; then some may have been added.
fn write_all(
    builder: &mut SetBuilder,
    members: &MemberSet,
    dots: &[Dot],
    fields: &Fields,
) -> Result<(), Memory>
    requires field { HasField fields.now }
    requires empty { builder.old.live ≡ map.empty }
    requires rise { DotsRise dots.now }
    requires live { All (λ dot. map.contains_key members.now.live dot ≡ true) dots.now }
    requires known { (q : Dot) → list_any (is_dot q) dots.now ≡ true
        → set.contains builder.old.known q ≡ true }
    ensures known { builder.new.known ≡ builder.old.known }
    ensures live { OnOk result ((q : Dot)
        → map.get builder.new.live q ≡ written_to members.now dots.now fields.now q) }
{
    for dot in dots {
        if let Some(cell) = members.live(*dot) {
            builder.cell(*dot, cell.member, fields)?;
        }
    }
    Ok(())
}

// The change of a write on sorted live dots: they are live with these fields alone, of which one is set; the dead dots of
// their sites with lesser counts than one of them are known with them. Errors: `RunsFull`, exactly where these make more
// than 65,536 runs; `Memory`.
pub(crate) fn written(
    alloc: Global,
    members: &MemberSet,
    dots: &[Dot],
    fields: &Fields,
) -> Result<Delta, ContextFault>
    requires field { HasField fields.now }
    requires rise { DotsRise dots.now }
    requires live { All (λ dot. map.contains_key members.now.live dot ≡ true) dots.now }
    ensures parts { IfOk result (λ change. HasParts change
        (dots_seen_below members.now dots.now)
        (written_to members.now dots.now fields.now) map.empty) }
    ensures full { (result ≡ Err ContextFault.RunsFull)
        ↔ (MOST_RUNS < run_count (dots_seen_below members.now dots.now)) }
{
    let seen = match members.seen_below(dots) {
        Ok(seen) => seen,
        Err(fault) => return Err(fault),
    };
    let mut builder = SetBuilder::new(alloc, seen);
    if write_all(&mut builder, members, dots, fields).is_err() {
        return Err(ContextFault::Memory);
    }
    Ok(of_members(alloc, builder))
}

// The set of these dots, at most 16,384. Fails only when out of memory.
fn context_of(alloc: Global, dots: &[Dot]) -> Result<Context, ContextFault>
    requires { length dots.now ≤ MOST_LIVE }
    ensures ok { IfOk result (λ context. context.dots ≡ set.from_list dots.now) }
    ensures full { result ≢ Err ContextFault.RunsFull }
{
    let mut context = Context::new(alloc);
    for dot in dots {
        if let Err(fault) = context.insert(*dot) {
            return Err(fault);
        }
    }
    Ok(context)
}

// The change of a remove: these dots are dead. Fails only when out of memory.
pub(crate) fn removed(alloc: Global, dots: &[Dot]) -> Result<Delta, ContextFault>
    requires { length dots.now ≤ MOST_LIVE }
    ensures parts { IfOk result (λ change. HasParts change (set.from_list dots.now)
        none_held map.empty) }
    ensures full { result ≢ Err ContextFault.RunsFull }
{
    let context = match context_of(alloc, dots) {
        Ok(context) => context,
        Err(fault) => return Err(fault),
    };
    Ok(of_members(alloc, SetBuilder::new(alloc, context)))
}

// A total of these calls, and 0 of the others.
fn calls_alone(calls: Calls, total: u64) -> CallTotals
    ensures { result ≡ alone calls total }
{
    match calls {
        Calls::Completed => CallTotals {
            completed: total,
            abandoned: 0,
        },
        Calls::Abandoned => CallTotals {
            completed: 0,
            abandoned: total,
        },
    }
}

// The change of a count: the site has now counted `total` of these calls in the queue. Fails only when out of memory.
pub(crate) fn counted(
    alloc: Global,
    site: SiteId,
    queue: u16,
    calls: Calls,
    total: u64,
) -> Result<Delta, Memory>
    requires queue { queue < QUEUES }
    requires some { 1 ≤ total }
    requires few { total ≤ MOST_CALLS }
    ensures { IfOk result (λ change. HasParts change set.empty none_held
        (join_of map.empty (single (record { site = site; queue = queue }) (alone calls total)))) }
{
    let mut totals = Totals::new(alloc);
    totals.reach(site, queue, calls_alone(calls, total))?;
    Ok(Delta::of(MemberSet::new(alloc), totals))
}

//! The join of the live dots of two sets: a dot that is live here and dead there is removed, and a dot that is live there is
//! added.
ghost use Rattle.std.specs.Prelude.{◌≡◌, ◌≢◌, ◌↔◌, ◌+◌, ◌<◌, ◌≤◌, Err, IsOk, IsSome, OnOk, length, not};
ghost use Rattle.std.specs.Prelude.{true, false};
ghost use Rattle.std.specs.List.{All, count_by};
ghost use Rattle.std.specs.FinMap as map;
ghost use Rattle.std.specs.FinSet as set;
ghost use Rattle.dots.specs.Values.{Dot};
ghost use Rattle.dots.specs.DotSets.{run_count};
ghost use Rattle.causal_context.specs.Contexts.{IsPrepared};
ghost use Rattle.live_cells.specs.LiveLists.{holding};
ghost use Rattle.live_cells.specs.LiveStates.{IsThinned, dead_there};
ghost use Rattle.member_orset.specs.Joining.{AreNewLeft, EntriesAgree, HoldingsAgree, IsJoinedWith};
ghost use Rattle.member_orset.specs.Joining.{IsNextDead, IsTakenIn, dead_in_run};

use crate::JoinFault;
use causal_context::{Context, ContextFault, Run};
use dots::{Dot, MOST_RUNS};
use live_cells::{Cursor, LAST_GENERATION, LiveCells, LiveDot, Placed, PlacedDots};

// Up to this number of dots are added, or removed, one by one: to search a place for each and to move its neighbours then takes
// less than to walk all.
const FEW: usize = 8;

// How many live dots aren't known.
pub(crate) fn count_unknown(known: &Context, dots: &[Placed]) -> usize
    ensures value { result ≡ count_by (λ p. not (set.contains known.now.dots p.dot)) dots.now }
    ensures few { result ≤ length dots.now }
{
    let mut count = 0;
    for placed in dots {
        if !known.contains(placed.dot) {
            count += 1;
        }
    }
    count
}

// How many dots aren't live there.
fn count_missing(dots: &[Placed], there: &mut Cursor<'_>) -> usize
    ensures value { result ≡ count_by (λ p. not (map.contains_key there.old p.dot)) dots.now }
    ensures few { result ≤ length dots.now }
    ensures same { there.new ≡ there.old }
{
    let mut count = 0;
    for placed in dots {
        if there.get(placed.dot).is_none() {
            count += 1;
        }
    }
    count
}

// The number of live dots that stay live in a join: all but those that are known there and not live there.
pub(crate) fn count_kept(
    dots: PlacedDots<'_>,
    known_there: &Context,
    there: &LiveCells<LAST_GENERATION>,
) -> usize
    ensures { result
        ≡ count_by (λ p. not (dead_there known_there.now.dots there.now.live p.dot))
        dots.entry.list.now }
{
    let runs = known_there.as_slice();
    let mut live = there.cursor();
    let mut left = dots.list.len();
    for run in runs {
        left -= count_missing(dots.dots_in(*run), &mut live);
    }
    left
}

// The first dot of a run, from a count on, that is live here and not there, if there is one.
fn next_dead(
    cells: &LiveCells<LAST_GENERATION>,
    run: Run,
    first: u64,
    there: &LiveCells<LAST_GENERATION>,
) -> Option<Dot>
    requires { run.first ≤ first }
    ensures { IsNextDead run there.now.live first cells.now.live result }
{
    let (site, last) = (run.site, run.last);
    let mut from = first;
    while from <= last {
        let rest = Run {
            site,
            first: from,
            last,
        };
        let dot = cells.placed().next_in(rest)?;
        if there.get(dot).is_none() {
            return Some(dot);
        }
        from = dot.count() + 1;
    }
    None
}

// Removes the live dots of a run that aren't live there.
fn drop_dead_in(
    cells: &mut LiveCells<LAST_GENERATION>,
    run: Run,
    there: &LiveCells<LAST_GENERATION>,
)
    ensures { IsThinned (dead_in_run run there.now.live) cells.old cells.new }
{
    let _ = cells.len(); // so that it is known what holds of them
    let mut first = run.first;
    while let Some(dot) = next_dead(cells, run, first, there) {
        cells.remove(dot);
        first = dot.count() + 1;
    }
}

// Removes the live dots of a context that aren't live there, one by one.
fn drop_each(
    cells: &mut LiveCells<LAST_GENERATION>,
    context: &Context,
    there: &LiveCells<LAST_GENERATION>,
)
    ensures { IsThinned (dead_there context.now.dots there.now.live) cells.old cells.new }
{
    let runs = context.as_slice();
    for run in runs {
        drop_dead_in(cells, *run, there);
    }
}

// Removes the live dots of a context that aren't live there. If more than a few live dots are of its runs, all live dots are
// walked; otherwise each removed dot is searched for, and ids are moved for it.
pub(crate) fn drop_dead(
    cells: &mut LiveCells<LAST_GENERATION>,
    context: &Context,
    there: &LiveCells<LAST_GENERATION>,
)
    ensures { IsThinned (dead_there context.now.dots there.now.live) cells.old cells.new }
{
    let dots = cells.placed();
    let outside = dots.count_outside(context);
    if dots.list.len() <= outside + FEW {
        drop_each(cells, context, there);
    } else {
        cells.thin(context, there);
    }
}

// Joins a cell of the other side that agrees with the one here: its dot is joined if it is live here too, stays dead if it is dead
// here, and becomes live, in room that is there, if it is unknown here.
fn take_in(known: &Context, cells: &mut LiveCells<LAST_GENERATION>, cell: LiveDot)
    requires agree { HoldingsAgree (map.get cells.old.live cell.dot) (holding cell) }
    requires room { map.len cells.old.live + 1 ≤ cells.old.room }
    ensures { IsTakenIn (set.contains known.now.dots) cells.old cell cells.new }
{
    let dot = cell.dot;
    if cells.get(dot).is_some() {
        cells.join_fields(0, dot, &cell.fields);
        return;
    }
    if !known.contains(dot) {
        cells.insert(cell);
    }
}

// Joins all cells of the other side, which agree with those here, one by one, in room that is there. Takes no memory.
fn take_each(
    known: &Context,
    cells: &mut LiveCells<LAST_GENERATION>,
    others: LiveCells<LAST_GENERATION>,
)
    requires agree { EntriesAgree cells.old.live (map.entries others.live) }
    requires room { map.len cells.old.live + map.len others.live ≤ cells.old.room }
    ensures { IsJoinedWith (set.contains known.now.dots) cells.old others.live cells.new }
{
    let mut left = others.into_cells();
    while let Some(cell) = left.take_first() {
        take_in(known, cells, cell);
    }
}

// Whether none of the dots is known. No contract says what follows if it is false.
fn are_unknown(known: &Context, dots: &[Placed]) -> bool
    ensures { result ≡ true → All (λ p. set.contains known.now.dots p.dot ≡ false) dots.now }
{
    for placed in dots {
        if known.contains(placed.dot) {
            return false;
        }
    }
    true
}

// Whether each of the dots is known. No contract says what follows if it is false.
fn are_known(known: &Context, dots: &[Placed]) -> bool
    ensures { result ≡ true → All (λ p. set.contains known.now.dots p.dot ≡ true) dots.now }
{
    for placed in dots {
        if !known.contains(placed.dot) {
            return false;
        }
    }
    true
}

// Joins the fields of each dot that is live on both sides; they agree. The room for all stays unused. Walks the dots of the other
// side once, in order; each is first looked for here right after the last one.
fn join_live(cells: &mut LiveCells<LAST_GENERATION>, others: &LiveCells<LAST_GENERATION>)
    requires agree { EntriesAgree cells.old.live (map.entries others.now.live) }
    requires room { map.len cells.old.live + map.len others.now.live ≤ cells.old.room }
    ensures met { IsJoinedWith (λ dot. true) cells.old others.now.live cells.new }
    ensures few { map.len cells.new.live ≤ map.len cells.old.live }
    ensures room { cells.old.room ≤ cells.new.room }
{
    let mut guess = 0;
    for (dot, cell) in others.iter() {
        guess = cells.join_fields(guess, dot, cell.fields);
    }
}

// Joins the cells of the other side whose dots are known, so that only those with unknown dots are left there. Both sides agree,
// and each dot that is live here is known.
fn take_known(
    known: &Context,
    cells: &mut LiveCells<LAST_GENERATION>,
    others: &mut LiveCells<LAST_GENERATION>,
)
    requires agree { EntriesAgree cells.old.live (map.entries others.old.live) }
    requires room { map.len cells.old.live + map.len others.old.live ≤ cells.old.room }
    requires heard { (q : Dot) → IsSome (map.get cells.old.live q)
        → set.contains known.now.dots q ≡ true }
    ensures { AreNewLeft (set.contains known.now.dots) cells.old others.old.live cells.new
        others.new.live }
{
    if are_unknown(known, others.placed().list) {
        return;
    }
    join_live(cells, others);
    let none = LiveCells::new(cells.allocator());
    if are_known(known, others.placed().list) {
        *others = none; // all cells are dropped at once
    } else {
        others.thin(known, &none);
    }
}

// Joins all cells of the other side, in room that is there. Both sides agree, and each dot that is live here is known. Moves the
// new cells, and takes no memory. If there are more than a few, the known ones are joined in order, and the lists of ids are
// merged once for the new ones; otherwise each is searched for, and ids are moved for each new one.
pub(crate) fn take_all(
    known: &Context,
    cells: &mut LiveCells<LAST_GENERATION>,
    mut others: LiveCells<LAST_GENERATION>,
)
    requires agree { EntriesAgree cells.old.live (map.entries others.live) }
    requires room { map.len cells.old.live + map.len others.live ≤ cells.old.room }
    requires heard { (q : Dot) → IsSome (map.get cells.old.live q)
        → set.contains known.now.dots q ≡ true }
    ensures { IsJoinedWith (set.contains known.now.dots) cells.old others.live cells.new }
{
    if others.len() <= FEW {
        take_each(known, cells, others);
    } else {
        take_known(known, cells, &mut others);
        cells.append(others);
    }
}

// Makes room for the runs of another context, and for `more` more live dots. Nothing else changes. Errors, in order: 1 `RunsFull`,
// exactly where the dots of both contexts make more than 65,536 runs; 2 `Memory`, also if no places are left for the cells, and
// never if there is room for both.
pub(crate) fn make_room(
    context: &mut Context,
    cells: &mut LiveCells<LAST_GENERATION>,
    other: &Context,
    more: usize,
) -> Result<(), JoinFault>
    ensures room { OnOk result (map.len cells.new.live + more ≤ cells.new.room) }
    ensures runs { OnOk result (IsPrepared context.new other.now.dots) }
    ensures full { (result ≡ Err JoinFault.RunsFull)
        ↔ (MOST_RUNS < run_count (set.union context.old.dots other.now.dots)) }
    ensures agrees { result ≢ Err JoinFault.Conflict }
    ensures has_place { result ≢ Err JoinFault.CellsFull }
    ensures again { IsPrepared context.old other.now.dots
        → map.len cells.old.live + more ≤ cells.old.room
        → IsOk result }
    ensures same_live { cells.new.live ≡ cells.old.live }
    ensures same_ids { cells.new.ids ≡ cells.old.ids }
    ensures same_spent { cells.new.spent ≡ cells.old.spent }
    ensures same_dots { context.new.dots ≡ context.old.dots }
    ensures cell_room { cells.old.room ≤ cells.new.room }
    ensures run_room { context.old.room ≤ context.new.room }
{
    match context.prepare(other) {
        Ok(()) => {}
        Err(ContextFault::RunsFull) => return Err(JoinFault::RunsFull),
        Err(ContextFault::Memory) => return Err(JoinFault::Memory),
    }
    match cells.reserve(more) {
        Ok(()) => Ok(()),
        Err(_) => Err(JoinFault::Memory),
    }
}

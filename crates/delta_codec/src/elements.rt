//! Reads the runs, the cells and the totals of a frame from the front of bytes, each stored when it is read. A function returns
//! the first fault of what it reads, or `Memory`. No contract says how far the reader is after that.
ghost use Rattle.std.specs.Prelude.{◌≡◌, ◌↔◌, ◌≤◌, ◌<◌, IfErr, IfOk, IsSome, IsTrue, None, OnOk};
ghost use Rattle.std.specs.Prelude.{true};
ghost use Rattle.std.specs.declared.cmp.Ordering.TheVariants.{Less};
ghost use Rattle.std.specs.FinMap as map;
ghost use Rattle.std.specs.FinSet as set;
ghost use Rattle.dots.specs.declared.limits.TheConstants.{MOST_CALLS, MOST_LIVE, MOST_RUNS, QUEUES};
ghost use Rattle.dots.specs.DotSets.{is_apart, run_count};
ghost use Rattle.dots.specs.Orders.{dot_cmp};
ghost use Rattle.dots.specs.Values.{Dot};
ghost use Rattle.causal_context.specs.Contexts.{IsRunWithinLimits};
ghost use Rattle.member_orset.specs.Members.{HasField};
ghost use Rattle.delta_codec.specs.Elements.{IsBehind, kept_cell, total_read};
ghost use Rattle.delta_codec.specs.Reading.{ReturnsRead, GivesWithMemory, run_at, dot_at, place_at};
ghost use Rattle.delta_codec.specs.Reading.{cell_at, total_at, next_at, elements_at, runs_at};
ghost use Rattle.delta_codec.specs.Reading.{cells_at, totals_at, made, order_fault, is_dot_before};
ghost use Rattle.delta_codec.specs.Reading.{dot_fault};
ghost use Rattle.delta_codec.specs.Reading.{run_elements, cell_elements, total_elements, known_of};
ghost use Rattle.delta_codec.specs.Reading.{live_of, totals_of, with_run, with_cell, with_total};

use crate::fields::{read_field, read_interface};
use crate::numbers::{
    read_calls, read_count, read_flags, read_last, read_queue, read_site, read_size,
};
use crate::reader::Reader;
use crate::{DecodeFault, MOST_TOTALS};
use causal_context::{Context, ContextFault, Run};
use dots::{CallTotals, Dot, MOST_LIVE, MOST_RUNS, Member};
use lww_registers::Fields;
use member_orset::{MemberSet, SetBuilder};
use site_totals::{TotalKey, Totals};
use std::alloc::Global;

// A total that was read: its site and queue, and their calls.
#[derive(Drop)]
pub(crate) struct TotalRead {
    key: TotalKey,
    totals: CallTotals,
}

// ---- runs

// Reads a run. `BadRange` if bytes are missing, or its site or a count is out of its limits.
#[tactic(auto, unfolding(crate::specs::Reading::run_at))]
fn read_run(reader: &mut Reader<'_>) -> Result<Run, DecodeFault>
    ensures value { ReturnsRead (λ x. (x, reader.new)) result (run_at reader.old) }
    ensures within { IfOk result (λ x. IsRunWithinLimits x) }
{
    let site = read_site(reader)?;
    let first = read_count(reader)?;
    let last = read_last(first, reader)?;
    Ok(Run { site, first, last })
}

// Whether a run may follow another: it is of a later site, or a missing count lies between them.
fn is_before(last: Run, run: Run) -> bool
    ensures { result ≡ is_apart last run }
{
    last.site < run.site
        || last.site == run.site && last.last < run.first && run.first - last.last > 1
}

// Reads a run. Errors, in order: 1 `BadRange`, as for `read_run`; 2 `BadOrder`, if it may not follow `last`.
fn read_next_run(last: Option<Run>, reader: &mut Reader<'_>) -> Result<Run, DecodeFault>
    ensures value { ReturnsRead (λ x. (x, reader.new)) result (next_at run_elements last reader.old) }
    ensures within { IfOk result (λ x. IsRunWithinLimits x) }
    ensures order { IfOk result (λ x. order_fault is_apart last x ≡ None) }
{
    let run = read_run(reader)?;
    match last {
        Some(last) if !is_before(last, run) => Err(DecodeFault::BadOrder),
        _ => Ok(run),
    }
}

// Adds a run to a context, which has at most 65,536 runs with it. Fails only with `Memory`.
fn keep_run(context: &mut Context, run: Run) -> Result<(), DecodeFault>
    requires few { run_count (with_run context.old.dots run) ≤ MOST_RUNS }
    ensures ok { OnOk result (context.new.dots ≡ with_run context.old.dots run) }
    ensures err { IfErr result (λ fault. fault ≡ DecodeFault.Memory) }
{
    match context.insert_run(run.site, run.first, run.last) {
        Ok(()) => Ok(()),
        Err(fault) => {
            prove!(fault != ContextFault::RunsFull);
            Err(DecodeFault::Memory)
        }
    }
}

// Reads `count` runs, as the context of their dots.
fn read_counted_runs(
    alloc: Global,
    count: u32,
    reader: &mut Reader<'_>,
) -> Result<Context, DecodeFault>
    requires { count ≤ MOST_RUNS }
    ensures { GivesWithMemory (λ x. (x.dots, reader.new)) result
        (made known_of (elements_at run_elements count None reader.old)) }
{
    let mut context = Context::new(alloc);
    let mut last = None;
    for _ in 0..count {
        let run = read_next_run(last, reader)?;
        keep_run(&mut context, run)?;
        last = Some(run);
    }
    Ok(context)
}

// Reads the list of runs, as the context of their dots. `TooLarge` if there are more than 65,536.
#[tactic(auto, unfolding(crate::specs::Reading::list_at))]
pub(crate) fn read_runs(alloc: Global, reader: &mut Reader<'_>) -> Result<Context, DecodeFault>
    ensures { GivesWithMemory (λ x. (x.dots, reader.new)) result
        (made known_of (runs_at reader.old)) }
{
    let count = read_size(MOST_RUNS, reader)?;
    read_counted_runs(alloc, count, reader)
}

// ---- cells

// Reads a dot. `BadRange` if bytes are missing, or its site or count is out of its limits.
#[tactic(auto, unfolding(crate::specs::Reading::dot_at))]
fn read_dot(reader: &mut Reader<'_>) -> Result<Dot, DecodeFault>
    ensures { ReturnsRead (λ x. (x, reader.new)) result (dot_at reader.old) }
{
    let site = read_site(reader)?;
    let count = read_count(reader)?;
    match Dot::new(site, count) {
        Some(dot) => Ok(dot),
        None => Err(DecodeFault::BadRange),
    }
}

// Reads a dot and the number of its queue. `BadRange` if bytes are missing, or a number is out of its limits.
#[tactic(auto, unfolding(crate::specs::Reading::place_at))]
fn read_place(reader: &mut Reader<'_>) -> Result<(Dot, u16), DecodeFault>
    ensures { ReturnsRead (λ x. (record { dot = x.0; queue = x.1 }, reader.new)) result
        (place_at reader.old) }
{
    let dot = read_dot(reader)?;
    let queue = read_queue(reader)?;
    Ok((dot, queue))
}

// Whether a dot may follow the last one: it is greater, or there is none.
fn follows(last: Option<Dot>, dot: Dot) -> bool
    ensures { IsTrue result ↔ (order_fault is_dot_before last dot ≡ None) }
{
    match last {
        Some(last) => last < dot,
        None => true,
    }
}

// Checks a dot. Errors, in order: 1 `BadOrder`, if it may not follow the last one; 2 `BadRange`, if it is unknown.
fn see_dot(known: &Context, last: Option<Dot>, dot: Dot) -> Result<(), DecodeFault>
    ensures ok { OnOk result (dot_fault (set.contains known.now.dots) last dot ≡ None) }
    ensures err { IfErr result
        (λ fault. dot_fault (set.contains known.now.dots) last dot ≡ Some fault) }
    ensures order { OnOk result (order_fault is_dot_before last dot ≡ None) }
    ensures is_known { OnOk result (set.contains known.now.dots dot ≡ true) }
{
    if !follows(last, dot) {
        return Err(DecodeFault::BadOrder);
    }
    if !known.contains(dot) {
        return Err(DecodeFault::BadRange);
    }
    Ok(())
}

// Adds a live dot with its member and fields to a builder. The dot is known and greater than those before, a field is set, and
// fewer than 16,384 dots are live so far. Fails only with `Memory`, and adds nothing then, though no contract says this.
fn keep_cell(
    builder: &mut SetBuilder,
    dot: Dot,
    member: Member,
    fields: Fields,
) -> Result<(), DecodeFault>
    requires known { set.contains builder.old.known dot ≡ true }
    requires greater { (q : Dot) → IsSome (map.get builder.old.live q) → dot_cmp q dot ≡ Less }
    requires some { HasField fields }
    requires room { map.len builder.old.live < MOST_LIVE }
    ensures ok { OnOk result
        (builder.new.live ≡ with_cell builder.old.live (dot, (member, fields))) }
    ensures known { builder.new.known ≡ builder.old.known }
    ensures err { IfErr result (λ fault. fault ≡ DecodeFault.Memory) }
{
    match builder.put(dot, member, fields) {
        Ok(_) => Ok(()),
        Err(_) => Err(DecodeFault::Memory),
    }
}

// Reads a cell of this version, adds it to a builder, and returns its dot. `last` is the greatest live dot of the builder, if it
// has one, and fewer than 16,384 are live so far. The cell is moved once, into the set. Errors, in order: 1 `BadRange` or
// `BadText`, of the cell itself; 2 `BadOrder`, if its dot may not follow the last one; 3 `BadRange`, if the dot is unknown; 4
// `Memory`. A fault adds nothing, though no contract says this.
#[tactic(auto, unfolding(crate::specs::Reading::cell_at, crate::specs::Reading::fields_at, crate::specs::Reading::set_fields_at))]
fn read_cell(
    builder: &mut SetBuilder,
    version: u8,
    last: Option<Dot>,
    reader: &mut Reader<'_>,
) -> Result<Dot, DecodeFault>
    requires behind { IsBehind last builder.old.live }
    requires room { map.len builder.old.live < MOST_LIVE }
    ensures known { builder.new.known ≡ builder.old.known }
    ensures cell { GivesWithMemory (λ dot. ((dot, builder.new.live), reader.new)) result
        (made (kept_cell builder.old.live)
        (next_at (cell_elements version (set.contains builder.old.known)) last reader.old)) }
    ensures order { IfOk result (λ dot. order_fault is_dot_before last dot ≡ None) }
{
    let (dot, queue) = read_place(reader)?;
    let interface = read_interface(reader)?;
    let flags = read_flags(version, reader)?;
    let penalty = read_field(flags % 2 == 1, reader)?;
    let pause = read_field(flags / 2 % 2 == 1, reader)?;
    let label = read_field(flags / 4 % 2 == 1, reader)?;
    let ring = read_field(flags / 8 % 2 == 1, reader)?;
    see_dot(builder.context(), last, dot)?;
    let fields = Fields {
        penalty,
        pause,
        label,
        ring,
    };
    keep_cell(builder, dot, Member { queue, interface }, fields)?;
    Ok(dot)
}

// Reads `count` cells of this version, and adds them to a builder in which no dot is live. A fault may come after some were added.
fn read_counted_cells(
    builder: &mut SetBuilder,
    version: u8,
    count: u32,
    reader: &mut Reader<'_>,
) -> Result<(), DecodeFault>
    requires few { count ≤ MOST_LIVE }
    requires empty { builder.old.live ≡ map.empty }
    ensures known { builder.new.known ≡ builder.old.known }
    ensures cells { GivesWithMemory (λ _. (builder.new.live, reader.new)) result
        (made live_of (elements_at (cell_elements version (set.contains builder.old.known)) count
        None reader.old)) }
{
    let mut last = None;
    for _ in 0..count {
        last = Some(read_cell(builder, version, last, reader)?);
    }
    Ok(())
}

// Reads the list of cells of this version, as the set that knows the dots of a context: the dots without a cell are dead.
// `TooLarge` if there are more than 16,384 cells. A fault drops the context.
#[tactic(auto, unfolding(crate::specs::Reading::list_at))]
pub(crate) fn read_cells(
    alloc: Global,
    version: u8,
    context: Context,
    reader: &mut Reader<'_>,
) -> Result<MemberSet, DecodeFault>
    ensures known { IfOk result (λ x. x.known ≡ context.dots) }
    ensures retired { IfOk result (λ x. x.retired ≡ 0) }
    ensures cells { GivesWithMemory (λ x. (x.live, reader.new)) result
        (made live_of (cells_at version (set.contains context.dots) reader.old)) }
{
    let count = read_size(MOST_LIVE, reader)?;
    let mut builder = SetBuilder::new(alloc, context);
    read_counted_cells(&mut builder, version, count, reader)?;
    Ok(builder.finish())
}

// ---- totals

// Reads a total. `BadRange` if bytes are missing, a number is out of its limits, or both counts are zero.
#[tactic(auto, unfolding(crate::specs::Reading::total_at))]
fn read_total(reader: &mut Reader<'_>) -> Result<TotalRead, DecodeFault>
    ensures value { ReturnsRead (λ x. (total_read x, reader.new)) result (total_at reader.old) }
    ensures queue { IfOk result (λ x. x.key.queue < QUEUES) }
    ensures completed { IfOk result (λ x. x.totals.completed ≤ MOST_CALLS) }
    ensures abandoned { IfOk result (λ x. x.totals.abandoned ≤ MOST_CALLS) }
{
    let site = read_site(reader)?;
    let queue = read_queue(reader)?;
    let completed = read_calls(reader)?;
    let abandoned = read_calls(reader)?;
    let totals = CallTotals {
        completed,
        abandoned,
    };
    if totals.is_zero() {
        return Err(DecodeFault::BadRange);
    }
    let key = TotalKey::new(site, queue);
    Ok(TotalRead { key, totals })
}

// Reads a total. Errors, in order: 1 `BadRange`, as for `read_total`; 2 `BadOrder`, if its key isn't greater than the last one.
fn read_next_total(
    last: Option<TotalKey>,
    reader: &mut Reader<'_>,
) -> Result<TotalRead, DecodeFault>
    ensures value { ReturnsRead (λ x. (total_read x, reader.new)) result
        (next_at total_elements last reader.old) }
    ensures queue { IfOk result (λ x. x.key.queue < QUEUES) }
    ensures completed { IfOk result (λ x. x.totals.completed ≤ MOST_CALLS) }
    ensures abandoned { IfOk result (λ x. x.totals.abandoned ≤ MOST_CALLS) }
{
    let total = read_total(reader)?;
    match last {
        Some(last) if last >= total.key => Err(DecodeFault::BadOrder),
        _ => Ok(total),
    }
}

// Joins a total with those before. Fails only with `Memory`.
fn keep_total(totals: &mut Totals, total: &TotalRead) -> Result<(), DecodeFault>
    requires queue { total.now.key.queue < QUEUES }
    requires completed { total.now.totals.completed ≤ MOST_CALLS }
    requires abandoned { total.now.totals.abandoned ≤ MOST_CALLS }
    ensures ok { OnOk result
        (totals.new.entries ≡ with_total totals.old.entries (total_read total.now)) }
    ensures err { IfErr result (λ fault. fault ≡ DecodeFault.Memory) }
{
    match totals.reach(total.key.site(), total.key.queue(), total.totals) {
        Ok(()) => Ok(()),
        Err(_) => Err(DecodeFault::Memory),
    }
}

// Reads `count` totals.
fn read_counted_totals(
    alloc: Global,
    count: u32,
    reader: &mut Reader<'_>,
) -> Result<Totals, DecodeFault>
    ensures { GivesWithMemory (λ x. (x.entries, reader.new)) result
        (made totals_of (elements_at total_elements count None reader.old)) }
{
    let mut totals = Totals::new(alloc);
    let mut last = None;
    for _ in 0..count {
        let total = read_next_total(last, reader)?;
        keep_total(&mut totals, &total)?;
        last = Some(total.key);
    }
    Ok(totals)
}

// Reads the list of totals. `TooLarge` if there are more than 16,384.
#[tactic(auto, unfolding(crate::specs::Reading::list_at))]
pub(crate) fn read_totals(alloc: Global, reader: &mut Reader<'_>) -> Result<Totals, DecodeFault>
    ensures { GivesWithMemory (λ x. (x.entries, reader.new)) result
        (made totals_of (totals_at reader.old)) }
{
    let count = read_size(MOST_TOTALS, reader)?;
    read_counted_totals(alloc, count, reader)
}

//! Changes of one dot that is asserted.
ghost use Rattle.std.specs.Prelude.{◌≡◌, ◌≢◌, ◌≤◌, ◌<◌, ◌↔◌, IsFalse, IsOk, IsTrue};
ghost use Rattle.std.specs.Prelude.{OnErr, OnOk, Err, None, true};
ghost use Rattle.std.specs.FinMap as map;
ghost use Rattle.std.specs.FinSet as set;
ghost use Rattle.dots.specs.DotSets.{run_count};
ghost use Rattle.live_cells.specs.CellIds.{IdsFollow};
ghost use Rattle.member_orset.specs.Members.{live_with};

use crate::JoinFault;
use causal_context::{Context, ContextFault};
use dots::{Dot, MOST_LIVE, MOST_RUNS};
use live_cells::{LAST_GENERATION, LiveCells, LiveDot};

// Adds a dot to the known dots. A fault leaves them as they are. Errors, in order: 1 `RunsFull`,
// exactly where they would make more than 65,536 runs; 2 `Memory`, never for a known dot, nor if
// there is room for one more run.
pub(crate) fn learn(context: &mut Context, dot: Dot) -> Result<(), JoinFault>
    ensures ok { OnOk result (context.new.dots ≡ set.insert context.old.dots dot) }
    ensures full { (result ≡ Err JoinFault.RunsFull)
        ↔ (MOST_RUNS < run_count (set.insert context.old.dots dot)) }
    ensures agrees { result ≢ Err JoinFault.Conflict }
    ensures has_place { result ≢ Err JoinFault.CellsFull }
    ensures known_dot { set.contains context.old.dots dot ≡ true → IsOk result }
    ensures with_room { run_count context.old.dots < context.old.room
        → result ≢ Err JoinFault.Memory }
    ensures err { OnErr result (context.new.dots ≡ context.old.dots) }
{
    match context.insert(dot) {
        Ok(()) => Ok(()),
        Err(ContextFault::RunsFull) => Err(JoinFault::RunsFull),
        Err(ContextFault::Memory) => Err(JoinFault::Memory),
    }
}

// The fault for a dot for whose cell there is no memory: `RunsFull` exactly where the known dots
// with it make more than 65,536 runs, and otherwise `Memory`.
fn fault_without_room(context: &Context, dot: Dot) -> JoinFault
    ensures full { (result ≡ JoinFault.RunsFull)
        ↔ (MOST_RUNS < run_count (set.insert context.now.dots dot)) }
    ensures agrees { result ≢ JoinFault.Conflict }
    ensures has_place { result ≢ JoinFault.CellsFull }
{
    if context.runs_with(context, dot.site(), dot.count()) > MOST_RUNS as u64 {
        return JoinFault::RunsFull;
    }
    JoinFault::Memory
}

// Whether there are at most 16,384 live dots once a dot is asserted. A known dot adds none.
pub(crate) fn has_place(context: &Context, cells: &LiveCells<LAST_GENERATION>, dot: Dot) -> bool
    ensures there { IsTrue result
        ↔ (live_with (map.len cells.now.live) (set.contains context.now.dots dot) ≤ MOST_LIVE) }
    ensures missing { IsFalse result
        ↔ (MOST_LIVE < live_with (map.len cells.now.live) (set.contains context.now.dots dot)) }
{
    let live = cells.len();
    live < MOST_LIVE || live == MOST_LIVE && context.contains(dot)
}

// Makes an unknown dot known and live; its caller has tested the limit of live dots. A fault drops
// the cell and changes only room. Errors, in order: 1 `RunsFull`, exactly where the known dots
// would make more than 65,536 runs; 2 `Memory`, never if there is room for one more live dot and
// one more run.
pub(crate) fn bring(
    context: &mut Context,
    cells: &mut LiveCells<LAST_GENERATION>,
    cell: LiveDot,
) -> Result<(), JoinFault>
    requires { map.get cells.old.live cell.dot ≡ None }
    ensures known { OnOk result (context.new.dots ≡ set.insert context.old.dots cell.dot) }
    ensures live { OnOk result (cells.new.live
        ≡ map.insert cells.old.live cell.dot (cell.member, cell.fields)) }
    ensures ids { OnOk result
        (IdsFollow cells.old.ids cells.old.spent cells.new.ids cells.new.spent) }
    ensures full { (result ≡ Err JoinFault.RunsFull)
        ↔ (MOST_RUNS < run_count (set.insert context.old.dots cell.dot)) }
    ensures agrees { result ≢ Err JoinFault.Conflict }
    ensures has_place { result ≢ Err JoinFault.CellsFull }
    ensures with_room { map.len cells.old.live < cells.old.room
        → run_count context.old.dots < context.old.room
        → result ≢ Err JoinFault.Memory }
    ensures err_known { OnErr result (context.new.dots ≡ context.old.dots) }
    ensures err_live { OnErr result (cells.new.live ≡ cells.old.live) }
    ensures err_ids { OnErr result (cells.new.ids ≡ cells.old.ids) }
    ensures spent { cells.new.spent ≡ cells.old.spent }
{
    if cells.reserve(1).is_err() {
        return Err(fault_without_room(context, cell.dot));
    }
    learn(context, cell.dot)?;
    cells.insert(cell);
    Ok(())
}

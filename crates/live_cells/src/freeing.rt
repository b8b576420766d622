//! Frees cells, and removes their ids from the lists.
ghost use Rattle.std.specs.Prelude.{◌≡◌, ◌≤◌, filter};
ghost use Rattle.std.specs.FinMap as map;
ghost use Rattle.live_cells.specs.Freed.{AreChosen, AreFreed, with_cells};
ghost use Rattle.live_cells.specs.LiveStates.{dead_there};
ghost use Rattle.live_cells.specs.PlacedStates.{AreIndexed, ArePlaced};

use crate::cursor::Cursor;
use crate::live_dot::LiveDot;
use crate::placed::Placed;
use crate::placed_cells::PlacedCells;
use causal_context::Context;
use devector::Devector;
use dots::Dot;
use op_arena::{Arena, CellId};

// Whether a dot is known and not live there.
fn is_dead(known: &Context, there: &mut Cursor<'_>, dot: Dot) -> bool
    ensures value { result ≡ dead_there known.now.dots there.old dot }
    ensures same { there.new ≡ there.old }
{
    known.contains(dot) && there.get(dot).is_none()
}

// Frees the cells of the dots of a context that aren't live there, and spends their ids. The other
// cells stay. `dots` lists all that have a cell.
pub(crate) fn free_cells<const LAST: u32>(
    cells: &mut Arena<LiveDot, LAST>,
    dots: &[Placed],
    known: &Context,
    mut there: Cursor<'_>,
)
    requires { ArePlaced dots.now cells.old.held cells.old.spent }
    ensures freed { AreFreed dots.now cells.old.held cells.old.spent cells.new.held cells.new.spent }
    ensures chosen { AreChosen (dead_there known.now.dots there.entry) dots.now cells.old.held
        cells.new.held }
    ensures spare { cells.old.spare ≤ cells.new.spare }
{
    for placed in dots {
        if is_dead(known, &mut there, placed.dot) {
            let _ = cells.take(placed.id);
        }
    }
}

// Removes the dots that have no cell; each cell has its dot in the list. If there are as many cells
// as dots, reads nothing.
pub(crate) fn keep_dots<const LAST: u32>(cells: &Arena<LiveDot, LAST>, dots: &mut Devector<Placed>)
    requires { ArePlaced (with_cells cells.now.held dots.old.items) cells.now.held
        cells.now.spent }
    ensures kept { dots.new.items ≡ with_cells cells.now.held dots.old.items }
    ensures room { dots.new.room ≡ dots.old.room }
{
    if cells.len() as usize == dots.len() {
        return;
    }
    dots.retain(
        |placed: &Placed| -> bool
            ensures { result ≡ map.contains_key cells.entry.now.held placed.now.id }
        { cells.get(placed.id).is_some() },
    );
}

// Removes the ids that have no cell; each cell has its id in the list. If there are as many dots as
// ids, reads nothing.
pub(crate) fn keep_ids<const LAST: u32>(cells: &PlacedCells<LAST>, ids: &mut Devector<CellId>)
    requires { AreIndexed cells.now
        (filter (λ id. map.contains_key cells.now.held id) ids.old.items) }
    ensures kept { ids.new.items
        ≡ filter (λ id. map.contains_key cells.now.held id) ids.old.items }
    ensures room { ids.new.room ≡ ids.old.room }
{
    if cells.len() == ids.len() {
        return;
    }
    ids.retain(
        |id: &CellId| -> bool
            ensures { result ≡ map.contains_key cells.entry.now.held id.now }
        { cells.cell(*id).is_some() },
    );
}

//! Moves cells from one arena into another.
ghost use Rattle.std.specs.Prelude.{◌≡◌, ◌+◌, ◌≤◌, length};
ghost use Rattle.std.specs.List.{IsDistinct};
ghost use Rattle.std.specs.Ordering.{eq_by_cmp};
ghost use Rattle.op_arena.specs.Ids.{id_cmp};
ghost use Rattle.live_cells.specs.Moves.{AreMoved};
ghost use Rattle.live_cells.specs.PlacedStates.{AreHeld};

use crate::live_dot::LiveDot;
use crate::placed::Placed;
use op_arena::{Arena, CellId};

// Moves the cells of distinct ids from `others` to `cells`, in order, into room that is there. Each id is replaced by the new id
// of its cell, which is listed with its dot at the same place of a list of the same length.
pub(crate) fn move_cells<const LAST: u32>(
    cells: &mut Arena<LiveDot, LAST>,
    others: &mut Arena<LiveDot, LAST>,
    ids: &mut Vec<CellId>,
    dots: &mut Vec<Placed>,
)
    requires held { AreHeld others.old.held ids.old.items }
    requires apart { IsDistinct (eq_by_cmp id_cmp) ids.old.items }
    requires as_many { length dots.old.items ≡ length ids.old.items }
    requires room { length ids.old.items ≤ cells.old.spare }
    ensures moved { AreMoved cells.old.held cells.old.spent others.old.held ids.old.items
        cells.new.held dots.new.items ids.new.items }
    ensures spent { cells.new.spent ≡ cells.old.spent }
    ensures spare { cells.new.spare + length ids.old.items ≡ cells.old.spare }
{
    for place in 0..ids.len() {
        let cell = others.take(ids[place]).unwrap();
        let dot = cell.dot;
        let id = cells.place(cell);
        ids[place] = id;
        dots[place] = Placed { dot, id };
    }
}

ghost use Rattle.std.specs.Prelude.{◌≡◌};
ghost use Rattle.std.specs.Iterator.{YieldsFirstBy, item_count};
ghost use Rattle.live_cells.specs.LiveLists.{entries_of};
ghost use Rattle.live_cells.specs.PlacedStates.{cells_of};
ghost use Rattle.live_cells.specs.Holdings.{cell_read};

use crate::Cell;
use crate::placed::Placed;
use crate::placed_cells::PlacedCells;
use crate::places::LAST_GENERATION;
use dots::Dot;
use std::marker::Model;

/// The live dots of a set that are left to go over, in order, each with its cell. Takes no memory.
#[derive(Drop)]
pub struct Cells<'a> {
    left: &'a [Placed],
    cells: &'a PlacedCells<LAST_GENERATION>,
}

impl<'a> Model for Cells<'a> {
    ghost use Rattle.std.specs.Prelude.{List};
    ghost use Rattle.std.specs.Coded.{coded×, coded_list};
    ghost use Rattle.dots.specs.Values.{Dot};
    ghost use Rattle.dots.specs.DotSets.{dot_code};
    ghost use Rattle.operations.specs.Codes.{member_code, fields_code};
    ghost use Rattle.live_cells.specs.Holdings.{Holding};

    ghost Value = { List (Dot × Holding) };

    ghost coded = { coded_list (coded× dot_code (coded× member_code fields_code)) };

    ghost use Rattle.live_cells.specs.LiveLists.{entries_of};
    ghost use Rattle.live_cells.specs.PlacedStates.{AreHeld, cells_at, ids_of};

    ghost view = { λ c. entries_of (cells_at c.cells.now.held (ids_of c.left.now)) };

    ghost invariant = { λ c. AreHeld c.cells.now.held (ids_of c.left.now) };
}

impl<'a> Cells<'a> {
    // All live dots in order, each with its cell.
    pub(crate) fn of(cells: &'a PlacedCells<LAST_GENERATION>) -> Cells<'a>
        ensures { result ≡ entries_of (cells_of cells.now) }
    {
        Cells {
            left: cells.placed().list,
            cells,
        }
    }
}

impl<'a> Iterator for Cells<'a> {
    type Item = (Dot, Cell<'a>);

    ghost next_gives = { YieldsFirstBy (λ x. (x.0, cell_read x.1)) (λ s. s) };

    ghost remaining = { item_count (λ s. s) };

    fn next(&mut self) -> Option<(Dot, Cell<'a>)> {
        let (first, others) = self.left.split_first()?;
        self.left = others;
        let cells = self.cells;
        let cell = cells.cell(first.id)?;
        Some((cell.dot, cell.lent()))
    }
}

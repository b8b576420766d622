ghost use Rattle.std.specs.Prelude.{◌≡◌};
ghost use Rattle.std.specs.Option.{option_map};
ghost use Rattle.std.specs.FinMap as map;
ghost use Rattle.live_cells.specs.Holdings.{cell_read};
ghost use Rattle.live_cells.specs.LiveLists.{live_of};
ghost use Rattle.live_cells.specs.PlacedStates.{IsPlaced, cells_of};

use crate::Cell;
use crate::placed_cells::PlacedCells;
use crate::places::LAST_GENERATION;
use dots::Dot;
use std::marker::Model;

/// A cursor over the live dots of a set, for look-ups in order: each dot is first looked for right after the last one, and is
/// searched for only if it isn't there. Takes no memory.
#[derive(Drop)]
pub struct Cursor<'a> {
    cells: &'a PlacedCells<LAST_GENERATION>,
    // The place at which the next dot is looked for first.
    next: usize,
}

impl<'a> Model for Cursor<'a> {
    ghost use Rattle.std.specs.FinMap as map;
    ghost use Rattle.std.specs.Coded.{coded×};
    ghost use Rattle.dots.specs.Orders.{dot_cmp};
    ghost use Rattle.dots.specs.DotSets.{dot_code};
    ghost use Rattle.operations.specs.Codes.{member_code, fields_code};
    ghost use Rattle.live_cells.specs.Holdings.{Holding};

    ghost Value = { map.FinMap dot_cmp Holding };

    ghost coded = { map.code dot_code (coded× member_code fields_code) };

    ghost use Rattle.live_cells.specs.LiveLists.{live_of};
    ghost use Rattle.live_cells.specs.PlacedStates.{IsPlaced, cells_of};

    ghost view = { λ c. live_of (cells_of c.cells.now) };

    ghost invariant = { λ c. IsPlaced c.cells.now };
}

impl<'a> Cursor<'a> {
    // A cursor before all live dots.
    pub(crate) fn of(cells: &'a PlacedCells<LAST_GENERATION>) -> Cursor<'a>
        requires { IsPlaced cells.now }
        ensures { result ≡ live_of (cells_of cells.now) }
    {
        Cursor { cells, next: 0 }
    }

    /// The member and the fields of a dot, or `None` if it isn't live. What contracts see of the cursor stays.
    pub fn get(&mut self, dot: Dot) -> Option<Cell<'a>>
        ensures value { option_map cell_read result ≡ map.get self.old dot }
        ensures same { self.new ≡ self.old }
    {
        let cells = self.cells;
        match cells.find_from(self.next, dot) {
            Ok(place) => {
                self.next = place + 1;
                Some(cells.cell_at(place).lent())
            }
            Err(place) => {
                self.next = place;
                None
            }
        }
    }
}

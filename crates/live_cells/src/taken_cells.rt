ghost use Rattle.std.specs.Prelude.{◌≡◌, [], ◌∷◌, IfSome, None};
ghost use Rattle.live_cells.specs.LiveLists.{entry_of};

use crate::live_dot::LiveDot;
use crate::placed::Placed;
use op_arena::Arena;
use std::collections::VecDeque;
use std::marker::Model;

/// The cells of live dots that are left to be taken, in the order of the dots. Takes no memory.
#[derive(Drop)]
pub struct TakenCells<const LAST: u32> {
    pub(crate) dots: VecDeque<Placed>,
    pub(crate) cells: Arena<LiveDot, LAST>,
}

impl<const LAST: u32> Model for TakenCells<LAST> {
    ghost use Rattle.std.specs.Prelude.{List};
    ghost use Rattle.std.specs.Coded.{coded×, coded_list};
    ghost use Rattle.dots.specs.Values.{Dot};
    ghost use Rattle.dots.specs.DotSets.{dot_code};
    ghost use Rattle.operations.specs.Codes.{member_code, fields_code};
    ghost use Rattle.live_cells.specs.Holdings.{Holding};

    ghost Value = { List (Dot × Holding) };

    ghost coded = { coded_list (coded× dot_code (coded× member_code fields_code)) };

    ghost use Rattle.live_cells.specs.LiveLists.{entries_of};
    ghost use Rattle.live_cells.specs.PlacedStates.{ArePlaced, cells_at, ids_of};

    ghost view = { λ c. entries_of (cells_at c.cells.held (ids_of c.dots.items)) };

    ghost invariant = { λ c. ArePlaced c.dots.items c.cells.held c.cells.spent };
}

impl<const LAST: u32> TakenCells<LAST> {
    /// Takes the cell of the first dot that is left; `None` if none is left.
    pub fn take_first(&mut self) -> Option<LiveDot>
        ensures none { result ≡ None → self.old ≡ [] }
        ensures ended { result ≡ None → self.new ≡ [] }
        ensures some { IfSome result (λ cell. self.old ≡ entry_of cell ∷ self.new) }
    {
        let placed = self.dots.pop_front()?;
        Some(self.cells.take(placed.id).unwrap())
    }
}

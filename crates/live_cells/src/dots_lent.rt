ghost use Rattle.std.specs.Prelude.{◌≡◌};
ghost use Rattle.std.specs.Iterator.{YieldsFirst, item_count};
ghost use Rattle.live_cells.specs.PlacedStates.{listed_at};
ghost use Rattle.live_cells.specs.ShownRows.{dots_listed, group};

use crate::member_index::MemberIndex;
use crate::placed_cells::PlacedCells;
use crate::places::LAST_GENERATION;
use dots::{Dot, Member};
use op_arena::CellId;
use std::marker::Model;

/// The live dots of a member that are left to go over, in order. Takes no memory.
#[derive(Drop)]
pub struct Dots<'a> {
    left: &'a [CellId],
    cells: &'a PlacedCells<LAST_GENERATION>,
}

impl<'a> Model for Dots<'a> {
    ghost use Rattle.std.specs.Prelude.{List};
    ghost use Rattle.std.specs.Coded.{coded_list};
    ghost use Rattle.dots.specs.Values.{Dot};
    ghost use Rattle.dots.specs.DotSets.{dot_code};

    ghost Value = { List Dot };

    ghost coded = { coded_list dot_code };

    ghost use Rattle.live_cells.specs.PlacedStates.{AreHeld, listed_at};
    ghost use Rattle.live_cells.specs.ShownRows.{dots_listed};

    ghost view = { λ d. dots_listed (listed_at d.cells.now.held d.left.now) };

    ghost invariant = { λ d. AreHeld d.cells.now.held d.left.now };
}

impl<'a> Dots<'a> {
    // All live dots of a member, in order, from the index of members.
    pub(crate) fn of(index: MemberIndex<'a, LAST_GENERATION>, member: &Member) -> Dots<'a>
        ensures { result
            ≡ dots_listed (group member.now
            (listed_at index.entry.cells.now.held index.entry.ids.now)) }
    {
        Dots {
            left: index.group_of(member),
            cells: index.cells,
        }
    }
}

impl<'a> Iterator for Dots<'a> {
    type Item = Dot;

    ghost next_gives = { YieldsFirst (λ s. s) };

    ghost remaining = { item_count (λ s. s) };

    fn next(&mut self) -> Option<Dot> {
        let (first, others) = self.left.split_first()?;
        self.left = others;
        let cell = self.cells.cell(*first)?;
        Some(cell.dot)
    }
}

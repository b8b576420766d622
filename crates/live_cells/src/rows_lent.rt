ghost use Rattle.std.specs.Prelude.{◌≡◌};
ghost use Rattle.std.specs.Iterator.{YieldsFirstBy, item_count};
ghost use Rattle.operations.specs.Views.{listed_row_view};

use crate::Row;
use crate::member_index::MemberIndex;
use crate::member_rows::row_over;
use crate::places::LAST_GENERATION;
use dots::Interface;
use std::marker::Model;

/// The members of one queue with their rows that are left to visit, in the order of their interfaces' bytes. Takes no
/// memory.
#[derive(Drop)]
pub struct Rows<'a> {
    index: MemberIndex<'a, LAST_GENERATION>,
    queue: u16,
    passed: usize,
}

impl<'a> Model for Rows<'a> {
    ghost use Rattle.std.specs.Prelude.{ℕ, List};
    ghost use Rattle.operations.specs.Rows.{MemberRow};

    ghost Value = { List (List ℕ × MemberRow) };

    ghost use Rattle.live_cells.specs.PlacedStates.{listed_at};
    ghost use Rattle.live_cells.specs.RowWalks.{IsReached, rows_left};

    ghost view = { λ r. rows_left r.index.cells.now r.index.ids.now r.queue r.passed };

    ghost invariant = { λ r. IsReached r.queue (listed_at r.index.cells.now.held r.index.ids.now)
        r.passed };
}

impl<'a> Rows<'a> {
    ghost use Rattle.std.specs.Prelude.{None};
    ghost use Rattle.live_cells.specs.PlacedStates.{cells_of};
    ghost use Rattle.live_cells.specs.ShownRows.{cells_view, rows_after};

    // All rows of a queue, from its first place in the index of members.
    pub(crate) fn of(index: MemberIndex<'a, LAST_GENERATION>, queue: u16) -> Rows<'a>
        ensures { result ≡ rows_after (cells_view (cells_of index.entry.cells.now)) queue None }
    {
        let passed = index.place_of_queue(queue);
        Rows {
            index,
            queue,
            passed,
        }
    }
}

impl<'a> Iterator for Rows<'a> {
    type Item = (&'a Interface, Row<'a>);

    ghost next_gives = { YieldsFirstBy listed_row_view (λ s. s) };

    ghost remaining = { item_count (λ s. s) };

    fn next(&mut self) -> Option<(&'a Interface, Row<'a>)> {
        let (index, first) = (self.index, self.passed);
        let cells = index.cells;
        let cell = index.next_cell(self.queue, first)?;
        let end = index.end_of(first + 1, &cell.member);
        let row = row_over(cells, &index.ids[first..end])?;
        self.passed = end;
        Some((&cell.member.interface, row))
    }
}

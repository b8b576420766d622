//! The row that the cells of one member show.
ghost use Rattle.std.specs.Prelude.{◌≡◌, map as each};
ghost use Rattle.std.specs.Option.{option_map};
ghost use Rattle.operations.specs.Rows.{row_of, row_of_fields};
ghost use Rattle.operations.specs.Views.{row_view};
ghost use Rattle.live_cells.specs.PlacedStates.{cells_at, cells_of};
ghost use Rattle.live_cells.specs.ShownRows.{cells_view, fields_shown, latest_fields};

use crate::Row;
use crate::latest::{Latest, after};
use crate::member_index::MemberIndex;
use crate::placed_cells::PlacedCells;
use crate::places::LAST_GENERATION;
use dots::Member;
use op_arena::CellId;

// The registers of the latest stamps over the cells of ids; `None` if no id has a cell.
fn latest_in<'a, const LAST: u32>(
    cells: &'a PlacedCells<LAST>,
    ids: &[CellId],
) -> Option<Latest<'a>>
    ensures { option_map latest_fields result
        ≡ fields_shown (each (λ c. c.fields) (cells_at cells.now.held ids.now)) }
{
    let mut latest = None;
    for id in ids {
        if let Some(cell) = cells.cell(*id) {
            latest = Some(after(latest, &cell.fields));
        }
    }
    latest
}

// The row that the cells of ids show together; `None` if no id has a cell.
pub(crate) fn row_over<'a, const LAST: u32>(
    cells: &'a PlacedCells<LAST>,
    ids: &[CellId],
) -> Option<Row<'a>>
    ensures { option_map row_view result
        ≡ option_map row_of_fields
        (fields_shown (each (λ c. c.fields) (cells_at cells.now.held ids.now))) }
{
    let latest = latest_in(cells, ids)?;
    Some(latest.row())
}

// The row of a member; `None` if it has no live dot.
pub(crate) fn row_in<'a>(
    index: MemberIndex<'a, LAST_GENERATION>,
    member: &Member,
) -> Option<Row<'a>>
    ensures { option_map row_view result
        ≡ row_of (cells_view (cells_of index.entry.cells.now)) member.now }
{
    let cells = index.cells;
    row_over(cells, index.group_of(member))
}

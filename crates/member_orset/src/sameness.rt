//! Whether two contexts, or the live dots of two sets, are equal.
ghost use Rattle.std.specs.Prelude.{◌≡◌, ◌↔◌, IsTrue, Some};
ghost use Rattle.std.specs.Option.{option_map};
ghost use Rattle.live_cells.specs.Holdings.{cell_read};
ghost use Rattle.member_orset.specs.Joining.{HasAll};

use crate::agreement::is_same_member;
use causal_context::Context;
use dots::Member;
use live_cells::{Cell, LAST_GENERATION, LiveCells};
use lww_registers::Fields;

// Whether both know the same dots.
pub(crate) fn is_same_context(context: &Context, other: &Context) -> bool
    ensures { IsTrue result ↔ (other.now.dots ≡ context.now.dots) }
{
    context.covers(other) && other.covers(context)
}

// Whether exactly this member and these fields are held.
fn is_held_so(held: Option<Cell<'_>>, member: &Member, fields: &Fields) -> bool
    ensures { IsTrue result
        ↔ (option_map cell_read held.entry ≡ Some (member.now, fields.now)) }
{
    match held {
        Some(cell) => is_same_member(cell.member, member) && cell.fields.same(fields),
        None => false,
    }
}

// Whether each dot that is live there is live here, with the same member and fields.
fn has_all(cells: &LiveCells<LAST_GENERATION>, others: &LiveCells<LAST_GENERATION>) -> bool
    ensures { IsTrue result ↔ HasAll cells.now.live others.now.live }
{
    let mut here = cells.cursor();
    for (dot, cell) in others.iter() {
        if !is_held_so(here.get(dot), cell.member, cell.fields) {
            return false;
        }
    }
    true
}

// Whether the same dots are live on both sides, with the same members and fields.
pub(crate) fn are_same_cells(
    cells: &LiveCells<LAST_GENERATION>,
    others: &LiveCells<LAST_GENERATION>,
) -> bool
    ensures { IsTrue result ↔ (others.now.live ≡ cells.now.live) }
{
    if !has_all(cells, others) {
        return false;
    }
    has_all(others, cells)
}

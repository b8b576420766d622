//! Whether the live dots of two sets can be joined.
ghost use Rattle.std.specs.Prelude.{◌≡◌, ◌↔◌, IsTrue, IsFalse};
ghost use Rattle.std.specs.Option.{option_map};
ghost use Rattle.std.specs.FinMap as map;
ghost use Rattle.live_cells.specs.Holdings.{cell_read};
ghost use Rattle.member_orset.specs.Joining.{HoldingsAgree, HoldingsInConflict, DecidesAgreement};

use dots::Member;
use live_cells::{Cell, LAST_GENERATION, LiveCells};
use lww_registers::Fields;

// Whether both are the same member.
pub(crate) fn is_same_member(member: &Member, other: &Member) -> bool
    ensures { IsTrue result ↔ (member.now ≡ other.now) }
{
    *member == *other
}

// Whether a dot can be joined with this member and these fields, by the cell that it has
// if it is live. True if it has none.
pub(crate) fn can_hold(held: Option<Cell<'_>>, member: &Member, fields: &Fields) -> bool
    ensures agree { IsTrue result
        ↔ HoldingsAgree (option_map cell_read held.entry) (member.now, fields.now) }
    ensures conflict { IsFalse result
        ↔ HoldingsInConflict (option_map cell_read held.entry) (member.now, fields.now) }
{
    match held {
        Some(cell) => is_same_member(cell.member, member) && cell.fields.agrees(fields),
        None => true,
    }
}

// Whether each dot that is live on both sides can be joined: it has one member, and no
// field of one stamp and two values.
pub(crate) fn cells_agree(
    cells: &LiveCells<LAST_GENERATION>,
    others: &LiveCells<LAST_GENERATION>,
) -> bool
    ensures { DecidesAgreement cells.now.live (map.entries others.now.live) result }
{
    let mut here = cells.cursor();
    for (dot, cell) in others.iter() {
        if !can_hold(here.get(dot), cell.member, cell.fields) {
            return false;
        }
    }
    true
}

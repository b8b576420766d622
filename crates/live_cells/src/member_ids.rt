//! The index of members: the ids of the live dots, in the order of their cells' members and then of their dots.
ghost use Rattle.std.specs.Prelude.{◌≡◌, ◌≤◌, ◌+◌, ◌++◌, [], IfOk, IsSomeAnd, Some, length};
ghost use Rattle.std.specs.FinMap as map;
ghost use Rattle.std.specs.List.Sorted.{IsPermutation, IsSorted, IsStrictlySortedBy};
ghost use Rattle.std.specs.Ordering.{is_le};
ghost use Rattle.std.specs.Vec.{vec_capacity};
ghost use Rattle.live_cells.specs.declared.live_dot.LiveDot.{LiveDot as live_dot};
ghost use Rattle.live_cells.specs.Merges.{AreUntied};
ghost use Rattle.live_cells.specs.PlacedStates.{AreHeld, AreIndexed, cells_at, cells_of, id_order};

use crate::member_index::MemberIndex;
use crate::placed_cells::PlacedCells;
use devector::Devector;
use dots::Memory;
use op_arena::CellId;
use std::alloc::Global;
use std::cmp::Ordering;

// The order of the cells of two ids in the index; an id without a cell precedes those that have one.
fn order_of<const LAST: u32>(cells: &PlacedCells<LAST>, id: CellId, other: CellId) -> Ordering
    ensures { result ≡ id_order cells.now.held id other }
{
    match (cells.cell(id), cells.cell(other)) {
        (Some(cell), Some(after)) => cell.order(after),
        (Some(_), None) => Ordering::Greater,
        (None, Some(_)) => Ordering::Less,
        (None, None) => Ordering::Equal,
    }
}

// Sorts ids by their cells, if they aren't sorted yet.
fn sort_members<const LAST: u32>(cells: &PlacedCells<LAST>, members: &mut Vec<CellId>)
    ensures same { IsPermutation members.old.items members.new.items }
    ensures sorted { IsSorted (id_order cells.now.held) members.new.items }
    ensures capacity { vec_capacity members.new ≡ vec_capacity members.old }
{
    let are_sorted = members.is_sorted_by(
        |id: &CellId, other: &CellId| -> bool
            ensures { result ≡ is_le (id_order cells.entry.now.held id.now other.now) }
        { order_of(cells, *id, *other).is_le() },
    );
    if are_sorted {
        return;
    }
    members.sort_unstable_by(
        |id: &CellId, other: &CellId| -> Ordering
            ensures { result ≡ id_order cells.entry.now.held id.now other.now }
        { order_of(cells, *id, *other) },
    );
}

// Makes the index of all placed cells, in an empty list with room for it.
pub(crate) fn list_members<const LAST: u32>(cells: &PlacedCells<LAST>, members: &mut Vec<CellId>)
    requires empty { members.old.items ≡ [] }
    requires room { length cells.now.dots ≤ vec_capacity members.old }
    ensures indexed { AreIndexed cells.now members.new.items }
    ensures capacity { vec_capacity members.old ≤ vec_capacity members.new }
{
    let dots = cells.placed().list;
    for placed in dots {
        members.push_reserved(placed.id);
    }
    sort_members(cells, members);
}

// Merges sorted ids into other sorted ids, in room that is there. No id of one list ties with one of the other. Works
// from the back, and stops if none of `others` is left, so that nothing before them is read.
pub(crate) fn merge_members<const LAST: u32>(
    cells: &PlacedCells<LAST>,
    own: &mut Devector<CellId>,
    others: &[CellId],
)
    requires own { IsStrictlySortedBy (id_order cells.now.held) own.old.items }
    requires others { IsStrictlySortedBy (id_order cells.now.held) others.now }
    requires apart { AreUntied (id_order cells.now.held) own.old.items others.now }
    requires room { length own.old.items + length others.now ≤ own.old.room }
    ensures same { IsPermutation (own.old.items ++ others.now) own.new.items }
    ensures rises { IsStrictlySortedBy (id_order cells.now.held) own.new.items }
    ensures room { own.old.room ≤ own.new.room }
{
    let mut left = others.len();
    own.append_slice(others);
    let mut end = own.len();
    while left > 0 {
        let kept = end - left;
        end -= 1;
        if kept > 0 && order_of(cells, others[left - 1], own.as_slice()[kept - 1]).is_lt() {
            own.set(end, own.as_slice()[kept - 1]);
        } else {
            own.set(end, others[left - 1]);
            left -= 1;
        }
    }
}

// The id that the cell of an id has in a copy; `None` only if the id has no cell. Its dot is first looked for at the
// place of the id's index: it is there if cells were added in the order of their dots and none was removed, as in a set
// that was decoded or copied.
fn id_in<const LAST: u32>(
    index: MemberIndex<'_, LAST>,
    id: CellId,
    copy: &PlacedCells<LAST>,
) -> Option<CellId>
    requires { cells_of copy.now ≡ cells_of index.cells.now }
    ensures { (cell : live_dot) → map.get index.entry.cells.now.held id ≡ Some cell
        → IsSomeAnd result (λ copied. map.get copy.now.held copied ≡ Some cell) }
{
    let cell = index.cells.cell(id)?;
    match copy.find_from(id.index() as usize, cell.dot) {
        Ok(place) => Some(copy.id_at(place)),
        Err(_) => None,
    }
}

// The ids that the cells of an index have in a copy of the cells, in the order of the index. Fails only when out of
// memory.
pub(crate) fn copy_members<const LAST: u32>(
    alloc: Global,
    index: MemberIndex<'_, LAST>,
    copy: &PlacedCells<LAST>,
) -> Result<Vec<CellId>, Memory>
    requires { cells_of copy.now ≡ cells_of index.cells.now }
    ensures held { IfOk result (λ ids. AreHeld copy.now.held ids.items) }
    ensures cells { IfOk result (λ ids. cells_at copy.now.held ids.items
        ≡ cells_at index.entry.cells.now.held index.entry.ids.now) }
{
    let members = index.ids;
    let mut ids = Vec::with_capacity(alloc, members.len())?;
    for id in members {
        if let Some(copied) = id_in(index, *id, copy) {
            ids.push(copied)?;
        }
    }
    Ok(ids)
}

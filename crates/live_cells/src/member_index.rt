//! The index of members, borrowed: the places of the ids of a member in it, or of a queue.
ghost use Rattle.std.specs.Prelude.{◌≡◌, ◌≤◌, length, true, false, None, IfSome};
ghost use Rattle.std.specs.FinMap as map;
ghost use Rattle.std.specs.List.{All, AllWithin, list_any};
ghost use Rattle.std.specs.List.Sorted.{IsPartitionPoint};
ghost use Rattle.std.specs.Option.{option_map_or};
ghost use Rattle.std.specs.Ordering.{is_le, is_lt};
ghost use Rattle.dots.specs.Orders.{member_cmp};
ghost use Rattle.live_cells.specs.Index.{IsPlaceFor, listed_cmp, listing};
ghost use Rattle.live_cells.specs.IndexedOnce.{indexed-prop};
ghost use Rattle.live_cells.specs.PlacedStates.{AreHeld, AreIndexed, listed_at};
ghost use Rattle.live_cells.specs.RowWalks.{IsNext, IsReached, interface_before};
ghost use Rattle.live_cells.specs.ShownRows.{group, is_left, is_own, is_passed};

use crate::live_dot::LiveDot;
use crate::placed_cells::PlacedCells;
use crate::places::LAST_GENERATION;
use dots::Member;
use op_arena::CellId;

// The cells, and the ids of all of them, in the order of their members and then of their dots.
#[derive(Clone, Copy)]
pub(crate) struct MemberIndex<'a, const LAST: u32> {
    pub(crate) cells: &'a PlacedCells<LAST>,
    pub(crate) ids: &'a [CellId],
    ghost indexed: { AreIndexed cells.now ids.now } by { indexed-prop cells.now ids.now },
}

// Whether the cell of an id lies before another one; false if it has none.
fn lies_before<const LAST: u32>(cells: &PlacedCells<LAST>, id: CellId, cell: &LiveDot) -> bool
    ensures { result
        ≡ option_map_or (λ c. is_lt (listed_cmp (listing c) (listing cell.now)))
        (map.get cells.now.held id) false }
{
    match cells.cell(id) {
        Some(other) => other.is_listed_before(cell),
        None => false,
    }
}

// Whether the cell of an id is of a member that lies before another one; false if it has none.
fn is_below<const LAST: u32>(cells: &PlacedCells<LAST>, id: CellId, member: &Member) -> bool
    ensures { result
        ≡ option_map_or (λ c. is_lt (member_cmp c.member member.now))
        (map.get cells.now.held id) false }
{
    match cells.cell(id) {
        Some(cell) => cell.member < *member,
        None => false,
    }
}

// Whether the cell of an id is of a member that doesn't lie after another one; false if it has none.
fn is_upto<const LAST: u32>(cells: &PlacedCells<LAST>, id: CellId, member: &Member) -> bool
    ensures { result
        ≡ option_map_or (λ c. is_le (member_cmp c.member member.now))
        (map.get cells.now.held id) false }
{
    match cells.cell(id) {
        Some(cell) => cell.member <= *member,
        None => false,
    }
}

// Whether the cell of an id is of a queue with a lesser number; false if it has none.
fn is_of_lesser_queue<const LAST: u32>(cells: &PlacedCells<LAST>, id: CellId, queue: u16) -> bool
    ensures { result
        ≡ option_map_or (λ c. is_passed queue None c.member) (map.get cells.now.held id) false }
{
    match cells.cell(id) {
        Some(cell) => cell.member.queue < queue,
        None => false,
    }
}

impl<'a, const LAST: u32> MemberIndex<'a, LAST> {
    // The place of a cell in the index: the number of ids whose cells lie before it. It is found by bisection.
    pub(crate) fn place_for(self, cell: &LiveDot) -> usize
        ensures { IsPlaceFor (listed_at self.entry.cells.now.held self.entry.ids.now)
            (listing cell.now) result }
    {
        let cells = self.cells;
        self.ids.partition_point(
            |other: &CellId| -> bool
                ensures { result
                    ≡ option_map_or (λ c. is_lt (listed_cmp (listing c) (listing cell.entry.now)))
                    (map.get cells.entry.now.held other.now) false }
            { lies_before(cells, *other, cell) },
        )
    }

    // The place of the first id whose cell is of this member or a later one, or the end of the index. It is found
    // by bisection.
    fn place_of(self, member: &Member) -> usize
        ensures within { result ≤ length self.entry.ids.now }
        ensures first { IsPartitionPoint (λ l. is_lt (member_cmp l.member member.now) ≡ true)
            (λ l. is_lt (member_cmp l.member member.now) ≡ false)
            (listed_at self.entry.cells.now.held self.entry.ids.now) result }
    {
        let cells = self.cells;
        self.ids.partition_point(
            |id: &CellId| -> bool
                ensures { result
                    ≡ option_map_or (λ c. is_lt (member_cmp c.member member.entry.now))
                    (map.get cells.entry.now.held id.now) false }
            { is_below(cells, *id, member) },
        )
    }

    // The place past the ids of this member and of earlier ones; the first `known` ids are some of these. Walks the
    // others, since its callers read them too.
    pub(crate) fn end_of(self, known: usize, member: &Member) -> usize
        requires within { known ≤ length self.ids.now }
        requires known { AllWithin (λ l. is_le (member_cmp l.member member.now) ≡ true)
            (listed_at self.cells.now.held self.ids.now) 0 known }
        ensures order { known ≤ result }
        ensures within { result ≤ length self.entry.ids.now }
        ensures end { IsPartitionPoint (λ l. is_le (member_cmp l.member member.now) ≡ true)
            (λ l. is_le (member_cmp l.member member.now) ≡ false)
            (listed_at self.entry.cells.now.held self.entry.ids.now) result }
    {
        let (cells, members) = (self.cells, self.ids);
        let mut end = known;
        while end < members.len() {
            if !is_upto(cells, members[end], member) {
                return end;
            }
            end += 1;
        }
        end
    }

    // The ids of a member, in the order of their dots.
    pub(crate) fn group_of(self, member: &Member) -> &'a [CellId]
        ensures held { AreHeld self.entry.cells.now.held result.now }
        ensures group { listed_at self.entry.cells.now.held result.now
            ≡ group member.now (listed_at self.entry.cells.now.held self.entry.ids.now) }
    {
        let first = self.place_of(member);
        let end = self.end_of(first, member);
        &self.ids[first..end]
    }

    // Whether the index has an id of a member. If it has, one is at the place of the first.
    pub(crate) fn has_member(self, member: &Member) -> bool
        ensures { result
            ≡ list_any (is_own member.now)
            (listed_at self.entry.cells.now.held self.entry.ids.now) }
    {
        let members = self.ids;
        let place = self.place_of(member);
        if place == members.len() {
            return false;
        }
        is_upto(self.cells, members[place], member)
    }

    // The number of ids of queues with lesser numbers. It is found by bisection.
    pub(crate) fn place_of_queue(self, queue: u16) -> usize
        ensures reached { IsReached queue (listed_at self.entry.cells.now.held self.entry.ids.now)
            result }
        ensures first { interface_before queue
            (listed_at self.entry.cells.now.held self.entry.ids.now) result ≡ None }
    {
        let cells = self.cells;
        self.ids.partition_point(
            |id: &CellId| -> bool
                ensures { result
                    ≡ option_map_or (λ c. is_passed queue None c.member)
                    (map.get cells.entry.now.held id.now) false }
            { is_of_lesser_queue(cells, *id, queue) },
        )
    }
}

impl<'a> MemberIndex<'a, LAST_GENERATION> {
    // The cell of the id at a place that a walk over a queue has reached; `None` if no id of the queue is left.
    pub(crate) fn next_cell(self, queue: u16, place: usize) -> Option<&'a LiveDot>
        requires { IsReached queue (listed_at self.cells.now.held self.ids.now) place }
        ensures some { IfSome result (λ cell.
            IsNext queue (listed_at self.entry.cells.now.held self.entry.ids.now) place
            (listing cell.now)) }
        ensures none { result ≡ None
            → All (λ l. is_left queue
            (interface_before queue (listed_at self.entry.cells.now.held self.entry.ids.now) place)
            l ≡ false)
            (listed_at self.entry.cells.now.held self.entry.ids.now) }
    {
        let (cells, members) = (self.cells, self.ids);
        if place >= members.len() {
            return None;
        }
        let cell = cells.cell(members[place])?;
        if cell.member.queue != queue {
            return None;
        }
        Some(cell)
    }
}

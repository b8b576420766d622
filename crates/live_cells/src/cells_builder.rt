ghost use Rattle.std.specs.Prelude.{◌≡◌, ◌+◌, ◌<◌, ◌≤◌, ◌↔◌, [], Err, IfOk, IsOk, IsSome, OnErr, OnOk, length};
ghost use Rattle.std.specs.FinMap as map;
ghost use Rattle.std.specs.FinSet as set;
ghost use Rattle.std.specs.Vec.{vec_capacity};
ghost use Rattle.std.specs.declared.cmp.Ordering.TheVariants.{Less};
ghost use Rattle.dots.specs.Values.{Dot};
ghost use Rattle.dots.specs.Orders.{dot_cmp};
ghost use Rattle.live_cells.specs.CellIds.{IsNew, retired_of};
ghost use Rattle.live_cells.specs.LiveStates.{most_places};

use crate::live_cells::LiveCells;
use crate::live_dot::LiveDot;
use crate::placed_cells::PlacedCells;
use op_arena::{ArenaFault, CellId};
use std::alloc::Global;
use std::marker::Model;

/// Live dots that are added one by one in order. Their order by members is made once, at the end.
#[derive(Drop)]
pub struct CellsBuilder<const LAST: u32> {
    placed: PlacedCells<LAST>,
    // The list of ids is empty, and has room for the ids of all cells.
    members: Vec<CellId>,
}

impl<const LAST: u32> Model for CellsBuilder<LAST> {
    ghost use Rattle.live_cells.specs.LiveStates.{LiveState, live_code};

    ghost Value = { LiveState };

    ghost coded = { live_code };

    ghost use Rattle.std.specs.Vec.{vec_capacity};
    ghost use Rattle.live_cells.specs.PlacedStates.{AreUnlisted, live_state};

    ghost view = { λ b. live_state b.placed (vec_capacity b.members) };

    ghost invariant = { λ b. AreUnlisted b.placed b.members.items (vec_capacity b.members) };
}

// Makes room for one more cell, and in an empty list for the ids of all cells. Only room changes. Errors, in order: 1
// `Full`, exactly where the retired places and the cells, with one more, are over 1,048,576; 2 `Memory`, never if there is
// room; after it there may be more room than before.
fn make_room<const LAST: u32>(
    placed: &mut PlacedCells<LAST>,
    members: &mut Vec<CellId>,
) -> Result<(), ArenaFault>
    requires { members.old.items ≡ [] }
    ensures cells { OnOk result (length placed.new.dots < placed.new.room) }
    ensures index { OnOk result (length placed.new.dots < vec_capacity members.new) }
    ensures full { (result ≡ Err ArenaFault.Full)
        ↔ (most_places < retired_of LAST placed.old.spent + length placed.old.dots + 1) }
    ensures dots { placed.new.dots ≡ placed.old.dots }
    ensures held { placed.new.held ≡ placed.old.held }
    ensures spent { placed.new.spent ≡ placed.old.spent }
    ensures empty { members.new.items ≡ [] }
    ensures had_room { length placed.old.dots < placed.old.room
        → length placed.old.dots < vec_capacity members.old → IsOk result }
    ensures room { placed.old.room ≤ placed.new.room }
    ensures capacity { vec_capacity members.old ≤ vec_capacity members.new }
{
    placed.reserve(1)?;
    match members.reserve(placed.len() + 1) {
        Ok(()) => Ok(()),
        Err(_) => Err(ArenaFault::Memory),
    }
}

impl<const LAST: u32> CellsBuilder<LAST> {
    /// A builder in which no dot is live. Takes no memory.
    pub fn new(alloc: Global) -> Self
        ensures live { result.live ≡ map.empty }
        ensures ids { result.ids ≡ map.empty }
        ensures spent { result.spent ≡ set.empty }
        ensures room { result.room ≡ 0 }
    {
        CellsBuilder {
            placed: PlacedCells::new(alloc),
            members: Vec::new(alloc),
        }
    }

    /// Adds a live dot that is greater than those before, and returns its id. A fault leaves the live dots as they are, and
    /// drops the cell. Errors, in order: 1 `Full`, exactly where 1,048,576 dots are live; 2 `Memory`, never if there is
    /// room.
    pub fn put(&mut self, cell: LiveDot) -> Result<CellId, ArenaFault>
        requires { (q : Dot) → IsSome (map.get self.old.live q) → dot_cmp q cell.dot ≡ Less }
        ensures ok { OnOk result (
            self.new.live ≡ map.insert self.old.live cell.dot (cell.member, cell.fields)
            ) }
        ensures id { IfOk result (λ id. self.new.ids ≡ map.insert self.old.ids cell.dot id) }
        ensures new { IfOk result (λ id. IsNew self.old.ids self.old.spent self.new.spent id) }
        ensures last { IfOk result (λ id. id.generation ≤ LAST) }
        ensures had_room { map.len self.old.live < self.old.room → IsOk result }
        ensures full { (result ≡ Err ArenaFault.Full) ↔ (most_places ≤ map.len self.old.live) }
        ensures grows { self.old.room ≤ self.new.room }
        ensures spent { self.new.spent ≡ self.old.spent }
        ensures err { OnErr result (self.new.live ≡ self.old.live) }
        ensures err_ids { OnErr result (self.new.ids ≡ self.old.ids) }
    {
        make_room(&mut self.placed, &mut self.members)?;
        let end = self.placed.len();
        Ok(self.placed.insert(end, cell))
    }

    /// The live dots, with the ids that were returned. Takes no memory, and sorts the dots by their members if they were
    /// not added in that order.
    pub fn finish(self) -> LiveCells<LAST>
        ensures live { result.live ≡ self.entry.live }
        ensures ids { result.ids ≡ self.entry.ids }
        ensures spent { result.spent ≡ set.empty }
    {
        let CellsBuilder { placed, members } = self;
        LiveCells::of(placed, members)
    }
}

ghost use Rattle.std.specs.Prelude.{ℕ, ◌≡◌, ◌+◌, ◌*◌, ◌^◌, ◌<◌, ◌≤◌, ◌↔◌, [], true, false, length};
ghost use Rattle.std.specs.Prelude.{IfErr, IfOk, IsOk, IsTrue, List, OnOk, slice_index_or, slice_set};
ghost use Rattle.std.specs.FinMap as map;
ghost use Rattle.std.specs.FinSet as set;
ghost use Rattle.std.specs.List.{AllWithin, insert, remove};
ghost use Rattle.std.specs.Option.{option_copied};
ghost use Rattle.std.specs.Ordering.{is_lt};
ghost use Rattle.operations.specs.Conditions.{FieldsAgree};
ghost use Rattle.dots.specs.Orders.{dot_cmp};
ghost use Rattle.op_arena.specs.Ids.{Id, id_of};
ghost use Rattle.live_cells.specs.declared.live_dot.LiveDot.{LiveDot as live_dot};
ghost use Rattle.live_cells.specs.declared.placed.Placed.{Placed as placed_dot};
ghost use Rattle.live_cells.specs.CellIds.{retired_of};
ghost use Rattle.live_cells.specs.Freed.{AreChosen, AreFreed, with_cells};
ghost use Rattle.live_cells.specs.LiveLists.{IsCellAt, IsGap, entries_of};
ghost use Rattle.live_cells.specs.Moves.{AreMoved};
ghost use Rattle.live_cells.specs.PlacedStates.{AreIndexed, IsPlaced, cells_of, joined_with};
ghost use Rattle.live_cells.specs.PlacedLists.{id_entries, is_placed};
ghost use Rattle.live_cells.specs.LiveStates.{dead_there, most_places};

use crate::cursor::Cursor;
use crate::freeing::{free_cells, keep_dots};
use crate::live_dot::LiveDot;
use crate::moving::move_cells;
use crate::placed::Placed;
use crate::placed_dots::PlacedDots;
use crate::placed_lists::merge_dots;
use crate::taken_cells::TakenCells;
use causal_context::Context;
use devector::Devector;
use dots::{Dot, Memory};
use lww_registers::Fields;
use op_arena::{Arena, ArenaFault, CellId};
use std::alloc::Global;
use std::collections::VecDeque;
use std::marker::Model;

// The live dots in order, each with the id of its cell, and the cells in the arena.
#[derive(Drop)]
pub(crate) struct PlacedCells<const LAST: u32> {
    dots: Devector<Placed>,
    cells: Arena<LiveDot, LAST>,
}

impl<const LAST: u32> Model for PlacedCells<LAST> {
    ghost use Rattle.live_cells.specs.PlacedStates.{ArePlaced, PlacedState, placed_code};

    ghost Value = { PlacedState };

    ghost coded = { placed_code };

    ghost use Rattle.std.specs.Prelude.{◌+◌, length, min};

    ghost view = { λ p. record {
      dots = p.dots.items;
      held = p.cells.held;
      spent = p.cells.spent;
      room = min p.dots.room (length p.dots.items + p.cells.spare);
    } };

    ghost invariant = { λ p. ArePlaced p.dots.items p.cells.held p.cells.spent };
}

// Joins the fields of the cell of an id with others that agree with them. If the id has no cell the cells stay, though no
// contract says this.
fn join_held<const LAST: u32>(cells: &mut Arena<LiveDot, LAST>, id: CellId, fields: &Fields)
    requires { (cell : live_dot) → map.get cells.old.held id ≡ Some cell
        → FieldsAgree cell.fields fields.now }
    ensures held { (cell : live_dot) → map.get cells.old.held id ≡ Some cell
        → cells.new.held
        ≡ map.insert cells.old.held id
        (joined_with cell fields.now) }
    ensures spent { cells.new.spent ≡ cells.old.spent }
    ensures spare { cells.new.spare ≡ cells.old.spare }
{
    if let Some(cell) = cells.get_mut(id) {
        cell.fields.join(fields);
    }
}

impl<const LAST: u32> PlacedCells<LAST> {
    // No placed dots. Takes no memory.
    pub(crate) fn new(alloc: Global) -> Self
        ensures dots { result.dots ≡ [] }
        ensures held { result.held ≡ map.empty }
        ensures spent { result.spent ≡ set.empty }
        ensures room { result.room ≡ 0 }
        ensures valid { IsPlaced result }
    {
        PlacedCells {
            dots: Devector::new(alloc),
            cells: Arena::new(alloc),
        }
    }

    // The allocator that it grows with. No contract says which it is.
    pub(crate) fn allocator(&self) -> Global {
        self.dots.allocator()
    }

    // The number of placed dots: with the retired places, at most 1,048,576.
    pub(crate) fn len(&self) -> usize
        ensures value { result ≡ length self.now.dots }
        ensures limit { retired_of LAST self.now.spent + result ≤ most_places }
        ensures worn { retired_of LAST self.now.spent * (LAST + 1) ≤ set.len self.now.spent }
    {
        let _ = self.cells.spare(); // so that its limit is known
        let _ = self.cells.retired(); // so that it is known how many ids they spent
        self.dots.len()
    }

    // The number of dots for which there is room in all.
    pub(crate) fn room(&self) -> usize
        ensures value { result ≡ self.now.room }
        ensures limit { retired_of LAST self.now.spent + result ≤ most_places }
    {
        self.dots
            .room()
            .min(self.dots.len() + self.cells.spare() as usize)
    }

    // The number of retired places.
    pub(crate) fn retired(&self) -> u32
        ensures { result ≡ retired_of LAST self.now.spent }
    {
        self.cells.retired()
    }

    // The dots in order, each with its id.
    pub(crate) fn placed(&self) -> PlacedDots<'_>
        ensures value { result.list.now ≡ self.now.dots }
        ensures valid { IsPlaced self.now }
    {
        PlacedDots {
            list: self.dots.as_slice(),
        }
    }

    // `Ok` with the place of a dot or, if it isn't placed, `Err` with the place where it would be inserted.
    pub(crate) fn find(&self, dot: Dot) -> Result<usize, usize>
        ensures found { IfOk result (IsCellAt (cells_of self.now) dot) }
        ensures missed { IfErr result (IsGap (cells_of self.now) dot) }
        ensures valid { IsPlaced self.now }
    {
        self.find_from(self.dots.len(), dot)
    }

    // `Ok` with the place of a dot or, if it isn't placed, `Err` with the place where it would be inserted. A guess is tried
    // first.
    pub(crate) fn find_from(&self, guess: usize, dot: Dot) -> Result<usize, usize>
        ensures found { IfOk result (IsCellAt (cells_of self.now) dot) }
        ensures missed { IfErr result (IsGap (cells_of self.now) dot) }
        ensures limit { IfOk result (λ place. place + 1 < 2 ^ 64) }
        ensures valid { IsPlaced self.now }
    {
        let dots = self.placed();
        let place = dots.place_from(guess, dot);
        if place == dots.list.len() {
            return Err(place);
        }
        if dots.list[place].dot != dot {
            return Err(place);
        }
        Ok(place)
    }

    // The id of the dot at a place.
    pub(crate) fn id_at(&self, place: usize) -> CellId
        requires { place < length self.now.dots }
        ensures { (p : placed_dot) → result ≡ (slice_index_or self.now.dots place p).id }
    {
        self.dots.as_slice()[place].id
    }

    // The cell at a place.
    pub(crate) fn cell_at(&self, place: usize) -> &LiveDot
        requires { place < length self.now.dots }
        ensures { (d : live_dot) → result.now ≡ slice_index_or (cells_of self.now) place d }
    {
        self.cells.get(self.dots.as_slice()[place].id).unwrap()
    }

    // The cell of an id, where it has one.
    pub(crate) fn cell(&self, id: CellId) -> Option<&LiveDot>
        ensures { option_copied result ≡ map.get self.now.held id }
    {
        self.cells.get(id)
    }

    // Makes room for `more` more dots. Only room changes. Errors, in order: 1 `Full`, exactly where the dots, the retired
    // places and `more` together are over 1,048,576; 2 `Memory`, never if there is room; after it there may be more room
    // than before.
    pub(crate) fn reserve(&mut self, more: usize) -> Result<(), ArenaFault>
        ensures room { OnOk result (length self.old.dots + more ≤ self.new.room) }
        ensures full { (result ≡ Err ArenaFault.Full)
            ↔ (most_places < retired_of LAST self.old.spent + length self.old.dots + more) }
        ensures had_room { length self.old.dots + more ≤ self.old.room → IsOk result }
        ensures dots { self.new.dots ≡ self.old.dots }
        ensures held { self.new.held ≡ self.old.held }
        ensures spent { self.new.spent ≡ self.old.spent }
        ensures grows { self.old.room ≤ self.new.room }
    {
        let _ = self.cells.spare(); // so that its limit is known
        let Ok(wanted) = u32::try_from(more) else {
            return Err(ArenaFault::Full);
        };
        self.cells.reserve(wanted)?;
        match self.dots.reserve(more) {
            Ok(()) => Ok(()),
            Err(_) => Err(ArenaFault::Memory),
        }
    }

    // Inserts the cell of a dot that isn't placed, at the place that `find` gives for it, in room that is there. Returns its
    // id, which no cell had before.
    #[inline(always)]
    pub(crate) fn insert(&mut self, place: usize, cell: LiveDot) -> CellId
        requires gap { IsGap (cells_of self.old) cell.dot place }
        requires room { length self.old.dots < self.old.room }
        ensures dots { self.new.dots
            ≡ insert self.old.dots place (record { dot = cell.dot; id = result }) }
        ensures held { self.new.held ≡ map.insert self.old.held result cell }
        ensures cells { cells_of self.new ≡ insert (cells_of self.old) place cell }
        ensures spent { self.new.spent ≡ self.old.spent }
        ensures free { map.get self.old.held result ≡ None }
        ensures unspent { set.contains self.old.spent result ≡ false }
        ensures lesser { (generation : ℕ) → generation < result.generation
            → set.contains self.old.spent (id_of result.index generation) ≡ true }
        ensures last { result.generation ≤ LAST }
        ensures room { self.old.room ≤ self.new.room }
        ensures valid { IsPlaced self.new }
    {
        let dot = cell.dot;
        let id = self.cells.place(cell);
        self.dots.insert(place, Placed { dot, id });
        id
    }

    // Removes the dot at a place, and returns its cell. Its id is spent. Room falls by at most one.
    pub(crate) fn remove(&mut self, place: usize) -> LiveDot
        requires { place < length self.old.dots }
        ensures value { (d : live_dot) → result ≡ slice_index_or (cells_of self.old) place d }
        ensures dots { self.new.dots ≡ remove self.old.dots place }
        ensures held { (p : placed_dot) → self.new.held
            ≡ map.remove self.old.held (slice_index_or self.old.dots place p).id }
        ensures cells { cells_of self.new ≡ remove (cells_of self.old) place }
        ensures spent { (p : placed_dot) → self.new.spent
            ≡ set.insert self.old.spent (slice_index_or self.old.dots place p).id }
        ensures room { self.old.room ≤ self.new.room + 1 }
        ensures valid { IsPlaced self.new }
    {
        let placed = self.dots.remove(place);
        self.cells.take(placed.id).unwrap()
    }

    // Removes the placed dots of a context that aren't live at the cursor `there`, and spends their ids. Walks the list of
    // dots to free their cells, and, if it freed one, again to remove the dots without a cell.
    pub(crate) fn thin(&mut self, known: &Context, there: Cursor<'_>)
        ensures freed { AreFreed self.old.dots self.old.held self.old.spent self.new.held
            self.new.spent }
        ensures chosen { AreChosen (dead_there known.now.dots there.entry) self.old.dots
            self.old.held self.new.held }
        ensures dots { self.new.dots ≡ with_cells self.new.held self.old.dots }
        ensures room { self.old.room + length self.new.dots ≤ self.new.room + length self.old.dots }
        ensures valid { IsPlaced self.new }
    {
        free_cells(&mut self.cells, self.dots.as_slice(), known, there);
        keep_dots(&self.cells, &mut self.dots);
    }

    // Joins the fields of the cell at a place with others that agree with them.
    pub(crate) fn join_fields(&mut self, place: usize, fields: &Fields)
        requires within { place < length self.old.dots }
        requires agree { (d : live_dot)
            → FieldsAgree (slice_index_or (cells_of self.old) place d).fields fields.now }
        ensures dots { self.new.dots ≡ self.old.dots }
        ensures held { (p : placed_dot) (d : live_dot) → self.new.held
            ≡ map.insert self.old.held (slice_index_or self.old.dots place p).id
            (joined_with (slice_index_or (cells_of self.old) place d) fields.now) }
        ensures cells { (d : live_dot) → cells_of self.new
            ≡ slice_set (cells_of self.old) place
            (joined_with (slice_index_or (cells_of self.old) place d) fields.now) }
        ensures spent { self.new.spent ≡ self.old.spent }
        ensures room { self.new.room ≡ self.old.room }
        ensures valid { IsPlaced self.new }
    {
        let id = self.dots.as_slice()[place].id;
        join_held(&mut self.cells, id, fields);
    }

    // A copy of the cells, in a new arena, with ids of their own. Fails only when out of memory.
    pub(crate) fn copy(&self) -> Result<Self, Memory>
        ensures cells { IfOk result (λ copy. cells_of copy ≡ cells_of self.now) }
        ensures spent { IfOk result (λ copy. copy.spent ≡ set.empty) }
        ensures valid { IfOk result (λ copy. IsPlaced copy) }
    {
        let mut copy = Self::new(self.allocator());
        if copy.reserve(self.dots.len()).is_err() {
            return Err(Memory);
        }
        for place in 0..self.dots.len() {
            copy.insert(place, self.cell_at(place).copy());
        }
        Ok(copy)
    }

    // Places the dots of others, none of which is placed here, in room that is there. Their cells are moved in the order of
    // `members`, which lists the ids of all of them; each of these ids is replaced by the new id of its cell. Takes no
    // memory.
    pub(crate) fn append(&mut self, others: Self, members: &mut Vec<CellId>)
        requires index { AreIndexed others members.old.items }
        requires apart { (id : Id) (cell : live_dot) → map.get others.held id ≡ Some cell
            → is_placed self.old.dots cell.dot ≡ false }
        requires room { length self.old.dots + length others.dots ≤ self.old.room }
        ensures moved { (arrived : List placed_dot)
            × AreMoved self.old.held self.old.spent others.entry.held members.old.items
            self.new.held arrived members.new.items }
        ensures spent { self.new.spent ≡ self.old.spent }
        ensures room { self.old.room ≤ self.new.room }
        ensures valid { IsPlaced self.new }
    {
        let PlacedCells { dots, mut cells } = others;
        let mut dots = dots.into_vec();
        move_cells(&mut self.cells, &mut cells, members, &mut dots);
        dots.sort_unstable_by_key(|placed| placed.dot);
        merge_dots(&mut self.dots, &dots);
    }

    // All placed cells, to be taken one by one from the first on.
    pub(crate) fn into_cells(self) -> TakenCells<LAST>
        ensures { result ≡ entries_of (cells_of self.entry) }
    {
        let PlacedCells { dots, cells } = self;
        TakenCells {
            dots: VecDeque::from_vec(dots.into_vec()),
            cells,
        }
    }
}

ghost use Rattle.std.specs.Prelude.{◌≡◌, ◌+◌, ◌<◌, ◌≤◌, ◌↔◌, ◌≢◌, [], IsOk, IsTrue, length};
ghost use Rattle.std.specs.Prelude.{IfOk, IfSome, IsSome, OnOk, Err, None};
ghost use Rattle.std.specs.Option.{option_map, option_or};
ghost use Rattle.std.specs.FinMap as map;
ghost use Rattle.std.specs.FinSet as set;
ghost use Rattle.std.specs.Vec.{vec_capacity};
ghost use Rattle.dots.specs.Values.{Dot};
ghost use Rattle.operations.specs.Conditions.{FieldsAgree};
ghost use Rattle.operations.specs.Rows.{dots_of, row_of, rows_of};
ghost use Rattle.operations.specs.Views.{row_view};
ghost use Rattle.live_cells.specs.CellIds.{IsNew, retired_of};
ghost use Rattle.live_cells.specs.LiveLists.{live_of};
ghost use Rattle.live_cells.specs.LiveStates.{AreLive, HasId, dead_there, fields_joined_at, spent_with};
ghost use Rattle.live_cells.specs.PlacedLists.{id_entries, is_placed};
ghost use Rattle.live_cells.specs.PlacedStates.{IsPlaced, cells_of};
ghost use Rattle.live_cells.specs.LiveStates.{HaveGrown, IsThinned, most_places};
ghost use Rattle.live_cells.specs.Holdings.{IsPresentIn, view_of, cell_read};

use crate::cells_lent::Cells;
use crate::cursor::Cursor;
use crate::dots_lent::Dots;
use crate::freeing::keep_ids;
use crate::live_dot::LiveDot;
use crate::member_ids::{copy_members, list_members, merge_members};
use crate::member_index::MemberIndex;
use crate::member_rows::row_in;
use crate::placed_cells::PlacedCells;
use crate::placed_dots::PlacedDots;
use crate::places::LAST_GENERATION;
use crate::rows_lent::Rows;
use crate::taken_cells::TakenCells;
use crate::{Cell, Row};
use causal_context::Context;
use devector::Devector;
use dots::{Dot, Member, Memory};
use lww_registers::Fields;
use op_arena::{ArenaFault, CellId};
use std::alloc::Global;
use std::marker::Model;

/// The live dots of a set, each with its member and fields, indexed by dot, by member and by id. Their cells are in an arena
/// of at most 1,048,576 places; a place of generation `LAST` is retired once its dot is removed. A live dot has an id, which
/// no other dot here ever has. Functions that only read and can't fail take no memory.
#[derive(Drop)]
pub struct LiveCells<const LAST: u32> {
    placed: PlacedCells<LAST>,
    // The ids in the order of their cells' members, and then of their dots.
    members: Devector<CellId>,
}

impl<const LAST: u32> Model for LiveCells<LAST> {
    ghost use Rattle.live_cells.specs.LiveStates.{LiveState, live_code};

    ghost Value = { LiveState };

    ghost coded = { live_code };

    ghost use Rattle.live_cells.specs.PlacedStates.{AreIndexed, live_state};

    ghost view = { λ l. live_state l.placed l.members.room };

    ghost invariant = { λ l. AreIndexed l.placed l.members.items };
}

impl<const LAST: u32> LiveCells<LAST> {
    /// An empty set of live dots. Takes no memory.
    pub fn new(alloc: Global) -> Self
        ensures live { result.live ≡ map.empty }
        ensures ids { result.ids ≡ map.empty }
        ensures spent { result.spent ≡ set.empty }
        ensures room { result.room ≡ 0 }
    {
        LiveCells {
            placed: PlacedCells::new(alloc),
            members: Devector::new(alloc),
        }
    }

    // The live dots of these placed cells. Makes their index in an empty list, which has room for it.
    pub(crate) fn of(placed: PlacedCells<LAST>, mut members: Vec<CellId>) -> Self
        requires empty { members.items ≡ [] }
        requires room { length placed.dots ≤ vec_capacity members }
        ensures live { result.live ≡ live_of (cells_of placed.entry) }
        ensures ids { result.ids ≡ map.from_sorted (id_entries placed.entry.dots) }
        ensures spent { result.spent ≡ placed.entry.spent }
    {
        list_members(&placed, &mut members);
        LiveCells {
            placed,
            members: Devector::from_vec(members),
        }
    }

    /// The allocator that it grows with. No contract says which it is.
    pub fn allocator(&self) -> Global {
        self.placed.allocator()
    }

    /// The number of live dots: with the retired places, at most 1,048,576.
    pub fn len(&self) -> usize
        ensures value { result ≡ map.len self.now.live }
        ensures limits { AreLive LAST self.now }
    {
        self.placed.len()
    }

    /// The number of live dots for which there is room in all: with the retired places, at most 1,048,576.
    pub fn room(&self) -> usize
        ensures value { result ≡ self.now.room }
        ensures limit { retired_of LAST self.now.spent + result ≤ most_places }
    {
        self.placed.room().min(self.members.room())
    }

    /// The number of retired places: each has spent an id in each of `LAST` + 1 generations.
    pub fn retired(&self) -> u32
        ensures { result ≡ retired_of LAST self.now.spent }
    {
        self.placed.retired()
    }

    /// The member and the fields of a dot, where it is live.
    pub fn get(&self, dot: Dot) -> Option<Cell<'_>>
        ensures { option_map cell_read result ≡ map.get self.now.live dot }
    {
        match self.placed.find(dot) {
            Ok(place) => Some(self.placed.cell_at(place).lent()),
            Err(_) => None,
        }
    }

    /// The id of a dot, where it is live.
    pub fn id(&self, dot: Dot) -> Option<CellId>
        ensures { result ≡ map.get self.now.ids dot }
    {
        match self.placed.find(dot) {
            Ok(place) => Some(self.placed.id_at(place)),
            Err(_) => None,
        }
    }

    /// The member and the fields of the live dot with this id; `None` if no live dot has it. A spent id gives `None` from
    /// then on.
    pub fn at(&self, id: CellId) -> Option<Cell<'_>>
        ensures some { IfSome result (λ cell. HasId self.now id (cell_read cell)) }
        ensures none { result ≡ None → (dot : Dot) → map.get self.now.ids dot ≢ Some id }
        ensures spent { IsTrue (set.contains self.now.spent id) → result ≡ None }
    {
        let cell = self.placed.cell(id)?;
        Some(cell.lent())
    }

    /// The live dots in order, each with its id.
    pub fn placed(&self) -> PlacedDots<'_>
        ensures dots { (dot : Dot) → is_placed result.list.now dot
            ≡ map.contains_key self.now.live dot }
        ensures ids { map.from_sorted (id_entries result.list.now) ≡ self.now.ids }
    {
        self.placed.placed()
    }

    // The index of members.
    fn index(&self) -> MemberIndex<'_, LAST>
        ensures { live_of (cells_of result.cells.now) ≡ self.now.live }
    {
        MemberIndex {
            cells: &self.placed,
            ids: self.members.as_slice(),
        }
    }

    /// Whether some dot is live with a member.
    pub fn contains(&self, member: &Member) -> bool
        ensures { IsTrue result ↔ IsPresentIn self.now.live member.now }
    {
        self.index().has_member(member)
    }

    /// Makes room for `more` more live dots. No fault changes the live dots. Errors, in order: 1 `Full`, exactly where the
    /// live dots, the retired places and `more` together are more than 1,048,576; 2 `Memory`, never if there is room; after
    /// it there may be more room than before.
    pub fn reserve(&mut self, more: usize) -> Result<(), ArenaFault>
        ensures room { OnOk result (map.len self.old.live + more ≤ self.new.room) }
        ensures full { (result ≡ Err ArenaFault.Full)
            ↔ (most_places < retired_of LAST self.old.spent + map.len self.old.live + more) }
        ensures had_room { map.len self.old.live + more ≤ self.old.room → IsOk result }
        ensures live { self.new.live ≡ self.old.live }
        ensures ids { self.new.ids ≡ self.old.ids }
        ensures spent { self.new.spent ≡ self.old.spent }
        ensures grows { self.old.room ≤ self.new.room }
    {
        self.placed.reserve(more)?;
        match self.members.reserve(more) {
            Ok(()) => Ok(()),
            Err(_) => Err(ArenaFault::Memory),
        }
    }

    /// Adds a live dot that isn't live yet, in room that is there, and returns its id, which no dot had before. Takes no
    /// memory.
    pub fn insert(&mut self, cell: LiveDot) -> CellId
        requires new { map.get self.old.live cell.dot ≡ None }
        requires room { map.len self.old.live < self.old.room }
        ensures live { self.new.live
            ≡ map.insert self.old.live cell.dot (cell.member, cell.fields) }
        ensures ids { self.new.ids ≡ map.insert self.old.ids cell.dot result }
        ensures new { IsNew self.old.ids self.old.spent self.old.spent result }
        ensures last { result.generation ≤ LAST }
        ensures had_none { map.get self.old.ids cell.dot ≡ None }
        ensures spent { self.new.spent ≡ self.old.spent }
        ensures room { self.old.room ≤ self.new.room }
    {
        let Err(place) = self.placed.find(cell.dot) else {
            unreachable!()
        };
        let index = MemberIndex {
            cells: &self.placed,
            ids: self.members.as_slice(),
        };
        let listed = index.place_for(&cell);
        let id = self.placed.insert(place, cell);
        self.members.insert(listed, id);
        id
    }

    /// Removes a dot and spends its id. Changes nothing if the dot isn't live. The room that is left is no less than before.
    pub fn remove(&mut self, dot: Dot)
        ensures live { self.new.live ≡ map.remove self.old.live dot }
        ensures ids { self.new.ids ≡ map.remove self.old.ids dot }
        ensures spent { self.new.spent ≡ spent_with (map.get self.old.ids dot) self.old.spent }
        ensures room { self.old.room + map.len self.new.live
            ≤ self.new.room + map.len self.old.live }
    {
        let Ok(place) = self.placed.find(dot) else {
            return;
        };
        let index = MemberIndex {
            cells: &self.placed,
            ids: self.members.as_slice(),
        };
        let listed = index.place_for(self.placed.cell_at(place));
        self.members.remove(listed);
        self.placed.remove(place);
    }

    /// Moves all live dots of others here, none of which is live here, into room that is there. Those dots get new ids here;
    /// the dots that were live keep theirs, and spent ids stay spent. The cells are moved, the lists of ids are merged once,
    /// and no memory is taken.
    pub fn append(&mut self, others: Self)
        requires apart { (q : Dot) → IsSome (map.get others.live q) → map.get self.old.live q ≡ None }
        requires room { map.len self.old.live + map.len others.live ≤ self.old.room }
        ensures live { (q : Dot) → map.get self.new.live q
            ≡ option_or (map.get self.old.live q) (map.get others.entry.live q) }
        ensures ids { HaveGrown self.old self.new }
        ensures room { self.old.room ≤ self.new.room }
    {
        let LiveCells { placed, members } = others;
        let mut ids = members.into_vec();
        self.placed.append(placed, &mut ids);
        merge_members(&self.placed, &mut self.members, &ids);
    }

    /// Joins the fields of a dot with others that agree with them, if the dot is live. Takes no memory. `guess` is the
    /// expected number of live dots before it; any number is correct, but if it is wrong the dot is searched for. Returns the
    /// guess for a dot right after it; no contract says which number it is.
    pub fn join_fields(&mut self, guess: usize, dot: Dot, fields: &Fields) -> usize
        requires { IfSome (map.get self.old.live dot) (λ h. FieldsAgree h.1 fields.now) }
        ensures live { self.new.live ≡ fields_joined_at self.old.live dot fields.now }
        ensures ids { self.new.ids ≡ self.old.ids }
        ensures spent { self.new.spent ≡ self.old.spent }
        ensures room { self.old.room ≤ self.new.room }
    {
        match self.placed.find_from(guess, dot) {
            Ok(place) => {
                self.placed.join_fields(place, fields);
                place + 1
            }
            Err(place) => place,
        }
    }

    /// A copy of the live dots, in a new arena, with ids of their own, of which none is spent. Fails only when out of memory.
    pub fn copy(&self) -> Result<Self, Memory>
        ensures live { IfOk result (λ copy. copy.live ≡ self.now.live) }
        ensures spent { IfOk result (λ copy. copy.spent ≡ set.empty) }
    {
        let placed = self.placed.copy()?;
        let index = MemberIndex {
            cells: &self.placed,
            ids: self.members.as_slice(),
        };
        let members = Devector::from_vec(copy_members(self.allocator(), index, &placed)?);
        Ok(LiveCells { placed, members })
    }

    /// The cells of all live dots, to be taken one by one from the first on.
    pub fn into_cells(self) -> TakenCells<LAST>
        ensures { result ≡ map.entries self.entry.live }
    {
        let LiveCells { placed, members: _ } = self;
        placed.into_cells()
    }
}

impl LiveCells<LAST_GENERATION> {
    /// The live dots in order, each with its cell. Exists only for the last generation of sets, `LAST_GENERATION`.
    pub fn iter(&self) -> Cells<'_>
        ensures { result ≡ map.entries self.now.live }
    {
        Cells::of(&self.placed)
    }

    /// A cursor, to look up many dots in order. Exists only for the last generation of sets, `LAST_GENERATION`.
    pub fn cursor(&self) -> Cursor<'_>
        ensures { result ≡ self.now.live }
    {
        Cursor::of(&self.placed)
    }

    /// Removes each live dot of a context that isn't live there, and spends its id. Walks the list of ids by dots, and then
    /// both lists if a dot was removed. Exists only for the last generation of sets, `LAST_GENERATION`.
    pub fn thin(&mut self, known: &Context, there: &Self)
        ensures thinned { IsThinned (dead_there known.now.dots there.now.live) self.old self.new }
        ensures few { map.len self.new.live ≤ map.len self.old.live }
    {
        self.placed.thin(known, there.cursor());
        keep_ids(&self.placed, &mut self.members);
    }

    /// The live dots of a member, in order. Exists only for the last generation of sets, `LAST_GENERATION`.
    pub fn dots(&self, member: &Member) -> Dots<'_>
        ensures { result ≡ dots_of (view_of self.now.live) member.now }
    {
        Dots::of(self.index(), member)
    }

    /// The row of a member, or `None` if no dot is live with it. Each field is that of the greatest stamp over its live dots,
    /// for equal stamps that of the least dot, and its default if none is set. Exists only for the last generation of sets,
    /// `LAST_GENERATION`.
    pub fn row(&self, member: &Member) -> Option<Row<'_>>
        ensures { option_map row_view result ≡ row_of (view_of self.now.live) member.now }
    {
        row_in(self.index(), member)
    }

    /// The rows of a queue, one by one: each interface that has a live dot there once, with its row, in the order of the
    /// interfaces' bytes. Exists only for the last generation of sets, `LAST_GENERATION`.
    pub fn rows(&self, queue: u16) -> Rows<'_>
        ensures { result ≡ rows_of (view_of self.now.live) queue }
    {
        Rows::of(self.index(), queue)
    }
}

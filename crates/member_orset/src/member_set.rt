ghost use Rattle.std.specs.Prelude.{◌≡◌, ◌≢◌, ◌↔◌, ◌<◌, ◌≤◌, ◌*◌, ◌^◌, Err, None, true, IfErr, IfOk};
ghost use Rattle.std.specs.Prelude.{IfSome, IsFalse, IsOk, IsTrue, OnOk, OnErr};
ghost use Rattle.std.specs.Option.{option_map};
ghost use Rattle.std.specs.FinMap as map;
ghost use Rattle.std.specs.FinSet as set;
ghost use Rattle.dots.specs.Values.{Dot};
ghost use Rattle.dots.specs.DotSets.{run_count};
ghost use Rattle.operations.specs.Rows.{dots_of, row_of, rows_of};
ghost use Rattle.operations.specs.Conditions.{Live, Dead};
ghost use Rattle.live_cells.specs.CellIds.{retired_of};
ghost use Rattle.member_orset.specs.Members.{SetsAgree, SetsInConflict, HasField, HasId, dead_among};
ghost use Rattle.member_orset.specs.Members.{IsJoinOf, IsPrepared, IsPresent, IsSet};
ghost use Rattle.member_orset.specs.Members.{IsRefusedFor, IsUnchanged, IsWithinLimits, KeepsIds};
ghost use Rattle.member_orset.specs.Members.{SaysTheSame, cells_joined, most_retired};
ghost use Rattle.member_orset.specs.Members.{condition_of, dot_view_of, joined_at};
ghost use Rattle.member_orset.specs.LiveDots.{dead_dots_of, live_dots_without};
ghost use Rattle.member_orset.specs.Refusals.{IsRefusedAssert, IsRefusedJoin, IsRefusedKill};
ghost use Rattle.operations.specs.Views.{row_view};
ghost use Rattle.member_orset.specs.Reads.{dots_seen_below};
ghost use Rattle.live_cells.specs.Holdings.{cell_read};

use crate::agreement::{can_hold, cells_agree};
use crate::dead::gather_dead;
use crate::edits::{bring, has_place, learn};
use crate::given_dots::GivenDots;
use crate::joining::{count_kept, count_unknown, drop_dead, make_room, take_all};
use crate::sameness::{are_same_cells, is_same_context};
use crate::seen::gather;
use crate::{Cell, Cells, Dots, JoinFault, Row, Rows};
use causal_context::{Context, ContextFault};
use dots::{Dot, MOST_LIVE, MOST_RUNS, Member, Memory, SiteId};
use live_cells::{LAST_GENERATION, LiveCells, LiveDot};
use lww_registers::Fields;
use op_arena::CellId;
use std::alloc::Global;
use std::marker::Model;

/// A set of queue members whose join is commutative, associative and idempotent (the optimized observed-remove set of
/// RR-8083). It knows dots: some of them are live, each with its member and fields, and all others are dead. An unknown dot
/// has no condition.
///
/// At most 16,384 dots are live, the known ones make at most 65,536 runs, and each live dot is known and has a field that is
/// set. A live dot has an id, which no other dot of the set ever has; ids of another set mean nothing here, so dots that a
/// join adds get new ones. Functions that only read and can't fail take no memory.
#[derive(Drop)]
pub struct MemberSet {
    context: Context,
    cells: LiveCells<LAST_GENERATION>,
}

impl Model for MemberSet {
    ghost use Rattle.member_orset.specs.Members.{Members, members_code};

    ghost Value = { Members };

    ghost coded = { members_code };

    ghost use Rattle.live_cells.specs.CellIds.{retired_of};
    ghost use Rattle.member_orset.specs.Members.{IsSet};
    ghost use Rattle.live_cells.specs.declared.places.TheConstants.{LAST_GENERATION};

    ghost view = { λ s. record {
      known = s.context.dots;
      live = s.cells.live;
      ids = s.cells.ids;
      spent = s.cells.spent;
      retired = retired_of LAST_GENERATION s.cells.spent;
      cell_room = s.cells.room;
      run_room = s.context.room;
    } };

    ghost invariant = { λ s. IsSet s.context.dots s.cells.live s.cells.spent };
}

impl MemberSet {
    /// The empty set, which knows no dot. Takes no memory.
    pub fn new(alloc: Global) -> MemberSet
        ensures known { result.known ≡ set.empty }
        ensures live { result.live ≡ map.empty }
        ensures ids { result.ids ≡ map.empty }
        ensures spent { result.spent ≡ set.empty }
        ensures retired { result.retired ≡ 0 }
    {
        MemberSet {
            context: Context::new(alloc),
            cells: LiveCells::new(alloc),
        }
    }

    // The set of a context and of live dots, which are within the limits that `MemberSet` states,
    // with at most as many spent ids as dead dots.
    pub(crate) fn of(context: Context, cells: LiveCells<LAST_GENERATION>) -> MemberSet
        requires { IsSet context.dots cells.live cells.spent }
        ensures known { result.known ≡ context.dots }
        ensures live { result.live ≡ cells.live }
        ensures ids { result.ids ≡ cells.ids }
        ensures spent { result.spent ≡ cells.spent }
        ensures retired { result.retired ≡ retired_of LAST_GENERATION cells.spent }
    {
        MemberSet { context, cells }
    }

    /// The known dots.
    pub fn context(&self) -> &Context
        ensures { result.now.dots ≡ self.now.known }
    {
        &self.context
    }

    /// The member and the fields of a dot, where it is live.
    pub fn live(&self, dot: Dot) -> Option<Cell<'_>>
        ensures value { option_map cell_read result ≡ map.get self.now.live dot }
        ensures limits { IsWithinLimits self.now }
    {
        let _ = self.context.runs(); // so that their limit is known
        let _ = self.cells.len(); // so that it is known what holds of them
        self.cells.get(dot)
    }

    /// Whether a member is there: some dot is live with it.
    pub fn contains(&self, member: &Member) -> bool
        ensures { IsTrue result ↔ IsPresent self.now member.now }
    {
        self.cells.contains(member)
    }

    /// How many dots are live: at most 16,384.
    pub fn cells(&self) -> usize
        ensures value { result ≡ map.len self.now.live }
        ensures limits { IsWithinLimits self.now }
    {
        let _ = self.context.runs(); // so that their limit is known
        self.cells.len()
    }

    /// How many dots are live that aren't in a context.
    pub fn live_without(&self, dead: &Context) -> usize
        ensures { result ≡ set.len (live_dots_without self.now dead.now.dots) }
    {
        self.cells.placed().count_outside(dead)
    }

    /// The live dots in order, each with its cell.
    pub fn iter(&self) -> Cells<'_>
        ensures value { result ≡ map.entries self.now.live }
    {
        self.cells.iter()
    }

    /// The live dots of a member, in order.
    pub fn dots(&self, member: &Member) -> Dots<'_>
        ensures { result ≡ dots_of (dot_view_of self.now) member.now }
    {
        self.cells.dots(member)
    }

    /// The row of a member, or `None` if no dot is live with it. Each field is that of the greatest stamp over its live
    /// dots, for equal stamps that of the least dot, and its default if none is set (RR-7506's last-writer registers).
    pub fn row(&self, member: &Member) -> Option<Row<'_>>
        ensures { option_map row_view result ≡ row_of (dot_view_of self.now) member.now }
    {
        self.cells.row(member)
    }

    /// The rows of a queue, one by one: each interface that has a live dot there once, with its row, in the order of the
    /// interfaces' bytes.
    pub fn rows(&self, queue: u16) -> Rows<'_>
        ensures { result ≡ rows_of (dot_view_of self.now) queue }
    {
        self.cells.rows(queue)
    }

    /// The id of a live dot. The dot keeps it while it is live, and no dot gets it again.
    pub fn id(&self, dot: Dot) -> Option<CellId>
        ensures { result ≡ map.get self.now.ids dot }
    {
        self.cells.id(dot)
    }

    /// The member and the fields of the live dot with this id; `None` if no live dot has it. A spent id gives `None` from
    /// then on.
    pub fn at(&self, id: CellId) -> Option<Cell<'_>>
        ensures some { IfSome result (λ cell. HasId self.now id (cell_read cell)) }
        ensures none { result ≡ None → (dot : Dot) → map.get self.now.ids dot ≢ Some id }
        ensures spent { IsTrue (set.contains self.now.spent id) → result ≡ None }
    {
        self.cells.at(id)
    }

    /// The number of retired places, of dead dots: at most 16,384, since each had 4,294,967,296 dots, which are dead.
    pub fn retired(&self) -> u32
        ensures value { result ≡ self.now.retired }
        ensures limit { result ≤ most_retired }
        ensures dead { result * 2 ^ 32
            ≤ set.len (dead_among self.now.known (map.contains_key self.now.live)) }
    {
        let _ = self.context.runs(); // so that the limits of the dots are known
        let _ = self.cells.len(); // so that it is known what holds of them
        self.cells.retired()
    }

    /// Makes a dot dead: it is known then, and not live. No fault changes what the set says. Errors, in order: 1 `RunsFull`,
    /// exactly where the known dots would make more than 65,536 runs; 2 `Memory`, never for a known dot, nor for an unknown
    /// one if there is room for one more run.
    pub fn kill(&mut self, dot: Dot) -> Result<(), JoinFault>
        ensures known { OnOk result (self.new.known ≡ set.insert self.old.known dot) }
        ensures conditions { OnOk result ((q : Dot)
            → condition_of self.new q ≡ joined_at self.old dot Dead q) }
        ensures refusals { IsRefusedKill self.old dot (λ fault. result ≡ Err fault) }
        ensures known_dot { set.contains self.old.known dot ≡ true → IsOk result }
        ensures with_room { run_count self.old.known < self.old.run_room
            → result ≢ Err JoinFault.Memory }
        ensures err { OnErr result (IsUnchanged self.old self.new) }
        ensures ids { KeepsIds self.old self.new }
    {
        let _ = self.cells.len(); // so that it is known what holds of them
        learn(&mut self.context, dot)?;
        self.cells.remove(dot);
        Ok(())
    }

    /// Asserts a dot with this member and these fields, of which one is set: an unknown dot is live then, a live one has its
    /// fields joined with these, and a dead one stays dead. No fault changes what the set says. Errors, in order: 1
    /// `Conflict`, exactly where the dot is live with another member, or with another value under the stamp of one of these
    /// fields; 2 `CellsFull`, exactly where there would be more than 16,384 live dots; 3 `RunsFull`, exactly where the known
    /// dots would make more than 65,536 runs; 4 `Memory`, never for a known dot, nor for an unknown one if there is room for
    /// one more live dot and one more run.
    pub fn assert(&mut self, dot: Dot, member: &Member, fields: &Fields) -> Result<(), JoinFault>
        requires { HasField fields.now }
        ensures known { OnOk result (self.new.known ≡ set.insert self.old.known dot) }
        ensures conditions { OnOk result (
            (q : Dot) → condition_of self.new q
            ≡ joined_at self.old dot (Live member.now fields.now) q
            ) }
        ensures refusals { IsRefusedAssert self.old dot member.now fields.now
            (λ fault. result ≡ Err fault) }
        ensures known_dot { set.contains self.old.known dot ≡ true → result ≢ Err JoinFault.Memory }
        ensures with_room { map.len self.old.live < self.old.cell_room
            → run_count self.old.known < self.old.run_room
            → result ≢ Err JoinFault.Memory }
        ensures err { OnErr result (IsUnchanged self.old self.new) }
        ensures ids { KeepsIds self.old self.new }
    {
        let _ = self.context.runs(); // so that their limits are known
        if !can_hold(self.cells.get(dot), member, fields) {
            return Err(JoinFault::Conflict);
        }
        if !has_place(&self.context, &self.cells, dot) {
            return Err(JoinFault::CellsFull);
        }
        if self.context.contains(dot) {
            self.cells.join_fields(0, dot, fields);
            return Ok(());
        }
        let cell = LiveDot {
            dot,
            member: member.copy(),
            fields: fields.copy(),
        };
        bring(&mut self.context, &mut self.cells, cell)
    }

    /// Whether both can be joined: no dot is live in both with two members, or with a field of one stamp and two values.
    pub fn agrees(&self, other: &MemberSet) -> bool
        ensures agree { IsTrue result ↔ SetsAgree self.now other.now }
        ensures conflict { IsFalse result ↔ SetsInConflict self.now other.now }
    {
        cells_agree(&self.cells, &other.cells)
    }

    /// Whether both say the same of each dot.
    pub fn same(&self, other: &MemberSet) -> bool
        ensures { IsTrue result ↔ SaysTheSame self.now other.now }
    {
        is_same_context(&self.context, &other.context) && are_same_cells(&self.cells, &other.cells)
    }

    /// Makes room for another set, which `absorb` then joins. The set says the same as before. Errors, in order: 1
    /// `Conflict`, exactly where `agrees` is false; 2 `CellsFull`, exactly where the join has more than 16,384 live dots; 3
    /// `RunsFull`, exactly where the known dots of both make more than 65,536 runs; 4 `Memory`, never if `prepared` is true.
    pub fn prepare(&mut self, other: &MemberSet) -> Result<(), JoinFault>
        ensures ready { OnOk result (IsPrepared self.new other.now) }
        ensures refusals { IsRefusedJoin self.old other.now (λ fault. result ≡ Err fault) }
        ensures again { IsPrepared self.old other.now → IsOk result }
        ensures kept { IsUnchanged self.old self.new }
        ensures cell_room { self.old.cell_room ≤ self.new.cell_room }
        ensures run_room { self.old.run_room ≤ self.new.run_room }
    {
        if !self.agrees(other) {
            return Err(JoinFault::Conflict);
        }
        if self.joined_cells(other) > MOST_LIVE {
            return Err(JoinFault::CellsFull);
        }
        make_room(
            &mut self.context,
            &mut self.cells,
            &other.context,
            other.cells.len(),
        )
    }

    /// Whether another set can be absorbed: the two agree, the join is small enough, and there is room for the runs of both
    /// and for the live dots of both.
    pub fn prepared(&self, other: &MemberSet) -> bool
        ensures { IsTrue result ↔ IsPrepared self.now other.now }
    {
        if !self.agrees(other) {
            return false;
        }
        if self.joined_cells(other) > MOST_LIVE {
            return false;
        }
        if !self.context.prepared(&other.context) {
            return false;
        }
        self.cells.len() + other.cells.len() <= self.cells.room()
    }

    /// Joins another set for which `prepared` is true: each dot has the join of its two conditions. Takes no memory and
    /// can't fail.
    pub fn absorb(&mut self, other: MemberSet)
        requires { IsPrepared self.old other }
        ensures joined { IsJoinOf self.old other self.new }
        ensures ids { KeepsIds self.old self.new }
    {
        let _ = self.cells.len(); // so that it is known what holds of them
        let MemberSet { context, cells } = other;
        drop_dead(&mut self.cells, &context, &cells);
        take_all(&self.context, &mut self.cells, cells);
        self.context.absorb(&context);
        let _ = self.cells.len(); // so that it is known what holds of them
    }

    /// Joins another set: each dot has the join of its two conditions. A fault returns the other set unchanged, and leaves
    /// what this one says. Errors, in order: 1 `Conflict`, exactly where `agrees` is false; 2 `CellsFull`, exactly where the
    /// join has more than 16,384 live dots; 3 `RunsFull`, exactly where the known dots of both make more than 65,536 runs; 4
    /// `Memory`, never if `prepared` is true.
    pub fn join(&mut self, other: MemberSet) -> Result<(), (JoinFault, MemberSet)>
        ensures joined { OnOk result (IsJoinOf self.old other self.new) }
        ensures refusals { IsRefusedJoin self.old other (λ fault. IsRefusedFor result fault) }
        ensures prepared { IsPrepared self.old other → IsOk result }
        ensures back { IfErr result (λ refused. refused.1 ≡ other) }
        ensures err { OnErr result (IsUnchanged self.old self.new) }
        ensures ids { KeepsIds self.old self.new }
    {
        if let Err(fault) = self.prepare(&other) {
            return Err((fault, other));
        }
        self.absorb(other);
        Ok(())
    }

    /// The given dots, with all dots that are dead here and older: of the site of a given dot, with a lesser count. An
    /// operation that asserts the given dots names these older ones. Errors, in order: 1 `RunsFull`, exactly where all these
    /// dots make more than 65,536 runs; 2 `Memory`.
    pub fn seen_below(&self, given: &[Dot]) -> Result<Context, ContextFault>
        ensures ok { IfOk result (λ seen. seen.dots ≡ dots_seen_below self.now given.now) }
        ensures full { (result ≡ Err ContextFault.RunsFull)
            ↔ (MOST_RUNS < run_count (dots_seen_below self.now given.now)) }
    {
        gather(
            self.cells.allocator(),
            &self.context,
            self.cells.placed(),
            GivenDots::of(given),
        )
    }

    /// The dead dots of a site: those that are known and not live. Errors, in order: 1 `RunsFull`, exactly where they make
    /// more than 65,536 runs; 2 `Memory`.
    pub fn dead_of(&self, site: SiteId) -> Result<Context, ContextFault>
        ensures ok { IfOk result (λ dead. dead.dots ≡ dead_dots_of self.now site) }
        ensures full { (result ≡ Err ContextFault.RunsFull)
            ↔ (MOST_RUNS < run_count (dead_dots_of self.now site)) }
    {
        gather_dead(
            self.cells.allocator(),
            &self.context,
            self.cells.placed(),
            site,
        )
    }

    // How many dots are live in the join with another set.
    fn joined_cells(&self, other: &MemberSet) -> usize
        ensures { result ≡ cells_joined self.now other.now }
    {
        let kept = count_kept(self.cells.placed(), &other.context, &other.cells);
        kept + count_unknown(&self.context, other.cells.placed().list)
    }

    /// A copy that says the same of each dot, with ids of its own, and no retired places. Fails only when out of memory.
    pub fn copy(&self) -> Result<MemberSet, Memory>
        ensures same { IfOk result (λ copy. SaysTheSame self.now copy) }
        ensures spent { IfOk result (λ copy. copy.spent ≡ set.empty) }
        ensures retired { IfOk result (λ copy. copy.retired ≡ 0) }
    {
        let Ok(context) = self.context.copy() else {
            return Err(Memory);
        };
        let cells = self.cells.copy()?;
        Ok(MemberSet { context, cells })
    }
}

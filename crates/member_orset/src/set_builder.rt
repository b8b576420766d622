ghost use Rattle.std.specs.Prelude.{◌≡◌, ◌<◌, IfOk, IsSome, OnErr, OnOk, true};
ghost use Rattle.std.specs.FinMap as map;
ghost use Rattle.std.specs.FinSet as set;
ghost use Rattle.std.specs.declared.cmp.Ordering.TheVariants.{Less};
ghost use Rattle.dots.specs.Values.{Dot};
ghost use Rattle.dots.specs.Orders.{dot_cmp};
ghost use Rattle.live_cells.specs.CellIds.{IsNew};
ghost use Rattle.member_orset.specs.Members.{HasField, SaysTheSame};

use crate::MemberSet;
use causal_context::Context;
use dots::{Dot, MOST_LIVE, Member, Memory};
use live_cells::{CellsBuilder, LAST_GENERATION, LiveDot};
use lww_registers::Fields;
use op_arena::CellId;
use std::alloc::Global;
use std::marker::Model;

/// A set that is built from its known dots: they are dead, except those that get a cell, one by one in order. The order
/// of the cells by members is made once, at the end.
#[derive(Drop)]
pub struct SetBuilder {
    context: Context,
    cells: CellsBuilder<LAST_GENERATION>,
}

impl Model for SetBuilder {
    ghost use Rattle.member_orset.specs.Members.{Members, members_code};

    ghost Value = { Members };

    ghost coded = { members_code };

    ghost use Rattle.live_cells.specs.CellIds.{retired_of};
    ghost use Rattle.live_cells.specs.declared.places.TheConstants.{LAST_GENERATION};

    ghost view = { λ b. record {
      known = b.context.dots;
      live = b.cells.live;
      ids = b.cells.ids;
      spent = b.cells.spent;
      retired = retired_of LAST_GENERATION b.cells.spent;
      cell_room = b.cells.room;
      run_room = b.context.room;
    } };

    ghost use Rattle.member_orset.specs.Members.{AreKept};

    ghost invariant = { λ b. AreKept b.context.dots b.cells.live };
}

impl SetBuilder {
    /// A builder in which all dots of the context are dead. Takes no memory.
    pub fn new(alloc: Global, context: Context) -> SetBuilder
        ensures known { result.known ≡ context.dots }
        ensures live { result.live ≡ map.empty }
        ensures ids { result.ids ≡ map.empty }
        ensures spent { result.spent ≡ set.empty }
    {
        SetBuilder {
            context,
            cells: CellsBuilder::new(alloc),
        }
    }

    /// The known dots.
    pub fn context(&self) -> &Context
        ensures { result.now.dots ≡ self.now.known }
    {
        &self.context
    }

    /// Adds a live dot, with copies of its member and fields, and returns its id. The dot is one of the context and
    /// greater than those before, a field is set, and fewer than 16,384 dots are live so far. Fails only when out of
    /// memory, which changes nothing.
    pub fn cell(&mut self, dot: Dot, member: &Member, fields: &Fields) -> Result<CellId, Memory>
        requires in_context { set.contains self.old.known dot ≡ true }
        requires greater { (q : Dot) → IsSome (map.get self.old.live q) → dot_cmp q dot ≡ Less }
        requires field { HasField fields.now }
        requires room { map.len self.old.live < MOST_LIVE }
        ensures ok { OnOk result (
            self.new.live ≡ map.insert self.old.live dot (member.now, fields.now)
            ) }
        ensures id { IfOk result (λ id. self.new.ids ≡ map.insert self.old.ids dot id) }
        ensures new { IfOk result (λ id. IsNew self.old.ids self.old.spent self.new.spent id) }
        ensures known { self.new.known ≡ self.old.known }
        ensures spent { self.new.spent ≡ self.old.spent }
        ensures err { OnErr result (self.new.live ≡ self.old.live) }
        ensures err_ids { OnErr result (self.new.ids ≡ self.old.ids) }
    {
        self.put(dot, member.copy(), fields.copy())
    }

    /// Adds a live dot, with its member and fields, and returns its id. The dot is one of the context and greater than
    /// those before, a field is set, and fewer than 16,384 dots are live so far. Fails only when out of memory, which
    /// changes nothing.
    pub fn put(&mut self, dot: Dot, member: Member, fields: Fields) -> Result<CellId, Memory>
        requires in_context { set.contains self.old.known dot ≡ true }
        requires greater { (q : Dot) → IsSome (map.get self.old.live q) → dot_cmp q dot ≡ Less }
        requires field { HasField fields }
        requires room { map.len self.old.live < MOST_LIVE }
        ensures ok { OnOk result (self.new.live ≡ map.insert self.old.live dot (member, fields)) }
        ensures id { IfOk result (λ id. self.new.ids ≡ map.insert self.old.ids dot id) }
        ensures new { IfOk result (λ id. IsNew self.old.ids self.old.spent self.new.spent id) }
        ensures known { self.new.known ≡ self.old.known }
        ensures spent { self.new.spent ≡ self.old.spent }
        ensures err { OnErr result (self.new.live ≡ self.old.live) }
        ensures err_ids { OnErr result (self.new.ids ≡ self.old.ids) }
    {
        let cell = LiveDot {
            dot,
            member,
            fields,
        };
        match self.cells.put(cell) {
            Ok(id) => Ok(id),
            Err(_) => Err(Memory),
        }
    }

    /// The set: the dots that got a cell are live, with the ids that were returned, and the others of the context dead.
    /// Takes no memory, and sorts the dots by their members if they were not added in that order.
    pub fn finish(self) -> MemberSet
        ensures same { SaysTheSame self result }
        ensures ids { result.ids ≡ self.ids }
        ensures spent { result.spent ≡ set.empty }
        ensures retired { result.retired ≡ 0 }
    {
        let SetBuilder { context, cells } = self;
        MemberSet::of(context, cells.finish())
    }
}

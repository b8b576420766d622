//! How many steps of a site are saved: a number in a cell, which one keeper raises. Whoever has a claim knows that the number is at least
//! that of the claim.
ghost use Rattle.std.specs.Prelude.{◌≡◌, ◌≤◌, ◌∷◌, [], true};
ghost use Rattle.crossbeam_utils.specs.Seq.{cell_view};
ghost use Rattle.stored_desk.specs.Marks.{beside, claim_of, keeper_at, known_saved};

use crate::StoredLedger;
use atomic_table::{Join, Split};
use crossbeam_utils::atomic::seq_cell::{Pass, RuledSeqCell};
use crossbeam_utils::rule::{Outcome, Protocol};
use dots::Memory;
use std::alloc::Global;
use std::marker::{Model, PhantomData};
use std::sync::Wait;

// What a pass of the cell knows: whether it is the keeper's, the mark that the keeper knows, and the least that it claims. No value of it
// is made.
pub(crate) struct MarkView {
    pub keeps: bool,
    pub saved: u64,
    pub least: u64,
}

// The rule of a mark.
pub(crate) struct MarkRule;

impl Protocol<[u64; 1], MarkView> for MarkRule {
    ghost use Rattle.stored_desk.specs.Marks.{IsMarked, keeper_at};

    ghost holds = { IsMarked };

    ghost first = { keeper_at 0 };
}

// The keeper sets the mark, and compares with it a claim that it has taken in.
pub(crate) struct Raise;

impl Outcome<[u64; 1], MarkView> for Raise {
    ghost use Rattle.stored_desk.specs.Marks.{Raised};

    ghost then = { Raised };
}

// A pass gives a claim of all that it knows to be saved.
pub(crate) struct ClaimOfKnown;

impl Split<MarkView> for ClaimOfKnown {
    ghost use Rattle.stored_desk.specs.Marks.{claim_of, known_saved};

    ghost left = { λ v. v };

    ghost right = { λ v. claim_of (known_saved v) };
}

// The keeper takes in a claim, to compare it.
pub(crate) struct TakeIn;

impl Join<MarkView> for TakeIn {
    ghost use Rattle.stored_desk.specs.Marks.{beside, claim_of};

    ghost both = { beside };

    ghost spent = { claim_of 0 };
}

type MarkCell = RuledSeqCell<[u64; 1], MarkView, MarkRule, 1>;

type MarkPass = Pass<[u64; 1], MarkView>;

// Sets the cell to `saved`, which is no less than before, by the keeper's pass. A claim that this has taken in is forgotten.
fn set<R: Wait>(cell: &MarkCell, rt: &R, pass: &mut MarkPass, saved: u64)
    requires cell { pass.old.table_id ≡ cell.now.table.shared.table_id }
    requires keeper { (cell_view pass.old).keeps ≡ true }
    requires up { (cell_view pass.old).saved ≤ saved }
    ensures cell { pass.new.table_id ≡ pass.old.table_id }
    ensures set { cell_view pass.new ≡ keeper_at saved }
    ensures claim { (cell_view pass.old).least ≤ (cell_view pass.old).saved }
{
    cell.swap_as::<Raise, R>(rt, pass, [saved]);
}

// The keeper's pass takes in that of a claim, with which no slot of the cell is out (`me.1`). A claim taken in before is forgotten.
fn take_in(cell: &MarkCell, keeper: &mut MarkPass, claim: MarkPass)
    requires cell { keeper.old.table_id ≡ cell.now.table.shared.table_id }
    requires claim { claim.table_id ≡ keeper.old.table_id }
    requires alone { claim.me.1 ≡ [] }
    ensures cell { keeper.new.table_id ≡ keeper.old.table_id }
    ensures both { cell_view keeper.new ≡ beside (cell_view keeper.old) (cell_view claim) }
{
    cell.join_pass::<TakeIn>(keeper, claim);
}

// The pass of a claim of all that a pass knows to be saved.
fn give(cell: &MarkCell, pass: &mut MarkPass) -> MarkPass
    requires { pass.old.table_id ≡ cell.now.table.shared.table_id }
    ensures cell { pass.new.table_id ≡ pass.old.table_id }
    ensures same { cell_view pass.new ≡ cell_view pass.old }
    ensures table { result.table_id ≡ pass.old.table_id }
    ensures claim { cell_view result ≡ claim_of (known_saved (cell_view pass.old)) }
    ensures alone { result.me.1 ≡ [] }
{
    cell.split_pass::<ClaimOfKnown>(pass)
}

/// A mark at 0, which no ledger names yet. Contracts see which mark it is (this project's own).
#[derive(Drop)]
pub struct NewMark {
    cell: MarkCell,
    pass: MarkPass,
}

impl Model for NewMark {
    ghost use Rattle.std.specs.Prelude.{◌≡◌};
    ghost use Rattle.atomic_table.specs.Seated.{TableId};
    ghost use Rattle.crossbeam_utils.specs.Seq.{cell_view};
    ghost use Rattle.stored_desk.specs.Marks.{keeper_at};

    ghost Value = { TableId };

    ghost view = { λ m. m.cell.table.shared.table_id };

    ghost invariant = { λ m. (m.pass.table_id ≡ m.cell.table.shared.table_id)
        × (cell_view m.pass ≡ keeper_at 0) };
}

impl NewMark {
    /// A new mark. Fails only when out of memory.
    pub fn new(alloc: Global) -> Result<NewMark, Memory> {
        match MarkCell::ruled(alloc, [0]) {
            Ok((cell, pass)) => Ok(NewMark { cell, pass }),
            Err(_) => Err(Memory),
        }
    }

    // The mark and its keeper, under the ledger's name.
    pub(crate) fn named<L: StoredLedger>(self) -> (Mark<L>, Keeper<L>)
        requires { self ≡ L.mark }
        ensures { result.1 ≡ 0 }
    {
        let NewMark { cell, pass } = self;
        (
            Mark {
                cell,
                of: PhantomData,
            },
            Keeper {
                pass,
                of: PhantomData,
            },
        )
    }
}

// The right to raise the mark. It is seen as the number that the mark has.
#[derive(Drop)]
pub(crate) struct Keeper<L: StoredLedger> {
    pass: MarkPass,
    of: PhantomData<L>,
}

impl<L: StoredLedger> Model for Keeper<L> {
    ghost use Rattle.std.specs.Prelude.{◌≡◌, ℕ};
    ghost use Rattle.crossbeam_utils.specs.Seq.{cell_view};
    ghost use Rattle.stored_desk.specs.Marks.{keeper_at};

    ghost Value = { ℕ };

    ghost view = { λ k. (cell_view k.pass).saved };

    ghost invariant = { λ k. (k.pass.table_id ≡ L.mark)
        × (cell_view k.pass ≡ keeper_at (cell_view k.pass).saved) };
}

// The knowledge that at least a number of steps is saved, from which others get claims. It is seen as that number.
#[derive(Drop)]
pub(crate) struct SharedClaim<L: StoredLedger> {
    pass: MarkPass,
    of: PhantomData<L>,
}

impl<L: StoredLedger> Model for SharedClaim<L> {
    ghost use Rattle.std.specs.Prelude.{◌≡◌, ℕ};
    ghost use Rattle.crossbeam_utils.specs.Seq.{cell_view};
    ghost use Rattle.stored_desk.specs.Marks.{known_saved};

    ghost Value = { ℕ };

    ghost view = { λ c. known_saved (cell_view c.pass) };

    ghost invariant = { λ c. c.pass.table_id ≡ L.mark };
}

// The knowledge that at least a number of steps is saved. It is seen as that number.
#[derive(Drop)]
pub(crate) struct Claim<L: StoredLedger> {
    pass: MarkPass,
    of: PhantomData<L>,
}

impl<L: StoredLedger> Model for Claim<L> {
    ghost use Rattle.std.specs.Prelude.{◌≡◌, ℕ, []};
    ghost use Rattle.crossbeam_utils.specs.Seq.{cell_view};

    ghost Value = { ℕ };

    ghost view = { λ c. (cell_view c.pass).least };

    ghost invariant = { λ c. (c.pass.table_id ≡ L.mark) × (c.pass.me.1 ≡ []) };
}

// The cell of the mark.
#[derive(Drop)]
pub(crate) struct Mark<L: StoredLedger> {
    cell: MarkCell,
    of: PhantomData<L>,
    ghost named: { cell.table.shared.table_id ≡ L.mark },
}

impl<L: StoredLedger> Mark<L> {
    // Raises the mark to `saved`, which is at least what it was.
    pub fn raise<R: Wait>(&self, rt: &R, keeper: &mut Keeper<L>, saved: u64)
        requires { keeper.old ≤ saved }
        ensures { keeper.new ≡ saved }
    {
        set(&self.cell, rt, &mut keeper.pass, saved);
    }

    // A claim of all that is saved.
    pub fn share(&self, keeper: &mut Keeper<L>) -> SharedClaim<L>
        ensures claim { result ≡ keeper.old }
        ensures same { keeper.new ≡ keeper.old }
    {
        SharedClaim {
            pass: give(&self.cell, &mut keeper.pass),
            of: PhantomData,
        }
    }

    // A claim of the same number.
    pub fn claim(&self, shared: &mut SharedClaim<L>) -> Claim<L>
        ensures claim { result ≡ shared.old }
        ensures same { shared.new ≡ shared.old }
    {
        Claim {
            pass: give(&self.cell, &mut shared.pass),
            of: PhantomData,
        }
    }

    // Shows to the proof that what is claimed is saved. `saved` is the number that the mark has, which stays.
    pub fn confirm<R: Wait>(&self, rt: &R, keeper: &mut Keeper<L>, claim: Claim<L>, saved: u64)
        requires { saved ≡ keeper.old }
        ensures same { keeper.new ≡ keeper.old }
        ensures saved { claim ≤ keeper.old }
    {
        let Claim { pass, .. } = claim;
        take_in(&self.cell, &mut keeper.pass, pass);
        set(&self.cell, rt, &mut keeper.pass, saved);
    }
}

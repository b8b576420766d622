ghost use Rattle.std.specs.Prelude.{◌≡◌, ◌^◌, ◌<◌};
ghost use Rattle.std.proofs.Common.{rules};
ghost use Rattle.std.specs.Cmp.{partial_order_from_own_ties};
ghost use Rattle.std.specs.Cmp.Rules.{comparing};
ghost use Rattle.std.specs.Ordering.{as_partial_cmp};
ghost use Rattle.op_arena.specs.Ids.{id_cmp};

use std::cmp::Ordering;
use std::marker::Model;

/// The id of one value in an arena: the index of its cell, and the number of values that the cell held before it.
/// Ids are ordered by index, then by generation.
#[derive(Clone, Copy, Debug, PartialEq, Eq)]
pub struct CellId {
    index: u32,
    generation: u32,
}

impl Model for CellId {
    ghost use Rattle.op_arena.specs.Ids.{Id};

    ghost Value = { Id };

    ghost view = { λ i. record { index = i.index; generation = i.generation } };

    ghost inverse = { λ i. record { index = i.index; generation = i.generation } };
}

impl CellId {
    /// The id of these two numbers.
    pub fn new(index: u32, generation: u32) -> CellId
        ensures { (result.index ≡ index) × (result.generation ≡ generation) }
    {
        CellId { index, generation }
    }

    /// The index of the cell.
    pub fn index(self) -> u32
        ensures value { result ≡ self.index }
        ensures limit { result < 2 ^ 32 }
    {
        self.index
    }

    /// How many values the cell held before this one.
    pub fn generation(self) -> u32
        ensures value { result ≡ self.generation }
        ensures limit { result < 2 ^ 32 }
    {
        self.generation
    }
}

impl Ord for CellId {
    ghost cmp = { id_cmp };

    ghost total = { Prim.search (comparing, rules) };

    ghost matches_partial_cmp = { Prim.search (comparing, rules) };

    ghost matches_eq = { Prim.search (comparing, rules) };

    fn cmp(&self, other: &CellId) -> Ordering {
        let by_index = self.index.cmp(&other.index);
        by_index.then(self.generation.cmp(&other.generation))
    }
}

impl PartialOrd for CellId {
    ghost partial_cmp = { as_partial_cmp id_cmp };

    ghost laws = { partial_order_from_own_ties (Prim.search (comparing, rules))
        (Prim.search (comparing, rules)) };

    fn partial_cmp(&self, other: &CellId) -> Option<Ordering> {
        Some(self.cmp(other))
    }
}

ghost use Rattle.std.specs.Prelude.{◌≡◌, ℕ, ◌+◌, ◌-◌, ◌*◌, ◌^◌, ◌<◌, ◌≤◌, ◌↔◌, cond, nat_lt};
ghost use Rattle.std.specs.Prelude.{is_some, option_copied, IsTrue, IsOk, OnOk, Err, None, Some};
ghost use Rattle.std.specs.Prelude.{◌&&◌, true, false};
ghost use Rattle.std.specs.Option.{option_copied_mut};
ghost use Rattle.std.specs.Borrow.{sem};
ghost use Rattle.std.specs.FinMap as map;
ghost use Rattle.std.specs.FinSet as set;
ghost use Rattle.op_arena.specs.Cells.{cells_len, cells_retired};
ghost use Rattle.op_arena.specs.Ids.{id_of};

use crate::arena_fault::ArenaFault;
use crate::cell_id::CellId;
use crate::chunks::Chunks;
use crate::slot::Slot;
use std::alloc::Global;
use std::marker::Model;

// The most cells of an arena.
const LIMIT: usize = 1_048_576;

/// Values, each under an id that the arena picks. A cell whose value was taken is used again in its next generation, up to generation
/// `LAST`, so an id never means another value. Values never move while they are held.
#[derive(Drop)]
pub struct Arena<T, const LAST: u32> {
    slots: Chunks<Slot<T>>,
    // The free cell to use next, which is the last one that was taken.
    free: Option<u32>,
    held: usize,
    retired: usize,
}

impl<T, const LAST: u32> Model for Arena<T, LAST> {
    ghost use Rattle.op_arena.specs.Cells.{Cells, cells_code};

    ghost Value = { Cells T };

    ghost coded = { cells_code T.code };

    ghost use Rattle.std.specs.Prelude.{◌-◌, ◌+◌};
    ghost use Rattle.op_arena.specs.Slots.{held_in, spent_in, IsArena};

    ghost view = { λ a. record {
      held = held_in a.slots.items;
      spent = spent_in a.slots.items;
      spare = a.slots.capacity - (a.held + a.retired);
    } };

    ghost invariant = { λ a. IsArena LAST a.slots.items a.slots.capacity a.free a.held a.retired };
}

impl<T, const LAST: u32> Arena<T, LAST> {
    ghost use Rattle.op_arena.specs.ArenaLends.{lends_value, lends_found};

    /// An arena with no value, no spent id and no room. Takes no memory.
    pub fn new(alloc: Global) -> Self
        ensures held { result.held ≡ map.empty }
        ensures spent { result.spent ≡ set.empty }
        ensures spare { result.spare ≡ 0 }
    {
        Arena {
            slots: Chunks::new(alloc),
            free: None,
            held: 0,
            retired: 0,
        }
    }

    /// How many values there are. Takes no memory.
    pub fn len(&self) -> u32
        ensures value { result ≡ cells_len self.now }
        ensures limit { result ≤ 2 ^ 20 }
    {
        self.held as u32
    }

    /// How many more values there is room for. Takes no memory.
    pub fn spare(&self) -> u32
        ensures value { result ≡ self.now.spare }
        ensures limit { cells_len self.now + cells_retired LAST self.now + result ≤ 2 ^ 20 }
    {
        (self.slots.capacity() - (self.held + self.retired)) as u32
    }

    /// How many cells are retired: the number of spent ids of generation `LAST`. At least `LAST` + 1 times as many ids are spent.
    /// Takes no memory.
    pub fn retired(&self) -> u32
        ensures value { result ≡ cells_retired LAST self.now }
        ensures limit { result ≤ 2 ^ 20 }
        ensures worn { result * (LAST + 1) ≤ set.len self.now.spent }
    {
        self.retired as u32
    }

    /// Makes room for `n` more values. Nothing moves, and no id changes its meaning, also if it fails.
    ///
    /// Errors, in order: 1. `Full`, exactly where the values, the retired cells and `n` together are more than 1,048,576; 2.
    /// `Memory`, never if there is room; after it there may be more room than before.
    pub fn reserve(&mut self, n: u32) -> Result<(), ArenaFault>
        ensures held { self.new.held ≡ self.old.held }
        ensures spent { self.new.spent ≡ self.old.spent }
        ensures room { OnOk result (n ≤ self.new.spare) }
        ensures grows { self.old.spare ≤ self.new.spare }
        ensures had_room { n ≤ self.old.spare → IsOk result }
        ensures full { (result ≡ Err ArenaFault.Full)
            ↔ (2 ^ 20 < cells_len self.old + cells_retired LAST self.old + n) }
    {
        let used = self.held + self.retired;
        let wanted = n as usize;
        if wanted > LIMIT - used {
            return Err(ArenaFault::Full);
        }
        match self.slots.reserve(used + wanted) {
            Ok(()) => Ok(()),
            Err(_) => Err(ArenaFault::Memory),
        }
    }

    /// Puts `value` into a cell and gives its id, which was never given before. Room must be left. Takes no memory.
    #[inline(always)]
    pub fn place(&mut self, value: T) -> CellId
        requires { 0 < self.old.spare }
        ensures held { self.new.held ≡ map.insert self.old.held result value }
        ensures spent { self.new.spent ≡ self.old.spent }
        ensures spare { self.new.spare + 1 ≡ self.old.spare }
        ensures was_not_held { map.get self.old.held result ≡ None }
        ensures was_not_spent { set.contains self.old.spent result ≡ false }
        ensures lesser_spent { (g : ℕ) → g < result.generation
            → set.contains self.old.spent (id_of result.index g) ≡ true }
        ensures last { result.generation ≤ LAST }
    {
        match self.free {
            Some(index) => {
                let slot = self.slots.get_mut(index as usize);
                let generation = slot.generation;
                let next = slot.fill(value);
                self.free = next;
                self.held += 1;
                CellId::new(index, generation)
            }
            None => {
                let index = self.slots.len() as u32;
                self.slots.push(Slot::new(value));
                self.held += 1;
                CellId::new(index, 0)
            }
        }
    }

    /// The value of `id`, if it is held. Takes no memory.
    pub fn get(&self, id: CellId) -> Option<&T>
        ensures value { option_copied result ≡ map.get self.now.held id }
        ensures spent { IsTrue (set.contains self.now.spent id) → result ≡ None }
    {
        let index = id.index() as usize;
        if index >= self.slots.len() {
            return None;
        }
        let slot = self.slots.get(index);
        if slot.generation != id.generation() {
            return None;
        }
        slot.value()
    }

    // Whether the value of `id` is held.
    fn holds(&self, id: CellId) -> bool
        ensures value { result ≡ map.contains_key self.now.held id }
        ensures spent { IsTrue (set.contains self.now.spent id) → result ≡ false }
    {
        self.get(id).is_some()
    }

    // The value of `id`, which is held, for writing.
    fn value_mut(&mut self, id: CellId) -> &mut T
        requires { IsTrue (map.contains_key self.old.held id) }
        ensures* writes_back { sem 𝓛 (lends_value T.row LAST.row self.entry id result) }
        ensures value { map.get self.old.held id ≡ Some result.now }
    {
        self.slots.get_mut(id.index() as usize).value_mut()
    }

    /// The value of `id` for writing, if it is held: when the reference ends, the last value written is that of `id`. Takes no
    /// memory.
    pub fn get_mut(&mut self, id: CellId) -> Option<&mut T>
        ensures* writes_back { sem 𝓛 (lends_found T.row LAST.row self.entry id result) }
        ensures value { option_copied_mut result ≡ map.get self.old.held id }
        ensures spent { IsTrue (set.contains self.old.spent id) → result ≡ None }
    {
        if self.holds(id) {
            Some(self.value_mut(id))
        } else {
            None
        }
    }

    /// Removes and returns the value of `id`, if it is held, and spends the id, which never holds a value again. If `id` isn't
    /// held, changes nothing. A cell whose value is taken in generation `LAST` is retired, and leaves no room. Takes no memory.
    #[inline(always)]
    pub fn take(&mut self, id: CellId) -> Option<T>
        ensures value { result ≡ map.get self.old.held id }
        ensures held { self.new.held ≡ map.remove self.old.held id }
        ensures spent { self.new.spent
            ≡ cond (is_some result) (set.insert self.old.spent id) self.old.spent }
        ensures spare { self.new.spare
            ≡ self.old.spare + cond (is_some result && nat_lt id.generation LAST) 1 0 }
        ensures unchanged { result ≡ None → self.new ≡ self.old }
        ensures was_spent { IsTrue (set.contains self.old.spent id) → result ≡ None }
    {
        if self.holds(id) {
            Some(self.take_held(id))
        } else {
            None
        }
    }

    // Removes and returns the value of `id`, which is held, and spends the id. The cell is the next to be used, or is retired if the
    // id is of generation `LAST`.
    #[inline(always)]
    fn take_held(&mut self, id: CellId) -> T
        requires { IsTrue (map.contains_key self.old.held id) }
        ensures value { map.get self.old.held id ≡ Some result }
        ensures held { self.new.held ≡ map.remove self.old.held id }
        ensures spent { self.new.spent ≡ set.insert self.old.spent id }
        ensures spare { self.new.spare ≡ self.old.spare + cond (nat_lt id.generation LAST) 1 0 }
        ensures was_not_spent { set.contains self.old.spent id ≡ false }
    {
        let free = self.free;
        let slot = self.slots.get_mut(id.index() as usize);
        let value = slot.empty(free, LAST);
        self.held -= 1;
        if id.generation() == LAST {
            self.retired += 1;
            return value;
        }
        self.free = Some(id.index());
        value
    }
}

//! A chunk: memory for a fixed number of values, which are added in order and never move.
ghost use Rattle.std.specs.Prelude.{◌≡◌, ℕ, ◌+◌, ◌<◌, ◌++◌, ◌∷◌, [], None, Some, length, map};
ghost use Rattle.std.specs.Prelude.{replicate, slice_get, IfOk};
ghost use Rattle.std.specs.Borrow.{sem};
ghost use Rattle.op_arena.specs.CellRows.{IsFilled};
ghost use Rattle.op_arena.specs.Columns.{column};

use crate::places::{Lease, Places};
use std::alloc::{AllocError, Global};
use std::marker::Model;
use std_alloc::room::may_hold;

// The first `len` places hold the values, in the order in which they were added, and the others are empty.
pub(crate) struct Chunk<T> {
    places: Places<T>,
    lease: Lease<T, Global>,
    capacity: usize,
    len: usize,
    alloc: Global,
}

impl<T> Model for Chunk<T> {
    ghost use Rattle.op_arena.specs.Columns.{Column, column, column_code};

    ghost Value = { Column T };

    ghost coded = { column_code T.code };

    ghost use Rattle.std.specs.Prelude.{◌≡◌};
    ghost use Rattle.op_arena.specs.CellRows.{values, IsFilled};

    ghost view = { λ c. column (values c.places.slots) c.capacity };

    ghost invariant = { λ c. IsFilled c.places.slots c.len c.capacity
        × (c.lease.first ≡ c.places.first) × (c.lease.count ≡ c.capacity)
        × (c.lease.alloc ≡ c.alloc) };
}

// Drops the values in the first `len` places, from the front.
fn drop_values<T: Drop>(places: &mut Places<T>, len: usize, capacity: usize)
    requires { IsFilled places.old.slots len capacity }
    ensures emptied { places.new.slots ≡ replicate capacity None }
    ensures first { places.new.first ≡ places.old.first }
{
    for index in 0..len {
        places.take(index);
    }
}

impl<T: Drop> Drop for Chunk<T> {
    // Drops the values from the front, and gives the memory back.
    fn drop(self) {
        let Chunk {
            mut places,
            lease,
            capacity,
            len,
            alloc,
        } = self;
        drop_values(&mut places, len, capacity);
        places.release(lease, &alloc, capacity);
    }
}

impl<T> Chunk<T> {
    ghost use Rattle.op_arena.specs.ColumnLends.{lends_item};

    // A chunk with memory for `capacity` values, and none yet. Fails when out of memory, or if no block
    // can be that large.
    pub(crate) fn new(alloc: Global, capacity: usize) -> Result<Self, AllocError>
        ensures { IfOk result (λ c. c ≡ column [] capacity) }
    {
        if !may_hold::<T>(capacity) {
            return Err(AllocError);
        }
        let (places, lease) = Places::add(&alloc, capacity)?;
        Ok(Chunk {
            places,
            lease,
            capacity,
            len: 0,
            alloc,
        })
    }

    // Adds a value after those that the chunk has.
    pub(crate) fn push(&mut self, value: T)
        requires { length self.old.items < self.old.capacity }
        ensures { self.new ≡ column (self.old.items ++ value ∷ []) self.old.capacity }
    {
        self.places.place(self.len, value);
        self.len += 1;
    }

    // The value at `index`.
    pub(crate) fn get(&self, index: usize) -> &T
        requires { index < length self.now.items }
        ensures { slice_get self.now.items index ≡ Some result.now }
    {
        self.places.read(index)
    }

    // The value at `index`, for writing.
    pub(crate) fn get_mut(&mut self, index: usize) -> &mut T
        requires { index < length self.old.items }
        ensures* writes_back { sem 𝓛 (lends_item T.row self.entry index result) }
        ensures value { slice_get self.old.items index ≡ Some result.now }
    {
        self.places.write(index)
    }
}

//! All chunks of an arena: one list of values that grows by whole chunks, so that no value ever moves.
ghost use Rattle.std.specs.Prelude.{◌≡◌, ℕ, ◌+◌, ◌^◌, ◌<◌, ◌≤◌, ◌++◌, ◌∷◌, [], Some, length};
ghost use Rattle.std.specs.Prelude.{slice_get, IsOk, OnOk};
ghost use Rattle.std.specs.Borrow.{sem};
ghost use Rattle.op_arena.specs.Columns.{column};
ghost use Rattle.op_arena.specs.Sizes.{IsPlaceOf};

use crate::chunk::Chunk;
use std::alloc::{AllocError, Global};
use std::marker::Model;

// How many values the first chunk holds.
const FIRST: usize = 1;

// Chunks of 1, 1, 2, 4, .. places. Each is full before the next one gets a value.
#[derive(Drop)]
pub(crate) struct Chunks<T> {
    chunks: Vec<Chunk<T>>,
    capacity: usize,
    len: usize,
    alloc: Global,
}

impl<T> Model for Chunks<T> {
    ghost use Rattle.op_arena.specs.Columns.{Column, column, column_code};

    ghost Value = { Column T };

    ghost coded = { column_code T.code };

    ghost use Rattle.std.specs.Prelude.{◌≡◌, ◌≤◌, length};
    ghost use Rattle.op_arena.specs.Sizes.{all_items, IsLaid, total};

    ghost view = { λ c. column (all_items c.chunks.items) c.capacity };

    ghost invariant = { λ c. IsLaid 0 c.len c.chunks.items
        × (c.capacity ≡ total (length c.chunks.items)) × (length c.chunks.items ≤ 21) };
}

// The chunk that the value at `index` is in, and its place there.
fn locate(index: usize) -> (usize, usize)
    ensures { IsPlaceOf index result.0 result.1 }
{
    if index < FIRST {
        return (0, index);
    }
    let power = 63 - index.leading_zeros() as usize;
    (power + 1, index - (1 << power))
}

impl<T> Chunks<T> {
    ghost use Rattle.op_arena.specs.ChunksLends.{lends_item};

    // No chunk. Takes no memory.
    pub(crate) fn new(alloc: Global) -> Self
        ensures { result ≡ column [] 0 }
    {
        Chunks {
            chunks: Vec::new(alloc),
            capacity: 0,
            len: 0,
            alloc,
        }
    }

    // How many values the chunks hold together.
    pub(crate) fn len(&self) -> usize
        ensures value { result ≡ length self.now.items }
        ensures within { result ≤ self.now.capacity }
    {
        self.len
    }

    // How many values the chunks have memory for together.
    pub(crate) fn capacity(&self) -> usize
        ensures value { result ≡ self.now.capacity }
        ensures limit { result ≤ 2 ^ 20 }
    {
        self.capacity
    }

    // Adds the next chunk, which is empty. Fails when out of memory, or if no block can be that large, and then
    // adds none, though no contract says this.
    pub(crate) fn grow(&mut self) -> Result<(), AllocError>
        requires { self.old.capacity < 2 ^ 20 }
        ensures items { self.new.items ≡ self.old.items }
        ensures grown { OnOk result (self.old.capacity < self.new.capacity) }
        ensures kept { self.old.capacity ≤ self.new.capacity }
        ensures limit { self.new.capacity ≤ 2 ^ 20 }
    {
        let size = if self.capacity == 0 {
            FIRST
        } else {
            self.capacity
        };
        self.chunks.reserve(1)?;
        let chunk = Chunk::new(self.alloc, size)?;
        self.chunks.push_reserved(chunk);
        self.capacity += size;
        Ok(())
    }

    // Adds chunks until there is memory for `needed` values. Fails as `grow` does; then chunks may have been
    // added.
    pub(crate) fn reserve(&mut self, needed: usize) -> Result<(), AllocError>
        requires { needed ≤ 2 ^ 20 }
        ensures items { self.new.items ≡ self.old.items }
        ensures room { OnOk result (needed ≤ self.new.capacity) }
        ensures had_room { needed ≤ self.old.capacity → IsOk result }
        ensures kept { self.old.capacity ≤ self.new.capacity }
        ensures limit { self.old.capacity ≤ 2 ^ 20 → self.new.capacity ≤ 2 ^ 20 }
    {
        while self.capacity() < needed {
            self.grow()?;
        }
        Ok(())
    }

    // Adds a value after those of all chunks.
    pub(crate) fn push(&mut self, value: T)
        requires { length self.old.items < self.old.capacity }
        ensures { self.new ≡ column (self.old.items ++ value ∷ []) self.old.capacity }
    {
        let (chunk, place) = locate(self.len);
        self.chunks[chunk].push(value);
        self.len += 1;
    }

    // The value at `index`, counted over all chunks.
    pub(crate) fn get(&self, index: usize) -> &T
        requires { index < length self.now.items }
        ensures { slice_get self.now.items index ≡ Some result.now }
    {
        let (chunk, place) = locate(index);
        self.chunks[chunk].get(place)
    }

    // The value at `index`, counted over all chunks, for writing.
    pub(crate) fn get_mut(&mut self, index: usize) -> &mut T
        requires { index < length self.old.items }
        ensures* writes_back { sem 𝓛 (lends_item T.row self.entry index result) }
        ensures value { slice_get self.old.items index ≡ Some result.now }
    {
        let (chunk, place) = locate(index);
        self.chunks[chunk].get_mut(place)
    }
}

//! The memory of one chunk: places side by side, each empty or holding a value.
//!
//! This module alone holds raw pointers, in six functions. Each is safe to call where its conditions hold.
ghost use Rattle.std.specs.Prelude.{◌≡◌, ℕ, ◌<◌, List, Option, Some, None, length, replicate};
ghost use Rattle.std.specs.Prelude.{get_or, slice_set, IfOk};
ghost use Rattle.std.specs.Borrow.{sem};
ghost use Rattle.std.specs.Vec.Ownership.{FitsInBlock};
ghost use base.Fml.{ftrue};
ghost use denote.RawPtr.{Ptr};
ghost use Rattle.op_arena.specs.CellRows.{Holds, owns_places, lends_places, owns_lease};

use std::alloc::{AllocError, Allocator};
use std::marker::{Model, PhantomData, Send, Sync};
use std::mem::{align_of, size_of};

// Places side by side. No place moves while they live, so an address stays valid.
pub(crate) struct Places<T> {
    first: *mut T,
    ghost slots: { List (Option T) },
}

impl<T> Model for Places<T> {
    ghost also_owns = { λ p. owns_places T.row p.first p.slots };

    ghost also_shares = { λ p _ κ. lends_places T.row p.first p.slots κ };
}

unsafe impl<T: Send> Send for Places<T> {}

unsafe impl<T: Sync> Sync for Places<T> {}

// The right to give the memory of `count` places back to `alloc`. It takes no space.
pub(crate) struct Lease<T, A: Allocator> {
    marker: PhantomData<*const (T, A)>,
    ghost first: { Ptr },
    ghost count: { ℕ },
    ghost alloc: { A },
}

impl<T, A: Allocator> Model for Lease<T, A> {
    ghost also_owns = { λ l. owns_lease T.row (A.dealloc_token l.alloc) l.first l.count };

    ghost also_shares = { λ _ _ _. ftrue };
}

unsafe impl<T, A: Allocator + Send> Send for Lease<T, A> {}

// A `&` to a lease gives no right.
unsafe impl<T, A: Allocator> Sync for Lease<T, A> {}

impl<T> Places<T> {
    ghost use Rattle.op_arena.specs.RowLends.{lends_value};

    // Memory for `count` places, which one block can hold, all empty, and the lease: the right to give it
    // back. Fails only when out of memory.
    pub(crate) fn add<A: Allocator>(
        alloc: &A,
        count: usize,
    ) -> Result<(Places<T>, Lease<T, A>), AllocError>
        requires { FitsInBlock T.row count }
        ensures { IfOk result
            (λ r. (r.0.slots ≡ replicate count None) × (r.1.first ≡ r.0.first) × (r.1.count ≡ count)
            × (r.1.alloc ≡ alloc.now)) }
    {
        match alloc.allocate(count * size_of::<T>(), align_of::<T>()) {
            Ok(block) => {
                let places = Places {
                    first: block as *mut T,
                };
                Ok((
                    places,
                    Lease {
                        marker: PhantomData,
                    },
                ))
            }
            Err(error) => Err(error),
        }
    }

    // Puts `value` into the empty place at `index`.
    pub(crate) fn place(&mut self, index: usize, value: T)
        requires { (index < length self.old.slots) × (get_or self.old.slots index None ≡ None) }
        ensures { (self.new.first ≡ self.old.first)
            × (self.new.slots ≡ slice_set self.old.slots index (Some value)) }
    {
        unsafe { self.first.add(index).write(value) }
    }

    // The value of the place at `index`.
    pub(crate) fn read(&self, index: usize) -> &T
        requires { Holds self.now.slots index }
        ensures { get_or self.now.slots index None ≡ Some result.now }
    {
        unsafe { &*self.first.add(index) }
    }

    // The value of the place at `index`, for writing.
    pub(crate) fn write(&mut self, index: usize) -> &mut T
        requires { Holds self.old.slots index }
        ensures* writes_back { sem 𝓛 (lends_value T.row self.entry index result) }
        ensures value { get_or self.old.slots index None ≡ Some result.now }
    {
        unsafe { &mut *self.first.add(index) }
    }

    // Moves the value of the place at `index` out, and leaves that empty.
    pub(crate) fn take(&mut self, index: usize) -> T
        requires { Holds self.old.slots index }
        ensures { (get_or self.old.slots index None ≡ Some result)
            × (self.new.first ≡ self.old.first)
            × (self.new.slots ≡ slice_set self.old.slots index None) }
    {
        unsafe { self.first.add(index).read() }
    }

    // Gives the memory of the places, all `count` of them empty, back to `alloc`, by the lease that `add`
    // gave with them.
    pub(crate) fn release<A: Allocator>(self, lease: Lease<T, A>, alloc: &A, count: usize)
        requires { (self.slots ≡ replicate count None) × (lease.first ≡ self.first)
            × (lease.count ≡ count) × (lease.alloc ≡ alloc.now) }
    {
        let Places { first } = self;
        let Lease { marker: _ } = lease;
        unsafe {
            alloc.deallocate(first as *mut u8, count * size_of::<T>(), align_of::<T>());
        }
    }
}

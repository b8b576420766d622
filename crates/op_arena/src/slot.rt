//! One cell of an arena.
ghost use Rattle.std.specs.Prelude.{◌≡◌, ◌≤◌, IsSome, Some, option_copied};
ghost use Rattle.std.specs.Borrow.{Lends, sem};
ghost use Rattle.op_arena.specs.Slots.{slot, value_of, IsFree, emptied};

use std::mem;

// A cell: how many values it held before, and what it holds. It is always a whole value.
#[derive(Drop)]
pub(crate) struct Slot<T> {
    pub(crate) generation: u32,
    pub(crate) state: State<T>,
}

// What a cell holds.
#[derive(Drop)]
pub(crate) enum State<T> {
    /// Nothing, and the index of the next free cell, if there is one.
    Free(Option<u32>),

    /// A value.
    Held(T),

    /// No value, and never again one.
    Retired,
}

impl<T> State<T> {
    ghost use Rattle.op_arena.specs.contracts.slot.State.{the_row};

    // The value that this state holds, if there is one.
    fn value(&self) -> Option<&T>
        ensures { option_copied result ≡ value_of self.now }
    {
        match self {
            State::Held(value) => Some(value),
            _ => None,
        }
    }

    // The value that this state holds, for writing.
    fn value_mut(&mut self) -> &mut T
        requires { IsSome (value_of self.old) }
        ensures* lends { sem 𝓛 (Lends (the_row T.row) T.row self.entry result State.Held) }
        ensures value { value_of self.old ≡ Some result.now }
    {
        match self {
            State::Held(value) => value,
            _ => unreachable!(),
        }
    }

    // The value that this state held, by itself.
    #[inline(always)]
    fn into_value(self) -> T
        requires { IsSome (value_of self) }
        ensures { value_of self ≡ Some result }
    {
        match self {
            State::Held(value) => value,
            _ => unreachable!(),
        }
    }

    // The index of the next free cell, of the state of a free one.
    fn into_next(self) -> Option<u32>
        requires { IsFree self }
        ensures { self ≡ State.Free result }
    {
        match self {
            State::Free(next) => next,
            _ => unreachable!(),
        }
    }
}

impl<T> Slot<T> {
    ghost use Rattle.op_arena.specs.SlotLends.{lends_value};

    // A cell with its first value, in generation 0.
    pub(crate) fn new(value: T) -> Self
        ensures { result ≡ slot 0 (State.Held value) }
    {
        Slot {
            generation: 0,
            state: State::Held(value),
        }
    }

    // The value that the cell holds, if there is one.
    pub(crate) fn value(&self) -> Option<&T>
        ensures { option_copied result ≡ value_of self.now.state }
    {
        self.state.value()
    }

    // The value that the cell holds, for writing.
    pub(crate) fn value_mut(&mut self) -> &mut T
        requires { IsSome (value_of self.old.state) }
        ensures* writes_back { sem 𝓛 (lends_value T.row self.entry result) }
        ensures value { value_of self.old.state ≡ Some result.now }
    {
        self.state.value_mut()
    }

    // Gives a free cell a value, and returns the index of the next free cell, if there is one.
    pub(crate) fn fill(&mut self, value: T) -> Option<u32>
        requires { IsFree self.old.state }
        ensures next { self.old.state ≡ State.Free result }
        ensures filled { self.new ≡ slot self.old.generation (State.Held value) }
    {
        mem::replace(&mut self.state, State::Held(value)).into_next()
    }

    // Removes and returns the value. The cell is free in its next generation, before `next`, or retired after the
    // last one.
    #[inline(always)]
    pub(crate) fn empty(&mut self, next: Option<u32>, last: u32) -> T
        requires { IsSome (value_of self.old.state) × (self.old.generation ≤ last) }
        ensures value { value_of self.old.state ≡ Some result }
        ensures emptied { self.new ≡ emptied last self.old.generation next }
    {
        if self.generation == last {
            return mem::replace(&mut self.state, State::Retired).into_value();
        }
        self.generation += 1;
        mem::replace(&mut self.state, State::Free(next)).into_value()
    }
}

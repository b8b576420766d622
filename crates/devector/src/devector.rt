ghost use Rattle.std.specs.Prelude.{◌≡◌, ◌+◌, ◌<◌, ◌≤◌, ◌++◌, ◌∷◌, [], IsOk, OnErr, OnOk, drop, length};
ghost use Rattle.std.specs.Prelude.{◌-◌, nat_lt, slice_index_or, slice_set, vec_len};
ghost use Rattle.std.specs.Fn.{CalledAt};
ghost use Rattle.std.specs.List.{insert, remove};
ghost use Rattle.std.specs.List.Retain.{IsFiltered};
ghost use Rattle.std.specs.Vec.{vec_capacity};

use std::alloc::{AllocError, Global};
use std::marker::Model;

/// Items of a type that can be copied, in order, in one piece of memory, with room before and after them. To remove or add an item
/// moves the items on one side of it: to remove one, those on the side with fewer; to add one, the same, if there is room on that
/// side.
#[derive(Drop)]
pub struct Devector<T> {
    items: Vec<T>,
    // The room before the first item: the number of items in front that are not used.
    first: usize,
}

impl<T> Model for Devector<T> {
    ghost use Rattle.devector.specs.Items.{Items, items_in, items_code};

    ghost Value = { Items T };

    ghost coded = { items_code T.code };

    ghost use Rattle.std.specs.Prelude.{◌≤◌, drop, vec_len};
    ghost use Rattle.std.specs.Vec.{vec_capacity};

    ghost view = { λ d. items_in (drop d.first d.items.items) (vec_capacity d.items) };

    ghost invariant = { λ d. d.first ≤ vec_len d.items };
}

// Drops the first `count` items. If there are none to drop, moves nothing.
fn drop_front<T: Copy>(items: &mut Vec<T>, count: usize)
    requires { count ≤ vec_len items.old }
    ensures items { items.new.items ≡ drop count items.old.items }
    ensures capacity { vec_capacity items.new ≡ vec_capacity items.old }
{
    if count == 0 {
        return;
    }
    let kept = items.len() - count;
    items.copy_within(count.., 0);
    items.truncate(kept);
}

impl<T: Copy> Devector<T> {
    /// No items. Takes no memory.
    pub fn new(alloc: Global) -> Self
        ensures items { result.items ≡ [] }
        ensures room { result.room ≡ 0 }
    {
        Devector {
            items: Vec::new(alloc),
            first: 0,
        }
    }

    /// The items of a vector, in its memory. Nothing is moved.
    pub fn from_vec(items: Vec<T>) -> Self
        ensures items { result.items ≡ items.items }
        ensures room { result.room ≡ vec_capacity items }
    {
        Devector { items, first: 0 }
    }

    /// A vector of the items, in their memory. If there is room before them, moves them all into it.
    pub fn into_vec(self) -> Vec<T>
        ensures items { result.items ≡ self.items }
        ensures capacity { vec_capacity result ≡ self.room }
    {
        let Devector { mut items, first } = self;
        drop_front(&mut items, first);
        items
    }

    /// The allocator that it grows with. No contract says which it is.
    pub fn allocator(&self) -> Global {
        *self.items.allocator()
    }

    /// The number of items.
    pub fn len(&self) -> usize
        ensures value { result ≡ length self.now.items }
        ensures fits { result ≤ self.now.room }
    {
        self.items.len() - self.first
    }

    /// The number of items for which there is memory in all.
    pub fn room(&self) -> usize
        ensures value { result ≡ self.now.room }
        ensures fits { length self.now.items ≤ result }
    {
        self.items.capacity()
    }

    /// The items, as one slice.
    pub fn as_slice(&self) -> &[T]
        ensures { result.now ≡ self.now.items }
    {
        &self.items[self.first..]
    }

    /// Replaces the item at a place.
    pub fn set(&mut self, place: usize, item: T)
        requires { place < length self.old.items }
        ensures items { self.new.items ≡ slice_set self.old.items place item }
        ensures room { self.new.room ≡ self.old.room }
    {
        self.items[self.first + place] = item;
    }

    /// Makes room for `more` more items, including the room before the first one. Fails only when out of memory, never if there is
    /// room, and then changes nothing.
    pub fn reserve(&mut self, more: usize) -> Result<(), AllocError>
        ensures room { OnOk result (length self.old.items + more ≤ self.new.room) }
        ensures had_room { length self.old.items + more ≤ self.old.room → IsOk result }
        ensures items { self.new.items ≡ self.old.items }
        ensures grows { self.old.room ≤ self.new.room }
        ensures err { OnErr result (self.new.room ≡ self.old.room) }
    {
        self.items.reserve(more.saturating_sub(self.first))
    }

    // Whether a place is nearer to the front than to the end.
    fn is_near_front(&self, place: usize) -> bool
        requires { place ≤ length self.now.items }
        ensures { result ≡ nat_lt place (length self.now.items - place) }
    {
        place < self.len() - place
    }

    // Whether there is room on that side of a place on which fewer items are. No contract says this: only the cost depends on it.
    fn has_room_near(&self, place: usize) -> bool
        requires { place ≤ length self.now.items }
    {
        if self.is_near_front(place) {
            self.first > 0
        } else {
            self.items.len() < self.items.capacity()
        }
    }

    // Moves all items so that half of the free room is on each side, if that is more than 1/128 of their number: then that many
    // can be added before a side is full again, so that few moves are needed for each.
    #[cold]
    #[inline(never)]
    fn move_to_middle(&mut self, filler: T)
        ensures items { self.new.items ≡ self.old.items }
        ensures room { self.old.room ≤ self.new.room }
    {
        let len = self.len();
        let first = (self.items.capacity() - len) / 2;
        if first <= len / 128 {
            return;
        }
        let end = self.items.len().max(first + len);
        let _ = self.items.resize(end, filler); // there is room
        self.items.copy_within(self.first..self.first + len, first);
        self.items.truncate(first + len);
        self.first = first;
    }

    // Moves all items to the middle, if that pays off, where there is no room on the nearer side of a place.
    fn make_room_near(&mut self, place: usize, filler: T)
        requires { place ≤ length self.old.items }
        ensures items { self.new.items ≡ self.old.items }
        ensures room { self.old.room ≤ self.new.room }
    {
        if !self.has_room_near(place) {
            self.move_to_middle(filler);
        }
    }

    /// Inserts an item at a place, in room that is there. Takes no memory. Moves the items before the place or those after it,
    /// whichever are fewer, if there is room on their side. Otherwise it first moves all, so that half of the free room is on each
    /// side, if that is more than 1/128 of their number; else it moves those on the other side.
    pub fn insert(&mut self, place: usize, item: T)
        requires within { place ≤ length self.old.items }
        requires room { length self.old.items < self.old.room }
        ensures items { self.new.items ≡ insert self.old.items place item }
        ensures room { self.old.room ≤ self.new.room }
    {
        self.make_room_near(place, item);
        let is_full_behind = self.items.len() == self.items.capacity();
        if self.first > 0 && (is_full_behind || self.is_near_front(place)) {
            self.items
                .copy_within(self.first..self.first + place, self.first - 1);
            self.first -= 1;
            self.items[self.first + place] = item;
        } else {
            let _ = self.items.insert(self.first + place, item); // there is room
        }
    }

    /// Appends an item, in room that is there. Takes no memory. Moves items as `insert` does.
    pub fn push(&mut self, item: T)
        requires { length self.old.items < self.old.room }
        ensures items { self.new.items ≡ self.old.items ++ item ∷ [] }
        ensures room { self.old.room ≤ self.new.room }
    {
        self.insert(self.len(), item);
    }

    /// Appends items, in room that is there. Takes no memory. If the room after the last item is too small, the present items are
    /// first moved to the front of the memory.
    pub fn append_slice(&mut self, others: &[T])
        requires { length self.old.items + length others.now ≤ self.old.room }
        ensures items { self.new.items ≡ self.old.items ++ others.now }
        ensures room { self.old.room ≤ self.new.room }
    {
        if others.len() > self.items.capacity() - self.items.len() {
            drop_front(&mut self.items, self.first);
            self.first = 0;
        }
        let _ = self.items.extend_from_slice(others); // there is room
    }

    /// Removes and returns the item at a place. Moves at most half of the others.
    pub fn remove(&mut self, place: usize) -> T
        requires { place < length self.old.items }
        ensures value { (d : T) → result ≡ slice_index_or self.old.items place d }
        ensures items { self.new.items ≡ remove self.old.items place }
        ensures room { self.new.room ≡ self.old.room }
    {
        if self.is_near_front(place) {
            let item = self.items[self.first + place];
            self.items
                .copy_within(self.first..self.first + place, self.first + 1);
            self.first += 1;
            item
        } else {
            self.items.remove(self.first + place)
        }
    }

    /// Removes the items that don't pass a test. Tests each once, in order, and moves the others to the front of the memory.
    pub fn retain<F: FnMut(&T) -> bool>(&mut self, keep: F)
        requires { F.IsAlwaysCallable keep }
        ensures items { IsFiltered (CalledAt F.FnMut) keep self.old.items self.new.items }
        ensures room { self.new.room ≡ self.old.room }
    {
        drop_front(&mut self.items, self.first);
        self.first = 0;
        self.items.retain(keep);
    }
}

//! Arenas: values under ids.
use op_arena::{Arena, ArenaFault, CellId};
use std::process::Abort;
use std::sync::atomic::{AtomicU64, Ordering};

// Makes room for a number of further values. Asserts what that gives.
fn reserve<const LAST: u32>(
    rt: &impl Abort,
    arena: &mut Arena<u32, LAST>,
    room: u32,
    given: Result<(), ArenaFault>,
) {
    assert!(*rt; arena.reserve(room) == given);
}

// Places a value, for which there must be room, and whose id must be this.
fn place<const LAST: u32>(rt: &impl Abort, arena: &mut Arena<u32, LAST>, value: u32, id: CellId) {
    assert!(*rt; arena.spare() > 0);
    assert!(*rt; arena.place(value) == id);
}

// Asserts the value of an id; `None` if it has none.
fn assert_value<const LAST: u32>(
    rt: &impl Abort,
    arena: &Arena<u32, LAST>,
    id: CellId,
    want: Option<u32>,
) {
    assert!(*rt; arena.get(id).copied() == want);
}

// Takes the value of an id, and asserts what it is.
fn take<const LAST: u32>(rt: &impl Abort, arena: &mut Arena<u32, LAST>, id: CellId, want: u32) {
    assert!(*rt; arena.take(id) == Some(want));
}

// Places a value in each cell from the index `first` on. If `is_taken`, takes it out again before the next one.
fn place_all<const LAST: u32>(
    rt: &impl Abort,
    arena: &mut Arena<u32, LAST>,
    first: u32,
    is_taken: bool,
) {
    for index in first..1_048_576 {
        let id = CellId::new(index, 0);
        place(rt, arena, index, id);
        assert_value(rt, arena, id, Some(index));
        if is_taken {
            take(rt, arena, id, index);
        }
    }
}

// An arena of one value and of 1,048,575 retired cells is full, and its value stays at its id.
#[test]
fn a_cell_of_one_generation_is_retired_after_one_value(rt: HostRuntime) {
    let mut arena: Arena<u32, 0> = Arena::new(rt.alloc());
    let first = CellId::new(0, 0);
    reserve(&rt, &mut arena, 1_048_576, Ok(()));
    place(&rt, &mut arena, 42, first);
    place_all(&rt, &mut arena, 1, true);
    assert!(rt; arena.len() == 1 && arena.retired() == 1_048_575);
    reserve(&rt, &mut arena, 1, Err(ArenaFault::Full));
    assert_value(&rt, &arena, CellId::new(1_048_575, 0), None);
    take(&rt, &mut arena, first, 42);
    assert!(rt; arena.len() == 0 && arena.retired() == 1_048_576);
    reserve(&rt, &mut arena, 1, Err(ArenaFault::Full));
    drop(arena);
}

#[test]
fn an_arena_has_1_048_576_cells(rt: HostRuntime) {
    let mut arena: Arena<u32, 9> = Arena::new(rt.alloc());
    reserve(&rt, &mut arena, 1_048_577, Err(ArenaFault::Full));
    reserve(&rt, &mut arena, 1_048_576, Ok(()));
    assert!(rt; arena.spare() == 1_048_576);
    place_all(&rt, &mut arena, 0, false);
    assert!(rt; arena.len() == 1_048_576 && arena.spare() == 0);
    reserve(&rt, &mut arena, 1, Err(ArenaFault::Full));
    assert_value(&rt, &arena, CellId::new(16, 0), Some(16));
    drop(arena);
}

// Of two cells of two generations the one that was taken last is used first. To make more room changes no value.
#[test]
fn a_taken_cell_is_used_in_its_next_generation(rt: HostRuntime) {
    let mut arena: Arena<u32, 1> = Arena::new(rt.alloc());
    let (first, second) = (CellId::new(0, 0), CellId::new(1, 0));
    let (next, other) = (CellId::new(1, 1), CellId::new(0, 1));
    reserve(&rt, &mut arena, 2, Ok(()));
    place(&rt, &mut arena, 1, first);
    place(&rt, &mut arena, 2, second);
    take(&rt, &mut arena, first, 1);
    take(&rt, &mut arena, second, 2);
    place(&rt, &mut arena, 3, next);
    place(&rt, &mut arena, 4, other);
    assert_value(&rt, &arena, second, None);
    reserve(&rt, &mut arena, 100_000, Ok(()));
    assert_value(&rt, &arena, next, Some(3));
    take(&rt, &mut arena, other, 4);
    assert_value(&rt, &arena, other, None);
    assert!(rt; arena.len() == 1 && arena.retired() == 1);
    drop(arena);
}

// A value that counts its drops.
struct Counted<'a> {
    drops: &'a AtomicU64,
}

impl Drop for Counted<'_> {
    fn drop(self) {
        let Counted { drops } = self;
        drops.fetch_add(1, Ordering::SeqCst);
    }
}

// Places 40 values that count their drops.
fn place_counted<'a>(rt: &impl Abort, arena: &mut Arena<Counted<'a>, 3>, drops: &'a AtomicU64) {
    assert!(*rt; arena.reserve(40).is_ok());
    for _ in 0..40u32 {
        assert!(*rt; arena.spare() > 0);
        arena.place(Counted { drops });
    }
}

#[test]
fn each_value_is_dropped_once(rt: HostRuntime) {
    let drops = AtomicU64::new(0);
    let mut arena: Arena<Counted<'_>, 3> = Arena::new(rt.alloc());
    place_counted(&rt, &mut arena, &drops);
    let taken = arena.take(CellId::new(39, 0));
    assert!(rt; drops.load(Ordering::SeqCst) == 0);
    drop(taken);
    assert!(rt; drops.load(Ordering::SeqCst) == 1);
    drop(arena);
    assert!(rt; drops.load(Ordering::SeqCst) == 40);
}

//! Devectors: lists with room at both ends.
use devector::Devector;
use std::process::Abort;

// Inserts an item at a place, for which there must be room.
fn insert(rt: &impl Abort, items: &mut Devector<u32>, place: usize, item: u32) {
    assert!(*rt; place <= items.len() && items.len() < items.room());
    items.insert(place, item);
}

// Appends the numbers from 3 to 999, and removes the least from the front before each further one.
fn pass_through(rt: &impl Abort, items: &mut Devector<u32>) {
    for item in 3..1000 {
        insert(rt, items, 3, item);
        assert!(*rt; items.len() == 4);
        assert!(*rt; items.remove(0) == item - 3);
    }
}

// What is popped at the front leaves room for pushes at the back, however often.
#[test]
fn a_queue_stays_in_its_room(rt: HostRuntime) {
    let mut items: Devector<u32> = Devector::new(rt.alloc());
    assert!(rt; items.reserve(4).is_ok());
    insert(&rt, &mut items, 0, 0);
    insert(&rt, &mut items, 1, 1);
    insert(&rt, &mut items, 2, 2);
    pass_through(&rt, &mut items);
    assert!(rt; items.len() < items.room());
    items.append_slice(&[1000]);
    assert!(rt; items.as_slice() == [997, 998, 999, 1000].as_slice());
    assert!(rt; items.room() == 4);
    drop(items);
}

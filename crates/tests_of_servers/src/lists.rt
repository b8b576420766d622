//! Lists of queues.
use crate::shared::name;
use replica::{ListFault, QueueList};
use std::alloc::Global;
use std::process::Abort;

// Asserts why there is no list of a number of names, of which those up to a number are different, and those after it are the same.
fn assert_list(rt: &impl Abort, alloc: Global, count: u32, last: u32, wanted: Option<ListFault>) {
    let mut names = Vec::new(alloc);
    for number in 0..count {
        let text = format!(in alloc; "queue {}", number.min(last)).expect(rt, "memory");
        let name = name(rt, text.as_bytes());
        drop(text);
        names.push(name).expect(rt, "memory");
    }
    let given = QueueList::new(alloc, &names).err();
    drop(names);
    assert!(*rt; given == wanted);
}

#[test]
fn a_list_has_1_to_256_names_that_differ(rt: HostRuntime) {
    let alloc = rt.alloc();
    assert_list(&rt, alloc, 0, 0, Some(ListFault::Empty));
    assert_list(&rt, alloc, 1, 0, None);
    assert_list(&rt, alloc, 2, 0, Some(ListFault::Twice));
    assert_list(&rt, alloc, 256, 255, None);
    assert_list(&rt, alloc, 257, 256, Some(ListFault::TooMany));
    assert_list(&rt, alloc, 257, 0, Some(ListFault::TooMany));
}

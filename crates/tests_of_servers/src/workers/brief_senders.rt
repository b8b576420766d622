//! An outlet that waits for a slow receiver only shortly: which items it drops, and when its receiver lacks none any more.
use crate::workers::links::{link, receive, shared};
use site_pumps::{BriefSender, Outlet};
use std::alloc::Global;
use std::process::Abort;
use std::sync::Wait;
use std::time::Clock;

// Sends an item of one byte.
fn send_byte<R: Abort + Wait + Clock>(rt: &R, alloc: Global, sender: &mut BriefSender, byte: u8) {
    let item = shared(rt, alloc, &[byte]);
    assert!(*rt; sender.send(rt, &item).is_ok());
    drop(item);
}

// After a whole the link takes a mark, an item without a byte, where it has room for one: after item 4, not after item 6. Once the receiver
// is gone, all items are dropped, and no whole is due.
#[test]
fn a_full_link_drops_items_until_it_takes_a_whole_and_a_closed_one_all(rt: HostRuntime) {
    let alloc = rt.alloc();
    let (end, mut receiver) = link(&rt, alloc, 2);
    let mut sender = BriefSender::new(end);
    send_byte(&rt, alloc, &mut sender, 1);
    send_byte(&rt, alloc, &mut sender, 2);
    assert!(rt; !sender.lacks_items());
    send_byte(&rt, alloc, &mut sender, 3);
    assert!(rt; sender.lacks_items() && !sender.end_whole(&rt, alloc));
    receive(&rt, &mut receiver, &[1]);
    receive(&rt, &mut receiver, &[2]);
    assert!(rt; sender.lacks_items() && !sender.end_whole(&rt, alloc));
    send_byte(&rt, alloc, &mut sender, 4);
    assert!(rt; sender.lacks_items() && sender.end_whole(&rt, alloc) && !sender.lacks_items());
    receive(&rt, &mut receiver, &[4]);
    receive(&rt, &mut receiver, &[]);
    send_byte(&rt, alloc, &mut sender, 5);
    send_byte(&rt, alloc, &mut sender, 6);
    assert!(rt; sender.end_whole(&rt, alloc));
    receive(&rt, &mut receiver, &[5]);
    receive(&rt, &mut receiver, &[6]);
    send_byte(&rt, alloc, &mut sender, 7);
    receive(&rt, &mut receiver, &[7]);
    drop(receiver);
    send_byte(&rt, alloc, &mut sender, 8);
    send_byte(&rt, alloc, &mut sender, 9);
    assert!(rt; !sender.lacks_items() && sender.end_whole(&rt, alloc));
    drop(sender);
}

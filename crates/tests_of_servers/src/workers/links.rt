//! Links: how many items they hold, what they give back, and when they end; and helpers that send and receive.
ghost use Rattle.std.specs.Prelude.{◌≡◌, ◌≤◌};

use crate::workers::gates::{MANY_TURNS, comes};
use dots::SharedBytes;
use site_links::{Link, LinkReceiver, LinkSender, compare};
use std::alloc::Global;
use std::process::Abort;
use std::sync::Wait;
use std::sync::atomic::{AtomicU64, Ordering};
use std::thread;
use std::thread::Threads;

// A copy of bytes, which its owners share.
pub(crate) fn shared(rt: &impl Abort, alloc: Global, bytes: &[u8]) -> SharedBytes {
    let bytes = Vec::from_slice(alloc, bytes).expect(rt, "memory");
    SharedBytes::new(alloc, bytes).expect(rt, "memory")
}

// Both ends of a link that holds `capacity` items.
pub(crate) fn link(rt: &impl Abort, alloc: Global, capacity: usize) -> (LinkSender, LinkReceiver)
    requires some { 1 ≤ capacity }
    requires most { capacity ≤ 1024 }
    ensures { result.1.link ≡ result.0.link }
{
    Link::pair(alloc, capacity).expect(rt, "memory")
}

// Sends an item, which must be taken.
fn send<R: Abort + Wait>(rt: &R, alloc: Global, sender: &mut LinkSender, item: &[u8])
    ensures { sender.new.link ≡ sender.old.link }
{
    let bytes = shared(rt, alloc, item);
    assert!(*rt; sender.send(rt, bytes).is_ok());
}

// Receives the next item, which must be this.
pub(crate) fn receive<R: Abort + Wait>(rt: &R, receiver: &mut LinkReceiver, item: &[u8])
    ensures { receiver.new.link ≡ receiver.old.link }
{
    let bytes = receiver.recv(rt).expect(rt, "an item");
    assert!(*rt; bytes.as_slice() == item);
    drop(bytes);
}

#[test]
fn items_are_counted_at_both_ends(rt: HostRuntime) {
    let (mut sender, mut receiver) = link(&rt, rt.alloc(), 1);
    send(&rt, rt.alloc(), &mut sender, b"a");
    receive(&rt, &mut receiver, b"a");
    send(&rt, rt.alloc(), &mut sender, b"b");
    assert!(rt; !sender.down() && !receiver.ended());
    assert!(rt; compare(sender, receiver) == (2, 1));
}

#[test]
fn bytes_come_back_once_the_receiver_is_gone(rt: HostRuntime) {
    let (mut sender, receiver) = link(&rt, rt.alloc(), 1);
    drop(receiver);
    let bytes = shared(&rt, rt.alloc(), b"a");
    let back = sender.send(&rt, bytes).err().expect(&rt, "bytes");
    assert!(rt; back.as_slice() == b"a".as_slice());
    assert!(rt; sender.down());
    drop(back);
    drop(sender);
}

// Sends all numbers below 1,026, and stores each before it is sent.
fn send_numbers<R: Abort + Wait>(rt: &R, alloc: Global, sender: LinkSender, begun: &AtomicU64) {
    let mut sender = sender;
    for number in 0..1_026u16 {
        begun.store(u64::from(number), Ordering::SeqCst);
        send(rt, alloc, &mut sender, &number.to_be_bytes());
    }
    drop(sender);
}

// Receives all numbers below 1,026, some turns after number 1,024 is to be sent, which waits until then. After them the link ends.
fn receive_late<R: Abort + Wait>(rt: &R, receiver: LinkReceiver, begun: &AtomicU64) {
    let mut receiver = receiver;
    assert!(*rt; comes(begun, 1_024, MANY_TURNS));
    for _ in 0..65_536u32 {
        thread::yield_now();
    }
    assert!(*rt; begun.load(Ordering::SeqCst) == 1_024);
    for number in 0..1_026u16 {
        receive(rt, &mut receiver, &number.to_be_bytes());
    }
    assert!(*rt; receiver.recv(rt).is_none() && receiver.ended());
    drop(receiver);
}

// The numbers from 0 to 1,023 wait in a link that holds as many items, and then its sender waits.
fn assert_waits<R: Abort + Threads + Wait + Sync>(rt: &R, alloc: Global) {
    let (sender, receiver) = link(rt, alloc, 1_024);
    let begun = AtomicU64::new(0);
    let begun = &begun;
    thread::join(
        rt,
        move || send_numbers(rt, alloc, sender, begun),
        move || receive_late(rt, receiver, begun),
    );
}

#[test]
fn as_many_items_wait_as_the_link_holds_and_then_the_sender_waits(rt: HostRuntime) {
    assert_waits(&rt, rt.alloc());
}

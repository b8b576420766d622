//! A peer's box.
use dots::SharedBytes;
use peer_box::{Due, PeerBox};
use std::alloc::Global;
use std::process::Abort;

// What is due next, in words: `-` for nothing, `whole`, or the bytes of a frame as a text.
fn assert_due(rt: &impl Abort, peer: &mut PeerBox, wanted: &str) {
    match peer.take() {
        Due::Nothing => assert!(*rt; wanted == "-"),
        Due::Whole => assert!(*rt; wanted == "whole"),
        Due::Frame(bytes) => {
            assert!(*rt; bytes.as_slice() == wanted.as_bytes());
            drop(bytes);
        }
    }
}

// Puts a frame, for which there is memory.
fn put(rt: &impl Abort, alloc: Global, peer: &mut PeerBox, frame: &str) {
    let bytes = Vec::from_slice(alloc, frame.as_bytes()).expect(rt, "memory");
    let bytes = SharedBytes::new(alloc, bytes).expect(rt, "memory");
    peer.put(&bytes).expect(rt, "memory");
    drop(bytes);
}

// A whole takes the place of frames in a box that is opened, or full, or that must send one.
#[test]
fn frames_wait_up_to_a_limit(rt: HostRuntime) {
    let alloc = rt.alloc();
    let mut peer = PeerBox::new(alloc, 10);
    put(&rt, alloc, &mut peer, "lost");
    assert_due(&rt, &mut peer, "-");
    peer.open();
    put(&rt, alloc, &mut peer, "lost");
    assert_due(&rt, &mut peer, "whole");
    assert!(rt; peer.is_idle());
    put(&rt, alloc, &mut peer, "12345");
    put(&rt, alloc, &mut peer, "6789a");
    assert_due(&rt, &mut peer, "12345");
    put(&rt, alloc, &mut peer, "bcdef");
    put(&rt, alloc, &mut peer, "g");
    assert_due(&rt, &mut peer, "whole");
    put(&rt, alloc, &mut peer, "12345");
    peer.require_whole();
    assert_due(&rt, &mut peer, "whole");
    assert_due(&rt, &mut peer, "-");
    put(&rt, alloc, &mut peer, "12345");
    peer.close();
    assert_due(&rt, &mut peer, "-");
    drop(peer);
}

//! Frames as bytes: one that is decoded in version 1 and encoded again in version 2, with ample memory or not. The cases of
//! `cases/frames` show what frames say, and the faults of other bytes.
use crate::shared::{ADDED, bytes, print};
use delta_codec::{DecodeFault, Frame, decode, encode};
use std::alloc::Global;
use std::process::Abort;

// Encodes a frame, which must give these bytes. Returns whether there was memory for that.
fn is_spelled(rt: &impl Abort, alloc: Global, frame: &Frame, bytes: &[u8]) -> bool {
    match encode(alloc, frame) {
        Ok(spelled) => {
            assert!(*rt; spelled.as_slice() == bytes);
            drop(spelled);
            true
        }
        Err(_) => false,
    }
}

// Decodes a frame, which is the first of its site, and encodes it again, which must give the other bytes. Returns whether there was
// memory for both.
fn is_read_and_spelled(rt: &impl Abort, alloc: Global, bytes: &[u8], again: &[u8]) -> bool {
    match decode(alloc, bytes) {
        Ok((frame, len)) => {
            assert!(*rt; frame.number == 1 && len == bytes.len());
            let is_spelled = is_spelled(rt, alloc, &frame, again);
            drop(frame);
            is_spelled
        }
        Err(fault) => {
            assert!(*rt; fault == DecodeFault::Memory);
            false
        }
    }
}

// A frame without a ring has the same bytes in both versions, except the version itself. tools/memory_tests.py runs this test with each
// allocation refused in turn.
#[test]
fn a_frame_is_read_and_spelled_again_or_memory_is_wanted(rt: HostRuntime) {
    let first = bytes(&rt, rt.alloc(), ADDED);
    let mut again = bytes(&rt, rt.alloc(), ADDED);
    *again.get_mut(6).expect(&rt, "a version") = 2;
    print(&rt, "ready");
    let is_spelled = is_read_and_spelled(&rt, rt.alloc(), &first, &again);
    print(&rt, if is_spelled { "spelled" } else { "refused" });
    drop(first);
    drop(again);
}

//! What these tests make and assert alike.
use crate::shared::bytes;
use link_hello::Card;
use link_keys::Key;
use std::alloc::Global;
use std::process::Abort;

// The digest of the queues `sales` and `support`.
pub(crate) const QUEUES: &str = "73f9bf545c85c81aa43403020558947f8329b0323c2feeef4052a2aed19b1976";

// The bytes that some parts spell together, each in hexadecimal.
pub(crate) fn joined(rt: &impl Abort, alloc: Global, parts: &[&str]) -> Vec<u8> {
    let mut all = Vec::new(alloc);
    for part in parts {
        let bytes = bytes(rt, alloc, part);
        all.extend_from_slice(&bytes).expect(rt, "memory");
        drop(bytes);
    }
    all
}

// The 32 bytes that hexadecimal digits spell.
pub(crate) fn bytes32(rt: &impl Abort, digits: &str) -> [u8; 32] {
    let mut bytes = [0u8; 32];
    hex::decode_to_slice(digits.as_bytes(), &mut bytes).expect(rt, "digits");
    bytes
}

pub(crate) fn key(rt: &impl Abort, digits: &str) -> Key {
    Key::new(bytes32(rt, digits))
}

// Asserts what bytes are: those that some parts spell together, each in hexadecimal.
pub(crate) fn assert_bytes(rt: &impl Abort, alloc: Global, some: &[u8], parts: &[&str]) {
    let want = joined(rt, alloc, parts);
    assert!(*rt; some == want.as_slice());
    drop(want);
}

// Bytes that count up from a first one.
fn counting(first: u8) -> [u8; 16] {
    let mut bytes = [first; 16];
    for (byte, step) in bytes.iter_mut().zip(0..16) {
        *byte = byte.wrapping_add(step);
    }
    bytes
}

// The card of a site whose store's name counts up from a byte, and its process's name from 32 less.
pub(crate) fn card(rt: &impl Abort, number: u8, first: u8, starts: u64) -> Card {
    Card {
        number,
        store: counting(first),
        starts,
        process: counting(first.wrapping_sub(0x20)),
        queues: bytes32(rt, QUEUES),
    }
}

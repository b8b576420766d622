//! Codes. Hellos and items show keys of secrets and tags.
use crate::links::shared::assert_bytes;
use link_keys::{Key, Mac};
use std::alloc::Global;
use std::process::Abort;

// Asserts the code of a message that is added in two pieces. The key is filled up with zeros; it has the same codes then (RFC 2104).
fn assert_code(rt: &impl Abort, alloc: Global, key: &[u8], pieces: [&[u8]; 2], digits: &str) {
    let mut filled = [0u8; 32];
    for (byte, other) in filled.iter_mut().zip(key) {
        *byte = *other;
    }
    let key = Key::new(filled);
    let mut mac = Mac::new(&key);
    drop(key);
    mac.add(pieces[0]);
    mac.add(pieces[1]);
    assert_bytes(rt, alloc, &mac.finish(), &[digits]);
}

// The test cases 1 to 4 of RFC 4231.
#[test]
fn codes_are_those_of_rfc_4231(rt: HostRuntime) {
    let alloc = rt.alloc();
    let counting = [
        1, 2, 3, 4, 5, 6, 7, 8, 9, 10, 11, 12, 13, 14, 15, 16, 17, 18, 19, 20, 21, 22, 23, 24, 25,
    ];
    let digits = "b0344c61d8db38535ca8afceaf0bf12b881dc200c9833da726e9376c2e32cff7";
    assert_code(&rt, alloc, &[0x0b; 20], [b"Hi", b" There"], digits);
    let digits = "5bdcc146bf60754e6a042426089575c75a003f089d2739839dec58b964ec3843";
    let pieces: [&[u8]; 2] = [b"what do ya want ", b"for nothing?"];
    assert_code(&rt, alloc, b"Jefe", pieces, digits);
    let digits = "773ea91e36800e46854db8ebd09181a72959098b3ef8c122d9635514ced565fe";
    assert_code(&rt, alloc, &[0xaa; 20], [&[0xdd; 50], b""], digits);
    let digits = "82558a389a443c0ea4cc819899f2083a85f0faa3e578f8077a2e3ff46729665b";
    assert_code(&rt, alloc, &counting, [b"", &[0xcd; 50]], digits);
}

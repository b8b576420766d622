//! Hellos, byte by byte. Each site writes its next bytes before it waits for the other's answer to them.
ghost use Rattle.std.specs.Prelude.{◌≡◌, ◌<◌, OnOk, Some, false};

use crate::links::shared::{QUEUES, assert_bytes, bytes32, card, joined};
use crate::parse::list;
use ami_text::{MemorySink, MemorySource, Sink, Source};
use link_hello::{
    HelloFault, LinkKeys, Refusal, Transcript, accept_hello, begin_hello, end_hello, give_verdict,
    queues_digest,
};
use link_keys::Key;
use std::alloc::Global;
use std::process::Abort;

const SECRET: &[u8] = b"correct horse battery staple 123";

// The nonces of the site that dials and of the one that accepts: bytes that count up from 0 and from 32.
const DIALER: &str = "000102030405060708090a0b0c0d0e0f101112131415161718191a1b1c1d1e1f";

const ACCEPTOR: &str = "202122232425262728292a2b2c2d2e2f303132333435363738393a3b3c3d3e3f";

// The openings of both.
const DIALER_OPENS: &str =
    "51534c4b02000102030405060708090a0b0c0d0e0f101112131415161718191a1b1c1d1e1f";

const ACCEPTOR_OPENS: &str =
    "51534c4b02202122232425262728292a2b2c2d2e2f303132333435363738393a3b3c3d3e3f";

// The card and the code of the site that accepts: site 1, of the store `a0a1..`, which was started 3 times; and the same without its last
// byte, `90`.
const OFFER: &str = "01a0a1a2a3a4a5a6a7a8a9aaabacadaeaf0000000000000003\
    808182838485868788898a8b8c8d8e8f\
    73f9bf545c85c81aa43403020558947f8329b0323c2feeef4052a2aed19b1976\
    7905cb6eae04eca0e24d6832826adbe1353054e9b1cb541915e5dd5fedabe490";

const SHORT_OFFER: &str = "01a0a1a2a3a4a5a6a7a8a9aaabacadaeaf0000000000000003\
    808182838485868788898a8b8c8d8e8f\
    73f9bf545c85c81aa43403020558947f8329b0323c2feeef4052a2aed19b1976\
    7905cb6eae04eca0e24d6832826adbe1353054e9b1cb541915e5dd5fedabe4";

// What the site that dials answers after its verdict: site 0, of the store `d0d1..`, which was started 7 times; with the codes of a
// welcome and of refusal 5.
const ANSWER: &str = "00d0d1d2d3d4d5d6d7d8d9dadbdcdddedf0000000000000007\
    b0b1b2b3b4b5b6b7b8b9babbbcbdbebf\
    73f9bf545c85c81aa43403020558947f8329b0323c2feeef4052a2aed19b1976\
    d8533c662b14ed96cf88ca0e9fae41e8e8e436dc96fb0659000dffeb4d069e2f";

const REFUSING: &str = "00d0d1d2d3d4d5d6d7d8d9dadbdcdddedf0000000000000007\
    b0b1b2b3b4b5b6b7b8b9babbbcbdbebf\
    73f9bf545c85c81aa43403020558947f8329b0323c2feeef4052a2aed19b1976\
    dc4549b895ddf5767c898709b67f6377bdfc9fae9e29fede1ebb85b2c1428518";

// The answer with a welcome to an acceptor whose nonce ends with `40`.
const OTHER_ANSWER: &str = "00d0d1d2d3d4d5d6d7d8d9dadbdcdddedf0000000000000007\
    b0b1b2b3b4b5b6b7b8b9babbbcbdbebf\
    73f9bf545c85c81aa43403020558947f8329b0323c2feeef4052a2aed19b1976\
    e1a6041e27e63846f724548f039bceb67957b2bb8b66d9eb0f32c5c5bf53483a";

// A welcome with the code of the dialer's own answer, and that of a hello with another dialer's nonce.
const REFLECTED: &str = "00d8533c662b14ed96cf88ca0e9fae41e8e8e436dc96fb0659000dffeb4d069e2f";

const OTHER_WELCOME: &str = "008c27d19f61061a7a7422b87ae6c4b021db1ee27072c81797b414b124cf17f01f";

// Refusal 9, which this version doesn't know.
const UNKNOWN: &str = "096fc0c9f5519ed03b013dec130147e1e715e7afefcdb8b67d5d6e17dfda4154f9";

// The verdicts of the site that accepts: a welcome, and refusals 4, 7 and 8.
const WELCOME: &str = "0038e36698ad916373b9293bf0321a6bf751b823a46cbfaf1e7ffadced0b28fe0f";

const SAME_NUMBER: &str = "0423db3a9cffcfb5463948498d7a1b3d341c058ff0b4c3ecc8cfa90971b15a044a";

const OLDER_COPY: &str = "07b9bc68178713c7a84854472e4cdc440b586270559872616de9bfd9e0c8002e35";

const SECOND_COPY: &str = "08f41550a724f1439897c0469ebfbd20a190dd8f76b6289e6afd0ab8df11843b36";

// The hello of the site that dials over these devices, up to the other's card.
fn begin<S: Source, W: Sink>(
    rt: &impl Abort,
    source: &mut S,
    sink: &mut W,
) -> Result<Transcript, HelloFault>
    requires source { S.failed source.old ≡ false }
    requires sink { W.failed sink.old ≡ false }
    ensures source { OnOk result (S.failed source.new ≡ false) }
    ensures sink { OnOk result (W.failed sink.new ≡ false) }
{
    let key = Key::of_secret(SECRET);
    let own = card(rt, 0, 0xd0, 7);
    let begun = begin_hello(source, sink, &key, &bytes32(rt, DIALER), &own);
    drop(key);
    begun
}

// The rest of the hello of the site that dials over these devices.
fn end<S: Source, W: Sink>(
    source: &mut S,
    sink: &mut W,
    transcript: &Transcript,
    refusal: Option<Refusal>,
) -> Result<LinkKeys, HelloFault>
    requires source { S.failed source.old ≡ false }
    requires sink { W.failed sink.old ≡ false }
    requires judged { refusal ≡ Some Refusal.WrongSecret → ⊥ }
{
    let key = Key::of_secret(SECRET);
    let keys = end_hello(source, sink, &key, transcript, refusal);
    drop(key);
    keys
}

// Asserts the keys of a link, or the fault in their place.
fn assert_keys(
    rt: &impl Abort,
    alloc: Global,
    keys: Result<LinkKeys, HelloFault>,
    fault: Option<HelloFault>,
) {
    match keys {
        Ok(keys) => {
            assert!(*rt; fault.is_none());
            let digits = ["c603c3f0b8a911099859ba6d58cbd0b1b57dd153c23073eda5ccb9e7adddcf43"];
            assert_bytes(rt, alloc, keys.items.as_bytes(), &digits);
            let digits = ["16af8bd2fa34fa94bacacb42ec220ea44abc55ce1d0bf942e77738fd76088b12"];
            assert_bytes(rt, alloc, keys.acknowledgements.as_bytes(), &digits);
            drop(keys);
        }
        Err(other) => assert!(*rt; fault == Some(other)),
    }
}

// Runs the hello of the site that dials over the bytes that arrive, at most `most` by each read. Its verdict is this refusal, or a welcome.
// Asserts its fault, or that it ends with the keys of the link, and what it writes.
fn assert_dialed(
    rt: &impl Abort,
    alloc: Global,
    most: usize,
    refusal: Option<Refusal>,
    arrived: &[&str],
    fault: Option<HelloFault>,
    written: &[&str],
)
    requires most { 0 < most }
    requires judged { refusal ≡ Some Refusal.WrongSecret → ⊥ }
{
    let bytes = joined(rt, alloc, arrived);
    let mut source = MemorySource::new(&bytes, most);
    let mut sink = MemorySink::new(alloc, 100);
    let keys = match begin(rt, &mut source, &mut sink) {
        Ok(transcript) => end(&mut source, &mut sink, &transcript, refusal),
        Err(fault) => Err(fault),
    };
    drop(source);
    drop(bytes);
    assert_keys(rt, alloc, keys, fault);
    assert_bytes(rt, alloc, sink.as_slice(), written);
    drop(sink);
}

#[test]
fn a_dialer_hears_the_card_and_the_code(rt: HostRuntime) {
    let alloc = rt.alloc();
    let opened = [DIALER_OPENS];
    let silent = Some(HelloFault::Silent);
    assert_dialed(&rt, alloc, 7, None, &[], silent, &opened);
    let short = [ACCEPTOR_OPENS, SHORT_OFFER];
    assert_dialed(&rt, alloc, 7, None, &short, silent, &opened);
    // A card and a code are 105 bytes: by 7 at a time they come in 15 reads, by 6 in 18, and a part may come in 16.
    let offer = [ACCEPTOR_OPENS, OFFER];
    assert_dialed(&rt, alloc, 6, None, &offer, silent, &opened);
    let fault = Some(HelloFault::OtherVersion(1));
    assert_dialed(&rt, alloc, 7, None, &["51534c4b01"], fault, &opened);
    let fault = Some(HelloFault::OtherProtocol);
    assert_dialed(&rt, alloc, 7, None, &["474554202f"], fault, &opened);
    let answer = [DIALER_OPENS, "06"];
    let wrong = Some(HelloFault::WrongSecret);
    let altered = [ACCEPTOR_OPENS, SHORT_OFFER, "91"];
    assert_dialed(&rt, alloc, 7, None, &altered, wrong, &answer);
    let reflected = [DIALER_OPENS, OFFER];
    assert_dialed(&rt, alloc, 7, None, &reflected, wrong, &answer);
    let refusal = Refusal::TakenNumber;
    let fault = Some(HelloFault::Refuses(refusal));
    let answer = [DIALER_OPENS, "05", REFUSING];
    assert_dialed(&rt, alloc, 7, Some(refusal), &offer, fault, &answer);
}

// Runs the hello of a site that dials and welcomes the other, which gives this verdict. Asserts its fault, or that it ends with the keys.
fn assert_welcomed(rt: &impl Abort, alloc: Global, verdict: &str, fault: Option<HelloFault>) {
    let arrived = [ACCEPTOR_OPENS, OFFER, verdict];
    let written = [DIALER_OPENS, "00", ANSWER];
    assert_dialed(rt, alloc, 7, None, &arrived, fault, &written);
}

#[test]
fn a_dialer_answers_and_hears_the_verdict(rt: HostRuntime) {
    let alloc = rt.alloc();
    assert_welcomed(&rt, alloc, WELCOME, None);
    let refused = Some(HelloFault::IsRefused(Refusal::SameNumber));
    assert_welcomed(&rt, alloc, SAME_NUMBER, refused);
    let refused = Some(HelloFault::IsRefused(Refusal::OlderCopy));
    assert_welcomed(&rt, alloc, OLDER_COPY, refused);
    let refused = Some(HelloFault::IsRefused(Refusal::SecondCopy));
    assert_welcomed(&rt, alloc, SECOND_COPY, refused);
    let refused = Some(HelloFault::IsRefused(Refusal::WrongSecret));
    assert_welcomed(&rt, alloc, "06", refused);
    let refused = Some(HelloFault::IsRefused(Refusal::Unknown));
    assert_welcomed(&rt, alloc, UNKNOWN, refused);
    let wrong = Some(HelloFault::WrongSecret);
    assert_welcomed(&rt, alloc, REFLECTED, wrong);
    assert_welcomed(&rt, alloc, OTHER_WELCOME, wrong);
    let silent = Some(HelloFault::Silent);
    // A verdict without its code.
    assert_welcomed(&rt, alloc, "05", silent);
    assert_welcomed(&rt, alloc, "", silent);
}

// The hello of the site that accepts over these devices, up to the other's card.
fn accept<S: Source, W: Sink>(
    rt: &impl Abort,
    source: &mut S,
    sink: &mut W,
) -> Result<Transcript, HelloFault>
    requires source { S.failed source.old ≡ false }
    requires sink { W.failed sink.old ≡ false }
    ensures { OnOk result (W.failed sink.new ≡ false) }
{
    let key = Key::of_secret(SECRET);
    let own = card(rt, 1, 0xa0, 3);
    let accepted = accept_hello(source, sink, &key, &bytes32(rt, ACCEPTOR), &own);
    drop(key);
    accepted
}

// The verdict of the site that accepts, over this device.
fn judge(
    sink: &mut MemorySink,
    transcript: &Transcript,
    refusal: Option<Refusal>,
) -> Result<LinkKeys, HelloFault>
    requires sink { sink.old.failed ≡ false }
    requires judged { refusal ≡ Some Refusal.WrongSecret → ⊥ }
{
    let key = Key::of_secret(SECRET);
    let keys = give_verdict(sink, &key, transcript, refusal);
    drop(key);
    keys
}

// Runs the hello of the site that accepts over the bytes that arrive. Its verdict is this refusal, or a welcome. Asserts its fault, or that
// it ends with the keys of the link, and what it writes.
fn assert_accepted(
    rt: &impl Abort,
    alloc: Global,
    refusal: Option<Refusal>,
    arrived: &[&str],
    fault: Option<HelloFault>,
    written: &[&str],
)
    requires { refusal ≡ Some Refusal.WrongSecret → ⊥ }
{
    let bytes = joined(rt, alloc, arrived);
    let mut source = MemorySource::new(&bytes, 7);
    let mut sink = MemorySink::new(alloc, 100);
    let keys = match accept(rt, &mut source, &mut sink) {
        Ok(transcript) => judge(&mut sink, &transcript, refusal),
        Err(fault) => Err(fault),
    };
    drop(source);
    drop(bytes);
    assert_keys(rt, alloc, keys, fault);
    assert_bytes(rt, alloc, sink.as_slice(), written);
    drop(sink);
}

#[test]
fn an_acceptor_hears_the_answer_and_gives_its_verdict(rt: HostRuntime) {
    let alloc = rt.alloc();
    let opened = [ACCEPTOR_OPENS];
    let silent = Some(HelloFault::Silent);
    assert_accepted(&rt, alloc, None, &[], silent, &opened);
    let fault = Some(HelloFault::OtherVersion(1));
    assert_accepted(&rt, alloc, None, &["51534c4b01"], fault, &opened);
    let fault = Some(HelloFault::OtherProtocol);
    assert_accepted(&rt, alloc, None, &["474554202f"], fault, &opened);
    let offered = [ACCEPTOR_OPENS, OFFER];
    assert_accepted(&rt, alloc, None, &[DIALER_OPENS], silent, &offered);
    let refused = Some(HelloFault::IsRefused(Refusal::WrongSecret));
    let refusing = [DIALER_OPENS, "06"];
    assert_accepted(&rt, alloc, None, &refusing, refused, &offered);
    let refused = Some(HelloFault::IsRefused(Refusal::TakenNumber));
    let refusing = [DIALER_OPENS, "05", REFUSING];
    assert_accepted(&rt, alloc, None, &refusing, refused, &offered);
    // A refusal that is changed into a welcome, and the answer of a hello with another acceptor's nonce.
    let answered = [ACCEPTOR_OPENS, OFFER, "06"];
    let wrong = Some(HelloFault::WrongSecret);
    let changed = [DIALER_OPENS, "00", REFUSING];
    assert_accepted(&rt, alloc, None, &changed, wrong, &answered);
    let other = [DIALER_OPENS, "00", OTHER_ANSWER];
    assert_accepted(&rt, alloc, None, &other, wrong, &answered);
    let answer = [DIALER_OPENS, "00", ANSWER];
    let welcomed = [ACCEPTOR_OPENS, OFFER, WELCOME];
    assert_accepted(&rt, alloc, None, &answer, None, &welcomed);
    let refusal = Refusal::SameNumber;
    let fault = Some(HelloFault::Refuses(refusal));
    let refused = [ACCEPTOR_OPENS, OFFER, SAME_NUMBER];
    assert_accepted(&rt, alloc, Some(refusal), &answer, fault, &refused);
}

// Each read and each write has at most 7 bytes. A source fails in the middle of the acceptor's card, at its eleventh read. A sink fails in
// the middle of the offer, at its ninth write.
#[test]
fn a_hello_ends_with_a_device_that_fails(rt: HostRuntime) {
    let alloc = rt.alloc();
    let offered = joined(&rt, alloc, &[ACCEPTOR_OPENS, OFFER]);
    let mut source = MemorySource::failing(&offered, 7, 10);
    let mut sink = MemorySink::new(alloc, 100);
    let begun = begin(&rt, &mut source, &mut sink);
    drop(source);
    drop(offered);
    assert!(rt; begun == Err(HelloFault::Silent));
    assert_bytes(&rt, alloc, sink.as_slice(), &[DIALER_OPENS]);
    drop(sink);
    let opened = joined(&rt, alloc, &[DIALER_OPENS]);
    let mut source = MemorySource::new(&opened, 7);
    let mut sink = MemorySink::failing(alloc, 7, 8);
    let accepted = accept(&rt, &mut source, &mut sink);
    drop(source);
    drop(opened);
    assert!(rt; accepted == Err(HelloFault::NotSent));
    // The opening has 37 bytes, which take 6 writes.
    let written = [ACCEPTOR_OPENS, "01a0a1a2a3a4a5a6a7a8a9aaabac"];
    assert_bytes(&rt, alloc, sink.as_slice(), &written);
    drop(sink);
}

#[test]
fn queues_have_a_digest(rt: HostRuntime) {
    let alloc = rt.alloc();
    let queues = list(&rt, alloc, "sales support");
    assert_bytes(&rt, alloc, &queues_digest(&queues), &[QUEUES]);
    drop(queues);
}

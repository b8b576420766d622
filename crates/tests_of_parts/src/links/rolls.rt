//! The roll of sites.
use crate::links::shared::card;
use link_hello::{Card, Refusal};
use roll::Roll;
use std::process::Abort;

// Judges a card at site 0, whose own card is `d0` started 7 times. Asserts why it is refused; `None` if it is admitted.
fn assert_judged(rt: &impl Abort, roll: &mut Roll, card_of_peer: &Card, wanted: Option<Refusal>) {
    let own = card(rt, 0, 0xd0, 7);
    assert!(*rt; roll.admit(&own, card_of_peer).err() == wanted);
}

// A number stays that of its store, its start count never falls, and a start stays that of its process.
#[test]
fn a_number_stays_that_of_its_store(rt: HostRuntime) {
    let mut roll = Roll::new();
    assert_judged(&rt, &mut roll, &card(&rt, 1, 0xa0, 4), None);
    let refused = Some(Refusal::OlderCopy);
    assert_judged(&rt, &mut roll, &card(&rt, 1, 0xa0, 3), refused);
    let refused = Some(Refusal::TakenNumber);
    assert_judged(&rt, &mut roll, &card(&rt, 1, 0xb0, 9), refused);
    assert_judged(&rt, &mut roll, &card(&rt, 63, 0xb0, 9), None);
    let refused = Some(Refusal::NoSuchSite);
    assert_judged(&rt, &mut roll, &card(&rt, 64, 0xb0, 9), refused);
    let refused = Some(Refusal::Itself);
    assert_judged(&rt, &mut roll, &card(&rt, 0, 0xd0, 7), refused);
    let refused = Some(Refusal::SameNumber);
    assert_judged(&rt, &mut roll, &card(&rt, 0, 0xd0, 8), refused);
    let mut other = card(&rt, 1, 0xa0, 4);
    other.process[15] ^= 1;
    let refused = Some(Refusal::SecondCopy);
    assert_judged(&rt, &mut roll, &other, refused);
    // A later start of another process takes the number over.
    other.starts = 5;
    assert_judged(&rt, &mut roll, &other, None);
    other.queues[31] ^= 1;
    let refused = Some(Refusal::OtherQueues);
    assert_judged(&rt, &mut roll, &other, refused);
}

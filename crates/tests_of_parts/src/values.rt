//! Values at their limits, with what each must be.
use dots::{Dot, Interface, Penalty, QueueName, SiteId, Stamp, Text80, TextFault};
use reference_model::Total;
use std::process::Abort;

#[test]
fn numbers_have_limits(rt: HostRuntime) {
    assert!(rt; SiteId::new(0).is_some() && SiteId::new(64).is_none());
    let last = SiteId::new(63).expect(&rt, "a site");
    assert!(rt; Penalty::new(2_147_483_647).is_some() && Penalty::new(2_147_483_648).is_none());
    assert!(rt; Dot::new(last, 0).is_none() && Dot::new(last, 1).is_some());
    let most = 1_099_511_627_776;
    assert!(rt; Dot::new(last, most).is_some() && Dot::new(last, most + 1).is_none());
    assert!(rt; Stamp::new(0, last).is_none() && Stamp::new(1, last).is_some());
    assert!(rt; Stamp::new(most, last).is_some() && Stamp::new(most + 1, last).is_none());
    let greatest = Total::new(1_000_000_000).expect(&rt, "a total");
    assert!(rt; greatest.get() == 1_000_000_000 && Total::new(1_000_000_001).is_none());
}

// Asserts the fault of bytes as a text, and as a name.
fn assert_faults(
    rt: &impl Abort,
    bytes: &[u8],
    text_fault: Option<TextFault>,
    name_fault: Option<TextFault>,
) {
    assert!(*rt; Text80::new(bytes).err() == text_fault);
    assert!(*rt; Interface::new(bytes).err() == name_fault);
    assert!(*rt; QueueName::new(bytes).err() == name_fault);
}

#[test]
fn texts_and_names_have_a_first_fault_or_none(rt: HostRuntime) {
    assert_faults(&rt, b"", None, Some(TextFault::Empty));
    assert_faults(&rt, b"s", None, None);
    assert_faults(&rt, &[b'a'; 80], None, None);
    let long = Some(TextFault::TooLong);
    assert_faults(&rt, &[b'a'; 81], long, long);
    assert_faults(&rt, &[b'\n'; 81], long, long);
    let bad = Some(TextFault::BadByte);
    assert_faults(&rt, b"a\r", bad, bad);
    assert_faults(&rt, b"\nb", bad, bad);
    assert_faults(&rt, b"a\0b", bad, bad);
}

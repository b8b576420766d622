//! Rows of bases.
use crate::shared::{NAME, base_row, row, sales_list, site_0};
use delta_codec::DecodeFault;
use replica::RestoreFault;
use std::alloc::Global;
use std::process::Abort;
use stored_steps::{BaseFault, base_heading, base_of_row};

// The version, site 0, and the list of the queue `sales`.
const START: &str = "010000010573616c6573";

// The name of the store, and 3 starts.
const STORE: &str = "a1a1a1a1a1a1a1a1a1a1a1a1a1a1a1a10000000000000003";

// The last count, time and frame number: no count, and the count 1.
const NO_COUNT: &str = "000000000000000000000000000000000000000000000000";

const ONE_COUNT: &str = "000000000000000100000000000000010000000000000000";

// The frame of the number 1 of site 0, which says nothing.
const NOTHING: &str = "00000018514402000000000000000001000000000000000000000000";

#[test]
fn a_base_has_a_row(rt: HostRuntime) {
    let alloc = rt.alloc();
    let made = base_row(&rt, alloc);
    assert!(rt; made.pass() == 0 && made.kind() == 1 && !made.is_start());
    assert!(rt; made.words() == "base of site 0, started 3 times");
    let wanted = row(&rt, alloc, 1, &[START, STORE, NO_COUNT, NOTHING, NOTHING]);
    assert!(rt; made.body() == wanted.body());
    drop(wanted);
    let (site, queues) = base_heading(alloc, &made).expect(&rt, "a heading");
    assert!(rt; site == site_0(&rt) && queues.len() == 1);
    let base = base_of_row(alloc, site, &queues, &made).expect(&rt, "a base");
    drop(queues);
    drop(made);
    assert!(rt; base.name == NAME && base.starts == 3 && base.replica.last() == (0, 0, 0));
    drop(base);
}

// Asserts why a row of this kind with these parts is no base of site 0 with the queue `sales`; and, if it names no site and queues, why.
fn assert_faults(
    rt: &impl Abort,
    alloc: Global,
    kind: u32,
    parts: &[&str],
    base: BaseFault,
    heading: Option<BaseFault>,
) {
    let row = row(rt, alloc, kind, parts);
    let list = sales_list(rt, alloc);
    let of_base = base_of_row(alloc, site_0(rt), &list, &row).err();
    drop(list);
    let of_heading = base_heading(alloc, &row).err();
    drop(row);
    assert!(*rt; of_base == Some(base) && of_heading == heading);
}

#[test]
fn rows_of_no_base_have_faults(rt: HostRuntime) {
    let alloc = rt.alloc();
    let all = [START, STORE, NO_COUNT, NOTHING, NOTHING];
    let kind = BaseFault::NoBase;
    assert_faults(&rt, alloc, 2, &all, kind, Some(kind));
    let version = BaseFault::BadVersion;
    assert_faults(&rt, alloc, 1, &[], version, Some(version));
    assert_faults(&rt, alloc, 1, &["024000"], version, Some(version));
    let short = BaseFault::Truncated;
    assert_faults(&rt, alloc, 1, &["01"], short, Some(short));
    let site = BaseFault::WrongSite;
    assert_faults(&rt, alloc, 1, &["0140"], site, Some(site));
    let list = BaseFault::WrongList;
    assert_faults(&rt, alloc, 1, &["01010002"], site, Some(list));
    assert_faults(&rt, alloc, 1, &["010000"], list, Some(short));
    assert_faults(&rt, alloc, 1, &["01000000"], list, Some(list));
    assert_faults(&rt, alloc, 1, &["010000010573616c65"], list, Some(list));
    let twice = "010000020573616c65730573616c6573";
    assert_faults(&rt, alloc, 1, &[twice], list, Some(list));
    // The list of another queue, `salet`.
    assert_faults(&rt, alloc, 1, &["010000010573616c6574"], list, None);
    assert_faults(&rt, alloc, 1, &[START, "a1a1"], short, None);
    let cut = BaseFault::Decode(DecodeFault::Truncated);
    assert_faults(&rt, alloc, 1, &[START, STORE, NO_COUNT], cut, None);
    let half = [START, STORE, NO_COUNT, NOTHING, "000000"];
    assert_faults(&rt, alloc, 1, &half, cut, None);
    let frame = BaseFault::WrongFrame;
    let of_site_1 = "00000018514402010000000000000001000000000000000000000000";
    let other = [START, STORE, NO_COUNT, of_site_1];
    assert_faults(&rt, alloc, 1, &other, frame, None);
    let second = "00000018514402000000000000000002000000000000000000000000";
    let numbered = [START, STORE, NO_COUNT, NOTHING, second];
    assert_faults(&rt, alloc, 1, &numbered, frame, None);
    let more = [START, STORE, ONE_COUNT, NOTHING, NOTHING, "00"];
    assert_faults(&rt, alloc, 1, &more, BaseFault::Trailing, None);
    let dots = BaseFault::Parts(RestoreFault::OwnDots);
    let counted = [START, STORE, ONE_COUNT, NOTHING, NOTHING];
    assert_faults(&rt, alloc, 1, &counted, dots, None);
}

//! What these tests share: bytes in hexadecimal, values that are written as numbers and texts, and sets and totals made of them.
ghost use Rattle.std.specs.Prelude.{◌≢◌, None};
ghost use Rattle.member_orset.specs.Members.{HasField};

use dots::{Dot, Interface, Member, Penalty, SiteId, Stamp};
use lww_registers::{Fields, Register};
use member_orset::MemberSet;
use site_totals::{CallTotals, Totals};
use std::alloc::Global;
use std::io::Print;
use std::process::Abort;

// A dot, as its site and its count.
pub(crate) type DotParts = (u16, u64);

pub(crate) const FIRST: DotParts = (0, 1);

pub(crate) const SECOND: DotParts = (0, 2);

pub(crate) const OTHER: DotParts = (1, 1);

// A member of queue 0, as its interface.
pub(crate) type InterfaceText = &'static str;

pub(crate) const SIP_1: InterfaceText = "SIP/1";

pub(crate) const SIP_2: InterfaceText = "SIP/2";

// The first frame of site 0, in version 1, after it added SIP/1 to queue 0 with defaults.
pub(crate) const ADDED: &str = "0000005e5144010000000000000000010000000100000000000000000100000000\
    00000001000000010000000000000000010000055349502f310700000000000000\
    0100000000000000000000000001000000000000000000000100000000000000";

// The bytes that hexadecimal digits spell.
pub(crate) fn bytes(rt: &impl Abort, alloc: Global, digits: &str) -> Vec<u8> {
    hex::decode(alloc, digits).expect(rt, "digits")
}

// Prints a word on a line of its own.
pub(crate) fn print(rt: &(impl Abort + Print), word: &str) {
    assert!(*rt; println!(rt; "{word}").is_ok());
}

pub(crate) fn site(rt: &impl Abort, number: u16) -> SiteId {
    SiteId::new(number).expect(rt, "a site")
}

pub(crate) fn dot(rt: &impl Abort, numbers: DotParts) -> Dot {
    Dot::new(site(rt, numbers.0), numbers.1).expect(rt, "a dot")
}

// A penalty that site 0 has set at a time.
fn penalty(rt: &impl Abort, time: u64, number: u32) -> Register<Penalty>
    ensures { result ≢ None }
{
    let penalty = Penalty::new(number).expect(rt, "a penalty");
    let stamp = Stamp::new(time, site(rt, 0)).expect(rt, "a stamp");
    Register::of(stamp, penalty)
}

// The fields of a penalty that site 0 has set at a time.
fn fields(rt: &impl Abort, time: u64, number: u32) -> Fields
    ensures { HasField result }
{
    let mut fields = Fields::none();
    fields.penalty = penalty(rt, time, number);
    fields
}

// Asserts a dot in a set, live with this member and a penalty that site 0 has set at a time.
pub(crate) fn put(
    rt: &impl Abort,
    set: &mut MemberSet,
    of: DotParts,
    by: InterfaceText,
    time: u64,
    number: u32,
) {
    let member = Member {
        queue: 0,
        interface: Interface::new(by.as_bytes()).expect(rt, "an interface"),
    };
    let fields = fields(rt, time, number);
    let given = set.assert(dot(rt, of), &member, &fields);
    drop(member);
    drop(fields);
    given.expect(rt, "a dot");
}

pub(crate) fn kill(rt: &impl Abort, set: &mut MemberSet, of: DotParts) {
    set.kill(dot(rt, of)).expect(rt, "room");
}

// The totals of the calls that one site has completed in queue 0.
pub(crate) fn totals_of(rt: &impl Abort, alloc: Global, number: u16, completed: u16) -> Totals {
    let mut totals = Totals::new(alloc);
    let calls = CallTotals {
        completed: u64::from(completed),
        abandoned: 0,
    };
    let reached = totals.reach(site(rt, number), 0, calls);
    reached.expect(rt, "memory");
    totals
}

//! Which outlet is given which frame of a pump, and when: frames of one byte, which is the number of their step.
ghost use Rattle.std.specs.Prelude.{◌≤◌, IfOk};

use dots::{Memory, SharedBytes};
use site_journal::{Bell, DeskFault, Port, Receipt, StepDeed};
use site_pumps::{Deed, LinkPlan, NoReceipts, Outlet, broadcast, pump_out};
use std::alloc::Global;
use std::process::Abort;
use std::sync::Wait;
use std::sync::atomic::{AtomicU64, Ordering};

// A port whose frames have one byte each.
#[derive(Drop)]
struct BytePort {
    alloc: Global,
    steps: u64,
    fault: Option<DeskFault>,
}

impl BytePort {
    // The frame of the next step. A port's last step is step 9.
    fn next_frame(&self) -> Result<SharedBytes, DeskFault>
        ensures { IfOk result (λ frame. self.now.steps ≤ 9) }
    {
        if self.steps >= 10 {
            return Err(DeskFault::JournalFull);
        }
        let Ok(bytes) = Vec::from_slice(self.alloc, &[self.steps as u8]) else {
            return Err(DeskFault::Memory);
        };
        match SharedBytes::new(self.alloc, bytes) {
            Ok(frame) => Ok(frame),
            Err(_) => Err(DeskFault::Memory),
        }
    }
}

impl<R> Port<R> for BytePort {
    ghost makes = { λ old receipt new. Unit {0} };

    ghost refuses = { λ old cause new. Unit {0} };

    ghost ordinal = { λ port. 0 };

    ghost share = { λ port. port.steps };

    ghost fault = { λ port. port.fault };

    fn cut(&mut self, _rt: &R) -> Result<Receipt, DeskFault> {
        match self.next_frame() {
            Ok(frame) => {
                let position = self.steps;
                self.steps += 1;
                self.fault = None;
                Ok(Receipt {
                    pass: 0,
                    position,
                    deed: StepDeed::Cut(Some(frame)),
                })
            }
            Err(fault) => {
                self.fault = Some(fault);
                Err(fault)
            }
        }
    }

    fn whole(&mut self, _rt: &R) -> Result<Receipt, DeskFault> {
        match self.next_frame() {
            Ok(frame) => {
                let position = self.steps;
                self.steps += 1;
                self.fault = None;
                Ok(Receipt {
                    pass: 0,
                    position,
                    deed: StepDeed::Whole(frame),
                })
            }
            Err(fault) => {
                self.fault = Some(fault);
                Err(fault)
            }
        }
    }

    fn take(&mut self, _rt: &R, bytes: SharedBytes) -> Result<Receipt, (DeskFault, SharedBytes)> {
        self.fault = Some(DeskFault::JournalFull);
        Err((DeskFault::JournalFull, bytes))
    }
}

// An outlet that appends the byte of each frame, 1 to 9, as a digit to a number. It is out of memory once that is at least `most`.
#[derive(Drop)]
struct DigitOutlet<'a> {
    given: &'a AtomicU64,
    most: u64,
}

impl<'a, R> Outlet<R> for DigitOutlet<'a> {
    ghost given = { λ old item new. Unit {0} };

    fn send(&mut self, _rt: &R, item: &SharedBytes) -> Result<(), Memory> {
        let given = self.given.load(Ordering::SeqCst);
        if given >= self.most {
            return Err(Memory);
        }
        let digit = item.as_slice().first().copied().unwrap_or(0);
        let given = given.wrapping_mul(10).wrapping_add(u64::from(digit));
        self.given.store(given, Ordering::SeqCst);
        Ok(())
    }
}

// A bell that rings once for each number of `wanted` but the last, and then ends. Before each ring, and before the end, it asserts that the
// first outlet was given the next of these numbers.
#[derive(Drop)]
struct WatchingBell<'a> {
    given: &'a AtomicU64,
    wanted: &'a [u64],
    rings: u8,
    has_ended: bool,
}

impl<'a, R: Abort> Bell<R> for WatchingBell<'a> {
    ghost rings = { λ bell. bell.rings };

    ghost ended = { λ bell. bell.has_ended };

    fn wait(&mut self, rt: &R) -> bool {
        let place = usize::from(self.rings);
        if self.has_ended {
            return false;
        }
        let wanted = self.wanted.get(place).copied().expect(rt, "a number");
        assert!(*rt; self.given.load(Ordering::SeqCst) == wanted);
        if place + 1 >= self.wanted.len() || self.rings == u8::MAX {
            self.has_ended = true;
            return false;
        }
        self.rings += 1;
        true
    }
}

// What the first outlet of a broadcast is given before the first ring, before the second, and before the end.
const CUTS: &[u64] = &[0, 1, 12];

// Broadcasts at two rings to two outlets, of which the second is out of memory once its number is at least `most`. Asserts how that ends,
// and which frames each outlet was given.
fn assert_given<R: Abort + Wait>(
    rt: &R,
    alloc: Global,
    most: u64,
    end: Result<(), DeskFault>,
    first: u64,
    second: u64,
) {
    let (one, other) = (AtomicU64::new(0), AtomicU64::new(0));
    let mut port = BytePort {
        alloc,
        steps: 1,
        fault: None,
    };
    let mut outlets = [
        DigitOutlet {
            given: &one,
            most: u64::MAX,
        },
        DigitOutlet {
            given: &other,
            most,
        },
    ];
    let mut bell = WatchingBell {
        given: &one,
        wanted: CUTS,
        rings: 0,
        has_ended: false,
    };
    let mut sink = NoReceipts;
    assert!(*rt; broadcast(rt, &mut port, &mut outlets, &mut bell, &mut sink) == end);
    assert!(*rt; one.load(Ordering::SeqCst) == first);
    assert!(*rt; other.load(Ordering::SeqCst) == second);
    drop(bell);
    drop(outlets);
    drop(port);
}

// Two rings give three cuts and a whole. Where the second outlet has no memory for frame 2, the first is given that, and no further frame
// is made.
#[test]
fn frames_are_broadcast_before_the_next_ring_until_an_outlet_is_out_of_memory(rt: HostRuntime) {
    assert_given(&rt, rt.alloc(), u64::MAX, Ok(()), 1_234, 1_234);
    assert_given(&rt, rt.alloc(), 1, Err(DeskFault::Memory), 12, 1);
}

// Pumps to two outlets by a plan of these deeds, over a port whose next step has this number. Asserts what the first outlet is given before
// each ring and before the end, which fault stops the pump, how many receipts it returns, and what each outlet was given.
fn assert_pumped<R: Abort + Wait>(
    rt: &R,
    alloc: Global,
    deeds: &[Deed],
    steps: u64,
    wanted: &[u64],
    fault: Option<DeskFault>,
    receipts: usize,
    given: u64,
) {
    let (one, other) = (AtomicU64::new(0), AtomicU64::new(0));
    let plan = LinkPlan::new(Vec::from_slice(alloc, deeds).expect(rt, "memory"));
    let mut port = BytePort {
        alloc,
        steps,
        fault: None,
    };
    let mut outlets = [
        DigitOutlet {
            given: &one,
            most: u64::MAX,
        },
        DigitOutlet {
            given: &other,
            most: u64::MAX,
        },
    ];
    let mut bell = WatchingBell {
        given: &one,
        wanted,
        rings: 0,
        has_ended: false,
    };
    let pumped = pump_out(rt, alloc, &mut port, &mut outlets, &mut bell, &plan);
    assert!(*rt; pumped.fault == fault && pumped.receipts.len() == receipts);
    drop(pumped);
    assert!(*rt; one.load(Ordering::SeqCst) == given);
    assert!(*rt; other.load(Ordering::SeqCst) == given);
    drop(bell);
    drop(outlets);
    drop(port);
    drop(plan);
}

// What each outlet of a pump with a plan is given before its three rings, and before the end.
const PLANNED: &[u64] = &[0, 0, 21, 2_133];

// Three rings give four cuts and a whole. The plan holds the first frame, sends the second one and then the first, sends the third one
// twice, and loses the fourth one.
#[test]
fn a_plan_is_followed_at_each_outlet_before_the_next_ring(rt: HostRuntime) {
    let deeds = [Deed::Hold, Deed::Deliver, Deed::Twice, Deed::Lose];
    assert_pumped(&rt, rt.alloc(), &deeds, 1, PLANNED, None, 5, 21_335);
}

// What each outlet is given before the rings 1 to 3 of a pump whose third cut is refused. A fourth wait for the bell would fail the test.
const STOPPED: &[u64] = &[0, 8, 8, 0];

// The port does the steps 8 and 9. Where it refuses a cut the held frame is dropped. Where it refuses the whole the held frames were sent.
#[test]
fn a_pump_that_its_port_stops_waits_and_sends_no_more(rt: HostRuntime) {
    let alloc = rt.alloc();
    let full = Some(DeskFault::JournalFull);
    let deeds = [Deed::Deliver, Deed::Hold];
    assert_pumped(&rt, alloc, &deeds, 8, STOPPED, full, 2, 8);
    assert_pumped(&rt, alloc, &[Deed::Hold], 8, &[0, 0], full, 2, 89);
}

//! Desks for sessions over a site's desk, and the ear for its bell.
ghost use Rattle.std.specs.Prelude.{◌≡◌};
ghost use Rattle.site_journal.specs.Journals.{IsOfSite};

use crate::shared::{replica, status};
use dots::SiteId;
use pass_desk::{Ear, PassDesk, RingingDesk};
use replica::Refusal;
use serve::{Desk, DeskDown};
use site_desk::{SiteBell, SiteDesk, SiteLedger, close};
use site_journal::{Bell, Journaled};
use status_report::{Answer, Ask};
use std::alloc::Global;
use std::marker::Brand;
use std::process::Abort;
use std::sync::Wait;
use std::sync::ledger::Blank;
use std::time::{Clock, Duration, Instant};

// A desk that refuses a number of asks in turn, does one more, and then gives no answer.
#[derive(Drop)]
struct ShortDesk {
    refusals: u32,
    deeds: u32,
}

impl<R> Desk<R> for ShortDesk {
    ghost answers = { λ old ask answer new. Unit {0} };

    ghost refuses = { λ old ask new. Unit {0} };

    fn ask(&mut self, _rt: &R, _ask: Ask) -> Result<Answer, DeskDown> {
        if self.refusals > 0 {
            self.refusals -= 1;
            return Ok(Answer::Refused(Refusal::NotThere));
        }
        if self.deeds > 0 {
            self.deeds -= 1;
            return Ok(Answer::Done);
        }
        Err(DeskDown)
    }
}

// The journal of new site 0, which holds at most two steps.
pub(crate) fn journal(rt: &impl Abort, alloc: Global) -> Journaled
    ensures begun { result.count ≡ 0 }
    ensures site { IsOfSite result.base.site result.base.names result }
{
    let replica = replica(rt, alloc, 0);
    match Journaled::new(alloc, replica, 2) {
        Ok(journal) => journal,
        Err(_) => rt.panic("memory"),
    }
}

// Asks five times, and gets a report each time. Returns the journal.
fn asked<L: SiteLedger, R: Abort + Wait>(
    rt: &R,
    alloc: Global,
    blank: Blank,
    journal: Journaled,
) -> Journaled
    requires name { blank.name ≡ L.name }
    requires ledger { blank.parts ≡ L.parts }
    requires one { blank.parts ≡ 1 }
    requires begun { journal.count ≡ 0 }
    requires site { IsOfSite L.site L.names journal }
    requires limit { journal.limit ≡ L.limit }
    requires base { journal.base ≡ L.base }
{
    let made = SiteDesk::<L>::new(alloc, blank, journal, 1).ok();
    let (desk, mut passes) = made.expect(rt, "memory");
    let pass = passes.pop().expect(rt, "a pass");
    let mut asking = PassDesk::new(&desk, pass);
    for _ in 0..5u32 {
        let answered = asking.ask(rt, status(alloc));
        assert!(*rt; matches!(answered, Ok(Answer::Report(_))));
        drop(answered);
    }
    passes.push(asking.into_pass()).expect(rt, "memory");
    close(desk, passes).ok().expect(rt, "a journal")
}

// Asserts that a full journal drops its steps for the next ask.
fn assert_asked<R: Abort + Wait>(rt: &R, alloc: Global) {
    let journal = journal(rt, alloc);
    let journal = asked::<Brand, R>(rt, alloc, Blank::new(1), journal);
    assert!(*rt; journal.start() == 4 && journal.len() == 5);
    drop(journal);
}

#[test]
fn steps_are_dropped_of_a_journal_that_is_full(rt: HostRuntime) {
    assert_asked(&rt, rt.alloc());
}

// Asks twice at a desk that rings. Asserts whether a ring was received, which is once at most.
fn assert_hears(
    rt: &(impl Abort + Wait + Clock),
    alloc: Global,
    refusals: u32,
    deeds: u32,
    wanted: bool,
) {
    let bell = SiteBell::new();
    let mut desk = RingingDesk::new(ShortDesk { refusals, deeds }, &bell);
    for _ in 0..2u32 {
        drop(desk.ask(rt, status(alloc)));
    }
    bell.end(rt);
    let mut ear = Ear::new(&bell);
    assert!(*rt; ear.wait(rt) == wanted);
    assert!(*rt; !ear.wait(rt) && ear.has_bell_ended());
}

#[test]
fn a_desk_rings_at_each_change_and_lost_answer_alone(rt: HostRuntime) {
    let alloc = rt.alloc();
    assert_hears(&rt, alloc, 2, 0, false);
    assert_hears(&rt, alloc, 1, 0, true);
    assert_hears(&rt, alloc, 1, 1, true);
}

#[test]
fn a_whole_is_due_while_a_peer_is_behind(rt: HostRuntime) {
    let peer = SiteId::new(3).expect(&rt, "a number");
    let bell = SiteBell::new();
    let mut ear = Ear::new(&bell);
    bell.ring(&rt);
    assert!(rt; ear.wait(&rt));
    // A peer that is not behind needs no whole.
    bell.hurry(&rt, peer);
    bell.fall_behind(&rt, peer);
    assert!(rt; ear.wait(&rt));
    assert!(rt; !ear.wait(&rt) && !ear.has_bell_ended());
    ear.begin_round(&rt);
    bell.ring(&rt);
    assert!(rt; ear.wait(&rt));
    bell.hurry(&rt, peer);
    assert!(rt; !ear.wait(&rt) && !ear.has_bell_ended());
    ear.begin_round(&rt);
    bell.catch_up(&rt, peer);
    bell.end(&rt);
    assert!(rt; !ear.wait(&rt) && ear.has_bell_ended());
}

#[test]
fn an_ear_that_rests_hears_a_ring_10_ms_after_another(rt: HostRuntime) {
    let bell = SiteBell::new();
    let mut ear = Ear::resting(&bell);
    bell.ring(&rt);
    assert!(&rt; ear.wait(&rt));
    bell.ring(&rt);
    let begun = Instant::now(&rt).expect(&rt, "a clock");
    assert!(&rt; ear.wait(&rt));
    let passed = begun.elapsed(&rt).expect(&rt, "a clock");
    assert!(&rt; passed >= Duration::from_millis(10));
    bell.end(&rt);
    assert!(&rt; !ear.wait(&rt) && ear.has_bell_ended());
}

//! Runs events one by one: the effect of each at its site, and its outcome.
ghost use Rattle.std.specs.Prelude.{◌≡◌, ◌↔◌, ◌<◌, ◌≤◌, ◌+◌, ◌++◌, ℕ, List, [], ◌∷◌, Err, IsTrue};
ghost use Rattle.std.specs.Prelude.{Ok, OnErr, OnOk, Some, length, option_map, slice_get, true};
ghost use Rattle.std.specs.Prelude.{vec_len, vec_capacity};
ghost use Rattle.operations.specs.Knowledge.{Knowledge};
ghost use Rattle.delta.specs.Standing.{IsDeltaOf};
ghost use Rattle.replica.specs.Site.{IsUnchanged, SiteState};
ghost use Rattle.replica.specs.Standing.{StandsFor};
ghost use Rattle.replica.specs.Steps.{Cut, SiteKnowledge, Take, Whole, step};
ghost use Rattle.status_report.specs.Knowing.{answer_in};
ghost use Rattle.sites_world.specs.Conditions.{ComesAt, ComesOfAsk, ComesOfCut, ComesOfEntry};
ghost use Rattle.sites_world.specs.Conditions.{ComesOfWhole, GrowsBy, EventsLead, EventLeads};
ghost use Rattle.sites_world.specs.Conditions.{HasFrameToCut, HasFrameToMake};
ghost use Rattle.sites_world.specs.Outcomes.{changes_nothing};
ghost use Rattle.sites_world.specs.SiteOutcomes.{HasEntry, HasHappenedAt, IsAnsweredSo, IsFramedSo};
ghost use Rattle.sites_world.specs.SiteOutcomes.{IsTakenSo, MayBeTaken};
ghost use Rattle.sites_world.specs.SiteOutcomes.{answer_outcome, take_fault_outcome};
ghost use Rattle.sites_world.specs.WithinLimits.{HasValuesWithinLimits};
ghost use Rattle.sites_world.specs.Worlds.{Entry, IsReached, World, happens_at, site_of};
ghost use Rattle.sites_world.specs.WorldStates.{Correspond, HasHappened, HaveHappened, IsFrameOf};
ghost use Rattle.sites_world.specs.WorldStates.{IsWorld, StandsForWorld};

use crate::{Event, Outcome};
use dots::{MOST_COUNT, Memory, SiteId};
use replica::{CutFault, Frame, Refusal, Replica, TakeFault};
use status_report::{Answer, Ask, ask};
use std::alloc::Global;

// The outcome of an answer; `NoMemory` for a refusal as out of memory.
fn answer_outcome(answer: Answer) -> Outcome
    ensures { result ≡ answer_outcome answer }
{
    match answer {
        Answer::Refused(Refusal::Memory) => Outcome::NoMemory,
        answer => Outcome::Answered(answer),
    }
}

// Runs a command at a site, or reports its status. The outcome is the answer; or `NoMemory`, with nothing changed.
fn ask_site(alloc: Global, replica: &mut Replica, asked: Ask) -> Outcome
    ensures site { replica.new.site ≡ replica.old.site }
    ensures names { replica.new.names ≡ replica.old.names }
    ensures meaning { (s : SiteKnowledge) → StandsFor replica.old s → IsAnsweredSo replica.new s
        (answer_in replica.old.site replica.old.names s asked) result }
    ensures unchanged { changes_nothing result ≡ true → IsUnchanged replica.old replica.new }
    ensures conditions { ComesOfAsk replica.old asked result replica.new }
{
    answer_outcome(ask(alloc, replica, &asked))
}

// Whether a site has a frame to cut: its buffer isn't empty, and a number is left.
fn has_frame_to_cut(replica: &Replica) -> bool
    ensures { IsTrue result ↔ HasFrameToCut replica.now }
{
    !replica.pending().is_empty() && replica.last().2 < MOST_COUNT
}

// Reserves room for one frame in the pool, if `makes` is true. Fails only when out of memory.
fn make_room(pool: &mut Vec<Frame>, makes: bool) -> Result<(), Memory>
    ensures room { OnOk result (makes ≡ true → vec_len pool.new + 1 ≤ vec_capacity pool.new) }
    ensures pool { pool.new.items ≡ pool.old.items }
    ensures wanted { OnErr result (makes ≡ true) }
    ensures full { OnErr result (vec_capacity pool.old < vec_len pool.old + 1) }
{
    if !makes {
        return Ok(());
    }
    pool.reserve(1)
}

// Puts a site's buffer into a frame at the end of the pool. The outcome is the frame's entry; or, with nothing changed,
// `None` for an empty buffer, `Exhausted` if no number is left, or `NoMemory` if the pool has no room.
fn cut_site(replica: &mut Replica, pool: &mut Vec<Frame>) -> Outcome
    ensures site { replica.new.site ≡ replica.old.site }
    ensures names { replica.new.names ≡ replica.old.names }
    ensures meaning { (s : SiteKnowledge) → StandsFor replica.old s → IsFramedSo replica.new s
        pool.old.items pool.new.items (step replica.old.site replica.old.names s Cut) result }
    ensures unchanged { changes_nothing result ≡ true → IsUnchanged replica.old replica.new }
    ensures pool { changes_nothing result ≡ true → pool.new.items ≡ pool.old.items }
    ensures conditions { GrowsBy
        (ComesOfCut (length pool.old.items) replica.old result replica.new)
        pool.old.items pool.new.items }
    ensures room { result ≡ Outcome.NoMemory → vec_capacity pool.old < vec_len pool.old + 1 }
    ensures memory { result ≡ Outcome.NoMemory → HasFrameToCut replica.old }
{
    let makes = has_frame_to_cut(replica);
    if make_room(pool, makes).is_err() {
        return Outcome::NoMemory;
    }
    match replica.cut() {
        Ok(None) => Outcome::Cut(Ok(None)),
        Ok(Some(frame)) => put_frame(pool, frame),
        Err(fault) => Outcome::Cut(Err(fault)),
    }
}

// Puts a frame at the end of the pool, which has room for it. The outcome is its entry.
fn put_frame(pool: &mut Vec<Frame>, frame: Frame) -> Outcome
    requires { vec_len pool.old + 1 ≤ vec_capacity pool.old }
    ensures outcome { result ≡ Outcome.Cut (Ok (Some (length pool.old.items))) }
    ensures pool { pool.new.items ≡ pool.old.items ++ frame ∷ [] }
{
    let entry = pool.len();
    pool.push_reserved(frame);
    Outcome::Cut(Ok(Some(entry)))
}

// Puts everything that a site knows into a frame at the end of the pool. The outcome is the frame's entry; or, with nothing
// changed, `Exhausted` if no number is left, or `NoMemory`.
fn whole_site(replica: &mut Replica, pool: &mut Vec<Frame>) -> Outcome
    ensures site { replica.new.site ≡ replica.old.site }
    ensures names { replica.new.names ≡ replica.old.names }
    ensures meaning { (s : SiteKnowledge) → StandsFor replica.old s → IsFramedSo replica.new s
        pool.old.items pool.new.items (step replica.old.site replica.old.names s Whole) result }
    ensures unchanged { changes_nothing result ≡ true → IsUnchanged replica.old replica.new }
    ensures pool { changes_nothing result ≡ true → pool.new.items ≡ pool.old.items }
    ensures conditions { GrowsBy
        (ComesOfWhole (length pool.old.items) replica.old result replica.new)
        pool.old.items pool.new.items }
    ensures memory { result ≡ Outcome.NoMemory → replica.old.frames < MOST_COUNT }
{
    let makes = replica.last().2 < MOST_COUNT;
    if make_room(pool, makes).is_err() {
        return Outcome::NoMemory;
    }
    match replica.whole() {
        Ok(frame) => put_frame(pool, frame),
        Err(CutFault::Memory) => Outcome::NoMemory,
        Err(fault) => Outcome::Cut(Err(fault)),
    }
}

// The outcome of a take that fails; `NoMemory` when out of memory.
fn take_fault_outcome(fault: TakeFault) -> Outcome
    ensures { result ≡ take_fault_outcome fault }
{
    match fault {
        TakeFault::Memory => Outcome::NoMemory,
        fault => Outcome::Took(Err(fault)),
    }
}

// The frame at this place of the pool, if there is one.
pub(crate) fn frame_at(pool: &[Frame], entry: usize) -> Option<&Frame>
    ensures { option_map (λ frame. frame.now) result ≡ slice_get pool.now entry }
{
    pool.get(entry)
}

// A site takes a copy of a frame. `NoMemory` also if there is no memory for the copy. The clauses `meaning` and
// `conditions` are for a frame that the site may join.
fn take_site(replica: &mut Replica, frame: &Frame) -> Outcome
    ensures site { replica.new.site ≡ replica.old.site }
    ensures names { replica.new.names ≡ replica.old.names }
    ensures meaning { (s : SiteKnowledge) (k : Knowledge) → StandsFor replica.old s
        → IsDeltaOf frame.now.delta k → MayBeTaken replica.old k → IsTakenSo replica.new s
        (step replica.old.site replica.old.names s (Take k)) result }
    ensures unchanged { changes_nothing result ≡ true → IsUnchanged replica.old replica.new }
    ensures conditions { (k : Knowledge) → IsDeltaOf frame.now.delta k
        → MayBeTaken replica.old k
        → ComesOfEntry (Some frame.now) replica.old result replica.new }
{
    let Ok(copy) = frame.copy() else {
        return Outcome::NoMemory;
    };
    match replica.take(copy) {
        Ok(()) => Outcome::Took(Ok(())),
        Err((fault, _)) => take_fault_outcome(fault),
    }
}

// The site at which an event happens.
fn site_of(event: &Event) -> SiteId
    ensures { result ≡ site_of event.now }
{
    match event {
        Event::Ask(site, _) => *site,
        Event::Cut(site) => *site,
        Event::Whole(site) => *site,
        Event::Take(site, _) => *site,
    }
}

// Runs an event at its site, which is this replica, and returns its outcome; `NoEntry` for the take of an entry that isn't
// there. The clauses `meaning` and `conditions` are for a pool of frames that the site may join.
fn happen_at(alloc: Global, replica: &mut Replica, pool: &mut Vec<Frame>, event: Event) -> Outcome
    ensures site { replica.new.site ≡ replica.old.site }
    ensures names { replica.new.names ≡ replica.old.names }
    ensures meaning { (s : SiteKnowledge) (entries : List Entry) → StandsFor replica.old s
        → replica.old.site ≡ site_of event → Correspond IsFrameOf pool.old.items entries
        → ((place : ℕ) (entry : Entry) → slice_get entries place ≡ Some entry
        → MayBeTaken replica.old entry.carried)
        → HasHappenedAt replica.new s pool.old.items pool.new.items entries
        (happens_at replica.old.names entries s event) result }
    ensures conditions { (entries : List Entry) → Correspond IsFrameOf pool.old.items entries
        → ((place : ℕ) (entry : Entry) → slice_get entries place ≡ Some entry
        → MayBeTaken replica.old entry.carried)
        → GrowsBy (ComesAt pool.old.items replica.old event result replica.new)
        pool.old.items pool.new.items }
    ensures entry { result ≡ Outcome.NoMemory → HasEntry pool.old.items event }
    ensures memory { result ≡ Outcome.NoMemory → HasFrameToMake event replica.old }
    ensures unchanged { changes_nothing result ≡ true → IsUnchanged replica.old replica.new }
    ensures pool { changes_nothing result ≡ true → pool.new.items ≡ pool.old.items }
{
    match event {
        Event::Ask(_, asked) => ask_site(alloc, replica, asked),
        Event::Cut(_) => cut_site(replica, pool),
        Event::Whole(_) => whole_site(replica, pool),
        Event::Take(_, entry) => match frame_at(pool.as_slice(), entry) {
            Some(frame) => take_site(replica, frame),
            None => Outcome::NoEntry,
        },
    }
}

// Runs an event at its site, and returns its outcome; `NoSite` where there is no such site.
pub(crate) fn happen(
    alloc: Global,
    sites: &mut Vec<Replica>,
    pool: &mut Vec<Frame>,
    event: Event,
) -> Outcome
    ensures meaning { (names : List (List ℕ)) (w : World)
        → IsReached names (length sites.old.items) w
        → StandsForWorld
        (record { names = names; sites = sites.old.items; pool = pool.old.items }) w
        → HasHappened (record { names = names; sites = sites.new.items; pool = pool.new.items })
        w event result }
    ensures conditions { (names : List (List ℕ))
        → IsWorld (record { names = names; sites = sites.old.items; pool = pool.old.items })
        → EventLeads (record { names = names; sites = sites.old.items; pool = pool.old.items })
        event result
        (record { names = names; sites = sites.new.items; pool = pool.new.items }) }
    ensures values { HasValuesWithinLimits event }
    ensures memory { result ≡ Outcome.NoMemory → (state : SiteState)
        → slice_get sites.old.items (site_of event) ≡ Some state → HasFrameToMake event state }
    ensures count { length sites.new.items ≡ length sites.old.items }
    ensures unchanged { changes_nothing result ≡ true
        → Correspond (λ site. IsUnchanged) sites.old.items sites.new.items }
    ensures pool { changes_nothing result ≡ true → pool.new.items ≡ pool.old.items }
{
    event.see_limits();
    match sites.get_mut(usize::from(site_of(&event).number())) {
        Some(replica) => happen_at(alloc, replica, pool, event),
        None => Outcome::NoSite,
    }
}

// Runs a copy of an event. If the copy runs out of memory the outcome is `NoMemory` where there is the site, else `NoSite`.
fn happen_by_copy(
    alloc: Global,
    sites: &mut Vec<Replica>,
    pool: &mut Vec<Frame>,
    event: &Event,
) -> Outcome
    ensures meaning { (names : List (List ℕ)) (w : World)
        → IsReached names (length sites.old.items) w
        → StandsForWorld
        (record { names = names; sites = sites.old.items; pool = pool.old.items }) w
        → HasHappened (record { names = names; sites = sites.new.items; pool = pool.new.items })
        w event.now result }
    ensures conditions { (names : List (List ℕ))
        → IsWorld (record { names = names; sites = sites.old.items; pool = pool.old.items })
        → EventLeads (record { names = names; sites = sites.old.items; pool = pool.old.items })
        event.now result
        (record { names = names; sites = sites.new.items; pool = pool.new.items }) }
    ensures values { HasValuesWithinLimits event.now }
    ensures count { length sites.new.items ≡ length sites.old.items }
{
    match event.copy() {
        Ok(event) => happen(alloc, sites, pool, event),
        Err(_) if usize::from(site_of(event).number()) < sites.len() => Outcome::NoMemory,
        Err(_) => Outcome::NoSite,
    }
}

// Runs copies of events in turn, as `happen_by_copy` does, and puts the outcome of each at the end of `outcomes`, which is
// empty and has room for all.
pub(crate) fn run_all(
    alloc: Global,
    sites: &mut Vec<Replica>,
    pool: &mut Vec<Frame>,
    events: &[Event],
    outcomes: &mut Vec<Outcome>,
)
    requires room { vec_len outcomes.old + length events.now ≤ vec_capacity outcomes.old }
    requires none { outcomes.old.items ≡ [] }
    ensures meaning { (names : List (List ℕ)) (w : World)
        → IsReached names (length sites.old.items) w
        → StandsForWorld
        (record { names = names; sites = sites.old.items; pool = pool.old.items }) w
        → HaveHappened (record { names = names; sites = sites.new.items; pool = pool.new.items })
        w events.now outcomes.new.items }
    ensures conditions { (names : List (List ℕ))
        → IsWorld (record { names = names; sites = sites.old.items; pool = pool.old.items })
        → EventsLead (record { names = names; sites = sites.old.items; pool = pool.old.items })
        events.now outcomes.new.items
        (record { names = names; sites = sites.new.items; pool = pool.new.items }) }
    ensures world { (names : List (List ℕ))
        → IsWorld (record { names = names; sites = sites.old.items; pool = pool.old.items })
        → IsWorld (record { names = names; sites = sites.new.items; pool = pool.new.items }) }
    ensures count { length sites.new.items ≡ length sites.old.items }
{
    for event in events {
        let outcome = happen_by_copy(alloc, sites, pool, event);
        outcomes.push_reserved(outcome);
    }
}

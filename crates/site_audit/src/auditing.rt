//! An audit of the journals of all sites.
ghost use Rattle.std.specs.Prelude.{◌≡◌, ◌≢◌, ◌↔◌, ◌<◌, ◌≤◌, ℕ, [], List, Err, IfNone, IfOk, IfSome, IsOkAnd};
ghost use Rattle.std.specs.Prelude.{IsTrue, None, Some, length, slice_get};
ghost use Rattle.site_journal.specs.Journals.{IsJournal, JournalState};
ghost use Rattle.sites_world.specs.declared.event.Event.{Event};
ghost use Rattle.site_audit.specs.Ending.{HasAllSteps, IsLeastLeft};
ghost use Rattle.site_audit.specs.Replays.{CannotGoOn, IsReplay};
ghost use Rattle.site_audit.specs.Runs.{AreSites, IsFirstStale, IsFromNew, IsRun, IsStuck};

use crate::AuditFault;
use crate::explanation::Explanation;
use crate::replay::{Replay, search};
use site_journal::Journaled;
use sites_world::Event;
use std::alloc::Global;

// Whether journals are those of the sites 0, 1, .. in order, of one list of queues.
fn are_sites(journals: &[Journaled]) -> bool
    ensures sites { IsTrue result ↔ AreSites journals.now }
    ensures few { IsTrue result → length journals.now ≤ 64 }
{
    let mut place = 0;
    while place < journals.len() {
        let base = journals[place].base();
        if usize::from(base.site().number()) != place {
            return false;
        }
        if !base.list().same(journals[0].base().list()) {
            return false;
        }
        place += 1;
    }
    true
}

// Whether a journal is fresh: no step was dropped, and it began from a new replica. So it has all steps of its site.
fn is_from_new(journal: &Journaled) -> bool
    ensures whole { IsTrue result ↔ IsFromNew journal.now }
    ensures journal { IsJournal journal.now }
{
    journal.start() == 0 && journal.base().is_new()
}

// The first site whose journal isn't fresh, if there is one.
fn first_stale(journals: &[Journaled]) -> Option<usize>
    ensures stale { IfSome result (λ site. IsFirstStale journals.now site) }
    ensures whole { IfNone result ((site : ℕ) (j : JournalState)
        → slice_get journals.now site ≡ Some j → IsFromNew j) }
    ensures legal { IfNone result ((site : ℕ) (j : JournalState)
        → slice_get journals.now site ≡ Some j → IsJournal j) }
{
    let mut place = 0;
    while place < journals.len() {
        if !is_from_new(&journals[place]) {
            return Some(place);
        }
        place += 1;
    }
    None
}

// The least site whose journal has steps left, if there is one, where `at` says how many steps each site has been given, at most
// all of its journal.
fn least_left(journals: &[Journaled], at: &[usize]) -> Option<usize>
    requires count { length at.now ≡ length journals.now }
    requires within { (site n : ℕ) (j : JournalState) → slice_get journals.now site ≡ Some j
        → slice_get at.now site ≡ Some n → n ≤ length j.steps }
    ensures left { IfSome result (λ site. IsLeastLeft journals.now at.now site) }
    ensures none { IfNone result ((site : ℕ) → HasAllSteps journals.now at.now site) }
{
    let mut place = 0;
    while place < journals.len() {
        if at[place] < journals[place].steps().len() {
            return Some(place);
        }
        place += 1;
    }
    None
}

// How far a search has come, where no site can go on: its events, and the least site that has steps left, if one has.
fn explained(journals: &[Journaled], replay: Replay<'_>) -> Explanation
    requires kept { IsReplay journals.now replay }
    requires none { (site : ℕ) → site < length journals.now
        → CannotGoOn journals.now replay site }
    requires few { length journals.now ≤ 64 }
    ensures run { result.stuck ≡ None → IsRun journals.now result.events.items }
    ensures stuck { (site position : ℕ) → result.stuck ≡ Some (site, position)
        → IsStuck journals.now site position result.events.items }
{
    match least_left(journals, replay.at.as_slice()) {
        Some(site) => {
            let position = replay.at[site] as u64;
            Explanation {
                events: replay.events,
                stuck: Some((site as u16, position)),
            }
        }
        None => Explanation {
            events: replay.events,
            stuck: None,
        },
    }
}

/// The list of events that explains journals, or as much of it as there is. The journals are those of the sites 0, 1, .. in order, and
/// fresh: each began from a new replica and still has all its steps. If the events are one run, they give each site exactly its
/// journal, as those of `audit` do. Otherwise they are stuck: they give one site its steps before a position and not all, each lesser
/// site all of its own, each other site its first ones, and no further event gives any site its next. No journals give no events.
///
/// Errors, in order: 1 `WrongSites`, exactly where the journals aren't those of the sites 0, 1, .. in order, or have two lists of
/// queues; 2 `NotFresh`, exactly where a journal isn't fresh, with the first such site; 3 `Memory`. Never `NoRun`.
pub fn explain(alloc: Global, journals: &[Journaled]) -> Result<Explanation, AuditFault>
    ensures run { IfOk result (λ it. it.stuck ≡ None → IsRun journals.now it.events.items) }
    ensures stuck { IfOk result (λ it. (site position : ℕ) → it.stuck ≡ Some (site, position)
        → IsStuck journals.now site position it.events.items) }
    ensures none { journals.now ≡ []
        → IsOkAnd result (λ it. (it.events.items ≡ []) × (it.stuck ≡ None)) }
    ensures wrong_sites { (result ≡ Err AuditFault.WrongSites) ↔ (AreSites journals.now → ⊥) }
    ensures not_fresh { (site : ℕ) → (result ≡ Err (AuditFault.NotFresh site))
        ↔ (AreSites journals.now × IsFirstStale journals.now site) }
    ensures explained { (site position : ℕ) → result ≢ Err (AuditFault.NoRun site position) }
{
    if journals.is_empty() {
        return Ok(Explanation {
            events: Vec::new(alloc),
            stuck: None,
        });
    }
    if !are_sites(journals) {
        return Err(AuditFault::WrongSites);
    }
    if let Some(site) = first_stale(journals) {
        return Err(AuditFault::NotFresh(site as u16));
    }
    let mut replay = Replay::begin(alloc, journals.len())?;
    search(journals, &mut replay)?;
    Ok(explained(journals, replay))
}

/// One list of events that gives each site exactly its journal. The journals are those of the sites 0, 1, .. in order, and fresh:
/// each began from a new replica and still has all its steps. In the world of operations each ask is answered as the journal says,
/// and each frame that is made or taken is the one that the bytes there spell. After the last event each site knows what its
/// replica stands for. No journals give no events. The list has one event for each step, in the audit's own order. No frame is
/// decoded: a frame that was taken is found by its bytes among those that were made, so it isn't found where its bytes are of an
/// older version.
///
/// Errors, in order: 1 `WrongSites`, exactly where the journals aren't those of the sites 0, 1, .. in order, or have two lists of
/// queues; 2 `NotFresh`, exactly where a journal isn't fresh, with the first such site; 3 `Memory`; 4 `NoRun`, with a site and a
/// position, where a list of events is stuck: it gives that site its steps before the position and not all, each lesser site all of
/// its own, each other site its first ones, and no further event gives any site its next.
pub fn audit(alloc: Global, journals: &[Journaled]) -> Result<Vec<Event>, AuditFault>
    ensures run { IfOk result (λ events. IsRun journals.now events.items) }
    ensures none { journals.now ≡ [] → IsOkAnd result (λ events. events.items ≡ []) }
    ensures wrong_sites { (result ≡ Err AuditFault.WrongSites) ↔ (AreSites journals.now → ⊥) }
    ensures not_fresh { (site : ℕ) → (result ≡ Err (AuditFault.NotFresh site))
        ↔ (AreSites journals.now × IsFirstStale journals.now site) }
    ensures no_run { (site position : ℕ) → result ≡ Err (AuditFault.NoRun site position)
        → (events : List Event) × IsStuck journals.now site position events }
{
    let Explanation { events, stuck } = explain(alloc, journals)?;
    match stuck {
        Some((site, position)) => {
            drop(events);
            Err(AuditFault::NoRun(site, position))
        }
        None => Ok(events),
    }
}

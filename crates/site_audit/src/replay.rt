//! The search for one list of events: each site in turn gets its next step, until none can go on.
ghost use Rattle.std.specs.Prelude.{◌≡◌, ◌+◌, ◌<◌, ◌≤◌, ◌^◌, ℕ, IfOk, OnOk, true, false};
ghost use Rattle.std.specs.Prelude.{length, slice_index};
ghost use Rattle.site_audit.specs.Replays.{CannotGoOn, HasPlayed, HasPut, IsUnplayed, IsReplay};
ghost use Rattle.site_audit.specs.Replays.{event_for, found_in};
ghost use Rattle.site_audit.specs.Runs.{AreSites};

use crate::pool::Pool;
use dots::{Memory, SiteId};
use site_journal::{Journaled, StepDeed};
use sites_world::Event;
use sites_world::laws::a_site_may_take_every_entry;
use std::alloc::Global;

// The state of a search.
#[derive(Drop)]
pub(crate) struct Replay<'a> {
    // How many steps each site was given, by the sites' numbers.
    pub(crate) at: Vec<usize>,
    // The events that gave the sites these steps.
    pub(crate) events: Vec<Event>,
    // The entries that the events made.
    pub(crate) pool: Pool<'a>,
}

impl<'a> Replay<'a> {
    // A replay in which no step of `sites` journals is placed yet. Fails only when out of memory.
    pub(crate) fn begin(alloc: Global, sites: usize) -> Result<Replay<'a>, Memory>
        ensures { IfOk result (λ replay. IsUnplayed replay sites) }
    {
        let mut at = Vec::new(alloc);
        for _ in 0..sites {
            at.push(0)?;
        }
        Ok(Replay {
            at,
            events: Vec::new(alloc),
            pool: Pool::new(alloc),
        })
    }

    // Appends an event that gives `site` its next step, with this deed, and puts the deed's frame, if it made one, into the pool,
    // which has no more entries than there are events. Fails only when out of memory; then the frame may be in the pool without
    // the event.
    fn put(&mut self, site: SiteId, event: Event, deed: &'a StepDeed) -> Result<(), Memory>
        requires within { site < length self.old.at.items }
        requires fits { slice_index self.old.at.items site + 1 < 2 ^ 64 }
        requires few { self.old.pool.entries ≤ length self.old.events.items }
        ensures { OnOk result (HasPut self.old self.new site event deed.now) }
    {
        self.pool.add(deed)?;
        self.events.push(event)?;
        self.at[usize::from(site.number())] += 1;
        Ok(())
    }
}

// The event that gives `site` a deed; `None` for the take of a frame that its maker hasn't made yet. Fails only when out of
// memory.
fn event_for<'a>(pool: &Pool<'a>, site: SiteId, deed: &'a StepDeed) -> Result<Option<Event>, Memory>
    ensures { IfOk result (λ event. event ≡ event_for (found_in pool.now) site deed.now) }
{
    match deed {
        StepDeed::Asked(asked, _) => {
            let asked = asked.copy()?;
            Ok(Some(Event::Ask(site, asked)))
        }
        StepDeed::Took(bytes) => match pool.find(bytes.as_slice()) {
            Some(place) => Ok(Some(Event::Take(site, place))),
            None => Ok(None),
        },
        StepDeed::Cut(_) => Ok(Some(Event::Cut(site))),
        StepDeed::Whole(_) => Ok(Some(Event::Whole(site))),
    }
}

// Gives the site at this place of the journals its next step, if it has one and the step is possible now. Returns whether it did.
// Fails only when out of memory; then the replay isn't used again, here and below.
fn play<'a>(
    journals: &'a [Journaled],
    replay: &mut Replay<'a>,
    place: usize,
) -> Result<bool, Memory>
    requires sites { AreSites journals.now }
    requires kept { IsReplay journals.now replay.old }
    requires there { place < length journals.now }
    ensures { IfOk result (λ more. HasPlayed journals.now replay.old replay.new place more) }
{
    a_site_may_take_every_entry();
    let journal = &journals[place];
    let at = replay.at[place];
    let steps = journal.steps();
    if at >= steps.len() {
        return Ok(false);
    }
    let site = journal.base().site();
    let deed = &steps[at].deed;
    match event_for(&replay.pool, site, deed)? {
        Some(event) => {
            replay.put(site, event, deed)?;
            Ok(true)
        }
        None => Ok(false),
    }
}

// Gives each site in turn its next step, if the step is possible now. Returns whether one was. Fails only when out of memory.
fn round<'a>(journals: &'a [Journaled], replay: &mut Replay<'a>) -> Result<bool, Memory>
    requires sites { AreSites journals.now }
    requires kept { IsReplay journals.now replay.old }
    ensures kept { OnOk result (IsReplay journals.now replay.new) }
    ensures more { IfOk result (λ more. more ≡ true
        → length replay.old.events.items < length replay.new.events.items) }
    ensures none { IfOk result (λ more. more ≡ false → (site : ℕ) → site < length journals.now
        → CannotGoOn journals.now replay.new site) }
{
    let mut more = false;
    for place in 0..journals.len() {
        let played = play(journals, replay, place)?;
        more |= played;
    }
    Ok(more)
}

// Gives the sites their steps until none can go on. Fails only when out of memory.
pub(crate) fn search<'a>(journals: &'a [Journaled], replay: &mut Replay<'a>) -> Result<(), Memory>
    requires sites { AreSites journals.now }
    requires kept { IsReplay journals.now replay.old }
    ensures kept { OnOk result (IsReplay journals.now replay.new) }
    ensures none { OnOk result ((site : ℕ) → site < length journals.now
        → CannotGoOn journals.now replay.new site) }
{
    for _ in 0..u64::MAX {
        if !round(journals, replay)? {
            return Ok(());
        }
    }
    unreachable!()
}

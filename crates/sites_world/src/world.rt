ghost use Rattle.std.specs.Prelude.{◌≡◌, ◌≤◌, ◌⊎◌, ◌↔◌, ◌<◌, ℕ, Err, IfOk, IfSome, OnErr, Some};
ghost use Rattle.std.specs.Prelude.{length, option_map, slice_get, true};
ghost use Rattle.delta.specs.Frames.{IsInRanges};
ghost use Rattle.replica.specs.Queues.{AreQueues};
ghost use Rattle.replica.specs.Site.{SiteState};
ghost use Rattle.sites_world.specs.Conditions.{EventsLead, EventLeads, HasFrameToMake};
ghost use Rattle.sites_world.specs.Outcomes.{changes_nothing};
ghost use Rattle.sites_world.specs.Worlds.{IsReached, World as world_of_operations, new_world};
ghost use Rattle.sites_world.specs.Worlds.{site_of};
ghost use Rattle.sites_world.specs.WorldStates.{HasHappened, HasNoneRetired, HaveHappened};
ghost use Rattle.sites_world.specs.WorldStates.{IsSiteOf, IsUnchanged, IsWorld, StandsForWorld};
ghost use Rattle.replica.specs.Steps.{new_site};

use crate::run::{frame_at, happen, run_all};
use crate::{Event, Outcome, WorldFault};
use dots::{Memory, SITES, SiteId};
use replica::{Frame, QueueList, Replica};
use std::alloc::Global;
use std::marker::Model;

/// All sites in one process, with the pool of the frames that they made. It stands for a world of operations to which events lead
/// from new sites.
#[derive(Drop)]
pub struct World {
    list: QueueList,
    sites: Vec<Replica>,
    pool: Vec<Frame>,
}

impl Model for World {
    ghost use Rattle.sites_world.specs.WorldStates.{IsWorld, WorldState, world_code};

    ghost Value = { WorldState };

    ghost coded = { world_code };

    ghost view = { λ w. record { names = w.list; sites = w.sites.items; pool = w.pool.items } };

    ghost invariant = { λ w. IsWorld (record {
      names = w.list;
      sites = w.sites.items;
      pool = w.pool.items;
    }) };
}

// Makes `sites` new sites, at most 64, each with a copy of the list. Fails only when out of memory.
fn new_sites(alloc: Global, sites: u16, list: &QueueList) -> Result<Vec<Replica>, Memory>
    requires { sites ≤ SITES }
    ensures count { IfOk result (λ made. length made.items ≡ sites) }
    ensures each { IfOk result (λ made. (site : ℕ) (state : SiteState)
        → slice_get made.items site ≡ Some state → IsSiteOf list.now site state new_site) }
    ensures none_retired { IfOk result (λ made. (site : ℕ) (state : SiteState)
        → slice_get made.items site ≡ Some state → HasNoneRetired state) }
{
    let mut made = Vec::new(alloc);
    for number in 0..sites {
        let site = SiteId::new(number).unwrap();
        let names = list.copy()?;
        made.push(Replica::new(alloc, site, names))?;
    }
    Ok(made)
}

impl World {
    /// A world of `sites` new sites, 1 to 64, each with these queues, and of no frame. Errors, in order: `BadSites` if and only if
    /// `sites` is 0 or more than 64; `Memory`.
    pub fn new(alloc: Global, sites: u16, list: &QueueList) -> Result<World, WorldFault>
        ensures names { IfOk result (λ world. world.names ≡ list.now) }
        ensures count { IfOk result (λ world. length world.sites ≡ sites) }
        ensures none_retired { IfOk result (λ world. (site : ℕ) (state : SiteState)
            → slice_get world.sites site ≡ Some state → HasNoneRetired state) }
        ensures meaning { IfOk result (λ world. StandsForWorld world (new_world sites)) }
        ensures bad_sites { (result ≡ Err WorldFault.BadSites) ↔ ((sites ≡ 0) ⊎ (SITES < sites)) }
    {
        if sites == 0 || SITES < sites {
            return Err(WorldFault::BadSites);
        }
        let Ok(list) = list.copy() else {
            return Err(WorldFault::Memory);
        };
        match new_sites(alloc, sites, &list) {
            Ok(sites) => Ok(World {
                list,
                sites,
                pool: Vec::new(alloc),
            }),
            Err(_) => Err(WorldFault::Memory),
        }
    }

    /// Runs an event at its site and returns its outcome: `NoSite` exactly where there is no such site, else, for a take, `NoEntry`
    /// exactly where there is no such entry. An event that runs out of memory has the outcome `NoMemory`; a cut or a whole has it
    /// only where there is a frame to make, and a number for it. Each other event has the effect and the outcome that it has in the
    /// world of operations (RR-7506: what a site shows is the reading of the updates that were delivered to it). So each report is
    /// the status text of what its site knows then, and no take fails with `NoSuchQueue`, `NotMine` or `Conflict`. After
    /// `NoMemory`, and after each other outcome that changes nothing, the sites say what they said before and the pool is the same.
    /// The clause `conditions` states all of this of states and frames alone, without a world of operations.
    pub fn happen(&mut self, event: Event) -> Outcome
        ensures was { IsWorld self.old }
        ensures meaning { (w : world_of_operations)
            → IsReached self.old.names (length self.old.sites) w → StandsForWorld self.old w
            → HasHappened self.new w event result }
        ensures conditions { EventLeads self.old event result self.new }
        // A cut or a whole is `NoMemory` only where a frame was to be made, so never in place of a refusal or of an empty cut.
        ensures memory { result ≡ Outcome.NoMemory → (state : SiteState)
            → slice_get self.old.sites (site_of event) ≡ Some state → HasFrameToMake event state }
        ensures unchanged { changes_nothing result ≡ true → IsUnchanged self.old self.new }
        ensures names { self.new.names ≡ self.old.names }
        ensures count { length self.new.sites ≡ length self.old.sites }
        ensures world { IsWorld self.new }
    {
        let alloc = *self.sites.allocator();
        happen(alloc, &mut self.sites, &mut self.pool, event)
    }

    /// Runs copies of these events in turn, as `happen` runs one, and returns their outcomes. An event whose copy runs out of
    /// memory has the outcome `NoMemory`, if there is its site. Fails only when out of memory, before the first event.
    pub fn run(&mut self, events: &[Event]) -> Result<Vec<Outcome>, Memory>
        ensures was { IsWorld self.old }
        ensures meaning { IfOk result (λ outcomes. (w : world_of_operations)
            → IsReached self.old.names (length self.old.sites) w → StandsForWorld self.old w
            → HaveHappened self.new w events.now outcomes.items) }
        ensures conditions { IfOk result
            (λ outcomes. EventsLead self.old events.now outcomes.items self.new) }
        ensures unchanged { OnErr result (self.new ≡ self.old) }
        ensures names { self.new.names ≡ self.old.names }
        ensures count { length self.new.sites ≡ length self.old.sites }
        ensures world { IsWorld self.new }
    {
        let alloc = *self.sites.allocator();
        let mut outcomes = Vec::new(alloc);
        outcomes.reserve(events.len())?;
        run_all(
            alloc,
            &mut self.sites,
            &mut self.pool,
            events,
            &mut outcomes,
        );
        Ok(outcomes)
    }

    /// The replica of this site. `None` where there is no such site. Takes no memory.
    pub fn replica(&self, site: SiteId) -> Option<&Replica>
        ensures value { option_map (λ replica. replica.now) result
            ≡ slice_get self.now.sites site }
        ensures world { IsWorld self.now }
    {
        self.sites.get(usize::from(site.number()))
    }

    /// The frame of this entry of the pool, counted from 0. `None` where there is no such entry.
    pub fn entry(&self, entry: usize) -> Option<&Frame>
        ensures value { option_map (λ frame. frame.now) result
            ≡ slice_get self.now.pool entry }
        ensures in_ranges { IfSome result (λ frame. IsInRanges frame.now) }
        ensures world { IsWorld self.now }
    {
        frame_at(self.pool.as_slice(), entry)
    }

    /// The number of entries in the pool.
    pub fn entries(&self) -> usize
        ensures { result ≡ length self.now.pool }
    {
        self.pool.len()
    }

    /// The queues that each site has.
    pub fn list(&self) -> &QueueList
        ensures value { result.now ≡ self.now.names }
        ensures queues { AreQueues self.now.names }
    {
        &self.list
    }
}

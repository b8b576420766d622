//! Laws of the world of operations, and of the deltas that a world holds. The functions have no body but other laws: their
//! contracts are the laws.
ghost use Rattle.std.specs.Prelude.{◌≡◌, ℕ, List, length, true};
ghost use Rattle.std.specs.List.{All};
ghost use Rattle.replica.specs.Queues.{AreQueues};
ghost use Rattle.sites_world.specs.declared.event.Event.{Event};
ghost use Rattle.sites_world.specs.declared.outcome.Outcome.{Outcome};
ghost use Rattle.sites_world.specs.Conditions.{EventsLead, EventLeads};
ghost use Rattle.sites_world.specs.Fitting.{EntriesFit, EntriesHaveFrames, FramesFit};
ghost use Rattle.sites_world.specs.Fitting.{HoldWhatFits, WorldsAreSmall};
ghost use Rattle.sites_world.specs.Holding.{EventsGrow, HeldAgree, HoldFewCells, HoldOneDotASite};
ghost use Rattle.sites_world.specs.Holding.{HoldWithinLimits, KnowNonePast};
ghost use Rattle.sites_world.specs.Holding.{LeadAllGrows, LeadsGrow, MayJoinFrames, MayTakeEntries};
ghost use Rattle.sites_world.specs.Holding.{RunsGrow, TakenStaysKnown, TakenStaysSaid};
ghost use Rattle.sites_world.specs.Outcomes.{changes_nothing};
ghost use Rattle.sites_world.specs.Promises.{AddAtTheirSites, AreConsistentTogether};
ghost use Rattle.sites_world.specs.Promises.{WorldDeltasAgree, DeltasCommute, EventsKeepLimits};
ghost use Rattle.sites_world.specs.Promises.{HaveOneAddADot, HaveOutcomes, WorldsAreWithinLimits};
ghost use Rattle.sites_world.specs.Promises.{GiveSameAnswer, HaveHistories, HaveOneDotASite};
ghost use Rattle.sites_world.specs.Promises.{HaveFewLiveDots, HaveFewVisibleDots, TakesGive};
ghost use Rattle.sites_world.specs.Promises.{HaveSameStatus, LeadsOn, ReportsAreReadings};
ghost use Rattle.sites_world.specs.Promises.{AreOfTheirEvents, RefusalsChangeNothing, RunsInParts};
ghost use Rattle.sites_world.specs.Promises.{NoEntryIsExact, NoSiteIsExact};
ghost use Rattle.sites_world.specs.WithinLimits.{HasValuesWithinLimits};
ghost use Rattle.sites_world.specs.Worlds.{IsReached, World};
ghost use Rattle.sites_world.specs.WorldStates.{HasHappened, HaveHappened, IsUnchanged, IsWorld};
ghost use Rattle.sites_world.specs.WorldStates.{StandsForWorld, WorldState};

use delta::laws::a_knowledge_has_one_delta;
use replica::laws::{
    deeds_stand_for_steps, refusals_stand_for_steps,
    what_a_site_knows_stays_small_enough_for_a_frame,
};
use status_report::laws::a_report_is_the_status_text_of_what_its_site_stands_for;

/// Each world that events lead to has a history: one list of all operations that any site knows. Each site knows a part of it, with every
/// add, write and count of its own, and each frame carries a part (RR-7506: the causal history of a replica).
pub fn a_world_has_a_history()
    ensures { HaveHistories }
{}

/// A dot is made once: adds of one dot, in any two knowledges of one world, are one operation, whose stamp is of the dot's site
/// (RR-8083: each add has a tag of its own).
pub fn a_dot_is_made_once()
    ensures once { HaveOneAddADot }
    ensures site { AddAtTheirSites }
{}

/// A site knows no dot of its own past the last that it made, whatever it has taken. So the dot of its next add is new, and what an add
/// shows (`replica::laws::a_done_command_shows`) it shows at each site of each world (RR-8083: each add has a tag of its own).
pub fn a_site_knows_none_of_its_dots_past_the_last()
    ensures { KnowNonePast }
{}

/// Any two knowledges of one world are consistent together: each dot is of one member, and each stamp gives a field of a dot one value
/// (RR-7506: concurrent updates commute).
pub fn knowledges_of_a_world_are_consistent_together()
    ensures { AreConsistentTogether }
{}

/// The deltas of any two knowledges of one world agree, so each join of them is without conflict, and is commutative (RR-7506:
/// states form a join semilattice). Laws of `delta` say that join is associative and idempotent.
pub fn deltas_of_a_world_agree()
    ensures agree { WorldDeltasAgree }
    ensures commute { DeltasCommute }
{}

/// Two sites that know the same operations have the same status, so they give the same answer to one status request, be it in one world
/// or in two with the same queues (RR-7506: replicas that have delivered the same updates are equivalent).
pub fn sites_that_know_the_same_have_the_same_status()
    ensures status { HaveSameStatus }
    ensures answers { GiveSameAnswer }
{}

/// Every event has an outcome of its kind. `NoSite` stands exactly where there is no such site, and `NoEntry` exactly where there
/// is the site but no entry to take. Otherwise: an ask has an answer, and no command is refused as out of memory; a cut or a whole
/// makes a frame, is `Exhausted`, or (a cut) had an empty buffer; a take joins the frame or would exceed a limit, and never fails
/// with `NoSuchQueue`, `NotMine` or `Conflict`.
pub fn an_outcome_is_of_its_event()
    ensures kind { AreOfTheirEvents }
    ensures no_site { NoSiteIsExact }
    ensures no_entry { NoEntryIsExact }
{}

/// In the world of operations each list of events has exactly one list of outcomes, one for each event, and none of them is
/// `NoMemory`.
pub fn each_event_has_one_outcome()
    ensures { (names : List (List ℕ)) (w : World) (events : List Event)
        → HaveOutcomes names w events }
{}

/// These change nothing: a refused command, a take that fails, a status, a cut of an empty buffer, and an event for which there is
/// no site or no entry.
pub fn what_is_refused_changes_nothing()
    ensures { RefusalsChangeNothing }
{}

/// If each outcome of a list of events is one that changes nothing, each site says after them what it said before, and the pool is
/// the same.
pub fn outcomes_that_change_nothing_leave_what_is_said()
    ensures { (from to : WorldState) (events : List Event) (outcomes : List Outcome)
        → EventsLead from events outcomes to → All (λ o. changes_nothing o ≡ true) outcomes
        → IsUnchanged from to }
{}

/// A status is answered by the status text of what its site knows then (Asterisk's QueueStatus).
pub fn a_report_is_the_reading_of_what_its_site_knows()
    ensures { ReportsAreReadings }
{}

/// In each knowledge of a world a member has at most one visible dot of each site: an add replaces the site's older ones.
pub fn a_member_has_one_visible_dot_of_a_site()
    ensures { HaveOneDotASite }
{}

/// Each knowledge of a world has at most as many visible dots as there are members with a visible dot, times the number of sites: a
/// member has at most one of each site. A delta that stands for the knowledge has at most as many live dots.
pub fn visible_dots_are_at_most_members_times_sites()
    ensures visible { HaveFewVisibleDots }
    ensures live { HaveFewLiveDots }
{}

/// Every delta that a world holds (the state or the buffer of a site, or a frame of the pool) has at most one live dot for each
/// member and site. So it has at most as many live dots as members with a live dot, times the number of sites.
pub fn what_is_held_has_one_dot_of_a_member_and_a_site()
    ensures dots { HoldOneDotASite }
    ensures cells { HoldFewCells }
{}

/// Any two deltas that a world holds agree, so no join of them is in conflict (RR-7506: states form a join semilattice).
pub fn what_is_held_agrees()
    ensures { HeldAgree }
{}

/// A site of a reached world may join each entry: the delta of the entry has only the site's queues, has no dot or count of the
/// site that the site hasn't made, and agrees with what the site knows. So each site may join each frame of the pool. This law
/// doesn't cover limits: a take still fails if the join would have too many live dots or too many runs.
pub fn a_site_may_take_every_entry()
    ensures entries { MayTakeEntries }
    ensures frames { MayJoinFrames }
{}

/// A world grows with each event: the sites stay, each knows what it knew and has made no fewer frames, and the pool keeps its
/// entries. So a site that has taken an entry knows each of its operations from then on (RR-7506: states only grow).
pub fn a_world_only_grows()
    ensures event { EventsGrow }
    ensures events { RunsGrow }
    ensures taken { TakenStaysKnown }
{}

/// States grow with each event, whatever its outcome: there are as many sites, with the same queues; each knows each dot that it
/// knew, with its condition or a greater one, has no smaller total, and has used no fewer numbers; and the pool keeps its frames.
/// So a site that has taken a frame says all that the frame says from then on, and a dot that is dead in the frame is dead there.
/// This follows from the conditions of events alone, for any states (RR-7506: states only grow).
pub fn states_only_grow()
    ensures event { LeadsGrow }
    ensures events { LeadAllGrows }
    ensures taken { TakenStaysSaid }
{}

/// The conditions of an event imply its meaning in the world of operations. If states stand for a reached world, and an event leads
/// from them to new states by conditions, then either the event has the same outcome in that world and the new states stand for the
/// world after it, or it ran out of memory and the new states stand for the same world. The same holds of lists of events. So each
/// event with values within their limits keeps what holds of the sites of every world (RR-7506: a replica's state stands for the
/// updates that it has made or merged).
pub fn what_comes_by_conditions_comes_of_operations()
    ensures event { (from to : WorldState) (w : World) (e : Event) (o : Outcome)
        → AreQueues from.names → IsReached from.names (length from.sites) w
        → StandsForWorld from w → EventLeads from e o to → HasHappened to w e o }
    ensures events { (from to : WorldState) (w : World) (events : List Event)
        (outcomes : List Outcome) → AreQueues from.names
        → IsReached from.names (length from.sites) w → StandsForWorld from w
        → EventsLead from events outcomes to → HaveHappened to w events outcomes }
    ensures world { (from to : WorldState) (e : Event) (o : Outcome) → IsWorld from
        → HasValuesWithinLimits e → EventLeads from e o to → IsWorld to }
    ensures worlds { (from to : WorldState) (events : List Event) (outcomes : List Outcome)
        → IsWorld from → All HasValuesWithinLimits events → EventsLead from events outcomes to
        → IsWorld to }
{
    deeds_stand_for_steps();
    refusals_stand_for_steps();
    a_report_is_the_status_text_of_what_its_site_stands_for();
}

/// Each operation that a site knows or has in its buffer, or that an entry carries, is within the limits of operations, if the
/// queues are, there are at most 64 sites, and the values of each command were within theirs. The types `QueueList` and `Event`
/// ensure the first and the last, and a world has at most 64 sites. So every delta that a world holds stands for operations within
/// their limits.
pub fn operations_of_a_world_are_within_limits()
    ensures event { EventsKeepLimits }
    ensures events { WorldsAreWithinLimits }
    ensures held { HoldWithinLimits }
{}

/// After a take with the outcome `Took(Ok(()))` its site knows what the entry carries and what it knew before, and nothing else
/// (RR-7506: a replica merges what it is sent).
pub fn a_take_gives_every_operation_of_its_entry()
    ensures { TakesGive }
{}

/// To run a list of events in parts is the same as to run it as a whole. A world that events lead to from a reached world is
/// reached.
pub fn events_are_run_in_parts()
    ensures parts { (names : List (List ℕ)) (w : World) (first rest : List Event)
        → RunsInParts names w first rest }
    ensures leads { LeadsOn }
{}

/// In each world that events lead to, what each site knows and has in its buffer is small enough for a frame, and so is what each
/// entry carries; the maker of an entry is a site, and its number is one of a frame. So each entry fits in a frame within the
/// ranges of the format, if there are at most 64 sites and the operations of the world are within their limits. Every delta that a
/// world holds, and each frame of its pool, stands for a knowledge that fits.
pub fn entries_of_a_world_fit_in_frames()
    ensures small { WorldsAreSmall }
    ensures entries { EntriesFit }
    ensures frames { EntriesHaveFrames }
    ensures held { HoldWhatFits }
    ensures pool { FramesFit }
{
    what_a_site_knows_stays_small_enough_for_a_frame();
    a_knowledge_has_one_delta();
}

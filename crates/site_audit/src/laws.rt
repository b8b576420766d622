//! Laws of worlds that run the events of an audit, and of journals without a run. The functions have no body: their contracts are
//! the laws.
ghost use Rattle.std.specs.List.{All};
ghost use Rattle.std.specs.Prelude.{◌≡◌, ◌≢◌, ℕ, List, Some, length, slice_get};
ghost use Rattle.delta.specs.declared.frame.Frame.{Frame};
ghost use Rattle.delta_codec.specs.Frames.{SpellsIn};
ghost use Rattle.delta_codec.specs.declared.limits.TheConstants.{VERSION};
ghost use Rattle.replica.specs.Site.{IsSameSite, SiteState};
ghost use Rattle.site_journal.specs.Journals.{JournalState};
ghost use Rattle.site_journal.specs.declared.step.Step.{Step};
ghost use Rattle.site_journal.specs.declared.step.StepDeed.TheVariants.{Took};
ghost use Rattle.sites_world.specs.declared.event.Event.{Event};
ghost use Rattle.sites_world.specs.declared.outcome.Outcome.{Outcome};
ghost use Rattle.sites_world.specs.Worlds.{new_world};
ghost use Rattle.sites_world.specs.WorldStates.{HaveHappened, WorldState};
ghost use Rattle.site_audit.specs.Runs.{IsRun, names_in};

/// A new world that runs the events of an audit, none of them `NoMemory`, has replicas that say the same as those of the journals:
/// the same members and totals, in the buffer too, and the same last numbers.
pub fn a_world_that_runs_an_audit_says_what_the_journals_say()
    ensures { (journals : List JournalState) (events : List Event) (outcomes : List Outcome)
        (new : WorldState) (site : ℕ) (j : JournalState) (state : SiteState)
        → IsRun journals events → new.names ≡ names_in journals
        → HaveHappened new (new_world (length journals)) events outcomes
        → All (λ outcome. outcome ≢ Outcome.NoMemory) outcomes
        → slice_get journals site ≡ Some j → slice_get new.sites site ≡ Some state
        → IsSameSite j.replica state }
{}

/// If a journal has the take of a frame in a version other than the one that sites write, no list of events is one run of the
/// journals, since no event makes these bytes. So an audit lists no events for them.
pub fn no_run_takes_a_frame_of_another_version()
    ensures { (journals : List JournalState) (site position version : ℕ) (j : JournalState)
        (step : Step) (bytes : List ℕ) (frame : Frame) (events : List Event)
        → slice_get journals site ≡ Some j → slice_get j.steps position ≡ Some step
        → step.deed ≡ Took bytes → SpellsIn version frame bytes → version ≢ VERSION
        → IsRun journals events → ⊥ }
{}

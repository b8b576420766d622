//! Laws of commands and steps, and of the states that stand for them. The functions have no body: their contracts are the laws.
ghost use Rattle.std.specs.Prelude.{◌≡◌, ◌↔◌, ◌<◌, ◌≤◌, ◌∷◌, ℕ, Bool, List, Option, Result};
ghost use Rattle.std.specs.Prelude.{length, suc};
ghost use Rattle.dots.specs.declared.calls.Calls.{Calls};
ghost use Rattle.dots.specs.declared.label.Label.{Label};
ghost use Rattle.dots.specs.declared.limits.TheConstants.{MOST_COUNT, MOST_LIVE, MOST_RUNS};
ghost use Rattle.operations.specs.Operations.{Operation, Setting};
ghost use Rattle.operations.specs.Knowledge.{Knowledge};
ghost use Rattle.member_orset.specs.Members.{cells_joined, runs_joined};
ghost use Rattle.delta.specs.declared.frame.Frame.{Frame};
ghost use Rattle.delta.specs.DeltaStates.{DeltaState, IsEmpty, IsSame};
ghost use Rattle.delta.specs.Frames.{IsInRanges, IsSameFrame, frame_of};
ghost use Rattle.delta.specs.Joining.{DeltasInConflict};
ghost use Rattle.delta.specs.Standing.{IsDeltaOf};
ghost use Rattle.replica.specs.declared.command.Command.{Command};
ghost use Rattle.replica.specs.declared.refusal.Refusal.{Refusal};
ghost use Rattle.replica.specs.declared.take_fault.TakeFault.{TakeFault};
ghost use Rattle.replica.specs.Promises.{ForeseesOneMore, OlderAreNamed, MakesTraces};
ghost use Rattle.replica.specs.Promises.{MakesWithinLimits, MeansTheSame, AreAlike, AreAsFull};
ghost use Rattle.replica.specs.Promises.{MeansTheSameAlike, RefusalsChangeNothing};
ghost use Rattle.replica.specs.Causes.{IsCaused};
ghost use Rattle.replica.specs.Changes.{AddMember, Change, CountCall, Makes, Meaning};
ghost use Rattle.replica.specs.Changes.{RemoveMember, SetField, change_of, meaning};
ghost use Rattle.replica.specs.Commands.{Follows};
ghost use Rattle.replica.specs.Deeds.{IsCutDeed, IsNew, IsTakeDeed, IsWholeDeed};
ghost use Rattle.replica.specs.FrameSteps.{IsSmallSite, StepsStaySmall};
ghost use Rattle.replica.specs.Framing.{IsFramed};
ghost use Rattle.replica.specs.Keeping.{IsKept};
ghost use Rattle.replica.specs.MadeOperations.{IsMadeAt};
ghost use Rattle.replica.specs.Queues.{AreQueues};
ghost use Rattle.replica.specs.Site.{IsSameSite, IsUnchanged, SiteState, meaning_at};
ghost use Rattle.replica.specs.Site.{rows_of, sums_of};
ghost use Rattle.replica.specs.Shows.{KnowsNonePast, Shows, ShowsAdd, ShowsCount, ShowsRemove};
ghost use Rattle.replica.specs.Shows.{ShowsSetting};
ghost use Rattle.replica.specs.SiteViews.{SiteView, site_view};
ghost use Rattle.replica.specs.Standing.{StandsFor, result_of};
ghost use Rattle.replica.specs.Steps.{CellsFull, Cut, Do, NoNumber, Nothing, RunsFull};
ghost use Rattle.replica.specs.Steps.{SiteKnowledge, Step, Take, Taken, Whole, new_site, step};
ghost use Rattle.replica.specs.Taking.{HasNoneLater, IsNotMine, IsRefusedFor, IsRefusedTake};
ghost use Rattle.replica.specs.Taking.{MayHear, MayJoin, MayTake, SpeaksOfStrangeQueue};

/// The visible and the known dots that a site view gives for one operation more are those of the knowledge with that operation. So
/// whether a site is full is decided for what it would know.
pub fn a_site_view_foresees_one_operation_more()
    ensures { (site : ℕ) (k : Knowledge) (o : Operation) → ForeseesOneMore site k o }
{}

/// The older dots that an add and a write name are dots of the same site with lesser counts that some operation has named.
pub fn older_dots_are_named()
    ensures { OlderAreNamed }
{}

/// A command has one meaning at consistent knowledges of the same operations, if the buffers too are consistent and have the same
/// operations (RR-7506: the meaning doesn't depend on the order of delivery).
pub fn a_command_means_the_same_at_the_same_operations()
    ensures { MeansTheSame }
{}

/// A command means the same at site views that are alike, of a knowledge or of a state that stands for it, if their buffers have
/// the same known and visible dots.
pub fn a_command_means_the_same_at_views_that_are_alike()
    ensures { (r s buffer other : SiteView) → AreAlike r s → AreAsFull buffer other
        → MeansTheSameAlike r s buffer other }
{}

/// The operation of a command is within the limits of operations, if the site's number, its queues, the command's values, and all
/// operations that the site knows, are within theirs.
pub fn a_command_makes_operations_within_limits()
    ensures { MakesWithinLimits }
{}

/// The operation of a command leaves a trace in every delta that stands for it, so that a buffer that isn't empty has no empty
/// delta.
pub fn a_command_makes_operations_that_leave_traces()
    ensures { MakesTraces }
{}

/// The operation of a command is one that its site may make: an add of its next dot under its next time, of a member that isn't
/// there; a remove of all dots of one member that are visible to it; a write of all that are visible of each member that it writes,
/// under a time after all of its own; its next count (RR-8083: an add makes a new tag, and a remove names the observed ones).
pub fn a_command_makes_what_its_site_may_make()
    ensures { (site : ℕ) (names : List (List ℕ)) (change : Change) (k buffer : Knowledge)
        (o : Operation)
        → meaning site names (site_view site k) (site_view site buffer) change ≡ Makes o
        → IsMadeAt site names k o }
{}

/// A step that is refused leaves the site as it was.
pub fn a_refused_step_changes_nothing()
    ensures { (site : ℕ) (names : List (List ℕ)) (s : SiteKnowledge) (event : Step)
        → RefusalsChangeNothing site names s event }
{}

/// A replica that is unchanged stands for what it stood for.
pub fn an_unchanged_replica_stands_for_the_same()
    ensures { (old new : SiteState) (s : SiteKnowledge)
        → StandsFor old s → IsUnchanged old new → StandsFor new s }
{}

/// To say the same is an equivalence of sites: reflexive, symmetric and transitive. A site that is unchanged or equal says the
/// same.
pub fn to_say_the_same_is_an_equivalence()
    ensures reflexive { (s : SiteState) → IsSameSite s s }
    ensures symmetric { (s t : SiteState) → IsSameSite s t → IsSameSite t s }
    ensures transitive { (s t u : SiteState)
        → IsSameSite s t → IsSameSite t u → IsSameSite s u }
    ensures unchanged { (old new : SiteState) → IsUnchanged old new → IsSameSite old new }
    ensures equal { (old new : SiteState) → new ≡ old → IsSameSite old new }
{}

/// Replicas that say the same stand for the same.
pub fn replicas_that_say_the_same_stand_for_the_same()
    ensures { (old new : SiteState) (s : SiteKnowledge)
        → StandsFor old s → IsSameSite old new → StandsFor new s }
{}

/// Each call of a replica is the step of the site that it stands for, whatever room it has: a new replica stands for a new site; a
/// command with its meaning, a cut, a frame of everything that is known and a take lead to what the site knows after that step,
/// with its outcome, if the frame stands for what it carries and this has no later number of the site; a cut of an empty buffer is
/// no step (RR-7506: a replica is changed at its source, and merges what it is sent).
pub fn deeds_stand_for_steps()
    ensures new { (state : SiteState) → IsNew state → StandsFor state new_site }
    ensures command { (old new : SiteState) (s : SiteKnowledge) (change : Change)
        (result : Result (Unit {0}) Refusal) → StandsFor old s
        → Follows old (meaning_at old change) new result
        → let after = step old.site old.names s (Do change) in
        StandsFor new after.0 × (result ≡ result_of after.1) }
    ensures nothing { (state : SiteState) (s : SiteKnowledge) → StandsFor state s
        → IsEmpty state.pending → step state.site state.names s Cut ≡ (s, Nothing) }
    ensures cut { (old new : SiteState) (frame : Frame) (s : SiteKnowledge) → StandsFor old s
        → IsCutDeed old frame new
        → let after = step old.site old.names s Cut in
        StandsFor new after.0 × IsFramed frame after.1 }
    ensures whole { (old new : SiteState) (frame : Frame) (s : SiteKnowledge) → StandsFor old s
        → IsWholeDeed old frame new
        → let after = step old.site old.names s Whole in
        StandsFor new after.0 × IsFramed frame after.1 }
    ensures take { (old new : SiteState) (d : DeltaState) (s : SiteKnowledge) (k : Knowledge)
        → StandsFor old s → IsDeltaOf d k → HasNoneLater old k → IsTakeDeed old d new
        → let after = step old.site old.names s (Take k) in
        StandsFor new after.0 × (after.1 ≡ Taken) }
{}

/// A refusal of a replica is one of the step of the site that it stands for, which changes nothing: a cut of a buffer that isn't
/// empty, and a frame of everything that is known, if no number is left; and a take if too many dots would be live, or else the
/// known ones would have too many runs.
pub fn refusals_stand_for_steps()
    ensures cut { (state : SiteState) (s : SiteKnowledge) → StandsFor state s
        → (IsEmpty state.pending → ⊥) → state.frames ≡ MOST_COUNT
        → step state.site state.names s Cut ≡ (s, NoNumber) }
    ensures whole { (state : SiteState) (s : SiteKnowledge) → StandsFor state s
        → state.frames ≡ MOST_COUNT → step state.site state.names s Whole ≡ (s, NoNumber) }
    ensures cells_full { (state : SiteState) (d : DeltaState) (s : SiteKnowledge)
        (k : Knowledge) → StandsFor state s → IsDeltaOf d k
        → MOST_LIVE < cells_joined state.state.members d.members
        → step state.site state.names s (Take k) ≡ (s, CellsFull) }
    ensures runs_full { (state : SiteState) (d : DeltaState) (s : SiteKnowledge)
        (k : Knowledge) → StandsFor state s → IsDeltaOf d k
        → cells_joined state.state.members d.members ≤ MOST_LIVE
        → MOST_RUNS < runs_joined state.state.members d.members
        → step state.site state.names s (Take k) ≡ (s, RunsFull) }
{}

/// If a site may take a delta, it may take each one that says the same, and the take of the one is the take of the other. So it
/// makes no difference whether a site takes a frame or a copy of it.
pub fn what_says_the_same_is_taken_the_same()
    ensures may { (s : SiteState) (d e : DeltaState) → IsSame d e → MayTake s d → MayTake s e }
    ensures taken { (old new : SiteState) (d e : DeltaState)
        → IsSame d e → IsTakeDeed old d new → IsTakeDeed old e new }
{}

/// Sites that say the same show the same and act the same, whatever rooms and ids they have: a queue has the same rows and the same
/// totals; a command means the same; the buffers of both are empty, or of neither; and both may take the same deltas, and refuse
/// the same for the same cause. After the same command, a cut, a frame of all that is known, or the take of one delta, they say the
/// same again, with the same result, and so do their frames (RR-7506: replicas in equivalent states stay so under the same
/// updates).
pub fn sites_that_say_the_same_do_the_same()
    ensures rows { (s t : SiteState) (queue : ℕ) → IsSameSite s t
        → rows_of s queue ≡ rows_of t queue }
    ensures totals { (s t : SiteState) (queue : ℕ) → IsSameSite s t
        → sums_of s queue ≡ sums_of t queue }
    ensures means { (s t : SiteState) (change : Change) → IsSameSite s t
        → meaning_at s change ≡ meaning_at t change }
    ensures command { (s t new after : SiteState) (change : Change)
        (result other : Result (Unit {0}) Refusal) → IsSameSite s t
        → Follows s (meaning_at s change) new result
        → Follows t (meaning_at t change) after other
        → (result ≡ other) × IsSameSite new after }
    ensures empty { (s t : SiteState) → IsSameSite s t → IsEmpty s.pending
        → IsEmpty t.pending }
    ensures cut { (s t new after : SiteState) (frame other : Frame) → IsSameSite s t
        → IsCutDeed s frame new → IsCutDeed t other after
        → IsSameFrame frame other × IsSameSite new after }
    ensures whole { (s t new after : SiteState) (frame other : Frame) → IsSameSite s t
        → IsWholeDeed s frame new → IsWholeDeed t other after
        → IsSameFrame frame other × IsSameSite new after }
    ensures may { (s t : SiteState) (d : DeltaState) → IsSameSite s t → MayTake s d
        → MayTake t d }
    ensures strange { (s t : SiteState) (d : DeltaState) → IsSameSite s t
        → SpeaksOfStrangeQueue (length s.names) d → SpeaksOfStrangeQueue (length t.names) d }
    ensures not_mine { (s t : SiteState) (d : DeltaState) → IsSameSite s t → IsNotMine s d
        → IsNotMine t d }
    ensures conflict { (s t : SiteState) (d : DeltaState) → IsSameSite s t
        → MayHear s d × DeltasInConflict s.state d → MayHear t d × DeltasInConflict t.state d }
    ensures cells_full { (s t : SiteState) (d : DeltaState) → IsSameSite s t
        → MayJoin s d × (MOST_LIVE < cells_joined s.state.members d.members)
        → MayJoin t d × (MOST_LIVE < cells_joined t.state.members d.members) }
    ensures runs_full { (s t : SiteState) (d : DeltaState) → IsSameSite s t
        → MayJoin s d × (cells_joined s.state.members d.members ≤ MOST_LIVE)
        × (MOST_RUNS < runs_joined s.state.members d.members)
        → MayJoin t d × (cells_joined t.state.members d.members ≤ MOST_LIVE)
        × (MOST_RUNS < runs_joined t.state.members d.members) }
    ensures refusals { (s t : SiteState) (d : DeltaState)
        (result : Result (Unit {0}) (TakeFault × Frame)) → IsSameSite s t
        → IsRefusedTake s d (IsRefusedFor result) → IsRefusedTake t d (IsRefusedFor result) }
    ensures take { (s t new after : SiteState) (d : DeltaState) → IsSameSite s t
        → IsTakeDeed s d new → IsTakeDeed t d after → IsSameSite new after }
{}

/// The next frame of a replica, of its buffer or of everything that it knows, is within the ranges of the format while a number is
/// left, so it has an encoding.
pub fn a_next_frame_is_in_ranges()
    ensures pending { (s : SiteState) → IsKept s → AreQueues s.names → s.frames < MOST_COUNT
        → IsInRanges (frame_of s.site (suc s.frames) s.pending) }
    ensures state { (s : SiteState) → IsKept s → AreQueues s.names → s.frames < MOST_COUNT
        → IsInRanges (frame_of s.site (suc s.frames) s.state) }
{}

/// What a site knows, and what it has in its buffer, is small enough for a frame: at a new site, and after each step, whatever is
/// asked and taken, since a step that would exceed a limit is refused. Each frame that is made carries what is small enough, under
/// a number of a frame.
pub fn what_a_site_knows_stays_small_enough_for_a_frame()
    ensures new { IsSmallSite new_site }
    ensures steps { StepsStaySmall }
{}

/// The knowledge that a replica stands for has no dot of its site past the last that the site made, whatever frames it took. So the
/// dot of its next add is new, and an add that is done has the effect that `a_done_command_shows` states (RR-8083: each add has a
/// tag of its own).
pub fn a_replica_knows_none_of_its_dots_past_the_last()
    ensures { (state : SiteState) (s : SiteKnowledge) → IsKept state → StandsFor state s
        → KnowsNonePast state.site s.known }
{}

/// The effect of a command that is done, by what its site knows before and after it: on the rows of the members that it is for, or
/// on the totals of the call that it counts; everything else is shown as before. The effect of an add holds at a site that knows
/// none of its own dots past its last one, as each replica does, and each site of a world that events lead to.
pub fn a_done_command_shows()
    ensures add { (site : ℕ) (names : List (List ℕ)) (queue interface : List ℕ) (penalty : ℕ)
        (paused : Bool) (label : Label) (k buffer : Knowledge) (o : Operation)
        → KnowsNonePast site k
        → meaning site names (site_view site k) (site_view site buffer)
        (AddMember queue interface penalty paused label) ≡ Makes o
        → ShowsAdd names k (o ∷ k) queue interface penalty paused label }
    ensures remove { (site : ℕ) (names : List (List ℕ)) (queue interface : List ℕ)
        (k buffer : Knowledge) (o : Operation)
        → meaning site names (site_view site k) (site_view site buffer)
        (RemoveMember queue interface) ≡ Makes o
        → ShowsRemove names k (o ∷ k) queue interface }
    ensures set { (site : ℕ) (names : List (List ℕ)) (queue : Option (List ℕ))
        (interface : List ℕ) (setting : Setting) (k buffer : Knowledge) (o : Operation)
        → meaning site names (site_view site k) (site_view site buffer)
        (SetField queue interface setting) ≡ Makes o
        → ShowsSetting names k (o ∷ k) queue interface setting }
    ensures count { (site : ℕ) (names : List (List ℕ)) (queue : List ℕ) (calls : Calls)
        (k buffer : Knowledge) (o : Operation)
        → meaning site names (site_view site k) (site_view site buffer)
        (CountCall queue calls) ≡ Makes o
        → ShowsCount site names k (o ∷ k) queue calls }
    ensures command { (site : ℕ) (names : List (List ℕ)) (done : Command)
        (k buffer : Knowledge) (o : Operation)
        → KnowsNonePast site k
        → meaning site names (site_view site k) (site_view site buffer) (change_of done) ≡ Makes o
        → Shows site names done k (o ∷ k) }
{}

/// The meaning of a command, by its cause: by the queues, the rows and the limits.
///
/// - `NoSuchQueue`, exactly where it names a queue that isn't in the list.
/// - `AlreadyThere`, exactly where it adds a member that has a row.
/// - `NotThere`, exactly where it is a remove or a setting, its queue is in the list if it names one, and no member that it is for
///   has a row.
///
/// Otherwise it asks for an operation:
///
/// - `MembersFull`, exactly where that is too much for what the site knows, for its buffer or by itself;
/// - else `Exhausted`, exactly where it needs a count or a time past the greatest;
/// - else `TotalFull`, exactly where it needs a total past the greatest;
/// - else it makes the operation.
///
/// Out of memory is no meaning.
pub fn a_command_is_refused_for_its_cause()
    ensures { (site : ℕ) (names : List (List ℕ)) (change : Change) (k buffer : Knowledge)
        (meant : Meaning)
        → (meaning site names (site_view site k) (site_view site buffer) change ≡ meant)
        ↔ IsCaused site names k buffer change meant }
{}

//! Laws of the script of events. The functions have no body but other laws: their contracts are the laws.
ghost use Rattle.std.specs.Prelude.{◌≡◌, ◌≤◌, ◌++◌, ℕ, [], List, Option, Some, count_by, length};
ghost use Rattle.std.specs.List.{All};
ghost use Rattle.ami_text.specs.Lines.{lines_text};
ghost use Rattle.dots.specs.declared.limits.TheConstants.{SITES};
ghost use Rattle.site_audit.specs.Runs.{IsRun, names_in};
ghost use Rattle.site_journal.specs.Journals.{JournalState};
ghost use Rattle.sites_world.specs.declared.event.Event.{Event};
ghost use Rattle.scripts.specs.LineSteps.{listed_place};
ghost use Rattle.scripts.specs.Script.{IsScriptRun};
ghost use Rattle.event_script.specs.Comments.{IsComment};
ghost use Rattle.event_script.specs.Lines.{HasLimits, is_unsaid, script_of};
ghost use Rattle.event_script.specs.Shown.{ShowsJournals};

use scripts::laws::script_has_one_text;

/// The script of a list of events that is one run of journals shows what the journals say, if lines say all events: run over as many sites
/// with the queues of the journals, it gives for each event what the next step of its site says. For an ask that is the stored answer. No
/// line is left out, none isn't understood, and each site's steps are shown to the last.
pub fn a_script_of_a_run_shows_what_the_journals_say()
    ensures { (journals : List JournalState) (events : List Event) (before after : List ℕ)
        (unknown : ℕ) → length journals ≤ SITES → IsRun journals events
        → All HasLimits events → count_by is_unsaid events ≡ 0
        → IsScriptRun (listed_place (length journals) (names_in journals))
        (Some (script_of events)) (Some []) (Some before) (Some after) unknown
        → (unknown ≡ 0) × ShowsJournals journals events before after }
{
    script_has_one_text();
}

/// Comments before the script of a list of events change nothing that it shows: if the events are one run of journals, and lines
/// say all events, the whole text, run over as many sites with the queues of the journals, gives for each event what the next step
/// of its site says.
pub fn comments_before_a_script_change_nothing_that_it_shows()
    ensures { (comments : List (List ℕ)) → All IsComment comments
        → (journals : List JournalState) (events : List Event) (before after : List ℕ)
        (unknown : ℕ) → length journals ≤ SITES → IsRun journals events
        → All HasLimits events → count_by is_unsaid events ≡ 0
        → IsScriptRun (listed_place (length journals) (names_in journals))
        (Some (lines_text comments ++ script_of events)) (Some []) (Some before) (Some after)
        unknown → (unknown ≡ 0) × ShowsJournals journals events before after }
{
    script_has_one_text();
}

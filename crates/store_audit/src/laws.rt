//! The law of a written audit. The function has no body but another law: its contract is the law.
ghost use Rattle.std.specs.Prelude.{◌≡◌, ℕ, [], List, Some, length};
ghost use Rattle.event_script.specs.Shown.{ShowsJournals};
ghost use Rattle.scripts.specs.LineSteps.{listed_place};
ghost use Rattle.scripts.specs.Script.{IsScriptRun};
ghost use Rattle.site_audit.specs.Runs.{names_in};
ghost use Rattle.store_audit.specs.Audits.{IsExplained};
ghost use Rattle.store_audit.specs.Stores.{journals_of};
ghost use Rattle.store_audit.specs.declared.store_journal.StoreJournal.{StoreJournal};

use event_script::laws::comments_before_a_script_change_nothing_that_it_shows;

/// What an audit wrote shows, as a script, what the stores say: if one list of events explains the stores, and lines say all events,
/// the whole text, run over as many sites with the queues of the stores, gives for each event what the next step of its site says. For an
/// ask that is the stored answer. No line isn't understood, and each site's steps are shown to the last.
pub fn a_written_audit_shows_what_the_stores_say()
    ensures { (stores : List StoreJournal) (text before after : List ℕ) (unknown : ℕ)
        → (it : IsExplained stores 0 (Some []) (Some text))
        → IsScriptRun (listed_place (length stores) (names_in (journals_of it.sorted)))
        (Some text) (Some []) (Some before) (Some after) unknown
        → (unknown ≡ 0) × ShowsJournals (journals_of it.sorted) it.events before after }
{
    comments_before_a_script_change_nothing_that_it_shows();
}

//! Laws of a script's text. The functions have no body but other laws: their contracts are the laws.
ghost use Rattle.std.specs.Prelude.{◌≤◌, ℕ, List};
ghost use Rattle.dots.specs.declared.limits.TheConstants.{SITES};
ghost use Rattle.replica.specs.Queues.{AreQueues};
ghost use Rattle.sites_world.specs.WithinLimits.{KnowsWithinLimits};
ghost use Rattle.sites_world.specs.Worlds.{IsReached, World, new_world};
ghost use Rattle.script_lines.specs.ScriptLines.{lines_of};
ghost use Rattle.scripts.specs.Script.{HaveOneText, HaveText, ScriptSites};

use ami_session::laws::what_a_message_asks_is_within_limits;
use ami_text::laws::stream_has_one_outcome;
use delta::laws::a_knowledge_has_one_delta;
use delta_codec::laws::{
    a_frame_that_fits_the_format_has_a_spelling, each_frame_has_one_spelling,
    the_frame_of_a_knowledge_that_fits_has_a_spelling,
};
use sites_world::laws::{
    a_world_only_grows, entries_of_a_world_fit_in_frames, events_are_run_in_parts,
    operations_of_a_world_are_within_limits,
};

/// The lines of a script have at most one text, over each world of operations, and the output of lines that were begun or done is a
/// prefix of it.
pub fn script_has_one_text()
    ensures { (place : ScriptSites) (w : World) (number : ℕ) (lines : List (List ℕ))
        → HaveOneText place w number lines }
{
    stream_has_one_outcome();
    a_knowledge_has_one_delta();
    each_frame_has_one_spelling();
}

/// If the queues are those of a queue list (1 to 256 queue names, no two the same), each script has a text, over at most 64 new
/// sites. So have lines over each world of such sites that events lead to, if its operations are within their limits. The output of
/// a script that was begun or done in part is a prefix of its text.
pub fn each_script_has_a_text()
    ensures script { (place : ScriptSites) (script : List ℕ) → AreQueues place.names
        → place.sites ≤ SITES → HaveText place (new_world place.sites) 1 (lines_of script) }
    ensures lines { (place : ScriptSites) (w : World) (number : ℕ) (lines : List (List ℕ))
        → AreQueues place.names → place.sites ≤ SITES → IsReached place.names place.sites w
        → KnowsWithinLimits w → HaveText place w number lines }
{
    stream_has_one_outcome();
    a_knowledge_has_one_delta();
    each_frame_has_one_spelling();
    the_frame_of_a_knowledge_that_fits_has_a_spelling();
    a_frame_that_fits_the_format_has_a_spelling();
    what_a_message_asks_is_within_limits();
    entries_of_a_world_fit_in_frames();
    operations_of_a_world_are_within_limits();
    events_are_run_in_parts();
    a_world_only_grows();
}

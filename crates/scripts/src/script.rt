//! The sites of a script, and its lines, which run over them in order.
ghost use Rattle.std.specs.Prelude.{◌≡◌, ◌≤◌, ◌⊎◌, ◌↔◌, true, false, ℕ, List, Some, length};
ghost use Rattle.std.specs.Prelude.{IfErr, IfOk, IsErrOf, OnOk, slice_get};
ghost use Rattle.delta.specs.Frames.{IsInRanges};
ghost use Rattle.delta_codec.specs.Frames.{SpellsIn};
ghost use Rattle.delta_codec.specs.declared.limits.TheConstants.{VERSION};
ghost use Rattle.replica.specs.Standing.{StandsFor};
ghost use Rattle.replica.specs.Steps.{SiteKnowledge};
ghost use Rattle.sites_world.specs.Worlds.{World as world_of_operations, new_world};
ghost use Rattle.ami_session.specs.FieldValues.{name_of};
ghost use Rattle.ami_session.specs.Views.{reaction_of};
ghost use Rattle.script_lines.specs.ScriptLines.{Message as asks_message, queue_in, sense_of};
ghost use Rattle.script_lines.specs.ScriptLines.{tried_in};
ghost use Rattle.scripts.specs.Answers.{frame_text};
ghost use Rattle.scripts.specs.Script.{HasBegunText, HasDoneLines, HasWritten, IsEntryShown};
ghost use Rattle.scripts.specs.Script.{count_of, given_by_count, given_by_event};
ghost use Rattle.scripts.specs.Script.{given_by_message, given_by_reaction, text_of_offer};
ghost use Rattle.scripts.specs.Script.{waited_reply};
ghost use Rattle.scripts.specs.LineSteps.{BeganLine, GaveLine, IsHappening, IsOutput, IsUnknown};
ghost use Rattle.scripts.specs.LineSteps.{StandsAt, StandsForGiven, listed_place, place_of};

use crate::answers::{
    frame_text, no_entry_text, no_queue_text, offer_text, outcome_text, unknown_text,
};
use crate::script_fault::ScriptFault;
use ami_session::{Act, Pending, Session, queue_of};
use ami_text::{Message, Sink, write_all};
use delta_codec::{Frame, encode};
use dots::{Calls, Memory, QueueName, SiteId};
use offer::offer;
use replica::{Command, QueueList, Replica};
use script_lines::{Line, SiteCount, cut_at_bar, cut_line, interfaces_of, message_of, read_line};
use sites_world::laws::events_are_run_in_parts;
use sites_world::{Event, Outcome, World};
use status_report::Ask;
use std::alloc::Global;

/// The sites of a script.
#[derive(Drop)]
pub struct Script {
    alloc: Global,
    sites: SiteCount,
    world: World,
}

/// The output of a line: its text, and whether the line was understood.
#[derive(Drop)]
pub struct Output {
    text: Vec<u8>,
    understood: bool,
}

// The line of a frame that is shown. Fails only when out of memory.
fn shown(alloc: Global, frame: &Frame) -> Result<Vec<u8>, Memory>
    ensures { IsInRanges frame.now → IfOk result (λ text. (bytes : List ℕ)
        × SpellsIn VERSION frame.now bytes × (text.items ≡ frame_text bytes)) }
{
    let bytes = encode(alloc, frame)?;
    frame_text(alloc, &bytes)
}

// The ask for a call of a queue to be counted.
fn count_of(calls: Calls, queue: QueueName) -> Ask
    ensures { result ≡ count_of calls queue }
{
    Ask::Command(match calls {
        Calls::Completed => Command::Completed { queue },
        Calls::Abandoned => Command::Abandoned { queue },
    })
}

// The output of an offer of a site's replica; a first part that is no queue's name counts as a queue that isn't there. Fails only when out
// of memory.
fn offer_of(alloc: Global, replica: &Replica, parts: &[u8]) -> Result<Vec<u8>, Memory>
    ensures { IfOk result (λ text. (s : SiteKnowledge) → StandsFor replica.now s → text.items
        ≡ text_of_offer replica.now.names (Some s) (queue_in parts.now) (tried_in parts.now)) }
{
    let (queue, behind) = cut_at_bar(parts);
    match queue_of(queue) {
        None => no_queue_text(alloc),
        Some(queue) => {
            let tried = interfaces_of(alloc, behind)?;
            offer_text(alloc, offer(replica, &queue, &tried))
        }
    }
}

// The reply to a message that waits for the outcome of its ask; no bytes if there is no such site. Fails only when out of memory.
fn reply(alloc: Global, pending: Pending, outcome: Outcome) -> Result<Vec<u8>, Memory>
    ensures { IfOk result (λ text. text.items ≡ waited_reply pending outcome) }
{
    match outcome {
        Outcome::Answered(answer) => pending.answer(alloc, answer).map_err(|(memory, _)| memory),
        _ => Ok(Vec::new(alloc)),
    }
}

// The output of a line that isn't understood. Fails only when out of memory.
fn not_understood(alloc: Global, number: u64) -> Result<Output, Memory>
    ensures { IfOk result (λ output. IsUnknown number output) }
{
    let text = unknown_text(alloc, number)?;
    Ok(Output {
        text,
        understood: false,
    })
}

impl Script {
    // A script over new sites. Fails only when out of memory.
    pub(crate) fn new(alloc: Global, sites: SiteCount, list: &QueueList) -> Result<Script, Memory>
        ensures place { IfOk result (λ script. place_of script ≡ listed_place sites list.now) }
        ensures stands { IfOk result (λ script. StandsAt script.world (new_world sites)) }
    {
        match World::new(alloc, sites.get(), list) {
            Ok(world) => Ok(Script {
                alloc,
                sites,
                world,
            }),
            Err(_) => Err(Memory),
        }
    }

    // Runs an event, and returns its outcome, which isn't `NoMemory`. Fails only when out of memory, and then the event has no effect.
    fn happen(&mut self, event: Event) -> Result<Outcome, Memory>
        ensures ok { IfOk result (λ outcome. (w : world_of_operations)
            → StandsAt self.old.world w
            → IsHappening (place_of self.old) w event self.new.world outcome) }
        ensures place { place_of self.new ≡ place_of self.old }
    {
        events_are_run_in_parts();
        match self.world.happen(event) {
            Outcome::NoMemory => Err(Memory),
            outcome => Ok(outcome),
        }
    }

    // Runs an event, and returns its output. Fails only when out of memory; the event may then have had its effect.
    fn run_event(&mut self, event: Event) -> Result<Vec<u8>, Memory>
        ensures ok { IfOk result (λ text. (w : world_of_operations) → StandsAt self.old.world w
            → StandsForGiven (given_by_event (place_of self.old) w event) self.new.world text.items) }
        ensures place { place_of self.new ≡ place_of self.old }
    {
        let outcome = self.happen(event)?;
        outcome_text(self.alloc, outcome)
    }

    // Counts a call, and returns the output; a name of no queue counts nothing. Fails only when out of memory.
    fn run_count(&mut self, site: SiteId, calls: Calls, queue: &[u8]) -> Result<Vec<u8>, Memory>
        ensures ok { IfOk result (λ text. (w : world_of_operations) → StandsAt self.old.world w
            → StandsForGiven (given_by_count (place_of self.old) w site calls (name_of queue.now))
            self.new.world text.items) }
        ensures place { place_of self.new ≡ place_of self.old }
    {
        match queue_of(queue) {
            None => no_queue_text(self.alloc),
            Some(queue) => self.run_event(Event::Ask(site, count_of(calls, queue))),
        }
    }

    // The output of an offer, which changes nothing; no bytes if there is no such site. Fails only when out of memory.
    fn run_offer(&self, site: SiteId, parts: &[u8]) -> Result<Vec<u8>, Memory>
        ensures { IfOk result (λ text. (w : world_of_operations) → StandsAt self.now.world w
            → text.items ≡ text_of_offer self.now.world.names (slice_get w.sites site)
            (queue_in parts.now) (tried_in parts.now)) }
    {
        match self.world.replica(site) {
            None => Ok(Vec::new(self.alloc)),
            Some(replica) => offer_of(self.alloc, replica, parts),
        }
    }

    // Asks the site what a session's reaction asks, if it does, and returns the output. Fails only when out of memory; the site may then
    // have done what was asked.
    fn run_act(&mut self, site: SiteId, act: Act) -> Result<Vec<u8>, Memory>
        ensures ok { IfOk result (λ text. (w : world_of_operations) → StandsAt self.old.world w
            → StandsForGiven (given_by_reaction (place_of self.old) w site (reaction_of act))
            self.new.world text.items) }
        ensures place { place_of self.new ≡ place_of self.old }
    {
        match act {
            Act::Reply(bytes) | Act::End(bytes) => Ok(bytes),
            Act::Ask(asked, pending) => {
                let outcome = self.happen(Event::Ask(site, asked))?;
                reply(self.alloc, pending, outcome)
            }
        }
    }

    // Runs a message in a trusted session of its own, and returns the site's reply. Fails only when out of memory.
    fn run_message(&mut self, site: SiteId, message: &Message) -> Result<Vec<u8>, Memory>
        ensures ok { IfOk result (λ text. (w : world_of_operations) → StandsAt self.old.world w
            → StandsForGiven (given_by_message (place_of self.old) w site message.now)
            self.new.world text.items) }
        ensures place { place_of self.new ≡ place_of self.old }
    {
        let mut session = Session::trusted();
        let act = session.handle(self.alloc, message)?;
        self.run_act(site, act)
    }

    // Runs the line of this number with a message for a site, and returns its output. Unless its fields are exactly one message the line
    // isn't understood. Fails only when out of memory.
    fn run_fields(&mut self, site: SiteId, fields: &[u8], number: u64) -> Result<Output, Memory>
        ensures ok { IfOk result (λ output. (w : world_of_operations)
            → StandsAt self.old.world w → IsOutput (place_of self.old) w number
            (asks_message site fields.now) self.new.world output) }
        ensures place { place_of self.new ≡ place_of self.old }
    {
        let Some(message) = message_of(self.alloc, fields)? else {
            return not_understood(self.alloc, number);
        };
        let text = self.run_message(site, &message)?;
        Ok(Output {
            text,
            understood: true,
        })
    }

    // The output for an entry that is shown: its frame, or that it isn't there. Fails only when out of memory.
    fn show(&self, entry: usize) -> Result<Vec<u8>, Memory>
        ensures { IfOk result (λ text. (w : world_of_operations) → StandsAt self.now.world w
            → IsEntryShown entry (slice_get w.pool entry) text.items) }
    {
        match self.world.entry(entry) {
            None => no_entry_text(self.alloc),
            Some(frame) => shown(self.alloc, frame),
        }
    }

    // Runs the line of this number, and returns its output. Fails only when out of memory; the line may then have had its effect.
    fn run_line(&mut self, line: &[u8], number: u64) -> Result<Output, Memory>
        ensures ok { IfOk result (λ output. (w : world_of_operations)
            → StandsAt self.old.world w → IsOutput (place_of self.old) w number
            (sense_of self.old.sites line.now) self.new.world output) }
        ensures place { place_of self.new ≡ place_of self.old }
    {
        let text = match read_line(self.sites, line) {
            Line::Nothing => Vec::new(self.alloc),
            Line::Unknown => return not_understood(self.alloc, number),
            Line::Message(site, fields) => return self.run_fields(site, fields, number),
            Line::Count(site, calls, queue) => self.run_count(site, calls, queue)?,
            Line::Offer(site, parts) => self.run_offer(site, parts)?,
            Line::Cut(site) => self.run_event(Event::Cut(site))?,
            Line::Whole(site) => self.run_event(Event::Whole(site))?,
            Line::Take(site, entry) => self.run_event(Event::Take(site, entry))?,
            Line::Show(entry) => self.show(entry)?,
        };
        Ok(Output {
            text,
            understood: true,
        })
    }

    // Runs the line of this number and writes its output. Returns whether the line was understood. Errors, in order: `Memory`, and nothing
    // was written, though the line may have had its effect; `Write`, after a prefix of the output.
    fn give_line<W: Sink>(
        &mut self,
        writer: &mut W,
        line: &[u8],
        number: u64,
    ) -> Result<bool, ScriptFault>
        requires writer { W.failed writer.old ≡ false }
        ensures works { OnOk result (W.failed writer.new ≡ false) }
        ensures place { place_of self.new ≡ place_of self.old }
        ensures ok { IfOk result (λ understood. (w : world_of_operations)
            → StandsAt self.old.world w → GaveLine (place_of self.old) w number line.now
            self.new.world (W.taken writer.old) (W.taken writer.new) understood) }
        ensures memory { IsErrOf result ScriptFault.Memory
            → W.taken writer.new ≡ W.taken writer.old }
        ensures begun { IsErrOf result ScriptFault.Write → (w : world_of_operations)
            → StandsAt self.old.world w → BeganLine (place_of self.old) w number line.now
            (W.taken writer.old) (W.taken writer.new) }
        ensures write { IsErrOf result ScriptFault.Write ↔ (W.failed writer.new ≡ true) }
        ensures fault { IfErr result
            (λ fault. (fault ≡ ScriptFault.Write) ⊎ (fault ≡ ScriptFault.Memory)) }
    {
        let output = self.run_line(line, number)?;
        write_all(writer, &output.text).map_err(|_| ScriptFault::Write)?;
        Ok(output.understood)
    }

    // Runs the lines of a script in order, numbered from 1, and writes the output of each. Returns how many were not understood. An error
    // ends it, and no further line is run. Errors, at the first line with one: `Memory`, and nothing was written of the line; `Write`,
    // after a prefix of its output.
    pub(crate) fn run_lines<W: Sink>(
        &mut self,
        writer: &mut W,
        text: &[u8],
    ) -> Result<u64, ScriptFault>
        requires writer { W.failed writer.old ≡ false }
        requires short { length text.now ≤ 16777216 }
        ensures ok { IfOk result (λ unknown. (w : world_of_operations)
            → StandsAt self.old.world w → HasWritten (place_of self.old) w text.now
            (W.taken writer.old) (W.taken writer.new) unknown) }
        ensures memory { IsErrOf result ScriptFault.Memory → (w : world_of_operations)
            → StandsAt self.old.world w → HasDoneLines (place_of self.old) w text.now
            (W.taken writer.old) (W.taken writer.new) }
        ensures begun { IsErrOf result ScriptFault.Write → (w : world_of_operations)
            → StandsAt self.old.world w → HasBegunText (place_of self.old) w text.now
            (W.taken writer.old) (W.taken writer.new) }
        ensures works { OnOk result (W.failed writer.new ≡ false) }
        ensures write { IsErrOf result ScriptFault.Write ↔ (W.failed writer.new ≡ true) }
        ensures fault { IfErr result
            (λ fault. (fault ≡ ScriptFault.Write) ⊎ (fault ≡ ScriptFault.Memory)) }
    {
        let mut rest = text;
        let mut number = 0u64;
        let mut unknown = 0u64;
        while !rest.is_empty() {
            let (line, others) = cut_line(rest);
            rest = others;
            number += 1;
            if !self.give_line(writer, line, number)? {
                unknown += 1;
            }
        }
        Ok(unknown)
    }
}

//! The line of a script for an event. Each function appends to `line`. It fails only when out of memory, and then leaves a part of its
//! text.
ghost use Rattle.std.specs.Prelude.{◌≡◌, ◌++◌, [], codes, decimal, IfOk, IfSome, OnOk};
ghost use Rattle.std.specs.List.{flat_map};
ghost use Rattle.dots.specs.Values.{IsName, IsPenalty, IsSite, IsText};
ghost use Rattle.dots.specs.WithinLimits.{IsLabel};
ghost use Rattle.ask_code.specs.Asks.{IsCommand};
ghost use Rattle.replica.specs.declared.command.Command.{Command};
ghost use Rattle.event_script.specs.Lines.{HasLimits, can_say, command_words, comment_mark};
ghost use Rattle.event_script.specs.Lines.{event_line, field_if_any, field_text, label_fields};
ghost use Rattle.event_script.specs.Lines.{queue_field, yes_or_no};

use crate::plain::can_say;
use ami_text::push_decimal;
use dots::{Interface, Label, Memory, Pause, Penalty, QueueName, SiteId, Text80};
use replica::Command;
use sites_world::Event;
use status_report::Ask;

// Appends a field behind a bar: its name, `: ` and its value.
fn push_part(line: &mut Vec<u8>, name: &[u8], value: &[u8]) -> Result<(), Memory>
    ensures { OnOk result (line.new.items
        ≡ line.old.items ++ field_text (name.now, value.now)) }
{
    line.extend_from_slice(b"|")?;
    line.extend_from_slice(name)?;
    line.extend_from_slice(b": ")?;
    line.extend_from_slice(value)
}

// Appends a field behind a bar, if its value has a byte.
fn push_part_if_any(line: &mut Vec<u8>, name: &[u8], value: &Text80) -> Result<(), Memory>
    ensures text { OnOk result (line.new.items ≡ line.old.items
        ++ flat_map field_text (field_if_any name.now value.now)) }
    ensures limit { OnOk result (IsText value.now) }
{
    let bytes = value.as_bytes();
    if bytes.is_empty() {
        return Ok(());
    }
    push_part(line, name, bytes)
}

// Appends the fields of a label behind bars; an empty one is left out.
#[tactic(auto, using(crate::proofs::Wording::label_text))]
fn push_label(line: &mut Vec<u8>, label: &Label) -> Result<(), Memory>
    ensures text { OnOk result (line.new.items ≡ line.old.items
        ++ flat_map field_text (label_fields label.now)) }
    ensures limit { OnOk result (IsLabel label.now) }
{
    push_part_if_any(line, b"MemberName", &label.name)?;
    push_part_if_any(line, b"StateInterface", &label.state)
}

// Appends the field of a queue behind a bar; nothing if there is no queue.
fn push_queue(line: &mut Vec<u8>, queue: &Option<QueueName>) -> Result<(), Memory>
    ensures text { OnOk result (line.new.items ≡ line.old.items
        ++ flat_map field_text (queue_field queue.now)) }
    ensures limit { OnOk result (IfSome queue.now IsName) }
{
    match queue {
        Some(queue) => push_part(line, b"Queue", queue.as_bytes()),
        None => Ok(()),
    }
}

// Appends the field of an interface behind a bar.
fn push_interface(line: &mut Vec<u8>, interface: &Interface) -> Result<(), Memory>
    ensures text { OnOk result (line.new.items
        ≡ line.old.items ++ field_text (codes "Interface", interface.now)) }
    ensures limit { OnOk result (IsName interface.now) }
{
    push_part(line, b"Interface", interface.as_bytes())
}

// Appends the field of a penalty behind a bar.
fn push_penalty(line: &mut Vec<u8>, penalty: Penalty) -> Result<(), Memory>
    ensures text { OnOk result (line.new.items
        ≡ line.old.items ++ field_text (codes "Penalty", decimal penalty)) }
    ensures limit { OnOk result (IsPenalty penalty) }
{
    push_part(line, b"Penalty", b"")?;
    push_decimal(line, u64::from(penalty.get()))
}

// Appends a field that says yes or no behind a bar.
fn push_yes_or_no(line: &mut Vec<u8>, name: &[u8], yes: bool) -> Result<(), Memory>
    ensures { OnOk result (line.new.items
        ≡ line.old.items ++ field_text (name.now, yes_or_no yes)) }
{
    if yes {
        push_part(line, name, b"yes")
    } else {
        push_part(line, name, b"no")
    }
}

// Appends the words for a message of this action, up to the bar of its next field.
fn push_action(line: &mut Vec<u8>, action: &[u8]) -> Result<(), Memory>
    ensures { OnOk result (line.new.items
        ≡ line.old.items ++ (codes "ami Action: " ++ action.now)) }
{
    line.extend_from_slice(b"ami Action: ")?;
    line.extend_from_slice(action)
}

// Appends the words for an add.
fn push_add(
    line: &mut Vec<u8>,
    queue: &QueueName,
    interface: &Interface,
    penalty: Penalty,
    paused: bool,
    label: &Label,
) -> Result<(), Memory>
    ensures text { OnOk result (line.new.items ≡ line.old.items
        ++ command_words (Command.Add queue.now interface.now penalty paused label.now)) }
    ensures limits { OnOk result
        (IsCommand (Command.Add queue.now interface.now penalty paused label.now)) }
{
    push_action(line, b"QueueAdd")?;
    push_part(line, b"Queue", queue.as_bytes())?;
    push_interface(line, interface)?;
    push_penalty(line, penalty)?;
    push_yes_or_no(line, b"Paused", paused)?;
    push_label(line, label)
}

// Appends the words for a remove.
fn push_remove(line: &mut Vec<u8>, queue: &QueueName, interface: &Interface) -> Result<(), Memory>
    ensures text { OnOk result (line.new.items ≡ line.old.items
        ++ command_words (Command.Remove queue.now interface.now)) }
    ensures limits { OnOk result (IsCommand (Command.Remove queue.now interface.now)) }
{
    push_action(line, b"QueueRemove")?;
    push_part(line, b"Queue", queue.as_bytes())?;
    push_interface(line, interface)
}

// Appends the words for a pause.
fn push_pause(
    line: &mut Vec<u8>,
    queue: &Option<QueueName>,
    interface: &Interface,
    pause: &Pause,
) -> Result<(), Memory>
    ensures text { OnOk result (line.new.items ≡ line.old.items
        ++ command_words (Command.Pause queue.now interface.now pause.now)) }
    ensures limits { OnOk result (IsCommand (Command.Pause queue.now interface.now pause.now)) }
{
    push_action(line, b"QueuePause")?;
    push_queue(line, queue)?;
    push_interface(line, interface)?;
    push_yes_or_no(line, b"Paused", pause.paused())?;
    push_part_if_any(line, b"Reason", pause.reason())
}

// Appends the words for a new penalty.
fn push_new_penalty(
    line: &mut Vec<u8>,
    queue: &Option<QueueName>,
    interface: &Interface,
    penalty: Penalty,
) -> Result<(), Memory>
    ensures text { OnOk result (line.new.items ≡ line.old.items
        ++ command_words (Command.Penalty queue.now interface.now penalty)) }
    ensures limits { OnOk result (IsCommand (Command.Penalty queue.now interface.now penalty)) }
{
    push_action(line, b"QueuePenalty")?;
    push_queue(line, queue)?;
    push_interface(line, interface)?;
    push_penalty(line, penalty)
}

// Appends the words for whether an interface is rung while its device is in use.
fn push_ring_in_use(
    line: &mut Vec<u8>,
    queue: &Option<QueueName>,
    interface: &Interface,
    ring: bool,
) -> Result<(), Memory>
    ensures text { OnOk result (line.new.items ≡ line.old.items
        ++ command_words (Command.RingInUse queue.now interface.now ring)) }
    ensures limits { OnOk result (IsCommand (Command.RingInUse queue.now interface.now ring)) }
{
    push_action(line, b"QueueMemberRingInUse")?;
    push_queue(line, queue)?;
    push_interface(line, interface)?;
    push_yes_or_no(line, b"RingInUse", ring)
}

// Appends the words for a command.
fn push_command(line: &mut Vec<u8>, command: &Command) -> Result<(), Memory>
    ensures text { OnOk result (line.new.items ≡ line.old.items ++ command_words command.now) }
    ensures limits { OnOk result (IsCommand command.now) }
{
    match command {
        Command::Add {
            queue,
            interface,
            penalty,
            paused,
            label,
        } => push_add(line, queue, interface, *penalty, *paused, label),
        Command::Remove { queue, interface } => push_remove(line, queue, interface),
        Command::Pause {
            queue,
            interface,
            pause,
        } => push_pause(line, queue, interface, pause),
        Command::Penalty {
            queue,
            interface,
            penalty,
        } => push_new_penalty(line, queue, interface, *penalty),
        Command::RingInUse {
            queue,
            interface,
            ring,
        } => push_ring_in_use(line, queue, interface, *ring),
        Command::Completed { queue } => {
            line.extend_from_slice(b"completed ")?;
            line.extend_from_slice(queue.as_bytes())
        }
        Command::Abandoned { queue } => {
            line.extend_from_slice(b"abandoned ")?;
            line.extend_from_slice(queue.as_bytes())
        }
    }
}

// Appends the start of an event's line: the mark of a comment, if no line can say the event, and the number of the site.
fn push_front(line: &mut Vec<u8>, said: bool, site: SiteId) -> Result<(), Memory>
    ensures text { OnOk result (line.new.items
        ≡ line.old.items ++ (comment_mark said ++ (decimal site ++ codes " "))) }
    ensures limit { OnOk result (IsSite site) }
{
    if !said {
        line.extend_from_slice(b"# ")?;
    }
    push_decimal(line, u64::from(site.number()))?;
    line.extend_from_slice(b" ")
}

/// Appends the line of an event, without its end: a comment if no line can say the event. Returns whether it says it. Fails only when
/// out of memory.
pub fn push_event(line: &mut Vec<u8>, event: &Event) -> Result<bool, Memory>
    ensures said { IfOk result (λ said. said ≡ can_say event.now) }
    ensures text { OnOk result (line.new.items ≡ line.old.items ++ event_line event.now) }
    ensures limits { OnOk result (HasLimits event.now) }
{
    let said = can_say(event);
    match event {
        Event::Ask(site, Ask::Command(command)) => {
            push_front(line, said, *site)?;
            push_command(line, command)?;
        }
        Event::Ask(site, Ask::Status(_)) => {
            push_front(line, said, *site)?;
            push_action(line, b"QueueStatus")?;
        }
        Event::Cut(site) => {
            push_front(line, said, *site)?;
            line.extend_from_slice(b"cut")?;
        }
        Event::Whole(site) => {
            push_front(line, said, *site)?;
            line.extend_from_slice(b"whole")?;
        }
        Event::Take(site, entry) => {
            push_front(line, said, *site)?;
            line.extend_from_slice(b"take ")?;
            push_decimal(line, *entry as u64)?;
        }
    }
    Ok(said)
}

//! The words of a command. A function that runs out of memory may have appended a part.
ghost use Rattle.std.specs.Prelude.{◌≡◌, ◌++◌, OnOk};
ghost use Rattle.replica.specs.declared.command.Command.{Command};
ghost use Rattle.store_listing.specs.Lines.{command_words, label_words, pause_words};
ghost use Rattle.store_listing.specs.Lines.{paused_words, penalty_words, queue_word, ring_words};
ghost use Rattle.store_listing.specs.Texts.{word};

use crate::texts::{push_field, push_word, push_yes_or_no};
use ami_text::push_decimal;
use dots::{Interface, Label, Memory, Pause, Penalty, QueueName};
use replica::Command;

// Appends the queue of a command: `*` stands for every queue. Fails only when out of memory.
fn push_queue(line: &mut Vec<u8>, queue: &Option<QueueName>) -> Result<(), Memory>
    ensures { OnOk result (line.new.items ≡ line.old.items ++ queue_word queue.now) }
{
    match queue {
        Some(queue) => push_word(line, queue.as_bytes()),
        None => line.extend_from_slice(b" *"),
    }
}

// Appends a penalty. Fails only when out of memory.
fn push_penalty(line: &mut Vec<u8>, penalty: Penalty) -> Result<(), Memory>
    ensures { OnOk result (line.new.items ≡ line.old.items ++ penalty_words penalty) }
{
    line.extend_from_slice(b" penalty ")?;
    push_decimal(line, u64::from(penalty.get()))
}

// Appends whether a member is paused. Fails only when out of memory.
fn push_paused(line: &mut Vec<u8>, paused: bool) -> Result<(), Memory>
    ensures { OnOk result (line.new.items ≡ line.old.items ++ paused_words paused) }
{
    line.extend_from_slice(b" paused ")?;
    push_yes_or_no(line, paused)
}

// Appends the member name and the state interface, each if it has a byte. Fails only when out of memory.
fn push_label(line: &mut Vec<u8>, label: &Label) -> Result<(), Memory>
    ensures { OnOk result (line.new.items ≡ line.old.items ++ label_words label.now) }
{
    push_field(line, b"name", label.name.as_bytes())?;
    push_field(line, b"state", label.state.as_bytes())
}

// Appends whether a member is paused, and the reason if it has a byte. Fails only when out of memory.
fn push_pause(line: &mut Vec<u8>, pause: &Pause) -> Result<(), Memory>
    ensures { OnOk result (line.new.items ≡ line.old.items ++ pause_words pause.now) }
{
    push_paused(line, pause.paused())?;
    push_field(line, b"reason", pause.reason().as_bytes())
}

// Appends whether a member is rung while its device is in use. Fails only when out of memory.
fn push_ring(line: &mut Vec<u8>, ring: bool) -> Result<(), Memory>
    ensures { OnOk result (line.new.items ≡ line.old.items ++ ring_words ring) }
{
    line.extend_from_slice(b" ring ")?;
    push_yes_or_no(line, ring)
}

// Appends the words of an add. Fails only when out of memory.
fn push_add(
    line: &mut Vec<u8>,
    queue: &QueueName,
    interface: &Interface,
    penalty: Penalty,
    paused: bool,
    label: &Label,
) -> Result<(), Memory>
    ensures { OnOk result (line.new.items ≡ line.old.items
        ++ command_words (Command.Add queue.now interface.now penalty paused label.now)) }
{
    line.extend_from_slice(b"QueueAdd")?;
    push_word(line, queue.as_bytes())?;
    push_word(line, interface.as_bytes())?;
    push_penalty(line, penalty)?;
    push_paused(line, paused)?;
    push_label(line, label)
}

// Appends the action of a command over one queue or every one, its queue and its interface. Fails only when out of memory.
fn push_setting(
    line: &mut Vec<u8>,
    action: &[u8],
    queue: &Option<QueueName>,
    interface: &Interface,
) -> Result<(), Memory>
    ensures { OnOk result (line.new.items ≡ line.old.items
        ++ (action.now ++ (queue_word queue.now ++ word interface.now))) }
{
    line.extend_from_slice(action)?;
    push_queue(line, queue)?;
    push_word(line, interface.as_bytes())
}

/// Appends the words of a command: its action, its queue, the interface, and every other field. Fails only when out of memory.
pub fn push_command(line: &mut Vec<u8>, command: &Command) -> Result<(), Memory>
    ensures { OnOk result (line.new.items ≡ line.old.items ++ command_words command.now) }
{
    match command {
        Command::Add {
            queue,
            interface,
            penalty,
            paused,
            label,
        } => push_add(line, queue, interface, *penalty, *paused, label),
        Command::Remove { queue, interface } => {
            line.extend_from_slice(b"QueueRemove")?;
            push_word(line, queue.as_bytes())?;
            push_word(line, interface.as_bytes())
        }
        Command::Pause {
            queue,
            interface,
            pause,
        } => {
            push_setting(line, b"QueuePause", queue, interface)?;
            push_pause(line, pause)
        }
        Command::Penalty {
            queue,
            interface,
            penalty,
        } => {
            push_setting(line, b"QueuePenalty", queue, interface)?;
            push_penalty(line, *penalty)
        }
        Command::RingInUse {
            queue,
            interface,
            ring,
        } => {
            push_setting(line, b"QueueMemberRingInUse", queue, interface)?;
            push_ring(line, *ring)
        }
        Command::Completed { queue } => {
            line.extend_from_slice(b"Completed")?;
            push_word(line, queue.as_bytes())
        }
        Command::Abandoned { queue } => {
            line.extend_from_slice(b"Abandoned")?;
            push_word(line, queue.as_bytes())
        }
    }
}

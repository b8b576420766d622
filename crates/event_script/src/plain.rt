//! Which events a line of a script can say.
ghost use Rattle.std.specs.Prelude.{◌≡◌, ◌&&◌, ◌++◌, ℕ, List};
ghost use Rattle.std.specs.List.{list_all, list_any};
ghost use Rattle.ami_text.specs.MessageFields.{is_blank};
ghost use Rattle.script_lines.specs.ScriptLines.{is_bar};
ghost use Rattle.event_script.specs.Lines.{can_say, is_plain, queue_text, texts_of};

use dots::QueueName;
use replica::Command;
use sites_world::Event;
use status_report::Ask;

// The first number of an entry that a line of a script can't say: nine digits are the most.
const ENTRIES_IN_LINES: usize = 1_000_000_000;

// Whether a byte is a space or a tab.
fn is_blank(byte: u8) -> bool
    ensures { result ≡ is_blank byte }
{
    byte == b' ' || byte == b'\t'
}

// Whether a text has a bar.
fn has_bar(text: &[u8]) -> bool
    ensures { result ≡ list_any is_bar text.now }
{
    text.iter().any(|b| *b == b'|')
}

// Whether a text can stand between bars: it has no bar, and no space or tab at its ends. An
// empty text can.
fn is_plain(text: &[u8]) -> bool
    ensures { result ≡ is_plain text.now }
{
    if text.is_empty() {
        return true;
    }
    !has_bar(text) && !is_blank(text[0]) && !is_blank(text[text.len() - 1])
}

// Whether the name of a queue can stand between bars; true where there is none.
fn is_plain_queue(queue: &Option<QueueName>) -> bool
    ensures { (more : List (List ℕ)) → list_all is_plain (queue_text queue.now ++ more)
        ≡ (result && list_all is_plain more) }
{
    match queue {
        Some(queue) => is_plain(queue.as_bytes()),
        None => true,
    }
}

// Whether each text of a command that stands between bars can.
fn is_plain_command(command: &Command) -> bool
    ensures { result ≡ list_all is_plain (texts_of command.now) }
{
    match command {
        Command::Add {
            queue,
            interface,
            label,
            ..
        } => {
            is_plain(queue.as_bytes())
                && is_plain(interface.as_bytes())
                && is_plain(label.name.as_bytes())
                && is_plain(label.state.as_bytes())
        }
        Command::Remove { queue, interface } => {
            is_plain(queue.as_bytes()) && is_plain(interface.as_bytes())
        }
        Command::Pause {
            queue,
            interface,
            pause,
        } => {
            is_plain_queue(queue)
                && is_plain(interface.as_bytes())
                && is_plain(pause.reason().as_bytes())
        }
        Command::Penalty {
            queue,
            interface,
            ..
        }
        | Command::RingInUse {
            queue,
            interface,
            ..
        } => is_plain_queue(queue) && is_plain(interface.as_bytes()),
        Command::Completed { .. } | Command::Abandoned { .. } => true,
    }
}

/// Whether a line of a script can say an event: not a status, nor a command with a text
/// that can't stand between bars, nor a take of an entry from 1,000,000,000 on.
pub fn can_say(event: &Event) -> bool
    ensures { result ≡ can_say event.now }
{
    match event {
        Event::Ask(_, Ask::Command(command)) => is_plain_command(command),
        Event::Ask(_, Ask::Status(_)) => false,
        Event::Cut(_) | Event::Whole(_) => true,
        Event::Take(_, entry) => *entry < ENTRIES_IN_LINES,
    }
}

ghost use Rattle.std.specs.Prelude.{◌≡◌, ◌↔◌, Some};
ghost use Rattle.ask_code.specs.Steps.{IsAnsweredStep};

use replica::{Command, Refusal};
use status_report::{Answer, Ask};

/// A command, and a site's answer to it.
#[derive(Drop)]
pub struct AnsweredCommand {
    /// The command.
    pub command: Command,
    /// The answer: the command is done, or it is refused.
    pub answer: Result<(), Refusal>,
}

impl AnsweredCommand {
    /// Returns a copy of the command of an ask, with its answer. `None` for a status or a report, and for the refusal `Memory`,
    /// which no store keeps. Allocates nothing.
    pub fn of(ask: &Ask, answer: &Answer) -> Option<AnsweredCommand>
        ensures { (answered : AnsweredCommand)
            → (result ≡ Some answered) ↔ IsAnsweredStep answered ask.now answer.now }
    {
        let Ask::Command(command) = ask else {
            return None;
        };
        let answer = match answer {
            Answer::Done => Ok(()),
            Answer::Refused(Refusal::Memory) | Answer::Report(_) => return None,
            Answer::Refused(refusal) => Err(*refusal),
        };
        Some(AnsweredCommand {
            command: command.copy(),
            answer,
        })
    }
}

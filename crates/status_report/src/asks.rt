ghost use Rattle.std.specs.Prelude.{◌≡◌, ◌↔◌, IfOk, IsOk, IsTrue};

use crate::StatusRequest;
use dots::{Memory, SharedBytes};
use replica::{Command, Refusal};

/// An ask of a site.
#[derive(Drop)]
pub enum Ask {
    /// A change of the queue members, or a call that is counted.
    Command(Command),
    /// A report of what the queues show.
    Status(StatusRequest),
}

impl Ask {
    /// Returns a copy. Fails only when out of memory, and never for a command.
    pub fn copy(&self) -> Result<Ask, Memory>
        ensures same { IfOk result (λ copy. copy ≡ self.now) }
        ensures command { (command : Command) → self.now ≡ Ask.Command command → IsOk result }
    {
        match self {
            Ask::Command(command) => Ok(Ask::Command(command.copy())),
            Ask::Status(request) => {
                let request = request.copy()?;
                Ok(Ask::Status(request))
            }
        }
    }

    /// Whether it is the same ask as the other. Takes no memory.
    pub fn same(&self, other: &Ask) -> bool
        ensures { IsTrue result ↔ (self.now ≡ other.now) }
    {
        match (self, other) {
            (Ask::Command(command), Ask::Command(other_command)) => command.same(other_command),
            (Ask::Status(request), Ask::Status(other_request)) => request.same(other_request),
            _ => false,
        }
    }
}

/// A site's answer to an ask.
#[derive(Drop)]
pub enum Answer {
    /// The command is done.
    Done,
    /// The command is refused, and changed nothing.
    Refused(Refusal),
    /// The bytes of the report.
    Report(SharedBytes),
}

impl Answer {
    /// Returns a copy, which shares a report and copies none of its bytes. Fails only with `Memory`, as the copy of a shared report
    /// does.
    pub fn copy(&self) -> Result<Answer, Memory>
        ensures same { IfOk result (λ copy. copy ≡ self.now) }
        ensures done { self.now ≡ Answer.Done → IsOk result }
        ensures refused { (refusal : Refusal) → self.now ≡ Answer.Refused refusal → IsOk result }
    {
        match self {
            Answer::Done => Ok(Answer::Done),
            Answer::Refused(refusal) => Ok(Answer::Refused(*refusal)),
            Answer::Report(bytes) => {
                let bytes = bytes.copy()?;
                Ok(Answer::Report(bytes))
            }
        }
    }

    /// Whether it is the same answer as the other. Takes no memory.
    pub fn same(&self, other: &Answer) -> bool
        ensures { IsTrue result ↔ (self.now ≡ other.now) }
    {
        match (self, other) {
            (Answer::Done, Answer::Done) => true,
            (Answer::Refused(refusal), Answer::Refused(other_refusal)) => *refusal
                == *other_refusal,
            (Answer::Report(bytes), Answer::Report(others)) => bytes.same(others),
            _ => false,
        }
    }
}

//! The report of a QueueStatus, and the asks that a site answers.
//!
//! A report depends only on what queues show: their names, totals and rows. Two replicas that show the same give the same
//! bytes.
#![tactic(auto)]

ghost use Rattle.std.specs.Prelude.{◌≡◌, IfOk};
ghost use Rattle.replica.specs.Standing.{StandsFor};
ghost use Rattle.replica.specs.Steps.{SiteKnowledge};
ghost use Rattle.status_report.specs.Answers.{AnswersCommand, AnswersStatus, KeepsAtStatus};
ghost use Rattle.status_report.specs.Knowing.{IsAnswered, answer_in};
ghost use Rattle.status_report.specs.Status.{report_of};

mod asks;
pub mod laws;
mod queues;
mod request;
mod status;

pub use asks::{Answer, Ask};
pub use dots::Memory;
use dots::SharedBytes;
pub use queues::Queues;
use replica::{Command, Refusal, Replica};
pub use request::StatusRequest;
pub use status::{report, write_report};
use std::alloc::Global;

// Does a command at the replica, and answers with its result: `Done`, or `Refused`, which changes nothing.
fn answer_command(replica: &mut Replica, command: &Command) -> Answer
    ensures command { AnswersCommand replica.old (Ask.Command command.now) replica.new result }
    ensures site { replica.new.site ≡ replica.old.site }
    ensures names { replica.new.names ≡ replica.old.names }
    ensures meaning { (s : SiteKnowledge) → StandsFor replica.old s
        → IsAnswered replica.old replica.new result
        (answer_in replica.old.site replica.old.names s (Ask.Command command.now)) }
{
    match replica.command(command) {
        Ok(()) => Answer::Done,
        Err(refusal) => Answer::Refused(refusal),
    }
}

// The report of what a site's queues show, as shared bytes. Fails only when out of memory.
fn shared_report(
    alloc: Global,
    replica: &Replica,
    request: &StatusRequest,
) -> Result<SharedBytes, Memory>
    ensures { IfOk result (λ text. text ≡ report_of replica.now request.now) }
{
    let text = report(alloc, replica, request)?;
    SharedBytes::new(alloc, text)
}

// Answers a status with its report, or with the refusal `Memory` if there is no memory for it.
fn answer_status(alloc: Global, replica: &Replica, request: &StatusRequest) -> Answer
    ensures status { AnswersStatus replica.now (Ask.Status request.now) result }
    ensures meaning { (s : SiteKnowledge) → StandsFor replica.now s
        → IsAnswered replica.now replica.now result
        (answer_in replica.now.site replica.now.names s (Ask.Status request.now)) }
{
    match shared_report(alloc, replica, request) {
        Ok(text) => Answer::Report(text),
        Err(_) => Answer::Refused(Refusal::Memory),
    }
}

/// Answers an ask: a command changes the replica, or is refused and changes nothing; a status leaves the replica as it
/// was, and is refused as `Memory` if there is no memory for its report.
pub fn ask(alloc: Global, replica: &mut Replica, asked: &Ask) -> Answer
    ensures command { AnswersCommand replica.old asked.now replica.new result }
    ensures status { AnswersStatus replica.old asked.now result }
    ensures status_unchanged { KeepsAtStatus replica.old asked.now replica.new }
    ensures site { replica.new.site ≡ replica.old.site }
    ensures names { replica.new.names ≡ replica.old.names }

    // If the replica stands for what a site knows, the answer is that site's.
    ensures meaning { (s : SiteKnowledge) → StandsFor replica.old s
        → IsAnswered replica.old replica.new result
        (answer_in replica.old.site replica.old.names s asked.now) }
{
    match asked {
        Ask::Command(command) => answer_command(replica, command),
        Ask::Status(request) => answer_status(alloc, replica, request),
    }
}

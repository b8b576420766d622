//! The payload of a deed in bytes.
ghost use Rattle.std.specs.Prelude.{◌≡◌, ◌-◌, ◌^◌, min};
ghost use Rattle.site_journal.specs.Keeping.{kept_by, kept_by_answer, kept_by_ask};

use crate::StepDeed;
use status_report::{Answer, Ask};

// The payload of an ask in bytes: a status's ActionID.
fn kept_by_ask(asked: &Ask) -> usize
    ensures { result ≡ kept_by_ask asked.now }
{
    match asked {
        Ask::Command(_) => 0,
        Ask::Status(request) => request.action_id.as_slice().len(),
    }
}

// The payload of an answer in bytes: its report.
fn kept_by_answer(answer: &Answer) -> usize
    ensures { result ≡ kept_by_answer answer.now }
{
    match answer {
        Answer::Report(bytes) => bytes.as_slice().len(),
        Answer::Done | Answer::Refused(_) => 0,
    }
}

// The payload of a deed in bytes, 2^64 - 1 at most.
pub(crate) fn kept_by_deed(deed: &StepDeed) -> u64
    ensures { result ≡ min (kept_by deed.now) (2 ^ 64 - 1) }
{
    match deed {
        StepDeed::Asked(asked, answer) => {
            let asked = kept_by_ask(asked) as u64;
            asked.saturating_add(kept_by_answer(answer) as u64)
        }
        StepDeed::Took(bytes) => bytes.as_slice().len() as u64,
        StepDeed::Cut(None) => 0,
        StepDeed::Cut(Some(bytes)) => bytes.as_slice().len() as u64,
        StepDeed::Whole(bytes) => bytes.as_slice().len() as u64,
    }
}

//! How steps ended, in words.
use crate::digits::say_digits;
use site_journal::{Receipt, StepDeed};
use status_report::Answer;
use std::alloc::Global;
use std::io::{self, Write};

// Writes the position of a step, and what was done.
pub(crate) fn say_step<W: Write>(alloc: Global, out: &mut W, receipt: &Receipt) -> io::Result<()> {
    let position = receipt.position;
    write!(out, "step {position}: ")?;
    match &receipt.deed {
        StepDeed::Asked(_, Answer::Done) => writeln!(out, "done"),
        StepDeed::Asked(_, Answer::Refused(refusal)) => writeln!(out, "refused {refusal:?}"),
        StepDeed::Asked(_, Answer::Report(report)) => {
            writeln!(out, "report")?;
            out.write_all(report.as_slice())
        }
        StepDeed::Took(_) => writeln!(out, "taken"),
        StepDeed::Cut(None) => writeln!(out, "nothing"),
        StepDeed::Cut(Some(frame)) => say_digits(alloc, out, "frame ", frame.as_slice()),
        StepDeed::Whole(frame) => say_digits(alloc, out, "frame ", frame.as_slice()),
    }
}

//! The lines that a script writes for the outcomes of its lines. Each function fails only when out of memory.
ghost use Rattle.std.specs.Prelude.{◌≡◌, codes, IfOk};
ghost use Rattle.std.specs.Result.{result_ok};
ghost use Rattle.scripts.specs.Answers.{answer_text, cut_fault_name, entry_text, frame_text};
ghost use Rattle.scripts.specs.Answers.{no_entry};
ghost use Rattle.scripts.specs.Answers.{offer_line, offer_text, outcome_text, refusal_name};
ghost use Rattle.scripts.specs.Answers.{refused_text, take_fault_name, unknown_text};

use ami_text::push_decimal;
use dots::Memory;
use offer::{NoSuchQueue, Offer};
use replica::{CutFault, Refusal, TakeFault};
use sites_world::Outcome;
use status_report::Answer;
use std::alloc::Global;

// The line of a refusal of this name.
fn refused_text(alloc: Global, name: &[u8]) -> Result<Vec<u8>, Memory>
    ensures { IfOk result (λ text. text.items ≡ refused_text name.now) }
{
    let mut text = Vec::from_slice(alloc, b"refused ")?;
    text.extend_from_slice(name)?;
    text.extend_from_slice(b"\n")?;
    Ok(text)
}

// The name of a refusal.
fn refusal_name(refusal: Refusal) -> &'static [u8]
    ensures { result.now ≡ refusal_name refusal }
{
    match refusal {
        Refusal::NoSuchQueue => b"NoSuchQueue",
        Refusal::AlreadyThere => b"AlreadyThere",
        Refusal::NotThere => b"NotThere",
        Refusal::MembersFull => b"MembersFull",
        Refusal::Exhausted => b"Exhausted",
        Refusal::TotalFull => b"TotalFull",
        Refusal::Memory => b"Memory",
    }
}

// The line of an answer to a command; a report has its own lines.
fn answer_text(alloc: Global, answer: Answer) -> Result<Vec<u8>, Memory>
    ensures { IfOk result (λ text. text.items ≡ answer_text answer) }
{
    match answer {
        Answer::Done => Vec::from_slice(alloc, b"done\n"),
        Answer::Refused(refusal) => refused_text(alloc, refusal_name(refusal)),
        Answer::Report(bytes) => bytes.into_vec(alloc),
    }
}

// The line of an entry that was made.
fn entry_text(alloc: Global, entry: usize) -> Result<Vec<u8>, Memory>
    ensures { IfOk result (λ text. text.items ≡ entry_text entry) }
{
    let mut text = Vec::from_slice(alloc, b"entry ")?;
    push_decimal(&mut text, entry as u64)?;
    text.extend_from_slice(b"\n")?;
    Ok(text)
}

// The name of the fault of a cut or a whole.
fn cut_fault_name(fault: CutFault) -> &'static [u8]
    ensures { result.now ≡ cut_fault_name fault }
{
    match fault {
        CutFault::Exhausted => b"Exhausted",
        CutFault::Memory => b"Memory",
    }
}

// The name of the fault of a take.
fn take_fault_name(fault: TakeFault) -> &'static [u8]
    ensures { result.now ≡ take_fault_name fault }
{
    match fault {
        TakeFault::NoSuchQueue => b"NoSuchQueue",
        TakeFault::NotMine => b"NotMine",
        TakeFault::Conflict => b"Conflict",
        TakeFault::CellsFull => b"CellsFull",
        TakeFault::RunsFull => b"RunsFull",
        TakeFault::Memory => b"Memory",
    }
}

/// The lines of an outcome: `done`, `entry` and its number, `nothing`, `taken`, `no entry`, or `refused` and the refusal's name; a
/// report is written as its bytes. `NoSite` and `NoMemory` have no line. Fails only when out of memory.
pub fn outcome_text(alloc: Global, outcome: Outcome) -> Result<Vec<u8>, Memory>
    ensures { IfOk result (λ text. text.items ≡ outcome_text outcome) }
{
    match outcome {
        Outcome::Answered(answer) => answer_text(alloc, answer),
        Outcome::Cut(Ok(Some(entry))) => entry_text(alloc, entry),
        Outcome::Cut(Ok(None)) => Vec::from_slice(alloc, b"nothing\n"),
        Outcome::Cut(Err(fault)) => refused_text(alloc, cut_fault_name(fault)),
        Outcome::Took(Ok(())) => Vec::from_slice(alloc, b"taken\n"),
        Outcome::Took(Err(fault)) => refused_text(alloc, take_fault_name(fault)),
        Outcome::NoEntry => Vec::from_slice(alloc, b"no entry\n"),
        Outcome::NoSite | Outcome::NoMemory => Ok(Vec::new(alloc)),
    }
}

/// The output of the line of this number, if it isn't understood. Fails only when out of memory.
pub fn unknown_text(alloc: Global, number: u64) -> Result<Vec<u8>, Memory>
    ensures { IfOk result (λ text. text.items ≡ unknown_text number) }
{
    let mut text = Vec::from_slice(alloc, b"line ")?;
    push_decimal(&mut text, number)?;
    text.extend_from_slice(b": not understood\n")?;
    Ok(text)
}

/// The line for a queue that isn't there. Fails only when out of memory.
pub fn no_queue_text(alloc: Global) -> Result<Vec<u8>, Memory>
    ensures { IfOk result (λ text. text.items ≡ refused_text (refusal_name Refusal.NoSuchQueue)) }
{
    refused_text(alloc, refusal_name(Refusal::NoSuchQueue))
}

// The line of a member that is offered.
fn offer_line(alloc: Global, offer: &Offer) -> Result<Vec<u8>, Memory>
    ensures { IfOk result (λ text. text.items ≡ offer_line (Some offer.now)) }
{
    let mut text = Vec::from_slice(alloc, b"offer ")?;
    push_decimal(&mut text, u64::from(offer.penalty))?;
    text.extend_from_slice(b" ")?;
    text.extend_from_slice(offer.interface.as_bytes())?;
    text.extend_from_slice(b"\n")?;
    Ok(text)
}

/// The line of a queue's offer; where there is no such queue, its refusal. Fails only when out of memory.
pub fn offer_text(
    alloc: Global,
    offered: Result<Option<Offer>, NoSuchQueue>,
) -> Result<Vec<u8>, Memory>
    ensures { IfOk result (λ text. text.items ≡ offer_text (result_ok offered)) }
{
    match offered {
        Err(NoSuchQueue) => no_queue_text(alloc),
        Ok(None) => Vec::from_slice(alloc, b"offer none\n"),
        Ok(Some(offer)) => offer_line(alloc, &offer),
    }
}

/// The line of a frame's bytes, in lower-case hexadecimal. Fails only when out of memory.
pub fn frame_text(alloc: Global, bytes: &[u8]) -> Result<Vec<u8>, Memory>
    ensures { IfOk result (λ text. text.items ≡ frame_text bytes.now) }
{
    let mut text = hex::encode(alloc, bytes)?.into_bytes();
    text.extend_from_slice(b"\n")?;
    Ok(text)
}

/// The line for an entry that isn't there. Fails only when out of memory.
pub fn no_entry_text(alloc: Global) -> Result<Vec<u8>, Memory>
    ensures { IfOk result (λ text. text.items ≡ no_entry) }
{
    Vec::from_slice(alloc, b"no entry\n")
}

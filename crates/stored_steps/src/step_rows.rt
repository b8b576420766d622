//! Steps as rows, and rows as steps.
ghost use Rattle.std.specs.Prelude.{◌≡◌, ◌≢◌, ◌⊎◌, ◌↔◌, ℕ, Err, IfErr, IfOk, Ok, OnOk, Some};
ghost use Rattle.replica.specs.declared.command.Command.{Command};
ghost use Rattle.ask_code.specs.Asks.{IsCommand, ask_bytes};
ghost use Rattle.site_journal.specs.declared.step.Step.{Step};
ghost use Rattle.site_journal.specs.declared.step.StepDeed.{StepDeed};
ghost use Rattle.stored_steps.specs.declared.row_fault.RowFault.{RowFault};
ghost use Rattle.stored_steps.specs.declared.row_kind.RowKind.{RowKind};
ghost use Rattle.stored_steps.specs.RowReading.{IsDeedFault, IsStepFault};
ghost use Rattle.stored_steps.specs.StepRows.{HasAskFault, HasRowFault, IsDeedWithinLimits};
ghost use Rattle.stored_steps.specs.StepRows.{IsWithinLimits, done, row_of, row_of_deed, row_with};

use crate::words::{command_words, frame_words};
use crate::{RowFault, RowKind, StoredRow};
use ask_code::{AnsweredCommand, decode_ask, encode_ask};
use dots::{Bytes, Memory, SharedBytes};
use replica::Command;
use site_journal::{Step, StepDeed};
use status_report::{Answer, Ask};
use std::alloc::Global;

// The row of a command that is done. Fails only when out of memory.
fn command_row(alloc: Global, pass: u32, command: &Command) -> Result<StoredRow, Memory>
    ensures row { IfOk result
        (λ row. row ≡ row_with pass RowKind.Asked (ask_bytes (done command.now))) }
    ensures within { IsCommand command.now }
{
    let bytes = encode_ask(command, Ok(()));
    let body = Bytes::new(Vec::from_slice(alloc, bytes.as_slice())?);
    let Ok(words) = command_words(alloc, command) else {
        drop(body);
        return Err(Memory);
    };
    Ok(StoredRow::new(pass, RowKind::Asked.number(), body, words))
}

// The row of a frame, of this kind; its words say `done` and the frame's size. Fails only when out of memory.
fn frame_row(
    alloc: Global,
    pass: u32,
    kind: RowKind,
    frame: &SharedBytes,
    done: &str,
) -> Result<StoredRow, Memory>
    ensures { IfOk result (λ row. row ≡ row_with pass kind frame.now) }
{
    let body = Bytes::new(Vec::from_slice(alloc, frame.as_slice())?);
    let Ok(words) = frame_words(alloc, done, frame) else {
        drop(body);
        return Err(Memory);
    };
    Ok(StoredRow::new(pass, kind.number(), body, words))
}

/// The row of a step: of a command that is done, of a take, of a whole, and of a cut with a frame. `None` for every other step, which
/// changes nothing that a site says. Fails only when out of memory.
pub fn row_of_step(alloc: Global, step: &Step) -> Result<Option<StoredRow>, Memory>
    ensures row { IfOk result (λ row. row ≡ row_of step.now) }
    ensures within { OnOk result (IsWithinLimits step.now) }
{
    let pass = step.pass;
    let row = match &step.deed {
        StepDeed::Asked(Ask::Command(command), Answer::Done) => command_row(alloc, pass, command)?,
        StepDeed::Took(frame) => frame_row(alloc, pass, RowKind::Took, frame, "take")?,
        StepDeed::Cut(Some(frame)) => frame_row(alloc, pass, RowKind::Cut, frame, "cut")?,
        StepDeed::Whole(frame) => frame_row(alloc, pass, RowKind::Whole, frame, "whole")?,
        StepDeed::Asked(_, _) | StepDeed::Cut(None) => return Ok(None),
    };
    Ok(Some(row))
}

// The command that bytes say is done. Errors, in order: `Ask`, with the fault of `decode_ask`; `NotDone`, if the command was refused.
fn done_command(bytes: &[u8]) -> Result<Command, RowFault>
    ensures within { IfOk result (λ command. IsCommand command) }
    ensures value { IfOk result (λ command. bytes.now ≡ ask_bytes (done command)) }
    ensures fault { IfErr result (λ fault. HasAskFault fault bytes.now) }
{
    let AnsweredCommand { command, answer } = match decode_ask(bytes) {
        Ok(ask) => ask,
        Err(fault) => return Err(RowFault::Ask(fault)),
    };
    match answer {
        Ok(()) => Ok(command),
        Err(_) => {
            drop(command);
            Err(RowFault::NotDone)
        }
    }
}

// A copy of the bytes of a frame. Fails only when out of memory.
fn frame_in(alloc: Global, bytes: &[u8]) -> Result<SharedBytes, RowFault>
    ensures value { IfOk result (λ frame. frame ≡ bytes.now) }
    ensures only { IfErr result (λ fault. fault ≡ RowFault.Memory) }
{
    let copy = Vec::from_slice(alloc, bytes)?;
    let frame = SharedBytes::new(alloc, copy)?;
    Ok(frame)
}

// The deed of a row of this kind with these bytes. Errors: `BadKind`, if no step has this kind; of a command those of `done_command`;
// of a frame `Memory`.
fn deed_in(alloc: Global, kind: RowKind, bytes: &[u8]) -> Result<StepDeed, RowFault>
    ensures row { IfOk result
        (λ deed. (pass : ℕ) → row_of_deed pass deed ≡ Some (row_with pass kind bytes.now)) }
    ensures within { IfOk result (λ deed. IsDeedWithinLimits deed) }
    ensures fault { IfErr result (λ fault. IsDeedFault kind bytes.now fault) }
{
    match kind {
        RowKind::Asked => {
            let command = done_command(bytes)?;
            Ok(StepDeed::Asked(Ask::Command(command), Answer::Done))
        }
        RowKind::Took => {
            let frame = frame_in(alloc, bytes)?;
            Ok(StepDeed::Took(frame))
        }
        RowKind::Cut => {
            let frame = frame_in(alloc, bytes)?;
            Ok(StepDeed::Cut(Some(frame)))
        }
        RowKind::Whole => {
            let frame = frame_in(alloc, bytes)?;
            Ok(StepDeed::Whole(frame))
        }
        RowKind::Base | RowKind::Started => Err(RowFault::BadKind),
    }
}

// The step that a row stands for. Errors as of `step_of_row`.
fn read_step(alloc: Global, row: &StoredRow) -> Result<Step, RowFault>
    ensures row { IfOk result (λ step. row_of step ≡ Some row.now) }
    ensures within { IfOk result (λ step. IsWithinLimits step) }
    ensures fault { IfErr result (λ fault. IsStepFault fault row.now) }
{
    let Some(kind) = RowKind::of_number(row.kind()) else {
        return Err(RowFault::BadKind);
    };
    let deed = deed_in(alloc, kind, row.body())?;
    Ok(Step {
        pass: row.pass(),
        deed,
    })
}

/// The step that a row stands for: `row_of_step` gives the same pass, kind and bytes for it.
///
/// Errors, in order, each but the last exactly for its cause: `BadKind`, if the kind is that of no step; `Ask`, if the body of a
/// command is no command with its answer, with the fault of `decode_ask`; `NotDone`, if it is a command that was refused; `Memory`.
pub fn step_of_row(alloc: Global, row: &StoredRow) -> Result<Step, RowFault>
    ensures row { IfOk result (λ step. row_of step ≡ Some row.now) }
    ensures within { IfOk result (λ step. IsWithinLimits step) }
    ensures found { (step : Step) → row_of step ≡ Some row.now → IsWithinLimits step
        → (result ≡ Ok step) ⊎ (result ≡ Err RowFault.Memory) }
    ensures fault { (fault : RowFault) → fault ≢ RowFault.Memory
        → (result ≡ Err fault) ↔ HasRowFault fault row.now }
{
    read_step(alloc, row)
}

//! The text of a row.
ghost use Rattle.std.specs.Prelude.{◌≡◌, ◌++◌, codes, decimal, IfErr, IfOk, IsSome, OnOk};
ghost use Rattle.stored_steps.specs.declared.row_kind.RowKind.{RowKind};
ghost use Rattle.stored_steps.specs.Kinds.{kind_number};
ghost use Rattle.stored_steps.specs.StepRows.{row_of};
ghost use Rattle.store_listing.specs.Causes.{IsDeedFault, IsFrameFault, IsStepRow, IsTextFault};
ghost use Rattle.store_listing.specs.Causes.{base_fault, row_fault};
ghost use Rattle.store_listing.specs.Lines.{ask_line, base_line, frame_words, start_line};
ghost use Rattle.store_listing.specs.Lines.{step_front};
ghost use Rattle.store_listing.specs.Rows.{IsBaseText, IsDeedText, IsFrameText, IsRowText};
ghost use Rattle.store_listing.specs.Rows.{IsStepText};

use crate::ListingFault;
use crate::bases::{base_in, push_base};
use crate::commands::push_command;
use crate::frames::{FrameSummary, frame_summary, push_bytes, push_frame};
use ami_text::push_decimal;
use dots::{Memory, SharedBytes};
use replica::Command;
use site_journal::{Step, StepDeed};
use status_report::{Answer, Ask};
use std::alloc::Global;
use stored_steps::{BaseFault, RowFault, RowKind, StoredBase, StoredRow, step_of_row};

// The room in bytes that a line has at first: most need no more.
const LINE_ROOM: usize = 128;

// The start of a line: the position of its row, and a space. Fails only when out of memory.
fn begin_line(alloc: Global, position: u64) -> Result<Vec<u8>, Memory>
    ensures { IfOk result (λ line. line.items ≡ decimal position ++ codes " ") }
{
    let mut line = Vec::with_capacity(alloc, LINE_ROOM)?;
    push_decimal(&mut line, position)?;
    line.extend_from_slice(b" ")?;
    Ok(line)
}

// The start of the line of a step: the position of its row, and its pass. Fails only when out of memory.
fn begin_step(alloc: Global, position: u64, pass: u32) -> Result<Vec<u8>, Memory>
    ensures { IfOk result (λ line. line.items ≡ step_front position pass) }
{
    let mut line = begin_line(alloc, position)?;
    line.extend_from_slice(b"pass ")?;
    push_decimal(&mut line, u64::from(pass))?;
    line.extend_from_slice(b": ")?;
    Ok(line)
}

// The line of a start. Fails only when out of memory.
#[tactic(auto, using(crate::proofs::Pieces::line_ended))]
fn start_line(alloc: Global, position: u64) -> Result<Vec<u8>, Memory>
    ensures { IfOk result (λ line. line.items ≡ start_line position) }
{
    let mut line = begin_line(alloc, position)?;
    line.extend_from_slice(b"start\n")?;
    Ok(line)
}

// The line of a base. Fails only when out of memory.
#[tactic(auto, using(crate::proofs::Pieces::line_ended))]
fn base_line(alloc: Global, position: u64, base: &StoredBase) -> Result<Vec<u8>, ListingFault>
    ensures value { IfOk result (λ line. line.items ≡ base_line position base.now) }
    ensures memory { IfErr result (λ fault. fault ≡ ListingFault.Memory) }
{
    let mut line = begin_line(alloc, position)?;
    push_base(alloc, &mut line, base)?;
    line.extend_from_slice(b"\n")?;
    Ok(line)
}

// The line of a command that is done. Fails only when out of memory.
#[tactic(auto, using(crate::proofs::Pieces::ask_ended))]
fn ask_line(
    alloc: Global,
    position: u64,
    pass: u32,
    command: &Command,
) -> Result<Vec<u8>, ListingFault>
    ensures value { IfOk result (λ line. line.items ≡ ask_line position pass command.now) }
    ensures memory { IfErr result (λ fault. fault ≡ ListingFault.Memory) }
{
    let mut line = begin_step(alloc, position, pass)?;
    push_command(&mut line, command)?;
    line.extend_from_slice(b": done\n")?;
    Ok(line)
}

// Appends the words of a frame of this size in bytes, moved as this word says, and the end of the line. Fails only when out of memory.
fn push_moved(
    line: &mut Vec<u8>,
    moved: &[u8],
    summary: &FrameSummary,
    size: usize,
) -> Result<(), Memory>
    ensures { OnOk result (line.new.items ≡ line.old.items
        ++ (moved.now ++ (codes ": " ++ (frame_words summary.now size ++ codes "\n")))) }
{
    line.extend_from_slice(moved)?;
    line.extend_from_slice(b": ")?;
    push_frame(line, summary, size)?;
    line.extend_from_slice(b"\n")
}

// The line of a frame that was moved as this word says, and the line of its bytes, where frames are shown. Errors: `Frame`, if the
// bytes aren't exactly one frame; `Memory`, which may replace that.
fn frame_lines(
    alloc: Global,
    position: u64,
    pass: u32,
    moved: &[u8],
    bytes: &SharedBytes,
    with_frames: bool,
) -> Result<Vec<u8>, ListingFault>
    ensures value { IfOk result (λ text.
        IsFrameText with_frames position pass moved.now bytes.now text.items) }
    ensures fault { IfErr result (λ fault. IsFrameFault position bytes.now fault) }
{
    let bytes = bytes.as_slice();
    let summary = frame_summary(alloc, position, bytes)?;
    let mut line = begin_step(alloc, position, pass)?;
    push_moved(&mut line, moved, &summary, bytes.len())?;
    push_bytes(&mut line, with_frames, bytes)?;
    Ok(line)
}

// The text of a deed that has a row. Errors as of `frame_lines`; for a command only `Memory`.
fn deed_text(
    alloc: Global,
    position: u64,
    step: &Step,
    with_frames: bool,
) -> Result<Vec<u8>, ListingFault>
    requires { IsSome (row_of step.now) }
    ensures value { IfOk result (λ text.
        IsDeedText with_frames position step.now.pass step.now.deed text.items) }
    ensures fault { IfErr result (λ fault. IsDeedFault position step.now.deed fault) }
{
    let pass = step.pass;
    match &step.deed {
        StepDeed::Asked(Ask::Command(command), Answer::Done) => {
            ask_line(alloc, position, pass, command)
        }
        StepDeed::Took(bytes) => frame_lines(alloc, position, pass, b"take", bytes, with_frames),
        StepDeed::Cut(Some(bytes)) => {
            frame_lines(alloc, position, pass, b"cut", bytes, with_frames)
        }
        StepDeed::Whole(bytes) => frame_lines(alloc, position, pass, b"whole", bytes, with_frames),
        StepDeed::Asked(_, _) | StepDeed::Cut(None) => unreachable!(),
    }
}

// Why the row of this position is that of no step, as the fault of a listing.
fn row_fault(position: u64, fault: RowFault) -> ListingFault
    ensures { result ≡ row_fault position fault }
{
    match fault {
        RowFault::Memory => ListingFault::Memory,
        fault => ListingFault::Row(position, fault),
    }
}

// The text of a row that is neither a base nor a start. Errors, in order: `Row`, if it stands for no step; `Frame`, as of
// `frame_lines`; `Memory`, which may replace `Frame`.
fn step_text(
    alloc: Global,
    position: u64,
    row: &StoredRow,
    with_frames: bool,
) -> Result<Vec<u8>, ListingFault>
    requires { IsStepRow row.now }
    ensures value { IfOk result (λ text. IsStepText with_frames position row.now text.items) }
    ensures fault { IfErr result (λ fault. IsTextFault position row.now fault) }
{
    let step = match step_of_row(alloc, row) {
        Ok(step) => step,
        Err(fault) => return Err(row_fault(position, fault)),
    };
    let text = deed_text(alloc, position, &step, with_frames);
    drop(step);
    text
}

// Why the row of this position is no base, as the fault of a listing.
fn base_fault(position: u64, fault: BaseFault) -> ListingFault
    ensures { result ≡ base_fault position fault }
{
    match fault {
        BaseFault::Memory => ListingFault::Memory,
        fault => ListingFault::Base(position, fault),
    }
}

// The text of a row that has the kind of a base. Errors: `Base`, if it is none; `Memory`, which may replace that.
fn base_text(alloc: Global, position: u64, row: &StoredRow) -> Result<Vec<u8>, ListingFault>
    requires { row.now.kind ≡ kind_number RowKind.Base }
    ensures value { IfOk result (λ text. IsBaseText position row.now text.items) }
    ensures fault { IfErr result (λ fault. IsTextFault position row.now fault) }
{
    let base = match base_in(alloc, row) {
        Ok(base) => base,
        Err(fault) => return Err(base_fault(position, fault)),
    };
    let line = base_line(alloc, position, &base);
    drop(base);
    line
}

/// The text of the row of this position: its line, and the line of its frame, if it has one and frames are shown. Errors, in order:
/// `Base`, if it has the kind of a base and is none; `Row`, if it is neither a base nor a start and stands for no step; `Frame`, if its
/// body isn't exactly one frame where it should be; `Memory`, which may replace `Base` and `Frame`.
pub fn row_text(
    alloc: Global,
    position: u64,
    row: &StoredRow,
    with_frames: bool,
) -> Result<Vec<u8>, ListingFault>
    ensures value { IfOk result (λ text. IsRowText with_frames position row.now text.items) }
    ensures fault { IfErr result (λ fault. IsTextFault position row.now fault) }
{
    if row.is_start() {
        return Ok(start_line(alloc, position)?);
    }
    if row.kind() == RowKind::Base.number() {
        return base_text(alloc, position, row);
    }
    step_text(alloc, position, row, with_frames)
}

//! Reads lines and runs them.
use crate::queues::status_of;
use crate::site::deed::{Deed, NoReceipt, Place};
use crate::site::saying::say_step;
use dots::{Interface, Label, Penalty, QueueName, SharedBytes, Text80};
use hex::FromHexError;
use replica::Command;
use site_journal::{DeskFault, Receipt};
use status_report::Ask;
use std::alloc::Global;
use std::io::{self, ErrorKind, Write};
use std::str::Split;

// The words of a line that are still to be read.
type Words<'a> = Split<'a, char>;

// The command of a kind, whose queue, interface and penalty are the next words.
fn read_command(kind: &str, words: &mut Words<'_>) -> Option<Command> {
    let queue = QueueName::new(words.next()?.as_bytes()).ok()?;
    match kind {
        "completed" => Some(Command::Completed { queue }),
        "abandoned" => Some(Command::Abandoned { queue }),
        "remove" => {
            let interface = Interface::new(words.next()?.as_bytes()).ok()?;
            Some(Command::Remove { queue, interface })
        }
        "add" => {
            let interface = Interface::new(words.next()?.as_bytes()).ok()?;
            let penalty = Penalty::new(words.next()?.parse().ok()?)?;
            Some(Command::Add {
                queue,
                interface,
                penalty,
                paused: false,
                label: Label {
                    name: Text80::empty(),
                    state: Text80::empty(),
                },
            })
        }
        _ => None,
    }
}

// The deed of a line that has no bytes. `None` if it isn't understood.
fn read_deed(alloc: Global, line: &str) -> Option<Deed> {
    let mut words = line.split(' ');
    match words.next()? {
        "status" => Some(Deed::Ask(Ask::Status(status_of(alloc, None)))),
        "gated" => Some(Deed::Gated(Ask::Status(status_of(alloc, None)))),
        "cut" => Some(Deed::Cut),
        "whole" => Some(Deed::Whole),
        "checkpoint" => Some(Deed::Checkpoint),
        "above" => Some(Deed::CheckpointAbove(words.next()?.parse().ok()?)),
        kind => Some(Deed::Ask(Ask::Command(read_command(kind, &mut words)?))),
    }
}

// Writes how a deed ended. The receipt of a step is appended to the others.
fn say_done<W: Write>(
    alloc: Global,
    out: &mut W,
    receipts: &mut Vec<Receipt>,
    done: Result<Receipt, NoReceipt>,
) -> io::Result<()> {
    let why = match done {
        Ok(receipt) => {
            let said = say_step(alloc, out, &receipt);
            receipts.push(receipt)?;
            return said;
        }
        Err(why) => why,
    };
    match why {
        NoReceipt::Dropped => writeln!(out, "dropped"),
        NoReceipt::Stays => writeln!(out, "stays"),
        NoReceipt::Refused(fault) => writeln!(out, "refused {fault:?}"),
        NoReceipt::Changed => writeln!(out, "changed"),
        NoReceipt::Unknown => writeln!(out, "not understood"),
    }
}

// Does a deed, and writes its result. If an allocation is refused, writes `memory`, retries the deed and writes
// that result.
fn give<R, W: Write, P: Place<R>>(
    rt: &R,
    alloc: Global,
    out: &mut W,
    place: &mut P,
    receipts: &mut Vec<Receipt>,
    deed: &Deed,
) -> io::Result<()> {
    let done = place.done(rt, deed);
    if !matches!(done, Err(NoReceipt::Refused(DeskFault::Memory))) {
        return say_done(alloc, out, receipts, done);
    }
    drop(done);
    writeln!(out, "memory")?;
    let done = place.done(rt, deed);
    say_done(alloc, out, receipts, done)
}

// Takes the frame that these digits spell, and writes the result.
fn take<R, W: Write, P: Place<R>>(
    rt: &R,
    alloc: Global,
    out: &mut W,
    place: &mut P,
    receipts: &mut Vec<Receipt>,
    digits: &str,
) -> io::Result<()> {
    match hex::decode(alloc, digits) {
        Ok(bytes) => {
            let deed = Deed::Take(SharedBytes::new(alloc, bytes)?);
            let given = give(rt, alloc, out, place, receipts, &deed);
            drop(deed);
            given
        }
        Err(FromHexError::OutOfMemory) => Err(io::Error::from(ErrorKind::OutOfMemory)),
        Err(_) => writeln!(out, "not understood"),
    }
}

// Runs a line at a place, and writes its result. The receipt of a step is appended to the others.
pub(crate) fn give_line<R, W: Write, P: Place<R>>(
    rt: &R,
    alloc: Global,
    out: &mut W,
    place: &mut P,
    receipts: &mut Vec<Receipt>,
    line: &str,
) -> io::Result<()> {
    if line.is_empty() || line.starts_with('#') {
        return Ok(());
    }
    if let Some(digits) = line.strip_prefix("take ") {
        return take(rt, alloc, out, place, receipts, digits);
    }
    if let Some(digits) = line.strip_prefix("fronts ") {
        for end in 0..digits.len() / 2 {
            let Some(front) = digits.get(..2 * end) else {
                break;
            };
            take(rt, alloc, out, place, receipts, front)?;
        }
        return Ok(());
    }
    match read_deed(alloc, line) {
        Some(deed) => {
            let given = give(rt, alloc, out, place, receipts, &deed);
            drop(deed);
            given
        }
        None => writeln!(out, "not understood"),
    }
}

//! Reads lines and runs them.
use crate::frames::changing::{Change, say_changed};
use crate::frames::reading::{say_dots, say_raised, say_seen};
use crate::frames::saying::{say_fault, say_frame, say_stream};
use delta::Delta;
use delta_codec::{Frame, decode};
use hex::FromHexError;
use std::alloc::Global;
use std::io::{self, ErrorKind, Write};
use std::mem;

// The action of a line on its bytes.
#[derive(Clone, Copy)]
enum Kind {
    Frame,
    Stream,
    Changed(Change),
    Dots,
    Seen,
    Raised,
}

// The action of a line, and the digits of its bytes.
fn kind_of(line: &str) -> (Kind, &str) {
    let Some((word, digits)) = line.split_once(' ') else {
        return (Kind::Frame, line);
    };
    match word {
        "stream" => (Kind::Stream, digits),
        "join" => (Kind::Changed(Change::Join), digits),
        "set" => (Kind::Changed(Change::Set), digits),
        "prepare" => (Kind::Changed(Change::Prepare), digits),
        "assert" => (Kind::Changed(Change::Assert), digits),
        "kill" => (Kind::Changed(Change::Kill), digits),
        "dots" => (Kind::Dots, digits),
        "seen" => (Kind::Seen, digits),
        "raise" => (Kind::Raised, digits),
        _ => (Kind::Frame, line),
    }
}

// Writes the output for bytes of a kind: those of a stream, or the frame that they begin with.
fn give_bytes<W: Write>(
    alloc: Global,
    out: &mut W,
    held: &mut Delta,
    kind: Kind,
    bytes: &[u8],
) -> io::Result<()> {
    if let Kind::Stream = kind {
        return say_stream(alloc, out, bytes);
    }
    let (frame, len) = match decode(alloc, bytes) {
        Ok(front) => front,
        Err(fault) => return say_fault(out, 0, fault),
    };
    let said = match kind {
        Kind::Changed(change) => {
            let Frame { delta, .. } = frame;
            return say_changed(alloc, out, held, change, delta);
        }
        Kind::Dots => say_dots(out, held, &frame.delta),
        Kind::Seen => say_seen(out, held, &frame.delta),
        Kind::Raised => say_raised(alloc, out, held, &frame.delta),
        Kind::Frame | Kind::Stream => match say_frame(alloc, out, 0, &frame) {
            Ok(()) if len < bytes.len() => writeln!(out, "behind it {}", bytes.len() - len),
            said => said,
        },
    };
    drop(frame);
    said
}

// Writes the output of a line. The delta that was joined so far is held; `new` makes it empty.
pub(crate) fn give_line<W: Write>(
    alloc: Global,
    out: &mut W,
    held: &mut Delta,
    line: &str,
) -> io::Result<()> {
    if line.is_empty() || line.starts_with('#') {
        return Ok(());
    }
    if line == "new" {
        mem::replace(held, Delta::empty(alloc)).discard();
        return Ok(());
    }
    let (kind, digits) = kind_of(line);
    if let Kind::Changed(change) = kind {
        if digits == "itself" {
            let copy = held.copy()?;
            return say_changed(alloc, out, held, change, copy);
        }
    }
    match hex::decode(alloc, digits) {
        Ok(bytes) => {
            let given = give_bytes(alloc, out, held, kind, &bytes);
            drop(bytes);
            given
        }
        Err(FromHexError::OutOfMemory) => Err(io::Error::from(ErrorKind::OutOfMemory)),
        Err(_) => writeln!(out, "no hexadecimal"),
    }
}

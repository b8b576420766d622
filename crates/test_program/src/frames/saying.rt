//! Writes frames and faults, of single frames or of a stream.
use crate::digits::say_digits;
use crate::frames::words::say_delta;
use delta_codec::{DecodeFault, Frame, Splitter, encode};
use std::alloc::Global;
use std::io::{self, ErrorKind, Write};

// Writes how many bytes of a stream were fed, and the name of the fault that came with the last of them. Without a stream the number is
// 0, and isn't written. Out of memory is an error.
pub(crate) fn say_fault<W: Write>(out: &mut W, come: usize, fault: DecodeFault) -> io::Result<()> {
    if let DecodeFault::Memory = fault {
        return Err(io::Error::from(ErrorKind::OutOfMemory));
    }
    if come > 0 {
        writeln!(out, "at byte {come}")?;
    }
    writeln!(out, "fault {fault:?}")
}

// Writes how many bytes of a stream were fed, what the frame says that came with the last of them, and its bytes. Without a stream the
// number is 0, and isn't written.
pub(crate) fn say_frame<W: Write>(
    alloc: Global,
    out: &mut W,
    come: usize,
    frame: &Frame,
) -> io::Result<()> {
    if come > 0 {
        writeln!(out, "at byte {come}")?;
    }
    let (number, maker) = (frame.number, frame.maker.number());
    writeln!(out, "frame {number} of site {maker}")?;
    say_delta(out, &frame.delta)?;
    let bytes = encode(alloc, frame)?;
    let said = say_digits(alloc, out, "", bytes.as_slice());
    drop(bytes);
    said
}

// Writes the result of a stream after this number of its bytes. Writes nothing if that is neither a frame nor a fault.
fn say_next<W: Write>(
    alloc: Global,
    out: &mut W,
    come: usize,
    next: Result<Option<Frame>, DecodeFault>,
) -> io::Result<()> {
    match next {
        Ok(None) => Ok(()),
        Ok(Some(frame)) => {
            let said = say_frame(alloc, out, come, &frame);
            drop(frame);
            said
        }
        Err(fault) => say_fault(out, come, fault),
    }
}

// Writes the frames and faults of a stream that is fed byte by byte: how many bytes were fed, and then what the frame says, or
// the fault, which is repeated at each later byte.
pub(crate) fn say_stream<W: Write>(alloc: Global, out: &mut W, bytes: &[u8]) -> io::Result<()> {
    let mut splitter = Splitter::new(alloc);
    for at in 0..bytes.len() {
        splitter.feed(&bytes[at..at + 1])?;
        say_next(alloc, out, at + 1, splitter.next_frame())?;
    }
    Ok(())
}

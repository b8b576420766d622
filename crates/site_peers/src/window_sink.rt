//! What is written to a peer that must acknowledge what it has read.
ghost use Rattle.std.specs.Prelude.{◌≡◌, ◌+◌, ◌<◌, ◌≤◌, IfOk, OnErr, false, length};
ghost use Rattle.std.specs.Io.KnownBytes.{Keeps, WriteAppends};

use crate::stream_ends::WRITE_WAITS;
use crate::{LinkSink, Window, WindowFault};
use ami_text::{Failed, Sink};
use link_keys::Key;
use link_stream::ReceiveFault;
use std::io::{ErrorKind, Write};
use std::sync::Wait;
use thiserror::Error;

// How often a write is tried that is interrupted.
const WRITE_TRIES: u32 = 1_000;

/// Why a link that sends has fallen (this project's own).
#[derive(Clone, Copy, Debug, PartialEq, Eq, Error)]
pub enum OutletFault {
    /// The connection failed, or the peer has closed it.
    #[error("closed there")]
    Closed,
    /// The peer has read nothing for 4 seconds, or acknowledged none of four beats.
    #[error("no reply for 4 s")]
    Silent,
    /// The peer has refused a frame.
    #[error("a frame was refused there")]
    FrameRefused,
    /// What the peer sends is no acknowledgement under this link's key.
    #[error(transparent)]
    Receive(ReceiveFault),
    /// An acknowledgement is impossible.
    #[error(transparent)]
    Window(WindowFault),
    /// The clock could not be read.
    #[error("no clock")]
    NoClock,
    /// The site ends.
    #[error("the site ends")]
    Ending,
}

// What reads the acknowledgements of a link.
pub(crate) trait AcknowledgementReader {
    // The hello is over: from now on acknowledgements come, with tags under this key.
    fn begin(&mut self, key: Key);

    // Reads what has come; if nothing has and `waits` is true, it waits for something for a short time. Returns the last acknowledgement
    // among what it read, a number of bytes in all. `None`: there was none. An error ends the link. Before `begin` it returns `None` at
    // once.
    fn read_last(&mut self, waits: bool) -> Result<Option<u64>, OutletFault>;
}

// Writes once, and tries again where the write is interrupted, or has waited and may wait again. Returns how many bytes were written.
// Errors: `Silent` if 40 tries have waited in vain; `Closed` if the writer failed otherwise, or all 1,000 tries were interrupted.
fn write_once<W: Write>(writer: &mut W, bytes: &[u8]) -> Result<usize, OutletFault>
    ensures count { IfOk result (λ n. n ≤ length bytes.now) }
    ensures writer { WriteAppends (W.contents writer.old) (W.contents writer.new) result bytes.now }
{
    let mut waits = WRITE_WAITS;
    for _ in 0..WRITE_TRIES {
        match writer.write(bytes) {
            Ok(count) => return Ok(count),
            Err(error) => match error.kind() {
                ErrorKind::Interrupted => {}
                ErrorKind::WouldBlock | ErrorKind::TimedOut => {
                    waits = waits.saturating_sub(1);
                    if waits == 0 {
                        return Err(OutletFault::Silent);
                    }
                }
                _ => return Err(OutletFault::Closed),
            },
        }
    }
    Err(OutletFault::Closed)
}

// A sink over a writer: first of a hello, then of items, of which it takes no byte more than 256 KiB ahead of what the peer has
// acknowledged. A write waits for acknowledgements where there is no room.
pub(crate) struct WindowSink<'a, R, W, A> {
    rt: &'a R,
    writer: W,
    reader: A,
    window: Window,
    fault: Option<OutletFault>,
    failed: bool,
}

impl<'a, R, W: Drop, A: Drop> Drop for WindowSink<'a, R, W, A> {
    fn drop(self) {
        let WindowSink {
            rt: _,
            writer,
            reader,
            window,
            fault: _,
            failed: _,
        } = self;
        drop(writer);
        drop(reader);
        drop(window);
    }
}

impl<'a, R: Wait, W: Write, A: AcknowledgementReader> WindowSink<'a, R, W, A> {
    // A sink that hands what it takes to the writer, first a hello.
    pub fn new(rt: &'a R, writer: W, reader: A) -> WindowSink<'a, R, W, A>
        ensures writer { result.writer ≡ writer }
        ensures failed { result.failed ≡ false }
    {
        WindowSink {
            rt,
            writer,
            reader,
            window: Window::new(),
            fault: None,
            failed: false,
        }
    }

    // The fault of the last write that returned an error. `None`: none did, though one may have taken no byte.
    pub fn fault(&self) -> Option<OutletFault> {
        self.fault
    }

    // Reads the acknowledgements that have come, and counts the bytes of the last one. `waits`: it waits for one for a short time. Errors,
    // in order: the reader's; `Window`, which counts nothing.
    fn acknowledge(&mut self, waits: bool) -> Result<(), OutletFault>
        ensures writer { self.new.writer ≡ self.old.writer }
        ensures failed { self.new.failed ≡ self.old.failed }
        ensures written { self.new.window.written ≡ self.old.window.written }
    {
        let Some(count) = self.reader.read_last(waits)? else {
            return Ok(());
        };
        match self.window.acknowledge(count) {
            Ok(()) => Ok(()),
            Err(fault) => Err(OutletFault::Window(fault)),
        }
    }

    // Waits until there is room, and writes at most as many bytes as there is room for. Returns how many were written. Errors: of each
    // round, those of `acknowledge`; then those of `write_once`.
    fn write_within(&mut self, bytes: &[u8]) -> Result<usize, OutletFault>
        ensures count { IfOk result (λ n. n ≤ length bytes.now) }
        ensures writer { WriteAppends (W.contents self.old.writer) (W.contents self.new.writer)
            result bytes.now }
        ensures failed { self.new.failed ≡ self.old.failed }
        ensures written { IfOk result (λ n.
            self.new.window.written ≡ self.old.window.written + n) }
    {
        let rt = self.rt;
        let mut waits = false;
        for _ in rt.forever() {
            self.acknowledge(waits)?;
            let room = self.window.room();
            if room > 0 {
                let front = &bytes[..room.min(bytes.len())];
                let count = write_once(&mut self.writer, front)?;
                self.window.write(count);
                return Ok(count);
            }
            waits = true;
        }
        unreachable!()
    }
}

impl<'a, R: Wait, W: Write, A: AcknowledgementReader> LinkSink for WindowSink<'a, R, W, A> {
    // The hello's bytes count no more in the window.
    fn begin(&mut self, acknowledgements: Key)
        ensures taken { W.contents self.new.writer ≡ W.contents self.old.writer }
        ensures failed { self.new.failed ≡ self.old.failed }
        ensures window { self.new.window ≡ record { written = 0; acknowledged = 0 } }
    {
        self.window = Window::new();
        self.reader.begin(acknowledgements);
    }
}

impl<'a, R: Wait, W: Write, A: AcknowledgementReader> Sink for WindowSink<'a, R, W, A> {
    ghost taken = { λ s. W.contents s.writer };

    ghost failed = { λ s. s.failed };

    // Does as `write_within`, and keeps its fault. A write of some bytes that takes none fails the sink, without a fault.
    fn write(&mut self, bytes: &[u8]) -> Result<usize, Failed> {
        match self.write_within(bytes) {
            Ok(count) => {
                self.failed = count == 0 && !bytes.is_empty();
                Ok(count)
            }
            Err(fault) => {
                self.fault = Some(fault);
                self.failed = true;
                Err(Failed)
            }
        }
    }
}

//! Sources and sinks over readers and writers of std's that fail: which errors are retried, and how often.
use ami_text::{Failed, Sink, Source, StdSink, StdSource};
use std::io;
use std::io::{Error, ErrorKind, Read, Write};
use std::process::Abort;

// A device that first fails a number of times with errors of a kind, at reads and writes or at flushes, and then moves one byte at
// each call.
#[derive(Drop)]
struct Faulty {
    errors: u32,
    kind: ErrorKind,
    at_flush: bool,
}

impl Faulty {
    fn answer(&mut self, is_flush: bool) -> io::Result<()> {
        if self.errors > 0 && self.at_flush == is_flush {
            self.errors -= 1;
            return Err(Error::from(self.kind));
        }
        Ok(())
    }
}

impl Read for Faulty {
    fn read(&mut self, buf: &mut [u8]) -> io::Result<usize> {
        self.answer(false)?;
        match buf.first_mut() {
            Some(first) => {
                *first = b'x';
                Ok(1)
            }
            None => Ok(0),
        }
    }
}

impl Write for Faulty {
    fn write(&mut self, buf: &[u8]) -> io::Result<usize> {
        self.answer(false)?;
        Ok(buf.len().min(1))
    }

    fn flush(&mut self) -> io::Result<()> {
        self.answer(true)
    }
}

// Asserts the result of one read of a source, after which its reader has returned all of its errors.
fn assert_read(rt: &impl Abort, errors: u32, kind: ErrorKind, wanted: Result<usize, Failed>) {
    let mut source = StdSource::new(Faulty {
        errors,
        kind,
        at_flush: false,
    });
    let given = source.read(&mut [0u8; 4]);
    let device = source.into_inner();
    assert!(*rt; given == wanted && device.errors == 0);
    drop(device);
}

// Asserts the result of one write of a sink that may wait a number of times, after which its writer has returned all of its errors.
fn assert_written(
    rt: &impl Abort,
    waits: u32,
    errors: u32,
    kind: ErrorKind,
    wanted: Result<usize, Failed>,
) {
    let sink = StdSink::new(Faulty {
        errors,
        kind,
        at_flush: false,
    });
    let mut sink = sink.with_waits(waits);
    let given = sink.write(b"ab");
    let device = sink.into_inner();
    assert!(*rt; given == wanted && device.errors == 0);
    drop(device);
}

// Asserts the result of a write of a sink behind one whose flushes fail at first: that one has given its bytes, so it is the next one that
// fails.
fn assert_written_behind(
    rt: &impl Abort,
    errors: u32,
    kind: ErrorKind,
    wanted: Result<usize, Failed>,
) {
    let mut sink = StdSink::new(Faulty {
        errors,
        kind,
        at_flush: true,
    });
    let Ok(1) = sink.write(b"a") else {
        rt.panic("the write fails");
    };
    let given = sink.write(b"b");
    let device = sink.into_inner();
    assert!(*rt; given == wanted && device.errors == 0);
    drop(device);
}

// 999 interruptions are retried, and no other error, except for a writer that times out or would block where a write may wait.
#[test]
fn interruptions_and_waits_are_retried(rt: HostRuntime) {
    assert_read(&rt, 999, ErrorKind::Interrupted, Ok(1));
    assert_read(&rt, 1_000, ErrorKind::Interrupted, Err(Failed));
    assert_read(&rt, 1, ErrorKind::BrokenPipe, Err(Failed));
    assert_read(&rt, 1, ErrorKind::WouldBlock, Err(Failed));
    assert_read(&rt, 1, ErrorKind::TimedOut, Err(Failed));
    assert_written(&rt, 1, 999, ErrorKind::Interrupted, Ok(1));
    assert_written(&rt, 1, 1_000, ErrorKind::Interrupted, Err(Failed));
    assert_written(&rt, 0, 1, ErrorKind::TimedOut, Err(Failed));
    assert_written(&rt, 3, 1, ErrorKind::BrokenPipe, Err(Failed));
    assert_written(&rt, 3, 2, ErrorKind::WouldBlock, Ok(1));
    assert_written(&rt, 3, 2, ErrorKind::TimedOut, Ok(1));
    assert_written(&rt, 3, 3, ErrorKind::WouldBlock, Err(Failed));
    assert_written(&rt, 3, 3, ErrorKind::TimedOut, Err(Failed));
    assert_written_behind(&rt, 999, ErrorKind::Interrupted, Ok(1));
    assert_written_behind(&rt, 1_000, ErrorKind::Interrupted, Err(Failed));
    assert_written_behind(&rt, 1, ErrorKind::TimedOut, Err(Failed));
}

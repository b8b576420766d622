//! The program that tests run: it does lines or serves a session from standard input, or runs random workloads.
//!
//! | Words | What it does |
//! |---|---|
//! | `frames` | reads lines of frames, and writes what each says ([`frames`]) |
//! | `session [..] PIECE USER SECRET QUEUE..` | serves a session of a new site ([`session`]) |
//! | `journal\|desk SITE LIMIT QUEUE..` | does lines at a new site ([`site`]) |
//! | `journals\|audit\|world SITES STEPS`, `threads RUNS SITES ASKS` | runs random workloads on sites ([`runs`]) |
//!
//! Exit status 1: reading, printing or a run failed, or memory ran out; standard error has a line if reading the words or a workload
//! failed. Exit status 2: the command line is wrong; standard error has a line. A session has further statuses.
#![tactic(auto)]

mod digits;
mod frames;
mod gate;
mod queues;
mod runs;
mod session;
mod site;

use crate::site::Where;
use std::io::{self, BufWriter, Write};
use std::process::ExitCode;
use std::rt::Env;
use std::sync::Wait;
use std::thread::Threads;

const USAGE: &str =
    "usage: test_program frames | session [--greeting=TEXT] [--tries=N] [--take=FRAME] PIECE USER SECRET QUEUE.. | \
    journal|desk SITE LIMIT QUEUE.. | journals|audit|world SITES STEPS | threads RUNS SITES ASKS";

// Prints an error, and then ends the program with status 1.
fn main(rt: HostRuntime) -> ExitCode {
    match run(&rt) {
        Ok(status) => ExitCode::from(status),
        Err(error) => {
            let _ = eprintln!(rt; "test_program: {error}");
            ExitCode::from(1)
        }
    }
}

// Runs the program, and returns its exit status.
fn run<R: Env + AllocGlobal + Print + Eprint + Input + Threads + Wait + Sync>(
    rt: &R,
) -> io::Result<u8> {
    let mut words = Vec::new(rt.alloc());
    for word in std::env::args(rt)? {
        words.push(word)?;
    }
    let status = match words.as_slice() {
        [_, kind, words @ ..] => run_kind(rt, kind.as_str(), words),
        _ => Ok(None),
    };
    drop(words);
    match status? {
        Some(status) => Ok(status),
        None => {
            eprintln!(rt; "{USAGE}")?;
            Ok(2)
        }
    }
}

// Does what the first word says, by the other words, and returns the exit status. `None` if they are wrong. `Err`: a workload failed.
fn run_kind<R: AllocGlobal + Print + Input + Threads + Wait + Sync>(
    rt: &R,
    kind: &str,
    words: &[String],
) -> io::Result<Option<u8>> {
    let status = match kind {
        "session" => session::run(rt, words),
        "frames" => run_lines(rt, None, words),
        "journal" => run_lines(rt, Some(Where::Journal), words),
        "desk" => run_lines(rt, Some(Where::Desk), words),
        kind => return runs::run(rt, kind, words),
    };
    Ok(status.unwrap_or(Some(1)))
}

// Does the lines of standard input, at a site or else as lines of frames, writes their output, and returns the exit status. `None` if the
// words are wrong.
fn run_lines<R: AllocGlobal + Print + Input + Wait>(
    rt: &R,
    at: Option<Where>,
    words: &[String],
) -> io::Result<Option<u8>> {
    let mut out = BufWriter::new(rt.alloc(), io::writer(rt))?;
    let done = match at {
        None => frames::run(rt, &mut out, words),
        Some(at) => site::run(rt, &mut out, at, words),
    };
    let status = match done {
        Ok(true) => match out.flush() {
            Ok(()) => Ok(Some(0)),
            Err(error) => Err(error),
        },
        Ok(false) => Ok(None),
        Err(error) => Err(error),
    };
    drop(out);
    status
}

//! Reads lines of frames as hexadecimal, and writes what each frame says, the frames and faults of streams, and the held delta after
//! frames have changed it: `frames`.
//!
//! The held delta is empty at first and after the line `new`. Empty lines and `#` lines give nothing. Bytes give the frame that they
//! begin with, and `behind it N` if N bytes follow, or `fault` and its name. Before bytes may stand
//!
//! - `stream`: the bytes come one by one: `at byte N`, from 1, and the frame or fault that comes with it;
//! - `join`: joins the frame's delta to the held one: `refused` and the cause, if so; then what is held, and its rows;
//! - `set`, `prepare`, `assert`, `kill`: the same by the members alone: `MemberSet::join`; `prepare`, then `absorb` if prepared;
//!   `assert` of the first live dot; `kill` of the first run's first dot;
//! - `dots`: each member's live dots in the frame, and how many are held;
//! - `seen`: the runs seen below the first dot of each run;
//! - `raise`: counts one more completed call for each total: `raised to` and the total, or `refused TotalFull`.
//!
//! With `itself` in place of bytes, `join` and the next four take a copy of what is held. Other lines give `no hexadecimal`. A refusal
//! that changes what is held writes `changed`. After a refused allocation the program writes `memory` and does the line again.
//!
//! A frame is written so, its bytes in version 2; what is held has no first line, and rows at its end. A field has the time and site of
//! its stamp, a text quotation marks, a byte that is no text `\xff`:
//!
//! ```text
//! frame 1 of site 0
//! run 1 to 1 of site 0
//! live dot 1 of site 0 in queue 0: "SIP/1"
//! penalty at 1 of site 0: 0
//! paused at 1 of site 0: no, reason ""
//! label at 1 of site 0: name "Ann", state ""
//! ring in use at 2 of site 0: no
//! total of site 0 in queue 0: 3 completed, 0 abandoned
//! 0000007e..
//!
//! row of queue 0: "SIP/1", penalty 0, paused no, reason "", name "Ann", state "", ring in use no
//! ```
mod changing;
mod line;
mod reading;
mod saying;
mod words;

use crate::frames::line::give_line;
use delta::Delta;
use std::io::{self, ErrorKind, Write};

// Writes the output of each line of standard input. If an allocation is refused for a line, writes `memory`, and does the line again.
fn give_lines<R: AllocGlobal + Input, W: Write>(
    rt: &R,
    out: &mut W,
    held: &mut Delta,
) -> io::Result<()> {
    for line in rt.lines(rt.alloc()) {
        let line = line?;
        let given = match give_line(rt.alloc(), out, held, line.as_str()) {
            Err(error) if error.kind() == ErrorKind::OutOfMemory => match writeln!(out, "memory") {
                Ok(()) => give_line(rt.alloc(), out, held, line.as_str()),
                Err(error) => Err(error),
            },
            given => given,
        };
        drop(line);
        given?;
    }
    Ok(())
}

// Writes the output of each line of standard input. `false` if there are words.
pub(crate) fn run<R: AllocGlobal + Input, W: Write>(
    rt: &R,
    out: &mut W,
    words: &[String],
) -> io::Result<bool> {
    if !words.is_empty() {
        return Ok(false);
    }
    let mut held = Delta::empty(rt.alloc());
    let given = give_lines(rt, out, &mut held);
    held.discard();
    given?;
    Ok(true)
}

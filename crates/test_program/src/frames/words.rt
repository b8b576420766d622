//! What deltas say, in words: a line for each run, live dot, field and total.
use bstr::ByteSlice;
use causal_context::Context;
use delta::Delta;
use dots::{Dot, QUEUES};
use member_orset::{Cell, MemberSet};
use std::io::{self, Write};

fn yes_or_no(is_so: bool) -> &'static str {
    if is_so { "yes" } else { "no" }
}

// Writes the runs of a context, each after this word.
pub(crate) fn say_runs<W: Write>(out: &mut W, word: &str, context: &Context) -> io::Result<()> {
    for run in context.iter() {
        let (first, last, site) = (run.first, run.last, run.site.number());
        writeln!(out, "{word} {first} to {last} of site {site}")?;
    }
    Ok(())
}

// Writes a live dot with its member, and the fields that are set, each with its stamp.
fn say_cell<W: Write>(out: &mut W, dot: Dot, cell: Cell<'_>) -> io::Result<()> {
    let (count, site) = (dot.count(), dot.site().number());
    let queue = cell.member.queue;
    let interface = cell.member.interface.as_bytes().as_bstr();
    writeln!(
        out,
        "live dot {count} of site {site} in queue {queue}: {interface:?}"
    )?;
    let fields = cell.fields;
    if let (Some(stamp), Some(penalty)) = (fields.penalty.stamp(), fields.penalty.value()) {
        let (time, site) = (stamp.time(), stamp.site().number());
        writeln!(out, "penalty at {time} of site {site}: {}", penalty.get())?;
    }
    if let (Some(stamp), Some(pause)) = (fields.pause.stamp(), fields.pause.value()) {
        let (time, site) = (stamp.time(), stamp.site().number());
        let paused = yes_or_no(pause.paused());
        let reason = pause.reason().as_bytes().as_bstr();
        writeln!(
            out,
            "paused at {time} of site {site}: {paused}, reason {reason:?}"
        )?;
    }
    if let (Some(stamp), Some(label)) = (fields.label.stamp(), fields.label.value()) {
        let (time, site) = (stamp.time(), stamp.site().number());
        let name = label.name.as_bytes().as_bstr();
        let state = label.state.as_bytes().as_bstr();
        writeln!(
            out,
            "label at {time} of site {site}: name {name:?}, state {state:?}"
        )?;
    }
    if let (Some(stamp), Some(ring)) = (fields.ring.stamp(), fields.ring.value()) {
        let (time, site) = (stamp.time(), stamp.site().number());
        let ring = yes_or_no(*ring);
        writeln!(out, "ring in use at {time} of site {site}: {ring}")?;
    }
    Ok(())
}

// Writes what a delta says.
pub(crate) fn say_delta<W: Write>(out: &mut W, delta: &Delta) -> io::Result<()> {
    say_runs(out, "run", delta.members().context())?;
    for (dot, cell) in delta.members().iter() {
        say_cell(out, dot, cell)?;
    }
    for (key, calls) in delta.totals().iter() {
        let (site, queue) = (key.site().number(), key.queue());
        let (completed, abandoned) = (calls.completed, calls.abandoned);
        writeln!(
            out,
            "total of site {site} in queue {queue}: {completed} completed, {abandoned} abandoned"
        )?;
    }
    Ok(())
}

// Writes the rows that each queue shows.
pub(crate) fn say_rows<W: Write>(out: &mut W, members: &MemberSet) -> io::Result<()> {
    for queue in 0..QUEUES as u16 {
        for (interface, row) in members.rows(queue) {
            let interface = interface.as_bytes().as_bstr();
            let (penalty, paused) = (row.penalty, yes_or_no(row.paused));
            let ring = yes_or_no(row.ring);
            writeln!(
                out,
                "row of queue {queue}: {interface:?}, penalty {penalty}, paused {paused}, reason {:?}, name {:?}, state {:?}, ring in use {ring}",
                row.reason.as_bstr(),
                row.name.as_bstr(),
                row.state.as_bstr()
            )?;
        }
    }
    Ok(())
}

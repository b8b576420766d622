//! Reads the held delta: the dots of a member, the dots seen below a dot, and totals that are raised.
use crate::frames::words::say_runs;
use causal_context::ContextFault;
use delta::Delta;
use dots::{Calls, Dot, Member, QUEUES};
use member_orset::MemberSet;
use site_totals::{TotalFault, Totals};
use std::alloc::Global;
use std::io::{self, ErrorKind, Write};
use std::mem;

// Writes the dots of a member.
fn say_dots_of<W: Write>(out: &mut W, members: &MemberSet, member: &Member) -> io::Result<()> {
    for dot in members.dots(member) {
        let (count, site) = (dot.count(), dot.site().number());
        writeln!(out, "dot {count} of site {site}")?;
    }
    Ok(())
}

// Writes which dots each member has that has a live dot in another delta, and how many live dots are held.
pub(crate) fn say_dots<W: Write>(out: &mut W, held: &Delta, other: &Delta) -> io::Result<()> {
    for (_, cell) in other.members().iter() {
        say_dots_of(out, held.members(), cell.member)?;
    }
    writeln!(out, "live dots: {}", held.members().cells())
}

// Writes the runs of what is seen below a dot.
fn say_seen_below<W: Write>(out: &mut W, members: &MemberSet, dot: Dot) -> io::Result<()> {
    match members.seen_below(&[dot]) {
        Ok(seen) => {
            let said = say_runs(out, "seen", &seen);
            drop(seen);
            said
        }
        Err(ContextFault::Memory) => Err(io::Error::from(ErrorKind::OutOfMemory)),
        Err(fault) => writeln!(out, "refused {fault:?}"),
    }
}

// Writes the runs of what is seen below the first dot of each run of another delta.
pub(crate) fn say_seen<W: Write>(out: &mut W, held: &Delta, other: &Delta) -> io::Result<()> {
    for run in other.members().context().iter() {
        if let Some(dot) = Dot::new(run.site, run.first) {
            say_seen_below(out, held.members(), dot)?;
        }
    }
    Ok(())
}

// Counts one more completed call for each total of another delta, and writes what it is then.
fn say_each_raised<W: Write>(out: &mut W, totals: &mut Totals, other: &Delta) -> io::Result<()> {
    for (key, _) in other.totals().iter() {
        let (site, queue) = (key.site(), key.queue());
        if usize::from(queue) < QUEUES {
            match totals.raise(site, queue, Calls::Completed) {
                Ok(total) => writeln!(out, "raised to {total}")?,
                Err(TotalFault::Memory) => return Err(io::Error::from(ErrorKind::OutOfMemory)),
                Err(fault) => writeln!(out, "refused {fault:?}")?,
            }
        }
    }
    Ok(())
}

// Counts one more completed call in the held delta for each total of another, and writes what it is then.
pub(crate) fn say_raised<W: Write>(
    alloc: Global,
    out: &mut W,
    held: &mut Delta,
    other: &Delta,
) -> io::Result<()> {
    let (members, mut totals) = mem::replace(held, Delta::empty(alloc)).into_parts();
    let said = say_each_raised(out, &mut totals, other);
    mem::replace(held, Delta::of(members, totals)).discard();
    said
}

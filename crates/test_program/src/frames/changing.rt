//! Changes the held delta by another.
use crate::frames::words::{say_delta, say_rows};
use delta::Delta;
use dots::Dot;
use member_orset::{Cell, JoinFault, MemberSet};
use std::alloc::Global;
use std::io::{self, ErrorKind, Write};
use std::mem;

// How a delta changes the held one.
#[derive(Clone, Copy)]
pub(crate) enum Change {
    // It is joined, members and totals.
    Join,
    // Its set of members alone is joined.
    Set,
    // Room is made for its set of members, which is then absorbed if there is room.
    Prepare,
    // Its first live dot is asserted.
    Assert,
    // The first dot of its first run is killed.
    Kill,
}

// Joins a set.
fn joined(members: &mut MemberSet, others: MemberSet) -> Result<(), JoinFault> {
    match members.join(others) {
        Ok(()) => Ok(()),
        Err((fault, back)) => {
            drop(back);
            Err(fault)
        }
    }
}

// Makes room for a set, and absorbs it if it is prepared for it then.
fn prepared(members: &mut MemberSet, others: MemberSet) -> Result<(), JoinFault> {
    let prepared = members.prepare(&others);
    if members.prepared(&others) {
        members.absorb(others);
    } else {
        drop(others);
    }
    prepared
}

// Asserts a live dot.
fn dot_asserted(members: &mut MemberSet, dot: Dot, cell: Cell<'_>) -> Result<(), JoinFault> {
    if cell.fields.is_none() {
        return Ok(());
    }
    members.assert(dot, cell.member, cell.fields)
}

// Asserts the first live dot of a set.
fn asserted(members: &mut MemberSet, others: MemberSet) -> Result<(), JoinFault> {
    let asserted = match others.iter().next() {
        Some((dot, cell)) => dot_asserted(members, dot, cell),
        None => Ok(()),
    };
    drop(others);
    asserted
}

// Kills the first dot of the first run of a set.
fn killed(members: &mut MemberSet, others: MemberSet) -> Result<(), JoinFault> {
    let first = match others.context().iter().next() {
        Some(run) => Dot::new(run.site, run.first),
        None => None,
    };
    drop(others);
    match first {
        Some(dot) => members.kill(dot),
        None => Ok(()),
    }
}

// Changes the held delta by another.
fn changed(alloc: Global, held: &mut Delta, change: Change, delta: Delta) -> Result<(), JoinFault> {
    if let Change::Join = change {
        return match held.join(delta) {
            Ok(()) => Ok(()),
            Err((fault, back)) => {
                back.discard();
                Err(fault)
            }
        };
    }
    let (mut members, totals) = mem::replace(held, Delta::empty(alloc)).into_parts();
    let (others, other_totals) = delta.into_parts();
    drop(other_totals);
    let changed = match change {
        Change::Join | Change::Set => joined(&mut members, others),
        Change::Prepare => prepared(&mut members, others),
        Change::Assert => asserted(&mut members, others),
        Change::Kill => killed(&mut members, others),
    };
    mem::replace(held, Delta::of(members, totals)).discard();
    changed
}

// Changes the held delta by another, and writes it, with the rows that its queues show. Before it writes `refused` and the fault,
// if the change is refused, or `changed` if a refused change has changed something. Out of memory ends it before anything is written.
pub(crate) fn say_changed<W: Write>(
    alloc: Global,
    out: &mut W,
    held: &mut Delta,
    change: Change,
    delta: Delta,
) -> io::Result<()> {
    let Ok(before) = held.copy() else {
        delta.discard();
        return Err(io::Error::from(ErrorKind::OutOfMemory));
    };
    let changed = changed(alloc, held, change, delta);
    let is_kept = held.same(&before);
    before.discard();
    match changed {
        Ok(()) => {}
        Err(_) if !is_kept => writeln!(out, "changed")?,
        Err(JoinFault::Memory) => return Err(io::Error::from(ErrorKind::OutOfMemory)),
        Err(fault) => writeln!(out, "refused {fault:?}")?,
    }
    say_delta(out, held)?;
    say_rows(out, held.members())
}

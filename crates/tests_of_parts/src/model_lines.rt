//! The results of lines at two sites of the reference model. An empty line, and one that begins with `#`, does nothing. Others are
//!
//! - `queues NAME..`: two new sites with these queues, and no frames;
//! - `frame OPERATIONS`: makes a frame;
//! - of a site, `0` or `1`, `knows OPERATIONS`, `buffer OPERATIONS` and `number N`: set what it knows, its buffer, and how many frames it
//!   has made;
//! - of a site, a step, whose outcome is the result: a change, such as `add QUEUE INTERFACE PENALTY`, in which `-` stands for every queue;
//!   `cut`; `whole`; or `take N`, the frame in this place, from 0;
//! - of a site, `row MEMBER`, `dot MEMBER`, its only visible dot, `totals QUEUE`, and `stamp`, that of the last operation that it has made.
//!
//! The result stands after a colon and a blank.
use crate::parse::{
    Words, interface, label, list, member, name, number, penalty, place, queue, site, word,
};
use crate::parse_operations::{operations, setting};
use dots::SiteId;
use reference_model::{
    Calls, Change, Operation, Outcome, SiteKnowledge, Step, after_step, dots_of_member, row, totals,
};
use replica::QueueList;
use std::alloc::Global;
use std::mem;
use std::process::Abort;
use std::str::from_utf8;

// Two sites with the same queues, and the frames that there are.
#[derive(Drop)]
struct World {
    list: QueueList,
    sites: Vec<SiteKnowledge>,
    frames: Vec<Vec<Operation>>,
}

// Two sites that know nothing, with these queues.
fn new_world(rt: &impl Abort, alloc: Global, queues: &str) -> World {
    let mut sites = Vec::new(alloc);
    for _ in 0..2u16 {
        let site = SiteKnowledge {
            known: Vec::new(alloc),
            buffer: Vec::new(alloc),
            frames: 0,
        };
        sites.push(site).expect(rt, "memory");
    }
    World {
        list: list(rt, alloc, queues),
        sites,
        frames: Vec::new(alloc),
    }
}

// The change of this kind: of a queue, and but for a call of an interface.
fn change(rt: &impl Abort, kind: &str, words: &mut Words<'_>) -> Change {
    let of = word(rt, words);
    match kind {
        "completed" => Change::CountCall {
            queue: name(rt, of),
            calls: Calls::Completed,
        },
        "abandoned" => Change::CountCall {
            queue: name(rt, of),
            calls: Calls::Abandoned,
        },
        "add" => Change::AddMember {
            queue: name(rt, of),
            interface: interface(rt, word(rt, words)),
            penalty: penalty(rt, word(rt, words)),
            paused: false,
            label: label(rt, "-", "-"),
        },
        "remove" => Change::RemoveMember {
            queue: name(rt, of),
            interface: interface(rt, word(rt, words)),
        },
        _ => Change::SetField {
            queue: queue(rt, of),
            interface: interface(rt, word(rt, words)),
            setting: setting(rt, kind, words),
        },
    }
}

fn copies(rt: &impl Abort, alloc: Global, operations: &[Operation]) -> Vec<Operation> {
    let mut copies = Vec::new(alloc);
    for operation in operations {
        let copy = operation.copy(alloc).expect(rt, "memory");
        copies.push(copy).expect(rt, "memory");
    }
    copies
}

fn step(
    rt: &impl Abort,
    alloc: Global,
    frames: &[Vec<Operation>],
    kind: &str,
    words: &mut Words<'_>,
) -> Step {
    match kind {
        "cut" => Step::Cut,
        "whole" => Step::Whole,
        "take" => {
            let at = usize::from(place(rt, word(rt, words)));
            let frame = frames.get(at).expect(rt, "a frame");
            Step::Take(copies(rt, alloc, frame))
        }
        _ => Step::Do(change(rt, kind, words)),
    }
}

// Lets a site do a step, and returns its outcome.
fn do_step(
    rt: &impl Abort,
    alloc: Global,
    site: SiteId,
    list: &QueueList,
    knowledge: &mut SiteKnowledge,
    step: Step,
) -> Outcome {
    let after = after_step(alloc, site, list, knowledge, &step);
    drop(step);
    let (after, outcome) = after.expect(rt, "memory");
    drop(mem::replace(knowledge, after));
    outcome
}

// The text of an outcome. A frame is put behind the others.
fn outcome_text(
    rt: &impl Abort,
    alloc: Global,
    frames: &mut Vec<Vec<Operation>>,
    outcome: Outcome,
) -> String {
    let text = match outcome {
        Outcome::Done => "done",
        Outcome::Nothing => "nothing",
        Outcome::NoNumber => "no number",
        Outcome::Taken => "taken",
        Outcome::CellsFull => "cells full",
        Outcome::RunsFull => "runs full",
        Outcome::Denied(refusal) => {
            return format!(in alloc; "refused {refusal:?}").expect(rt, "memory");
        }
        Outcome::Framed { number, frame } => {
            frames.push(frame).expect(rt, "memory");
            return format!(in alloc; "frame {number}").expect(rt, "memory");
        }
    };
    String::from_str(alloc, text).expect(rt, "memory")
}

fn utf8<'a>(rt: &impl Abort, bytes: &'a [u8]) -> &'a str {
    from_utf8(bytes).expect(rt, "a text")
}

// The row of a member: its penalty, whether it is paused, why, its name, its state interface and ring in use.
fn row_text(rt: &impl Abort, alloc: Global, known: &[Operation], member_text: &str) -> String {
    let member = member(rt, member_text);
    let row = row(alloc, known, &member).expect(rt, "memory");
    drop(member);
    match row {
        Some(row) => {
            let (penalty, paused, ring) = (row.penalty, row.paused, row.ring);
            let reason = utf8(rt, row.reason);
            let (name, state) = (utf8(rt, row.name), utf8(rt, row.state));
            let text = format!(in alloc; "{penalty} {paused} '{reason}' '{name}' '{state}' {ring}");
            text.expect(rt, "memory")
        }
        None => String::from_str(alloc, "none").expect(rt, "memory"),
    }
}

// The only visible dot of a member: its site and its count.
fn dot_text(rt: &impl Abort, alloc: Global, known: &[Operation], member_text: &str) -> String {
    let member = member(rt, member_text);
    let dots = dots_of_member(alloc, known, &member).expect(rt, "memory");
    drop(member);
    assert!(*rt; dots.len() == 1);
    let dot = dots.first().copied().expect(rt, "a dot");
    drop(dots);
    let (site, count) = (dot.site().number(), dot.count());
    format!(in alloc; "{site}.{count}").expect(rt, "memory")
}

fn totals_text(rt: &impl Abort, alloc: Global, known: &[Operation], queue: &str) -> String {
    let given = totals(known, place(rt, queue));
    let (completed, abandoned) = (given.completed, given.abandoned);
    format!(in alloc; "{completed} {abandoned}").expect(rt, "memory")
}

// The stamp of the first of the operations, which is an add or a write.
fn stamp_text(rt: &impl Abort, alloc: Global, known: &[Operation]) -> String {
    match known.first() {
        Some(Operation::Add { stamp, .. } | Operation::Write { stamp, .. }) => {
            let (time, site) = (stamp.time(), stamp.site().number());
            format!(in alloc; "{time}.{site}").expect(rt, "memory")
        }
        _ => rt.panic("no stamp"),
    }
}

// The result of a line of a site.
fn given_at(
    rt: &impl Abort,
    alloc: Global,
    list: &QueueList,
    sites: &mut Vec<SiteKnowledge>,
    frames: &mut Vec<Vec<Operation>>,
    at: &str,
    line: &str,
) -> String {
    let site = site(rt, at);
    let knowledge = sites.get_mut(usize::from(site.number())).expect(rt, at);
    let (kind, rest) = line.split_once(' ').unwrap_or((line, ""));
    match kind {
        "row" => return row_text(rt, alloc, &knowledge.known, rest),
        "dot" => return dot_text(rt, alloc, &knowledge.known, rest),
        "totals" => return totals_text(rt, alloc, &knowledge.known, rest),
        "stamp" => return stamp_text(rt, alloc, &knowledge.known),
        "number" => knowledge.frames = number(rt, rest),
        "knows" => {
            let known = operations(rt, alloc, rest);
            drop(mem::replace(&mut knowledge.known, known));
        }
        "buffer" => {
            let buffer = operations(rt, alloc, rest);
            drop(mem::replace(&mut knowledge.buffer, buffer));
        }
        _ => {
            let mut words = rest.split_whitespace();
            let step = step(rt, alloc, frames.as_slice(), kind, &mut words);
            let outcome = do_step(rt, alloc, site, list, knowledge, step);
            return outcome_text(rt, alloc, frames, outcome);
        }
    }
    String::new(alloc)
}

// The result of a line.
fn given(rt: &impl Abort, alloc: Global, world: &mut World, line: &str) -> String {
    let (first, rest) = line.split_once(' ').expect(rt, line);
    match first {
        "queues" => drop(mem::replace(world, new_world(rt, alloc, rest))),
        "frame" => {
            let frame = operations(rt, alloc, rest);
            world.frames.push(frame).expect(rt, "memory");
        }
        at => {
            return given_at(
                rt,
                alloc,
                &world.list,
                &mut world.sites,
                &mut world.frames,
                at,
                rest,
            );
        }
    }
    String::new(alloc)
}

// Asserts the result of each line.
pub(crate) fn assert_lines(rt: &impl Abort, alloc: Global, lines: &str) {
    let mut world = new_world(rt, alloc, "sales");
    for line in lines.split('\n') {
        if !line.is_empty() && !line.starts_with('#') {
            let (action, wanted) = line.split_once(": ").unwrap_or((line, ""));
            let given = given(rt, alloc, &mut world, action);
            assert!(*rt; given.as_str() == wanted, "{action} gives {given}");
            drop(given);
        }
    }
    drop(world);
}

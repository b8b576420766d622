//! Reads operations from words.
use crate::parse::{Words, dot, label, member, number, penalty, site, text, word};
use dots::{Dot, Member, Pause, Stamp};
use reference_model::{Calls, Operation, Setting, Total};
use std::alloc::Global;
use std::process::Abort;

// What is set: `penalty 3`, `ring no`, `pause yes lunch` or `label Ann Custom:1`.
pub(crate) fn setting(rt: &impl Abort, kind: &str, words: &mut Words<'_>) -> Setting {
    let first = word(rt, words);
    match kind {
        "penalty" => Setting::Penalty(penalty(rt, first)),
        "ring" => Setting::Ring(first == "yes"),
        "pause" => Setting::Pause(Pause::new(first == "yes", text(rt, word(rt, words)))),
        _ => Setting::Label(label(rt, first, word(rt, words))),
    }
}

// A stamp: its time and its site, as `1.0`.
fn stamp(rt: &impl Abort, word: &str) -> Stamp {
    let (time, of) = word.split_once('.').expect(rt, word);
    Stamp::new(number(rt, time), site(rt, of)).expect(rt, word)
}

// Dots, each written as `0.1`; or `2.1*9` for 9 dots of site 2, those of every second count from 1 on.
fn dots(rt: &impl Abort, alloc: Global, words: &mut Words<'_>) -> Vec<Dot> {
    let mut dots = Vec::new(alloc);
    for word in words {
        let (first, times) = word.split_once('*').unwrap_or((word, "1"));
        let first = dot(rt, first);
        for index in 0..number(rt, times) {
            let count = first.count().saturating_add(index.saturating_mul(2));
            let one = Dot::new(first.site(), count).expect(rt, word);
            dots.push(one).expect(rt, "memory");
        }
    }
    dots
}

// Dots with their members, as `0.1@0/SIP/1`, or `2.1*9@0/SIP/1`.
fn members(rt: &impl Abort, alloc: Global, words: &mut Words<'_>) -> Vec<(Dot, Member)> {
    let mut members = Vec::new(alloc);
    for word in words {
        let (of, member_text) = word.split_once('@').expect(rt, word);
        let those = dots(rt, alloc, &mut of.split_whitespace());
        for one in those.as_slice() {
            let pair = (*one, member(rt, member_text));
            members.push(pair).expect(rt, "memory");
        }
        drop(those);
    }
    members
}

fn added(rt: &impl Abort, alloc: Global, words: &mut Words<'_>) -> Operation {
    Operation::Add {
        dot: dot(rt, word(rt, words)),
        member: member(rt, word(rt, words)),
        stamp: stamp(rt, word(rt, words)),
        penalty: penalty(rt, word(rt, words)),
        pause: Pause::new(false, text(rt, "-")),
        label: label(rt, "-", "-"),
        older: dots(rt, alloc, words),
    }
}

fn written(rt: &impl Abort, alloc: Global, words: &mut Words<'_>) -> Operation {
    let stamp = stamp(rt, word(rt, words));
    let kind = word(rt, words);
    let setting = setting(rt, kind, words);
    Operation::Write {
        dots: members(rt, alloc, words),
        setting,
        stamp,
        older: Vec::new(alloc),
    }
}

fn counted(rt: &impl Abort, calls: Calls, words: &mut Words<'_>) -> Operation {
    let site = site(rt, word(rt, words));
    let total = word(rt, words).parse::<u32>().expect(rt, "a total");
    Operation::Count {
        site,
        queue: 0,
        calls,
        total: Total::new(total).expect(rt, "a total"),
    }
}

// The operation of a text: `add` with a dot, a member, a stamp, a penalty and older dots; `write` with a stamp, what is set, and dots with
// their members; `remove` with dots; `completed` or `abandoned` with a site and its total in queue 0.
fn operation(rt: &impl Abort, alloc: Global, text: &str) -> Operation {
    let mut words = text.split_whitespace();
    match word(rt, &mut words) {
        "add" => added(rt, alloc, &mut words),
        "write" => written(rt, alloc, &mut words),
        "remove" => Operation::Remove {
            dots: dots(rt, alloc, &mut words),
        },
        "completed" => counted(rt, Calls::Completed, &mut words),
        _ => counted(rt, Calls::Abandoned, &mut words),
    }
}

// The operations of texts with semicolons between them.
pub(crate) fn operations(rt: &impl Abort, alloc: Global, texts: &str) -> Vec<Operation> {
    let mut operations = Vec::new(alloc);
    for text in texts.split("; ") {
        let operation = operation(rt, alloc, text);
        operations.push(operation).expect(rt, "memory");
    }
    operations
}

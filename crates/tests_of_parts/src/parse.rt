//! Reads values from words.
use dots::{Dot, Interface, Label, Member, Penalty, QueueName, SiteId, Text80};
use replica::QueueList;
use std::alloc::Global;
use std::process::Abort;
use std::str::SplitWhitespace;

pub(crate) type Words<'a> = SplitWhitespace<'a>;

pub(crate) fn word<'a>(rt: &impl Abort, words: &mut Words<'a>) -> &'a str {
    words.next().expect(rt, "a word")
}

pub(crate) fn number(rt: &impl Abort, word: &str) -> u64 {
    word.parse::<u64>().expect(rt, word)
}

// The number of a queue, or a place in a list, from 0.
pub(crate) fn place(rt: &impl Abort, word: &str) -> u16 {
    word.parse::<u16>().expect(rt, word)
}

pub(crate) fn site(rt: &impl Abort, word: &str) -> SiteId {
    SiteId::new(place(rt, word)).expect(rt, word)
}

// A text, which is `-` where it is empty.
pub(crate) fn text(rt: &impl Abort, word: &str) -> Text80 {
    let text = if word == "-" { "" } else { word };
    Text80::new(text.as_bytes()).expect(rt, word)
}

pub(crate) fn penalty(rt: &impl Abort, word: &str) -> Penalty {
    let number = word.parse::<u32>().expect(rt, word);
    Penalty::new(number).expect(rt, word)
}

pub(crate) fn interface(rt: &impl Abort, word: &str) -> Interface {
    Interface::new(word.as_bytes()).expect(rt, word)
}

pub(crate) fn name(rt: &impl Abort, word: &str) -> QueueName {
    QueueName::new(word.as_bytes()).expect(rt, word)
}

pub(crate) fn label(rt: &impl Abort, name: &str, state: &str) -> Label {
    Label {
        name: text(rt, name),
        state: text(rt, state),
    }
}

// A member: the number of its queue, and its interface, as `0/SIP/1`.
pub(crate) fn member(rt: &impl Abort, word: &str) -> Member {
    let (queue, of) = word.split_once('/').expect(rt, word);
    Member {
        queue: place(rt, queue),
        interface: interface(rt, of),
    }
}

// The list of queues of these names.
pub(crate) fn list(rt: &impl Abort, alloc: Global, words: &str) -> QueueList {
    let mut names = Vec::new(alloc);
    for word in words.split_whitespace() {
        names.push(name(rt, word)).expect(rt, "memory");
    }
    let list = QueueList::new(alloc, &names).expect(rt, "a list");
    drop(names);
    list
}

// A dot: its site and its count, as `0.1`.
pub(crate) fn dot(rt: &impl Abort, word: &str) -> Dot {
    let (of, count) = word.split_once('.').expect(rt, word);
    Dot::new(site(rt, of), number(rt, count)).expect(rt, word)
}

// A queue, or none where the word is `-`, which stands for every queue.
pub(crate) fn queue(rt: &impl Abort, word: &str) -> Option<QueueName> {
    if word == "-" {
        None
    } else {
        Some(name(rt, word))
    }
}

//! Rows of steps, and rows in words.
use crate::shared::{ADD, COMMAND, NAME, add, row, sales, sip, site_0};
use ami_text::MemorySink;
use ask_code::AskFault;
use delta_codec::DecodeFault;
use dots::{Pause, Penalty, QueueName, Text80};
use replica::{Command, QueueList, Replica};
use site_journal::{Step, StepDeed};
use status_report::{Answer, Ask};
use std::alloc::Global;
use std::process::Abort;
use store_listing::{ListingFault, write_steps};
use stored_steps::{BaseFault, RowFault, StoredRow, row_of_base, row_of_step};

// The head of a frame of 93 bytes: the frame 4 of site 1.
const HEAD: &str = "00000059514402010000000000000004";

// The runs of this frame: the counts 1 and 2 of site 0, and 5 to 9 of site 1.
const RUNS: &str = "0000000200000000000000000100000000000000020100000000000000050000000000000009";

// The cell of this frame: the count 2 of site 0, with a penalty.
const CELL: &str = "000000010000000000000000020000055349502f310100000000000000030000000007";

// The totals of this frame: none.
const NO_TOTALS: &str = "00000000";

// The frame of the number 1 of site 0, which says nothing.
const NOTHING: &str = "00000018514402000000000000000001000000000000000000000000";

// Asserts how writing a row of the position 7 ends, and what was written.
fn assert_row(
    rt: &impl Abort,
    alloc: Global,
    row: StoredRow,
    with_frames: bool,
    ends: Result<(), ListingFault>,
    wanted: &str,
) {
    let mut sink = MemorySink::new(alloc, 9);
    let rows = [row];
    let ended = write_steps(alloc, &mut sink, 7, &rows, with_frames);
    drop(rows);
    assert!(*rt; ended == ends && sink.as_slice() == wanted.as_bytes());
    drop(sink);
}

// Asserts the words and the bytes of the row of a command that is done by pass 2, and the line of this row.
fn assert_command(
    rt: &impl Abort,
    alloc: Global,
    command: Command,
    words: &str,
    digits: &str,
    line: &str,
) {
    let deed = StepDeed::Asked(Ask::Command(command), Answer::Done);
    let step = Step { pass: 2, deed };
    let made = row_of_step(alloc, &step)
        .expect(rt, "memory")
        .expect(rt, "a row");
    drop(step);
    let wanted = row(rt, alloc, COMMAND, &[digits]);
    assert!(*rt; made.pass() == 2 && made.kind() == COMMAND && made.words() == words);
    assert!(*rt; made.body() == wanted.body());
    drop(wanted);
    assert_row(rt, alloc, made, false, Ok(()), line);
}

#[test]
fn commands_have_rows_and_lines(rt: HostRuntime) {
    let alloc = rt.alloc();
    assert_command(
        &rt,
        alloc,
        add(&rt),
        "QueueAdd sales SIP/1",
        ADD,
        "7 pass 2: QueueAdd sales SIP/1 penalty 7 paused yes name Ann: done\n",
    );
    let remove = Command::Remove {
        queue: sales(&rt),
        interface: sip(&rt),
    };
    assert_command(
        &rt,
        alloc,
        remove,
        "QueueRemove sales SIP/1",
        "020573616c6573055349502f3100",
        "7 pass 2: QueueRemove sales SIP/1: done\n",
    );
    let pause = Command::Pause {
        queue: None,
        interface: sip(&rt),
        pause: Pause::new(true, Text80::new(b"tea").expect(&rt, "a text")),
    };
    assert_command(
        &rt,
        alloc,
        pause,
        "QueuePause * SIP/1",
        "0300055349502f31010374656100",
        "7 pass 2: QueuePause * SIP/1 paused yes reason tea: done\n",
    );
    let unpause = Command::Pause {
        queue: Some(sales(&rt)),
        interface: sip(&rt),
        pause: Pause::new(false, Text80::empty()),
    };
    assert_command(
        &rt,
        alloc,
        unpause,
        "QueuePause sales SIP/1",
        "03010573616c6573055349502f310000",
        "7 pass 2: QueuePause sales SIP/1 paused no: done\n",
    );
    let penalty = Command::Penalty {
        queue: Some(sales(&rt)),
        interface: sip(&rt),
        penalty: Penalty::new(7).expect(&rt, "a penalty"),
    };
    assert_command(
        &rt,
        alloc,
        penalty,
        "QueuePenalty sales SIP/1",
        "04010573616c6573055349502f310000000700",
        "7 pass 2: QueuePenalty sales SIP/1 penalty 7: done\n",
    );
    let ring = Command::RingInUse {
        queue: None,
        interface: sip(&rt),
        ring: true,
    };
    assert_command(
        &rt,
        alloc,
        ring,
        "QueueMemberRingInUse * SIP/1",
        "0500055349502f310100",
        "7 pass 2: QueueMemberRingInUse * SIP/1 ring yes: done\n",
    );
    let completed = Command::Completed { queue: sales(&rt) };
    assert_command(
        &rt,
        alloc,
        completed,
        "Completed sales",
        "060573616c657300",
        "7 pass 2: Completed sales: done\n",
    );
    let abandoned = Command::Abandoned { queue: sales(&rt) };
    assert_command(
        &rt,
        alloc,
        abandoned,
        "Abandoned sales",
        "070573616c657300",
        "7 pass 2: Abandoned sales: done\n",
    );
}

#[test]
fn frames_and_escaped_texts_have_lines(rt: HostRuntime) {
    let alloc = rt.alloc();
    let took = row(&rt, alloc, 3, &[HEAD, RUNS, CELL, NO_TOTALS]);
    let line = "7 pass 2: take: frame 4 of site 1, 7 dots (1 live), 93 bytes\n";
    assert_row(&rt, alloc, took, false, Ok(()), line);
    let cut = row(&rt, alloc, 4, &[NOTHING]);
    assert_row(
        &rt,
        alloc,
        cut,
        true,
        Ok(()),
        "7 pass 2: cut: frame 1 of site 0, 0 dots (0 live), 28 bytes\n00000018514402000000000000000001000000000000000000000000\n",
    );
    let whole = row(&rt, alloc, 5, &[NOTHING]);
    let line = "7 pass 2: whole: frame 1 of site 0, 0 dots (0 live), 28 bytes\n";
    assert_row(&rt, alloc, whole, false, Ok(()), line);
    // Queue `*`, an interface of the bytes 20 7f e9 5c 21 7e, penalty 0, not paused, no name, the state interface `a b`.
    let digits = "01012a06207fe95c217e0000000000000361206200";
    let escaped = row(&rt, alloc, COMMAND, &[digits]);
    assert_row(
        &rt,
        alloc,
        escaped,
        true,
        Ok(()),
        "7 pass 2: QueueAdd \\x2a \\x20\\x7f\\xe9\\x5c!~ penalty 0 paused no state a\\x20b: done\n",
    );
}

#[test]
fn starts_and_bases_have_lines(rt: HostRuntime) {
    let alloc = rt.alloc();
    let start = StoredRow::of_start(alloc).expect(&rt, "memory");
    assert_row(&rt, alloc, start, true, Ok(()), "7 start\n");
    let first = QueueName::new(b"a b").expect(&rt, "a name");
    let list = QueueList::new(alloc, &[first, sales(&rt)]).expect(&rt, "a list");
    let mut replica = Replica::new(alloc, site_0(&rt), list);
    let command = add(&rt);
    replica.command(&command).expect(&rt, "done");
    drop(command);
    let base = row_of_base(alloc, &replica, &NAME, 3).expect(&rt, "memory");
    drop(replica);
    assert_row(
        &rt,
        alloc,
        base,
        true,
        Ok(()),
        "7 base: site 0, store a1a1a1a1a1a1a1a1a1a1a1a1a1a1a1a1, started 3 times, members a\\x20b 0 sales 1\n",
    );
}

// Asserts why nothing is written of a row of the position 7.
fn assert_fault(rt: &impl Abort, alloc: Global, kind: u32, parts: &[&str], wanted: ListingFault) {
    let row = row(rt, alloc, kind, parts);
    assert_row(rt, alloc, row, true, Err(wanted), "");
}

#[test]
fn rows_have_faults(rt: HostRuntime) {
    let alloc = rt.alloc();
    assert_fault(&rt, alloc, 9, &[], ListingFault::Row(7, RowFault::BadKind));
    // A start with a pass.
    assert_fault(&rt, alloc, 6, &[], ListingFault::Row(7, RowFault::BadKind));
    let truncated = ListingFault::Row(7, RowFault::Ask(AskFault::Truncated));
    assert_fault(&rt, alloc, 2, &["060573616c6573"], truncated);
    // A call that was refused.
    let refused = ListingFault::Row(7, RowFault::NotDone);
    assert_fault(&rt, alloc, 2, &["060573616c657301"], refused);
    let version = ListingFault::Base(7, BaseFault::BadVersion);
    assert_fault(&rt, alloc, 1, &["02"], version);
    let truncated = ListingFault::Frame(7, DecodeFault::Truncated);
    assert_fault(&rt, alloc, 3, &[], truncated);
    let more = ListingFault::Frame(7, DecodeFault::BadRange);
    assert_fault(&rt, alloc, 5, &[NOTHING, "00"], more);
}

#[test]
fn rows_are_written_up_to_a_fault(rt: HostRuntime) {
    let alloc = rt.alloc();
    let start = StoredRow::of_start(alloc).expect(&rt, "memory");
    let rows = [start, row(&rt, alloc, 9, &[])];
    let mut sink = MemorySink::new(alloc, 9);
    let ended = write_steps(alloc, &mut sink, 9, &rows, false);
    let fault = ListingFault::Row(10, RowFault::BadKind);
    assert!(rt; ended == Err(fault) && sink.as_slice() == "9 start\n".as_bytes());
    drop(sink);
    // A sink that fails at its third write has a part of a line.
    let mut failing = MemorySink::failing(alloc, 3, 2);
    let ended = write_steps(alloc, &mut failing, 9, &rows, false);
    drop(rows);
    assert!(rt; ended == Err(ListingFault::Write) && failing.as_slice() == "9 star".as_bytes());
    drop(failing);
}

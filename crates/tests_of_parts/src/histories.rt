//! What lists of operations show, in the orders in which sites take them and in others: rows, totals and a report, worked out by hand.
use crate::model_lines::assert_lines;
use crate::parse::{list, text};
use crate::parse_operations::operations;
use dots::Bytes;
use reference_model::status;
use status_report::StatusRequest;

const LINES: &str = "\
# A member is shown until it is removed.
queues sales
0 row 0/SIP/1: none
0 knows add 0.1 0/SIP/1 1.0 0; add 0.1 0/SIP/1 1.0 0
0 row 0/SIP/1: 0 false '' '' '' true
0 knows add 0.1 0/SIP/1 1.0 0; remove 0.1
0 row 0/SIP/1: none
0 knows remove 0.1; add 0.1 0/SIP/1 1.0 0; remove 0.1; add 0.1 0/SIP/1 1.0 0
0 row 0/SIP/1: none

# A remove meets a concurrent add.
queues sales
0 knows add 0.1 0/SIP/1 1.0 1; remove 0.1; add 1.1 0/SIP/1 1.1 2
0 row 0/SIP/1: 2 false '' '' '' true
0 knows remove 0.1; add 1.1 0/SIP/1 1.1 2; add 0.1 0/SIP/1 1.0 1; add 1.1 0/SIP/1 1.1 2; remove 0.1
0 row 0/SIP/1: 2 false '' '' '' true

# A remove comes before its add.
queues sales
0 knows remove 0.1
0 row 0/SIP/1: none
0 knows add 1.1 0/SIP/1 1.1 9; add 0.1 0/SIP/1 1.0 0; remove 0.1; add 0.1 0/SIP/1 1.0 0
0 row 0/SIP/1: 9 false '' '' '' true

# A pause comes before its add.
queues sales
0 knows write 2.0 pause yes lunch 0.1@0/SIP/1
0 row 0/SIP/1: 0 true 'lunch' '' '' true
0 knows add 0.1 0/SIP/1 1.0 5; write 2.0 pause yes lunch 0.1@0/SIP/1
0 row 0/SIP/1: 5 true 'lunch' '' '' true
0 knows write 2.0 pause yes lunch 0.1@0/SIP/1; add 0.1 0/SIP/1 1.0 5
0 row 0/SIP/1: 5 true 'lunch' '' '' true

# Ring in use comes before its add, which doesn't set it, and goes with its dot.
queues sales
0 knows write 2.0 ring no 0.1@0/SIP/1
0 row 0/SIP/1: 0 false '' '' '' false
0 knows add 0.1 0/SIP/1 1.0 0; write 2.0 ring no 0.1@0/SIP/1; add 0.1 0/SIP/1 1.0 0
0 row 0/SIP/1: 0 false '' '' '' false
0 knows write 3.0 ring yes 0.1@0/SIP/1; add 0.1 0/SIP/1 1.0 0; write 2.0 ring no 0.1@0/SIP/1
0 row 0/SIP/1: 0 false '' '' '' true
0 knows add 0.1 0/SIP/1 1.0 0; write 2.0 ring no 0.1@0/SIP/1; remove 0.1; add 0.2 0/SIP/1 3.0 0 0.1
0 row 0/SIP/1: 0 false '' '' '' true

# A remove meets a concurrent pause and a later add.
queues sales
0 knows add 0.1 0/SIP/1 1.0 0; remove 0.1; write 2.0 pause yes - 0.1@0/SIP/1
0 row 0/SIP/1: none
0 knows add 0.2 0/SIP/1 3.0 0 0.1; remove 0.1; write 2.0 pause yes - 0.1@0/SIP/1; \
add 0.1 0/SIP/1 1.0 0
0 row 0/SIP/1: 0 false '' '' '' true
# The new add names the older dot itself.
0 knows add 0.1 0/SIP/1 1.0 0; write 2.0 pause yes - 0.1@0/SIP/1; add 0.2 0/SIP/1 3.0 0 0.1
0 row 0/SIP/1: 0 false '' '' '' true

# Two sites set a penalty at one time.
queues sales
0 knows add 0.1 0/SIP/1 1.0 0; write 2.0 penalty 3 0.1@0/SIP/1; write 2.1 penalty 4 0.1@0/SIP/1
0 row 0/SIP/1: 4 false '' '' '' true
0 knows write 2.1 penalty 4 0.1@0/SIP/1; write 2.0 penalty 3 0.1@0/SIP/1; add 0.1 0/SIP/1 1.0 0
0 row 0/SIP/1: 4 false '' '' '' true

# A pause is of every queue that it names.
queues a b c
0 knows add 0.1 0/SIP/1 1.0 0; write 4.0 pause yes lunch 0.1@0/SIP/1 0.3@2/SIP/1; \
add 0.3 2/SIP/1 3.0 0; add 0.2 1/SIP/1 2.0 0
0 row 0/SIP/1: 0 true 'lunch' '' '' true
0 row 1/SIP/1: 0 false '' '' '' true
0 row 2/SIP/1: 0 true 'lunch' '' '' true
# An unpause has no reason.
0 knows write 5.0 pause no x 0.1@0/SIP/1; \
write 4.0 pause yes lunch 0.1@0/SIP/1 0.3@2/SIP/1; add 0.1 0/SIP/1 1.0 0
0 row 0/SIP/1: 0 false '' '' '' true
0 row 2/SIP/1: 0 true 'lunch' '' '' true

# Counts are taken again and again, and totals are those of the queue.
queues sales support
0 knows completed 0 1; completed 0 2; completed 1 1; abandoned 1 1; completed 1 1; completed 0 1
0 totals 0: 3 1
0 knows abandoned 0 1000000000; abandoned 63 7
0 totals 0: 0 1000000007
0 totals 1: 0 0

# Penalties are set up to the greatest.
queues sales
0 knows add 0.1 0/SIP/1 1.0 0; write 2.0 penalty 2147483647 0.1@0/SIP/1
0 row 0/SIP/1: 2147483647 false '' '' '' true
0 knows write 3.0 penalty 7 0.1@0/SIP/1; add 0.1 0/SIP/1 1.0 0; \
write 2.0 penalty 2147483647 0.1@0/SIP/1
0 row 0/SIP/1: 7 false '' '' '' true

# A name is set after the add.
queues sales
0 knows add 0.1 0/SIP/1 1.0 4; write 2.0 label Ann Custom:1 0.1@0/SIP/1
0 row 0/SIP/1: 4 false '' 'Ann' 'Custom:1' true
";

#[test]
fn operations_show_what_the_definitions_say(rt: HostRuntime) {
    assert_lines(&rt, rt.alloc(), LINES);
}

// A report is of the queue that is asked for. Its members stand in the order of their bytes.
#[test]
fn a_report_has_the_rows_and_totals_of_a_queue(rt: HostRuntime) {
    const KNOWN: &str = "add 0.1 0/SIP/2 1.0 6; add 0.2 0/SIP/10 2.0 5; \
        add 0.3 1/SIP/1 3.0 4; completed 0 2";
    const REPORT: &str = "Response: Success\r\nEventList: start\r\n\
        Message: Queue status will follow\r\n\r\n\
        Event: QueueParams\r\nQueue: sales\r\nCompleted: 2\r\nAbandoned: 0\r\n\r\n\
        Event: QueueMember\r\nQueue: sales\r\nName: SIP/10\r\nLocation: SIP/10\r\n\
        StateInterface: SIP/10\r\nMembership: dynamic\r\nPenalty: 5\r\nPaused: 0\r\n\
        PausedReason: \r\nRingInUse: 1\r\n\r\n\
        Event: QueueMember\r\nQueue: sales\r\nName: SIP/2\r\nLocation: SIP/2\r\n\
        StateInterface: SIP/2\r\nMembership: dynamic\r\nPenalty: 6\r\nPaused: 0\r\n\
        PausedReason: \r\nRingInUse: 1\r\n\r\n\
        Event: QueueStatusComplete\r\nEventList: Complete\r\nListItems: 3\r\n\r\n";
    let alloc = rt.alloc();
    let known = operations(&rt, alloc, KNOWN);
    let queues = list(&rt, alloc, "sales support");
    let request = StatusRequest {
        queue: Some(text(&rt, "sales")),
        member: None,
        action_id: Bytes::new(Vec::new(alloc)),
    };
    let given = status(alloc, &known, &queues, &request).expect(&rt, "memory");
    drop(request);
    drop(queues);
    drop(known);
    assert!(rt; given.as_slice() == REPORT.as_bytes());
    drop(given);
}

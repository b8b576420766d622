//! What the steps of sites do and show, as the definitions say, with each of their outcomes. The greatest count, time and number of a frame
//! is 1,099,511,627,776.
use crate::model_lines::assert_lines;

const LINES: &str = "\
# A concurrent add outlives a remove.
queues sales
0 add sales SIP/1 1: done
1 add sales SIP/1 2: done
0 cut: frame 1
0 remove sales SIP/1: done
0 cut: frame 2
1 cut: frame 1
0 take 2: taken
1 take 0: taken
1 take 1: taken
0 row 0/SIP/1: 2 false '' '' '' true
1 row 0/SIP/1: 2 false '' '' '' true

# A concurrent add outlives a remove that is taken before its add.
queues sales
0 add sales SIP/1 1: done
1 add sales SIP/1 2: done
0 cut: frame 1
0 remove sales SIP/1: done
0 cut: frame 2
1 cut: frame 1
0 take 2: taken
1 take 1: taken
1 take 0: taken
0 row 0/SIP/1: 2 false '' '' '' true
1 row 0/SIP/1: 2 false '' '' '' true

# A remove is taken before its add.
queues sales
0 add sales SIP/1 0: done
0 cut: frame 1
0 remove sales SIP/1: done
0 cut: frame 2
1 take 1: taken
1 row 0/SIP/1: none
1 take 0: taken
1 row 0/SIP/1: none
1 add sales SIP/1 9: done
1 row 0/SIP/1: 9 false '' '' '' true
# The times of others count for writes alone.
1 stamp: 1.1

# A pause is taken before its add.
queues sales
0 add sales SIP/1 5: done
0 cut: frame 1
0 pause sales SIP/1 yes lunch: done
0 cut: frame 2
1 take 1: taken
1 row 0/SIP/1: 0 true 'lunch' '' '' true
1 take 0: taken
1 row 0/SIP/1: 5 true 'lunch' '' '' true

# A remove wins over a concurrent pause.
queues sales
0 add sales SIP/1 0: done
0 cut: frame 1
1 take 0: taken
0 pause sales SIP/1 yes -: done
0 cut: frame 2
1 remove sales SIP/1: done
1 cut: frame 1
0 take 2: taken
1 take 1: taken
0 row 0/SIP/1: none
1 row 0/SIP/1: none
0 add sales SIP/1 0: done
0 row 0/SIP/1: 0 false '' '' '' true

# Of two penalties at one time the one of the greater site stays.
queues sales
0 add sales SIP/1 0: done
0 cut: frame 1
1 take 0: taken
0 penalty sales SIP/1 3: done
0 stamp: 2.0
1 penalty sales SIP/1 4: done
1 stamp: 2.1
0 cut: frame 2
1 cut: frame 1
0 take 2: taken
1 take 1: taken
0 row 0/SIP/1: 4 false '' '' '' true
1 row 0/SIP/1: 4 false '' '' '' true

# Without a queue a pause is of every queue.
queues a b c
0 add a SIP/1 0: done
0 add b SIP/1 0: done
0 add c SIP/1 0: done
0 pause - SIP/1 yes lunch: done
0 stamp: 4.0
0 row 0/SIP/1: 0 true 'lunch' '' '' true
0 row 1/SIP/1: 0 true 'lunch' '' '' true
0 row 2/SIP/1: 0 true 'lunch' '' '' true
0 pause - SIP/9 yes lunch: refused NotThere
0 pause - SIP/1 no x: done
0 stamp: 5.0
0 row 0/SIP/1: 0 false '' '' '' true
0 row 1/SIP/1: 0 false '' '' '' true
0 row 2/SIP/1: 0 false '' '' '' true

# Ring in use is yes until it is set, of one queue or without one of every queue.
queues a b
0 add a SIP/1 0: done
0 add b SIP/1 0: done
0 row 0/SIP/1: 0 false '' '' '' true
0 ring a SIP/1 no: done
0 row 0/SIP/1: 0 false '' '' '' false
0 row 1/SIP/1: 0 false '' '' '' true
0 ring - SIP/1 no: done
0 stamp: 4.0
0 row 0/SIP/1: 0 false '' '' '' false
0 row 1/SIP/1: 0 false '' '' '' false
0 ring b SIP/1 yes: done
0 row 0/SIP/1: 0 false '' '' '' false
0 row 1/SIP/1: 0 false '' '' '' true

# Ring in use that is there already is written again.
queues sales
0 add sales SIP/1 0: done
0 cut: frame 1
0 ring sales SIP/1 no: done
0 stamp: 2.0
0 cut: frame 2
0 ring sales SIP/1 no: done
0 stamp: 3.0
0 cut: frame 3
0 cut: nothing

# Ring in use is taken before its add, which doesn't set it.
queues sales
0 add sales SIP/1 0: done
0 cut: frame 1
0 ring sales SIP/1 no: done
0 cut: frame 2
1 take 1: taken
1 row 0/SIP/1: 0 false '' '' '' false
1 take 0: taken
1 row 0/SIP/1: 0 false '' '' '' false

# A newer add doesn't know ring in use of the older one.
queues sales
0 add sales SIP/1 0: done
0 ring sales SIP/1 no: done
0 remove sales SIP/1: done
0 add sales SIP/1 0: done
0 row 0/SIP/1: 0 false '' '' '' true

# Of ring in use that two sites set at one time that of the greater site stays.
queues sales
0 add sales SIP/1 0: done
0 ring sales SIP/1 no: done
0 cut: frame 1
1 take 0: taken
0 ring sales SIP/1 no: done
0 stamp: 3.0
1 ring sales SIP/1 yes: done
1 stamp: 3.1
0 cut: frame 2
1 cut: frame 1
0 take 2: taken
1 take 1: taken
0 row 0/SIP/1: 0 false '' '' '' true
1 row 0/SIP/1: 0 false '' '' '' true

# Counts that are taken again count once.
queues sales
0 completed sales: done
0 completed sales: done
1 completed sales: done
1 abandoned sales: done
1 cut: frame 1
0 take 0: taken
0 take 0: taken
0 take 0: taken
1 whole: frame 2
0 take 1: taken
0 totals 0: 3 1

# A write is later than what it replaces of the same field.
queues sales
0 add sales SIP/1 0: done
0 pause sales SIP/1 yes -: done
0 pause sales SIP/1 no -: done
0 stamp: 3.0
0 cut: frame 1
1 take 0: taken
1 penalty sales SIP/1 1: done
1 stamp: 2.1
1 pause sales SIP/1 yes -: done
1 stamp: 4.1

# A whole is of all that is known and leaves the buffer.
queues sales
1 whole: frame 1
0 add sales SIP/1 3: done
0 whole: frame 1
0 cut: frame 2
0 cut: nothing
# A penalty that is there already is written again.
0 penalty sales SIP/1 3: done
0 cut: frame 3
0 whole: frame 4
1 take 3: taken
1 dot 0/SIP/1: 0.1
1 take 0: taken
1 take 4: taken
1 row 0/SIP/1: 3 false '' '' '' true
# What is taken isn't put in the buffer.
1 cut: nothing

# A newer add replaces the older add.
queues sales
0 add sales SIP/1 1: done
0 cut: frame 1
0 remove sales SIP/1: done
0 cut: frame 2
0 add sales SIP/1 2: done
0 cut: frame 3
0 penalty sales SIP/1 3: done
0 cut: frame 4
1 take 0: taken
1 take 2: taken
1 row 0/SIP/1: 2 false '' '' '' true
1 dot 0/SIP/1: 0.2

# A write of a newer add replaces the older add.
queues sales
0 add sales SIP/1 1: done
0 cut: frame 1
0 remove sales SIP/1: done
0 cut: frame 2
0 add sales SIP/1 2: done
0 cut: frame 3
0 penalty sales SIP/1 3: done
0 cut: frame 4
1 take 0: taken
1 take 3: taken
1 row 0/SIP/1: 3 false '' '' '' true
1 dot 0/SIP/1: 0.2
1 take 2: taken
1 row 0/SIP/1: 3 false '' '' '' true
1 dot 0/SIP/1: 0.2

# A field of the last time is written no more.
queues sales
frame add 1.1099511627776 0/SIP/1 1099511627776.1 7
0 take 0: taken
0 row 0/SIP/1: 7 false '' '' '' true
0 penalty sales SIP/1 1: refused Exhausted
0 pause - SIP/1 yes -: refused Exhausted
0 remove sales SIP/1: done
0 row 0/SIP/1: none
0 add sales SIP/1 0: done
0 row 0/SIP/1: 0 false '' '' '' true
0 dot 0/SIP/1: 0.1
0 stamp: 1.0

# An add of the last time leaves ring in use to be written, and then the last time is its own.
queues sales
frame add 1.1099511627776 0/SIP/1 1099511627776.1 7
frame write 1099511627776.1 ring no 1.1099511627776@0/SIP/1
0 take 0: taken
0 ring sales SIP/1 no: done
0 stamp: 1.0
0 take 1: taken
0 ring sales SIP/1 yes: refused Exhausted
0 ring - SIP/1 no: refused Exhausted
0 row 0/SIP/1: 7 false '' '' '' false

# Commands that have no queue or member are refused.
queues sales
0 add b SIP/1 0: refused NoSuchQueue
0 remove b SIP/1: refused NoSuchQueue
0 pause b SIP/1 yes -: refused NoSuchQueue
0 penalty b SIP/1 1: refused NoSuchQueue
0 ring b SIP/1 no: refused NoSuchQueue
0 completed b: refused NoSuchQueue
0 abandoned b: refused NoSuchQueue
0 remove sales SIP/1: refused NotThere
0 pause sales SIP/1 yes -: refused NotThere
0 pause - SIP/1 yes -: refused NotThere
0 penalty sales SIP/1 1: refused NotThere
0 penalty - SIP/1 1: refused NotThere
0 ring sales SIP/1 no: refused NotThere
0 ring - SIP/1 no: refused NotThere
# A command that is refused leaves nothing to cut.
0 cut: nothing
0 add sales SIP/1 1: done
0 add sales SIP/1 2: refused AlreadyThere
0 row 0/SIP/1: 1 false '' '' '' true
0 penalty - SIP/1 4: done
0 row 0/SIP/1: 4 false '' '' '' true
0 cut: frame 1
0 cut: nothing

# A site without a count adds no more.
queues sales
0 knows add 0.1099511627776 0/SIP/1 1.0 0
0 add sales SIP/2 0: refused Exhausted
0 add sales SIP/1 0: refused AlreadyThere
0 remove sales SIP/1: done
0 add sales SIP/1 0: refused Exhausted
0 completed sales: done

# A site without a time adds no more.
queues sales
0 knows add 0.1 0/SIP/1 1099511627776.0 0
0 add sales SIP/2 0: refused Exhausted
0 add sales SIP/1 0: refused AlreadyThere
0 remove sales SIP/1: done
0 add sales SIP/1 0: refused Exhausted
0 completed sales: done

# A total at its limit counts no more.
queues sales
0 knows completed 0 999999999; abandoned 0 1000000000
0 abandoned sales: refused TotalFull
0 completed sales: done
0 completed sales: refused TotalFull
0 totals 0: 1000000000 1000000000

# A site without a number makes no frame.
queues sales
0 number 1099511627775
0 cut: nothing
0 add sales SIP/1 0: done
0 cut: frame 1099511627776
0 cut: nothing
0 whole: no number
0 remove sales SIP/1: done
0 cut: no number
";

#[test]
fn steps_do_and_show_what_the_definitions_say(rt: HostRuntime) {
    assert_lines(&rt, rt.alloc(), LINES);
}

// A story at the limits takes seconds.

#[test]
fn a_site_takes_as_many_runs_and_dots_as_it_may_have(rt: HostRuntime) {
    const STORIES: &str = "\
# A site takes no more runs than it may have.
queues sales
frame remove 2.1*65537
frame remove 2.1*65536
0 take 0: runs full
0 take 1: taken
0 add sales SIP/1 0: refused MembersFull
0 completed sales: done

# A site takes no more dots than it may see.
queues sales
frame remove 2.1*65537; write 1.1 penalty 3 1.1*16385@0/SIP/1
frame write 1.1 penalty 3 1.1*16384@0/SIP/1
# Its runs are too many too, but the dots are reported first.
0 take 0: cells full
0 take 1: taken
0 completed sales: done
";
    assert_lines(&rt, rt.alloc(), STORIES);
}

#[test]
fn a_full_site_writes_and_counts_no_more(rt: HostRuntime) {
    const STORIES: &str = "\
# A full site adds removes and pauses no more.
queues sales
0 knows add 2.2 0/SIP/1 1.5 0; add 1.1099511627776 0/SIP/1 1099511627776.1 7; remove 3.1*65537
0 add b SIP/2 0: refused NoSuchQueue
0 add sales SIP/1 0: refused AlreadyThere
0 remove sales SIP/2: refused NotThere
0 add sales SIP/2 0: refused MembersFull
0 remove sales SIP/1: refused MembersFull
0 pause sales SIP/1 yes -: refused MembersFull

# A full site writes and counts no more.
queues sales
0 knows add 2.2 0/SIP/1 1.5 0; add 1.1099511627776 0/SIP/1 1099511627776.1 7; \
write 1099511627776.1 ring no 1.1099511627776@0/SIP/1; remove 3.1*65537
# Its time is the last too, but a full site is reported first.
0 penalty - SIP/1 1: refused MembersFull
0 ring - SIP/1 yes: refused MembersFull
0 completed sales: refused MembersFull
0 abandoned sales: refused MembersFull
";
    assert_lines(&rt, rt.alloc(), STORIES);
}

#[test]
fn a_full_buffer_is_cut_before_an_add(rt: HostRuntime) {
    const STORIES: &str = "\
# A full buffer is cut before an add.
queues sales
0 knows remove 3.2; add 0.1099511627776 0/SIP/1 1.0 0; remove 3.1*65536
0 buffer remove 3.1*65536
# Its count is the last too, but a full buffer is reported first.
0 add sales SIP/2 0: refused MembersFull
0 cut: frame 1
0 add sales SIP/2 0: refused Exhausted

# A buffer that sees as many dots as it may is cut before an add.
queues sales
0 buffer write 1.1 penalty 3 1.1*16384@0/SIP/1
0 add sales SIP/2 0: refused MembersFull
0 cut: frame 1
0 add sales SIP/2 0: done

# A site that sees too many dots counts no more.
queues sales
0 knows write 1.1 penalty 3 1.1*16385@0/SIP/1
0 completed sales: refused MembersFull
";
    assert_lines(&rt, rt.alloc(), STORIES);
}

#[test]
fn an_operation_has_as_many_runs_as_a_site(rt: HostRuntime) {
    const STORIES: &str = "\
# An operation has no more runs than a site.
queues sales
0 knows add 1.2 0/SIP/2 1.5 0; add 1.131074 0/SIP/2 1.5 0; add 1.131075 0/SIP/1 1.5 0; \
remove 1.1*65537
0 buffer add 1.2 0/SIP/2 1.5 0; add 1.131074 0/SIP/2 1.5 0; add 1.131075 0/SIP/1 1.5 0; \
remove 1.1*65537
0 penalty - SIP/1 1: refused MembersFull
# It has as many.
0 penalty - SIP/2 1: done
";
    assert_lines(&rt, rt.alloc(), STORIES);
}

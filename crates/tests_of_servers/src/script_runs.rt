//! Scripts over devices that fail or don't end: what each run returns and what it has written. tools/program_tests.py has a script that
//! is too long, and a reader that fails.
ghost use Rattle.std.specs.Prelude.{◌≡◌, false};

use crate::shared::list;
use ami_text::{MemorySink, MemorySource};
use scripts::ScriptFault::{Read, Write};
use scripts::{ScriptFault, SiteCount, run_script};
use std::alloc::Global;
use std::process::Abort;

// How a run of a script at one site ends.
fn end_of(
    rt: &impl Abort,
    alloc: Global,
    reader: &mut MemorySource<'_>,
    writer: &mut MemorySink,
) -> Result<u64, ScriptFault>
    requires reader { reader.old.failed ≡ false }
    requires writer { writer.old.failed ≡ false }
{
    let queues = list(rt, alloc);
    let sites = SiteCount::new(1).expect(rt, "a number of sites");
    let end = run_script(alloc, reader, writer, sites, &queues);
    drop(queues);
    end
}

// Runs a script, which is read byte by byte: a comment of `length` bytes, and what follows it. The writer takes at most `most` bytes at
// once, and fails after a number of writes. Asserts how the run ends, and what is written.
fn assert_run(
    rt: &impl Abort,
    alloc: Global,
    length: usize,
    behind: &str,
    most: usize,
    writes: u64,
    wanted: Result<u64, ScriptFault>,
    written: &str,
) {
    let mut script = vec![in alloc; b'#'; length].expect(rt, "memory");
    script
        .extend_from_slice(behind.as_bytes())
        .expect(rt, "memory");
    let mut reader = MemorySource::new(&script, 1);
    let mut writer = MemorySink::failing(alloc, most, writes);
    let end = end_of(rt, alloc, &mut reader, &mut writer);
    drop(reader);
    drop(script);
    assert!(*rt; end == wanted);
    assert!(*rt; writer.as_slice() == written.as_bytes());
    drop(writer);
}

// Two lines that aren't understood, and what is written of them.
const TWO: &str = "0 dance\n0 dance";

const BOTH: &str = "line 1: not understood\nline 2: not understood\n";

#[test]
fn a_script_is_read_to_its_end_or_ends_with_its_fault(rt: HostRuntime) {
    let alloc = rt.alloc();
    // A script is read at most 1,000,000 times; the last read may return the end.
    assert_run(&rt, alloc, 999_999, "", 9, 9, Ok(0), "");
    assert_run(&rt, alloc, 1_000_000, "", 9, 9, Err(Read), "");
    assert_run(&rt, alloc, 0, TWO, 9, 9, Ok(2), BOTH);
    let front = "line 1: not understood\nline 2: no";
    assert_run(&rt, alloc, 0, TWO, 10, 4, Err(Write), front);
    assert_run(&rt, alloc, 0, TWO, 0, 9, Err(Write), "");
}

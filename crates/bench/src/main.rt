//! Workloads to be timed. `bench TIMES WORD..` reads frames from standard input, one after another, and runs the workload of each
//! word on all of them, TIMES times. For each word it prints the word and a checksum of the results, the same at each run. For a
//! workload that fails it prints why. An example is `bench 100 copy join`.
//!
//! The stored run does each word twice, with three frames that are computed by hand. Site 0 knows its dots 1 to 3, of which 1 and 3
//! are live with the penalties 1 and 3; then its next dot 4, live with the penalty 4; and site 1 knows two dead dots, 1 of site 0
//! and 1 of its own, and has completed 5 calls. So there are two live dots in one run, one in one, and none in two runs with 5
//! calls; joined, two live dots in two runs, and 5 calls. The penalties add up to 8, and of each site one dot is dead. Each frame
//! has 28 bytes, 17 for each run, 31 for each cell and 19 for each total: 107, 76 and 81 bytes.
#![tactic(auto)]

mod workloads;

use crate::workloads::{frames_in, sum_of_checksums};
use std::alloc::Global;
use std::env;
use std::io::{self, Read};

// The number of runs of each word, by the first word; 0 if that is no number.
fn times(word: Option<String>) -> u32 {
    match word {
        Some(word) => word.parse().unwrap_or(0),
        None => 0,
    }
}

fn main(rt: HostRuntime) -> io::Result<()> {
    let mut bytes = Vec::new(rt.alloc());
    rt.reader().read_to_end(&mut bytes)?;
    let frames = match frames_in(rt.alloc(), &bytes) {
        Ok(frames) => frames,
        Err(fault) => return println!(rt; "{fault}"),
    };
    let mut words = env::args(&rt)?.skip(1);
    let times = times(words.next());
    for word in words {
        match sum_of_checksums(rt.alloc(), word.as_str(), &bytes, &frames, times) {
            Ok(sum) => println!(rt; "{word} {sum}")?,
            Err(fault) => println!(rt; "{word}: {fault}")?,
        }
    }
    Ok(())
}

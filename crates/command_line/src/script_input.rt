use crate::exit::Exit;
use ami_text::{StdSink, StdSource};
use replica::QueueList;
use scripts::{SiteCount, run_script};
use std::io;

/// Runs a script from standard input at this number of sites, each with these queues, and prints its output to standard output. Returns
/// `Done` if each line was understood, else `NotUnderstood`; `Failed` after a fault of `run_script`, which is printed to standard error.
/// `Err`: that printing failed.
pub fn run_input<R: AllocGlobal + Print + Eprint + Input>(
    rt: &R,
    sites: SiteCount,
    list: &QueueList,
) -> io::Result<Exit> {
    let mut reader = StdSource::new(rt.reader());
    let mut writer = StdSink::new(io::writer(rt));
    match run_script(rt.alloc(), &mut reader, &mut writer, sites, list) {
        Ok(0) => Ok(Exit::Done),
        Ok(_) => Ok(Exit::NotUnderstood),
        Err(fault) => {
            eprintln!(rt; "queue_sites: {fault}")?;
            Ok(Exit::Failed)
        }
    }
}

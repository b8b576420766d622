//! Runs random workloads on sites, the same at each run, and checks that their results fit together: for tests, and for
//! measurements of time.
//!
//! `journals SITES STEPS`: SITES sites, 1 to 8, do STEPS steps each, 1 to 1,000,000, in one thread. A site runs an ask,
//! cuts, makes a whole or takes one of the latest frames of all sites, its own too. The receipts of its steps settle its journal.
//! Prints the number of steps.
//!
//! `audit SITES STEPS`: an audit explains these journals by one list of events. Prints their number.
//!
//! `world SITES STEPS`: runs these events in a new world, in which each site then reports the same as by its journal.
//! Prints their number.
//!
//! `threads RUNS SITES ASKS`: RUNS times SITES sites run as threads and are asked ASKS times each, while their links
//! lose, repeat and hold back frames. No site has a fault, an audit explains all journals, and all sites report the same at their
//! end. Prints only the number of runs, since everything else varies.
ghost use Rattle.std.specs.Prelude.{◌≤◌, IfSome};
ghost use Rattle.site_journal.specs.declared.journaled.TheConstants.{MOST_STEPS};

mod asks;
mod errors;
mod explaining;
mod numbers;
mod threads;
mod turns;

use crate::runs::asks::queue_list;
use crate::runs::explaining::{explain, steps_of};
use crate::runs::threads::run_often;
use crate::runs::turns::work_in_turn;
use site_journal::MOST_STEPS;
use std::alloc::Global;
use std::io::{self, ErrorKind};
use std::sync::Wait;
use std::thread::Threads;

const MOST_SITES: u32 = 8;

const MOST_RUNS: u32 = 1_000_000;

// What is counted after the sites have done their steps in turn.
#[derive(Clone, Copy)]
enum Counted {
    Steps,
    // The events that explain the steps.
    Events,
    // These events, once they have run in a new world.
    Replayed,
}

// Parses a number from 1 to `most`.
fn number(word: &str, most: u32) -> Option<u32>
    ensures some { IfSome result (λ number. 1 ≤ number) }
    ensures most { IfSome result (λ number. number ≤ most) }
{
    match word.parse() {
        Ok(number) if 1 <= number && number <= most => Some(number),
        _ => None,
    }
}

// Has sites do their steps in turn, and counts.
fn count_in_turn(alloc: Global, sites: u16, steps: u32, counted: Counted) -> io::Result<u64>
    requires some { 1 ≤ steps }
    requires most { steps ≤ MOST_STEPS }
{
    let list = queue_list(alloc).ok_or(ErrorKind::OutOfMemory)?;
    let journals = match work_in_turn(alloc, &list, sites, steps) {
        Ok(journals) => journals,
        Err(error) => {
            drop(list);
            return Err(error);
        }
    };
    let count = match counted {
        Counted::Steps => Ok(steps_of(&journals)),
        Counted::Events => explain(alloc, &list, sites, &journals, false),
        Counted::Replayed => explain(alloc, &list, sites, &journals, true),
    };
    drop(journals);
    drop(list);
    count
}

// Runs the workload of this name by these words, and returns what it counts. `None` if they are wrong.
fn count<R: AllocGlobal + Threads + Wait + Sync>(
    rt: &R,
    kind: &str,
    words: &[String],
) -> Option<io::Result<u64>> {
    match words {
        [sites, steps] => {
            let counted = match kind {
                "journals" => Counted::Steps,
                "audit" => Counted::Events,
                "world" => Counted::Replayed,
                _ => return None,
            };
            let sites = number(sites, MOST_SITES)? as u16;
            let steps = number(steps, MOST_STEPS)?;
            Some(count_in_turn(rt.alloc(), sites, steps, counted))
        }
        [runs, sites, asks] if kind == "threads" => {
            let runs = number(runs, MOST_RUNS)?;
            let sites = number(sites, MOST_SITES)? as u16;
            let asks = number(asks, MOST_STEPS)?;
            Some(run_often(rt, runs, sites, asks))
        }
        _ => None,
    }
}

// Runs the workload of this name by these words, prints what it counts, and returns the exit status. `None` if they are wrong.
pub(crate) fn run<R: AllocGlobal + Print + Threads + Wait + Sync>(
    rt: &R,
    kind: &str,
    words: &[String],
) -> io::Result<Option<u8>> {
    let Some(count) = count(rt, kind, words) else {
        return Ok(None);
    };
    let count = count?;
    let what = match kind {
        "journals" => "steps",
        "threads" => "runs",
        _ => "events",
    };
    println!(rt; "{count} {what}")?;
    Ok(Some(0))
}

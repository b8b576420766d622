//! Sites in threads, whose links lose, repeat and hold back frames.
ghost use Rattle.std.specs.List.{All};
ghost use Rattle.std.specs.Prelude.{◌<◌, ◌^◌, vec_len};

use crate::gate::CountingGate;
use crate::runs::asks::{queue_list, some_ask};
use crate::runs::errors::{check_settled, failed};
use crate::runs::explaining::{explain, report_alike};
use crate::runs::numbers::Numbers;
use replica::QueueList;
use site_worker::{Deed, Journaled, LinkPlan, SiteEnd, SiteWork, run_sites};
use status_report::Ask;
use std::alloc::Global;
use std::io::{self, ErrorKind};
use std::sync::Wait;
use std::thread::Threads;

// How many deeds a plan has at most.
const MOST_DEEDS: u64 = 8;

fn some_plan(alloc: Global, numbers: &mut Numbers) -> io::Result<LinkPlan> {
    let mut deeds = Vec::new(alloc);
    for _ in 0..numbers.below(MOST_DEEDS) {
        let deed = match numbers.below(4) {
            0 => Deed::Lose,
            1 => Deed::Twice,
            2 => Deed::Hold,
            _ => Deed::Deliver,
        };
        deeds.push(deed)?;
    }
    Ok(LinkPlan::new(deeds))
}

// Random asks.
fn some_asks(alloc: Global, numbers: &mut Numbers, count: u32) -> io::Result<Vec<Ask>> {
    let mut asks = Vec::new(alloc);
    for _ in 0..count {
        asks.push(some_ask(alloc, numbers)?)?;
    }
    Ok(asks)
}

// A list of random asks, and a random link plan.
fn some_work(
    alloc: Global,
    numbers: &mut Numbers,
    asks: u32,
) -> io::Result<SiteWork<CountingGate>> {
    let plan = some_plan(alloc, numbers)?;
    match some_asks(alloc, numbers, asks) {
        Ok(asks) => Ok(SiteWork {
            asks,
            plan,
            gate: CountingGate { calls: 0 },
        }),
        Err(error) => {
            drop(plan);
            Err(error)
        }
    }
}

// The works of `sites` sites.
fn some_works(
    alloc: Global,
    numbers: &mut Numbers,
    sites: u16,
    asks: u32,
) -> io::Result<Vec<SiteWork<CountingGate>>> {
    let mut works = Vec::new(alloc);
    for _ in 0..sites {
        works.push(some_work(alloc, numbers, asks)?)?;
    }
    Ok(works)
}

// The journal of a site that has done all its work, which the receipts of its passes have settled.
fn settled(alloc: Global, end: SiteEnd<CountingGate>) -> io::Result<Journaled>
    requires { vec_len end.receipts < 2 ^ 32 }
{
    let SiteEnd {
        journal,
        receipts,
        fault,
        gate,
    } = end;
    drop(gate);
    let settled = match fault {
        None => check_settled(alloc, &journal, receipts.as_slice()),
        Some(fault) => Err(failed(format!(in alloc; "a step wasn't done: {fault}"))),
    };
    drop(receipts);
    match settled {
        Ok(()) => Ok(journal),
        Err(error) => {
            drop(journal);
            Err(error)
        }
    }
}

// The journals of all sites.
fn all_settled(alloc: Global, ends: Vec<SiteEnd<CountingGate>>) -> io::Result<Vec<Journaled>>
    requires { All (λ end. vec_len end.receipts < 2 ^ 32) ends.items }
{
    let mut journals = Vec::new(alloc);
    for end in ends {
        journals.push(settled(alloc, end)?)?;
    }
    Ok(journals)
}

// Checks that all sites report as the first does, since each has taken a whole of each other.
fn compare(alloc: Global, journals: &[Journaled]) -> io::Result<()> {
    let Some((first, others)) = journals.split_first() else {
        return Ok(());
    };
    for other in others {
        if !report_alike(alloc, first.replica(), other.replica())? {
            let number = other.base().site().number();
            return Err(failed(format!(in alloc; "site {number} reports otherwise than the first")));
        }
    }
    Ok(())
}

// The journals of `sites` sites, each of which is asked `asks` times.
fn run_once<R: AllocGlobal + Threads + Wait + Sync>(
    rt: &R,
    numbers: &mut Numbers,
    list: &QueueList,
    sites: u16,
    asks: u32,
) -> io::Result<Vec<Journaled>> {
    let alloc = rt.alloc();
    let works = some_works(alloc, numbers, sites, asks)?;
    match run_sites(rt, alloc, list, works) {
        Ok(ends) => all_settled(alloc, ends),
        Err(fault) => Err(failed(format!(in alloc; "{fault}"))),
    }
}

// Runs `sites` sites `runs` times, each time with other asks and plans, and explains what they did. Returns the number of runs.
pub(crate) fn run_often<R: AllocGlobal + Threads + Wait + Sync>(
    rt: &R,
    runs: u32,
    sites: u16,
    asks: u32,
) -> io::Result<u64> {
    let alloc = rt.alloc();
    let list = queue_list(alloc).ok_or(ErrorKind::OutOfMemory)?;
    let mut numbers = Numbers::new(u64::from(runs));
    for _ in 0..runs {
        let journals = run_once(rt, &mut numbers, &list, sites, asks)?;
        let explained = match compare(alloc, &journals) {
            Ok(()) => explain(alloc, &list, sites, &journals, true),
            Err(error) => Err(error),
        };
        drop(journals);
        explained?;
    }
    Ok(u64::from(runs))
}

//! Sites that work in one thread.
ghost use Rattle.std.specs.Prelude.{◌≤◌};
ghost use Rattle.site_journal.specs.declared.journaled.TheConstants.{MOST_STEPS};

use crate::runs::asks::some_ask;
use crate::runs::errors::{OUT_OF_RANGE, check_settled, failed};
use crate::runs::numbers::Numbers;
use crate::site::at_journal::done_at;
use crate::site::deed::{Deed, NoReceipt};
use dots::{SharedBytes, SiteId};
use replica::{QueueList, Replica};
use site_journal::{DeskFault, Journaled, Receipt, StepDeed};
use std::alloc::Global;
use std::io::{self, ErrorKind};
use std::slice;

// A frame is taken while it is one of the last of this number; so it may be late, repeated or lost.
const LATEST: usize = 64;

// The journals of new sites, each of which is to do `steps` steps.
fn new_journals(
    alloc: Global,
    list: &QueueList,
    sites: u16,
    steps: u32,
) -> io::Result<Vec<Journaled>>
    requires some { 1 ≤ steps }
    requires most { steps ≤ MOST_STEPS }
{
    let mut journals = Vec::new(alloc);
    for number in 0..sites {
        let Some(site) = SiteId::new(number) else {
            return Err(io::Error::other(OUT_OF_RANGE));
        };
        let replica = Replica::new(alloc, site, list.copy()?);
        journals.push(Journaled::new(alloc, replica, steps)?)?;
    }
    Ok(journals)
}

// One of the latest frames, if there is one.
fn some_frame<'a>(numbers: &mut Numbers, frames: &'a [SharedBytes]) -> Option<&'a SharedBytes> {
    if frames.is_empty() {
        return None;
    }
    let latest = frames.len().min(LATEST);
    let back = numbers.below(latest as u64) as usize;
    frames.get(frames.len() - 1 - back)
}

// What a site does next.
fn some_deed(alloc: Global, numbers: &mut Numbers, frames: &[SharedBytes]) -> io::Result<Deed> {
    match numbers.below(256) {
        0 => Ok(Deed::Whole),
        1..=20 => Ok(Deed::Cut),
        21..=84 => match some_frame(numbers, frames) {
            Some(frame) => Ok(Deed::Take(frame.copy()?)),
            None => Ok(Deed::Cut),
        },
        _ => Ok(Deed::Ask(some_ask(alloc, numbers)?)),
    }
}

// Appends the frame that a step made, if it made one.
fn push_frame(frames: &mut Vec<SharedBytes>, deed: &StepDeed) -> io::Result<()> {
    let frame = match deed {
        StepDeed::Cut(Some(bytes)) => bytes.copy()?,
        StepDeed::Whole(bytes) => bytes.copy()?,
        _ => return Ok(()),
    };
    frames.push(frame)?;
    Ok(())
}

// Does the next step of the site at this place. The receipt of the step is appended to the site's list, and its frame, if it makes one,
// to those of all sites.
fn work(
    alloc: Global,
    journals: &mut Vec<Journaled>,
    lists: &mut Vec<Vec<Receipt>>,
    frames: &mut Vec<SharedBytes>,
    place: usize,
    numbers: &mut Numbers,
) -> io::Result<()> {
    let deed = some_deed(alloc, numbers, frames.as_slice())?;
    let done = match journals.get_mut(place) {
        Some(journal) => done_at(journal, &deed),
        None => Err(NoReceipt::Unknown),
    };
    drop(deed);
    let why = match done {
        Ok(receipt) => {
            let pushed = push_frame(frames, &receipt.deed);
            match lists.get_mut(place) {
                Some(list) => list.push(receipt)?,
                None => drop(receipt),
            }
            return pushed;
        }
        Err(why) => why,
    };
    match why {
        NoReceipt::Refused(DeskFault::Memory) => Err(io::Error::from(ErrorKind::OutOfMemory)),
        NoReceipt::Refused(fault) => Err(failed(format!(in alloc; "a step wasn't done: {fault}"))),
        _ => Err(io::Error::other("a step wasn't done")),
    }
}

// Has each site do a step, `steps` times. Their receipts are appended as one list for each site, and their frames to those of all sites.
fn take_turns(
    alloc: Global,
    journals: &mut Vec<Journaled>,
    lists: &mut Vec<Vec<Receipt>>,
    frames: &mut Vec<SharedBytes>,
    steps: u32,
) -> io::Result<()> {
    for _ in 0..journals.len() {
        lists.push(Vec::new(alloc))?;
    }
    let mut numbers = Numbers::new(u64::from(steps));
    for _ in 0..steps {
        for place in 0..journals.len() {
            work(alloc, journals, lists, frames, place, &mut numbers)?;
        }
    }
    Ok(())
}

// Checks that each journal is settled by its list of receipts.
fn settle_each(alloc: Global, journals: &[Journaled], lists: &[Vec<Receipt>]) -> io::Result<()> {
    for (journal, list) in journals.iter().zip(lists) {
        check_settled(alloc, journal, slice::from_ref(list))?;
    }
    Ok(())
}

// The journals of `sites` sites that have done `steps` steps each, in turn, as the receipts of their steps have settled them.
pub(crate) fn work_in_turn(
    alloc: Global,
    list: &QueueList,
    sites: u16,
    steps: u32,
) -> io::Result<Vec<Journaled>>
    requires some { 1 ≤ steps }
    requires most { steps ≤ MOST_STEPS }
{
    let mut journals = new_journals(alloc, list, sites, steps)?;
    let mut lists = Vec::new(alloc);
    let mut frames = Vec::new(alloc);
    let worked = take_turns(alloc, &mut journals, &mut lists, &mut frames, steps);
    drop(frames);
    let settled = match worked {
        Ok(()) => settle_each(alloc, &journals, &lists),
        Err(error) => Err(error),
    };
    drop(lists);
    match settled {
        Ok(()) => Ok(journals),
        Err(error) => {
            drop(journals);
            Err(error)
        }
    }
}

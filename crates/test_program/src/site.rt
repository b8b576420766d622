//! Runs lines of standard input at one site: `journal|desk SITE LIMIT QUEUE..`.
//!
//! The site has the number SITE, 0 to 63, and the named queues, in that order, and is new. Its journal holds at most LIMIT steps, 1
//! to 1,000,000. The lines run at the journal itself, or by one pass of a desk over it. Empty lines and `#` lines give nothing.
//!
//! - `add QUEUE INTERFACE PENALTY`, `remove QUEUE INTERFACE`, `completed QUEUE`, `abandoned QUEUE` ask for the command; `status` for the
//!   status of all queues; `gated` for it with a gate (desk).
//! - `cut` and `whole` make that frame. `take BYTES` takes the frame in hexadecimal, `fronts BYTES` each proper prefix of it, the empty
//!   one first.
//! - `checkpoint` drops the steps; `above N` does if they keep more than N bytes (desk): `dropped` or `stays`.
//!
//! A step at position N writes `step N: ` and `done`, `refused` and the refusal, `report` and its bytes, `taken`, `nothing`, or `frame`
//! and its bytes. Without a step it writes `refused` and the fault; after a refused allocation `memory`, and does the line again;
//! `changed` if a refusal changed what the site says or how many steps and bytes its journal has (journal), the gate wasn't called once
//! (desk), or bytes did not come back. Other lines are `not understood`. At the end it writes `settled`, or why not, and the numbers of
//! steps done and dropped.
ghost use Rattle.std.specs.Prelude.{◌≡◌, IfSome};
ghost use Rattle.site_journal.specs.Journals.{IsOfSite};

mod at_desk;
pub(crate) mod at_journal;
pub(crate) mod deed;
mod line;
mod saying;

use crate::queues::queue_list;
use crate::site::at_desk::DeskPlace;
use crate::site::deed::Place;
use crate::site::line::give_line;
use dots::SiteId;
use replica::Replica;
use site_desk::{Pass, SiteDesk, SiteLedger, close};
use site_journal::{Journaled, MOST_STEPS, Receipt, settle};
use std::alloc::Global;
use std::io::{self, ErrorKind, Write};
use std::marker::Brand;
use std::slice;
use std::sync::Wait;
use std::sync::ledger::Blank;

// Where the lines are done.
#[derive(Clone, Copy)]
pub(crate) enum Where {
    Journal,
    Desk,
}

// The place, and the words of the command line.
#[derive(Clone, Copy)]
struct Arguments<'a> {
    at: Where,
    words: &'a [String],
}

// The journal of a new site, by the words of the command line. `None` if they are wrong, or memory ran out.
fn journal(alloc: Global, arguments: &Arguments<'_>) -> Option<Journaled>
    ensures begun { IfSome result (λ journal. journal.count ≡ 0) }
    ensures site { IfSome result (λ journal.
        IsOfSite journal.base.site journal.base.names journal) }
{
    let words = arguments.words;
    let [site, limit, queues @ ..] = words else {
        return None;
    };
    let site = SiteId::new(site.parse().ok()?)?;
    let limit = limit.parse::<u32>().ok()?;
    if limit < 1 || limit > MOST_STEPS {
        return None;
    }
    let list = queue_list(alloc, queues)?;
    match Journaled::new(alloc, Replica::new(alloc, site, list), limit) {
        Ok(journal) => Some(journal),
        Err(_) => None,
    }
}

// Does each line of standard input at a place. The receipts of the steps are appended to the others.
fn give_lines<R: AllocGlobal + Input, W: Write, P: Place<R>>(
    rt: &R,
    out: &mut W,
    place: &mut P,
    receipts: &mut Vec<Receipt>,
) -> io::Result<()> {
    for line in rt.lines(rt.alloc()) {
        let line = line?;
        let given = give_line(rt, rt.alloc(), out, place, receipts, line.as_str());
        drop(line);
        given?;
    }
    Ok(())
}

// Writes whether the receipts of all lines settle the journal, and how many steps it has had, unless the lines ended with an error.
fn end<W: Write>(
    out: &mut W,
    journal: Journaled,
    receipts: Vec<Receipt>,
    given: io::Result<()>,
) -> io::Result<()> {
    let settled = settle(&journal, slice::from_ref(&receipts));
    let (len, start) = (journal.len(), journal.start());
    drop(receipts);
    drop(journal);
    given?;
    match settled {
        Ok(()) => writeln!(out, "settled")?,
        Err(fault) => writeln!(out, "{fault:?}")?,
    }
    writeln!(out, "{len} steps, {start} of them dropped")
}

// Does all lines at a journal.
fn work_at_journal<R: AllocGlobal + Input, W: Write>(
    rt: &R,
    out: &mut W,
    journal: Journaled,
) -> io::Result<()> {
    let mut journal = journal;
    let mut receipts = Vec::new(rt.alloc());
    let given = give_lines(rt, out, &mut journal, &mut receipts);
    end(out, journal, receipts, given)
}

// Does all lines at a desk by its one pass.
fn work_by_pass<L: SiteLedger, R: AllocGlobal + Input + Wait, W: Write>(
    rt: &R,
    out: &mut W,
    desk: SiteDesk<L>,
    passes: Vec<Pass<L>>,
) -> io::Result<()> {
    let mut passes = passes;
    let mut receipts = Vec::new(rt.alloc());
    let given = match passes.first_mut() {
        Some(pass) => give_lines(rt, out, &mut DeskPlace::new(&desk, pass), &mut receipts),
        None => Ok(()),
    };
    match close(desk, passes) {
        Ok(journal) => end(out, journal, receipts, given),
        Err(refused) => {
            drop(refused);
            drop(receipts);
            Err(io::Error::from(ErrorKind::Other))
        }
    }
}

// Does all lines at a new desk over a journal.
fn work_at_desk<L: SiteLedger, R: AllocGlobal + Input + Wait, W: Write>(
    rt: &R,
    out: &mut W,
    blank: Blank,
    journal: Journaled,
) -> io::Result<()>
    requires name { blank.name ≡ L.name }
    requires ledger { blank.parts ≡ L.parts }
    requires one { blank.parts ≡ 1 }
    requires begun { journal.count ≡ 0 }
    requires site { IsOfSite L.site L.names journal }
    requires limit { journal.limit ≡ L.limit }
    requires base { journal.base ≡ L.base }
{
    match SiteDesk::<L>::new(rt.alloc(), blank, journal, 1) {
        Ok((desk, passes)) => work_by_pass(rt, out, desk, passes),
        Err(refused) => {
            drop(refused);
            Err(io::Error::from(ErrorKind::OutOfMemory))
        }
    }
}

// Runs all lines by these words. `false`: there is no site with these queues and this limit.
fn work<R: AllocGlobal + Input + Wait, W: Write>(
    rt: &R,
    out: &mut W,
    arguments: &Arguments<'_>,
) -> io::Result<bool> {
    let Some(journal) = journal(rt.alloc(), arguments) else {
        return Ok(false);
    };
    match arguments.at {
        Where::Journal => work_at_journal(rt, out, journal)?,
        Where::Desk => work_at_desk::<Brand, R, W>(rt, out, Blank::new(1), journal)?,
    }
    Ok(true)
}

// Runs all lines at this place by the other words, and writes their results. `false` if the words are wrong.
pub(crate) fn run<R: AllocGlobal + Input + Wait, W: Write>(
    rt: &R,
    out: &mut W,
    at: Where,
    words: &[String],
) -> io::Result<bool> {
    work(rt, out, &Arguments { at, words })
}

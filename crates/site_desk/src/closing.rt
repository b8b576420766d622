ghost use Rattle.std.specs.List.{Any};
ghost use Rattle.std.specs.Prelude.{◌≡◌, ◌<◌, ◌↔◌, IfErr, IfOk, IsTrue, OnErr, OnOk, vec_len};
ghost use Rattle.replica.specs.Site.{IsSameSite};
ghost use Rattle.site_journal.specs.Journals.{IsOfSite};
ghost use Rattle.site_desk.specs.Passes.{AreAll, shares_of};

use crate::{CloseFault, Pass, SiteDesk, SiteLedger};
use site_journal::Journaled;
use std::sync::ledger::{Book, Ledger};

// Whether one of these passes has this number.
fn has_ordinal<L: Ledger>(passes: &[Pass<L>], ordinal: u32) -> bool
    ensures { IsTrue result ↔ Any (λ pass. pass.ordinal ≡ ordinal) passes.now }
{
    passes.iter().any(|pass| pass.ordinal() == ordinal)
}

// Whether these are all passes of a desk that has `number` of them.
fn are_all<L: Ledger>(passes: &[Pass<L>], number: u32) -> bool
    ensures { IsTrue result ↔ AreAll number passes.now }
{
    if passes.len() != number as usize {
        return false;
    }
    for ordinal in 0..number {
        if !has_ordinal(passes, ordinal) {
            return false;
        }
    }
    true
}

// Joins the shares of all passes of a ledger, at least one, and drops them with its book. They make up everything that the book
// has counted: a caller learns that from the contract alone.
fn join_shares<L: Ledger>(book: Book<L>, passes: Vec<Pass<L>>)
    requires all { vec_len passes ≡ L.parts }
    requires some { 0 < vec_len passes }
    ensures { shares_of passes.items ≡ book.total }
{
    let mut book = book;
    let mut passes = passes;
    let Some(first) = passes.pop() else {
        unreachable!();
    };
    let mut share = first.into_share();
    while let Some(pass) = passes.pop() {
        share.merge(pass.into_share());
    }
    book.audit(&mut share);
}

/// Closes a desk with its passes, and returns the journal of its site. The steps that were done in it are as many as the passes
/// have counted together. Takes no memory. `WrongPasses`, with everything returned to the caller, exactly where the number of one
/// of the desk's passes is missing or doubled.
pub fn close<L: SiteLedger>(
    desk: SiteDesk<L>,
    passes: Vec<Pass<L>>,
) -> Result<Journaled, (CloseFault, SiteDesk<L>, Vec<Pass<L>>)>
    ensures count { IfOk result (λ journal. journal.count ≡ shares_of passes.items) }
    ensures site { IfOk result (λ journal. IsOfSite L.site L.names journal) }
    ensures limit { IfOk result (λ journal. journal.limit ≡ L.limit) }
    // If no step was dropped, the journal's base is the one that the desk's journal began from.
    ensures begun { IfOk result (λ journal.
        journal.start ≡ 0 → IsSameSite L.base journal.base) }
    ensures all { OnOk result (AreAll desk.passes passes.items) }
    ensures wrong { OnErr result (AreAll desk.passes passes.items → ⊥) }
    ensures fault { IfErr result (λ refused. refused.0 ≡ CloseFault.WrongPasses) }
    ensures desk { IfErr result (λ refused. refused.1 ≡ desk) }
    ensures passes { IfErr result (λ refused. refused.2.items ≡ passes.items) }
{
    if !are_all(passes.as_slice(), desk.passes) {
        return Err((CloseFault::WrongPasses, desk, passes));
    }
    let SiteDesk { lock, .. } = desk;
    let (journal, book) = lock.into_inner().into_parts();
    join_shares(book, passes);
    Ok(journal)
}

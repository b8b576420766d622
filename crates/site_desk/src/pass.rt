ghost use Rattle.std.specs.Prelude.{◌≡◌, ◌≤◌, ◌+◌};
ghost use Rattle.dots.specs.declared.limits.TheConstants.{MOST_COUNT};
ghost use Rattle.site_desk.specs.Passes.{new_pass, one_more};

use std::marker::Model;
use std::sync::ledger::{Book, Ledger, Share};

/// One caller's right to a desk's steps. It has a number, counts the steps that it has done, and holds the journal's length after
/// its last one.
#[derive(Drop)]
pub struct Pass<L: Ledger> {
    ordinal: u32,
    share: Share<L>,
    seen: u64,
}

impl<L: Ledger> Model for Pass<L> {
    ghost use Rattle.std.specs.Prelude.{◌≡◌};
    ghost use Rattle.site_desk.specs.Passes.{PassState};

    ghost Value = { PassState };

    ghost view = { λ p. record { ordinal = p.ordinal; share = p.share.amount; seen = p.seen } };

    ghost invariant = { λ p. p.share.parts ≡ 1 };
}

impl<L: Ledger> Pass<L> {
    // The pass of this number, which has done nothing. Its share is one part of the ledger, and has counted nothing.
    pub(crate) fn new(ordinal: u32, share: Share<L>) -> Pass<L>
        requires part { share.parts ≡ 1 }
        requires nothing { share.amount ≡ 0 }
        ensures { result ≡ new_pass ordinal }
    {
        Pass {
            ordinal,
            share,
            seen: 0,
        }
    }

    /// Its number among the passes of its desk, from 0.
    pub fn ordinal(&self) -> u32
        ensures { result ≡ self.now.ordinal }
    {
        self.ordinal
    }

    /// The number of steps of the journal after this pass did its last one; 0 if it has done none.
    pub fn seen(&self) -> u64
        ensures { result ≡ self.now.seen }
    {
        self.seen
    }

    // Counts a step that it has done at this position, at most 2^40, and notes the length of the journal after it.
    pub(crate) fn count(&mut self, book: &mut Book<L>, position: u64)
        requires few { position ≤ MOST_COUNT }
        ensures pass { self.new ≡ one_more self.old position }
        ensures total { book.new.total ≡ book.old.total + 1 }
    {
        let Pass { share, seen, .. } = self;
        book.add(share, 1);
        *seen = position + 1;
    }

    // Its share of the ledger, which is one part.
    pub(crate) fn into_share(self) -> Share<L>
        ensures amount { result.amount ≡ self.share }
        ensures part { result.parts ≡ 1 }
    {
        let Pass { share, .. } = self;
        share
    }
}

//! The history of a site's steps. It exists in proofs alone; what threads share is its length, and prefixes of it that they have seen.
ghost use Rattle.std.specs.Prelude.{◌≡◌, ◌≤◌, ◌++◌, ◌∷◌, [], IsTrue, length};
ghost use mathlib.Core.List.{IsPrefix};
ghost use Rattle.site_desk.specs.Passes.{step_of};
ghost use Rattle.stored_desk.specs.Histories.{length_word};

use crate::StoredLedger;
use dots::MOST_COUNT;
use logbook::{Gain, Offer, Plain, Play, Rule, Seen, Start, Word};
use site_journal::{Receipt, Step};
use std::marker::{Model, PhantomData};

// The rule of a history: its word is its length.
pub(crate) struct HistoryRule;

impl Rule<Step, u64> for HistoryRule {
    ghost use Rattle.std.specs.Prelude.{[]};
    ghost use base.Fml.{ftrue};
    ghost use Rattle.stored_desk.specs.Histories.{IsCounted};

    ghost holds = { λ cells log. IsCounted cells log };

    ghost first = { [] };

    ghost hinted = { λ n log. Unit {0} };

    ghost shows = { λ log. [] };

    ghost keeps = { λ names log. ftrue };

    ghost moves = { λ ask before after answer. Unit {0} };
}

// Callers trade nothing.
pub(crate) struct NoTrade;

impl Gain<Step, u64> for NoTrade {
    ghost use base.Fml.{ftrue};

    ghost after = { λ names about answer. ftrue };
}

// A move that adds a step.
pub(crate) struct Append;

impl Play<Step, u64> for Append {
    ghost use Rattle.stored_desk.specs.Histories.{Appends};

    ghost then = { Appends };
}

// What the move adds: the step of a receipt.
impl Plain<Receipt, Step, u64> for Append {
    ghost use Rattle.std.specs.Prelude.{None};
    ghost use Rattle.site_desk.specs.Passes.{step_of};

    ghost ask = { λ receipt. step_of receipt };

    ghost state = { λ receipt. None };
}

/// A history without a step, which no ledger names yet. Contracts see which history it is (this project's own).
#[derive(Drop)]
pub struct NewHistory {
    word: Word<Step, u64, HistoryRule>,
    seen: Seen<Step, u64, HistoryRule>,
}

impl Model for NewHistory {
    ghost use Rattle.std.specs.Prelude.{◌≡◌, []};
    ghost use Rattle.logbook.specs.Pages.{Book, book_coded};
    ghost use Rattle.stored_desk.specs.Histories.{length_word};

    ghost Value = { Book };

    ghost view = { λ h. h.seen.book };

    ghost invariant = { λ h. (h.seen.log ≡ []) × (h.word ≡ length_word h.seen.book) };
}

impl NewHistory {
    /// A new history, without a step. It takes no memory.
    pub fn new() -> NewHistory {
        let (seen, mut first, _second) = Seen::open(Start::alone(), 0, 0);
        NewHistory {
            word: Word::tracked(0, &mut first),
            seen,
        }
    }

    // The right to add to the history, and its prefix without a step, under the ledger's name.
    pub(crate) fn named<L: StoredLedger>(self) -> (HistoryWriter<L>, HistoryPrefix<L>)
        requires { self ≡ L.history }
        ensures { result.1 ≡ [] }
    {
        let NewHistory { word, seen } = self;
        (
            HistoryWriter {
                word,
                of: PhantomData,
            },
            HistoryPrefix {
                len: 0,
                seen,
                of: PhantomData,
            },
        )
    }
}

// The right to add to a history.
#[derive(Drop)]
pub(crate) struct HistoryWriter<L: StoredLedger> {
    word: Word<Step, u64, HistoryRule>,
    of: PhantomData<L>,
    ghost word_is: { word ≡ length_word L.history },
}

// A prefix of a history that was seen. It is seen as its steps.
#[derive(Drop)]
pub(crate) struct HistoryPrefix<L: StoredLedger> {
    len: u64,
    seen: Seen<Step, u64, HistoryRule>,
    of: PhantomData<L>,
}

impl<L: StoredLedger> Model for HistoryPrefix<L> {
    ghost use Rattle.std.specs.Prelude.{◌≡◌, List, length};
    ghost use Rattle.site_journal.specs.declared.step.Step.{Step};

    ghost Value = { List Step };

    ghost view = { λ p. p.seen.log };

    ghost invariant = { λ p. (p.len ≡ length p.seen.log) × (p.seen.book ≡ L.history) };
}

impl<L: StoredLedger> HistoryPrefix<L> {
    // How many steps it has.
    pub fn len(&self) -> u64
        ensures { result ≡ length self.now }
    {
        self.len
    }

    // A copy.
    pub fn again(&self) -> HistoryPrefix<L>
        ensures { result ≡ self.now }
    {
        HistoryPrefix {
            len: self.len,
            seen: self.seen.again(),
            of: PhantomData,
        }
    }

    // Shows to the proof that of two prefixes of one history the longer begins with the shorter. It changes nothing.
    pub fn compare(&self, other: &HistoryPrefix<L>)
        ensures this { length self.now ≤ length other.now → IsPrefix self.now other.now }
        ensures that { length other.now ≤ length self.now → IsPrefix other.now self.now }
    {
        let mut both = self.seen.again();
        both.learn(&other.seen);
    }

    // Adds the step of a receipt to the history and to this prefix. Returns `false` where the history is longer than the prefix, or
    // has 2^40 steps: then it adds nothing, and no contract says which prefix this is.
    pub fn append(&mut self, writer: &HistoryWriter<L>, receipt: &Receipt) -> bool
        ensures { IsTrue result → self.new ≡ self.old ++ step_of receipt.now ∷ [] }
    {
        let len = self.len;
        if len >= MOST_COUNT {
            return false;
        }
        let mut offer: Offer<Step, u64, HistoryRule, NoTrade> = self
            .seen
            .plain::<NoTrade, Receipt, Append>(receipt);
        let mut pen = self.seen.no_pen();
        let found = writer
            .word
            .compare_exchange::<Append, NoTrade>(
                len,
                len + 1,
                &mut self.seen,
                &mut offer,
                &mut pen,
            );
        self.len = if found == len { len + 1 } else { found };
        found == len
    }
}

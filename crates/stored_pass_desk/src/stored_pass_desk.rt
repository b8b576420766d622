ghost use Rattle.std.specs.Prelude.{◌≡◌, ◌⊎◌, IfErr, IfOk, OnErr};
ghost use Rattle.stored_desk.specs.Failing.{Fails, HasDoneUnanswered};
ghost use Rattle.stored_pass_desk.specs.StoredPassDesks.{AnswersByStoredPass};

use serve::{Desk, DeskDown};
use site_desk::Pass;
use site_journal::{DeskFault, Receipt, StepDeed};
use status_report::{Answer, Ask};
use std::marker::Model;
use std::sync::Wait;
use stored_desk::{StepStore, StoredDesk, StoredLedger};

// How often the site is asked where its journal is full each time.
const MOST_TRIES: u32 = 100;

/// A desk for sessions that has their asks answered by a pass of a desk with a store. Contracts see it as its pass (this project's own).
#[derive(Drop)]
pub struct StoredPassDesk<'a, S: StepStore, L: StoredLedger> {
    desk: &'a StoredDesk<S, L>,
    pass: Pass<L>,
}

impl<'a, S: StepStore, L: StoredLedger> Model for StoredPassDesk<'a, S, L> {
    ghost use Rattle.site_desk.specs.Passes.{PassState};

    ghost Value = { PassState };

    ghost view = { λ d. d.pass };
}

impl<'a, S: StepStore, L: StoredLedger> StoredPassDesk<'a, S, L> {
    /// The desk that asks by this pass, which it keeps until it is given up. It takes no memory.
    pub fn new(desk: &'a StoredDesk<S, L>, pass: Pass<L>) -> StoredPassDesk<'a, S, L>
        ensures { result ≡ pass }
    {
        StoredPassDesk { desk, pass }
    }

    /// Gives up the desk for its pass.
    pub fn into_pass(self) -> Pass<L>
        ensures { result ≡ self.entry }
    {
        let StoredPassDesk { pass, .. } = self;
        pass
    }
}

// What the site answers, by this pass, once the answer is durable. Errors are those of `StoredDesk::call`; after `Unsaved` or `Memory` the
// ask may have been done.
fn answer_by<S: StepStore, L: StoredLedger, R: Wait>(
    rt: &R,
    desk: &StoredDesk<S, L>,
    pass: &mut Pass<L>,
    asked: &Ask,
) -> Result<Answer, DeskFault>
    ensures answered { IfOk result (λ answer.
        AnswersByStoredPass L.base pass.old asked.now answer pass.new) }
    ensures fails { IfErr result (λ fault. Fails L.base pass.old fault pass.new) }
{
    let settled = desk.call(rt, pass, asked)?;
    let Receipt { deed, .. } = settled.into_receipt();
    match deed {
        StepDeed::Asked(_, answer) => Ok(answer),
        _ => unreachable!(),
    }
}

// What the site answers, by this pass, once the answer is durable. Where its journal is full, all its steps are saved and dropped, and the
// site is asked again, 100 times in all, since other threads may have filled it meanwhile. `DeskDown`: another error of a call, an error of
// `StoredDesk::make_room`, or the journal was full each time. The ask may then have been done.
fn answer_with_room<S: StepStore, L: StoredLedger, R: Wait>(
    rt: &R,
    desk: &StoredDesk<S, L>,
    pass: &mut Pass<L>,
    asked: &Ask,
) -> Result<Answer, DeskDown>
    ensures answered { IfOk result (λ answer.
        AnswersByStoredPass L.base pass.old asked.now answer pass.new) }
    ensures fails { OnErr result
        ((pass.new ≡ pass.old) ⊎ HasDoneUnanswered L.base pass.old pass.new) }
{
    for _ in 0..MOST_TRIES {
        match answer_by(rt, desk, pass, asked) {
            Ok(answer) => return Ok(answer),
            Err(DeskFault::JournalFull) => {}
            Err(_) => return Err(DeskDown),
        }
        if desk.make_room(rt).is_err() {
            return Err(DeskDown);
        }
    }
    Err(DeskDown)
}

impl<'a, S: StepStore, L: StoredLedger, R: Wait> Desk<R> for StoredPassDesk<'a, S, L> {
    ghost answers = { λ old asked answer new.
        AnswersByStoredPass L.base old asked answer new };

    ghost refuses = { λ old asked new. (new ≡ old) ⊎ HasDoneUnanswered L.base old new };

    /// The site's answer, once it is durable. Where the site's journal is full, all its steps are saved and dropped, and the site is asked
    /// again, 100 times in all.
    ///
    /// `DeskDown`: a commit of the store has failed; or the desk is out of memory, for the answer, its commit or the drop; or the journal
    /// was full each time, or is shorter than the pass has seen. The ask may have been done, and nothing shows it to the client.
    fn ask(&mut self, rt: &R, asked: Ask) -> Result<Answer, DeskDown> {
        let answered = answer_with_room(rt, self.desk, &mut self.pass, &asked);
        drop(asked);
        answered
    }
}

ghost use Rattle.std.specs.Prelude.{◌≡◌, IfOk, OnErr};
ghost use Rattle.pass_desk.specs.PassDesks.{AnswersByPass};

use serve::{Desk, DeskDown};
use site_desk::{Pass, SiteDesk, SiteLedger};
use site_journal::DeskFault;
use status_report::{Answer, Ask};
use std::marker::Model;
use std::sync::Wait;

// How often the site is asked where its journal is full each time.
const MOST_TRIES: u32 = 100;

/// A desk for sessions that has their asks answered by a pass of a site's desk. Contracts see it as its pass (this project's own).
#[derive(Drop)]
pub struct PassDesk<'a, L: SiteLedger> {
    desk: &'a SiteDesk<L>,
    pass: Pass<L>,
}

impl<'a, L: SiteLedger> Model for PassDesk<'a, L> {
    ghost use Rattle.site_desk.specs.Passes.{PassState};

    ghost Value = { PassState };

    ghost view = { λ d. d.pass };
}

impl<'a, L: SiteLedger> PassDesk<'a, L> {
    /// The desk that asks by this pass, which it keeps until it is given up. It takes no memory.
    pub fn new(desk: &'a SiteDesk<L>, pass: Pass<L>) -> PassDesk<'a, L>
        ensures { result ≡ pass }
    {
        PassDesk { desk, pass }
    }

    /// Gives up the desk for its pass.
    pub fn into_pass(self) -> Pass<L>
        ensures { result ≡ self.entry }
    {
        let PassDesk { pass, .. } = self;
        pass
    }
}

// What the site answers, by this pass. Errors are those of `SiteDesk::answer`, in its order; they leave the pass as it was.
fn answer_by<L: SiteLedger, R: Wait>(
    rt: &R,
    desk: &SiteDesk<L>,
    pass: &mut Pass<L>,
    asked: &Ask,
) -> Result<Answer, DeskFault>
    ensures answered { IfOk result (λ answer.
        AnswersByPass L.site L.names pass.old asked.now answer pass.new) }
    ensures refused { OnErr result (pass.new ≡ pass.old) }
{
    let answer = desk.answer(rt, pass, asked)?;
    Ok(answer)
}

// What the site answers, by this pass. Where its journal is full, the journal's steps are dropped, and the site is asked again, 100 times in
// all, since other threads may have filled it meanwhile. `DeskDown`: another error of a call, out of memory for the drop, or the journal was
// full each time. The pass then stays as it was.
fn answer_with_room<L: SiteLedger, R: Wait>(
    rt: &R,
    desk: &SiteDesk<L>,
    pass: &mut Pass<L>,
    asked: &Ask,
) -> Result<Answer, DeskDown>
    ensures answered { IfOk result (λ answer.
        AnswersByPass L.site L.names pass.old asked.now answer pass.new) }
    ensures refused { OnErr result (pass.new ≡ pass.old) }
{
    for _ in 0..MOST_TRIES {
        match answer_by(rt, desk, pass, asked) {
            Ok(answer) => return Ok(answer),
            Err(DeskFault::JournalFull) => {}
            Err(_) => return Err(DeskDown),
        }
        if desk.checkpoint_if_full(rt).is_err() {
            return Err(DeskDown);
        }
    }
    Err(DeskDown)
}

impl<'a, L: SiteLedger, R: Wait> Desk<R> for PassDesk<'a, L> {
    ghost answers = { λ old asked answer new.
        AnswersByPass L.site L.names old asked answer new };

    ghost refuses = { λ old asked new. new ≡ old };

    /// The site's answer. Where its journal is full, the journal's steps are dropped, and the site is asked again, 100 times in all.
    ///
    /// `DeskDown`: out of memory, for the answer or for the drop; or the journal was full each time, or is shorter than the pass has seen.
    /// The ask was not done, and the pass is as before.
    fn ask(&mut self, rt: &R, asked: Ask) -> Result<Answer, DeskDown> {
        let answered = answer_with_room(rt, self.desk, &mut self.pass, &asked);
        drop(asked);
        answered
    }
}

ghost use Rattle.std.specs.Prelude.{◌≡◌};
ghost use Rattle.pass_desk.specs.RingingDesks.{inner_desk};

use replica::Command;
use serve::{Desk, DeskDown};
use site_desk::SiteBell;
use status_report::{Answer, Ask};
use std::sync::Wait;

// The least bytes of a report that rings. 1,000 shorter ones, as many as the journal of a server has steps, keep less than 64 MiB.
const LARGE_REPORT: usize = 65_536;

/// A desk that rings a site's bell at each answer of its own desk that changes the site or is lost, so that the change is sent, and at each
/// report of 64 KiB or more: the thread that hears the bell limits what the journal keeps. What it answers is what its own desk answers
/// (this project's own).
#[derive(Drop)]
pub struct RingingDesk<'a, D> {
    desk: D,
    bell: &'a SiteBell,
}

impl<'a, D> RingingDesk<'a, D> {
    /// A desk that rings this bell at answers of the other desk.
    pub fn new(desk: D, bell: &'a SiteBell) -> RingingDesk<'a, D>
        ensures { inner_desk result ≡ desk }
    {
        RingingDesk { desk, bell }
    }

    /// Gives up the desk for its own.
    pub fn into_inner(self) -> D
        ensures { result ≡ inner_desk self.entry }
    {
        let RingingDesk { desk, .. } = self;
        desk
    }
}

// Whether an answer rings.
fn rings(answer: &Answer) -> bool {
    match answer {
        Answer::Done => true,
        Answer::Refused(_) => false,
        Answer::Report(report) => report.as_slice().len() >= LARGE_REPORT,
    }
}

impl<'a, R: Wait, D: Desk<R>> Desk<R> for RingingDesk<'a, D> {
    ghost answers = { λ old asked answer new.
        D.answers (inner_desk old) asked answer (inner_desk new) };

    ghost refuses = { λ old asked new. D.refuses (inner_desk old) asked (inner_desk new) };

    /// The answer of its own desk, at which it may ring. If that removed a member, the bell notes it.
    ///
    /// `DeskDown`: that desk gives no answer. The bell rings, since the ask may be done.
    fn ask(&mut self, rt: &R, asked: Ask) -> Result<Answer, DeskDown> {
        let removes = matches!(asked, Ask::Command(Command::Remove { .. }));
        let answered = self.desk.ask(rt, asked);
        match &answered {
            Ok(Answer::Done) if removes => self.bell.ring_with_room(rt),
            Ok(answer) if rings(answer) => self.bell.ring(rt),
            Ok(_) => {}
            Err(_) => self.bell.ring(rt),
        }
        answered
    }
}

ghost use Rattle.std.specs.Prelude.{IfOk, OnErr};

use status_report::{Answer, Ask};
use thiserror::Error;

/// The desk gives no answer.
#[derive(Clone, Copy, Debug, PartialEq, Eq, Error)]
#[error("desk down")]
pub struct DeskDown;

/// A desk answers the asks of sessions: it is a site, or stands in front of one. `R` is the handle
/// that its calls take, where they wait for another thread; contracts of what is served over a desk
/// say nothing of it.
pub trait Desk<R> {
    ghost use Rattle.status_report.specs.declared.asks.Answer.{Answer};
    ghost use Rattle.status_report.specs.declared.asks.Ask.{Ask};

    /// The effect of an answer: from the desk's state before, an ask and this answer lead to the
    /// state after.
    ghost answers: { Self → Ask → Answer → Self → Type 0 };

    /// The effect of an ask without an answer: from the state before it leads to the state after.
    ghost refuses: { Self → Ask → Self → Type 0 };

    /// Answers an ask.
    ///
    /// `DeskDown`: the desk gives no answer; `refuses` says what has become of the ask, which may have been done.
    fn ask(&mut self, rt: &R, ask: Ask) -> Result<Answer, DeskDown>
        ensures answered { IfOk result (λ answer. answers self.old ask answer self.new) }
        ensures refused { OnErr result (refuses self.old ask self.new) };
}

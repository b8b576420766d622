ghost use Rattle.std.specs.Prelude.{◌≡◌, IfOk, IfErr};
ghost use Rattle.ami_session.specs.Checks.{answer_reply};

use crate::action::Action;
use crate::reply::{Response, message_reply};
use dots::{Bytes, Memory};
use status_report::Answer;
use std::alloc::Global;
use std::marker::Model;

/// A message whose reply waits for the site's answer.
#[derive(Drop)]
pub struct Pending {
    action: Action,
    says_yes: bool,
    action_id: Bytes,
}

impl Model for Pending {
    ghost use Rattle.ami_session.specs.Checks.{Waiting};

    ghost Value = { Waiting };

    ghost view = { λ p. record { action = p.action; says_yes = p.says_yes; id = p.action_id } };
}

impl Pending {
    // A message of this action and ActionID that waits; `says_yes`: its `Paused` does.
    pub(crate) fn new(action: Action, says_yes: bool, action_id: Bytes) -> Pending
        ensures { result ≡ record { action = action; says_yes = says_yes; id = action_id } }
    {
        Pending {
            action,
            says_yes,
            action_id,
        }
    }

    /// The reply with this answer: a report as its bytes, a refusal as the action's error text, and done as its success
    /// text. Fails only when out of memory; the message still waits then.
    pub fn answer(self, alloc: Global, answer: Answer) -> Result<Vec<u8>, (Memory, Pending)>
        ensures reply { IfOk result (λ bytes. bytes.items ≡ answer_reply self answer) }
        ensures waits { IfErr result (λ refused. refused.1 ≡ self) }
    {
        let (response, text) = match answer {
            Answer::Report(report) => {
                return match report.into_vec(alloc) {
                    Ok(bytes) => Ok(bytes),
                    Err(memory) => Err((memory, self)),
                };
            }
            Answer::Done => (Response::Success, self.action.success(self.says_yes)),
            Answer::Refused(refusal) => (Response::Error, self.action.refusal(refusal)),
        };
        match message_reply(alloc, response, &self.action_id, text.as_bytes()) {
            Ok(bytes) => Ok(bytes),
            Err(memory) => Err((memory, self)),
        }
    }
}

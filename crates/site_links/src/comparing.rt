ghost use Rattle.std.specs.Prelude.{◌≡◌, ◌++◌, ℕ, List, length};

use crate::log::{Roles, Total};
use crate::{LinkReceiver, LinkSender};

/// Drops both ends of one link, and returns how many items were sent and how many received. The received items are a prefix of the
/// sent ones.
pub fn compare(sender: LinkSender, receiver: LinkReceiver) -> (u64, u64)
    requires { receiver.link ≡ sender.link }
    ensures sent { result.0 ≡ length sender.sent }
    ensures received { result.1 ≡ length receiver.received }
    ensures front { (rest : List (List ℕ)) × (sender.sent ≡ receiver.received ++ rest) }
{
    let LinkSender {
        end,
        pass,
        sent,
        ..
    } = sender;
    let LinkReceiver {
        end: from,
        pass: reader,
        received,
        ..
    } = receiver;
    let mut pass = pass;
    end.absorb::<Roles>(&mut pass, reader);
    end.learn_as::<Total>(&mut pass);
    drop(from);
    (sent, received)
}

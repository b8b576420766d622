//! The logs of a link's passes, and the invariant that relates them to the items in the channel.
ghost use Rattle.std.specs.Prelude.{◌≡◌, ◌++◌, ◌∷◌, [], ◌≤◌, length};

use crossbeam_channel::protocol::{Join, Lesson, Outcome, Protocol, Split};
use dots::SharedBytes;
use std::collections::LinkedList;

/// The rights of a pass, and what it has sent and received. No value of it is made: it exists only in proofs.
pub struct Log {
    /// Whether it may send.
    pub sends: bool,
    /// Whether it may receive.
    pub receives: bool,
    /// All that it has sent, where it may.
    pub sent: LinkedList<SharedBytes>,
    /// All that it has received, where it may.
    pub received: LinkedList<SharedBytes>,
}

/// The invariant of a link: the sent items are the received ones, followed by those in the channel.
pub struct InOrder;

impl Protocol<SharedBytes, Log> for InOrder {
    ghost use Rattle.std.specs.Prelude.{true, []};
    ghost use Rattle.site_links.specs.Relaying.{IsRelayed, log};

    ghost holds = { IsRelayed };

    ghost first = { log true true [] [] };
}

/// One pass sends, and another receives.
pub struct Roles;

impl Split<Log> for Roles {
    ghost use Rattle.std.specs.Prelude.{true, false, []};
    ghost use Rattle.site_links.specs.Relaying.{log};

    ghost left = { λ v. log true false v.sent [] };

    ghost right = { λ v. log false true [] v.received };
}

impl Join<Log> for Roles {
    ghost use Rattle.std.specs.Prelude.{true, false, []};
    ghost use Rattle.site_links.specs.Relaying.{log};

    ghost both = { λ v w. log true true v.sent w.received };

    ghost spent = { log false false [] [] };
}

/// An item was sent.
pub struct Sent;

impl Outcome<SharedBytes, Log> for Sent {
    ghost use Rattle.site_links.specs.Relaying.{log};

    ghost then = { λ v x w. w ≡ log v.sends v.receives (v.sent ++ x ∷ []) v.received };
}

impl Lesson<SharedBytes, Log> for Sent {
    ghost fact = { λ v items. Unit {0} };
}

/// An item was received; no more were received than may be sent.
pub struct Received;

impl Outcome<SharedBytes, Log> for Received {
    ghost use Rattle.site_links.specs.Relaying.{log};
    ghost use Rattle.site_links.specs.declared.limits.TheConstants.{MOST_ITEMS};

    ghost then = { λ v x w. (w ≡ log v.sends v.receives v.sent (v.received ++ x ∷ []))
        × (length (v.received ++ x ∷ []) ≤ MOST_ITEMS) };
}

impl Lesson<SharedBytes, Log> for Received {
    ghost fact = { λ v items. Unit {0} };
}

/// The items in the channel are those that were sent and not yet received.
pub struct Total;

impl Lesson<SharedBytes, Log> for Total {
    ghost fact = { λ v items. v.sent ≡ v.received ++ items };
}

ghost use Rattle.std.specs.Prelude.{◌≡◌, IfOk, IsErrOf, IsOk};
ghost use Rattle.roll.specs.Rolls.{IsPeer};

use dots::SiteId;
use link_hello::{Card, Refusal};
use roll::Roll;
use std::sync::{Mutex, Wait};

/// The roll of a site, which the threads of its links share.
#[derive(Drop)]
pub struct SharedRoll {
    roll: Mutex<Roll>,
}

impl SharedRoll {
    /// A roll on which no store was seen.
    pub fn new() -> SharedRoll {
        SharedRoll {
            roll: Mutex::new(Roll::new()),
        }
    }

    /// Judges a peer's card by the roll, as `Roll::admit` does. `own` is this site's card. Errors are those of `Roll::admit`, in its order;
    /// `WrongSecret` is none of them.
    pub fn admit<R: Wait>(&self, rt: &R, own: &Card, card: &Card) -> Result<SiteId, Refusal>
        ensures site { IfOk result (λ site. site ≡ card.now.number) }
        ensures peer { IsOk result → IsPeer own.now card.now }
        ensures judged { IsErrOf result Refusal.WrongSecret → ⊥ }
    {
        self.roll.lock(rt).admit(own, card)
    }
}

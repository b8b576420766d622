ghost use Rattle.std.specs.Prelude.{◌≡◌, ◌+◌, ℕ, false, is_none, true};

use std::sync::{Mutex, Wait};

// How many clients a site still takes. A thread takes a ticket before it waits for a client, so that none waits for a client that it may
// not take.
#[derive(Drop)]
pub(crate) struct Tickets {
    // Whether there are tickets without end, so that none is counted.
    is_endless: bool,
    left: Mutex<u32>,
}

// Takes one of the tickets that are left. `false`: none is left.
fn take_one(left: &mut u32) -> bool
    ensures none { left.old ≡ 0 → (result ≡ false) × (left.new ≡ 0) }
    ensures one { (n : ℕ) → left.old ≡ n + 1 → (result ≡ true) × (left.new ≡ n) }
{
    if *left == 0 {
        return false;
    }
    *left -= 1;
    true
}

impl Tickets {
    // Tickets for this number of clients, or without end where it is `None`.
    pub fn new(clients: Option<u32>) -> Tickets
        ensures { result.is_endless ≡ is_none clients }
    {
        Tickets {
            is_endless: clients.is_none(),
            left: Mutex::new(clients.unwrap_or(0)),
        }
    }

    // Takes a ticket. `false`: none is left. Tickets without end always give one; that the others give just their number is tested.
    pub fn take<R: Wait>(&self, rt: &R) -> bool
        ensures { self.now.is_endless ≡ true → result ≡ true }
    {
        if self.is_endless {
            return true;
        }
        let mut left = self.left.lock(rt);
        take_one(&mut left)
    }
}

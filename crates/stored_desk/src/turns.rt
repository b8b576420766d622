//! Which waiting threads a commit serves. It changes only who wakes when: no contract says any of it.
use std::sync::Condvar;

// The turn in which a step was done. Each time steps are taken for a commit a turn ends, and the other one begins. So a step is saved by the
// commit that ends its turn, and all steps of one turn are saved at once.
#[derive(Clone, Copy)]
pub(crate) enum Turn {
    First,
    Second,
}

impl Turn {
    // The turn that begins when this one ends.
    pub fn next(self) -> Turn {
        match self {
            Turn::First => Turn::Second,
            Turn::Second => Turn::First,
        }
    }
}

// Where threads wait while another one has the store: by the turn of their steps, or apart.
#[derive(Drop)]
pub(crate) struct StoreReturns {
    first: Condvar,
    second: Condvar,
    others: Condvar,
}

impl StoreReturns {
    // No thread waits yet.
    pub fn new() -> StoreReturns {
        StoreReturns {
            first: Condvar::new(),
            second: Condvar::new(),
            others: Condvar::new(),
        }
    }

    // Where those wait whose step was done in this turn.
    pub fn of_turn(&self, turn: Turn) -> &Condvar {
        match turn {
            Turn::First => &self.first,
            Turn::Second => &self.second,
        }
    }

    // Where those wait who have no turn.
    pub fn others(&self) -> &Condvar {
        &self.others
    }

    // Wakes those whom the store concerns that has just come back, while this turn lasts. If the steps of the turn before are saved, all of
    // that turn wake, and then one of this turn, to do the next commit; else all wake, and one after another tries again.
    pub fn announce(&self, turn: Turn, are_saved: bool) {
        self.of_turn(turn.next()).notify_all();
        self.others.notify_all();
        if are_saved {
            self.of_turn(turn).notify_one();
        } else {
            self.of_turn(turn).notify_all();
        }
    }
}

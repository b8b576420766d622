ghost use Rattle.std.specs.Prelude.{◌≡◌, ℕ, List, map as each, IfOk};
ghost use Rattle.dots.specs.declared.call_totals.CallTotals.{CallTotals};
ghost use Rattle.operations.specs.Views.{listed_row_view};
ghost use Rattle.replica.specs.Site.{rows_of, sums_of};
ghost use Rattle.status_report.specs.Status.{Row as ShownRow};

use dots::{CallTotals, Interface, Memory};
use replica::{QueueList, Replica, Row};
use std::alloc::Global;

/// The source of a report: the queues of a site, with the totals of calls and the members' rows of each.
pub trait Queues {
    /// The names of the queues, in the order of their numbers.
    ghost names: { Self → List (List ℕ) };

    /// The totals of the queue of a number.
    ghost totals: { Self → ℕ → CallTotals };

    /// The rows of the queue of a number, in the order of the interfaces' bytes.
    ghost rows: { Self → ℕ → List ShownRow };

    /// The queues.
    fn list(&self) -> &QueueList
        ensures { result.now ≡ names self.now };

    /// The number of calls of the queue of this number that were completed, and that were abandoned.
    fn totals(&self, number: u16) -> CallTotals
        ensures { result ≡ totals self.now number };

    /// The members of the queue of this number with their rows, in the order of their interfaces' bytes. Fails
    /// only when out of memory.
    fn rows(&self, alloc: Global, number: u16) -> Result<Vec<(&Interface, Row<'_>)>, Memory>
        ensures { IfOk result
            (λ listed. each listed_row_view listed.items ≡ rows self.now number) };
}

// What a replica shows.
impl Queues for Replica {
    ghost names = { λ r. r.names };

    ghost totals = { λ r. sums_of r };

    ghost rows = { λ r. rows_of r };

    fn list(&self) -> &QueueList {
        self.list()
    }

    fn totals(&self, number: u16) -> CallTotals {
        self.totals(number)
    }

    fn rows(&self, alloc: Global, number: u16) -> Result<Vec<(&Interface, Row<'_>)>, Memory> {
        let mut listed = Vec::new(alloc);
        for row in self.rows(number) {
            listed.push(row)?;
        }
        Ok(listed)
    }
}

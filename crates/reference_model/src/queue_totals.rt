ghost use Rattle.std.specs.Prelude.{◌≡◌, ◌≤◌};
ghost use Rattle.operations.specs.Counts.{site_total, queue_total};
ghost use Rattle.status_report.specs.Knowing.{totals_in};
ghost use Rattle.reference_model.specs.Plain.{knowledge_of};

use crate::{CallTotals, Calls, Operation};
use dots::{MOST_CALLS, SITES};

/// How many calls of the queue of this number were completed, and how many abandoned: of each kind the sum over all sites of
/// the greatest number that an operation says of the site (RR-7506's grow-only counter).
pub fn totals(operations: &[Operation], queue: u16) -> CallTotals
    ensures { result ≡ totals_in (knowledge_of operations.now) queue }
{
    CallTotals {
        completed: queue_total(operations, queue, Calls::Completed),
        abandoned: queue_total(operations, queue, Calls::Abandoned),
    }
}

// How many calls of a kind were counted in a queue: the sum over all sites.
fn queue_total(operations: &[Operation], queue: u16, calls: Calls) -> u64
    ensures { result ≡ queue_total (knowledge_of operations.now) queue calls }
{
    let mut sum = 0;
    for site in 0..SITES {
        sum += site_total(operations, site, queue, calls);
    }
    sum
}

// How many calls of a kind a site has counted in a queue: the greatest number that an operation says; 0 where none says any.
pub(crate) fn site_total(operations: &[Operation], site: u16, queue: u16, calls: Calls) -> u64
    ensures value { result ≡ site_total (knowledge_of operations.now) site queue calls }
    ensures limit { result ≤ MOST_CALLS }
{
    let mut total = 0;
    for operation in operations {
        total = operation.counted(site, queue, calls).max(total);
    }
    total
}

ghost use Rattle.std.specs.Prelude.{◌≡◌, IfOk};
ghost use Rattle.operations.specs.Rows.{dot_view, rows_of};
ghost use Rattle.status_report.specs.Knowing.{status_in, totals_in};
ghost use Rattle.reference_model.specs.Plain.{knowledge_of};

use crate::Operation;
use dots::{CallTotals, Interface, Memory};
use replica::{QueueList, Row};
use status_report::{Queues, StatusRequest, write_report};
use std::alloc::Global;

// The queues, and all operations that a site knows.
#[derive(Drop)]
struct Known<'a> {
    list: &'a QueueList,
    operations: &'a [Operation],
}

impl Queues for Known<'_> {
    ghost names = { λ k. k.list.now };

    ghost totals = { λ k. totals_in (knowledge_of k.operations.now) };

    ghost rows = { λ k. rows_of (dot_view (knowledge_of k.operations.now)) };

    fn list(&self) -> &QueueList {
        self.list
    }

    fn totals(&self, number: u16) -> CallTotals {
        crate::totals(self.operations, number)
    }

    fn rows(&self, alloc: Global, number: u16) -> Result<Vec<(&Interface, Row<'_>)>, Memory> {
        crate::rows(alloc, self.operations, number)
    }
}

/// The report of what the operations show (Asterisk's QueueStatus): the queues of the list that the request selects,
/// each with its totals and its members' rows. Fails only when out of memory.
pub fn status(
    alloc: Global,
    operations: &[Operation],
    list: &QueueList,
    request: &StatusRequest,
) -> Result<Vec<u8>, Memory>
    ensures { IfOk result
        (λ out. out.items ≡ status_in (knowledge_of operations.now) list.now request.now) }
{
    write_report(alloc, &Known { list, operations }, request)
}

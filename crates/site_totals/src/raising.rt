// Counts one more call in totals.
ghost use Rattle.std.specs.Prelude.{◌≡◌, ◌+◌, ◌<◌, ◌^◌};
ghost use Rattle.site_totals.specs.Raising.{number_of, one_more};

use crate::{CallTotals, Calls};
use dots::MOST_CALLS;

// The number of these calls.
pub(crate) fn number_of(calls: Calls, totals: CallTotals) -> u64
    ensures { result ≡ number_of calls totals }
{
    match calls {
        Calls::Completed => totals.completed,
        Calls::Abandoned => totals.abandoned,
    }
}

// The totals with one more of these calls.
pub(crate) fn one_more(calls: Calls, totals: CallTotals) -> CallTotals
    requires { number_of calls totals < MOST_CALLS }
    ensures { result ≡ one_more calls totals }
{
    let mut more = totals;
    match calls {
        Calls::Completed => more.completed += 1,
        Calls::Abandoned => more.abandoned += 1,
    }
    more
}

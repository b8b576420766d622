//! Whether a delta would be too full with one operation more, whose dot or stamp has no number left.
ghost use Rattle.std.specs.Prelude.{◌≡◌, ◌≤◌, ◌+◌};
ghost use Rattle.replica.specs.Fitting.{is_past_with};

use causal_context::Context;
use delta::Delta;
use dots::{MOST_COUNT, MOST_LIVE, MOST_RUNS, SiteId};

// Whether a delta would have too many live dots or runs, if the dots of a context were dead there, `more` others were live,
// and the dot of a site and a count were known too. The count may be one past the greatest.
pub(crate) fn is_full_with(
    delta: &Delta,
    dead: &Context,
    more: usize,
    site: SiteId,
    count: u64,
) -> bool
    requires least { 1 ≤ count }
    requires most { count ≤ MOST_COUNT + 1 }
    requires few { more ≤ MOST_LIVE }
    ensures { result
        ≡ is_past_with delta.now dead.now.dots more (record { site = site; count = count }) }
{
    let members = delta.members();
    members.live_without(dead) > MOST_LIVE - more
        || members.context().runs_with(dead, site, count) > MOST_RUNS as u64
}

//! The dead dots of a site.
ghost use Rattle.std.specs.Prelude.{◌≡◌, ◌<◌, ◌↔◌, IfOk, IsTrue};
ghost use Rattle.std.specs.FinMap as map;
ghost use Rattle.dots.specs.Orders.{dot_cmp};
ghost use Rattle.dots.specs.DotSets.{run_count};
ghost use Rattle.member_orset.specs.LiveDots.{dead_dots};
ghost use Rattle.live_cells.specs.PlacedLists.{is_placed};

use crate::gathered::Gathered;
use crate::given_dots::GivenDots;
use crate::known_runs::KnownRuns;
use crate::site_walk::gather_site;
use causal_context::{Context, ContextFault};
use dots::{Dot, MOST_COUNT, MOST_RUNS, SiteId};
use live_cells::PlacedDots;
use std::alloc::Global;

// The dots of a site that a context has and that aren't live. Errors, in order: 1 `RunsFull`,
// exactly where they make more than 65,536 runs; 2 `Memory`.
pub(crate) fn gather_dead(
    alloc: Global,
    context: &Context,
    dots: PlacedDots<'_>,
    site: SiteId,
) -> Result<Context, ContextFault>
    ensures ok { IfOk result
        (λ dead. dead.dots ≡ dead_dots context.now.dots (is_placed dots.entry.list.now) site) }
    ensures full { (result ≡ Err ContextFault.RunsFull)
        ↔ (MOST_RUNS
        < run_count (dead_dots context.now.dots (is_placed dots.entry.list.now) site)) }
{
    let runs = KnownRuns::of(context);
    let mut gathered = Gathered::none(alloc);
    let Some(last) = Dot::new(site, MOST_COUNT) else {
        return gathered.finish();
    };
    gather_site(&mut gathered, runs, dots, GivenDots::of(&[]), last);
    gathered.finish()
}

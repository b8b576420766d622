//! The dots seen below given ones: these, with the dead dots that are older.
ghost use Rattle.std.specs.Prelude.{◌≡◌, ◌<◌, ◌≤◌, ◌↔◌, IfOk, IsTrue};
ghost use Rattle.std.specs.List.{All};
ghost use Rattle.std.specs.FinMap as map;
ghost use Rattle.dots.specs.Orders.{dot_cmp};
ghost use Rattle.dots.specs.DotSets.{run_count};
ghost use Rattle.live_cells.specs.PlacedLists.{is_placed};
ghost use Rattle.member_orset.specs.Reads.{seen_dots};

use crate::gathered::Gathered;
use crate::given_dots::GivenDots;
use crate::known_runs::KnownRuns;
use crate::site_walk::gather_site;
use causal_context::{Context, ContextFault};
use dots::{Dot, MOST_RUNS, SITES, SiteId};
use live_cells::PlacedDots;
use std::alloc::Global;

// The range of the sites of the given dots: from the first number on, and below the second.
// It is empty if there are none.
fn sites_of(given: &[Dot]) -> (u16, u16)
    ensures first { All (λ d. result.0 ≤ d.site) given.now }
    ensures end { All (λ d. d.site < result.1) given.now }
    ensures limit { result.1 ≤ SITES }
{
    let mut first = SITES;
    let mut end: u16 = 0;
    for dot in given {
        let site = dot.site();
        let number = site.number();
        first = first.min(number);
        end = end.max(number + 1);
    }
    (first, end)
}

// The given dots, with all that are dead here and older than a given one of their site.
// Errors, in order: 1 `RunsFull`, exactly where they make more than 65,536 runs; 2
// `Memory`.
pub(crate) fn gather(
    alloc: Global,
    context: &Context,
    dots: PlacedDots<'_>,
    given: GivenDots<'_>,
) -> Result<Context, ContextFault>
    ensures ok { IfOk result (λ seen. seen.dots
        ≡ seen_dots context.now.dots (is_placed dots.entry.list.now) given.entry.list.now) }
    ensures full { (result ≡ Err ContextFault.RunsFull)
        ↔ (MOST_RUNS < run_count
        (seen_dots context.now.dots (is_placed dots.entry.list.now) given.entry.list.now)) }
{
    let runs = KnownRuns::of(context);
    let mut gathered = Gathered::none(alloc);
    let (first, end) = sites_of(given.list);
    for number in first..end {
        let Some(site) = SiteId::new(number) else {
            return gathered.finish();
        };
        let Some(last) = Dot::new(site, given.greatest(site)) else {
            continue; // none of its dots is given, so that nothing was seen of it
        };
        gather_site(&mut gathered, runs, dots, given, last);
    }
    gathered.finish()
}

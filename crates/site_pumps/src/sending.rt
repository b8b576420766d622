//! Items that are sent on all outlets alike.
ghost use Rattle.std.specs.Prelude.{◌∷◌, [], OnErr, OnOk};
ghost use Rattle.site_pumps.specs.Carried.{EachLink};
ghost use Rattle.site_pumps.specs.Outlets.{OutletBegins, OutletRun};

use crate::Outlet;
use dots::{Memory, SharedBytes};

// Sends an item on each outlet. Fails only when out of memory; then the first
// outlets may have been given it.
pub(crate) fn send_item<R, O: Outlet<R>>(
    rt: &R,
    outlets: &mut [O],
    item: &SharedBytes,
) -> Result<(), Memory>
    ensures ok { OnOk result
        (EachLink (OutletRun O.given (item.now ∷ [])) outlets.old outlets.new) }
    ensures err { OnErr result
        (EachLink (OutletBegins O.given (item.now ∷ [])) outlets.old outlets.new) }
{
    for i in 0..outlets.len() {
        outlets[i].send(rt, item)?;
    }
    Ok(())
}

// Sends all of these items in their order, each on every outlet. Fails only when
// out of memory; then each outlet was given a prefix of them.
pub(crate) fn send_each<R, O: Outlet<R>>(
    rt: &R,
    outlets: &mut [O],
    items: &[SharedBytes],
) -> Result<(), Memory>
    ensures ok { OnOk result
        (EachLink (OutletRun O.given items.now) outlets.old outlets.new) }
    ensures err { OnErr result
        (EachLink (OutletBegins O.given items.now) outlets.old outlets.new) }
{
    for item in items {
        send_item(rt, outlets, item)?;
    }
    Ok(())
}

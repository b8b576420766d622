ghost use Rattle.std.specs.Prelude.{◌≡◌, ◌∷◌, [], OnErr, OnOk};
ghost use Rattle.site_pumps.specs.Carried.{Carries};

use dots::{Memory, SharedBytes};
use site_links::LinkSender;
use std::sync::Wait;

/// An end that sends a site's frames to another site, as a pump sees it (this project's own).
pub trait Outlet<R> {
    ghost use Rattle.std.specs.Prelude.{ℕ, List};

    /// `given old item new`: the outlet is given the bytes `item` to send, which leads it from `old` to `new`. An outlet that is down drops
    /// them.
    ghost given: { Self → List ℕ → Self → Type 0 };

    /// Sends the bytes `item`, or drops them if the outlet is down. Fails only when out of memory, and then sends nothing.
    fn send(&mut self, rt: &R, item: &SharedBytes) -> Result<(), Memory>
        ensures given { OnOk result (given self.old item.now self.new) }
        ensures err { OnErr result (self.new ≡ self.old) };
}

// Sends an item on a link, and waits while it is full. A link that is down, or is found down, drops it. Fails only when out of memory, and
// then sends nothing.
fn send_on<R: Wait>(rt: &R, link: &mut LinkSender, item: &SharedBytes) -> Result<(), Memory>
    ensures ok { OnOk result (Carries (item.now ∷ []) link.old link.new) }
    ensures err { OnErr result (link.new ≡ link.old) }
{
    if link.down() {
        return Ok(());
    }
    let copy = item.copy()?;
    let _ = link.send(rt, copy);
    Ok(())
}

impl<R: Wait> Outlet<R> for LinkSender {
    ghost use Rattle.site_pumps.specs.Outlets.{SenderGiven};

    ghost given = { SenderGiven };

    fn send(&mut self, rt: &R, item: &SharedBytes) -> Result<(), Memory> {
        send_on(rt, self, item)
    }
}

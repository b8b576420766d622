ghost use Rattle.std.specs.Prelude.{◌≡◌, ◌≤◌, [], IfOk, false};
ghost use Rattle.site_links.specs.declared.limits.TheConstants.{MOST_CAPACITY};

use crate::log::{InOrder, Log, Roles};
use crate::{LinkReceiver, LinkSender};
use crossbeam_channel::bounded_with;
use dots::{Memory, SharedBytes};
use std::alloc::Global;

/// A link from one site to another: it carries items of bytes in order, from its sender to its receiver (this project's own). A link is
/// used through its two ends alone, so no value of this type is made.
pub enum Link {}

impl Link {
    /// Both ends of a new link, which holds at most `capacity` items that were sent and not yet received, 1 to 1,024. Fails only when
    /// out of memory.
    pub fn pair(alloc: Global, capacity: usize) -> Result<(LinkSender, LinkReceiver), Memory>
        requires some { 1 ≤ capacity }
        requires most { capacity ≤ MOST_CAPACITY }
        ensures one { IfOk result (λ both. both.1.link ≡ both.0.link) }
        ensures holds { IfOk result (λ both. both.0.link.capacity ≡ capacity) }
        ensures sender { IfOk result (λ both. (both.0.sent ≡ []) × (both.0.down ≡ false)) }
        ensures receiver { IfOk result (λ both.
            (both.1.received ≡ []) × (both.1.ended ≡ false)) }
    {
        let (to, from, mut writer) = bounded_with::<SharedBytes, Log, InOrder, Global>(
            alloc, capacity,
        )?;
        let reader = to.another::<Roles>(&mut writer);
        let sender = LinkSender {
            end: to,
            pass: writer,
            sent: 0,
            is_down: false,
        };
        let receiver = LinkReceiver {
            end: from,
            pass: reader,
            received: 0,
            has_ended: false,
        };
        Ok((sender, receiver))
    }
}

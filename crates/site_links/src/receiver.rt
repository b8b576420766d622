ghost use Rattle.std.specs.Prelude.{◌≡◌, ◌++◌, ◌∷◌, [], IfNone, IfSome, IsNone, true};

use crate::log::{InOrder, Log, Received};
use crossbeam_channel::{Pass, RuledReceiver};
use dots::SharedBytes;
use std::marker::Model;
use std::sync::Wait;

/// The end of a link that receives.
#[derive(Drop)]
pub struct LinkReceiver {
    pub(crate) end: RuledReceiver<SharedBytes, Log, InOrder>,
    pub(crate) pass: Pass<SharedBytes, Log>,
    pub(crate) received: u64,
    pub(crate) has_ended: bool,
}

impl Model for LinkReceiver {
    ghost use Rattle.std.specs.Prelude.{◌≡◌, ◌≤◌, true, length};
    ghost use Rattle.crossbeam_channel.specs.Claims.{IsSeatAt};
    ghost use Rattle.crossbeam_channel.specs.Ends.{receives_on};
    ghost use Rattle.site_links.specs.Links.{Receiving, known_of, link_of};
    ghost use Rattle.site_links.specs.declared.limits.TheConstants.{MOST_ITEMS};

    ghost Value = { Receiving };

    ghost view = { λ r. record {
      link = link_of (receives_on r.end);
      received = (known_of r.pass).received;
      ended = r.has_ended;
    } };

    ghost invariant = { λ r. IsSeatAt (receives_on r.end) r.pass
        × ((known_of r.pass).receives ≡ true)
        × (r.received ≡ length (known_of r.pass).received) × (r.received ≤ MOST_ITEMS) };
}

impl LinkReceiver {
    /// Waits for the next item. `None` if none is left and the sender is dropped: then the link has ended, and every later call
    /// returns `None`.
    pub fn recv<R: Wait>(&mut self, rt: &R) -> Option<SharedBytes>
        ensures received { IfSome result (λ bytes.
            self.new ≡ record self.old { received = self.old.received ++ bytes ∷ [] }) }
        ensures ended { IfNone result (self.new ≡ record self.old { ended = true }) }
        ensures stays { self.old.ended ≡ true → IsNone result }
    {
        if self.has_ended {
            return None;
        }
        let LinkReceiver {
            end,
            pass,
            received,
            has_ended,
        } = self;
        match end.recv_as::<Received, R>(rt, pass) {
            Ok(bytes) => {
                *received += 1;
                Some(bytes)
            }
            Err(_) => {
                *has_ended = true;
                None
            }
        }
    }

    /// Whether a receive has found the link's end. Takes no memory.
    pub fn ended(&self) -> bool
        ensures { result ≡ self.now.ended }
    {
        self.has_ended
    }
}

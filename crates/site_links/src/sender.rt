ghost use Rattle.std.specs.Prelude.{◌≡◌, ◌++◌, ◌∷◌, [], IfErr, IsErr, OnErr, OnOk, true};

use crate::MOST_ITEMS;
use crate::log::{InOrder, Log, Sent};
use crossbeam_channel::{Pass, RuledSender};
use dots::SharedBytes;
use std::marker::Model;
use std::sync::Wait;

/// The end of a link that sends.
#[derive(Drop)]
pub struct LinkSender {
    pub(crate) end: RuledSender<SharedBytes, Log, InOrder>,
    pub(crate) pass: Pass<SharedBytes, Log>,
    pub(crate) sent: u64,
    pub(crate) is_down: bool,
}

impl Model for LinkSender {
    ghost use Rattle.std.specs.Prelude.{◌≡◌, ◌≤◌, true, length};
    ghost use Rattle.crossbeam_channel.specs.Claims.{IsSeatAt};
    ghost use Rattle.crossbeam_channel.specs.Ends.{sends_on};
    ghost use Rattle.site_links.specs.Links.{Sending, known_of, link_of};
    ghost use Rattle.site_links.specs.declared.limits.TheConstants.{MOST_ITEMS};

    ghost Value = { Sending };

    ghost view = { λ s. record {
      link = link_of (sends_on s.end);
      sent = (known_of s.pass).sent;
      down = s.is_down;
    } };

    ghost invariant = { λ s. IsSeatAt (sends_on s.end) s.pass × ((known_of s.pass).sends ≡ true)
        × (s.sent ≡ length (known_of s.pass).sent) × (s.sent ≤ MOST_ITEMS) };
}

impl LinkSender {
    /// Sends these bytes as the next item, and waits while the link is full. Returns the bytes if the receiver is dropped, or 2^40
    /// items were sent: then the link is down, and every later call returns its bytes too.
    pub fn send<R: Wait>(&mut self, rt: &R, bytes: SharedBytes) -> Result<(), SharedBytes>
        ensures sent { OnOk result
            (self.new ≡ record self.old { sent = self.old.sent ++ bytes ∷ [] }) }
        ensures back { IfErr result (λ back. back ≡ bytes) }
        ensures down { IfErr result (λ back. self.new ≡ record self.old { down = true }) }
        ensures stays { self.old.down ≡ true → IsErr result }
    {
        if self.is_down || self.sent >= MOST_ITEMS {
            self.is_down = true;
            return Err(bytes);
        }
        let LinkSender {
            end,
            pass,
            sent,
            is_down,
        } = self;
        match end.send_as::<Sent, R>(rt, pass, bytes) {
            Ok(()) => {
                *sent += 1;
                Ok(())
            }
            Err(refused) => {
                *is_down = true;
                Err(refused.into_inner())
            }
        }
    }

    /// Sends these bytes as the next item if the link has room for them, and never waits. Returns the bytes if the link is full, or is
    /// down: the receiver is dropped, or 2^40 items were sent. A link that is down stays down.
    pub fn offer<R: Wait>(&mut self, rt: &R, bytes: SharedBytes) -> Result<(), SharedBytes>
        ensures sent { OnOk result
            (self.new ≡ record self.old { sent = self.old.sent ++ bytes ∷ [] }) }
        ensures back { IfErr result (λ back. back ≡ bytes) }
        ensures unsent { OnErr result (self.new ≡ record self.old { down = self.new.down }) }
        ensures stays { self.old.down ≡ true → IsErr result × (self.new.down ≡ true) }
    {
        if self.is_down || self.sent >= MOST_ITEMS {
            self.is_down = true;
            return Err(bytes);
        }
        let LinkSender {
            end,
            pass,
            sent,
            is_down,
        } = self;
        match end.try_send_as::<Sent, R>(rt, pass, bytes) {
            Ok(()) => {
                *sent += 1;
                Ok(())
            }
            Err(refused) => {
                *is_down = !refused.is_full();
                Err(refused.into_inner())
            }
        }
    }

    /// Whether the link is down: a send has returned its bytes, or an offer has although the link was not full. Takes no memory.
    pub fn down(&self) -> bool
        ensures { result ≡ self.now.down }
    {
        self.is_down
    }
}

//! An outlet that waits for a slow receiver only shortly.
ghost use Rattle.std.specs.Prelude.{◌≡◌, ◌++◌, ◌∷◌, [], MatchBool, false, true};
ghost use Rattle.site_pumps.specs.BriefSenders.{brief_sending};

use crate::Outlet;
use dots::{Memory, SharedBytes};
use site_links::LinkSender;
use std::alloc::Global;
use std::marker::Model;
use std::sync::Wait;
use std::thread;
use std::time::{Clock, Duration};

/// How often an item is offered to a link that is full, a millisecond apart.
pub const MOST_OFFERS: u32 = 50;

const OFFER_MILLIS: u64 = 1;

/// The sender of a link, as an outlet that waits for a slow receiver only shortly (this project's own). If the link is full at 50 offers, a
/// millisecond apart, the item is dropped: the receiver then *lacks items* until the link has taken a later whole. Until then an item is
/// offered once, and waits for nothing.
#[derive(Drop)]
pub struct BriefSender {
    link: LinkSender,
    lacks_items: bool,
    // Whether the link has taken the last item.
    has_taken: bool,
}

impl Model for BriefSender {
    ghost use Rattle.site_pumps.specs.BriefSenders.{BriefSending};

    ghost Value = { BriefSending };

    ghost view = { λ s. record { link = s.link; lacks = s.lacks_items; taken = s.has_taken } };
}

// Offers bytes to a link at most `most` times, a millisecond apart, until it takes them or is down. Returns whether it has taken them; else
// they are dropped.
fn offer_briefly<R: Wait + Clock>(
    rt: &R,
    link: &mut LinkSender,
    bytes: SharedBytes,
    most: u32,
) -> bool
    ensures same { link.new.link ≡ link.old.link }
    ensures sent { MatchBool result (link.new.sent ≡ link.old.sent ++ bytes ∷ [])
        (link.new.sent ≡ link.old.sent) }
{
    let mut bytes = bytes;
    for turn in 0..most {
        if turn > 0 {
            thread::sleep(rt, Duration::from_millis(OFFER_MILLIS));
        }
        match link.offer(rt, bytes) {
            Ok(()) => return true,
            Err(back) => bytes = back,
        }
        if link.down() {
            drop(bytes);
            return false;
        }
    }
    drop(bytes);
    false
}

impl BriefSender {
    /// The outlet over a link's sender, whose receiver lacks no item.
    pub fn new(link: LinkSender) -> BriefSender
        ensures { result ≡ brief_sending link false false }
    {
        BriefSender {
            link,
            lacks_items: false,
            has_taken: false,
        }
    }

    /// Whether an item was dropped, on a link that was not down, since `end_whole` last noted a whole that the link has taken: then a whole
    /// is due.
    pub fn lacks_items(&self) -> bool
        ensures { result ≡ self.now.lacks }
    {
        self.lacks_items
    }

    /// Notes that the last item was a whole. If the link has taken it the receiver lacks no item any more, and a mark is offered once after
    /// it, an item without a byte: none if its allocation is refused. Returns whether the link has taken the whole, or is down. It never
    /// waits.
    pub fn end_whole<R: Wait>(&mut self, rt: &R, alloc: Global) -> bool
        ensures taken { self.old.taken ≡ true
            → (result ≡ true) × (self.new.lacks ≡ false) }
        ensures dropped { self.old.taken ≡ false
            → (result ≡ self.old.link.down) × (self.new ≡ self.old) }
    {
        if !self.has_taken {
            return self.link.down();
        }
        if let Ok(mark) = SharedBytes::new(alloc, Vec::new(alloc)) {
            let _ = self.link.offer(rt, mark);
        }
        self.lacks_items = false;
        true
    }
}

impl<R: Wait + Clock> Outlet<R> for BriefSender {
    ghost use Rattle.site_pumps.specs.BriefSenders.{IsSentBriefly};

    ghost given = { IsSentBriefly };

    /// Offers the item 50 times at most, a millisecond apart, or once while the receiver lacks items. If the link doesn't take it, it is
    /// dropped, and the receiver lacks items unless the link is down. Notes for `end_whole` whether the link has taken it. Fails only when
    /// out of memory, and then changes nothing: that note is still of the item before.
    fn send(&mut self, rt: &R, item: &SharedBytes) -> Result<(), Memory> {
        if self.link.down() {
            self.has_taken = false;
            return Ok(());
        }
        let most = if self.lacks_items { 1 } else { MOST_OFFERS };
        let copy = item.copy()?;
        if offer_briefly(rt, &mut self.link, copy, most) {
            self.has_taken = true;
            return Ok(());
        }
        self.has_taken = false;
        if self.link.down() {
            return Ok(());
        }
        self.lacks_items = true;
        Ok(())
    }
}

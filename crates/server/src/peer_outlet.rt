//! A link to a peer, and whether that peer lacks a frame of the site.
ghost use Rattle.std.specs.Prelude.{◌≡◌, false};
ghost use Rattle.site_pumps.specs.BriefSenders.{brief_sending};

use crate::site::Site;
use dots::{Memory, SharedBytes};
use site_links::LinkSender;
use site_pumps::{BriefSender, Outlet};
use std::alloc::Global;
use std::sync::Wait;
use std::time::Clock;

// The link that brings a site's frames to a peer. A frame for which it stays full is dropped, so that a slow peer doesn't delay the others:
// then the peer *lacks frames* until the link has taken a whole, which is due in their place. Each of these changes is logged as one line.
#[derive(Drop)]
pub(crate) struct PeerOutlet<'a> {
    sender: BriefSender,
    site: &'a Site,
    // The number of the peer.
    peer: usize,
    alloc: Global,
}

impl<'a> PeerOutlet<'a> {
    // The outlet over the link to this peer, which lacks no frame.
    pub fn new(alloc: Global, site: &'a Site, peer: usize, link: LinkSender) -> PeerOutlet<'a>
        ensures { result.sender ≡ brief_sending link false false }
    {
        PeerOutlet {
            sender: BriefSender::new(link),
            site,
            peer,
            alloc,
        }
    }

    // Logs that the peer lacks a frame, and notes it at the site's own bell, which rings.
    fn note_lack<R: Wait>(&self, rt: &R) {
        let (site, peer) = (self.site.number.number(), self.peer);
        let line = format!(in self.alloc;
            "queue_sites: site {peer}: behind site {site}: link full"
        );
        self.site.clients.events().add(rt, line);
        self.site.lack_frames(rt);
    }

    // Logs that the peer lacks no frame any more. The bell isn't changed.
    fn note_whole<R: Wait>(&self, rt: &R) {
        let (site, peer) = (self.site.number.number(), self.peer);
        let line = format!(in self.alloc; "queue_sites: site {peer}: caught up with site {site}");
        self.site.clients.events().add(rt, line);
    }

    // Notes that the last frame was a whole. If the link has taken it, a mark is offered after it, and it is logged if the peer lacked
    // frames. Returns whether the link has taken the whole, or is down. It never waits.
    pub fn end_whole<R: Wait>(&mut self, rt: &R) -> bool {
        let lacked = self.sender.lacks_items();
        let has_ended = self.sender.end_whole(rt, self.alloc);
        if lacked && !self.sender.lacks_items() {
            self.note_whole(rt);
        }
        has_ended
    }
}

impl<'a, R: Wait + Clock> Outlet<R> for PeerOutlet<'a> {
    ghost use Rattle.site_pumps.specs.BriefSenders.{IsSentBriefly};

    ghost given = { λ old item new. IsSentBriefly old.sender item new.sender };

    // Sends as `BriefSender` does. If the peer lacks frames from now on, that is logged, and noted at the site's own bell.
    fn send(&mut self, rt: &R, item: &SharedBytes) -> Result<(), Memory> {
        let lacked = self.sender.lacks_items();
        self.sender.send(rt, item)?;
        if !lacked && self.sender.lacks_items() {
            self.note_lack(rt);
        }
        Ok(())
    }
}

//! A link from a peer, and whether its site is behind that peer.
ghost use Rattle.std.specs.Prelude.{◌≡◌, ◌++◌, ◌∷◌, [], IsTrue};
ghost use Rattle.server.specs.EndingFaults.{EndsSite};

use crate::site::Site;
use dots::{SharedBytes, SiteId};
use replica::TakeFault;
use site_journal::DeskFault;
use site_links::LinkReceiver;
use site_pumps::Inlet;
use std::alloc::Global;
use std::sync::Wait;
use std::sync::atomic::{AtomicU64, Ordering};

// The link that brings the frames of a peer.
//
// If the site refuses a frame it is *behind* the peer, until it has taken a whole of that peer. Each of these changes is logged as one line.
#[derive(Drop)]
pub(crate) struct PeerLink<'a> {
    link: LinkReceiver,
    site: &'a Site,
    peer: SiteId,
    alloc: Global,
    is_behind: bool,
    // Whether the link has brought a frame.
    has_brought: bool,
    // Whether the site has taken or refused the first frame that the link brought.
    is_noted: bool,
    // Whether the site has taken the last frame that the link brought.
    has_taken: bool,
    // The fault of a call that ends the site, if one does.
    pub ending: Option<DeskFault>,
    // Of a site with a store: how many peers it waits for, until the first frame of each was taken or refused.
    awaited: Option<&'a AtomicU64>,
}

impl<'a> PeerLink<'a> {
    // The link that brings the frames of this peer to the site, which isn't behind the peer. `awaited`, of a site with a store, counts the
    // peers that it waits for; else it is `None`.
    pub fn new(
        alloc: Global,
        site: &'a Site,
        peer: SiteId,
        link: LinkReceiver,
        awaited: Option<&'a AtomicU64>,
    ) -> PeerLink<'a>
        ensures { result.link ≡ link }
    {
        PeerLink {
            link,
            site,
            peer,
            alloc,
            is_behind: false,
            has_brought: false,
            is_noted: false,
            has_taken: false,
            ending: None,
            awaited,
        }
    }

    // Whether this fault of a call ends the site: its store has failed, or does not say what other sites know of the site's own changes
    // (`NotMine`, `Conflict`). The latter ends only a site with a store.
    pub fn ends_site(&self, fault: DeskFault) -> bool
        ensures { IsTrue result → EndsSite fault }
    {
        match fault {
            DeskFault::Unsaved => true,
            DeskFault::Take(TakeFault::NotMine) => self.awaited.is_some(),
            DeskFault::Take(TakeFault::Conflict) => self.awaited.is_some(),
            _ => false,
        }
    }

    // Notes that the site has refused the last frame, for this fault. If it wasn't behind the peer, it is now: that is logged, and noted at
    // the peer's bell, which rings.
    pub fn refuse<R: Wait>(&mut self, rt: &R, fault: DeskFault)
        ensures { self.new.link ≡ self.old.link }
    {
        self.has_taken = false;
        if self.is_behind {
            return;
        }
        self.is_behind = true;
        let (site, peer) = (self.site.number.number(), self.peer.number());
        let line = format!(in self.alloc; "queue_sites: site {site}: behind site {peer}: {fault}");
        self.site.clients.events().add(rt, line);
        self.site.fall_behind(rt, self.peer);
    }

    // Notes that the site has taken or refused the first frame of the peer, once, if the link has brought one. A site with a store then
    // waits for one peer less.
    fn note_first(&mut self)
        ensures { self.new.link ≡ self.old.link }
    {
        if !self.has_brought || self.is_noted {
            return;
        }
        self.is_noted = true;
        if let Some(awaited) = self.awaited {
            let _ = awaited.fetch_sub(1, Ordering::SeqCst);
        }
    }

    // Drops the link. The site no longer waits for a first frame of the peer. If it was behind, the peer's bell notes that it isn't any
    // more, so that the peer makes no further whole for it; nothing is logged.
    pub fn give_up<R: Wait>(self, rt: &R) {
        let mut link = self;
        link.has_brought = true;
        link.note_first();
        let PeerLink {
            link,
            site,
            peer,
            is_behind,
            ..
        } = link;
        drop(link);
        if is_behind {
            site.catch_up(rt, peer);
        }
    }

    // Notes that the last frame was a whole. If the site is behind and has taken it, it has caught up: that is logged, and noted at the
    // peer's bell.
    fn pass_mark<R: Wait>(&mut self, rt: &R)
        ensures { self.new.link ≡ self.old.link }
    {
        if !self.is_behind || !self.has_taken {
            return;
        }
        self.is_behind = false;
        let (site, peer) = (self.site.number.number(), self.peer.number());
        let line = format!(in self.alloc; "queue_sites: site {site}: caught up with site {peer}");
        self.site.clients.events().add(rt, line);
        self.site.catch_up(rt, self.peer);
    }
}

impl<'a, R: Wait> Inlet<R> for PeerLink<'a> {
    ghost use Rattle.std.specs.Prelude.{◌≡◌, ◌++◌, ◌∷◌, [], true};
    ghost use Rattle.server.specs.PeerLinks.{frames_among};

    ghost gives = { λ old item new. frames_among new.link.received
        ≡ frames_among old.link.received ++ item ∷ [] };

    ghost ends = { λ old new. (frames_among new.link.received ≡ frames_among old.link.received)
        × (new.link.ended ≡ true) };

    // Waits for the next frame. `None`: the link has ended. An item without a byte is a mark: the frame before it was a whole. The call
    // notes first that the frame before was taken or refused.
    fn next(&mut self, rt: &R) -> Option<SharedBytes> {
        self.note_first();
        for _ in rt.forever() {
            let Some(item) = self.link.recv(rt) else {
                return None;
            };
            if !item.as_slice().is_empty() {
                self.has_brought = true;
                self.has_taken = true;
                return Some(item);
            }
            drop(item);
            self.pass_mark(rt);
        }
        unreachable!()
    }
}

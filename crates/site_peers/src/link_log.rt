//! The lines that are logged of a site's links.
use crate::EndReason;
use crate::dialing::DialFault;
use crate::heard_links::HeardPeer;
use crate::hearing::HearFault;
use dots::SiteId;
use event_log::EventLog;
use site_journal::DeskFault;
use std::alloc::Global;
use std::io;
use std::net::SocketAddr;
use std::sync::Wait;

/// Where the events of a site's links are logged. Each event is one line; without memory or
/// room for it the log only counts it as dropped.
#[derive(Clone, Copy)]
pub struct LinkLog<'a> {
    events: &'a EventLog,
    alloc: Global,
    // The site's number.
    site: u16,
}

impl<'a> LinkLog<'a> {
    /// The log of this site's links.
    pub fn new(alloc: Global, events: &'a EventLog, site: SiteId) -> LinkLog<'a> {
        LinkLog {
            events,
            alloc,
            site: site.number(),
        }
    }

    // A link to a peer is up.
    pub(crate) fn log_up<R: Wait>(&self, rt: &R, peer: SiteId, address: &str) {
        let (site, peer) = (self.site, peer.number());
        let line = format!(in self.alloc;
            "queue_sites: site {site}: link to site {peer} at {address}: up"
        );
        self.events.add(rt, line);
    }

    // There is no link to this address, or it has fallen.
    pub(crate) fn log_down<R: Wait>(&self, rt: &R, address: &str, fault: DialFault) {
        let site = self.site;
        let line = format!(in self.alloc;
            "queue_sites: site {site}: link to {address}: down: {fault}"
        );
        self.events.add(rt, line);
    }

    // Memory was refused for what waits for the peer at this address.
    pub(crate) fn log_no_memory<R: Wait>(&self, rt: &R, address: &str) {
        let site = self.site;
        let line = format!(in self.alloc;
            "queue_sites: site {site}: link to {address}: out of memory for what waits"
        );
        self.events.add(rt, line);
    }

    // A link from a peer is up.
    pub(crate) fn log_heard<R: Wait>(&self, rt: &R, peer: &HeardPeer) {
        let (site, number, address) = (self.site, peer.site.number(), peer.address);
        let line = format!(in self.alloc;
            "queue_sites: site {site}: link from site {number} at {address}: up"
        );
        self.events.add(rt, line);
    }

    // A link from a peer has fallen.
    pub(crate) fn log_lost<R: Wait>(&self, rt: &R, peer: &HeardPeer, fault: HearFault) {
        let (site, number, address) = (self.site, peer.site.number(), peer.address);
        let line = format!(in self.alloc;
            "queue_sites: site {site}: link from site {number} at {address}: down: {fault}"
        );
        self.events.add(rt, line);
    }

    // A frame of a peer was dropped: the site is behind it.
    pub(crate) fn log_behind<R: Wait>(&self, rt: &R, peer: &HeardPeer, fault: DeskFault) {
        let (site, number, address) = (self.site, peer.site.number(), peer.address);
        let line = format!(in self.alloc;
            "queue_sites: site {site}: behind site {number} at {address}: {fault}"
        );
        self.events.add(rt, line);
    }

    // The site has caught up with a peer.
    pub(crate) fn log_caught_up<R: Wait>(&self, rt: &R, peer: &HeardPeer) {
        let (site, number, address) = (self.site, peer.site.number(), peer.address);
        let line = format!(in self.alloc;
            "queue_sites: site {site}: caught up with site {number} at {address}"
        );
        self.events.add(rt, line);
    }

    // A connection from this address has led to no link.
    pub(crate) fn log_refused<R: Wait>(&self, rt: &R, address: &SocketAddr, fault: HearFault) {
        let site = self.site;
        let line = format!(in self.alloc;
            "queue_sites: site {site}: no link from {address}: {fault}"
        );
        self.events.add(rt, line);
    }

    // The site ends.
    pub(crate) fn log_end<R: Wait>(&self, rt: &R, reason: EndReason) {
        let site = self.site;
        let line = format!(in self.alloc; "queue_sites: site {site}: ends: {reason}");
        self.events.add(rt, line);
    }

    // The system fails to accept.
    pub(crate) fn log_no_connection<R: Wait>(&self, rt: &R, error: &io::Error) {
        let site = self.site;
        let line = format!(in self.alloc; "queue_sites: site {site}: no link: {error}");
        self.events.add(rt, line);
    }
}

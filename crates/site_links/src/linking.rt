//! The links between sites in threads.
ghost use Rattle.std.specs.Prelude.{◌≡◌, ◌+◌, ◌<◌, ◌++◌, ◌∷◌, [], IfNone, IfOk, IfSome, OnOk, length};
ghost use Rattle.std.specs.Prelude.{map, vec_len};
ghost use Rattle.site_links.specs.Linking.{AreLinksOf, IsLinkedFrom, IsNewLink};
ghost use Rattle.site_links.specs.Links.{Receiving, Sending};

use crate::{LINK_CAPACITY, Link, LinkReceiver, LinkSender};
use dots::Memory;
use std::alloc::Global;

/// The ends of links that one site has, each by the numbers of the other sites.
#[derive(Drop)]
pub struct LinkEnds {
    /// Those that send.
    pub to: Vec<LinkSender>,
    /// Those that receive.
    pub from: Vec<LinkReceiver>,
}

/// The ends of all links, by the sites that have them.
#[derive(Drop)]
pub struct SiteLinks {
    /// Those that send, each site's by the numbers of the other sites.
    pub to: Vec<Vec<LinkSender>>,
    /// Those that receive, each site's by the numbers of the other sites.
    pub from: Vec<Vec<LinkReceiver>>,
}

impl SiteLinks {
    /// Removes and returns the ends of the last site. `None` if there is no site. Both lists have one entry for
    /// each site.
    pub fn pop(&mut self) -> Option<LinkEnds>
        requires { vec_len self.old.to ≡ vec_len self.old.from }
        ensures to { IfSome result (λ ends.
            self.old.to.items ≡ self.new.to.items ++ ends.to ∷ []) }
        ensures from { IfSome result (λ ends.
            self.old.from.items ≡ self.new.from.items ++ ends.from ∷ []) }
        ensures left { IfSome result (λ ends. (vec_len self.new.to + 1 ≡ vec_len self.old.to)
            × (vec_len self.new.from + 1 ≡ vec_len self.old.from)) }
        ensures none { IfNone result (vec_len self.old.to ≡ 0) }
    {
        let Some(to) = self.to.pop() else {
            return None;
        };
        let Some(from) = self.from.pop() else {
            unreachable!();
        };
        Some(LinkEnds { to, from })
    }
}

// Appends both ends of one new link to others. Fails only when out of memory; then one end may have been
// appended.
fn add_link(
    alloc: Global,
    to: &mut Vec<LinkSender>,
    from: &mut Vec<LinkReceiver>,
) -> Result<(), Memory>
    ensures { OnOk result ((sender : Sending) × (receiver : Receiving)
        × IsNewLink sender receiver
        × (to.new.items ≡ to.old.items ++ sender ∷ [])
        × (from.new.items ≡ from.old.items ++ receiver ∷ [])) }
{
    let (sender, receiver) = Link::pair(alloc, LINK_CAPACITY)?;
    to.push(sender)?;
    from.push(receiver)?;
    Ok(())
}

// A new link from each other site to this one. Each other site's end, which sends, is appended to its ends; this
// site's ends, which receive, are returned by the numbers of the other sites. Fails only when out of memory;
// then some links may have been made.
fn link_to(
    alloc: Global,
    site: usize,
    to: &mut [Vec<LinkSender>],
) -> Result<Vec<LinkReceiver>, Memory>
    requires there { site < length to.old }
    ensures others { IfOk result (λ from. vec_len from + 1 ≡ length to.old) }
    ensures sites { length to.new ≡ length to.old }
    ensures linked { IfOk result (λ from. IsLinkedFrom site (length to.old) from.items
        (map (λ ends. ends.items) to.old) (map (λ ends. ends.items) to.new)) }
{
    let mut from = Vec::new(alloc);
    for other in 0..to.len() {
        if other != site {
            add_link(alloc, &mut to[other], &mut from)?;
        }
    }
    Ok(from)
}

/// A new link from each of `sites` sites to each other one, which holds 64 items. Fails only when out of memory.
pub fn link_all(alloc: Global, sites: usize) -> Result<SiteLinks, Memory>
    ensures { IfOk result (λ links. AreLinksOf sites links) }
{
    let mut to = Vec::new(alloc);
    for _i in 0..sites {
        to.push(Vec::new(alloc))?;
    }
    let mut from = Vec::new(alloc);
    for site in 0..sites {
        from.push(link_to(alloc, site, to.as_mut_slice())?)?;
    }
    Ok(SiteLinks { to, from })
}

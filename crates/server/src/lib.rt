//! Manager sessions over TCP at each of several sites, which send each other their changes.
//!
//! [`serve_sites`] listens at one port a site. At each site a number of threads answer clients, one sends the site's frames, and one for
//! each other site takes that site's frames. A client that doesn't log in, is silent or reads too little loses its place after a
//! deadline, so that others are served. [`serve_stored_sites`] does so for sites with stores, each of which has one thread more, that saves
//! what nobody waits for.
//!
//! A site that can't take a frame of a peer is behind that peer: the peer then sends a whole, a frame of all that it knows, again and again
//! until the site has taken one.
#![tactic(auto)]

mod hurrying_ear;
mod listening;
mod peer_link;
mod peer_outlet;
mod preparing;
mod pumping;
mod ready_site;
mod serve_sites_fault;
mod serving;
mod sharing;
mod site;
mod stored_serving;
mod stored_site;
mod stored_working;
mod working;

pub use dots::Memory;
pub use serve_sites_fault::ServeSitesFault;
pub use serving::serve_sites;
pub use serving_clients::{LAST_PORT, ServerSettings, SessionSettings};
pub use site::JOURNAL_STEPS;
pub use site_threads::SiteOutput;
pub use stored_serving::serve_stored_sites;
pub use stored_threads::{ResumedSite, StoredSiteOutput};

//! One site, which serves Manager clients at one listener and is linked to the sites of other processes over TCP at another.
//!
//! [`serve_linked_site`] runs the threads of such a site; [`serve_stored_linked_site`] those of one with a store. Some threads answer
//! clients, one makes the site's frames, one for each peer dials it and sends them, and some accept the links of peers and let the site
//! take their frames. The site ends when another site shows that its number or its store isn't right, or when its store fails.
#![tactic(auto)]

mod link_settings;
mod linked_site;
mod linked_site_fault;
mod serving;
mod site_end;
mod stored_serving;
mod stored_working;
mod tasks;
mod working;

pub use link_settings::LinkSettings;
pub use linked_site_fault::LinkedSiteFault;
pub use serving::{JOURNAL_STEPS, serve_linked_site};
pub use site_end::{SiteEnd, StoredSiteEnd};
pub use site_peers::EndReason;
pub use stored_serving::serve_stored_linked_site;

use linked_site::LinkedSiteFault;
use server::ServeSitesFault;
use site_files::SiteFileFault;
use thiserror::Error;

/// Why sites aren't served (this project's own).
#[derive(Debug, Drop, Error)]
pub enum ServiceFault {
    /// The store at this path gives no site, for this cause.
    #[error("store {0}: {1}")]
    Store(String, SiteFileFault),
    /// The lines that say where a linked site listens can't be written.
    #[error("write failed")]
    Write,
    /// The sites of a server aren't served, for this cause.
    #[error(transparent)]
    Server(ServeSitesFault),
    /// A linked site isn't served, for this cause.
    #[error(transparent)]
    Linked(LinkedSiteFault),
    /// An allocation was refused.
    #[error("out of memory")]
    Memory,
}

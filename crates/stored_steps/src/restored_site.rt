use crate::limits::NAME_BYTES;
use site_journal::Journaled;

/// A site that was built again of the rows of its store (this project's own).
#[derive(Drop)]
pub struct RestoredSite {
    /// The site, with the steps since the base: all, or the last of them where they are more than the journal may have.
    pub journal: Journaled,
    /// The bytes that name the store for ever.
    pub name: [u8; NAME_BYTES],
    /// How often the site was started over the store before: the number of its base, and one for each row of a start; at most 2^64 - 1.
    pub starts: u64,
}

use site_journal::Journaled;
use stored_steps::NAME_BYTES;

// How far the rows of a store are done again.
#[derive(Drop)]
pub(crate) struct Walk {
    // The site, with a step for each row of a step so far.
    pub(crate) journal: Journaled,
    // The name of the store.
    pub(crate) name: [u8; NAME_BYTES],
    // How often the site was started so far.
    pub(crate) starts: u64,
    // The positions of the rows of the steps.
    pub(crate) positions: Vec<u64>,
}

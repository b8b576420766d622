use thiserror::Error;

/// Why there is no world of a number of sites. Where several faults apply, `World::new` returns the first of this list.
#[derive(Clone, Copy, Debug, PartialEq, Eq, Error)]
pub enum WorldFault {
    /// There are not from 1 to 64 sites.
    #[error("not from 1 to 64 sites")]
    BadSites,
    /// An allocation was refused.
    #[error("out of memory")]
    Memory,
}

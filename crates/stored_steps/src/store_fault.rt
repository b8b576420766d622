use crate::{BaseFault, RowFault};
use thiserror::Error;

/// Why rows are no store of a site. Of several causes that of the first row is returned (this project's own).
#[derive(Clone, Copy, Debug, PartialEq, Eq, Error)]
pub enum StoreFault {
    /// The first row is no base of the site, for this cause.
    #[error("base: {0}")]
    Base(BaseFault),
    /// The row of this position is that of no step, for this cause.
    #[error("row {0}: {1}")]
    Row(u64, RowFault),
    /// The site refuses the step of the row of this position, or gives another answer or other bytes.
    #[error("row {0} is damaged")]
    Damaged(u64),
    /// 2^40 steps were done before.
    #[error("journal full")]
    JournalFull,
    /// An allocation was refused.
    #[error("out of memory")]
    Memory,
}

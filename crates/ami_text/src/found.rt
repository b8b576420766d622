use crate::FeedFault;
use crate::progress::Progress;

/// The first thing in held bytes.
#[derive(Clone, Copy)]
pub enum Found {
    /// A message: its lines up to `end`; what follows its empty line begins at `next`.
    Message { end: usize, next: usize },
    /// No whole message and no fault: the first `empty` bytes are empty lines, and the rest was
    /// scanned this far.
    Rest { empty: usize, progress: Progress },
    /// A fault.
    Fault { fault: FeedFault },
}

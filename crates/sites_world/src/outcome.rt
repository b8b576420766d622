use replica::{CutFault, TakeFault};
use status_report::Answer;

/// The outcome of an event.
#[derive(Drop)]
pub enum Outcome {
    /// The answer to an ask. Never a refusal as out of memory.
    Answered(Answer),
    /// The entry of the frame that a cut or a whole made; `None` where the buffer was empty; or why there is no frame,
    /// which is never `Memory`.
    Cut(Result<Option<usize>, CutFault>),
    /// The site joined the frame, or the join would exceed a limit: `CellsFull` or `RunsFull`, and no other fault.
    Took(Result<(), TakeFault>),
    /// There is no such site.
    NoSite,
    /// There is the site, but no such entry.
    NoEntry,
    /// Out of memory. Nothing was changed.
    NoMemory,
}

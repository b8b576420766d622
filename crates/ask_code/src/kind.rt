// The kind of a command, the first byte of its spelling.
#[derive(Clone, Copy, PartialEq, Eq)]
pub(crate) enum Kind {
    Add,
    Remove,
    Pause,
    Penalty,
    RingInUse,
    Completed,
    Abandoned,
}

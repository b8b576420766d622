use thiserror::Error;

/// The queue isn't in the list of the queues.
#[derive(Clone, Copy, Debug, PartialEq, Eq, Error)]
#[error("no such queue")]
pub struct NoSuchQueue;

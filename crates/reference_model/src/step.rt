use crate::{Change, Operation};

/// A step of a site.
#[derive(Drop)]
pub enum Step {
    /// The site does a command.
    Do(Change),
    /// The site cuts its buffer into a frame.
    Cut,
    /// The site makes a frame of all that it knows.
    Whole,
    /// The site takes the operations that a frame carries.
    Take(Vec<Operation>),
}

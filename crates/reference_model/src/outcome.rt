use crate::Operation;
use replica::Refusal;

/// The outcome of a step.
#[derive(Drop)]
pub enum Outcome {
    /// The command is done.
    Done,
    /// The command is refused, for this cause.
    Denied(Refusal),
    /// A frame is made.
    Framed {
        /// The number of the frame, from 1.
        number: u64,
        /// The operations that the frame carries.
        frame: Vec<Operation>,
    },
    /// No frame is made, since the buffer is empty.
    Nothing,
    /// No number is left for a frame.
    NoNumber,
    /// The frame is taken.
    Taken,
    /// More dots would be visible than a site may have.
    CellsFull,
    /// The known dots would have more runs than a site may have.
    RunsFull,
}

use crate::Operation;
use replica::Refusal;

/// The meaning of a change at a site.
#[derive(Drop)]
pub enum Meaning {
    /// The change is refused, for this cause.
    Refused(Refusal),
    /// The change makes this operation.
    Makes(Operation),
}

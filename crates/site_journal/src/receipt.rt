use crate::StepDeed;

/// A caller's record of a step: the pass that did it, its position among all steps of the site, from 0, and what was done.
#[derive(Drop)]
pub struct Receipt {
    /// The number of the pass by which the step was done.
    pub pass: u32,
    /// How many steps of the site were done before it.
    pub position: u64,
    /// What was done.
    pub deed: StepDeed,
}

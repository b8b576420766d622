ghost use Rattle.std.specs.Prelude.{◌≡◌, ◌↔◌, IfOk, IsTrue};

use dots::{Memory, SharedBytes};
use status_report::{Answer, Ask};

/// A deed: what was done at a site. Frames are held as their bytes, which copies share.
#[derive(Drop)]
pub enum StepDeed {
    /// The site gave this answer to this ask.
    Asked(Ask, Answer),
    /// The site took the frame that these bytes encode.
    Took(SharedBytes),
    /// The site put its buffer into this frame, or the buffer was empty.
    Cut(Option<SharedBytes>),
    /// The site put everything that it knows into this frame.
    Whole(SharedBytes),
}

/// A step of a site: who did it, and what was done.
#[derive(Drop)]
pub struct Step {
    /// The number of the pass by which the step was done.
    pub pass: u32,
    /// What was done.
    pub deed: StepDeed,
}

impl StepDeed {
    /// Returns a copy. Fails only when out of memory.
    pub fn copy(&self) -> Result<StepDeed, Memory>
        ensures same { IfOk result (λ copy. copy ≡ self.now) }
    {
        match self {
            StepDeed::Asked(asked, answer) => {
                let asked = asked.copy()?;
                let answer = answer.copy()?;
                Ok(StepDeed::Asked(asked, answer))
            }
            StepDeed::Took(bytes) => {
                let bytes = bytes.copy()?;
                Ok(StepDeed::Took(bytes))
            }
            StepDeed::Cut(None) => Ok(StepDeed::Cut(None)),
            StepDeed::Cut(Some(bytes)) => {
                let bytes = bytes.copy()?;
                Ok(StepDeed::Cut(Some(bytes)))
            }
            StepDeed::Whole(bytes) => {
                let bytes = bytes.copy()?;
                Ok(StepDeed::Whole(bytes))
            }
        }
    }

    /// Whether both are the same deed. Takes no memory.
    pub fn same(&self, other: &StepDeed) -> bool
        ensures { IsTrue result ↔ (self.now ≡ other.now) }
    {
        match (self, other) {
            (StepDeed::Asked(asked, answer), StepDeed::Asked(others, other_answer)) => {
                asked.same(others) && answer.same(other_answer)
            }
            (StepDeed::Took(bytes), StepDeed::Took(others)) => bytes.same(others),
            (StepDeed::Cut(None), StepDeed::Cut(None)) => true,
            (StepDeed::Cut(Some(bytes)), StepDeed::Cut(Some(others))) => bytes.same(others),
            (StepDeed::Whole(bytes), StepDeed::Whole(others)) => bytes.same(others),
            _ => false,
        }
    }
}

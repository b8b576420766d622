ghost use Rattle.std.specs.Prelude.{◌≡◌};

use crate::Text80;

/// How a member is shown: the member name and the state interface of Asterisk's QueueAdd. If one is empty,
/// the interface is shown instead.
#[derive(Debug, Drop, PartialEq, Eq)]
pub struct Label {
    /// The member name.
    pub name: Text80,
    /// The state interface.
    pub state: Text80,
}

impl Label {
    /// Returns a copy. Takes no memory.
    pub fn copy(&self) -> Label
        ensures { result ≡ self.now }
    {
        Label {
            name: self.name.copy(),
            state: self.state.copy(),
        }
    }
}

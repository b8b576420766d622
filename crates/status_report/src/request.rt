ghost use Rattle.std.specs.Prelude.{◌≡◌, ◌↔◌, IfOk, IsTrue};

use dots::{Bytes, Memory, Text80};

/// The request of a QueueStatus (Asterisk's QueueStatus). Filters compare whole texts byte by byte; an absent
/// filter selects everything.
#[derive(Drop)]
pub struct StatusRequest {
    /// Selects only the queue of this name.
    pub queue: Option<Text80>,
    /// Selects only the members whose interface, or whose name as it is shown, is this text.
    pub member: Option<Text80>,
    /// The ActionID that each block of the report repeats; no bytes if there is none.
    pub action_id: Bytes,
}

// A copy of a filter, if there is one.
fn copy_filter(filter: &Option<Text80>) -> Option<Text80>
    ensures { result ≡ filter.now }
{
    match filter {
        Some(text) => Some(text.copy()),
        None => None,
    }
}

impl StatusRequest {
    /// Returns a copy. Fails only when out of memory.
    pub fn copy(&self) -> Result<StatusRequest, Memory>
        ensures { IfOk result (λ copy. copy ≡ self.now) }
    {
        let action_id = self.action_id.copy()?;
        Ok(StatusRequest {
            queue: copy_filter(&self.queue),
            member: copy_filter(&self.member),
            action_id,
        })
    }

    /// Whether it is the same request as the other. Takes no memory.
    pub fn same(&self, other: &StatusRequest) -> bool
        ensures { IsTrue result ↔ (self.now ≡ other.now) }
    {
        self.queue == other.queue
            && self.member == other.member
            && self.action_id.same(&other.action_id)
    }
}

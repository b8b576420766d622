use crate::{Calls, Setting};
use dots::{Interface, Label, Penalty, QueueName};

/// A change that is asked of a site (Asterisk's queue actions).
#[derive(Drop)]
pub enum Change {
    /// Adds the interface to the queue, with these fields.
    AddMember {
        /// The queue.
        queue: QueueName,
        /// The interface.
        interface: Interface,
        /// The penalty.
        penalty: Penalty,
        /// Whether the member begins paused.
        paused: bool,
        /// The member name and the state interface.
        label: Label,
    },
    /// Removes the interface from the queue.
    RemoveMember {
        /// The queue.
        queue: QueueName,
        /// The interface.
        interface: Interface,
    },
    /// Sets one field of the interface in the queue, or, without a queue, in every one that it is a member of.
    SetField {
        /// The queue.
        queue: Option<QueueName>,
        /// The interface.
        interface: Interface,
        /// The field and its value.
        setting: Setting,
    },
    /// Counts a call of the queue.
    CountCall {
        /// The queue.
        queue: QueueName,
        /// Which calls.
        calls: Calls,
    },
}

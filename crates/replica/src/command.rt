ghost use Rattle.std.specs.Prelude.{◌≡◌, ◌↔◌, IsTrue};
ghost use Rattle.dots.specs.WithinLimits.{IsLabel, IsPause};

use dots::{Interface, Label, Pause, Penalty, QueueName};

/// A change that a supervisor or a call distributor asks of one site (Asterisk's queue actions; the counts of calls are this
/// project's own).
#[derive(Drop, PartialEq, Eq)]
pub enum Command {
    /// Adds the interface to the queue, with these fields. A member that begins paused has an empty reason.
    Add {
        /// The queue.
        queue: QueueName,
        /// The interface.
        interface: Interface,
        /// The penalty.
        penalty: Penalty,
        /// Whether the member begins paused.
        paused: bool,
        /// The member name and the state interface.
        label: Label,
    },
    /// Removes the interface from the queue.
    Remove {
        /// The queue.
        queue: QueueName,
        /// The interface.
        interface: Interface,
    },
    /// Pauses or unpauses the interface in the queue; without a queue, in every one that it is a member of.
    Pause {
        /// The queue, if it is one alone.
        queue: Option<QueueName>,
        /// The interface.
        interface: Interface,
        /// Whether it is paused, and why.
        pause: Pause,
    },
    /// Sets the penalty of the interface in the queue; without a queue, in every one that it is a member of.
    Penalty {
        /// The queue, if it is one alone.
        queue: Option<QueueName>,
        /// The interface.
        interface: Interface,
        /// The penalty.
        penalty: Penalty,
    },
    /// Sets whether the interface is rung while its device is in use, in the queue; without a queue, in every one that it is a
    /// member of.
    RingInUse {
        /// The queue, if it is one alone.
        queue: Option<QueueName>,
        /// The interface.
        interface: Interface,
        /// Whether it is rung while its device is in use.
        ring: bool,
    },
    /// Counts a call of the queue that was completed.
    Completed {
        /// The queue.
        queue: QueueName,
    },
    /// Counts a call of the queue that was abandoned.
    Abandoned {
        /// The queue.
        queue: QueueName,
    },
}

// Exposes to the proof that both texts of a label are texts.
fn see_label(label: &Label)
    ensures { IsLabel label.now }
{
    let _ = label.name.as_bytes();
    let _ = label.state.as_bytes();
}

// Exposes to the proof the invariant of a pause.
fn see_pause(pause: &Pause)
    ensures { IsPause pause.now }
{
    let _ = pause.reason();
}

// A copy of a queue's name, if there is one.
fn copy_name(name: &Option<QueueName>) -> Option<QueueName>
    ensures { result ≡ name.now }
{
    match name {
        Some(name) => Some(name.copy()),
        None => None,
    }
}

// The add of these values.
fn copy_add(
    queue: &QueueName,
    interface: &Interface,
    penalty: Penalty,
    paused: bool,
    label: &Label,
) -> Command
    ensures { result ≡ Command.Add queue.now interface.now penalty paused label.now }
{
    Command::Add {
        queue: queue.copy(),
        interface: interface.copy(),
        penalty,
        paused,
        label: label.copy(),
    }
}

impl Command {
    ghost use Rattle.replica.specs.Changes.{change_of};
    ghost use Rattle.replica.specs.Promises.{IsChange};

    /// Returns a copy. Takes no memory.
    pub fn copy(&self) -> Command
        ensures { result ≡ self.now }
    {
        match self {
            Command::Add {
                queue,
                interface,
                penalty,
                paused,
                label,
            } => copy_add(queue, interface, *penalty, *paused, label),
            Command::Remove { queue, interface } => Command::Remove {
                queue: queue.copy(),
                interface: interface.copy(),
            },
            Command::Pause {
                queue,
                interface,
                pause,
            } => Command::Pause {
                queue: copy_name(queue),
                interface: interface.copy(),
                pause: pause.copy(),
            },
            Command::Penalty {
                queue,
                interface,
                penalty,
            } => Command::Penalty {
                queue: copy_name(queue),
                interface: interface.copy(),
                penalty: *penalty,
            },
            Command::RingInUse {
                queue,
                interface,
                ring,
            } => Command::RingInUse {
                queue: copy_name(queue),
                interface: interface.copy(),
                ring: *ring,
            },
            Command::Completed { queue } => Command::Completed {
                queue: queue.copy(),
            },
            Command::Abandoned { queue } => Command::Abandoned {
                queue: queue.copy(),
            },
        }
    }

    /// Exposes the value limits of its types to the proof. Does nothing.
    pub fn see_limits(&self)
        ensures { IsChange (change_of self.now) }
    {
        match self {
            Command::Add {
                interface,
                penalty,
                label,
                ..
            } => {
                let _ = interface.as_bytes();
                let _ = penalty.get();
                see_label(label);
            }
            Command::Remove { interface, .. } | Command::RingInUse { interface, .. } => {
                let _ = interface.as_bytes();
            }
            Command::Pause {
                interface,
                pause,
                ..
            } => {
                let _ = interface.as_bytes();
                see_pause(pause);
            }
            Command::Penalty {
                interface,
                penalty,
                ..
            } => {
                let _ = interface.as_bytes();
                let _ = penalty.get();
            }
            Command::Completed { .. } | Command::Abandoned { .. } => {}
        }
    }

    /// Whether it is the same command as the other. Takes no memory.
    pub fn same(&self, other: &Command) -> bool
        ensures { IsTrue result ↔ (self.now ≡ other.now) }
    {
        *self == *other
    }
}

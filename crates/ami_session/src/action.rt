//! The actions that a site answers, with their fields.
ghost use Rattle.std.specs.Prelude.{◌≡◌, [], ◌∷◌};
ghost use Rattle.std.specs.Option.{option_map};
ghost use Rattle.ami_session.specs.Actions.{absent_of};
ghost use Rattle.ami_session.specs.Replies.{refusal_text, removal_refusal_text};

use crate::values::is_word;
use ami_text::Message;
use replica::Refusal;

/// An action of the Manager Interface that asks a site.
#[derive(Clone, Copy)]
pub enum Action {
    /// Adds a member to a queue.
    QueueAdd,
    /// Removes a member from a queue.
    QueueRemove,
    /// Pauses or unpauses an interface in a queue or in every one that it is a member of.
    QueuePause,
    /// Sets the penalty of an interface in a queue or in every one that it is a member of.
    QueuePenalty,
    /// Sets whether an interface is rung while its device is in use, in a queue or in every one that it is a member of.
    QueueMemberRingInUse,
    /// Reports the queues and their members.
    QueueStatus,
}

// The first of two fields that the message lacks. `None`: it has both.
fn first_absent(
    message: &Message,
    first: &'static str,
    second: &'static str,
) -> Option<&'static str>
    ensures { option_map (λ name. name.now) result
        ≡ absent_of (first.now ∷ second.now ∷ []) message.now }
{
    if message.get(first.as_bytes()).is_none() {
        Some(first)
    } else if message.get(second.as_bytes()).is_none() {
        Some(second)
    } else {
        None
    }
}

// The error text of a refusal.
fn refusal_text(refusal: Refusal) -> &'static str
    ensures { result.now ≡ refusal_text refusal }
{
    match refusal {
        Refusal::NoSuchQueue => "No such queue",
        Refusal::AlreadyThere => "Unable to add interface: Already there",
        Refusal::NotThere => "Interface not found",
        Refusal::MembersFull => "Unable to change members: Full",
        Refusal::Exhausted => "Unable to change members: Numbers used up",
        Refusal::TotalFull => "Total full",
        Refusal::Memory => "Out of memory",
    }
}

// The error text of a refused removal.
fn removal_refusal_text(refusal: Refusal) -> &'static str
    ensures { result.now ≡ removal_refusal_text refusal }
{
    match refusal {
        Refusal::NotThere => "Unable to remove interface: Not there",
        other => refusal_text(other),
    }
}

impl Action {
    ghost use Rattle.ami_session.specs.Actions.{absent_in, action_named, row_of};

    /// The action of this name, compared without ASCII case. `None`: the site answers no such action.
    pub fn named(name: &[u8]) -> Option<Action>
        ensures { result ≡ action_named name.now }
    {
        if is_word(name, b"QueueAdd") {
            Some(Action::QueueAdd)
        } else if is_word(name, b"QueueRemove") {
            Some(Action::QueueRemove)
        } else if is_word(name, b"QueuePause") {
            Some(Action::QueuePause)
        } else if is_word(name, b"QueuePenalty") {
            Some(Action::QueuePenalty)
        } else if is_word(name, b"QueueMemberRingInUse") {
            Some(Action::QueueMemberRingInUse)
        } else if is_word(name, b"QueueStatus") {
            Some(Action::QueueStatus)
        } else {
            None
        }
    }

    /// The first field that the message must have and lacks, in the action's order. `None`: it lacks none.
    pub fn missing(self, message: &Message) -> Option<&'static str>
        ensures { option_map (λ name. name.now) result ≡ absent_in (row_of self) message.now }
    {
        match self {
            Action::QueueAdd | Action::QueueRemove => first_absent(message, "Queue", "Interface"),
            Action::QueuePause => first_absent(message, "Interface", "Paused"),
            Action::QueuePenalty => first_absent(message, "Interface", "Penalty"),
            Action::QueueMemberRingInUse => first_absent(message, "Interface", "RingInUse"),
            Action::QueueStatus => None,
        }
    }

    /// The success text, by whether the message's `Paused` says yes; empty for a `QueueStatus`, which is answered by a report.
    pub fn success(self, says_yes: bool) -> &'static str
        ensures { result.now ≡ (row_of self).success says_yes }
    {
        match self {
            Action::QueueAdd => "Added interface to queue",
            Action::QueueRemove => "Removed interface from queue",
            Action::QueuePause if says_yes => "Interface paused successfully",
            Action::QueuePause => "Interface unpaused successfully",
            Action::QueuePenalty => "Interface penalty set successfully",
            Action::QueueMemberRingInUse => "Interface ring in use set successfully",
            Action::QueueStatus => "",
        }
    }

    /// The error text of this refusal.
    pub fn refusal(self, refusal: Refusal) -> &'static str
        ensures { result.now ≡ (row_of self).refusal refusal }
    {
        match self {
            Action::QueueRemove => removal_refusal_text(refusal),
            Action::QueueAdd
            | Action::QueuePause
            | Action::QueuePenalty
            | Action::QueueMemberRingInUse
            | Action::QueueStatus => refusal_text(refusal),
        }
    }
}

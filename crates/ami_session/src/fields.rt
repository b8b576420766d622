//! The asks of the actions' messages, field by field.
ghost use Rattle.std.specs.Prelude.{◌≡◌, true, false, codes, Some, None, unwrap_or, MatchOption};
ghost use Rattle.std.specs.Prelude.{MatchResult, IfOk};
ghost use Rattle.std.specs.Option.{option_map};
ghost use Rattle.ami_text.specs.MessageFields.{value_of};
ghost use Rattle.ami_session.specs.FieldValues.{id_of, penalty_of};
ghost use Rattle.ami_session.specs.Actions.{AsksBy, Name, Text, absent_in, is_unread, row_of};
ghost use Rattle.ami_session.specs.Actions.{says_yes, text_at, unread_in};

use crate::action::Action;
use crate::values::{id_of, interface_of, is_yes, penalty_of, queue_of, text_of};
use ami_text::Message;
use dots::{Bytes, Label, Memory, Pause, Penalty, QueueName, Text80};
use replica::Command;
use status_report::{Ask, StatusRequest};
use std::alloc::Global;

/// The name of a field that is present but can't be read.
pub type Unreadable = &'static str;

/// The ActionID of a message; no bytes if it has none. One that holds a CR or NUL counts as absent. Fails only when out of memory.
pub fn action_id(alloc: Global, message: &Message) -> Result<Bytes, Memory>
    ensures { IfOk result (λ id. id ≡ id_of message.now) }
{
    Ok(Bytes::new(Vec::from_slice(alloc, id_of(message))?))
}

/// The value of a field; an absent one counts as empty.
pub fn text_at<'a>(message: &'a Message, name: &str) -> &'a [u8]
    ensures { result.now ≡ text_at name.now message.now }
{
    message.get(name.as_bytes()).unwrap_or(b"")
}

/// Whether a field says yes; an absent one doesn't.
pub fn says_yes(message: &Message, name: &str) -> bool
    ensures { result ≡ says_yes name.now message.now }
{
    is_yes(text_at(message, name))
}

// The penalty of a message; 0 where it is absent. `None`: it can't be read.
fn penalty_in(message: &Message) -> Option<Penalty>
    ensures { result ≡ penalty_of (unwrap_or (value_of (codes "Penalty") message.now) (codes "0")) }
{
    penalty_of(message.get(b"Penalty").unwrap_or(b"0"))
}

/// The ask of a QueueAdd without an absent required field; `paused` is whether its Paused says yes. `Err` names the first field, in the
/// order Queue, Interface, Penalty, MemberName, StateInterface, that can't be read; a Paused can always be read. An absent penalty is 0, an
/// absent Paused is no.
pub fn queue_add(message: &Message, paused: bool) -> Result<Command, Unreadable>
    requires none_absent { absent_in (row_of Action.QueueAdd) message.now ≡ None }
    requires paused { paused ≡ says_yes (codes "Paused") message.now }
    ensures { MatchResult result
        (λ command. AsksBy (row_of Action.QueueAdd) message.now (Ask.Command command))
        (λ name. unread_in (row_of Action.QueueAdd) message.now ≡ Some name.now) }
{
    let Some(queue) = queue_of(text_at(message, "Queue")) else {
        return Err("Queue");
    };
    let Some(interface) = interface_of(text_at(message, "Interface")) else {
        return Err("Interface");
    };
    let Some(penalty) = penalty_in(message) else {
        return Err("Penalty");
    };
    let Some(name) = text_of(text_at(message, "MemberName")) else {
        return Err("MemberName");
    };
    let Some(state) = text_of(text_at(message, "StateInterface")) else {
        return Err("StateInterface");
    };
    Ok(Command::Add {
        queue,
        interface,
        penalty,
        paused,
        label: Label { name, state },
    })
}

/// The ask of a QueueRemove without an absent required field. `Err` names the first of Queue and Interface that can't be read.
pub fn queue_remove(message: &Message) -> Result<Command, Unreadable>
    requires { absent_in (row_of Action.QueueRemove) message.now ≡ None }
    ensures { MatchResult result
        (λ command. AsksBy (row_of Action.QueueRemove) message.now (Ask.Command command))
        (λ name. unread_in (row_of Action.QueueRemove) message.now ≡ Some name.now) }
{
    let Some(queue) = queue_of(text_at(message, "Queue")) else {
        return Err("Queue");
    };
    let Some(interface) = interface_of(text_at(message, "Interface")) else {
        return Err("Interface");
    };
    Ok(Command::Remove { queue, interface })
}

// The queue of a value; `Some(None)` where there is no value, `None` where it is no name.
fn optional_queue(value: Option<&[u8]>) -> Option<Option<QueueName>>
    ensures { MatchOption result
        (is_unread Name (option_map (λ v. v.now) value.entry) ≡ true)
        (λ queue. (is_unread Name (option_map (λ v. v.now) value.entry) ≡ false)
        × (queue ≡ option_map (λ v. v.now) value.entry)) }
{
    match value {
        None => Some(None),
        Some(value) => queue_of(value).map(Some),
    }
}

/// The ask of a QueuePause without an absent required field; `paused` is whether its Paused says yes. Without a Queue it is for
/// every queue that the interface is a member of. `Err` names the first field, in the order Interface, Queue, Reason, that can't be
/// read; a reason is read whatever Paused says, and dropped if that isn't yes.
pub fn queue_pause(message: &Message, paused: bool) -> Result<Command, Unreadable>
    requires none_absent { absent_in (row_of Action.QueuePause) message.now ≡ None }
    requires paused { paused ≡ says_yes (codes "Paused") message.now }
    ensures { MatchResult result
        (λ command. AsksBy (row_of Action.QueuePause) message.now (Ask.Command command))
        (λ name. unread_in (row_of Action.QueuePause) message.now ≡ Some name.now) }
{
    let Some(interface) = interface_of(text_at(message, "Interface")) else {
        return Err("Interface");
    };
    let Some(queue) = optional_queue(message.get(b"Queue")) else {
        return Err("Queue");
    };
    let Some(reason) = text_of(text_at(message, "Reason")) else {
        return Err("Reason");
    };
    Ok(Command::Pause {
        queue,
        interface,
        pause: Pause::new(paused, reason),
    })
}

/// The ask of a QueuePenalty without an absent required field. Without a Queue it is for every queue that the interface is a member
/// of. `Err` names the first field, in the order Interface, Penalty, Queue, that can't be read.
pub fn queue_penalty(message: &Message) -> Result<Command, Unreadable>
    requires { absent_in (row_of Action.QueuePenalty) message.now ≡ None }
    ensures { MatchResult result
        (λ command. AsksBy (row_of Action.QueuePenalty) message.now (Ask.Command command))
        (λ name. unread_in (row_of Action.QueuePenalty) message.now ≡ Some name.now) }
{
    let Some(interface) = interface_of(text_at(message, "Interface")) else {
        return Err("Interface");
    };
    let Some(penalty) = penalty_in(message) else {
        return Err("Penalty");
    };
    let Some(queue) = optional_queue(message.get(b"Queue")) else {
        return Err("Queue");
    };
    Ok(Command::Penalty {
        queue,
        interface,
        penalty,
    })
}

/// The ask of a QueueMemberRingInUse without an absent required field. Without a Queue it is for every queue that the interface is
/// a member of. `Err` names the first of Interface and Queue that can't be read; a RingInUse can always be read.
pub fn queue_member_ring_in_use(message: &Message) -> Result<Command, Unreadable>
    requires { absent_in (row_of Action.QueueMemberRingInUse) message.now ≡ None }
    ensures { MatchResult result
        (λ command. AsksBy (row_of Action.QueueMemberRingInUse) message.now (Ask.Command command))
        (λ name. unread_in (row_of Action.QueueMemberRingInUse) message.now ≡ Some name.now) }
{
    let Some(interface) = interface_of(text_at(message, "Interface")) else {
        return Err("Interface");
    };
    let Some(queue) = optional_queue(message.get(b"Queue")) else {
        return Err("Queue");
    };
    Ok(Command::RingInUse {
        queue,
        interface,
        ring: says_yes(message, "RingInUse"),
    })
}

// The text of a value; `Some(None)` where there is no value, `None` where it is no text.
fn optional_text(value: Option<&[u8]>) -> Option<Option<Text80>>
    ensures { MatchOption result
        (is_unread Text (option_map (λ v. v.now) value.entry) ≡ true)
        (λ text. (is_unread Text (option_map (λ v. v.now) value.entry) ≡ false)
        × (text ≡ option_map (λ v. v.now) value.entry)) }
{
    match value {
        None => Some(None),
        Some(value) => text_of(value).map(Some),
    }
}

/// The ask of a QueueStatus, under this ActionID. `Err` names the first of Queue and Member that can't be read.
pub fn queue_status(message: &Message, action_id: Bytes) -> Result<StatusRequest, Unreadable>
    requires { action_id ≡ id_of message.now }
    ensures { MatchResult result
        (λ request. AsksBy (row_of Action.QueueStatus) message.now (Ask.Status request))
        (λ name. unread_in (row_of Action.QueueStatus) message.now ≡ Some name.now) }
{
    let Some(queue) = optional_text(message.get(b"Queue")) else {
        return Err("Queue");
    };
    let Some(member) = optional_text(message.get(b"Member")) else {
        return Err("Member");
    };
    Ok(StatusRequest {
        queue,
        member,
        action_id,
    })
}

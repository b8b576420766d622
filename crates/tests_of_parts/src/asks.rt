//! Asks as bytes: a command of each kind is encoded and decoded again, with each kind of answer, and bytes with each fault are refused for
//! it. The bytes are worked out by hand from docs/store.md.
ghost use Rattle.ask_code.specs.Values.{IsKeptAnswer};

use crate::parse::{interface, label, name, penalty, queue, text};
use ask_code::{AnsweredCommand, AskFault, MOST_ASK_BYTES, decode_ask, encode_ask};
use dots::{Interface, Label, Pause, QueueName, Text80};
use replica::{Command, Refusal};
use status_report::{Answer, Ask};
use std::process::Abort;

// Encodes a command with an answer, which must give these bytes, and decodes them, which must give both.
fn assert_coded(rt: &impl Abort, command: Command, answer: Result<(), Refusal>, bytes: &[u8])
    requires { IsKeptAnswer answer }
{
    let encoded = encode_ask(&command, answer);
    assert!(*rt; encoded.as_slice() == bytes);
    drop(encoded);
    let ask = decode_ask(bytes).expect(rt, "an ask");
    assert!(*rt; ask.command.same(&command));
    assert!(*rt; ask.answer == answer);
    drop(ask);
    drop(command);
}

#[test]
fn members_and_calls_are_spelled_and_read(rt: HostRuntime) {
    let add = Command::Add {
        queue: name(&rt, "sales"),
        interface: interface(&rt, "SIP/1"),
        penalty: penalty(&rt, "7"),
        paused: true,
        label: label(&rt, "Ann", "-"),
    };
    let bytes = b"\x01\x05sales\x05SIP/1\x00\x00\x00\x07\x01\x03Ann\x00\x00";
    assert_coded(&rt, add, Ok(()), bytes);
    let remove = Command::Remove {
        queue: name(&rt, "sales"),
        interface: interface(&rt, "SIP/1"),
    };
    let refused = Err(Refusal::NotThere);
    assert_coded(&rt, remove, refused, b"\x02\x05sales\x05SIP/1\x03");
    let completed = Command::Completed {
        queue: name(&rt, "sales"),
    };
    let refused = Err(Refusal::TotalFull);
    assert_coded(&rt, completed, refused, b"\x06\x05sales\x06");
    let abandoned = Command::Abandoned {
        queue: name(&rt, "sales"),
    };
    let refused = Err(Refusal::AlreadyThere);
    assert_coded(&rt, abandoned, refused, b"\x07\x05sales\x02");
}

#[test]
fn settings_are_spelled_and_read(rt: HostRuntime) {
    let tea = Command::Pause {
        queue: None,
        interface: interface(&rt, "SIP/1"),
        pause: Pause::new(true, text(&rt, "tea")),
    };
    assert_coded(&rt, tea, Ok(()), b"\x03\x00\x05SIP/1\x01\x03tea\x00");
    let back = Command::Pause {
        queue: queue(&rt, "sales"),
        interface: interface(&rt, "SIP/1"),
        pause: Pause::new(false, text(&rt, "-")),
    };
    let refused = Err(Refusal::NoSuchQueue);
    assert_coded(&rt, back, refused, b"\x03\x01\x05sales\x05SIP/1\x00\x01");
    let penalty = Command::Penalty {
        queue: None,
        interface: interface(&rt, "SIP/1"),
        penalty: penalty(&rt, "2147483647"),
    };
    let refused = Err(Refusal::Exhausted);
    let bytes = b"\x04\x00\x05SIP/1\x7f\xff\xff\xff\x05";
    assert_coded(&rt, penalty, refused, bytes);
    let ring = Command::RingInUse {
        queue: queue(&rt, "sales"),
        interface: interface(&rt, "SIP/1"),
        ring: true,
    };
    let refused = Err(Refusal::MembersFull);
    assert_coded(&rt, ring, refused, b"\x05\x01\x05sales\x05SIP/1\x01\x04");
}

#[test]
fn the_longest_ask_has_the_most_bytes(rt: HostRuntime) {
    let long = [b'a'; 80];
    let add = Command::Add {
        queue: QueueName::new(&long).expect(&rt, "a name"),
        interface: Interface::new(&long).expect(&rt, "an interface"),
        penalty: penalty(&rt, "2147483647"),
        paused: true,
        label: Label {
            name: Text80::new(&long).expect(&rt, "a text"),
            state: Text80::new(&long).expect(&rt, "a text"),
        },
    };
    let encoded = encode_ask(&add, Ok(()));
    drop(add);
    assert!(rt; encoded.as_slice().len() == MOST_ASK_BYTES);
    drop(encoded);
}

#[test]
fn a_refusal_for_memory_is_not_kept(rt: HostRuntime) {
    let ask = Ask::Command(Command::Completed {
        queue: name(&rt, "sales"),
    });
    let refused = Answer::Refused(Refusal::TotalFull);
    let kept = AnsweredCommand::of(&ask, &refused);
    drop(refused);
    assert!(rt; kept.is_some());
    drop(kept);
    let refused = Answer::Refused(Refusal::Memory);
    let kept = AnsweredCommand::of(&ask, &refused);
    drop(refused);
    drop(ask);
    assert!(rt; kept.is_none());
    drop(kept);
}

// Asserts why bytes are no ask.
fn assert_fault(rt: &impl Abort, bytes: &[u8], wanted: AskFault) {
    let fault = decode_ask(bytes).err();
    assert!(*rt; fault == Some(wanted), "in {bytes:?}");
}

// The first part that is at fault decides: `Truncated` if the bytes end within it.
#[test]
fn each_fault_has_its_bytes(rt: HostRuntime) {
    assert_fault(&rt, b"", AskFault::Truncated);
    assert_fault(&rt, b"\x00", AskFault::BadKind);
    assert_fault(&rt, b"\x08\x05sales\x00", AskFault::BadKind);
    assert_fault(&rt, b"\x06\x51sale", AskFault::Truncated);
    assert_fault(&rt, b"\x06\x00\x00", AskFault::BadText);
    assert_fault(&rt, b"\x06\x01\n\x00", AskFault::BadText);
    assert_fault(&rt, b"\x04\x02", AskFault::BadBit);
    let large = b"\x04\x00\x05SIP/1\x80\x00\x00\x00\x00";
    assert_fault(&rt, large, AskFault::BadNumber);
    assert_fault(&rt, b"\x04\x00\x05SIP/1\x80\x00\x00", AskFault::Truncated);
    assert_fault(&rt, b"\x06\x05sales", AskFault::Truncated);
    assert_fault(&rt, b"\x06\x05sales\x07", AskFault::BadAnswer);
    assert_fault(&rt, b"\x06\x05sales\x00\x00", AskFault::Trailing);
}

//! A command: its kind, and what follows it.
ghost use Rattle.std.specs.Prelude.{◌+◌, ◌≡◌, ◌≤◌, ◌++◌, IfErr, IfOk};
ghost use Rattle.arrayvec.specs.ArrayVec.{array_vec_len};
ghost use Rattle.ask_code.specs.declared.limits.TheConstants.{MOST_ASK_BYTES};
ghost use Rattle.ask_code.specs.Asks.{ContentFails, IsCommand, command_code, content_bytes};
ghost use Rattle.ask_code.specs.Asks.{kind_of, setting_code};

use crate::AskFault;
use crate::kind::Kind;
use crate::part::{AskBytes, Part, WrittenPart};
use crate::reader::Reader;
use dots::{Interface, Label, Pause, Penalty, QueueName};
use replica::Command;

// The parts of an add: queue, interface, penalty, whether the member begins paused, and label.
type AddParts = (QueueName, (Interface, (Penalty, (bool, Label))));

// The parts of a setting: the queue, if it is for one queue only, the interface, and the field.
type SettingParts<T> = (Option<QueueName>, (Interface, T));

// The kind of a command.
fn kind_of(command: &Command) -> Kind
    ensures { result ≡ kind_of command.now }
{
    match command {
        Command::Add { .. } => Kind::Add,
        Command::Remove { .. } => Kind::Remove,
        Command::Pause { .. } => Kind::Pause,
        Command::Penalty { .. } => Kind::Penalty,
        Command::RingInUse { .. } => Kind::RingInUse,
        Command::Completed { .. } => Kind::Completed,
        Command::Abandoned { .. } => Kind::Abandoned,
    }
}

// Writes what follows the kind of a setting. There is room for the longest: 163 bytes, and
// those of the value.
fn put_setting<T: WrittenPart>(
    queue: &Option<QueueName>,
    interface: &Interface,
    value: &T,
    out: &mut AskBytes,
)
    requires room { array_vec_len out.old + (163 + T.most) ≤ MOST_ASK_BYTES }
    ensures written { out.new.items ≡ out.old.items
        ++ (setting_code T.code).spell (queue.now, (interface.now, value.now)) }
    ensures within { (setting_code T.code).IsGood (queue.now, (interface.now, value.now)) }
    ensures most { array_vec_len out.new ≤ array_vec_len out.old + (163 + T.most) }
{
    queue.put(out);
    interface.put(out);
    value.put(out);
}

// Writes what follows the kind of a command. There is room for the longest: 329 bytes.
fn put_content(command: &Command, out: &mut AskBytes)
    requires room { array_vec_len out.old + 329 ≤ MOST_ASK_BYTES }
    ensures written { out.new.items ≡ out.old.items ++ content_bytes command.now }
    ensures within { IsCommand command.now }
    ensures most { array_vec_len out.new ≤ array_vec_len out.old + 329 }
{
    match command {
        Command::Add {
            queue,
            interface,
            penalty,
            paused,
            label,
        } => {
            queue.put(out);
            interface.put(out);
            penalty.put(out);
            paused.put(out);
            label.put(out);
        }
        Command::Remove { queue, interface } => {
            queue.put(out);
            interface.put(out);
        }
        Command::Pause {
            queue,
            interface,
            pause,
        } => put_setting(queue, interface, pause, out),
        Command::Penalty {
            queue,
            interface,
            penalty,
        } => put_setting(queue, interface, penalty, out),
        Command::RingInUse {
            queue,
            interface,
            ring,
        } => put_setting(queue, interface, ring, out),
        Command::Completed { queue } | Command::Abandoned { queue } => queue.put(out),
    }
}

// The add of these parts.
fn add_of(parts: AddParts) -> Command
    ensures { result ≡ Command.Add parts.0 parts.1.0 parts.1.1.0 parts.1.1.1.0 parts.1.1.1.1 }
{
    let (queue, (interface, (penalty, (paused, label)))) = parts;
    Command::Add {
        queue,
        interface,
        penalty,
        paused,
        label,
    }
}

// Reads what follows the kind of a command. Fails with the fault of the first part that is at
// fault; no contract says how far the reader is then.
fn read_content(kind: Kind, reader: &mut Reader<'_>) -> Result<Command, AskFault>
    ensures kind { IfOk result (λ command. kind_of command ≡ kind) }
    ensures good { IfOk result (λ command. IsCommand command) }
    ensures spelled { IfOk result (λ command. reader.old ≡ content_bytes command ++ reader.new) }
    ensures fault { IfErr result (λ fault. ContentFails kind fault reader.old) }
{
    match kind {
        Kind::Add => Ok(add_of(Part::read(reader)?)),
        Kind::Remove => {
            let (queue, interface): (QueueName, Interface) = Part::read(reader)?;
            Ok(Command::Remove { queue, interface })
        }
        Kind::Pause => {
            let (queue, (interface, pause)): SettingParts<Pause> = Part::read(reader)?;
            Ok(Command::Pause {
                queue,
                interface,
                pause,
            })
        }
        Kind::Penalty => {
            let (queue, (interface, penalty)): SettingParts<Penalty> = Part::read(reader)?;
            Ok(Command::Penalty {
                queue,
                interface,
                penalty,
            })
        }
        Kind::RingInUse => {
            let (queue, (interface, ring)): SettingParts<bool> = Part::read(reader)?;
            Ok(Command::RingInUse {
                queue,
                interface,
                ring,
            })
        }
        Kind::Completed => {
            let queue = QueueName::read(reader)?;
            Ok(Command::Completed { queue })
        }
        Kind::Abandoned => {
            let queue = QueueName::read(reader)?;
            Ok(Command::Abandoned { queue })
        }
    }
}

impl Part for Command {
    ghost code = { command_code };

    fn read(reader: &mut Reader<'_>) -> Result<Command, AskFault> {
        let kind = Kind::read(reader)?;
        read_content(kind, reader)
    }
}

impl WrittenPart for Command {
    ghost most = { 330 };

    fn put(&self, out: &mut AskBytes) {
        kind_of(self).put(out);
        put_content(self, out);
    }
}

//! Writes and reads the values that an ask has.
ghost use Rattle.std.specs.Prelude.{◌≡◌};
ghost use Rattle.ask_code.specs.Codes.{bit_code};
ghost use Rattle.ask_code.specs.Values.{IsKeptAnswer, answer_code, answer_number, kind_code};
ghost use Rattle.ask_code.specs.Values.{kind_number, label_code, name_code, pause_code, penalty_code, text_code};

use crate::AskFault;
use crate::kind::Kind;
use crate::part::{AskBytes, Part, WrittenPart};
use crate::reader::Reader;
use dots::{Interface, Label, Pause, Penalty, QueueName, Text80};
use replica::Refusal;

impl Part for Text80 {
    ghost code = { text_code };

    fn read(reader: &mut Reader<'_>) -> Result<Text80, AskFault> {
        let bytes = reader.counted()?;
        match Text80::new(bytes) {
            Ok(text) => Ok(text),
            Err(_) => Err(AskFault::BadText),
        }
    }
}

impl WrittenPart for Text80 {
    ghost most = { 81 };

    fn put(&self, out: &mut AskBytes) {
        let bytes = self.as_bytes();
        out.push(bytes.len() as u8);
        // The result is `Ok`, since there is room for 80 bytes more.
        let _ = out.try_extend_from_slice(bytes);
    }
}

impl Part for Interface {
    ghost code = { name_code };

    fn read(reader: &mut Reader<'_>) -> Result<Interface, AskFault> {
        let bytes = reader.counted()?;
        match Interface::new(bytes) {
            Ok(interface) => Ok(interface),
            Err(_) => Err(AskFault::BadText),
        }
    }
}

impl WrittenPart for Interface {
    ghost most = { 81 };

    fn put(&self, out: &mut AskBytes) {
        self.text().put(out);
    }
}

impl Part for QueueName {
    ghost code = { name_code };

    fn read(reader: &mut Reader<'_>) -> Result<QueueName, AskFault> {
        let bytes = reader.counted()?;
        match QueueName::new(bytes) {
            Ok(name) => Ok(name),
            Err(_) => Err(AskFault::BadText),
        }
    }
}

impl WrittenPart for QueueName {
    ghost most = { 81 };

    fn put(&self, out: &mut AskBytes) {
        self.text().put(out);
    }
}

impl Part for Penalty {
    ghost code = { penalty_code };

    fn read(reader: &mut Reader<'_>) -> Result<Penalty, AskFault> {
        let number = reader.number4()?;
        match Penalty::new(number) {
            Some(penalty) => Ok(penalty),
            None => Err(AskFault::BadNumber),
        }
    }
}

impl WrittenPart for Penalty {
    ghost most = { 4 };

    fn put(&self, out: &mut AskBytes) {
        // The result is `Ok`, since there is room for four bytes more.
        let _ = out.try_extend_from_slice(&self.get().to_be_bytes());
    }
}

impl Part for bool {
    ghost code = { bit_code };

    fn read(reader: &mut Reader<'_>) -> Result<bool, AskFault> {
        match reader.byte()? {
            0 => Ok(false),
            1 => Ok(true),
            _ => Err(AskFault::BadBit),
        }
    }
}

impl WrittenPart for bool {
    ghost most = { 1 };

    fn put(&self, out: &mut AskBytes) {
        out.push(u8::from(*self));
    }
}

impl Part for Pause {
    ghost code = { pause_code };

    fn read(reader: &mut Reader<'_>) -> Result<Pause, AskFault> {
        let reason: Option<Text80> = Part::read(reader)?;
        match reason {
            Some(reason) => Ok(Pause::new(true, reason)),
            None => Ok(Pause::new(false, Text80::empty())),
        }
    }
}

impl WrittenPart for Pause {
    ghost most = { 82 };

    fn put(&self, out: &mut AskBytes) {
        let reason = self.reason();
        self.paused().put(out);
        if self.paused() {
            reason.put(out);
        }
    }
}

impl Part for Label {
    ghost code = { label_code };

    fn read(reader: &mut Reader<'_>) -> Result<Label, AskFault> {
        let (name, state): (Text80, Text80) = Part::read(reader)?;
        Ok(Label { name, state })
    }
}

impl WrittenPart for Label {
    ghost most = { 162 };

    fn put(&self, out: &mut AskBytes) {
        self.name.put(out);
        self.state.put(out);
    }
}

// The number of a kind.
fn kind_number(kind: Kind) -> u8
    ensures { result ≡ kind_number kind }
{
    match kind {
        Kind::Add => 1,
        Kind::Remove => 2,
        Kind::Pause => 3,
        Kind::Penalty => 4,
        Kind::RingInUse => 5,
        Kind::Completed => 6,
        Kind::Abandoned => 7,
    }
}

impl Part for Kind {
    ghost code = { kind_code };

    fn read(reader: &mut Reader<'_>) -> Result<Kind, AskFault> {
        match reader.byte()? {
            1 => Ok(Kind::Add),
            2 => Ok(Kind::Remove),
            3 => Ok(Kind::Pause),
            4 => Ok(Kind::Penalty),
            5 => Ok(Kind::RingInUse),
            6 => Ok(Kind::Completed),
            7 => Ok(Kind::Abandoned),
            _ => Err(AskFault::BadKind),
        }
    }
}

impl WrittenPart for Kind {
    ghost most = { 1 };

    fn put(&self, out: &mut AskBytes) {
        out.push(kind_number(*self));
    }
}

// The number of an answer that a store keeps: any but `Memory`.
pub(crate) fn answer_number(answer: Result<(), Refusal>) -> u8
    requires { IsKeptAnswer answer }
    ensures { result ≡ answer_number answer }
{
    match answer {
        Ok(()) => 0,
        Err(Refusal::NoSuchQueue) => 1,
        Err(Refusal::AlreadyThere) => 2,
        Err(Refusal::NotThere) => 3,
        Err(Refusal::MembersFull) => 4,
        Err(Refusal::Exhausted) => 5,
        Err(Refusal::TotalFull) => 6,
        Err(Refusal::Memory) => unreachable!(),
    }
}

impl Part for Result<(), Refusal> {
    ghost code = { answer_code };

    fn read(reader: &mut Reader<'_>) -> Result<Result<(), Refusal>, AskFault> {
        match reader.byte()? {
            0 => Ok(Ok(())),
            1 => Ok(Err(Refusal::NoSuchQueue)),
            2 => Ok(Err(Refusal::AlreadyThere)),
            3 => Ok(Err(Refusal::NotThere)),
            4 => Ok(Err(Refusal::MembersFull)),
            5 => Ok(Err(Refusal::Exhausted)),
            6 => Ok(Err(Refusal::TotalFull)),
            _ => Err(AskFault::BadAnswer),
        }
    }
}

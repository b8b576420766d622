ghost use Rattle.std.specs.Prelude.{◌≡◌, ◌≤◌, IfOk, IsTrue, length, ◌↔◌};
ghost use Rattle.std.specs.Int.{w16, w32, w64};
ghost use Rattle.dots.specs.declared.limits.TheConstants.{TEXT_BYTES};
ghost use Rattle.delta_codec.specs.Frames.{magic};
ghost use Rattle.delta_codec.specs.Reading.{ReturnsRead, byte_at, bytes_of, magic_at, number_at};
ghost use Rattle.delta_codec.specs.Reading.{text_of, version_at};

use crate::{DecodeFault, OLDEST_VERSION, VERSION};
use dots::Text80;
use std::marker::Model;

// Bytes that are read in order. Contracts see those that are left, except after a fault. A
// read fails with `BadRange` if too few bytes are left, unless it names another fault.
#[derive(Drop)]
pub(crate) struct Reader<'a> {
    left: &'a [u8],
}

impl<'a> Model for Reader<'a> {
    ghost use Rattle.std.specs.Prelude.{ℕ, List};

    ghost Value = { List ℕ };

    ghost view = { λ r. r.left.now };
}

impl<'a> Reader<'a> {
    // A reader of these bytes.
    pub(crate) fn new(bytes: &'a [u8]) -> Reader<'a>
        ensures { result ≡ bytes.now }
    {
        Reader { left: bytes }
    }

    // Whether no bytes are left.
    pub(crate) fn is_at_end(&self) -> bool
        ensures { IsTrue result ↔ (length self.now ≡ 0) }
    {
        self.left.is_empty()
    }

    // One byte.
    pub(crate) fn byte(&mut self) -> Result<u8, DecodeFault>
        ensures { ReturnsRead (λ x. (x, self.new)) result (byte_at self.old) }
    {
        match self.left {
            [] => Err(DecodeFault::BadRange),
            [byte, rest @ ..] => {
                self.left = rest;
                Ok(*byte)
            }
        }
    }

    // A number of two bytes.
    pub(crate) fn number2(&mut self) -> Result<u16, DecodeFault>
        ensures { ReturnsRead (λ x. (x, self.new)) result (number_at w16 self.old) }
    {
        if self.left.len() < 2 {
            return Err(DecodeFault::BadRange);
        }
        let (front, rest) = self.left.split_at(2);
        self.left = rest;
        Ok(u16::from_be_bytes([front[0], front[1]]))
    }

    // A number of four bytes.
    pub(crate) fn number4(&mut self) -> Result<u32, DecodeFault>
        ensures { ReturnsRead (λ x. (x, self.new)) result (number_at w32 self.old) }
    {
        if self.left.len() < 4 {
            return Err(DecodeFault::BadRange);
        }
        let (front, rest) = self.left.split_at(4);
        self.left = rest;
        let number = u32::from_be_bytes([front[0], front[1], front[2], front[3]]);
        Ok(number)
    }

    // A number of eight bytes.
    pub(crate) fn number8(&mut self) -> Result<u64, DecodeFault>
        ensures { ReturnsRead (λ x. (x, self.new)) result (number_at w64 self.old) }
    {
        if self.left.len() < 8 {
            return Err(DecodeFault::BadRange);
        }
        let (front, rest) = self.left.split_at(8);
        self.left = rest;
        let number = u64::from_be_bytes([
            front[0], front[1], front[2], front[3], front[4], front[5], front[6], front[7],
        ]);
        Ok(number)
    }

    // The next `len` bytes.
    pub(crate) fn bytes(&mut self, len: usize) -> Result<&'a [u8], DecodeFault>
        ensures value { ReturnsRead (λ x. (x.now, self.new)) result (bytes_of len self.old) }
        ensures size { IfOk result (λ x. length x.now ≡ len) }
    {
        if self.left.len() < len {
            return Err(DecodeFault::BadRange);
        }
        let (front, rest) = self.left.split_at(len);
        self.left = rest;
        Ok(front)
    }

    // The next `len` bytes as a text. `BadText` if one of them is a CR, LF or NUL.
    #[tactic(auto, unfolding(crate::specs::Reading::text_of))]
    pub(crate) fn text(&mut self, len: usize) -> Result<Text80, DecodeFault>
        requires { len ≤ TEXT_BYTES }
        ensures value { ReturnsRead (λ x. (x, self.new)) result (text_of len self.old) }
        ensures size { IfOk result (λ x. length x ≡ len) }
    {
        let front = self.bytes(len)?;
        match Text80::new(front) {
            Ok(text) => Ok(text),
            Err(_) => Err(DecodeFault::BadText),
        }
    }

    // The two letters that follow each frame's length. `BadMagic` if they are missing or
    // others.
    #[tactic(auto, unfolding(crate::specs::Reading::magic_at))]
    pub(crate) fn magic(&mut self) -> Result<(), DecodeFault>
        ensures { ReturnsRead (λ _. (magic, self.new)) result (magic_at self.old) }
    {
        match self.left {
            [first, second, rest @ ..] => {
                if *first != b'Q' || *second != b'D' {
                    return Err(DecodeFault::BadMagic);
                }
                self.left = rest;
                Ok(())
            }
            _ => Err(DecodeFault::BadMagic),
        }
    }

    // The version of the format, from `OLDEST_VERSION` to `VERSION`. `BadVersion` if it is
    // missing or another.
    #[tactic(auto, unfolding(crate::specs::Reading::version_at))]
    pub(crate) fn version(&mut self) -> Result<u8, DecodeFault>
        ensures { ReturnsRead (λ x. (x, self.new)) result (version_at self.old) }
    {
        match self.left {
            [] => Err(DecodeFault::BadVersion),
            [number, rest @ ..] => {
                if *number < OLDEST_VERSION || *number > VERSION {
                    return Err(DecodeFault::BadVersion);
                }
                self.left = rest;
                Ok(*number)
            }
        }
    }
}

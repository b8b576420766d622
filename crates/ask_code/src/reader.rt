ghost use Rattle.std.specs.Prelude.{◌≡◌, ◌≤◌, ◌<◌, ◌^◌, ◌∷◌, ◌++◌, [], length, IfErr, IfOk, IsTrue, ◌↔◌};
ghost use Rattle.std.specs.Int.{w32, to_be_bytes};
ghost use Rattle.ask_code.specs.Codes.{counted_code};

use crate::AskFault;
use std::marker::Model;

// Bytes that are read in order. Contracts see those that are left, except after a fault. A read
// fails with `Truncated` exactly where too few bytes are left.
#[derive(Drop)]
pub(crate) struct Reader<'a> {
    left: &'a [u8],
}

impl<'a> Model for Reader<'a> {
    ghost use Rattle.std.specs.Prelude.{ℕ, List};

    ghost Value = { List ℕ };

    ghost view = { λ r. r.left.now };
}

impl<'a> Reader<'a> {
    // A reader of these bytes.
    pub(crate) fn new(bytes: &'a [u8]) -> Reader<'a>
        ensures { result ≡ bytes.now }
    {
        Reader { left: bytes }
    }

    // Whether no bytes are left.
    pub(crate) fn is_at_end(&self) -> bool
        ensures { IsTrue result ↔ (self.now ≡ []) }
    {
        self.left.is_empty()
    }

    // Reads one byte.
    pub(crate) fn byte(&mut self) -> Result<u8, AskFault>
        ensures ok { IfOk result (λ byte. self.old ≡ byte ∷ self.new) }
        ensures err { IfErr result (λ fault. (self.old ≡ []) × (fault ≡ AskFault.Truncated)) }
    {
        match self.left {
            [] => Err(AskFault::Truncated),
            [byte, rest @ ..] => {
                self.left = rest;
                Ok(*byte)
            }
        }
    }

    // Reads a number of four bytes.
    pub(crate) fn number4(&mut self) -> Result<u32, AskFault>
        ensures ok { IfOk result (λ number. self.old ≡ to_be_bytes w32 number ++ self.new) }
        ensures err { IfErr result
            (λ fault. (length self.old < 4) × (fault ≡ AskFault.Truncated)) }
    {
        if self.left.len() < 4 {
            return Err(AskFault::Truncated);
        }
        let (front, rest) = self.left.split_at(4);
        self.left = rest;
        let number = u32::from_be_bytes([front[0], front[1], front[2], front[3]]);
        Ok(number)
    }

    // Reads bytes with their length before them, one byte, and returns them without it.
    pub(crate) fn counted(&mut self) -> Result<&'a [u8], AskFault>
        ensures ok { IfOk result (λ bytes. self.old ≡ length bytes.now ∷ (bytes.now ++ self.new)) }
        ensures most { IfOk result (λ bytes. length bytes.now < 256) }
        ensures err { IfErr result (λ fault. counted_code.Fails fault self.old) }
    {
        let len = usize::from(self.byte()?);
        if self.left.len() < len {
            return Err(AskFault::Truncated);
        }
        let (front, rest) = self.left.split_at(len);
        self.left = rest;
        Ok(front)
    }
}

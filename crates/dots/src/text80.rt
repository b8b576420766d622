ghost use Rattle.std.specs.Prelude.{◌≡◌, ◌↔◌, ◌<◌, ◌≤◌, true, false, [], length, IsTrue, IsOk};
ghost use Rattle.std.specs.Prelude.{IfOk, IsErrOf};
ghost use Rattle.std.specs.List.{list_any};
ghost use Rattle.std.proofs.Common.{rules};
ghost use Rattle.std.specs.Cmp.{partial_order_from_own_ties};
ghost use Rattle.std.specs.Cmp.Rules.{comparing};
ghost use Rattle.std.specs.Ordering.{as_partial_cmp};
ghost use Rattle.dots.specs.Values.{IsText, IsName, is_bad_byte};
ghost use Rattle.dots.specs.Orders.{text_cmp};

use crate::TextFault;
use crate::limits::TEXT_BYTES;
use arrayvec::ArrayVec;
use std::cmp::Ordering;
use std::marker::Model;

/// A short text: at most 80 bytes, none of them CR, LF or NUL. It may be empty. Texts are ordered by their
/// bytes, a prefix first.
#[derive(Debug, Drop, PartialEq, Eq, Hash)]
pub struct Text80 {
    bytes: ArrayVec<u8, TEXT_BYTES>,
}

impl Model for Text80 {
    ghost use Rattle.std.specs.Prelude.{ℕ, List};
    ghost use Rattle.dots.specs.Values.{IsText};

    ghost Value = { List ℕ };

    ghost view = { λ t. t.bytes.items };

    ghost invariant = { λ t. IsText t.bytes.items };

    ghost inverse = { λ bytes. record { bytes = record { items = bytes } } };
}

// Whether one of the bytes is CR, LF or NUL, which may not stand in a text.
fn has_bad_byte(bytes: &[u8]) -> bool
    ensures { result ≡ list_any is_bad_byte bytes.now }
{
    bytes.iter().any(|b| *b == 0 || *b == b'\n' || *b == b'\r')
}

impl Text80 {
    /// The text of no bytes.
    pub fn empty() -> Text80
        ensures { result ≡ [] }
    {
        Text80 {
            bytes: ArrayVec::new(),
        }
    }

    /// The text of these bytes. Errors, in order: `TooLong` where there are more than 80; `BadByte` where
    /// one is CR, LF or NUL. Never returns `Empty`.
    pub fn new(bytes: &[u8]) -> Result<Text80, TextFault>
        ensures within { IsOk result ↔ IsText bytes.now }
        ensures value { IfOk result (λ text. text ≡ bytes.now) }
        ensures too_long { IsErrOf result TextFault.TooLong ↔ (TEXT_BYTES < length bytes.now) }
        ensures bad_byte { IsErrOf result TextFault.BadByte
            ↔ ((length bytes.now ≤ TEXT_BYTES) × IsTrue (list_any is_bad_byte bytes.now)) }
    {
        if bytes.len() > TEXT_BYTES {
            return Err(TextFault::TooLong);
        }
        if has_bad_byte(bytes) {
            return Err(TextFault::BadByte);
        }
        let mut held = ArrayVec::new();
        match held.try_extend_from_slice(bytes) {
            Ok(()) => Ok(Text80 { bytes: held }),
            Err(_) => Err(TextFault::TooLong),
        }
    }

    // The text of these bytes as a name. Errors, in order: `TooLong` where there are more than 80; `BadByte`
    // where one is CR, LF or NUL; `Empty` where there are none.
    pub(crate) fn of_name(bytes: &[u8]) -> Result<Text80, TextFault>
        ensures within { IsOk result ↔ IsName bytes.now }
        ensures value { IfOk result (λ text. text ≡ bytes.now) }
        ensures too_long { IsErrOf result TextFault.TooLong ↔ (TEXT_BYTES < length bytes.now) }
        ensures bad_byte { IsErrOf result TextFault.BadByte
            ↔ ((length bytes.now ≤ TEXT_BYTES) × IsTrue (list_any is_bad_byte bytes.now)) }
        ensures empty { IsErrOf result TextFault.Empty ↔ (bytes.now ≡ []) }
    {
        let text = Text80::new(bytes)?;
        if bytes.is_empty() {
            return Err(TextFault::Empty);
        }
        Ok(text)
    }

    /// The bytes of this text, at most 80.
    pub fn as_bytes(&self) -> &[u8]
        ensures value { result.now ≡ self.now }
        ensures limit { IsText result.now }
    {
        self.bytes.as_slice()
    }

    /// Whether this text has no bytes.
    pub fn is_empty(&self) -> bool
        ensures { IsTrue result ↔ (self.now ≡ []) }
    {
        self.bytes.is_empty()
    }

    /// Returns a copy. Takes no memory.
    pub fn copy(&self) -> Text80
        ensures { result ≡ self.now }
    {
        let mut bytes = ArrayVec::new();
        let _ = bytes.try_extend_from_slice(self.bytes.as_slice());
        Text80 { bytes }
    }
}

impl Ord for Text80 {
    ghost cmp = { text_cmp };

    ghost total = { Prim.search (comparing, rules) };

    ghost matches_partial_cmp = { Prim.search (comparing, rules) };

    ghost matches_eq = { Prim.search (comparing, rules) };

    fn cmp(&self, other: &Text80) -> Ordering {
        self.bytes.as_slice().cmp(other.bytes.as_slice())
    }
}

impl PartialOrd for Text80 {
    ghost partial_cmp = { as_partial_cmp text_cmp };

    ghost laws = { partial_order_from_own_ties (Prim.search (comparing, rules))
        (Prim.search (comparing, rules)) };

    fn partial_cmp(&self, other: &Text80) -> Option<Ordering> {
        Some(self.cmp(other))
    }
}

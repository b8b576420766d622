ghost use Rattle.std.specs.Prelude.{◌≡◌, ◌↔◌, ◌<◌, ◌≤◌, [], length, IsTrue, IsOk, IfOk, IsErrOf};
ghost use Rattle.std.specs.List.{list_any};
ghost use Rattle.std.proofs.Common.{rules};
ghost use Rattle.std.specs.Cmp.{partial_order_from_own_ties};
ghost use Rattle.std.specs.Cmp.Rules.{comparing};
ghost use Rattle.std.specs.Ordering.{as_partial_cmp};
ghost use Rattle.dots.specs.Values.{IsName, is_bad_byte};
ghost use Rattle.dots.specs.Orders.{text_cmp};

use crate::limits::TEXT_BYTES;
use crate::{Text80, TextFault};
use std::cmp::Ordering;
use std::marker::Model;

/// The interface of a member, such as `SIP/1001` (Asterisk's QueueAdd): a text of 1 to 80 bytes.
/// Interfaces are compared byte by byte, a prefix first.
#[derive(Debug, Drop, PartialEq, Eq)]
pub struct Interface {
    text: Text80,
}

impl Model for Interface {
    ghost use Rattle.std.specs.Prelude.{ℕ, List};
    ghost use Rattle.dots.specs.Values.{IsName};

    ghost Value = { List ℕ };

    ghost view = { λ i. i.text };

    ghost invariant = { λ i. IsName i.text };

    ghost inverse = { λ bytes. record { text = bytes } };
}

impl Interface {
    /// The interface of these bytes. Errors, in order: `TooLong` where there are more than 80; `BadByte`
    /// where one is CR, LF or NUL; `Empty` where there are none.
    pub fn new(bytes: &[u8]) -> Result<Interface, TextFault>
        ensures within { IsOk result ↔ IsName bytes.now }
        ensures value { IfOk result (λ interface. interface ≡ bytes.now) }
        ensures too_long { IsErrOf result TextFault.TooLong ↔ (TEXT_BYTES < length bytes.now) }
        ensures bad_byte { IsErrOf result TextFault.BadByte
            ↔ ((length bytes.now ≤ TEXT_BYTES) × IsTrue (list_any is_bad_byte bytes.now)) }
        ensures empty { IsErrOf result TextFault.Empty ↔ (bytes.now ≡ []) }
    {
        let text = Text80::of_name(bytes)?;
        Ok(Interface { text })
    }

    /// The bytes of this interface, 1 to 80.
    pub fn as_bytes(&self) -> &[u8]
        ensures value { result.now ≡ self.now }
        ensures limit { IsName result.now }
    {
        self.text.as_bytes()
    }

    /// This interface as a text.
    pub fn text(&self) -> &Text80
        ensures value { result.now ≡ self.now }
        ensures limit { IsName result.now }
    {
        &self.text
    }

    /// Returns a copy. Takes no memory.
    pub fn copy(&self) -> Interface
        ensures { result ≡ self.now }
    {
        Interface {
            text: self.text.copy(),
        }
    }
}

impl Ord for Interface {
    ghost cmp = { text_cmp };

    ghost total = { Prim.search (comparing, rules) };

    ghost matches_partial_cmp = { Prim.search (comparing, rules) };

    ghost matches_eq = { Prim.search (comparing, rules) };

    fn cmp(&self, other: &Interface) -> Ordering {
        self.text.cmp(&other.text)
    }
}

impl PartialOrd for Interface {
    ghost partial_cmp = { as_partial_cmp text_cmp };

    ghost laws = { partial_order_from_own_ties (Prim.search (comparing, rules))
        (Prim.search (comparing, rules)) };

    fn partial_cmp(&self, other: &Interface) -> Option<Ordering> {
        Some(self.cmp(other))
    }
}

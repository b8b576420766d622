ghost use Rattle.std.specs.Prelude.{◌≡◌, ◌↔◌, ◌<◌, ◌≤◌, [], length, IsTrue, IsOk, IfOk, IsErrOf};
ghost use Rattle.std.specs.List.{list_any};
ghost use Rattle.std.proofs.Common.{rules};
ghost use Rattle.std.specs.Cmp.{partial_order_from_own_ties};
ghost use Rattle.std.specs.Cmp.Rules.{comparing};
ghost use Rattle.std.specs.Ordering.{as_partial_cmp};
ghost use Rattle.dots.specs.Values.{IsName, is_bad_byte};
ghost use Rattle.dots.specs.Orders.{text_cmp};

use crate::limits::TEXT_BYTES;
use crate::{Text80, TextFault};
use std::cmp::Ordering;
use std::marker::Model;

/// The name of a queue, such as `sales` (Asterisk's queue actions): a text of 1 to 80 bytes.
/// Names are compared byte by byte, a prefix first.
#[derive(Debug, Drop, PartialEq, Eq, Hash)]
pub struct QueueName {
    text: Text80,
}

impl Model for QueueName {
    ghost use Rattle.std.specs.Prelude.{ℕ, List};
    ghost use Rattle.dots.specs.Values.{IsName};

    ghost Value = { List ℕ };

    ghost view = { λ n. n.text };

    ghost invariant = { λ n. IsName n.text };

    ghost inverse = { λ bytes. record { text = bytes } };
}

impl QueueName {
    /// The name of these bytes. Errors, in order: `TooLong` where there are more than 80; `BadByte`
    /// where one is CR, LF or NUL; `Empty` where there are none.
    pub fn new(bytes: &[u8]) -> Result<QueueName, TextFault>
        ensures within { IsOk result ↔ IsName bytes.now }
        ensures value { IfOk result (λ name. name ≡ bytes.now) }
        ensures too_long { IsErrOf result TextFault.TooLong ↔ (TEXT_BYTES < length bytes.now) }
        ensures bad_byte { IsErrOf result TextFault.BadByte
            ↔ ((length bytes.now ≤ TEXT_BYTES) × IsTrue (list_any is_bad_byte bytes.now)) }
        ensures empty { IsErrOf result TextFault.Empty ↔ (bytes.now ≡ []) }
    {
        let text = Text80::of_name(bytes)?;
        Ok(QueueName { text })
    }

    /// The bytes of this name, 1 to 80.
    pub fn as_bytes(&self) -> &[u8]
        ensures value { result.now ≡ self.now }
        ensures limit { IsName result.now }
    {
        self.text.as_bytes()
    }

    /// This name as a text.
    pub fn text(&self) -> &Text80
        ensures value { result.now ≡ self.now }
        ensures limit { IsName result.now }
    {
        &self.text
    }

    /// Returns a copy. Takes no memory.
    pub fn copy(&self) -> QueueName
        ensures value { result ≡ self.now }
        ensures limit { IsName result }
    {
        QueueName {
            text: self.text.copy(),
        }
    }
}

impl Ord for QueueName {
    ghost cmp = { text_cmp };

    ghost total = { Prim.search (comparing, rules) };

    ghost matches_partial_cmp = { Prim.search (comparing, rules) };

    ghost matches_eq = { Prim.search (comparing, rules) };

    fn cmp(&self, other: &QueueName) -> Ordering {
        self.text.cmp(&other.text)
    }
}

impl PartialOrd for QueueName {
    ghost partial_cmp = { as_partial_cmp text_cmp };

    ghost laws = { partial_order_from_own_ties (Prim.search (comparing, rules))
        (Prim.search (comparing, rules)) };

    fn partial_cmp(&self, other: &QueueName) -> Option<Ordering> {
        Some(self.cmp(other))
    }
}

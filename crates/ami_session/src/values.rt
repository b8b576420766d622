//! Reads the values of fields.
ghost use Rattle.std.specs.Prelude.{◌≡◌, ◌≢◌, ◌↔◌, [], unwrap_or, IsTrue};
ghost use Rattle.std.specs.List.{list_any};
ghost use Rattle.std.specs.Str.{bytes_eq};
ghost use Rattle.ami_text.specs.MessageFields.{trim_of};
ghost use Rattle.ami_session.specs.FieldValues.{is_word, is_yes, is_bad_in_id, clean_id, id_of};
ghost use Rattle.ami_session.specs.FieldValues.{text_of, name_of, penalty_of};

use ami_text::{Message, number_in, trimmed};
use dots::{Interface, Penalty, QueueName, Text80};

/// Whether a text is this word, without ASCII case.
pub fn is_word(text: &[u8], word: &[u8]) -> bool
    ensures { result ≡ is_word text.now word.now }
{
    text.eq_ignore_ascii_case(word)
}

/// Whether a value says yes: `yes`, `true`, `y`, `t`, `1` or `on`, without ASCII case.
pub fn is_yes(value: &[u8]) -> bool
    ensures { result ≡ is_yes value.now }
{
    is_word(value, b"yes")
        || is_word(value, b"true")
        || is_word(value, b"y")
        || is_word(value, b"t")
        || is_word(value, b"1")
        || is_word(value, b"on")
}

// Whether a value holds a CR or NUL.
fn has_bad_in_id(value: &[u8]) -> bool
    ensures { result ≡ list_any is_bad_in_id value.now }
{
    value.iter().any(|b| *b == b'\r' || *b == 0)
}

// A value as an ActionID; no bytes if it holds a CR or NUL.
fn clean_id(value: &[u8]) -> &[u8]
    ensures { result.now ≡ clean_id value.now }
{
    if has_bad_in_id(value) { b"" } else { value }
}

/// The ActionID of a message; no bytes where it has none. One that holds a CR or NUL counts as absent.
pub fn id_of(message: &Message) -> &[u8]
    ensures { result.now ≡ id_of message.now }
{
    clean_id(message.get(b"ActionID").unwrap_or(b""))
}

/// The text of a value. `None`: it has more than 80 bytes, or a CR, LF or NUL.
pub fn text_of(value: &[u8]) -> Option<Text80>
    ensures { result ≡ text_of value.now }
{
    Text80::new(value).ok()
}

/// Whether a client can send this user or secret: a field's value is read without the spaces and tabs at its ends, and an empty
/// one counts as absent. No client can log in with another word, except with an empty one, by a Login without that field.
pub fn is_login_word(word: &Text80) -> bool
    ensures { IsTrue result ↔ ((word.now ≢ []) × (trim_of word.now ≡ word.now)) }
{
    !word.is_empty() && trimmed(word.as_bytes()) == word.as_bytes()
}

/// Whether two texts are the same. Reads every byte of the shorter one, so that the time that it takes shows at most how long the
/// texts are, and not where they differ.
pub fn is_same_text(one: &[u8], other: &[u8]) -> bool
    ensures { result ≡ bytes_eq one.now other.now }
{
    let mut left = one;
    let mut right = other;
    let mut is_same = true;
    while let (Some((byte, more)), Some((same, others))) = (
        left.split_first(),
        right.split_first(),
    ) {
        is_same = is_same & (*byte == *same);
        left = more;
        right = others;
    }
    is_same & left.is_empty() & right.is_empty()
}

/// The interface of a value. `None`: it is empty or no text.
pub fn interface_of(value: &[u8]) -> Option<Interface>
    ensures { result ≡ name_of value.now }
{
    Interface::new(value).ok()
}

/// The queue name of a value. `None`: it is empty or no text.
pub fn queue_of(value: &[u8]) -> Option<QueueName>
    ensures { result ≡ name_of value.now }
{
    QueueName::new(value).ok()
}

/// The penalty of 1 to 10 decimal digits, at most 2147483647. `None`: the value is none.
pub fn penalty_of(digits: &[u8]) -> Option<Penalty>
    ensures { result ≡ penalty_of digits.now }
{
    let number = number_in(10, digits)?;
    Penalty::new(u32::try_from(number).ok()?)
}

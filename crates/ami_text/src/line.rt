//! One line, without the LF that ends it.

ghost use Rattle.std.specs.Prelude.{◌≡◌, ℕ, List};
ghost use Rattle.std.specs.Option.{option_map};
ghost use Rattle.std.specs.Borrow.{Bor};
ghost use Rattle.ami_text.specs.MessageFields.{field_of, trim_of, trimmed_end as trimmed_end_of};
ghost use Rattle.ami_text.specs.MessageFields.{trimmed_front as trimmed_front_of};
ghost use Rattle.ami_text.specs.LineKind.{HasKind};
ghost use Rattle.ami_text.specs.Lines.{content as content_of};

use crate::line_kind::LineKind;
use bstr::ByteSlice;

/// The most bytes of a line's content.
pub const CONTENT_LIMIT: usize = 1024;

/// The line without one CR at its end.
pub fn content(line: &[u8]) -> &[u8]
    ensures { result.now ≡ content_of line.now }
{
    match line {
        [content @ .., b'\r'] => content,
        _ => line,
    }
}

/// The kind of the line, by its content's length.
pub fn kind(line: &[u8]) -> LineKind
    ensures { HasKind line.now result }
{
    match content(line).len() {
        0 => LineKind::Empty,
        1..=CONTENT_LIMIT => LineKind::Full,
        _ => LineKind::TooLong,
    }
}

/// The bytes without spaces and tabs at their front.
pub fn trimmed_front(bytes: &[u8]) -> &[u8]
    ensures { result.now ≡ trimmed_front_of bytes.now }
{
    let mut rest = bytes;
    while let [b' ' | b'\t', behind @ ..] = rest {
        rest = behind;
    }
    rest
}

/// The bytes without spaces and tabs at their end.
pub fn trimmed_end(bytes: &[u8]) -> &[u8]
    ensures { result.now ≡ trimmed_end_of bytes.now }
{
    let mut rest = bytes;
    while let [before @ .., b' ' | b'\t'] = rest {
        rest = before;
    }
    rest
}

/// The bytes without spaces and tabs at both ends, as a field's name and its value are read.
pub fn trimmed(bytes: &[u8]) -> &[u8]
    ensures { result.now ≡ trim_of bytes.now }
{
    trimmed_end(trimmed_front(bytes))
}

/// The name and the value of a line's content: the text before and after its first colon, each
/// without spaces and tabs at its ends. `None` without a colon.
pub fn name_and_value(content: &[u8]) -> Option<(&[u8], &[u8])>
    ensures { option_map (λ (p : Bor (List ℕ) × Bor (List ℕ)). (p.0.now, p.1.now)) result
        ≡ field_of content.now }
{
    let colon = content.find_byte(b':')?;
    Some((trimmed(&content[..colon]), trimmed(&content[colon + 1..])))
}

ghost use Rattle.std.specs.Prelude.{◌≡◌, ℕ, List, [], ◌∷◌, ◌++◌, All, IfOk, OnOk};
ghost use Rattle.std.specs.Option.{option_copied};
ghost use Rattle.ami_text.specs.MessageFields.{fields_of, first_value, value_of};
ghost use Rattle.ami_text.specs.Lines.{HasNoLf, lines_text};

use crate::Memory;
use crate::field::Field;
use crate::line::{content, name_and_value};
use bstr::ByteSlice;
use std::alloc::Global;
use std::marker::Model;

/// A message: its fields in order, each a name and a value.
///
/// A line with a colon is a field: its name stands before the first colon and its value after it,
/// each without spaces and tabs at its ends. Lines without a colon are left out.
#[derive(Drop)]
pub struct Message {
    fields: Vec<Field>,
}

impl Model for Message {
    ghost use Rattle.std.specs.Prelude.{ℕ, List};

    ghost Value = { List (List ℕ × List ℕ) };

    ghost view = { λ m. m.fields.items };
}

// The value of the first field of this name, compared without ASCII case; `None` if there is none.
fn first_value<'a>(fields: &'a [Field], name: &[u8]) -> Option<&'a [u8]>
    ensures { option_copied result ≡ first_value name.now fields.now }
{
    for field in fields {
        if field.name().eq_ignore_ascii_case(name) {
            return Some(field.value());
        }
    }
    None
}

// Adds the field of a line; a line without a colon has none. Fails only when out of memory.
fn push_line(alloc: Global, fields: &mut Vec<Field>, line: &[u8]) -> Result<(), Memory>
    ensures { OnOk result (fields.new.items
        ≡ fields.old.items ++ fields_of (line.now ∷ [])) }
{
    if let Some((name, value)) = name_and_value(content(line)) {
        fields.push(Field::new(alloc, name, value)?)?;
    }
    Ok(())
}

impl Message {
    /// The value of the first field of this name, compared without ASCII case. `None` if there is
    /// no such field, or if its value is empty: a later field of the name doesn't count. Takes no
    /// memory.
    pub fn get(&self, name: &[u8]) -> Option<&[u8]>
        ensures { option_copied result ≡ value_of name.now self.now }
    {
        first_value(&self.fields, name).filter(|value| !value.is_empty())
    }

    // The message of these lines, each ended by LF. Fails only when out of memory.
    pub(crate) fn parse(alloc: Global, bytes: &[u8]) -> Result<Self, Memory>
        ensures { IfOk result (λ m. (lines : List (List ℕ)) →
            All HasNoLf lines → bytes.now ≡ lines_text lines → m ≡ fields_of lines) }
    {
        let mut fields = Vec::new(alloc);
        let mut rest = bytes;
        'lines: while let Some(end) = rest.find_byte(b'\n') {
            push_line(alloc, &mut fields, &rest[..end])?;
            rest = &rest[end + 1..];
        }
        Ok(Message { fields })
    }
}

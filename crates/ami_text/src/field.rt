ghost use Rattle.std.specs.Prelude.{◌≡◌, IfOk};

use crate::Memory;
use std::alloc::Global;
use std::marker::Model;

/// A name and its value.
#[derive(Drop)]
pub struct Field {
    // The name, followed by the value.
    text: Vec<u8>,
    // The length of the name in bytes.
    name_length: usize,
}

impl Model for Field {
    ghost use Rattle.std.specs.Prelude.{ℕ, List, ◌≤◌, drop, take, vec_len};

    ghost Value = { List ℕ × List ℕ };

    ghost view = { λ f. (take f.name_length f.text.items, drop f.name_length f.text.items) };

    ghost invariant = { λ f. f.name_length ≤ vec_len f.text };
}

impl Field {
    /// The field with copies of the two texts, in one block of memory. Fails only when out
    /// of memory.
    pub fn new(alloc: Global, name: &[u8], value: &[u8]) -> Result<Self, Memory>
        ensures { IfOk result (λ field. field ≡ (name.now, value.now)) }
    {
        let mut text = Vec::with_capacity(alloc, name.len() + value.len())?;
        text.extend_from_slice(name)?;
        text.extend_from_slice(value)?;
        Ok(Field {
            text,
            name_length: name.len(),
        })
    }

    /// The name.
    pub fn name(&self) -> &[u8]
        ensures { result.now ≡ self.now.0 }
    {
        &self.text[..self.name_length]
    }

    /// The value.
    pub fn value(&self) -> &[u8]
        ensures { result.now ≡ self.now.1 }
    {
        &self.text[self.name_length..]
    }
}

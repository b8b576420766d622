ghost use Rattle.std.specs.Prelude.{◌≡◌, ◌↔◌, IsTrue, IsFalse};
ghost use Rattle.std.specs.Option.{option_copied, option_map};
ghost use Rattle.operations.specs.Registers.{RegistersAgree, RegistersInConflict, join_of};

use crate::FieldValue;
use dots::Stamp;
use std::marker::Model;

/// A last-writer-wins register (RR-7506): empty, or a value with the stamp under which it was written.
#[derive(Drop)]
pub struct Register<T> {
    entry: Option<(Stamp, T)>,
}

impl<T> Model for Register<T> {
    ghost use Rattle.std.specs.Prelude.{Option};
    ghost use Rattle.std.specs.Option.{option_map};
    ghost use Rattle.operations.specs.Registers.{Entry};

    ghost Value = { Option (Entry T) };

    ghost view = { λ r. option_map (λ e. record { stamp = e.0; value = e.1 }) r.entry };
}

impl<T> Register<T> {
    /// An empty register.
    pub fn none() -> Self
        ensures { result ≡ None }
    {
        Register { entry: None }
    }

    /// The register of this value, written under this stamp.
    pub fn of(stamp: Stamp, value: T) -> Self
        ensures { result ≡ Some (record { stamp = stamp; value = value }) }
    {
        Register {
            entry: Some((stamp, value)),
        }
    }

    /// Whether the register is empty.
    pub fn is_none(&self) -> bool
        ensures { IsTrue result ↔ (self.now ≡ None) }
    {
        self.entry.is_none()
    }

    /// The stamp of the value that the register holds, if it holds one.
    pub fn stamp(&self) -> Option<Stamp>
        ensures { result ≡ option_map (λ e. e.stamp) self.now }
    {
        match &self.entry {
            Some((stamp, _)) => Some(*stamp),
            None => None,
        }
    }

    /// The value that the register holds, if it holds one.
    pub fn value(&self) -> Option<&T>
        ensures { option_copied result ≡ option_map (λ e. e.value) self.now }
    {
        match &self.entry {
            Some((_, value)) => Some(value),
            None => None,
        }
    }
}

impl<T: FieldValue> Register<T> {
    /// Whether both can be joined. `false` exactly where both have one stamp and two values.
    pub fn agrees(&self, other: &Register<T>) -> bool
        ensures agree { IsTrue result ↔ RegistersAgree self.now other.now }
        ensures conflict { IsFalse result ↔ RegistersInConflict self.now other.now }
    {
        match (&self.entry, &other.entry) {
            (Some((stamp, value)), Some((other_stamp, other_value))) => {
                *stamp != *other_stamp || value.same(other_value)
            }
            _ => true,
        }
    }

    /// Joins the other into this one: the value of the greatest stamp is kept. The two agree.
    pub fn join(&mut self, other: &Register<T>)
        requires { RegistersAgree self.old other.now }
        ensures { self.new ≡ join_of self.old other.now }
    {
        let takes_other = match (&self.entry, &other.entry) {
            (Some((stamp, _)), Some((other_stamp, _))) => *stamp < *other_stamp,
            (None, Some(_)) => true,
            _ => false,
        };
        if takes_other {
            *self = other.copy();
        }
    }

    /// Whether both hold the same: nothing, or one value under one stamp.
    pub fn same(&self, other: &Register<T>) -> bool
        ensures { IsTrue result ↔ (self.now ≡ other.now) }
    {
        match (&self.entry, &other.entry) {
            (Some((stamp, value)), Some((other_stamp, other_value))) => {
                *stamp == *other_stamp && value.same(other_value)
            }
            (None, None) => true,
            _ => false,
        }
    }

    /// Returns a copy.
    pub fn copy(&self) -> Register<T>
        ensures { result ≡ self.now }
    {
        match &self.entry {
            Some((stamp, value)) => Register::of(*stamp, value.duplicate()),
            None => Register::none(),
        }
    }
}

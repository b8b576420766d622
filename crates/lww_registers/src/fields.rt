ghost use Rattle.std.specs.Prelude.{◌≡◌, ◌↔◌, IsTrue, IsFalse};
ghost use Rattle.operations.specs.Conditions.{FieldsAgree, FieldsInConflict, fields_joined, no_fields};

use crate::Register;
use dots::{Label, Pause, Penalty};
use std::marker::Model;

/// The fields of a member on one dot: four registers, each joined by its own stamps.
#[derive(Drop)]
pub struct Fields {
    /// The penalty of the member.
    pub penalty: Register<Penalty>,
    /// Whether the member is paused, and why.
    pub pause: Register<Pause>,
    /// How the member is shown.
    pub label: Register<Label>,
    /// Whether the member is rung while its device is in use.
    pub ring: Register<bool>,
}

impl Model for Fields {
    ghost use Rattle.operations.specs.Conditions.{DotFields};

    ghost Value = { DotFields };

    ghost view = { λ f. record { penalty = f.penalty; pause = f.pause; label = f.label; ring = f.ring } };

    ghost inverse = { λ f. record { penalty = f.penalty; pause = f.pause; label = f.label; ring = f.ring } };
}

impl Fields {
    /// Fields of which none is set.
    pub fn none() -> Fields
        ensures { result ≡ no_fields }
    {
        Fields {
            penalty: Register::none(),
            pause: Register::none(),
            label: Register::none(),
            ring: Register::none(),
        }
    }

    /// Whether no field is set.
    pub fn is_none(&self) -> bool
        ensures { IsTrue result ↔ (self.now ≡ no_fields) }
    {
        self.penalty.is_none()
            && self.pause.is_none()
            && self.label.is_none()
            && self.ring.is_none()
    }

    /// Whether both can be joined. `false` exactly where in some field both have one stamp and two values.
    pub fn agrees(&self, other: &Fields) -> bool
        ensures agree { IsTrue result ↔ FieldsAgree self.now other.now }
        ensures conflict { IsFalse result ↔ FieldsInConflict self.now other.now }
    {
        self.penalty.agrees(&other.penalty)
            && self.pause.agrees(&other.pause)
            && self.label.agrees(&other.label)
            && self.ring.agrees(&other.ring)
    }

    /// Joins the other's fields into these: each keeps the value of its greatest stamp. The two agree.
    pub fn join(&mut self, other: &Fields)
        requires { FieldsAgree self.old other.now }
        ensures { self.new ≡ fields_joined self.old other.now }
    {
        self.penalty.join(&other.penalty);
        self.pause.join(&other.pause);
        self.label.join(&other.label);
        self.ring.join(&other.ring);
    }

    /// Whether both hold the same in each field.
    pub fn same(&self, other: &Fields) -> bool
        ensures { IsTrue result ↔ (self.now ≡ other.now) }
    {
        self.penalty.same(&other.penalty)
            && self.pause.same(&other.pause)
            && self.label.same(&other.label)
            && self.ring.same(&other.ring)
    }

    /// Returns a copy.
    pub fn copy(&self) -> Fields
        ensures { result ≡ self.now }
    {
        Fields {
            penalty: self.penalty.copy(),
            pause: self.pause.copy(),
            label: self.label.copy(),
            ring: self.ring.copy(),
        }
    }
}

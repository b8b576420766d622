ghost use Rattle.std.specs.Prelude.{◌≡◌, ◌↔◌, IsTrue};

use dots::{Label, Pause, Penalty};

/// A value that a register can keep: values of its type can be compared, and are copied without memory
/// (this project's own).
pub trait FieldValue: Drop {
    /// Whether both are the very same value.
    fn same(&self, other: &Self) -> bool
        ensures { IsTrue result ↔ (self.now ≡ other.now) };

    /// Returns a copy.
    fn duplicate(&self) -> Self
        ensures { result ≡ self.now };
}

impl FieldValue for Penalty {
    fn same(&self, other: &Penalty) -> bool {
        *self == *other
    }

    fn duplicate(&self) -> Penalty {
        *self
    }
}

impl FieldValue for Pause {
    fn same(&self, other: &Pause) -> bool {
        *self == *other
    }

    fn duplicate(&self) -> Pause {
        self.copy()
    }
}

impl FieldValue for Label {
    fn same(&self, other: &Label) -> bool {
        *self == *other
    }

    fn duplicate(&self) -> Label {
        self.copy()
    }
}

impl FieldValue for bool {
    fn same(&self, other: &bool) -> bool {
        *self == *other
    }

    fn duplicate(&self) -> bool {
        *self
    }
}

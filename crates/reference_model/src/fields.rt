ghost use Rattle.std.specs.Prelude.{◌≡◌, None};
ghost use Rattle.operations.specs.Conditions.{fields_joined, no_fields};
ghost use Rattle.operations.specs.Rows.{no_label, not_paused, row_of_fields, value_or};
ghost use Rattle.operations.specs.Views.{row_view};
ghost use Rattle.reference_model.specs.Views.{entry_of, fields_of};

use crate::entry::{Entry, later};
use dots::{Label, Pause, Penalty};
use replica::Row;

// The fields of a dot or a member: for each field a value with its stamp, or nothing.
#[derive(Clone, Copy)]
pub(crate) struct Fields<'a> {
    pub penalty: Option<Entry<Penalty>>,
    pub pause: Option<Entry<&'a Pause>>,
    pub label: Option<Entry<&'a Label>>,
    pub ring: Option<Entry<bool>>,
}

impl<'a> Fields<'a> {
    // Fields of which none is set.
    pub(crate) fn none() -> Fields<'a>
        ensures { fields_of result ≡ no_fields }
    {
        Fields {
            penalty: None,
            pause: None,
            label: None,
            ring: None,
        }
    }

    // Field by field the entry of the greater stamp; under one stamp that of `self`.
    pub(crate) fn joined(&self, other: &Fields<'a>) -> Fields<'a>
        ensures { fields_of result ≡ fields_joined (fields_of self.now) (fields_of other.now) }
    {
        Fields {
            penalty: later(&self.penalty, &other.penalty),
            pause: later(&self.pause, &other.pause),
            label: later(&self.label, &other.label),
            ring: later(&self.ring, &other.ring),
        }
    }

    // The row that these fields show; what was never set has its default.
    pub(crate) fn row(&self) -> Row<'a>
        ensures { row_view result ≡ row_of_fields (fields_of self.now) }
    {
        let penalty = match &self.penalty {
            Some(entry) => entry.value.get(),
            None => 0,
        };
        let (paused, reason) = pause_shown(&self.pause);
        let (name, state) = label_shown(&self.label);
        let ring = match &self.ring {
            Some(entry) => entry.value,
            None => true,
        };
        Row {
            penalty,
            paused,
            reason,
            name,
            state,
            ring,
        }
    }
}

// Whether a member is paused, and why; not paused and no reason where nothing is set.
fn pause_shown<'a>(pause: &Option<Entry<&'a Pause>>) -> (bool, &'a [u8])
    ensures paused { result.0 ≡ (value_or not_paused (entry_of (λ p. p.now) pause.now)).paused }
    ensures reason { result.1.now ≡ (value_or not_paused (entry_of (λ p. p.now) pause.now)).reason }
{
    match pause {
        Some(entry) => (entry.value.paused(), entry.value.reason().as_bytes()),
        None => (false, b""),
    }
}

// The member name and the state interface; no bytes where nothing is set.
fn label_shown<'a>(label: &Option<Entry<&'a Label>>) -> (&'a [u8], &'a [u8])
    ensures name { result.0.now ≡ (value_or no_label (entry_of (λ l. l.now) label.now)).name }
    ensures state { result.1.now ≡ (value_or no_label (entry_of (λ l. l.now) label.now)).state }
{
    match label {
        Some(entry) => (entry.value.name.as_bytes(), entry.value.state.as_bytes()),
        None => (b"", b""),
    }
}

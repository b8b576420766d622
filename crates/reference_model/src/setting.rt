ghost use Rattle.std.specs.Prelude.{◌≡◌};
ghost use Rattle.replica.specs.SetFields.{fields_written};
ghost use Rattle.reference_model.specs.Plain.{setting_of};
ghost use Rattle.reference_model.specs.Views.{fields_of};

use crate::entry::Entry;
use crate::fields::Fields;
use dots::{Label, Pause, Penalty, Stamp};

/// A value for one field of a member.
#[derive(Drop)]
pub enum Setting {
    /// The penalty.
    Penalty(Penalty),
    /// Whether the member is paused, and why.
    Pause(Pause),
    /// The member name and the state interface.
    Label(Label),
    /// Whether the member is rung while its device is in use.
    Ring(bool),
}

impl Setting {
    // The fields with the one that this setting sets, under this stamp, and no other.
    pub(crate) fn fields(&self, stamp: Stamp) -> Fields<'_>
        ensures { fields_of result ≡ fields_written stamp (setting_of self.now) }
    {
        let mut fields = Fields::none();
        match self {
            Setting::Penalty(penalty) => {
                fields.penalty = Some(Entry {
                    stamp,
                    value: *penalty,
                });
            }
            Setting::Pause(pause) => {
                fields.pause = Some(Entry {
                    stamp,
                    value: pause,
                });
            }
            Setting::Label(label) => {
                fields.label = Some(Entry {
                    stamp,
                    value: label,
                });
            }
            Setting::Ring(ring) => {
                fields.ring = Some(Entry {
                    stamp,
                    value: *ring,
                });
            }
        }
        fields
    }

    /// Returns a copy. Takes no memory.
    pub fn copy(&self) -> Setting
        ensures { setting_of result ≡ setting_of self.now }
    {
        match self {
            Setting::Penalty(penalty) => Setting::Penalty(*penalty),
            Setting::Pause(pause) => Setting::Pause(pause.copy()),
            Setting::Label(label) => Setting::Label(label.copy()),
            Setting::Ring(ring) => Setting::Ring(*ring),
        }
    }
}

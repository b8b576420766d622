ghost use Rattle.std.specs.Prelude.{◌≡◌, ◌≤◌};
ghost use Rattle.member_orset.specs.Members.{dot_view_of};
ghost use Rattle.replica.specs.Changes.{time_in, time_of, time_replaced};
ghost use Rattle.replica.specs.SetFields.{fields_written};
ghost use Rattle.replica.specs.Settings.{setting_of};
ghost use Rattle.replica.specs.SiteViews.{greatest};

use dots::{Dot, MOST_COUNT, Pause, Penalty, Stamp};
use lww_registers::{Fields, Register};
use member_orset::MemberSet;

// A value of one field, which a command sets.
#[derive(Drop)]
pub(crate) enum Setting {
    Penalty(Penalty),
    Pause(Pause),
    Ring(bool),
}

// The time of a register's entry; 0 if it is empty.
fn time_of<T>(register: &Register<T>) -> u64
    ensures value { result ≡ time_of register.now }
    ensures limit { result ≤ MOST_COUNT }
{
    match register.stamp() {
        Some(stamp) => stamp.time(),
        None => 0,
    }
}

impl Setting {
    // The fields of a write under this stamp: this one alone is set.
    pub(crate) fn fields(&self, stamp: Stamp) -> Fields
        ensures { result ≡ fields_written stamp (setting_of self.now) }
    {
        let mut fields = Fields::none();
        match self {
            Setting::Penalty(penalty) => fields.penalty = Register::of(stamp, *penalty),
            Setting::Pause(pause) => fields.pause = Register::of(stamp, pause.copy()),
            Setting::Ring(ring) => fields.ring = Register::of(stamp, *ring),
        }
        fields
    }

    // The time of what it replaces in these fields; 0 where the field isn't set.
    fn time_in(&self, fields: &Fields) -> u64
        ensures value { result ≡ time_in (setting_of self.now) fields.now }
        ensures limit { result ≤ MOST_COUNT }
    {
        match self {
            Setting::Penalty(_) => time_of(&fields.penalty),
            Setting::Pause(_) => time_of(&fields.pause),
            Setting::Ring(_) => time_of(&fields.ring),
        }
    }

    // The time of what it replaces on a dot; 0 where the field isn't set, or the dot isn't live.
    fn time_replaced(&self, members: &MemberSet, dot: Dot) -> u64
        ensures value { result ≡ time_replaced (dot_view_of members.now) (setting_of self.now) dot }
        ensures limit { result ≤ MOST_COUNT }
    {
        match members.live(dot) {
            Some(cell) => self.time_in(cell.fields),
            None => 0,
        }
    }
}

// The latest time of what a setting replaces on these dots; 0 where it replaces nothing.
pub(crate) fn latest_replaced(members: &MemberSet, dots: &[Dot], setting: &Setting) -> u64
    ensures value { result
        ≡ greatest (time_replaced (dot_view_of members.now) (setting_of setting.now)) dots.now }
    ensures limit { result ≤ MOST_COUNT }
{
    let mut latest = 0;
    for dot in dots {
        latest = latest.max(setting.time_replaced(members, *dot));
    }
    latest
}

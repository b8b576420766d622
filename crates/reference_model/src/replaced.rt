// The times of what a setting replaces.
ghost use Rattle.std.specs.Prelude.{◌≡◌, ◌≤◌};
ghost use Rattle.operations.specs.Rows.{dot_view};
ghost use Rattle.replica.specs.Changes.{time_of, time_replaced};
ghost use Rattle.replica.specs.SiteViews.{greatest};
ghost use Rattle.reference_model.specs.Plain.{knowledge_of, setting_of};
ghost use Rattle.reference_model.specs.Views.{entry_of};

use crate::entry::Entry;
use crate::fields_seen::fields_in;
use crate::{Operation, Setting};
use dots::{Dot, MOST_COUNT, Member};

// The time of an entry's stamp; 0 where there is no entry.
fn time_of<T: Copy>(entry: &Option<Entry<T>>) -> u64
    ensures value { result ≡ time_of (entry_of (λ v. v) entry.now) }
    ensures limit { result ≤ MOST_COUNT }
{
    match entry {
        Some(entry) => entry.stamp.time(),
        None => 0,
    }
}

// The time of the value that a setting replaces on a dot; 0 where the field isn't set there.
fn time_replaced(operations: &[Operation], setting: &Setting, dot: Dot) -> u64
    ensures value { result
        ≡ time_replaced (dot_view (knowledge_of operations.now)) (setting_of setting.now) dot }
    ensures limit { result ≤ MOST_COUNT }
{
    let fields = fields_in(operations, dot);
    match setting {
        Setting::Penalty(_) => time_of(&fields.penalty),
        Setting::Pause(_) => time_of(&fields.pause),
        Setting::Label(_) => time_of(&fields.label),
        Setting::Ring(_) => time_of(&fields.ring),
    }
}

// The greatest time of what a setting replaces on these dots; 0 where it replaces nothing.
pub(crate) fn last_replaced(
    operations: &[Operation],
    setting: &Setting,
    dots: &[(Dot, Member)],
) -> u64
    ensures value { result
        ≡ greatest
        (λ d. time_replaced (dot_view (knowledge_of operations.now))
        (setting_of setting.now) d.0) dots.now }
    ensures limit { result ≤ MOST_COUNT }
{
    let mut last = 0;
    for (dot, _) in dots {
        last = time_replaced(operations, setting, *dot).max(last);
    }
    last
}

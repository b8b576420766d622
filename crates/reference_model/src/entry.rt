ghost use Rattle.std.specs.Prelude.{◌≡◌};
ghost use Rattle.operations.specs.Registers.{join_of};
ghost use Rattle.reference_model.specs.Views.{entry_of};

use dots::Stamp;

// A value, and the stamp under which it was set.
#[derive(Clone, Copy)]
pub(crate) struct Entry<T> {
    pub stamp: Stamp,
    pub value: T,
}

// The entry of the greater stamp; under one stamp the first.
pub(crate) fn later<T: Copy>(
    first: &Option<Entry<T>>,
    second: &Option<Entry<T>>,
) -> Option<Entry<T>>
    ensures { entry_of (λ v. v) result
        ≡ join_of (entry_of (λ v. v) first.now) (entry_of (λ v. v) second.now) }
{
    match first {
        None => *second,
        Some(a) => match second {
            None => *first,
            Some(b) => {
                if a.stamp.cmp(&b.stamp).is_lt() {
                    *second
                } else {
                    *first
                }
            }
        },
    }
}

ghost use Rattle.std.specs.Prelude.{◌≡◌};
ghost use Rattle.std.specs.Option.{option_map};
ghost use Rattle.operations.specs.Registers.{join_of};
ghost use Rattle.operations.specs.Conditions.{fields_joined};
ghost use Rattle.operations.specs.Rows.{row_of_fields};
ghost use Rattle.operations.specs.Views.{row_view};
ghost use Rattle.live_cells.specs.ShownRows.{fields_after, latest_fields};

use crate::Row;
use dots::{Label, Pause, Penalty};
use lww_registers::{Fields, Register};

// The registers of the latest stamps over some cells, lent.
#[derive(Clone, Copy)]
pub(crate) struct Latest<'a> {
    pub(crate) penalty: &'a Register<Penalty>,
    pub(crate) pause: &'a Register<Pause>,
    pub(crate) label: &'a Register<Label>,
    pub(crate) ring: &'a Register<bool>,
}

// The register of the later stamp; the first for equal stamps. If one isn't set, the
// other one.
fn later<'a, T>(first: &'a Register<T>, second: &'a Register<T>) -> &'a Register<T>
    ensures { result.now ≡ join_of first.now second.now }
{
    let Some(stamp) = first.stamp() else {
        return second;
    };
    let Some(other) = second.stamp() else {
        return first;
    };
    if stamp < other { second } else { first }
}

// The text of a label that isn't set.
const EMPTY: &[u8] = &[];

impl<'a> Latest<'a> {
    // The registers of one cell.
    fn of(fields: &'a Fields) -> Latest<'a>
        ensures { latest_fields result ≡ fields.now }
    {
        Latest {
            penalty: &fields.penalty,
            pause: &fields.pause,
            label: &fields.label,
            ring: &fields.ring,
        }
    }

    // The latest of these registers and those of a further cell.
    fn and(self, fields: &'a Fields) -> Latest<'a>
        ensures { latest_fields result
            ≡ fields_joined (latest_fields self.entry) fields.now }
    {
        Latest {
            penalty: later(self.penalty, &fields.penalty),
            pause: later(self.pause, &fields.pause),
            label: later(self.label, &fields.label),
            ring: later(self.ring, &fields.ring),
        }
    }

    // The row that they show. A field that isn't set shows its default: penalty 0, not
    // paused, no label, rings.
    pub(crate) fn row(self) -> Row<'a>
        ensures { row_view result ≡ row_of_fields (latest_fields self.entry) }
    {
        let (paused, reason) = match self.pause.value() {
            Some(pause) => (pause.paused(), pause.reason().as_bytes()),
            None => (false, EMPTY),
        };
        let (name, state) = match self.label.value() {
            Some(label) => (label.name.as_bytes(), label.state.as_bytes()),
            None => (EMPTY, EMPTY),
        };
        let penalty = match self.penalty.value() {
            Some(penalty) => penalty.get(),
            None => 0,
        };
        let ring = match self.ring.value() {
            Some(ring) => *ring,
            None => true,
        };
        Row {
            penalty,
            paused,
            reason,
            name,
            state,
            ring,
        }
    }
}

// The latest registers of the cells before, if any, and of a further cell.
pub(crate) fn after<'a>(latest: Option<Latest<'a>>, fields: &'a Fields) -> Latest<'a>
    ensures { latest_fields result
        ≡ fields_after (option_map latest_fields latest.entry) fields.now }
{
    match latest {
        Some(latest) => latest.and(fields),
        None => Latest::of(fields),
    }
}

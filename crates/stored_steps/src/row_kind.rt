ghost use Rattle.std.specs.Prelude.{◌≡◌, ◌↔◌, Some};
ghost use Rattle.stored_steps.specs.declared.row_kind.RowKind.{RowKind};
ghost use Rattle.stored_steps.specs.Kinds.{kind_number};

/// What a row of a store says (this project's own). No kind gets another number: stores have them.
#[derive(Clone, Copy, Debug, PartialEq, Eq)]
pub enum RowKind {
    /// The base: what the site says before the steps.
    Base,
    /// A command that is done.
    Asked,
    /// A frame that was taken.
    Took,
    /// A frame that was cut of the buffer.
    Cut,
    /// A frame of all that the site knows.
    Whole,
    /// A start of the site over this store.
    Started,
}

impl RowKind {
    /// The number of the kind in a row, 1 to 6.
    pub fn number(self) -> u32
        ensures { result ≡ kind_number self }
    {
        match self {
            RowKind::Base => 1,
            RowKind::Asked => 2,
            RowKind::Took => 3,
            RowKind::Cut => 4,
            RowKind::Whole => 5,
            RowKind::Started => 6,
        }
    }

    /// The kind of a number. `None` for a number that no kind has.
    pub fn of_number(number: u32) -> Option<RowKind>
        ensures { (kind : RowKind) → (result ≡ Some kind) ↔ (number ≡ kind_number kind) }
    {
        match number {
            1 => Some(RowKind::Base),
            2 => Some(RowKind::Asked),
            3 => Some(RowKind::Took),
            4 => Some(RowKind::Cut),
            5 => Some(RowKind::Whole),
            6 => Some(RowKind::Started),
            _ => None,
        }
    }
}

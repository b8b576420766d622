use dots::Dot;
use op_arena::CellId;

/// A live dot, and the id of its cell.
#[derive(Clone, Copy)]
pub struct Placed {
    /// The dot.
    pub dot: Dot,
    /// The id of its cell.
    pub id: CellId,
}

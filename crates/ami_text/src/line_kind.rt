/// The kind of a line, by its content.
#[derive(Clone, Copy)]
pub enum LineKind {
    Empty,
    Full,
    TooLong,
}

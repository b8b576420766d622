// Consecutive counts of a site up to a last one, which all pass a test or all fail it.
#[derive(Clone, Copy)]
pub(crate) struct Piece {
    pub(crate) inside: bool,
    pub(crate) last: u64,
}

/// How far held bytes were scanned: whole lines up to `line`, of which `lines` aren't empty, and
/// from there no LF up to `looked`.
#[derive(Clone, Copy)]
pub struct Progress {
    pub line: usize,
    pub lines: usize,
    pub looked: usize,
}

impl Progress {
    /// No byte was scanned.
    pub const START: Progress = Progress {
        line: 0,
        lines: 0,
        looked: 0,
    };
}

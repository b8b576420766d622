/// How many lines wait in a log at most.
pub const MOST_LINES: usize = 1_000;

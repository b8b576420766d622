/// The most bytes that a command with its answer has (this project's own).
pub const MOST_ASK_BYTES: usize = 331;

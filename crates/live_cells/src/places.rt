//! The places in memory of a set's cells.

/// The last generation of a place in memory: after it, the place is retired (this project's own).
pub const LAST_GENERATION: u32 = 4_294_967_295;

//! The limits of the format, each with its name. Contracts and definitions cite these.

/// The version of the format that sites write.
pub const VERSION: u8 = 2;

/// The oldest version that sites read.
pub const OLDEST_VERSION: u8 = 1;

/// The least number that a frame's length field may have.
pub const LEAST_LENGTH: usize = 24;

/// The greatest number that a frame's length field may have.
pub const MOST_LENGTH: usize = 8_388_608;

/// The most totals that a frame may have: one for each site and queue.
pub const MOST_TOTALS: usize = 16_384;

//! The limits of values, each with its name. Contracts and definitions cite these names.

/// The most sites. They are numbered from 0.
pub const SITES: u16 = 64;

/// The most peers that a site dials: all sites, itself among them.
pub const MOST_PEERS: usize = 64;

/// The most queues. They are numbered from 0.
pub const QUEUES: usize = 256;

/// The most bytes of a text.
pub const TEXT_BYTES: usize = 80;

/// The greatest penalty.
pub const MOST_PENALTY: u32 = 2_147_483_647;

/// The greatest count of a dot, time of a stamp and number of a frame, each from 1.
pub const MOST_COUNT: u64 = 1 << 40;

/// The most live dots of a member set.
pub const MOST_LIVE: usize = 16_384;

/// The most runs of a context.
pub const MOST_RUNS: usize = 65_536;

/// The most calls of one kind, completed or abandoned, that a site may count in a queue.
pub const MOST_CALLS: u64 = 1_000_000_000;

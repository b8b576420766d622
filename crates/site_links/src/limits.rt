/// The most items that may be sent on a link: 2^40.
pub const MOST_ITEMS: u64 = 1_099_511_627_776;

/// The most items that a link may hold: sent and not yet received.
pub const MOST_CAPACITY: usize = 1_024;

/// The most items that each link between sites in threads may hold.
pub const LINK_CAPACITY: usize = 64;

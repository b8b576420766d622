/// How many bytes name a store (this project's own).
pub const NAME_BYTES: usize = 16;

/// The version of the bytes of a base, which is their first byte (this project's own).
pub const BASE_VERSION: u8 = 1;

//! Keys and message authentication codes of the links between sites: HMAC-SHA-256 (RFC 2104, FIPS 198-1) under keys of 32
//! bytes, and the tag of an item under its counter (this project's own).
#![tactic(auto)]

mod comparing;
mod key;
mod mac;
mod tags;

pub use comparing::same_bytes;
pub use key::Key;
pub use mac::Mac;
pub use tags::{TAG_BYTES, tag};

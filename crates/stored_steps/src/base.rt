use crate::limits::NAME_BYTES;
use replica::Replica;

/// What a store keeps of a site before its steps (this project's own).
#[derive(Drop)]
pub struct StoredBase {
    /// What the site says.
    pub replica: Replica,
    /// The bytes that name the store for ever.
    pub name: [u8; NAME_BYTES],
    /// How often the site was started over the store before.
    pub starts: u64,
}

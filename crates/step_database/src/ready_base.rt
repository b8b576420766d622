use stored_steps::{NAME_BYTES, StoredRow};

/// A base that is made ready for a store: its row, and of which store it is (this project's own).
#[derive(Drop)]
pub struct ReadyBase {
    pub(crate) row: StoredRow,
    pub(crate) name: [u8; NAME_BYTES],
    pub(crate) starts: u64,
}

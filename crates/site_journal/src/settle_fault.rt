use thiserror::Error;

/// Why receipts don't settle a journal; the first that applies is returned.
#[derive(Clone, Copy, Debug, PartialEq, Eq, Error)]
pub enum SettleFault {
    /// Steps were dropped, so their passes are unknown.
    #[error("steps were dropped")]
    Checkpointed,
    /// The receipts of this pass aren't those of its steps. It is the first such pass.
    #[error("receipts of pass {0} differ")]
    Differs(u32),
}

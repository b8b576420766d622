use site_journal::Journaled;
use site_peers::EndReason;
use stored_desk::CommitFault;

/// What a linked site ends with (this project's own).
#[derive(Drop)]
pub struct SiteEnd {
    /// Why it has ended.
    pub reason: EndReason,
    /// The journal of its steps.
    pub journal: Journaled,
}

/// What a linked site with a store ends with (this project's own).
#[derive(Drop)]
pub struct StoredSiteEnd<D: Drop> {
    /// Why it has ended.
    pub reason: EndReason,
    /// The journal of its steps.
    pub journal: Journaled,
    /// Its store, unless a thread was cut off in a commit.
    pub store: Option<D>,
    /// Why a commit of the store has failed, if one has. The journal may then have steps that the store hasn't.
    pub fault: Option<CommitFault>,
}

// Why a site has ended whose tasks gave these reasons: the first that one gave; `Asked` if none did.
pub(crate) fn reason_of(outputs: &[Option<EndReason>]) -> EndReason {
    for output in outputs {
        if let Some(reason) = *output {
            return reason;
        }
    }
    EndReason::Asked
}

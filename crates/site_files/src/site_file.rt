use sqlite::{FileFrom, FileStore};
use step_database::RestoredDatabase;
use stored_desk::StepStore;
use stored_steps::NAME_BYTES;
use stored_threads::ResumedSite;

/// A site that goes on over its store (this project's own).
#[derive(Drop)]
pub struct SiteFile<D: StepStore> {
    /// The site, and its store.
    pub resumed: ResumedSite<D>,
    /// The bytes that name the store for ever.
    pub name: [u8; NAME_BYTES],
    /// How often the site was started over the store, this start included; at most 2^64 - 1.
    pub starts: u64,
    /// Whether the site is a new one, at its first start.
    pub is_new: bool,
}

/// A file whose site is restored, before a start of it.
pub type RestoredFile<S> = RestoredDatabase<FileStore<FileFrom<S>>>;

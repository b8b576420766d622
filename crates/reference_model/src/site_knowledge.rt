use crate::Operation;

/// What a site knows, its buffer, and the number of frames that it has made. The latest operations stand first.
#[derive(Drop)]
pub struct SiteKnowledge {
    /// All operations that the site has made or taken.
    pub known: Vec<Operation>,
    /// The operations that the site has made and put in no frame yet.
    pub buffer: Vec<Operation>,
    /// How many frames the site has made.
    pub frames: u64,
}

use delta::Delta;

/// A change that a site is to make, with the count and the time that are its last ones after it.
#[derive(Drop)]
pub struct Planned {
    pub change: Delta,
    pub count: u64,
    pub time: u64,
}

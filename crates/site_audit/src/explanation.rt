use sites_world::Event;

/// How far a list of events explains the journals of all sites (this project's own).
#[derive(Drop)]
pub struct Explanation {
    /// The events, in order.
    pub events: Vec<Event>,
    /// `None` if the events are one run of the journals; otherwise the least site that has steps left, and the position of its first
    /// that is left, which no event gives.
    pub stuck: Option<(u16, u64)>,
}

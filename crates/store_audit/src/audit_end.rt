/// Where an audit of stores ends (this project's own).
#[derive(Drop)]
pub enum AuditEnd {
    /// The events that were written explain all stores.
    Explained {
        /// How many of them no line of a script says.
        unsaid: u64,
    },
    /// No list of events explains all stores.
    Stuck {
        /// The least site that has a step which no event gives.
        site: u16,
        /// The position of the first of these steps in the site's store.
        position: u64,
        /// That step, in the words that a row of it has.
        words: String,
    },
}

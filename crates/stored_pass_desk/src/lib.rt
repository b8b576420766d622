//! A desk for the sessions of a site with a store: no reply leaves before the step that it answers for is durable. And what keeps a site's
//! journal within its limits, with a store or without.
#![tactic(auto)]

mod keeping_port;
mod stored_pass_desk;
mod upkeep;

pub use keeping_port::KeepingPort;
pub use stored_pass_desk::StoredPassDesk;
pub use upkeep::{MOST_KEPT, MOST_ROW_BYTES, MOST_ROWS, Upkeep, save_all};

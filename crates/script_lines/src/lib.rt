//! The lines of a script: how a script is cut into them, and what each of them asks (this project's own).
//!
//! The crate `scripts` defines the effect of a line at the sites.
#![tactic(auto)]

mod line;
mod message;
mod numbers;
mod parts;
mod site_count;

pub use line::{Line, cut_line, read_line};
pub use message::message_of;
pub use parts::{cut_at_bar, interfaces_of};
pub use site_count::SiteCount;

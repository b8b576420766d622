//! A plain, slow computation of the definitions, for tests: what a list of operations shows, what a change means at a site
//! that knows them, and the steps of a site.
//!
//! The operations are stored as they are and read again for each result, step by step as the definitions state, so that the
//! definitions can be checked by running them.
#![tactic(auto)]

mod change;
mod dot_sets;
mod dots_seen;
mod entry;
mod fields;
mod fields_seen;
mod meaning;
mod meanings;
mod member_rows;
mod members_seen;
mod operation;
mod outcome;
mod own_numbers;
mod plain_dot;
mod queue_totals;
mod replaced;
mod setting;
mod site_knowledge;
mod site_steps;
mod status_text;
mod step;
mod total;

pub use change::Change;
pub use dots::{CallTotals, Calls, Memory};
pub use dots_seen::dots_of_member;
pub use meaning::Meaning;
pub use meanings::meaning_at;
pub use member_rows::{row, rows};
pub use operation::Operation;
pub use outcome::Outcome;
pub use queue_totals::totals;
pub use setting::Setting;
pub use site_knowledge::SiteKnowledge;
pub use site_steps::after_step;
pub use status_text::status;
pub use step::Step;
pub use total::Total;

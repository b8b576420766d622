//! Desks for the sessions of a site, and the ear for its bell.
//!
//! A [`PassDesk`] has asks answered by a pass of a site's desk, and drops the steps of a full journal once. A [`RingingDesk`] rings the
//! site's bell at each change. The thread that sends the site's changes hears the bell by an [`Ear`].
#![tactic(auto)]

mod ear;
mod pass_desk;
mod ringing_desk;

pub use ear::Ear;
pub use pass_desk::PassDesk;
pub use ringing_desk::RingingDesk;

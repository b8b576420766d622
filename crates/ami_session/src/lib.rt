//! Sessions of Asterisk's Manager Interface: the asks of a client's messages, and the replies.
//!
//! A session handles one message at a time. It replies by itself, or returns an ask for the site; the reply
//! then follows from the site's answer.
#![tactic(auto)]

mod act;
mod action;
mod fields;
pub mod laws;
mod pending;
mod reply;
mod session;
mod values;

pub use act::Act;
pub use dots::Memory;
pub use pending::Pending;
pub use session::Session;
pub use values::{interface_of, is_login_word, queue_of};

//! The hello of a link between two sites (this project's own). Both sites prove that they know the secret. Each sends
//! a card with its number, its store and its queues, and each judges the other's card.
//!
//! The site that dials calls [`begin_hello`], judges the card that came and calls [`end_hello`]. The site that accepts calls
//! [`accept_hello`], judges the card that came and calls [`give_verdict`]. [`judge`] returns what is wrong with a card. At the end
//! both have the same two keys, one for each direction.
#![tactic(auto)]

mod card;
mod codes;
mod hello;
mod hello_fault;
mod judging;
pub mod laws;
mod messages;
mod refusal;
mod transcript;

pub use card::{CARD_BYTES, Card, queues_digest};
pub use codes::LinkKeys;
pub use hello::{accept_hello, begin_hello, end_hello, give_verdict};
pub use hello_fault::HelloFault;
pub use judging::judge;
pub use messages::VERSION;
pub use refusal::Refusal;
pub use transcript::Transcript;

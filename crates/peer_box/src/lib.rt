//! What is to be sent to one peer (this project's own): frames that wait, or a frame of all that the site knows, which is called a whole.
#![tactic(auto)]

mod peer_box;

pub use peer_box::{BOX_BYTES, Due, PeerBox};

//! The roll of the sites of a call centre (this project's own): which store, and which process of it, each site number belongs to.
#![tactic(auto)]

mod roll;

pub use roll::{Identity, Roll};

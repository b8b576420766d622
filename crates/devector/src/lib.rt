//! A vector in one piece with room at both ends, as Boost.Container's `devector`. To remove an item near an end moves
//! only the items on that side; to add one does too, if there is room there.
#![tactic(auto)]

mod devector;

pub use devector::Devector;

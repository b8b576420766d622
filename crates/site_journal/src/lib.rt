//! What a site did, step by step: its journal, the receipts that callers have of it, and the traits between a desk and the code
//! that works for it.
//!
//! A journal keeps the replica that it began from, each step since with its result, and the replica. The steps lead from the first
//! replica to the present one at all times, whatever was refused. Bytes that have 2^63 - 1 owners get no further one: here that
//! counts as out of memory.
#![tactic(auto)]

mod decoded_frame;
mod desk_fault;
mod journaled;
mod keeping;
mod ports;
mod receipt;
mod replay_fault;
mod replayed;
mod settle_fault;
mod settling;
mod step;
mod step_list;

pub use decoded_frame::DecodedFrame;
pub use delta_codec::DecodeFault;
pub use desk_fault::DeskFault;
pub use dots::Memory;
pub use journaled::{DroppedSteps, Journaled, MOST_STEPS};
pub use ports::{Bell, Port};
pub use receipt::Receipt;
pub use replay_fault::ReplayFault;
pub use replica::TakeFault;
pub use settle_fault::SettleFault;
pub use settling::settle;
pub use step::{Step, StepDeed};

//! Asks as bytes: a command with its answer, as a store keeps it. Each has one encoding.
#![tactic(auto)]

mod answered;
mod ask_fault;
mod coding;
mod commands;
mod kind;
pub mod laws;
mod limits;
mod part;
mod reader;
mod values;

pub use answered::AnsweredCommand;
pub use ask_fault::AskFault;
pub use coding::{decode_ask, encode_ask};
pub use limits::MOST_ASK_BYTES;

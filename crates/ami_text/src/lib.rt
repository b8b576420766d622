//! The text of a manager session, as it is read and written, and the devices that carry it.
//!
//! Bytes come in pieces of any size. A [`Feed`] cuts them into lines and gives the messages, whatever
//! the pieces were. A [`Source`] gives bytes and a [`Sink`] takes them; both are made of std's readers
//! and writers, or of memory. [`write_all`] writes all of some bytes to a sink. [`push_field`] and its
//! like write the lines of a message.
//!
//! A message as lines `Name: value` with an empty line at its end is Asterisk's (its Manager action
//! documents). The rules for lines, fields and limits in `specs/` are this project's own.
#![tactic(auto)]

mod calls_left;
mod failed;
mod feed;
mod feed_fault;
mod field;
mod first_message_so_far;
mod found;
pub mod laws;
mod line;
mod line_kind;
mod memory_sink;
mod memory_source;
mod message;
mod numbers;
mod progress;
mod scan;
mod sink;
mod source;
mod std_sink;
mod std_source;
mod writing;
mod written_lines;

pub use failed::Failed;
pub use feed::Feed;
pub use feed_fault::FeedFault;
pub use first_message_so_far::{FirstMessageSoFar, LineSoFar};
pub use line::{content, trimmed};
pub use memory_sink::MemorySink;
pub use memory_source::MemorySource;
pub use message::Message;
pub use numbers::number_in;
pub use sink::Sink;
pub use source::Source;
pub use std::alloc::AllocError as Memory;
pub use std_sink::StdSink;
pub use std_source::StdSource;
pub use writing::write_all;
pub use written_lines::{push_action_id_line, push_decimal, push_end, push_field, push_number};

//! Frames: deltas as bytes, to be sent from one site to another. Each frame has one encoding in each version of the format, and
//! none is a prefix of another.
#![tactic(auto)]

mod decode_fault;
mod decoding;
mod elements;
mod encoding;
mod field_bytes;
mod fields;
pub mod laws;
mod limits;
mod numbers;
mod reader;
mod sizes;
mod splitter;
mod writing;

pub use decode_fault::DecodeFault;
pub use decoding::decode;
pub use delta::Frame;
pub use dots::Memory;
pub use encoding::{encode, encode_parts};
pub use limits::{LEAST_LENGTH, MOST_LENGTH, MOST_TOTALS, OLDEST_VERSION, VERSION};
pub use splitter::Splitter;

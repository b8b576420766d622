//! A log of events: threads add lines and never wait for whoever reads them, and one thread writes them.
//!
//! [`EventLog::add`] takes a line, or counts it as dropped where the log is full. [`EventLog::write_until_end`] writes the lines to
//! standard error, from a thread of its own.
#![tactic(auto)]

mod limits;
mod log;
mod waiting_lines;

pub use limits::MOST_LINES;
pub use log::EventLog;
pub use waiting_lines::LogEvent;

//! The words of the program `queue_sites`, and its command `script`.
//!
//! [`read_command_line`] reads and checks the words. [`run_input`] runs a script from standard input. Cases in files test both,
//! since contracts don't cover what they read and print.
#![tactic(auto)]

mod exit;
mod reading;
mod script_input;
mod secret_file;
mod site_request;
mod steps_request;
mod store_request;
mod words;

pub use exit::Exit;
pub use reading::{Request, read_command_line};
pub use script_input::run_input;
pub use site_request::{SiteAddresses, SiteRequest};
pub use steps_request::StepsRequest;
pub use store_request::StoreRequest;

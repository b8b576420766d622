//! Manager sessions of clients over TCP, at any desk.
//!
//! [`answer_clients`] waits for the [`Clients`] of a site and serves one after another; [`Clients::stop`] ends that. [`answer_client`]
//! serves one to the end of its session, within the times of its [`SessionSettings`]: a client that doesn't log in, sends nothing, or reads
//! too little loses its place after these times.
#![tactic(auto)]

mod accepting;
mod answering;
mod client;
mod client_log;
mod client_sink;
mod client_source;
mod clients;
mod deadlines;
mod message_count;
mod place_count;
mod places;
mod server_settings;
mod session_settings;
mod sessions;
mod tickets;
mod timed_read;

pub use answering::answer_clients;
pub use client::answer_client;
pub use client_log::ClientLog;
pub use clients::{ClientSettings, Clients, answering_threads};
pub use place_count::{MOST_PLACES, PLACES, PlaceCount};
pub use server_settings::{LAST_PORT, MOST_SERVED_SITES, ServerSettings, SettingsFault};
pub use session_settings::{IDLE_SECONDS, LOGIN_TRIES, PATIENCE_SECONDS, SessionSettings};

//! Serves sites in memory.
use crate::failed;
use crate::system::System;
use ami_text::StdSink;
use command_line::Exit;
use event_log::EventLog;
use replica::QueueList;
use serving_clients::ServerSettings;
use site_service::serve_new_sites;
use std::alloc::Global;
use std::io;
use std::sync::Arc;

// Serves sites in memory until the program is stopped. A fault is printed, and the exit is `Failed`. `Err`: that printing failed.
pub(crate) fn serve<R: System>(
    rt: &R,
    settings: &ServerSettings,
    list: &QueueList,
    events: &Arc<EventLog, Global>,
) -> io::Result<Exit> {
    let mut log = StdSink::new(io::writer(rt));
    match serve_new_sites(rt, rt.alloc(), settings, list, None, &mut log, events) {
        Ok(()) => Ok(Exit::Done),
        Err(fault) => failed(rt, &fault),
    }
}

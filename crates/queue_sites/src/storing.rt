//! Serves sites over stores, which are files.
use crate::failed;
use crate::system::System;
use ami_text::StdSink;
use command_line::{Exit, StoreRequest};
use event_log::EventLog;
use replica::QueueList;
use serving_clients::ServerSettings;
use site_files::SiteDatabase;
use site_service::{StorePath, serve_site_files};
use std::alloc::Global;
use std::io;
use std::sync::Arc;

// Where the stores are that are requested.
pub(crate) fn place_of(store: &StoreRequest) -> StorePath<'_> {
    StorePath {
        path: store.path.as_str(),
        keeps: store.keeps,
    }
}

// Serves sites, whose stores are in a folder, until the program is stopped. It returns `Failed` if all sites have ended, and the log has
// said why; or after a fault, which is printed. `Err`: that printing failed.
pub(crate) fn serve<R: System>(
    rt: &R,
    host: &HostRuntime,
    settings: &ServerSettings,
    list: &QueueList,
    folder: &StoreRequest,
    events: &Arc<EventLog, Global>,
) -> io::Result<Exit> {
    let mut log = StdSink::new(io::writer(rt));
    match serve_site_files::<_, SiteDatabase, _>(
        rt,
        host,
        settings,
        list,
        place_of(folder),
        None,
        &mut log,
        events,
    ) {
        Ok(()) => Ok(Exit::Failed),
        Err(fault) => failed(rt, &fault),
    }
}

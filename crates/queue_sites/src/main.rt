//! The program `queue_sites`: reads its command line, and runs a script from standard input, reports on the stores of sites, or serves sites
//! until it is stopped.
#![tactic(auto)]

mod linking;
mod logging;
mod reporting;
mod serving;
mod storing;
mod system;

use command_line::{Exit, Request, read_command_line, run_input};
use event_log::EventLog;
use logging::Logging;
use std::alloc::Global;
use std::fmt::Display;
use std::io;
use std::net::{Net, TcpListener, TcpStream};
use std::process::ExitCode;
use std::random::RandomSource;
use std::rt::{Env, Files};
use std::sync::{Arc, Wait};
use std::thread::Threads;
use std::time::Clock;
use system::System;

// Ends the program with the status of its exit, or with 1 if a printing failed.
fn main(rt: HostRuntime) -> ExitCode {
    match run(&rt, &rt) {
        Ok(exit) => ExitCode::from(exit.status()),
        Err(_) => ExitCode::from(Exit::Failed.status()),
    }
}

// Runs the program, and returns its exit. `host` opens stores. `Err`: a printing failed.
fn run<
    R: Env
        + Files
        + AllocGlobal
        + Print
        + Eprint
        + Input
        + Net<Listener = TcpListener, Stream = TcpStream>
        + Threads
        + Wait
        + Clock
        + RandomSource
        + Sync
        + Send
        + Copy
        + 'static,
>(rt: &R, host: &HostRuntime) -> io::Result<Exit> {
    let request = read_command_line(rt)?;
    match &request {
        Request::Script(sites, list) => run_input(rt, *sites, list),
        Request::Audit(paths) => reporting::audit(rt, paths.as_slice()),
        Request::Steps(request) => reporting::list(rt, request),
        Request::Done(exit) => Ok(*exit),
        _ => serve_logged(rt, host, &request),
    }
}

// Prints why the program fails. Returns `Failed`. `Err`: that printing failed.
pub(crate) fn failed<R: Eprint, F: Display>(rt: &R, why: &F) -> io::Result<Exit> {
    eprintln!(rt; "queue_sites: {why}")?;
    Ok(Exit::Failed)
}

// Serves what is requested until it ends or the program is stopped, and returns the exit; of a request that serves nothing `Done`. A fault
// is printed. `Err`: that printing failed.
fn serve_request<R: System>(
    rt: &R,
    host: &HostRuntime,
    request: &Request,
    events: &Arc<EventLog, Global>,
) -> io::Result<Exit> {
    match request {
        Request::Serve(settings, list, None) => serving::serve(rt, settings, list, events),
        Request::Serve(settings, list, Some(folder)) => {
            storing::serve(rt, host, settings, list, folder, events)
        }
        Request::Site(request) => linking::serve(rt, host, request, events),
        _ => Ok(Exit::Done),
    }
}

// Serves what is requested, and logs; at its end it waits for the log, for 2 seconds at most. Without a log nothing is served: that is
// printed, and the exit is `Failed`. `Err`: a printing failed.
fn serve_logged<R: System + Send + Copy + 'static>(
    rt: &R,
    host: &HostRuntime,
    request: &Request,
) -> io::Result<Exit> {
    let logging = match Logging::start(rt) {
        Ok(logging) => logging,
        Err(why) => return failed(rt, &why),
    };
    let exit = serve_request(rt, host, request, &logging.events);
    logging.end(rt);
    drop(logging);
    exit
}

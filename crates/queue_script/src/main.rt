//! The program `queue_script`: the command `script` of `queue_sites` as a program of its own, which stands on fewer crates and so is
//! proved sooner. `./queue_sites script` runs it.
#![tactic(auto)]

use command_line::{Exit, Request, read_command_line, run_input};
use std::io;
use std::process::ExitCode;
use std::rt::{Env, Files};

// Ends the program with the status of its exit, or with 1 if a printing failed.
fn main(rt: HostRuntime) -> ExitCode {
    match run(&rt) {
        Ok(exit) => ExitCode::from(exit.status()),
        Err(_) => ExitCode::from(Exit::Failed.status()),
    }
}

// Runs the script that the command line asks for, and returns the program's exit; `WrongWords` if it asks for something else, which is
// printed. `Err`: a printing failed.
fn run<R: Env + Files + AllocGlobal + Print + Eprint + Input>(rt: &R) -> io::Result<Exit> {
    match read_command_line(rt)? {
        Request::Script(sites, list) => run_input(rt, sites, &list),
        Request::Done(exit) => Ok(exit),
        _ => {
            eprintln!(rt; "queue_sites: this program runs scripts alone")?;
            Ok(Exit::WrongWords)
        }
    }
}

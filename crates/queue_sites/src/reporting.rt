//! Audits the stores in files, and lists the steps of one.
use crate::failed;
use ami_text::StdSink;
use command_line::{Exit, StepsRequest};
use std::io;
use std::rt::Files;
use store_reports::{AuditEnd, ReportFault, audit_files, list_steps};

// Prints why a report over the files at these paths was not written to its end. Returns `Failed`. `Err`: that printing failed.
fn refused<R: Eprint>(rt: &R, paths: &[String], fault: &ReportFault) -> io::Result<Exit> {
    if let ReportFault::File(file, cause) = fault {
        if let Some(path) = paths.get(*file) {
            eprintln!(rt; "queue_sites: store {path}: {cause}")?;
            return Ok(Exit::Failed);
        }
    }
    failed(rt, fault)
}

// Prints where an audit ends, if a reader of its events needs to know. Returns `Done` if the events explain the stores, else `Unexplained`.
// `Err`: that printing failed.
fn exit_of_audit<R: Eprint>(rt: &R, end: &AuditEnd) -> io::Result<Exit> {
    match end {
        AuditEnd::Explained { unsaid: 0 } => Ok(Exit::Done),
        AuditEnd::Explained { unsaid } => {
            eprintln!(rt;
                "queue_sites: {unsaid} events are comments: no line of a script says them"
            )?;
            Ok(Exit::Done)
        }
        AuditEnd::Stuck {
            site,
            position,
            words,
        } => {
            eprintln!(rt;
                "queue_sites: site {site}, step {position}: no event gives this step: {words}"
            )?;
            Ok(Exit::Unexplained)
        }
    }
}

// Writes the events that explain the stores in these files to standard output. A fault is printed, and the exit is `Failed`. `Err`: that
// printing failed.
pub(crate) fn audit<R: Files + AllocGlobal + Print + Eprint>(
    rt: &R,
    paths: &[String],
) -> io::Result<Exit> {
    let mut out = StdSink::new(io::writer(rt));
    match audit_files(rt, &mut out, paths) {
        Ok(end) => exit_of_audit(rt, &end),
        Err(fault) => refused(rt, paths, &fault),
    }
}

// Writes the steps of a store in words to standard output. A fault is printed, and the exit is `Failed`. `Err`: that printing failed.
pub(crate) fn list<R: Files + AllocGlobal + Print + Eprint>(
    rt: &R,
    request: &StepsRequest,
) -> io::Result<Exit> {
    let mut out = StdSink::new(io::writer(rt));
    match list_steps(rt, &mut out, request.path.as_str(), request.frames) {
        Ok(()) => Ok(Exit::Done),
        Err(ReportFault::File(_, cause)) => {
            eprintln!(rt; "queue_sites: store {}: {cause}", request.path)?;
            Ok(Exit::Failed)
        }
        Err(fault) => failed(rt, &fault),
    }
}

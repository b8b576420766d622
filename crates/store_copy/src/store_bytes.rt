use std::io::ErrorKind;
use std::rt::Files;
use std::{fs, io};

/// The bytes of a store's files.
#[derive(Drop)]
pub struct StoreBytes {
    /// The bytes of the database file.
    pub file: Vec<u8>,
    /// The bytes of the log beside it, none where the log is missing.
    pub log: Vec<u8>,
}

// The bytes of the log at a path, none where it is missing. Fails with every other error of the read. No contract says what is read,
// here and below.
fn read_log<R: Files + AllocGlobal>(rt: &R, path: &str) -> io::Result<Vec<u8>> {
    match fs::read(rt, path) {
        Err(error) if error.kind() == ErrorKind::NotFound => Ok(Vec::new(rt.alloc())),
        read => read,
    }
}

/// Reads the file of a store at a path, and its log if there is one (its name and `-wal`). If the path is a link, both lie where it leads,
/// as for a site. It opens both only for reading, takes no lock, and changes nothing. A store that a site has open may change between the
/// two reads: stop its site first, or copy a snapshot of both files.
///
/// Errors, in order: that of the file; that of its log, unless the log is missing. An error of the kind `OutOfMemory` may stand in place
/// of each.
pub fn read_bytes<R: Files + AllocGlobal>(rt: &R, path: &str) -> io::Result<StoreBytes> {
    let real = fs::canonicalize(rt, path)?;
    let log_path = format!(in rt.alloc(); "{}-wal", real.as_str())?;
    let file = fs::read(rt, real.as_str())?;
    match read_log(rt, log_path.as_str()) {
        Ok(log) => Ok(StoreBytes { file, log }),
        Err(error) => {
            drop(file);
            Err(error)
        }
    }
}

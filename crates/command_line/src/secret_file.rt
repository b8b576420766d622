use dots::Text80;
use std::io::{ErrorKind, Read};
use std::rt::Files;
use std::{fs, io};

// The most bytes of a file that are read: a secret of 80, CR and LF, and one more.
const LOOK: usize = 83;

// The most tries of a read.
const READS: u32 = 1_000;

// Why a file gives no secret.
#[derive(Clone, Copy)]
pub(crate) enum SecretFault {
    // The file can't be read.
    Unreadable(io::Error),
    // Its first line is no text of at most 80 bytes.
    NotText,
}

// Reads once, and tries again where the read is interrupted, 1,000 times in all. Returns what the last try does: the number of bytes read,
// or its error.
fn read_once<F: Read>(file: &mut F, piece: &mut [u8]) -> Result<usize, io::Error> {
    for _ in 1..READS {
        match file.read(piece) {
            Ok(count) => return Ok(count),
            Err(error) => {
                if error.kind() != ErrorKind::Interrupted {
                    return Err(error);
                }
            }
        }
    }
    file.read(piece)
}

// Reads until the piece is full or the file has ended. Returns the number of bytes read. The first error of a read ends it.
fn read_front<F: Read>(file: &mut F, piece: &mut [u8]) -> Result<usize, io::Error> {
    let mut count = 0usize;
    for _ in 0..piece.len() {
        if count >= piece.len() {
            break;
        }
        let read = read_once(file, &mut piece[count..])?;
        if read == 0 {
            break;
        }
        count = count.saturating_add(read);
    }
    Ok(count)
}

// The first line of these bytes, without its LF; all of them if they have none. One CR at its end is left out in both cases.
fn first_line(bytes: &[u8]) -> &[u8] {
    let line = match bytes.iter().position(|byte| *byte == b'\n') {
        Some(end) => &bytes[..end],
        None => bytes,
    };
    line.strip_suffix(b"\r").unwrap_or(line)
}

// Reads the secret that is the first line of a file, of which 83 bytes are read at most. Errors, in order: `Unreadable`, `NotText`.
pub(crate) fn read_secret<R: Files>(rt: &R, name: &str) -> Result<Text80, SecretFault> {
    let mut file = match fs::open(rt, name) {
        Ok(file) => file,
        Err(error) => return Err(SecretFault::Unreadable(error)),
    };
    let mut piece = [0u8; LOOK];
    let count = match read_front(&mut file, &mut piece) {
        Ok(count) => count,
        Err(error) => {
            drop(file);
            return Err(SecretFault::Unreadable(error));
        }
    };
    drop(file);
    let front = piece.get(..count).unwrap_or(&piece);
    match Text80::new(first_line(front)) {
        Ok(secret) => Ok(secret),
        Err(_) => Err(SecretFault::NotText),
    }
}

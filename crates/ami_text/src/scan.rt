//! Finds the first thing in held bytes.

ghost use Rattle.ami_text.specs.Found.{IsFound};
ghost use Rattle.ami_text.specs.Progress.{IsProgress};

use crate::FeedFault;
use crate::found::Found;
use crate::line::kind;
use crate::line_kind::LineKind;
use crate::progress::Progress;
use bstr::ByteSlice;

/// The most lines of a message, empty ones aside.
pub const LINES_LIMIT: usize = 128;

/// Scans the held bytes from where the last scan stopped. Returns the first thing in
/// them: a message or a fault, or `Rest` if there is neither.
pub fn scan(held: &[u8], from: Progress) -> Found
    requires { IsProgress held.now from }
    ensures { IsFound held.now result }
{
    let mut empty = 0;
    let mut line = from.line;
    let mut lines = from.lines;
    let mut looked = from.looked;
    'lines: while let Some(length) = (&held[looked..]).find_byte(b'\n') {
        let end = looked + length;
        match kind(&held[line..end]) {
            LineKind::Empty if lines > 0 => {
                return Found::Message {
                    end: line,
                    next: end + 1,
                };
            }
            LineKind::Empty => empty = end + 1,
            LineKind::Full if lines < LINES_LIMIT => lines += 1,
            LineKind::Full => {
                return Found::Fault {
                    fault: FeedFault::TooManyFields,
                };
            }
            LineKind::TooLong => {
                return Found::Fault {
                    fault: FeedFault::LineTooLong,
                };
            }
        }
        line = end + 1;
        looked = line;
    }
    match kind(&held[line..]) {
        LineKind::TooLong => Found::Fault {
            fault: FeedFault::LineTooLong,
        },
        LineKind::Empty | LineKind::Full => Found::Rest {
            empty,
            progress: Progress {
                line: line - empty,
                lines,
                looked: held.len() - empty,
            },
        },
    }
}

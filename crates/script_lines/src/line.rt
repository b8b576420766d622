//! The lines of a script.
ghost use Rattle.std.specs.Prelude.{◌≡◌, ◌<◌, ◌∷◌, length};
ghost use Rattle.std.specs.Option.{option_copied};
ghost use Rattle.script_lines.specs.ScriptLines.{behind, before_blank, behind_blank};
ghost use Rattle.script_lines.specs.ScriptLines.{lines_of, sense_of, words_sense};
ghost use Rattle.script_lines.specs.Views.{sense};

use crate::numbers::{entry_of, site_of};
use crate::site_count::SiteCount;
use ami_text::content;
use bstr::ByteSlice;
use dots::{Calls, SiteId};

/// What a line of a script asks.
#[derive(Clone, Copy)]
pub enum Line<'a> {
    /// Nothing: it is empty, or begins with `#`.
    Nothing,
    /// `S ami FIELDS`: one message to the site, whose lines stand between bars.
    Message(SiteId, &'a [u8]),
    /// `S completed QUEUE`, `S abandoned QUEUE`: a call of the queue is to be counted.
    Count(SiteId, Calls, &'a [u8]),
    /// `S offer QUEUE|TRIED..`: an offer of the queue, without the tried interfaces.
    Offer(SiteId, &'a [u8]),
    /// `S cut`: a frame of the site's buffer.
    Cut(SiteId),
    /// `S whole`: a frame of all that the site knows.
    Whole(SiteId),
    /// `S take K`: the frame of an entry is to be taken.
    Take(SiteId, usize),
    /// `show K`: the frame of an entry is to be shown.
    Show(usize),
    /// The line has none of the other forms, so it isn't understood.
    Unknown,
}

/// The first line of bytes, of which there is one at least, without its LF and one CR before that, and the bytes
/// after it. The last line may lack its LF; then it stays as it is.
pub fn cut_line(bytes: &[u8]) -> (&[u8], &[u8])
    requires { 0 < length bytes.now }
    ensures lines { lines_of bytes.now ≡ result.0.now ∷ lines_of result.1.now }
    ensures shorter { length result.1.now < length bytes.now }
{
    match bytes.find_byte(b'\n') {
        None => (bytes, &[]),
        Some(end) => (content(&bytes[..end]), &bytes[end + 1..]),
    }
}

// The bytes before the first blank of a line, and those after it, if there is one.
fn cut_at_blank(line: &[u8]) -> (&[u8], Option<&[u8]>)
    ensures before { result.0.now ≡ before_blank line.now }
    ensures behind { option_copied result.1 ≡ behind_blank line.now }
{
    match line.find_byte(b' ') {
        None => (line, None),
        Some(blank) => (&line[..blank], Some(&line[blank + 1..])),
    }
}

// The bytes after `front`, if `bytes` begin with it; else `None`.
fn behind<'a>(front: &[u8], bytes: &'a [u8]) -> Option<&'a [u8]>
    ensures { option_copied result ≡ behind front.now bytes.now }
{
    bytes.strip_prefix(front)
}

// The ask of a site, by the words after its number; `Unknown` of other words.
fn read_words(site: SiteId, words: &[u8]) -> Line<'_>
    ensures { sense result ≡ words_sense site words.now }
{
    if let Some(fields) = behind(b"ami ", words) {
        return Line::Message(site, fields);
    }
    if let Some(queue) = behind(b"completed ", words) {
        return Line::Count(site, Calls::Completed, queue);
    }
    if let Some(queue) = behind(b"abandoned ", words) {
        return Line::Count(site, Calls::Abandoned, queue);
    }
    if let Some(parts) = behind(b"offer ", words) {
        return Line::Offer(site, parts);
    }
    if let Some(word) = behind(b"take ", words) {
        return match entry_of(word) {
            Some(entry) => Line::Take(site, entry),
            None => Line::Unknown,
        };
    }
    match (behind(b"cut", words), behind(b"whole", words)) {
        (Some([]), _) => Line::Cut(site),
        (None, Some([])) => Line::Whole(site),
        _ => Line::Unknown,
    }
}

/// What a line asks of one of `sites` sites, or of the pool. The line is without its end.
pub fn read_line(sites: SiteCount, line: &[u8]) -> Line<'_>
    ensures { sense result ≡ sense_of sites line.now }
{
    if line.is_empty() || line[0] == b'#' {
        return Line::Nothing;
    }
    if let Some(word) = behind(b"show ", line) {
        return match entry_of(word) {
            Some(entry) => Line::Show(entry),
            None => Line::Unknown,
        };
    }
    let (word, words) = cut_at_blank(line);
    match (site_of(sites, word), words) {
        (Some(site), Some(words)) => read_words(site, words),
        _ => Line::Unknown,
    }
}

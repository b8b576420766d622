//! The numbers of a line: of a site, and of an entry.
ghost use Rattle.std.specs.Prelude.{◌≡◌};
ghost use Rattle.script_lines.specs.ScriptLines.{entry_in, site_in};

use crate::site_count::SiteCount;
use ami_text::number_in;
use dots::SiteId;

/// The site that a word names by one digit or two; `None` where that is none of the `sites` sites.
pub fn site_of(sites: SiteCount, word: &[u8]) -> Option<SiteId>
    ensures { result ≡ site_in sites word.now }
{
    let number = number_in(2, word)?;
    if number < u64::from(sites.get()) {
        SiteId::new(number as u16)
    } else {
        None
    }
}

/// The number of an entry that a word spells by one digit to nine; `None` of any other word.
pub fn entry_of(word: &[u8]) -> Option<usize>
    ensures { result ≡ entry_in word.now }
{
    let number = number_in(9, word)?;
    Some(number as usize)
}

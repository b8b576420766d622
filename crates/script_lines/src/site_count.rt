ghost use Rattle.std.specs.Prelude.{◌≡◌, ◌↔◌, IsSome, IfSome};
ghost use Rattle.script_lines.specs.Counts.{IsSiteCount};

use dots::SITES;
use std::marker::Model;

/// The number of sites of a script, 1 to 64.
#[derive(Clone, Copy, Debug, PartialEq, Eq)]
pub struct SiteCount {
    sites: u16,
}

impl Model for SiteCount {
    ghost use Rattle.std.specs.Prelude.{ℕ};
    ghost use Rattle.script_lines.specs.Counts.{IsSiteCount};

    ghost Value = { ℕ };

    ghost view = { λ s. s.sites };

    ghost invariant = { λ s. IsSiteCount s.sites };

    ghost inverse = { λ n. record { sites = n } };
}

impl SiteCount {
    /// The count of `sites` sites. `None` exactly where that is 0, or more than 64.
    pub fn new(sites: u16) -> Option<SiteCount>
        ensures within { IsSome result ↔ IsSiteCount sites }
        ensures value { IfSome result (λ count. count ≡ sites) }
    {
        if 0 < sites && sites <= SITES {
            Some(SiteCount { sites })
        } else {
            None
        }
    }

    /// The number of sites of the script, 1 to 64.
    pub fn get(self) -> u16
        ensures value { result ≡ self }
        ensures limit { IsSiteCount result }
    {
        self.sites
    }
}

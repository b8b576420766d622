ghost use Rattle.std.specs.Prelude.{◌≡◌, ℕ, IfOk, IsOk, OnErr};
ghost use Rattle.replica.specs.declared.command.Command.{Command};
ghost use Rattle.status_report.specs.declared.asks.Ask.TheVariants.{Command as asked_command};
ghost use Rattle.sites_world.specs.SiteOutcomes.{IsAsk};
ghost use Rattle.sites_world.specs.WithinLimits.{HasValuesWithinLimits};

use dots::{Memory, SiteId};
use status_report::Ask;

/// An event at one site of a world (this project's own). A lost frame is a frame that no event takes.
#[derive(Drop)]
pub enum Event {
    /// The site runs a command or reports its status.
    Ask(SiteId, Ask),
    /// The site puts its buffer into a frame at the end of the pool. An empty buffer gives no frame.
    Cut(SiteId),
    /// The site puts everything that it knows into a frame at the end of the pool.
    Whole(SiteId),
    /// The site takes the frame of an entry of the pool, of any maker.
    Take(SiteId, usize),
}

impl Event {
    // Exposes to the proof that the values of the event's command are within their limits.
    pub(crate) fn see_limits(&self)
        ensures { HasValuesWithinLimits self.now }
    {
        if let Event::Ask(_, Ask::Command(command)) = self {
            command.see_limits();
        }
    }

    /// Returns a copy. Fails only when out of memory. To copy a status ask takes memory; no other event
    /// does.
    pub fn copy(&self) -> Result<Event, Memory>
        ensures ok { IfOk result (λ copy. copy ≡ self.now) }
        ensures asks { OnErr result (IsAsk self.now) }
        ensures command { (site : ℕ) (command : Command)
            → self.now ≡ Event.Ask site (asked_command command) → IsOk result }
    {
        match self {
            Event::Ask(site, asked) => {
                let asked = asked.copy()?;
                Ok(Event::Ask(*site, asked))
            }
            Event::Cut(site) => Ok(Event::Cut(*site)),
            Event::Whole(site) => Ok(Event::Whole(*site)),
            Event::Take(site, entry) => Ok(Event::Take(*site, *entry)),
        }
    }
}

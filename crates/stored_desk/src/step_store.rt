ghost use Rattle.std.specs.Prelude.{◌≡◌, ◌++◌, [], IfOk, List, OnOk};
ghost use Rattle.replica.specs.Site.{SiteState};
ghost use Rattle.site_journal.specs.Legal.{LeadAll};
ghost use Rattle.site_journal.specs.declared.step.Step.{Step};
ghost use Rattle.stored_desk.specs.Recorded.{IsLegalHistory};

use dots::Memory;
use replica::Replica;
use site_journal::Step;
use thiserror::Error;

/// Why a commit of a store has failed. Beside the steps committed before, the store has all steps of the commit or none (this project's
/// own).
#[derive(Clone, Copy, Debug, PartialEq, Eq, Error)]
pub enum CommitFault {
    /// The disk has no room for the steps.
    #[error("disk full")]
    Full,
    /// The disk failed to read or write.
    #[error("input or output failed")]
    Device,
    /// What the disk has isn't what the store has written.
    #[error("damaged file")]
    Damaged,
    /// Memory is lacking for the commit itself.
    #[error("out of memory")]
    Memory,
    /// The store refuses the commit for another cause.
    #[error("commit failed")]
    Other,
}

/// How much a store has stored since its base (this project's own).
#[derive(Clone, Copy)]
pub struct Growth {
    /// How many rows.
    pub rows: u64,
    /// How many bytes these rows have.
    pub bytes: u64,
}

/// Where the steps are stored that a site does after its desk was made, in their order (this project's own). An instance says by relations
/// what it has, and what a crash leaves. It may keep a base in place of first steps: then the site to which they lead stands for them.
pub trait StepStore: Drop {
    ghost use Rattle.std.specs.Prelude.{List};
    ghost use Rattle.replica.specs.Site.{SiteState};
    ghost use Rattle.site_journal.specs.declared.step.Step.{Step};

    /// Steps that are made ready for a commit, in the form in which they are stored.
    type Group: Drop;

    /// A site that is made ready to be a base, in the form in which it is stored.
    type Base: Drop;

    /// The group has just these steps.
    ghost groups: { Self.Group → List Step → Type 0 };

    /// The base is of a site in this state.
    ghost bases: { Self.Base → SiteState → Type 0 };

    /// The store has just these steps, and can take more.
    ghost holds: { Self → List Step → Type 0 };

    /// A crash leaves a store that has just the steps of the first list, or these and then all of the second.
    ghost keeps: { Self → List Step → List Step → Type 0 };

    /// The state of the site before all its steps.
    ghost begun: { Self → SiteState };

    /// Makes steps ready for a commit. It is called under the site's lock. Fails only when out of memory.
    fn group(&self, steps: &[Step]) -> Result<Self::Group, Memory>
        ensures { IfOk result (λ group. groups group steps.now) };

    /// Adds the steps of a group in one commit, which the site can do after those that the store has. After Ok they are durable. After an
    /// error, of which `CommitFault` is the cause, a crash leaves the steps from before, or these and all steps of the group. The desk
    /// calls the store no more then.
    fn commit(&mut self, group: Self::Group) -> Result<(), CommitFault>
        ensures added { (list more : List Step) → holds self.old list → keeps self.old list []
            → groups group more → IsLegalHistory (begun self.old) (list ++ more)
            → OnOk result (holds self.new (list ++ more) × keeps self.new (list ++ more) []) }
        ensures kept { (list more : List Step) → holds self.old list → keeps self.old list []
            → groups group more → IsLegalHistory (begun self.old) (list ++ more)
            → keeps self.new list more }
        ensures begun { begun self.new ≡ begun self.old };

    /// Makes a base of a site. It is called while no lock is held. Fails only when out of memory.
    fn base(&self, site: Replica) -> Result<Self::Base, Memory>
        ensures { IfOk result (λ base. bases base site) };

    /// Puts a base in place of all its steps, in one commit: the site after them. The store still stands for the same steps, also after a
    /// crash. After an error a crash leaves just these steps. The desk calls the store no more then.
    fn replace_base(&mut self, base: Self::Base) -> Result<(), CommitFault>
        ensures replaced { (list : List Step) → (site : SiteState) → holds self.old list
            → keeps self.old list [] → bases base site → LeadAll (begun self.old) list site
            → OnOk result (holds self.new list × keeps self.new list []) }
        ensures kept { (list : List Step) → (site : SiteState) → holds self.old list
            → keeps self.old list [] → bases base site → LeadAll (begun self.old) list site
            → keeps self.new list [] }
        ensures begun { begun self.new ≡ begun self.old };

    /// How much it has stored since its base; no contract says how much. It takes no memory.
    fn since_base(&self) -> Growth;
}

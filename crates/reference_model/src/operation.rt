ghost use Rattle.std.specs.Prelude.{◌≡◌, ◌≤◌, option_map, IfOk};
ghost use Rattle.std.specs.FinSet as set;
ghost use Rattle.std.specs.List.{list_any, find};
ghost use Rattle.operations.specs.Operations.{named_by, asserted_by};
ghost use Rattle.operations.specs.Knowledge.{is_dot, asserts, names};
ghost use Rattle.operations.specs.Counts.{count_in};
ghost use Rattle.replica.specs.SiteViews.{count_used, own_time, time_used};
ghost use Rattle.reference_model.specs.Plain.{operation_of};
ghost use Rattle.reference_model.specs.Views.{fields_of, fields_set};

use crate::entry::Entry;
use crate::fields::Fields;
use crate::{Calls, Setting, Total};
use dots::{Dot, Label, MOST_CALLS, MOST_COUNT, Member, Memory, Pause, Penalty, SiteId, Stamp};
use std::alloc::Global;

/// A change that a site made, which is made once (RR-7506). Lists of dots stand for sets: neither their order nor
/// repetition counts, but where a Write gives one dot two members, the first counts.
#[derive(Drop)]
pub enum Operation {
    /// A new dot of a member, with its penalty, pause and label under one stamp (RR-8083: an add makes a unique tag).
    Add {
        /// The dot that the add makes.
        dot: Dot,
        /// The member that the dot is of.
        member: Member,
        /// When the add was made, and at which site.
        stamp: Stamp,
        /// The penalty that the add sets.
        penalty: Penalty,
        /// The pause that the add sets: whether the member is paused, and why.
        pause: Pause,
        /// The label that the add sets: the member name and the state interface.
        label: Label,
        /// Older dots of the same site, dead where the add was made.
        older: Vec<Dot>,
    },
    /// One field set on the dots of a member that its site sees.
    Write {
        /// The dots on which the field is set, each with its member.
        dots: Vec<(Dot, Member)>,
        /// The field that is set, and its value.
        setting: Setting,
        /// When the value was written, and at which site.
        stamp: Stamp,
        /// Older dots of the same sites, dead where the write was made.
        older: Vec<Dot>,
    },
    /// Dots that are dead from now on (RR-8083: a remove takes the tags that its replica has observed).
    Remove {
        /// The dots that the remove names.
        dots: Vec<Dot>,
    },
    /// How many calls a site has counted in a queue so far.
    Count {
        /// The site that counted the calls.
        site: SiteId,
        /// The number of the queue, from 0.
        queue: u16,
        /// The kind of calls that were counted.
        calls: Calls,
        /// How many of these calls the site has counted so far.
        total: Total,
    },
}

// Whether two dots are one.
pub(crate) fn is_dot(dot: Dot, other: Dot) -> bool
    ensures { result ≡ is_dot dot other }
{
    dot.cmp(&other).is_eq()
}

// Whether `dot` is among `dots`.
fn has_dot(dots: &[Dot], dot: Dot) -> bool
    ensures { result ≡ list_any (is_dot dot) dots.now }
{
    dots.iter().any(|other| is_dot(dot, *other))
}

// The member that stands first with `dot` in a list of dots with their members, if one does.
fn find_member(dots: &[(Dot, Member)], dot: Dot) -> Option<&Member>
    ensures { option_map (λ m. m.now) result
        ≡ option_map (λ p. p.1) (find (λ p. is_dot dot p.0) dots.now) }
{
    for (other, member) in dots {
        if is_dot(dot, *other) {
            return Some(member);
        }
    }
    None
}

// The time of a stamp where that is of this site, else 0.
fn own_time(site: SiteId, stamp: Stamp) -> u64
    ensures value { result ≡ own_time site stamp }
    ensures limit { result ≤ MOST_COUNT }
{
    if stamp.site().number() == site.number() {
        stamp.time()
    } else {
        0
    }
}

// A copy of a list of dots with their members.
fn members_copied(alloc: Global, dots: &[(Dot, Member)]) -> Result<Vec<(Dot, Member)>, Memory>
    ensures { IfOk result (λ copy. copy.items ≡ dots.now) }
{
    dots.iter()
        .map(|(dot, member)| (*dot, member.copy()))
        .collect(alloc)
}

impl Operation {
    // The member with which this operation asserts `dot`; `None` where it doesn't assert it.
    pub(crate) fn member_of(&self, dot: Dot) -> Option<&Member>
        ensures { option_map (λ m. m.now) result
            ≡ option_map (λ p. p.1)
            (find (λ p. is_dot dot p.0) (asserted_by (operation_of self.now))) }
    {
        match self {
            Operation::Add {
                dot: made,
                member,
                ..
            } => {
                if is_dot(dot, *made) {
                    Some(member)
                } else {
                    None
                }
            }
            Operation::Write { dots, .. } => find_member(dots, dot),
            Operation::Remove { .. } | Operation::Count { .. } => None,
        }
    }

    // Whether this operation asserts `dot`.
    pub(crate) fn asserts(&self, dot: Dot) -> bool
        ensures { result ≡ asserts dot (operation_of self.now) }
    {
        self.member_of(dot).is_some()
    }

    // The dots that this operation names.
    pub(crate) fn named(&self) -> &[Dot]
        ensures { set.from_list result.now ≡ named_by (operation_of self.now) }
    {
        match self {
            Operation::Add { older, .. } | Operation::Write { older, .. } => older,
            Operation::Remove { dots } => dots,
            Operation::Count { .. } => &[],
        }
    }

    // Whether this operation names `dot`.
    pub(crate) fn names(&self, dot: Dot) -> bool
        ensures { result ≡ names dot (operation_of self.now) }
    {
        has_dot(self.named(), dot)
    }

    // What this operation sets of each field; an add sets all but ring.
    pub(crate) fn fields(&self) -> Fields<'_>
        ensures { fields_of result ≡ fields_set (operation_of self.now) }
    {
        match self {
            Operation::Add {
                stamp,
                penalty,
                pause,
                label,
                ..
            } => Fields {
                penalty: Some(Entry {
                    stamp: *stamp,
                    value: *penalty,
                }),
                pause: Some(Entry {
                    stamp: *stamp,
                    value: pause,
                }),
                label: Some(Entry {
                    stamp: *stamp,
                    value: label,
                }),
                ring: None,
            },
            Operation::Write { setting, stamp, .. } => setting.fields(*stamp),
            Operation::Remove { .. } | Operation::Count { .. } => Fields::none(),
        }
    }

    // The count that this site has used for the operation; 0 where it has used none.
    pub(crate) fn count_used(&self, site: SiteId) -> u64
        ensures value { result ≡ count_used site (operation_of self.now) }
        ensures limit { result ≤ MOST_COUNT }
    {
        match self {
            Operation::Add { dot, .. } if dot.site().number() == site.number() => dot.count(),
            _ => 0,
        }
    }

    // The time that this site has used for the operation; 0 where it has used none.
    pub(crate) fn time_used(&self, site: SiteId) -> u64
        ensures value { result ≡ time_used site (operation_of self.now) }
        ensures limit { result ≤ MOST_COUNT }
    {
        match self {
            Operation::Add { stamp, .. } | Operation::Write { stamp, .. } => own_time(site, *stamp),
            Operation::Remove { .. } | Operation::Count { .. } => 0,
        }
    }

    /// Returns a copy. Fails only when out of memory.
    pub fn copy(&self, alloc: Global) -> Result<Operation, Memory>
        ensures { IfOk result (λ copy. operation_of copy ≡ operation_of self.now) }
    {
        match self {
            Operation::Add {
                dot,
                member,
                stamp,
                penalty,
                pause,
                label,
                older,
            } => Ok(Operation::Add {
                dot: *dot,
                member: member.copy(),
                stamp: *stamp,
                penalty: *penalty,
                pause: pause.copy(),
                label: label.copy(),
                older: Vec::from_slice(alloc, older)?,
            }),
            Operation::Write {
                dots,
                setting,
                stamp,
                older,
            } => Ok(Operation::Write {
                dots: members_copied(alloc, dots)?,
                setting: setting.copy(),
                stamp: *stamp,
                older: Vec::from_slice(alloc, older)?,
            }),
            Operation::Remove { dots } => Ok(Operation::Remove {
                dots: Vec::from_slice(alloc, dots)?,
            }),
            Operation::Count {
                site,
                queue,
                calls,
                total,
            } => Ok(Operation::Count {
                site: *site,
                queue: *queue,
                calls: *calls,
                total: *total,
            }),
        }
    }

    // How many calls of a kind the operation says that a site has counted in a queue; 0 where it says nothing of them.
    pub(crate) fn counted(&self, site: u16, queue: u16, calls: Calls) -> u64
        ensures value { result ≡ count_in site queue calls (operation_of self.now) }
        ensures limit { result ≤ MOST_CALLS }
    {
        match self {
            Operation::Count {
                site: counting,
                queue: counted,
                calls: kind,
                total,
            } if counting.number() == site && *counted == queue && kind.same(calls) => {
                u64::from(total.get())
            }
            _ => 0,
        }
    }
}

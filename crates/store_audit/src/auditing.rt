//! An audit of the stores of all sites.
ghost use Rattle.std.specs.Prelude.{◌≡◌, ◌⊎◌, ◌↔◌, ◌++◌, ℕ, IfErr, IfOk, IsErrOf, None, OnErr, OnOk};
ghost use Rattle.std.specs.Prelude.{Some, count_by, false, true};
ghost use Rattle.std.specs.List.{All};
ghost use Rattle.std.specs.List.Sorted.{IsNonDecreasingBy};
ghost use Rattle.std.specs.Io.KnownBytes.{Appends};
ghost use Rattle.ami_text.specs.Devices.{HasTaken};
ghost use Rattle.event_script.specs.Lines.{HasLimits, is_unsaid, script_of};
ghost use Rattle.site_audit.specs.Runs.{AreSites, IsRun, IsStuck};
ghost use Rattle.store_audit.specs.Audits.{EndsAs, IsAuditCause, IsEndOf, IsEndSorted};
ghost use Rattle.store_audit.specs.Audits.{IsExplainedEnd, IsPartsCause, IsSortedCause};
ghost use Rattle.store_audit.specs.Audits.{IsStuckEnd};
ghost use Rattle.store_audit.specs.Stores.{AreCounted, AreFresh, IsRowAt, IsStepOf};
ghost use Rattle.store_audit.specs.Stores.{site_number};

use crate::checking::{check, sort};
use crate::heading::heading;
use crate::splitting::{Parts, split};
use crate::{AuditEnd, StoreAuditFault, StoreJournal};
use ami_text::{Sink, write_all};
use dots::Memory;
use event_script::{EventsFault, write_events};
use site_audit::{AuditFault, Event, Explanation, explain};
use site_journal::{Journaled, Step};
use std::alloc::Global;
use stored_steps::row_of_step;

// The events that explain journals, as far as there are some. The journals are those of the sites 0, 1, .. with one list of queues, and
// have all steps, so that `explain` has no other fault than `Memory`.
fn explain_fresh(alloc: Global, journals: &[Journaled]) -> Result<Explanation, Memory>
    requires sites { AreSites journals.now }
    requires fresh { AreFresh journals.now }
    ensures run { IfOk result (λ it. it.stuck ≡ None → IsRun journals.now it.events.items) }
    ensures stuck { IfOk result (λ it. (site position : ℕ) → it.stuck ≡ Some (site, position)
        → IsStuck journals.now site position it.events.items) }
{
    match explain(alloc, journals) {
        Ok(explanation) => Ok(explanation),
        Err(AuditFault::Memory) => Err(Memory),
        Err(AuditFault::WrongSites) => unreachable!(),
        Err(AuditFault::NotFresh(_)) => unreachable!(),
        Err(AuditFault::NoRun(_, _)) => unreachable!(),
    }
}

// The fault of an audit for that of a script.
fn script_fault(fault: EventsFault) -> StoreAuditFault
    ensures write { (result ≡ StoreAuditFault.Write) ↔ (fault ≡ EventsFault.Write) }
    ensures causes { (result ≡ StoreAuditFault.Write) ⊎ (result ≡ StoreAuditFault.Memory) }
{
    match fault {
        EventsFault::Write => StoreAuditFault::Write,
        EventsFault::Memory => StoreAuditFault::Memory,
    }
}

// Writes a heading and the script of events. Returns how many events no line says. Errors: `Write`, `Memory`; a prefix of heading and
// script was then written.
#[tactic(auto, using(crate::proofs::Ending::begun_first, crate::proofs::Ending::begun_then))]
fn write_script<W: Sink>(
    alloc: Global,
    out: &mut W,
    heading: &[u8],
    events: &[Event],
) -> Result<u64, StoreAuditFault>
    requires writer { W.failed out.old ≡ false }
    ensures written { OnOk result (Appends (W.taken out.old) (W.taken out.new)
        (heading.now ++ script_of events.now)) }
    ensures unsaid { IfOk result (λ unsaid. unsaid ≡ count_by is_unsaid events.now) }
    ensures limits { OnOk result (All HasLimits events.now) }
    ensures works { OnOk result (W.failed out.new ≡ false) }
    ensures begun { OnErr result (HasTaken (W.taken out.old) (W.taken out.new)
        (heading.now ++ script_of events.now)) }
    ensures write { IsErrOf result StoreAuditFault.Write ↔ (W.failed out.new ≡ true) }
    ensures causes { IfErr result (λ fault. (fault ≡ StoreAuditFault.Write)
        ⊎ (fault ≡ StoreAuditFault.Memory)) }
{
    if write_all(out, heading).is_err() {
        return Err(StoreAuditFault::Write);
    }
    match write_events(alloc, out, events) {
        Ok(unsaid) => Ok(unsaid),
        Err(fault) => Err(script_fault(fault)),
    }
}

// A step in the words that a row of it has; no words if it has no row. It fails only when out of memory.
fn words_of(alloc: Global, step: &Step) -> Result<String, Memory> {
    match row_of_step(alloc, step)? {
        Some(row) => {
            let words = String::from_str(alloc, row.words());
            drop(row);
            Ok(words?)
        }
        None => Ok(String::new(alloc)),
    }
}

// The step at this place of a site's journal, where there is one, in words. It fails only when out of memory.
fn words_at(alloc: Global, parts: &Parts, site: usize, place: usize) -> Result<String, Memory>
    requires { IsStepOf parts.now site place }
{
    words_of(alloc, &parts.journals[site].steps()[place])
}

// The position of the row of the step at this place of a site's journal, where there is one. Each step has its row's position.
fn position_at(parts: &Parts, site: usize, place: usize) -> u64
    requires counted { AreCounted parts.now }
    requires step { IsStepOf parts.now site place }
    ensures { IsRowAt parts.now site place result }
{
    parts.positions[site][place]
}

// The end of an audit whose events are stuck at this place of a site's journal, where there is a step. It fails only when out of memory.
fn stuck_at(alloc: Global, parts: &Parts, site: u16, place: u64) -> Result<AuditEnd, Memory>
    requires counted { AreCounted parts.now }
    requires step { IsStepOf parts.now site place }
    ensures { IfOk result (λ end. IsStuckEnd parts.now site place end) }
{
    let words = words_at(alloc, parts, usize::from(site), place as usize)?;
    Ok(AuditEnd::Stuck {
        site,
        position: position_at(parts, usize::from(site), place as usize),
        words,
    })
}

// The end of an audit, by the place where its events are stuck, if they are; there is a step then. It fails only when out of memory, and
// only if they are stuck.
fn end_of(
    alloc: Global,
    parts: &Parts,
    stuck: Option<(u16, u64)>,
    unsaid: u64,
) -> Result<AuditEnd, Memory>
    requires counted { AreCounted parts.now }
    requires step { (site place : ℕ) → stuck ≡ Some (site, place) → IsStepOf parts.now site place }
    ensures explained { stuck ≡ None → IfOk result (λ end. IsExplainedEnd unsaid end) }
    ensures stuck { (site place : ℕ) → stuck ≡ Some (site, place)
        → IfOk result (λ end. IsStuckEnd parts.now site place end) }
{
    match stuck {
        Some((site, place)) => stuck_at(alloc, parts, site, place),
        None => Ok(AuditEnd::Explained { unsaid }),
    }
}

// Writes a heading and the events that explain the journals of stores: those of the sites 0, 1, .. with one list of queues and all
// steps. Errors, each as it occurs: `Memory`, and nothing or a prefix was written; `Write`, and a prefix was.
fn write_parts<W: Sink>(
    alloc: Global,
    out: &mut W,
    heading: &[u8],
    parts: &Parts,
) -> Result<AuditEnd, StoreAuditFault>
    requires writer { W.failed out.old ≡ false }
    requires sites { AreSites parts.now.journals.items }
    requires fresh { AreFresh parts.now.journals.items }
    requires counted { AreCounted parts.now }
    ensures ended { IfOk result (λ end. EndsAs parts.now heading.now
        (W.taken out.old) (W.taken out.new) end) }
    ensures works { OnOk result (W.failed out.new ≡ false) }
    ensures write { IsErrOf result StoreAuditFault.Write ↔ (W.failed out.new ≡ true) }
    ensures fault { IfErr result (λ fault. IsPartsCause parts.now heading.now
        (W.taken out.old) (W.taken out.new) fault) }
{
    let Explanation { events, stuck } = explain_fresh(alloc, &parts.journals)?;
    let written = write_script(alloc, out, heading, &events);
    drop(events);
    let end = end_of(alloc, parts, stuck, written?)?;
    Ok(end)
}

// The audit of stores that are in the order of their sites. Errors are those of `audit_stores`, in its order.
fn audit_sorted<W: Sink>(
    alloc: Global,
    out: &mut W,
    stores: Vec<StoreJournal>,
) -> Result<AuditEnd, StoreAuditFault>
    requires writer { W.failed out.old ≡ false }
    requires rising { IsNonDecreasingBy site_number stores.items }
    ensures ended { IfOk result (λ end. IsEndSorted stores.items
        (W.taken out.old) (W.taken out.new) end) }
    ensures fault { IfErr result (λ fault. IsSortedCause stores.items
        (W.taken out.old) (W.taken out.new) fault) }
    ensures works { OnOk result (W.failed out.new ≡ false) }
    ensures write { IsErrOf result StoreAuditFault.Write ↔ (W.failed out.new ≡ true) }
{
    if let Err(fault) = check(&stores) {
        drop(stores);
        return Err(fault);
    }
    let Ok(heading) = heading(alloc, &stores) else {
        drop(stores);
        return Err(StoreAuditFault::Memory);
    };
    let Ok(parts) = split(alloc, stores) else {
        drop(heading);
        return Err(StoreAuditFault::Memory);
    };
    let ended = write_parts(alloc, out, &heading, &parts);
    drop(heading);
    drop(parts);
    ended
}

/// Writes the events that explain the journals of stores, as a script of this program: behind comments that say how many sites there
/// are, their queues and the stores, a line for each event. The stores are those of the sites 0, 1, .., in any order, with one list of
/// queues. Run over as many sites with these queues, the script shows what the stores say, if no event is unsaid (`laws`). Without a
/// store there is no event.
///
/// Where no list of events explains all stores, the events are stuck: they give each site its first steps, and no further event gives
/// any site its next. These are written in the same way, and the end names the first step of the least site that has one left.
///
/// Errors, in order: `Doubled`, if two stores are of one site, the least that has two; `Missing`, if a lesser site than one of these has
/// none; `OtherQueues`, if a store is of another list of queues than that of site 0; `Write`, if the writer fails or takes no bytes;
/// `Memory`, at any time from then on. After the first three nothing was written, after `Write` a prefix of the text, and after `Memory`
/// nothing or a prefix of it.
pub fn audit_stores<W: Sink>(
    alloc: Global,
    out: &mut W,
    mut stores: Vec<StoreJournal>,
) -> Result<AuditEnd, StoreAuditFault>
    requires writer { W.failed out.old ≡ false }
    ensures ended { IfOk result (λ end. IsEndOf stores.items
        (W.taken out.old) (W.taken out.new) end) }
    ensures fault { IfErr result (λ fault. IsAuditCause stores.items
        (W.taken out.old) (W.taken out.new) fault) }
    ensures works { OnOk result (W.failed out.new ≡ false) }
    ensures write { IsErrOf result StoreAuditFault.Write ↔ (W.failed out.new ≡ true) }
{
    sort(&mut stores);
    audit_sorted(alloc, out, stores)
}

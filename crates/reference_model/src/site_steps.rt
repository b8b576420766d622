// The steps of one site.
ghost use Rattle.std.specs.Prelude.{◌≡◌, ◌++◌, IfOk, OnOk};
ghost use Rattle.replica.specs.Steps.{after_meaning, cut, after_frame, step, take};
ghost use Rattle.reference_model.specs.Plain.{knowledge_of};
ghost use Rattle.reference_model.specs.Sites.{meaning_of, outcome_of, site_of, step_of};

use crate::dot_sets::dots_and_runs;
use crate::{Meaning, Operation, Outcome, SiteKnowledge, Step, meaning_at};
use dots::{MOST_COUNT, MOST_LIVE, MOST_RUNS, Memory, SiteId};
use replica::QueueList;
use std::alloc::Global;

// A site after a step, and the step's outcome.
type After = (SiteKnowledge, Outcome);

// Adds copies of operations at the end of `all`.
fn push_each(
    alloc: Global,
    all: &mut Vec<Operation>,
    operations: &[Operation],
) -> Result<(), Memory>
    ensures { OnOk result
        (knowledge_of all.new.items ≡ knowledge_of all.old.items ++ knowledge_of operations.now) }
{
    for operation in operations {
        all.push(operation.copy(alloc)?)?;
    }
    Ok(())
}

// The operations of `front`, and those of `back` after them.
fn joined(alloc: Global, front: &[Operation], back: &[Operation]) -> Result<Vec<Operation>, Memory>
    ensures { IfOk result
        (λ all. knowledge_of all.items ≡ knowledge_of front.now ++ knowledge_of back.now) }
{
    let mut all = Vec::new(alloc);
    push_each(alloc, &mut all, front)?;
    push_each(alloc, &mut all, back)?;
    Ok(all)
}

// A copy of a list of operations.
fn copied(alloc: Global, operations: &[Operation]) -> Result<Vec<Operation>, Memory>
    ensures { IfOk result (λ all. knowledge_of all.items ≡ knowledge_of operations.now) }
{
    let mut all = Vec::new(alloc);
    push_each(alloc, &mut all, operations)?;
    Ok(all)
}

// A copy of what a site knows.
fn same(alloc: Global, old: &SiteKnowledge) -> Result<SiteKnowledge, Memory>
    ensures { IfOk result (λ same. site_of same ≡ site_of old.now) }
{
    Ok(SiteKnowledge {
        known: copied(alloc, &old.known)?,
        buffer: copied(alloc, &old.buffer)?,
        frames: old.frames,
    })
}

// A site after a command of this meaning.
fn after_meaning(alloc: Global, old: &SiteKnowledge, meaning: Meaning) -> Result<After, Memory>
    ensures { IfOk result
        (λ after. (site_of after.0, outcome_of after.1)
        ≡ after_meaning (site_of old.now) (meaning_of meaning)) }
{
    match meaning {
        Meaning::Refused(refusal) => Ok((same(alloc, old)?, Outcome::Denied(refusal))),
        Meaning::Makes(operation) => {
            let made = [operation];
            let new = SiteKnowledge {
                known: joined(alloc, &made, &old.known)?,
                buffer: joined(alloc, &made, &old.buffer)?,
                frames: old.frames,
            };
            Ok((new, Outcome::Done))
        }
    }
}

// A site after it has made a frame of these operations and kept this buffer, or where no number is left for a frame.
fn framed(
    alloc: Global,
    old: &SiteKnowledge,
    frame: &[Operation],
    buffer: &[Operation],
) -> Result<After, Memory>
    ensures { IfOk result
        (λ after. (site_of after.0, outcome_of after.1)
        ≡ after_frame (site_of old.now) (knowledge_of frame.now) (knowledge_of buffer.now)) }
{
    if old.frames >= MOST_COUNT {
        return Ok((same(alloc, old)?, Outcome::NoNumber));
    }
    let number = old.frames + 1;
    let new = SiteKnowledge {
        known: copied(alloc, &old.known)?,
        buffer: copied(alloc, buffer)?,
        frames: number,
    };
    let frame = copied(alloc, frame)?;
    Ok((new, Outcome::Framed { number, frame }))
}

// A site after it has cut its buffer, if that isn't empty.
fn cut(alloc: Global, old: &SiteKnowledge) -> Result<After, Memory>
    ensures { IfOk result
        (λ after. (site_of after.0, outcome_of after.1)
        ≡ cut (site_of old.now) (site_of old.now).buffer) }
{
    if old.buffer.is_empty() {
        return Ok((same(alloc, old)?, Outcome::Nothing));
    }
    framed(alloc, old, &old.buffer, &[])
}

// A site after it has taken what a frame carries, if that isn't too much.
fn take(alloc: Global, old: &SiteKnowledge, frame: &[Operation]) -> Result<After, Memory>
    ensures { IfOk result
        (λ after. (site_of after.0, outcome_of after.1)
        ≡ take (site_of old.now) (knowledge_of frame.now)) }
{
    let known = joined(alloc, frame, &old.known)?;
    let (dots, runs) = dots_and_runs(alloc, &known, &[], &[])?;
    if dots > MOST_LIVE {
        return Ok((same(alloc, old)?, Outcome::CellsFull));
    }
    if runs > MOST_RUNS {
        return Ok((same(alloc, old)?, Outcome::RunsFull));
    }
    let new = SiteKnowledge {
        known,
        buffer: copied(alloc, &old.buffer)?,
        frames: old.frames,
    };
    Ok((new, Outcome::Taken))
}

/// The site of this number, which has these queues, after a step, and the step's outcome. Fails only when out of memory, and
/// leaves the site that is given as it was.
pub fn after_step(
    alloc: Global,
    site: SiteId,
    list: &QueueList,
    old: &SiteKnowledge,
    event: &Step,
) -> Result<(SiteKnowledge, Outcome), Memory>
    ensures { IfOk result
        (λ after. (site_of after.0, outcome_of after.1)
        ≡ step site list.now (site_of old.now) (step_of event.now)) }
{
    match event {
        Step::Do(change) => {
            let meant = meaning_at(alloc, site, list, old, change)?;
            after_meaning(alloc, old, meant)
        }
        Step::Cut => cut(alloc, old),
        Step::Whole => framed(alloc, old, &old.known, &old.buffer),
        Step::Take(frame) => take(alloc, old, frame),
    }
}

ghost use Rattle.std.specs.Prelude.{◌≡◌, ◌≢◌, ◌≤◌, ◌<◌, ◌+◌, ◌-◌, ◌^◌, ◌↔◌, ◌⊎◌, Err, IfErr, IfOk, IsTrue};
ghost use Rattle.std.specs.Prelude.{OnErr, OnOk, length, min};
ghost use Rattle.dots.specs.declared.limits.TheConstants.{MOST_COUNT};
ghost use Rattle.delta.specs.DeltaStates.{IsEmpty};
ghost use Rattle.delta.specs.Frames.{IsInRanges, frame_of};
ghost use Rattle.delta_codec.specs.Decoding.{HasOpening};
ghost use Rattle.delta_codec.specs.Frames.{SpellsIn};
ghost use Rattle.delta_codec.specs.declared.limits.TheConstants.{VERSION};
ghost use Rattle.replica.specs.Site as sites;
ghost use Rattle.site_journal.specs.Keeping.{kept_by_steps};
ghost use Rattle.site_journal.specs.Journals.{HasAdded, HasDropped, HasFaultAlone, IsAnswerTo};
ghost use Rattle.site_journal.specs.Journals.{IsNewJournal, IsStepOfCut, IsFull, IsJournal, IsRefusedFor};
ghost use Rattle.site_journal.specs.Journals.{RefusesTake, IsRefusedFrame, IsUnchanged, IsStepOfWhole};
ghost use Rattle.site_journal.specs.Journals.{SpellNoFrame};
ghost use Rattle.site_journal.specs.Legal.{IsAsked, Leads};

use crate::step_list::StepList;
use crate::{DecodedFrame, DeskFault, Step, StepDeed};
use delta::Delta;
use delta_codec::{DecodeFault, encode_parts};
use dots::{MOST_COUNT, Memory, SharedBytes, SiteId};
use replica::{Refusal, Replica, TakeFault};
use status_report::{Answer, Ask, ask};
use std::alloc::Global;
use std::marker::Model;
use std::mem;

/// The most steps that a journal may hold.
pub const MOST_STEPS: u32 = 1_000_000;

// Asks a site, and returns its answer twice. Fails only when out of memory, also if the site's answer is that it is out of memory.
// Then what the site says stays: a copy of a report alone takes memory, and a status changes nothing.
fn ask_twice(alloc: Global, replica: &mut Replica, asked: &Ask) -> Result<(Answer, Answer), Memory>
    ensures same { IfOk result (λ both. both.1 ≡ both.0) }
    ensures asked { IfOk result (λ both. IsAsked replica.old asked.now both.0 replica.new) }
    ensures err { OnErr result (sites.IsUnchanged replica.old replica.new) }
{
    let answer = ask(alloc, replica, asked);
    if let Answer::Refused(Refusal::Memory) = answer {
        return Err(Memory);
    }
    let other = answer.copy()?;
    Ok((answer, other))
}

// The bytes of a frame of this maker and number, in the version that is written, with two owners. Its values are within the ranges of
// a frame. Fails only when out of memory.
fn spelled(
    alloc: Global,
    maker: SiteId,
    number: u64,
    delta: &Delta,
) -> Result<(SharedBytes, SharedBytes), Memory>
    requires { IsInRanges (frame_of maker number delta.now) }
    ensures same { IfOk result (λ both. both.1 ≡ both.0) }
    ensures spelled { IfOk result (λ both.
        SpellsIn VERSION (frame_of maker number delta.now) both.0) }
{
    let bytes = SharedBytes::new(alloc, encode_parts(alloc, maker, number, delta)?)?;
    let other = bytes.copy()?;
    Ok((bytes, other))
}

// Cuts the buffer of a site that has a number left, and returns the frame's bytes, with two owners. They are written before anything
// changes. `None` twice if the buffer is empty. Fails only when out of memory, and then changes nothing.
fn cut_twice(
    alloc: Global,
    replica: &mut Replica,
) -> Result<(Option<SharedBytes>, Option<SharedBytes>), Memory>
    requires { (IsEmpty replica.old.pending → ⊥) → replica.old.frames < MOST_COUNT }
    ensures same { IfOk result (λ both. both.1 ≡ both.0) }
    ensures leads { IfOk result (λ both. Leads replica.old (StepDeed.Cut both.0) replica.new) }
    ensures err { OnErr result (replica.new ≡ replica.old) }
{
    if replica.pending().is_empty() {
        return Ok((None, None));
    }
    let number = replica.last().2 + 1;
    let (kept, given) = spelled(alloc, replica.site(), number, replica.pending())?;
    match replica.cut() {
        Ok(Some(frame)) => {
            drop(frame);
            Ok((Some(kept), Some(given)))
        }
        _ => unreachable!(),
    }
}

// Makes a frame of everything that a site knows, and returns its bytes, with two owners; the buffer stays. The site has a number
// left. The bytes are written from the state itself, before the number is used up. Fails only when out of memory, and then changes
// nothing.
fn whole_twice(alloc: Global, replica: &mut Replica) -> Result<(SharedBytes, SharedBytes), Memory>
    requires { replica.old.frames < MOST_COUNT }
    ensures same { IfOk result (λ both. both.1 ≡ both.0) }
    ensures leads { IfOk result (λ both. Leads replica.old (StepDeed.Whole both.0) replica.new) }
    ensures err { OnErr result (replica.new ≡ replica.old) }
{
    let number = replica.last().2 + 1;
    let (kept, given) = spelled(alloc, replica.site(), number, replica.state())?;
    match replica.use_frame_number() {
        Ok(_) => Ok((kept, given)),
        Err(_) => unreachable!(),
    }
}

// The fault of a step for a take that fails: `Memory` stays, and every other one is a `Take`.
fn take_fault(fault: TakeFault) -> DeskFault
    ensures take { (cause : TakeFault) → result ≡ DeskFault.Take cause → fault ≡ cause }
    ensures only { RefusesTake result }
    ensures no_decode { (cause : DecodeFault) → result ≢ DeskFault.Decode cause }
    ensures no_full { result ≢ DeskFault.JournalFull }
{
    match fault {
        TakeFault::Memory => DeskFault::Memory,
        fault => DeskFault::Take(fault),
    }
}

/// The memory of the base and the steps that a journal has dropped. Nothing reads it.
#[derive(Drop)]
pub struct DroppedSteps {
    base: Replica,
    steps: Vec<Step>,
}

/// The journal of a site: the replica that the journal began from (the base), the steps since with the result of each, and the
/// replica. The steps lead from the base to the replica, each by its meaning at its state. A journal holds at most its limit of
/// steps, and 2^40 are done in all.
#[derive(Drop)]
pub struct Journaled {
    base: Replica,
    steps: StepList,
    // How many steps were before the base.
    start: u64,
    count: u64,
    limit: u32,
    replica: Replica,
    alloc: Global,
}

impl Model for Journaled {
    ghost use Rattle.site_journal.specs.Journals.{IsJournal, JournalState, journal_code};

    ghost Value = { JournalState };

    ghost coded = { journal_code };

    ghost view = { λ j. record {
      base = j.base;
      steps = j.steps.steps.items;
      start = j.start;
      count = j.count;
      limit = j.limit;
      replica = j.replica;
    } };

    ghost invariant = { λ j. IsJournal (record {
      base = j.base;
      steps = j.steps.steps.items;
      start = j.start;
      count = j.count;
      limit = j.limit;
      replica = j.replica;
    }) };
}

impl Journaled {
    /// A journal of a replica, without steps. It holds at most `limit` steps, 1 to 1,000,000. Fails only when out of memory, and
    /// then drops the replica.
    pub fn new(alloc: Global, replica: Replica, limit: u32) -> Result<Journaled, Memory>
        requires some { 1 ≤ limit }
        requires most { limit ≤ MOST_STEPS }
        ensures { IfOk result (λ journal. IsNewJournal replica limit journal) }
    {
        match replica.copy() {
            Ok(base) => Ok(Journaled {
                base,
                steps: StepList::new(alloc),
                start: 0,
                count: 0,
                limit,
                replica,
                alloc,
            }),
            Err(fault) => {
                drop(replica);
                Err(fault)
            }
        }
    }

    /// The position of the next step: the number of steps before the base and of those held here, at most 2^40. Takes no memory.
    pub fn len(&self) -> u64
        ensures value { result ≡ self.now.start + length self.now.steps }
        ensures count { result ≡ self.now.count }
        ensures limit { result ≤ MOST_COUNT }
        ensures journal { IsJournal self.now }
    {
        self.count
    }

    /// How many steps were done in all, at most 2^40. A checkpoint drops steps and keeps this number.
    pub fn count(&self) -> u64
        ensures value { result ≡ self.now.count }
        ensures limit { result ≤ MOST_COUNT }
    {
        self.count
    }

    /// How many steps were before the base.
    pub fn start(&self) -> u64
        ensures value { result ≡ self.now.start }
        ensures journal { IsJournal self.now }
    {
        self.start
    }

    /// The steps since the base, in order.
    pub fn steps(&self) -> &[Step]
        ensures { result.now ≡ self.now.steps }
    {
        self.steps.steps.as_slice()
    }

    /// The replica that the steps began from.
    pub fn base(&self) -> &Replica
        ensures { result.now ≡ self.now.base }
    {
        &self.base
    }

    /// The replica, to which the steps lead from the base.
    pub fn replica(&self) -> &Replica
        ensures value { result.now ≡ self.now.replica }
        ensures journal { IsJournal self.now }
    {
        &self.replica
    }

    /// The payload of its steps in bytes, 2^64 - 1 at most: the ActionID and the report of each status, and the frames. A thousand
    /// statuses with reports of megabytes hold gigabytes, until a checkpoint drops the steps. The number is updated with each step,
    /// so no call walks over them.
    pub fn payload_bytes(&self) -> u64
        ensures { result ≡ min (kept_by_steps self.now.steps) (2 ^ 64 - 1) }
    {
        self.steps.payload_bytes
    }

    /// Whether no step may be added: the journal holds its limit of steps, or 2^40 were done in all.
    pub fn is_full(&self) -> bool
        ensures { IsTrue result ↔ IsFull self.now }
    {
        self.steps.steps.len() >= self.limit as usize || self.count == MOST_COUNT
    }

    /// Asks the site, by the pass of this number, and returns a copy of its answer. The ask is copied once, into the step. A
    /// command that the site refuses is a step, except when it is out of memory.
    ///
    /// Errors, in order: 1 `JournalFull`, exactly where the journal holds its limit of steps, or 2^40 were done in all; 2 `Memory`,
    /// also if the site's answer is that it is out of memory. An error leaves the steps, and what the site says as they were.
    pub fn answer(&mut self, pass: u32, asked: &Ask) -> Result<Answer, DeskFault>
        ensures added { IfOk result (λ answer. HasAdded self.old
            (record { pass = pass; deed = StepDeed.Asked asked.now answer }) self.new) }
        ensures done { IfOk result (λ answer.
            IsAsked self.old.replica asked.now answer self.new.replica) }
        ensures full { (result ≡ Err DeskFault.JournalFull) ↔ IsFull self.old }
        ensures only { IfErr result (λ fault.
            (fault ≡ DeskFault.JournalFull) ⊎ (fault ≡ DeskFault.Memory)) }
        ensures unchanged { OnErr result (IsUnchanged self.old self.new) }
    {
        if self.is_full() {
            return Err(DeskFault::JournalFull);
        }
        if self.steps.reserve_one().is_err() {
            return Err(DeskFault::Memory);
        }
        let Ok(copy) = asked.copy() else {
            return Err(DeskFault::Memory);
        };
        let Ok((kept, given)) = ask_twice(self.alloc, &mut self.replica, asked) else {
            drop(copy);
            return Err(DeskFault::Memory);
        };
        self.steps.push_reserved(Step {
            pass,
            deed: StepDeed::Asked(copy, kept),
        });
        self.count += 1;
        Ok(given)
    }

    /// Asks the site, by the pass of this number, and returns a copy of the step, for which the ask is copied a second time. Errors
    /// as of `answer`.
    pub fn call(&mut self, pass: u32, asked: &Ask) -> Result<Step, DeskFault>
        ensures added { IfOk result (λ step. HasAdded self.old step self.new) }
        ensures pass { IfOk result (λ step. step.pass ≡ pass) }
        ensures done { IfOk result (λ step.
            IsAnswerTo self.old.replica asked.now self.new.replica step.deed) }
        ensures full { (result ≡ Err DeskFault.JournalFull) ↔ IsFull self.old }
        ensures only { IfErr result (λ fault.
            (fault ≡ DeskFault.JournalFull) ⊎ (fault ≡ DeskFault.Memory)) }
        ensures unchanged { OnErr result (IsUnchanged self.old self.new) }
    {
        if self.is_full() {
            return Err(DeskFault::JournalFull);
        }
        let Ok(copy) = asked.copy() else {
            return Err(DeskFault::Memory);
        };
        match self.answer(pass, asked) {
            Ok(answer) => Ok(Step {
                pass,
                deed: StepDeed::Asked(copy, answer),
            }),
            Err(fault) => {
                drop(copy);
                Err(fault)
            }
        }
    }

    /// Puts the site's buffer into its next frame, by the pass of this number, and returns a copy of the step; for an empty buffer,
    /// of a step without a frame. Errors, in order: 1 `JournalFull`, exactly where the journal holds its limit of steps, or 2^40 were
    /// done in all; 2 `Exhausted`, exactly where the buffer isn't empty and the site has made 2^40 frames; 3 `Memory`. An error
    /// changes nothing.
    pub fn cut(&mut self, pass: u32) -> Result<Step, DeskFault>
        ensures added { IfOk result (λ step. HasAdded self.old step self.new) }
        ensures pass { IfOk result (λ step. step.pass ≡ pass) }
        ensures done { IfOk result (λ step. IsStepOfCut step.deed) }
        ensures full { (result ≡ Err DeskFault.JournalFull) ↔ IsFull self.old }
        ensures exhausted { (result ≡ Err DeskFault.Exhausted) ↔ ((IsFull self.old → ⊥)
            × ((IsEmpty self.old.replica.pending → ⊥)
            × (self.old.replica.frames ≡ MOST_COUNT))) }
        ensures only { IfErr result (λ fault. (fault ≡ DeskFault.JournalFull)
            ⊎ ((fault ≡ DeskFault.Exhausted) ⊎ (fault ≡ DeskFault.Memory))) }
        ensures unchanged { OnErr result (self.new ≡ self.old) }
    {
        if self.is_full() {
            return Err(DeskFault::JournalFull);
        }
        if !self.replica.pending().is_empty() && self.replica.last().2 == MOST_COUNT {
            return Err(DeskFault::Exhausted);
        }
        if self.steps.reserve_one().is_err() {
            return Err(DeskFault::Memory);
        }
        let Ok((kept, given)) = cut_twice(self.alloc, &mut self.replica) else {
            return Err(DeskFault::Memory);
        };
        self.steps.push_reserved(Step {
            pass,
            deed: StepDeed::Cut(kept),
        });
        self.count += 1;
        Ok(Step {
            pass,
            deed: StepDeed::Cut(given),
        })
    }

    /// Puts everything that the site knows into its next frame, by the pass of this number, and returns a copy of the step; the
    /// buffer stays. Errors, in order: 1 `JournalFull`, exactly where the journal holds its limit of steps, or 2^40 were done in all;
    /// 2 `Exhausted`, exactly where the site has made 2^40 frames; 3 `Memory`. An error changes nothing.
    pub fn whole(&mut self, pass: u32) -> Result<Step, DeskFault>
        ensures added { IfOk result (λ step. HasAdded self.old step self.new) }
        ensures pass { IfOk result (λ step. step.pass ≡ pass) }
        ensures done { IfOk result (λ step. IsStepOfWhole step.deed) }
        ensures full { (result ≡ Err DeskFault.JournalFull) ↔ IsFull self.old }
        ensures exhausted { (result ≡ Err DeskFault.Exhausted)
            ↔ ((IsFull self.old → ⊥) × (self.old.replica.frames ≡ MOST_COUNT)) }
        ensures only { IfErr result (λ fault. (fault ≡ DeskFault.JournalFull)
            ⊎ ((fault ≡ DeskFault.Exhausted) ⊎ (fault ≡ DeskFault.Memory))) }
        ensures unchanged { OnErr result (self.new ≡ self.old) }
    {
        if self.is_full() {
            return Err(DeskFault::JournalFull);
        }
        if self.replica.last().2 == MOST_COUNT {
            return Err(DeskFault::Exhausted);
        }
        if self.steps.reserve_one().is_err() {
            return Err(DeskFault::Memory);
        }
        let Ok((kept, given)) = whole_twice(self.alloc, &mut self.replica) else {
            return Err(DeskFault::Memory);
        };
        self.steps.push_reserved(Step {
            pass,
            deed: StepDeed::Whole(kept),
        });
        self.count += 1;
        Ok(Step {
            pass,
            deed: StepDeed::Whole(given),
        })
    }

    /// Lets the site take the frame that the bytes encode, in either version, by the pass of this number, and returns a copy of the
    /// step. Each error returns the bytes too, and leaves the steps and what the site says as they were.
    ///
    /// Errors, in order: 1 `JournalFull`, exactly where the journal holds its limit of steps, or 2^40 were done in all; 2 `Decode`,
    /// with the fault of the bytes, or `BadRange` if more bytes follow their frame; 3 `Take`, with the fault for which the site
    /// refuses the frame; 4 `Memory`. `Memory` may replace `Take`, and a `Decode` whose fault is after a whole heading, but never a
    /// `Decode` whose fault is in the heading.
    pub fn take(&mut self, pass: u32, bytes: SharedBytes) -> Result<Step, (DeskFault, SharedBytes)>
        ensures added { IfOk result (λ step. HasAdded self.old step self.new) }
        ensures pass { IfOk result (λ step. step.pass ≡ pass) }
        ensures done { IfOk result (λ step. step.deed ≡ StepDeed.Took bytes) }
        ensures full { IsRefusedFor result DeskFault.JournalFull ↔ IsFull self.old }
        ensures decode { (fault : DecodeFault) → IsRefusedFor result (DeskFault.Decode fault)
            → HasFaultAlone bytes fault }
        ensures no_frame { (fault : DecodeFault) → IsRefusedFor result (DeskFault.Decode fault)
            → SpellNoFrame bytes }
        ensures refused { (fault : TakeFault) → IsRefusedFor result (DeskFault.Take fault)
            → IsRefusedFrame self.old.replica bytes fault }
        ensures memory { IsRefusedFor result DeskFault.Memory → HasOpening bytes }
        ensures only { IfErr result (λ refused. RefusesTake refused.0) }
        ensures back { IfErr result (λ refused. refused.1 ≡ bytes) }
        ensures unchanged { OnErr result (IsUnchanged self.old self.new) }
    {
        if self.is_full() {
            return Err((DeskFault::JournalFull, bytes));
        }
        let decoded = match DecodedFrame::decode(self.alloc, bytes) {
            Ok(decoded) => decoded,
            Err(refused) => return Err(refused),
        };
        match self.take_decoded(pass, decoded) {
            Ok(step) => Ok(step),
            Err((fault, decoded)) => Err((fault, decoded.into_bytes())),
        }
    }

    /// Lets the site take a decoded frame, by the pass of this number, and returns a copy of the step. Each error returns the frame
    /// too, and leaves the steps and what the site says as they were. Errors, in order: 1 `JournalFull`, exactly where the journal
    /// holds its limit of steps, or 2^40 were done in all; 2 `Take`, with the fault for which the site refuses the frame; 3 `Memory`,
    /// which may replace `Take`.
    pub fn take_decoded(
        &mut self,
        pass: u32,
        decoded: DecodedFrame,
    ) -> Result<Step, (DeskFault, DecodedFrame)>
        ensures added { IfOk result (λ step. HasAdded self.old step self.new) }
        ensures pass { IfOk result (λ step. step.pass ≡ pass) }
        ensures done { IfOk result (λ step. step.deed ≡ StepDeed.Took decoded) }
        ensures full { IsRefusedFor result DeskFault.JournalFull ↔ IsFull self.old }
        ensures refused { (fault : TakeFault) → IsRefusedFor result (DeskFault.Take fault)
            → IsRefusedFrame self.old.replica decoded fault }
        ensures no_decode { (fault : DecodeFault)
            → IsRefusedFor result (DeskFault.Decode fault) → ⊥ }
        ensures only { IfErr result (λ refused. RefusesTake refused.0) }
        ensures back { IfErr result (λ refused. refused.1 ≡ decoded) }
        ensures unchanged { OnErr result (IsUnchanged self.old self.new) }
    {
        if self.is_full() {
            return Err((DeskFault::JournalFull, decoded));
        }
        if self.steps.reserve_one().is_err() {
            return Err((DeskFault::Memory, decoded));
        }
        let DecodedFrame { frame, bytes, copy } = decoded;
        if let Err((fault, frame)) = self.replica.take(frame) {
            return Err((take_fault(fault), DecodedFrame { frame, bytes, copy }));
        }
        self.steps.push_reserved(Step {
            pass,
            deed: StepDeed::Took(bytes),
        });
        self.count += 1;
        Ok(Step {
            pass,
            deed: StepDeed::Took(copy),
        })
    }

    /// Drops the steps: the replica's state becomes the base, and the count of all steps stays. Returns the memory of what it
    /// dropped, whose release takes milliseconds where the steps hold long reports: a caller that holds a lock gives up the lock
    /// first. Fails only when out of memory, and then changes nothing.
    pub fn checkpoint(&mut self) -> Result<DroppedSteps, Memory>
        ensures journal { IsJournal self.old }
        ensures dropped { OnOk result (HasDropped self.old self.new) }
        ensures unchanged { OnErr result (self.new ≡ self.old) }
    {
        let base = self.replica.copy()?;
        self.start += self.steps.steps.len() as u64;
        let steps = self.steps.take_all();
        let base = mem::replace(&mut self.base, base);
        Ok(DroppedSteps { base, steps })
    }
}

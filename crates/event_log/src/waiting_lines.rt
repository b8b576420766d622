//! The lines of a log that wait to be written.
ghost use Rattle.std.specs.Prelude.{◌≡◌, ◌↔◌, ◌∷◌, ◌++◌, [], ◌<◌, ◌≤◌, ◌+◌, ◌^◌, ℕ};
ghost use Rattle.std.specs.Prelude.{IfOk, IsTrue, false, true};
ghost use Rattle.std.specs.VecDeque.{deque_capacity, deque_len};
ghost use Rattle.event_log.specs.declared.limits.TheConstants.{MOST_LINES};

use crate::limits::MOST_LINES;
use dots::Memory;
use std::alloc::Global;
use std::collections::VecDeque;

/// What a log gives next.
#[derive(Drop)]
pub enum LogEvent {
    /// The oldest line.
    Line(String),
    /// No line waits, and this many were dropped since this was last given.
    Dropped(u64),
    /// The log has ended, and has given everything.
    End,
}

// Lines in order, how many were dropped, and whether the log has ended.
#[derive(Drop)]
pub(crate) struct WaitingLines {
    pub lines: VecDeque<String>,
    pub dropped: u64,
    pub has_ended: bool,
    ghost room: { MOST_LINES ≤ deque_capacity lines },
}

impl WaitingLines {
    // No lines yet, with room for as many as may wait. Error: `Memory`.
    pub fn new(alloc: Global) -> Result<WaitingLines, Memory>
        ensures lines { IfOk result (λ waiting. waiting.lines.items ≡ []) }
        ensures dropped { IfOk result (λ waiting. waiting.dropped ≡ 0) }
        ensures has_ended { IfOk result (λ waiting. waiting.has_ended ≡ false) }
    {
        let lines = VecDeque::with_capacity(alloc, MOST_LINES)?;
        Ok(WaitingLines {
            lines,
            dropped: 0,
            has_ended: false,
        })
    }

    // Counts a line that is dropped; the count stays at 2^64 - 1 once it is that.
    pub fn drop_one(&mut self)
        ensures lines { self.new.lines.items ≡ self.old.lines.items }
        ensures dropped { self.old.dropped + 1 < 2 ^ 64 → self.new.dropped ≡ self.old.dropped + 1 }
        ensures has_ended { self.new.has_ended ≡ self.old.has_ended }
    {
        self.dropped = self.dropped.saturating_add(1);
    }

    // Adds a line behind the others. Where 1,000 wait it is dropped, and counted.
    pub fn add(&mut self, line: String)
        ensures added { deque_len self.old.lines < MOST_LINES
            → self.new.lines.items ≡ self.old.lines.items ++ line ∷ [] }
        ensures none_dropped { deque_len self.old.lines < MOST_LINES
            → self.new.dropped ≡ self.old.dropped }
        ensures full { MOST_LINES ≤ deque_len self.old.lines
            → self.new.lines.items ≡ self.old.lines.items }
        ensures dropped { MOST_LINES ≤ deque_len self.old.lines → self.old.dropped + 1 < 2 ^ 64
            → self.new.dropped ≡ self.old.dropped + 1 }
        ensures has_ended { self.new.has_ended ≡ self.old.has_ended }
    {
        if self.lines.len() < MOST_LINES {
            if self.lines.push_back(line).is_err() {
                unreachable!();
            }
        } else {
            drop(line);
            self.drop_one();
        }
    }

    // Ends the log.
    pub fn end(&mut self)
        ensures lines { self.new.lines.items ≡ self.old.lines.items }
        ensures dropped { self.new.dropped ≡ self.old.dropped }
        ensures has_ended { self.new.has_ended ≡ true }
    {
        self.has_ended = true;
    }

    // Whether there is nothing to give yet.
    pub fn is_idle(&self) -> bool
        ensures { IsTrue result ↔ ((self.now.lines.items ≡ []) × (self.now.dropped ≡ 0)
            × (self.now.has_ended ≡ false)) }
    {
        self.lines.is_empty() && self.dropped == 0 && !self.has_ended
    }

    // Takes the oldest line, or else how many were dropped, if any were, and counts from 0 again; or
    // else the end, which stays. The log isn't idle (`is_idle`).
    pub fn take_next(&mut self) -> LogEvent
        requires { (self.old.lines.items ≡ []) → (self.old.dropped ≡ 0)
            → self.old.has_ended ≡ true }
        ensures line { (line : _) → result ≡ LogEvent.Line line
            → (self.old.lines.items ≡ line ∷ self.new.lines.items)
            × (self.new.dropped ≡ self.old.dropped) }
        ensures dropped { (count : ℕ) → result ≡ LogEvent.Dropped count
            → (self.old.lines.items ≡ []) × (self.new.lines.items ≡ [])
            × (0 < count) × (self.old.dropped ≡ count) × (self.new.dropped ≡ 0) }
        ensures end { result ≡ LogEvent.End → (self.old.has_ended ≡ true)
            × (self.old.lines.items ≡ []) × (self.old.dropped ≡ 0) }
        ensures ended { result ≡ LogEvent.End
            → (self.new.lines.items ≡ []) × (self.new.dropped ≡ 0) }
        ensures has_ended { self.new.has_ended ≡ self.old.has_ended }
    {
        if let Some(line) = self.lines.pop_front() {
            return LogEvent::Line(line);
        }
        if self.dropped > 0 {
            let dropped = self.dropped;
            self.dropped = 0;
            return LogEvent::Dropped(dropped);
        }
        LogEvent::End
    }
}

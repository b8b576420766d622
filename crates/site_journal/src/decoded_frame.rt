//! Frames that are decoded before a site takes them.
ghost use Rattle.std.specs.Prelude.{◌≡◌, ◌≢◌, ◌⊎◌, Err, IfErr, IfOk};
ghost use Rattle.delta_codec.specs.Decoding.{HasOpening};
ghost use Rattle.delta_codec.specs.Frames.{Spells};
ghost use Rattle.site_journal.specs.Journals.{HasFaultAlone, IsRefusedFor, RefusesTake};
ghost use Rattle.site_journal.specs.Journals.{SpellNoFrame};

use crate::DeskFault;
use delta_codec::{DecodeFault, decode};
use dots::SharedBytes;
use replica::{Frame, TakeFault};
use std::alloc::Global;
use std::marker::Model;

/// The bytes of one frame, with the decoded frame. A caller that shares a site with others decodes a frame first, so that the
/// others wait only while the site takes it. Contracts see its bytes (this project's own).
#[derive(Drop)]
pub struct DecodedFrame {
    pub(crate) frame: Frame,
    pub(crate) bytes: SharedBytes,
    // One more owner of them, for the copy of the step.
    pub(crate) copy: SharedBytes,
}

impl Model for DecodedFrame {
    ghost use Rattle.std.specs.Prelude.{ℕ, List, ◌≡◌};
    ghost use Rattle.delta_codec.specs.Frames.{Spells};

    ghost Value = { List ℕ };

    ghost view = { λ d. d.bytes };

    ghost invariant = { λ d. Spells d.frame d.bytes × (d.copy ≡ d.bytes) };
}

// Decodes bytes that are exactly one frame. Errors, in order: 1 those of `decode`; 2 `BadRange`, if more bytes follow the frame.
fn frame_in(alloc: Global, bytes: &[u8]) -> Result<Frame, DecodeFault>
    ensures value { IfOk result (λ frame. Spells frame bytes.now) }
    ensures fault { IfErr result (λ fault. (fault ≡ DecodeFault.Memory)
        ⊎ (HasFaultAlone bytes.now fault × SpellNoFrame bytes.now)) }
    ensures memory { result ≡ Err DecodeFault.Memory → HasOpening bytes.now }
{
    let (frame, len) = decode(alloc, bytes)?;
    if len < bytes.len() {
        drop(frame);
        return Err(DecodeFault::BadRange);
    }
    Ok(frame)
}

// The fault of a step for bytes that are no frame: `Memory` stays, and every other one is a `Decode`.
fn decode_fault(fault: DecodeFault) -> DeskFault
    ensures decode { (cause : DecodeFault) → result ≡ DeskFault.Decode cause
        → (fault ≡ cause) × (fault ≢ DecodeFault.Memory) }
    ensures memory { result ≡ DeskFault.Memory → fault ≡ DecodeFault.Memory }
    ensures no_take { (cause : TakeFault) → result ≢ DeskFault.Take cause }
    ensures only { RefusesTake result }
    ensures no_full { result ≢ DeskFault.JournalFull }
{
    match fault {
        DecodeFault::Memory => DeskFault::Memory,
        fault => DeskFault::Decode(fault),
    }
}

impl DecodedFrame {
    /// Decodes the bytes of one frame, in either version. An error returns the bytes too. Errors, in order: 1 `Decode`, with the fault
    /// of the bytes, or `BadRange` if more bytes follow their frame; 2 `Memory`, which may replace a `Decode` whose fault is after a
    /// whole heading, but never one whose fault is in the heading.
    pub fn decode(
        alloc: Global,
        bytes: SharedBytes,
    ) -> Result<DecodedFrame, (DeskFault, SharedBytes)>
        ensures value { IfOk result (λ decoded. decoded ≡ bytes) }
        ensures decode { (fault : DecodeFault) → IsRefusedFor result (DeskFault.Decode fault)
            → HasFaultAlone bytes fault }
        ensures no_frame { (fault : DecodeFault) → IsRefusedFor result (DeskFault.Decode fault)
            → SpellNoFrame bytes }
        ensures memory { IsRefusedFor result DeskFault.Memory → HasOpening bytes }
        ensures no_take { (fault : TakeFault) → IsRefusedFor result (DeskFault.Take fault) → ⊥ }
        ensures no_full { IsRefusedFor result DeskFault.JournalFull → ⊥ }
        ensures only { IfErr result (λ refused. RefusesTake refused.0) }
        ensures back { IfErr result (λ refused. refused.1 ≡ bytes) }
    {
        let frame = match frame_in(alloc, bytes.as_slice()) {
            Ok(frame) => frame,
            Err(fault) => return Err((decode_fault(fault), bytes)),
        };
        let Ok(copy) = bytes.copy() else {
            drop(frame);
            return Err((DeskFault::Memory, bytes));
        };
        Ok(DecodedFrame { frame, bytes, copy })
    }

    /// Returns the bytes, which begin as those of a frame, and drops the frame. Takes no memory.
    pub fn into_bytes(self) -> SharedBytes
        ensures value { result ≡ self }
        ensures opening { HasOpening self }
    {
        let DecodedFrame { frame, bytes, copy } = self;
        drop(frame);
        drop(copy);
        bytes
    }
}

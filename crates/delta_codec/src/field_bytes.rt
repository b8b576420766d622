//! The encoding of a field's value: the table of the fields' types.
ghost use Rattle.std.specs.Prelude.{◌≡◌, ◌++◌, ◌≤◌, ℕ, List, OnOk, length};
ghost use Rattle.dots.specs.Values.{IsPenalty};
ghost use Rattle.dots.specs.WithinLimits.{IsLabel, IsPause};
ghost use Rattle.delta_codec.specs.Measures.{most_label, most_pause, most_penalty, most_ring};
ghost use Rattle.delta_codec.specs.Parts.{IsRing, label_bytes, pause_bytes, penalty_bytes};
ghost use Rattle.delta_codec.specs.Parts.{ring_bytes};
ghost use Rattle.delta_codec.specs.Reading.{ReturnsRead, Read, label_at, pause_at, penalty_at};
ghost use Rattle.delta_codec.specs.Reading.{ring_at};

use crate::fields::{read_reason, read_text};
use crate::numbers::read_bit;
use crate::reader::Reader;
use crate::sizes::text_size;
use crate::writing::{put_number4, put_text};
use crate::{DecodeFault, Memory};
use dots::{Label, Pause, Penalty};

// The value of a field, with its encoding.
pub(crate) trait FieldBytes: Drop + Sized {
    // Its bytes.
    ghost bytes: { Self → List ℕ };

    // The values within its limits.
    ghost is_within: { Self → Type 0 };

    // The most bytes that it has.
    ghost most: { ℕ };

    // The result of reading it.
    ghost at: { List ℕ → Read Self };

    // Its number of bytes: few enough that sizes can be added without overflow.
    fn size(&self) -> usize
        ensures value { result ≡ length (bytes self.now) }
        ensures limit { result ≤ most }
        ensures few { result ≤ 255 };

    // Appends it to earlier bytes, and shows that it is within its limits. Fails only
    // when out of memory; then a part of it may have been appended.
    fn put(&self, out: &mut Vec<u8>) -> Result<(), Memory>
        ensures written { OnOk result (out.new.items ≡ out.old.items ++ bytes self.now) }
        ensures within { OnOk result (is_within self.now) };

    // Reads it from the front of the bytes that are left. `BadRange` or `BadText`: the
    // first fault that they have.
    fn read(reader: &mut Reader<'_>) -> Result<Self, DecodeFault>
        ensures { ReturnsRead (λ x. (x, reader.new)) result (at reader.old) };
}

impl FieldBytes for Penalty {
    ghost bytes = { penalty_bytes };

    ghost is_within = { IsPenalty };

    ghost most = { most_penalty };

    ghost at = { penalty_at };

    fn size(&self) -> usize {
        4
    }

    fn put(&self, out: &mut Vec<u8>) -> Result<(), Memory> {
        put_number4(out, self.get())
    }

    #[tactic(auto, unfolding(crate::specs::Reading::penalty_at))]
    fn read(reader: &mut Reader<'_>) -> Result<Penalty, DecodeFault> {
        let number = reader.number4()?;
        match Penalty::new(number) {
            Some(penalty) => Ok(penalty),
            None => Err(DecodeFault::BadRange),
        }
    }
}

impl FieldBytes for Pause {
    ghost bytes = { pause_bytes };

    ghost is_within = { IsPause };

    ghost most = { most_pause };

    ghost at = { pause_at };

    fn size(&self) -> usize {
        1 + text_size(self.reason())
    }

    fn put(&self, out: &mut Vec<u8>) -> Result<(), Memory> {
        out.push(u8::from(self.paused()))?;
        put_text(out, self.reason())
    }

    #[tactic(auto, unfolding(crate::specs::Reading::pause_at))]
    fn read(reader: &mut Reader<'_>) -> Result<Pause, DecodeFault> {
        let paused = read_bit(reader)?;
        let reason = read_reason(paused, reader)?;
        Ok(Pause::new(paused == 1, reason))
    }
}

impl FieldBytes for Label {
    ghost bytes = { label_bytes };

    ghost is_within = { IsLabel };

    ghost most = { most_label };

    ghost at = { label_at };

    fn size(&self) -> usize {
        text_size(&self.name) + text_size(&self.state)
    }

    fn put(&self, out: &mut Vec<u8>) -> Result<(), Memory> {
        put_text(out, &self.name)?;
        put_text(out, &self.state)
    }

    #[tactic(auto, unfolding(crate::specs::Reading::label_at))]
    fn read(reader: &mut Reader<'_>) -> Result<Label, DecodeFault> {
        let name = read_text(0, reader)?;
        let state = read_text(0, reader)?;
        Ok(Label { name, state })
    }
}

impl FieldBytes for bool {
    ghost bytes = { ring_bytes };

    ghost is_within = { IsRing };

    ghost most = { most_ring };

    ghost at = { ring_at };

    fn size(&self) -> usize {
        1
    }

    fn put(&self, out: &mut Vec<u8>) -> Result<(), Memory> {
        out.push(u8::from(*self))?;
        Ok(())
    }

    #[tactic(auto, unfolding(crate::specs::Reading::ring_at))]
    fn read(reader: &mut Reader<'_>) -> Result<bool, DecodeFault> {
        let ring = read_bit(reader)?;
        Ok(ring == 1)
    }
}

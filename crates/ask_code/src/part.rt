//! Writes and reads the parts of an ask: a value, a pair of parts, and a part that may be missing.
ghost use Rattle.std.specs.Prelude.{ℕ, ◌+◌, ◌≡◌, ◌≤◌, ◌++◌, IfErr, IfOk};
ghost use Rattle.arrayvec.specs.ArrayVec.{array_vec_len};
ghost use Rattle.ask_code.specs.declared.limits.TheConstants.{MOST_ASK_BYTES};
ghost use Rattle.ask_code.specs.Codes.{Code, both, optional};

use crate::AskFault;
use crate::limits::MOST_ASK_BYTES;
use crate::reader::Reader;
use arrayvec::ArrayVec;

// The bytes of an ask, or of its first parts.
pub(crate) type AskBytes = ArrayVec<u8, MOST_ASK_BYTES>;

// A part of an ask.
pub(crate) trait Part: Drop + Sized {
    // Its code: the bytes of its values, and the faults of other bytes.
    ghost code: { Code Self };

    // Reads it from the front of the bytes that are left. Fails with the fault that its code has
    // for them; no contract says how far the reader is then.
    fn read(reader: &mut Reader<'_>) -> Result<Self, AskFault>
        ensures good { IfOk result (λ part. code.IsGood part) }
        ensures spelled { IfOk result (λ part. reader.old ≡ code.spell part ++ reader.new) }
        ensures fault { IfErr result (λ fault. code.Fails fault reader.old) };
}

// A part whose values all have an encoding.
pub(crate) trait WrittenPart: Part {
    // The most bytes that a value has.
    ghost most: { ℕ };

    // Appends it to the written bytes. There is room for the longest value.
    fn put(&self, out: &mut AskBytes)
        requires room { array_vec_len out.old + most ≤ MOST_ASK_BYTES }
        ensures written { out.new.items ≡ out.old.items ++ Self.code.spell self.now }
        ensures within { Self.code.IsGood self.now }
        ensures most { array_vec_len out.new ≤ array_vec_len out.old + most };
}

impl<A: Part, B: Part> Part for (A, B) {
    ghost code = { both A.code B.code };

    fn read(reader: &mut Reader<'_>) -> Result<(A, B), AskFault> {
        let first = A::read(reader)?;
        match B::read(reader) {
            Ok(second) => Ok((first, second)),
            Err(fault) => {
                drop(first);
                Err(fault)
            }
        }
    }
}

impl<T: Part> Part for Option<T> {
    ghost code = { optional T.code };

    fn read(reader: &mut Reader<'_>) -> Result<Option<T>, AskFault> {
        if bool::read(reader)? {
            let part = T::read(reader)?;
            Ok(Some(part))
        } else {
            Ok(None)
        }
    }
}

impl<T: WrittenPart> WrittenPart for Option<T> {
    ghost most = { 1 + T.most };

    fn put(&self, out: &mut AskBytes) {
        self.is_some().put(out);
        if let Some(part) = self {
            part.put(out);
        }
    }
}

//! The messages of a hello, as they are built, written and read.
ghost use Rattle.std.specs.Prelude.{◌≡◌, ◌+◌, ◌-◌, ◌++◌, ◌≤◌, Err, IfErr, IfOk, OnErr, OnOk, false};
ghost use Rattle.std.specs.Prelude.{length, true};
ghost use Rattle.std.specs.Io.KnownBytes.{Appends, Consumes};
ghost use Rattle.ami_text.specs.Devices.{HasGivenUpTo, HasTaken};
ghost use Rattle.arrayvec.specs.ArrayVec.{array_vec_len};
ghost use Rattle.link_hello.specs.Hellos.{IsSilence, OpeningFails, opening};

use crate::HelloFault;
use ami_text::{Sink, Source, write_all};
use arrayvec::ArrayVec;

/// The version of the protocol.
pub const VERSION: u8 = 2;

// The letters of the protocol.
const MAGIC: [u8; 4] = *b"QSLK";

// How often one part of a message is read for.
const READS: u32 = 16;

// The most bytes of a message.
pub(crate) const MESSAGE_BYTES: usize = 128;

// The bytes of a message.
pub(crate) type Message = ArrayVec<u8, MESSAGE_BYTES>;

// Adds bytes to a message.
pub(crate) fn put(out: &mut Message, bytes: &[u8])
    requires { array_vec_len out.old + length bytes.now ≤ MESSAGE_BYTES }
    ensures written { out.new.items ≡ out.old.items ++ bytes.now }
    ensures len { array_vec_len out.new ≡ array_vec_len out.old + length bytes.now }
{
    let _ = out.try_extend_from_slice(bytes);
}

// Writes bytes. `NotSent`: the sink failed, and has taken a prefix of them.
pub(crate) fn write_message<W: Sink>(sink: &mut W, bytes: &[u8]) -> Result<(), HelloFault>
    requires { W.failed sink.old ≡ false }
    ensures written { OnOk result (Appends (W.taken sink.old) (W.taken sink.new) bytes.now) }
    ensures works { OnOk result (W.failed sink.new ≡ false) }
    ensures begun { OnErr result (HasTaken (W.taken sink.old) (W.taken sink.new) bytes.now) }
    ensures fails { OnErr result (W.failed sink.new ≡ true) }
    ensures fault { OnErr result (result ≡ Err HelloFault.NotSent) }
{
    match write_all(sink, bytes) {
        Ok(()) => Ok(()),
        Err(_) => Err(HelloFault::NotSent),
    }
}

// Fills a piece, in at most 16 reads. `Silent`: the source failed or ended, or gave too little in these reads.
#[tactic(auto, using(crate::proofs::Silences::silence_of_reads))]
pub(crate) fn read_exactly<S: Source>(source: &mut S, piece: &mut [u8]) -> Result<(), HelloFault>
    requires { S.failed source.old ≡ false }
    ensures read { OnOk result (Consumes (S.left source.old) (S.left source.new) piece.new) }
    ensures works { OnOk result (S.failed source.new ≡ false) }
    ensures fault { OnErr result (result ≡ Err HelloFault.Silent) }
    ensures silent { OnErr result (IsSilence (S.left source.old) (S.left source.new)
        (S.ended source.new) (S.failed source.new)) }
    ensures few { OnErr result
        (HasGivenUpTo (S.left source.old) (S.left source.new) (length piece.new - 1)) }
    ensures reads { S.reads_left source.old ≤ S.reads_left source.new + 16 }
{
    let mut count = 0;
    'reads: for _ in 0..READS {
        if count == piece.len() {
            return Ok(());
        }
        let Ok(more) = source.read(&mut piece[count..]) else {
            return Err(HelloFault::Silent);
        };
        if more == 0 {
            return Err(HelloFault::Silent);
        }
        count += more;
    }
    if count == piece.len() {
        Ok(())
    } else {
        Err(HelloFault::Silent)
    }
}

// Writes the front of both first messages: the letters, the version and a nonce. `NotSent`: the sink failed, and has taken a
// prefix of it.
pub(crate) fn write_opening<W: Sink>(sink: &mut W, nonce: &[u8; 32]) -> Result<(), HelloFault>
    requires { W.failed sink.old ≡ false }
    ensures written { OnOk result
        (Appends (W.taken sink.old) (W.taken sink.new) (opening nonce.now)) }
    ensures begun { OnErr result
        (HasTaken (W.taken sink.old) (W.taken sink.new) (opening nonce.now)) }
    ensures works { OnOk result (W.failed sink.new ≡ false) }
    ensures fails { OnErr result (W.failed sink.new ≡ true) }
    ensures fault { OnErr result (result ≡ Err HelloFault.NotSent) }
{
    let mut message = Message::new();
    put(&mut message, &MAGIC);
    put(&mut message, &[VERSION]);
    put(&mut message, nonce);
    write_message(sink, &message)
}

// Reads the front of the other site's first message, and returns its nonce. Errors, in order: `Silent` if fewer than five bytes
// came; by these, `OtherProtocol` and `OtherVersion`, and nothing is read after them; `Silent` if the nonce didn't come.
pub(crate) fn read_opening<S: Source>(source: &mut S) -> Result<[u8; 32], HelloFault>
    requires { S.failed source.old ≡ false }
    ensures read { IfOk result (λ nonce.
        Consumes (S.left source.old) (S.left source.new) (opening nonce)) }
    ensures length { IfOk result (λ nonce. length nonce ≡ 32) }
    ensures works { OnOk result (S.failed source.new ≡ false) }
    ensures fault { IfErr result (λ fault.
        OpeningFails (S.left source.old) (S.left source.new) fault) }
    ensures silent { (result ≡ Err HelloFault.Silent) → IsSilence (S.left source.old)
        (S.left source.new) (S.ended source.new) (S.failed source.new) }
    ensures few { (result ≡ Err HelloFault.Silent)
        → HasGivenUpTo (S.left source.old) (S.left source.new) 36 }
    ensures reads { S.reads_left source.old ≤ S.reads_left source.new + 32 }
{
    let mut front = [0u8; 5];
    read_exactly(source, &mut front)?;
    let [m0, m1, m2, m3, version] = front;
    if [m0, m1, m2, m3] != MAGIC {
        return Err(HelloFault::OtherProtocol);
    }
    if version != VERSION {
        return Err(HelloFault::OtherVersion(version));
    }
    let mut nonce = [0u8; 32];
    read_exactly(source, &mut nonce)?;
    Ok(nonce)
}

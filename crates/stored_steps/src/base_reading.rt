//! A row as a base.
ghost use Rattle.std.specs.Prelude.{◌≡◌, ◌≢◌, ◌↔◌, ◌⊎◌, ◌<◌, ◌^◌, ◌∷◌, ◌++◌, [], length};
ghost use Rattle.std.specs.Prelude.{IfErr, IfNone, IfOk, IfSome, IsTrue, OnOk};
ghost use Rattle.std.specs.Int.{w64, to_be_bytes};
ghost use Rattle.std.specs.List.{flat_map};
ghost use Rattle.stored_steps.specs.declared.base.StoredBase.{StoredBase};
ghost use Rattle.dots.specs.Values.{IsSite};
ghost use Rattle.delta.specs.Frames.{frame_of};
ghost use Rattle.replica.specs.Queues.{AreQueues};
ghost use Rattle.stored_steps.specs.declared.limits.TheConstants.{BASE_VERSION};
ghost use Rattle.stored_steps.specs.Bases.{IsOfBase, IsReadBase, IsRowOfBase, IsSameBase};
ghost use Rattle.stored_steps.specs.Bases.{list_bytes, name_bytes};
ghost use Rattle.stored_steps.specs.BaseFaults.{HasNoBase, HasNoHeading, IsBaseRowCause};
ghost use Rattle.stored_steps.specs.BaseFaults.{IsHeading, IsHeadingCause, head_size};
ghost use Rattle.stored_steps.specs.BaseFaults.{HasFewerNames, HasNoName, HasOtherList};
ghost use Rattle.stored_steps.specs.BaseFaults.{IsListCause, IsNoSiteCause, IsSiteCause};
ghost use Rattle.stored_steps.specs.BaseFaults.{LacksHeading};
ghost use Rattle.stored_steps.specs.BaseFaults.{LacksBase, LacksDelta, LacksParts};
ghost use Rattle.stored_steps.specs.BaseReading.{HasParts, IsDeltaAtFront, IsHead};
ghost use Rattle.stored_steps.specs.Kinds.{kind_number};
ghost use Rattle.stored_steps.specs.declared.row_kind.RowKind.TheVariants.{Base};
ghost use Rattle.std.specs.Prelude.{ℕ, List};

use crate::base::StoredBase;
use crate::base_writing::put_list;
use crate::limits::{BASE_VERSION, NAME_BYTES};
use crate::{BaseFault, RowKind, StoredRow};
use delta::Delta;
use delta_codec::{DecodeFault, Frame, decode};
use dots::{QueueName, SiteId};
use replica::{ListFault, QueueList, Replica, RestoreFault};
use std::alloc::Global;

// What stands before the frames of a base, behind its list of queues, and the bytes of its frames.
#[derive(Clone, Copy)]
struct Head<'a> {
    name: [u8; NAME_BYTES],
    starts: u64,
    last: (u64, u64, u64),
    frames: &'a [u8],
}

// The bytes behind the version and the site. Errors, in order: `BadVersion`, if the first byte isn't `BASE_VERSION`; `Truncated`, if no
// other follows; `WrongSite`, if the second isn't the number of the site.
fn behind_site(site: SiteId, bytes: &[u8]) -> Result<&[u8], BaseFault>
    ensures front { IfOk result (λ rest. bytes.now ≡ BASE_VERSION ∷ site ∷ rest.now) }
    ensures fault { IfErr result (λ fault. IsSiteCause site bytes.now fault) }
{
    let [version, rest @ ..] = bytes else {
        return Err(BaseFault::BadVersion);
    };
    if *version != BASE_VERSION {
        return Err(BaseFault::BadVersion);
    }
    let [number, rest @ ..] = rest else {
        return Err(BaseFault::Truncated);
    };
    if u16::from(*number) != site.number() {
        return Err(BaseFault::WrongSite);
    }
    Ok(rest)
}

// The bytes behind this list of queues. Errors: `WrongList`, if the bytes don't begin with it; `Memory`, which may replace that.
fn behind_list<'a>(alloc: Global, list: &QueueList, bytes: &'a [u8]) -> Result<&'a [u8], BaseFault>
    ensures found { IfOk result (λ rest. bytes.now ≡ list_bytes list.now ++ rest.now) }
    ensures queues { OnOk result (AreQueues list.now) }
    ensures fault { IfErr result (λ fault. (fault ≡ BaseFault.Memory)
        ⊎ ((fault ≡ BaseFault.WrongList) × HasOtherList list.now bytes.now)) }
{
    let mut names = Vec::new(alloc);
    put_list(&mut names, list)?;
    if bytes.len() < names.len() {
        drop(names);
        return Err(BaseFault::WrongList);
    }
    let (front, rest) = bytes.split_at(names.len());
    let is_same = front == names.as_slice();
    drop(names);
    if is_same {
        Ok(rest)
    } else {
        Err(BaseFault::WrongList)
    }
}

// A number of eight bytes at the front of bytes, and what follows it. `None` if there are fewer bytes.
fn number8(bytes: &[u8]) -> Option<(u64, &[u8])>
    ensures spelled { IfSome result (λ x. bytes.now ≡ to_be_bytes w64 x.0 ++ x.1.now) }
    ensures fits { IfSome result (λ x. x.0 < 2 ^ 64) }
    ensures short { IfNone result (length bytes.now < 8) }
{
    if bytes.len() < 8 {
        return None;
    }
    let (front, rest) = bytes.split_at(8);
    let number = u64::from_be_bytes([
        front[0], front[1], front[2], front[3], front[4], front[5], front[6], front[7],
    ]);
    Some((number, rest))
}

// Three numbers of eight bytes at the front of bytes, and what follows them. `None` if there are fewer bytes.
fn three_numbers(bytes: &[u8]) -> Option<((u64, u64, u64), &[u8])>
    ensures spelled { IfSome result (λ x. bytes.now ≡ to_be_bytes w64 x.0.0
        ++ (to_be_bytes w64 x.0.1 ++ (to_be_bytes w64 x.0.2 ++ x.1.now))) }
    ensures fits { IfSome result
        (λ x. (x.0.0 < 2 ^ 64) × ((x.0.1 < 2 ^ 64) × (x.0.2 < 2 ^ 64))) }
    ensures short { IfNone result (length bytes.now < 24) }
{
    let (count, rest) = number8(bytes)?;
    let (time, rest) = number8(rest)?;
    let (frames, rest) = number8(rest)?;
    Some(((count, time, frames), rest))
}

// The name and the numbers at the front of bytes, and what follows them. `None` if there are fewer bytes.
fn head_in(bytes: &[u8]) -> Option<Head<'_>>
    ensures head { IfSome result
        (λ head. IsHead head.name head.starts head.last head.frames.now bytes.now) }
    ensures short { IfNone result (length bytes.now < head_size) }
{
    let (name, rest) = bytes.split_first_chunk::<NAME_BYTES>()?;
    let (starts, rest) = number8(rest)?;
    let (last, frames) = three_numbers(rest)?;
    Some(Head {
        name: *name,
        starts,
        last,
        frames,
    })
}

// Why bytes begin with no frame, as the fault of a base.
fn decode_fault(fault: DecodeFault) -> BaseFault
    ensures memory { fault ≡ DecodeFault.Memory → result ≡ BaseFault.Memory }
    ensures other { fault ≢ DecodeFault.Memory → result ≡ BaseFault.Decode fault }
{
    match fault {
        DecodeFault::Memory => BaseFault::Memory,
        fault => BaseFault::Decode(fault),
    }
}

// The delta of a frame, if it is the site's of the number 1; else the fault is `WrongFrame`.
fn own_delta(site: SiteId, frame: Frame) -> Result<Delta, BaseFault>
    ensures delta { IfOk result (λ delta. frame ≡ frame_of site 1 delta) }
    ensures fault { IfErr result (λ fault. (fault ≡ BaseFault.WrongFrame)
        × ((frame.maker ≢ site) ⊎ (frame.number ≢ 1))) }
{
    if frame.maker != site || frame.number != 1 {
        drop(frame);
        return Err(BaseFault::WrongFrame);
    }
    Ok(frame.delta)
}

// The delta of a site's frame of the number 1 at the front of bytes, and what follows the frame. Errors, in order: `Decode`, with the fault
// of `decode`; `WrongFrame`, if the frame is of another site or number; `Memory`, which may replace both.
fn delta_in(alloc: Global, site: SiteId, bytes: &[u8]) -> Result<(Delta, &[u8]), BaseFault>
    ensures delta { IfOk result (λ x. IsDeltaAtFront site x.0 bytes.now x.1.now) }
    ensures fault { IfErr result (λ fault. (fault ≡ BaseFault.Memory)
        ⊎ LacksDelta site bytes.now fault) }
{
    let (frame, len) = match decode(alloc, bytes) {
        Ok(decoded) => decoded,
        Err(fault) => return Err(decode_fault(fault)),
    };
    let delta = own_delta(site, frame)?;
    Ok((delta, &bytes[len..]))
}

// Whether there are no bytes.
fn is_end(bytes: &[u8]) -> bool
    ensures { IsTrue result ↔ (bytes.now ≡ []) }
{
    bytes.is_empty()
}

// The state and the buffer of a site that bytes spell. Errors, in order: those of `delta_in` for the state, then for the buffer;
// `Trailing`, if bytes follow.
#[tactic(auto, using(crate::proofs::Reading::parts_read))]
fn deltas_in(alloc: Global, site: SiteId, bytes: &[u8]) -> Result<(Delta, Delta), BaseFault>
    ensures parts { IfOk result (λ x. HasParts site x.0 x.1 bytes.now) }
    ensures fault { IfErr result (λ fault. (fault ≡ BaseFault.Memory)
        ⊎ LacksParts site bytes.now fault) }
{
    let (state, rest) = delta_in(alloc, site, bytes)?;
    let (pending, rest) = match delta_in(alloc, site, rest) {
        Ok(read) => read,
        Err(fault) => {
            state.discard();
            return Err(fault);
        }
    };
    if !is_end(rest) {
        state.discard();
        pending.discard();
        return Err(BaseFault::Trailing);
    }
    Ok((state, pending))
}

// Why parts make no replica, as the fault of a base.
fn parts_fault(fault: RestoreFault) -> BaseFault
    ensures { ((fault ≡ RestoreFault.Memory) × (result ≡ BaseFault.Memory))
        ⊎ ((fault ≢ RestoreFault.Memory) × (result ≡ BaseFault.Parts fault)) }
{
    match fault {
        RestoreFault::Memory => BaseFault::Memory,
        fault => BaseFault::Parts(fault),
    }
}

// The base that a row says, of this site with this list of queues. Errors as of `base_of_row`.
fn read_base(
    alloc: Global,
    site: SiteId,
    list: &QueueList,
    row: &StoredRow,
) -> Result<StoredBase, BaseFault>
    ensures site { IfOk result (λ base. base.replica.site ≡ site) }
    ensures names { IfOk result (λ base. base.replica.names ≡ list.now) }
    ensures read { IfOk result (λ base. IsReadBase row.now base) }
    ensures fault { IfErr result (λ fault. (fault ≡ BaseFault.Memory)
        ⊎ LacksBase site list.now row.now fault) }
{
    if row.kind() != RowKind::Base.number() {
        return Err(BaseFault::NoBase);
    }
    let rest = behind_site(site, row.body())?;
    let rest = behind_list(alloc, list, rest)?;
    let Some(head) = head_in(rest) else {
        return Err(BaseFault::Truncated);
    };
    let names = list.copy()?;
    let (state, pending) = match deltas_in(alloc, site, head.frames) {
        Ok(deltas) => deltas,
        Err(fault) => {
            drop(names);
            return Err(fault);
        }
    };
    match Replica::restored(alloc, site, names, state, pending, head.last) {
        Ok(replica) => Ok(StoredBase {
            replica,
            name: head.name,
            starts: head.starts,
        }),
        Err(fault) => Err(parts_fault(fault)),
    }
}

/// The base that a row says, of this site with this list of queues. The buffer is joined into the state, as `Replica::restored` does: that
/// changes nothing where a replica was stored.
///
/// Errors, in order, each but the last only for its cause: `NoBase`, if the kind is not that of a base; `BadVersion`, if the first byte is
/// not `BASE_VERSION`; `Truncated`, if no other follows; `WrongSite`, if the second is not this site's number; `WrongList`, if the bytes
/// after it don't begin with this list of queues; `Truncated` again, if the bytes end before the frames begin; of the state, then of the
/// buffer, `Decode`, if it is no frame, with the fault of `decode`, and `WrongFrame`, if it is a frame of another site or number;
/// `Trailing`, if bytes follow the buffer; `Parts`, if the parts are those of no replica, with the fault of `Replica::restored`; `Memory`,
/// which may replace each from `WrongList` on.
pub fn base_of_row(
    alloc: Global,
    site: SiteId,
    list: &QueueList,
    row: &StoredRow,
) -> Result<StoredBase, BaseFault>
    ensures site { IfOk result (λ base. base.replica.site ≡ site) }
    ensures names { IfOk result (λ base. base.replica.names ≡ list.now) }
    ensures read { IfOk result (λ base. IsReadBase row.now base) }
    ensures same { (base : StoredBase) → IsRowOfBase base row.now
        → IfOk result (λ read. IsSameBase base read) }
    // The row of a base of this site with these queues, written or read, is refused only with `Memory`.
    ensures found { (base : StoredBase) → IsOfBase base row.now → base.replica.site ≡ site
        → base.replica.names ≡ list.now → IfErr result (λ fault. fault ≡ BaseFault.Memory) }
    ensures cause { IfErr result (λ fault. (fault ≡ BaseFault.Memory)
        ⊎ IsBaseRowCause site list.now row.now fault) }
    ensures none { IfErr result (λ fault. (fault ≡ BaseFault.Memory)
        ⊎ HasNoBase site list.now row.now) }
{
    read_base(alloc, site, list, row)
}

// The site that bytes name behind the version. Errors, in order: `BadVersion`, if the first byte isn't `BASE_VERSION`; `Truncated`, if no
// other follows; `WrongSite`, if the second is the number of no site.
fn site_in(bytes: &[u8]) -> Result<SiteId, BaseFault>
    ensures front { IfOk result
        (λ site. (rest : List ℕ) × (bytes.now ≡ BASE_VERSION ∷ site ∷ rest)) }
    ensures site { IfOk result (λ site. IsSite site) }
    ensures fault { IfErr result (λ fault. IsNoSiteCause bytes.now fault) }
{
    let [version, rest @ ..] = bytes else {
        return Err(BaseFault::BadVersion);
    };
    if *version != BASE_VERSION {
        return Err(BaseFault::BadVersion);
    }
    let Some(number) = rest.first() else {
        return Err(BaseFault::Truncated);
    };
    match SiteId::new(u16::from(*number)) {
        Some(site) => Ok(site),
        None => Err(BaseFault::WrongSite),
    }
}

// A name of a queue at the front of bytes, behind its length in one byte, and what follows it. `None` if the bytes end before it does, or
// are no queue's name.
fn name_in(bytes: &[u8]) -> Option<(QueueName, &[u8])>
    ensures spelled { IfSome result (λ x. bytes.now ≡ name_bytes x.0 ++ x.1.now) }
    ensures none { IfNone result (HasNoName bytes.now) }
{
    let (len, rest) = bytes.split_first()?;
    let len = usize::from(*len);
    if rest.len() < len {
        return None;
    }
    let (front, rest) = rest.split_at(len);
    match QueueName::new(front) {
        Ok(name) => Some((name, rest)),
        Err(_) => None,
    }
}

// The first `count` names at the front of bytes. Errors: `WrongList`, if there are fewer; `Memory`, which may replace that.
#[tactic(auto, using(crate::proofs::Headings::one_name_more, crate::proofs::Headings::fewer))]
fn names_of(alloc: Global, count: u16, bytes: &[u8]) -> Result<Vec<QueueName>, BaseFault>
    ensures count { IfOk result (λ names. length names.items ≡ count) }
    ensures spelled { IfOk result
        (λ names. (rest : List ℕ) × (bytes.now ≡ flat_map name_bytes names.items ++ rest)) }
    ensures fault { IfErr result (λ fault. (fault ≡ BaseFault.Memory)
        ⊎ ((fault ≡ BaseFault.WrongList) × HasFewerNames count bytes.now)) }
{
    let mut names = Vec::new(alloc);
    let mut left = bytes;
    for _place in 0..count {
        let Some((name, rest)) = name_in(left) else {
            drop(names);
            return Err(BaseFault::WrongList);
        };
        if names.push(name).is_err() {
            drop(names);
            return Err(BaseFault::Memory);
        }
        left = rest;
    }
    Ok(names)
}

// The names at the front of bytes, behind their number in two bytes. Errors, in order: `Truncated`, if there aren't two bytes; those of
// `names_of`.
fn names_in(alloc: Global, bytes: &[u8]) -> Result<Vec<QueueName>, BaseFault>
    ensures few { IfOk result (λ names. length names.items < 2 ^ 16) }
    ensures spelled { IfOk result
        (λ names. (rest : List ℕ) × (bytes.now ≡ list_bytes names.items ++ rest)) }
    ensures fault { IfErr result (λ fault. (fault ≡ BaseFault.Memory)
        ⊎ IsListCause bytes.now fault) }
{
    let [high, low, rest @ ..] = bytes else {
        return Err(BaseFault::Truncated);
    };
    names_of(alloc, u16::from_be_bytes([*high, *low]), rest)
}

// The list of queues of these names. Errors: `WrongList`, if the names are no list of queues: none, too many, or one twice; `Memory`, which
// may replace that.
fn queues_of(alloc: Global, names: &[QueueName]) -> Result<QueueList, BaseFault>
    ensures value { IfOk result (λ list. list ≡ names.now) }
    ensures queues { IfOk result (λ list. AreQueues list) }
    ensures fault { IfErr result (λ fault. (fault ≡ BaseFault.Memory)
        ⊎ ((fault ≡ BaseFault.WrongList) × (AreQueues names.now → ⊥))) }
{
    match QueueList::new(alloc, names) {
        Ok(list) => Ok(list),
        Err(ListFault::Memory) => Err(BaseFault::Memory),
        Err(ListFault::Empty) => Err(BaseFault::WrongList),
        Err(ListFault::TooMany) => Err(BaseFault::WrongList),
        Err(ListFault::Twice) => Err(BaseFault::WrongList),
    }
}

// The list of queues at the front of bytes. Errors, in order: `Truncated`, if the bytes end before the number of queues; `WrongList`, if no
// list of queues follows; `Memory`, which may replace that.
fn list_in(alloc: Global, bytes: &[u8]) -> Result<QueueList, BaseFault>
    ensures spelled { IfOk result
        (λ list. (rest : List ℕ) × (bytes.now ≡ list_bytes list ++ rest)) }
    ensures queues { IfOk result (λ list. AreQueues list) }
    ensures fault { IfErr result (λ fault. (fault ≡ BaseFault.Memory)
        ⊎ IsListCause bytes.now fault) }
{
    let names = names_in(alloc, bytes)?;
    let list = queues_of(alloc, names.as_slice());
    drop(names);
    let list = list?;
    match behind_list(alloc, &list, bytes) {
        Ok(_) => Ok(list),
        Err(fault) => {
            drop(list);
            Err(fault)
        }
    }
}

// The site and the list of queues that the base in a row names. Errors as of `base_heading`.
fn read_heading(alloc: Global, row: &StoredRow) -> Result<(SiteId, QueueList), BaseFault>
    ensures heading { IfOk result (λ it. IsHeading row.now it.0 it.1) }
    ensures fault { IfErr result (λ fault. (fault ≡ BaseFault.Memory)
        ⊎ LacksHeading row.now fault) }
{
    if row.kind() != RowKind::Base.number() {
        return Err(BaseFault::NoBase);
    }
    let site = site_in(row.body())?;
    let list = list_in(alloc, behind_site(site, row.body())?)?;
    Ok((site, list))
}

/// The site and the list of queues that the base in a row names.
///
/// Errors, in order, each but the last only for its cause: `NoBase`, if the kind is not that of a base; `BadVersion`, if the first byte is
/// not `BASE_VERSION`; `Truncated`, if the bytes end before the site; `WrongSite`, if the second byte is not the number of a site;
/// `Truncated`, if the bytes end before the number of queues; `WrongList`, if no list of queues follows; `Memory`, which may stand in place
/// of `WrongList`.
pub fn base_heading(alloc: Global, row: &StoredRow) -> Result<(SiteId, QueueList), BaseFault>
    ensures kind { OnOk result (row.now.kind ≡ kind_number Base) }
    ensures read { IfOk result (λ it. (rest : List ℕ)
        × (row.now.bytes ≡ BASE_VERSION ∷ it.0 ∷ (list_bytes it.1 ++ rest))) }
    ensures heading { IfOk result (λ it. IsHeading row.now it.0 it.1) }
    ensures cause { IfErr result (λ fault. (fault ≡ BaseFault.Memory)
        ⊎ IsHeadingCause row.now fault) }
    ensures none { IfErr result (λ fault. (fault ≡ BaseFault.Memory) ⊎ HasNoHeading row.now) }
{
    read_heading(alloc, row)
}

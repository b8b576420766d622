//! Opens the file of a site's store, or makes it, and restores the site.
ghost use Rattle.std.specs.Prelude.{◌≡◌, ◌↔◌, ◌≤◌, ◌++◌, [], IfOk, IsTrue, codes};
ghost use Rattle.std.specs.Prelude.{decimal, string_bytes};
ghost use Rattle.sqlite.specs.Files.{file_state};
ghost use Rattle.sqlite.specs.Start.{FindsIn};
ghost use Rattle.sqlite.specs.State.{HasCleanDisk};
ghost use Rattle.sqlite.specs.WalFiles.{image_at};
ghost use Rattle.replica.specs.Deeds.{IsNew};
ghost use Rattle.replica.specs.Site.{IsSameSite, SiteState};
ghost use Rattle.site_journal.specs.declared.journaled.TheConstants.{MOST_STEPS};
ghost use Rattle.stored_steps.specs.Bases.{IsRowOfBase};
ghost use Rattle.step_database.specs.Restored.{IsRestored};
ghost use Rattle.stored_threads.specs.ResumedSites.{IsNewStore};
ghost use Rattle.site_files.specs.Opened.{HoldsRowsOf, IsFirstStart};

use crate::{RestoredFile, SiteFile, SiteFileFault};
use dots::{Memory, SiteId};
use replica::{QueueList, Replica};
use site_journal::MOST_STEPS;
use site_store::{OpenFault, close, open, open_new};
use sqlite::{Start, Unknown};
use std::alloc::Global;
use std::fs::{self, File};
use std::io::ErrorKind;
use std::path::Path;
use std::random::RandomSource;
use step_database::RestoredDatabase;
use stored_desk::StepStore;
use stored_steps::{NAME_BYTES, StoredRow, row_of_base};
use stored_threads::ResumedSite;

/// The name of the file of this site's store in a folder: `FOLDER/site-K.db`. Fails only when out of memory.
pub fn file_of_site(alloc: Global, folder: &str, site: SiteId) -> Result<String, Memory>
    ensures { IfOk result (λ path. string_bytes path
        ≡ folder.now ++ (codes "/site-" ++ (decimal site ++ codes ".db"))) }
{
    let number = site.number();
    let path = format!(in alloc; "{folder}/site-{number}.db")?;
    Ok(path)
}

// A path with this ending. Fails only when out of memory.
fn with_ending(alloc: Global, path: &str, ending: &str) -> Result<String, Memory>
    ensures { IfOk result (λ it. string_bytes it ≡ path.now ++ ending.now) }
{
    let path = format!(in alloc; "{path}{ending}")?;
    Ok(path)
}

// A path with this number behind it. Fails only when out of memory. No contract says how the number is written.
fn with_number(alloc: Global, path: &str, number: u64) -> Result<String, Memory> {
    let path = format!(in alloc; "{path}-new-{number}")?;
    Ok(path)
}

// Whether a store that was started so often has a new site, which says this, at its first start.
fn is_first_start(starts: u64, replica: &Replica) -> bool
    ensures { IsTrue result ↔ ((starts ≡ 1) × IsNew replica.now) }
{
    starts == 1 && replica.is_new()
}

/// The store in the file at a path, whose site has this number and these queues. While the store's steps are done again at most `limit` of
/// them are in memory, 1 to 1,000,000, beside all rows; no contract says this. Nothing is changed in a file that is there.
///
/// Errors, in order: those of `open` of `site_store`, of which `Blank` leaves a file without a table where none was; those of `restore` of
/// `RestoredDatabase`. `Memory` may replace each.
pub fn restore_site_file<S: Start>(
    rt: &HostRuntime,
    path: &str,
    start: S,
    site: SiteId,
    list: &QueueList,
    limit: u32,
) -> Result<RestoredFile<S>, OpenFault>
    requires some { 1 ≤ limit }
    requires most { limit ≤ MOST_STEPS }
    ensures site { IfOk result (λ it. it.replica.site ≡ site) }
    ensures names { IfOk result (λ it. it.replica.names ≡ list.now) }
    ensures restored { IfOk result (λ it. IsRestored (file_state it.conn) it) }
    ensures rows { IfOk result (λ it. HoldsRowsOf (image_at S.Start) (file_state it.conn)) }
    // The database that the file held is still what is committed.
    ensures finds { IfOk result (λ it. HasCleanDisk (file_state it.conn)
        → FindsIn (image_at S.Start) (file_state it.conn)) }
{
    let conn = open(rt, path, start)?;
    RestoredDatabase::restore(rt.alloc(), conn, site, list, limit)
}

// A site that goes on over a store, which has no step yet, has this name, and was started so often.
pub(crate) fn site_file<D: StepStore>(
    replica: Replica,
    store: D,
    name: [u8; NAME_BYTES],
    starts: u64,
) -> SiteFile<D>
    requires holds { D.holds store [] }
    requires keeps { D.keeps store [] [] }
    requires begun { IsSameSite (D.begun store) replica }
    ensures replica { result.resumed.replica ≡ replica }
    ensures store { result.resumed.store ≡ store }
    ensures name { result.name ≡ name }
    ensures starts { result.starts ≡ starts }
    ensures is_new { IsTrue result.is_new ↔ IsFirstStart result }
    ensures new { IsNewStore D.holds D.keeps D.begun replica store }
{
    let is_new = is_first_start(starts, &replica);
    SiteFile {
        resumed: ResumedSite::new(replica, store),
        name,
        starts,
        is_new,
    }
}

// The row of the base of a new site with these queues, over a store that has this name and was never started. Fails only when out of
// memory.
fn new_base(
    alloc: Global,
    site: SiteId,
    list: &QueueList,
    name: &[u8; NAME_BYTES],
) -> Result<StoredRow, Memory>
    ensures { IfOk result (λ row. (fresh : SiteState) × IsNew fresh
        × IsRowOfBase (record { replica = fresh; name = name.now; starts = 0 }) row) }
{
    let replica = Replica::new(alloc, site, list.copy()?);
    let row = row_of_base(alloc, &replica, name, 0);
    drop(replica);
    row
}

// Makes the store of a new site, with these queues, in a file at a path that is missing. The store's name is 16 random bytes. After Ok the
// file holds the store without its log: that is what `open_new` and `close` say of the connection, and no contract says it of a path.
// Errors, in order: `NoName`; those of `open_new` and of `close`. `Memory` may replace each.
fn make_store(
    rt: &HostRuntime,
    path: &str,
    site: SiteId,
    list: &QueueList,
) -> Result<(), SiteFileFault> {
    let mut name = [0u8; NAME_BYTES];
    if let Err(error) = rt.fill_bytes(&mut name) {
        return Err(SiteFileFault::NoName(error));
    }
    let base = new_base(rt.alloc(), site, list, &name)?;
    let opened = open_new(rt, path, Unknown, 0, &base);
    drop(base);
    let files = close(opened?)?;
    drop(files);
    Ok(())
}

// Whether nothing has a path. If the system doesn't say, the answer is `false`. No contract says this.
fn is_missing(rt: &HostRuntime, path: &str) -> bool {
    match fs::symlink_metadata(rt, path) {
        Ok(_) => false,
        Err(error) => error.kind() == ErrorKind::NotFound,
    }
}

// Whether a file at a path has no bytes, or one, which a database takes for none, or the path is a link that leads nowhere. If the system
// doesn't say, the answer is `false`. No contract says this.
fn is_empty(rt: &HostRuntime, path: &str) -> bool {
    match fs::metadata(rt, path) {
        Ok(found) => found.len() <= 1,
        Err(error) => error.kind() == ErrorKind::NotFound,
    }
}

// Whether the log of the file at a path is there, or the system doesn't say. Fails only when out of memory.
fn has_log(rt: &HostRuntime, path: &str) -> Result<bool, Memory> {
    let log = with_ending(rt.alloc(), path, "-wal")?;
    Ok(!is_missing(rt, log.as_str()))
}

// The folder of the file at a path, which nobody else holds, until it is dropped: it waits for who does. The fault is `CannotOpen`. No
// contract says which folder.
fn locked_folder(rt: &HostRuntime, path: &str) -> Result<File, OpenFault> {
    let folder = match Path::new(path).parent() {
        Some(folder) if !folder.as_str().is_empty() => folder.as_str(),
        _ => ".",
    };
    let Ok(folder) = File::open(rt, folder) else {
        return Err(OpenFault::CannotOpen);
    };
    match folder.lock() {
        Ok(()) => Ok(folder),
        Err(_) => Err(OpenFault::CannotOpen),
    }
}

// A path beside this one, `PATH-new-N`, where N is random. Errors: `NoName`; `Memory`.
fn path_beside(rt: &HostRuntime, path: &str) -> Result<String, SiteFileFault> {
    let mut number = [0u8; 8];
    if let Err(error) = rt.fill_bytes(&mut number) {
        return Err(SiteFileFault::NoName(error));
    }
    let beside = with_number(rt.alloc(), path, u64::from_be_bytes(number))?;
    Ok(beside)
}

// Renames the file at a path, in this folder, and syncs the folder. The fault is `CannotOpen`. No contract says this.
fn rename_file(rt: &HostRuntime, folder: &File, from: &str, to: &str) -> Result<(), OpenFault> {
    if fs::rename(rt, from, to).is_err() || folder.sync_all().is_err() {
        return Err(OpenFault::CannotOpen);
    }
    Ok(())
}

// Makes the store of a new site, with these queues, at a path in a folder that this process holds, if the path is missing: in another file,
// whose log is removed once it is whole, and which is renamed then. Errors, in order: `NoStore`, if the log of the path is there; `NoName`;
// those of `make_store` and of `rename_file`. `Memory` may replace each. At an error no new file is left, if the system removes it.
fn make_in_folder(
    rt: &HostRuntime,
    folder: &File,
    path: &str,
    site: SiteId,
    list: &QueueList,
) -> Result<(), SiteFileFault> {
    if !is_missing(rt, path) {
        return Ok(());
    }
    if has_log(rt, path)? {
        return Err(SiteFileFault::Open(OpenFault::NoStore));
    }
    let new = path_beside(rt, path)?;
    let log = with_ending(rt.alloc(), new.as_str(), "-wal")?;
    let made = make_store(rt, new.as_str(), site, list);
    let _ = fs::remove_file(rt, log.as_str());
    let renamed = match made {
        Ok(()) => rename_file(rt, folder, new.as_str(), path).map_err(SiteFileFault::Open),
        Err(fault) => Err(fault),
    };
    if renamed.is_err() {
        let _ = fs::remove_file(rt, new.as_str());
    }
    renamed
}

// What must be done before the store at a path is opened: if the path is missing, the store of a new site is made. Errors, in order:
// those of `locked_folder` and of `make_in_folder`, if the path is missing; else `NoStore`, if the file has at most one byte, or the path
// is a link that leads nowhere. `Memory` may replace each.
fn prepare_file(
    rt: &HostRuntime,
    path: &str,
    site: SiteId,
    list: &QueueList,
) -> Result<(), SiteFileFault> {
    if is_missing(rt, path) {
        let folder = locked_folder(rt, path)?;
        let made = make_in_folder(rt, &folder, path, site, list);
        drop(folder);
        return made;
    }
    if is_empty(rt, path) {
        return Err(SiteFileFault::Open(OpenFault::NoStore));
    }
    Ok(())
}

/// The store in the file at a path, as `restore_site_file` has it. Where neither the file nor its log (`PATH-wal`) is there, it first makes
/// the store of a new site, with a name of 16 random bytes: in a file `PATH-new-N`, N at random, whose log is removed once it is whole, and
/// which is renamed then. So a crash leaves a whole store or none at the path, and the next call goes on; where it leaves none it may leave
/// `PATH-new-N` and its log, which nothing needs. Meanwhile it holds the lock (`flock`) of the folder, for which others wait that make a
/// store there.
///
/// Errors, in order: `Open` with `CannotOpen`, if the file is missing and its folder can't be opened or locked; `Open` with `NoStore`, if
/// only the log is there, or the system doesn't say whether it is, or the file has at most one byte, or the path is a link that leads
/// nowhere: it may have been a store, and a new site of its number would make dots that others have; `NoName`; `Open` with those of
/// `open_new` and `close` of `site_store`; `Open` with `CannotOpen`, if the new file can't be renamed; `Open` with those of
/// `restore_site_file`, but `NoStore` in place of `Blank`. `Open` with `Memory` may replace each. A store that is refused keeps its rows.
pub fn open_site_file<S: Start>(
    rt: &HostRuntime,
    path: &str,
    start: S,
    site: SiteId,
    list: &QueueList,
    limit: u32,
) -> Result<RestoredFile<S>, SiteFileFault>
    requires some { 1 ≤ limit }
    requires most { limit ≤ MOST_STEPS }
    ensures site { IfOk result (λ it. it.replica.site ≡ site) }
    ensures names { IfOk result (λ it. it.replica.names ≡ list.now) }
    ensures restored { IfOk result (λ it. IsRestored (file_state it.conn) it) }
    // It has the rows that the file held as it was opened.
    ensures rows { IfOk result (λ it. HoldsRowsOf (image_at S.Start) (file_state it.conn)) }
    ensures finds { IfOk result (λ it. HasCleanDisk (file_state it.conn)
        → FindsIn (image_at S.Start) (file_state it.conn)) }
{
    if let Err(fault) = prepare_file(rt, path, site, list) {
        drop(start);
        return Err(fault);
    }
    match restore_site_file(rt, path, start, site, list, limit) {
        Ok(file) => Ok(file),
        Err(OpenFault::Blank) => Err(SiteFileFault::Open(OpenFault::NoStore)),
        Err(fault) => Err(SiteFileFault::Open(fault)),
    }
}

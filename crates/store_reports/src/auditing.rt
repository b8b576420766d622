//! Audits the stores in files.
ghost use Rattle.std.specs.Prelude.{◌≡◌, ◌↔◌, ℕ, true, false, IfErr, IfOk, IsErrOf, List, OnOk, Option};
ghost use Rattle.std.specs.Prelude.{length};
ghost use Rattle.std.specs.List.{All};
ghost use Rattle.store_audit.specs.declared.store_journal.StoreJournal.{StoreJournal};
ghost use Rattle.store_audit.specs.Audits.{IsAuditCause};
ghost use Rattle.store_reports.specs.Reports.{HasAudited, IsAuditFault, IsOfFile};

use crate::ReportFault;
use crate::reading::journals_of_files;
use ami_text::Sink;
use std::rt::Files;
use store_audit::{AuditEnd, StoreAuditFault, audit_stores};

// Why the events of stores were not written to their end, as the fault of a report: `Write`, `Memory`, or `Sites` with any other.
fn sites_fault(fault: StoreAuditFault) -> ReportFault
    ensures fault { (files : ℕ) (stores : List StoreJournal) (before after : Option (List ℕ))
        → length stores ≡ files → All IsOfFile stores → IsAuditCause stores before after fault
        → IsAuditFault files before after result }
    ensures write { (result ≡ ReportFault.Write) ↔ (fault ≡ StoreAuditFault.Write) }
{
    match fault {
        StoreAuditFault::Write => ReportFault::Write,
        StoreAuditFault::Memory => ReportFault::Memory,
        fault => ReportFault::Sites(fault),
    }
}

/// Writes the events that explain the stores in the files at these paths, as `audit_stores` of `store_audit` does. The stores are those of
/// all sites of one run, in any order. One file after the other is read; no file and no log is changed.
///
/// Errors, in order: `File`, with the index of the first file at fault and the cause: `Unreadable`, if the file or its log can't be read;
/// `Copy`, with the fault of `rows_of_bytes`; `Journal`, with the fault of `journal_of_rows`. Then `Sites`, with the fault of
/// `audit_stores`. Up to here nothing was written. `Write`: a prefix of the text was written. `Memory` may stand in place of each, and then
/// nothing was written, or a prefix of the text.
pub fn audit_files<R: Files + AllocGlobal, W: Sink>(
    rt: &R,
    out: &mut W,
    paths: &[String],
) -> Result<AuditEnd, ReportFault>
    requires writer { W.failed out.old ≡ false }
    ensures ended { IfOk result (λ end. HasAudited (length paths.now)
        (W.taken out.old) (W.taken out.new) end) }
    ensures fault { IfErr result (λ fault. IsAuditFault (length paths.now)
        (W.taken out.old) (W.taken out.new) fault) }
    ensures works { OnOk result (W.failed out.new ≡ false) }
    ensures write { IsErrOf result ReportFault.Write ↔ (W.failed out.new ≡ true) }
{
    let stores = journals_of_files(rt, paths)?;
    match audit_stores(rt.alloc(), out, stores) {
        Ok(end) => Ok(end),
        Err(fault) => Err(sites_fault(fault)),
    }
}

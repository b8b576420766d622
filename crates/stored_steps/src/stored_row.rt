ghost use Rattle.std.specs.Prelude.{◌≡◌, IfOk};
ghost use Rattle.stored_steps.specs.StartRows.{is_start, start_row};

use crate::RowKind;
use dots::{Bytes, Memory};
use std::alloc::Global;
use std::marker::Model;

/// A row of a store: what a site did by a pass, or its base. Its words are for those who look into the file, and are never read back
/// (this project's own).
#[derive(Drop)]
pub struct StoredRow {
    pass: u32,
    kind: u32,
    body: Bytes,
    words: String,
}

impl Model for StoredRow {
    ghost use Rattle.stored_steps.specs.Stored.{Stored, stored_code};

    ghost Value = { Stored };

    ghost coded = { stored_code };

    ghost view = { λ r. record { pass = r.pass; kind = r.kind; bytes = r.body } };
}

impl StoredRow {
    /// A row of this pass, of this kind, with this body and these words.
    pub fn new(pass: u32, kind: u32, body: Bytes, words: String) -> StoredRow
        ensures pass { result.pass ≡ pass }
        ensures kind { result.kind ≡ kind }
        ensures body { result.bytes ≡ body }
    {
        StoredRow {
            pass,
            kind,
            body,
            words,
        }
    }

    /// The row of a start: each start of a site over its store adds one. Fails only when out of memory.
    pub fn of_start(alloc: Global) -> Result<StoredRow, Memory>
        ensures { IfOk result (λ row. row ≡ start_row) }
    {
        let words = String::from_str(alloc, "start")?;
        let body = Bytes::new(Vec::new(alloc));
        Ok(StoredRow::new(0, RowKind::Started.number(), body, words))
    }

    /// Whether it is the row of a start: of that kind, without a pass and without bytes.
    pub fn is_start(&self) -> bool
        ensures { result ≡ is_start self.now }
    {
        self.kind == RowKind::Started.number() && self.pass == 0 && self.body.as_slice().is_empty()
    }

    /// The number of its pass.
    pub fn pass(&self) -> u32
        ensures { result ≡ self.now.pass }
    {
        self.pass
    }

    /// The number of its kind.
    pub fn kind(&self) -> u32
        ensures { result ≡ self.now.kind }
    {
        self.kind
    }

    /// The bytes of its body.
    pub fn body(&self) -> &[u8]
        ensures { result.now ≡ self.now.bytes }
    {
        self.body.as_slice()
    }

    /// What it says, in words, which no contract sees. They are empty where the row was read of a store.
    pub fn words(&self) -> &str {
        self.words.as_str()
    }
}

ghost use Rattle.std.specs.Prelude.{◌≡◌};
ghost use Rattle.site_store.specs.OpenFaults.{open_fault};
ghost use Rattle.site_store.specs.Restored.{IsOfRows};

use sqlite::{Error, ErrorCode};
use stored_steps::StoreFault;
use thiserror::Error;

/// Why a store was not opened (this project's own).
#[derive(Clone, Copy, Debug, PartialEq, Eq, Error)]
pub enum OpenFault {
    /// Another process has the file open.
    #[error("in use")]
    InUse,
    /// The file can't be opened, for example since its folder is missing or it may not be written.
    #[error("cannot open")]
    CannotOpen,
    /// The file is no store: it is no database, or one with other tables.
    #[error("no store")]
    NoStore,
    /// A page of the file is damaged.
    #[error("damaged file")]
    Damaged,
    /// The file is new, or has no table yet.
    #[error("new file")]
    Blank,
    /// A position is missing between two rows, or there are too many.
    #[error("a row is missing")]
    Gap,
    /// The rows are no store of this site, for this cause.
    #[error(transparent)]
    Site(StoreFault),
    /// A transaction is open.
    #[error("a transaction is open")]
    InTransaction,
    /// The database failed, for this cause.
    #[error(transparent)]
    Database(Error),
    /// An allocation was refused.
    #[error("out of memory")]
    Memory,
}

// What an error of the database is, as the fault of an open: `InUse`, `CannotOpen`, `NoStore`,
// `Damaged` or `Memory` where its code says that, else `Database`.
pub(crate) fn open_fault(error: Error) -> OpenFault
    ensures value { result ≡ open_fault error }
    ensures rows { IsOfRows result → ⊥ }
{
    match error {
        Error::SqliteFailure(ErrorCode::DatabaseBusy) => OpenFault::InUse,
        Error::SqliteFailure(ErrorCode::CannotOpen) => OpenFault::CannotOpen,
        Error::SqliteFailure(ErrorCode::NotADatabase) => OpenFault::NoStore,
        Error::SqliteFailure(ErrorCode::DatabaseCorrupt) => OpenFault::Damaged,
        Error::SqliteFailure(ErrorCode::OutOfMemory) => OpenFault::Memory,
        error => OpenFault::Database(error),
    }
}

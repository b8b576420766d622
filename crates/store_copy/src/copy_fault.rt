ghost use Rattle.std.specs.Prelude.{◌≡◌, ◌≢◌};
ghost use Rattle.sqlite.specs.declared.error.Error.TheVariants.{SqliteFailure};
ghost use Rattle.sqlite.specs.declared.error.ErrorCode.TheVariants.{NotADatabase};
ghost use Rattle.store_copy.specs.CopyFaults.{open_fault, read_fault};

use sqlite::{Error, ErrorCode};
use thiserror::Error;

/// Why the bytes of two files give no rows (this project's own).
#[derive(Clone, Copy, Debug, PartialEq, Eq, Error)]
pub enum CopyFault {
    /// The file is no store: it has at most one byte, it is no database, or it has other tables.
    #[error("no store")]
    NoStore,
    /// A page of the file is damaged.
    #[error("damaged file")]
    Damaged,
    /// A row but the first hasn't the next position.
    #[error("a row is missing")]
    Gap,
    /// The database failed, for this cause.
    #[error(transparent)]
    Database(Error),
    /// An allocation was refused.
    #[error("out of memory")]
    Memory,
}

// What an error of a read is, as the fault of a copy: `Damaged` where its code says that;
// `Memory` where it says that, or that a file in memory failed; else `Database`.
pub(crate) fn read_fault(error: Error) -> CopyFault
    ensures value { result ≡ read_fault error }
    ensures store { result ≢ CopyFault.NoStore }
{
    match error {
        Error::SqliteFailure(ErrorCode::DatabaseCorrupt) => CopyFault::Damaged,
        Error::SqliteFailure(ErrorCode::OutOfMemory) => CopyFault::Memory,
        // A file in memory fails where it can't grow.
        Error::SqliteFailure(ErrorCode::SystemIoFailure) => CopyFault::Memory,
        error => CopyFault::Database(error),
    }
}

// What an error of an open is, as the fault of a copy: `NoStore` where the file is no database,
// else as of a read.
pub(crate) fn open_fault(error: Error) -> CopyFault
    ensures value { result ≡ open_fault error }
    ensures no_store { result ≡ CopyFault.NoStore → error ≡ SqliteFailure NotADatabase }
{
    match error {
        Error::SqliteFailure(ErrorCode::NotADatabase) => CopyFault::NoStore,
        error => read_fault(error),
    }
}

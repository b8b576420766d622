ghost use Rattle.std.specs.Prelude.{◌<◌, ◌^◌, length};

use dots::Memory;
use site_journal::{Journaled, Receipt, settle};
use std::alloc::Global;
use std::io;

// The text of the error of a value of the program's own.
pub(crate) const OUT_OF_RANGE: &str = "a value is out of its range";

// The error that says this. It is that of memory if there was none for the text.
pub(crate) fn failed(text: Result<String, Memory>) -> io::Error {
    match text {
        Ok(text) => {
            let error = io::Error::other(text.as_str());
            drop(text);
            error
        }
        Err(memory) => io::Error::from(memory),
    }
}

// Checks that these receipts of its passes settle a journal.
pub(crate) fn check_settled(
    alloc: Global,
    journal: &Journaled,
    lists: &[Vec<Receipt>],
) -> io::Result<()>
    requires { length lists.now < 2 ^ 32 }
{
    match settle(journal, lists) {
        Ok(()) => Ok(()),
        Err(fault) => Err(failed(format!(in alloc; "a journal isn't settled: {fault}"))),
    }
}

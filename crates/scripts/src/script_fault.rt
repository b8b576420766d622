use dots::Memory as NoMemory;
use thiserror::Error;

/// Why a script was not run to its end.
#[derive(Clone, Copy, Debug, PartialEq, Eq, Error)]
pub enum ScriptFault {
    /// The reader failed, or had no end within 1,000,000 reads. Nothing was written.
    #[error("read failed")]
    Read,
    /// The script has more than 16,777,216 bytes. Nothing was written.
    #[error("script too long")]
    TooLong,
    /// The writer failed, or took no bytes. The output of the first lines was written, and a prefix of
    /// the next line's output.
    #[error("write failed")]
    Write,
    /// Out of memory. Nothing was written, or the whole output of the first lines.
    #[error("out of memory")]
    Memory,
}

impl From<NoMemory> for ScriptFault {
    ghost use Rattle.std.specs.Prelude.{◌≡◌};
    ghost use Rattle.scripts.specs.declared.script_fault.ScriptFault.TheVariants.{Memory};

    ghost from_gives = { λ memory fault. fault ≡ Memory };

    fn from(_memory: NoMemory) -> Self {
        ScriptFault::Memory
    }
}

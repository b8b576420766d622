//! Bytes as files in memory.
ghost use Rattle.std.specs.Prelude.{◌≡◌, IfOk, IsTrue};
ghost use Rattle.sqlite_disk.specs.Memory.{memory_bytes, memory_is_usable};

use dots::Memory as OutOfMemory;
use sqlite_disk::{Disk, Memory};
use std::alloc::Global;

// A file in memory that has these bytes. Fails only when out of memory.
pub(crate) fn disk_of(alloc: Global, bytes: &[u8]) -> Result<Memory, OutOfMemory>
    ensures bytes { IfOk result (λ disk. memory_bytes disk ≡ bytes.now) }
    ensures usable { IfOk result (λ disk. IsTrue (memory_is_usable disk)) }
{
    let mut disk = Memory::new(alloc);
    match disk.write_at(0, bytes) {
        Ok(()) => Ok(disk),
        Err(_) => {
            drop(disk);
            Err(OutOfMemory)
        }
    }
}

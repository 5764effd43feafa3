ghost use Rattle.std.specs.Prelude.{◌≡◌, List, [], length, map, IfOk, IsOk, OnOk};
ghost use Rattle.image_access.specs.Backing.{BackingView, Stays};
ghost use Rattle.image_access.specs.Contents.{bytes_at};

use crate::StorageError;
use std::alloc::{AllocError, Global};

/// A backing disk, which is only read. Past its size all bytes are zero.
pub trait BackingDisk: Drop {
    /// The view of the disk in contracts.
    ghost backing: { Self → BackingView };

    /// The size in bytes.
    fn size(&self) -> u64
        ensures { (backing self.now).is_honest → result ≡ length (backing self.now).bytes };

    /// Fills the buffer with the bytes from offset `at` on, with zeros past the size. After a refusal the buffer may hold any bytes. Refused
    /// `Fault` if the disk failed, and `Memory` if memory ran out.
    fn read(&mut self, at: u64, buf: &mut [u8]) -> Result<(), StorageError>
        ensures read { (backing self.old).is_honest → OnOk result (buf.new ≡ bytes_at (backing self.old).bytes at (length buf.old)) }
        ensures stays { Stays (backing self.old) (backing self.new) result };
}

/// A backing disk that may use storages of type `S`. A boxed one lists none.
pub trait WrappedFormat<S>: BackingDisk {
    /// The storages that the disk uses.
    ghost dependencies: { Self → List S };

    /// The storages that the disk uses, in an order of its own. Refused if memory runs out.
    fn storage_dependencies(&self, alloc: Global) -> Result<Vec<&S>, AllocError>
        ensures listed { IfOk result (λ storages. map (λ s. s.now) storages.items ≡ dependencies self.now) };
}

impl BackingDisk for Box<dyn BackingDisk> {
    ghost backing = { λ b. (BackingDisk-box b).backing b.value };

    fn size(&self) -> u64 {
        (**self).size()
    }

    fn read(&mut self, at: u64, buf: &mut [u8]) -> Result<(), StorageError> {
        (**self).read(at, buf)
    }
}

impl<S> WrappedFormat<S> for Box<dyn BackingDisk> {
    ghost dependencies = { λ _. [] };

    fn storage_dependencies(&self, alloc: Global) -> Result<Vec<&S>, AllocError>
        ensures listed { IfOk result (λ storages. map (λ s. s.now) storages.items ≡ []) }
        ensures ok { IsOk result }
    {
        Ok(Vec::new(alloc))
    }
}

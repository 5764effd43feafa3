ghost use Rattle.std.specs.Prelude.{◌≡◌};

use crate::{Storage, StorageError, StoragePreallocate};

/// A storage of any type, for a box: `Box<dyn DynStorage>` is a storage, with the same view in contracts as the storage in it.
pub trait DynStorage: Storage {}

impl<S: Storage> DynStorage for S {}

impl Storage for Box<dyn DynStorage> {
    ghost view = { λ b. (DynStorage-box b).Storage.view b.value };

    ghost counts_now = { λ b t h le. (DynStorage-box b).Storage.counts_now b.value t h le };

    ghost only_now = { λ b c had. (DynStorage-box b).Storage.only_now b.value c had };

    ghost passes = { λ call b now result.
        (v : _) × (now ≡ record b { value = v }) × (DynStorage-box b).Storage.passes call b.value v result };

    fn name(&self) -> &str {
        (**self).name()
    }

    fn size(&mut self) -> Result<u64, StorageError> {
        (**self).size()
    }

    fn read(&mut self, at: u64, buf: &mut [u8]) -> Result<(), StorageError> {
        (**self).read(at, buf)
    }

    fn write(&mut self, at: u64, bytes: &[u8]) -> Result<(), StorageError> {
        (**self).write(at, bytes)
    }

    fn write_zeroes(&mut self, at: u64, length: u64) -> Result<(), StorageError> {
        (**self).write_zeroes(at, length)
    }

    fn write_allocated_zeroes(&mut self, at: u64, length: u64) -> Result<(), StorageError> {
        (**self).write_allocated_zeroes(at, length)
    }

    fn resize(&mut self, size: u64, preallocate: StoragePreallocate) -> Result<(), StorageError> {
        (**self).resize(size, preallocate)
    }

    fn flush(&mut self) -> Result<(), StorageError> {
        (**self).flush()
    }

    fn sync(&mut self) -> Result<(), StorageError> {
        (**self).sync()
    }

    fn invalidate_cache(&mut self) -> Result<(), StorageError> {
        (**self).invalidate_cache()
    }

    fn req_align(&self) -> usize {
        (**self).req_align()
    }

    fn mem_align(&self) -> usize {
        (**self).mem_align()
    }
}

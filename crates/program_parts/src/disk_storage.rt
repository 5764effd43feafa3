//! A disk as a storage.
ghost use Rattle.std.specs.Prelude.{◌≡◌, ◌↔◌, ◌<◌, [], codes, IsTrue};
ghost use Rattle.image_access.specs.Moments.{HasCause};

use crate::disks::DiskReader;
use image_access::{Storage, StorageError, StoragePreallocate};
use qcow2_image::ImageError;

/// A disk, which can also be read as a storage. Each call that fails is counted, and the refusal of the last one of the storage is kept. As a
/// storage it is for reading only, and nothing is known of its bytes in proofs.
#[derive(Drop)]
pub struct DiskStorage<D: DiskReader> {
    disk: D,
    faults: u64,
    last_refusal: Option<ImageError>,
}

impl<D: DiskReader> DiskStorage<D> {
    /// A storage with the bytes of a disk.
    pub fn new(disk: D) -> Self {
        DiskStorage {
            disk,
            faults: 0,
            last_refusal: None,
        }
    }

    /// The disk, and the refusal of the last failed read.
    pub fn into_parts(self) -> (D, Option<ImageError>) {
        (self.disk, self.last_refusal)
    }

    /// Whether a call failed, other than for lack of memory.
    pub fn has_failed(&self) -> bool
        ensures { IsTrue result ↔ (0 < self.now.faults) }
    {
        self.faults > 0
    }

    // Counts a refusal of the disk, and returns it.
    fn counted<T>(&mut self, answer: Result<T, ImageError>) -> Result<T, ImageError>
        ensures answer { result ≡ answer }
        ensures disk { self.new.disk ≡ self.old.disk }
    {
        match answer {
            Ok(value) => Ok(value),
            Err(refusal) => {
                if refusal != ImageError::Memory {
                    self.faults = self.faults.saturating_add(1);
                }
                Err(refusal)
            }
        }
    }

    // The result of a call that failed. Lack of memory is not a fault.
    fn failed<T>(&mut self, refusal: ImageError) -> Result<T, StorageError>
        ensures cause { HasCause self.old.faults self.new.faults result }
    {
        if refusal == ImageError::Memory {
            return Err(StorageError::Memory);
        }
        self.last_refusal = Some(refusal);
        self.faults = self.faults.saturating_add(1);
        Err(StorageError::Fault)
    }

    fn refusal_to_report<T>(&mut self, answer: Result<T, ImageError>) -> Result<T, StorageError>
        ensures cause { HasCause self.old.faults self.new.faults result }
    {
        match answer {
            Ok(value) => Ok(value),
            Err(refusal) => self.failed(refusal),
        }
    }
}

impl<D: DiskReader> DiskReader for DiskStorage<D> {
    ghost seen = { λ s. D.seen s.disk };

    fn byte_count(&mut self) -> Result<u64, ImageError> {
        let answer = self.disk.byte_count();
        self.counted(answer)
    }

    fn read_bytes(&mut self, at: u64, bytes: &mut [u8]) -> Result<(), ImageError> {
        let answer = self.disk.read_bytes(at, bytes);
        self.counted(answer)
    }

    fn known_zeros(&mut self, at: u64, max: u64) -> Result<u64, ImageError> {
        let answer = self.disk.known_zeros(at, max);
        self.counted(answer)
    }
}

impl<D: DiskReader> Storage for DiskStorage<D> {
    ghost view = { λ s. record {
      contents = [];
      faults = s.faults;
      is_honest = ⊥;
      moment = 0;
      had_since = λ t c. c ≡ [];
      name = codes "disk";
      req_align = 1;
      mem_align = 1;
    } };

    ghost counts_now = { λ s t honest le. absurd honest };

    ghost only_now = { λ s c had. had };

    ghost passes = { λ call old new result. new ≡ old };

    fn name(&self) -> &str {
        "disk"
    }

    fn size(&mut self) -> Result<u64, StorageError> {
        let answer = self.disk.byte_count();
        self.refusal_to_report(answer)
    }

    fn read(&mut self, at: u64, buf: &mut [u8]) -> Result<(), StorageError> {
        let size = self.size()?;
        let within = usize::try_from(size.saturating_sub(at)).unwrap_or(usize::MAX);
        let (within, beyond) = buf.split_at_mut(within.min(buf.len()));
        beyond.fill(0);
        let answer = self.disk.read_bytes(at, within);
        self.refusal_to_report(answer)
    }

    fn write(&mut self, _at: u64, _bytes: &[u8]) -> Result<(), StorageError> {
        self.failed(ImageError::ReadOnly)
    }

    fn write_zeroes(&mut self, _at: u64, _length: u64) -> Result<(), StorageError> {
        self.failed(ImageError::ReadOnly)
    }

    fn write_allocated_zeroes(&mut self, _at: u64, _length: u64) -> Result<(), StorageError> {
        self.failed(ImageError::ReadOnly)
    }

    fn resize(&mut self, _size: u64, _how: StoragePreallocate) -> Result<(), StorageError> {
        self.failed(ImageError::ReadOnly)
    }

    fn flush(&mut self) -> Result<(), StorageError> {
        Ok(())
    }

    fn sync(&mut self) -> Result<(), StorageError> {
        Ok(())
    }

    fn invalidate_cache(&mut self) -> Result<(), StorageError> {
        Ok(())
    }

    fn req_align(&self) -> usize {
        1
    }

    fn mem_align(&self) -> usize {
        1
    }
}

ghost use Rattle.std.specs.Prelude.{◌≡◌, [], map, IfOk, IsOk};

use crate::call_count::CallCount;
use crate::memory::copy_from;
use crate::{BackingDisk, StorageError, WrappedFormat};
use std::alloc::{AllocError, Global};
use std::marker::Model;

/// A backing disk in memory. For tests, a chosen read can be refused.
#[derive(Drop)]
pub struct MemBacking {
    bytes: Vec<u8>,
    calls: CallCount,
}

impl Model for MemBacking {
    ghost use Rattle.image_access.specs.MemBacking.{CountedBytes};

    ghost Value = { CountedBytes };

    ghost view = { λ m. record { bytes = m.bytes.items; calls = m.calls } };
}

impl MemBacking {
    ghost use Rattle.std.specs.Prelude.{◌≡◌};
    ghost use Rattle.image_access.specs.CallCount.{uncounted, failing, refusing};

    /// A disk with these bytes.
    pub fn new(bytes: Vec<u8>) -> Self
        ensures { result ≡ record { bytes = bytes.items; calls = uncounted } }
    {
        MemBacking {
            bytes,
            calls: CallCount::new(),
        }
    }

    /// The number of reads. The counter stops at the greatest `u64`.
    pub fn reads(&self) -> u64
        ensures { result ≡ self.now.calls.made }
    {
        self.calls.made()
    }

    /// Makes the n-th read from now on fail; 0 makes none fail. Replaces an earlier choice.
    pub fn fail_at(&mut self, n: u64)
        ensures { self.new ≡ record self.old { calls = failing self.old.calls n } }
    {
        self.calls.fail_at(n);
    }

    /// Makes the n-th read from now on run out of memory; 0 makes none. Replaces an earlier choice.
    /// A read that is also chosen to fail, fails.
    pub fn refuse_memory_at(&mut self, n: u64)
        ensures { self.new ≡ record self.old { calls = refusing self.old.calls n } }
    {
        self.calls.refuse_memory_at(n);
    }
}

impl BackingDisk for MemBacking {
    ghost use Rattle.std.specs.Prelude.{◌≡◌, length, OnOk};
    ghost use Rattle.image_access.specs.Backing.{Stays};
    ghost use Rattle.image_access.specs.CallCount.{Begins};
    ghost use Rattle.image_access.specs.Contents.{bytes_at};
    ghost use Rattle.image_access.specs.MemBacking.{view_of_bytes};

    ghost backing = { view_of_bytes };

    fn size(&self) -> u64 {
        self.bytes.len() as u64
    }

    fn read(&mut self, at: u64, buf: &mut [u8]) -> Result<(), StorageError>
        ensures read { OnOk result (buf.new ≡ bytes_at self.old.bytes at (length buf.old)) }
        ensures stays { Stays (view_of_bytes self.old) (view_of_bytes self.new) result }
        ensures counted { Begins self.old.calls self.new.calls result }
    {
        self.calls.begin()?;
        copy_from(&self.bytes, at, buf);
        Ok(())
    }
}

impl<S> WrappedFormat<S> for MemBacking {
    ghost dependencies = { λ _. [] };

    fn storage_dependencies(&self, alloc: Global) -> Result<Vec<&S>, AllocError>
        ensures listed { IfOk result (λ storages. map (λ s. s.now) storages.items ≡ []) }
        ensures ok { IsOk result }
    {
        Ok(Vec::new(alloc))
    }
}

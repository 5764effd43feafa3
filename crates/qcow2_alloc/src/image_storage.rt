ghost use Rattle.std.specs.Prelude.{◌≡◌, true};
ghost use Rattle.qcow2_alloc.specs.CountedChanges.{IsOneChange};

mod table_loads;
mod typed_writes;

use crate::ImageError;
use image_access::{Storage, StorageError, StoragePreallocate};

/// The kind of a write to the image's storage.
#[derive(Clone, Copy, Debug, PartialEq, Eq)]
pub enum WriteKind {
    /// Bytes of a guest, also copied and zeroed ones.
    Data,
    /// A refblock of the cache.
    RefBlock,
    /// An L2 table of the cache.
    L2Table,
    /// The header or a field of it, an entry of the L1 table or the reftable, the bytes of a new table, and emptying the storage.
    Other,
}

// The number of changes plus 1, up to the greatest u64.
pub(crate) fn one_more(changes: u64) -> u64
    ensures { IsOneChange true changes result }
{
    changes.saturating_add(1)
}

/// The image's storage. The kind of a write must be set before it. Reads, the size and flushes go to the storage below. A write without a kind is
/// refused 14 (memory), and changes nothing. Everything else is refused as the storage below refuses it: 15 (storage) for a fault, and 14 if memory
/// runs out, which leaves the storage unchanged.
#[derive(Drop)]
pub struct ImageStorage<S: Storage> {
    storage: S,
    kind: WriteKind,
    pub(crate) is_changed: bool,
    changes: u64,
    met_fault: bool,
}

impl<S: Storage> ImageStorage<S> {
    ghost use Rattle.qcow2_alloc.specs.ImageStorage.{storage_of, kind_of, is_changed_of, changes_of, met_fault_of, RecordsFault, RecordsWrite, SameNotes};
    ghost use Rattle.std.specs.Prelude.{true, false};
    ghost use Rattle.qcow2_alloc.specs.declared.error.ImageError.TheVariants.{Storage};

    /// The storage of an image. No write was made yet.
    pub fn new(storage: S) -> Self
        ensures storage { storage_of result ≡ storage }
        ensures unchanged { is_changed_of result ≡ false }
        ensures counts { changes_of result ≡ 0 }
    {
        ImageStorage {
            storage,
            kind: WriteKind::Other,
            is_changed: false,
            changes: 0,
            met_fault: false,
        }
    }

    /// The storage itself.
    pub fn into_inner(self) -> S
        ensures { result ≡ storage_of self }
    {
        let ImageStorage {
            storage,
            kind: _,
            is_changed: _,
            changes: _,
            met_fault: _,
        } = self;
        storage
    }

    /// A reference to the storage itself.
    pub fn inner(&self) -> &S
        ensures { result.now ≡ storage_of self.now }
    {
        &self.storage
    }

    /// Sets the kind of the writes from now on.
    pub fn set_write_kind(&mut self, kind: WriteKind)
        ensures kind { kind_of self.new ≡ kind }
        ensures storage { storage_of self.new ≡ storage_of self.old }
        ensures changed { SameNotes self.old self.new }
        ensures faults { met_fault_of self.new ≡ met_fault_of self.old }
    {
        self.kind = kind;
    }

    /// Begins a call: no change is recorded yet.
    pub fn begin_call(&mut self)
        ensures unchanged { is_changed_of self.new ≡ false }
        ensures changes { changes_of self.new ≡ changes_of self.old }
        ensures storage { storage_of self.new ≡ storage_of self.old }
    {
        self.is_changed = false;
    }

    /// Whether bytes were changed since the last `begin_call`, or may have been.
    pub fn is_changed(&self) -> bool
        ensures { result ≡ is_changed_of self.now }
    {
        self.is_changed
    }

    /// The number of changes that were made in all, or may have been. The counter stops at the greatest u64.
    pub fn changes(&self) -> u64
        ensures { result ≡ changes_of self.now }
    {
        self.changes
    }

    /// Records and counts a change that was made to this storage or to the data file of its image, or may have been. If memory ran out,
    /// there was none. Returns what it is given.
    pub fn record_change(&mut self, done: Result<(), StorageError>) -> Result<(), StorageError>
        ensures answer { result ≡ done }
        ensures storage { storage_of self.new ≡ storage_of self.old }
        ensures changed { RecordsWrite self.old self.new done }
        ensures faults { RecordsFault self.old self.new done }
    {
        if let Err(StorageError::Fault) = &done {
            self.met_fault = true;
        }
        match done {
            Err(StorageError::Memory) => {}
            Ok(()) | Err(StorageError::Fault) => {
                self.is_changed = true;
                self.changes = one_more(self.changes);
            }
        }
        done
    }

    // Begins to watch whether loading or writing a table fails: no failure is recorded yet.
    pub(crate) fn watch_faults(&mut self)
        ensures { self.new ≡ record self.old { met_fault = false } }
    {
        self.met_fault = false;
    }

    // Records that loading a table failed.
    pub(crate) fn record_fault(&mut self)
        ensures { self.new ≡ record self.old { met_fault = true } }
    {
        self.met_fault = true;
    }

    // The refusal to report: a recorded failure comes first.
    pub(crate) fn refusal_to_report(&self, refusal: ImageError) -> ImageError
        ensures met { met_fault_of self.now ≡ true → result ≡ Storage }
        ensures unmet { met_fault_of self.now ≡ false → result ≡ refusal }
    {
        if self.met_fault {
            return ImageError::Storage;
        }
        refusal
    }
}

impl<S: Storage> Storage for ImageStorage<S> {
    ghost use Rattle.std.specs.Prelude.{◌≡◌, length, IfOk, OnOk};
    ghost use Rattle.image_access.specs.Contents.{bytes_at, overwritten, resized, zeroed};
    ghost use Rattle.image_access.specs.Moments.{Calls, Changes, ContentsStay, FlushCall, InvalidateCall, QuietCalls, SyncCall};
    ghost use Rattle.qcow2_alloc.specs.ImageStorage.{storage_of, IsRefusedUntold, SameNotes};

    ghost view = { λ s. S.view s.storage };

    ghost counts_now = { λ s t h le. S.counts_now s.storage t h le };

    ghost only_now = { λ s c had. S.only_now s.storage c had };

    ghost passes = { λ call old new result. S.passes call old.storage new.storage result };

    fn name(&self) -> &str {
        self.storage.name()
    }

    fn size(&mut self) -> Result<u64, StorageError>
        ensures size { (S.view (storage_of self.old)).is_honest → IfOk result (λ size. size ≡ length (S.view (storage_of self.old)).contents) }
        ensures same { ContentsStay (S.view (storage_of self.old)) (S.view (storage_of self.new)) }
        ensures calls { QuietCalls (S.view (storage_of self.old)) (S.view (storage_of self.new)) result }
        ensures unrecorded { SameNotes self.old self.new }
    {
        self.storage.size()
    }

    fn read(&mut self, at: u64, buf: &mut [u8]) -> Result<(), StorageError>
        ensures read { (S.view (storage_of self.old)).is_honest
            → OnOk result (buf.new ≡ bytes_at (S.view (storage_of self.old)).contents at (length buf.old)) }
        ensures same { ContentsStay (S.view (storage_of self.old)) (S.view (storage_of self.new)) }
        ensures calls { QuietCalls (S.view (storage_of self.old)) (S.view (storage_of self.new)) result }
        ensures unrecorded { SameNotes self.old self.new }
    {
        self.storage.read(at, buf)
    }

    // Refused, because the kind of the write is not set.
    fn write(&mut self, at: u64, bytes: &[u8]) -> Result<(), StorageError>
        ensures written { Changes (S.view (storage_of self.old)) (S.view (storage_of self.new)) result (λ b. overwritten b at bytes.now) }
        ensures calls { Calls (S.view (storage_of self.old)) (S.view (storage_of self.new)) result }
        ensures untold { IsRefusedUntold self.old self.new result }
    {
        let untold_write = StorageError::Memory;
        Err(untold_write)
    }

    // Refused, because the kind of the write is not set.
    fn write_zeroes(&mut self, at: u64, length: u64) -> Result<(), StorageError>
        ensures zeroed { Changes (S.view (storage_of self.old)) (S.view (storage_of self.new)) result (λ b. zeroed b at length) }
        ensures calls { Calls (S.view (storage_of self.old)) (S.view (storage_of self.new)) result }
        ensures untold { IsRefusedUntold self.old self.new result }
    {
        let untold_zeros = StorageError::Memory;
        Err(untold_zeros)
    }

    // Refused, because the kind of the write is not set.
    fn write_allocated_zeroes(&mut self, at: u64, length: u64) -> Result<(), StorageError>
        ensures zeroed { Changes (S.view (storage_of self.old)) (S.view (storage_of self.new)) result (λ b. zeroed b at length) }
        ensures calls { Calls (S.view (storage_of self.old)) (S.view (storage_of self.new)) result }
        ensures untold { IsRefusedUntold self.old self.new result }
    {
        let untold_allocated_zeros = StorageError::Memory;
        Err(untold_allocated_zeros)
    }

    // Refused, because the kind of the write is not set.
    fn resize(&mut self, size: u64, preallocate: StoragePreallocate) -> Result<(), StorageError>
        ensures resized { Changes (S.view (storage_of self.old)) (S.view (storage_of self.new)) result (λ b. resized b size) }
        ensures calls { Calls (S.view (storage_of self.old)) (S.view (storage_of self.new)) result }
        ensures untold { IsRefusedUntold self.old self.new result }
    {
        let untold_size = StorageError::Memory;
        Err(untold_size)
    }

    fn flush(&mut self) -> Result<(), StorageError>
        ensures same { ContentsStay (S.view (storage_of self.old)) (S.view (storage_of self.new)) }
        ensures calls { QuietCalls (S.view (storage_of self.old)) (S.view (storage_of self.new)) result }
        ensures passes { S.passes FlushCall (storage_of self.old) (storage_of self.new) result }
        ensures unrecorded { SameNotes self.old self.new }
    {
        self.storage.flush()
    }

    fn sync(&mut self) -> Result<(), StorageError>
        ensures same { ContentsStay (S.view (storage_of self.old)) (S.view (storage_of self.new)) }
        ensures calls { QuietCalls (S.view (storage_of self.old)) (S.view (storage_of self.new)) result }
        ensures passes { S.passes SyncCall (storage_of self.old) (storage_of self.new) result }
        ensures unrecorded { SameNotes self.old self.new }
    {
        self.storage.sync()
    }

    fn invalidate_cache(&mut self) -> Result<(), StorageError>
        ensures same { ContentsStay (S.view (storage_of self.old)) (S.view (storage_of self.new)) }
        ensures calls { QuietCalls (S.view (storage_of self.old)) (S.view (storage_of self.new)) result }
        ensures passes { S.passes InvalidateCall (storage_of self.old) (storage_of self.new) result }
        ensures unrecorded { SameNotes self.old self.new }
    {
        self.storage.invalidate_cache()
    }

    fn req_align(&self) -> usize {
        self.storage.req_align()
    }

    fn mem_align(&self) -> usize {
        self.storage.mem_align()
    }
}

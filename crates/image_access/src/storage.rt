ghost use Rattle.std.specs.Prelude.{◌≡◌, ◌<◌, ◌≤◌, List, ℕ, length, Result, IfOk, OnOk};
ghost use Rattle.image_access.specs.Contents.{bytes_at, resized, overwritten, zeroed};
ghost use Rattle.image_access.specs.Moments.{StorageView, PassingCall, FlushCall, SyncCall, InvalidateCall, ContentsStay, Changes, Calls, QuietCalls};

use crate::StorageError;

/// Bytes that can be read, written and resized. Offsets, lengths and sizes are in bytes. Each write, zeroing and resize takes effect whole or not
/// at all. A call is refused with `StorageError::Fault` only if the storage failed and counted a fault, and with `StorageError::Memory` if memory
/// ran out, which changes nothing. A call of no bytes changes nothing, at any offset.
pub trait Storage: Drop {
    ghost use Rattle.image_access.specs.declared.error.StorageError.{StorageError};

    /// The view of the storage in contracts.
    ghost view: { Self → StorageView };

    /// The present moment is one of those since any earlier one.
    ghost counts_now: { (s : Self) (t : ℕ) → (view s).is_honest → t ≤ (view s).moment → (view s).had_since t (view s).contents };

    /// Since the present moment, there is no other.
    ghost only_now: { (s : Self) (c : List ℕ) → (view s).had_since (view s).moment c → c ≡ (view s).contents };

    /// What `flush`, `sync` and `invalidate_cache` do to a storage of this type, beyond what they do to any storage.
    ghost passes: { PassingCall → Self → Self → Result (Unit {0}) StorageError → Type 0 };

    /// A short name of the kind of storage, such as `mem`.
    fn name(&self) -> &str
        ensures { result.now ≡ (view self.now).name };

    /// The size in bytes.
    fn size(&mut self) -> Result<u64, StorageError>
        ensures size { (view self.old).is_honest → IfOk result (λ size. size ≡ length (view self.old).contents) }
        ensures same { ContentsStay (view self.old) (view self.new) }
        ensures calls { QuietCalls (view self.old) (view self.new) result };

    /// Fills the buffer with the bytes from offset `at` on, with zeros past the end. After a refusal the buffer may hold any bytes.
    fn read(&mut self, at: u64, buf: &mut [u8]) -> Result<(), StorageError>
        ensures read { (view self.old).is_honest → OnOk result (buf.new ≡ bytes_at (view self.old).contents at (length buf.old)) }
        ensures same { ContentsStay (view self.old) (view self.new) }
        ensures calls { QuietCalls (view self.old) (view self.new) result };

    /// Writes bytes at an offset. A write past the end extends the contents, with zeros in between.
    fn write(&mut self, at: u64, bytes: &[u8]) -> Result<(), StorageError>
        ensures written { Changes (view self.old) (view self.new) result (λ b. overwritten b at bytes.now) }
        ensures calls { Calls (view self.old) (view self.new) result };

    /// Writes zeros at an offset, like `write`. The space that they take may be released.
    fn write_zeroes(&mut self, at: u64, length: u64) -> Result<(), StorageError>
        ensures zeroed { Changes (view self.old) (view self.new) result (λ b. zeroed b at length) }
        ensures calls { Calls (view self.old) (view self.new) result };

    /// Writes zeros at an offset, and keeps their space allocated if possible.
    fn write_allocated_zeroes(&mut self, at: u64, length: u64) -> Result<(), StorageError>
        ensures zeroed { Changes (view self.old) (view self.new) result (λ b. zeroed b at length) }
        ensures calls { Calls (view self.old) (view self.new) result };

    /// Cuts the contents to a size, or extends them to it with zeros.
    fn resize(&mut self, size: u64, preallocate: StoragePreallocate) -> Result<(), StorageError>
        ensures resized { Changes (view self.old) (view self.new) result (λ b. resized b size) }
        ensures calls { Calls (view self.old) (view self.new) result };

    /// Hands everything that was written to the operating system, if the storage is a file. The bytes then survive the end of the program; they
    /// survive a power loss only after `sync`.
    fn flush(&mut self) -> Result<(), StorageError>
        ensures same { ContentsStay (view self.old) (view self.new) }
        ensures calls { QuietCalls (view self.old) (view self.new) result }
        ensures passes { passes FlushCall self.old self.new result };

    /// Returns once everything that was written would survive a power loss.
    fn sync(&mut self) -> Result<(), StorageError>
        ensures same { ContentsStay (view self.old) (view self.new) }
        ensures calls { QuietCalls (view self.old) (view self.new) result }
        ensures passes { passes SyncCall self.old self.new result };

    /// Drops cached reads, so that later reads ask the file again.
    fn invalidate_cache(&mut self) -> Result<(), StorageError>
        ensures same { ContentsStay (view self.old) (view self.new) }
        ensures calls { QuietCalls (view self.old) (view self.new) result }
        ensures passes { passes InvalidateCall self.old self.new result };

    /// The alignment of offsets and lengths with which the storage works best, in bytes. Others are accepted too.
    fn req_align(&self) -> usize
        ensures equals { result ≡ (view self.now).req_align }
        ensures positive { 0 < result };

    /// The alignment of buffers with which the storage works best, in bytes. Others are accepted too.
    fn mem_align(&self) -> usize
        ensures equals { result ≡ (view self.now).mem_align }
        ensures positive { 0 < result };
}

/// How a storage allocates the bytes that a resize adds. They are zero in every mode.
#[derive(Clone, Copy, Debug, PartialEq, Eq)]
pub enum StoragePreallocate {
    /// Allocates nothing.
    None,
    /// Makes them zero in the quickest way.
    Zero,
    /// Allocates space, without writing to it.
    Allocate,
    /// Writes zeros to all of them.
    WriteData,
}

/// How an image allocates the bytes that creating or growing it adds.
#[derive(Clone, Copy, Debug, PartialEq, Eq)]
pub enum PreallocateMode {
    /// Allocates nothing, and leaves the added bytes as they are.
    None,
    /// The added bytes are zero.
    Zero,
    /// The added bytes are zero, and the image has clusters for them.
    FormatAllocate,
    /// The added bytes are zero, the image has clusters for them, and the storage has allocated space for these clusters.
    FullAllocate,
    /// The added bytes are zero, the image has clusters for them, and zeros are written to all of these clusters.
    WriteData,
}

/// The format of an image.
#[derive(Clone, Copy, Debug, PartialEq, Eq)]
pub enum Format {
    /// The qcow2 format.
    Qcow2,
    /// A raw disk: the bytes of the disk themselves.
    Raw,
}

ghost use Rattle.std.specs.Prelude.{◌≡◌, OnOk, OnErr, IfOk};
ghost use Rattle.image_access.specs.Changes.{applied};

use crate::call_count::CallCount;
use crate::change::{Change, WrittenBytes};
use crate::memory::{copy_from, overwrite, overwrite_zeroes, set_size};
use crate::{Storage, StorageError, StoragePreallocate};
use std::alloc::{AllocError, Global};
use std::marker::Model;

/// A storage in memory that records its changes. For tests, a chosen call can be refused.
#[derive(Drop)]
pub struct TraceStorage {
    alloc: Global,
    start: Vec<u8>,
    bytes: Vec<u8>,
    changes: Vec<Change>,
    reads: u64,
    calls: CallCount,
}

impl Model for TraceStorage {
    ghost use Rattle.std.specs.Prelude.{◌≡◌};
    ghost use Rattle.image_access.specs.TraceStorage.{Trace};
    ghost use Rattle.image_access.specs.Changes.{replayed};

    ghost Value = { Trace };

    ghost view = { λ t. record { start = t.start.items; changes = t.changes.items; reads = t.reads; calls = t.calls } };

    ghost invariant = { λ t. t.bytes.items ≡ replayed t.start.items t.changes.items };
}

// Makes a change.
fn apply(bytes: &mut Vec<u8>, change: &Change) -> Result<(), AllocError>
    ensures ok { OnOk result (bytes.new.items ≡ applied bytes.old.items change.now) }
    ensures err { OnErr result (bytes.new.items ≡ bytes.old.items) }
{
    match change {
        Change::Write { at, bytes: written } => overwrite(bytes, *at, written.as_slice()),
        Change::Zeroes { at, length } => overwrite_zeroes(bytes, *at, *length),
        Change::Resize { size } => set_size(bytes, *size),
    }
}

impl TraceStorage {
    ghost use Rattle.std.specs.Prelude.{◌≡◌, [], IfOk};
    ghost use Rattle.image_access.specs.CallCount.{uncounted, failing, refusing};
    ghost use Rattle.image_access.specs.Changes.{replayed, up_to_write, write_offsets};
    ghost use Rattle.image_access.specs.TraceStorage.{contents_of, with_change};

    /// A storage with these bytes and no changes yet. Refused if memory runs out.
    pub fn new(alloc: Global, bytes: Vec<u8>) -> Result<Self, AllocError>
        ensures { IfOk result (λ t. t ≡ record { start = bytes.items; changes = []; reads = 0; calls = uncounted }) }
    {
        let start = bytes.to_vec(alloc)?;
        Ok(TraceStorage {
            alloc,
            start,
            bytes,
            changes: Vec::new(alloc),
            reads: 0,
            calls: CallCount::new(),
        })
    }

    /// The contents.
    pub fn as_slice(&self) -> &[u8]
        ensures { result.now ≡ contents_of self.now }
    {
        &self.bytes
    }

    /// The changes, the oldest first. A refused call is not among them; one of no bytes is.
    pub fn changes(&self) -> &[Change]
        ensures { result.now ≡ self.now.changes }
    {
        &self.changes
    }

    /// The offsets of the writes and zeroings in their order, in bytes. Resizes are not among them. Refused if memory runs out.
    pub fn writes(&self, alloc: Global) -> Result<Vec<u64>, AllocError>
        ensures { IfOk result (λ offsets. offsets.items ≡ write_offsets self.now.changes) }
    {
        self.changes
            .iter()
            .filter_map(|change| change.write_offset())
            .collect(alloc)
    }

    /// The contents right after the first `writes` writes and zeroings, with the resizes before the last of them; after all changes, if there were
    /// fewer. Refused if memory runs out.
    pub fn after(&self, alloc: Global, writes: usize) -> Result<Vec<u8>, AllocError>
        ensures { IfOk result (λ bytes. bytes.items ≡ replayed self.now.start (up_to_write writes self.now.changes)) }
    {
        let mut bytes = self.start.to_vec(alloc)?;
        let mut left = writes;
        for change in &self.changes {
            if left == 0 {
                break;
            }
            apply(&mut bytes, change)?;
            if change.write_offset().is_some() {
                left -= 1;
            }
        }
        Ok(bytes)
    }

    /// The number of reads that succeeded. The counter stops at the greatest `u64`.
    pub fn reads(&self) -> u64
        ensures { result ≡ self.now.reads }
    {
        self.reads
    }

    /// The number of calls of the storage, apart from those for its name and alignments. The counter stops at the greatest `u64`.
    pub fn calls(&self) -> u64
        ensures { result ≡ self.now.calls.made }
    {
        self.calls.made()
    }

    /// The number of calls that failed. The counter stops at the greatest `u64`.
    pub fn faults(&self) -> u64
        ensures { result ≡ self.now.calls.faults }
    {
        self.calls.faults()
    }

    /// Makes the n-th call from now on fail without changing anything; 0 makes none fail. Replaces an earlier choice.
    pub fn fail_at(&mut self, n: u64)
        ensures { self.new ≡ record self.old { calls = failing self.old.calls n } }
    {
        self.calls.fail_at(n);
    }

    /// Makes the n-th call from now on run out of memory without changing anything; 0 makes none.
    /// Replaces an earlier choice. A call that is also chosen to fail, fails.
    pub fn refuse_memory_at(&mut self, n: u64)
        ensures { self.new ≡ record self.old { calls = refusing self.old.calls n } }
    {
        self.calls.refuse_memory_at(n);
    }

    // Makes a change and records it.
    #[tactic(auto, using(crate::proofs::Replays::replayed_push))]
    fn keep(&mut self, change: Change) -> Result<(), AllocError>
        ensures ok { OnOk result (self.new ≡ with_change self.old change) }
        ensures err { OnErr result (self.new ≡ self.old) }
    {
        self.changes.reserve(1)?;
        apply(&mut self.bytes, &change)?;
        self.changes.push_reserved(change);
        Ok(())
    }
}

impl Storage for TraceStorage {
    ghost use Rattle.std.specs.Prelude.{◌≡◌, length, IfOk, OnOk};
    ghost use Rattle.image_access.specs.Changes.{counts_all, only_all};
    ghost use Rattle.image_access.specs.Contents.{bytes_at, resized, overwritten, zeroed};
    ghost use Rattle.image_access.specs.Moments.{ContentsStay, Changes, Calls, QuietCalls};
    ghost use Rattle.image_access.specs.TraceStorage.{contents_of, view_of_trace, with_read, Answers, Adds};

    ghost view = { view_of_trace };

    ghost counts_now = { λ m t h le. counts_all m.start m.changes t le };

    ghost only_now = { λ m c had. only_all m.start m.changes c had };

    ghost passes = { λ call old new result. Answers old new result old };

    fn name(&self) -> &str {
        "trace"
    }

    fn size(&mut self) -> Result<u64, StorageError>
        ensures size { IfOk result (λ size. size ≡ length (contents_of self.old)) }
        ensures same { ContentsStay (view_of_trace self.old) (view_of_trace self.new) }
        ensures calls { QuietCalls (view_of_trace self.old) (view_of_trace self.new) result }
        ensures answers { Answers self.old self.new result self.old }
    {
        self.calls.begin()?;
        Ok(self.bytes.len() as u64)
    }

    fn read(&mut self, at: u64, buf: &mut [u8]) -> Result<(), StorageError>
        ensures read { OnOk result (buf.new ≡ bytes_at (contents_of self.old) at (length buf.old)) }
        ensures same { ContentsStay (view_of_trace self.old) (view_of_trace self.new) }
        ensures calls { QuietCalls (view_of_trace self.old) (view_of_trace self.new) result }
        ensures answers { Answers self.old self.new result (with_read self.old) }
    {
        self.calls.begin()?;
        self.reads = self.reads.saturating_add(1);
        copy_from(&self.bytes, at, buf);
        Ok(())
    }

    #[tactic(auto, using(crate::proofs::Replays::replayed_push))]
    fn write(&mut self, at: u64, bytes: &[u8]) -> Result<(), StorageError>
        ensures written { Changes (view_of_trace self.old) (view_of_trace self.new) result (λ b. overwritten b at bytes.now) }
        ensures calls { Calls (view_of_trace self.old) (view_of_trace self.new) result }
        ensures adds { Adds self.old self.new result (Change.Write at bytes.now) }
    {
        self.calls.begin()?;
        let bytes = WrittenBytes::new(bytes.to_vec(self.alloc)?);
        self.keep(Change::Write { at, bytes })?;
        Ok(())
    }

    #[tactic(auto, using(crate::proofs::Replays::replayed_push))]
    fn write_zeroes(&mut self, at: u64, length: u64) -> Result<(), StorageError>
        ensures zeroed { Changes (view_of_trace self.old) (view_of_trace self.new) result (λ b. zeroed b at length) }
        ensures calls { Calls (view_of_trace self.old) (view_of_trace self.new) result }
        ensures adds { Adds self.old self.new result (Change.Zeroes at length) }
    {
        self.calls.begin()?;
        self.keep(Change::Zeroes { at, length })?;
        Ok(())
    }

    fn write_allocated_zeroes(&mut self, at: u64, length: u64) -> Result<(), StorageError>
        ensures zeroed { Changes (view_of_trace self.old) (view_of_trace self.new) result (λ b. zeroed b at length) }
        ensures calls { Calls (view_of_trace self.old) (view_of_trace self.new) result }
        ensures adds { Adds self.old self.new result (Change.Zeroes at length) }
    {
        self.write_zeroes(at, length)
    }

    #[tactic(auto, using(crate::proofs::Replays::replayed_push))]
    fn resize(&mut self, size: u64, _preallocate: StoragePreallocate) -> Result<(), StorageError>
        ensures resized { Changes (view_of_trace self.old) (view_of_trace self.new) result (λ b. resized b size) }
        ensures calls { Calls (view_of_trace self.old) (view_of_trace self.new) result }
        ensures adds { Adds self.old self.new result (Change.Resize size) }
    {
        self.calls.begin()?;
        self.keep(Change::Resize { size })?;
        Ok(())
    }

    fn flush(&mut self) -> Result<(), StorageError>
        ensures same { ContentsStay (view_of_trace self.old) (view_of_trace self.new) }
        ensures calls { QuietCalls (view_of_trace self.old) (view_of_trace self.new) result }
        ensures passes { Answers self.old self.new result self.old }
    {
        self.calls.begin()
    }

    fn sync(&mut self) -> Result<(), StorageError>
        ensures same { ContentsStay (view_of_trace self.old) (view_of_trace self.new) }
        ensures calls { QuietCalls (view_of_trace self.old) (view_of_trace self.new) result }
        ensures passes { Answers self.old self.new result self.old }
    {
        self.flush()
    }

    fn invalidate_cache(&mut self) -> Result<(), StorageError>
        ensures same { ContentsStay (view_of_trace self.old) (view_of_trace self.new) }
        ensures calls { QuietCalls (view_of_trace self.old) (view_of_trace self.new) result }
        ensures passes { Answers self.old self.new result self.old }
    {
        self.flush()
    }

    fn req_align(&self) -> usize {
        1
    }

    fn mem_align(&self) -> usize {
        1
    }
}

//! Preallocation: zeros are put past the end of a disk before its size grows.
ghost use Rattle.qcow2_image.specs.SoundParts.{FillsPart};
ghost use Rattle.qcow2_image.specs.ImageSteps.{FailsUnlimited, ImageFails, ImageStep};
ghost use Rattle.std.specs.Prelude.{ℕ, List, Option, ◌≡◌, ◌%◌, ◌^◌, ◌<◌, ◌≤◌, Err, IfOk, IfErr, IsTrue, OnOk, max};
ghost use Rattle.std.specs.Prelude.{replicate, slice_get, slice_set, None, Ok, Some};
ghost use Rattle.qcow2_alloc.specs.ImageFile.{known_in};
ghost use Rattle.qcow2_image.specs.Backings.{HasPinnedMapping};
ghost use Rattle.qcow2_alloc.specs.ImageError.{IsFault};
ghost use Rattle.qcow2_image.specs.MayFail.{HasCompressedIn, HasNearEntries, MayFailGrowing, MayFailAllocating};
ghost use Rattle.image_access.specs.declared.storage.PreallocateMode.TheVariants.{None as PreallocateNone, Zero};
ghost use Rattle.qcow2_metadata.specs.Header.{cluster_size, rounded_up as rounded_up_to};
ghost use Rattle.image_access.specs.Contents.{zeroed};
ghost use Rattle.image_access.specs.Moments.{Calls, Changes};
ghost use Rattle.qcow2_alloc.specs.ImageStorage.{storage_of, RecordsWrite};
ghost use Rattle.qcow2_alloc.specs.WriteKinds.{HasDataKind};
ghost use Rattle.qcow2_alloc.specs.declared.error.ImageError.TheVariants.{Version};
ghost use Rattle.qcow2_image.specs.declared.prepared.Prepared.{Prepared};
ghost use Rattle.qcow2_image.specs.CallParts.{WritesData, WritesOwnData};
ghost use Rattle.qcow2_image.specs.Image.{HasNothingToFree, is_writable, size_of};
ghost use Rattle.qcow2_image.specs.ImageInvariant.{ImageInvariant, pending_in, Mappings, set_slot};
ghost use Rattle.qcow2_image.specs.Preallocation.{AreZeros, CommitsWhole, FillsFirst, FillsGrownOrRefuses};
ghost use Rattle.qcow2_image.specs.Preallocation.{FillsOrRefuses, IsWholeRange, WritesZeros, most_of};
ghost use Rattle.qcow2_image.specs.Refusals.{FreesRefused, MayFailOn, MayFailPreparing, MayFailToGrow};
ghost use Rattle.qcow2_image.specs.Faults.{IsNotOfStorage, SameFaults};

use crate::discarding::{ClearMode, rounded_up};
use crate::{Prepared, Qcow2};
use image_access::{PreallocateMode, Storage, StorageError, WrappedFormat};
use qcow2_alloc::{ImageError, ImageStorage, WriteKind};
use std::alloc::Global;

// How many zeros are written at once as bytes: as many as the largest cluster has.
const PIECE: usize = 2097152;

// How zeros are written into clusters.
#[derive(Drop)]
pub(crate) enum ZeroWrites {
    // By a zeroing of the storage, which may release the space.
    Short,
    // By a zeroing of the storage, which keeps the space allocated if possible.
    Taken,
    // As bytes, from a buffer of zeros.
    Plain(Vec<u8>),
}

#[tactic(auto, using(crate::proofs::Call::FailingErrors::tables_met, crate::proofs::Call::FailingErrors::fault_met, crate::proofs::Call::FailingErrors::storage_met))]
impl ZeroWrites {
    // A buffer of zeros.
    fn plain(alloc: Global, count: usize) -> Result<Self, ImageError>
        ensures most { IfOk result (λ writes. most_of writes ≡ count) }
        ensures zeros { IfOk result AreZeros }
        ensures fault { IfErr result IsFault }
        ensures faults { IfErr result IsNotOfStorage }
    {
        let zeros = vec![in alloc; 0; count]?;
        Ok(ZeroWrites::Plain(zeros))
    }

    // The greatest number of zeros that is written at once.
    fn most(&self) -> u64
        ensures { result ≡ most_of self.now }
    {
        match self {
            ZeroWrites::Short | ZeroWrites::Taken => u64::MAX,
            ZeroWrites::Plain(zeros) => zeros.len() as u64,
        }
    }

    // Writes zeros to a storage.
    fn write<S: Storage>(
        &self,
        storage: &mut ImageStorage<S>,
        at: u64,
        count: u64,
    ) -> Result<(), StorageError>
        requires zeros { WritesZeros count self.now }
        requires told { HasDataKind storage.old }
        ensures written { Changes (S.view (storage_of storage.old)) (S.view (storage_of storage.new)) result
            (λ b. zeroed b at count) }
        ensures calls { Calls (S.view (storage_of storage.old)) (S.view (storage_of storage.new)) result }
        ensures recorded { RecordsWrite storage.old storage.new result }
    {
        match self {
            ZeroWrites::Short => storage.write_zero_data(at, count),
            ZeroWrites::Taken => storage.write_allocated_zero_data(at, count),
            ZeroWrites::Plain(zeros) => storage.write_data(at, &zeros[..count as usize]),
        }
    }

    // Writes zeros to a data file.
    fn write_beside<S: Storage>(
        &self,
        file: &mut S,
        at: u64,
        count: u64,
    ) -> Result<(), StorageError>
        requires { WritesZeros count self.now }
        ensures written { Changes (S.view file.old) (S.view file.new) result (λ b. zeroed b at count) }
        ensures calls { Calls (S.view file.old) (S.view file.new) result }
    {
        match self {
            ZeroWrites::Short => file.write_zeroes(at, count),
            ZeroWrites::Taken => file.write_allocated_zeroes(at, count),
            ZeroWrites::Plain(zeros) => file.write(at, &zeros[..count as usize]),
        }
    }
}

#[tactic(auto, using(crate::proofs::Call::FailingErrors::tables_met, crate::proofs::Call::FailingErrors::fault_met, crate::proofs::Call::FailingErrors::storage_met))]
impl<S: Storage, F: WrappedFormat<S>> Qcow2<S, F> {
    // Puts zeros past the end of a disk that will grow, up to the end of its last cluster, as a mode says. After
    // a refusal, the clusters on the list are freed, except after a fault and after 9.
    pub(crate) fn fill_grown(
        &mut self,
        old: u64,
        size: u64,
        mode: PreallocateMode,
    ) -> Result<(), ImageError>
        requires writable { IsTrue (is_writable self.old) }
        requires end { old ≡ size_of self.old }
        requires larger { old < size }
        ensures step { ImageStep S.view self.old self.new }
        ensures fails { ImageFails S.view F.backing self.old self.new result (MayFailToGrow self.new mode) }
        ensures sound { (out : Mappings)
            → ImageInvariant S.view F.backing (pending_in S.view F.backing self.old out) self.old out
            → FillsPart (FillsGrownOrRefuses S.view F.backing size mode self.old self.new out result)
            (HasNearEntries (rounded_up_to (cluster_size self.old.file.header.fields) size) self.old.file.header.fields
            → IfErr result (MayFailGrowing out mode old
            (rounded_up_to (cluster_size self.old.file.header.fields) size) self.old.file.header.fields
            (known_in S.view self.old.file))) }
        ensures emptied { HasNothingToFree self.old → OnOk result (HasNothingToFree self.new) }
        ensures unfilled { mode ≡ PreallocateNone → (result ≡ Ok tt) × (self.new ≡ self.old) }
        ensures version { HasNothingToFree self.old → mode ≡ Zero → self.old.file.header.fields.version < 3
            → (result ≡ Err Version) × (self.new ≡ self.old) }
        ensures freed { (out : Mappings)
            → ImageInvariant S.view F.backing (pending_in S.view F.backing self.old out) self.old out
            → IfErr result (FreesRefused self.new) }
    {
        match self.fill_behind(old, size, mode) {
            Ok(()) => Ok(()),
            Err(refusal) => Err(self.process_free_list_after(refusal)),
        }
    }

    // Puts zeros past the end of a disk that will grow, up to the end of its last cluster, as a mode says.
    fn fill_behind(&mut self, old: u64, size: u64, mode: PreallocateMode) -> Result<(), ImageError>
        requires writable { IsTrue (is_writable self.old) }
        requires end { old ≡ size_of self.old }
        requires larger { old < size }
        ensures step { ImageStep S.view self.old self.new }
        ensures fails { ImageFails S.view F.backing self.old self.new result (MayFailToGrow self.new mode) }
        ensures sound { (out : Mappings)
            → ImageInvariant S.view F.backing (pending_in S.view F.backing self.old out) self.old out
            → FillsPart (FillsGrownOrRefuses S.view F.backing size mode self.old self.new out result)
            (HasNearEntries (rounded_up_to (cluster_size self.old.file.header.fields) size) self.old.file.header.fields
            → IfErr result (MayFailGrowing out mode old
            (rounded_up_to (cluster_size self.old.file.header.fields) size) self.old.file.header.fields
            (known_in S.view self.old.file))) }
        ensures emptied { HasNothingToFree self.old → OnOk result (HasNothingToFree self.new) }
        ensures unfilled { mode ≡ PreallocateNone → (result ≡ Ok tt) × (self.new ≡ self.old) }
        ensures version { mode ≡ Zero → self.old.file.header.fields.version < 3 → (result ≡ Err Version)
            × (self.new ≡ self.old) }
    {
        match mode {
            PreallocateMode::None => Ok(()),
            PreallocateMode::Zero => self.zero_grown(old, size),
            PreallocateMode::FormatAllocate => self.allocate_grown(old, size, &ZeroWrites::Short),
            PreallocateMode::FullAllocate => self.allocate_grown(old, size, &ZeroWrites::Taken),
            PreallocateMode::WriteData => {
                let writes = ZeroWrites::plain(self.file.alloc, PIECE)?;
                self.allocate_grown(old, size, &writes)
            }
        }
    }

    // Resizes a data file that has data at their guest offsets, and puts zeros past the end, in clusters of their own.
    fn allocate_grown(&mut self, old: u64, size: u64, writes: &ZeroWrites) -> Result<(), ImageError>
        requires writable { IsTrue (is_writable self.old) }
        requires zeros { WritesZeros (2 ^ 21) writes.now }
        ensures step { ImageStep S.view self.old self.new }
        ensures fails { ImageFails S.view F.backing self.old self.new result (MayFailPreparing self.new) }
        ensures sound { (out : Mappings)
            → ImageInvariant S.view F.backing (pending_in S.view F.backing self.old out) self.old out → old ≤ size
            → FillsPart (FillsOrRefuses S.view F.backing
            (rounded_up_to (cluster_size self.old.file.header.fields) size) old
            (rounded_up_to (cluster_size self.old.file.header.fields) size) self.old self.new out result)
            (HasNearEntries (rounded_up_to (cluster_size self.old.file.header.fields) size) self.old.file.header.fields
            → IfErr result (MayFailAllocating (HasPinnedMapping out) (HasPinnedMapping out)
            (HasCompressedIn old (rounded_up_to
            (cluster_size self.old.file.header.fields) size) self.old.file.header.fields
            (known_in S.view self.old.file)) ⊥)) }
        ensures emptied { HasNothingToFree self.old → OnOk result (HasNothingToFree self.new) }
    {
        self.resize_placed_data(size)?;
        self.fill_new_clusters(old, size, writes)
    }

    // Puts zeros past the end, in clusters of their own.
    fn fill_new_clusters(
        &mut self,
        old: u64,
        size: u64,
        writes: &ZeroWrites,
    ) -> Result<(), ImageError>
        requires writable { IsTrue (is_writable self.old) }
        requires zeros { WritesZeros (2 ^ 21) writes.now }
        ensures step { ImageStep S.view self.old self.new }
        ensures fails { ImageFails S.view F.backing self.old self.new result (MayFailPreparing self.new) }
        ensures sound { (out : Mappings)
            → ImageInvariant S.view F.backing (pending_in S.view F.backing self.old out) self.old out → old ≤ size
            → FillsPart (FillsOrRefuses S.view F.backing
            (rounded_up_to (cluster_size self.old.file.header.fields) size) old
            (rounded_up_to (cluster_size self.old.file.header.fields) size) self.old self.new out result)
            (HasNearEntries (rounded_up_to (cluster_size self.old.file.header.fields) size) self.old.file.header.fields
            → IfErr result (MayFailAllocating (HasPinnedMapping out) (HasPinnedMapping out)
            (HasCompressedIn old (rounded_up_to
            (cluster_size self.old.file.header.fields) size) self.old.file.header.fields
            (known_in S.view self.old.file)) ⊥)) }
        ensures emptied { HasNothingToFree self.old → OnOk result (HasNothingToFree self.new) }
    {
        let Some(end) = rounded_up(size, self.file.header.cluster_size()) else {
            return Err(ImageError::Overflow);
        };
        self.fill_range(old, end, writes)
    }

    // Makes the whole clusters past the end zero clusters, and writes zeros to the rest of the cluster before them.
    fn zero_grown(&mut self, old: u64, size: u64) -> Result<(), ImageError>
        requires writable { IsTrue (is_writable self.old) }
        ensures step { ImageStep S.view self.old self.new }
        ensures fails { ImageFails S.view F.backing self.old self.new result (MayFailToGrow self.new Zero) }
        ensures sound { (out : Mappings)
            → ImageInvariant S.view F.backing (pending_in S.view F.backing self.old out) self.old out → old ≤ size
            → FillsPart (FillsOrRefuses S.view F.backing
            (rounded_up_to (cluster_size self.old.file.header.fields) old) old
            (rounded_up_to (cluster_size self.old.file.header.fields) size) self.old self.new out result)
            (3 ≤ self.old.file.header.fields.version
            → HasNearEntries (rounded_up_to (cluster_size self.old.file.header.fields) size) self.old.file.header.fields
            → IfErr result (MayFailAllocating (HasPinnedMapping out) (HasPinnedMapping out)
            (HasCompressedIn old (rounded_up_to
            (cluster_size self.old.file.header.fields) old) self.old.file.header.fields
            (known_in S.view self.old.file)) ⊥)) }
        ensures emptied { HasNothingToFree self.old → OnOk result (HasNothingToFree self.new) }
        ensures version { self.old.file.header.fields.version < 3 → (result ≡ Err Version) × (self.new ≡ self.old) }
    {
        if self.file.header.version() < 3 {
            return Err(ImageError::Version);
        }
        let cluster_size = self.file.header.cluster_size();
        let Some(from) = rounded_up(old, cluster_size) else {
            return Err(ImageError::Overflow);
        };
        let Some(end) = rounded_up(size, cluster_size) else {
            return Err(ImageError::Overflow);
        };
        self.zero_between(old, from, end)
    }

    // Makes the clusters of a range zero clusters, and writes zeros to the cluster before them from an offset on.
    fn zero_between(&mut self, old: u64, from: u64, end: u64) -> Result<(), ImageError>
        requires writable { IsTrue (is_writable self.old) }
        ensures step { ImageStep S.view self.old self.new }
        ensures fails { ImageFails S.view F.backing self.old self.new result (MayFailPreparing self.new) }
        ensures sound { (out : Mappings)
            → ImageInvariant S.view F.backing (pending_in S.view F.backing self.old out) self.old out → old ≤ from
            → from ≤ end → IsWholeRange self.old.file.header.fields from end → 3 ≤ self.old.file.header.fields.version
            → FillsPart (FillsOrRefuses S.view F.backing from old end self.old self.new out result)
            (HasNearEntries end self.old.file.header.fields
            → IfErr result (MayFailAllocating (HasPinnedMapping out) (HasPinnedMapping out)
            (HasCompressedIn old from self.old.file.header.fields (known_in S.view self.old.file)) ⊥)) }
        ensures emptied { HasNothingToFree self.old → OnOk result (HasNothingToFree self.new) }
    {
        let next = self.zero_first(from, end)?;
        self.fill_range(old, from, &ZeroWrites::Short)?;
        self.zero_range(next, end)
    }

    // Makes whole clusters zero clusters, table by table.
    fn zero_range(&mut self, from: u64, to: u64) -> Result<(), ImageError>
        requires writable { IsTrue (is_writable self.old) }
        ensures step { ImageStep S.view self.old self.new }
        ensures fails { ImageFails S.view F.backing self.old self.new result (MayFailPreparing self.new) }
        ensures sound { (out : Mappings)
            → ImageInvariant S.view F.backing (pending_in S.view F.backing self.old out) self.old out → from ≤ to
            → IsWholeRange self.old.file.header.fields from to → 3 ≤ self.old.file.header.fields.version
            → FillsPart (FillsOrRefuses S.view F.backing 0 from to self.old self.new out result)
            (HasNearEntries to self.old.file.header.fields
            → IfErr result (MayFailAllocating (HasPinnedMapping out) (HasPinnedMapping out) ⊥ ⊥)) }
        ensures emptied { HasNothingToFree self.old → OnOk result (HasNothingToFree self.new) }
    {
        let mut at = from;
        while at < to {
            at = self.zero_first(at, to)?;
        }
        Ok(())
    }

    // Makes the clusters of a range that its first L2 table covers zero clusters. Returns where they end.
    fn zero_first(&mut self, from: u64, to: u64) -> Result<u64, ImageError>
        requires writable { IsTrue (is_writable self.old) }
        ensures step { ImageStep S.view self.old self.new }
        ensures fails { ImageFails S.view F.backing self.old self.new result (MayFailPreparing self.new) }
        ensures sound { (out : Mappings)
            → ImageInvariant S.view F.backing (pending_in S.view F.backing self.old out) self.old out → from ≤ to
            → IsWholeRange self.old.file.header.fields from to → 3 ≤ self.old.file.header.fields.version
            → FillsPart (FillsFirst S.view F.backing 0 from to self.old self.new out result)
            (HasNearEntries to self.old.file.header.fields
            → IfErr result (MayFailAllocating (HasPinnedMapping out) (HasPinnedMapping out) ⊥ ⊥)) }
        ensures emptied { HasNothingToFree self.old → OnOk result (HasNothingToFree self.new) }
        ensures next { IfOk result (λ next. (from ≤ next) × (from < to → from < next) × (next ≤ max from to)) }
        ensures whole { (out : Mappings)
            → ImageInvariant S.view F.backing (pending_in S.view F.backing self.old out) self.old out
            → IsWholeRange self.old.file.header.fields from to
            → IfOk result (λ next. next % cluster_size self.old.file.header.fields ≡ 0) }
    {
        if to <= from {
            return Ok(from);
        }
        let next = to.min(from.saturating_add(self.rest_of_table(from)));
        self.clear_between(from, next, ClearMode::KeptZeros)?;
        self.process_free_list()?;
        Ok(next)
    }

    // Writes zeros to a range, which has clusters of its own then.
    fn fill_range(&mut self, from: u64, to: u64, writes: &ZeroWrites) -> Result<(), ImageError>
        requires writable { IsTrue (is_writable self.old) }
        requires zeros { WritesZeros (2 ^ 21) writes.now }
        ensures step { ImageStep S.view self.old self.new }
        ensures fails { ImageFails S.view F.backing self.old self.new result (MayFailPreparing self.new) }
        ensures sound { (out : Mappings)
            → ImageInvariant S.view F.backing (pending_in S.view F.backing self.old out) self.old out → from ≤ to
            → to % cluster_size self.old.file.header.fields ≡ 0
            → FillsPart (FillsOrRefuses S.view F.backing to from to self.old self.new out result)
            (HasNearEntries to self.old.file.header.fields
            → IfErr result (MayFailAllocating (HasPinnedMapping out) (HasPinnedMapping out)
            (HasCompressedIn from to self.old.file.header.fields (known_in S.view self.old.file)) ⊥)) }
        ensures emptied { HasNothingToFree self.old → OnOk result (HasNothingToFree self.new) }
    {
        let mut at = from;
        while at < to {
            at = self.fill_first(at, to, writes)?;
        }
        Ok(())
    }

    // Writes zeros to the first bytes of a range, in a prepared mapping. Returns where they end.
    fn fill_first(&mut self, from: u64, to: u64, writes: &ZeroWrites) -> Result<u64, ImageError>
        requires writable { IsTrue (is_writable self.old) }
        requires zeros { WritesZeros (2 ^ 21) writes.now }
        requires some { from < to }
        ensures step { ImageStep S.view self.old self.new }
        ensures fails { ImageFails S.view F.backing self.old self.new result (MayFailPreparing self.new) }
        ensures sound { (out : Mappings)
            → ImageInvariant S.view F.backing (pending_in S.view F.backing self.old out) self.old out
            → FillsPart (to % cluster_size self.old.file.header.fields ≡ 0
            → FillsFirst S.view F.backing to from to self.old self.new out result)
            (to % cluster_size self.old.file.header.fields ≡ 0 → HasNearEntries to self.old.file.header.fields
            → IfErr result (MayFailAllocating (HasPinnedMapping out) (HasPinnedMapping out)
            (HasCompressedIn from to self.old.file.header.fields (known_in S.view self.old.file)) ⊥)) }
        ensures emptied { HasNothingToFree self.old → OnOk result (HasNothingToFree self.new) }
        ensures next { IfOk result (λ next. (from < next) × (next ≤ to)) }
    {
        let prepared = self.prepare(from, writes.most().min(to - from), true)?;
        let next = to.min(from.saturating_add(prepared.length));
        let count = prepared.length.min(writes.most());
        if let Err(refusal) = self.put_zeros(prepared.offset, count, writes) {
            self.release_prepared(prepared);
            return Err(self.process_free_list_after(refusal));
        }
        self.commit_filled(prepared);
        self.process_free_list()?;
        Ok(next)
    }

    // Writes zeros into a mapping, to the data file if there is one. In the image's own file a place in the header's cluster, which no mapping
    // has, is refused 19 (metadata).
    fn put_zeros(&mut self, host: u64, count: u64, writes: &ZeroWrites) -> Result<(), ImageError>
        requires { WritesZeros count writes.now }
        ensures step { ImageStep S.view self.old self.new }
        ensures fails { FailsUnlimited S.view F.backing self.old self.new result (MayFailOn self.new) }
        ensures puts { WritesData S.view self.old self.new host (replicate count 0)
            (λ b. zeroed b host count) result }
    {
        match &mut self.data_file {
            Some(file) => {
                let done = writes.write_beside(file, host, count);
                self.record_data_write(done)
            }
            None => self.put_own_zeros(host, count, writes),
        }
    }

    // Writes zeros into a mapping in the image's own file. A place in the header's cluster, which no mapping has, is refused 19 (metadata).
    fn put_own_zeros(
        &mut self,
        host: u64,
        count: u64,
        writes: &ZeroWrites,
    ) -> Result<(), ImageError>
        requires { WritesZeros count writes.now }
        ensures step { ImageStep S.view self.old self.new }
        ensures fails { FailsUnlimited S.view F.backing self.old self.new result (MayFailOn self.new) }
        ensures puts { WritesOwnData S.view self.old self.new host (replicate count 0) result }
    {
        if host < self.file.header.cluster_size() {
            return Err(ImageError::Metadata);
        }
        self.file.storage.set_write_kind(WriteKind::Data);
        writes.write(&mut self.file.storage, host, count)?;
        Ok(())
    }

    // Commits a mapping after zeros were written into it. The clusters that it replaces wait to be freed.
    fn commit_filled(&mut self, mut prepared: Prepared)
        ensures step { ImageStep S.view self.old self.new }
        ensures header { self.new.file.header ≡ self.old.file.header }
        ensures table { self.new.l1_table ≡ self.old.l1_table }
        ensures commits { (out : Mappings) (k : ℕ) → slice_get out.slots k ≡ Some (Some prepared)
            → ImageInvariant S.view F.backing (pending_in S.view F.backing self.old out) self.old out
            → CommitsWhole S.view F.backing self.old self.new out k prepared (set_slot out k None) }
        ensures faults { SameFaults S.view F.backing self.old self.new }
    {
        if prepared.table.is_none() {
            self.release_prepared(prepared);
            return;
        }
        let _entered = self.enter_mappings(&mut prepared);
        self.release_prepared(prepared);
    }
}

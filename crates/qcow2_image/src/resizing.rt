//! Resizing the disk. Clusters past a smaller end are discarded first, and the size is written last.
ghost use Rattle.qcow2_image.specs.DataFiles.{DataFileStep};
ghost use Rattle.qcow2_image.specs.SoundParts.{GrowsSoundly};
ghost use Rattle.qcow2_image.specs.SizeSteps.{GrowsOrRefuses, LengthensTable};
ghost use Rattle.qcow2_image.specs.Faults.{IsNotOfStorage};
ghost use Rattle.qcow2_image.specs.ImageSteps.{CallStep, ImageFails, ImageStep, MarkedStep};
ghost use Rattle.qcow2_image.specs.Noted.{RecordsChanges};
ghost use Rattle.qcow2_image.specs.BehindHeader.{PreservesHeaderCluster};
ghost use Rattle.qcow2_alloc.specs.KeptMarks.{HaveRisen, KeepsFileNotes};
ghost use Rattle.std.specs.Prelude.{List, Option, ◌≡◌, ◌⊎◌, ◌-◌, ◌<◌, ◌≤◌};
ghost use Rattle.std.specs.Prelude.{[], Some, None, Ok, Err, IfErr, IfSome, OnOk, OnErr, IsTrue, MatchOption, false, ◌∷◌};
ghost use Rattle.image_access.specs.Moments.{IsLeftBy, EachMomentSince};
ghost use Rattle.qcow2_metadata.specs.Header.{with_fields, with_size};
ghost use Rattle.qcow2_laws.specs.CrashInvariant.{Pending};
ghost use Rattle.qcow2_alloc.specs.declared.error.ImageError.TheVariants.{MappingPrepared, Preallocation};
ghost use Rattle.qcow2_alloc.specs.ImageError.{IsFault};
ghost use Rattle.qcow2_alloc.specs.ImageFile.{view_in};
ghost use Rattle.qcow2_alloc.specs.ImageStorage.{is_changed_of};
ghost use Rattle.qcow2_image.specs.Backings.{HasPinnedMapping};
ghost use Rattle.qcow2_image.specs.Resizing.{RefusesPinned, ShrinksSoundly, TailStep, TurnStep, DiscardsSoundly, DiscardsStep};
ghost use Rattle.qcow2_image.specs.declared.prepared.Prepared.{Prepared};
ghost use Rattle.qcow2_image.specs.Growing.{LastsCall};
ghost use Rattle.qcow2_image.specs.Image.{HasNothingToFree, IsSameImage, has_noted_change, is_failed, is_writable};
ghost use Rattle.qcow2_image.specs.Image.{size_of, with_marks};
ghost use Rattle.qcow2_image.specs.ImageInvariant.{ImageInvariant, abstract_of, pending_in, Mappings};
ghost use Rattle.qcow2_image.specs.Refusals.{MarksFailed, MayFailOn, MayFailToGrow};
ghost use Rattle.qcow2_image.specs.Refusals.{MarksRefused, MayFailOn};
ghost use Rattle.qcow2_image.specs.Resizing.{GrowsTo, MayFailShrinking, IsResized, Shrinks, WritesSize};
ghost use Rattle.qcow2_image.specs.Resizing.{refuses_to_resize, size_after};
ghost use Rattle.qcow2_image.specs.Resizing.{takes_over};

use crate::Qcow2;
use crate::discarding::ClearMode;
use image_access::{PreallocateMode, Storage, WrappedFormat};
use qcow2_alloc::{ImageError, WriteKind};
use qcow2_metadata::{GuestOffset, MAX_L1_ENTRIES};

// Whether a mode gives the new range clusters of its own.
fn allocates(mode: PreallocateMode) -> bool {
    match mode {
        PreallocateMode::None | PreallocateMode::Zero => false,
        PreallocateMode::FormatAllocate
        | PreallocateMode::FullAllocate
        | PreallocateMode::WriteData => true,
    }
}

impl<S: Storage, F: WrappedFormat<S>> Qcow2<S, F> {
    /// Shrinks the disk, and discards the whole clusters past its new end, so that the backing disk shows there if the disk grows again.
    /// Returns the offset up to which that was done. It is less than the old size only if discarding the next cluster was refused. A
    /// size that isn't smaller changes nothing, and returns the old one. If a whole cluster lay past the new end, no cluster waits to be
    /// freed then. The discarded clusters are unmapped, even if they were zero clusters.
    /// Refused in this order: 16 (failed), 12 (dependency), 1 (read-only); for a smaller size also 17 (mapping prepared) while a mapping
    /// is prepared that isn't existing. May be refused 14 (memory) or 15 (storage) during the work.
    pub fn resize_shrink(&mut self, size: u64) -> Result<u64, ImageError>
        ensures step { MarkedStep S.view F.backing self.old self.new result }
        ensures early { IfSome (refuses_to_resize self.old) (λ e. (result ≡ Err e) × (self.new ≡ self.old)) }
        ensures no_smaller { refuses_to_resize self.old ≡ None → size_of self.old ≤ size
            → (result ≡ Ok (size_of self.old)) × (self.new ≡ self.old) }
        ensures prepared { refuses_to_resize self.old ≡ None → size < size_of self.old
            → RefusesPinned S.view F.backing self.old self.new result }
        ensures late { refuses_to_resize self.old ≡ None
            → IfErr result (MayFailShrinking S.view F.backing self.old self.new) }
        ensures image { size < size_of self.old
            → IsResized (size_after result (size_of self.old) size) self.old self.new }
        ensures sees { Shrinks S.view F.backing self.old self.new size result }
        ensures sound { (out : Mappings) → (abstract_of S.view F.backing self.old out).is_sound
            → ShrinksSoundly S.view F.backing size self.old self.new out result }
    {
        self.check_resize()?;
        if self.file.header.size() <= size {
            return Ok(self.file.header.size());
        }
        if self.file.caches.first_pinned_l2().is_some() {
            return Err(ImageError::MappingPrepared);
        }
        self.shrink(size)
    }

    // The checks of every resize.
    fn check_resize(&self) -> Result<(), ImageError>
        ensures { MatchOption (refuses_to_resize self.now) (result ≡ Ok tt) (λ e. result ≡ Err e) }
    {
        self.check_usable()?;
        if !self.writable() {
            return Err(ImageError::ReadOnly);
        }
        Ok(())
    }

    // Shrinks the disk: unmaps the tail, and then writes the size.
    fn shrink(&mut self, size: u64) -> Result<u64, ImageError>
        requires usable { is_failed self.old ≡ false }
        requires smaller { size < size_of self.old }
        ensures step { MarkedStep S.view F.backing self.old self.new result }
        ensures cause { IfErr result IsFault }
        ensures image { IsResized (size_after result (size_of self.old) size) self.old self.new }
        ensures sees { Shrinks S.view F.backing self.old self.new size result }
        ensures sound { refuses_to_resize self.old ≡ None → (out : Mappings)
            → (abstract_of S.view F.backing self.old out).is_sound → (HasPinnedMapping out → ⊥)
            → ShrinksSoundly S.view F.backing size self.old self.new out result }
    {
        let before = self.file.changes();
        let (end, stopped) = self.discard_tail(size);
        if let Some(refusal) = stopped {
            self.mark_refused(&refusal, before);
            return Err(refusal);
        }
        if let Err(refusal) = self.write_size(size) {
            self.mark_refused(&refusal, before);
            return Err(refusal);
        }
        Ok(end)
    }

    // Unmaps the whole clusters past a size, step by step, after a data file that has data at their guest offsets was resized. Returns where
    // it ended, and the refusal if that ends the call. Any other refusal only ends the steps.
    fn discard_tail(&mut self, size: u64) -> (u64, Option<ImageError>)
        requires usable { is_failed self.old ≡ false }
        requires smaller { size < size_of self.old }
        ensures step { TailStep S.view F.backing result.1 self.old self.new }
        ensures sound { (out : Mappings)
            → ImageInvariant S.view F.backing (pending_in S.view F.backing self.old out) self.old out
            → DiscardsSoundly S.view F.backing size result.0 result.1 self.old self.new out }
    {
        if self.is_placed_by_guest() {
            return self.discard_tail_beside(size);
        }
        self.unmap_tail(size)
    }

    // Resizes the data file, and unmaps the whole clusters past a size.
    fn discard_tail_beside(&mut self, size: u64) -> (u64, Option<ImageError>)
        requires usable { is_failed self.old ≡ false }
        requires smaller { size < size_of self.old }
        ensures step { TailStep S.view F.backing result.1 self.old self.new }
    {
        if let Err(refusal) = self.shrink_data_file(size) {
            return (self.file.header.size(), Some(refusal));
        }
        self.unmap_tail(size)
    }

    // Resizes the data file, as a call of its own.
    fn shrink_data_file(&mut self, size: u64) -> Result<(), ImageError>
        ensures step { CallStep S.view F.backing self.old self.new result }
        ensures cause { IfErr result IsFault }
        ensures since { RecordsChanges S.view self.old self.new }
    {
        self.begin_call();
        let resized = self.resize_data_file(size);
        self.mark_failure(resized)
    }

    // Unmaps the whole clusters past a size, step by step. Returns where it ended, and the refusal if that ends the call. Any other refusal only
    // ends the steps.
    fn unmap_tail(&mut self, size: u64) -> (u64, Option<ImageError>)
        requires usable { is_failed self.old ≡ false }
        requires smaller { size < size_of self.old }
        ensures step { TailStep S.view F.backing result.1 self.old self.new }
        ensures sound { (out : Mappings)
            → ImageInvariant S.view F.backing (pending_in S.view F.backing self.old out) self.old out
            → DiscardsSoundly S.view F.backing size result.0 result.1 self.old self.new out }
    {
        self.begin_call();
        let end = self.file.header.size();
        let mut at = size;
        while at < end {
            match self.discard_in_table(at) {
                Ok(next) => at = next,
                Err(refusal) => {
                    if refusal.is_fault() {
                        return (at, Some(refusal));
                    }
                    return (at, None);
                }
            }
        }
        (at, None)
    }

    // Unmaps the whole clusters from an offset on, within one L2 table. Returns where the next step begins. After a refusal, the
    // clusters on the list are freed, except after a fault.
    fn discard_in_table(&mut self, at: u64) -> Result<u64, ImageError>
        requires usable { is_failed self.old ≡ false }
        requires inside { at < size_of self.old }
        ensures step { TurnStep S.view F.backing self.old self.new result }
        ensures sound { DiscardsStep S.view F.backing at self.old self.new result }
        ensures emptied { IsTrue (is_writable self.old) → (out : Mappings)
            → ImageInvariant S.view F.backing (pending_in S.view F.backing self.old out) self.old out
            → IfErr result (λ e. IsFault e ⊎ HasNothingToFree self.new) }
    {
        match self.discard_next(at) {
            Ok(next) => Ok(next),
            Err(refusal) => {
                if refusal.is_fault() {
                    return Err(refusal);
                }
                self.process_free_list_at_end()?;
                Err(refusal)
            }
        }
    }

    // Unmaps the whole clusters from an offset on, within one L2 table. Returns where the next step begins.
    fn discard_next(&mut self, at: u64) -> Result<u64, ImageError>
        requires inside { at < size_of self.old }
        ensures step { TurnStep S.view F.backing self.old self.new result }
        ensures sound { DiscardsStep S.view F.backing at self.old self.new result }
    {
        let end = self.file.header.size();
        let (from, count) = self.clear_range(at, end - at, ClearMode::Uncovered)?;
        let next = from.saturating_add(count);
        if at < next && next < end {
            Ok(next)
        } else {
            Ok(end)
        }
    }

    /// Grows the disk. The mode says what the new bytes are, and how they are allocated. A size that isn't larger changes nothing.
    /// Otherwise no cluster waits to be freed afterwards, also after a refusal, except 6, 9, 14 and 15, and 13 while the L1 table is
    /// replaced: then those that waited still do.
    /// Refused in this order: 16 (failed), 12 (dependency), 1 (read-only); for a larger size also 6 (preallocation), for a mode that allocates
    /// clusters over a backing disk; then 13 (limit) if the L1 table would be too long, and 3 (version) for `Zero` below
    /// version 3. May be refused 4 (unaligned table), 13 (limit), 14 (memory) or 15 (storage) during the work. All modes but `None` may also
    /// be refused 7 (compressed), 8 (everything is in use) and 9 (table prepared). On a sound image only 13, 14 and 15 come during the work, 7 if a
    /// cluster past the old end is compressed, and 8 and 9 while a mapping is prepared that isn't existing.
    pub fn resize_grow(&mut self, size: u64, mode: PreallocateMode) -> Result<(), ImageError>
        ensures step { MarkedStep S.view F.backing self.old self.new result }
        ensures early { IfSome (refuses_to_resize self.old) (λ e. (result ≡ Err e) × (self.new ≡ self.old)) }
        ensures no_larger { refuses_to_resize self.old ≡ None → size ≤ size_of self.old → (result ≡ Ok tt)
            × (self.new ≡ self.old) }
        ensures preallocation { refuses_to_resize self.old ≡ None → size_of self.old < size
            → IsTrue (takes_over self.old mode) → (result ≡ Err Preallocation) × (self.new ≡ self.old) }
        ensures late { refuses_to_resize self.old ≡ None
            → IfErr result (λ e. MayFailToGrow self.new mode e
            ⊎ ((e ≡ Preallocation) × IsTrue (takes_over self.old mode))) }
        ensures image { size_of self.old < size
            → IsResized (size_after result (size_of self.old) size) self.old self.new }
        ensures sees { GrowsTo S.view F.backing self.old self.new size mode result }
        ensures sound { (out : Mappings) → (abstract_of S.view F.backing self.old out).is_sound
            → GrowsOrRefuses S.view F.backing mode size self.old self.new out result }
    {
        self.check_resize()?;
        if size <= self.file.header.size() {
            return Ok(());
        }
        if self.takes_over(mode) {
            return Err(ImageError::Preallocation);
        }
        self.grow_disk(size, mode)
    }

    // Whether a mode allocates clusters, and there is a backing disk.
    fn takes_over(&self, mode: PreallocateMode) -> bool
        ensures { result ≡ takes_over self.now mode }
    {
        match mode {
            PreallocateMode::None | PreallocateMode::Zero => false,
            PreallocateMode::FormatAllocate
            | PreallocateMode::FullAllocate
            | PreallocateMode::WriteData => self.backing.is_some(),
        }
    }

    // Grows the disk: a longer L1 table, zeros past the end as the mode says, and then the size.
    fn grow_disk(&mut self, size: u64, mode: PreallocateMode) -> Result<(), ImageError>
        requires usable { is_failed self.old ≡ false }
        requires writable { IsTrue (is_writable self.old) }
        requires larger { size_of self.old < size }
        ensures step { MarkedStep S.view F.backing self.old self.new result }
        ensures cause { IfErr result (MayFailToGrow self.new mode) }
        ensures sound { (out : Mappings) → (abstract_of S.view F.backing self.old out).is_sound
            → GrowsSoundly S.view F.backing mode size self.old self.new out result }
        ensures image { IsResized (size_after result (size_of self.old) size) self.old self.new }
        ensures sees { GrowsTo S.view F.backing self.old self.new size mode result }
    {
        self.begin_call();
        let longer = self.lengthen_files(size, mode);
        self.mark_failure(longer)?;
        let end = self.file.header.size();
        let filled = self.fill_grown(end, size, mode);
        self.mark_fault(filled)?;
        let written = self.write_size(size);
        self.mark_fault(written)
    }

    // Marks the image as failed if a fault came after the first change of a call.
    fn mark_fault(&mut self, done: Result<(), ImageError>) -> Result<(), ImageError>
        requires recorded { IsTrue (has_noted_change self.old) }
        ensures answer { result ≡ done }
        ensures image { IsSameImage self.old self.new }
        ensures marks { MarksFailed self.old self.new done }
        ensures rest { self.new ≡ with_marks self.old (is_changed_of self.new.file.storage) (is_failed self.new) }
        ensures file { self.new.file ≡ self.old.file }
        ensures same { OnOk done (self.new ≡ self.old) }
        ensures fault { IfErr done (λ e. IsFault e → IsTrue (is_failed self.new)) }
    {
        self.mark_failure(done)
    }

    // Lengthens the L1 table for a size. Before that it grows a data file that has data at their guest offsets, if the mode allocates no
    // clusters and the L1 table wouldn't be too long.
    fn lengthen_files(&mut self, size: u64, mode: PreallocateMode) -> Result<(), ImageError>
        requires some { 0 < size }
        requires writable { IsTrue (is_writable self.old) }
        ensures step { ImageStep S.view self.old self.new }
        ensures fails { ImageFails S.view F.backing self.old self.new result (MayFailOn self.new) }
        ensures longer { LengthensTable S.view F.backing (size - 1) self.old self.new result }
    {
        self.lengthen_data_file(size, mode)?;
        self.lengthen_l1_table(size - 1)
    }

    // Grows a data file that has data at their guest offsets, if the mode allocates no clusters.
    fn lengthen_data_file(&mut self, size: u64, mode: PreallocateMode) -> Result<(), ImageError>
        requires some { 0 < size }
        ensures step { DataFileStep S.view F.backing self.old self.new (MayFailOn self.new) result }
        ensures none { self.old.data_file ≡ None → (result ≡ Ok tt) × (self.new ≡ self.old) }
    {
        if allocates(mode) {
            return Ok(());
        }
        if self.is_placed_by_guest() {
            return self.lengthen_placed_data(size);
        }
        Ok(())
    }

    // Grows the data file, if the L1 table wouldn't be too long for the size.
    fn lengthen_placed_data(&mut self, size: u64) -> Result<(), ImageError>
        requires some { 0 < size }
        ensures step { DataFileStep S.view F.backing self.old self.new (MayFailOn self.new) result }
    {
        self.check_l1_length(size)?;
        self.resize_data_file(size)
    }

    // Refused 13 (limit) if the L1 table would be too long for a size.
    fn check_l1_length(&self, size: u64) -> Result<(), ImageError>
        requires some { 0 < size }
        ensures cause { IfErr result (MayFailOn self.now) }
        ensures faults { IfErr result IsNotOfStorage }
    {
        let index = GuestOffset::new(size - 1).l1_index(self.file.header.cluster_bits());
        if index >= MAX_L1_ENTRIES {
            return Err(ImageError::Limit);
        }
        Ok(())
    }

    // Replaces the L1 table by one that has an entry for an offset, and all old entries. The clusters of the old one are freed then. After
    // a refusal, those on the list stay on it.
    #[tactic(auto, using(crate::proofs::Call::FailingErrors::tables_met, crate::proofs::Call::FailingErrors::fault_met))]
    fn lengthen_l1_table(&mut self, offset: u64) -> Result<(), ImageError>
        requires writable { IsTrue (is_writable self.old) }
        ensures step { ImageStep S.view self.old self.new }
        ensures fails { ImageFails S.view F.backing self.old self.new result (MayFailOn self.new) }
        ensures longer { LengthensTable S.view F.backing offset self.old self.new result }
    {
        let index = GuestOffset::new(offset).l1_index(self.file.header.cluster_bits());
        self.grow_l1_table(index)?;
        self.process_free_list()
    }

    // Marks the image as failed after a fault, if the storage failed or there were changes in the call. `before` are the numbers of changes at its
    // start.
    fn mark_refused(&mut self, refusal: &ImageError, before: (u64, u64))
        requires { IsFault refusal.now }
        ensures image { IsSameImage self.old self.new }
        ensures marks { MarksRefused self.old self.new refusal.now }
        ensures rest { self.new ≡ with_marks self.old (is_changed_of self.new.file.storage) (is_failed self.new) }
        ensures recorded { IsTrue (has_noted_change self.old) → IsTrue (has_noted_change self.new) }
        ensures changed { HaveRisen before self.old.file → IsTrue (has_noted_change self.new) }
        ensures why { IsTrue (has_noted_change self.new) → IsTrue (has_noted_change self.old)
            ⊎ HaveRisen before self.old.file }
    {
        self.file.record_change_since(before);
        self.mark_if_failed(refusal);
    }

    // Writes the size, the last write of a call. After a refusal, the size in memory is the old one again.
    fn write_size(&mut self, size: u64) -> Result<(), ImageError>
        ensures fails { ImageFails S.view F.backing self.old self.new result IsFault }
        ensures rest { self.new ≡ record self.old {
          file = record self.old.file {
            storage = self.new.file.storage;
            header = self.new.file.header;
          };
        } }
        ensures header { OnOk result (self.new.file.header
            ≡ with_fields self.old.file.header (with_size self.old.file.header.fields size)) }
        ensures restored { OnErr result (self.new.file.header ≡ self.old.file.header) }
        ensures time { (view_in S.view self.old.file).is_honest
            → EachMomentSince (view_in S.view self.old.file) (view_in S.view self.new.file)
            (IsLeftBy (view_in S.view self.new.file)) }
        ensures writes { (out : Mappings)
            → ImageInvariant S.view F.backing (pending_in S.view F.backing self.old out) self.old out
            → WritesSize S.view F.backing self.old self.new out size result }
        ensures lasts { (p : Pending) (out : Mappings) → ImageInvariant S.view F.backing p self.old out
            → LastsCall S.view (size ∷ []) self.old self.new result }
        ensures notes { KeepsFileNotes S.view self.old.file self.new.file }
        ensures header_cluster { PreservesHeaderCluster S.view self.old self.new }
    {
        let old = self.file.header.size();
        self.file.header.set_size(size);
        self.file.storage.set_write_kind(WriteKind::Other);
        match self.file.storage.write_size(&self.file.header) {
            Ok(()) => Ok(()),
            Err(refusal) => {
                self.file.header.set_size(old);
                Err(ImageError::from(refusal))
            }
        }
    }
}

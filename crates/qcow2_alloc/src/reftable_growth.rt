//! Replacing the reftable by a longer one.
ghost use Rattle.std.specs.Prelude.{◌≡◌, ℕ, ◌+◌, ◌-◌, ◌/◌, ◌%◌, ◌^◌, ◌<◌, ◌≤◌, length, IfOk, IfErr, IfSome, IsSome};
ghost use Rattle.std.specs.Prelude.{OnOk, OnErr, IsErrOf};
ghost use Rattle.qcow2_laws.specs.CrashInvariant.{Pending};
ghost use Rattle.qcow2_metadata.specs.EntryTable.{entry_count, IsRefTable};
ghost use Rattle.qcow2_metadata.specs.Header.{entries_per_cluster, counts_per_block};
ghost use Rattle.qcow2_alloc.specs.Allocation.{SameLeaks};
ghost use Rattle.qcow2_alloc.specs.ClustersToFree.{metadata_entry};
ghost use Rattle.qcow2_alloc.specs.declared.clusters_to_free.ClusterKind.TheVariants.{Metadata};
ghost use Rattle.qcow2_alloc.specs.FreeList.{IsRunOfTable};
ghost use Rattle.qcow2_alloc.specs.Growing.{IsLongEnough, IsLeastLength, IsCloneOf};
ghost use Rattle.qcow2_alloc.specs.ImageError.{IsOfTablesIf};
ghost use Rattle.qcow2_alloc.specs.ImageFile.{AllocatorInvariant};
ghost use Rattle.qcow2_alloc.specs.Limits.{IsFaultOr};
ghost use Rattle.qcow2_alloc.specs.LowestRuns.{SearchStays};
ghost use Rattle.qcow2_alloc.specs.Steps.{AllocatorFails, EntersSoundly, EntersTable, GrowsSoundly, GrowthStep, HasGrown};
ghost use Rattle.qcow2_alloc.specs.Steps.{PointerStep};

use crate::reftable_length::grown_length;
use crate::{
    Allocator, ClustersToFreeEntry, ClustersToFreeList, ImageError, ImageFile, PendingClusters,
};
use image_access::Storage;
use qcow2_metadata::{Header, MAX_HOST_OFFSET, MAX_REFTABLE_ENTRIES, RefTable};
use std::alloc::Global;

#[tactic(auto, using(crate::proofs::TableErrors::stored_of_tables))]
impl Allocator {
    /// Makes the reftable long enough for an index. The new table, with the refblocks that it needs, lies in a run of free
    /// clusters: first the refblocks, then the table. The clusters of the old one wait to be freed. Refused 13 (limit) if the table would have
    /// more than 1,048,576 entries, or there is no such run, and 14 (memory) and 15 (storage) if the work meets them.
    pub fn grow_reftable<S: Storage>(
        &mut self,
        file: &mut ImageFile<S>,
        index: usize,
    ) -> Result<(), ImageError>
        ensures step { GrowthStep S.view self.old.reftable file.old self.new.reftable file.new result }
        ensures fails { AllocatorFails S.view file.old self.new.reftable file.new result }
        ensures sound { (p : Pending) → AllocatorInvariant S.view self.old p file.old
            → GrowsSoundly S.view p index self.old file.old self.new file.new result }
        ensures grown { OnOk result
            (HasGrown file.old.header.fields index self.old.reftable self.new.reftable file.new) }
        ensures first { SearchStays self.old self.new }
    {
        let table = self.longer_reftable(file.alloc, &file.header, index)?;
        let former = self.former_reftable(file.alloc)?;
        match self.enter_reftable(file, table) {
            Ok(()) => {
                former.hand_back(&mut file.free_list);
                Ok(())
            }
            Err(refusal) => {
                former.make_persistent();
                Err(refusal)
            }
        }
    }

    // A table with the same entries that is long enough for an index. It has no place yet.
    fn longer_reftable(
        &self,
        alloc: Global,
        header: &Header,
        index: usize,
    ) -> Result<RefTable, ImageError>
        ensures length { IfOk result (λ t. IsLeastLength (entry_count self.now.reftable) index
            (entries_per_cluster header.now.fields) (counts_per_block header.now.fields) (entry_count t)) }
        ensures entries { IfOk result (IsCloneOf self.now.reftable) }
        ensures cause { IfErr result (IsOfTablesIf ⊥) }
        ensures no_fault { IsErrOf result ImageError.Storage → ⊥ }
        ensures limit { IfErr result (IsFaultOr
            ((entries : ℕ) → entries ≤ 2 ^ 20
            → IsLongEnough (entry_count self.now.reftable) index (entries_per_cluster header.now.fields)
            (counts_per_block header.now.fields) entries → ⊥)) }
    {
        let index = index as u64;
        if index > MAX_REFTABLE_ENTRIES as u64 {
            return Err(ImageError::Limit);
        }
        let old = self.reftable.len() as u64;
        let per_cluster = header.l2_entries() as u64;
        let per_block = header.rb_entries() as u64;
        let Some(entries) = grown_length(old, index, per_cluster, per_block) else {
            return Err(ImageError::Limit);
        };
        let table = self.reftable.clone_and_grow(alloc, entries as usize)?;
        Ok(table)
    }

    // Memory on the list of clusters to free for those of the reftable.
    fn former_reftable(&self, alloc: Global) -> Result<PendingClusters, ImageError>
        ensures run { IfOk result (λ former. IfSome self.now.reftable.cluster
            (λ c. former ≡ metadata_entry c
            ((length self.now.reftable.bytes + 2 ^ self.now.reftable.cluster_bits - 1) / 2 ^
            self.now.reftable.cluster_bits))) }
        ensures kind { IfOk result (λ former. former.kind ≡ Metadata) }
        ensures is_table { IsRefTable self.now.reftable }
        ensures cause { IfErr result (IsOfTablesIf (self.now.reftable.cluster ≡ None)) }
        ensures of_table { IfOk result (IsRunOfTable self.now.reftable) }
        ensures no_fault { IsErrOf result ImageError.Storage → ⊥ }
        ensures placed { IsSome self.now.reftable.cluster → IfErr result (λ e. e ≡ ImageError.Memory) }
    {
        let Some(cluster) = self.reftable.get_cluster() else {
            return Err(ImageError::UnalignedTable);
        };
        let entry = ClustersToFreeEntry::metadata(cluster, self.reftable.cluster_count());
        let Ok(former) = ClustersToFreeList::pending_guard(alloc, entry) else {
            return Err(ImageError::Memory);
        };
        Ok(former)
    }

    // Finds room for a longer reftable with the refblocks that it needs, and writes it there. It must have entries for all of that room.
    fn enter_reftable<S: Storage>(
        &mut self,
        file: &mut ImageFile<S>,
        table: RefTable,
    ) -> Result<(), ImageError>
        requires some { 0 < entry_count table }
        ensures step { PointerStep S.view self.old.reftable file.old self.new.reftable file.new }
        ensures fails { AllocatorFails S.view file.old self.new.reftable file.new result }
        ensures sound { (p : Pending) → AllocatorInvariant S.view self.old p file.old
            → IsCloneOf self.old.reftable table → entry_count table % entries_per_cluster file.old.header.fields ≡ 0
            → EntersSoundly S.view p (entry_count table) self.old file.old self.new file.new result }
        ensures entered { OnOk result
            (EntersTable file.old.header.fields self.old.reftable table self.new.reftable file.new) }
        ensures kept { OnErr result (self.new.reftable ≡ self.old.reftable) }
        ensures first { SearchStays self.old self.new }
        ensures leaks { (p : Pending) → AllocatorInvariant S.view self.old p file.old → SameLeaks self.old self.new }
    {
        let bits = file.header.cluster_bits();
        if table.cluster_bits() != bits {
            return Err(ImageError::Limit);
        }
        let named = (table.len() as u64) << file.header.rb_bits();
        let end = named.min((MAX_HOST_OFFSET >> bits) + 1);
        let room = self.allocate_room(file, table.cluster_count().value(), end)?;
        self.write_reftable(file, table, room)
    }
}

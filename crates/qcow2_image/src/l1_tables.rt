//! Replacing the L1 table by a longer one.
ghost use Rattle.qcow2_image.specs.Limits.{IfLimit, IsLimitedInternal};
ghost use Rattle.qcow2_image.specs.L1Entries.{EndsBefore, IsPlacedNear};
ghost use Rattle.qcow2_image.specs.SoundParts.{EntrySoundly};
ghost use Rattle.qcow2_image.specs.SizeSteps.{EntersTable};
ghost use Rattle.qcow2_image.specs.ImageSteps.{ImageFails, ImageStep, ImageStepWhere};
ghost use Rattle.qcow2_image.specs.BehindHeader.{KeepsL1TableBehind, PreservesHeaderCluster};
ghost use Rattle.qcow2_alloc.specs.ImageError.{IsFault};
ghost use Rattle.qcow2_alloc.specs.KeptMarks.{KeepsFileNotes};
ghost use Rattle.std.specs.Prelude.{ℕ, List, Option, ◌≡◌, ◌<◌, ◌≤◌, ◌++◌, ◌∷◌, [], ◌+◌, max, Some, IfErr, IfOk, IsTrue};
ghost use Rattle.std.specs.Prelude.{OnErr, OnOk};
ghost use Rattle.qcow2_metadata.specs.EntryTable.{entry_count};
ghost use Rattle.qcow2_metadata.specs.L2Mapping.{IsHostCluster};
ghost use Rattle.qcow2_laws.specs.CrashInvariant.{Pending};
ghost use Rattle.qcow2_image.specs.declared.prepared.Prepared.{Prepared};
ghost use Rattle.qcow2_image.specs.Found.{l1_index_of};
ghost use Rattle.qcow2_image.specs.Image.{HasNothingToFree, is_writable};
ghost use Rattle.qcow2_image.specs.ImageInvariant.{ImageInvariant, pending_in, Mappings};
ghost use Rattle.qcow2_image.specs.LongerTables.{run_of_table, listed, with_table, IsLongerL1, StandsWhole};
ghost use Rattle.qcow2_image.specs.LongerTables.{PlacesTable, NamesTable, NamesTaken, Lengthens};
ghost use Rattle.qcow2_image.specs.LongerTables.{MakesEntry};
ghost use Rattle.qcow2_alloc.specs.declared.error.ImageError.TheVariants.{Limit};
ghost use Rattle.qcow2_image.specs.Refusals.{IsFaultOrLimit, MayFailOn};
ghost use Rattle.qcow2_image.specs.InternalSteps.{ListGrows};
ghost use Rattle.qcow2_image.specs.Faults.{CountsImageFaults, IsNotOfStorage};

use crate::Qcow2;
use image_access::{Storage, WrappedFormat};
use qcow2_alloc::{
    ClustersToFreeEntry, ClustersToFreeList, ImageError, PendingClusters, WriteKind,
};
use qcow2_metadata::{GuestOffset, HostCluster, L1Table, MAX_L1_ENTRIES};

#[tactic(auto, using(crate::proofs::Call::FailingErrors::tables_met, crate::proofs::Call::FailingErrors::fault_met, crate::proofs::Call::FailingErrors::storage_met, crate::proofs::Call::FailingErrors::memory_met, crate::proofs::Call::FailingErrors::length_met))]
impl<S: Storage, F: WrappedFormat<S>> Qcow2<S, F> {
    // Makes sure that there is an L1 entry for an offset. An L1 table that is too short is replaced by a longer one, and
    // then the clusters on the list are freed.
    pub(crate) fn ensure_l1_entry(&mut self, offset: u64) -> Result<(), ImageError>
        requires writable { IsTrue (is_writable self.old) }
        ensures step { ImageStep S.view self.old self.new }
        ensures fails { ImageFails S.view F.backing self.old self.new result (MayFailOn self.new) }
        ensures sound { (out : Mappings)
            → ImageInvariant S.view F.backing (pending_in S.view F.backing self.old out) self.old out
            → EntrySoundly S.view F.backing offset self.old self.new out result
            (MakesEntry S.view F.backing self.old self.new out result) }
        ensures length { OnOk result (entry_count self.new.l1_table ≡ max (entry_count self.old.l1_table)
            (l1_index_of self.old.file.header.fields offset + 1)) }
        ensures placed { EndsBefore offset self.old
            → self.old.l1_table.cluster_bits ≡ self.old.file.header.fields.cluster_bits
            → OnOk result (IsPlacedNear self.new.l1_table) }
        ensures none { l1_index_of self.old.file.header.fields offset < entry_count self.old.l1_table
            → self.new ≡ self.old }
        ensures emptied { entry_count self.old.l1_table ≤ l1_index_of self.old.file.header.fields offset
            → OnOk result (HasNothingToFree self.new) }
    {
        let index = GuestOffset::new(offset).l1_index(self.file.header.cluster_bits());
        if self.l1_table.in_bounds(index) {
            return Ok(());
        }
        self.grow_l1_table(index)?;
        self.process_free_list()
    }

    // Replaces the L1 table by one that has an entry of this index, and all old entries. The clusters of the old one wait to be freed.
    pub(crate) fn grow_l1_table(&mut self, index: usize) -> Result<(), ImageError>
        ensures step { ImageStep S.view self.old self.new }
        ensures recorded { OnOk result (IsTrue self.new.file.caches.is_changed) }
        ensures cause { IsTrue (is_writable self.old) → IfErr result (MayFailOn self.new) }
        ensures limit { (p : Pending) (out : Mappings) → ImageInvariant S.view F.backing p self.old out
            → (offset : ℕ) → index ≡ l1_index_of self.old.file.header.fields offset
            → IfLimit result (IsLimitedInternal S.view F.backing p (offset + 1) self.old out) }
        ensures fault { IsTrue (is_writable self.old) → (p : Pending) (out : Mappings)
            → ImageInvariant S.view F.backing p self.old out → IfErr result IsFaultOrLimit }
        ensures lengthens { (p : Pending) (out : Mappings)
            → ImageInvariant S.view F.backing p self.old out
            → Lengthens S.view F.backing p self.old self.new out result }
        ensures length { OnOk result (entry_count self.new.l1_table ≡ max (entry_count self.old.l1_table) (index + 1)) }
        ensures placed { self.old.l1_table.cluster_bits ≡ self.old.file.header.fields.cluster_bits
            → OnOk result (IsPlacedNear self.new.l1_table) }
        ensures list { OnOk result (ListGrows self.old self.new) }
        ensures faults { CountsImageFaults S.view F.backing self.old self.new result }
    {
        if index >= MAX_L1_ENTRIES {
            return Err(ImageError::Limit);
        }
        let entries = (index + 1).max(self.l1_table.len());
        let table = self.l1_table.clone_and_grow(self.file.alloc, entries)?;
        let old = self.former_l1_table()?;
        match self.enter_l1_table(table) {
            Ok(()) => {
                hand_back(old, &mut self.file.free_list);
                Ok(())
            }
            Err(refusal) => {
                forget(old);
                Err(refusal)
            }
        }
    }

    // Memory for an entry of the list of clusters to free, with the clusters of the L1 table.
    fn former_l1_table(&self) -> Result<Option<PendingClusters>, ImageError>
        ensures cause { IfErr result (MayFailOn self.now) }
        ensures fault { IfErr result IsFault }
        ensures run { IfOk result (λ former. former ≡ run_of_table self.now.l1_table self.now.l1_table.cluster) }
        ensures faults { IfErr result IsNotOfStorage }
    {
        let Some(cluster) = self.l1_table.get_cluster() else {
            return Ok(None);
        };
        let entry = ClustersToFreeEntry::metadata(cluster, self.l1_table.cluster_count());
        let former = ClustersToFreeList::pending_guard(self.file.alloc, entry)?;
        Ok(Some(former))
    }

    // Allocates clusters for an L1 table, writes it there, and then the pointer to it.
    fn enter_l1_table(&mut self, table: L1Table) -> Result<(), ImageError>
        ensures recorded { OnOk result (IsTrue self.new.file.caches.is_changed) }
        ensures step { ImageStepWhere S.view (table.cluster_bits ≡ self.old.l1_table.cluster_bits) self.old self.new }
        ensures cause { IsTrue (is_writable self.old) → IfErr result (MayFailOn self.new) }
        ensures sound { (p : Pending) (out : Mappings) → ImageInvariant S.view F.backing p self.old out
            → IsLongerL1 self.old table → EntersTable S.view F.backing p table self.old self.new out result }
        ensures entries { OnOk result (entry_count self.new.l1_table ≡ entry_count table) }
        ensures placed { entry_count table ≤ 4194304 → table.cluster_bits ≡ self.old.file.header.fields.cluster_bits
            → OnOk result (IsPlacedNear self.new.l1_table) }
        ensures list { OnOk result (ListGrows self.old self.new) }
        ensures faults { CountsImageFaults S.view F.backing self.old self.new result }
    {
        let Some(allocator) = &mut self.allocator else {
            return Err(ImageError::ReadOnly);
        };
        let pending = allocator.allocate_meta(&mut self.file, table.cluster_count())?;
        self.write_allocated_l1_table(table, pending)
    }

    // Writes an L1 table to clusters that were allocated for it, and then the pointer to it. After a refusal the clusters wait to be freed.
    fn write_allocated_l1_table(
        &mut self,
        table: L1Table,
        taken: PendingClusters,
    ) -> Result<(), ImageError>
        requires { IsHostCluster self.old.file.header.fields.cluster_bits taken.first_cluster }
        ensures fails { ImageFails S.view F.backing self.old self.new result (MayFailOn self.new) }
        ensures step { ImageStepWhere S.view
            ((table.cluster_bits ≡ self.old.l1_table.cluster_bits) × (0 < taken.first_cluster)) self.old self.new }
        ensures fault { (p : Pending) (out : Mappings)
            → ImageInvariant S.view F.backing (with_table p table taken.first_cluster) self.old out
            → IsLongerL1 self.old table → IfErr result IsFault }
        ensures allocator { self.new.allocator ≡ self.old.allocator }
        ensures names { (p : Pending) (out : Mappings)
            → ImageInvariant S.view F.backing (with_table p table taken.first_cluster) self.old out
            → IsTrue self.old.file.caches.is_changed → IsLongerL1 self.old table
            → NamesTaken S.view F.backing p self.old self.new out table taken result }
        ensures placed { OnOk result (self.new.l1_table ≡ record table { cluster = Some taken.first_cluster }) }
        ensures kept { OnOk result (self.new.file.free_list ≡ self.old.file.free_list) }
        ensures listed { OnErr result (self.new.file.free_list ≡ self.old.file.free_list ++ taken ∷ []) }
    {
        let done = self.write_l1_table(table, taken.cluster());
        keep_or_list(taken, done, &mut self.file.free_list)
    }

    // Writes the table first, then the pointer to it.
    fn write_l1_table(&mut self, mut table: L1Table, cluster: HostCluster) -> Result<(), ImageError>
        requires { IsHostCluster self.old.file.header.fields.cluster_bits cluster }
        ensures fails { ImageFails S.view F.backing self.old self.new result (MayFailOn self.new) }
        ensures step { ImageStepWhere S.view
            ((table.cluster_bits ≡ self.old.l1_table.cluster_bits) × (0 < cluster)) self.old self.new }
        ensures fault { (p : Pending) (out : Mappings)
            → ImageInvariant S.view F.backing (with_table p table cluster) self.old out → IsLongerL1 self.old table
            → IfErr result IsFault }
        ensures allocator { self.new.allocator ≡ self.old.allocator }
        ensures names { (p : Pending) (out : Mappings)
            → ImageInvariant S.view F.backing (with_table p table cluster) self.old out
            → IsTrue self.old.file.caches.is_changed → IsLongerL1 self.old table
            → NamesTable S.view F.backing p self.old self.new out table cluster result }
        ensures placed { OnOk result (self.new.l1_table ≡ record table { cluster = Some cluster }) }
        ensures list { self.new.file.free_list ≡ self.old.file.free_list }
    {
        self.place_l1_table(&mut table, cluster)?;
        self.name_l1_table(table, cluster)
    }

    // Writes an L1 table to its clusters, after all refcounts.
    #[tactic(auto, using(crate::proofs::Call::FailingErrors::storage_met, crate::proofs::Call::CacheErrors::fault_or_met))]
    fn place_l1_table(
        &mut self,
        table: &mut L1Table,
        cluster: HostCluster,
    ) -> Result<(), ImageError>
        ensures fails { ImageFails S.view F.backing self.old self.new result (MayFailOn self.new) }
        ensures notes { KeepsFileNotes S.view self.old.file self.new.file }
        ensures header_cluster { table.old.cluster_bits ≡ self.old.l1_table.cluster_bits → 0 < cluster
            → PreservesHeaderCluster S.view self.old self.new }
        ensures fault { (p : Pending) (out : Mappings)
            → ImageInvariant S.view F.backing (with_table p table.old cluster) self.old out
            → IsHostCluster table.old.cluster_bits cluster → IfErr result IsFault }
        ensures rest { self.new ≡ record self.old {
          file = record self.old.file {
            storage = self.new.file.storage;
            caches = self.new.file.caches;
          };
        } }
        ensures recorded { IsTrue self.old.file.caches.is_changed → IsTrue self.new.file.caches.is_changed }
        ensures places { (p : Pending) (out : Mappings)
            → ImageInvariant S.view F.backing (with_table p table.old cluster) self.old out
            → IsLongerL1 self.old table.old
            → PlacesTable S.view F.backing
            (with_table p table.old cluster) self.old self.new out table.new cluster result }
        ensures table { OnOk result (table.new ≡ record table.old { cluster = Some cluster }) }
    {
        if !cluster.is_nameable(table.cluster_bits()) {
            return Err(ImageError::Limit);
        }
        table.set_cluster(cluster);
        self.file.caches.flush_rb(&mut self.file.storage)?;
        self.file.storage.set_write_kind(WriteKind::Other);
        self.file.storage.write_l1_table(table)?;
        Ok(())
    }

    // Writes the pointer to an L1 table, which is the image's table from then on.
    fn name_l1_table(&mut self, table: L1Table, cluster: HostCluster) -> Result<(), ImageError>
        requires { IsHostCluster self.old.file.header.fields.cluster_bits cluster }
        ensures fails { ImageFails S.view F.backing self.old self.new result (MayFailOn self.new) }
        ensures step { ImageStepWhere S.view (KeepsL1TableBehind self.old.l1_table table) self.old self.new }
        ensures fault { IfErr result IsFault }
        ensures allocator { self.new.allocator ≡ self.old.allocator }
        ensures names { (p : Pending) (out : Mappings)
            → ImageInvariant S.view F.backing (with_table p table cluster) self.old out
            → IsTrue self.old.file.caches.is_changed → StandsWhole S.view self.old table cluster
            → NamesTable S.view F.backing p self.old self.new out table cluster result }
        ensures table { OnOk result (self.new.l1_table ≡ table) }
        ensures list { self.new.file.free_list ≡ self.old.file.free_list }
    {
        let offset = cluster.offset(self.file.header.cluster_bits());
        self.file.header.set_l1_table(offset, table.len() as u32)?;
        self.file.storage.set_write_kind(WriteKind::Other);
        self.file.storage.write_l1_table_pointer(&self.file.header)?;
        self.l1_table = table;
        Ok(())
    }
}

// Clusters that were allocated for a table stay allocated if it was written. After a refusal they wait to be freed.
fn keep_or_list(
    taken: PendingClusters,
    done: Result<(), ImageError>,
    list: &mut ClustersToFreeList,
) -> Result<(), ImageError>
    ensures answer { result ≡ done }
    ensures kept { OnOk done (list.new ≡ list.old) }
    ensures listed { OnErr done (list.new ≡ list.old ++ taken ∷ []) }
{
    match &done {
        Ok(()) => taken.make_persistent(),
        Err(_) => taken.hand_back(list),
    }
    done
}

fn hand_back(pending: Option<PendingClusters>, list: &mut ClustersToFreeList)
    ensures { list.new ≡ list.old ++ listed pending }
{
    if let Some(pending) = pending {
        pending.hand_back(list);
    }
}

fn forget(pending: Option<PendingClusters>) {
    if let Some(pending) = pending {
        pending.make_persistent();
    }
}

//! The L2 table of a range: found, made, or copied because its L1 entry is not marked copied.
ghost use Rattle.qcow2_image.specs.WriteSteps.{CanEnter};
ghost use Rattle.qcow2_image.specs.SoundParts.{EnsuresSoundly, EntersSoundly, OwnsSoundly, TableSoundly};
ghost use Rattle.qcow2_image.specs.ImageSteps.{ImageFails, ImageStep, ImageStepWhere};
ghost use Rattle.std.specs.Prelude.{List, Option, ◌≡◌, ◌≢◌, ◌-◌, Some, ◌^◌, ◌<◌, ◌↔◌, IfOk, IfErr, OnOk, IsSome};
ghost use Rattle.std.specs.Prelude.{IsTrue, Ok, Err, length};
ghost use Rattle.qcow2_image.specs.MayFail.{KeepsL1Place, MayFailLooking};
ghost use Rattle.qcow2_metadata.specs.L2Mapping.{IsHostCluster};
ghost use Rattle.qcow2_metadata.specs.EntryTable.{entry_count};
ghost use Rattle.qcow2_alloc.specs.ImageError.{IsFault};
ghost use Rattle.qcow2_image.specs.Backings.{HasPinnedMapping};
ghost use Rattle.qcow2_image.specs.Image.{KeepsRest, KeepsRestOn, is_writable};
ghost use Rattle.qcow2_laws.specs.CrashInvariant.{Pending};
ghost use Rattle.qcow2_alloc.specs.ImageFile.{known_in};
ghost use Rattle.qcow2_alloc.specs.MetadataCaches.{l2_at, order_of};
ghost use Rattle.qcow2_laws.specs.Clusters.{RbDependsOnL2};
ghost use Rattle.qcow2_image.specs.declared.prepared.Prepared.{Prepared};
ghost use Rattle.qcow2_image.specs.Found.{l1_index_of};
ghost use Rattle.qcow2_image.specs.InternalSteps.{Ensures};
ghost use Rattle.qcow2_image.specs.ImageInvariant.{ImageInvariant, pending_in, Mappings};
ghost use Rattle.qcow2_image.specs.L1Entries.{L1EntryOverflows, HasOwnEntry, HasOwnTable, HasNearEntry};
ghost use Rattle.qcow2_image.specs.ListedClusters.{KeepsList};
ghost use Rattle.qcow2_image.specs.NewTables.{IsFaultOrKeepsL1Table, SaysKnown, IsStored, StandsReady, MayName};
ghost use Rattle.qcow2_image.specs.NewTables.{NamesShared, PlacesNewTable, Stores, NamesNew, WritesNew, EntersTable};
ghost use Rattle.qcow2_image.specs.NewTables.{OwnsTable};
ghost use Rattle.qcow2_alloc.specs.TableCaches.{IsTableOf};
ghost use Rattle.qcow2_laws.specs.Changes.{one_at, with_new_tables};
ghost use Rattle.qcow2_metadata.specs.L2Table.{L2TableView};
ghost use Rattle.qcow2_image.specs.PinnedTables.{FindsOwn, own_table};
ghost use Rattle.qcow2_image.specs.Refusals.{MayFailOn};

use crate::Qcow2;
use image_access::{Storage, WrappedFormat};
use qcow2_alloc::{ClustersToFreeEntry, ClustersToFreeList, ImageError, WriteKind};
use qcow2_metadata::{ClusterCount, GuestOffset, HostCluster, L2Table};

#[tactic(auto, using(crate::proofs::Call::FailingErrors::tables_met, crate::proofs::Call::FailingErrors::fault_met, crate::proofs::Call::FailingErrors::storage_met, crate::proofs::Call::FailingErrors::memory_met))]
impl<S: Storage, F: WrappedFormat<S>> Qcow2<S, F> {
    // The L2 table of an offset, cached and marked copied. If a new one is made, the clusters on the list are freed afterwards. An L1 entry whose
    // own offset would pass 64 bits is not written.
    pub(crate) fn writable_l2_table(&mut self, offset: u64) -> Result<HostCluster, ImageError>
        requires writable { IsTrue (is_writable self.old) }
        ensures step { ImageStep S.view self.old self.new }
        ensures fails { ImageFails S.view F.backing self.old self.new result (MayFailOn self.new) }
        ensures elsewhere { IfOk result (λ table. 0 < table) }
        ensures sound { (out : Mappings)
            → ImageInvariant S.view F.backing (pending_in S.view F.backing self.old out) self.old out
            → TableSoundly S.view F.backing offset self.old self.new out result }
        ensures l1_place { l1_index_of self.old.file.header.fields offset < entry_count self.old.l1_table
            → OnOk result (KeepsL1Place self.old.file.header.fields self.new.file.header.fields) }
        ensures cached { IfOk result (λ table. IsSome (l2_at self.new.file.caches table)) }
        ensures own { HasOwnTable self.old offset → FindsOwn self.old self.new offset result }
        ensures owns { IfOk result (λ table. (table ≡ own_table self.new offset) × HasOwnTable self.new offset) }
    {
        if self.has_own_l2(offset) {
            return self.ensure_cached_l2(offset);
        }
        if self.l1_entry_overflows(offset) {
            return Err(ImageError::Overflow);
        }
        self.ensure_l1_entry(offset)?;
        self.writable_l2_cluster(offset)?;
        self.process_free_list()?;
        self.ensure_cached_l2(offset)
    }

    // Whether there is an L2 table for an offset that is marked copied.
    fn has_own_l2(&self, offset: u64) -> bool
        ensures { IsTrue result ↔ HasOwnTable self.now offset }
    {
        let index = GuestOffset::new(offset).l1_index(self.file.header.cluster_bits());
        match self.l1_table.get(index) {
            Some(entry) => entry.copied,
            None => false,
        }
    }

    // Whether there is an L1 entry for an offset whose own offset does not fit into 64 bits.
    fn l1_entry_overflows(&self, offset: u64) -> bool
        ensures { IsTrue result ↔ L1EntryOverflows self.now offset }
    {
        let index = GuestOffset::new(offset).l1_index(self.file.header.cluster_bits());
        self.l1_table.in_bounds(index) && !self.l1_table.has_entry_room(index)
    }

    // The L2 table of an offset, cached and marked copied. It is made if there is none, and copied if it isn't marked copied.
    #[tactic(auto, using(crate::proofs::Call::CacheErrors::in_use_met))]
    pub(crate) fn ensure_cached_l2(&mut self, offset: u64) -> Result<HostCluster, ImageError>
        requires writable { IsTrue (is_writable self.old) }
        ensures step { ImageStep S.view self.old self.new }
        ensures fails { ImageFails S.view F.backing self.old self.new result (MayFailOn self.new) }
        ensures keeps_rest { KeepsRestOn self.old self.new }
        ensures elsewhere { IfOk result (λ table. 0 < table) }
        ensures sound { (p : Pending) (out : Mappings) → ImageInvariant S.view F.backing p self.old out
            → EnsuresSoundly S.view F.backing p offset self.old self.new out result
            (Ensures S.view F.backing p self.old self.new out offset result) }
        ensures cached { IfOk result (λ table. IsSome (l2_at self.new.file.caches table)) }
        ensures quiet { HasOwnTable self.old offset → KeepsList self.old self.new }
        ensures rest { HasOwnTable self.old offset
            → self.new ≡ record self.old {
              file = record self.old.file {
                storage = self.new.file.storage;
                caches =
                    self.new.file.caches;
              };
            } }
        ensures own { HasOwnTable self.old offset → FindsOwn self.old self.new offset result }
    {
        let cluster = self.writable_l2_cluster(offset)?;
        self.file
            .caches
            .l2_get_or_insert(&mut self.file.storage, cluster)?;
        Ok(cluster)
    }

    // The cluster of the L2 table of an offset, which is marked copied then.
    fn writable_l2_cluster(&mut self, offset: u64) -> Result<HostCluster, ImageError>
        requires writable { IsTrue (is_writable self.old) }
        ensures step { ImageStep S.view self.old self.new }
        ensures fails { ImageFails S.view F.backing self.old self.new result (MayFailOn self.new) }
        ensures keeps_rest { KeepsRestOn self.old self.new }
        ensures elsewhere { IfOk result (λ table. 0 < table) }
        ensures sound { (p : Pending) (out : Mappings) → ImageInvariant S.view F.backing p self.old out
            → OwnsSoundly S.view F.backing p offset self.old self.new out result
            (OwnsTable S.view F.backing p self.old self.new out (l1_index_of self.old.file.header.fields offset) result) }
        ensures quiet { HasOwnTable self.old offset → self.new ≡ self.old }
        ensures own { HasOwnTable self.old offset → IfOk result (λ table. table ≡ own_table self.old offset) }
        ensures owns { OnOk result (HasOwnTable self.new offset) }
    {
        let bits = self.file.header.cluster_bits();
        let index = GuestOffset::new(offset).l1_index(bits);
        if !self.l1_table.in_bounds(index) {
            return Err(ImageError::Limit);
        }
        let Some(entry) = self.l1_table.get(index) else {
            let table = L2Table::new_cleared(self.file.alloc, &self.file.header)?;
            return self.allocate_l2(index, table);
        };
        let Some(cluster) = entry.offset.checked_cluster(bits) else {
            return Err(ImageError::UnalignedTable);
        };
        if entry.copied {
            return Ok(cluster);
        }
        self.replace_l2(index, cluster)
    }

    // Replaces a table that isn't marked copied by a copy.
    #[tactic(auto, using(crate::proofs::Call::FailingErrors::storage_met, crate::proofs::Call::FailingErrors::memory_met, crate::proofs::Call::CacheErrors::in_use_met))]
    fn replace_l2(&mut self, index: usize, old: HostCluster) -> Result<HostCluster, ImageError>
        requires writable { IsTrue (is_writable self.old) }
        ensures step { ImageStepWhere S.view (0 < old) self.old self.new }
        ensures fails { ImageFails S.view F.backing self.old self.new result (MayFailOn self.new) }
        ensures keeps_rest { KeepsRestOn self.old self.new }
        ensures elsewhere { IfOk result (λ table. 0 < table) }
        ensures own { OnOk result (HasOwnEntry self.new index) }
        ensures l1_table { IfErr result (IsFaultOrKeepsL1Table self.old self.new) }
        ensures sound { (p : Pending) (out : Mappings) → ImageInvariant S.view F.backing p self.old out
            → NamesShared S.view self.old index old → EntersSoundly S.view F.backing p index self.old out result
            (OwnsTable S.view F.backing p self.old self.new out index result) }
    {
        self.file
            .caches
            .l2_get_or_insert(&mut self.file.storage, old)?;
        let Some(held) = self.file.caches.l2_peek(old) else {
            unreachable!();
        };
        let table = held.clone()?;
        self.swap_l2(index, old, table)
    }

    // Replaces a table by another one. The old one waits to be freed.
    fn swap_l2(
        &mut self,
        index: usize,
        old: HostCluster,
        table: L2Table,
    ) -> Result<HostCluster, ImageError>
        requires writable { IsTrue (is_writable self.old) }
        ensures step { ImageStep S.view self.old self.new }
        ensures fails { ImageFails S.view F.backing self.old self.new result (MayFailOn self.new) }
        ensures keeps_rest { KeepsRestOn self.old self.new }
        ensures elsewhere { IfOk result (λ table. 0 < table) }
        ensures own { OnOk result (HasOwnEntry self.new index) }
        ensures l1_table { IfErr result (IsFaultOrKeepsL1Table self.old self.new) }
        ensures sound { (p : Pending) (out : Mappings) → ImageInvariant S.view F.backing p self.old out
            → NamesShared S.view self.old index old
            → SaysKnown self.old.file.header.fields (known_in S.view self.old.file) index table
            → EntersSoundly S.view F.backing p index self.old out result
            (OwnsTable S.view F.backing p self.old self.new out index result) }
    {
        let entry = ClustersToFreeEntry::metadata(old, ClusterCount::new(1));
        let dropped = ClustersToFreeList::pending_guard(self.file.alloc, entry)?;
        match self.allocate_l2(index, table) {
            Ok(cluster) => {
                dropped.hand_back(&mut self.file.free_list);
                Ok(cluster)
            }
            Err(refusal) => {
                dropped.make_persistent();
                Err(refusal)
            }
        }
    }

    // Allocates a cluster for a table, writes it there, and then its L1 entry.
    fn allocate_l2(&mut self, index: usize, table: L2Table) -> Result<HostCluster, ImageError>
        requires writable { IsTrue (is_writable self.old) }
        ensures step { ImageStep S.view self.old self.new }
        ensures fails { ImageFails S.view F.backing self.old self.new result (MayFailOn self.new) }
        ensures keeps_rest { KeepsRestOn self.old self.new }
        ensures elsewhere { IfOk result (λ table. 0 < table) }
        ensures own { OnOk result (HasOwnEntry self.new index) }
        ensures l1_table { IfErr result (IsFaultOrKeepsL1Table self.old self.new) }
        ensures sound { (p : Pending) (out : Mappings) → ImageInvariant S.view F.backing p self.old out
            → MayName S.view self.old index
            → SaysKnown self.old.file.header.fields (known_in S.view self.old.file) index table
            → EntersSoundly S.view F.backing p index self.old out result
            (EntersTable S.view F.backing p self.old self.new out index result) }
    {
        let Some(allocator) = &mut self.allocator else {
            unreachable!();
        };
        let pending = allocator.allocate_meta(&mut self.file, ClusterCount::new(1))?;
        let cluster = pending.cluster();
        match self.write_l2(index, cluster, table) {
            Ok(()) => {
                pending.make_persistent();
                Ok(cluster)
            }
            Err(refusal) => {
                pending.hand_back(&mut self.file.free_list);
                Err(refusal)
            }
        }
    }

    // Writes what must be on the storage first, then the table's bytes, then its L1 entry.
    fn write_l2(
        &mut self,
        index: usize,
        cluster: HostCluster,
        table: L2Table,
    ) -> Result<(), ImageError>
        ensures step { ImageStepWhere S.view (0 < cluster) self.old self.new }
        ensures fails { ImageFails S.view F.backing self.old self.new result (MayFailOn self.new) }
        ensures keeps_rest { KeepsRest self.old self.new }
        ensures may_fail { (p : Pending) (out : Mappings)
            → ImageInvariant S.view F.backing (with_new_tables p (one_at cluster)) self.old out
            → SaysKnown self.old.file.header.fields (known_in S.view self.old.file) index table
            → HasNearEntry self.old index → IsHostCluster self.old.file.header.fields.cluster_bits cluster
            → IfErr result (MayFailLooking (HasPinnedMapping out)) }
        ensures allocator { self.new.allocator ≡ self.old.allocator }
        ensures l1_table { IfErr result (IsFaultOrKeepsL1Table self.old self.new) }
        ensures list { self.new.file.free_list ≡ self.old.file.free_list }
        ensures own { 0 < cluster → OnOk result (HasOwnEntry self.new index) }
        ensures writes { (p : Pending) (out : Mappings)
            → ImageInvariant S.view F.backing (with_new_tables p (one_at cluster)) self.old out
            → MayName S.view self.old index → IsTrue self.old.file.caches.is_changed
            → SaysKnown self.old.file.header.fields (known_in S.view self.old.file) index table
            → WritesNew S.view F.backing p self.old self.new out index cluster result }
    {
        if !self.can_enter(index, cluster) {
            return Err(ImageError::Limit);
        }
        self.store_first()?;
        self.write_l2_bytes(cluster, table)?;
        self.link_l2(index, cluster)
    }

    // Writes what must be on the storage before an L1 entry names a new table: refblocks, and before them L2 tables if the order of
    // writes requires it.
    #[tactic(auto, using(crate::proofs::Call::CacheErrors::fault_or_met))]
    fn store_first(&mut self) -> Result<(), ImageError>
        ensures step { ImageStep S.view self.old self.new }
        ensures fails { ImageFails S.view F.backing self.old self.new result (MayFailOn self.new) }
        ensures keeps_rest { KeepsRest self.old self.new }
        ensures fault { (p : Pending) (out : Mappings) → ImageInvariant S.view F.backing p self.old out → IfErr result IsFault }
        ensures rest { self.new ≡ record self.old {
          file = record self.old.file {
            storage = self.new.file.storage;
            caches = self.new.file.caches;
          };
        } }
        ensures recorded { IsTrue self.old.file.caches.is_changed → IsTrue self.new.file.caches.is_changed }
        ensures stores { (p : Pending) (out : Mappings) → ImageInvariant S.view F.backing p self.old out
            → Stores S.view F.backing p self.old self.new out result }
        ensures tables { order_of self.old.file.caches ≢ RbDependsOnL2 → self.new.file.caches.l2 ≡ self.old.file.caches.l2 }
    {
        self.file.caches.flush_rb(&mut self.file.storage)
    }

    // Writes a table's bytes to a cluster, and puts the table into the cache. A table with another cluster size than the image's, which
    // no cache holds, is refused 19 (metadata).
    #[tactic(auto, using(crate::proofs::Call::FailingErrors::storage_met, crate::proofs::Call::CacheErrors::in_use_met))]
    fn write_l2_bytes(&mut self, cluster: HostCluster, mut table: L2Table) -> Result<(), ImageError>
        ensures step { ImageStepWhere S.view (0 < cluster) self.old self.new }
        ensures fails { ImageFails S.view F.backing self.old self.new result (MayFailOn self.new) }
        ensures keeps_rest { KeepsRest self.old self.new }
        ensures may_fail { (p : Pending) (out : Mappings) → ImageInvariant S.view F.backing p self.old out
            → 0 < p.new_tables cluster → IsTableOf self.old.file.header.fields table → IsStored S.view self.old
            → IsHostCluster table.cluster_bits cluster → IfErr result (MayFailLooking (HasPinnedMapping out)) }
        ensures rest { self.new ≡ record self.old {
          file = record self.old.file {
            storage = self.new.file.storage;
            caches = self.new.file.caches;
          };
        } }
        ensures recorded { IsTrue self.old.file.caches.is_changed → IsTrue self.new.file.caches.is_changed }
        ensures long { length table.bytes ≡ 2 ^ table.cluster_bits }
        ensures places { (p : Pending) (out : Mappings) → ImageInvariant S.view F.backing p self.old out
            → 0 < p.new_tables cluster → IsTableOf self.old.file.header.fields table → IsStored S.view self.old
            → PlacesNewTable S.view F.backing p self.old self.new out cluster table.bytes result }
    {
        if !cluster.is_nameable(table.cluster_bits()) {
            return Err(ImageError::Limit);
        }
        if table.cluster_bits() != self.file.header.cluster_bits() {
            return Err(ImageError::Metadata);
        }
        table.set_cluster(cluster);
        self.file.storage.set_write_kind(WriteKind::Other);
        self.file.storage.write_new_l2_table(&table)?;
        table.clear_modified();
        self.file.caches.l2_insert(&mut self.file.storage, table)
    }

    // Writes the L1 entry of the table in a cluster.
    fn link_l2(&mut self, index: usize, cluster: HostCluster) -> Result<(), ImageError>
        requires enter { CanEnter self.old.l1_table index cluster }
        ensures step { ImageStep S.view self.old self.new }
        ensures fails { ImageFails S.view F.backing self.old self.new result (MayFailOn self.new) }
        ensures keeps_rest { KeepsRest self.old self.new }
        ensures allocator { self.new.allocator ≡ self.old.allocator }
        ensures fault { IfErr result IsFault }
        ensures list { self.new.file.free_list ≡ self.old.file.free_list }
        ensures own { 0 < cluster → OnOk result (HasOwnEntry self.new index) }
        ensures names { (p : Pending) (out : Mappings) (table : L2TableView)
            → ImageInvariant S.view F.backing (with_new_tables p (one_at cluster)) self.old out
            → MayName S.view self.old index → IsTrue self.old.file.caches.is_changed
            → SaysKnown self.old.file.header.fields (known_in S.view self.old.file) index table
            → length table.bytes ≡ 2 ^ table.cluster_bits → StandsReady S.view self.old cluster table.bytes
            → NamesNew S.view F.backing p self.old self.new out index cluster result }
    {
        self.file.storage.set_write_kind(WriteKind::Other);
        self.l1_table.enter_l2_table(index, cluster);
        self.file.storage.write_l1_entry(&self.l1_table, index)?;
        Ok(())
    }

    // Whether the L1 table has this entry, and the entry can hold the cluster.
    fn can_enter(&self, index: usize, cluster: HostCluster) -> bool
        ensures answer { IsTrue result → CanEnter self.now.l1_table index cluster }
        ensures near { HasNearEntry self.now index → IsSome self.now.l1_table.cluster
            → IsHostCluster self.now.l1_table.cluster_bits cluster → IsTrue result }
    {
        self.l1_table.in_bounds(index)
            && self.l1_table.get_cluster().is_some()
            && self.l1_table.has_entry_room(index)
            && cluster.is_nameable(self.l1_table.cluster_bits())
    }
}

//! Refblocks: loading one, incrementing a refcount in it, and making one that is missing.
ghost use Rattle.std.specs.Prelude.{◌≡◌, ◌≢◌, ◌/◌, false, ℕ, ◌*◌, ◌^◌, ◌<◌, ◌≤◌, Bool, None, Some, Ok, IfSome, IfOk};
ghost use Rattle.std.specs.Prelude.{IfErr, OnOk, IsErrOf, IsSome, IsTrue};
ghost use Rattle.qcow2_laws.specs.CrashInvariant.{Pending};
ghost use Rattle.qcow2_alloc.specs.Allocation.{placing, first_counts, CanName, HasPlaceFor, KeepsEntries, KeepsNamed, MayAllocate};
ghost use Rattle.qcow2_alloc.specs.Allocation.{LoadsBlock, WritesBlock, PlacesBlock, IsUnaligned, HasNone, AllocatesLowest};
ghost use Rattle.qcow2_alloc.specs.Allocation.{SameLeaks};
ghost use Rattle.qcow2_alloc.specs.KeptMarks.{KeepsMarks};
ghost use Rattle.qcow2_alloc.specs.CachePins.{LeavesPinned};
ghost use Rattle.qcow2_alloc.specs.SparedHeaders.{KeepBehindHeader};
ghost use Rattle.qcow2_alloc.specs.Leaks.{LoadsBlocks};
ghost use Rattle.qcow2_alloc.specs.Steps.{AllocatorFails, EnsuresSoundly, Fails, FindsBlock, GetsSoundly, TableStep, AllocatesGivenSoundly};
ghost use Rattle.qcow2_alloc.specs.Steps.{BlockStep, FileStep, RangeStep, ReachesSoundly};
ghost use Rattle.qcow2_alloc.specs.LowestRuns.{NoFreeBelowHint, KeepsNoFreeBelowHint, SearchesAnew, SearchStays};
ghost use Rattle.number_runs.specs.NumberRuns.{IsIn};
ghost use Rattle.qcow2_alloc.specs.ImageError.{IsOfTablesIf};
ghost use Rattle.qcow2_alloc.specs.ImageFile.{has_noted, AllocatorInvariant};
ghost use Rattle.qcow2_alloc.specs.ImageStorage.{is_changed_of};
ghost use Rattle.qcow2_laws.specs.Caches.{AreClean, BlocksMayGo};
ghost use Rattle.qcow2_alloc.specs.MetadataCaches.{order_of, l2_tables, refblocks, EvictsTable};
ghost use Rattle.qcow2_metadata.specs.L2Mapping.{IsHostCluster};
ghost use Rattle.qcow2_metadata.specs.Header.{counts_per_block};
ghost use Rattle.qcow2_metadata.specs.EntryTable.{entry_count};
ghost use Rattle.qcow2_metadata.specs.RefBlock.{count_at, IsRefBlock};
ghost use Rattle.qcow2_alloc.specs.TableCaches.{IsBlockOf};

use crate::{Allocator, ImageError, ImageFile, WriteKind};
use image_access::Storage;
use qcow2_metadata::{Header, HostCluster, RefBlock};
use std::alloc::Global;

// A refblock of refcounts 0, without a place. If it counts itself, the refcount of its range's first cluster is 1.
#[tactic(auto, using(crate::proofs::TableErrors::stored_of_tables))]
fn new_block(alloc: Global, header: &Header, counts_itself: bool) -> Result<RefBlock, ImageError>
    ensures format { IfOk result (IsBlockOf header.now.fields) }
    ensures whole { IfOk result IsRefBlock }
    ensures counts { IfOk result (λ block. (i : ℕ) → count_at block i ≡ first_counts counts_itself i) }
    ensures memory { IfErr result (λ e. e ≡ ImageError.Memory) }
    ensures cause { IfErr result (IsOfTablesIf ⊥) }
{
    let mut block = RefBlock::new_cleared(alloc, header)?;
    if counts_itself && block.counts() > 0 {
        block.increment(0);
    }
    Ok(block)
}

// Writes a new refblock to its cluster, after all refcounts. It is not cached: this takes no memory, and its first use loads it.
#[tactic(auto, using(crate::proofs::TableErrors::storage_of_tables))]
fn write_block<S: Storage>(
    file: &mut ImageFile<S>,
    block: &RefBlock,
    cluster: HostCluster,
) -> Result<(), ImageError>
    requires placed { block.now.cluster ≡ Some cluster }
    requires elsewhere { 0 < cluster }
    ensures step { BlockStep S.view block.now.cluster_bits file.old file.new }
    ensures fails { Fails S.view file.old.storage file.new.storage result (IsOfTablesIf ⊥) }
    ensures sound { (p : Pending) (counts_itself : Bool) (allocator : Allocator) (range : ℕ)
        → AllocatorInvariant S.view allocator (placing counts_itself p cluster) file.old
        → HasPlaceFor counts_itself file.old.header.fields allocator.reftable range cluster
        → IsBlockOf file.old.header.fields block.now → IsRefBlock block.now
        → WritesBlock S.view (placing counts_itself p cluster) file.old allocator file.new block.now cluster result }
    ensures counted { OnOk result (AreClean (refblocks file.new.caches)) }
    ensures recorded { OnOk result (IsTrue (is_changed_of file.new.storage)) }
    ensures first { OnOk result (BlocksMayGo (order_of file.new.caches) (l2_tables file.new.caches)) }
{
    file.caches.flush_rb(&mut file.storage)?;
    file.caches.rb_remove(cluster);
    file.storage.set_write_kind(WriteKind::Other);
    file.storage.write_new_refblock(block)?;
    Ok(())
}

#[tactic(auto, using(crate::proofs::TableErrors::storage_of_tables, crate::proofs::TableErrors::stored_of_tables))]
impl Allocator {
    /// Drops the refblocks without a pin, unwritten. Refcounts that were not written are lost, the remembered ones are forgotten, and the
    /// search for free clusters starts at cluster 0 again. Refused 21 (still in use) with the clusters of the pinned ones, and
    /// 14 (memory), which drops no refblock.
    pub fn invalidate_rb_cache<S: Storage>(
        &mut self,
        file: &mut ImageFile<S>,
    ) -> Result<(), ImageError>
        ensures tables { l2_tables file.new.caches ≡ l2_tables file.old.caches }
        ensures left { LeavesPinned file.old.caches.rb.entries result file.new.caches.rb.entries }
        ensures marks { KeepsMarks S.view file.old file.new }
        ensures taken { EvictsTable (AreClean (refblocks file.old.caches)) file.old.caches file.new.caches }
        ensures rest { file.new ≡ record file.old { caches = file.new.caches } }
        ensures header_cluster { KeepBehindHeader file.old.caches file.new.caches }
        ensures anew { SearchesAnew self.old self.new }
    {
        self.first_free_cluster = 0;
        self.forget_runs();
        file.caches.invalidate_rb()
    }

    // Loads the refblock of a range into the cache. None if the range has none.
    pub(crate) fn load_block<S: Storage>(
        &self,
        file: &mut ImageFile<S>,
        range: u64,
    ) -> Result<Option<HostCluster>, ImageError>
        ensures step { TableStep S.view self.now.reftable file.old self.now.reftable file.new }
        ensures fails { AllocatorFails S.view file.old self.now.reftable file.new result }
        ensures finds { IfOk result (FindsBlock file.old.header.fields self.now.reftable file.new.caches range) }
        ensures sound { (p : Pending) → AllocatorInvariant S.view self.now p file.old
            → LoadsBlock S.view p file.old self.now file.new range result }
        ensures unaligned { IsUnaligned file.old.header.fields self.now.reftable range
            → IsErrOf result ImageError.UnalignedTable × (file.new ≡ file.old) }
        ensures none { HasNone self.now.reftable range → (result ≡ Ok None) × (file.new ≡ file.old) }
        ensures loads { LoadsBlocks file.old.caches file.new.caches }
    {
        let Some(offset) = self.reftable.get(range as usize) else {
            return Ok(None);
        };
        let Some(cluster) = offset.checked_cluster(file.header.cluster_bits()) else {
            return Err(ImageError::UnalignedTable);
        };
        file.caches.rb_get_or_insert(&mut file.storage, cluster)?;
        Ok(Some(cluster))
    }

    // Increments a refcount of 0. False if it isn't 0, and for a spared cluster. Cluster 0 is the header's,
    // and is never counted here.
    pub(crate) fn increment_refcount<S: Storage>(
        &mut self,
        file: &mut ImageFile<S>,
        cluster: u64,
    ) -> Result<bool, ImageError>
        requires above { 0 < cluster }
        ensures step { TableStep S.view self.old.reftable file.old self.new.reftable file.new }
        ensures fails { AllocatorFails S.view file.old self.new.reftable file.new result }
        ensures sound { (p : Pending) (is_data : Bool) → AllocatorInvariant S.view self.old p file.old
            → MayAllocate is_data file.old
            → AllocatesGivenSoundly S.view p is_data self.old file.old self.new file.new cluster result }
        ensures recorded { IfOk result (λ taken. IsTrue taken → IsTrue file.new.caches.is_changed) }
        ensures spares { IfOk result (λ taken. IsTrue taken → IsIn self.old.named cluster → ⊥) }
        ensures same { self.new ≡ self.old }
    {
        if self.is_spared(cluster) {
            return Ok(false);
        }
        let bits = file.header.rb_bits();
        let Some(block) = self.load_block(file, cluster >> bits)? else {
            return Ok(false);
        };
        let index = HostCluster::new(cluster).rb_index(bits);
        Ok(file.caches.rb_allocate(block, index))
    }

    // Makes sure that the range of a cluster has a refblock, and makes the reftable longer if the range lies past its end.
    // A reftable without entries is not made longer.
    pub(crate) fn ensure_refblock<S: Storage>(
        &mut self,
        file: &mut ImageFile<S>,
        cluster: u64,
    ) -> Result<(), ImageError>
        requires { cluster < 2 ^ 63 }
        ensures step { FileStep S.view self.old.reftable file.old self.new.reftable file.new }
        ensures sound { (p : Pending) → AllocatorInvariant S.view self.old p file.old
            → ReachesSoundly S.view p cluster self.old file.old self.new file.new result }
        ensures fails { AllocatorFails S.view file.old self.new.reftable file.new result }
        ensures has { OnOk result (HasNone self.new.reftable (cluster / counts_per_block file.old.header.fields) → ⊥) }
        ensures named { cluster / counts_per_block file.old.header.fields < entry_count self.old.reftable
            → KeepsNamed self.old.reftable self.new.reftable }
    {
        let range = cluster >> file.header.rb_bits();
        if !self.lacks_block(range) {
            return Ok(());
        }
        let index = range as usize;
        if self.reftable.in_bounds(index) {
            return self.ensure_block(file, cluster);
        }
        // Without entries, nothing says which clusters are in use.
        let entries = self.reftable.len();
        if entries == 0 {
            return Err(ImageError::Limit);
        }
        self.grow_reftable(file, index)?;
        self.ensure_block(file, cluster)
    }

    // Makes sure that the range of a cluster has a refblock. A new refblock always lies where an entry can hold its offset. Its memory is
    // allocated before a cluster is counted for it.
    fn ensure_block<S: Storage>(
        &mut self,
        file: &mut ImageFile<S>,
        cluster: u64,
    ) -> Result<(), ImageError>
        requires { cluster < 2 ^ 63 }
        ensures step { TableStep S.view self.old.reftable file.old self.new.reftable file.new }
        ensures fails { AllocatorFails S.view file.old self.new.reftable file.new result }
        ensures sound { (p : Pending) → AllocatorInvariant S.view self.old p file.old
            → EnsuresSoundly S.view p self.old file.old self.new file.new cluster result }
        ensures leaks { SameLeaks self.old self.new }
        ensures has { OnOk result (HasNone self.new.reftable (cluster / counts_per_block file.old.header.fields) → ⊥) }
    {
        let bits = file.header.rb_bits();
        let range = cluster >> bits;
        if self.load_block(file, range)?.is_some() {
            return Ok(());
        }
        let first = HostCluster::new(range << bits);
        if !self.can_name(file.header.cluster_bits(), range as usize, first) {
            return Err(ImageError::Limit);
        }
        let block = new_block(file.alloc, &file.header, false)?;
        match self.allocate_lowest_below(file, range << bits) {
            Ok(Some(at)) => self.place_block(file, range, at, block),
            Ok(None) => self.ensure_self_counting_refblock(file, range),
            Err(refusal) => {
                if refusal.is_fault() {
                    return Err(refusal);
                }
                self.ensure_self_counting_refblock(file, range)
            }
        }
    }

    // Allocates the lowest free cluster below an end, and makes refblocks that count themselves if they are needed. Cluster 0 is the header's.
    fn allocate_lowest_below<S: Storage>(
        &mut self,
        file: &mut ImageFile<S>,
        end: u64,
    ) -> Result<Option<u64>, ImageError>
        requires { end < 2 ^ 63 }
        ensures step { TableStep S.view self.old.reftable file.old self.new.reftable file.new }
        ensures recorded { IfOk result (λ at. IsSome at → IsTrue file.new.caches.is_changed) }
        ensures below { IfOk result (λ at. IfSome at (λ at. (0 < at) × (at < end))) }
        ensures entries { KeepsEntries (λ k. end ≤ k * counts_per_block file.old.header.fields)
            self.old.reftable self.new.reftable }
        ensures sound { (p : Pending) → AllocatorInvariant S.view self.old p file.old
            → AllocatesLowest S.view p file.old self.new file.new result }
        ensures fails { AllocatorFails S.view file.old self.new.reftable file.new result }
        ensures leaks { SameLeaks self.old self.new }
        ensures hint { (p : Pending) → AllocatorInvariant S.view self.old p file.old
            → NoFreeBelowHint S.view self.old file.old → KeepsNoFreeBelowHint S.view self.new file.new result }
    {
        self.skip_kept();
        let Some(cluster) = self.search_below(file, end)? else {
            return Ok(None);
        };
        self.record_used(cluster, true, file.header.rb_bits());
        Ok(Some(cluster))
    }

    // Allocates the lowest free cluster from the first free one on, without removing it from its free run.
    fn search_below<S: Storage>(
        &mut self,
        file: &mut ImageFile<S>,
        end: u64,
    ) -> Result<Option<u64>, ImageError>
        requires { end < 2 ^ 63 }
        ensures step { TableStep S.view self.old.reftable file.old self.new.reftable file.new }
        ensures recorded { IfOk result (λ at. IsSome at → IsTrue file.new.caches.is_changed) }
        ensures below { IfOk result (λ at. IfSome at (λ at. (0 < at) × (at < end))) }
        ensures entries { KeepsEntries (λ k. end ≤ k * counts_per_block file.old.header.fields)
            self.old.reftable self.new.reftable }
        ensures sound { (p : Pending) → AllocatorInvariant S.view self.old p file.old
            → AllocatesLowest S.view p file.old self.new file.new result }
        ensures fails { AllocatorFails S.view file.old self.new.reftable file.new result }
        ensures leaks { SameLeaks self.old self.new }
        ensures hint { (p : Pending) → AllocatorInvariant S.view self.old p file.old
            → NoFreeBelowHint S.view self.old file.old → KeepsNoFreeBelowHint S.view self.new file.new result }
    {
        let bits = file.header.rb_bits();
        self.first_free_cluster = self.first_free_cluster.max(1);
        'search: while self.first_free_cluster < end {
            let cluster = self.first_free_cluster;
            self.ensure_self_counting_refblock(file, cluster >> bits)?;
            let taken = self.increment_refcount(file, cluster)?;
            self.first_free_cluster = cluster + 1;
            if taken {
                return Ok(Some(cluster));
            }
            self.first_free_cluster = self.next_open(file, cluster + 1)?;
        }
        Ok(None)
    }

    // Makes sure that a range has a refblock. A new one lies in the range's first cluster and counts itself.
    fn ensure_self_counting_refblock<S: Storage>(
        &mut self,
        file: &mut ImageFile<S>,
        range: u64,
    ) -> Result<(), ImageError>
        requires { range * counts_per_block file.old.header.fields < 2 ^ 63 }
        ensures step { TableStep S.view self.old.reftable file.old self.new.reftable file.new }
        ensures fails { AllocatorFails S.view file.old self.new.reftable file.new result }
        ensures sound { (p : Pending) → AllocatorInvariant S.view self.old p file.old
            → GetsSoundly S.view p self.old file.old self.new file.new range result }
        ensures entries { KeepsEntries (λ k. k ≢ range) self.old.reftable self.new.reftable }
        ensures leaks { SameLeaks self.old self.new }
        ensures first { SearchStays self.old self.new }
        ensures has { OnOk result (HasNone self.new.reftable range → ⊥) }
    {
        if self.load_block(file, range)?.is_some() {
            return Ok(());
        }
        let at = range << file.header.rb_bits();
        let bits = file.header.cluster_bits();
        if !self.can_name(bits, range as usize, HostCluster::new(at)) {
            return Err(ImageError::Limit);
        }
        let block = new_block(file.alloc, &file.header, true)?;
        self.place_block(file, range, at, block)
    }

    // Places the refblock of a range in a cluster that was allocated for it, or in the range's first cluster, where it counts itself.
    // Its reftable entry is written last.
    fn place_block<S: Storage>(
        &mut self,
        file: &mut ImageFile<S>,
        range: u64,
        at: u64,
        block: RefBlock,
    ) -> Result<(), ImageError>
        requires place { CanName file.old.header.fields.cluster_bits self.old.reftable range at }
        requires block { IsBlockOf file.old.header.fields block × IsRefBlock block }
        ensures step { RangeStep S.view range self.old.reftable file.old self.new.reftable file.new }
        ensures fails { AllocatorFails S.view file.old self.new.reftable file.new result }
        ensures sound { (p : Pending) (counts_itself : Bool)
            → AllocatorInvariant S.view self.old (placing counts_itself p at) file.old
            → HasPlaceFor counts_itself file.old.header.fields self.old.reftable range at
            → ((i : ℕ) → count_at block i ≡ first_counts counts_itself i)
            → PlacesBlock S.view (placing counts_itself p at) file.old self.new file.new p range at result }
        ensures recorded { OnOk result (IsTrue (has_noted file.new)) }
        ensures has { OnOk result (HasNone self.new.reftable range → ⊥) }
        ensures rest { self.new ≡ record self.old { reftable = self.new.reftable } }
    {
        let cluster = HostCluster::new(at);
        let mut block = block;
        block.set_cluster(cluster);
        write_block(file, &block, cluster)?;
        self.reftable.enter_refblock(range as usize, cluster);
        file.storage.set_write_kind(WriteKind::Other);
        file.storage
            .write_reftable_entry(&self.reftable, range as usize)?;
        Ok(())
    }

    // Whether the reftable has an entry for a range, and the entry may hold this cluster. It may not hold cluster 0, which is the header's.
    fn can_name(&self, cluster_bits: u32, index: usize, cluster: HostCluster) -> bool
        requires { cluster_bits < 64 }
        ensures within { IsTrue result → index < entry_count self.now.reftable }
        ensures placed { IsTrue result → IsSome self.now.reftable.cluster }
        ensures elsewhere { IsTrue result → 0 < cluster }
        ensures nameable { IsTrue result → IsHostCluster self.now.reftable.cluster_bits cluster }
        ensures nameable_here { IsTrue result → IsHostCluster cluster_bits cluster }
        ensures able { index < entry_count self.now.reftable → 0 < cluster → IsSome self.now.reftable.cluster
            → IsHostCluster self.now.reftable.cluster_bits cluster → IsHostCluster cluster_bits cluster
            → IsTrue result }
    {
        self.reftable.in_bounds(index)
            && cluster.value() > 0
            && self.reftable.get_cluster().is_some()
            && cluster.is_nameable(self.reftable.cluster_bits())
            && cluster.is_nameable(cluster_bits)
    }
}

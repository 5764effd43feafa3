//! Allocating clusters of the image's file.
ghost use Rattle.std.specs.Prelude.{◌≡◌, false, ◌+◌, ◌-◌, ◌^◌, ◌<◌, ◌≤◌, Bool, IfOk, OnOk, OnErr, IsSome, IsTrue, MatchResult};
ghost use Rattle.qcow2_laws.specs.Clusters.{L2DependsOnRb};
ghost use Rattle.qcow2_laws.specs.CrashInvariant.{Pending};
ghost use Rattle.qcow2_alloc.specs.Allocation.{MayAllocate, AllocatesSomeRun, is_data, Allocates, SameLeaks};
ghost use Rattle.qcow2_alloc.specs.FreeList.{pending_then};
ghost use Rattle.qcow2_alloc.specs.Steps.{AllocatorFails, Fails, FileStep, AllocatesClusterSoundly, AllocatesRunSoundly, DataStep, AllocatesAtSoundly};
ghost use Rattle.qcow2_alloc.specs.Steps.{AllocatesSoundly, BeginsFrom, ReadsFile, AllocatesLowestSoundly};
ghost use Rattle.qcow2_alloc.specs.ImageError.{IsOfReftableLoad};
ghost use Rattle.qcow2_alloc.specs.ImageFile.{view_in, contents_in, AllocatorInvariant};
ghost use Rattle.qcow2_alloc.specs.LoadedTables.{IsReasonAgainstReftable, ReftableReads};
ghost use Rattle.qcow2_alloc.specs.ImageStorage.{SameNotes};
ghost use Rattle.qcow2_alloc.specs.BegunAnew.{BeginsAnew};
ghost use Rattle.qcow2_alloc.specs.MetadataCaches.{order_of};
ghost use Rattle.qcow2_metadata.specs.L2Mapping.{IsHostCluster};

use crate::free_runs::MOST_KNOWN;
use crate::spared_clusters::MOST_SPARED;
use crate::{
    ClusterKind, ClustersToFreeEntry, ClustersToFreeList, ImageError, ImageFile, PendingClusters,
};
use image_access::Storage;
use number_runs::NumberRuns;
use qcow2_metadata::{ClusterCount, HostCluster, MAX_HOST_OFFSET, MAX_REFTABLE_ENTRIES, RefTable};

/// Allocates clusters, and frees those on the list of clusters to free. No cluster below the first free one is free, and none of a range
/// that was read is free unless it lies in a free run.
#[derive(Drop)]
pub struct Allocator {
    pub(crate) reftable: RefTable,
    pub(crate) first_free_cluster: u64,
    pub(crate) leaked_clusters: u64,
    pub(crate) named: NumberRuns,
    /// The clusters of the ranges whose refblocks were read.
    pub(crate) read: NumberRuns,
    /// The free ones among these. No run crosses the end of a range.
    pub(crate) free: NumberRuns,
    /// The first cluster of the last range that there was no room to remember, or `u64::MAX`.
    pub(crate) crowded: u64,
}

#[tactic(auto, using(crate::proofs::TableErrors::storage_of_tables, crate::proofs::TableErrors::stored_of_tables))]
impl Allocator {
    /// Loads the reftable. Refused 4 (unaligned table) if its offset is not aligned, 13 (limit) if it would end past 64 bits,
    /// 19 (metadata) if an entry has a reserved bit, and 14 (memory) or 15 (storage) during the work.
    pub fn new<S: Storage>(file: &mut ImageFile<S>) -> Result<Allocator, ImageError>
        ensures step { ReadsFile S.view file.old file.new }
        ensures fails { Fails S.view file.old.storage file.new.storage result IsOfReftableLoad }
        ensures why { (view_in S.view file.old).is_honest
            → MatchResult result (λ allocator. ReftableReads file.old.header.fields (contents_in S.view file.old))
            (IsReasonAgainstReftable file.old.header.fields (contents_in S.view file.old)) }
        ensures begins { IfOk result (BeginsFrom S.view file.old file.new) }
        ensures unrecorded { SameNotes file.old.storage file.new.storage }
    {
        let bits = file.header.cluster_bits();
        let Some(cluster) = file.header.reftable_offset().checked_cluster(bits) else {
            return Err(ImageError::UnalignedTable);
        };
        let entries = file.header.reftable_entries() as usize;
        let reftable = file
            .storage
            .load_reftable(file.alloc, &file.header, cluster, entries)?;
        Ok(Allocator {
            reftable,
            first_free_cluster: 0,
            leaked_clusters: 0,
            named: NumberRuns::new(file.alloc, MOST_SPARED),
            read: NumberRuns::new(file.alloc, MOST_KNOWN),
            free: NumberRuns::new(file.alloc, MOST_KNOWN),
            crowded: u64::MAX,
        })
    }

    /// Loads the reftable again, and starts the search for free clusters at cluster 0 again. The count of leaked clusters stays the same. Refused
    /// as `new` is; the allocator is then unchanged.
    pub fn load_anew<S: Storage>(&mut self, file: &mut ImageFile<S>) -> Result<(), ImageError>
        ensures step { ReadsFile S.view file.old file.new }
        ensures unrecorded { SameNotes file.old.storage file.new.storage }
        ensures fails { Fails S.view file.old.storage file.new.storage result IsOfReftableLoad }
        ensures why { (view_in S.view file.old).is_honest
            → MatchResult result (λ done. ReftableReads file.old.header.fields (contents_in S.view file.old))
            (IsReasonAgainstReftable file.old.header.fields (contents_in S.view file.old)) }
        ensures begins { OnOk result (BeginsAnew S.view file.old file.new self.new) }
        ensures leaks { self.new.leaked_clusters ≡ self.old.leaked_clusters }
        ensures refused { OnErr result (self.new ≡ self.old) }
    {
        let leaked_clusters = self.leaked_clusters;
        *self = Allocator::new(file)?;
        self.leaked_clusters = leaked_clusters;
        Ok(())
    }

    /// How many clusters could not be freed. The counter stops at the greatest `u64`.
    pub fn leaked_clusters(&self) -> u64
        ensures { result ≡ self.now.leaked_clusters }
    {
        self.leaked_clusters
    }

    /// No cluster below this one is free.
    pub fn first_free_cluster(&self) -> HostCluster
        ensures { result ≡ self.now.first_free_cluster }
    {
        HostCluster::new(self.first_free_cluster)
    }

    /// Allocates the lowest free run of `count` clusters for metadata. The count must be at least 1.
    /// Refused 13 (limit) if there is no such run up to the greatest host offset, for no clusters, or if there is no room for a refblock or a
    /// longer reftable that is needed. Refused 4 (unaligned table) if the entry of a needed refblock is not aligned, 8 (everything is in use) if
    /// the cache has no room for a refblock, and 14 (memory) or 15 (storage) during the work.
    pub fn allocate_meta<S: Storage>(
        &mut self,
        file: &mut ImageFile<S>,
        count: ClusterCount,
    ) -> Result<PendingClusters, ImageError>
        ensures step { FileStep S.view self.old.reftable file.old self.new.reftable file.new }
        ensures recorded { OnOk result (IsTrue file.new.caches.is_changed) }
        ensures sound { (p : Pending) → AllocatorInvariant S.view self.old p file.old
            → AllocatesSoundly S.view p ClusterKind.Metadata count self.old file.old self.new file.new result }
        ensures nameable { IfOk result (λ p. IsHostCluster file.old.header.fields.cluster_bits p.first_cluster) }
        ensures elsewhere { IfOk result (λ p. 0 < p.first_cluster) }
        ensures fails { AllocatorFails S.view file.old self.new.reftable file.new result }
    {
        self.allocate(file, count, ClusterKind::Metadata)
    }

    /// Allocates the lowest free run of `count` clusters for data. The count must be at least 1. From then on refblocks are written before
    /// L2 tables. Refused as `allocate_meta` is.
    pub fn allocate_data<S: Storage>(
        &mut self,
        file: &mut ImageFile<S>,
        count: ClusterCount,
    ) -> Result<PendingClusters, ImageError>
        ensures step { DataStep S.view self.old.reftable file.old self.new.reftable file.new }
        ensures order { OnOk result (order_of file.new.caches ≡ L2DependsOnRb) }
        ensures recorded { OnOk result (IsTrue file.new.caches.is_changed) }
        ensures sound { (p : Pending) → AllocatorInvariant S.view self.old p file.old
            → AllocatesSoundly S.view p ClusterKind.Data count self.old file.old self.new file.new result }
        ensures nameable { IfOk result (λ p. IsHostCluster file.old.header.fields.cluster_bits p.first_cluster) }
        ensures elsewhere { IfOk result (λ p. 0 < p.first_cluster) }
        ensures fails { AllocatorFails S.view file.old self.new.reftable file.new result }
    {
        file.caches.l2_depends_on_rb(&mut file.storage)?;
        self.allocate(file, count, ClusterKind::Data)
    }

    /// Allocates exactly this cluster for data. None if the cluster is 0, is in use, or passes a limit: the greatest offset of a host
    /// cluster, or the last entry that a reftable may have. From then on refblocks are written before L2 tables. Refused as
    /// `allocate_meta` is, with 13 (limit) if there is no room for a refblock or a longer reftable.
    pub fn allocate_data_at<S: Storage>(
        &mut self,
        file: &mut ImageFile<S>,
        cluster: HostCluster,
    ) -> Result<Option<PendingClusters>, ImageError>
        ensures step { DataStep S.view self.old.reftable file.old self.new.reftable file.new }
        ensures order { OnOk result (order_of file.new.caches ≡ L2DependsOnRb) }
        ensures recorded { IfOk result (λ run. IsSome run → IsTrue file.new.caches.is_changed) }
        ensures sound { (p : Pending) → AllocatorInvariant S.view self.old p file.old
            → AllocatesAtSoundly S.view p cluster self.old file.old self.new file.new result }
        ensures nameable { IfOk result (λ run. IsSome run → IsHostCluster file.old.header.fields.cluster_bits cluster) }
        ensures elsewhere { IfOk result (λ run. IsSome run → 0 < cluster) }
        ensures fails { AllocatorFails S.view file.old self.new.reftable file.new result }
    {
        file.caches.l2_depends_on_rb(&mut file.storage)?;
        let at = cluster.value();
        if at == 0 {
            return Ok(None);
        }
        if !cluster.is_nameable(file.header.cluster_bits()) {
            return Ok(None);
        }
        let range = at >> file.header.rb_bits();
        if range >= MAX_REFTABLE_ENTRIES as u64 {
            return Ok(None);
        }
        let entry = ClustersToFreeEntry::data(cluster, ClusterCount::new(1));
        let Ok(pending) = ClustersToFreeList::pending_guard(file.alloc, entry) else {
            return Err(ImageError::Memory);
        };
        match self.allocate_cluster(file, cluster.value()) {
            Ok(true) => Ok(Some(pending)),
            Ok(false) => {
                pending.make_persistent();
                Ok(None)
            }
            Err(refusal) => {
                pending.make_persistent();
                Err(refusal)
            }
        }
    }

    // Allocates a run of clusters. Memory for its entry in a list is allocated before anything changes.
    fn allocate<S: Storage>(
        &mut self,
        file: &mut ImageFile<S>,
        count: ClusterCount,
        kind: ClusterKind,
    ) -> Result<PendingClusters, ImageError>
        ensures step { FileStep S.view self.old.reftable file.old self.new.reftable file.new }
        ensures recorded { OnOk result (IsTrue file.new.caches.is_changed) }
        ensures sound { (p : Pending) → AllocatorInvariant S.view self.old p file.old → MayAllocate (is_data kind) file.old
            → AllocatesLowestSoundly S.view
            (Allocates S.view p file.old self.new file.new
            (pending_then p file.old.free_list file.new.free_list) kind count result)
            (λ run. run.first_cluster) count self.old file.old self.new file.new result }
        ensures nameable { IfOk result (λ p. IsHostCluster file.old.header.fields.cluster_bits p.first_cluster) }
        ensures elsewhere { IfOk result (λ p. 0 < p.first_cluster) }
        ensures fails { AllocatorFails S.view file.old self.new.reftable file.new result }
        ensures leaks { (p : Pending) → AllocatorInvariant S.view self.old p file.old → SameLeaks self.old self.new }
    {
        let entry = ClustersToFreeEntry {
            first_cluster: HostCluster::new(0),
            count,
            kind,
        };
        let Ok(pending) = ClustersToFreeList::pending_guard(file.alloc, entry) else {
            return Err(ImageError::Memory);
        };
        match self.lowest_run(file, count.value()) {
            Ok(first) => Ok(pending.placed_at(HostCluster::new(first))),
            Err(refusal) => {
                pending.make_persistent();
                Err(refusal)
            }
        }
    }

    // Allocates the lowest free run of n clusters below the greatest offset. Cluster 0 is the header's, whatever its refcount is.
    fn lowest_run<S: Storage>(&mut self, file: &mut ImageFile<S>, n: u64) -> Result<u64, ImageError>
        ensures step { FileStep S.view self.old.reftable file.old self.new.reftable file.new }
        ensures recorded { OnOk result (IsTrue file.new.caches.is_changed) }
        ensures sound { (p : Pending) (is_data : Bool) → AllocatorInvariant S.view self.old p file.old
            → MayAllocate is_data file.old → AllocatesLowestSoundly S.view
            (AllocatesSomeRun S.view p file.old self.new file.new
            (pending_then p file.old.free_list file.new.free_list) is_data n result)
            (λ first. first) n self.old file.old self.new file.new result }
        ensures nameable { IfOk result (λ first. IsHostCluster file.old.header.fields.cluster_bits first) }
        ensures elsewhere { IfOk result (λ first. 0 < first) }
        ensures fails { AllocatorFails S.view file.old self.new.reftable file.new result }
        ensures leaks { (p : Pending) → AllocatorInvariant S.view self.old p file.old → SameLeaks self.old self.new }
    {
        self.skip_kept();
        self.search_run(file, n)
    }

    // Allocates the lowest free run from the first free cluster on.
    fn search_run<S: Storage>(&mut self, file: &mut ImageFile<S>, n: u64) -> Result<u64, ImageError>
        ensures step { FileStep S.view self.old.reftable file.old self.new.reftable file.new }
        ensures recorded { OnOk result (IsTrue file.new.caches.is_changed) }
        ensures sound { (p : Pending) (is_data : Bool) → AllocatorInvariant S.view self.old p file.old
            → MayAllocate is_data file.old → AllocatesLowestSoundly S.view
            (AllocatesSomeRun S.view p file.old self.new file.new
            (pending_then p file.old.free_list file.new.free_list) is_data n result)
            (λ first. first) n self.old file.old self.new file.new result }
        ensures nameable { IfOk result (λ first. IsHostCluster file.old.header.fields.cluster_bits first) }
        ensures elsewhere { IfOk result (λ first. 0 < first) }
        ensures fails { AllocatorFails S.view file.old self.new.reftable file.new result }
        ensures leaks { (p : Pending) → AllocatorInvariant S.view self.old p file.old → SameLeaks self.old self.new }
    {
        let limit = (MAX_HOST_OFFSET >> file.header.cluster_bits()) + 1;
        self.first_free_cluster = self.first_free_cluster.max(1);
        let mut first = self.first_free_cluster;
        'search: while 0 < n && n <= limit && first <= limit - n {
            let taken = self.try_run(file, first, n)?;
            if taken == n {
                return Ok(first);
            }
            first = self.next_free_from(file, first + taken + 1)?;
        }
        Err(ImageError::Limit)
    }

    // Allocates the n clusters from `first` on, as `allocate_run` does. If `room_from` finds a cluster that is remembered as in use, none is
    // allocated, and the result is the number of clusters before it.
    fn try_run<S: Storage>(
        &mut self,
        file: &mut ImageFile<S>,
        first: u64,
        n: u64,
    ) -> Result<u64, ImageError>
        requires near { first + n < 2 ^ 63 }
        requires above { 0 < first }
        ensures step { FileStep S.view self.old.reftable file.old self.new.reftable file.new }
        ensures fails { AllocatorFails S.view file.old self.new.reftable file.new result }
        ensures sound { (p : Pending) (is_data : Bool) → AllocatorInvariant S.view self.old p file.old
            → MayAllocate is_data file.old
            → AllocatesRunSoundly S.view p is_data self.old file.old self.new file.new first n result }
        ensures recorded { IfOk result (λ taken. taken ≡ n → 0 < n → IsTrue file.new.caches.is_changed) }
        ensures within { IfOk result (λ taken. taken ≤ n) }
    {
        let room = self.room_from(first, n);
        if room < n {
            return Ok(room);
        }
        self.allocate_run(file, first, n)
    }

    // Allocates the n clusters from `first` on, and returns n. If one is in use, those before it are freed again, and the result is their number.
    fn allocate_run<S: Storage>(
        &mut self,
        file: &mut ImageFile<S>,
        first: u64,
        n: u64,
    ) -> Result<u64, ImageError>
        requires near { first + n < 2 ^ 63 }
        requires above { 0 < first }
        ensures step { FileStep S.view self.old.reftable file.old self.new.reftable file.new }
        ensures fails { AllocatorFails S.view file.old self.new.reftable file.new result }
        ensures sound { (p : Pending) (is_data : Bool) → AllocatorInvariant S.view self.old p file.old
            → MayAllocate is_data file.old
            → AllocatesRunSoundly S.view p is_data self.old file.old self.new file.new first n result }
        ensures recorded { IfOk result (λ taken. taken ≡ n → 0 < n → IsTrue file.new.caches.is_changed) }
        ensures within { IfOk result (λ taken. taken ≤ n) }
    {
        'taking: for taken in 0..n {
            match self.allocate_cluster(file, first + taken) {
                Ok(true) => {}
                Ok(false) => {
                    self.give_back(file, first, taken)?;
                    return Ok(taken);
                }
                Err(refusal) => {
                    if !refusal.is_fault() {
                        self.give_back(file, first, taken)?;
                    }
                    return Err(refusal);
                }
            }
        }
        Ok(n)
    }

    // Allocates a cluster if its refcount is 0. If its refcount has no refblock, makes one, and a longer reftable if that has no entry for it.
    fn allocate_cluster<S: Storage>(
        &mut self,
        file: &mut ImageFile<S>,
        cluster: u64,
    ) -> Result<bool, ImageError>
        requires near { cluster < 2 ^ 63 }
        requires above { 0 < cluster }
        ensures step { FileStep S.view self.old.reftable file.old self.new.reftable file.new }
        ensures fails { AllocatorFails S.view file.old self.new.reftable file.new result }
        ensures sound { (p : Pending) (is_data : Bool) → AllocatorInvariant S.view self.old p file.old
            → MayAllocate is_data file.old
            → AllocatesClusterSoundly S.view p is_data self.old file.old self.new file.new cluster result }
        ensures recorded { IfOk result (λ taken. IsTrue taken → IsTrue file.new.caches.is_changed) }
    {
        self.ensure_refblock(file, cluster)?;
        let taken = self.increment_refcount(file, cluster)?;
        self.record_used(cluster, taken, file.header.rb_bits());
        if cluster == self.first_free_cluster {
            self.first_free_cluster = cluster + 1;
        }
        Ok(taken)
    }
}

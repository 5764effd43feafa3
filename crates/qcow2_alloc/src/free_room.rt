//! Finding room for a longer reftable: a run of free clusters for the table and for the refblocks that it needs.
ghost use Rattle.std.specs.Prelude.{◌≡◌, ◌+◌, ◌/◌, ◌^◌, ◌<◌, ◌≤◌, false, IfOk, IsTrue};
ghost use Rattle.qcow2_metadata.specs.Header.{counts_per_block};
ghost use Rattle.qcow2_laws.specs.CrashInvariant.{Pending};
ghost use Rattle.qcow2_alloc.specs.Allocation.{InternalAllocatorStep};
ghost use Rattle.qcow2_alloc.specs.GrownTables.{with_run};
ghost use Rattle.qcow2_alloc.specs.ImageFile.{AllocatorInvariant};
ghost use Rattle.qcow2_alloc.specs.LowestRuns.{IsUsed, NoFreeBelowHint, SearchStays};
ghost use Rattle.qcow2_alloc.specs.Rooms.{lacks, opens, IsReach, IsRoomBelow, AllocatesFree};
ghost use Rattle.qcow2_alloc.specs.Steps.{AllocatorFails, TableStep, ReachesRoomSoundly, AllocatesRoomSoundly};
ghost use Rattle.qcow2_alloc.specs.Steps.{LeavesSoundly};

use crate::free_runs::range_around;
use crate::{Allocator, ImageError, ImageFile};
use image_access::Storage;

/// A run of clusters for new refblocks, and behind them for a reftable.
#[derive(Clone, Copy)]
pub(crate) struct Room {
    /// The first cluster.
    pub first: u64,
    /// The number of clusters for refblocks.
    pub blocks: u64,
    /// The number of clusters for the reftable.
    pub clusters: u64,
}

/// How many clusters of a run are allocated, and how many of the ranges that it enters have no refblock.
#[derive(Clone, Copy)]
struct Reach {
    taken: u64,
    blocks: u64,
}

impl Allocator {
    // Allocates the first room below an end for this many clusters of a reftable, and forgets the remembered refcounts of its ranges.
    pub(crate) fn allocate_room<S: Storage>(
        &mut self,
        file: &mut ImageFile<S>,
        clusters: u64,
        end: u64,
    ) -> Result<Room, ImageError>
        requires some { 0 < clusters }
        requires few { clusters ≤ 2 ^ 32 }
        requires near { end ≤ 2 ^ 60 }
        ensures step { TableStep S.view self.old.reftable file.old self.new.reftable file.new }
        ensures fails { AllocatorFails S.view file.old self.new.reftable file.new result }
        ensures sound { (p : Pending) → AllocatorInvariant S.view self.old p file.old
            → AllocatesRoomSoundly S.view p clusters end self.old file.old self.new file.new result }
        ensures room { IfOk result (IsRoomBelow file.old.header.fields self.old.reftable clusters end file.new) }
        ensures reftable { self.new.reftable ≡ self.old.reftable }
        ensures first { SearchStays self.old self.new }
    {
        let room = self.find_room(file, clusters, end)?;
        let bits = file.header.rb_bits();
        let (first, _) = range_around(room.first, bits);
        let (_, behind) = range_around(room.first + room.blocks + room.clusters, bits);
        self.forget_range(first, behind);
        Ok(room)
    }

    // Allocates the first room, as `allocate_room` does, without forgetting refcounts.
    fn find_room<S: Storage>(
        &mut self,
        file: &mut ImageFile<S>,
        clusters: u64,
        end: u64,
    ) -> Result<Room, ImageError>
        requires some { 0 < clusters }
        requires few { clusters ≤ 2 ^ 32 }
        requires near { end ≤ 2 ^ 60 }
        ensures step { TableStep S.view self.old.reftable file.old self.new.reftable file.new }
        ensures fails { AllocatorFails S.view file.old self.new.reftable file.new result }
        ensures sound { (p : Pending) → AllocatorInvariant S.view self.old p file.old
            → AllocatesRoomSoundly S.view p clusters end self.old file.old self.new file.new result }
        ensures room { IfOk result (IsRoomBelow file.old.header.fields self.old.reftable clusters end file.new) }
        ensures reftable { self.new.reftable ≡ self.old.reftable }
        ensures first { SearchStays self.old self.new }
    {
        let mut first = self.first_free_cluster.max(1);
        'search: while first < end {
            let reach = self.reserve_room(file, first, clusters, end)?;
            if reach.taken == reach.blocks + clusters {
                return Ok(Room {
                    first,
                    blocks: reach.blocks,
                    clusters,
                });
            }
            self.leave_run(file, first, reach.taken)?;
            first = self.next_open(file, first + reach.taken + 1)?;
        }
        Err(ImageError::Limit)
    }

    // Allocates clusters from `first` on until there is room, or one is in use, or the end comes.
    fn reserve_room<S: Storage>(
        &mut self,
        file: &mut ImageFile<S>,
        first: u64,
        clusters: u64,
        end: u64,
    ) -> Result<Reach, ImageError>
        requires above { 0 < first }
        requires below { first < end }
        requires few { clusters ≤ 2 ^ 32 }
        requires near { end ≤ 2 ^ 60 }
        ensures step { TableStep S.view self.old.reftable file.old self.new.reftable file.new }
        ensures fails { AllocatorFails S.view file.old self.new.reftable file.new result }
        ensures sound { (p : Pending) → AllocatorInvariant S.view self.old p file.old
            → ReachesRoomSoundly S.view p first clusters end self.old file.old self.new file.new result }
        ensures reach { IfOk result (IsReach file.old.header.fields self.old.reftable first clusters end file.new) }
        ensures same { self.new ≡ self.old }
    {
        let bits = file.header.rb_bits();
        let mut taken = 0;
        let mut blocks = 0;
        'reaching: while taken < blocks + clusters && taken < end - first {
            let cluster = first + taken;
            if !self.allocate_if_free(file, cluster, bits)? {
                return Ok(Reach { taken, blocks });
            }
            blocks += u64::from(self.opens_range(first, cluster, bits));
            taken += 1;
        }
        Ok(Reach { taken, blocks })
    }

    // Allocates a cluster if it is free. False if it is in use or spared. A cluster whose range has no refblock has no
    // refcount to increment.
    fn allocate_if_free<S: Storage>(
        &mut self,
        file: &mut ImageFile<S>,
        cluster: u64,
        bits: u32,
    ) -> Result<bool, ImageError>
        requires counts { counts_per_block file.old.header.fields ≡ 2 ^ bits }
        requires few { bits < 64 }
        requires above { 0 < cluster }
        ensures step { TableStep S.view self.old.reftable file.old self.new.reftable file.new }
        ensures same { self.new ≡ self.old }
        ensures sound { (p : Pending) → AllocatorInvariant S.view self.old p file.old
            → AllocatesFree S.view p file.old self.new file.new self.old.reftable cluster result }
        ensures recorded { IfOk result (λ taken. IsTrue taken → lacks self.old.reftable (cluster / 2 ^ bits) ≡ false
            → IsTrue file.new.caches.is_changed) }
        ensures fails { AllocatorFails S.view file.old self.new.reftable file.new result }
        ensures used { (p : Pending) → AllocatorInvariant S.view self.old p file.old
            → NoFreeBelowHint S.view self.old file.old
            → IfOk result (λ taken. taken ≡ false → IsUsed S.view file.new cluster) }
    {
        if self.is_spared(cluster) {
            return Ok(false);
        }
        if self.lacks_block(cluster >> bits) {
            return Ok(true);
        }
        match self.increment_refcount(file, cluster) {
            Ok(taken) => Ok(taken),
            Err(refusal) => {
                if refusal.is_fault() {
                    return Err(refusal);
                }
                Ok(false)
            }
        }
    }

    // Frees the clusters of a run that are counted.
    fn leave_run<S: Storage>(
        &mut self,
        file: &mut ImageFile<S>,
        first: u64,
        n: u64,
    ) -> Result<(), ImageError>
        requires near { first + n < 2 ^ 63 }
        requires free { self.old.first_free_cluster ≤ first }
        ensures step { TableStep S.view self.old.reftable file.old self.new.reftable file.new }
        ensures reftable { self.new.reftable ≡ self.old.reftable }
        ensures first { SearchStays self.old self.new }
        ensures sound { (p : Pending) (start : ImageFile S) → start.header ≡ file.old.header
            → InternalAllocatorStep S.view p start self.old file.old
            (with_run p start.header.fields self.old.reftable first n)
            → LeavesSoundly S.view p first n start self.old file.old self.new file.new result }
        ensures fails { AllocatorFails S.view file.old self.new.reftable file.new result }
    {
        let bits = file.header.rb_bits();
        'leaving: for cluster in first..first + n {
            if !self.lacks_block(cluster >> bits) {
                self.decrement_or_leak(file, cluster)?;
            }
        }
        Ok(())
    }

    // Whether the cluster is the first one of a run in a range without a refblock.
    pub(crate) fn opens_range(&self, first: u64, cluster: u64, bits: u32) -> bool
        requires { bits < 64 }
        ensures { result ≡ opens self.now.reftable (2 ^ bits) first cluster }
    {
        (cluster == first || cluster % (1 << bits) == 0) && self.lacks_block(cluster >> bits)
    }

    // Whether the range has no refblock.
    pub(crate) fn lacks_block(&self, range: u64) -> bool
        ensures { result ≡ lacks self.now.reftable range }
    {
        self.reftable.get(range as usize).is_none()
    }
}

//! The caches of L2 tables and of refblocks, and which of them must be written first.
ghost use Rattle.std.specs.Prelude.{◌≡◌, ◌⊎◌, ◌↔◌, ℕ, ◌+◌, ◌-◌, ◌^◌, ◌<◌, ◌≤◌, ◌==◌, IsSome, IsNone, IfSome};
ghost use Rattle.std.specs.Prelude.{IfOk, IfErr, OnOk, IsTrue, IsFalse, false};
ghost use Rattle.std.specs.Prelude.{is_some, option_copied};
ghost use Rattle.qcow2_laws.specs.Caches.{IsFreeOf, AreClean};
ghost use Rattle.qcow2_alloc.specs.ImageError.{IsFaultOr};
ghost use Rattle.qcow2_alloc.specs.CacheCauses.{TablesFit, BlocksFit, AllFit};
ghost use Rattle.qcow2_alloc.specs.CacheCauses.{MayFailInsertingL2, MayFailInsertingRb, MayFailLoadingL2, MayFailLoadingRb};
ghost use Rattle.qcow2_alloc.specs.CountedChanges.{IsOneChange};
ghost use Rattle.qcow2_alloc.specs.AsyncLruCache.{can_remove};
ghost use Rattle.qcow2_alloc.specs.MetadataCaches.{l2_at, rb_at, l2_tables, refblocks};
ghost use Rattle.qcow2_alloc.specs.MetadataCaches.{AreAllWritten, ReportsZero, ReportsCount};
ghost use Rattle.qcow2_alloc.specs.MetadataCaches.{MapsCachedEntry, ZeroesEntry, DiscardsEntry, RecordsEntry};
ghost use Rattle.qcow2_alloc.specs.MetadataCaches.{RecordsHeld, ShowsKnown, EvictsTable};
ghost use Rattle.qcow2_alloc.specs.CacheSteps.{CacheStep, TurnStep, KeepsSoundly, TablesGo, BlocksGo, FlushesL2, FlushesRb};
ghost use Rattle.qcow2_alloc.specs.CacheSteps.{LoadStep, PutStep, HeldStep, GetsL2, GetsRb, PutsL2, PutsRb, PutsL2Soundly, PutsRbSoundly};
ghost use Rattle.qcow2_alloc.specs.CacheSteps.{KeepsL2Written, KeepsBlocks, KeepsHeldBlocks, FlushesBlocks};
ghost use Rattle.qcow2_alloc.specs.CacheSteps.{RemovesBlock, IncrementsSoundly, DecrementsSoundly, AreNewCaches};
ghost use Rattle.qcow2_alloc.specs.CacheSteps.{MakesWayForL2, MakesWayForRb, SwitchesToRb, SwitchesToL2};
ghost use Rattle.qcow2_alloc.specs.KeptMarks.{KeepsHeldTables};
ghost use Rattle.qcow2_alloc.specs.Steps.{Fails};
ghost use Rattle.qcow2_alloc.specs.ApartCaches.{ChangesTableApart, EvictsTableApart};
ghost use Rattle.qcow2_metadata.specs.L2Table.{entries_of};
ghost use Rattle.qcow2_alloc.specs.UsedCounts.{ReportsUsed, ReportsFirstFree};
ghost use Rattle.qcow2_alloc.specs.TableChanges.{CountsMore, CountsFirst, CountsLess, LeavesCount, MapsHeldEntry, ZeroesHeldEntry, DiscardsHeldEntry};
ghost use Rattle.qcow2_alloc.specs.TableChanges.{LeavesEntry, CantMap};
ghost use Rattle.qcow2_alloc.specs.CachePins.{l2_pins, SameTables, SetsPins};
ghost use Rattle.qcow2_alloc.specs.CachePins.{LeavesPinned};

mod backends;
mod changes;

use crate::image_storage::one_more;
use crate::table_cache::TableCache;
use crate::{ImageError, ImageStorage};
pub use backends::{L2CacheBackend, RefBlockCacheBackend};
use changes::{Allocate, Decrement, DiscardEntry, Increment, MapEntry, NextZero, ZeroEntry};
use image_access::Storage;
use qcow2_metadata::{ClusterCount, Header, HostCluster, L2Table, RefBlock};
use std::alloc::{AllocError, Global};

/// Which cache must be written before the other one may be.
#[derive(Clone, Copy, Debug, PartialEq, Eq)]
pub enum Direction {
    /// Neither: each may be written first.
    None,
    /// Refblocks are written before L2 tables.
    L2DependsOnRb,
    /// L2 tables are written before refblocks.
    RbDependsOnL2,
}

/// The cached L2 tables and refblocks. Modified ones are written at a flush, or when others need their place.
/// A call that writes is refused 14 (memory) and 15 (storage), as the storage refuses. A modified table with another cluster size than the
/// image's, which only a caller can insert, is refused 13 (limit) then.
#[derive(Drop)]
pub struct MetadataCaches<S: Storage> {
    l2: TableCache<L2CacheBackend<S>>,
    rb: TableCache<RefBlockCacheBackend<S>>,
    direction: Direction,
    is_changed: bool,
    changes: u64,
}

#[tactic(auto, using(crate::proofs::TableErrors::storage_of_tables, crate::proofs::TableErrors::stored_of_tables))]
impl<S: Storage> MetadataCaches<S> {
    /// Empty caches for at most this many L2 tables and refblocks. Refused 14 (memory).
    pub fn new(
        alloc: Global,
        header: &Header,
        l2_entries: usize,
        rb_entries: usize,
    ) -> Result<Self, AllocError>
        ensures { IfOk result (AreNewCaches header.now.fields l2_entries rb_entries) }
    {
        let l2 = TableCache::new(alloc, L2CacheBackend::new(header), l2_entries)?;
        let rb = TableCache::new(alloc, RefBlockCacheBackend::new(header), rb_entries)?;
        Ok(MetadataCaches {
            l2,
            rb,
            direction: Direction::None,
            is_changed: false,
            changes: 0,
        })
    }

    // Writes the modified L2 tables.
    fn write_tables(&mut self, storage: &mut ImageStorage<S>) -> Result<(), ImageError>
        ensures step { CacheStep S.view storage.old self.old storage.new self.new }
        ensures fails { Fails S.view storage.old storage.new result (IsFaultOr (¬ TablesFit self.old)) }
        ensures sound { TablesGo self.old → KeepsSoundly S.view storage.old self.old storage.new self.new }
        ensures flushes { FlushesL2 S.view storage.old self.old storage.new self.new result }
        ensures free { (size c : ℕ) → IsFreeOf size (l2_tables self.old) c → IsFreeOf size (l2_tables self.new) c }
    {
        storage.watch_faults();
        if let Err(refusal) = self.l2.flush(storage) {
            return Err(storage.refusal_to_report(refusal.into()));
        }
        Ok(())
    }

    // Writes the modified refblocks.
    fn write_blocks(&mut self, storage: &mut ImageStorage<S>) -> Result<(), ImageError>
        ensures step { CacheStep S.view storage.old self.old storage.new self.new }
        ensures fails { Fails S.view storage.old storage.new result (IsFaultOr (¬ BlocksFit self.old)) }
        ensures sound { BlocksGo self.old → KeepsSoundly S.view storage.old self.old storage.new self.new }
        ensures flushes { FlushesRb S.view storage.old self.old storage.new self.new result }
        ensures clean { AreClean (refblocks self.old) → AreClean (refblocks self.new) }
        ensures held { KeepsHeldBlocks self.old self.new }
    {
        storage.watch_faults();
        if let Err(refusal) = self.rb.flush(storage) {
            return Err(storage.refusal_to_report(refusal.into()));
        }
        Ok(())
    }

    /// Refblocks are written before L2 tables from now on. If the order was the other one, the L2 tables are written now. Refused
    /// 14 (memory) and 15 (storage) if that fails, and then the order stays the same.
    pub fn l2_depends_on_rb(&mut self, storage: &mut ImageStorage<S>) -> Result<(), ImageError>
        ensures step { TurnStep S.view storage.old self.old storage.new self.new }
        ensures fails { Fails S.view storage.old storage.new result (IsFaultOr (¬ TablesFit self.old)) }
        ensures sound { KeepsSoundly S.view storage.old self.old storage.new self.new }
        ensures turns { SwitchesToRb S.view storage.old self.old storage.new self.new result }
    {
        match self.direction {
            Direction::L2DependsOnRb => {}
            Direction::None => self.direction = Direction::L2DependsOnRb,
            Direction::RbDependsOnL2 => {
                self.write_tables(storage)?;
                self.direction = Direction::L2DependsOnRb;
            }
        }
        Ok(())
    }

    /// L2 tables are written before refblocks from now on. If the order was the other one, the refblocks are written now. Refused
    /// 14 (memory) and 15 (storage) if that fails, and then the order stays the same.
    pub fn rb_depends_on_l2(&mut self, storage: &mut ImageStorage<S>) -> Result<(), ImageError>
        ensures step { TurnStep S.view storage.old self.old storage.new self.new }
        ensures fails { Fails S.view storage.old storage.new result (IsFaultOr (¬ BlocksFit self.old)) }
        ensures sound { KeepsSoundly S.view storage.old self.old storage.new self.new }
        ensures turns { SwitchesToL2 S.view storage.old self.old storage.new self.new result }
        ensures held { KeepsHeldBlocks self.old self.new }
    {
        match self.direction {
            Direction::RbDependsOnL2 => {}
            Direction::None => self.direction = Direction::RbDependsOnL2,
            Direction::L2DependsOnRb => {
                self.write_blocks(storage)?;
                self.direction = Direction::RbDependsOnL2;
            }
        }
        Ok(())
    }

    /// Writes both caches, in the order of writes. Refused 14 (memory) and 15 (storage), as the storage refuses.
    pub fn flush_all(&mut self, storage: &mut ImageStorage<S>) -> Result<(), ImageError>
        ensures step { CacheStep S.view storage.old self.old storage.new self.new }
        ensures fails { Fails S.view storage.old storage.new result (IsFaultOr (¬ AllFit self.old)) }
        ensures sound { KeepsSoundly S.view storage.old self.old storage.new self.new }
        ensures written { OnOk result (AreAllWritten self.new) }
    {
        match self.direction {
            Direction::None | Direction::RbDependsOnL2 => {
                self.write_tables(storage)?;
                self.write_blocks(storage)
            }
            Direction::L2DependsOnRb => {
                self.write_blocks(storage)?;
                self.write_tables(storage)
            }
        }
    }

    /// Writes the refblocks, and before them the L2 tables if the order of writes requires it. Refused 14 (memory) and 15 (storage), as the
    /// storage refuses.
    pub fn flush_rb(&mut self, storage: &mut ImageStorage<S>) -> Result<(), ImageError>
        ensures step { CacheStep S.view storage.old self.old storage.new self.new }
        ensures fails { Fails S.view storage.old storage.new result (IsFaultOr (¬ AllFit self.old)) }
        ensures sound { KeepsSoundly S.view storage.old self.old storage.new self.new }
        ensures flushes { FlushesBlocks S.view storage.old self.old storage.new self.new result }
    {
        match self.direction {
            Direction::RbDependsOnL2 => {
                self.write_tables(storage)?;
                self.write_blocks(storage)
            }
            Direction::None | Direction::L2DependsOnRb => self.write_blocks(storage),
        }
    }

    // Writes what must be written before an L2 table.
    fn before_l2(&mut self, storage: &mut ImageStorage<S>) -> Result<(), ImageError>
        ensures step { CacheStep S.view storage.old self.old storage.new self.new }
        ensures fails { Fails S.view storage.old storage.new result (IsFaultOr (¬ BlocksFit self.old)) }
        ensures sound { KeepsSoundly S.view storage.old self.old storage.new self.new }
        ensures way { MakesWayForL2 S.view storage.old self.old storage.new self.new result }
        ensures blocks { AreClean (refblocks self.old) → AreClean (refblocks self.new) }
    {
        match self.direction {
            Direction::L2DependsOnRb => self.write_blocks(storage),
            Direction::None | Direction::RbDependsOnL2 => Ok(()),
        }
    }

    // Writes what must be written before a refblock.
    pub(crate) fn before_rb(&mut self, storage: &mut ImageStorage<S>) -> Result<(), ImageError>
        ensures step { CacheStep S.view storage.old self.old storage.new self.new }
        ensures fails { Fails S.view storage.old storage.new result (IsFaultOr (¬ TablesFit self.old)) }
        ensures sound { KeepsSoundly S.view storage.old self.old storage.new self.new }
        ensures way { MakesWayForRb S.view storage.old self.old storage.new self.new result }
        ensures free { (size c : ℕ) → IsFreeOf size (l2_tables self.old) c → IsFreeOf size (l2_tables self.new) c }
    {
        match self.direction {
            Direction::RbDependsOnL2 => self.write_tables(storage),
            Direction::None | Direction::L2DependsOnRb => Ok(()),
        }
    }

    /// Brings the L2 table of a cluster to the front, and loads it if it isn't cached. Other tables stay cached, but a full cache first drops
    /// the least recently used one without a pin. Refused 8 (everything is in use) if the cache is full of pinned tables, 13 (limit) for a
    /// cluster whose offset passes 64 bits, and 14 (memory) and 15 (storage) if the work meets them.
    pub fn l2_get_or_insert(
        &mut self,
        storage: &mut ImageStorage<S>,
        cluster: HostCluster,
    ) -> Result<(), ImageError>
        ensures step { LoadStep S.view storage.old self.old storage.new self.new cluster }
        ensures fails { Fails S.view storage.old storage.new result (MayFailLoadingL2 self.old self.new cluster) }
        ensures sound { KeepsSoundly S.view storage.old self.old storage.new self.new }
        ensures gets { GetsL2 S.view storage.old self.old storage.new self.new result cluster }
    {
        if self.l2.get_or_insert(storage, cluster, false)?? {
            return Ok(());
        }
        self.before_l2(storage)?;
        self.l2.get_or_insert(storage, cluster, true)??;
        Ok(())
    }

    /// Brings the refblock of a cluster to the front, and loads it if it isn't cached. Other refblocks stay cached, but a full cache first
    /// drops the least recently used one without a pin. Refused 8 (everything is in use) if the cache is full of pinned refblocks, 13 (limit)
    /// for a cluster whose offset passes 64 bits, and 14 (memory) and 15 (storage) if the work meets them.
    pub fn rb_get_or_insert(
        &mut self,
        storage: &mut ImageStorage<S>,
        cluster: HostCluster,
    ) -> Result<(), ImageError>
        ensures step { LoadStep S.view storage.old self.old storage.new self.new cluster }
        ensures fails { Fails S.view storage.old storage.new result (MayFailLoadingRb self.old cluster) }
        ensures sound { KeepsSoundly S.view storage.old self.old storage.new self.new }
        ensures gets { GetsRb S.view storage.old self.old storage.new self.new result cluster }
        ensures held { IsSome (rb_at self.old cluster) → KeepsBlocks storage.old self.old storage.new self.new }
        ensures tables { KeepsHeldTables self.old self.new }
    {
        if self.rb.get_or_insert(storage, cluster, false)?? {
            return Ok(());
        }
        self.before_rb(storage)?;
        self.rb.get_or_insert(storage, cluster, true)??;
        Ok(())
    }

    /// Puts an L2 table at the front, and replaces the one that is cached for its cluster. It must have a cluster. Refused
    /// 8 (everything is in use) if the cache is full of pinned tables, and 14 (memory) and 15 (storage)
    /// if the work meets them.
    pub fn l2_insert(
        &mut self,
        storage: &mut ImageStorage<S>,
        table: L2Table,
    ) -> Result<(), ImageError>
        requires { IsSome table.cluster }
        ensures step { PutStep S.view storage.old self.old storage.new self.new table.cluster }
        ensures fails { Fails S.view storage.old storage.new result (MayFailInsertingL2 self.old) }
        ensures sound { PutsL2Soundly S.view storage.old self.old storage.new self.new result table }
        ensures puts { PutsL2 S.view storage.old self.old storage.new self.new result table }
        ensures written { KeepsL2Written table.is_modified self.old self.new }
    {
        let Some(cluster) = table.get_cluster() else {
            unreachable!();
        };
        let mut table = Some(table);
        if self.l2.insert(storage, cluster, &mut table, false)?? {
            return Ok(());
        }
        self.before_l2(storage)?;
        self.l2.insert(storage, cluster, &mut table, true)??;
        Ok(())
    }

    /// Puts a refblock at the front, and replaces the one that is cached for its cluster. It must have a cluster. Refused
    /// 8 (everything is in use) if the cache is full of pinned refblocks, and 14 (memory) and 15 (storage)
    /// if the work meets them.
    pub fn rb_insert(
        &mut self,
        storage: &mut ImageStorage<S>,
        block: RefBlock,
    ) -> Result<(), ImageError>
        requires { IsSome block.cluster }
        ensures step { PutStep S.view storage.old self.old storage.new self.new block.cluster }
        ensures fails { Fails S.view storage.old storage.new result (MayFailInsertingRb self.old) }
        ensures sound { PutsRbSoundly S.view storage.old self.old storage.new self.new result block }
        ensures puts { PutsRb S.view storage.old self.old storage.new self.new result block }
        ensures tables { KeepsHeldTables self.old self.new }
    {
        let Some(cluster) = block.get_cluster() else {
            unreachable!();
        };
        let mut block = Some(block);
        if self.rb.insert(storage, cluster, &mut block, false)?? {
            return Ok(());
        }
        self.before_rb(storage)?;
        self.rb.insert(storage, cluster, &mut block, true)??;
        Ok(())
    }

    /// The L2 table of a cluster, if it is cached.
    pub fn l2_peek(&self, cluster: HostCluster) -> Option<&L2Table>
        ensures value { option_copied result ≡ l2_at self.now cluster }
        ensures shows { IfSome (option_copied result) (ShowsKnown self.now cluster) }
    {
        self.l2.peek(cluster)
    }

    /// The refblock of a cluster, if it is cached.
    pub fn rb_peek(&self, cluster: HostCluster) -> Option<&RefBlock>
        ensures { option_copied result ≡ rb_at self.now cluster }
    {
        self.rb.peek(cluster)
    }

    /// Pins an L2 table, so that it stays in the cache. False if it isn't cached, or its number of pins is the greatest one.
    pub fn l2_pin(&mut self, cluster: HostCluster) -> bool
        ensures tables { SameTables self.old self.new }
        ensures changed { self.new.is_changed ≡ self.old.is_changed }
        ensures counted { self.new.changes ≡ self.old.changes }
        ensures cached { IsTrue result → IsSome (l2_at self.old cluster) }
        ensures pinned { IsTrue result → SetsPins self.old self.new cluster (l2_pins self.old cluster + 1) }
        ensures refused { IsFalse result → IsNone (l2_at self.old cluster) ⊎ (2 ^ 64 - 1 ≤ l2_pins self.old cluster) }
        ensures same { IsFalse result → self.new ≡ self.old }
    {
        self.l2.pin(cluster)
    }

    /// Removes a pin from an L2 table. False if it has none.
    pub fn l2_unpin(&mut self, cluster: HostCluster) -> bool
        ensures tables { SameTables self.old self.new }
        ensures changed { self.new.is_changed ≡ self.old.is_changed }
        ensures counted { self.new.changes ≡ self.old.changes }
        ensures answer { IsTrue result ↔ (0 < l2_pins self.old cluster) }
        ensures unpinned { IsTrue result → SetsPins self.old self.new cluster (l2_pins self.old cluster - 1) }
        ensures same { IsFalse result → self.new ≡ self.old }
    {
        self.l2.unpin(cluster)
    }

    /// Drops a refblock without writing it. False if it isn't cached, or is pinned.
    pub fn rb_remove(&mut self, cluster: HostCluster) -> bool
        ensures step { HeldStep self.old self.new }
        ensures tables { l2_tables self.new ≡ l2_tables self.old }
        ensures answer { result ≡ can_remove (λ k. cluster == k) self.old.rb.entries }
        ensures same { IsFalse result → self.new ≡ self.old }
        ensures others { (c : ℕ) → cluster == c ≡ false → rb_at self.new c ≡ rb_at self.old c }
        ensures removes { RemovesBlock self.old self.new cluster result }
    {
        self.rb.remove(cluster)
    }

    /// Drops the L2 tables without a pin, unwritten. Refused 21 (still in use) with the clusters of the pinned ones, and
    /// 14 (memory), which drops nothing.
    pub fn invalidate_l2(&mut self) -> Result<(), ImageError>
        ensures step { HeldStep self.old self.new }
        ensures left { LeavesPinned self.old.l2.entries result self.new.l2.entries }
        ensures blocks { refblocks self.new ≡ refblocks self.old }
        ensures taken { EvictsTable (AreClean (l2_tables self.old)) self.old self.new }
        ensures taken_apart { EvictsTableApart (AreClean (l2_tables self.old)) self.old self.new }
    {
        self.l2.invalidate()?;
        Ok(())
    }

    /// Drops the refblocks without a pin, unwritten. Refused 21 (still in use) with the clusters of the pinned ones, and
    /// 14 (memory), which drops nothing.
    pub fn invalidate_rb(&mut self) -> Result<(), ImageError>
        ensures step { HeldStep self.old self.new }
        ensures left { LeavesPinned self.old.rb.entries result self.new.rb.entries }
        ensures tables { self.new.l2 ≡ self.old.l2 }
        ensures taken { EvictsTable (AreClean (refblocks self.old)) self.old self.new }
        ensures taken_apart { EvictsTableApart (AreClean (refblocks self.old)) self.old self.new }
    {
        self.rb.invalidate()?;
        Ok(())
    }

    /// Whether an L2 table is cached and pinned.
    pub fn l2_is_pinned(&self, cluster: HostCluster) -> bool
        ensures { IsTrue result ↔ (0 < l2_pins self.now cluster) }
    {
        self.l2.is_pinned(cluster)
    }

    /// The cluster of some pinned L2 table, if there is one.
    pub fn first_pinned_l2(&self) -> Option<HostCluster>
        ensures none { IsNone result → (cluster : ℕ) → l2_pins self.now cluster ≡ 0 }
        ensures some { IfSome result (λ cluster. 0 < l2_pins self.now cluster) }
    {
        self.l2.first_pinned()
    }

    /// Starts to record anew whether a table is changed.
    pub fn begin_call(&mut self)
        ensures changed { IsFalse self.new.is_changed }
        ensures same { self.new ≡ record self.old { is_changed = false } }
        ensures tables { SameTables self.old self.new }
    {
        self.is_changed = false;
    }

    // Records a change of a table.
    pub(crate) fn record_change(&mut self)
        ensures step { HeldStep self.old self.new }
        ensures recorded { IsOneChange self.new.is_changed self.old.changes self.new.changes }
        ensures rest { self.new ≡ record self.old { is_changed = self.new.is_changed; changes = self.new.changes } }
    {
        self.is_changed = true;
        self.changes = one_more(self.changes);
    }

    /// Whether a table was changed since the last `begin_call`.
    pub fn is_changed(&self) -> bool
        ensures { result ≡ self.now.is_changed }
    {
        self.is_changed
    }

    /// The number of changes of tables in all. The counter stops at the greatest u64.
    pub fn changes(&self) -> u64
        ensures { result ≡ self.now.changes }
    {
        self.changes
    }

    /// Maps an entry of a cached L2 table to data at a host cluster, marked copied. Returns the host clusters that lost a reference.
    pub fn l2_map_cluster(
        &mut self,
        cluster: HostCluster,
        index: usize,
        host: HostCluster,
    ) -> Option<(HostCluster, ClusterCount)>
        ensures step { HeldStep self.old self.new }
        ensures mapped { MapsCachedEntry self.old self.new cluster index host result }
        ensures recorded { RecordsEntry self.old self.new cluster index host }
        ensures entry { MapsHeldEntry self.old self.new cluster index host result }
        ensures apart { ChangesTableApart self.old self.new cluster }
        ensures refused { LeavesEntry self.old self.new cluster (CantMap index host) result }
    {
        let old_data = self.l2.change(cluster, &MapEntry { index, host })?;
        self.is_changed = true;
        self.changes = one_more(self.changes);
        old_data
    }

    /// Makes an entry of a cached L2 table a zero entry. With `keep` it keeps the host cluster, if that is marked copied.
    /// Returns the host clusters that lost a reference.
    pub fn l2_zero_cluster(
        &mut self,
        cluster: HostCluster,
        index: usize,
        keep: bool,
    ) -> Option<(HostCluster, ClusterCount)>
        ensures step { HeldStep self.old self.new }
        ensures zeroed { ZeroesEntry self.old self.new cluster index keep result }
        ensures recorded { RecordsHeld self.old self.new cluster index }
        ensures entry { ZeroesHeldEntry self.old self.new cluster index keep result }
        ensures apart { ChangesTableApart self.old self.new cluster }
        ensures refused { LeavesEntry self.old self.new cluster (λ t. entries_of t ≤ index) result }
    {
        let old_data = self.l2.change(cluster, &ZeroEntry { index, keep })?;
        self.is_changed = true;
        self.changes = one_more(self.changes);
        old_data
    }

    /// Unmaps an entry of a cached L2 table. Returns the host clusters that lost a reference.
    pub fn l2_discard_cluster(
        &mut self,
        cluster: HostCluster,
        index: usize,
    ) -> Option<(HostCluster, ClusterCount)>
        ensures step { HeldStep self.old self.new }
        ensures discarded { DiscardsEntry self.old self.new cluster index result }
        ensures recorded { RecordsHeld self.old self.new cluster index }
        ensures entry { DiscardsHeldEntry self.old self.new cluster index result }
        ensures apart { ChangesTableApart self.old self.new cluster }
        ensures refused { LeavesEntry self.old self.new cluster (λ t. entries_of t ≤ index) result }
    {
        let old_data = self.l2.change(cluster, &DiscardEntry { index })?;
        self.is_changed = true;
        self.changes = one_more(self.changes);
        old_data
    }

    /// The number of refcounts above 0 in a cached refblock, from an index on up to the first one that is 0.
    pub fn rb_used_from(&mut self, cluster: HostCluster, index: usize) -> usize
        ensures used { ReportsUsed self.old cluster index result }
        ensures first { ReportsFirstFree self.old cluster index result }
        ensures same { self.new ≡ self.old }
    {
        match self.rb.change(cluster, &NextZero { from: index }) {
            Some(first) => first.saturating_sub(index),
            None => 0,
        }
    }

    /// Increments a refcount of a cached refblock. False if it is the greatest one.
    pub fn rb_increment(&mut self, cluster: HostCluster, index: usize) -> bool
        ensures step { HeldStep self.old self.new }
        ensures sound { IncrementsSoundly self.old self.new cluster index result }
        ensures counts { IfSome (rb_at self.old cluster) (λ b. CountsMore self.old self.new cluster index b result) }
        ensures recorded { IsTrue result → IsOneChange self.new.is_changed self.old.changes self.new.changes }
        ensures refused { IsFalse result → self.new ≡ self.old }
        ensures missing { IsNone (rb_at self.old cluster) → IsFalse result }
    {
        let Some(()) = self.rb.change(cluster, &Increment { index }) else {
            return false;
        };
        self.is_changed = true;
        self.changes = one_more(self.changes);
        true
    }

    // Increments a refcount of 0 in a cached refblock. False if it is above 0.
    pub(crate) fn rb_allocate(&mut self, cluster: HostCluster, index: usize) -> bool
        ensures step { HeldStep self.old self.new }
        ensures sound { IncrementsSoundly self.old self.new cluster index result }
        ensures counts { IfSome (rb_at self.old cluster) (λ b. CountsFirst self.old self.new cluster index b result) }
        ensures zero { ReportsZero self.old cluster index result }
        ensures recorded { IsTrue result → IsOneChange self.new.is_changed self.old.changes self.new.changes }
        ensures refused { IsFalse result → self.new ≡ self.old }
        ensures missing { IsNone (rb_at self.old cluster) → IsFalse result }
    {
        let Some(()) = self.rb.change(cluster, &Allocate { index }) else {
            return false;
        };
        self.is_changed = true;
        self.changes = one_more(self.changes);
        true
    }

    /// Decrements a refcount of a cached refblock. False if it is 0.
    pub fn rb_decrement(&mut self, cluster: HostCluster, index: usize) -> bool
        ensures step { HeldStep self.old self.new }
        ensures sound { DecrementsSoundly self.old self.new cluster index result }
        ensures counts { IfSome (rb_at self.old cluster) (λ b. CountsLess self.old self.new cluster index b result) }
        ensures recorded { IsTrue result → IsOneChange self.new.is_changed self.old.changes self.new.changes }
        ensures refused { IsFalse result → self.new ≡ self.old }
        ensures cached { IsTrue result → IsSome (rb_at self.new cluster) }
        ensures missing { IsNone (rb_at self.old cluster) → IsFalse result }
    {
        self.rb_release(cluster, index).is_some()
    }

    // Decrements a refcount in a cached refblock, and returns the new one. None if it was 0.
    pub(crate) fn rb_release(&mut self, cluster: HostCluster, index: usize) -> Option<u64>
        ensures step { HeldStep self.old self.new }
        ensures sound { DecrementsSoundly self.old self.new cluster index (is_some result) }
        ensures counts { IfSome (rb_at self.old cluster) (λ b. LeavesCount self.old self.new cluster index b result) }
        ensures left { IfSome result (ReportsCount self.new cluster index) }
        ensures recorded { IsSome result → IsOneChange self.new.is_changed self.old.changes self.new.changes }
        ensures refused { IsNone result → self.new ≡ self.old }
        ensures cached { IsSome result → IsSome (rb_at self.new cluster) }
        ensures missing { IsNone (rb_at self.old cluster) → IsNone result }
    {
        let left = self.rb.change(cluster, &Decrement { index })?;
        self.is_changed = true;
        self.changes = one_more(self.changes);
        Some(left)
    }
}

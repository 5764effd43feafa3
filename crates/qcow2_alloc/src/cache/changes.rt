//! The changes of one cached table.
use super::backends::{L2CacheBackend, RefBlockCacheBackend};
use crate::table_cache::Change;
use image_access::Storage;
use qcow2_metadata::{ClusterCount, HostCluster, L2Table, RefBlock};

// An entry becomes copied data at a host cluster. Returns the host clusters that lost a reference.
#[derive(Drop)]
pub(crate) struct MapEntry {
    pub(crate) index: usize,
    pub(crate) host: HostCluster,
}

impl<S: Storage> Change<L2CacheBackend<S>> for MapEntry {
    ghost use Rattle.std.specs.Prelude.{◌*◌, ◌^◌};
    ghost use Rattle.qcow2_metadata.specs.L2Mapping.{IsHostCluster};
    ghost use Rattle.qcow2_metadata.specs.L2Table.{copied_entry};
    ghost use Rattle.qcow2_alloc.specs.TableChanges.{CantMap, ChangesOrStays, SetsTableEntry};

    type Answer = Option<(HostCluster, ClusterCount)>;

    ghost applied = { λ c. ChangesOrStays (CantMap c.index c.host) (λ t a w. IsHostCluster t.cluster_bits c.host
        × SetsTableEntry t c.index (copied_entry (c.host * 2 ^ t.cluster_bits)) a w) };

    fn apply(&self, table: &mut L2Table) -> Option<Option<(HostCluster, ClusterCount)>> {
        if self.index >= table.entries() || !self.host.is_nameable(table.cluster_bits()) {
            return None;
        }
        Some(table.map_cluster(self.index, self.host))
    }
}

// An entry becomes a zero entry. With `keep` it keeps its host cluster, if that is marked copied. Returns the host clusters that lost a reference.
#[derive(Drop)]
pub(crate) struct ZeroEntry {
    pub(crate) index: usize,
    pub(crate) keep: bool,
}

impl<S: Storage> Change<L2CacheBackend<S>> for ZeroEntry {
    ghost use Rattle.std.specs.Prelude.{◌≤◌, None, if◌then◌else◌};
    ghost use Rattle.qcow2_metadata.specs.L2Table.{cover_at, entries_of, copied_host, zero_entry};
    ghost use Rattle.qcow2_alloc.specs.TableChanges.{ChangesOrStays, SetsTableEntry};

    type Answer = Option<(HostCluster, ClusterCount)>;

    ghost applied = { λ c. ChangesOrStays (λ t. entries_of t ≤ c.index) (λ t. SetsTableEntry t c.index
        (zero_entry (if c.keep then copied_host (cover_at t c.index) else None))) };

    fn apply(&self, table: &mut L2Table) -> Option<Option<(HostCluster, ClusterCount)>> {
        if self.index >= table.entries() {
            return None;
        }
        Some(table.zero_cluster(self.index, self.keep))
    }
}

// An entry becomes unmapped. Returns the host clusters that lost a reference.
#[derive(Drop)]
pub(crate) struct DiscardEntry {
    pub(crate) index: usize,
}

impl<S: Storage> Change<L2CacheBackend<S>> for DiscardEntry {
    ghost use Rattle.std.specs.Prelude.{◌≤◌};
    ghost use Rattle.qcow2_metadata.specs.L2Table.{entries_of};
    ghost use Rattle.qcow2_alloc.specs.TableChanges.{ChangesOrStays, SetsTableEntry};

    type Answer = Option<(HostCluster, ClusterCount)>;

    ghost applied = { λ c. ChangesOrStays (λ t. entries_of t ≤ c.index) (λ t. SetsTableEntry t c.index 0) };

    fn apply(&self, table: &mut L2Table) -> Option<Option<(HostCluster, ClusterCount)>> {
        if self.index >= table.entries() {
            return None;
        }
        Some(table.discard_cluster(self.index))
    }
}

// A refcount of 0 becomes 1. None if it is above 0.
#[derive(Drop)]
pub(crate) struct Allocate {
    pub(crate) index: usize,
}

impl<S: Storage> Change<RefBlockCacheBackend<S>> for Allocate {
    ghost use Rattle.qcow2_alloc.specs.TableChanges.{AllocatesTableCount};

    type Answer = ();

    ghost applied = { λ c. AllocatesTableCount c.index };

    fn apply(&self, block: &mut RefBlock) -> Option<()> {
        if self.index < block.counts() && block.is_zero(self.index) && block.increment(self.index) {
            return Some(());
        }
        None
    }
}

// A refcount is incremented. None at the greatest one.
#[derive(Drop)]
pub(crate) struct Increment {
    pub(crate) index: usize,
}

impl<S: Storage> Change<RefBlockCacheBackend<S>> for Increment {
    ghost use Rattle.qcow2_alloc.specs.TableChanges.{IncrementsTableCount};

    type Answer = ();

    ghost applied = { λ c. IncrementsTableCount c.index };

    fn apply(&self, block: &mut RefBlock) -> Option<()> {
        if self.index < block.counts() && block.increment(self.index) {
            return Some(());
        }
        None
    }
}

// A refcount is decremented. Returns the new one. None at 0.
#[derive(Drop)]
pub(crate) struct Decrement {
    pub(crate) index: usize,
}

impl<S: Storage> Change<RefBlockCacheBackend<S>> for Decrement {
    ghost use Rattle.qcow2_alloc.specs.TableChanges.{DecrementsTableCount};

    type Answer = u64;

    ghost applied = { λ c. DecrementsTableCount c.index };

    fn apply(&self, block: &mut RefBlock) -> Option<u64> {
        if self.index < block.counts() && block.decrement(self.index) {
            return Some(block.get(self.index));
        }
        None
    }
}

// The first index from one on with refcount 0. The refblock remembers what the search found; its refcounts stay the same.
#[derive(Drop)]
pub(crate) struct NextZero {
    pub(crate) from: usize,
}

impl<S: Storage> Change<RefBlockCacheBackend<S>> for NextZero {
    ghost use Rattle.std.specs.Prelude.{◌≡◌, ◌<◌};
    ghost use Rattle.qcow2_metadata.specs.FirstZero.{IsFirstZero};
    ghost use Rattle.qcow2_metadata.specs.RefBlock.{counts_of};
    ghost use Rattle.qcow2_alloc.specs.TableChanges.{ChangesOrStays};

    type Answer = usize;

    ghost applied = { λ c. ChangesOrStays (λ b. counts_of b < c.from) (λ b a w. IsFirstZero b c.from a × (w ≡ b)) };

    fn apply(&self, block: &mut RefBlock) -> Option<usize> {
        if self.from > block.counts() {
            return None;
        }
        Some(block.next_zero(self.from))
    }
}

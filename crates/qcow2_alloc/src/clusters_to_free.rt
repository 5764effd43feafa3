ghost use Rattle.std.specs.Iterator.{YieldsFirst, item_count};
ghost use Rattle.std.specs.Prelude.{length, ◌==◌, ◌≡◌, ◌+◌, ◌-◌, ◌^◌, ◌<◌, ◌++◌, ◌∷◌, [], List, reverse, IfOk, IfSome};
ghost use Rattle.std.specs.Prelude.{IsNone, OnOk, OnErr, IsTrue, ◌↔◌};

use qcow2_metadata::{ClusterCount, HostCluster};
use std::alloc::{AllocError, Global};
use std::marker::Model;

/// What clusters were allocated for.
#[derive(Clone, Copy, Debug, PartialEq, Eq)]
pub enum ClusterKind {
    /// For guest data.
    Data,
    /// For tables: the L1 table, L2 tables, the reftable, refblocks.
    Metadata,
}

/// A run of clusters of one kind.
#[derive(Clone, Copy, Debug, PartialEq, Eq)]
pub struct ClustersToFreeEntry {
    /// The first cluster of the run.
    pub first_cluster: HostCluster,
    /// The number of clusters.
    pub count: ClusterCount,
    /// What the clusters were allocated for.
    pub kind: ClusterKind,
}

impl ClustersToFreeEntry {
    ghost use Rattle.qcow2_alloc.specs.ClustersToFree.{data_entry, metadata_entry};

    /// A run of data clusters.
    pub fn data(first_cluster: HostCluster, count: ClusterCount) -> ClustersToFreeEntry
        ensures { result ≡ data_entry first_cluster count }
    {
        ClustersToFreeEntry {
            first_cluster,
            count,
            kind: ClusterKind::Data,
        }
    }

    /// A run of metadata clusters.
    pub fn metadata(first_cluster: HostCluster, count: ClusterCount) -> ClustersToFreeEntry
        ensures { result ≡ metadata_entry first_cluster count }
    {
        ClustersToFreeEntry {
            first_cluster,
            count,
            kind: ClusterKind::Metadata,
        }
    }
}

// A node without a length, so that adding one in front never fails. It is not `Drop`, so that a long chain is dropped by a loop.
struct Node {
    entry: ClustersToFreeEntry,
    next: Option<Box<Node>>,
}

/// The list of clusters to free.
pub struct ClustersToFreeList {
    newest: Option<Box<Node>>,
}

impl Drop for ClustersToFreeList {
    fn drop(self) {
        let ClustersToFreeList { newest } = self;
        drop_nodes(newest);
    }
}

fn drop_nodes(newest: Option<Box<Node>>) {
    let mut rest = newest;
    while let Some(node) = rest {
        let Node { entry: _, next } = Box::into_inner(node);
        rest = next;
    }
}

impl Model for ClustersToFreeList {
    ghost use Rattle.std.specs.Prelude.{List};
    ghost use Rattle.qcow2_alloc.specs.declared.clusters_to_free.ClustersToFreeEntry.{ClustersToFreeEntry};

    ghost Value = { List ClustersToFreeEntry };

    ghost use Rattle.std.specs.Prelude.{reverse};
    ghost use Rattle.qcow2_alloc.specs.ClustersToFree.{entries_at};

    ghost view = { λ l. reverse (entries_at l.newest) };
}

/// Clusters that are allocated and not referred to yet. The value cannot be dropped: the clusters become permanent, or go back to a list.
pub struct PendingClusters {
    node: Box<Node>,
}

impl Model for PendingClusters {
    ghost use Rattle.qcow2_alloc.specs.declared.clusters_to_free.ClustersToFreeEntry.{ClustersToFreeEntry};

    ghost Value = { ClustersToFreeEntry };

    ghost use Rattle.qcow2_alloc.specs.declared.clusters_to_free.Node.{out-Node};

    ghost view = { λ p. (out-Node p.node.value).entry };
}

impl ClustersToFreeList {
    /// An empty list.
    pub fn new() -> ClustersToFreeList
        ensures { result ≡ [] }
    {
        ClustersToFreeList { newest: None }
    }

    /// Whether the list is empty.
    pub fn is_empty(&self) -> bool
        ensures { result ≡ (length self.now == 0) }
    {
        match self.newest {
            None => true,
            Some(_) => false,
        }
    }

    /// Takes all entries off the list, in the order in which they came. Needs no memory.
    pub fn take(&mut self) -> TakenClusters
        ensures taken { result ≡ self.old }
        ensures emptied { self.new ≡ [] }
    {
        TakenClusters {
            oldest: reversed(std::mem::replace(&mut self.newest, None)),
        }
    }

    /// Memory for an entry of any list, with a run of clusters. Refused 14 (memory).
    pub fn pending_guard(
        alloc: Global,
        entry: ClustersToFreeEntry,
    ) -> Result<PendingClusters, AllocError>
        ensures { IfOk result (λ p. p ≡ entry) }
    {
        match Box::new(alloc, Node { entry, next: None }) {
            Ok(node) => Ok(PendingClusters { node }),
            Err(refused) => {
                let Node { entry: _, next } = refused.value;
                drop_nodes(next);
                Err(AllocError)
            }
        }
    }

    /// Adds a run of clusters at the end. Refused if memory runs out, and then the list stays the same.
    pub fn push(&mut self, alloc: Global, entry: ClustersToFreeEntry) -> Result<(), AllocError>
        ensures ok { OnOk result (self.new ≡ self.old ++ entry ∷ []) }
        ensures err { OnErr result (self.new ≡ self.old) }
    {
        let pending = ClustersToFreeList::pending_guard(alloc, entry)?;
        pending.hand_back(self);
        Ok(())
    }
}

ghost use Rattle.qcow2_alloc.specs.ClustersToFree.{entries_at};

// The chain in the opposite order.
fn reversed(newest: Option<Box<Node>>) -> Option<Box<Node>>
    ensures { entries_at result ≡ reverse (entries_at newest) }
{
    let mut rest = newest;
    let mut oldest = None;
    while let Some(mut node) = rest {
        rest = std::mem::replace(&mut node.next, oldest);
        oldest = Some(node);
    }
    oldest
}

/// Entries that were taken off a list, the oldest first.
pub struct TakenClusters {
    oldest: Option<Box<Node>>,
}

impl Drop for TakenClusters {
    fn drop(self) {
        let TakenClusters { oldest } = self;
        drop_nodes(oldest);
    }
}

impl Model for TakenClusters {
    ghost use Rattle.std.specs.Prelude.{List};
    ghost use Rattle.qcow2_alloc.specs.declared.clusters_to_free.ClustersToFreeEntry.{ClustersToFreeEntry};

    ghost Value = { List ClustersToFreeEntry };

    ghost use Rattle.qcow2_alloc.specs.ClustersToFree.{entries_at};

    ghost view = { λ l. entries_at l.oldest };
}

impl Iterator for TakenClusters {
    type Item = ClustersToFreeEntry;

    ghost next_gives = { YieldsFirst (λ s. s) };

    ghost remaining = { item_count (λ s. s) };

    fn next(&mut self) -> Option<ClustersToFreeEntry> {
        match std::mem::replace(&mut self.oldest, None) {
            None => None,
            Some(node) => {
                let Node { entry, next } = Box::into_inner(node);
                drop_nodes(std::mem::replace(&mut self.oldest, next));
                Some(entry)
            }
        }
    }
}

impl TakenClusters {
    /// The oldest entry, which may go back to any list.
    pub fn next_pending(&mut self) -> Option<PendingClusters>
        ensures none { IsNone result → (self.old ≡ []) × (self.new ≡ []) }
        ensures some { IfSome result (λ p. self.old ≡ p ∷ self.new) }
    {
        match std::mem::replace(&mut self.oldest, None) {
            None => None,
            Some(mut node) => {
                drop_nodes(std::mem::replace(&mut self.oldest, node.next.take()));
                Some(PendingClusters { node })
            }
        }
    }

    /// Adds all entries that are left at the end of a list. Needs no memory.
    pub fn hand_back(self, list: &mut ClustersToFreeList)
        ensures { list.new ≡ list.old ++ self }
    {
        let mut rest = self;
        while let Some(pending) = rest.next_pending() {
            pending.hand_back(list);
        }
    }
}

impl PendingClusters {
    /// The first cluster of the run.
    pub fn cluster(&self) -> HostCluster
        ensures { result ≡ self.now.first_cluster }
    {
        self.node.entry.first_cluster
    }

    /// The number of clusters.
    pub fn count(&self) -> ClusterCount
        ensures { result ≡ self.now.count }
    {
        self.node.entry.count
    }

    /// What the clusters were allocated for.
    pub fn kind(&self) -> ClusterKind
        ensures { result ≡ self.now.kind }
    {
        self.node.entry.kind
    }

    // Removes the first cluster of the run.
    pub(crate) fn drop_first(&mut self)
        ensures first { self.old.first_cluster + 1 < 2 ^ 64 → self.new.first_cluster ≡ self.old.first_cluster + 1 }
        ensures count { self.new.count ≡ self.old.count - 1 }
        ensures kind { self.new.kind ≡ self.old.kind }
    {
        let entry = &mut self.node.entry;
        entry.first_cluster = HostCluster::new(entry.first_cluster.value().saturating_add(1));
        entry.count = ClusterCount::new(entry.count.value().saturating_sub(1));
    }

    /// A run of the same length and kind that begins at another cluster.
    pub fn placed_at(self, first_cluster: HostCluster) -> PendingClusters
        ensures { result ≡ record self { first_cluster = first_cluster } }
    {
        let PendingClusters { mut node } = self;
        node.entry.first_cluster = first_cluster;
        PendingClusters { node }
    }

    /// The clusters are referred to now, and stay allocated.
    pub fn make_persistent(self) {
        let PendingClusters { node } = self;
        drop_nodes(Some(node));
    }

    /// Adds the run at the end of the list. Needs no memory.
    pub fn hand_back(self, list: &mut ClustersToFreeList)
        ensures { list.new ≡ list.old ++ self ∷ [] }
    {
        let PendingClusters { mut node } = self;
        let later = std::mem::replace(&mut node.next, list.newest.take());
        drop_nodes(later);
        drop_nodes(std::mem::replace(&mut list.newest, Some(node)));
    }
}

//! The refcounts that an allocator remembers: the clusters of the ranges whose refblocks were read, and the runs of free clusters among
//! them. A search looks here before it reads a refblock. If there is no room for a run, its range is forgotten.
ghost use Rattle.std.specs.Prelude.{◌≡◌, ◌↔◌, ℕ, ◌+◌, ◌*◌, ◌/◌, ◌^◌, ◌<◌, ◌≤◌, IsTrue};
ghost use Rattle.number_runs.specs.NumberRuns.{IsIn, NoneIn};
ghost use Rattle.qcow2_alloc.specs.LowestRuns.{IsCovered, KeepsRuns, NoCluster, PassesNoOthers};

use crate::Allocator;
use qcow2_metadata::HostCluster;

/// The greatest number of runs of free clusters, and of runs of clusters whose refcounts were read.
pub(crate) const MOST_KNOWN: usize = 1 << 18;

// The range of clusters that share a refblock with this one: the first of them, and the one after the last.
pub(crate) fn range_around(cluster: u64, bits: u32) -> (u64, u64)
    requires { bits < 64 }
    ensures from { result.0 ≤ cluster }
    ensures first { result.0 ≡ cluster / 2 ^ bits * 2 ^ bits }
    ensures end { result.1 ≤ result.0 + 2 ^ bits }
    ensures to { cluster + 1 < 2 ^ 64 → cluster < result.1 }
{
    let first = cluster >> bits << bits;
    (first, first.saturating_add(1 << bits))
}

impl Allocator {
    // Forgets all refcounts.
    pub(crate) fn forget_runs(&mut self)
        ensures kept { KeepsRuns self.old self.new NoCluster }
        ensures unread { (k : ℕ) → IsIn self.new.read k → ⊥ }
        ensures gone { (k : ℕ) → IsIn self.new.free k → ⊥ }
    {
        self.read.clear();
        self.free.clear();
        self.crowded = u64::MAX;
    }

    // Forgets the refcounts of the clusters from `first` up to `end`. If there is no room to split a run, all refcounts are forgotten.
    pub(crate) fn forget_range(&mut self, first: u64, end: u64)
        ensures kept { KeepsRuns self.old self.new NoCluster }
        ensures unread { NoneIn self.new.read first end }
        ensures gone { NoneIn self.new.free first end }
        ensures fewer { (k : ℕ) → IsIn self.new.free k → IsIn self.old.free k }
    {
        if !self.read.forget(first, end) {
            self.forget_runs();
            return;
        }
        if !self.free.forget(first, end) {
            self.forget_runs();
        }
    }

    // Forgets the refcounts of the cluster's range.
    fn forget_around(&mut self, cluster: u64, bits: u32)
        requires { bits < 64 }
        ensures kept { KeepsRuns self.old self.new NoCluster }
        ensures unread { cluster + 1 < 2 ^ 64 → IsIn self.new.read cluster → ⊥ }
        ensures gone { cluster + 1 < 2 ^ 64 → IsIn self.new.free cluster → ⊥ }
    {
        let (first, end) = range_around(cluster, bits);
        self.forget_range(first, end);
    }

    // Whether the cluster's range was read.
    pub(crate) fn is_read(&self, cluster: u64) -> bool
        ensures read { IsTrue result ↔ IsIn self.now.read cluster }
        ensures near { IsTrue result → cluster + 1 < 2 ^ 64 }
    {
        self.read.run_of(cluster).is_some()
    }

    // Whether the cluster lies in a free run.
    fn is_open(&self, cluster: u64) -> bool
        ensures open { IsTrue result ↔ IsIn self.now.free cluster }
        ensures near { IsTrue result → cluster + 1 < 2 ^ 64 }
    {
        self.free.run_of(cluster).is_some()
    }

    // Records that the cluster is free now. If its range was read, the cluster is added to a free run there, or the range is forgotten if
    // there is no room.
    pub(crate) fn record_free(&mut self, cluster: u64, bits: u32)
        requires { bits < 64 }
        ensures kept { KeepsRuns self.old self.new NoCluster }
        ensures open { IsCovered self.new cluster → ⊥ }
    {
        if !self.is_read(cluster) {
            return;
        }
        let (first, end) = range_around(cluster, bits);
        if !self.free.give(cluster, cluster > first, cluster + 1 < end) {
            self.forget_around(cluster, bits);
        }
    }

    // Records that the cluster is in use now, and removes it from its free run. The range is forgotten if the refcount was not 0 although
    // the cluster lay in a free run, or if there is no room to split the run.
    pub(crate) fn record_used(&mut self, cluster: u64, was_free: bool, bits: u32)
        requires { bits < 64 }
        ensures kept { KeepsRuns self.old self.new (λ k. k ≡ cluster) }
        ensures gone { IsIn self.new.free cluster → ⊥ }
    {
        if !self.is_open(cluster) {
            return;
        }
        if !was_free {
            self.forget_around(cluster, bits);
            return;
        }
        if !self.free.take(cluster) {
            self.forget_around(cluster, bits);
        }
    }

    // The first cluster from this one on that is not remembered as in use.
    pub(crate) fn behind_kept(&self, cluster: u64) -> u64
        ensures behind { cluster ≤ result }
        ensures kept { (k : ℕ) → cluster ≤ k → k < result → IsCovered self.now k }
        ensures open { IsCovered self.now result → ⊥ }
    {
        let end = self.read.end_from(cluster);
        match self.free.run_from(cluster) {
            Some((first, _)) => first.min(end),
            None => end,
        }
    }

    // Moves the first free cluster past those from it on that are remembered as in use.
    pub(crate) fn skip_kept(&mut self)
        ensures rest { self.new ≡ record self.old { first_free_cluster = self.new.first_free_cluster } }
        ensures passed { PassesNoOthers self.old self.new }
        ensures open { IsCovered self.new self.new.first_free_cluster → ⊥ }
    {
        self.first_free_cluster = self.behind_kept(self.first_free_cluster);
    }

    // Returns n, or how many clusters from `first` on lie before one that is remembered as in use.
    pub(crate) fn room_from(&self, first: u64, n: u64) -> u64
        ensures within { result ≤ n }
        ensures kept { result < n → IsCovered self.now (first + result) }
    {
        let end = self.free.end_from(first);
        if end - first >= n || !self.is_read(end) {
            return n;
        }
        end - first
    }
}

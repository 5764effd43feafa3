//! Clusters in use, which a search for free ones passes over.
ghost use Rattle.std.specs.Prelude.{◌≡◌, ◌⊎◌, ℕ, ◌+◌, ◌-◌, ◌/◌, ◌^◌, ◌<◌, ◌≤◌, IfOk, IfSome};
ghost use Rattle.std.specs.Prelude.{IsTrue, IsFalse};
ghost use Rattle.number_runs.specs.NumberRuns.{IsIn, Adds, NoneIn};
ghost use Rattle.qcow2_laws.specs.CrashInvariant.{Pending};
ghost use Rattle.qcow2_alloc.specs.ImageFile.{AllocatorInvariant};
ghost use Rattle.qcow2_alloc.specs.LowestRuns.{IsCovered, NoFreeBelowHint, KeepsNoFreeBelowHint, KeepsRuns};
ghost use Rattle.qcow2_alloc.specs.UsedCounts.{MovesOn, PassesKnown, StaysSound, SearchContinuesIn, AreFoundFree, IsFoundUsed, SparedStayOut, AddsFree};
ghost use Rattle.qcow2_alloc.specs.Steps.{AllocatorFails, TableStep};

use crate::free_runs::range_around;
use crate::{Allocator, ImageError, ImageFile, MetadataCaches};
use image_access::Storage;
use qcow2_metadata::HostCluster;

impl Allocator {
    // Passes over the clusters in use from one on, and moves the first free cluster if the search started there. Which clusters are in use
    // is known from the remembered refcounts, or else from the refblock.
    pub(crate) fn next_free_from<S: Storage>(
        &mut self,
        file: &mut ImageFile<S>,
        cluster: u64,
    ) -> Result<u64, ImageError>
        requires { cluster < 2 ^ 63 }
        ensures step { TableStep S.view self.old.reftable file.old self.new.reftable file.new }
        ensures moves { MovesOn self.old self.new cluster result }
        ensures sound { (p : Pending) → AllocatorInvariant S.view self.old p file.old
            → PassesKnown S.view p self.old file.old self.new file.new cluster result }
        ensures fails { AllocatorFails S.view file.old self.new.reftable file.new result }
        ensures behind { IfOk result (λ next. cluster ≤ next) }
        ensures far { IfOk result (SearchContinuesIn file.old.header.fields self.new file.new.caches cluster) }
        ensures hint { (p : Pending) → AllocatorInvariant S.view self.old p file.old
            → NoFreeBelowHint S.view self.old file.old → KeepsNoFreeBelowHint S.view self.new file.new result }
    {
        self.keep_range(file, cluster)?;
        let next = self.next_open(file, cluster)?;
        if cluster == self.first_free_cluster {
            self.first_free_cluster = next;
        }
        Ok(next)
    }

    // The end of the clusters in use from one on. If the cluster's range was read, this is by the remembered refcounts; otherwise by its refblock,
    // and at most the end of its range. Without a refblock none is in use.
    pub(crate) fn next_open<S: Storage>(
        &self,
        file: &mut ImageFile<S>,
        cluster: u64,
    ) -> Result<u64, ImageError>
        requires { cluster < 2 ^ 63 }
        ensures step { TableStep S.view self.now.reftable file.old self.now.reftable file.new }
        ensures sound { (p : Pending) → AllocatorInvariant S.view self.now p file.old
            → PassesKnown S.view p self.now file.old self.now file.new cluster result }
        ensures fails { AllocatorFails S.view file.old self.now.reftable file.new result }
        ensures behind { IfOk result (λ next. cluster ≤ next) }
        ensures far { IfOk result (SearchContinuesIn file.old.header.fields self.now file.new.caches cluster) }
    {
        if self.is_read(cluster) {
            return Ok(self.behind_kept(cluster));
        }
        let bits = file.header.rb_bits();
        let Some(block) = self.load_block(file, cluster >> bits)? else {
            return Ok(cluster);
        };
        let index = HostCluster::new(cluster).rb_index(bits);
        let used = file.caches.rb_used_from(block, index);
        Ok(cluster + used.min((1 << bits) - index) as u64)
    }

    // Remembers the refcounts in the refblock of the cluster's range, unless they are remembered already or there was no room for them.
    fn keep_range<S: Storage>(
        &mut self,
        file: &mut ImageFile<S>,
        cluster: u64,
    ) -> Result<(), ImageError>
        requires { cluster < 2 ^ 63 }
        ensures step { TableStep S.view self.old.reftable file.old self.new.reftable file.new }
        ensures rest { self.new
            ≡ record self.old { read = self.new.read; free = self.new.free; crowded = self.new.crowded } }
        ensures sound { (p : Pending) → AllocatorInvariant S.view self.old p file.old
            → StaysSound S.view p file.old self.new file.new result }
        ensures fails { AllocatorFails S.view file.old self.new.reftable file.new result }
        ensures hint { (p : Pending) → AllocatorInvariant S.view self.old p file.old
            → NoFreeBelowHint S.view self.old file.old → KeepsNoFreeBelowHint S.view self.new file.new result }
    {
        let bits = file.header.rb_bits();
        let (first, end) = range_around(cluster, bits);
        if self.crowded == first || self.is_read(cluster) {
            return Ok(());
        }
        let Some(block) = self.load_block(file, cluster >> bits)? else {
            return Ok(());
        };
        self.read_range(&mut file.caches, block, first, end);
        Ok(())
    }

    // Remembers the refcounts of the clusters from `first` up to `end` in a cached refblock. If there is no room, they are forgotten.
    fn read_range<S: Storage>(
        &mut self,
        caches: &mut MetadataCaches<S>,
        block: HostCluster,
        first: u64,
        end: u64,
    )
        requires { first ≤ end }
        ensures kept { KeepsRuns self.old self.new (IsFoundUsed self.old caches.old block first end) }
        ensures spared { SparedStayOut self.old self.new }
        ensures same { caches.new ≡ caches.old }
    {
        self.forget_range(first, end);
        if !self.list_range(caches, block, first, end) {
            self.forget_range(first, end);
            self.crowded = first;
        }
    }

    // Remembers the refcounts in a cached refblock, for a range that is not remembered yet. False if there is no room.
    fn list_range<S: Storage>(
        &mut self,
        caches: &mut MetadataCaches<S>,
        block: HostCluster,
        first: u64,
        end: u64,
    ) -> bool
        requires order { first ≤ end }
        requires unread { NoneIn self.old.read first end }
        requires none { NoneIn self.old.free first end }
        ensures rest { self.new ≡ record self.old { read = self.new.read; free = self.new.free } }
        ensures kept { (k : ℕ) → IsCovered self.new k
            → IsCovered self.old k ⊎ IsFoundUsed self.old caches.old block first end k }
        ensures spared { SparedStayOut self.old self.new }
        ensures same { caches.new ≡ caches.old }
    {
        if !self.list_free(caches, block, first, end) {
            return false;
        }
        self.add_read(first, end)
    }

    // Marks the clusters from `first` up to `end` as read, none of which was. False if there is no room.
    fn add_read(&mut self, first: u64, end: u64) -> bool
        requires order { first ≤ end }
        requires unread { NoneIn self.old.read first end }
        ensures rest { self.new ≡ record self.old { read = self.new.read } }
        ensures added { IsTrue result → Adds self.old.read self.new.read first (end - first) }
        ensures refused { IsFalse result → self.new ≡ self.old }
    {
        if !self.read.add(first, end - first) {
            return false;
        }
        self.read.join_at(first);
        self.read.join_at(end);
        true
    }

    // Adds the free clusters from `first` up to `end` in a cached refblock to the free runs, except spared ones. False if there is no room
    // for all.
    fn list_free<S: Storage>(
        &mut self,
        caches: &mut MetadataCaches<S>,
        block: HostCluster,
        first: u64,
        end: u64,
    ) -> bool
        requires order { first ≤ end }
        requires none { NoneIn self.old.free first end }
        ensures adds { AddsFree self.old self.new }
        ensures listed { IsTrue result → (k : ℕ) → first ≤ k → k < end
            → IsFoundUsed self.old caches.old block first end k ⊎ IsIn self.new.free k }
        ensures same { caches.new ≡ caches.old }
    {
        let mut at = first;
        'listing: while at < end {
            let Some(next) = self.list_stretch(caches, block, first, at, end) else {
                return false;
            };
            at = next;
        }
        true
    }

    // Passes over clusters in use or spared from `at` on, or adds a free run there. Returns the cluster after them, or none if there is no
    // room.
    fn list_stretch<S: Storage>(
        &mut self,
        caches: &mut MetadataCaches<S>,
        block: HostCluster,
        first: u64,
        at: u64,
        end: u64,
    ) -> Option<u64>
        requires from { first ≤ at }
        requires below { at < end }
        requires none { NoneIn self.old.free at end }
        ensures adds { AddsFree self.old self.new }
        ensures onward { IfSome result (λ next. (at < next) × (next ≤ end) × NoneIn self.new.free next end) }
        ensures listed { IfSome result (λ next. (k : ℕ) → at ≤ k → k < next
            → IsFoundUsed self.old caches.old block first end k ⊎ IsIn self.new.free k) }
        ensures same { caches.new ≡ caches.old }
    {
        let used = caches.rb_used_from(block, (at - first) as usize) as u64;
        if used == 0 {
            return self.list_open(caches, block, first, at, end);
        }
        Some(at.saturating_add(used).min(end))
    }

    // Passes over spared clusters from `at` on, or adds a free run there. Returns the cluster after them, or none if there is no room.
    fn list_open<S: Storage>(
        &mut self,
        caches: &MetadataCaches<S>,
        block: HostCluster,
        first: u64,
        at: u64,
        end: u64,
    ) -> Option<u64>
        requires from { first ≤ at }
        requires below { at < end }
        requires none { NoneIn self.old.free at end }
        ensures adds { AddsFree self.old self.new }
        ensures onward { IfSome result (λ next. (at < next) × (next ≤ end) × NoneIn self.new.free next end) }
        ensures listed { IfSome result (λ next. (k : ℕ) → at ≤ k → k < next
            → IsIn self.old.named k ⊎ IsIn self.new.free k) }
    {
        if let Some((spared, n)) = self.named.run_of(at) {
            return Some((spared + n).min(end));
        }
        let n = self.free_from(caches, block, first, at, end);
        if n == 0 {
            return None;
        }
        if !self.free.add(at, n) {
            return None;
        }
        Some(at + n)
    }

    // The length of the run from `at` on, up to `end` at most, whose refcounts in a cached refblock are 0 and that isn't spared.
    fn free_from<S: Storage>(
        &self,
        caches: &MetadataCaches<S>,
        block: HostCluster,
        first: u64,
        at: u64,
        end: u64,
    ) -> u64
        requires from { first ≤ at }
        requires below { at < end }
        ensures within { at + result ≤ end }
        ensures spared { NoneIn self.now.named at (at + result) }
        ensures free { AreFoundFree caches.now block first at (at + result) }
    {
        let Some(block) = caches.rb_peek(block) else {
            return 0;
        };
        let stop = self.spared_from(at, end);
        let last = stop.min(first.saturating_add(block.counts() as u64));
        let mut next = at;
        'counting: while next < last {
            if !block.is_zero((next - first) as usize) {
                return next - at;
            }
            next += 1;
        }
        next - at
    }

    // The first spared cluster from `at` on, or `end` if none lies below it.
    fn spared_from(&self, at: u64, end: u64) -> u64
        requires { at ≤ end }
        ensures from { at ≤ result }
        ensures to { result ≤ end }
        ensures none { NoneIn self.now.named at result }
    {
        match self.named.run_from(at) {
            Some((spared, _)) => spared.min(end),
            None => end,
        }
    }
}

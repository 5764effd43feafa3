//! Clusters that the header, the reftable and the L1 table refer to when an image is opened. They are not allocated, even if their refcounts
//! are 0.
ghost use Rattle.std.specs.Prelude.{◌≡◌, ◌↔◌, ℕ, ◌+◌, ◌^◌, ◌<◌, IsTrue};
ghost use Rattle.number_runs.specs.NumberRuns.{IsIn};
ghost use Rattle.qcow2_laws.specs.CrashInvariant.{Pending};
ghost use Rattle.qcow2_metadata.specs.EntryTable.{entry_count, IsL1TableOf};
ghost use Rattle.qcow2_alloc.specs.ImageFile.{contents_in, AllocatorInvariant};
ghost use Rattle.qcow2_alloc.specs.LowestRuns.{NoFreeBelowHint};
ghost use Rattle.qcow2_alloc.specs.SparedClusters.{IsNamedHere, IsOfTables, IsWithin, Spares};
ghost use Rattle.qcow2_alloc.specs.SparedClusters.{NamesBlockIn, NamesTableIn};

use crate::{Allocator, ImageFile};
use image_access::Storage;
use qcow2_metadata::{ClusterCount, Header, L1Table};

/// The greatest number of runs of spared clusters.
pub(crate) const MOST_SPARED: usize = 1 << 18;

impl Allocator {
    /// Spares the clusters that the header, the reftable and an L1 table refer to: until they are freed, a search passes over
    /// them, even if their refcounts are 0. False if they make more than 262,144 runs, or memory runs out: then some are not spared.
    pub fn spare_named<S: Storage>(&mut self, file: &ImageFile<S>, l1_table: &L1Table) -> bool
        ensures rest { self.new ≡ record self.old { named = self.new.named } }
        ensures spares { Spares (IsNamedHere file.now.header.fields self.old.reftable l1_table.now)
            self.old.named self.new.named result }
        ensures sound { (p : Pending) → AllocatorInvariant S.view self.old p file.now
            → IsL1TableOf file.now.header.fields (contents_in S.view file.now) l1_table.now
            → NoFreeBelowHint S.view self.old file.now → NoFreeBelowHint S.view self.new file.now }
    {
        let bits = file.header.cluster_bits();
        if !self.spare_tables(&file.header) {
            return false;
        }
        if !self.spare_refblocks(bits) {
            return false;
        }
        self.spare_l2_tables(l1_table, bits)
    }

    // Spares the clusters of the L1 table and of the reftable.
    fn spare_tables(&mut self, header: &Header) -> bool
        ensures rest { self.new ≡ record self.old { named = self.new.named } }
        ensures spares { Spares (IsOfTables header.now.fields) self.old.named self.new.named result }
    {
        let bits = header.cluster_bits();
        let l1_offset = header.l1_table_offset().value();
        let entries = u64::from(header.l1_table_entries());
        let clusters = ClusterCount::from_byte_size(8 * entries, bits).value();
        if !self.spare_run(l1_offset >> bits, clusters) {
            return false;
        }
        let reftable_offset = header.reftable_offset().value();
        let clusters = u64::from(header.reftable_clusters());
        self.spare_run(reftable_offset >> bits, clusters)
    }

    // Spares n clusters from one on.
    fn spare_run(&mut self, first: u64, n: u64) -> bool
        requires { first + n < 2 ^ 64 }
        ensures rest { self.new ≡ record self.old { named = self.new.named } }
        ensures spares { Spares (IsWithin first (first + n)) self.old.named self.new.named result }
    {
        'sparing: for cluster in first..first + n {
            if !self.spare(cluster) {
                return false;
            }
        }
        true
    }

    // Spares the refblocks that the reftable refers to.
    fn spare_refblocks(&mut self, bits: u32) -> bool
        requires { bits < 64 }
        ensures rest { self.new ≡ record self.old { named = self.new.named } }
        ensures spares { Spares (NamesBlockIn (2 ^ bits) (entry_count self.old.reftable) self.old.reftable)
            self.old.named self.new.named result }
    {
        'sparing: for range in 0..self.reftable.len() {
            if let Some(offset) = self.reftable.get(range) {
                if !self.spare(offset.cluster(bits).value()) {
                    return false;
                }
            }
        }
        true
    }

    // Spares the L2 tables that an L1 table refers to.
    fn spare_l2_tables(&mut self, l1_table: &L1Table, bits: u32) -> bool
        requires { bits < 64 }
        ensures rest { self.new ≡ record self.old { named = self.new.named } }
        ensures spares { Spares (NamesTableIn (2 ^ bits) (entry_count l1_table.now) l1_table.now)
            self.old.named self.new.named result }
    {
        'sparing: for index in 0..l1_table.len() {
            if let Some(entry) = l1_table.get(index) {
                if !self.spare(entry.offset.cluster(bits).value()) {
                    return false;
                }
            }
        }
        true
    }

    // Spares a cluster. False if there is no room for another run.
    fn spare(&mut self, cluster: u64) -> bool
        ensures rest { self.new ≡ record self.old { named = self.new.named } }
        ensures spares { Spares (λ k. k ≡ cluster) self.old.named self.new.named result }
    {
        self.named.give(cluster, true, true)
    }

    // Ends the sparing of a cluster. If there is no room to split its run, none of the run is spared any more.
    pub(crate) fn spare_no_longer(&mut self, cluster: u64)
        ensures rest { self.new ≡ record self.old { named = self.new.named } }
        ensures fewer { (k : ℕ) → IsIn self.new.named k → IsIn self.old.named k }
        ensures gone { IsIn self.new.named cluster → ⊥ }
    {
        if !self.named.take(cluster) {
            self.named.clear();
        }
    }

    // Whether a cluster is spared.
    pub(crate) fn is_spared(&self, cluster: u64) -> bool
        ensures { IsTrue result ↔ IsIn self.now.named cluster }
    {
        self.named.run_of(cluster).is_some()
    }
}

//! Freeing clusters: those on the list of clusters to free, and those that an allocation gives back.
ghost use Rattle.std.specs.Prelude.{◌≡◌, ℕ, ◌++◌, ◌∷◌, [], ◌+◌, ◌/◌, ◌^◌, ◌<◌, ◌≤◌, Bool, OnOk, IsErrOf, IsOk, IsTrue};
ghost use Rattle.qcow2_metadata.specs.Header.{counts_per_block};
ghost use Rattle.qcow2_laws.specs.Changes.{one_at};
ghost use Rattle.qcow2_laws.specs.CrashInvariant.{Pending};
ghost use Rattle.qcow2_alloc.specs.Allocation.{run_at, taken_as, IsUnaligned, MayFree, Owed, listed_as, owed_as};
ghost use Rattle.qcow2_alloc.specs.Allocation.{MayDecrement, SameLeaks, Frees, DecrementsOne, GivesBack, GivesBackRun};
ghost use Rattle.qcow2_alloc.specs.FreeList.{run_of, with_listed, but, GoOffInOrder};
ghost use Rattle.qcow2_alloc.specs.FreeSteps.{FreesListed};
ghost use Rattle.qcow2_alloc.specs.Leaks.{LeaksOne, LeaksUnaligned, TriesToDecrement, DecrementsOrLeaks, FreesOff};
ghost use Rattle.qcow2_alloc.specs.LowestRuns.{NoFreeBelowHint, KeepsNoFreeBelowHint, KeepsUsedBut};
ghost use Rattle.qcow2_alloc.specs.LowestRuns.{IsPassed, SearchStays};
ghost use Rattle.qcow2_alloc.specs.ImageError.{IsFault, IsFaultOrLimit};
ghost use Rattle.qcow2_alloc.specs.ImageFile.{AllocatorInvariant};
ghost use Rattle.qcow2_alloc.specs.Steps.{AllocatorFails, Fails, FreeStepInTurn, TableStep, GivesSoundly};

use crate::{Allocator, ClusterKind, ImageError, ImageFile, PendingClusters, TakenClusters};
use image_access::Storage;
use qcow2_metadata::HostCluster;

#[tactic(auto, using(crate::proofs::TableErrors::storage_of_tables, crate::proofs::TableErrors::stored_of_tables))]
impl Allocator {
    // Decrements the refcounts of a run. A cluster whose refcount cannot be decremented is counted as leaked.
    pub(crate) fn give_back<S: Storage>(
        &mut self,
        file: &mut ImageFile<S>,
        first: u64,
        n: u64,
    ) -> Result<(), ImageError>
        requires { first + n < 2 ^ 63 }
        ensures step { TableStep S.view self.old.reftable file.old self.new.reftable file.new }
        ensures reftable { self.new.reftable ≡ self.old.reftable }
        ensures none { n ≡ 0 → IsOk result × (file.new ≡ file.old) }
        ensures sound { GivesBackRun S.view self.old file.old self.new file.new first n result }
        ensures fails { Fails S.view file.old.storage file.new.storage result IsFault }
        ensures leaks { (p : Pending) (is_data : Bool)
            → AllocatorInvariant S.view self.old (taken_as is_data p (run_at first n)) file.old
            → SameLeaks self.old self.new }
        ensures hint { (p : Pending) (is_data : Bool)
            → AllocatorInvariant S.view self.old (taken_as is_data p (run_at first n)) file.old
            → NoFreeBelowHint S.view self.old file.old → KeepsNoFreeBelowHint S.view self.new file.new result }
        ensures kept { (p : Pending) (is_data : Bool)
            → AllocatorInvariant S.view self.old (taken_as is_data p (run_at first n)) file.old
            → KeepsUsedBut S.view (run_at first n) file.old file.new result }
    {
        if n == 0 {
            return Ok(());
        }
        'lowering: for cluster in first..first + n {
            self.decrement_or_leak(file, cluster)?;
        }
        Ok(())
    }

    // Decrements the refcount of a cluster. If it cannot be decremented, the cluster is counted as leaked.
    pub(crate) fn decrement_or_leak<S: Storage>(
        &mut self,
        file: &mut ImageFile<S>,
        cluster: u64,
    ) -> Result<(), ImageError>
        ensures step { TableStep S.view self.old.reftable file.old self.new.reftable file.new }
        ensures reftable { self.new.reftable ≡ self.old.reftable }
        ensures first { self.old.first_free_cluster ≤ cluster → SearchStays self.old self.new }
        ensures sound { (p : Pending) (owed : Owed)
            → AllocatorInvariant S.view self.old (owed_as owed p (one_at cluster)) file.old → MayDecrement owed file.old
            → GivesSoundly S.view
            (GivesBack S.view (owed_as owed p (one_at cluster)) file.old self.new file.new p result)
            self.old file.old self.new file.new result }
        ensures or_leaks { DecrementsOrLeaks file.old.header.fields self.old.reftable
            self.old file.old.caches self.new file.new.caches cluster result }
        ensures grows { self.old.leaked_clusters ≤ self.new.leaked_clusters }
        ensures fails { Fails S.view file.old.storage file.new.storage result IsFault }
        ensures unaligned { IsUnaligned file.old.header.fields self.old.reftable
            (cluster / counts_per_block file.old.header.fields) → IsOk result × LeaksOne self.old self.new
            × (file.new ≡ file.old) }
    {
        match self.decrement_refcount(file, cluster) {
            Ok(true) => return Ok(()),
            Ok(false) => {}
            Err(refusal) => {
                if refusal.is_fault() {
                    return Err(refusal);
                }
            }
        }
        self.leaked_clusters = self.leaked_clusters.saturating_add(1);
        Ok(())
    }

    /// Frees the clusters on the list: metadata first, then data. If there were data, L2 tables are written before refblocks from then
    /// on. Refused 14 (memory) and 15 (storage), and then clusters that were not freed stay on the list. A cluster whose refcount cannot be
    /// decremented for another reason, such as an unaligned refblock, is counted by `leaked_clusters`.
    pub fn free<S: Storage>(&mut self, file: &mut ImageFile<S>) -> Result<(), ImageError>
        ensures step { FreeStepInTurn S.view self.old.reftable file.old self.new.reftable file.new }
        ensures emptied { OnOk result (file.new.free_list ≡ []) }
        ensures in_order { GoOffInOrder file.old.free_list file.new.free_list }
        ensures sound { (p : Pending) → AllocatorInvariant S.view self.old (with_listed p file.old.free_list) file.old
            → GivesSoundly S.view
            (Frees S.view (with_listed p file.old.free_list) file.old self.new file.new
            (with_listed p file.new.free_list) result)
            self.old file.old self.new file.new result }
        ensures grows { self.old.leaked_clusters ≤ self.new.leaked_clusters }
        ensures fails { Fails S.view file.old.storage file.new.storage result IsFaultOrLimit }
        ensures unaligned { LeaksUnaligned file.old.header.fields self.old.reftable self.old self.new
            file.old.free_list file.new.free_list }
        ensures each { FreesOff file.old.header.fields self.old.reftable self.old file.old.caches file.old.free_list
            self.new file.new.caches file.new.free_list result }
    {
        self.free_kind(file, ClusterKind::Metadata)?;
        if file.free_list.is_empty() {
            return Ok(());
        }
        file.caches.rb_depends_on_l2(&mut file.storage)?;
        self.free_kind(file, ClusterKind::Data)
    }

    // Frees the clusters of one kind. Those of the other kind stay on the list, and after a refusal those that were not freed.
    fn free_kind<S: Storage>(
        &mut self,
        file: &mut ImageFile<S>,
        kind: ClusterKind,
    ) -> Result<(), ImageError>
        ensures frees { FreesListed S.view kind self.old file.old file.old.free_list
            self.new file.new file.new.free_list result }
        ensures left { OnOk result (file.new.free_list ≡ but kind file.old.free_list) }
    {
        let mut taken = file.free_list.take();
        let done = self.free_taken(file, &mut taken, kind);
        taken.hand_back(&mut file.free_list);
        done
    }

    // Frees the entries of one kind until one is refused, and puts those of the other kind on the list.
    fn free_taken<S: Storage>(
        &mut self,
        file: &mut ImageFile<S>,
        taken: &mut TakenClusters,
        kind: ClusterKind,
    ) -> Result<(), ImageError>
        ensures frees { FreesListed S.view kind self.old file.old (file.old.free_list ++ taken.old)
            self.new file.new (file.new.free_list ++ taken.new) result }
        ensures all { OnOk result (taken.new ≡ []) }
        ensures left { OnOk result (file.new.free_list ≡ file.old.free_list ++ but kind taken.old) }
    {
        'freeing: while let Some(pending) = taken.next_pending() {
            self.free_or_list(file, pending, kind)?;
        }
        Ok(())
    }

    // Frees an entry of one kind, and puts one of the other kind on the list.
    fn free_or_list<S: Storage>(
        &mut self,
        file: &mut ImageFile<S>,
        pending: PendingClusters,
        kind: ClusterKind,
    ) -> Result<(), ImageError>
        ensures frees { FreesListed S.view kind self.old file.old (file.old.free_list ++ pending ∷ [])
            self.new file.new file.new.free_list result }
        ensures left { OnOk result (file.new.free_list ≡ file.old.free_list ++ but kind (pending ∷ [])) }
    {
        if pending.kind() == kind {
            return self.free_entry(file, pending);
        }
        pending.hand_back(&mut file.free_list);
        Ok(())
    }

    // Frees an entry. After a refusal, the clusters that were not freed are on the list.
    fn free_entry<S: Storage>(
        &mut self,
        file: &mut ImageFile<S>,
        pending: PendingClusters,
    ) -> Result<(), ImageError>
        ensures frees { FreesListed S.view pending.kind self.old file.old (file.old.free_list ++ pending ∷ [])
            self.new file.new file.new.free_list result }
        ensures left { OnOk result (file.new.free_list ≡ file.old.free_list) }
    {
        let mut run = pending;
        match self.free_run(file, &mut run) {
            Ok(()) => {
                run.make_persistent();
                Ok(())
            }
            Err(refusal) => {
                run.hand_back(&mut file.free_list);
                Err(refusal)
            }
        }
    }

    // Decrements the refcounts of a run's clusters. After a refusal, the run has the clusters that are left.
    fn free_run<S: Storage>(
        &mut self,
        file: &mut ImageFile<S>,
        run: &mut PendingClusters,
    ) -> Result<(), ImageError>
        ensures frees { FreesListed S.view run.old.kind self.old file.old (file.old.free_list ++ run.old ∷ [])
            self.new file.new (file.old.free_list ++ run.new ∷ []) result }
        ensures list { file.new.free_list ≡ file.old.free_list }
        ensures kind { run.new.kind ≡ run.old.kind }
        ensures all { OnOk result (run.new.count ≡ 0) }
    {
        'freeing: while run.count().value() > 0 {
            self.decrement_or_leak(file, run.cluster().value())?;
            run.drop_first();
        }
        Ok(())
    }

    // Decrements the refcount of a cluster. False if it is 0 or there is no refblock.
    fn decrement_refcount<S: Storage>(
        &mut self,
        file: &mut ImageFile<S>,
        cluster: u64,
    ) -> Result<bool, ImageError>
        ensures step { TableStep S.view self.old.reftable file.old self.new.reftable file.new }
        ensures reftable { self.new.reftable ≡ self.old.reftable }
        ensures leaked { self.new.leaked_clusters ≡ self.old.leaked_clusters }
        ensures tries { TriesToDecrement file.old.header.fields self.old.reftable
            file.old.caches file.new.caches cluster result }
        ensures first { self.old.first_free_cluster ≤ cluster → SearchStays self.old self.new }
        ensures sound { (p : Pending) (owed : Owed)
            → AllocatorInvariant S.view self.old (owed_as owed p (one_at cluster)) file.old → MayDecrement owed file.old
            → DecrementsOne S.view (owed_as owed p (one_at cluster)) file.old self.new file.new p result }
        ensures fails { AllocatorFails S.view file.old self.new.reftable file.new result }
        ensures hint { (p : Pending) (owed : Owed)
            → AllocatorInvariant S.view self.old (owed_as owed p (one_at cluster)) file.old → MayDecrement owed file.old
            → NoFreeBelowHint S.view self.old file.old → KeepsNoFreeBelowHint S.view self.new file.new result }
        ensures unaligned { IsUnaligned file.old.header.fields self.old.reftable
            (cluster / counts_per_block file.old.header.fields) → IsErrOf result ImageError.UnalignedTable
            × (file.new ≡ file.old) }
    {
        let bits = file.header.rb_bits();
        let Some(block) = self.load_block(file, cluster >> bits)? else {
            return Ok(false);
        };
        let index = HostCluster::new(cluster).rb_index(bits);
        let left = file.caches.rb_release(block, index);
        self.record_decrement(cluster, left.unwrap_or(0) == 0, bits);
        Ok(left.is_some())
    }

    // A cluster whose refcount is 0 now may be allocated again, and is not spared any longer. If its range was read, it lies in a free run
    // now, or the range is forgotten.
    fn record_decrement(&mut self, cluster: u64, is_free: bool, bits: u32)
        requires { bits < 64 }
        ensures reftable { self.new.reftable ≡ self.old.reftable }
        ensures leaked { self.new.leaked_clusters ≡ self.old.leaked_clusters }
        ensures passed { (k : ℕ) → IsPassed self.new k → IsPassed self.old k }
        ensures free { IsTrue is_free → IsPassed self.new cluster → ⊥ }
        ensures lowest { self.old.first_free_cluster ≤ cluster
            → self.new.first_free_cluster ≡ self.old.first_free_cluster }
    {
        if is_free {
            self.first_free_cluster = self.first_free_cluster.min(cluster);
            self.spare_no_longer(cluster);
            self.record_free(cluster, bits);
        }
    }
}

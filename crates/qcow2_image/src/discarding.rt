//! Clearing the whole clusters of a range: to zeros, or to what the backing disk shows.
ghost use Rattle.qcow2_image.specs.ImageSteps.{ImageFails, ImageStep};
ghost use Rattle.std.specs.Prelude.{ℕ, List, Option, ◌≡◌, ◌+◌, ◌-◌, ◌/◌, ◌%◌, ◌^◌, ◌<◌, ◌≤◌, ◌++◌, true, false, Some};
ghost use Rattle.std.specs.Prelude.{None, Ok, Err, IfOk, IfErr, IfSome, OnOk, IsSome, IsTrue, MatchOption};
ghost use Rattle.std.specs.Prelude.{[], if◌then◌else◌};
ghost use Rattle.qcow2_image.specs.Found.{l1_index_of};
ghost use Rattle.qcow2_metadata.specs.EntryTable.{entry_count};
ghost use Rattle.qcow2_image.specs.MayFail.{KeepsL1Place};
ghost use Rattle.qcow2_metadata.specs.Header.{cluster_size, entries_per_cluster, rounded_up as rounded_up_to};
ghost use Rattle.qcow2_metadata.specs.L2Mapping.{IsInReach, old_data_run};
ghost use Rattle.qcow2_laws.specs.CrashInvariant.{Pending};
ghost use Rattle.qcow2_alloc.specs.ImageError.{IsFault};
ghost use Rattle.qcow2_alloc.specs.ImageFile.{known_in, FileInvariant};
ghost use Rattle.qcow2_alloc.specs.MetadataCaches.{IsEntryAt, l2_at};
ghost use Rattle.qcow2_alloc.specs.declared.error.ImageError.TheVariants.{TablePrepared};
ghost use Rattle.qcow2_image.specs.declared.prepared.Prepared.{Prepared};
ghost use Rattle.qcow2_image.specs.L1Entries.{HasOwnTable};
ghost use Rattle.qcow2_image.specs.PinnedTables.{RespectsPins};
ghost use Rattle.qcow2_image.specs.Image.{ImageStays, is_placed_by_guest, is_writable, size_of};
ghost use Rattle.qcow2_image.specs.ImageInvariant.{ImageInvariant, pending_in, listed_run, Mappings};
ghost use Rattle.qcow2_image.specs.Refusals.{FreesRefused, MayFailOn, MayFailPreparing, passes as passes_size};
ghost use Rattle.qcow2_image.specs.ClearingCalls.{ClearsInTable, ClearsStep, ClearsSoundly};
ghost use Rattle.qcow2_image.specs.ClearingCalls.{FailsToClear};
ghost use Rattle.qcow2_image.specs.Clearing.{ClearsEntry, ClearsTable, IsClearable, ReadsAll, ReadsDropped};
ghost use Rattle.qcow2_image.specs.Clearing.{cover_once_cleared, from_in, to_in, needs_zero_entries, refuses_to_clear};
ghost use Rattle.qcow2_image.specs.Clearing.{rounds_past};
ghost use Rattle.qcow2_image.specs.Faults.{IsNotOfStorage};

use crate::Qcow2;
use crate::mappings::passes;
use image_access::{Storage, WrappedFormat};
use qcow2_alloc::{ClustersToFreeEntry, ClustersToFreeList, ImageError};
use qcow2_metadata::{ClusterCount, GuestCluster, GuestOffset, HostCluster, L2Mapping};
use std::alloc::Global;

// The new state of a cleared cluster.
#[derive(Clone, Copy, Debug, PartialEq, Eq)]
pub(crate) enum ClearMode {
    // Unmapped: the backing disk shows.
    Uncovered,
    // A zero entry without a host cluster.
    Zeros,
    // A zero entry that keeps the host cluster, if that was marked copied.
    KeptZeros,
}

impl ClearMode {
    // Whether clearing in this mode needs zero entries.
    fn needs_zeros(self) -> bool
        ensures { result ≡ needs_zero_entries self }
    {
        match self {
            ClearMode::Uncovered => false,
            ClearMode::Zeros | ClearMode::KeptZeros => true,
        }
    }

    // The host clusters that lose a reference when the entry is cleared.
    fn old_data(self, old: L2Mapping, bits: u32) -> Option<(HostCluster, ClusterCount)>
        requires bits { bits < 64 }
        requires reach { IsInReach old }
        ensures { result ≡ old_data_run bits old (cover_once_cleared self old) }
    {
        match self {
            ClearMode::Uncovered | ClearMode::Zeros => old.host_clusters(bits),
            ClearMode::KeptZeros => {
                if old.is_marked_copied() {
                    None
                } else {
                    old.host_clusters(bits)
                }
            }
        }
    }
}

// An offset rounded up to a cluster, if it fits into 64 bits.
pub(crate) fn rounded_up(offset: u64, size: u64) -> Option<u64>
    requires { 0 < size }
    ensures some { IfSome result (λ n. n ≡ rounded_up_to size offset) }
    ensures none { result ≡ None → 2 ^ 64 ≤ rounded_up_to size offset }
{
    let behind = offset % size;
    if behind == 0 {
        return Some(offset);
    }
    offset.checked_add(size - behind)
}

// Adds a run of data clusters at the end of a list.
#[tactic(auto, using(crate::proofs::Call::FailingErrors::tables_met, crate::proofs::Call::FailingErrors::fault_met, crate::proofs::Clear::Touched::nothing_more))]
fn list_run(
    alloc: Global,
    list: &mut ClustersToFreeList,
    run: Option<(HostCluster, ClusterCount)>,
) -> Result<(), ImageError>
    ensures fault { IfErr result IsFault }
    ensures listed { OnOk result (list.new ≡ list.old ++ listed_run run) }
    ensures faults { IfErr result IsNotOfStorage }
{
    if let Some((first, count)) = run {
        list.push(alloc, ClustersToFreeEntry::data(first, count))?;
    }
    Ok(())
}

#[tactic(auto, using(crate::proofs::Call::FailingErrors::tables_met, crate::proofs::Call::FailingErrors::fault_met, crate::proofs::Call::FailingErrors::storage_met))]
impl<S: Storage, F: WrappedFormat<S>> Qcow2<S, F> {
    /// Discards the whole clusters of a range, in bytes, so that the backing disk shows there. Returns where the first whole cluster begins,
    /// and how many bytes of the range were cleared: within one L2 table, and 0 if no cluster is whole. The disk's last cluster counts as
    /// whole if the range ends at the disk's size.
    /// Refused in this order: 16 (failed), 12 (dependency), 1 (read-only), 2 (beyond size), 20 (overflow) if rounding up passes 64
    /// bits; then 9 (table prepared), if a mapping that isn't existing is prepared in the same L2 table. May be refused 4 (unaligned table),
    /// 8 (everything is in use), 13 (limit), 14 (memory) or 15 (storage) during the work, and 20 if an L1 entry past 64 bits would
    /// have to be written.
    pub fn discard_to_backing_unsafe(
        &mut self,
        offset: u64,
        length: u64,
    ) -> Result<(u64, u64), ImageError>
        ensures step { ClearsStep S.view F.backing self.old self.new result }
        ensures fails { FailsToClear S.view F.backing ClearMode.Uncovered self.old self.new offset length result }
        ensures sound { ClearsSoundly S.view F.backing ClearMode.Uncovered self.old self.new offset length result }
    {
        self.clear_range(offset, length, ClearMode::Uncovered)
    }

    /// Discards the whole clusters of a range, in bytes, so that they read as zeros. Returns where the first whole cluster begins, and how
    /// many bytes of the range were cleared: within one L2 table, and 0 if no cluster is whole. The disk's last cluster counts as whole if
    /// the range ends at the disk's size.
    /// Refused in this order: 16 (failed), 12 (dependency), 1 (read-only), 2 (beyond size), 3 (version) below version 3, 20 (overflow)
    /// if rounding up passes 64 bits; then 9 (table prepared), if a mapping that isn't existing is prepared in the same L2 table. May be refused
    /// 4 (unaligned table), 8 (everything is in use), 13 (limit), 14 (memory) or 15 (storage) during the work, and 20 if an L1
    /// entry past 64 bits would have to be written.
    pub fn discard_to_zero_unsafe(
        &mut self,
        offset: u64,
        length: u64,
    ) -> Result<(u64, u64), ImageError>
        ensures step { ClearsStep S.view F.backing self.old self.new result }
        ensures fails { FailsToClear S.view F.backing ClearMode.Zeros self.old self.new offset length result }
        ensures sound { ClearsSoundly S.view F.backing ClearMode.Zeros self.old self.new offset length result }
    {
        self.clear_range(offset, length, ClearMode::Zeros)
    }

    /// Discards the whole clusters of a range, in bytes. What they then read as is left open; today they read as zeros. Returns where the first
    /// whole cluster begins, and how many bytes of the range were cleared: within one L2 table, and 0 if no cluster is whole. The disk's last
    /// cluster counts as whole if the range ends at the disk's size.
    /// Refused in this order: 16 (failed), 12 (dependency), 1 (read-only), 2 (beyond size), 3 (version) below version 3, 20 (overflow)
    /// if rounding up passes 64 bits; then 9 (table prepared), if a mapping that isn't existing is prepared in the same L2 table. May be refused
    /// 4 (unaligned table), 8 (everything is in use), 13 (limit), 14 (memory) or 15 (storage) during the work, and 20 if an L1
    /// entry past 64 bits would have to be written.
    pub fn discard_to_any_unsafe(
        &mut self,
        offset: u64,
        length: u64,
    ) -> Result<(u64, u64), ImageError>
        ensures step { ClearsStep S.view F.backing self.old self.new result }
        ensures fails { FailsToClear S.view F.backing ClearMode.Zeros self.old self.new offset length result }
        ensures sound { ClearsSoundly S.view F.backing ClearMode.Zeros self.old self.new offset length result }
    {
        self.discard_to_zero_unsafe(offset, length)
    }

    /// Makes the whole clusters of a range, in bytes, read as zeros. Host clusters that are marked copied are kept. Returns where the
    /// first whole cluster begins, and how many bytes of the range were cleared: within one L2 table, and 0 if no cluster is whole.
    /// The disk's last cluster counts as whole if the range ends at the disk's size.
    /// Refused in this order: 16 (failed), 12 (dependency), 1 (read-only), 2 (beyond size), 3 (version) below version 3, 20 (overflow)
    /// if rounding up passes 64 bits; then 9 (table prepared), if a mapping that isn't existing is prepared in the same L2 table. May be refused
    /// 4 (unaligned table), 8 (everything is in use), 13 (limit), 14 (memory) or 15 (storage) during the work, and 20 if an L1
    /// entry past 64 bits would have to be written.
    pub fn ensure_zero_mapping(
        &mut self,
        offset: u64,
        length: u64,
    ) -> Result<(u64, u64), ImageError>
        ensures step { ClearsStep S.view F.backing self.old self.new result }
        ensures fails { FailsToClear S.view F.backing ClearMode.KeptZeros self.old self.new offset length result }
        ensures sound { ClearsSoundly S.view F.backing ClearMode.KeptZeros self.old self.new offset length result }
    {
        self.clear_range(offset, length, ClearMode::KeptZeros)
    }

    // Clears the whole clusters of a range.
    pub(crate) fn clear_range(
        &mut self,
        offset: u64,
        length: u64,
        how: ClearMode,
    ) -> Result<(u64, u64), ImageError>
        ensures step { ClearsStep S.view F.backing self.old self.new result }
        ensures fails { FailsToClear S.view F.backing how self.old self.new offset length result }
        ensures sound { ClearsSoundly S.view F.backing how self.old self.new offset length result }
    {
        let (from, to) = self.check_clear(offset, length, how)?;
        if to <= from {
            return Ok((from, 0));
        }
        self.begin_call();
        let cleared = self.clear_between(from, to, how);
        self.mark_failure(cleared)?;
        self.process_free_list_at_end()?;
        Ok((from, to.min(offset + length).saturating_sub(from)))
    }

    // The start and the end of the whole clusters of a range within one L2 table. Refuses a range that can't be cleared.
    fn check_clear(
        &self,
        offset: u64,
        length: u64,
        how: ClearMode,
    ) -> Result<(u64, u64), ImageError>
        ensures refusal { MatchOption (refuses_to_clear self.now offset length how)
            (result ≡ Ok (from_in self.now offset length, to_in self.now offset length)) (λ e. result ≡ Err e) }
        ensures writable { IfOk result (λ range. IsTrue (is_writable self.now)) }
        ensures end { IfOk result (λ range. offset + length < 2 ^ 64) }
        ensures version { IfOk result (λ range. IsTrue (needs_zero_entries how)
            → 3 ≤ self.now.file.header.fields.version) }
        ensures faults { IfErr result IsNotOfStorage }
    {
        self.check_usable()?;
        if !self.writable() {
            return Err(ImageError::ReadOnly);
        }
        if passes(self.file.header.size(), offset, length) {
            return Err(ImageError::BeyondSize);
        }
        if how.needs_zeros() && self.file.header.version() < 3 {
            return Err(ImageError::Version);
        }
        match self.touched(offset, length) {
            Some(range) => Ok(range),
            None => Err(ImageError::Overflow),
        }
    }

    // The start and the end of the whole clusters of a range within one L2 table, if they fit into 64 bits.
    fn touched(&self, offset: u64, length: u64) -> Option<(u64, u64)>
        requires { passes_size (size_of self.now) offset length ≡ false }
        ensures { result ≡ (if rounds_past (cluster_size self.now.file.header.fields)
            (size_of self.now) offset length then None else Some
            (from_in self.now offset length, to_in self.now offset length)) }
    {
        let size = self.file.header.cluster_size();
        let from = rounded_up(offset, size)?;
        let end = offset.saturating_add(length);
        let to = if end == self.file.header.size() {
            rounded_up(end, size)?
        } else {
            end - end % size
        };
        Some((from, to.min(from.saturating_add(self.rest_of_table(from)))))
    }

    // Clears the clusters between two offsets within one L2 table. After a refusal, the clusters on the list to be freed are
    // freed, except after a fault and after 9.
    pub(crate) fn clear_between(
        &mut self,
        from: u64,
        to: u64,
        how: ClearMode,
    ) -> Result<(), ImageError>
        requires writable { IsTrue (is_writable self.old) }
        requires some { from < to }
        ensures step { ImageStep S.view self.old self.new }
        ensures fails { ImageFails S.view F.backing self.old self.new result (MayFailPreparing self.new) }
        ensures sound { (out : Mappings)
            → ImageInvariant S.view F.backing (pending_in S.view F.backing self.old out) self.old out
            → ClearsInTable S.view F.backing how from to self.old self.new out result }
        ensures l1_place { l1_index_of self.old.file.header.fields from < entry_count self.old.l1_table
            → OnOk result (KeepsL1Place self.old.file.header.fields self.new.file.header.fields) }
        ensures freed { (out : Mappings)
            → ImageInvariant S.view F.backing (pending_in S.view F.backing self.old out) self.old out
            → IsClearable self.old.file.header.fields how from to → IfErr result (FreesRefused self.new) }
        ensures pinned { HasOwnTable self.old from → RespectsPins self.old from result }
    {
        match self.clear_in_table(from, to, how) {
            Ok(()) => Ok(()),
            Err(refusal) => Err(self.process_free_list_after(refusal)),
        }
    }

    // Clears the clusters between two offsets within one L2 table. Everything that may be refused comes before the first entry changes.
    fn clear_in_table(&mut self, from: u64, to: u64, how: ClearMode) -> Result<(), ImageError>
        requires writable { IsTrue (is_writable self.old) }
        requires some { from < to }
        ensures step { ImageStep S.view self.old self.new }
        ensures fails { ImageFails S.view F.backing self.old self.new result (MayFailPreparing self.new) }
        ensures sound { (out : Mappings)
            → ImageInvariant S.view F.backing (pending_in S.view F.backing self.old out) self.old out
            → ClearsInTable S.view F.backing how from to self.old self.new out result }
        ensures l1_place { l1_index_of self.old.file.header.fields from < entry_count self.old.l1_table
            → OnOk result (KeepsL1Place self.old.file.header.fields self.new.file.header.fields) }
        ensures pinned { HasOwnTable self.old from → RespectsPins self.old from result }
    {
        let table = self.writable_l2_table(from)?;
        if self.file.caches.l2_is_pinned(table) {
            return Err(ImageError::TablePrepared);
        }
        let bits = self.file.header.cluster_bits();
        let first = GuestOffset::new(from).cluster(bits);
        let count = (to - from) >> bits;
        let mut old_data = self.old_data_in(table, first, count, how)?;
        self.clear_entries(table, first.l2_index(bits), count as usize, how);
        old_data.take().hand_back(&mut self.file.free_list);
        Ok(())
    }

    // The host clusters that lose a reference when the entries of `count` guest clusters are cleared.
    fn old_data_in(
        &self,
        table: HostCluster,
        first: GuestCluster,
        count: u64,
        how: ClearMode,
    ) -> Result<ClustersToFreeList, ImageError>
        requires near { first + count < 2 ^ 64 }
        ensures cause { IfErr result (MayFailOn self.now) }
        ensures only_faults { (p : Pending) (i : ℕ) → FileInvariant S.view p self.now.file
            → self.now.file.header.fields.incompatible ≡ 0
            → IsEntryAt self.now.file.header.fields (known_in S.view self.now.file) i table
            (first % entries_per_cluster self.now.file.header.fields)
            → first / entries_per_cluster self.now.file.header.fields ≡ i
            → first % entries_per_cluster self.now.file.header.fields + count ≤ entries_per_cluster
            self.now.file.header.fields → IsSome (l2_at self.now.file.caches table) → IfErr result IsFault }
        ensures reads { IfOk result (ReadsAll S.view F.backing how table first count self.now) }
        ensures faults { IfErr result IsNotOfStorage }
    {
        let mut old_data = ClustersToFreeList::new();
        for i in 0..count {
            let cluster = GuestCluster::new(first.value() + i);
            self.list_old_data(&mut old_data, table, cluster, how)?;
        }
        Ok(old_data)
    }

    // Adds the host clusters that lose a reference when an entry is cleared at the end of a list. Data in a data file that the header asks
    // for aren't counted.
    fn list_old_data(
        &self,
        list: &mut ClustersToFreeList,
        table: HostCluster,
        cluster: GuestCluster,
        how: ClearMode,
    ) -> Result<(), ImageError>
        ensures cause { IfErr result (MayFailOn self.now) }
        ensures only_faults { (p : Pending) (i : ℕ) → FileInvariant S.view p self.now.file
            → self.now.file.header.fields.incompatible ≡ 0
            → IsEntryAt self.now.file.header.fields (known_in S.view self.now.file) i table
            (cluster % entries_per_cluster self.now.file.header.fields)
            → cluster / entries_per_cluster self.now.file.header.fields ≡ i → IsSome (l2_at self.now.file.caches table)
            → IfErr result IsFault }
        ensures reads { OnOk result (ReadsDropped S.view F.backing how table cluster self.now list.old list.new) }
        ensures beside { IsTrue (is_placed_by_guest self.now) → list.new ≡ list.old }
        ensures faults { IfErr result IsNotOfStorage }
    {
        let old = self.cover_in(table, cluster)?;
        if self.is_placed_by_guest() {
            return Ok(());
        }
        let run = how.old_data(old, self.file.header.cluster_bits());
        list_run(self.file.alloc, list, run)
    }

    // Clears `count` entries of a cached L2 table.
    fn clear_entries(&mut self, table: HostCluster, index: usize, count: usize, how: ClearMode)
        ensures stays { ImageStays self.old self.new }
        ensures clears { ClearsTable S.view F.backing how table index count self.old self.new }
    {
        for i in 0..count {
            self.clear_entry(table, index.saturating_add(i), how);
        }
    }

    // Clears an entry of a cached L2 table.
    fn clear_entry(&mut self, table: HostCluster, index: usize, how: ClearMode)
        ensures { ClearsEntry how table index self.old self.new }
    {
        let caches = &mut self.file.caches;
        let _old_data = match how {
            ClearMode::Uncovered => caches.l2_discard_cluster(table, index),
            ClearMode::Zeros => caches.l2_zero_cluster(table, index, false),
            ClearMode::KeptZeros => caches.l2_zero_cluster(table, index, true),
        };
    }
}

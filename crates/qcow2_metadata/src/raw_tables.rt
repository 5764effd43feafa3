//! The raw header, L1 table and reftable of a file, wherever they lie: unaligned tables are read too.

ghost use Rattle.std.specs.Prelude.{◌≡◌, ℕ, ◌+◌, ◌*◌, ◌^◌, ◌<◌, ◌≤◌, length, IfOk, IfErr, OnOk};
ghost use Rattle.image_access.specs.Contents.{bytes_at};
ghost use Rattle.qcow2_metadata.specs.Bytes.{byte_at};
ghost use Rattle.qcow2_metadata.specs.Header.{header, reftable_entries as reftable_entries_of, HeaderReads, IsInRange, IsWithinLimits, ReftableFits};
ghost use Rattle.qcow2_metadata.specs.HeaderLoad.{IsReasonNotToRead};
ghost use Rattle.qcow2_metadata.specs.Entries.{l1_entry, reftable_entry, L1EntryReads, ReftableEntryReads};
ghost use Rattle.qcow2_metadata.specs.MetadataError.{OnlyReads};
ghost use Rattle.qcow2_metadata.specs.TableBytes.{entry_at};
ghost use Rattle.qcow2_metadata.specs.EntryTable.{EachReads, SomeUnread, IsClear, IsReasonNotToLoad};

use crate::entry_table::{is_clear, load_bytes};
use crate::header::{cluster_bytes, read_first_cluster, require_readable};
use crate::{HeaderFields, MetadataError, l1_table, ref_table};
use image_access::Storage;
use std::alloc::Global;

/// Reads entries from an offset on. Refused if an entry has a reserved bit.
fn load_entries<S: Storage>(
    alloc: Global,
    storage: &mut S,
    at: u64,
    entries: usize,
    reserved: u64,
) -> Result<Vec<u8>, MetadataError>
    requires few { entries ≤ 4194304 }
    ensures length { IfOk result (λ bytes. length bytes.items ≡ 8 * entries) }
    ensures bytes { (S.view storage.old).is_honest
        → IfOk result (λ bytes. bytes.items ≡ bytes_at (S.view storage.old).contents at (8 * entries)) }
    ensures fits { OnOk result (at + 8 * entries < 2 ^ 64) }
    ensures reads { IfOk result (λ bytes. EachReads (IsClear reserved) bytes.items) }
    ensures err { IfErr result (IsReasonNotToLoad (2 ^ 64 ≤ at + 8 * entries)
        ((S.view storage.old).is_honest → SomeUnread (IsClear reserved) (bytes_at (S.view storage.old).contents at (8 * entries)))) }
    ensures reading { OnlyReads (S.view storage.old) (S.view storage.new) result }
{
    let length = 8 * entries;
    if at.checked_add(length as u64).is_none() {
        return Err(MetadataError::Limit);
    }
    let bytes = load_bytes(alloc, storage, at, length)?;
    if !is_clear(&bytes, reserved) {
        return Err(MetadataError::Format);
    }
    Ok(bytes)
}

impl HeaderFields {
    /// The header's fields, if the header is readable. Its tables may lie anywhere. Refused `Format`, then `Limit` if a table is too long,
    /// and `Memory` or `Storage` during the work.
    pub fn load<S: Storage>(alloc: Global, storage: &mut S) -> Result<HeaderFields, MetadataError>
        ensures fields { (S.view storage.old).is_honest → IfOk result (λ h. h ≡ header (byte_at (S.view storage.old).contents)) }
        ensures ok { (S.view storage.old).is_honest → IfOk result (λ h. HeaderReads h (byte_at (S.view storage.old).contents)) }
        ensures in_range { IfOk result IsInRange }
        ensures within_limits { IfOk result IsWithinLimits }
        ensures refused { (S.view storage.old).is_honest
            → IfErr result (IsReasonNotToRead (header (byte_at (S.view storage.old).contents)) (byte_at (S.view storage.old).contents)) }
        ensures reading { OnlyReads (S.view storage.old) (S.view storage.new) result }
    {
        let (fields, cluster) = read_first_cluster(alloc, storage)?;
        require_readable(&fields, &cluster)?;
        Ok(fields)
    }

    /// The bytes of the L1 table. Refused `Limit` if it would end past 64 bits, `Format` for a reserved bit in an entry,
    /// and `Memory` or `Storage` during the work.
    pub fn load_l1_entries<S: Storage>(
        &self,
        alloc: Global,
        storage: &mut S,
    ) -> Result<Vec<u8>, MetadataError>
        requires { IsWithinLimits self.now }
        ensures length { IfOk result (λ bytes. length bytes.items ≡ 8 * self.now.l1_entries) }
        ensures entries { (S.view storage.old).is_honest → IfOk result (λ bytes. (i : ℕ)
            → entry_at bytes.items i ≡ l1_entry self.now (byte_at (S.view storage.old).contents) i) }
        ensures reads { IfOk result (λ bytes. EachReads L1EntryReads bytes.items) }
        ensures err { IfErr result (IsReasonNotToLoad (2 ^ 64 ≤ self.now.l1_offset + 8 * self.now.l1_entries)
            ((S.view storage.old).is_honest
            → SomeUnread L1EntryReads (bytes_at (S.view storage.old).contents self.now.l1_offset
            (8 * self.now.l1_entries)))) }
        ensures reading { OnlyReads (S.view storage.old) (S.view storage.new) result }
    {
        let bytes = load_entries(
            alloc,
            storage,
            self.l1_offset,
            self.l1_entries as usize,
            l1_table::RESERVED,
        )?;
        Ok(bytes)
    }

    /// The number of entries of the reftable.
    fn reftable_entries(&self) -> usize
        requires in_range { IsInRange self.now }
        requires within_limits { IsWithinLimits self.now }
        ensures value { result ≡ reftable_entries_of self.now }
    {
        let per_cluster = cluster_bytes(self.cluster_bits) / 8;
        (u64::from(self.reftable_clusters) * per_cluster) as usize
    }

    /// The bytes of the reftable. Refused as `load_l1_entries` is.
    pub fn load_reftable_entries<S: Storage>(
        &self,
        alloc: Global,
        storage: &mut S,
    ) -> Result<Vec<u8>, MetadataError>
        requires in_range { IsInRange self.now }
        requires within_limits { IsWithinLimits self.now }
        ensures length { IfOk result (λ bytes. length bytes.items ≡ 8 * reftable_entries_of self.now) }
        ensures entries { (S.view storage.old).is_honest → IfOk result (λ bytes. (i : ℕ)
            → entry_at bytes.items i ≡ reftable_entry self.now (byte_at (S.view storage.old).contents) i) }
        ensures fits { OnOk result (ReftableFits self.now) }
        ensures reads { IfOk result (λ bytes. EachReads ReftableEntryReads bytes.items) }
        ensures err { IfErr result (IsReasonNotToLoad
            (2 ^ 64 ≤ self.now.reftable_offset + 8 * reftable_entries_of self.now)
            ((S.view storage.old).is_honest
            → SomeUnread ReftableEntryReads
            (bytes_at (S.view storage.old).contents self.now.reftable_offset (8 * reftable_entries_of self.now)))) }
        ensures reading { OnlyReads (S.view storage.old) (S.view storage.new) result }
    {
        let bytes = load_entries(
            alloc,
            storage,
            self.reftable_offset,
            self.reftable_entries(),
            ref_table::RESERVED,
        )?;
        Ok(bytes)
    }
}

//! What the L1 table and the reftable have in common: 8-byte entries, from the start of a cluster on.

ghost use Rattle.std.specs.Prelude.{◌≡◌, ℕ, ◌+◌, ◌-◌, ◌*◌, ◌/◌, ◌%◌, ◌^◌, ◌<◌, ◌≤◌, ◌↔◌, ◌++◌, Some, None, length, replicate, IsTrue, IsSome, IfOk, IfErr, IfSome, IfNone};
ghost use Rattle.std.specs.Bool.{OnTrue, OnFalse};
ghost use Rattle.std.specs.Int.{w64, to_be_bytes};
ghost use Rattle.image_access.specs.Contents.{bytes_at, overwritten};
ghost use Rattle.image_access.specs.Moments.{ContentsStay, Changes, Calls, QuietCalls};
ghost use Rattle.qcow2_metadata.specs.MetadataError.{storage_result};
ghost use Rattle.qcow2_metadata.specs.L2Mapping.{IsHostCluster};
ghost use Rattle.qcow2_metadata.specs.TableBytes.{entry_at as entry_of, ChangesEntry, IsClusterBits, IsOfStorageOrMemory};
ghost use Rattle.qcow2_metadata.specs.EntryTable.{IsLoaded, entry_count, HasRoom, HasRoomIfPlaced, IsEntryTable, EachReads, SomeUnread, IsClear, PassesLimit, IsOfLengthOrMemory, IsReasonNotToLoad};

use crate::table_bytes::{entry_at, load, put, set_entry, zeros};
use crate::{ClusterCount, HostCluster, MAX_HOST_OFFSET, MetadataError};
use image_access::{Storage, StorageError};
use std::alloc::Global;
use std::marker::Model;

impl HostCluster {
    /// Whether an entry can hold the offset of this cluster.
    pub fn is_nameable(self, cluster_bits: u32) -> bool
        requires { cluster_bits < 64 }
        ensures { IsTrue result ↔ IsHostCluster cluster_bits self }
    {
        match self.checked_offset(cluster_bits) {
            Some(offset) => offset.value() <= MAX_HOST_OFFSET,
            None => false,
        }
    }
}

/// 8-byte entries, stored as in the file.
#[derive(Drop)]
pub(crate) struct EntryTable {
    cluster: Option<HostCluster>,
    bytes: Vec<u8>,
    cluster_bits: u32,
}

impl Model for EntryTable {
    ghost use Rattle.qcow2_metadata.specs.EntryTable.{EntryTableView, IsEntryTable};

    ghost Value = { EntryTableView };

    ghost view = { λ t. record {
      cluster = t.cluster;
      bytes = t.bytes.items;
      cluster_bits = t.cluster_bits;
    } };

    ghost invariant = { λ t. IsEntryTable 4194304 (record {
      cluster = t.cluster;
      bytes = t.bytes.items;
      cluster_bits = t.cluster_bits;
    }) };
}

/// Whether the offset `length` bytes after the cluster's start fits into 64 bits.
pub(crate) fn has_room(cluster: HostCluster, cluster_bits: u32, length: u64) -> bool
    requires { cluster_bits < 64 }
    ensures { IsTrue result ↔ HasRoom cluster_bits length cluster }
{
    match cluster.checked_offset(cluster_bits) {
        Some(at) => at.value().checked_add(length).is_some(),
        None => false,
    }
}

/// Reads bytes of a storage. For no bytes the storage is not called.
pub(crate) fn load_bytes<S: Storage>(
    alloc: Global,
    storage: &mut S,
    at: u64,
    count: usize,
) -> Result<Vec<u8>, MetadataError>
    ensures bytes { (S.view storage.old).is_honest → IfOk result (λ bytes. bytes.items ≡ bytes_at (S.view storage.old).contents at count) }
    ensures length { IfOk result (λ bytes. length bytes.items ≡ count) }
    ensures causes { IfErr result IsOfStorageOrMemory }
    ensures same { ContentsStay (S.view storage.old) (S.view storage.new) }
    ensures calls { QuietCalls (S.view storage.old) (S.view storage.new) (storage_result result) }
    ensures none { count ≡ 0 → storage.new ≡ storage.old }
{
    if count == 0 {
        return Ok(Vec::new(alloc));
    }
    load(alloc, storage, at, count)
}

/// Whether no entry has a reserved bit.
pub(crate) fn is_clear(bytes: &[u8], reserved: u64) -> bool
    requires { length bytes.now % 8 ≡ 0 }
    ensures clear { OnTrue result (EachReads (IsClear reserved) bytes.now) }
    ensures set { OnFalse result (SomeUnread (IsClear reserved) bytes.now) }
{
    for i in 0..bytes.len() / 8 {
        if entry_at(bytes, i) & reserved != 0 {
            return false;
        }
    }
    true
}

impl EntryTable {
    /// A table of entries that are all 0.
    pub(crate) fn new_cleared(
        alloc: Global,
        cluster_bits: u32,
        entries: usize,
        greatest: usize,
    ) -> Result<EntryTable, MetadataError>
        requires bits { IsClusterBits cluster_bits }
        requires limit { greatest ≤ 4194304 }
        ensures table { IfOk result (λ t. t ≡ record { cluster = None; bytes = replicate (8 * entries) 0; cluster_bits = cluster_bits }) }
        ensures limit { greatest < entries → result ≡ Err MetadataError.Limit }
        ensures few { IfOk result (λ t. IsEntryTable greatest t) }
        ensures err { IfErr result (IsOfLengthOrMemory (greatest < entries)) }
    {
        if entries > greatest {
            return Err(MetadataError::Limit);
        }
        Ok(EntryTable {
            cluster: None,
            bytes: zeros(alloc, 8 * entries)?,
            cluster_bits,
        })
    }

    /// Loads entries from the start of a cluster on. Refused if an entry has a reserved bit.
    pub(crate) fn load<S: Storage>(
        alloc: Global,
        storage: &mut S,
        cluster_bits: u32,
        cluster: HostCluster,
        entries: usize,
        greatest: usize,
        reserved: u64,
    ) -> Result<EntryTable, MetadataError>
        requires bits { IsClusterBits cluster_bits }
        requires limit { greatest ≤ 4194304 }
        ensures loaded { IfOk result (IsLoaded (IsEntryTable greatest) cluster_bits cluster entries) }
        ensures bytes { (S.view storage.old).is_honest
            → IfOk result (λ t. t.bytes ≡ bytes_at (S.view storage.old).contents (cluster * 2 ^ cluster_bits)
            (8 * entries)) }
        ensures reads { IfOk result (λ t. EachReads (IsClear reserved) t.bytes) }
        ensures limit { PassesLimit greatest cluster_bits 0 cluster entries → result ≡ Err MetadataError.Limit }
        ensures err { IfErr result (IsReasonNotToLoad (PassesLimit greatest cluster_bits 0 cluster entries)
            ((S.view storage.old).is_honest
            → SomeUnread (IsClear reserved)
            (bytes_at (S.view storage.old).contents (cluster * 2 ^ cluster_bits) (8 * entries)))) }
        ensures same { ContentsStay (S.view storage.old) (S.view storage.new) }
        ensures calls { QuietCalls (S.view storage.old) (S.view storage.new) (storage_result result) }
        ensures none { entries ≡ 0 → storage.new ≡ storage.old }
    {
        if entries > greatest {
            return Err(MetadataError::Limit);
        }
        let Some(at) = cluster.checked_offset(cluster_bits) else {
            return Err(MetadataError::Limit);
        };
        let bytes = load_bytes(alloc, storage, at.value(), 8 * entries)?;
        if !is_clear(&bytes, reserved) {
            return Err(MetadataError::Format);
        }
        Ok(EntryTable {
            cluster: Some(cluster),
            bytes,
            cluster_bits,
        })
    }

    pub(crate) fn cluster_bits(&self) -> u32
        ensures value { result ≡ self.now.cluster_bits }
        ensures table { IsEntryTable 4194304 self.now }
    {
        self.cluster_bits
    }

    pub(crate) fn len(&self) -> usize
        ensures value { result ≡ entry_count self.now }
        ensures table { IsEntryTable 4194304 self.now }
    {
        self.bytes.len() / 8
    }

    /// Entry `index`, 0 past the end.
    #[tactic(auto, using(crate::proofs::EntryTables::entry_at_past))]
    pub(crate) fn get(&self, index: usize) -> u64
        ensures entry { result ≡ entry_of self.now.bytes index }
        ensures within { 0 < result → index < entry_count self.now }
    {
        if index < self.len() {
            entry_at(&self.bytes, index)
        } else {
            0
        }
    }

    pub(crate) fn set(&mut self, index: usize, entry: u64)
        requires { index < entry_count self.old }
        ensures entry { ChangesEntry self.old.bytes self.new.bytes index entry }
        ensures rest { self.new ≡ record self.old { bytes = self.new.bytes } }
    {
        set_entry(&mut self.bytes, index, entry);
    }

    /// Writes all entries to the table's cluster.
    pub(crate) fn write<S: Storage>(&self, storage: &mut S) -> Result<(), StorageError>
        requires { IsSome self.now.cluster }
        ensures written { IfSome self.now.cluster (λ cluster. Changes (S.view storage.old) (S.view storage.new) result
            (λ b. overwritten b (cluster * 2 ^ self.now.cluster_bits) self.now.bytes)) }
        ensures table { IsEntryTable 4194304 self.now }
        ensures calls { Calls (S.view storage.old) (S.view storage.new) result }
    {
        let at = self.cluster.unwrap().offset(self.cluster_bits).value();
        storage.write(at, &self.bytes)
    }

    /// Whether the offset of an entry fits into 64 bits, if the table has a place.
    pub(crate) fn has_entry_room(&self, index: usize) -> bool
        requires { index < entry_count self.now }
        ensures { IsTrue result ↔ HasRoomIfPlaced self.now.cluster_bits (8 * index) self.now.cluster }
    {
        match self.cluster {
            Some(cluster) => has_room(cluster, self.cluster_bits, 8 * index as u64),
            None => true,
        }
    }

    /// Writes one entry to its offset in the file.
    pub(crate) fn write_entry<S: Storage>(
        &self,
        storage: &mut S,
        index: usize,
    ) -> Result<(), StorageError>
        requires placed { IsSome self.now.cluster }
        requires within { index < entry_count self.now }
        requires room { HasRoomIfPlaced self.now.cluster_bits (8 * index) self.now.cluster }
        ensures written { IfSome self.now.cluster (λ cluster. Changes (S.view storage.old) (S.view storage.new) result
            (λ b. overwritten b (cluster * 2 ^ self.now.cluster_bits + 8 * index) (to_be_bytes w64 (entry_of self.now.bytes index)))) }
        ensures fits { entry_of self.now.bytes index < 2 ^ 64 }
        ensures table { IsEntryTable 4194304 self.now }
        ensures calls { Calls (S.view storage.old) (S.view storage.new) result }
    {
        let at = self.cluster.unwrap().offset(self.cluster_bits).value() + 8 * index as u64;
        storage.write(at, &self.get(index).to_be_bytes())
    }

    /// A table with the same entries, entries of 0 after them, and no place.
    pub(crate) fn clone_and_grow(
        &self,
        alloc: Global,
        entries: usize,
        greatest: usize,
    ) -> Result<EntryTable, MetadataError>
        requires longer { entry_count self.now ≤ entries }
        requires limit { greatest ≤ 4194304 }
        ensures table { IfOk result (λ t. t ≡ record self.now {
          cluster = None;
          bytes = self.now.bytes ++ replicate
              (8 * entries - length self.now.bytes) 0;
        }) }
        ensures limit { greatest < entries → result ≡ Err MetadataError.Limit }
        ensures few { IfOk result (IsEntryTable greatest) }
        ensures err { IfErr result (IsOfLengthOrMemory (greatest < entries)) }
    {
        let mut table = EntryTable::new_cleared(alloc, self.cluster_bits, entries, greatest)?;
        put(&mut table.bytes, 0, &self.bytes);
        Ok(table)
    }

    pub(crate) fn byte_size(&self) -> u64
        ensures value { result ≡ length self.now.bytes }
        ensures entries { result ≡ 8 * entry_count self.now }
        ensures limit { result ≤ 8 * 4194304 }
    {
        self.bytes.len() as u64
    }

    /// The number of clusters that the table needs.
    pub(crate) fn cluster_count(&self) -> ClusterCount
        ensures { result ≡ (length self.now.bytes + 2 ^ self.now.cluster_bits - 1) / 2 ^ self.now.cluster_bits }
    {
        ClusterCount::from_byte_size(self.byte_size(), self.cluster_bits)
    }

    pub(crate) fn get_cluster(&self) -> Option<HostCluster>
        ensures value { result ≡ self.now.cluster }
        ensures table { IsEntryTable 4194304 self.now }
    {
        self.cluster
    }

    pub(crate) fn set_cluster(&mut self, cluster: HostCluster)
        requires { IsHostCluster self.old.cluster_bits cluster }
        ensures { self.new ≡ record self.old { cluster = Some cluster } }
    {
        self.cluster = Some(cluster);
    }

    pub(crate) fn unset_cluster(&mut self)
        ensures { self.new ≡ record self.old { cluster = None } }
    {
        self.cluster = None;
    }
}

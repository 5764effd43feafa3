//! The L1 table, which holds the offsets of the L2 tables.

ghost use Rattle.std.specs.Prelude.{◌≡◌, ℕ, ◌+◌, ◌-◌, ◌*◌, ◌/◌, ◌%◌, ◌^◌, ◌<◌, ◌≤◌, ◌↔◌, ◌++◌, Some, None, true, length, replicate, IsTrue, IsSome, IfOk, IfErr, IfSome, IfNone, OnOk};
ghost use Rattle.std.specs.Int.{w64, to_be_bytes};
ghost use Rattle.image_access.specs.Contents.{bytes_at, overwritten};
ghost use Rattle.image_access.specs.Moments.{ContentsStay, Changes, Calls, QuietCalls};
ghost use Rattle.qcow2_metadata.specs.Bytes.{byte_at};
ghost use Rattle.qcow2_metadata.specs.Header.{HeaderFields, cluster_size};
ghost use Rattle.qcow2_metadata.specs.Entries.{host_offset as host_offset_of, is_copied as is_copied_of, L1EntryReads};
ghost use Rattle.qcow2_metadata.specs.MetadataError.{storage_result};
ghost use Rattle.qcow2_metadata.specs.L2Mapping.{greatest_offset, IsHostCluster};
ghost use Rattle.qcow2_metadata.specs.L2Table.{copied_entry as copied_entry_of};
ghost use Rattle.qcow2_metadata.specs.TableBytes.{entry_at, ChangesEntry};
ghost use Rattle.qcow2_metadata.specs.EntryTable.{IsLoaded, entry_table, entry_count, HasRoomIfPlaced, IsL1Table, IsL1TableOf, IsL1TableBut, NamesL1Table, SomeUnread, PassesLimit, IsOfLengthOrMemory, IsReasonNotToLoad};

use crate::entry_table::EntryTable;
use crate::l2_mapping::{COPIED, host_offset, is_copied};
use crate::{ClusterCount, Header, HostCluster, HostOffset, MAX_L1_ENTRIES, MetadataError};
use image_access::{Storage, StorageError};
use std::alloc::Global;
use std::marker::Model;

/// The reserved bits of an entry: 0 to 8 and 56 to 62.
pub(crate) const RESERVED: u64 = 0x7f00_0000_0000_01ff;

/// An entry of the L1 table.
#[derive(Clone, Copy, Debug, PartialEq, Eq)]
pub struct L1Entry {
    /// The offset of the L2 table in the file, in bytes.
    pub offset: HostOffset,
    /// The L2 table has refcount 1, so it may be written in place (bit 63).
    pub copied: bool,
}

/// The L1 table, which holds the offsets of the L2 tables.
#[derive(Drop)]
pub struct L1Table {
    table: EntryTable,
}

impl Model for L1Table {
    ghost use Rattle.qcow2_metadata.specs.Entries.{L1EntryReads};
    ghost use Rattle.qcow2_metadata.specs.EntryTable.{EntryTableView, EachReads};

    ghost Value = { EntryTableView };

    ghost view = { λ t. t.table };

    ghost invariant = { λ t. EachReads L1EntryReads t.table.bytes };
}

/// An L1 entry that is marked copied.
fn copied_entry(offset: HostOffset) -> u64
    requires reach { offset ≤ greatest_offset }
    requires aligned { offset % 512 ≡ 0 }
    ensures value { result ≡ copied_entry_of offset }
    ensures offset { host_offset_of result ≡ offset }
    ensures copied { is_copied_of result ≡ true }
    ensures reads { L1EntryReads result }
{
    COPIED | offset.value()
}

impl L1Table {
    /// A table of empty entries, without a place in the file. Refused `Limit` for more than 4,194,304 entries, and `Memory`.
    pub fn new_cleared(
        alloc: Global,
        header: &Header,
        entries: usize,
    ) -> Result<L1Table, MetadataError>
        ensures table { IfOk result (λ t. t ≡ entry_table header.now.fields None (replicate (8 * entries) 0)) }
        ensures zeros { IfOk result (λ t. (i : ℕ) → entry_at t.bytes i ≡ 0) }
        ensures limit { 4194304 < entries → result ≡ Err MetadataError.Limit }
        ensures err { IfErr result (IsOfLengthOrMemory (4194304 < entries)) }
    {
        let table = EntryTable::new_cleared(alloc, header.cluster_bits(), entries, MAX_L1_ENTRIES)?;
        Ok(L1Table { table })
    }

    /// Loads a table from the start of a cluster on. It may end past 64 bits. A table without entries reads nothing.
    /// Refused `Limit` for more than 4,194,304 entries or an offset past 64 bits, `Format` for a reserved bit in an entry,
    /// and `Memory` or `Storage` during the work.
    pub fn load<S: Storage>(
        alloc: Global,
        storage: &mut S,
        header: &Header,
        cluster: HostCluster,
        entries: usize,
    ) -> Result<L1Table, MetadataError>
        ensures loaded { IfOk result (IsLoaded IsL1Table header.now.fields.cluster_bits cluster entries) }
        ensures bytes { (S.view storage.old).is_honest → IfOk result (λ t. t.bytes
            ≡ bytes_at (S.view storage.old).contents (cluster * cluster_size header.now.fields) (8 * entries)) }
        ensures of_image { (S.view storage.old).is_honest → NamesL1Table header.now.fields (cluster * cluster_size header.now.fields) entries
            → IfOk result (IsL1TableOf header.now.fields (byte_at (S.view storage.old).contents)) }
        ensures limit { PassesLimit 4194304 header.now.fields.cluster_bits 0 cluster entries → result ≡ Err MetadataError.Limit }
        ensures err { IfErr result (IsReasonNotToLoad
            (PassesLimit 4194304 header.now.fields.cluster_bits 0 cluster entries)
            ((S.view storage.old).is_honest
            → SomeUnread L1EntryReads (bytes_at (S.view storage.old).contents (cluster * cluster_size header.now.fields)
            (8 * entries)))) }
        ensures same { ContentsStay (S.view storage.old) (S.view storage.new) }
        ensures calls { QuietCalls (S.view storage.old) (S.view storage.new) (storage_result result) }
        ensures none { entries ≡ 0 → storage.new ≡ storage.old }
    {
        let bits = header.cluster_bits();
        let table = EntryTable::load(
            alloc,
            storage,
            bits,
            cluster,
            entries,
            MAX_L1_ENTRIES,
            RESERVED,
        )?;
        Ok(L1Table { table })
    }

    /// The binary logarithm of the cluster size in bytes.
    pub fn cluster_bits(&self) -> u32
        ensures value { result ≡ self.now.cluster_bits }
        ensures is_table { IsL1Table self.now }
    {
        self.table.cluster_bits()
    }

    /// The number of entries.
    pub fn len(&self) -> usize
        ensures value { result ≡ entry_count self.now }
        ensures limit { result ≤ 4194304 }
        ensures is_table { IsL1Table self.now }
    {
        self.table.len()
    }

    /// Whether the table has an entry of this index.
    pub fn in_bounds(&self, index: usize) -> bool
        ensures { IsTrue result ↔ (index < entry_count self.now) }
    {
        index < self.len()
    }

    /// Entry `index`, or `None` if there is no such entry, or it is empty.
    pub fn get(&self, index: usize) -> Option<L1Entry>
        ensures none { IfNone result (host_offset_of (entry_at self.now.bytes index) ≡ 0) }
        ensures offset { IfSome result (λ e. e.offset ≡ host_offset_of (entry_at self.now.bytes index)) }
        ensures copied { IfSome result (λ e. e.copied ≡ is_copied_of (entry_at self.now.bytes index)) }
        ensures some { IfSome result (λ e. 0 < e.offset) }
        ensures within { IfSome result (λ e. index < entry_count self.now) }
        ensures range { IfSome result (λ e. (e.offset % 512 ≡ 0) × (e.offset ≤ greatest_offset)) }
    {
        let entry = self.table.get(index);
        let offset = host_offset(entry);
        if offset == 0 {
            return None;
        }
        Some(L1Entry {
            offset: HostOffset::new(offset),
            copied: is_copied(entry),
        })
    }

    /// Sets entry `index` to an L2 table with refcount 1, and marks it copied.
    #[tactic(auto, using(crate::proofs::EntryTables::on_sector))]
    pub fn enter_l2_table(&mut self, index: usize, cluster: HostCluster)
        requires within { index < entry_count self.old }
        requires cluster { IsHostCluster self.old.cluster_bits cluster }
        ensures entry { ChangesEntry self.old.bytes self.new.bytes index (copied_entry_of (cluster * 2 ^ self.old.cluster_bits)) }
        ensures offset { host_offset_of (entry_at self.new.bytes index) ≡ cluster * 2 ^ self.old.cluster_bits }
        ensures copied { is_copied_of (entry_at self.new.bytes index) ≡ true }
        ensures rest { self.new ≡ record self.old { bytes = self.new.bytes } }
    {
        let offset = cluster.offset(self.cluster_bits());
        self.table.set(index, copied_entry(offset));
    }

    /// Writes all entries. The table must have a place. Refused as the storage refuses.
    pub fn write<S: Storage>(&self, storage: &mut S) -> Result<(), StorageError>
        requires { IsSome self.now.cluster }
        ensures written { IfSome self.now.cluster (λ cluster. Changes (S.view storage.old) (S.view storage.new) result
            (λ b. overwritten b (cluster * 2 ^ self.now.cluster_bits) self.now.bytes)) }
        ensures of_image { (S.view storage.old).is_honest → (h : HeaderFields)
            → IfSome self.now.cluster (λ cluster. NamesL1Table h (cluster * 2 ^ self.now.cluster_bits)
            (entry_count self.now) → OnOk result (IsL1TableOf h (byte_at (S.view storage.new).contents) self.now)) }
        ensures calls { Calls (S.view storage.old) (S.view storage.new) result }
    {
        self.table.write(storage)
    }

    /// Whether the offset of an entry fits into 64 bits, if the table has a place.
    pub fn has_entry_room(&self, index: usize) -> bool
        requires { index < entry_count self.now }
        ensures { IsTrue result ↔ HasRoomIfPlaced self.now.cluster_bits (8 * index) self.now.cluster }
    {
        self.table.has_entry_room(index)
    }

    /// Writes one entry. The index must lie in the table, and the entry's offset must fit into 64 bits. Refused as the storage refuses.
    pub fn write_entry<S: Storage>(&self, storage: &mut S, index: usize) -> Result<(), StorageError>
        requires placed { IsSome self.now.cluster }
        requires within { index < entry_count self.now }
        requires room { HasRoomIfPlaced self.now.cluster_bits (8 * index) self.now.cluster }
        ensures written { IfSome self.now.cluster (λ cluster. Changes (S.view storage.old) (S.view storage.new) result
            (λ b. overwritten b (cluster * 2 ^ self.now.cluster_bits + 8 * index) (to_be_bytes w64 (entry_at self.now.bytes index)))) }
        ensures fits { entry_at self.now.bytes index < 2 ^ 64 }
        ensures of_image { (S.view storage.old).is_honest → (h : HeaderFields)
            → IfSome self.now.cluster (λ cluster. NamesL1Table h (cluster * 2 ^ self.now.cluster_bits)
            (entry_count self.now) × IsL1TableBut index h (byte_at (S.view storage.old).contents) self.now
            → OnOk result (IsL1TableOf h (byte_at (S.view storage.new).contents) self.now)) }
        ensures calls { Calls (S.view storage.old) (S.view storage.new) result }
    {
        self.table.write_entry(storage, index)
    }

    /// A table that begins with the same entries and has `entries` of them, not fewer than before. The others are empty, and it has no
    /// place. Refused `Limit` for more than 4,194,304 entries, and `Memory`.
    pub fn clone_and_grow(&self, alloc: Global, entries: usize) -> Result<L1Table, MetadataError>
        requires { entry_count self.now ≤ entries }
        ensures table { IfOk result (λ t. t ≡ record self.now {
          cluster = None;
          bytes = self.now.bytes ++ replicate
              (8 * entries - length self.now.bytes) 0;
        }) }
        ensures entries { IfOk result (λ t. (i : ℕ) → entry_at t.bytes i ≡ entry_at self.now.bytes i) }
        ensures length { IfOk result (λ t. length t.bytes ≡ 8 * entries) }
        ensures limit { 4194304 < entries → result ≡ Err MetadataError.Limit }
        ensures err { IfErr result (IsOfLengthOrMemory (4194304 < entries)) }
    {
        let table = self.table.clone_and_grow(alloc, entries, MAX_L1_ENTRIES)?;
        Ok(L1Table { table })
    }

    /// The number of clusters that the table needs.
    pub fn cluster_count(&self) -> ClusterCount
        ensures { result ≡ (length self.now.bytes + 2 ^ self.now.cluster_bits - 1) / 2 ^ self.now.cluster_bits }
    {
        self.table.cluster_count()
    }

    /// The length of the table, in bytes.
    pub fn byte_size(&self) -> u64
        ensures value { result ≡ length self.now.bytes }
        ensures entries { result ≡ 8 * entry_count self.now }
        ensures limit { result ≤ 33554432 }
    {
        self.table.byte_size()
    }

    /// The first cluster of the table, if it has a place.
    pub fn get_cluster(&self) -> Option<HostCluster>
        ensures value { result ≡ self.now.cluster }
        ensures is_table { IsL1Table self.now }
    {
        self.table.get_cluster()
    }

    /// Sets the first cluster of the table.
    pub fn set_cluster(&mut self, cluster: HostCluster)
        requires { IsHostCluster self.old.cluster_bits cluster }
        ensures { self.new ≡ record self.old { cluster = Some cluster } }
    {
        self.table.set_cluster(cluster);
    }

    /// Leaves the table without a place.
    pub fn unset_cluster(&mut self)
        ensures { self.new ≡ record self.old { cluster = None } }
    {
        self.table.unset_cluster();
    }
}

//! The reftable, which holds the offsets of the refblocks.

ghost use Rattle.std.specs.Prelude.{◌≡◌, ℕ, ◌+◌, ◌-◌, ◌*◌, ◌/◌, ◌%◌, ◌^◌, ◌<◌, ◌≤◌, ◌↔◌, ◌++◌, Some, None, true, length, replicate, IsTrue, IsSome, IfOk, IfErr, IfSome, IfNone, OnOk};
ghost use Rattle.std.specs.Int.{w64, to_be_bytes};
ghost use Rattle.image_access.specs.Contents.{bytes_at, overwritten};
ghost use Rattle.image_access.specs.Moments.{ContentsStay, Changes, Calls, QuietCalls};
ghost use Rattle.qcow2_metadata.specs.Bytes.{byte_at};
ghost use Rattle.qcow2_metadata.specs.Header.{HeaderFields, cluster_size};
ghost use Rattle.qcow2_metadata.specs.Entries.{block_offset as block_offset_of, ReftableEntryReads};
ghost use Rattle.qcow2_metadata.specs.MetadataError.{storage_result};
ghost use Rattle.qcow2_metadata.specs.L2Mapping.{IsHostCluster};
ghost use Rattle.qcow2_metadata.specs.TableBytes.{entry_at, ChangesEntry};
ghost use Rattle.qcow2_metadata.specs.EntryTable.{IsLoaded, entry_table, entry_count, IsRefTable, IsRefTableOf, IsRefTableBut, NamesRefTable, SomeUnread, PassesLimit, IsOfLengthOrMemory, IsReasonNotToLoad};

use crate::entry_table::{EntryTable, has_room};
use crate::{ClusterCount, Header, HostCluster, HostOffset, MAX_REFTABLE_ENTRIES, MetadataError};
use image_access::{Storage, StorageError};
use std::alloc::Global;
use std::marker::Model;

/// The reserved bits of an entry: 0 to 8.
pub(crate) const RESERVED: u64 = 0x1ff;

/// The reftable, which holds the offsets of the refblocks.
#[derive(Drop)]
pub struct RefTable {
    table: EntryTable,
}

impl Model for RefTable {
    ghost use Rattle.qcow2_metadata.specs.Entries.{ReftableEntryReads};
    ghost use Rattle.std.specs.Prelude.{◌≤◌, length};
    ghost use Rattle.qcow2_metadata.specs.EntryTable.{EntryTableView, entry_count, EachReads, HasRoomIfPlaced};

    ghost Value = { EntryTableView };

    ghost view = { λ t. t.table };

    ghost invariant = { λ t. (entry_count t.table ≤ 1048576) × EachReads ReftableEntryReads t.table.bytes × HasRoomIfPlaced t.table.cluster_bits (length t.table.bytes) t.table.cluster };
}

/// The offset of the refblock in a reftable entry, 0 for none.
pub fn block_offset(entry: u64) -> u64
    ensures { result ≡ block_offset_of entry }
{
    entry & 0xffff_ffff_ffff_fe00
}

impl RefTable {
    /// A table of empty entries, without a place in the file. Refused `Limit` for more than 1,048,576 entries, and `Memory`.
    pub fn new_cleared(
        alloc: Global,
        header: &Header,
        entries: usize,
    ) -> Result<RefTable, MetadataError>
        ensures table { IfOk result (λ t. t ≡ entry_table header.now.fields None (replicate (8 * entries) 0)) }
        ensures zeros { IfOk result (λ t. (i : ℕ) → entry_at t.bytes i ≡ 0) }
        ensures limit { 1048576 < entries → result ≡ Err MetadataError.Limit }
        ensures err { IfErr result (IsOfLengthOrMemory (1048576 < entries)) }
    {
        let table = EntryTable::new_cleared(
            alloc,
            header.cluster_bits(),
            entries,
            MAX_REFTABLE_ENTRIES,
        )?;
        Ok(RefTable { table })
    }

    /// Loads a table from the start of a cluster on. A table without entries reads nothing. Refused `Limit` for more than 1,048,576 entries
    /// or an end past 64 bits, `Format` for a reserved bit in an entry, and `Memory` or `Storage` during the work.
    pub fn load<S: Storage>(
        alloc: Global,
        storage: &mut S,
        header: &Header,
        cluster: HostCluster,
        entries: usize,
    ) -> Result<RefTable, MetadataError>
        ensures loaded { IfOk result (IsLoaded IsRefTable header.now.fields.cluster_bits cluster entries) }
        ensures bytes { (S.view storage.old).is_honest → IfOk result (λ t. t.bytes
            ≡ bytes_at (S.view storage.old).contents (cluster * cluster_size header.now.fields) (8 * entries)) }
        ensures of_image { (S.view storage.old).is_honest → NamesRefTable header.now.fields (cluster * cluster_size header.now.fields) entries
            → IfOk result (IsRefTableOf header.now.fields (byte_at (S.view storage.old).contents)) }
        ensures limit { PassesLimit 1048576 header.now.fields.cluster_bits (8 * entries) cluster entries → result ≡ Err MetadataError.Limit }
        ensures err { IfErr result (IsReasonNotToLoad
            (PassesLimit 1048576 header.now.fields.cluster_bits (8 * entries) cluster entries)
            ((S.view storage.old).is_honest
            → SomeUnread ReftableEntryReads
            (bytes_at (S.view storage.old).contents (cluster * cluster_size header.now.fields) (8 * entries)))) }
        ensures same { ContentsStay (S.view storage.old) (S.view storage.new) }
        ensures calls { QuietCalls (S.view storage.old) (S.view storage.new) (storage_result result) }
        ensures none { entries ≡ 0 → storage.new ≡ storage.old }
    {
        let bits = header.cluster_bits();
        if entries > MAX_REFTABLE_ENTRIES || !has_room(cluster, bits, 8 * entries as u64) {
            return Err(MetadataError::Limit);
        }
        let table = EntryTable::load(
            alloc,
            storage,
            bits,
            cluster,
            entries,
            MAX_REFTABLE_ENTRIES,
            RESERVED,
        )?;
        Ok(RefTable { table })
    }

    /// The binary logarithm of the cluster size in bytes.
    pub fn cluster_bits(&self) -> u32
        ensures value { result ≡ self.now.cluster_bits }
        ensures is_table { IsRefTable self.now }
    {
        self.table.cluster_bits()
    }

    /// The number of entries.
    pub fn len(&self) -> usize
        ensures value { result ≡ entry_count self.now }
        ensures limit { result ≤ 1048576 }
        ensures is_table { IsRefTable self.now }
    {
        self.table.len()
    }

    /// Whether the table has an entry of this index.
    pub fn in_bounds(&self, index: usize) -> bool
        ensures { IsTrue result ↔ (index < entry_count self.now) }
    {
        index < self.len()
    }

    /// The offset of the refblock in entry `index`, or `None` if there is no such entry, or it is empty.
    pub fn get(&self, index: usize) -> Option<HostOffset>
        ensures none { IfNone result (block_offset_of (entry_at self.now.bytes index) ≡ 0) }
        ensures offset { IfSome result (λ offset. offset ≡ block_offset_of (entry_at self.now.bytes index)) }
        ensures some { IfSome result (λ offset. 0 < offset) }
        ensures within { IfSome result (λ offset. index < entry_count self.now) }
        ensures aligned { IfSome result (λ offset. offset % 512 ≡ 0) }
    {
        let offset = block_offset(self.table.get(index));
        if offset == 0 {
            return None;
        }
        Some(HostOffset::new(offset))
    }

    /// Sets entry `index` to a refblock.
    #[tactic(auto, using(crate::proofs::EntryTables::on_sector))]
    pub fn enter_refblock(&mut self, index: usize, cluster: HostCluster)
        requires within { index < entry_count self.old }
        requires cluster { IsHostCluster self.old.cluster_bits cluster }
        ensures entry { ChangesEntry self.old.bytes self.new.bytes index (cluster * 2 ^ self.old.cluster_bits) }
        ensures offset { block_offset_of (entry_at self.new.bytes index) ≡ cluster * 2 ^ self.old.cluster_bits }
        ensures rest { self.new ≡ record self.old { bytes = self.new.bytes } }
    {
        let offset = cluster.offset(self.cluster_bits()).value();
        self.table.set(index, offset);
    }

    /// Writes all entries. The table must have a place. Refused as the storage refuses.
    pub fn write<S: Storage>(&self, storage: &mut S) -> Result<(), StorageError>
        requires { IsSome self.now.cluster }
        ensures written { IfSome self.now.cluster (λ cluster. Changes (S.view storage.old) (S.view storage.new) result
            (λ b. overwritten b (cluster * 2 ^ self.now.cluster_bits) self.now.bytes)) }
        ensures of_image { (S.view storage.old).is_honest → (h : HeaderFields)
            → IfSome self.now.cluster (λ cluster. NamesRefTable h (cluster * 2 ^ self.now.cluster_bits)
            (entry_count self.now) → OnOk result (IsRefTableOf h (byte_at (S.view storage.new).contents) self.now)) }
        ensures calls { Calls (S.view storage.old) (S.view storage.new) result }
    {
        self.table.write(storage)
    }

    /// Writes one entry, which must lie in the table. Refused as the storage refuses.
    pub fn write_entry<S: Storage>(&self, storage: &mut S, index: usize) -> Result<(), StorageError>
        requires placed { IsSome self.now.cluster }
        requires within { index < entry_count self.now }
        ensures written { IfSome self.now.cluster (λ cluster. Changes (S.view storage.old) (S.view storage.new) result
            (λ b. overwritten b (cluster * 2 ^ self.now.cluster_bits + 8 * index) (to_be_bytes w64 (entry_at self.now.bytes index)))) }
        ensures fits { entry_at self.now.bytes index < 2 ^ 64 }
        ensures of_image { (S.view storage.old).is_honest → (h : HeaderFields)
            → IfSome self.now.cluster (λ cluster. NamesRefTable h (cluster * 2 ^ self.now.cluster_bits)
            (entry_count self.now) × IsRefTableBut index h (byte_at (S.view storage.old).contents) self.now
            → OnOk result (IsRefTableOf h (byte_at (S.view storage.new).contents) self.now)) }
        ensures calls { Calls (S.view storage.old) (S.view storage.new) result }
    {
        self.table.write_entry(storage, index)
    }

    /// A table that begins with the same entries and has `entries` of them, not fewer than before. The others are empty, and it has no
    /// place. Refused `Limit` for more than 1,048,576 entries, and `Memory`.
    pub fn clone_and_grow(&self, alloc: Global, entries: usize) -> Result<RefTable, MetadataError>
        requires { entry_count self.now ≤ entries }
        ensures table { IfOk result (λ t. t ≡ record self.now {
          cluster = None;
          bytes = self.now.bytes ++ replicate
              (8 * entries - length self.now.bytes) 0;
        }) }
        ensures entries { IfOk result (λ t. (i : ℕ) → entry_at t.bytes i ≡ entry_at self.now.bytes i) }
        ensures length { IfOk result (λ t. length t.bytes ≡ 8 * entries) }
        ensures limit { 1048576 < entries → result ≡ Err MetadataError.Limit }
        ensures err { IfErr result (IsOfLengthOrMemory (1048576 < entries)) }
    {
        let table = self
            .table
            .clone_and_grow(alloc, entries, MAX_REFTABLE_ENTRIES)?;
        Ok(RefTable { table })
    }

    /// The number of clusters that the table needs.
    pub fn cluster_count(&self) -> ClusterCount
        ensures { result ≡ (length self.now.bytes + 2 ^ self.now.cluster_bits - 1) / 2 ^ self.now.cluster_bits }
    {
        self.table.cluster_count()
    }

    /// The length of the table, in bytes.
    pub fn byte_size(&self) -> u64
        ensures value { result ≡ length self.now.bytes }
        ensures entries { result ≡ 8 * entry_count self.now }
        ensures limit { result ≤ 8388608 }
    {
        self.table.byte_size()
    }

    /// The first cluster of the table, if it has a place.
    pub fn get_cluster(&self) -> Option<HostCluster>
        ensures value { result ≡ self.now.cluster }
        ensures is_table { IsRefTable self.now }
    {
        self.table.get_cluster()
    }

    /// Sets the first cluster of the table.
    pub fn set_cluster(&mut self, cluster: HostCluster)
        requires { IsHostCluster self.old.cluster_bits cluster }
        ensures { self.new ≡ record self.old { cluster = Some cluster } }
    {
        self.table.set_cluster(cluster);
    }

    /// Leaves the table without a place.
    pub fn unset_cluster(&mut self)
        ensures { self.new ≡ record self.old { cluster = None } }
    {
        self.table.unset_cluster();
    }
}

//! The writes to an image's storage. Each requires that its kind was set before.
ghost use Rattle.std.specs.Prelude.{◌≡◌, ◌≢◌, ◌+◌, ◌*◌, ◌^◌, ◌<◌, false, IfSome, IsOk, IsSome, OnErr};
ghost use Rattle.std.specs.Prelude.{OnOk};
ghost use Rattle.image_access.specs.Contents.{overwritten, resized, zeroed};
ghost use Rattle.image_access.specs.Moments.{Calls, Changes};
ghost use Rattle.std.specs.Int.{w64, to_be_bytes};
ghost use Rattle.qcow2_metadata.specs.Header.{with_fields, without_autoclear};
ghost use Rattle.qcow2_metadata.specs.HeaderLoad.{IsHeaderIn};
ghost use Rattle.qcow2_metadata.specs.HeaderWrite.{autoclear_cleared, header_written, l1_table_pointer_written};
ghost use Rattle.qcow2_metadata.specs.HeaderWrite.{reftable_pointer_written, size_written, HasNewNames};
ghost use Rattle.qcow2_metadata.specs.Bytes.{byte_at};
ghost use Rattle.qcow2_metadata.specs.RefBlock.{IsRefBlockAt};
ghost use Rattle.qcow2_metadata.specs.TableBytes.{HasPlace, entry_at};
ghost use Rattle.qcow2_metadata.specs.EntryTable.{entry_count, HasRoomIfPlaced};
ghost use Rattle.qcow2_alloc.specs.ImageStorage.{storage_of, RecordsWrite, MakesWrite, WritesPlaced, WritesIfModified};
ghost use Rattle.qcow2_alloc.specs.WriteKinds.{HasDataKind, HasL2TableKind, HasRefBlockKind, HasOtherKind};

use crate::ImageStorage;
use image_access::{Storage, StorageError, StoragePreallocate};
use qcow2_metadata::{Header, HostCluster, L1Table, L2Table, RefBlock, RefTable};
use std::alloc::Global;

impl<S: Storage> ImageStorage<S> {
    /// Writes guest bytes at an offset in bytes. Refused 14 (memory) or 15 (storage) if the storage refuses.
    pub fn write_data(&mut self, at: u64, bytes: &[u8]) -> Result<(), StorageError>
        requires { HasDataKind self.old }
        ensures writes { MakesWrite S.view self.old self.new result (λ b. overwritten b at bytes.now) }
    {
        let done = self.storage.write(at, bytes);
        self.record_change(done)
    }

    /// Writes zeros as guest bytes, from an offset on. The space that they take may be released. Refused 14 (memory) or 15 (storage) if the storage
    /// refuses.
    pub fn write_zero_data(&mut self, at: u64, length: u64) -> Result<(), StorageError>
        requires { HasDataKind self.old }
        ensures writes { MakesWrite S.view self.old self.new result (λ b. zeroed b at length) }
    {
        let done = self.storage.write_zeroes(at, length);
        self.record_change(done)
    }

    /// Writes zeros as guest bytes, from an offset on, and keeps their space allocated if possible. Refused 14 (memory) or 15 (storage) if the
    /// storage refuses.
    pub fn write_allocated_zero_data(&mut self, at: u64, length: u64) -> Result<(), StorageError>
        requires { HasDataKind self.old }
        ensures writes { MakesWrite S.view self.old self.new result (λ b. zeroed b at length) }
    {
        let done = self.storage.write_allocated_zeroes(at, length);
        self.record_change(done)
    }

    /// Writes a cached L2 table to a cluster, if it is modified. Refused 14 (memory) or 15 (storage) if the storage refuses.
    pub fn write_l2_table(
        &mut self,
        table: &mut L2Table,
        cluster: HostCluster,
    ) -> Result<(), StorageError>
        requires place { HasPlace table.old.cluster_bits cluster }
        requires told { HasL2TableKind self.old }
        ensures writes { WritesIfModified S.view self.old self.new table.old.is_modified
            (cluster * 2 ^ table.old.cluster_bits) table.old.bytes result }
        ensures ok { OnOk result (table.new ≡ record table.old { is_modified = false }) }
        ensures err { OnErr result (table.new ≡ table.old) }
    {
        let is_modified = table.is_modified();
        let done = table.write_if_modified(&mut self.storage, cluster);
        if is_modified {
            self.record_change(done)
        } else {
            done
        }
    }

    /// Writes a cached refblock to a cluster, if it is modified. Refused 14 (memory) or 15 (storage) if the storage refuses.
    pub fn write_refblock(
        &mut self,
        block: &mut RefBlock,
        cluster: HostCluster,
    ) -> Result<(), StorageError>
        requires place { HasPlace block.old.cluster_bits cluster }
        requires told { HasRefBlockKind self.old }
        ensures writes { WritesIfModified S.view self.old self.new block.old.is_modified
            (cluster * 2 ^ block.old.cluster_bits) block.old.bytes result }
        ensures ok { OnOk result (block.new ≡ record block.old { is_modified = false }) }
        ensures err { OnErr result (block.new ≡ block.old) }
    {
        let is_modified = block.is_modified();
        let done = block.write_if_modified(&mut self.storage, cluster);
        if is_modified {
            self.record_change(done)
        } else {
            done
        }
    }

    /// Writes a new L2 table to its cluster. Refused 14 (memory) or 15 (storage) if the storage refuses.
    pub fn write_new_l2_table(&mut self, table: &L2Table) -> Result<(), StorageError>
        requires placed { IsSome table.now.cluster }
        requires told { HasOtherKind self.old }
        ensures writes { WritesPlaced S.view self.old self.new table.now.cluster result
            (λ cluster b. overwritten b (cluster * 2 ^ table.now.cluster_bits) table.now.bytes) }
    {
        let new_table_written = table.write(&mut self.storage);
        self.record_change(new_table_written)
    }

    /// Writes a new refblock to its cluster. Refused 14 (memory) or 15 (storage) if the storage refuses.
    pub fn write_new_refblock(&mut self, block: &RefBlock) -> Result<(), StorageError>
        requires placed { IsSome block.now.cluster }
        requires told { HasOtherKind self.old }
        ensures writes { WritesPlaced S.view self.old self.new block.now.cluster result
            (λ cluster b. overwritten b (cluster * 2 ^ block.now.cluster_bits) block.now.bytes) }
        ensures of_image { (S.view (storage_of self.old)).is_honest → IfSome block.now.cluster (λ cluster.
            OnOk result (IsRefBlockAt (byte_at (S.view (storage_of self.new)).contents)
            (cluster * 2 ^ block.now.cluster_bits) block.now)) }
    {
        let new_block_written = block.write(&mut self.storage);
        self.record_change(new_block_written)
    }

    /// Writes an L1 table to its clusters. Refused 14 (memory) or 15 (storage) if the storage refuses.
    pub fn write_l1_table(&mut self, table: &L1Table) -> Result<(), StorageError>
        requires placed { IsSome table.now.cluster }
        requires told { HasOtherKind self.old }
        ensures writes { WritesPlaced S.view self.old self.new table.now.cluster result
            (λ cluster b. overwritten b (cluster * 2 ^ table.now.cluster_bits) table.now.bytes) }
    {
        let l1_table_written = table.write(&mut self.storage);
        self.record_change(l1_table_written)
    }

    /// Writes one entry of an L1 table to its offset, which must fit into 64 bits. The index must lie in the table. Refused 14 (memory) or 15
    /// (storage) if the storage refuses.
    pub fn write_l1_entry(&mut self, table: &L1Table, index: usize) -> Result<(), StorageError>
        requires placed { IsSome table.now.cluster }
        requires within { index < entry_count table.now }
        requires room { HasRoomIfPlaced table.now.cluster_bits (8 * index) table.now.cluster }
        requires told { HasOtherKind self.old }
        ensures writes { WritesPlaced S.view self.old self.new table.now.cluster result
            (λ cluster b. overwritten b (cluster * 2 ^ table.now.cluster_bits + 8 * index)
            (to_be_bytes w64 (entry_at table.now.bytes index))) }
        ensures fits { entry_at table.now.bytes index < 2 ^ 64 }
    {
        let l1_entry_written = table.write_entry(&mut self.storage, index);
        self.record_change(l1_entry_written)
    }

    /// Writes a reftable to its clusters. Refused 14 (memory) or 15 (storage) if the storage refuses.
    pub fn write_reftable(&mut self, table: &RefTable) -> Result<(), StorageError>
        requires placed { IsSome table.now.cluster }
        requires told { HasOtherKind self.old }
        ensures writes { WritesPlaced S.view self.old self.new table.now.cluster result
            (λ cluster b. overwritten b (cluster * 2 ^ table.now.cluster_bits) table.now.bytes) }
    {
        let reftable_written = table.write(&mut self.storage);
        self.record_change(reftable_written)
    }

    /// Writes one entry of a reftable. The index must lie in the table. Refused 14 (memory) or 15 (storage) if the storage refuses.
    pub fn write_reftable_entry(
        &mut self,
        table: &RefTable,
        index: usize,
    ) -> Result<(), StorageError>
        requires placed { IsSome table.now.cluster }
        requires within { index < entry_count table.now }
        requires told { HasOtherKind self.old }
        ensures written { IfSome table.now.cluster (λ cluster. Changes (S.view (storage_of self.old)) (S.view (storage_of self.new)) result
            (λ b. overwritten b (cluster * 2 ^ table.now.cluster_bits + 8 * index) (to_be_bytes w64 (entry_at table.now.bytes index)))) }
        ensures calls { Calls (S.view (storage_of self.old)) (S.view (storage_of self.new)) result }
        ensures recorded { RecordsWrite self.old self.new result }
        ensures fits { entry_at table.now.bytes index < 2 ^ 64 }
    {
        let reftable_entry_written = table.write_entry(&mut self.storage, index);
        self.record_change(reftable_entry_written)
    }

    /// Empties the storage. Refused 14 (memory) or 15 (storage) if the storage refuses.
    pub fn clear(&mut self) -> Result<(), StorageError>
        requires { HasOtherKind self.old }
        ensures writes { MakesWrite S.view self.old self.new result (λ b. resized b 0) }
    {
        let done = self.storage.resize(0, StoragePreallocate::None);
        self.record_change(done)
    }

    /// Writes the header of a new image with its names. Refused 14 (memory) if there is no memory for its bytes, and 14 or 15 (storage) if the
    /// storage refuses.
    pub fn write_new_header(&mut self, alloc: Global, header: &Header) -> Result<(), StorageError>
        requires { HasOtherKind self.old }
        ensures writes { MakesWrite S.view self.old self.new result (header_written header.now) }
        ensures reads { HasNewNames header.now
            → IsHeaderIn header.now (header_written header.now (S.view (storage_of self.old)).contents) }
    {
        let done = header.write(alloc, &mut self.storage);
        self.record_change(done)
    }

    /// Writes the offset and the length of the L1 table. Refused 14 (memory) or 15 (storage) if the storage refuses.
    pub fn write_l1_table_pointer(&mut self, header: &Header) -> Result<(), StorageError>
        requires { HasOtherKind self.old }
        ensures writes { MakesWrite S.view self.old self.new result (l1_table_pointer_written header.now.fields) }
    {
        let done = header.write_l1_table_pointer(&mut self.storage);
        self.record_change(done)
    }

    /// Writes the offset and the length of the reftable. Refused 14 (memory) or 15 (storage) if the storage refuses.
    pub fn write_reftable_pointer(&mut self, header: &Header) -> Result<(), StorageError>
        requires { HasOtherKind self.old }
        ensures writes { MakesWrite S.view self.old self.new result (reftable_pointer_written header.now.fields) }
    {
        let done = header.write_reftable_pointer(&mut self.storage);
        self.record_change(done)
    }

    /// Writes the disk's size. Refused 14 (memory) or 15 (storage) if the storage refuses.
    pub fn write_size(&mut self, header: &Header) -> Result<(), StorageError>
        requires { HasOtherKind self.old }
        ensures writes { MakesWrite S.view self.old self.new result (size_written header.now.fields) }
    {
        let done = header.write_size(&mut self.storage);
        self.record_change(done)
    }

    /// Clears the autoclear bits in the image and in the header in memory, if one is set. Refused 14 (memory) or 15 (storage) if the storage
    /// refuses; the header in memory then keeps the bits.
    pub fn clear_autoclear(&mut self, header: &mut Header) -> Result<(), StorageError>
        requires { HasOtherKind self.old }
        ensures written { header.old.fields.autoclear ≢ 0
            → Changes (S.view (storage_of self.old)) (S.view (storage_of self.new)) result autoclear_cleared }
        ensures idle { header.old.fields.autoclear ≡ 0 → IsOk result × (self.new ≡ self.old) }
        ensures ok { OnOk result (header.new ≡ with_fields header.old (without_autoclear header.old.fields)) }
        ensures err { OnErr result (header.new ≡ header.old) }
        ensures calls { Calls (S.view (storage_of self.old)) (S.view (storage_of self.new)) result }
        ensures recorded { header.old.fields.autoclear ≢ 0 → RecordsWrite self.old self.new result }
    {
        let is_set = header.autoclear() != 0;
        let bits_cleared = header.clear_autoclear(&mut self.storage);
        if is_set {
            self.record_change(bits_cleared)
        } else {
            bits_cleared
        }
    }
}

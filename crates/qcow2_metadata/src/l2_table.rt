ghost use Rattle.std.specs.Prelude.{◌≡◌, ℕ, ◌*◌, ◌/◌, ◌%◌, ◌^◌, ◌<◌, ◌≤◌, Some, None, true, false, replicate, if◌then◌else◌, IsTrue, IsFalse, IsSome, IsOk, OnOk, OnErr, IfOk, IfErr, IfSome};
ghost use Rattle.image_access.specs.Contents.{bytes_at, overwritten};
ghost use Rattle.image_access.specs.Moments.{ContentsStay, Changes, Calls, QuietCalls};
ghost use Rattle.qcow2_metadata.specs.Bytes.{byte_at};
ghost use Rattle.qcow2_metadata.specs.Header.{cluster_size};
ghost use Rattle.qcow2_metadata.specs.MetadataError.{storage_result};
ghost use Rattle.qcow2_metadata.specs.TableBytes.{entry_at as entry_of, ChangesEntry, HasPlace, IsOfStorageOrMemory};
ghost use Rattle.qcow2_metadata.specs.L2Mapping.{greatest_offset, IsHostCluster, IsInReach, HasAlignedHost, old_data_run};
ghost use Rattle.qcow2_metadata.specs.L2Table.{cover_at, entries_of, l2_table, IsL2Table, IsL2TableAt, IsEntryHost, copied_entry as copied_entry_of, copied_host as copied_host_of, zero_entry as zero_entry_of, zero_cover};

use crate::l2_mapping::{COPIED, ZERO};
use crate::table_bytes::{entry_at, load, set_entry, zeros};
use crate::{
    ClusterCount, GuestCluster, Header, HostCluster, HostOffset, L2Mapping, MetadataError,
};
use image_access::{Storage, StorageError};
use std::alloc::Global;
use std::marker::Model;

/// An L2 table: the mappings of a range of guest clusters, in one cluster.
#[derive(Drop)]
pub struct L2Table {
    cluster: Option<HostCluster>,
    bytes: Vec<u8>,
    is_modified: bool,
    cluster_bits: u32,
    has_zero_bit: bool,
    data_is_external: bool,
}

impl Model for L2Table {
    ghost use Rattle.qcow2_metadata.specs.L2Table.{L2TableView, IsL2Table};

    ghost Value = { L2TableView };

    ghost view = { λ t. record {
      cluster = t.cluster;
      bytes = t.bytes.items;
      is_modified = t.is_modified;
      cluster_bits = t.cluster_bits;
      has_zero_bit = t.has_zero_bit;
      data_is_external = t.data_is_external;
    } };

    ghost invariant = { λ t. IsL2Table (record {
      cluster = t.cluster;
      bytes = t.bytes.items;
      is_modified = t.is_modified;
      cluster_bits = t.cluster_bits;
      has_zero_bit = t.has_zero_bit;
      data_is_external = t.data_is_external;
    }) };
}

/// The entry of data at a host offset, marked copied.
fn copied_entry(host: HostOffset) -> u64
    requires { host ≤ greatest_offset }
    ensures { result ≡ copied_entry_of host }
{
    COPIED | host.value()
}

/// The entry of a zero cluster, which may keep a host cluster that is marked copied.
fn zero_entry(kept: Option<HostOffset>) -> u64
    requires { IfSome kept (λ host. (host ≤ greatest_offset) × (host % 512 ≡ 0)) }
    ensures { result ≡ zero_entry_of kept }
{
    match kept {
        Some(host) => copied_entry(host) | ZERO,
        None => ZERO,
    }
}

/// The host offset of data or of a zero entry, if it is marked copied.
fn copied_host(mapping: L2Mapping) -> Option<HostOffset>
    ensures { result ≡ copied_host_of mapping }
{
    match mapping {
        L2Mapping::Data { host, copied } => copied.then_some(host),
        L2Mapping::Zero { kept } => {
            let (host, copied) = kept?;
            copied.then_some(host)
        }
        L2Mapping::Compressed { .. } | L2Mapping::Uncovered => None,
    }
}

impl L2Table {
    /// A table of empty entries. Refused `Memory`.
    pub fn new_cleared(alloc: Global, header: &Header) -> Result<L2Table, MetadataError>
        ensures table { IfOk result (λ table. table ≡ l2_table header.now.fields None (replicate (cluster_size header.now.fields) 0) true) }
        ensures zeros { IfOk result (λ table. (i : ℕ) → entry_of table.bytes i ≡ 0) }
        ensures err { IfErr result (λ e. e ≡ MetadataError.Memory) }
    {
        let bytes = zeros(alloc, header.cluster_size() as usize)?;
        Ok(L2Table {
            cluster: None,
            bytes,
            is_modified: true,
            cluster_bits: header.cluster_bits(),
            has_zero_bit: header.version() == 3,
            data_is_external: header.has_data_file(),
        })
    }

    /// Loads the table at a cluster. Refused `Memory` and `Storage`.
    pub fn load<S: Storage>(
        alloc: Global,
        storage: &mut S,
        header: &Header,
        cluster: HostCluster,
    ) -> Result<L2Table, MetadataError>
        requires { HasPlace header.now.fields.cluster_bits cluster }
        ensures table { IfOk result (λ table. table ≡ l2_table header.now.fields (Some cluster) table.bytes false) }
        ensures bytes { (S.view storage.old).is_honest → IfOk result (λ table. table.bytes
            ≡ bytes_at (S.view storage.old).contents (cluster * cluster_size header.now.fields) (cluster_size header.now.fields)) }
        ensures of_image { (S.view storage.old).is_honest
            → IfOk result (IsL2TableAt (byte_at (S.view storage.old).contents) (cluster * cluster_size header.now.fields)) }
        ensures whole { IfOk result IsL2Table }
        ensures err { IfErr result IsOfStorageOrMemory }
        ensures same { ContentsStay (S.view storage.old) (S.view storage.new) }
        ensures calls { QuietCalls (S.view storage.old) (S.view storage.new) (storage_result result) }
    {
        let cluster_bits = header.cluster_bits();
        let at = cluster.offset(cluster_bits).value();
        let bytes = load(alloc, storage, at, header.cluster_size() as usize)?;
        Ok(L2Table {
            cluster: Some(cluster),
            bytes,
            is_modified: false,
            cluster_bits,
            has_zero_bit: header.version() == 3,
            data_is_external: header.has_data_file(),
        })
    }

    /// A table with the same entries. Refused `Memory`.
    pub fn clone(&self) -> Result<L2Table, MetadataError>
        ensures ok { IfOk result (λ table. table ≡ record self.now { cluster = None; is_modified = true }) }
        ensures err { IfErr result (λ e. e ≡ MetadataError.Memory) }
    {
        Ok(L2Table {
            cluster: None,
            bytes: self.bytes.clone()?,
            is_modified: true,
            cluster_bits: self.cluster_bits,
            has_zero_bit: self.has_zero_bit,
            data_is_external: self.data_is_external,
        })
    }

    /// Writes the table to its cluster, which it must have. Refused as the storage refuses.
    pub fn write<S: Storage>(&self, storage: &mut S) -> Result<(), StorageError>
        requires { IsSome self.now.cluster }
        ensures written { IfSome self.now.cluster (λ cluster. Changes (S.view storage.old) (S.view storage.new) result
            (λ b. overwritten b (cluster * 2 ^ self.now.cluster_bits) self.now.bytes)) }
        ensures of_image { (S.view storage.old).is_honest → IfSome self.now.cluster (λ cluster.
            OnOk result (IsL2TableAt (byte_at (S.view storage.new).contents) (cluster * 2 ^ self.now.cluster_bits) self.now)) }
        ensures calls { Calls (S.view storage.old) (S.view storage.new) result }
    {
        let Some(cluster) = self.cluster else {
            unreachable!();
        };
        let at = cluster.offset(self.cluster_bits).value();
        storage.write(at, &self.bytes)
    }

    /// Writes the table to `cluster` if it is modified, and marks it as unmodified. Refused as the storage refuses.
    pub fn write_if_modified<S: Storage>(
        &mut self,
        storage: &mut S,
        cluster: HostCluster,
    ) -> Result<(), StorageError>
        requires { HasPlace self.old.cluster_bits cluster }
        ensures written { IsTrue self.old.is_modified → Changes (S.view storage.old) (S.view storage.new) result
            (λ b. overwritten b (cluster * 2 ^ self.old.cluster_bits) self.old.bytes) }
        ensures of_image { (S.view storage.old).is_honest → IsTrue self.old.is_modified
            → OnOk result (IsL2TableAt (byte_at (S.view storage.new).contents) (cluster * 2 ^ self.old.cluster_bits) self.old) }
        ensures idle { IsFalse self.old.is_modified → IsOk result × (storage.new ≡ storage.old) }
        ensures calls { Calls (S.view storage.old) (S.view storage.new) result }
        ensures ok { OnOk result (self.new ≡ record self.old { is_modified = false }) }
        ensures err { OnErr result (self.new ≡ self.old) }
    {
        if self.is_modified {
            storage.write(cluster.offset(self.cluster_bits).value(), &self.bytes)?;
            self.clear_modified();
        }
        Ok(())
    }

    /// The mapping of entry `index`.
    pub fn cover(&self, index: usize) -> L2Mapping
        requires { index < entries_of self.now }
        ensures value { result ≡ cover_at self.now index }
        ensures reach { IsInReach result }
    {
        let entry = entry_at(&self.bytes, index);
        L2Mapping::of_entry(
            entry,
            self.cluster_bits,
            self.has_zero_bit,
            self.data_is_external,
        )
    }

    /// The mapping of a guest cluster that this table covers. Refused `Unaligned` if the host offset of data, or the one that a zero entry
    /// keeps, is not a multiple of the cluster size.
    pub fn get_mapping(&self, guest: GuestCluster) -> Result<L2Mapping, MetadataError>
        ensures ok { IfOk result (λ mapping. mapping ≡ cover_at self.now (guest % entries_of self.now)) }
        ensures aligned { IfOk result (HasAlignedHost self.now.cluster_bits) }
        ensures reach { IfOk result IsInReach }
        ensures err { IfErr result (λ e. (e ≡ MetadataError.Unaligned)
            × ¬ HasAlignedHost self.now.cluster_bits (cover_at self.now (guest % entries_of self.now))) }
    {
        let mapping = self.cover(guest.l2_index(self.cluster_bits));
        if mapping.has_aligned_host(self.cluster_bits) {
            Ok(mapping)
        } else {
            Err(MetadataError::Unaligned)
        }
    }

    /// The host offset that entry `index` keeps if it becomes a zero entry.
    fn kept_host(&self, index: usize, keep: bool) -> Option<HostOffset>
        requires { index < entries_of self.now }
        ensures value { result ≡ (if keep then copied_host_of (cover_at self.now index) else None) }
        ensures host { IfSome result (IsEntryHost self.now.data_is_external) }
    {
        if keep {
            copied_host(self.cover(index))
        } else {
            None
        }
    }

    /// Sets entry `index`. Returns the host clusters that lost a reference: the first, and how many.
    fn replace(&mut self, index: usize, entry: u64) -> Option<(HostCluster, ClusterCount)>
        requires { index < entries_of self.old }
        ensures changed { ChangesEntry self.old.bytes self.new.bytes index entry }
        ensures old_data { result ≡ old_data_run self.old.cluster_bits (cover_at self.old index) (cover_at self.new index) }
        ensures same { self.new ≡ record self.old { bytes = self.new.bytes; is_modified = true } }
    {
        let old = self.cover(index);
        set_entry(&mut self.bytes, index, entry);
        self.is_modified = true;
        old.dropped_for(self.cover(index), self.cluster_bits)
    }

    /// Maps entry `index` to data at a host cluster, marked copied. Returns the host clusters that lost a reference: the first, and how many.
    pub fn map_cluster(
        &mut self,
        index: usize,
        host: HostCluster,
    ) -> Option<(HostCluster, ClusterCount)>
        requires inside { index < entries_of self.old }
        requires host { IsHostCluster self.old.cluster_bits host }
        ensures changed { ChangesEntry self.old.bytes self.new.bytes index (copied_entry_of (host * 2 ^ self.old.cluster_bits)) }
        ensures mapped { (host ≡ 0 → IsTrue self.old.data_is_external)
            → cover_at self.new index ≡ L2Mapping.Data (host * 2 ^ self.old.cluster_bits) true }
        ensures old_data { result ≡ old_data_run self.old.cluster_bits (cover_at self.old index) (cover_at self.new index) }
        ensures same { self.new ≡ record self.old { bytes = self.new.bytes; is_modified = true } }
    {
        let entry = copied_entry(host.offset(self.cluster_bits));
        self.replace(index, entry)
    }

    /// Makes entry `index` a zero entry. With `keep` it keeps the host cluster, if that is marked copied. Returns the host clusters that lost a
    /// reference: the first, and how many.
    pub fn zero_cluster(&mut self, index: usize, keep: bool) -> Option<(HostCluster, ClusterCount)>
        requires { index < entries_of self.old }
        ensures changed { ChangesEntry self.old.bytes self.new.bytes index
            (zero_entry_of (if keep then copied_host_of (cover_at self.old index) else None)) }
        ensures zeroed { IsTrue self.old.has_zero_bit
            → cover_at self.new index ≡ zero_cover (if keep then copied_host_of (cover_at self.old index) else None) }
        ensures old_data { result ≡ old_data_run self.old.cluster_bits (cover_at self.old index) (cover_at self.new index) }
        ensures same { self.new ≡ record self.old { bytes = self.new.bytes; is_modified = true } }
    {
        let kept = self.kept_host(index, keep);
        self.replace(index, zero_entry(kept))
    }

    /// Unmaps entry `index`. Returns the host clusters that lost a reference: the first, and how many.
    pub fn discard_cluster(&mut self, index: usize) -> Option<(HostCluster, ClusterCount)>
        requires { index < entries_of self.old }
        ensures changed { ChangesEntry self.old.bytes self.new.bytes index 0 }
        ensures uncovered { cover_at self.new index ≡ L2Mapping.Uncovered }
        ensures old_data { result ≡ old_data_run self.old.cluster_bits (cover_at self.old index) (cover_at self.new index) }
        ensures same { self.new ≡ record self.old { bytes = self.new.bytes; is_modified = true } }
    {
        self.replace(index, 0)
    }

    /// The binary logarithm of the table's size in bytes.
    pub fn cluster_bits(&self) -> u32
        ensures value { result ≡ self.now.cluster_bits }
        ensures whole { IsL2Table self.now }
    {
        self.cluster_bits
    }

    /// The number of entries.
    pub fn entries(&self) -> usize
        ensures value { result ≡ entries_of self.now }
        ensures whole { IsL2Table self.now }
    {
        (1usize << self.cluster_bits) / 8
    }

    /// Whether the table was changed since it was last read or written.
    pub fn is_modified(&self) -> bool
        ensures value { result ≡ self.now.is_modified }
        ensures whole { IsL2Table self.now }
    {
        self.is_modified
    }

    /// Marks the table as unmodified.
    pub fn clear_modified(&mut self)
        ensures { self.new ≡ record self.old { is_modified = false } }
    {
        self.is_modified = false;
    }

    /// The cluster of the table, if it has one.
    pub fn get_cluster(&self) -> Option<HostCluster>
        ensures value { result ≡ self.now.cluster }
        ensures whole { IsL2Table self.now }
    {
        self.cluster
    }

    /// Sets the cluster of the table.
    pub fn set_cluster(&mut self, cluster: HostCluster)
        requires { HasPlace self.old.cluster_bits cluster }
        ensures { self.new ≡ record self.old { cluster = Some cluster } }
    {
        self.cluster = Some(cluster);
    }

    /// Leaves the table without a cluster.
    pub fn unset_cluster(&mut self)
        ensures { self.new ≡ record self.old { cluster = None } }
    {
        self.cluster = None;
    }
}

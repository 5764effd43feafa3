ghost use Rattle.std.specs.Prelude.{◌≡◌, ◌≢◌, ℕ, ◌+◌, ◌-◌, ◌*◌, ◌/◌, ◌%◌, ◌^◌, ◌<◌, ◌≤◌, ◌↔◌, Some, None, true, false, length, replicate, IsTrue, IsFalse, IsSome, IsOk, OnOk, OnErr, IfOk, IfErr, IfSome};
ghost use Rattle.image_access.specs.Contents.{bytes_at, overwritten};
ghost use Rattle.image_access.specs.Moments.{ContentsStay, Changes, Calls, QuietCalls};
ghost use Rattle.qcow2_metadata.specs.Bytes.{byte_at};
ghost use Rattle.qcow2_metadata.specs.Header.{cluster_size};
ghost use Rattle.qcow2_metadata.specs.MetadataError.{storage_result};
ghost use Rattle.qcow2_metadata.specs.TableBytes.{HasPlace, IsOfStorageOrMemory};
ghost use Rattle.qcow2_metadata.specs.FirstZero.{AreAboveZero, IsFirstZero};
ghost use Rattle.qcow2_metadata.specs.RefBlock.{count_in, count_at, counts_of, count_limit, ref_block, IsRefBlock, IsRefBlockAt, ChangesCount};

use crate::big_endian::{read_u32, read_u64};
use crate::table_bytes::{load, put, zeros};
use crate::{Header, HostCluster, MetadataError};
use image_access::{Storage, StorageError};
use std::alloc::Global;
use std::marker::Model;

/// A refblock: the refcounts of a range of clusters, in one cluster.
#[derive(Drop)]
pub struct RefBlock {
    cluster: Option<HostCluster>,
    bytes: Vec<u8>,
    is_modified: bool,
    cluster_bits: u32,
    refcount_order: u32,
    // Refcounts that a search found above 0: from `used_from` up to, not including, `used_end`.
    used_from: usize,
    used_end: usize,
}

impl Model for RefBlock {
    ghost use Rattle.qcow2_metadata.specs.RefBlock.{RefBlockView};
    ghost use Rattle.qcow2_metadata.specs.FirstZero.{KnowsUsed};

    ghost Value = { RefBlockView };

    ghost view = { λ b. record {
      cluster = b.cluster;
      bytes = b.bytes.items;
      is_modified = b.is_modified;
      cluster_bits = b.cluster_bits;
      refcount_order = b.refcount_order;
    } };

    ghost invariant = { λ b. KnowsUsed (record {
      cluster = b.cluster;
      bytes = b.bytes.items;
      is_modified = b.is_modified;
      cluster_bits = b.cluster_bits;
      refcount_order = b.refcount_order;
    }) b.used_from b.used_end };
}

/// The place of a refcount of at most 8 bits: its byte, and its lowest bit.
fn field_place(order: u32, index: usize) -> (usize, u32)
    requires { order ≤ 3 }
    ensures byte { result.0 ≡ index * 2 ^ order / 8 }
    ensures bit { result.1 ≡ index * 2 ^ order % 8 }
    ensures within { result.1 + 2 ^ order ≤ 8 }
{
    match order {
        0 => (index / 8, (index % 8) as u32),
        1 => (index / 4, (index % 4 * 2) as u32),
        2 => (index / 2, (index % 2 * 4) as u32),
        _ => (index, 0),
    }
}

/// The field of `width` bits of a byte, from `bit` on.
fn field(byte: u8, bit: u32, width: u32) -> u8
    requires { bit + width ≤ 8 }
    ensures { result ≡ byte / 2 ^ bit % 2 ^ width }
{
    ((u32::from(byte) >> bit) % (1 << width)) as u8
}

/// The byte with another value in this field.
fn with_field(byte: u8, bit: u32, width: u32, value: u8) -> u8
    requires inside { bit < 8 }
    requires within { bit + width ≤ 8 }
    requires fits { value < 2 ^ width }
    ensures { result ≡ byte - byte / 2 ^ bit % 2 ^ width * 2 ^ bit + value * 2 ^ bit }
{
    byte - (field(byte, bit, width) << bit) + (value << bit)
}

/// Refcount `index` of a refblock. Refcounts have 2 to the power of `order` bits.
pub fn read_count(block: &[u8], order: u32, index: usize) -> u64
    requires order { order ≤ 6 }
    requires whole { length block.now % 8 ≡ 0 }
    requires inside { index < length block.now * 8 / 2 ^ order }
    ensures count { result ≡ count_in order block.now index }
    ensures fits { result < 2 ^ (2 ^ order) }
{
    match order {
        0..=3 => {
            let (byte, bit) = field_place(order, index);
            u64::from(field(block[byte], bit, 1 << order))
        }
        4 => u64::from(u16::from_be_bytes([block[index * 2], block[index * 2 + 1]])),
        5 => u64::from(read_u32(block, index * 4)),
        _ => read_u64(block, index * 8),
    }
}

/// Whether the 64 refcounts of one bit from `index` on, which fill eight bytes, are all 1.
fn are_ones(block: &[u8], index: usize) -> bool
    requires row { index % 64 ≡ 0 }
    requires inside { index / 8 + 8 ≤ length block.now }
    ensures { IsTrue result → (k : ℕ) → index ≤ k → k < index + 64 → count_in 0 block.now k ≢ 0 }
{
    read_u64(block, index / 8) == u64::MAX
}

/// Sets refcount `index` of a refblock.
fn write_count(block: &mut [u8], order: u32, index: usize, count: u64)
    requires order { order ≤ 6 }
    requires whole { length block.old % 8 ≡ 0 }
    requires inside { index < length block.old * 8 / 2 ^ order }
    requires fits { count < 2 ^ (2 ^ order) }
    ensures { ChangesCount order block.old block.new index count }
{
    match order {
        0..=3 => {
            let (byte, bit) = field_place(order, index);
            block[byte] = with_field(block[byte], bit, 1 << order, count as u8);
        }
        4 => put(block, index * 2, &(count as u16).to_be_bytes()),
        5 => put(block, index * 4, &(count as u32).to_be_bytes()),
        _ => put(block, index * 8, &count.to_be_bytes()),
    }
}

impl RefBlock {
    /// A refblock of refcounts 0. Refused `Memory`.
    pub fn new_cleared(alloc: Global, header: &Header) -> Result<RefBlock, MetadataError>
        ensures block { IfOk result (λ block. block ≡ ref_block header.now.fields None (replicate (cluster_size header.now.fields) 0) true) }
        ensures zeros { IfOk result (λ block. (i : ℕ) → count_at block i ≡ 0) }
        ensures err { IfErr result (λ e. e ≡ MetadataError.Memory) }
    {
        let bytes = zeros(alloc, header.cluster_size() as usize)?;
        Ok(RefBlock {
            cluster: None,
            bytes,
            is_modified: true,
            cluster_bits: header.cluster_bits(),
            refcount_order: header.refcount_order(),
            used_from: 0,
            used_end: 0,
        })
    }

    /// Loads the refblock at a cluster. Refused `Memory` and `Storage`.
    pub fn load<S: Storage>(
        alloc: Global,
        storage: &mut S,
        header: &Header,
        cluster: HostCluster,
    ) -> Result<RefBlock, MetadataError>
        requires { HasPlace header.now.fields.cluster_bits cluster }
        ensures block { IfOk result (λ block. block ≡ ref_block header.now.fields (Some cluster) block.bytes false) }
        ensures bytes { (S.view storage.old).is_honest → IfOk result (λ block. block.bytes
            ≡ bytes_at (S.view storage.old).contents (cluster * cluster_size header.now.fields) (cluster_size header.now.fields)) }
        ensures of_image { (S.view storage.old).is_honest
            → IfOk result (IsRefBlockAt (byte_at (S.view storage.old).contents) (cluster * cluster_size header.now.fields)) }
        ensures whole { IfOk result IsRefBlock }
        ensures err { IfErr result IsOfStorageOrMemory }
        ensures same { ContentsStay (S.view storage.old) (S.view storage.new) }
        ensures calls { QuietCalls (S.view storage.old) (S.view storage.new) (storage_result result) }
    {
        let cluster_bits = header.cluster_bits();
        let at = cluster.offset(cluster_bits).value();
        let bytes = load(alloc, storage, at, header.cluster_size() as usize)?;
        Ok(RefBlock {
            cluster: Some(cluster),
            bytes,
            is_modified: false,
            cluster_bits,
            refcount_order: header.refcount_order(),
            used_from: 0,
            used_end: 0,
        })
    }

    /// Writes the refblock to its cluster, which it must have. Refused as the storage refuses.
    pub fn write<S: Storage>(&self, storage: &mut S) -> Result<(), StorageError>
        requires { IsSome self.now.cluster }
        ensures written { IfSome self.now.cluster (λ cluster. Changes (S.view storage.old) (S.view storage.new) result
            (λ b. overwritten b (cluster * 2 ^ self.now.cluster_bits) self.now.bytes)) }
        ensures of_image { (S.view storage.old).is_honest → IfSome self.now.cluster (λ cluster.
            OnOk result (IsRefBlockAt (byte_at (S.view storage.new).contents) (cluster * 2 ^ self.now.cluster_bits) self.now)) }
        ensures calls { Calls (S.view storage.old) (S.view storage.new) result }
    {
        let Some(cluster) = self.cluster else {
            unreachable!();
        };
        let at = cluster.offset(self.cluster_bits).value();
        storage.write(at, &self.bytes)
    }

    /// Writes the refblock to `cluster` if it is modified, and marks it as unmodified. Refused as the storage refuses.
    pub fn write_if_modified<S: Storage>(
        &mut self,
        storage: &mut S,
        cluster: HostCluster,
    ) -> Result<(), StorageError>
        requires { HasPlace self.old.cluster_bits cluster }
        ensures written { IsTrue self.old.is_modified → Changes (S.view storage.old) (S.view storage.new) result
            (λ b. overwritten b (cluster * 2 ^ self.old.cluster_bits) self.old.bytes) }
        ensures of_image { (S.view storage.old).is_honest → IsTrue self.old.is_modified
            → OnOk result (IsRefBlockAt (byte_at (S.view storage.new).contents) (cluster * 2 ^ self.old.cluster_bits) self.old) }
        ensures idle { IsFalse self.old.is_modified → IsOk result × (storage.new ≡ storage.old) }
        ensures calls { Calls (S.view storage.old) (S.view storage.new) result }
        ensures ok { OnOk result (self.new ≡ record self.old { is_modified = false }) }
        ensures err { OnErr result (self.new ≡ self.old) }
    {
        if self.is_modified {
            storage.write(cluster.offset(self.cluster_bits).value(), &self.bytes)?;
            self.clear_modified();
        }
        Ok(())
    }

    /// The refcount of a cluster, by its index in this refblock.
    #[tactic(auto, using(crate::proofs::Quotients::multiple_of_8))]
    pub fn get(&self, index: usize) -> u64
        requires { index < counts_of self.now }
        ensures count { result ≡ count_at self.now index }
        ensures fits { result < count_limit self.now }
    {
        read_count(&self.bytes, self.refcount_order, index)
    }

    /// Whether the refcount of this index is 0.
    pub fn is_zero(&self, index: usize) -> bool
        requires { index < counts_of self.now }
        ensures { IsTrue result ↔ (count_at self.now index ≡ 0) }
    {
        self.get(index) == 0
    }

    /// The first index from `from` on with refcount 0, or the number of refcounts if there is none. Later searches skip the refcounts that this one
    /// passed, until one of them is decremented.
    pub fn next_zero(&mut self, from: usize) -> usize
        requires { from ≤ counts_of self.old }
        ensures first { IsFirstZero self.old from result }
        ensures same { self.new ≡ self.old }
    {
        let (start, end) = self.used_around(from);
        let first = self.zero_from(end);
        self.used_from = start;
        self.used_end = first;
        first
    }

    // The range of refcounts around an index that are known to be above 0.
    fn used_around(&self, index: usize) -> (usize, usize)
        requires { index ≤ counts_of self.now }
        ensures start { result.0 ≤ index }
        ensures end { index ≤ result.1 }
        ensures within { result.1 ≤ counts_of self.now }
        ensures above { AreAboveZero self.now result.0 result.1 }
    {
        if self.used_from <= index && index <= self.used_end {
            return (self.used_from, self.used_end);
        }
        (index, index)
    }

    // The first index from `from` on with refcount 0, or the number of refcounts if there is none.
    fn zero_from(&self, from: usize) -> usize
        requires { from ≤ counts_of self.now }
        ensures { IsFirstZero self.now from result }
    {
        let counts = self.counts();
        let mut index = from;
        'passing: while index < counts {
            let seen = self.above_zero(index);
            if seen == 0 {
                return index;
            }
            index += seen;
        }
        counts
    }

    // How many refcounts from an index on are found above 0 by one comparison: 64, if they have one bit and their eight bytes are all ones;
    // otherwise 1, or 0 if the first one is 0.
    fn above_zero(&self, index: usize) -> usize
        requires { index < counts_of self.now }
        ensures within { index + result ≤ counts_of self.now }
        ensures above { AreAboveZero self.now index (index + result) }
        ensures none { result ≡ 0 → count_at self.now index ≡ 0 }
    {
        if self.refcount_order == 0 && index % 64 == 0 && are_ones(&self.bytes, index) {
            return 64;
        }
        usize::from(!self.is_zero(index))
    }

    /// Increments a refcount. Returns false, and changes nothing, if it is the greatest one.
    #[tactic(auto, using(crate::proofs::Quotients::multiple_of_8))]
    pub fn increment(&mut self, index: usize) -> bool
        requires { index < counts_of self.old }
        ensures full { IsFalse result → count_at self.old index + 1 ≡ count_limit self.old }
        ensures unchanged { IsFalse result → self.new ≡ self.old }
        ensures counted { IsTrue result → ChangesCount self.old.refcount_order self.old.bytes self.new.bytes index (count_at self.old index + 1) }
        ensures fits { IsTrue result → count_at self.old index + 1 < count_limit self.old }
        ensures same { IsTrue result → self.new ≡ record self.old { bytes = self.new.bytes; is_modified = true } }
    {
        let count = self.get(index);
        if count == self.greatest_count() {
            return false;
        }
        write_count(&mut self.bytes, self.refcount_order, index, count + 1);
        self.is_modified = true;
        true
    }

    /// Decrements a refcount. Returns false, and changes nothing, if it is 0.
    #[tactic(auto, using(crate::proofs::Quotients::multiple_of_8))]
    pub fn decrement(&mut self, index: usize) -> bool
        requires { index < counts_of self.old }
        ensures empty { IsFalse result → count_at self.old index ≡ 0 }
        ensures unchanged { IsFalse result → self.new ≡ self.old }
        ensures counted { IsTrue result → ChangesCount self.old.refcount_order self.old.bytes self.new.bytes index (count_at self.old index - 1) }
        ensures some { IsTrue result → 0 < count_at self.old index }
        ensures same { IsTrue result → self.new ≡ record self.old { bytes = self.new.bytes; is_modified = true } }
    {
        let count = self.get(index);
        if count == 0 {
            return false;
        }
        write_count(&mut self.bytes, self.refcount_order, index, count - 1);
        self.is_modified = true;
        if self.used_from <= index {
            self.used_end = self.used_end.min(index);
        }
        true
    }

    fn greatest_count(&self) -> u64
        ensures { result + 1 ≡ count_limit self.now }
    {
        let width: u32 = 1 << self.refcount_order;
        u64::MAX >> (64 - width)
    }

    /// The binary logarithm of the refblock's size in bytes.
    pub fn cluster_bits(&self) -> u32
        ensures value { result ≡ self.now.cluster_bits }
        ensures whole { IsRefBlock self.now }
    {
        self.cluster_bits
    }

    /// The number of refcounts.
    pub fn counts(&self) -> usize
        ensures value { result ≡ counts_of self.now }
        ensures whole { IsRefBlock self.now }
    {
        ((1usize << self.cluster_bits) * 8) >> self.refcount_order
    }

    /// Whether the refblock was changed since it was last read or written.
    pub fn is_modified(&self) -> bool
        ensures value { result ≡ self.now.is_modified }
        ensures whole { IsRefBlock self.now }
    {
        self.is_modified
    }

    /// Marks the refblock as unmodified.
    pub fn clear_modified(&mut self)
        ensures { self.new ≡ record self.old { is_modified = false } }
    {
        self.is_modified = false;
    }

    /// The cluster of the refblock, if it has one.
    pub fn get_cluster(&self) -> Option<HostCluster>
        ensures value { result ≡ self.now.cluster }
        ensures whole { IsRefBlock self.now }
    {
        self.cluster
    }

    /// Sets the cluster of the refblock.
    pub fn set_cluster(&mut self, cluster: HostCluster)
        requires { HasPlace self.old.cluster_bits cluster }
        ensures { self.new ≡ record self.old { cluster = Some cluster } }
    {
        self.cluster = Some(cluster);
    }

    /// Leaves the refblock without a cluster.
    pub fn unset_cluster(&mut self)
        ensures { self.new ≡ record self.old { cluster = None } }
    {
        self.cluster = None;
    }
}

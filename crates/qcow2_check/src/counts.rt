//! The refcounts of clusters. Each refblock is read and kept once.

ghost use Rattle.std.specs.Prelude.{ℕ, ◌≡◌, ◌+◌, ◌*◌, ◌/◌, ◌<◌, ◌≤◌, ◌^◌, IfOk, IfErr, length, slice_index_or};
ghost use Rattle.std.specs.Option.{option_copied};
ghost use Rattle.qcow2_metadata.specs.Bytes.{byte_at};
ghost use Rattle.qcow2_metadata.specs.Header.{cluster_size, counts_per_block, reftable_entries};
ghost use Rattle.qcow2_metadata.specs.Entries.{count as count_of_cluster, reftable_entry};
ghost use Rattle.qcow2_metadata.specs.MetadataError.{OnlyReads};
ghost use Rattle.qcow2_metadata.specs.TableBytes.{entry_at as entry_of, IsClusterBits, IsOfStorageOrMemory};
ghost use Rattle.qcow2_check.specs.Counted.{block_in, count_in, KeepsBlocks, KeepsMore};

use crate::kept::{Block, Counts};
use crate::source::read_at;
use image_access::Storage;
use qcow2_metadata::{HeaderFields, MetadataError, block_offset, entry_at};
use std::alloc::Global;
use std::collections::BTreeMap;

/// The number of refcounts in a refblock.
fn counts_per_block_of(header: &HeaderFields) -> u64
    requires low { 9 ≤ header.now.cluster_bits }
    requires bits { header.now.cluster_bits ≤ 21 }
    requires order { header.now.refcount_order ≤ 6 }
    ensures value { result ≡ counts_per_block header.now }
    ensures some { 0 < result }
    ensures few { result ≤ 2 ^ 24 }
{
    let size: u64 = 1 << header.cluster_bits;
    size * 8 / (1 << header.refcount_order)
}

/// The number of the refblock at an offset, from 1 on, and 0 for no offset. A refblock without a number is read and kept. The buffer has one cluster.
fn number_of_block<S: Storage>(
    alloc: Global,
    blocks: &mut Vec<Block>,
    numbers: &mut BTreeMap<u64, usize>,
    header: &HeaderFields,
    storage: &mut S,
    place: u64,
    buf: &mut [u8],
) -> Result<usize, MetadataError>
    requires bits { IsClusterBits header.now.cluster_bits }
    requires order { header.now.refcount_order ≤ 6 }
    requires whole { length buf.old ≡ cluster_size header.now }
    ensures keeps { (S.view storage.old).is_honest
        → KeepsBlocks header.now (byte_at (S.view storage.old).contents) blocks.old.items numbers.old
        → IfOk result (KeepsMore header.now (byte_at (S.view storage.old).contents) blocks.old.items blocks.new.items numbers.new place) }
    ensures causes { IfErr result IsOfStorageOrMemory }
    ensures reading { OnlyReads (S.view storage.old) (S.view storage.new) result }
{
    if place == 0 {
        return Ok(0);
    }
    if let Some(number) = numbers.get(&place) {
        return Ok(*number);
    }
    read_at(storage, place, buf)?;
    let block = Block::of(alloc, buf, header.refcount_order)?;
    blocks.push(block)?;
    let number = blocks.len();
    numbers.insert(place, number)?;
    Ok(number)
}

impl Counts {
    /// Reads the refcounts of a reftable's entries. The buffer has one cluster.
    pub(crate) fn load<S: Storage>(
        alloc: Global,
        header: &HeaderFields,
        storage: &mut S,
        reftable: &[u8],
        buf: &mut [u8],
    ) -> Result<Counts, MetadataError>
        requires bits { IsClusterBits header.now.cluster_bits }
        requires order { header.now.refcount_order ≤ 6 }
        requires whole { length buf.old ≡ cluster_size header.now }
        requires few { length reftable.now ≤ 2 ^ 23 }
        requires long { length reftable.now ≡ 8 * reftable_entries header.now }
        ensures counts { (S.view storage.old).is_honest
            → ((k : ℕ) → entry_of reftable.now k ≡ reftable_entry header.now (byte_at (S.view storage.old).contents) k)
            → IfOk result (λ c. (q : ℕ) → count_in c q
            ≡ count_of_cluster header.now (byte_at (S.view storage.old).contents) q) }
        ensures causes { IfErr result IsOfStorageOrMemory }
        ensures reading { OnlyReads (S.view storage.old) (S.view storage.new) result }
    {
        let mut blocks = Vec::new(alloc);
        let mut known = BTreeMap::new(alloc);
        let mut numbers = Vec::new(alloc);
        for k in 0..reftable.len() / 8 {
            let place = block_offset(entry_at(reftable, k));
            let number = number_of_block(
                alloc,
                &mut blocks,
                &mut known,
                header,
                storage,
                place,
                buf,
            )?;
            numbers.push(number)?;
        }
        let per_block = counts_per_block_of(header);
        Ok(Counts {
            numbers,
            blocks,
            per_block,
        })
    }

    /// How many clusters may have their references in an array: four for each byte that is kept of the refblocks.
    pub(crate) fn room(&self) -> u64 {
        let mut bytes: u64 = 0;
        for block in &self.blocks {
            bytes = bytes.saturating_add(block.bytes.len() as u64);
        }
        bytes.saturating_mul(4)
    }

    /// All clusters from this one on have refcount 0.
    pub(crate) fn end(&self) -> u64
        ensures low { result ≤ 2 ^ 44 }
        ensures zeros { (q : ℕ) → result ≤ q → count_in self.now q ≡ 0 }
    {
        self.numbers.len() as u64 * self.per_block
    }

    /// The number of a reftable entry's refblock, 0 without one.
    fn number(&self, entry: u64) -> usize
        ensures { result ≡ slice_index_or self.now.numbers.items entry 0 }
    {
        self.numbers.get(entry as usize).copied().unwrap_or(0)
    }

    /// The refblock of a reftable entry, if there is one.
    fn block(&self, entry: u64) -> Option<&Block>
        ensures { option_copied result ≡ block_in self.now entry }
    {
        match self.number(entry) {
            0 => None,
            number => self.blocks.get(number - 1),
        }
    }

    /// The refcount of a cluster.
    pub(crate) fn count(&self, cluster: u64) -> u64
        ensures { result ≡ count_in self.now cluster }
    {
        match self.block(cluster / self.per_block) {
            Some(block) => block.count((cluster % self.per_block) as usize),
            None => 0,
        }
    }

    /// The first cluster from this one on with a refcount above 0, and its refcount. If the refblock has none, the result is the last cluster of
    /// the refblock.
    pub(crate) fn next_counted(&self, cluster: u64) -> (u64, u64)
        requires low { cluster < 2 ^ 44 }
        ensures later { cluster ≤ result.0 }
        ensures low { result.0 ≤ 2 ^ 45 }
        ensures zeros { (q : ℕ) → cluster ≤ q → q < result.0 → count_in self.now q ≡ 0 }
        ensures count { result.1 ≡ count_in self.now result.0 }
    {
        let entry = cluster / self.per_block;
        let first = entry * self.per_block;
        if let Some(block) = self.block(entry) {
            let j = block.next_counted((cluster - first) as usize) as u64;
            if j < self.per_block.min(block.len() as u64) {
                return (first + j, block.count(j as usize));
            }
        }
        (first + self.per_block - 1, 0)
    }
}

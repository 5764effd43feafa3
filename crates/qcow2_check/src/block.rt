//! The refcounts of one refblock.

ghost use Rattle.std.specs.Prelude.{ℕ, ◌≡◌, ◌*◌, ◌/◌, ◌%◌, ◌<◌, ◌≤◌, ◌^◌, ◌⊎◌, IfOk, List, [], length};
ghost use Rattle.qcow2_metadata.specs.Bytes.{byte_at};
ghost use Rattle.qcow2_metadata.specs.RefBlock.{count_in as count_in_bytes};
ghost use Rattle.qcow2_check.specs.Counted.{count_of, counts_kept};

use crate::kept::Block;
use qcow2_metadata::read_count;
use std::alloc::{AllocError, Global};

/// The bytes, or none if all refcounts are 0.
fn kept_bytes(alloc: Global, bytes: &[u8]) -> Result<Vec<u8>, AllocError>
    ensures { IfOk result (λ kept. (kept.items ≡ bytes.now)
        ⊎ ((kept.items ≡ []) × ((k : ℕ) → byte_at bytes.now k ≡ 0))) }
{
    for byte in bytes {
        if *byte != 0 {
            return bytes.to_vec(alloc);
        }
    }
    Ok(Vec::new(alloc))
}

impl Block {
    /// The refcounts in the bytes of a refblock.
    pub(crate) fn of(alloc: Global, bytes: &[u8], order: u32) -> Result<Block, AllocError>
        requires order { order ≤ 6 }
        requires whole { length bytes.now % 8 ≡ 0 }
        requires short { length bytes.now ≤ 2 ^ 21 }
        ensures { IfOk result (λ block. (j : ℕ) → j < length bytes.now * 8 / 2 ^ order
            → count_of block j ≡ count_in_bytes order bytes.now j) }
    {
        let bytes = kept_bytes(alloc, bytes)?;
        Ok(Block { bytes, order })
    }

    /// The number of refcounts that are kept.
    pub(crate) fn len(&self) -> usize
        ensures { result ≡ counts_kept self.now }
    {
        self.bytes.len() * 8 / (1 << self.order)
    }

    /// Refcount j, which is 0 past those that are kept.
    pub(crate) fn count(&self, j: usize) -> u64
        ensures { result ≡ count_of self.now j }
    {
        if j < self.len() {
            read_count(&self.bytes, self.order, j)
        } else {
            0
        }
    }

    /// The index of the first refcount from j on that isn't 0. If there is none, an index past all refcounts that are kept.
    pub(crate) fn next_counted(&self, j: usize) -> usize
        ensures later { j ≤ result }
        ensures zeros { (i : ℕ) → j ≤ i → i < result → count_of self.now i ≡ 0 }
    {
        let end = self.len();
        for i in j..end {
            if self.count(i) != 0 {
                return i;
            }
        }
        j.max(end)
    }
}

//! The refblocks of an image, as the check keeps them.

ghost use Rattle.std.specs.Prelude.{◌≡◌, ◌%◌, ◌<◌, ◌≤◌, ◌^◌, length};

/// The bytes of a refblock, or none if all its refcounts are 0.
#[derive(Drop)]
pub(crate) struct Block {
    pub(crate) bytes: Vec<u8>,
    /// The binary logarithm of the refcount width in bits.
    pub(crate) order: u32,
    ghost low: { order ≤ 6 },
    ghost whole: { length bytes.items % 8 ≡ 0 },
    ghost short: { length bytes.items ≤ 2 ^ 21 },
}

/// The refcounts of all clusters. A refblock is kept once, however many reftable entries refer to it.
#[derive(Drop)]
pub(crate) struct Counts {
    /// For each reftable entry, the number of its refblock, 0 without one.
    pub(crate) numbers: Vec<usize>,
    /// The refblocks. Their numbers begin at 1.
    pub(crate) blocks: Vec<Block>,
    /// The number of clusters that a reftable entry covers.
    pub(crate) per_block: u64,
    ghost few: { length numbers.items ≤ 2 ^ 20 },
    ghost some: { 0 < per_block },
    ghost narrow: { per_block ≤ 2 ^ 24 },
}

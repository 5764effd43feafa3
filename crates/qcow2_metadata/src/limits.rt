//! Constants of the format, and the limits of QEMU and of this library.

/// The first four bytes of an image.
pub const MAGIC: u32 = 0x5146_49fb;

/// The greatest number of entries of an L1 table.
pub const MAX_L1_ENTRIES: usize = 4_194_304;

/// The greatest number of entries of a reftable.
pub const MAX_REFTABLE_ENTRIES: usize = 1_048_576;

/// Bits 9 to 55 of an L1 or L2 entry, which are the host offset. This is also the greatest offset that an entry can hold.
pub const MAX_HOST_OFFSET: u64 = 0x00ff_ffff_ffff_fe00;

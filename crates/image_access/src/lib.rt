//! Storages of bytes and backing disks, and their views in contracts: contents, moments and faults.
#![tactic(auto)]

mod backing;
mod call_count;
mod change;
mod dynamic;
mod error;
mod laws;
mod mem_backing;
mod memory;
mod storage;
mod trace;

pub use backing::{BackingDisk, WrappedFormat};
pub use change::{Change, WrittenBytes};
pub use dynamic::DynStorage;
pub use error::StorageError;
pub use laws::{
    first_writes_are_moments, reads_give_bytes, resizes_are_read, writes_are_read, zeroes_are_read,
};
pub use mem_backing::MemBacking;
pub use memory::MemStorage;
pub use storage::{Format, PreallocateMode, Storage, StoragePreallocate};
pub use trace::TraceStorage;

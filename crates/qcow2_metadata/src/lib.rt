//! The qcow2 format: the header, and the tables that are loaded from an image.
#![tactic(auto)]

mod big_endian;
mod entry_table;
mod error;
mod header;
mod l1_table;
mod l2_mapping;
mod l2_table;
mod limits;
mod numbers;
mod raw_tables;
mod ref_block;
mod ref_table;
mod table_bytes;

pub use error::MetadataError;
pub use header::{Header, HeaderFields};
pub use l1_table::{L1Entry, L1Table};
pub use l2_mapping::{L2Mapping, host_offset, is_copied};
pub use l2_table::L2Table;
pub use limits::{MAGIC, MAX_HOST_OFFSET, MAX_L1_ENTRIES, MAX_REFTABLE_ENTRIES};
pub use numbers::{ClusterCount, GuestCluster, GuestOffset, HostCluster, HostOffset};
pub use ref_block::{RefBlock, read_count};
pub use ref_table::{RefTable, block_offset};
pub use table_bytes::entry_at;

//! The cached metadata of a qcow2 image, and the allocation of its clusters.
#![tactic(auto)]

mod allocation;
pub mod async_lru_cache;
mod cache;
mod clusters_to_free;
mod error;
mod free_room;
mod free_runs;
mod freed_clusters;
mod image_file;
mod image_storage;
mod new_refblocks;
mod refblocks;
mod reftable_growth;
mod reftable_length;
mod reftable_naming;
mod spared_clusters;
mod table_cache;
mod used_clusters;

pub use allocation::Allocator;
pub use cache::{Direction, L2CacheBackend, MetadataCaches, RefBlockCacheBackend};
pub use clusters_to_free::{
    ClusterKind, ClustersToFreeEntry, ClustersToFreeList, PendingClusters, TakenClusters,
};
pub use error::ImageError;
pub use image_file::ImageFile;
pub use image_storage::{ImageStorage, WriteKind};

//! An open qcow2 image: lookups, reading and writing through mappings, creating and opening.
#![tactic(auto)]

mod backing;
mod builder;
mod copy_range;
mod cow;
mod data_file;
mod discarding;
mod first_cluster;
mod image;
mod invalidation;
mod io_func;
mod l1_tables;
mod l2_tables;
mod lookups;
mod mapping;
mod mappings;
mod opening;
mod preallocation;
mod prepared;
mod ranges;
mod resizing;
mod storages;

pub use builder::{NoBacking, Qcow2CreateBuilder};
pub use image::{Missing, Qcow2};
pub use mapping::{Mapping, MappingKind, Place};
pub use opening::Qcow2OpenBuilder;
pub use prepared::{CommitRefused, Prepared};
pub use qcow2_alloc::async_lru_cache::{
    AsyncLruCache, AsyncLruCacheBackend, CacheError, CacheTypes, CachedValue,
};
pub use qcow2_alloc::{
    Allocator, ClusterKind, ClustersToFreeEntry, ClustersToFreeList, Direction, ImageError,
    ImageFile, ImageStorage, L2CacheBackend, MetadataCaches, PendingClusters, RefBlockCacheBackend,
    TakenClusters, WriteKind,
};

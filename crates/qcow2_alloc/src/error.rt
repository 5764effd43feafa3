ghost use Rattle.std.specs.Prelude.{◌≡◌, ◌↔◌, IsTrue};

use crate::async_lru_cache::CacheError;
use image_access::StorageError;
use qcow2_metadata::{HostCluster, MetadataError};
use std::alloc::{AllocError, AllocFailed};
use std::error::Error;
use std::fmt;
use std::io::ErrorKind;

/// Why a call of the driver is refused. Each case has a number and a name.
#[derive(Debug, PartialEq, Eq, Drop)]
pub enum ImageError {
    /// 1 (read-only): the image was opened for reading.
    ReadOnly,
    /// 2 (beyond size): the range is not empty and ends past the disk's size.
    BeyondSize,
    /// 3 (version): the call needs version 3, and the image has version 2.
    Version,
    /// 4 (unaligned table): the offset of a table or of a data cluster is not a multiple of the cluster size.
    UnalignedTable,
    /// 5 (invalid option): a builder has a value that is not allowed, or the two disks of a conversion differ in size.
    InvalidOption,
    /// 6 (preallocation): the mode allocates clusters, and there is a backing disk.
    Preallocation,
    /// 7 (compressed): the call needs the data of a compressed cluster.
    Compressed,
    /// 8 (everything is in use): every cache entry is pinned.
    InUse,
    /// 9 (table prepared): the L2 table is pinned by a prepared mapping.
    TablePrepared,
    /// 10 (outdated mapping): the range is not mapped in this way any more.
    OutdatedMapping,
    /// 11 (foreign state): the mapping belongs to another image.
    ForeignState,
    /// 12 (dependency): a file that the image names or needs is missing.
    Dependency,
    /// 13 (limit): a limit of the format or of this library is passed, or there is no room for clusters that are needed.
    Limit,
    /// 14 (memory): an allocation of memory failed.
    Memory,
    /// 15 (storage): a storage or the backing disk failed in this call.
    Storage,
    /// 16 (failed): an earlier call made the image fail.
    Failed,
    /// 17 (mapping prepared): the call is not possible while a mapping is prepared.
    MappingPrepared,
    /// 18 (not compressed): the data at this guest offset in bytes are not compressed.
    NotCompressed { offset: u64 },
    /// 19 (metadata): a header or an entry is not readable.
    Metadata,
    /// 20 (overflow): an offset passes 64 bits.
    Overflow,
    /// 21 (still in use): invalidating kept the tables of these clusters, which are pinned.
    StillInUse { tables: Vec<HostCluster> },
}

impl ImageError {
    ghost use Rattle.qcow2_alloc.specs.ImageError.{IsFault, error_number_of, error_kind_of};
    ghost use Rattle.qcow2_alloc.specs.RefusalNames.{error_name_of};

    /// The number of the refusal, from 1 to 21.
    pub fn number(&self) -> u8
        ensures { result ≡ error_number_of self.now }
    {
        match self {
            ImageError::ReadOnly => 1,
            ImageError::BeyondSize => 2,
            ImageError::Version => 3,
            ImageError::UnalignedTable => 4,
            ImageError::InvalidOption => 5,
            ImageError::Preallocation => 6,
            ImageError::Compressed => 7,
            ImageError::InUse => 8,
            ImageError::TablePrepared => 9,
            ImageError::OutdatedMapping => 10,
            ImageError::ForeignState => 11,
            ImageError::Dependency => 12,
            ImageError::Limit => 13,
            ImageError::Memory => 14,
            ImageError::Storage => 15,
            ImageError::Failed => 16,
            ImageError::MappingPrepared => 17,
            ImageError::NotCompressed { offset: _ } => 18,
            ImageError::Metadata => 19,
            ImageError::Overflow => 20,
            ImageError::StillInUse { tables: _ } => 21,
        }
    }

    /// The name of the refusal, which is what `Display` prints.
    pub fn name(&self) -> &'static str
        ensures { result.now ≡ error_name_of self.now }
    {
        match self {
            ImageError::ReadOnly => "read-only",
            ImageError::BeyondSize => "beyond size",
            ImageError::Version => "version",
            ImageError::UnalignedTable => "unaligned table",
            ImageError::InvalidOption => "invalid option",
            ImageError::Preallocation => "preallocation",
            ImageError::Compressed => "compressed",
            ImageError::InUse => "everything is in use",
            ImageError::TablePrepared => "table prepared",
            ImageError::OutdatedMapping => "outdated mapping",
            ImageError::ForeignState => "foreign state",
            ImageError::Dependency => "dependency",
            ImageError::Limit => "limit",
            ImageError::Memory => "memory",
            ImageError::Storage => "storage",
            ImageError::Failed => "failed",
            ImageError::MappingPrepared => "mapping prepared",
            ImageError::NotCompressed { offset: _ } => "not compressed",
            ImageError::Metadata => "metadata",
            ImageError::Overflow => "overflow",
            ImageError::StillInUse { tables: _ } => "still in use",
        }
    }

    /// Whether it is a fault: 15 (storage) or 14 (memory).
    pub fn is_fault(&self) -> bool
        ensures { IsTrue result ↔ IsFault self.now }
    {
        matches!(self, ImageError::Storage | ImageError::Memory)
    }

    /// The closest kind of the operating system's errors.
    pub fn kind(&self) -> ErrorKind
        ensures { result ≡ error_kind_of self.now }
    {
        match self {
            ImageError::BeyondSize => ErrorKind::UnexpectedEof,
            ImageError::Version | ImageError::Preallocation | ImageError::Compressed =>
                ErrorKind::Unsupported,
            ImageError::UnalignedTable | ImageError::Metadata => ErrorKind::InvalidData,
            ImageError::InvalidOption | ImageError::ForeignState | ImageError::Overflow =>
                ErrorKind::InvalidInput,
            ImageError::Memory => ErrorKind::OutOfMemory,
            _ => ErrorKind::Other,
        }
    }
}

impl fmt::Display for ImageError {
    ghost use Rattle.std.specs.Prelude.{Some};
    ghost use Rattle.qcow2_alloc.specs.RefusalNames.{error_name_of};

    ghost output = { λ e. Some (error_name_of e) };

    fn fmt<W: fmt::Write>(&self, f: &mut fmt::Formatter<W>) -> fmt::Result {
        f.write_str(self.name())
    }
}

impl Error for ImageError {}

impl From<StorageError> for ImageError {
    ghost use Rattle.qcow2_alloc.specs.ImageError.{of_storage};

    ghost from_gives = { λ e r. r ≡ of_storage e };

    fn from(e: StorageError) -> ImageError {
        match e {
            StorageError::Fault => ImageError::Storage,
            StorageError::Memory => ImageError::Memory,
        }
    }
}

impl From<MetadataError> for ImageError {
    ghost use Rattle.qcow2_alloc.specs.ImageError.{of_metadata};

    ghost from_gives = { λ e r. r ≡ of_metadata e };

    fn from(e: MetadataError) -> ImageError {
        match e {
            MetadataError::Storage(e) => ImageError::from(e),
            MetadataError::Memory => ImageError::Memory,
            MetadataError::Version => ImageError::Version,
            MetadataError::Unaligned => ImageError::UnalignedTable,
            MetadataError::Limit => ImageError::Limit,
            MetadataError::Format => ImageError::Metadata,
        }
    }
}

impl From<CacheError<HostCluster, MetadataError>> for ImageError {
    ghost use Rattle.qcow2_alloc.specs.ImageError.{of_cache};

    ghost from_gives = { λ e r. r ≡ of_cache e };

    fn from(e: CacheError<HostCluster, MetadataError>) -> ImageError {
        match e {
            CacheError::InUse => ImageError::InUse,
            CacheError::StillInUse(tables) => ImageError::StillInUse { tables },
            CacheError::Memory => ImageError::Memory,
            CacheError::Backend(e) => ImageError::from(e),
        }
    }
}

impl From<AllocError> for ImageError {
    ghost use Rattle.qcow2_alloc.specs.declared.error.ImageError.TheVariants.{Memory};

    ghost from_gives = { λ _ r. r ≡ Memory };

    fn from(_: AllocError) -> ImageError {
        ImageError::Memory
    }
}

impl<T: Drop> From<AllocFailed<T>> for ImageError {
    ghost use Rattle.qcow2_alloc.specs.declared.error.ImageError.TheVariants.{Memory};

    ghost from_gives = { λ _ r. r ≡ Memory };

    fn from(_: AllocFailed<T>) -> ImageError {
        ImageError::Memory
    }
}

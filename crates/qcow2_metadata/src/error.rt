ghost use Rattle.std.specs.Prelude.{◌≡◌};

use image_access::StorageError;
use std::alloc::{AllocError, AllocFailed};
use thiserror::Error;

/// Why a header or a table was not loaded or written, or an entry was not used. Numbers are those of the driver's refusals.
#[derive(Clone, Copy, Debug, PartialEq, Eq, Error)]
pub enum MetadataError {
    /// The storage refused: 15 (storage) for an I/O error, 14 (memory) for a failed allocation.
    #[error("{0}")]
    Storage(StorageError),
    /// An allocation failed: 14 (memory).
    #[error("out of memory")]
    Memory,
    /// The call needs version 3: 3 (version).
    #[error("version")]
    Version,
    /// An offset isn't a multiple of the cluster size: 4 (unaligned table).
    #[error("unaligned table")]
    Unaligned,
    /// A limit of the format or of this library is passed: 13 (limit).
    #[error("limit")]
    Limit,
    /// The header or a table isn't readable: 19 (metadata).
    #[error("metadata")]
    Format,
}

impl From<StorageError> for MetadataError {
    ghost use Rattle.qcow2_metadata.specs.declared.error.MetadataError.TheVariants.{Storage};

    ghost from_gives = { λ e r. r ≡ Storage e };

    fn from(e: StorageError) -> MetadataError {
        MetadataError::Storage(e)
    }
}

impl From<AllocError> for MetadataError {
    ghost use Rattle.qcow2_metadata.specs.declared.error.MetadataError.TheVariants.{Memory};

    ghost from_gives = { λ _ r. r ≡ Memory };

    fn from(_: AllocError) -> MetadataError {
        MetadataError::Memory
    }
}

impl<T: Drop> From<AllocFailed<T>> for MetadataError {
    ghost use Rattle.qcow2_metadata.specs.declared.error.MetadataError.TheVariants.{Memory};

    ghost from_gives = { λ _ r. r ≡ Memory };

    fn from(_: AllocFailed<T>) -> MetadataError {
        MetadataError::Memory
    }
}
